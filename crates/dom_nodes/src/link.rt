//! The link from a node to another one, or to none, in four bytes.

ghost use Rattle.std.specs.Prelude.{◌≡◌};

use crate::node_id::NodeId;
use std::fmt;
use std::marker::Model;

/// An optional node id, stored in four bytes. In a contract a `Link` is an optional natural number.
#[derive(Clone, Copy, PartialEq, Eq, Drop)]
pub struct Link {
    value: u32,
}

impl Model for Link {
    ghost use Rattle.std.specs.Prelude.{◌≤◌, ℕ, Option};

    ghost Value = { Option ℕ };

    ghost use Rattle.dom_nodes.specs.Links.{link_target, link_of, link_same};

    ghost view = { λ link. link_target link.value };

    ghost invariant = { λ link. link.value ≤ 4294967295 };

    ghost inverse = { link_of };

    ghost inverse_ok = { link_same };
}

/// The value that is stored for `None`. It isn't a valid node id.
const NOWHERE: u32 = 4294967295;

impl Link {
    /// Returns the link to the node with this id, or the empty link for `None`.
    pub fn new(id: Option<NodeId>) -> Link
        ensures { result ≡ id }
    {
        match id {
            Some(id) => Link {
                value: id.value() as u32,
            },
            None => Link { value: NOWHERE },
        }
    }

    /// Returns the id of the node that the link leads to, or `None` for the empty link.
    pub fn get(self) -> Option<NodeId>
        ensures { result ≡ self }
    {
        NodeId::new(self.value as usize)
    }
}

/// Prints the link as the `Option` that `get` returns.
impl fmt::Debug for Link {
    fn fmt<W: fmt::Write>(&self, f: &mut fmt::Formatter<W>) -> fmt::Result {
        fmt::Debug::fmt(&self.get(), f)
    }
}
