//! The roots below which a selector selects.

ghost use Rattle.std.specs.Iterator.{YieldsFirst};
ghost use Rattle.dom_select.specs.Roots.{root_ids};

use dom_nodes::node_id::NodeId;
use dom_trees::node_ref::NodeRef;

/// Some nodes of a tree in order, as ids or as references.
#[derive(Clone, Copy)]
pub(crate) enum Roots<'a, 'r> {
    /// The nodes with these ids.
    Numbers(&'r [NodeId]),
    /// These node references.
    Nodes(&'r [NodeRef<'a>]),
}

/// Removes the first node and returns its id.
pub(crate) fn take_first<'a, 'r>(roots: &mut Roots<'a, 'r>) -> Option<NodeId>
    ensures { YieldsFirst root_ids roots.old result roots.new }
{
    match *roots {
        Roots::Numbers(ids) => {
            let (first, rest) = ids.split_first()?;
            *roots = Roots::Numbers(rest);
            Some(*first)
        }
        Roots::Nodes(nodes) => {
            let (first, rest) = nodes.split_first()?;
            *roots = Roots::Nodes(rest);
            Some(first.id)
        }
    }
}
