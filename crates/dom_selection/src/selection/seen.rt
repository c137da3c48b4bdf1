//! Sets of node ids.

ghost use Rattle.std.specs.Prelude.{◌≡◌, ◌∷◌, [], not, IfOk, OnOk};
ghost use Rattle.dom_links.specs.Lists.{is_member};
ghost use Rattle.dom_selection.specs.Seen.{HaveSame};
ghost use Rattle.dom_selection.specs.Selections.{ids_of};

use dom_nodes::fault::OutOfMemory;
use dom_nodes::node_id::NodeId;
use dom_trees::node_ref::NodeRef;
use std::alloc::Global;
use std::collections::BTreeSet;
use std::marker::Model;

/// A set of node ids. Its cost depends on the number of ids in it, and not on the size of the tree.
/// In a contract it is a list of its ids.
#[derive(Drop)]
pub(crate) struct Seen {
    numbers: BTreeSet<usize>,
}

impl Model for Seen {
    ghost use Rattle.std.specs.Prelude.{ℕ, List};

    ghost Value = { List ℕ };

    ghost view = { λ seen. seen.numbers.keys };
}

impl Seen {
    /// Returns the empty set. It allocates no memory.
    pub(crate) fn new(alloc: Global) -> Seen
        ensures { result ≡ [] }
    {
        Seen {
            numbers: BTreeSet::new(alloc),
        }
    }

    /// Returns whether the id is in the set.
    pub(crate) fn has(&self, id: NodeId) -> bool
        ensures { result ≡ is_member id self.now }
    {
        self.numbers.contains(&id.value())
    }

    /// Inserts the id, and returns whether it is new. It fails with `OutOfMemory` when memory is
    /// refused.
    pub(crate) fn note(&mut self, id: NodeId) -> Result<bool, OutOfMemory>
        ensures new { IfOk result (λ new. new ≡ not (is_member id self.old)) }
        ensures noted { OnOk result (HaveSame (id ∷ self.old) self.new) }
    {
        Ok(self.numbers.insert(id.value())?)
    }

    /// Returns the set of the ids of these nodes. It fails with `OutOfMemory` when memory is
    /// refused.
    pub(crate) fn of(alloc: Global, nodes: &[NodeRef<'_>]) -> Result<Seen, OutOfMemory>
        ensures { IfOk result (HaveSame (ids_of nodes.now)) }
    {
        let mut seen = Seen::new(alloc);
        for node in nodes {
            seen.note(node.id)?;
        }
        Ok(seen)
    }
}
