//! Selections as sets of nodes: intersection and union.

ghost use Rattle.std.specs.Prelude.{◌≡◌, ◌++◌, ◌∷◌, [], IfOk, OnOk};
ghost use Rattle.std.specs.List.{list_any};
ghost use Rattle.dom_links.specs.Lists.{is_member, without};
ghost use Rattle.dom_trees.specs.Views.{refs_to};
ghost use Rattle.dom_selection.specs.Selections.{HasOneTree, Lists, added, common};
ghost use Rattle.dom_selection.specs.Selections.{has_number, have_common, ids_of};

use crate::selection::seen::Seen;
use crate::selection::{Selection, copies_of, push_if};
use dom_nodes::fault::OutOfMemory;
use dom_nodes::node_id::NodeId;
use dom_trees::node_ref::NodeRef;

/// Returns whether the id is that of one of the nodes.
fn is_member(id: NodeId, nodes: &[NodeRef<'_>]) -> bool
    ensures { result ≡ is_member id (ids_of nodes.now) }
{
    some_has(nodes, id)
}

fn some_has(nodes: &[NodeRef<'_>], id: NodeId) -> bool
    ensures { result ≡ list_any (has_number id) nodes.now }
{
    nodes.iter().any(|node| has_number(node, id))
}

fn has_number(node: &NodeRef<'_>, id: NodeId) -> bool
    ensures { result ≡ has_number id node.now }
{
    node.id == id
}

impl<'a> Selection<'a> {
    /// Returns whether the two selections have a node in common, by id. When memory is refused, the
    /// ids are compared one by one, so the call can't fail.
    pub fn is_selection(&self, other: &Selection<'_>) -> bool
        ensures { result ≡ have_common self.now other.now }
    {
        match Seen::of(self.allocator(), other.nodes()) {
            Ok(theirs) => self.nodes().iter().any(|node| theirs.has(node.id)),
            Err(_) => self
                .nodes()
                .iter()
                .any(|node| is_member(node.id, other.nodes())),
        }
    }

    /// Returns the nodes whose ids are also in the other selection, in their order. If the other
    /// selection is empty, the result is all nodes. It fails with `OutOfMemory` when memory is
    /// refused.
    pub fn filter_selection(&self, other: &Selection<'_>) -> Result<Selection<'a>, OutOfMemory>
        ensures { Lists result (common self.now other.now) }
    {
        if other.is_empty() {
            return self.try_clone();
        }
        let theirs = Seen::of(self.allocator(), other.nodes())?;
        let mut kept = Vec::new(self.allocator());
        for node in self.nodes() {
            push_if(&mut kept, node, theirs.has(node.id))?;
        }
        Ok(Selection::of_one_tree(kept))
    }

    /// Returns the nodes of this selection, then those of the other one whose ids aren't among
    /// them. These are taken by id from this selection's tree. If this selection is empty, the
    /// result is the other one. It fails with `OutOfMemory` when memory is refused.
    pub fn add_selection(&self, other: &Selection<'a>) -> Result<Selection<'a>, OutOfMemory>
        ensures { Lists result (added self.now other.now) }
    {
        let Some(tree) = self.tree() else {
            return other.try_clone();
        };
        let ours = Seen::of(self.allocator(), self.nodes())?;
        let mut all = copies_of(self.allocator(), self.nodes())?;
        for node in other.nodes() {
            push_if(&mut all, &NodeRef::new(node.id, tree), !ours.has(node.id))?;
        }
        Ok(Selection::of_one_tree(all))
    }
}
