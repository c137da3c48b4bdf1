//! Inserting nodes of the tree itself at each node of a selection, as copies.

ghost use Rattle.std.specs.Prelude.{◌≡◌, IfOk, reverse};
ghost use Rattle.dom_edits.specs.Sources.{CopiesSelected, TransfersSelected, DetachesSources};
ghost use Rattle.dom_links.specs.declared.gap.Place.TheVariants.{AtEnd, AtFront, InsteadOfNode};

use crate::edit::{Edit, SelectionFault, edit_each};
use crate::selection_mut::SelectionMut;
use dom_links::gap::Place;
use dom_nodes::fault::{EditFault, OutOfMemory};
use dom_nodes::node_id::NodeId;
use dom_trees::tree::Tree;
use std::alloc::Global;

/// Tests that all source nodes exist, and then detaches each of them.
fn detach_sources(tree: &mut Tree, sources: &[NodeId]) -> Result<(), SelectionFault>
    ensures { DetachesSources result tree.old tree.new sources.now }
{
    for id in sources {
        if id.value() >= tree.len() {
            return Err(SelectionFault {
                done: 0,
                fault: EditFault::UnknownNode,
            });
        }
    }
    edit_each(tree, sources, Edit::Remove)
}

/// Returns the ids in reverse order.
fn reversed(alloc: Global, ids: &[NodeId]) -> Result<Vec<NodeId>, OutOfMemory>
    ensures { IfOk result (λ reversed. reversed.items ≡ reverse ids.now) }
{
    let mut reversed = Vec::new(alloc);
    reversed.extend_from_slice(ids)?;
    reversed.reverse();
    Ok(reversed)
}

/// Inserting nodes of the same tree, the sources. If a source is unknown, the fault is
/// `UnknownNode`, `done` is 0 and nothing changes. Otherwise the sources are detached first, and
/// stay detached even if an error follows. Then copies of them with their subtrees are inserted at
/// each node; all copies for a node are made before the node is changed. Without sources nothing
/// changes. At a node this fails with `UnknownNode`; with `NoChildrenHere` or `RootOrFragment` when
/// nodes can't be put there, or when a source is a document or a fragment; and with `TooManyNodes`
/// or `Memory`.
impl<'a> SelectionMut<'a> {
    /// Inserts copies of the nodes at this place relative to each node of the selection.
    fn copy_each(&mut self, place: Place, sources: &[NodeId]) -> Result<(), SelectionFault>
        ensures { CopiesSelected result self.old self.new sources.now place }
    {
        if sources.is_empty() {
            return Ok(());
        }
        edit_each(self.tree, &self.nodes, Edit::Copy(place, sources))
    }

    /// Inserts copies of the nodes before the first child of each node, the last one first.
    fn copy_reversed(&mut self, sources: &[NodeId]) -> Result<(), SelectionFault>
        ensures { CopiesSelected result self.old self.new (reverse sources.now) AtFront }
    {
        if sources.is_empty() || self.nodes.is_empty() {
            return Ok(());
        }
        match reversed(self.tree.allocator(), sources) {
            Ok(reversed) => self.copy_each(Place::AtFront, &reversed),
            Err(_) => Err(SelectionFault {
                done: 0,
                fault: EditFault::Memory,
            }),
        }
    }

    /// Detaches the source nodes, and appends copies of them to the children of each node. An
    /// unknown source fails with `UnknownNode` before anything changes. At a node it fails with
    /// `UnknownNode`, `NoChildrenHere`, `RootOrFragment` (for a source), `TooManyNodes` or
    /// `Memory`; the sources stay detached.
    pub fn append_selection(&mut self, sources: &[NodeId]) -> Result<(), SelectionFault>
        ensures { TransfersSelected result self.old self.new sources.now sources.now AtEnd }
    {
        detach_sources(self.tree, sources)?;
        self.copy_each(Place::AtEnd, sources)
    }

    /// Detaches the source nodes, and inserts copies of them before the first child of each node,
    /// one by one, so that the last source comes first. It fails as `append_selection` does.
    pub fn prepend_selection(&mut self, sources: &[NodeId]) -> Result<(), SelectionFault>
        ensures { TransfersSelected result self.old self.new sources.now
            (reverse sources.now) AtFront }
    {
        detach_sources(self.tree, sources)?;
        self.copy_reversed(sources)
    }

    /// Detaches the source nodes, and replaces each node by copies of them. An unknown source fails
    /// with `UnknownNode` before anything changes. At a node it fails with `UnknownNode`,
    /// `RootOrFragment`, `TooManyNodes` or `Memory`; the sources stay detached.
    pub fn replace_with_selection(&mut self, sources: &[NodeId]) -> Result<(), SelectionFault>
        ensures { TransfersSelected result self.old self.new sources.now sources.now InsteadOfNode }
    {
        detach_sources(self.tree, sources)?;
        self.copy_each(Place::InsteadOfNode, sources)
    }
}
