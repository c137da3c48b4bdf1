//! Inserting copies of nodes at a place in the tree.

ghost use Rattle.dom_trees.specs.Edits.{Edits, inserting};

use crate::checks::check_place;
use crate::tree::Tree;
use dom_links::gap::Place;
use dom_links::ops::insertions;
use dom_nodes::fault::EditFault;
use dom_nodes::node_id::NodeId;

impl Tree {
    /// Copies nodes of another tree, as `merge` does, and inserts the copies, in their order, at a
    /// place relative to the node `id`. It fails with `UnknownNode` when `id` is unknown; with
    /// `NoChildrenHere` when the place is among the children of a node that can't have any; with
    /// `RootOrFragment` when it is beside the root, a document or a fragment; and as `merge` does.
    /// These tests are made even when there is nothing to copy. After an error the tree is
    /// unchanged.
    pub fn merge_at(
        &mut self,
        id: &NodeId,
        place: Place,
        other: &Tree,
        ids: &[NodeId],
    ) -> Result<(), EditFault>
        ensures { Edits result self.old self.new (inserting other.now ids.now place id.now) }
    {
        check_place(&self.nodes, *id, place)?;
        insertions::merge_at(&mut self.nodes, *id, place, &other.nodes, ids)
    }

    /// Copies nodes of this tree and inserts the copies, in their order, at a place relative to the
    /// node `id`. It fails as `merge_at` does, and then the tree is unchanged.
    pub fn copy_at(&mut self, id: &NodeId, place: Place, ids: &[NodeId]) -> Result<(), EditFault>
        ensures { Edits result self.old self.new (inserting self.old ids.now place id.now) }
    {
        check_place(&self.nodes, *id, place)?;
        insertions::copy_at(&mut self.nodes, *id, place, ids)
    }
}
