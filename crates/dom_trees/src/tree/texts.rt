//! Edits of the texts of a tree, by node id.

ghost use Rattle.std.specs.Prelude.{◌≡◌, map};
ghost use Rattle.dom_links.specs.Stripped.{stripped};
ghost use Rattle.dom_trees.specs.Edits.{Edits, normalizing, setting_text};

use crate::checks::check_known;
use crate::tree::Tree;
use dom_links::ops::TreeNodeOps;
use dom_nodes::fault::EditFault;
use dom_nodes::node_id::NodeId;

impl Tree {
    /// Replaces the children of an element by one text node, or the contents of a text node. Other
    /// nodes are left alone. It fails with `UnknownNode`; with `TooManyNodes` for an element; with
    /// `Memory` for an element or a text.
    pub fn set_text_of(&mut self, id: &NodeId, text: &str) -> Result<(), EditFault>
        ensures { Edits result self.old self.new (setting_text id.now text.now) }
    {
        check_known(&self.nodes, *id)?;
        TreeNodeOps::set_text(&mut self.nodes, *id, text)
    }

    /// Joins adjacent text nodes among the node's descendants. In each sequence of adjacent texts
    /// the first one that isn't empty gets the text of all; the others are detached and emptied. It
    /// fails with `UnknownNode` or `Memory`.
    pub fn normalize_of(&mut self, id: &NodeId) -> Result<(), EditFault>
        ensures { Edits result self.old self.new (normalizing id.now) }
    {
        check_known(&self.nodes, *id)?;
        let alloc = self.allocator();
        TreeNodeOps::normalize(alloc, &mut self.nodes, *id)
    }

    /// Replaces each element below the node whose local name is in `names` by its children. The
    /// node itself stays. It allocates no memory. For an unknown id nothing changes.
    pub fn strip_elements_of(&mut self, id: &NodeId, names: &[&str])
        ensures { self.new ≡ stripped (map (λ name. name.now) names.now) id.now self.old }
    {
        TreeNodeOps::strip_elements(&mut self.nodes, *id, names);
    }
}
