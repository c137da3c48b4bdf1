//! Changes of the texts at and below the node, and of the elements around them.

ghost use Rattle.std.specs.Prelude.{map};
ghost use Rattle.dom_links.specs.Stripped.{stripped};
ghost use Rattle.dom_trees.specs.Edits.{normalizing, setting_text};
ghost use Rattle.dom_trees.specs.Lending.{EditsAt, LeavesAt};

use crate::node_mut::NodeMut;
use dom_nodes::fault::EditFault;

impl<'a> NodeMut<'a> {
    /// Joins adjacent text nodes among the node's descendants. In each sequence of adjacent texts
    /// the first one that isn't empty gets the text of all; the others are detached and emptied. It
    /// fails with `UnknownNode` or `Memory`.
    pub fn normalize(&mut self) -> Result<(), EditFault>
        ensures { EditsAt result self.old self.new (normalizing self.old.id) }
    {
        self.tree.normalize_of(&self.id)
    }

    /// Replaces the children of an element by one text node, or the contents of a text node. Other
    /// nodes are left alone. It fails with `UnknownNode`; with `TooManyNodes` for an element; with
    /// `Memory` for an element or a text.
    pub fn set_text(&mut self, text: &str) -> Result<(), EditFault>
        ensures { EditsAt result self.old self.new (setting_text self.old.id text.now) }
    {
        self.tree.set_text_of(&self.id, text)
    }

    /// Replaces each element below the node whose local name is in `names` by its children. The
    /// node itself stays. It allocates no memory. For an unknown id nothing changes.
    pub fn strip_elements(&mut self, names: &[&str])
        ensures { LeavesAt self.old self.new
            (stripped (map (λ name. name.now) names.now) self.old.id) }
    {
        self.tree.strip_elements_of(&self.id, names);
    }
}
