//! The texts of a selection's nodes, and whether one of them has a class.

ghost use Rattle.std.specs.Prelude.{◌≡◌, ◌++◌, IfOk, OnOk, string_bytes};
ghost use Rattle.dom_nodes.specs.Words.{class_words, is_among};
ghost use Rattle.dom_links.specs.Texts.{immediate_text_of, text_of};
ghost use Rattle.dom_trees.specs.Views.{node_attrs};
ghost use Rattle.dom_selection.specs.Selections.{joined, some_node};

use crate::selection::Selection;
use dom_nodes::fault::OutOfMemory;

impl<'a> Selection<'a> {
    /// Returns whether `class` is one of the words of the first attribute `class` of at least one
    /// node.
    pub fn has_class(&self, class: &str) -> bool
        ensures { result ≡ some_node
            (λ forest n. is_among class.now (class_words (node_attrs forest n))) self.now }
    {
        self.nodes().iter().any(|node| node.has_class(class))
    }

    /// Returns the texts of the nodes, joined. If a node is inside another one of the selection,
    /// its text occurs twice. It fails with `OutOfMemory` when memory is refused.
    pub fn text(&self) -> Result<String, OutOfMemory>
        ensures { IfOk result (λ text. string_bytes text ≡ joined text_of self.now) }
    {
        let mut joined = String::new(self.allocator());
        for node in self.nodes() {
            let text = node.text()?;
            joined.push_str(&text)?;
        }
        Ok(joined)
    }

    /// Returns the texts that the nodes and their children contain themselves, joined. It fails
    /// with `OutOfMemory` when memory is refused.
    pub fn immediate_text(&self) -> Result<String, OutOfMemory>
        ensures { IfOk result
            (λ text. string_bytes text ≡ joined immediate_text_of self.now) }
    {
        let mut joined = String::new(self.allocator());
        for node in self.nodes() {
            let text = node.immediate_text()?;
            joined.push_str(&text)?;
        }
        Ok(joined)
    }
}
