//! Formatted text of selections.

use dom_md::formatting::formatted_node;
use dom_nodes::fault::OutOfMemory;
use dom_selection::selection::Selection;

/// The formatted text of a selection.
pub trait SelectionMd {
    ghost use Rattle.std.specs.Prelude.{◌≡◌, List, IfOk, string_bytes};
    ghost use Rattle.dom_trees.specs.declared.node_ref.NodeRef.{NodeRef};
    ghost use Rattle.dom_md.specs.Formatted.{formatted_node};
    ghost use Rattle.dom_selection.specs.Selections.{joined};

    // The nodes of the selection.
    ghost nodes: { Self → List NodeRef };

    /// Returns the formatted texts of the nodes, joined. Each node is formatted as an element of
    /// its own, and white space at the ends stays. For a document or a fragment it is empty. Fails
    /// only when memory runs out.
    fn formatted_text(&self) -> Result<String, OutOfMemory>
        ensures { IfOk result (λ text. string_bytes text
            ≡ joined formatted_node (nodes self.now)) };
}

impl<'a> SelectionMd for Selection<'a> {
    ghost nodes = { λ selection. selection };

    fn formatted_text(&self) -> Result<String, OutOfMemory> {
        let mut joined = String::new(self.allocator());
        for node in self.nodes() {
            let text = formatted_node(node)?;
            joined.push_str(&text)?;
        }
        Ok(joined)
    }
}
