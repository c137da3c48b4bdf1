//! The methods that this crate adds to nodes.

use crate::formatting::formatted_text;
use crate::serializer::serialize_md;
use dom_nodes::fault::OutOfMemory;
use dom_trees::node_ref::NodeRef;

/// The formatted text and the Markdown of a node, as in the crate dom_query. Each call fails only
/// when memory runs out.
pub trait NodeMd {
    ghost use Rattle.std.specs.Prelude.{◌≡◌, ℕ, IfOk, string_bytes};
    ghost use Rattle.dom_links.specs.Forest.{Forest};
    ghost use Rattle.dom_md.specs.Formatted.{formatted_below};
    ghost use Rattle.dom_md.specs.Solid.{KeepsWords};
    ghost use Rattle.dom_md.specs.Words.{ReadsAsWords};

    // The forest of the node's tree.
    ghost forest: { Self → Forest };

    // The node's id.
    ghost number: { Self → ℕ };

    /// Returns the text of what is below the node with line feeds at the ends of blocks, without
    /// whitespace at its end; an empty string for an unknown id. If the node may have children, the
    /// result differs from its `text` in whitespace only. Fails only when memory runs out.
    fn formatted_text(&self) -> Result<String, OutOfMemory>
        ensures text { IfOk result (λ t. string_bytes t ≡ formatted_below (forest self.now)
            (number self.now)) }
        ensures words { IfOk result (λ t. KeepsWords (forest self.now) (number self.now)
            (string_bytes t)) };

    /// Returns the Markdown of what is below the node; an empty string for an unknown id. Elements
    /// whose names are in `skip_tags` are left out; with `None` these are `script`, `style`, `meta`
    /// and `head`. If all children of the node are texts, the Markdown, with its backslash escapes
    /// resolved, is the words of the node's text, joined by single spaces. Fails only when memory
    /// runs out.
    fn md(&self, skip_tags: Option<&[&str]>) -> Result<String, OutOfMemory>
        ensures { IfOk result (ReadsAsWords (forest self.now) (number self.now)) };
}

impl<'a> NodeMd for NodeRef<'a> {
    ghost forest = { λ node. node.tree.now };

    ghost number = { λ node. node.id };

    fn formatted_text(&self) -> Result<String, OutOfMemory> {
        formatted_text(self)
    }

    fn md(&self, skip_tags: Option<&[&str]>) -> Result<String, OutOfMemory> {
        serialize_md(self, false, skip_tags)
    }
}
