//! Formatted text: the words of a tree, with line feeds at the ends of its blocks. Start at
//! `formatted_text`; the traversal is in `edges`, and what each event appends is in `steps`.

ghost use Rattle.std.specs.Prelude.{◌≡◌, IfOk, string_bytes};
ghost use Rattle.dom_md.specs.Formatted.{formatted_below, formatted_node};
ghost use Rattle.dom_md.specs.Solid.{KeepsWords};

use crate::formatting::edges::{format_children, format_node};
use dom_nodes::fault::OutOfMemory;
use dom_trees::node_ref::NodeRef;

mod edges;
mod names;
mod steps;

/// Returns the formatted text of what is below the node, without whitespace at its end. If the node
/// may have children, the result differs from its text in whitespace only. Fails only when memory
/// runs out.
pub(crate) fn formatted_text(node: &NodeRef<'_>) -> Result<String, OutOfMemory>
    ensures text { IfOk result
        (λ t. string_bytes t ≡ formatted_below node.now.tree.now node.now.id) }
    ensures words { IfOk result (λ text. KeepsWords node.now.tree.now node.now.id
        (string_bytes text)) }
{
    let text = format_children(node.tree, node.id)?;
    Ok(String::from_str(node.tree.allocator(), text.as_str().trim_end())?)
}

/// Returns the formatted text of the node, including its own start and end; an empty string for a
/// document, a fragment or an unknown id. Fails only when memory runs out.
pub fn formatted_node(node: &NodeRef<'_>) -> Result<String, OutOfMemory>
    ensures { IfOk result (λ text. string_bytes text
        ≡ formatted_node node.now.tree.now node.now.id) }
{
    format_node(node.tree, node.id)
}
