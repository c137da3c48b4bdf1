//! The script lines that write.

ghost use Rattle.std.specs.Prelude.{◌≡◌, decimal, length, string_bytes, IfErr, IfOk};
ghost use Rattle.std.specs.List.{flat_map};
ghost use Rattle.dom_markup.specs.Scopes.{html_in};
ghost use Rattle.dom_query.specs.Faults.{GaveOut};
ghost use Rattle.dom_query.specs.Rendering.{first_attr, first_html, node_text, rendered, PutsLine};

use crate::numbers::write_number;
use crate::runner::RunFault;
use dom_markup::serializing::{NodeMarkup, TraversalScope, WriteFault};
use dom_markup::writing::write_bytes;
use dom_md::formatting::formatted_node;
use dom_nodes::fault::OutOfMemory;
use dom_nodes::node_id::NodeId;
use dom_script::script::Rendering;
use dom_trees::node_ref::NodeRef;
use dom_trees::tree::Tree;
use std::io::Write;

/// Writes the number of selected nodes and a line feed.
fn write_count<W: Write>(selection: &[NodeId], out: &mut W) -> Result<(), WriteFault>
    ensures { PutsLine W.contents out.old out.new result (decimal (length selection.now)) }
{
    write_number(out, selection.len())?;
    write_bytes(out, b"\n")
}

/// Returns the text of the node, as it is or formatted.
fn node_text(tree: &Tree, id: NodeId, formatted: bool) -> Result<String, OutOfMemory>
    ensures { IfOk result (λ text. string_bytes text ≡ node_text formatted tree.now id) }
{
    let node = NodeRef::new(id, tree);
    if formatted {
        return formatted_node(&node);
    }
    node.text()
}

/// Writes the texts of the nodes, as they are or formatted, one after another, and a line feed.
/// Each node is formatted as an element of its own.
fn write_texts<W: Write>(
    tree: &Tree,
    selection: &[NodeId],
    formatted: bool,
    out: &mut W,
) -> Result<(), RunFault>
    ensures writes { PutsLine W.contents out.old out.new result
        (flat_map (node_text formatted tree.now) selection.now) }
    ensures cause { IfErr result GaveOut }
{
    for id in selection {
        let text = node_text(tree, *id, formatted)?;
        write_bytes(out, text.as_bytes())?;
    }
    Ok(write_bytes(out, b"\n")?)
}

/// Writes the HTML of a node, or of its children, and a line feed.
fn write_node<W: Write>(
    tree: &Tree,
    id: NodeId,
    scope: TraversalScope,
    out: &mut W,
) -> Result<(), WriteFault>
    ensures { PutsLine W.contents out.old out.new result (html_in scope tree.now id) }
{
    NodeRef::new(id, tree).write_html(scope, out)?;
    write_bytes(out, b"\n")
}

/// Writes the HTML of the first node, or of its children, and a line feed; without a node, only the
/// line feed.
fn write_first<W: Write>(
    tree: &Tree,
    selection: &[NodeId],
    scope: TraversalScope,
    out: &mut W,
) -> Result<(), WriteFault>
    ensures { PutsLine W.contents out.old out.new result (first_html scope tree.now selection.now) }
{
    match selection.first() {
        Some(id) => write_node(tree, *id, scope, out),
        None => write_bytes(out, b"\n"),
    }
}

/// Returns the value of the first node's first attribute with this local name; empty if there is
/// none.
fn value_of<'a>(tree: &'a Tree, selection: &[NodeId], name: &str) -> &'a str
    ensures { result.now ≡ first_attr name.now tree.now selection.now }
{
    match selection.first() {
        Some(id) => NodeRef::new(*id, tree).attr_or(name, ""),
        None => "",
    }
}

/// Writes the value of the first node's first attribute with this local name and a line feed; if
/// there is none, only the line feed. It fails when the writer does.
pub fn write_attr<W: Write>(
    tree: &Tree,
    selection: &[NodeId],
    name: &str,
    out: &mut W,
) -> Result<(), WriteFault>
    ensures { PutsLine W.contents out.old out.new result
        (first_attr name.now tree.now selection.now) }
{
    write_bytes(out, value_of(tree, selection, name).as_bytes())?;
    write_bytes(out, b"\n")
}

/// Writes what a line asks for, and a line feed. It fails when the writer does, or when memory runs
/// out.
pub fn render<W: Write>(
    tree: &Tree,
    selection: &[NodeId],
    rendering: Rendering,
    out: &mut W,
) -> Result<(), RunFault>
    ensures writes { PutsLine W.contents out.old out.new result
        (rendered rendering tree.now selection.now) }
    ensures cause { IfErr result GaveOut }
{
    match rendering {
        Rendering::Count => write_count(selection, out)?,
        Rendering::Text => write_texts(tree, selection, false, out)?,
        Rendering::Formatted => write_texts(tree, selection, true, out)?,
        Rendering::Html => write_first(tree, selection, TraversalScope::IncludeNode, out)?,
        Rendering::InnerHtml => write_first(tree, selection, TraversalScope::ChildrenOnly, out)?,
        Rendering::Document => write_node(tree, NodeId::root(), TraversalScope::IncludeNode, out)?,
    }
    Ok(())
}
