//! A tree in the form of html5lib's tests of tree construction. A call that returns a `Result`
//! fails only when memory runs out.

use crate::faults::Fault;
use dom_query::{Document, Element, NameRef, NamespaceRef, NodeData, NodeId, QualName};
use std::alloc::{AllocError, Global};

/// A node that is still to be written, and its depth.
#[derive(Clone, Copy, Drop)]
struct Pending {
    id: NodeId,
    depth: usize,
}

/// Returns the nodes below a node, each on a line of its own. A text with line feeds takes several
/// lines.
pub fn tree_text(document: &Document, top: NodeId) -> Result<String, Fault> {
    let alloc = document.tree.allocator();
    let mut text = String::new(alloc);
    let mut pending = Vec::new(alloc);
    push_below(document, Pending { id: top, depth: 0 }, &mut pending)?;
    for _ in 0..document.tree.len() {
        let Some(Pending { id, depth }) = pending.pop() else {
            break;
        };
        add_node(document, id, depth, &mut text)?;
        let depth = depth.saturating_add(1);
        push_below(document, Pending { id, depth }, &mut pending)?;
    }
    Ok(text)
}

/// Pushes what is below a node: the contents of a template, and then the children. The first is
/// pushed last, so that it is written first.
fn push_below(document: &Document, of: Pending, pending: &mut Vec<Pending>) -> Result<(), Fault> {
    let depth = of.depth;
    for id in document.tree.child_ids_of_it(&of.id, true) {
        pending.push(Pending { id, depth })?;
    }
    if let Some(node) = document.tree.tree_node(&of.id)
        && let Some(id) = node.content.template_contents()
    {
        pending.push(Pending { id, depth })?;
    }
    Ok(())
}

/// Writes the line of a node.
fn add_node(document: &Document, id: NodeId, depth: usize, text: &mut String) -> Result<(), Fault> {
    let Some(node) = document.tree.tree_node(&id) else {
        return Ok(());
    };
    match &node.content {
        NodeData::Element(element) => {
            add_element(document.tree.allocator(), element, depth, text)
        }
        content => Ok(add_line(text, depth, pieces_of(content))?),
    }
}

/// Returns the pieces of the line of a node that isn't an element.
fn pieces_of(node: &NodeData) -> [&str; 7] {
    match node {
        NodeData::Text { contents } => ["\"", contents.as_str(), "\"", "", "", "", ""],
        NodeData::Comment { contents } => ["<!-- ", contents.as_str(), " -->", "", "", "", ""],
        NodeData::ProcessingInstruction { target, .. } => {
            ["<?", target.as_str(), ">", "", "", "", ""]
        }
        NodeData::Doctype {
            name,
            public_id,
            system_id,
        } => doctype_pieces(name.as_str(), public_id.as_str(), system_id.as_str()),
        _ => ["content", "", "", "", "", "", ""],
    }
}

/// Returns the pieces of the line of a doctype, with its identifiers if it has any.
fn doctype_pieces<'a>(name: &'a str, public: &'a str, system: &'a str) -> [&'a str; 7] {
    if public.is_empty() && system.is_empty() {
        return ["<!DOCTYPE ", name, ">", "", "", "", ""];
    }
    ["<!DOCTYPE ", name, " \"", public, "\" \"", system, "\">"]
}

fn tag_pieces<'a>(prefix: &'a str, local: &'a str) -> [&'a str; 7] {
    ["<", prefix, local, ">", "", "", ""]
}

/// Writes the tag of an element, and its attributes in the order of their names.
fn add_element(
    alloc: Global,
    element: &Element,
    depth: usize,
    text: &mut String,
) -> Result<(), Fault> {
    let name = element.name();
    let tag = tag_pieces(prefix_of(&name), name.local().as_str());
    add_line(text, depth, tag)?;
    let depth = depth.saturating_add(1);
    for (name, value) in attrs_of(alloc, element)?.as_slice() {
        add_attr(text, depth, name.as_str(), value)?;
    }
    Ok(())
}

fn add_attr(text: &mut String, depth: usize, name: &str, value: &str) -> Result<(), AllocError> {
    add_line(text, depth, [name, "=\"", value, "\"", "", "", ""])
}

/// Returns the names, with their prefixes, and the values of an element's attributes, sorted by
/// name.
fn attrs_of(alloc: Global, element: &Element) -> Result<Vec<(String, &str)>, Fault> {
    let mut attrs = Vec::new(alloc);
    for attr in element.attrs().as_slice() {
        attrs.push((name_of(alloc, &attr.name)?, attr.value.as_str()))?;
    }
    attrs.sort()?;
    Ok(attrs)
}

fn name_of(alloc: Global, name: &QualName) -> Result<String, Fault> {
    let mut whole = String::from_str(alloc, prefix_of(&name.by_ref()))?;
    whole.push_str(name.local().as_str())?;
    Ok(whole)
}

/// Returns what is written before a name that isn't in the HTML namespace.
fn prefix_of<'a>(name: &NameRef<'a>) -> &'a str {
    match name.ns() {
        NamespaceRef::Svg => "svg ",
        NamespaceRef::MathMl => "math ",
        NamespaceRef::XLink => "xlink ",
        NamespaceRef::Xml => "xml ",
        NamespaceRef::XmlNs if name.local().as_str() != "xmlns" => "xmlns ",
        _ => "",
    }
}

/// Writes the pieces of a line, one after the other, with the indentation of this depth.
fn add_line(text: &mut String, depth: usize, pieces: [&str; 7]) -> Result<(), AllocError> {
    text.push_str("| ")?;
    for _ in 0..depth {
        text.push_str("  ")?;
    }
    for piece in pieces {
        text.push_str(piece)?;
    }
    text.push('\n')?;
    Ok(())
}
