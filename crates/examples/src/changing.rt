//! Changing a tree.

use crate::fault::Fault;
use dom_query::prelude::*;
use std::alloc::Global;
use std::io::Write;

/// Prints a page after some changes.
pub fn print_changed<W: Write>(alloc: Global, out: &mut W) -> Result<(), Fault> {
    let mut document = parse_page(alloc, "<p>Hello<p>world", Options::default())?;
    if let Some(id) = first_paragraph(&document)? {
        change(&mut document.tree, &id)?;
        print_refusal(&mut document.tree, &id, out)?;
    }
    writeln!(out, "{}", document.html()?)?;
    Ok(())
}

/// Returns the id of the first paragraph, which stays valid when the tree changes.
fn first_paragraph(document: &Document) -> Result<Option<NodeId>, Fault> {
    let paragraphs = document.select_single("p")?;
    Ok(paragraphs.get(0).map(|node| node.id))
}

/// Changes the attributes of a paragraph, and puts an element at its end.
fn change(tree: &mut Tree, id: &NodeId) -> Result<(), Fault> {
    let bold = tree.new_element("b")?;
    tree.set_text_of(&bold, "!")?;
    // `node_mut` borrows the tree to change one node.
    if let Some(mut paragraph) = tree.node_mut(id) {
        paragraph.set_attr("lang", "en")?;
        paragraph.add_class("first")?;
        paragraph.append_child(&bold)?;
        paragraph.after_html("<hr>")?;
    }
    Ok(())
}

/// Prints why a node can't become its own child. A refused edit changes nothing.
fn print_refusal<W: Write>(tree: &mut Tree, id: &NodeId, out: &mut W) -> Result<(), Fault> {
    if let Err(fault) = tree.append_child_of(id, id) {
        writeln!(out, "refused: {fault}")?;
    }
    Ok(())
}
