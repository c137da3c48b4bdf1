//! Walking through a tree.

use crate::fault::Fault;
use dom_query::prelude::*;
use std::alloc::Global;
use std::io::Write;

/// Prints each heading of a page with what follows it.
pub fn print_sections<W: Write>(alloc: Global, out: &mut W) -> Result<(), Fault> {
    let page = "<h2>Green</h2><p>70 degrees<h2>Black</h2><ul><li>100 degrees</ul><h2>Mate</h2>";
    let document = parse_page(alloc, page, Options::default())?;
    for node in document.root().descendants_it() {
        if node.has_name("h2") {
            print_section(&node, out)?;
        }
    }
    Ok(())
}

/// Prints a heading and the element that follows it.
fn print_section<W: Write>(heading: &NodeRef<'_>, out: &mut W) -> Result<(), Fault> {
    let title = heading.text()?;
    match heading.next_element_sibling() {
        Some(next) => writeln!(out, "{title}: {}", next.text()?)?,
        None => writeln!(out, "{title}: nothing")?,
    }
    Ok(())
}
