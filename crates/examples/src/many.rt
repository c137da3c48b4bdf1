//! Changing many nodes.

use crate::fault::Fault;
use dom_query::prelude::*;
use std::alloc::Global;
use std::io::Write;

const PAGE: &str = "<p><a href=/tea>Tea</a> or <a href=http://a.example/>coffee</a></p>";

/// Prints a page whose links to other places were marked.
pub fn print_marked<W: Write>(alloc: Global, out: &mut W) -> Result<(), Fault> {
    let mut document = parse_page(alloc, PAGE, Options::default())?;
    mark_links(&mut document)?;
    writeln!(out, "{}", document.select("body")?.inner_html()?)?;
    Ok(())
}

/// Marks the links to other places.
fn mark_links(document: &mut Document) -> Result<(), Fault> {
    let outside = document.select("a[href^=http]")?.ids()?;
    let mut links = SelectionMut::new(&mut document.tree, outside);
    links.set_attr("target", "_blank")?;
    links.add_class("outside")?;
    links.append_html("<sup>*</sup>")?;
    Ok(())
}
