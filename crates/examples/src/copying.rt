//! Copying nodes to places.

use crate::fault::Fault;
use dom_query::prelude::*;
use std::alloc::Global;
use std::io::Write;

/// Prints a page in which the list is copied, and each item gets the same markup.
pub fn print_copied<W: Write>(alloc: Global, out: &mut W) -> Result<(), Fault> {
    let mut document = parse_page(alloc, "<ul><li>Green<li>Mate</ul><hr>", Options::default())?;
    mark_items(alloc, &mut document)?;
    copy_list(&mut document)?;
    writeln!(out, "{}", document.select("body")?.inner_html()?)?;
    Ok(())
}

/// Puts the same markup in front of the children of each item.
fn mark_items(alloc: Global, document: &mut Document) -> Result<(), Fault> {
    // The markup is parsed once and copied to each place.
    let mark = Snippet::read(alloc, "<b>*</b> ")?;
    let items = document.select("li")?.ids()?;
    for item in items.as_slice() {
        mark.put_at(&mut document.tree, item, Place::AtFront)?;
    }
    Ok(())
}

/// Puts a copy of the lists after each rule.
fn copy_list(document: &mut Document) -> Result<(), Fault> {
    let lists = document.select("ul")?.ids()?;
    let rules = document.select("hr")?.ids()?;
    for rule in rules.as_slice() {
        document.tree.copy_at(rule, Place::After, &lists)?;
    }
    Ok(())
}
