//! A whole program: the links of a page.

use crate::fault::Fault;
use dom_query::prelude::*;
use std::alloc::Global;
use std::io::Write;

pub const PAGE: &str = "<!doctype html><title>Tea</title>\
    <ul><li><a href=/tea>Tea</a><li><a href=/sale>Big <b>sale</b></a><li><a name=x>none</a></ul>";

/// Prints the text and the address of each link of a page.
pub fn print_links<W: Write>(alloc: Global, html: &str, out: &mut W) -> Result<(), Fault> {
    let document = parse_page(alloc, html, Options::default())?;
    let links = Matcher::new(alloc, "a[href]")?;
    for link in DescendantMatches::new(document.root(), &links) {
        writeln!(out, "{}: {}", link.text()?, link.attr_or("href", ""))?;
    }
    Ok(())
}
