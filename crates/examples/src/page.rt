//! The program of README.md.

use crate::fault::Fault;
use dom_query::prelude::*;
use std::alloc::Global;
use std::io::Write;

/// Prints the links of a page, and the page without its scripts.
pub fn print_page<W: Write>(alloc: Global, html: &str, out: &mut W) -> Result<(), Fault> {
    let mut document = parse_page(alloc, html, Options::default())?;
    for link in document.select("a[href]")?.nodes() {
        writeln!(out, "{}: {}", link.text()?, link.attr_or("href", ""))?;
    }
    let scripts = document.select("script")?.ids()?;
    SelectionMut::new(&mut document.tree, scripts).remove()?;
    writeln!(out, "{}", document.root().html()?)?;
    Ok(())
}

/// The page that README.md names.
pub const PAGE: &str =
    "<title>Tea</title><script>track()</script><p>Buy <a href=/tea>green <b>tea</b></a>";
