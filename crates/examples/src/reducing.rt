//! Reducing a document of one's own to some elements and attributes.

use crate::fault::Fault;
use dom_query::prelude::*;
use std::alloc::Global;
use std::io::Write;

const PAGE: &str = "<h2 id=a>Tea</h2><p class=x>Green <font>and <b lang=en>black</b></font><hr>\
    <table><tr><td>70</table>";

/// Prints what is left of a page that was reduced.
pub fn print_reduced<W: Write>(alloc: Global, out: &mut W) -> Result<(), Fault> {
    let mut document = parse_page(alloc, PAGE, Options::default())?;
    reduce(&mut document)?;
    writeln!(out, "{}", document.html()?)?;
    Ok(())
}

/// Keeps headings, paragraphs and bold text, and the language of each.
fn reduce(document: &mut Document) -> Result<(), Fault> {
    let allow = Allow {
        elements: &["b", "h2", "p"],
        attrs: &["lang"],
        drop: &["table"],
    };
    sanitize(document, &allow)?;
    Ok(())
}
