//! Writing HTML.

use crate::fault::Fault;
use dom_query::prelude::*;
use std::alloc::Global;
use std::io::Write;

/// Prints the HTML of an element, and of what is inside it.
pub fn print_written<W: Write>(alloc: Global, out: &mut W) -> Result<(), Fault> {
    let page = "<div title='a \"b\"'>1 &lt; 2<br></div>";
    let document = parse_page(alloc, page, Options::default())?;
    for div in document.select("div")?.nodes() {
        print_html(div, out)?;
    }
    Ok(())
}

fn print_html<W: Write>(div: &NodeRef<'_>, out: &mut W) -> Result<(), Fault> {
    writeln!(out, "{}", div.html()?)?;
    writeln!(out, "{}", div.inner_html()?)?;
    // To a writer directly, without a string in between.
    div.write_html(TraversalScope::ChildrenOnly, out)?;
    writeln!(out, "")?;
    Ok(())
}
