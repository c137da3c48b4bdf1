//! Mini selectors, which are simpler and cheaper than CSS selectors.

use crate::fault::Fault;
use dom_query::MiniSelect;
use dom_query::prelude::*;
use std::alloc::Global;
use std::io::Write;

/// Prints what paths of mini selectors reach.
pub fn print_reached<W: Write>(alloc: Global, out: &mut W) -> Result<(), Fault> {
    let page = "<div id=a class=x><p><a href=/1>one</a></p></div><div id=b><a>two</a></div>";
    let document = parse_page(alloc, page, Options::default())?;
    print_paths(&document.root(), out)
}

fn print_paths<W: Write>(root: &NodeRef<'_>, out: &mut W) -> Result<(), Fault> {
    writeln!(out, "div a: {}", root.find(&["div", "a"])?.len())?;
    for link in root.find_descendants("div.x a[href^='/']")?.as_slice() {
        writeln!(out, "{}: {}", link.text()?, link.mini_is("a[href]")?)?;
    }
    Ok(())
}
