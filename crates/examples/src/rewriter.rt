//! A whole program: `rel=nofollow` on the links that lead to other sites.

use crate::fault::Fault;
use dom_query::prelude::*;
use std::alloc::Global;
use std::io::Write;

pub const PAGE: &str = "<!doctype html><title>Tea</title><p><a href=/green>Green</a>\
    <a href=https://tea.example/black>Black</a> <a href=HTTPS://mate.example/>Mate</a>";

/// The links with an absolute address that isn't on tea.example.
const OUTSIDE: &str = "a:is([href^='http:' i], [href^='https:' i], [href^='//'])\
    :not([href^='https://tea.example/' i])";

/// Prints the page with `rel=nofollow` on its links to other sites.
pub fn print_rewritten<W: Write>(alloc: Global, html: &str, out: &mut W) -> Result<(), Fault> {
    let mut document = parse_page(alloc, html, Options::default())?;
    let links = document.select(OUTSIDE)?.ids()?;
    SelectionMut::new(&mut document.tree, links).set_attr("rel", "nofollow")?;
    let page = document.root();
    page.write_html(TraversalScope::IncludeNode, out)?;
    writeln!(out, "")?;
    Ok(())
}
