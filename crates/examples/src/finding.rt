//! Finding elements by selectors.

use crate::fault::Fault;
use dom_query::prelude::*;
use std::alloc::Global;
use std::io::Write;

/// Prints what selectors select.
pub fn print_found<W: Write>(alloc: Global, out: &mut W) -> Result<(), Fault> {
    let page = "<main><p id=a>One<p class='new hot'>Two<hr><p>Three</main>";
    let document = parse_page(alloc, page, Options::default())?;
    print_paragraphs(&document, out)?;
    print_marked(alloc, &document, out)
}

/// Prints the paragraphs, and the first one that comes after a rule.
fn print_paragraphs<W: Write>(document: &Document, out: &mut W) -> Result<(), Fault> {
    let paragraphs = document.select("main > p")?;
    writeln!(out, "{} paragraphs", paragraphs.length())?;
    let last = document.select_single("hr + p")?;
    writeln!(out, "after the rule: {}", last.text()?)?;
    Ok(())
}

/// Prints what a selector matches that is parsed once.
fn print_marked<W: Write>(alloc: Global, document: &Document, out: &mut W) -> Result<(), Fault> {
    // A matcher is a parsed selector list. It can be used for any number of trees.
    let marked = Matcher::new(alloc, "p:is(#a, .hot)")?;
    for paragraph in DescendantMatches::new(document.root(), &marked) {
        writeln!(out, "marked: {}", paragraph.text()?)?;
    }
    for paragraph in document.select("p")?.nodes() {
        writeln!(out, "{}", paragraph.is_match(&marked))?;
    }
    Ok(())
}
