//! The texts and the Markdown of a page.

use crate::fault::Fault;
use dom_query::prelude::*;
use std::alloc::Global;
use std::io::Write;

const PAGE: &str = "<body><h1>Tea</h1><p>Boil  the <b>water</b>.<ul><li>green<li>black</ul></body>";

/// Prints the text of a page in three forms.
pub fn print_texts<W: Write>(alloc: Global, out: &mut W) -> Result<(), Fault> {
    let document = parse_page(alloc, PAGE, Options::default())?;
    writeln!(out, "text: {}", document.text()?)?;
    writeln!(out, "formatted text:\n{}", document.formatted_text()?)?;
    writeln!(out, "Markdown:\n{}", document.md(None)?)?;
    Ok(())
}

/// Prints the Markdown of a page without its headings.
pub fn print_without_headings<W: Write>(alloc: Global, out: &mut W) -> Result<(), Fault> {
    let document = parse_page(alloc, PAGE, Options::default())?;
    writeln!(out, "{}", document.md(Some(&["head", "h1", "ul"]))?)?;
    Ok(())
}

/// Prints the Markdown of the part of a page that holds its article.
pub fn print_main<W: Write>(alloc: Global, out: &mut W) -> Result<(), Fault> {
    let page = "<nav>Home</nav><main><h2>Tea</h2><p>Boil <b>water</b>.</main>";
    let document = parse_page(alloc, page, Options::default())?;
    for article in document.select_single("main, article")?.nodes() {
        writeln!(out, "{}", article.md(None)?)?;
    }
    Ok(())
}
