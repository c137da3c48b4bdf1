//! A whole program: the article of a page as Markdown.

use crate::fault::Fault;
use dom_query::prelude::*;
use std::alloc::Global;
use std::io::Write;

pub const PAGE: &str = "<!doctype html><title>Tea | tea.example</title>\
    <div id=nav><p><a href=/>Home</a> <a href=/all>All the teas that we have ever had</a></div>\
    <div id=main><h1>How to brew</h1><p>Boil the <b>water</b>, and let it stand.\
    <ul><li>green: 70 degrees<li>black: 100 degrees</ul>\
    <p>Pour, wait three minutes, and <em>drink</em>.</div>\
    <div id=foot><p>&copy; Tea &amp; co</div>";

/// Prints the title of the page and, as Markdown, the block with the longest text.
pub fn print_article<W: Write>(alloc: Global, html: &str, out: &mut W) -> Result<(), Fault> {
    let document = parse_page(alloc, html, Options::default())?;
    print_title(&document, out)?;
    print_longest(&document, out)
}

fn print_title<W: Write>(document: &Document, out: &mut W) -> Result<(), Fault> {
    let title = document.select_single("title")?;
    writeln!(out, "title: {}", title.text()?)?;
    Ok(())
}

/// Prints the block with the longest text, as Markdown.
fn print_longest<W: Write>(document: &Document, out: &mut W) -> Result<(), Fault> {
    let Some(id) = longest(document)? else {
        writeln!(out, "no article")?;
        return Ok(());
    };
    print_markdown(&NodeRef::new(id, &document.tree), out)
}

fn print_markdown<W: Write>(article: &NodeRef<'_>, out: &mut W) -> Result<(), Fault> {
    writeln!(out, "from: {}", article.id_attr().unwrap_or(""))?;
    writeln!(out, "{}", article.md(None)?)?;
    Ok(())
}

/// Returns the block whose own paragraphs have the most characters, or `None` if none has any.
fn longest(document: &Document) -> Result<Option<NodeId>, Fault> {
    let blocks = document.select("article, main, section, div")?;
    let mut best = None;
    let mut most = 0;
    for block in blocks.iter() {
        let length = reading(&block)?;
        if length > most {
            most = length;
            best = block.get(0).map(|node| node.id);
        }
    }
    Ok(best)
}

/// Returns how many characters a block's own paragraphs have, without those in links.
fn reading(block: &Selection<'_>) -> Result<usize, Fault> {
    let paragraphs = block.children()?.filter("p")?;
    let links = paragraphs.select("a")?;
    let all = characters(&paragraphs);
    Ok(all.saturating_sub(characters(&links)))
}

/// Returns how many characters the nodes have.
fn characters(nodes: &Selection<'_>) -> usize {
    let mut count: usize = 0;
    for node in nodes.nodes() {
        count = count.saturating_add(node.normalized_char_count());
    }
    count
}
