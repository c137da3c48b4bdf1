//! What is printed of a match: a text, an attribute, Markdown, HTML or JSON. A call that returns a
//! `Result` fails only when memory runs out.

use crate::csv_rows::csv_of;
use crate::faults::{Fault, shown};
use crate::json::{shown_as, summary_json};
use crate::options::{Printing, Show};
use dom_commonmark::options::Options;
use dom_commonmark::writer::{commonmark, commonmark_inside, is_block};
use dom_query::{NodeMarkup, NodeRef, serialize_md};
use std::alloc::Global;

/// Returns what is printed of a match, without the byte that ends it; `None` for a match without
/// the attribute that is asked for.
pub fn answer_of(
    node: &NodeRef<'_>,
    printing: Printing<'_>,
    file: Option<&str>,
) -> Result<Option<String>, Fault> {
    let alloc = node.tree.allocator();
    if let Show::All = printing.show {
        return Ok(Some(summary_json(alloc, node, file)?));
    }
    if let Show::CrateMarkdown = printing.show
        && !printing.json
    {
        return Ok(Some(crate_answer(alloc, node, printing.inner)?));
    }
    let Some(text) = text_of(node, printing)? else {
        return none_as(alloc, printing.json);
    };
    if let Show::Markdown = printing.show
        && !printing.json
    {
        return Ok(Some(apart(text, !printing.inner && stands_apart(node))?));
    }
    Ok(Some(shown_as(alloc, text, printing.json)?))
}

/// Returns whether an empty line follows the Markdown of a node, so that the next one doesn't join
/// it. Items of a list follow each other.
fn stands_apart(node: &NodeRef<'_>) -> bool {
    is_block(node) && !node.has_name("li")
}

/// Returns the text of a match, with an empty line after it if it stands apart.
fn apart(text: String, stands_apart: bool) -> Result<String, Fault> {
    let mut text = text;
    if stands_apart {
        text.push('\n')?;
    }
    Ok(text)
}

/// Returns what is printed for a missing attribute: `null` in JSON, where each match has an answer,
/// and otherwise nothing.
fn none_as(alloc: Global, json: bool) -> Result<Option<String>, Fault> {
    if !json {
        return Ok(None);
    }
    Ok(Some(String::from_str(alloc, "null")?))
}

/// Returns the text that is printed of a match, or `None` if it doesn't have the attribute that is
/// asked for.
pub fn text_of(node: &NodeRef<'_>, printing: Printing<'_>) -> Result<Option<String>, Fault> {
    let alloc = node.tree.allocator();
    match printing.show {
        Show::Attr(name) => attr_of(alloc, node, name, printing.trims),
        Show::Text => Ok(Some(trimmed(alloc, node.text()?, printing.trims)?)),
        Show::Markdown => Ok(Some(markdown_of(alloc, node, printing.inner)?)),
        Show::CrateMarkdown => Ok(Some(crate_markdown_of(alloc, node, printing.inner)?)),
        Show::Csv => Ok(Some(csv_of(node)?)),
        _ if printing.inner => Ok(Some(node.inner_html()?)),
        _ => Ok(Some(node.html()?)),
    }
}

/// Returns a match as Markdown, or what is inside it. An item of a list is written with a marker.
pub fn markdown_of(alloc: Global, node: &NodeRef<'_>, inner: bool) -> Result<String, Fault> {
    if inner {
        return Ok(commonmark_inside(alloc, node, &Options::new())?);
    }
    let text = commonmark(alloc, node, &Options::new())?;
    if !node.has_name("li") {
        return Ok(text);
    }
    as_item(alloc, node, text.as_str())
}

/// Returns what is printed of a match as the Markdown of the Rust crate. A block, such as a
/// paragraph, is followed by an empty line, so that the next one doesn't join it.
fn crate_answer(alloc: Global, node: &NodeRef<'_>, inner: bool) -> Result<String, Fault> {
    let (mut text, is_block) = crate_parts(alloc, node, inner)?;
    if is_block {
        text.push('\n')?;
    }
    Ok(text)
}

/// Returns a match as the Markdown of the Rust crate, or what is inside it.
pub fn crate_markdown_of(alloc: Global, node: &NodeRef<'_>, inner: bool) -> Result<String, Fault> {
    Ok(crate_parts(alloc, node, inner)?.0)
}

/// Returns the Markdown of the Rust crate, without white space around it, and whether the node is a
/// block. An item of a list is written with a marker.
fn crate_parts(alloc: Global, node: &NodeRef<'_>, inner: bool) -> Result<(String, bool), Fault> {
    let written = serialize_md(node, !inner, None)?;
    let text = written.as_str().trim_start_matches('\n').trim_end();
    if inner || !node.has_name("li") {
        let is_block = !inner && written.ends_with('\n');
        return Ok((String::from_str(alloc, text)?, is_block));
    }
    Ok((as_item(alloc, node, text)?, false))
}

/// Returns the text of an item after a marker: `1.` in an ordered list, else `-`.
fn as_item(alloc: Global, item: &NodeRef<'_>, text: &str) -> Result<String, Fault> {
    if is_in_ordered_list(item) {
        return marked(alloc, text, "1. ", "   ");
    }
    marked(alloc, text, "- ", "  ")
}

fn is_in_ordered_list(item: &NodeRef<'_>) -> bool {
    match item.parent() {
        Some(parent) => parent.has_name("ol"),
        None => false,
    }
}

/// Returns the lines of a text with the marker before the first, and every other line indented
/// unless it is empty.
fn marked(alloc: Global, text: &str, marker: &str, indent: &str) -> Result<String, Fault> {
    let mut written = String::from_str(alloc, marker)?;
    let mut is_first = true;
    for line in text.split('\n') {
        if !is_first {
            written.push('\n')?;
            if !line.is_empty() {
                written.push_str(indent)?;
            }
        }
        written.push_str(line)?;
        is_first = false;
    }
    Ok(written)
}

/// Returns the value of a match's attribute, or `None` if it has none of that name. The name is
/// looked up as it is written, and then in lower case, since the names of a page's attributes are
/// in lower case.
fn attr_of(
    alloc: Global,
    node: &NodeRef<'_>,
    name: &str,
    trims: bool,
) -> Result<Option<String>, Fault> {
    if let Some(value) = node.attr(name) {
        return Ok(Some(trimmed(alloc, String::from_str(alloc, value)?, trims)?));
    }
    let mut lower = String::from_str(alloc, name)?;
    lower.make_ascii_lowercase();
    match node.attr(lower.as_str()) {
        Some(value) => Ok(Some(trimmed(alloc, String::from_str(alloc, value)?, trims)?)),
        None => Ok(None),
    }
}

/// Returns the text unchanged, or with its whitespace collapsed if `trims` is true.
fn trimmed(alloc: Global, text: String, trims: bool) -> Result<String, Fault> {
    if !trims {
        return Ok(text);
    }
    joined_words(alloc, text.as_str())
}

/// Returns the words of a text, joined by single spaces.
pub fn joined_words(alloc: Global, text: &str) -> Result<String, Fault> {
    let mut words = String::new(alloc);
    for word in text.split_ascii_whitespace() {
        if !words.is_empty() {
            words.push(' ')?;
        }
        words.push_str(word)?;
    }
    Ok(words)
}

/// Returns the name of a file and a colon, which are printed before an answer.
pub fn name_in_front(alloc: Global, name: &str, colored: bool) -> Result<String, Fault> {
    let mut text = String::new(alloc);
    if colored {
        text.push_str("\u{1b}[35m")?;
    }
    text.push_str(shown(name))?;
    if colored {
        text.push_str("\u{1b}[0m")?;
    }
    text.push(':')?;
    Ok(text)
}
