//! Addresses and titles of links and images.

use crate::escaping::{Place, is_reference, push_escaped};
use dom_nodes::fault::OutOfMemory;
use dom_nodes::node_data::NodeData;
use dom_nodes::node_id::NodeId;
use dom_trees::node_ref::NodeRef;
use dom_trees::tree::Tree;

/// Where a link or an image leads.
#[derive(Clone, Copy)]
pub(crate) struct Target<'a> {
    pub(crate) address: &'a str,
    pub(crate) title: Option<&'a str>,
    /// It is in the cell of a table, where each `|` needs a backslash.
    pub(crate) cell: bool,
}

/// Returns where a link leads.
pub(crate) fn target_of<'a>(node: &NodeRef<'a>, cell: bool) -> Target<'a> {
    Target {
        address: node.attr_or("href", ""),
        title: node.attr("title"),
        cell,
    }
}

/// Returns where the file of an image is; `None` if it has no address.
pub(crate) fn image_target<'a>(node: &NodeRef<'a>, cell: bool) -> Option<Target<'a>> {
    let address = image_address(node)?;
    let title = node.attr("title");
    Some(Target {
        address,
        title,
        cell,
    })
}

/// Returns the address of an image: `src`, else `data-src`, else the first address of `srcset`.
fn image_address<'a>(node: &NodeRef<'a>) -> Option<&'a str> {
    for name in ["src", "data-src"] {
        let address = node.attr_or(name, "").trim_ascii();
        if !address.is_empty() {
            return Some(address);
        }
    }
    for address in node.attr_or("srcset", "").split_ascii_whitespace() {
        return Some(address.trim_end_matches(','));
    }
    None
}

/// Returns the address of a link whose only content is that address, if a reader takes the address
/// in angle brackets as a link.
pub(crate) fn own_address<'a>(node: &NodeRef<'a>) -> Option<&'a str> {
    let address = node.attr("href")?;
    let first = node.tree.tree_node(&node.id)?.first_child.get()?;
    if node.tree.tree_node(&first)?.next_sibling.get().is_some() || node.has_attr("title") {
        return None;
    }
    if !address.starts_with("http://") && !address.starts_with("https://") {
        return None;
    }
    if !are_plain(address) {
        return None;
    }
    if is_text_of(node.tree, first, address) {
        return Some(address);
    }
    None
}

fn is_text_of(tree: &Tree, id: NodeId, address: &str) -> bool {
    let Some(node) = tree.tree_node(&id) else {
        return false;
    };
    match &node.content {
        NodeData::Text { contents } => contents.as_str().trim_ascii() == address,
        _ => false,
    }
}

/// Returns whether no character of an address means anything to a reader.
fn are_plain(address: &str) -> bool {
    for byte in address.as_bytes() {
        if !is_plain(*byte) {
            return false;
        }
    }
    true
}

fn is_plain(byte: u8) -> bool {
    if byte.is_ascii_alphanumeric() {
        return true;
    }
    matches!(
        byte,
        b':' | b'/' | b'.' | b'-' | b'_' | b'~' | b'?' | b'#' | b'=' | b'%' | b'+' | b',' | b'@'
    )
}

/// Appends an image.
pub(crate) fn push_image(
    line: &mut String,
    words: &str,
    target: Target<'_>,
) -> Result<(), OutOfMemory> {
    let mut text = String::new(*line.allocator());
    push_words(&mut text, words)?;
    line.push_str("![")?;
    let place = Place {
        cell: target.cell,
        before_link: false,
    };
    push_escaped(line, text.as_str(), place)?;
    line.push(']')?;
    push_target(line, target)
}

/// Appends the words of a text, with one space between them.
fn push_words(text: &mut String, words: &str) -> Result<(), OutOfMemory> {
    for word in words.split_ascii_whitespace() {
        if !text.is_empty() {
            text.push(' ')?;
        }
        text.push_str(word)?;
    }
    Ok(())
}

/// Appends, in parentheses, the address and, if there is one, the title.
pub(crate) fn push_target(line: &mut String, target: Target<'_>) -> Result<(), OutOfMemory> {
    line.push('(')?;
    push_address(line, target.address.trim_ascii(), target.cell)?;
    if let Some(title) = target.title {
        push_title(line, title, target.cell)?;
    }
    Ok(line.push(')')?)
}

fn push_address(line: &mut String, address: &str, cell: bool) -> Result<(), OutOfMemory> {
    if !address.is_empty() && are_plain(address) {
        return Ok(line.push_str(address)?);
    }
    let is_enclosed = is_enclosed(address);
    if is_enclosed {
        line.push('<')?;
    }
    for (at, c) in address.char_indices() {
        if c == '\n' || c == '\r' || c == '\t' {
            continue;
        }
        if is_escaped(c, cell) {
            line.push('\\')?;
        }
        push_char(line, c, address, at)?;
    }
    if is_enclosed {
        line.push('>')?;
    }
    Ok(())
}

/// Returns whether an address needs angle brackets: it is empty, or has spaces, parentheses or
/// other characters that end an address without brackets.
fn is_enclosed(address: &str) -> bool {
    for byte in address.as_bytes() {
        match *byte {
            b'(' | b')' | b' ' | b'<' | 127 => return true,
            b'\n' | b'\r' | b'\t' => {}
            control if control < 32 => return true,
            _ => {}
        }
    }
    address.is_empty()
}

fn is_escaped(c: char, cell: bool) -> bool {
    match c {
        '\\' | '<' | '>' => true,
        '|' => cell,
        _ => false,
    }
}

/// Appends the character at an index of a text: a `&` as a reference, if it may begin one.
fn push_char(line: &mut String, c: char, text: &str, at: usize) -> Result<(), OutOfMemory> {
    if c == '&' && begins_reference(text, at) {
        return Ok(line.push_str("&amp;")?);
    }
    Ok(line.push(c)?)
}

/// Returns whether the `&` at an index may begin a character reference.
fn begins_reference(text: &str, at: usize) -> bool {
    match text.as_bytes().get(at.saturating_add(1)..) {
        Some(after) => is_reference(after),
        None => false,
    }
}

fn push_title(line: &mut String, title: &str, cell: bool) -> Result<(), OutOfMemory> {
    let mut words = String::new(*line.allocator());
    push_words(&mut words, title)?;
    if words.is_empty() {
        return Ok(());
    }
    line.push_str(" \"")?;
    for (at, c) in words.as_str().char_indices() {
        if c == '"' || c == '\\' || (c == '|' && cell) {
            line.push('\\')?;
        }
        push_char(line, c, words.as_str(), at)?;
    }
    Ok(line.push('"')?)
}
