//! Changes at the ends of the text so far.

use crate::chunks::is_list_marker;
use crate::context::FormatOpts;
use crate::serializer::words::push_words;
use dom_nodes::fault::OutOfMemory;

/// Removes the text from this index on, if a character begins there.
pub(super) fn cut_at(text: &mut String, end: usize) {
    if text.is_char_boundary(end) {
        text.truncate(end);
    }
}

/// Removes the spaces at the end.
pub(super) fn trim_end_spaces(text: &mut String) {
    if ends_in_byte(text.as_str(), b' ') {
        let end = text.as_str().trim_end_matches(' ').len();
        cut_at(text, end);
    }
}

/// Removes the ASCII whitespace at the end.
pub(super) fn trim_end_space(text: &mut String) {
    let end = text.as_str().trim_ascii_end().len();
    cut_at(text, end);
}

/// Removes the ASCII whitespace at the start.
pub(super) fn trim_start_space(text: &mut String) -> Result<(), OutOfMemory> {
    let rest = text.as_str().trim_ascii_start();
    if rest.len() < text.as_str().len() {
        let trimmed = String::from_str(*text.allocator(), rest)?;
        *text = trimmed;
    }
    Ok(())
}

/// Removes the ASCII whitespace at both ends.
pub(super) fn trim_space(text: &mut String) -> Result<(), OutOfMemory> {
    trim_end_space(text);
    trim_start_space(text)
}

/// Appends `count` spaces.
pub(super) fn push_spaces(text: &mut String, count: usize) -> Result<(), OutOfMemory> {
    for _ in 0..count {
        text.push(' ')?;
    }
    Ok(())
}

/// Removes the spaces at the end, and appends line feeds until the text ends in `end`, which is one
/// or two line feeds.
pub(super) fn add_linebreaks(text: &mut String, end: &str) -> Result<(), OutOfMemory> {
    trim_end_spaces(text);
    push_linebreaks(text, end)
}

/// Appends line feeds until the text ends in `end`, which is one or two line feeds.
pub(super) fn push_linebreaks(text: &mut String, end: &str) -> Result<(), OutOfMemory> {
    for _ in 0..2 {
        if text.as_str().ends_with(end) {
            return Ok(());
        }
        text.push('\n')?;
    }
    Ok(())
}

/// Appends a space unless the text is empty or ends in whitespace.
pub(super) fn push_block_space(text: &mut String) -> Result<(), OutOfMemory> {
    if !text.as_str().is_empty() && !ends_in_whitespace(text.as_str()) {
        text.push(' ')?;
    }
    Ok(())
}

/// Puts a backslash before a `!` at the end, which would make an image of the link after it.
pub(super) fn escape_trailing_bang(text: &mut String) -> Result<(), OutOfMemory> {
    if !ends_in_byte(text.as_str(), b'!') {
        return Ok(());
    }
    let end = text.as_str().len().saturating_sub(1);
    cut_at(text, end);
    Ok(text.push_str("\\!")?)
}

/// Puts a backslash before the run of `#` at the end of a heading, if a space precedes it: Markdown
/// would read it as the closing sequence of the heading and leave it out.
pub(super) fn escape_closing_hashes(text: &mut String) -> Result<(), OutOfMemory> {
    let content = text.as_str().trim_end();
    let stem = content.trim_end_matches('#');
    if content.len() <= stem.len() || !stem.ends_with(' ') {
        return Ok(());
    }
    let at = stem.len();
    if text.is_char_boundary(at) {
        text.insert(at, '\\')?;
    }
    Ok(())
}

/// Appends the words of a text node, with one space for each run of whitespace.
pub(super) fn push_text(
    text: &mut String,
    added: &str,
    opts: FormatOpts,
) -> Result<(), OutOfMemory> {
    let fresh = ends_in_gap(text.as_str());
    let row = added.trim_ascii_start();
    if row.is_empty() {
        if !fresh && !added.is_empty() {
            text.push(' ')?;
        }
        return Ok(());
    }
    let parted = (opts.inline || !(fresh || text.as_str().is_empty())) && row.len() < added.len();
    push_words(text, row, opts, parted)?;
    if ends_in_whitespace(added) && !ends_in_whitespace(text.as_str()) {
        text.push(' ')?;
    }
    Ok(())
}

/// Returns whether the text ends in one to nine digits that begin a line or a list item.
pub(super) fn ends_in_marker_digits(text: &str) -> bool {
    let stem = text.trim_end_matches(|c: char| c.is_ascii_digit());
    let digits = text.len() - stem.len();
    if digits < 1 || 9 < digits {
        return false;
    }
    begins_line(before_item_mark(stem).trim_end_matches(' '))
}

/// Returns the text before a prefix of a list item at its end; the whole text if there is none.
fn before_item_mark(text: &str) -> &str {
    let Some(marked) = text.strip_suffix(' ') else {
        return text;
    };
    let front = marked.trim_end_matches(|c: char| c != ' ' && c != '\n');
    let Some(mark) = marked.get(front.len()..) else {
        return text;
    };
    if mark == "-" || mark == "+" || is_list_marker(mark.as_bytes()) {
        return front;
    }
    text
}

/// Returns whether the text is empty or ends in a line feed.
pub(super) fn begins_line(text: &str) -> bool {
    text.is_empty() || ends_in_byte(text, b'\n')
}

/// Returns whether the text ends in a line feed or a space.
fn ends_in_gap(text: &str) -> bool {
    ends_in_byte(text, b'\n') || ends_in_byte(text, b' ')
}

/// Returns whether the last byte of the text is this one. For ASCII this is faster than decoding
/// the last character.
pub(super) fn ends_in_byte(text: &str, byte: u8) -> bool {
    match text.as_bytes().last() {
        Some(last) => *last == byte,
        None => false,
    }
}

fn ends_in_whitespace(text: &str) -> bool {
    match text.as_bytes().last() {
        Some(last) => last.is_ascii_whitespace(),
        None => false,
    }
}
