//! Code: spans of it in a line, and the fences of code blocks.

use crate::escaping::{Place, push_escaped};
use dom_nodes::fault::OutOfMemory;

/// Appends code as a code span. In the cell of a table, each `|` gets a backslash, which a reader
/// takes away before it reads the code.
pub(crate) fn push_span(line: &mut String, code: &str, cell: bool) -> Result<(), OutOfMemory> {
    if cell && has_escaped_bar(code) {
        return push_tagged(line, code);
    }
    let count = longest_run(code, b'`').saturating_add(1);
    let padded = needs_padding(code);
    push_times(line, '`', count)?;
    push_padding(line, padded)?;
    push_code(line, code, cell)?;
    push_padding(line, padded)?;
    push_times(line, '`', count)
}

/// Appends code in a cell as HTML. A reader takes a backslash before a `|` away there, also one of
/// the code.
fn push_tagged(line: &mut String, code: &str) -> Result<(), OutOfMemory> {
    let place = Place {
        cell: true,
        before_link: false,
    };
    line.push_str("<code>")?;
    push_escaped(line, code, place)?;
    Ok(line.push_str("</code>")?)
}

/// Returns whether a backslash is before a `|`.
fn has_escaped_bar(code: &str) -> bool {
    let mut is_escaped = false;
    for byte in code.as_bytes() {
        if is_escaped && *byte == b'|' {
            return true;
        }
        is_escaped = *byte == b'\\';
    }
    false
}

/// Returns whether spaces are needed between the backticks around code and those in it.
fn needs_padding(code: &str) -> bool {
    if code.starts_with('`') {
        return true;
    }
    code.ends_with('`')
}

/// Returns the length of the longest run of a byte.
pub(crate) fn longest_run(text: &str, wanted: u8) -> usize {
    let mut longest: usize = 0;
    let mut current: usize = 0;
    for byte in text.as_bytes() {
        current = if *byte == wanted {
            current.saturating_add(1)
        } else {
            0
        };
        longest = longest.max(current);
    }
    longest
}

/// Appends a character that many times.
pub(crate) fn push_times(line: &mut String, c: char, count: usize) -> Result<(), OutOfMemory> {
    for _ in 0..count {
        line.push(c)?;
    }
    Ok(())
}

fn push_padding(line: &mut String, padded: bool) -> Result<(), OutOfMemory> {
    if padded {
        line.push(' ')?;
    }
    Ok(())
}

fn push_code(line: &mut String, code: &str, cell: bool) -> Result<(), OutOfMemory> {
    if !cell {
        return Ok(line.push_str(code)?);
    }
    for c in code.chars() {
        if c == '|' {
            line.push('\\')?;
        }
        line.push(c)?;
    }
    Ok(())
}
