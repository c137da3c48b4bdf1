//! Escaping of chunks of text so that Markdown reads them literally. Start at `push_escaped_chunk`.

ghost use Rattle.std.specs.Char.{is_ascii_digit};
ghost use Rattle.std.specs.List.{list_all};
ghost use Rattle.std.specs.Prelude.{◌≡◌, ◌<◌, ◌+◌, ◌++◌, drop, length, slice_index_or, true};
ghost use Rattle.std.specs.Prelude.{IfOk, MatchOption, None, OnErr, OnOk, if◌then◌else◌};
ghost use Rattle.std.specs.Prelude.{string_bytes};
ghost use Rattle.dom_md.specs.Chunks.{escaped, begins_block, is_list_marker, is_mark, is_marked};
ghost use Rattle.dom_md.specs.Chunks.{is_stop, is_underline, line_mark, with_marks};
ghost use Rattle.dom_md.specs.Marks.{IsFirstMark, CutsMark};
ghost use Rattle.dom_md.specs.Adding.{Adds};
ghost use Rattle.dom_md.specs.Resolved.{ReadsIn, ResolvesIn};

use dom_nodes::fault::OutOfMemory;
use std::alloc::{AllocError, Global};

/// Appends a chunk to the text. With `escape`, a backslash is put before each character of the
/// chunk that Markdown would interpret; with `line_start`, also before one that it would interpret
/// only at the start of a line. Fails only when memory runs out; the text is then unchanged.
pub fn push_escaped_chunk(
    text: &mut String,
    chunk: &str,
    escape: bool,
    line_start: bool,
) -> Result<(), OutOfMemory>
    ensures added { Adds text.old text.new result (if escape then escaped line_start chunk.now else
        chunk.now) }
    ensures resolves { OnOk result (escape ≡ true → ResolvesIn text.old text.new chunk.now) }
    ensures reads { OnOk result (escape ≡ true → ReadsIn text.old text.new chunk.now) }
    ensures err { OnErr result (string_bytes text.new ≡ string_bytes text.old) }
{
    if !escape {
        return Ok(text.push_str(chunk)?);
    }
    if is_plain(chunk, line_start) {
        return Ok(text.push_str(chunk)?);
    }
    let escaped = escaped(*text.allocator(), chunk, line_start)?;
    Ok(text.push_str(escaped.as_str())?)
}

/// Returns whether the chunk can be appended as it is because nothing in it needs a backslash.
fn is_plain(chunk: &str, line_start: bool) -> bool
    ensures { result ≡ true → escaped line_start chunk.now ≡ chunk.now }
{
    match mark_at_start(chunk, line_start) {
        Some(_) => false,
        None => has_no_mark(chunk.as_bytes()),
    }
}

/// Returns the index at which a backslash is needed because the chunk begins a line, if it does.
fn mark_at_start(chunk: &str, line_start: bool) -> Option<usize>
    ensures { result ≡ (if line_start then line_mark chunk.now else None) }
{
    if line_start {
        return line_mark(chunk);
    }
    None
}

fn has_no_mark(bytes: &[u8]) -> bool
    ensures { result ≡ true → with_marks bytes.now ≡ bytes.now }
{
    match find_mark(bytes) {
        Some(_) => false,
        None => true,
    }
}

/// Returns an escaped copy of the chunk.
fn escaped(alloc: Global, chunk: &str, line_start: bool) -> Result<String, AllocError>
    ensures { IfOk result (λ made. string_bytes made ≡ escaped line_start chunk.now) }
{
    let mut made = String::with_capacity(alloc, chunk.len().saturating_add(8))?;
    if line_start {
        if let Some(at) = line_mark(chunk) {
            push_marks(&mut made, &chunk[..at])?;
            made.push('\\')?;
            push_marks(&mut made, &chunk[at..])?;
            return Ok(made);
        }
    }
    push_marks(&mut made, chunk)?;
    Ok(made)
}

/// Appends the chunk with a backslash before each mark.
fn push_marks(made: &mut String, chunk: &str) -> Result<(), AllocError>
    ensures { OnOk result (string_bytes made.new ≡ string_bytes made.old ++ with_marks chunk.now) }
{
    let mut rest = chunk;
    while let Some(marked) = cut_mark(rest) {
        made.push_str(marked.before)?;
        made.push('\\')?;
        made.push_str(marked.mark)?;
        rest = marked.after;
    }
    made.push_str(rest)
}

/// A mark, with the text before and after it.
#[derive(Clone, Copy)]
struct Marked<'a> {
    before: &'a str,
    mark: &'a str,
    after: &'a str,
}

/// Splits a text at its first mark; returns `None` if there is none.
fn cut_mark(text: &str) -> Option<Marked<'_>>
    ensures { CutsMark text.now result }
{
    let at = find_mark(text.as_bytes())?;
    Some(Marked {
        before: &text[..at],
        mark: &text[at..at + 1],
        after: &text[at + 1..],
    })
}

/// Returns the index of the first mark.
fn find_mark(bytes: &[u8]) -> Option<usize>
    ensures { MatchOption result (with_marks bytes.now ≡ bytes.now) (λ at.
        IsFirstMark bytes.now at) }
{
    for at in 0..bytes.len() {
        if is_marked(bytes, at) {
            return Some(at);
        }
    }
    None
}

/// Returns whether the byte at this index needs a backslash wherever it is in a line.
pub(crate) fn is_marked(bytes: &[u8], at: usize) -> bool
    requires { at < length bytes.now }
    ensures { result ≡ is_marked (slice_index_or bytes.now at 0) (drop (at + 1) bytes.now) }
{
    if is_mark(bytes[at]) {
        return true;
    }
    if bytes[at] != b'!' {
        return false;
    }
    match bytes[at + 1..].first() {
        Some(next) => *next == b'[',
        None => false,
    }
}

fn is_mark(byte: u8) -> bool
    ensures { result ≡ is_mark byte }
{
    matches!(
        byte,
        b'\\' | b'`' | b'*' | b'_' | b'[' | b']' | b'<' | b'|' | b'~'
    )
}

/// Returns the index at which a backslash is needed only if the chunk begins a line.
fn line_mark(chunk: &str) -> Option<usize>
    ensures value { result ≡ line_mark chunk.now }
{
    let bytes = chunk.as_bytes();
    if begins_block(bytes) || is_underline(bytes) {
        return Some(0);
    }
    if is_list_marker(bytes) {
        return Some(bytes.len() - 1);
    }
    None
}

fn begins_block(bytes: &[u8]) -> bool
    ensures { result ≡ begins_block bytes.now }
{
    match bytes.first() {
        Some(first) => matches!(*first, b'#' | b'>' | b'-' | b'+'),
        None => false,
    }
}

fn is_underline(bytes: &[u8]) -> bool
    ensures { result ≡ is_underline bytes.now }
{
    if bytes.is_empty() {
        return false;
    }
    for byte in bytes {
        if *byte != b'=' {
            return false;
        }
    }
    true
}

pub(crate) fn is_list_marker(bytes: &[u8]) -> bool
    ensures { result ≡ is_list_marker bytes.now }
{
    if bytes.len() < 2 {
        return false;
    }
    let last = bytes.len() - 1;
    if !are_digits(&bytes[..last]) {
        return false;
    }
    is_stop(bytes[last])
}

fn are_digits(bytes: &[u8]) -> bool
    ensures { result ≡ list_all is_ascii_digit bytes.now }
{
    for byte in bytes {
        if !byte.is_ascii_digit() {
            return false;
        }
    }
    true
}

fn is_stop(byte: u8) -> bool
    ensures { result ≡ is_stop byte }
{
    byte == b'.' || byte == b')'
}
