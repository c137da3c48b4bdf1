//! Writing of the words of a text. Start at `push_words`.

ghost use Rattle.std.specs.Prelude.{◌≡◌, ◌||◌, ◌+◌, ◌<◌, ◌≤◌, OnOk, MatchOption, codes};
ghost use Rattle.std.specs.Prelude.{drop, false, length, slice_index_or, string_bytes, true};
ghost use Rattle.std.specs.Str.{bytes_eq};
ghost use Rattle.dom_nodes.specs.Words.{words_of};
ghost use Rattle.dom_md.specs.Adding.{Adds, EachFrom, KeepsFront};
ghost use Rattle.byte_lanes.specs.Lanes.{Marks};
ghost use Rattle.dom_md.specs.Resolved.{ReadsIn};
ghost use Rattle.dom_md.specs.Words.{spaced};
ghost use Rattle.dom_md.specs.Written.{IsFirstChange, begins_word, change_of, CutsFirstChange};
ghost use Rattle.dom_md.specs.Written.{is_changed, is_special, written};

use crate::chunks::{is_marked, push_escaped_chunk};
use crate::context::FormatOpts;
use crate::lanes::past_spaces;
use crate::serializer::texts::{begins_line, ends_in_marker_digits};
use byte_lanes::{at_most, either, equal_to, load, unmarked_len};
use dom_nodes::fault::OutOfMemory;
use std::alloc::AllocError;
use std::simd::prelude::*;

/// Appends the words of a text with one space between each two, and one before them if `parted`.
/// Marks are escaped unless `skip_escape` is on. Fails only when memory runs out.
pub(super) fn push_words(
    text: &mut String,
    added: &str,
    opts: FormatOpts,
    parted: bool,
) -> Result<(), OutOfMemory>
    ensures { OnOk result (opts.skip_escape ≡ false → ReadsIn text.old text.new
        (spaced parted (words_of added.now))) }
{
    let row = added.trim_ascii_start();
    if row.is_empty() {
        return Ok(());
    }
    let line_start = begins_line(text.as_str()) || opts.list_item;
    if parted {
        text.push(' ')?;
    }
    push_row(text, row, !opts.skip_escape, line_start)
}

/// Appends the words of a text that begins with a word.
fn push_row(text: &mut String, row: &str, escape: bool, line_start: bool) -> Result<(), OutOfMemory>
    ensures { OnOk result (escape ≡ true → ReadsIn text.old text.new (written false row.now)) }
{
    if escape && (line_start || begins_with_stop(row)) {
        let end = word_len(row.as_bytes());
        push_first_word(text, &row[..end], line_start)?;
        return Ok(push_written(text, &row[end..], true)?);
    }
    Ok(push_written(text, row, escape)?)
}

fn begins_with_stop(row: &str) -> bool {
    match row.as_bytes().first() {
        Some(first) => *first == b'.' || *first == b')',
        None => false,
    }
}

/// Returns the length in bytes of the word at the front.
fn word_len(bytes: &[u8]) -> usize
    ensures within { result ≤ length bytes.now }
    ensures ascii { result < length bytes.now → slice_index_or bytes.now result 0 < 128 }
    ensures word { KeepsFront (written false) bytes.now result }
{
    for at in 0..bytes.len() {
        if bytes[at].is_ascii_whitespace() {
            return at;
        }
    }
    bytes.len()
}

/// Appends a word that may begin a line. A lone `.` or `)` gets a backslash if it would make the
/// number of a list item of the digits before it.
fn push_first_word(text: &mut String, word: &str, line_start: bool) -> Result<(), OutOfMemory>
    ensures { OnOk result (ReadsIn text.old text.new word.now) }
{
    if word.len() == 1 && is_stop_word(word) && ends_in_marker_digits(text.as_str()) {
        text.push('\\')?;
        return Ok(text.push_str(word)?);
    }
    push_escaped_chunk(text, word, true, line_start)
}

fn is_stop_word(word: &str) -> bool
    ensures { result ≡ (bytes_eq word.now (codes ".") || bytes_eq word.now (codes ")")) }
{
    word == "." || word == ")"
}

/// Appends a text with one space for each run of whitespace before a word and none at its end; with
/// `escape`, a backslash is put before each mark.
pub(crate) fn push_written(text: &mut String, added: &str, escape: bool) -> Result<(), AllocError>
    ensures { Adds text.old text.new result (written escape added.now) }
{
    let mut rest = added;
    while let Some(cut) = cut_change(rest, escape) {
        text.push_str(cut.before)?;
        push_change(text, cut.changed, cut.after)?;
        rest = cut.after;
    }
    text.push_str(rest)
}

/// A byte that is not written unchanged, with the text before and after it.
#[derive(Clone, Copy)]
struct Change<'a> {
    before: &'a str,
    changed: &'a str,
    after: &'a str,
}

/// Splits a text at the first such byte; returns `None` if there is none.
fn cut_change(text: &str, escape: bool) -> Option<Change<'_>>
    ensures { CutsFirstChange escape text.now result }
{
    let at = find_change(text.as_bytes(), escape)?;
    Some(Change {
        before: &text[..at],
        changed: &text[at..at + 1],
        after: &text[at + 1..],
    })
}

/// Returns the index of the first such byte.
fn find_change(bytes: &[u8], escape: bool) -> Option<usize>
    ensures { MatchOption result (written escape bytes.now ≡ bytes.now)
        (IsFirstChange escape bytes.now) }
{
    for at in same_blocks(bytes, escape)..bytes.len() {
        if is_changed(bytes, at, escape) {
            return Some(at);
        }
    }
    None
}

/// Returns an index up to which all bytes are written unchanged, found 16 bytes at a time.
fn same_blocks(bytes: &[u8], escape: bool) -> usize
    ensures within { result ≤ length bytes.now }
    ensures same { KeepsFront (written escape) bytes.now result }
{
    let mut at = 0;
    while 16 < bytes.len() - at {
        let run = same_run(bytes, at, escape);
        at += run;
        if run < 16 {
            return at;
        }
    }
    at
}

/// Returns how many of the 16 bytes at this index are surely written unchanged, up to the first
/// that may not be.
fn same_run(bytes: &[u8], at: usize, escape: bool) -> usize
    requires { at + 17 ≤ length bytes.now }
    ensures within { result ≤ 16 }
    ensures same { EachFrom bytes.now at result (is_changed escape) false }
{
    let here = load(bytes, at);
    let gaps = at_most(past_spaces(here, load(bytes, at + 1)), b' ');
    if escape {
        return unmarked_len(either(gaps, special(here)));
    }
    unmarked_len(gaps)
}

/// Marks the lanes that contain a mark, a `!` or one of a few other bytes.
fn special(v: u8x16) -> u8x16
    ensures { Marks result (λ k. is_special (slice_index_or v k 0)) }
{
    // From `[` to `_`, from `{` to `~`, and 127.
    let brackets = at_most((v | u8x16::splat(32)) ^ u8x16::splat(127), 4);
    let quotes = either(equal_to(v, b'`'), equal_to(v, b'*'));
    let signs = either(equal_to(v, b'<'), equal_to(v, b'!'));
    either(brackets, either(quotes, signs))
}

/// 1 for each byte that is written unchanged whatever follows it: it is not whitespace, a mark or
/// `!`.
#[rattlefmt::skip]
static PLAIN: [u8; 256] = [
    1, 1, 1, 1, 1, 1, 1, 1, 1, 0, 0, 1, 0, 0, 1, 1, 1, 1, 1, 1, 1, 1, 1, 1, 1, 1, 1, 1, 1, 1, 1, 1,
    0, 0, 1, 1, 1, 1, 1, 1, 1, 1, 0, 1, 1, 1, 1, 1, 1, 1, 1, 1, 1, 1, 1, 1, 1, 1, 1, 1, 0, 1, 1, 1,
    1, 1, 1, 1, 1, 1, 1, 1, 1, 1, 1, 1, 1, 1, 1, 1, 1, 1, 1, 1, 1, 1, 1, 1, 1, 1, 1, 0, 0, 0, 1, 0,
    0, 1, 1, 1, 1, 1, 1, 1, 1, 1, 1, 1, 1, 1, 1, 1, 1, 1, 1, 1, 1, 1, 1, 1, 1, 1, 1, 1, 0, 1, 0, 1,
    1, 1, 1, 1, 1, 1, 1, 1, 1, 1, 1, 1, 1, 1, 1, 1, 1, 1, 1, 1, 1, 1, 1, 1, 1, 1, 1, 1, 1, 1, 1, 1,
    1, 1, 1, 1, 1, 1, 1, 1, 1, 1, 1, 1, 1, 1, 1, 1, 1, 1, 1, 1, 1, 1, 1, 1, 1, 1, 1, 1, 1, 1, 1, 1,
    1, 1, 1, 1, 1, 1, 1, 1, 1, 1, 1, 1, 1, 1, 1, 1, 1, 1, 1, 1, 1, 1, 1, 1, 1, 1, 1, 1, 1, 1, 1, 1,
    1, 1, 1, 1, 1, 1, 1, 1, 1, 1, 1, 1, 1, 1, 1, 1, 1, 1, 1, 1, 1, 1, 1, 1, 1, 1, 1, 1, 1, 1, 1, 1,
];

/// Returns whether the byte at this index is not written unchanged.
fn is_changed(bytes: &[u8], at: usize, escape: bool) -> bool
    requires { at < length bytes.now }
    ensures { result
        ≡ is_changed escape (slice_index_or bytes.now at 0) (drop (at + 1) bytes.now) }
{
    // This is the case for most bytes of most texts.
    if PLAIN[bytes[at] as usize] == 1 {
        return false;
    }
    if bytes[at].is_ascii_whitespace() {
        if bytes[at] != b' ' {
            return true;
        }
        return !begins_word(&bytes[at + 1..]);
    }
    if !escape {
        return false;
    }
    is_marked(bytes, at)
}

fn begins_word(bytes: &[u8]) -> bool
    ensures { result ≡ begins_word bytes.now }
{
    match bytes.first() {
        Some(first) => !first.is_ascii_whitespace(),
        None => false,
    }
}

/// Appends what is written for such a byte.
fn push_change(text: &mut String, changed: &str, after: &str) -> Result<(), AllocError>
    ensures { Adds text.old text.new result (change_of changed.now after.now) }
{
    if begins_word(changed.as_bytes()) {
        text.push('\\')?;
        return text.push_str(changed);
    }
    if begins_word(after.as_bytes()) {
        text.push(' ')?;
    }
    Ok(())
}
