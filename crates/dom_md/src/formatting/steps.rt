//! The steps of formatting; each appends to the text so far.

ghost use Rattle.std.specs.Prelude.{◌≡◌, ◌==◌, ◌<◌, ◌≤◌, ◌+◌, ◌-◌, ◌++◌, ◌∷◌, IfOk, IfSome};
ghost use Rattle.std.specs.Prelude.{OnOk, drop, encode_utf8, length, not, slice_index_or};
ghost use Rattle.std.specs.Prelude.{string_bytes, true};
ghost use Rattle.std.specs.List.{list_any};
ghost use Rattle.std.specs.Str.{IsCharBoundary, IsUtf8, bytes_eq, trim_start};
ghost use Rattle.dom_nodes.specs.Ascii.{space};
ghost use Rattle.dom_nodes.specs.Words.{is_among};
ghost use Rattle.dom_md.specs.Formatted.{block_names, cell_names, drop_spaces, ends_with, CutsChar};
ghost use Rattle.dom_md.specs.Formatted.{ends_with_whitespace, is_fresh, is_parted, AddsWords};
ghost use Rattle.dom_md.specs.Formatted.{joined_words, line_names, spaced_words, with_close};
ghost use Rattle.dom_md.specs.Formatted.{with_gap, with_open, with_text};
ghost use Rattle.byte_lanes.specs.Lanes.{Marks};
ghost use Rattle.dom_md.specs.Visible.{begins_visible, is_visible, stays};
ghost use Rattle.dom_md.specs.Adding.{Adds, EachFrom, KeepsFront};

use crate::formatting::names::{is_block, is_cell, is_line};
use crate::lanes::past_spaces;
use byte_lanes::{at_most, load, unmarked_len};
use dom_nodes::name::LocalRef;
use std::alloc::AllocError;
use std::simd::prelude::*;

/// Appends what the start of an element adds: a line feed before a block, unless the text is empty
/// or ends in two line feeds.
pub(super) fn open_element(text: &mut String, name: &LocalRef<'_>) -> Result<(), AllocError>
    ensures { OnOk result (string_bytes text.new ≡ with_open (string_bytes text.old) name.now) }
{
    if is_block(name) && !is_parted(text.as_str()) {
        text.push_str("\n")?;
    }
    Ok(())
}

/// Appends what the end of an element adds: a blank line after a block, a line feed after an
/// element that ends a line, a space after a table cell. Spaces before the line feeds are removed.
/// Appends nothing if the text is empty or ends in two line feeds.
pub(super) fn close_element(text: &mut String, name: &LocalRef<'_>) -> Result<(), AllocError>
    ensures { OnOk result (string_bytes text.new ≡ with_close (string_bytes text.old) name.now) }
{
    if is_parted(text.as_str()) {
        return Ok(());
    }
    if is_block(name) {
        drop_spaces(text);
        return text.push_str("\n\n");
    }
    if is_line(name) {
        drop_spaces(text);
        return text.push_str("\n");
    }
    if !is_cell(name) {
        return Ok(());
    }
    if is_fresh(text.as_str()) {
        return Ok(());
    }
    text.push_str(" ")
}

/// Appends the words of a text node, joined by single spaces, with a space before and after them
/// where the node has whitespace and the text so far does not end in a gap.
pub(super) fn add_text(text: &mut String, added: &str) -> Result<(), AllocError>
    ensures { OnOk result (string_bytes text.new ≡ with_text (string_bytes text.old) added.now) }
{
    let row = first_word_on(added);
    let fresh = is_fresh(text.as_str());
    if row.is_empty() {
        if fresh {
            return Ok(());
        }
    } else {
        if !fresh && row.len() < added.len() {
            text.push_str(" ")?;
        }
        push_spaced(text, row)?;
    }
    add_gap(text, added)
}

/// Returns the text from its first word on.
fn first_word_on(added: &str) -> &str
    ensures row { result.now ≡ trim_start added.now }
    ensures words { joined_words added.now ≡ spaced_words result.now }
    ensures empty { (length (joined_words added.now) == 0) ≡ (length result.now == 0) }
{
    added.trim_start()
}

/// Appends a text with one space for each run of whitespace before a word, and none at its end.
/// Parts that stay unchanged, which are most of most texts, are appended at once.
fn push_spaced(text: &mut String, row: &str) -> Result<(), AllocError>
    ensures { Adds text.old text.new result (spaced_words row.now) }
{
    let mut rest = row;
    while !rest.is_empty() {
        let end = same_len(rest.as_bytes());
        text.push_str(&rest[..end])?;
        rest = push_next(text, &rest[end..])?;
    }
    Ok(())
}

/// Appends what is written for the first character and, after it, a run of letters beyond ASCII; or
/// one space for a run of whitespace before a word. Returns the remaining text.
fn push_next<'a>(text: &mut String, rest: &'a str) -> Result<&'a str, AllocError>
    ensures words { AddsWords text.old text.new result rest.now }
    ensures shorter { IfOk result (λ after. length after.now ≤ length rest.now - 1) }
{
    let mut chars = rest.chars();
    let Some(c) = chars.next() else {
        return Ok(rest);
    };
    if !c.is_whitespace() {
        text.push(c)?;
        return push_letters(text, chars.as_str());
    }
    let words = rest.trim_start();
    if !words.is_empty() {
        text.push(' ')?;
    }
    Ok(words)
}

/// Appends the run of characters beyond ASCII at the front, with the single spaces between them,
/// and returns the remaining text.
fn push_letters<'a>(text: &mut String, rest: &'a str) -> Result<&'a str, AllocError>
    ensures words { AddsWords text.old text.new result rest.now }
    ensures shorter { IfOk result (λ after. length after.now ≤ length rest.now) }
{
    let end = letters_len(rest);
    text.push_str(&rest[..end])?;
    Ok(&rest[end..])
}

/// Returns the length of that run in bytes.
fn letters_len(text: &str) -> usize
    ensures boundary { IsCharBoundary text.now result }
    ensures same { KeepsFront spaced_words text.now result }
{
    let mut left = text;
    while let Some((_, after)) = cut_same(left) {
        left = after;
    }
    text.len() - left.len()
}

/// Splits off a letter beyond ASCII, or a space before one, and returns it with the remaining text.
fn cut_same(text: &str) -> Option<(char, &str)>
    ensures { IfSome result (CutsChar text.now) }
{
    if let Some(letter) = cut_letter(text) {
        return Some(letter);
    }
    let after = text.strip_prefix(' ')?;
    match cut_letter(after) {
        Some(_) => Some((' ', after)),
        None => None,
    }
}

/// Splits off a character that is neither ASCII nor whitespace, and returns it with the remaining
/// text.
fn cut_letter(text: &str) -> Option<(char, &str)>
    ensures { IfSome result (λ cut. (text.now ≡ encode_utf8 cut.0 ++ cut.1.now)
        × (spaced_words text.now ≡ encode_utf8 cut.0 ++ spaced_words cut.1.now)
        × (spaced_words (space ∷ text.now) ≡ space ∷ spaced_words text.now)) }
{
    let mut chars = text.chars();
    let c = chars.next()?;
    if c.is_ascii() || c.is_whitespace() {
        return None;
    }
    Some((c, chars.as_str()))
}

/// Returns a number of bytes at the front that stay unchanged: visible ASCII, and single spaces
/// before visible ASCII.
fn same_len(bytes: &[u8]) -> usize
    ensures within { result ≤ length bytes.now }
    ensures boundary { IsUtf8 bytes.now → IsCharBoundary bytes.now result }
    ensures same { KeepsFront spaced_words bytes.now result }
{
    for at in same_blocks(bytes)..bytes.len() {
        if !stays(bytes, at) {
            return at;
        }
    }
    bytes.len()
}

/// Finds some of those bytes, 16 at a time.
fn same_blocks(bytes: &[u8]) -> usize
    ensures within { result ≤ length bytes.now }
    ensures boundary { IsUtf8 bytes.now → IsCharBoundary bytes.now result }
    ensures same { KeepsFront spaced_words bytes.now result }
{
    let mut at = 0;
    while 16 < bytes.len() - at {
        let run = same_run(bytes, at);
        at += run;
        if run < 16 {
            return at;
        }
    }
    at
}

/// Returns how many of the 16 bytes at this index stay unchanged, up to the first that does not.
fn same_run(bytes: &[u8], at: usize) -> usize
    requires { at + 17 ≤ length bytes.now }
    ensures within { result ≤ 16 }
    ensures stay { EachFrom bytes.now at result stays true }
{
    let tested = past_spaces(load(bytes, at), load(bytes, at + 1));
    unmarked_len(not_visible(tested))
}

/// Marks the lanes that do not contain a visible ASCII byte. With the top bit flipped, exactly the
/// visible ASCII bytes are greater than 160.
fn not_visible(v: u8x16) -> u8x16
    ensures { Marks result (λ k. not (is_visible (slice_index_or v k 0))) }
{
    at_most(v ^ u8x16::splat(128), 160)
}

fn stays(bytes: &[u8], at: usize) -> bool
    requires { at < length bytes.now }
    ensures { result ≡ stays (slice_index_or bytes.now at 0) (drop (at + 1) bytes.now) }
{
    if is_visible(bytes[at]) {
        return true;
    }
    bytes[at] == b' ' && begins_visible(&bytes[at + 1..])
}

fn begins_visible(bytes: &[u8]) -> bool
    ensures { result ≡ begins_visible bytes.now }
{
    match bytes.first() {
        Some(first) => is_visible(*first),
        None => false,
    }
}

fn is_visible(byte: u8) -> bool
    ensures { result ≡ is_visible byte }
{
    b' ' < byte && byte < 128
}

/// Appends a space if the added text ends in whitespace and the text so far does not.
fn add_gap(text: &mut String, added: &str) -> Result<(), AllocError>
    ensures { OnOk result (string_bytes text.new ≡ with_gap added.now (string_bytes text.old)) }
{
    if !ends_with_whitespace(added) {
        return Ok(());
    }
    if ends_with_whitespace(text.as_str()) {
        return Ok(());
    }
    text.push_str(" ")
}

fn ends_with_whitespace(text: &str) -> bool
    ensures { result ≡ ends_with_whitespace text.now }
{
    text.trim_end().len() < text.len()
}

/// Removes the spaces at the end.
fn drop_spaces(text: &mut String)
    ensures { string_bytes text.new ≡ drop_spaces (string_bytes text.old) }
{
    while ends_with(text.as_str(), " ") {
        let end = text.as_str().len() - 1;
        text.truncate(end);
    }
}

/// Returns whether the text is empty or ends in two line feeds.
fn is_parted(text: &str) -> bool
    ensures { result ≡ is_parted text.now }
{
    text.is_empty() || ends_with(text, "\n\n")
}

/// Returns whether the text is empty or ends in a line feed or a space.
fn is_fresh(text: &str) -> bool
    ensures { result ≡ is_fresh text.now }
{
    text.is_empty() || ends_with(text, "\n") || ends_with(text, " ")
}

fn ends_with(text: &str, end: &str) -> bool
    ensures { result ≡ ends_with end.now text.now }
{
    text.as_bytes().ends_with(end.as_bytes())
}
