// Character references, and texts with their references resolved.
ghost use Rattle.std.specs.Prelude.{◌≡◌, ◌≤◌, ℕ, List, None, Some, IfOk, if◌then◌else◌};
ghost use Rattle.dom_markup.specs.References.{decoded, is_numbered, numeral, reference};
ghost use Rattle.dom_markup.specs.Referring.{IsCutReference};
ghost use Rattle.memchr.specs.Find.{IsFirstByte, is_byte};

use crate::find::find_byte;
use dom_nodes::fault::OutOfMemory;
use dom_nodes::text::Text;
use std::alloc::Global;

/// Returns the text with its character references resolved. Fails only when memory runs out.
#[inline(always)]
pub fn decode(alloc: Global, text: &str) -> Result<Text, OutOfMemory>
    ensures { IfOk result (λ read. read ≡ decoded text.now) }
{
    let Some(first) = find_byte(b'&', text.as_bytes()) else {
        return Text::new(alloc, text);
    };
    decode_references(alloc, text, first)
}

/// Resolves the references of a text whose first `&` is at `first`.
fn decode_references(alloc: Global, text: &str, first: usize) -> Result<Text, OutOfMemory>
    requires { IsFirstByte (is_byte 38) text.now (Some first) }
    ensures { IfOk result (λ read. read ≡ decoded text.now) }
{
    let mut read = String::with_capacity(alloc, text.len())?;
    let mut rest = text;
    let mut next = Some(first);
    while let Some(at) = next {
        let cut = cut_at(rest, at);
        read.push_str(cut.before)?;
        read.push(cut.character)?;
        rest = cut.after;
        next = find_byte(b'&', rest.as_bytes());
    }
    read.push_str(rest)?;
    Ok(Text::from(read))
}

/// A text that is split at a character reference: the text before it, the character that it stands
/// for, and the text after it.
#[derive(Clone, Copy)]
struct Referred<'a> {
    before: &'a str,
    character: char,
    after: &'a str,
}

/// Splits the text at its first `&`, which is at `at`. If no reference starts there, the character
/// is the `&` itself.
#[inline(always)]
fn cut_at(text: &str, at: usize) -> Referred<'_>
    requires { IsFirstByte (is_byte 38) text.now (Some at) }
    ensures { IsCutReference text.now result }
{
    let after = &text[at + 1..];
    let bare = Reference {
        character: '&',
        len: 0,
    };
    let found = reference_at(after).unwrap_or(bare);
    let character = found.character;
    Referred {
        before: &text[..at],
        character,
        after: &after[found.len..],
    }
}

/// A character reference: the character that it stands for, and its length in bytes after the `&`.
#[derive(Clone, Copy)]
struct Reference {
    character: char,
    len: usize,
}

/// Returns a named reference, whose length includes the semicolon.
fn named(character: char, len: usize) -> Reference
    ensures { result ≡ record { character = character; len = len } }
{
    Reference { character, len }
}

/// Returns the reference that an `&` before this text starts, or `None`.
fn reference_at(after: &str) -> Option<Reference>
    ensures { result ≡ reference after.now }
{
    let bytes = after.as_bytes();
    if bytes.starts_with(b"amp;") {
        Some(named('&', 4))
    } else if bytes.starts_with(b"lt;") {
        Some(named('<', 3))
    } else if bytes.starts_with(b"gt;") {
        Some(named('>', 3))
    } else if bytes.starts_with(b"quot;") {
        Some(named('"', 5))
    } else if bytes.starts_with(b"nbsp;") {
        Some(named('\u{a0}', 5))
    } else if bytes.starts_with(b"#x") || bytes.starts_with(b"#X") {
        numeral(&bytes[2..], 16, 2)
    } else if bytes.starts_with(b"#") {
        numeral(&bytes[1..], 10, 1)
    } else {
        None
    }
}

/// Returns the numeric reference whose digits and semicolon these bytes start with, or `None` if
/// they start with none that is allowed. `before` is the number of bytes between the `&` and the
/// digits.
fn numeral(bytes: &[u8], base: u32, before: usize) -> Option<Reference>
    requires digits { 2 ≤ base }
    requires base { base ≤ 16 }
    requires before { before ≤ 2 }
    ensures { result ≡ numeral base 0 before bytes.now }
{
    let mut number = 0;
    for (index, byte) in bytes.iter().enumerate() {
        if *byte == b';' {
            let character = numbered(number)?;
            return Some(Reference {
                character,
                len: before + index + 1,
            });
        }
        let digit = char::from(*byte).to_digit(base)?;
        number = number * base + digit;
        if number > 0x10FFFF {
            return None;
        }
    }
    None
}

/// Returns the character with this code point, or `None` if a numeric reference to it isn't
/// allowed.
fn numbered(number: u32) -> Option<char>
    ensures { result ≡ (if is_numbered number then Some number else None) }
{
    match char::from_u32(number) {
        Some(character) if number != 0 && !(128 <= number && number < 160) => Some(character),
        _ => None,
    }
}
