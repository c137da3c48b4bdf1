//! Splitting whitespace, names, attributes, texts and the end of a start tag off the start of a
//! text.

ghost use Rattle.std.specs.Prelude.{◌≡◌, ◌≤◌, ◌<◌, not, true, List, ℕ, ◌∷◌, ◌++◌};
ghost use Rattle.std.specs.Prelude.{IfNone, IfSome, codes, drop, length, map};
ghost use Rattle.std.specs.Simd.Lanes.{chunk, mask_l};
ghost use Rattle.std.specs.List.{prefix_len};
ghost use Rattle.memchr.specs.Find.{Nowhere, Passes, is_byte};
ghost use Rattle.dom_nodes.specs.Ascii.{slash};
ghost use Rattle.dom_markup.specs.Bytes.{is_letter, is_low, is_name_byte, is_whitespace};
ghost use Rattle.dom_markup.specs.References.{decoded};
ghost use Rattle.dom_markup.specs.Markup.{BeginsAttribute, BeginsValue, Closes, EndsAtMark};
ghost use Rattle.dom_markup.specs.Markup.{HasValue, begins_markup, text_front, BeginsNoAttribute};
ghost use Rattle.dom_markup.specs.Markup.{EndsAtByte, opens_markup};
ghost use Rattle.dom_markup.specs.Taking.{Leaves, Takes};
ghost use Rattle.dom_markup.specs.ByteClasses.{passes, PastAttributes, Splits, attribute_in};
ghost use Rattle.dom_markup.specs.ByteClasses.{begins_space, MarksPlain, NamesAttribute};
ghost use Rattle.dom_markup.specs.Plain.{HoldsNoClose};

use crate::document::names::is_letter;
use crate::find::{find_before, find_byte};
use std::simd::prelude::*;

/// A class of bytes.
#[derive(Clone, Copy)]
pub enum ByteClass {
    Whitespace,
    Name,
    /// The bytes of an unquoted attribute value.
    Bare,
}

/// Returns whether the byte is a tab, line feed, form feed, carriage return or space. Bytes above a
/// space, which are the most frequent, are tested first.
#[inline(always)]
fn is_whitespace(byte: u8) -> bool
    ensures { result ≡ is_whitespace byte }
{
    if byte > b' ' {
        return false;
    }
    matches!(byte, b'\t' | b'\n' | 0x0c | b'\r' | b' ')
}

/// Returns whether a byte may occur in a name. All bytes above `>` may, so letters are tested
/// first.
#[inline(always)]
fn is_name_byte(byte: u8) -> bool
    ensures { result ≡ is_name_byte byte }
{
    if byte > b'>' {
        return true;
    }
    !(is_whitespace(byte) || matches!(byte, b'/' | b'>' | b'<' | b'=' | b'"' | b'\'' | 0))
}

impl ByteClass {
    /// Returns whether a byte belongs to this class.
    #[inline(always)]
    fn pass(self, byte: u8) -> bool
        ensures { result ≡ passes self byte }
    {
        match self {
            ByteClass::Whitespace => is_whitespace(byte),
            ByteClass::Name => is_name_byte(byte),
            ByteClass::Bare => !(is_whitespace(byte) || byte == b'>'),
        }
    }
}

/// Returns how many bytes at the start belong to the class, tested one after the other.
#[inline(always)]
fn front_len(byte_class: ByteClass, bytes: &[u8]) -> usize
    ensures { result ≡ prefix_len (passes byte_class) bytes.now }
{
    for (index, byte) in bytes.iter().enumerate() {
        if !byte_class.pass(*byte) {
            return index;
        }
    }
    bytes.len()
}

/// Returns a bit mask of the bytes that are at most `>`.
#[inline(always)]
fn low_bytes(bytes: u8x16) -> u64
    ensures { result ≡ mask_l (map is_low bytes) }
{
    bytes.simd_le(u8x16::splat(b'>')).to_bitmask()
}

/// Returns how many of the first 16 bytes come before the first that is at most `>`.
#[inline(always)]
fn high_len(bytes: &[u8]) -> usize
    requires { 16 ≤ length bytes.now }
    ensures { result ≡ prefix_len (λ b. not (is_low b)) (chunk 0 16 bytes.now) }
{
    let low = low_bytes(u8x16::from_slice(bytes));
    if low == 0 {
        return 16;
    }
    low.trailing_zeros() as usize
}

/// Returns how many bytes at the start may occur in a name. Bytes above `>` are tested 16 at a
/// time; most names consist of these alone.
#[inline(always)]
fn name_len(bytes: &[u8]) -> usize
    ensures { result ≡ prefix_len is_name_byte bytes.now }
{
    if bytes.len() < 16 {
        return front_len(ByteClass::Name, bytes);
    }
    let high = high_len(bytes);
    high + front_len(ByteClass::Name, bytes_from(bytes, high))
}

/// Returns how many bytes at the start belong to the class.
#[inline(always)]
fn class_len(byte_class: ByteClass, bytes: &[u8]) -> usize
    ensures { result ≡ prefix_len (passes byte_class) bytes.now }
{
    match byte_class {
        ByteClass::Name => name_len(bytes),
        _ => front_len(byte_class, bytes),
    }
}

/// Splits the longest run of this class off the start of the text; returns the run and the rest.
#[inline(always)]
pub fn split_front(byte_class: ByteClass, text: &str) -> (&str, &str)
    ensures { Splits (passes byte_class) text.now result.0.now result.1.now }
{
    text.split_at(class_len(byte_class, text.as_bytes()))
}

/// Returns the text after this ASCII character, if it starts with the character; otherwise `None`.
#[inline(always)]
pub fn strip(text: &str, letter: char) -> Option<&str>
    requires { letter < 128 }
    ensures { Leaves (λ rest. text.now ≡ letter ∷ rest) result }
{
    let [first, ..] = text.as_bytes() else {
        return None;
    };
    if *first as char != letter {
        return None;
    }
    Some(&text[1..])
}

/// Returns the text after `front`, if it starts with `front`; otherwise `None`.
pub fn strip_all<'a>(text: &'a str, front: &str) -> Option<&'a str>
    ensures { Leaves (λ rest. text.now ≡ front.now ++ rest) result }
{
    text.strip_prefix(front)
}

// ---- texts

/// Returns whether a `<` followed by this byte starts a tag, comment, doctype or instruction.
fn opens_markup(byte: u8) -> bool
    ensures { result ≡ opens_markup byte }
{
    is_letter(byte) || matches!(byte, b'/' | b'!' | b'?')
}

/// Returns whether a tag, a comment, a doctype or a processing instruction starts here.
pub fn begins_markup(bytes: &[u8]) -> bool
    ensures { result ≡ begins_markup bytes.now }
{
    let [first, second, ..] = bytes else {
        return false;
    };
    *first == b'<' && opens_markup(*second)
}

/// Returns the bytes from the offset `at` on.
#[inline(always)]
pub fn bytes_from(bytes: &[u8], at: usize) -> &[u8]
    requires { at ≤ length bytes.now }
    ensures { result.now ≡ drop at bytes.now }
{
    let (_, rest) = bytes.split_at(at);
    rest
}

/// Returns how many bytes come before the first tag, comment, doctype or processing instruction.
fn text_len(bytes: &[u8]) -> usize
    ensures { result ≡ length (text_front bytes.now) }
{
    let mut at = 0;
    while let Some(found) = find_byte(b'<', bytes_from(bytes, at)) {
        let start = at + found;
        if begins_markup(bytes_from(bytes, start)) {
            return start;
        }
        at = start + 1;
    }
    bytes.len()
}

/// Splits the text before the first tag, comment, doctype or processing instruction, and returns
/// the two parts. Without any of these, the second part is empty.
#[inline(always)]
pub fn split_text(text: &str) -> (&str, &str)
    ensures front { result.0.now ≡ text_front text.now }
    ensures whole { text.now ≡ result.0.now ++ result.1.now }
{
    text.split_at(text_len(text.as_bytes()))
}

/// Returns the offset of the first `<`, if a tag or the like starts there and no `&` comes before
/// it.
#[inline(always)]
fn plain_len(bytes: &[u8]) -> Option<usize>
    ensures len { IfSome result (λ len. len ≡ length (text_front bytes.now)) }
    ensures plain { IfSome result (λ len. Nowhere (Passes (is_byte 38) bytes.now) 0 len) }
{
    let at = find_before(b'<', b'&', bytes)?;
    if !begins_markup(bytes_from(bytes, at)) {
        return None;
    }
    Some(at)
}

/// Does what `split_text` does, but only in the common case: the first `<` starts a tag or the
/// like, no `&` comes before it, and it isn't among the last bytes, which are not searched.
/// Otherwise the result is `None`.
#[inline(always)]
pub fn split_plain(text: &str) -> Option<(&str, &str)>
    ensures front { IfSome result (λ found. found.0.now ≡ text_front text.now) }
    ensures whole { IfSome result (λ found. text.now ≡ found.0.now ++ found.1.now) }
    ensures plain { IfSome result (λ found. decoded found.0.now ≡ found.0.now) }
{
    let len = plain_len(text.as_bytes())?;
    Some(text.split_at(len))
}

/// Estimates how many nodes the text has: about as many as it has `<`, since an element with a text
/// has two of both. Only the reserved room depends on the estimate, so a quarter of the text is
/// counted, and four times that count and a little more is returned.
pub fn estimate_nodes(text: &str) -> usize {
    let bytes = text.as_bytes();
    let mut count: usize = 0;
    let mut at = 0;
    while bytes.len() - at >= 128 {
        let lanes = u8x32::from_slice(&bytes[at..]);
        let found = lanes.simd_eq(u8x32::splat(b'<')).to_bitmask().count_ones();
        count = count.saturating_add(found as usize);
        at += 128;
    }
    count.saturating_mul(4).saturating_add(count / 4)
}

// ---- comments

/// Returns the contents of a comment, whose `<!--` is already read, and the text after its first
/// `-->`; `None` if there is no `-->`.
pub fn comment_at(text: &str) -> Option<(&str, &str)>
    ensures some { IfSome result (λ found.
        EndsAtMark (codes "-->") text.now found.0.now found.1.now) }
    ensures none { IfNone result (HoldsNoClose text.now) }
{
    let (contents, rest) = text.split_once("-->")?;
    Some((contents, rest))
}

// ---- attributes

/// Splits the text at the first occurrence of this ASCII character, which belongs to neither part;
/// `None` if the character doesn't occur.
#[inline(always)]
pub fn split_letter(text: &str, letter: u8) -> Option<(&str, &str)>
    requires { letter < 128 }
    ensures some { IfSome result (λ found. EndsAtByte letter text.now found.0.now found.1.now) }
    ensures none { IfNone result ((front rest : List ℕ) → text.now ≡ front ++ letter ∷ rest → ⊥) }
{
    let at = find_byte(letter, text.as_bytes())?;
    Some((&text[..at], &text[at + 1..]))
}

/// Returns the attribute value at the start, as in the source and without quotes, and the rest.
#[inline(always)]
fn value_at(text: &str) -> Option<(&str, &str)>
    ensures { Takes (BeginsValue text.now) result }
{
    if let Some(inner) = strip(text, '"') {
        let found = split_letter(inner, b'"')?;
        return Some(found);
    }
    if let Some(inner) = strip(text, '\'') {
        let found = split_letter(inner, b'\'')?;
        return Some(found);
    }
    let (bare, rest) = split_front(ByteClass::Bare, text);
    if bare.is_empty() {
        return None;
    }
    Some((bare, rest))
}

/// Returns the value after an attribute's name, as in the source, and the rest. The value is empty
/// if there is no `=`. `None` if a value is missing after the `=`.
#[inline(never)]
fn value_behind(after: &str) -> Option<(&str, &str)>
    ensures some { IfSome result (λ found. HasValue after.now (decoded found.0.now) found.1.now) }
    ensures none { IfNone result ((value rest : List ℕ) → HasValue after.now value rest → ⊥) }
{
    let (_, equals) = split_front(ByteClass::Whitespace, after);
    let Some(behind) = strip(equals, '=') else {
        return Some(("", after));
    };
    let (_, text) = split_front(ByteClass::Whitespace, behind);
    let found = value_at(text)?;
    Some(found)
}

/// Splits the text at the first `"`, if no `&` comes before it. Returns `None` also if the quote is
/// among the last bytes, which are not searched.
#[inline(always)]
fn split_plain_value(text: &str) -> Option<(&str, &str)>
    ensures some { IfSome result (λ found. EndsAtByte 34 text.now found.0.now found.1.now) }
    ensures plain { IfSome result (λ found. decoded found.0.now ≡ found.0.now) }
{
    let at = find_before(b'"', b'&', text.as_bytes())?;
    Some((&text[..at], &text[at + 1..]))
}

/// Returns the value and the rest in the common case: `="value"` right after the name, without a
/// character reference.
#[inline(always)]
fn plain_value(after: &str) -> Option<(&str, &str)>
    ensures some { IfSome result (λ found. HasValue after.now (decoded found.0.now) found.1.now) }
    ensures plain { IfSome result (λ found. decoded found.0.now ≡ found.0.now) }
{
    let inner = strip_all(after, "=\"")?;
    let (value, rest) = split_plain_value(inner)?;
    Some((value, rest))
}

/// Returns the value after an attribute's name, as in the source, the rest, and whether the value
/// is known to contain no character reference. Most values are in double quotes and contain none.
#[inline(always)]
fn noted_value(after: &str) -> Option<(&str, &str, bool)>
    ensures some { IfSome result (λ f. HasValue after.now (decoded f.0.now) f.1.now) }
    ensures plain { IfSome result (λ f. f.2 ≡ true → decoded f.0.now ≡ f.0.now) }
    ensures none { IfNone result ((value rest : List ℕ) → HasValue after.now value rest → ⊥) }
{
    if let Some((value, rest)) = plain_value(after) {
        return Some((value, rest, true));
    }
    let (value, rest) = value_behind(after)?;
    Some((value, rest, false))
}

/// An attribute as in the source, and whether its value is known to contain no character reference.
#[derive(Clone, Copy)]
pub struct Written<'a> {
    pub name: &'a str,
    pub value: &'a str,
    pub is_plain: bool,
}

/// Returns whether the text starts with whitespace.
#[inline(always)]
pub fn begins_space(text: &str) -> bool
    ensures { result ≡ begins_space text.now }
{
    match text.as_bytes() {
        [first, ..] => is_whitespace(*first),
        [] => false,
    }
}

/// Splits off whitespace and a name; returns the name and the rest, or `None` if one of the two is
/// missing.
#[inline(always)]
fn spaced_name(text: &str) -> Option<(&str, &str)>
    ensures some { IfSome result (λ f. NamesAttribute text.now f.0.now f.1.now) }
    ensures none { IfNone result (BeginsNoAttribute text.now) }
{
    let (space, inner) = split_front(ByteClass::Whitespace, text);
    if space.is_empty() {
        return None;
    }
    let (name, behind) = split_front(ByteClass::Name, inner);
    if name.is_empty() {
        return None;
    }
    Some((name, behind))
}

/// Returns the attribute at the start of the text and the text after it, or `None` if no attribute
/// starts there. Most tags end where there is no whitespace, so that is tested first.
#[inline(always)]
pub fn attribute_at(text: &str) -> Option<(Written<'_>, &str)>
    ensures some { IfSome result (λ f. BeginsAttribute text.now (attribute_in f.0) f.1.now) }
    ensures plain { IfSome result (λ f. MarksPlain f.0) }
    ensures none { IfNone result (BeginsNoAttribute text.now) }
{
    if !begins_space(text) {
        return None;
    }
    let (name, behind) = spaced_name(text)?;
    let (value, rest, is_plain) = noted_value(behind)?;
    Some((
        Written {
            name,
            value,
            is_plain,
        },
        rest,
    ))
}

/// Returns the text after the end of a tag, which is `>`, or also `/>` if `slash` is true; `None`
/// if the text doesn't start with one of these.
#[inline(always)]
pub fn close_at(text: &str, slash: bool) -> Option<&str>
    ensures { Leaves (Closes slash text.now) result }
{
    let (_, end) = split_front(ByteClass::Whitespace, text);
    if let Some(rest) = strip(end, '>') {
        return Some(rest);
    }
    if !slash {
        return None;
    }
    let close = strip(end, '/')?;
    let rest = strip(close, '>')?;
    Some(rest)
}

/// Returns the text after all attributes at the start.
pub fn attributes_end(text: &str) -> &str
    ensures { PastAttributes text.now result.now }
{
    let mut rest = text;
    while let Some((_, after)) = attribute_at(rest) {
        rest = after;
    }
    rest
}
