//! The decoder.

ghost use Rattle.std.specs.Prelude.{◌≡◌, ◌<◌, ◌≤◌, [], ◌∷◌, false, ◌++◌, IfNone, IfOk, IfSome, IsTrue, List, length, ℕ};
ghost use Rattle.gb18030.specs.Decoding.{alone, characters, is_digit, is_lead, of_two, of_four};

use crate::ranges::range_character;
use crate::table::{CODES, FIRSTS, GB18030};
use decoded_text::{MultiByte, character_at, character_or_error};

/// gb18030, and GBK, whose decoder is the same.
pub struct Gb18030;

impl MultiByte for Gb18030 {
    ghost use Rattle.std.specs.Prelude.{List, ℕ};
    ghost use Rattle.gb18030.specs.Decoding.{characters};
    ghost use Rattle.gb18030.specs.declared.table.TheConstants.{CODES, FIRSTS, GB18030};

    type Found = Option<char>;

    ghost characters = { characters GB18030 FIRSTS CODES };

    ghost longest = { 4 };

    fn next(bytes: &[u8], is_last: bool) -> Option<(Option<char>, &[u8])> {
        let (first, after) = bytes.split_first()?;
        if is_lead(*first) {
            return pair(*first, after, is_last);
        }
        Some((alone(*first), after))
    }

    fn ascii_is_itself() {}
}

/// Returns the character of two or four bytes, of which the first was read, and the bytes after it.
fn pair(first: u8, after: &[u8], is_last: bool) -> Option<(Option<char>, &[u8])>
    requires { IsTrue (is_lead first) }
    ensures none { IfNone result (length after.now < 3) }
    ensures last { IfNone result (is_last ≡ false) }
    ensures some { (more : List ℕ) → (IsTrue is_last → more ≡ []) → IfSome result (λ next.
        characters GB18030 FIRSTS CODES (first ∷ (after.now ++ more))
        ≡ next.0 ∷ characters GB18030 FIRSTS CODES (next.1.now ++ more)) }
    ensures less { IfSome result (λ next. length next.1.now ≤ length after.now) }
{
    let Some((second, others)) = after.split_first() else {
        return if is_last { Some((None, after)) } else { None };
    };
    if is_digit(*second) {
        return four(first, *second, after, others, is_last);
    }
    let found = of_two(first, *second);
    Some(character_or_error(found, *second, after, others))
}

/// Returns the character of four bytes, of which two were read, and the bytes after it.
fn four<'b>(
    first: u8,
    second: u8,
    after: &'b [u8],
    others: &'b [u8],
    is_last: bool,
) -> Option<(Option<char>, &'b [u8])>
    requires first { IsTrue (is_lead first) }
    requires second { IsTrue (is_digit second) }
    requires after { after.now ≡ second ∷ others.now }
    ensures none { IfNone result (length others.now < 2) }
    ensures last { IfNone result (is_last ≡ false) }
    ensures some { (more : List ℕ) → (IsTrue is_last → more ≡ []) → IfSome result (λ next.
        characters GB18030 FIRSTS CODES (first ∷ (after.now ++ more))
        ≡ next.0 ∷ characters GB18030 FIRSTS CODES (next.1.now ++ more)) }
    ensures less { IfSome result (λ next. length next.1.now ≤ length after.now) }
{
    let Some((third, from_fourth)) = others.split_first() else {
        return if is_last { Some((None, others)) } else { None };
    };
    if !is_lead(*third) {
        return Some((None, after));
    }
    let Some((fourth, rest)) = from_fourth.split_first() else {
        return if is_last {
            Some((None, from_fourth))
        } else {
            None
        };
    };
    if !is_digit(*fourth) {
        return Some((None, after));
    }
    Some((of_four(first, second, *third, *fourth), rest))
}

/// Returns whether a byte is the first of two or four, or the third of four.
fn is_lead(byte: u8) -> bool
    ensures { result ≡ is_lead byte }
{
    0x81 <= byte && byte <= 0xFE
}

/// Returns whether a byte is the second or the fourth of four.
fn is_digit(byte: u8) -> bool
    ensures { result ≡ is_digit byte }
{
    0x30 <= byte && byte <= 0x39
}

/// Returns the character of a byte alone.
fn alone(byte: u8) -> Option<char>
    ensures { result ≡ alone byte }
{
    match byte {
        0x80 => Some('\u{20AC}'),
        _ if byte < 128 => Some(char::from(byte)),
        _ => None,
    }
}

/// Returns the character of two bytes.
fn of_two(first: u8, second: u8) -> Option<char>
    requires { IsTrue (is_lead first) }
    ensures { result ≡ of_two GB18030 first second }
{
    if second < 0x40 || second == 0x7F || second == 0xFF {
        return None;
    }
    let offset = if second < 0x7F { 0x40 } else { 0x41 };
    character_at(
        &GB18030,
        (usize::from(first) - 0x81) * 190 + (usize::from(second) - offset),
    )
}

/// Returns the character of four bytes.
fn of_four(first: u8, second: u8, third: u8, fourth: u8) -> Option<char>
    requires first { IsTrue (is_lead first) }
    requires second { IsTrue (is_digit second) }
    requires third { IsTrue (is_lead third) }
    requires fourth { IsTrue (is_digit fourth) }
    ensures { result ≡ of_four FIRSTS CODES first second third fourth }
{
    range_character(
        (u32::from(first) - 0x81) * 12600
            + (u32::from(second) - 0x30) * 1260
            + (u32::from(third) - 0x81) * 10
            + (u32::from(fourth) - 0x30),
    )
}
