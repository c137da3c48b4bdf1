//! The decoder.

ghost use Rattle.std.specs.Prelude.{◌≡◌, ◌<◌, ◌≤◌, [], ◌∷◌, false, ◌++◌, IfNone, IfOk, IfSome, IsTrue, List, OnOk, length, ℕ};
ghost use Rattle.decoded_text.specs.Characters.{Appends, IsCounted};
ghost use Rattle.decoded_text.specs.Indexes.{character_at};
ghost use Rattle.big5.specs.Decoding.{alone, characters, is_lead, is_trail, mark_at, mark_of, marked, of_two, pointer_of, unmarked};

use crate::table::BIG5;
use decoded_text::{Decoded, Found, MultiByte, character_of};
use std::alloc::AllocError;

/// A character, or `None` for an error, and the combining mark after it.
#[derive(Clone, Copy, Drop)]
pub struct Marked {
    character: Option<char>,
    mark: Option<char>,
}

impl Found for Marked {
    ghost use Rattle.big5.specs.Decoding.{marked};

    ghost items = { λ found. marked found.character found.mark };

    fn push_to(self, out: &mut Decoded) -> Result<(), AllocError> {
        match self.mark {
            Some(mark) => push_both(out, self.character, mark),
            None => out.push(self.character),
        }
    }
}

/// Appends a character and a mark.
fn push_both(out: &mut Decoded, character: Option<char>, mark: char) -> Result<(), AllocError>
    requires { IsCounted out.old }
    ensures appends { OnOk result (Appends out.old out.new (character ∷ Some mark ∷ [])) }
    ensures counted { IsCounted out.new }
{
    out.push(character)?;
    out.push(Some(mark))?;
    Ok(())
}

/// Big5.
pub struct Big5;

impl MultiByte for Big5 {
    ghost use Rattle.std.specs.Prelude.{List, ℕ};
    ghost use Rattle.big5.specs.Decoding.{characters};
    ghost use Rattle.big5.specs.declared.table.TheConstants.{BIG5};

    type Found = Marked;

    ghost characters = { characters BIG5 };

    ghost longest = { 2 };

    fn next(bytes: &[u8], is_last: bool) -> Option<(Marked, &[u8])> {
        let (lead, after) = bytes.split_first()?;
        if is_lead(*lead) {
            return pair(*lead, after, is_last);
        }
        Some((unmarked(alone(*lead)), after))
    }

    fn ascii_is_itself() {}
}

/// Returns the character of two bytes, of which the first was read, and the bytes after it.
fn pair(lead: u8, after: &[u8], is_last: bool) -> Option<(Marked, &[u8])>
    requires { IsTrue (is_lead lead) }
    ensures none { IfNone result (after.now ≡ []) }
    ensures last { IfNone result (is_last ≡ false) }
    ensures some { (more : List ℕ) → (IsTrue is_last → more ≡ []) → IfSome result (λ next.
        characters BIG5 (lead ∷ (after.now ++ more))
        ≡ marked next.0.character next.0.mark ++ characters BIG5 (next.1.now ++ more)) }
    ensures less { IfSome result (λ next. length next.1.now ≤ length after.now) }
{
    let Some((trail, others)) = after.split_first() else {
        return if is_last {
            Some((unmarked(None), after))
        } else {
            None
        };
    };
    match of_two(lead, *trail) {
        Some(character) => Some((
            Marked {
                character: Some(character),
                mark: mark_of(lead, *trail),
            },
            others,
        )),
        None if *trail < 128 => Some((unmarked(None), after)),
        None => Some((unmarked(None), others)),
    }
}

/// Returns a character without a mark.
fn unmarked(character: Option<char>) -> Marked
    ensures { result ≡ unmarked character }
{
    Marked {
        character,
        mark: None,
    }
}

/// Returns whether a byte is the first of two.
fn is_lead(byte: u8) -> bool
    ensures { result ≡ is_lead byte }
{
    0x81 <= byte && byte <= 0xFE
}

/// Returns whether a byte is the second of two.
fn is_trail(byte: u8) -> bool
    ensures { result ≡ is_trail byte }
{
    (0x40 <= byte && byte <= 0x7E) || (0xA1 <= byte && byte <= 0xFE)
}

/// Returns the character of a byte alone.
fn alone(byte: u8) -> Option<char>
    ensures { result ≡ alone byte }
{
    if byte < 128 {
        Some(char::from(byte))
    } else {
        None
    }
}

/// Returns the character of two bytes.
fn of_two(lead: u8, trail: u8) -> Option<char>
    requires { IsTrue (is_lead lead) }
    ensures { result ≡ of_two BIG5 lead trail }
{
    if is_trail(trail) {
        return character_at(&BIG5, pointer_of(lead, trail));
    }
    None
}

/// Returns the mark after the letter of two bytes.
fn mark_of(lead: u8, trail: u8) -> Option<char>
    requires { IsTrue (is_lead lead) }
    ensures { result ≡ mark_of lead trail }
{
    if is_trail(trail) {
        return mark_at(pointer_of(lead, trail));
    }
    None
}

/// Returns the pointer of two bytes.
fn pointer_of(lead: u8, trail: u8) -> usize
    requires lead { IsTrue (is_lead lead) }
    requires trail { IsTrue (is_trail trail) }
    ensures { result ≡ pointer_of lead trail }
{
    let offset = if trail < 0x7F { 0x40 } else { 0x62 };
    (usize::from(lead) - 0x81) * 157 + (usize::from(trail) - offset)
}

/// Returns the mark at a pointer.
fn mark_at(pointer: usize) -> Option<char>
    ensures { result ≡ mark_at pointer }
{
    match pointer {
        1133 | 1164 => Some('\u{304}'),
        1135 | 1166 => Some('\u{30C}'),
        _ => None,
    }
}

/// Returns the character of a pointer.
#[tactic(auto, unfolding(decoded_text::specs::Indexes::character_at, decoded_text::specs::Indexes::character_of))]
fn character_at(index: &[u32], pointer: usize) -> Option<char>
    ensures { result ≡ character_at index.now pointer }
{
    if pointer >= index.len() {
        return None;
    }
    character_of(index[pointer])
}
