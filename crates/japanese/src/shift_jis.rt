//! Shift_JIS.

ghost use Rattle.std.specs.Prelude.{◌≡◌, ◌+◌, ◌<◌, ◌≤◌, [], ◌∷◌, false, ◌++◌, IfNone, IfOk, IfSome, IsTrue, List, length, ℕ};
ghost use Rattle.japanese.specs.ShiftJis.{alone, characters, is_lead, is_trail, of_pointer, of_two, pointer_of};

use crate::katakana::katakana;
use crate::table::JIS0208;
use decoded_text::{MultiByte, character_at, character_or_error};

/// Shift_JIS.
pub struct ShiftJis;

impl MultiByte for ShiftJis {
    ghost use Rattle.std.specs.Prelude.{List, ℕ};
    ghost use Rattle.japanese.specs.ShiftJis.{characters};
    ghost use Rattle.japanese.specs.declared.table.TheConstants.{JIS0208};

    type Found = Option<char>;

    ghost characters = { characters JIS0208 };

    ghost longest = { 2 };

    fn next(bytes: &[u8], is_last: bool) -> Option<(Option<char>, &[u8])> {
        let (lead, after) = bytes.split_first()?;
        if is_lead(*lead) {
            return pair(*lead, after, is_last);
        }
        Some((alone(*lead), after))
    }

    fn ascii_is_itself() {}
}

/// Returns the character of two bytes, of which the first was read, and the bytes after it.
fn pair(lead: u8, after: &[u8], is_last: bool) -> Option<(Option<char>, &[u8])>
    requires { IsTrue (is_lead lead) }
    ensures none { IfNone result (after.now ≡ []) }
    ensures last { IfNone result (is_last ≡ false) }
    ensures some { (more : List ℕ) → (IsTrue is_last → more ≡ []) → IfSome result (λ next.
        characters JIS0208 (lead ∷ (after.now ++ more))
        ≡ next.0 ∷ characters JIS0208 (next.1.now ++ more)) }
    ensures less { IfSome result (λ next. length next.1.now ≤ length after.now) }
{
    let Some((trail, others)) = after.split_first() else {
        return if is_last { Some((None, after)) } else { None };
    };
    let found = of_two(lead, *trail);
    Some(character_or_error(found, *trail, after, others))
}

/// Returns whether a byte is the first of two.
fn is_lead(byte: u8) -> bool
    ensures { result ≡ is_lead byte }
{
    (0x81 <= byte && byte <= 0x9F) || (0xE0 <= byte && byte <= 0xFC)
}

/// Returns whether a byte is the second of two.
fn is_trail(byte: u8) -> bool
    ensures { result ≡ is_trail byte }
{
    (0x40 <= byte && byte <= 0x7E) || (0x80 <= byte && byte <= 0xFC)
}

/// Returns the character of a byte alone.
fn alone(byte: u8) -> Option<char>
    ensures { result ≡ alone byte }
{
    if byte <= 128 {
        return Some(char::from(byte));
    }
    if 0xA1 <= byte && byte <= 0xDF {
        return Some(katakana(byte - 0xA1));
    }
    None
}

/// Returns the character of two bytes.
fn of_two(lead: u8, trail: u8) -> Option<char>
    requires { IsTrue (is_lead lead) }
    ensures { result ≡ of_two JIS0208 lead trail }
{
    if is_trail(trail) {
        return of_pointer(pointer_of(lead, trail));
    }
    None
}

/// Returns the pointer of two bytes.
fn pointer_of(lead: u8, trail: u8) -> u16
    requires lead { IsTrue (is_lead lead) }
    requires trail { IsTrue (is_trail trail) }
    ensures { result ≡ pointer_of lead trail }
{
    let first = if lead < 0xA0 { 0x81 } else { 0xC1 };
    let offset = if trail < 0x7F { 0x40 } else { 0x41 };
    (u16::from(lead) - first) * 188 + (u16::from(trail) - offset)
}

/// Returns the character of a pointer.
fn of_pointer(pointer: u16) -> Option<char>
    ensures { result ≡ of_pointer JIS0208 pointer }
{
    if 8836 <= pointer && pointer <= 10715 {
        return Some(private(pointer - 8836));
    }
    character_at(&JIS0208, usize::from(pointer))
}

/// Returns the private-use character at this offset from the first one.
fn private(offset: u16) -> char
    requires { offset ≤ 1879 }
    ensures { result ≡ 0xE000 + offset }
{
    char::from_u32(0xE000 + u32::from(offset)).unwrap()
}
