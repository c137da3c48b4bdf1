//! EUC-JP.

ghost use Rattle.std.specs.Prelude.{◌≡◌, ◌<◌, ◌≤◌, [], ◌∷◌, false, ◌++◌, IfNone, IfOk, IfSome, IsTrue, List, length, ℕ};
ghost use Rattle.japanese.specs.EucJp.{alone, characters, is_high, is_lead, is_three, of_cell, of_two};

use crate::katakana::katakana;
use crate::table::{JIS0208, JIS0212};
use decoded_text::{MultiByte, character_at, character_or_error};

/// EUC-JP.
pub struct EucJp;

impl MultiByte for EucJp {
    ghost use Rattle.std.specs.Prelude.{List, ℕ};
    ghost use Rattle.japanese.specs.EucJp.{characters};
    ghost use Rattle.japanese.specs.declared.table.TheConstants.{JIS0208, JIS0212};

    type Found = Option<char>;

    ghost characters = { characters JIS0208 JIS0212 };

    ghost longest = { 3 };

    fn next(bytes: &[u8], is_last: bool) -> Option<(Option<char>, &[u8])> {
        let (lead, after) = bytes.split_first()?;
        if is_lead(*lead) {
            return pair(*lead, after, is_last);
        }
        Some((alone(*lead), after))
    }

    fn ascii_is_itself() {}
}

/// Returns the character of two or three bytes, of which the first was read, and the bytes after
/// it.
fn pair(lead: u8, after: &[u8], is_last: bool) -> Option<(Option<char>, &[u8])>
    requires { IsTrue (is_lead lead) }
    ensures none { IfNone result (length after.now < 2) }
    ensures last { IfNone result (is_last ≡ false) }
    ensures some { (more : List ℕ) → (IsTrue is_last → more ≡ []) → IfSome result (λ next.
        characters JIS0208 JIS0212 (lead ∷ (after.now ++ more))
        ≡ next.0 ∷ characters JIS0208 JIS0212 (next.1.now ++ more)) }
    ensures less { IfSome result (λ next. length next.1.now ≤ length after.now) }
{
    let Some((trail, others)) = after.split_first() else {
        return if is_last { Some((None, after)) } else { None };
    };
    if is_three(lead, *trail) {
        return three(lead, *trail, after, others, is_last);
    }
    let found = of_two(lead, *trail);
    Some(character_or_error(found, *trail, after, others))
}

/// Returns the character of three bytes, of which two were read, and the bytes after it.
fn three<'b>(
    lead: u8,
    trail: u8,
    after: &'b [u8],
    others: &'b [u8],
    is_last: bool,
) -> Option<(Option<char>, &'b [u8])>
    requires lead { IsTrue (is_lead lead) }
    requires trail { IsTrue (is_three lead trail) }
    requires after { after.now ≡ trail ∷ others.now }
    ensures none { IfNone result (others.now ≡ []) }
    ensures last { IfNone result (is_last ≡ false) }
    ensures some { (more : List ℕ) → (IsTrue is_last → more ≡ []) → IfSome result (λ next.
        characters JIS0208 JIS0212 (lead ∷ (after.now ++ more))
        ≡ next.0 ∷ characters JIS0208 JIS0212 (next.1.now ++ more)) }
    ensures less { IfSome result (λ next. length next.1.now ≤ length after.now) }
{
    let Some((third, rest)) = others.split_first() else {
        return if is_last { Some((None, others)) } else { None };
    };
    let found = of_cell(&JIS0212, trail, *third);
    Some(character_or_error(found, *third, others, rest))
}

/// Returns whether a byte is a row or a cell of an index.
fn is_high(byte: u8) -> bool
    ensures { result ≡ is_high byte }
{
    0xA1 <= byte && byte <= 0xFE
}

/// Returns whether a byte is the first of two or three.
fn is_lead(byte: u8) -> bool
    ensures { result ≡ is_lead byte }
{
    byte == 0x8E || byte == 0x8F || is_high(byte)
}

/// Returns whether a third byte follows two.
fn is_three(lead: u8, trail: u8) -> bool
    ensures { result ≡ is_three lead trail }
{
    lead == 0x8F && is_high(trail)
}

/// Returns the character of a byte alone.
fn alone(byte: u8) -> Option<char>
    ensures { result ≡ alone byte }
{
    if byte < 128 {
        Some(char::from(byte))
    } else {
        None
    }
}

/// Returns the character of two bytes.
fn of_two(lead: u8, trail: u8) -> Option<char>
    ensures { result ≡ of_two JIS0208 lead trail }
{
    if lead == 0x8E && 0xA1 <= trail && trail <= 0xDF {
        return Some(katakana(trail - 0xA1));
    }
    of_cell(&JIS0208, lead, trail)
}

/// Returns the character of a row and a cell.
fn of_cell(index: &[u16], row: u8, cell: u8) -> Option<char>
    ensures { result ≡ of_cell index.now row cell }
{
    if is_high(row) && is_high(cell) {
        let pointer = (usize::from(row) - 0xA1) * 94 + (usize::from(cell) - 0xA1);
        return character_at(index, pointer);
    }
    None
}
