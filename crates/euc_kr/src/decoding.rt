//! The decoder.

ghost use Rattle.std.specs.Prelude.{◌≡◌, ◌<◌, ◌≤◌, [], ◌∷◌, false, ◌++◌, IfNone, IfOk, IfSome, IsTrue, List, length, ℕ};
ghost use Rattle.euc_kr.specs.Decoding.{alone, characters, is_lead, of_two};

use crate::table::EUC_KR;
use decoded_text::{MultiByte, character_at, character_or_error};

/// EUC-KR.
pub struct EucKr;

impl MultiByte for EucKr {
    ghost use Rattle.std.specs.Prelude.{List, ℕ};
    ghost use Rattle.euc_kr.specs.Decoding.{characters};
    ghost use Rattle.euc_kr.specs.declared.table.TheConstants.{EUC_KR};

    type Found = Option<char>;

    ghost characters = { characters EUC_KR };

    ghost longest = { 2 };

    fn next(bytes: &[u8], is_last: bool) -> Option<(Option<char>, &[u8])> {
        let (lead, after) = bytes.split_first()?;
        if is_lead(*lead) {
            return pair(*lead, after, is_last);
        }
        Some((alone(*lead), after))
    }

    fn ascii_is_itself() {}
}

/// Returns the character of two bytes, of which the first was read, and the bytes after it.
fn pair(lead: u8, after: &[u8], is_last: bool) -> Option<(Option<char>, &[u8])>
    requires { IsTrue (is_lead lead) }
    ensures none { IfNone result (after.now ≡ []) }
    ensures last { IfNone result (is_last ≡ false) }
    ensures some { (more : List ℕ) → (IsTrue is_last → more ≡ []) → IfSome result (λ next.
        characters EUC_KR (lead ∷ (after.now ++ more))
        ≡ next.0 ∷ characters EUC_KR (next.1.now ++ more)) }
    ensures less { IfSome result (λ next. length next.1.now ≤ length after.now) }
{
    let Some((trail, others)) = after.split_first() else {
        return if is_last { Some((None, after)) } else { None };
    };
    let found = of_two(lead, *trail);
    Some(character_or_error(found, *trail, after, others))
}

/// Returns whether a byte is the first of two.
fn is_lead(byte: u8) -> bool
    ensures { result ≡ is_lead byte }
{
    0x81 <= byte && byte <= 0xFE
}

/// Returns the character of a byte alone.
fn alone(byte: u8) -> Option<char>
    ensures { result ≡ alone byte }
{
    if byte < 128 {
        Some(char::from(byte))
    } else {
        None
    }
}

/// Returns the character of two bytes.
fn of_two(lead: u8, trail: u8) -> Option<char>
    requires lead { IsTrue (is_lead lead) }
    ensures { result ≡ of_two EUC_KR lead trail }
{
    if trail < 0x41 || trail > 0xFE {
        return None;
    }
    character_at(
        &EUC_KR,
        (usize::from(lead) - 0x81) * 190 + (usize::from(trail) - 0x41),
    )
}
