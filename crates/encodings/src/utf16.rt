//! UTF-16, in either byte order.

ghost use Rattle.std.specs.Prelude.{◌≡◌, ◌<◌, ◌≤◌, [], ◌∷◌, false, ◌++◌, IfNone, IfOk, IfSome, IsTrue, List, length, ℕ};
ghost use Rattle.decoded_text.specs.Characters.{Continues, IsCounted};
ghost use Rattle.encodings.specs.Utf16.{character, characters, is_high, is_low, pair_code, unit_of};

use decoded_text::Decoded;
use std::alloc::AllocError;

/// The byte order of the code units.
#[derive(Clone, Copy, Debug, Drop, PartialEq, Eq)]
pub enum ByteOrder {
    /// The byte with the upper bits comes first.
    BigEndian,
    /// The byte with the lower bits comes first.
    LittleEndian,
}

/// Appends the characters of the bytes, and returns the bytes that aren't decoded yet: at most
/// three, the beginning of a character that the next bytes continue. If `is_last` is true, all
/// bytes are decoded.
///
/// # Errors
///
/// Fails with `AllocError` if memory runs out.
pub fn decode_into<'b>(
    order: ByteOrder,
    out: &mut Decoded,
    bytes: &'b [u8],
    is_last: bool,
) -> Result<&'b [u8], AllocError>
    requires { IsCounted out.old }
    ensures continues { (more : List ℕ) → (IsTrue is_last → more ≡ []) → IfOk result (λ rest.
        Continues out.old (characters order (bytes.now ++ more))
        out.new (characters order (rest.now ++ more))) }
    ensures few { IfOk result (λ rest. length rest.now < 4) }
    ensures all { IsTrue is_last → IfOk result (λ rest. rest.now ≡ []) }
    ensures counted { IsCounted out.new }
{
    let mut rest = bytes;
    while let Some((character, behind)) = next(order, rest, is_last) {
        out.push(character)?;
        rest = behind;
    }
    Ok(rest)
}

/// Returns the first character and the bytes after it; `None` if it is incomplete.
fn next(order: ByteOrder, bytes: &[u8], is_last: bool) -> Option<(Option<char>, &[u8])>
    ensures none { IfNone result (length bytes.now < 4) }
    ensures last { IsTrue is_last → IfNone result (bytes.now ≡ []) }
    ensures some { (more : List ℕ) → (IsTrue is_last → more ≡ []) → IfSome result (λ next.
        characters order (bytes.now ++ more) ≡ next.0 ∷ characters order (next.1.now ++ more)) }
    ensures less { IfSome result (λ next. length next.1.now < length bytes.now) }
{
    let (first, others) = bytes.split_first()?;
    let Some((second, behind)) = others.split_first() else {
        return if is_last { Some((None, others)) } else { None };
    };
    let unit = unit_of(order, *first, *second);
    if is_high(unit) {
        return pair(order, *first, *second, behind, is_last);
    }
    Some((character(u32::from(unit)), behind))
}

/// Returns the character of two code units, of which the first was read, and the bytes after it.
fn pair(
    order: ByteOrder,
    first: u8,
    second: u8,
    behind: &[u8],
    is_last: bool,
) -> Option<(Option<char>, &[u8])>
    requires { IsTrue (is_high (unit_of order first second)) }
    ensures none { IfNone result (length behind.now < 2) }
    ensures last { IfNone result (is_last ≡ false) }
    ensures some { (more : List ℕ) → (IsTrue is_last → more ≡ []) → IfSome result (λ next.
        characters order (first ∷ second ∷ (behind.now ++ more))
        ≡ next.0 ∷ characters order (next.1.now ++ more)) }
    ensures less { IfSome result (λ next. length next.1.now ≤ length behind.now) }
{
    let Some((third, others)) = behind.split_first() else {
        return if is_last { Some((None, behind)) } else { None };
    };
    let Some((fourth, rest)) = others.split_first() else {
        return if is_last { Some((None, others)) } else { None };
    };
    let high = unit_of(order, first, second);
    let low = unit_of(order, *third, *fourth);
    if is_low(low) {
        return Some((character(pair_code(high, low)), rest));
    }
    Some((None, behind))
}

/// Returns the code unit of two bytes.
fn unit_of(order: ByteOrder, first: u8, second: u8) -> u16
    ensures { result ≡ unit_of order first second }
{
    match order {
        ByteOrder::BigEndian => u16::from(first) * 256 + u16::from(second),
        ByteOrder::LittleEndian => u16::from(second) * 256 + u16::from(first),
    }
}

/// Returns whether a unit is the first of a pair.
fn is_high(unit: u16) -> bool
    ensures { result ≡ is_high unit }
{
    0xD800 <= unit && unit < 0xDC00
}

/// Returns whether a unit is the second of a pair.
fn is_low(unit: u16) -> bool
    ensures { result ≡ is_low unit }
{
    0xDC00 <= unit && unit < 0xE000
}

/// Returns the code of a pair.
fn pair_code(high: u16, low: u16) -> u32
    requires high { IsTrue (is_high high) }
    requires low { IsTrue (is_low low) }
    ensures { result ≡ pair_code high low }
{
    0x10000 + (u32::from(high) - 0xD800) * 0x400 + (u32::from(low) - 0xDC00)
}

/// Returns the character of a code; none for a surrogate.
#[tactic(auto, unfolding(crate::specs::Utf16::character))]
fn character(code: u32) -> Option<char>
    ensures { result ≡ character code }
{
    char::from_u32(code)
}
