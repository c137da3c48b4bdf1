//! UTF-8.

ghost use Rattle.std.specs.Prelude.{◌≡◌, ◌<◌, ◌≤◌, [], ◌∷◌, ◌++◌, IfOk, IsTrue, IsUtf8, List, OnOk, length, ℕ};
ghost use Rattle.decoded_text.specs.Characters.{Continues, IsCounted};
ghost use Rattle.text_decoding.specs.Utf8.{alone, at_first, begun_by, character, characters, code_with, is_between};

use decoded_text::Decoded;
use std::alloc::AllocError;
use std::str::{from_utf8, from_utf8_unchecked};

/// What is known of a character whose first bytes were read.
#[derive(Clone, Copy, Debug, Drop, PartialEq, Eq)]
pub struct Utf8State {
    /// How many bytes are still needed; 0 between two characters.
    pub(crate) needed: u8,
    /// The bits of the bytes that were read.
    pub(crate) code: u32,
    /// The least byte that may come next.
    pub(crate) lower: u8,
    /// The greatest byte that may come next.
    pub(crate) upper: u8,
}

/// The state between two characters.
pub(crate) const FRESH: Utf8State = Utf8State {
    needed: 0,
    code: 0,
    lower: 0x80,
    upper: 0xBF,
};

/// Appends the characters of the bytes from a state on, and returns the state after them.
///
/// # Errors
///
/// `AllocError` where memory is short.
pub(crate) fn decode_into(
    start: Utf8State,
    out: &mut Decoded,
    bytes: &[u8],
) -> Result<Utf8State, AllocError>
    requires { IsCounted out.old }
    ensures continues { (more : List ℕ) → IfOk result (λ end.
        Continues out.old (characters start (bytes.now ++ more)) out.new (characters end more)) }
    ensures counted { IsCounted out.new }
{
    let mut state = start;
    let mut rest = bytes;
    while !rest.is_empty() {
        let behind = push_valid(state, out, rest)?;
        let Some((byte, others)) = behind.split_first() else {
            return Ok(state);
        };
        state = push_byte(state, out, *byte)?;
        rest = others;
    }
    Ok(state)
}

/// Appends an error where the bytes end within a character.
pub(crate) fn end_into(state: Utf8State, out: &mut Decoded) -> Result<(), AllocError>
    requires { IsCounted out.old }
    ensures continues { OnOk result (Continues out.old (characters state []) out.new []) }
    ensures counted { IsCounted out.new }
{
    if state.needed == 0 {
        return Ok(());
    }
    out.push(None)?;
    Ok(())
}

/// Between two characters, appends the text that the bytes begin with, and returns the bytes
/// after.
fn push_valid<'b>(
    state: Utf8State,
    out: &mut Decoded,
    bytes: &'b [u8],
) -> Result<&'b [u8], AllocError>
    requires { IsCounted out.old }
    ensures continues { (more : List ℕ) → IfOk result (λ rest.
        Continues out.old (characters state (bytes.now ++ more))
        out.new (characters state (rest.now ++ more))) }
    ensures less { IfOk result (λ rest. length rest.now ≤ length bytes.now) }
    ensures counted { IsCounted out.new }
{
    if state.needed != 0 {
        return Ok(bytes);
    }
    let (text, rest) = valid_front(bytes);
    out.push_str(text)?;
    Ok(rest)
}

/// The longest text that the bytes begin with, and the bytes after it.
fn valid_front(bytes: &[u8]) -> (&str, &[u8])
    ensures parts { bytes.now ≡ result.0.now ++ result.1.now }
    ensures text { IsUtf8 result.0.now }
{
    match from_utf8(bytes) {
        Ok(text) => (text, &[]),
        Err(error) => {
            let (front, rest) = bytes.split_at(error.valid_up_to());
            (unsafe { from_utf8_unchecked(front) }, rest)
        }
    }
}

/// Appends what a byte gives in a state, and returns the state after it.
fn push_byte(state: Utf8State, out: &mut Decoded, byte: u8) -> Result<Utf8State, AllocError>
    requires { IsCounted out.old }
    ensures continues { (more : List ℕ) → IfOk result (λ end.
        Continues out.old (characters state (byte ∷ more)) out.new (characters end more)) }
    ensures counted { IsCounted out.new }
{
    if state.needed == 0 {
        let end = push_first(out, byte)?;
        return Ok(end);
    }
    if is_between(state.lower, state.upper, byte) {
        return push_next(state, out, byte);
    }
    out.push(None)?;
    let end = push_first(out, byte)?;
    Ok(end)
}

/// Appends what a byte gives between two characters, and returns the state after it.
fn push_first(out: &mut Decoded, byte: u8) -> Result<Utf8State, AllocError>
    requires { IsCounted out.old }
    ensures continues { (more : List ℕ) → IfOk result (λ end.
        Continues out.old (at_first byte (λ after. characters after more))
        out.new (characters end more)) }
    ensures counted { IsCounted out.new }
{
    if let Some(state) = begun_by(byte) {
        return Ok(state);
    }
    out.push(alone(byte))?;
    Ok(FRESH)
}

/// The state after the first byte of two, three or four.
fn begun_by(byte: u8) -> Option<Utf8State>
    ensures { result ≡ begun_by byte }
{
    if is_between(0xC2, 0xDF, byte) {
        return Some(Utf8State {
            needed: 1,
            code: u32::from(byte) - 0xC0,
            ..FRESH
        });
    }
    if is_between(0xE0, 0xEF, byte) {
        return Some(Utf8State {
            needed: 2,
            code: u32::from(byte) - 0xE0,
            lower: if byte == 0xE0 { 0xA0 } else { 0x80 },
            upper: if byte == 0xED { 0x9F } else { 0xBF },
        });
    }
    if is_between(0xF0, 0xF4, byte) {
        return Some(Utf8State {
            needed: 3,
            code: u32::from(byte) - 0xF0,
            lower: if byte == 0xF0 { 0x90 } else { 0x80 },
            upper: if byte == 0xF4 { 0x8F } else { 0xBF },
        });
    }
    None
}

/// The character of a byte that is one alone.
fn alone(byte: u8) -> Option<char>
    ensures { result ≡ alone byte }
{
    if byte < 128 {
        Some(char::from(byte))
    } else {
        None
    }
}

/// Appends the character that a byte ends, if it ends one, and returns the state after it.
fn push_next(state: Utf8State, out: &mut Decoded, byte: u8) -> Result<Utf8State, AllocError>
    requires within { (state.needed ≡ 0 → ⊥) × IsTrue (is_between state.lower state.upper byte) }
    requires counted { IsCounted out.old }
    ensures continues { (more : List ℕ) → IfOk result (λ end.
        Continues out.old (characters state (byte ∷ more)) out.new (characters end more)) }
    ensures counted { IsCounted out.new }
{
    let code = code_with(state, byte);
    if state.needed == 1 {
        out.push(character(code))?;
        return Ok(FRESH);
    }
    Ok(Utf8State {
        needed: state.needed - 1,
        code,
        ..FRESH
    })
}

/// The code with the bits of one byte more. Before the last byte it has at most 15 bits.
fn code_with(state: Utf8State, byte: u8) -> u32
    ensures { result ≡ code_with state byte }
{
    state.code % 0x8000 * 64 + u32::from(byte.saturating_sub(0x80))
}

/// The character of a code.
#[tactic(auto, unfolding(crate::specs::Utf8::character))]
fn character(code: u32) -> Option<char>
    ensures { result ≡ character code }
{
    char::from_u32(code)
}

/// Whether a byte is in a range.
fn is_between(least: u8, greatest: u8, byte: u8) -> bool
    ensures { result ≡ is_between least greatest byte }
{
    least <= byte && byte <= greatest
}
