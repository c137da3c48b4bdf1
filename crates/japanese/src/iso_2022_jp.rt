//! ISO-2022-JP.

ghost use Rattle.std.specs.Prelude.{◌≡◌, ◌<◌, ◌≤◌, [], ◌∷◌, Some, false, ◌++◌, IfNone, IfOk, IfSome, IsTrue, List, OnOk, length, option_to_list, ℕ};
ghost use Rattle.decoded_text.specs.Characters.{Appends, Continues, IsCounted};
ghost use Rattle.japanese.specs.Iso2022Jp.{characters, in_mode, is_lead, of_two, plain, target};

use crate::katakana::katakana;
use crate::table::JIS0208;
use decoded_text::{Decoded, character_at};
use std::alloc::AllocError;

/// How bytes are decoded until the next escape sequence.
#[derive(Clone, Copy, Debug, Drop, PartialEq, Eq)]
pub enum Mode {
    /// ASCII.
    Ascii,
    /// ASCII with a yen sign and an overline.
    Roman,
    /// Halfwidth katakana.
    Katakana,
    /// Characters of two bytes.
    Jis0208,
}

/// The state of a decoder between two characters.
#[derive(Clone, Copy, Debug, Drop, PartialEq, Eq)]
pub struct State {
    /// How the next bytes are decoded.
    pub mode: Mode,
    /// Whether an escape sequence was read last.
    pub is_escaped: bool,
}

/// The state at the beginning of a text.
pub const START: State = State {
    mode: Mode::Ascii,
    is_escaped: false,
};

/// The first character or escape sequence of a text, and what follows it.
#[derive(Clone, Copy, Drop)]
pub(crate) struct Step<'a> {
    /// A character, or `None` for an error; nothing for an escape sequence.
    character: Option<Option<char>>,
    state: State,
    /// The bytes after it.
    rest: &'a [u8],
}

/// Appends the characters of the bytes from a state on. Returns the state after them, and the bytes
/// that aren't decoded yet: at most two, the beginning of a character or an escape sequence that
/// the next bytes continue. If `is_last` is true, all bytes are decoded.
///
/// # Errors
///
/// Fails with `AllocError` if memory runs out.
pub fn decode_into<'b>(
    start: State,
    out: &mut Decoded,
    bytes: &'b [u8],
    is_last: bool,
) -> Result<(State, &'b [u8]), AllocError>
    requires { IsCounted out.old }
    ensures continues { (more : List ℕ) → (IsTrue is_last → more ≡ []) → IfOk result (λ end.
        Continues out.old (characters JIS0208 start (bytes.now ++ more))
        out.new (characters JIS0208 end.0 (end.1.now ++ more))) }
    ensures few { IfOk result (λ end. length end.1.now < 3) }
    ensures all { IsTrue is_last → IfOk result (λ end. end.1.now ≡ []) }
    ensures counted { IsCounted out.new }
{
    let mut state = start;
    let mut rest = bytes;
    while let Some(step) = next(state, rest, is_last) {
        push(out, step.character)?;
        state = step.state;
        rest = step.rest;
    }
    Ok((state, rest))
}

/// Appends a character, an error, or nothing.
fn push(out: &mut Decoded, character: Option<Option<char>>) -> Result<(), AllocError>
    requires { IsCounted out.old }
    ensures appends { OnOk result (Appends out.old out.new (option_to_list character)) }
    ensures counted { IsCounted out.new }
{
    match character {
        Some(character) => out.push(character),
        None => Ok(()),
    }
}

/// Returns the first character or escape; `None` if it is incomplete.
fn next(state: State, bytes: &[u8], is_last: bool) -> Option<Step<'_>>
    ensures none { IfNone result (length bytes.now < 3) }
    ensures last { IsTrue is_last → IfNone result (bytes.now ≡ []) }
    ensures some { (more : List ℕ) → (IsTrue is_last → more ≡ []) → IfSome result (λ step.
        characters JIS0208 state (bytes.now ++ more)
        ≡ option_to_list step.character ++ characters JIS0208 step.state (step.rest.now ++ more)) }
    ensures less { IfSome result (λ step. length step.rest.now < length bytes.now) }
{
    let (first, after) = bytes.split_first()?;
    if *first == 0x1B {
        return escape(state, after, is_last);
    }
    if is_lead(state.mode, *first) {
        return pair(state, *first, after, is_last);
    }
    Some(Step {
        character: Some(in_mode(state.mode, *first)),
        state: plain(state),
        rest: after,
    })
}

/// Returns an escape whose first byte was read, or an error in place of one.
fn escape(state: State, after: &[u8], is_last: bool) -> Option<Step<'_>>
    ensures none { IfNone result (length after.now < 2) }
    ensures last { IfNone result (is_last ≡ false) }
    ensures some { (more : List ℕ) → (IsTrue is_last → more ≡ []) → IfSome result (λ step.
        characters JIS0208 state (27 ∷ (after.now ++ more))
        ≡ option_to_list step.character ++ characters JIS0208 step.state (step.rest.now ++ more)) }
    ensures less { IfSome result (λ step. length step.rest.now ≤ length after.now) }
{
    let Some((a, others)) = after.split_first() else {
        return cut(state, after, is_last);
    };
    let Some((b, rest)) = others.split_first() else {
        return cut(state, after, is_last);
    };
    let Some(mode) = target(*a, *b) else {
        return Some(Step {
            character: Some(None),
            state: plain(state),
            rest: after,
        });
    };
    let state_after = State {
        mode,
        is_escaped: true,
    };
    if state.is_escaped {
        return Some(Step {
            character: Some(None),
            state: state_after,
            rest,
        });
    }
    Some(Step {
        character: None,
        state: state_after,
        rest,
    })
}

/// Returns an escape that the bytes end within.
fn cut(state: State, after: &[u8], is_last: bool) -> Option<Step<'_>>
    requires { length after.now < 2 }
    ensures last { IfNone result (is_last ≡ false) }
    ensures some { (more : List ℕ) → (IsTrue is_last → more ≡ []) → IfSome result (λ step.
        characters JIS0208 state (27 ∷ (after.now ++ more))
        ≡ option_to_list step.character ++ characters JIS0208 step.state (step.rest.now ++ more)) }
    ensures less { IfSome result (λ step. length step.rest.now ≤ length after.now) }
{
    if !is_last {
        return None;
    }
    Some(Step {
        character: Some(None),
        state: plain(state),
        rest: after,
    })
}

/// Returns the character of two bytes, of which the first was read.
fn pair(state: State, first: u8, after: &[u8], is_last: bool) -> Option<Step<'_>>
    requires { IsTrue (is_lead state.mode first) }
    ensures none { IfNone result (after.now ≡ []) }
    ensures last { IfNone result (is_last ≡ false) }
    ensures some { (more : List ℕ) → (IsTrue is_last → more ≡ []) → IfSome result (λ step.
        characters JIS0208 state (first ∷ (after.now ++ more))
        ≡ option_to_list step.character ++ characters JIS0208 step.state (step.rest.now ++ more)) }
    ensures less { IfSome result (λ step. length step.rest.now ≤ length after.now) }
{
    let Some((second, others)) = after.split_first() else {
        if !is_last {
            return None;
        }
        return Some(Step {
            character: Some(None),
            state: plain(state),
            rest: after,
        });
    };
    if *second == 0x1B {
        return Some(Step {
            character: Some(None),
            state: plain(state),
            rest: after,
        });
    }
    Some(Step {
        character: Some(of_two(first, *second)),
        state: plain(state),
        rest: others,
    })
}

/// Returns the state after anything but an escape.
fn plain(state: State) -> State
    ensures { result ≡ plain state }
{
    State {
        mode: state.mode,
        is_escaped: false,
    }
}

/// Returns whether a byte is the first of two.
fn is_lead(mode: Mode, byte: u8) -> bool
    ensures { result ≡ is_lead mode byte }
{
    match mode {
        Mode::Jis0208 => 0x21 <= byte && byte <= 0x7E,
        _ => false,
    }
}

/// Returns the character of two bytes.
fn of_two(first: u8, second: u8) -> Option<char>
    requires { (33 ≤ first) × (first ≤ 126) }
    ensures { result ≡ of_two JIS0208 first second }
{
    if second < 0x21 || second > 0x7E {
        return None;
    }
    let pointer = (usize::from(first) - 0x21) * 94 + (usize::from(second) - 0x21);
    character_at(&JIS0208, pointer)
}

/// Returns the character of a byte that is one alone.
fn in_mode(mode: Mode, byte: u8) -> Option<char>
    ensures { result ≡ in_mode mode byte }
{
    if byte >= 128 || byte == 0x0E || byte == 0x0F {
        return None;
    }
    match mode {
        Mode::Ascii => Some(char::from(byte)),
        Mode::Roman if byte == 0x5C => Some('\u{A5}'),
        Mode::Roman if byte == 0x7E => Some('\u{203E}'),
        Mode::Roman => Some(char::from(byte)),
        Mode::Katakana if 0x21 <= byte && byte <= 0x5F => Some(katakana(byte - 0x21)),
        _ => None,
    }
}

/// Returns the mode that an escape begins.
fn target(a: u8, b: u8) -> Option<Mode>
    ensures { result ≡ target a b }
{
    match (a, b) {
        (0x28, 0x42) => Some(Mode::Ascii),
        (0x28, 0x4A) => Some(Mode::Roman),
        (0x28, 0x49) => Some(Mode::Katakana),
        (0x24, 0x40 | 0x42) => Some(Mode::Jis0208),
        _ => None,
    }
}
