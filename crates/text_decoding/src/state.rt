//! What a decoder knows between two pieces, and one step of any decoder.

ghost use Rattle.std.specs.Prelude.{◌≡◌, [], ◌++◌, IfOk, IsTrue, List, ℕ};
ghost use Rattle.decoded_text.specs.Characters.{Continues, IsCounted};
ghost use Rattle.encodings.specs.SingleByte.{characters as single_byte_characters, index_of};
ghost use Rattle.japanese.specs.Iso2022Jp.{characters as iso_2022_jp_characters};
ghost use Rattle.japanese.specs.Tables.{jis0208 as JIS0208};
ghost use Rattle.text_decoding.specs.Decoding.{characters_from, replaced_from};
ghost use Rattle.text_decoding.specs.Utf8.{characters as utf8_characters};

use crate::utf8::{FRESH, Utf8State, decode_into as decode_utf8_into, end_into as end_utf8_into};
use big5::Big5;
use decoded_text::{Decoded, decode_into as decode_multi_byte_into};
use encodings::utf16::{ByteOrder, decode_into as decode_utf16_into};
use encodings::{Encoding, SingleByte};
use euc_kr::EucKr;
use gb18030::Gb18030;
use japanese::euc_jp::EucJp;
use japanese::iso_2022_jp::{
    START as JAPANESE_START, State as JapaneseState, decode_into as decode_japanese_into,
};
use japanese::shift_jis::ShiftJis;
use std::alloc::AllocError;

/// What a decoder knows between two pieces.
#[derive(Clone, Copy, Debug, Drop)]
pub struct State {
    /// Of UTF-8: the character that has begun.
    pub(crate) utf8: Utf8State,
    /// Of ISO-2022-JP: the last escape.
    pub(crate) japanese: JapaneseState,
    /// Of the replacement encoding: whether its one error was given.
    pub(crate) is_replaced: bool,
}

/// The state at the beginning of a text.
pub(crate) const START: State = State {
    utf8: FRESH,
    japanese: JAPANESE_START,
    is_replaced: false,
};

/// Appends the characters of the bytes from a state on. Returns the state after them, and the
/// bytes that are not decoded yet. Where the bytes are the last ones, all are decoded.
///
/// # Errors
///
/// `AllocError` where memory is short.
#[tactic(auto, using(crate::proofs::States::ends))]
pub(crate) fn decode_into<'b>(
    encoding: Encoding,
    state: State,
    out: &mut Decoded,
    bytes: &'b [u8],
    is_last: bool,
) -> Result<(State, &'b [u8]), AllocError>
    requires { IsCounted out.old }
    ensures continues { (more : List ℕ) → (IsTrue is_last → more ≡ []) → IfOk result (λ end.
        Continues out.old (characters_from encoding state (bytes.now ++ more))
        out.new (characters_from encoding end.0 (end.1.now ++ more))) }
    ensures all { IsTrue is_last → IfOk result (λ end. end.1.now ≡ []) }
    ensures ended { IsTrue is_last → IfOk result (λ end. characters_from encoding end.0 [] ≡ []) }
    ensures counted { IsCounted out.new }
{
    match encoding {
        Encoding::Utf8 => utf8(state, out, bytes, is_last),
        Encoding::Iso2022Jp => iso_2022_jp(state, out, bytes, is_last),
        Encoding::Replacement => replacement(state, out, bytes),
        Encoding::SingleByte(single) => single_byte(single, state, out, bytes),
        Encoding::Utf16Be => {
            let rest = decode_utf16_into(ByteOrder::BigEndian, out, bytes, is_last)?;
            Ok((state, rest))
        }
        Encoding::Utf16Le => {
            let rest = decode_utf16_into(ByteOrder::LittleEndian, out, bytes, is_last)?;
            Ok((state, rest))
        }
        Encoding::Gbk | Encoding::Gb18030 => {
            let rest = decode_multi_byte_into::<Gb18030>(out, bytes, is_last)?;
            Ok((state, rest))
        }
        Encoding::Big5 => {
            let rest = decode_multi_byte_into::<Big5>(out, bytes, is_last)?;
            Ok((state, rest))
        }
        Encoding::EucJp => {
            let rest = decode_multi_byte_into::<EucJp>(out, bytes, is_last)?;
            Ok((state, rest))
        }
        Encoding::ShiftJis => {
            let rest = decode_multi_byte_into::<ShiftJis>(out, bytes, is_last)?;
            Ok((state, rest))
        }
        Encoding::EucKr => {
            let rest = decode_multi_byte_into::<EucKr>(out, bytes, is_last)?;
            Ok((state, rest))
        }
    }
}

/// A step of UTF-8.
fn utf8<'b>(
    state: State,
    out: &mut Decoded,
    bytes: &[u8],
    is_last: bool,
) -> Result<(State, &'b [u8]), AllocError>
    requires { IsCounted out.old }
    ensures continues { (more : List ℕ) → (IsTrue is_last → more ≡ []) → IfOk result (λ end.
        Continues out.old (utf8_characters state.utf8 (bytes.now ++ more))
        out.new (utf8_characters end.0.utf8 more)) }
    ensures all { IfOk result (λ end. end.1.now ≡ []) }
    ensures ended { IsTrue is_last → IfOk result (λ end. utf8_characters end.0.utf8 [] ≡ []) }
    ensures counted { IsCounted out.new }
{
    let utf8 = decode_utf8_into(state.utf8, out, bytes)?;
    if is_last {
        end_utf8_into(utf8, out)?;
        return Ok((START, &[]));
    }
    Ok((State { utf8, ..state }, &[]))
}

/// A step of ISO-2022-JP.
#[tactic(auto, using(crate::proofs::States::ends))]
fn iso_2022_jp<'b>(
    state: State,
    out: &mut Decoded,
    bytes: &'b [u8],
    is_last: bool,
) -> Result<(State, &'b [u8]), AllocError>
    requires { IsCounted out.old }
    ensures continues { (more : List ℕ) → (IsTrue is_last → more ≡ []) → IfOk result (λ end.
        Continues out.old (iso_2022_jp_characters JIS0208 state.japanese (bytes.now ++ more))
        out.new (iso_2022_jp_characters JIS0208 end.0.japanese (end.1.now ++ more))) }
    ensures all { IsTrue is_last → IfOk result (λ end. end.1.now ≡ []) }
    ensures ended { IfOk result (λ end. iso_2022_jp_characters JIS0208 end.0.japanese [] ≡ []) }
    ensures counted { IsCounted out.new }
{
    let (japanese, rest) = decode_japanese_into(state.japanese, out, bytes, is_last)?;
    Ok((State { japanese, ..state }, rest))
}

/// A step of the replacement encoding.
fn replacement<'b>(
    state: State,
    out: &mut Decoded,
    bytes: &[u8],
) -> Result<(State, &'b [u8]), AllocError>
    requires { IsCounted out.old }
    ensures continues { (more : List ℕ) → IfOk result (λ end.
        Continues out.old (replaced_from state (bytes.now ++ more))
        out.new (replaced_from end.0 more)) }
    ensures all { IfOk result (λ end. end.1.now ≡ []) }
    ensures ended { IfOk result (λ end. replaced_from end.0 [] ≡ []) }
    ensures counted { IsCounted out.new }
{
    if state.is_replaced {
        return Ok((state, &[]));
    }
    if bytes.is_empty() {
        return Ok((state, &[]));
    }
    out.push(None)?;
    let end = State {
        is_replaced: true,
        ..state
    };
    Ok((end, &[]))
}

/// A step of a single-byte encoding.
fn single_byte<'b>(
    single: SingleByte,
    state: State,
    out: &mut Decoded,
    bytes: &[u8],
) -> Result<(State, &'b [u8]), AllocError>
    requires { IsCounted out.old }
    ensures continues { (more : List ℕ) → IfOk result (λ end.
        Continues out.old (single_byte_characters (index_of single) (bytes.now ++ more))
        out.new (single_byte_characters (index_of single) more)) }
    ensures all { IfOk result (λ end. end.1.now ≡ []) }
    ensures counted { IsCounted out.new }
{
    single.decode_into(out, bytes)?;
    Ok((state, &[]))
}
