//! The loop of the decoders whose characters have several bytes.

ghost use Rattle.std.specs.Prelude.{◌≡◌, ◌<◌, ◌≤◌, [], ◌∷◌, ◌++◌, IfNone, IfOk, IfSome, IsTrue, List, OnOk};
ghost use Rattle.std.specs.Prelude.{Option, Some, length, ℕ};
ghost use Rattle.decoded_text.specs.Characters.{Appends, Continues, IsCounted, character_or_error};

use crate::ascii::ascii_front;
use crate::decoded::Decoded;
use std::alloc::AllocError;

/// What the bytes of one character give.
pub trait Found {
    // The characters; None for an error.
    ghost items: { Self → List (Option ℕ) };

    /// Appends the characters.
    fn push_to(self, out: &mut Decoded) -> Result<(), AllocError>
        requires { IsCounted out.old }
        ensures appends { OnOk result (Appends out.old out.new (items self)) }
        ensures counted { IsCounted out.new };
}

impl Found for Option<char> {
    ghost items = { λ character. character ∷ [] };

    fn push_to(self, out: &mut Decoded) -> Result<(), AllocError> {
        out.push(self)
    }
}

/// An encoding whose characters have one or more bytes. ASCII bytes are ASCII characters, and no
/// character changes how the following ones are decoded.
pub trait MultiByte {
    /// What the bytes of one character give.
    type Found: Found;

    // The characters of the bytes; None for each error.
    ghost characters: { List ℕ → List (Option ℕ) };

    // How many bytes a character has at most.
    ghost longest: { ℕ };

    /// Returns the first character and the bytes after it; `None` if it is incomplete.
    fn next(bytes: &[u8], is_last: bool) -> Option<(Self::Found, &[u8])>
        ensures none { IfNone result (length bytes.now < longest) }
        ensures last { IsTrue is_last → IfNone result (bytes.now ≡ []) }
        ensures some { (more : List ℕ) → (IsTrue is_last → more ≡ []) → IfSome result (λ next.
            characters (bytes.now ++ more)
            ≡ Self.Found.items next.0 ++ characters (next.1.now ++ more)) }
        ensures less { IfSome result (λ next. length next.1.now < length bytes.now) };

    /// A law, called for its contract alone: an ASCII byte is an ASCII character, whatever follows.
    fn ascii_is_itself()
        ensures { (byte : ℕ) (after : List ℕ) → byte < 128
            → characters (byte ∷ after) ≡ Some byte ∷ characters after };
}

/// Appends the characters of the bytes, and returns the bytes that aren't decoded yet: the
/// beginning of a character that the next bytes continue. If `is_last` is true, all bytes are
/// decoded.
///
/// # Errors
///
/// Fails with `AllocError` if memory runs out.
pub fn decode_into<'b, E: MultiByte>(
    out: &mut Decoded,
    bytes: &'b [u8],
    is_last: bool,
) -> Result<&'b [u8], AllocError>
    requires { IsCounted out.old }
    ensures continues { (more : List ℕ) → (IsTrue is_last → more ≡ []) → IfOk result (λ rest.
        Continues out.old (E.characters (bytes.now ++ more))
        out.new (E.characters (rest.now ++ more))) }
    ensures few { IfOk result (λ rest. length rest.now < E.longest) }
    ensures all { IsTrue is_last → IfOk result (λ rest. rest.now ≡ []) }
    ensures counted { IsCounted out.new }
{
    E::ascii_is_itself();
    let mut rest = bytes;
    while let Some((character, after)) = E::next(rest, is_last) {
        character.push_to(out)?;
        let (ascii, others) = ascii_front(after);
        out.push_ascii(ascii)?;
        rest = others;
    }
    Ok(rest)
}

/// Returns the character of several bytes and what follows them, if a character was found.
/// Otherwise returns an error that takes all of them, but leaves the last one if it is ASCII.
pub fn character_or_error<'b>(
    found: Option<char>,
    last: u8,
    from_last: &'b [u8],
    after_last: &'b [u8],
) -> (Option<char>, &'b [u8])
    requires { from_last.now ≡ last ∷ after_last.now }
    ensures gives { (characters : List ℕ → List (Option ℕ)) (more : List ℕ)
        → result.0 ∷ characters (result.1.now ++ more) ≡ character_or_error found last
        (characters (from_last.now ++ more)) (characters (after_last.now ++ more)) }
    ensures less { length result.1.now ≤ length from_last.now }
{
    match found {
        Some(character) => (Some(character), after_last),
        None if last < 128 => (None, from_last),
        None => (None, after_last),
    }
}
