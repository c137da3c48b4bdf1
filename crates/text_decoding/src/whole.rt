//! Decoding bytes that are whole.

ghost use Rattle.std.specs.Prelude.{◌≡◌, IfNone, IfOk, IfSome, IsTrue, IsUtf8};
ghost use Rattle.decoded_text.specs.Characters.{IsDecoded};
ghost use Rattle.encodings.specs.declared.encoding.Encoding.TheVariants.{Utf8};
ghost use Rattle.text_decoding.specs.Decoding.{IsItself, IsTextOf, characters, is_ascii_based, replaced_in, text_bytes};

use crate::state::{START, decode_into};
use decoded_text::Decoded;
use encodings::Encoding;
use std::alloc::{AllocError, Global};
use std::str::{from_utf8, from_utf8_unchecked};

/// The text of bytes.
#[derive(Drop)]
pub enum DecodedText<'a> {
    /// The bytes themselves, which are UTF-8 already. Nothing was replaced.
    Lent(&'a str),
    /// A text of its own.
    Owned(Decoded),
}

impl DecodedText<'_> {
    /// The text.
    pub fn as_str(&self) -> &str
        ensures { result.now ≡ text_bytes self.now }
    {
        match self {
            DecodedText::Lent(text) => text,
            DecodedText::Owned(decoded) => decoded.text.as_str(),
        }
    }

    /// How many times U+FFFD stands in the text for bytes that could not be decoded.
    pub fn replaced(&self) -> usize
        ensures { result ≡ replaced_in self.now }
    {
        match self {
            DecodedText::Lent(_) => 0,
            DecodedText::Owned(decoded) => decoded.replaced,
        }
    }
}

/// The text of the bytes in an encoding. It is lent where the bytes are its UTF-8: bytes in UTF-8
/// without an error, and ASCII in an encoding that has ASCII. A byte order mark stays in the text.
///
/// # Errors
///
/// `AllocError` where memory is short.
pub fn decode(
    alloc: Global,
    encoding: Encoding,
    bytes: &[u8],
) -> Result<DecodedText<'_>, AllocError>
    ensures { IfOk result (λ text. IsTextOf text (characters encoding bytes.now)) }
{
    if let Some(text) = lent(encoding, bytes) {
        return Ok(DecodedText::Lent(text));
    }
    Ok(DecodedText::Owned(decode_whole(alloc, encoding, bytes)?))
}

/// The text of the bytes in an encoding, decoded.
fn decode_whole(alloc: Global, encoding: Encoding, bytes: &[u8]) -> Result<Decoded, AllocError>
    ensures { IfOk result (λ decoded. IsDecoded decoded (characters encoding bytes.now)) }
{
    let mut out = Decoded::with_capacity(alloc, bytes.len())?;
    decode_into(encoding, START, &mut out, bytes, true)?;
    Ok(out)
}

/// The bytes as the text that they stand for, where they are its UTF-8.
fn lent(encoding: Encoding, bytes: &[u8]) -> Option<&str>
    ensures bytes { IfSome result (λ text. text.now ≡ bytes.now) }
    ensures itself { IfSome result (λ _. IsItself encoding bytes.now) }
{
    match encoding {
        Encoding::Utf8 => lent_utf8(bytes),
        _ if is_ascii_based(encoding) => lent_ascii(encoding, bytes),
        _ => None,
    }
}

/// The bytes as text, where they are UTF-8.
pub(crate) fn lent_utf8(bytes: &[u8]) -> Option<&str>
    ensures bytes { IfSome result (λ text. text.now ≡ bytes.now) }
    ensures itself { IfSome result (λ _. IsItself Utf8 bytes.now) }
    ensures some { IfSome result (λ _. IsUtf8 bytes.now) }
    ensures none { IfNone result (IsUtf8 bytes.now → ⊥) }
{
    match from_utf8(bytes) {
        Ok(text) => Some(text),
        Err(_) => None,
    }
}

/// The bytes as text, where they are ASCII.
fn lent_ascii(encoding: Encoding, bytes: &[u8]) -> Option<&str>
    requires { IsTrue (is_ascii_based encoding) }
    ensures bytes { IfSome result (λ text. text.now ≡ bytes.now) }
    ensures itself { IfSome result (λ _. IsItself encoding bytes.now) }
{
    if bytes.is_ascii() {
        return Some(unsafe { from_utf8_unchecked(bytes) });
    }
    None
}

/// Whether ASCII bytes are ASCII characters in the encoding.
fn is_ascii_based(encoding: Encoding) -> bool
    ensures { result ≡ is_ascii_based encoding }
{
    !matches!(
        encoding,
        Encoding::Utf16Be | Encoding::Utf16Le | Encoding::Iso2022Jp | Encoding::Replacement
    )
}
