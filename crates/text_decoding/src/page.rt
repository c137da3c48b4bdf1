//! Decoding pages, whose encoding has to be found first.

ghost use Rattle.std.specs.Prelude.{◌≡◌, IfOk, None, Some, drop};
ghost use Rattle.encodings.specs.Labels.{for_bom};
ghost use Rattle.encodings.specs.Prescan.{declared_encoding};
ghost use Rattle.text_decoding.specs.Decoding.{IsTextOf, characters};
ghost use Rattle.text_decoding.specs.Pages.{IsFallback, IsPageEncoding, behind_mark, said};
ghost use Rattle.text_decoding.specs.declared.page.Confidence.TheVariants.{Fallback as Unsaid};
ghost use Rattle.text_decoding.specs.declared.page.Fallback.TheVariants.{Guess};

use crate::whole::{DecodedText, decode, lent_utf8};
use encodings::{Encoding, SingleByte, declared_encoding};
use std::alloc::{AllocError, Global};

/// What is known of a page's encoding besides its bytes.
#[derive(Clone, Copy, Debug, Drop, PartialEq, Eq)]
pub struct Charset {
    /// The encoding that came with the page, as `charset` of the HTTP header `Content-Type`.
    pub transport: Option<Encoding>,
    /// What is taken where neither the transport nor the page says anything.
    pub fallback: Fallback,
}

/// The encoding of a page that says nothing of it. The HTML Standard leaves that to the reader.
#[derive(Clone, Copy, Debug, Drop, PartialEq, Eq)]
pub enum Fallback {
    /// UTF-8 where all bytes are UTF-8, and windows-1252 where not.
    Guess,
    /// This encoding.
    Of(Encoding),
}

/// What says that a page is in its encoding.
#[derive(Clone, Copy, Debug, Drop, PartialEq, Eq)]
pub enum Confidence {
    /// A byte order mark.
    Mark,
    /// What came with the page.
    Transport,
    /// A `meta` or an XML declaration near its start.
    Declared,
    /// Nothing: it is the fallback.
    Fallback,
}

/// The text of a page.
#[derive(Drop)]
pub struct PageText<'a> {
    /// The text, without a byte order mark at its start.
    pub text: DecodedText<'a>,
    /// The encoding that it was in.
    pub encoding: Encoding,
    /// What says so.
    pub confidence: Confidence,
}

impl Charset {
    /// Nothing but the bytes is known, and the fallback is a guess.
    pub fn unknown() -> Charset
        ensures { result.transport ≡ None }
    {
        Charset {
            transport: None,
            fallback: Fallback::Guess,
        }
    }

    /// The page came with this encoding. Only a byte order mark is stronger.
    pub fn of_transport(encoding: Encoding) -> Charset
        ensures { result.transport ≡ Some encoding }
    {
        Charset {
            transport: Some(encoding),
            fallback: Fallback::Guess,
        }
    }
}

/// The text of a page in whatever encoding. The encoding is that of a byte order mark, or else the
/// transport's, or else the one that the page declares (`declared_encoding`), or else the fallback.
/// The byte order mark isn't part of the text. The text is lent where the bytes are UTF-8 or ASCII
/// already, as `decode` does. Fails only when memory runs out.
pub fn decode_page(
    alloc: Global,
    bytes: &[u8],
    charset: Charset,
) -> Result<PageText<'_>, AllocError>
    ensures text { IfOk result (λ page.
        IsTextOf page.text (characters page.encoding (behind_mark bytes.now))) }
    ensures encoding { IfOk result (λ page.
        IsPageEncoding charset bytes.now page.encoding page.confidence) }
{
    let (found, rest) = said_encoding(bytes, charset.transport);
    match found {
        Some((encoding, confidence)) => decode_as(alloc, encoding, confidence, rest),
        None => decode_unsaid(alloc, charset.fallback, rest),
    }
}

/// Returns the encoding that a byte order mark, the transport or the page itself names, if any
/// does, and the bytes after a byte order mark.
fn said_encoding(
    bytes: &[u8],
    transport: Option<Encoding>,
) -> (Option<(Encoding, Confidence)>, &[u8])
    ensures said { result.0 ≡ said (for_bom bytes.now) transport (declared_encoding bytes.now) }
    ensures rest { result.1.now ≡ behind_mark bytes.now }
{
    if let Some((encoding, length)) = Encoding::for_bom(bytes) {
        return (Some((encoding, Confidence::Mark)), behind(length, bytes));
    }
    if let Some(encoding) = transport {
        return (Some((encoding, Confidence::Transport)), bytes);
    }
    match declared_encoding(bytes) {
        Some(encoding) => (Some((encoding, Confidence::Declared)), bytes),
        None => (None, bytes),
    }
}

/// Returns the bytes without so many at the front.
fn behind(length: usize, bytes: &[u8]) -> &[u8]
    ensures { result.now ≡ drop length bytes.now }
{
    match bytes.get(length..) {
        Some(rest) => rest,
        None => &[],
    }
}

/// Returns the text of the bytes in an encoding.
fn decode_as(
    alloc: Global,
    encoding: Encoding,
    confidence: Confidence,
    bytes: &[u8],
) -> Result<PageText<'_>, AllocError>
    ensures text { IfOk result (λ page. IsTextOf page.text (characters page.encoding bytes.now)) }
    ensures encoding { IfOk result (λ page. page.encoding ≡ encoding) }
    ensures confidence { IfOk result (λ page. page.confidence ≡ confidence) }
{
    let text = decode(alloc, encoding, bytes)?;
    Ok(PageText {
        text,
        encoding,
        confidence,
    })
}

/// Returns the text of a page whose encoding nothing names, neither a byte order mark nor the
/// transport nor the page itself: it is in the fallback.
fn decode_unsaid(
    alloc: Global,
    fallback: Fallback,
    bytes: &[u8],
) -> Result<PageText<'_>, AllocError>
    ensures text { IfOk result (λ page. IsTextOf page.text (characters page.encoding bytes.now)) }
    ensures encoding { IfOk result (λ page. IsFallback fallback bytes.now page.encoding) }
    ensures confidence { IfOk result (λ page. page.confidence ≡ Unsaid) }
{
    match fallback {
        Fallback::Of(encoding) => decode_as(alloc, encoding, Confidence::Fallback, bytes),
        Fallback::Guess => decode_guess(alloc, bytes),
    }
}

/// Returns the text of bytes in UTF-8 if they are UTF-8, and otherwise in windows-1252.
fn decode_guess(alloc: Global, bytes: &[u8]) -> Result<PageText<'_>, AllocError>
    ensures text { IfOk result (λ page. IsTextOf page.text (characters page.encoding bytes.now)) }
    ensures encoding { IfOk result (λ page. IsFallback Guess bytes.now page.encoding) }
    ensures confidence { IfOk result (λ page. page.confidence ≡ Unsaid) }
{
    if let Some(text) = lent_utf8(bytes) {
        return Ok(PageText {
            text: DecodedText::Lent(text),
            encoding: Encoding::Utf8,
            confidence: Confidence::Fallback,
        });
    }
    let encoding = Encoding::SingleByte(SingleByte::Windows1252);
    decode_as(alloc, encoding, Confidence::Fallback, bytes)
}
