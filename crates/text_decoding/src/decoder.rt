//! Decoding bytes that come in pieces.

ghost use Rattle.std.specs.Prelude.{◌≡◌, ◌+◌, [], ◌++◌, IfOk, IfSome, List, OnErr, OnOk, string_bytes, true, ℕ};
ghost use Rattle.decoded_text.specs.Characters.{IsCounted, IsDecoded};
ghost use Rattle.text_decoding.specs.Decoding.{Begins, BeginsWith, IsBetweenCharacters, characters, characters_behind, characters_from, joined};
ghost use Rattle.text_decoding.specs.declared.whole.DecodedText.TheVariants.{Lent};

use crate::state::{START, State, decode_into};
use crate::whole::{DecodedText, lent_utf8};
use decoded_text::Decoded;
use encodings::Encoding;
use std::alloc::{AllocError, Global};

/// Decodes bytes that come in pieces, which may be cut anywhere. The texts of the pieces, one
/// after the other, are the text of all bytes.
#[derive(Drop)]
pub struct Decoder {
    alloc: Global,
    encoding: Encoding,
    state: State,
    /// Bytes that were read, and whose character is not whole yet: at most three.
    waiting: Vec<u8>,
}

impl Decoder {
    /// A decoder of the encoding, before the first piece. It leaves a byte order mark in the text:
    /// `Encoding::for_bom` says how many bytes to skip.
    pub fn new(alloc: Global, encoding: Encoding) -> Decoder
        ensures { (bytes : List ℕ) → characters_behind result bytes ≡ characters encoding bytes }
    {
        Decoder {
            alloc,
            encoding,
            state: START,
            waiting: Vec::new(alloc),
        }
    }

    /// The encoding.
    pub fn encoding(&self) -> Encoding
        ensures { result ≡ self.now.encoding }
    {
        self.encoding
    }

    /// The text of the next piece, as far as it can be told before the following ones: a character
    /// that the piece begins is in the text of the piece that ends it.
    ///
    /// # Errors
    ///
    /// `AllocError` where memory is short. The decoder is then as it was before the call.
    pub fn feed(&mut self, piece: &[u8]) -> Result<Decoded, AllocError>
        ensures begins { (more : List ℕ) → IfOk result (λ decoded.
            Begins decoded (characters_behind self.old (piece.now ++ more))
            (characters_behind self.new more)) }
        ensures kept { OnErr result (self.new ≡ self.old) }
        ensures counted { IfOk result IsCounted }
    {
        if self.waiting.as_slice().is_empty() {
            let text = self.read(piece)?;
            return Ok(text);
        }
        let mut bytes = Vec::from_slice(self.alloc, self.waiting.as_slice())?;
        bytes.extend_from_slice(piece)?;
        let text = self.read(bytes.as_slice())?;
        Ok(text)
    }

    /// The text of the next piece, as `feed` gives it. It is lent where it is the piece itself: in
    /// UTF-8, where the piece is UTF-8 without an error, and no character was cut before it.
    ///
    /// # Errors
    ///
    /// `AllocError` where memory is short. The decoder is then as it was before the call.
    pub fn feed_lent<'b>(&mut self, piece: &'b [u8]) -> Result<DecodedText<'b>, AllocError>
        ensures begins { (more : List ℕ) → IfOk result (λ text.
            BeginsWith text (characters_behind self.old (piece.now ++ more))
            (characters_behind self.new more)) }
        ensures kept { OnErr result (self.new ≡ self.old) }
    {
        if let Some(text) = self.lent(piece) {
            return Ok(DecodedText::Lent(text));
        }
        let text = self.feed(piece)?;
        Ok(DecodedText::Owned(text))
    }

    /// The next piece as its text, where it is that itself.
    fn lent<'b>(&self, piece: &'b [u8]) -> Option<&'b str>
        ensures { (more : List ℕ) → IfSome result (λ text.
            BeginsWith (Lent text) (characters_behind self.now (piece.now ++ more))
            (characters_behind self.now more)) }
    {
        match self.encoding {
            Encoding::Utf8 if self.is_between_characters() => lent_utf8(piece),
            _ => None,
        }
    }

    /// Whether no character of UTF-8 was begun.
    fn is_between_characters(&self) -> bool
        ensures { result ≡ true → IsBetweenCharacters self.now }
    {
        self.state.utf8.needed == 0 && self.waiting.as_slice().is_empty()
    }

    /// Decodes bytes after those that were decoded.
    fn read(&mut self, bytes: &[u8]) -> Result<Decoded, AllocError>
        ensures begins { (more : List ℕ) → IfOk result (λ decoded.
            Begins decoded (characters_from self.old.encoding self.old.state (bytes.now ++ more))
            (characters_behind self.new more)) }
        ensures kept { OnErr result (self.new ≡ self.old) }
        ensures counted { IfOk result IsCounted }
    {
        let mut out = Decoded::with_capacity(self.alloc, bytes.len())?;
        let (state, rest) = decode_into(self.encoding, self.state, &mut out, bytes, false)?;
        let waiting = Vec::from_slice(self.alloc, rest)?;
        self.state = state;
        self.waiting = waiting;
        Ok(out)
    }

    /// The text of what is left, where the bytes end: U+FFFD for a character that is not whole, or
    /// nothing.
    ///
    /// # Errors
    ///
    /// `AllocError` where memory is short.
    pub fn finish(self) -> Result<Decoded, AllocError>
        ensures decoded { IfOk result (λ decoded. IsDecoded decoded (characters_behind self [])) }
        ensures counted { IfOk result IsCounted }
    {
        let mut out = Decoded::with_capacity(self.alloc, self.waiting.len())?;
        let waiting = self.waiting.as_slice();
        decode_into(self.encoding, self.state, &mut out, waiting, true)?;
        Ok(out)
    }
}

/// The text of bytes that come in pieces: that of the pieces joined to one.
///
/// # Errors
///
/// `AllocError` where memory is short.
pub fn decode_pieces(
    alloc: Global,
    encoding: Encoding,
    pieces: &[&[u8]],
) -> Result<Decoded, AllocError>
    ensures { IfOk result (λ decoded. IsDecoded decoded
        (characters encoding (joined (λ piece. piece.now) pieces.now))) }
{
    let mut decoder = Decoder::new(alloc, encoding);
    let mut out = Decoded::with_capacity(alloc, 0)?;
    for piece in pieces {
        let text = decoder.feed(piece)?;
        append(&mut out, &text)?;
    }
    let text = decoder.finish()?;
    append(&mut out, &text)?;
    Ok(out)
}

/// Appends the text of a piece.
fn append(out: &mut Decoded, piece: &Decoded) -> Result<(), AllocError>
    requires counted { IsCounted out.old }
    requires piece { IsCounted piece.now }
    ensures text { OnOk result (string_bytes out.new.text
        ≡ string_bytes out.old.text ++ string_bytes piece.now.text) }
    ensures replaced { OnOk result (out.new.replaced ≡ out.old.replaced + piece.now.replaced) }
    ensures counted { IsCounted out.new }
{
    out.text.push_str(piece.text.as_str())?;
    out.replaced += piece.replaced;
    Ok(())
}
