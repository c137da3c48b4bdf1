//! The text of a page whose bytes come in pieces, and whose encoding has to be found first.

ghost use Rattle.std.specs.Prelude.{◌≡◌, ◌≤◌, [], IfOk, List, drop, string_bytes, take, ℕ};
ghost use Rattle.std.specs.Prelude.{encode_utf8_all, false, length, true, ◌++◌};
ghost use Rattle.std.specs.Str.{IsAscii};
ghost use Rattle.decoded_text.specs.Characters.{text_of};
ghost use Rattle.encodings.specs.declared.encoding.Encoding.TheVariants.{Utf8 as UTF8};
ghost use Rattle.page_reading.specs.PageDecoding.{DecodesHeld, DecodesOn, Finds, HasDecoded};
ghost use Rattle.page_reading.specs.PageDecoding.{IsGuess, IsUnknown, LacksMark, WaitsAt};
ghost use Rattle.page_reading.specs.PageDecoding.{text_in};
ghost use Rattle.page_reading.specs.declared.page_decoder.Stage.TheVariants as stage;
ghost use Rattle.text_decoding.specs.Decoding.{Begins, characters, characters_behind, text_bytes};

use std::alloc::{AllocError, Global};
use std::mem;
use text_decoding::{
    Charset, Confidence, Decoded, DecodedText, Decoder, Encoding, Fallback, SingleByte,
    declared_encoding, decode,
};

/// How many bytes are held to find the encoding that they declare.
const HELD: usize = 1024;

/// How many bytes a byte order mark has at most.
const MARK: usize = 3;

/// How many bytes a character has at most in UTF-8.
const CHARACTER: usize = 4;

/// Decodes the bytes of a page.
#[derive(Drop)]
pub(crate) struct PageDecoder {
    alloc: Global,
    charset: Charset,
    stage: Stage,
    /// Bytes that were not decoded yet, since the encoding isn't known.
    held: Vec<u8>,
    /// The encoding: UTF-8 until it is known, since only ASCII is decoded before.
    encoding: Encoding,
    /// The decoder once the encoding is known.
    decoder: Decoder,
    confidence: Confidence,
}

/// How far the search for the encoding has come.
#[derive(Clone, Copy, PartialEq, Eq, Drop)]
enum Stage {
    /// The first bytes are held.
    First,
    /// Nothing says the encoding, and so far the page is ASCII.
    Ascii,
    /// The encoding is known.
    Known,
}

/// The end of a page.
#[derive(Drop)]
pub(crate) struct PageEnd {
    /// The text of the last bytes.
    pub(crate) text: Decoded,
    /// The encoding of the page.
    pub(crate) encoding: Encoding,
    /// What says so.
    pub(crate) confidence: Confidence,
}

/// Which of the bytes that are held can be decoded now, from an index up to another.
#[derive(Clone, Copy, Drop)]
struct Part {
    from: usize,
    to: usize,
}

impl PageDecoder {
    /// A decoder before the first piece.
    pub(crate) fn new(alloc: Global, charset: Charset) -> PageDecoder
        ensures { HasDecoded false [] [] result }
    {
        PageDecoder {
            alloc,
            charset,
            stage: Stage::First,
            held: Vec::new(alloc),
            encoding: Encoding::Utf8,
            decoder: Decoder::new(alloc, Encoding::Utf8),
            confidence: Confidence::Fallback,
        }
    }

    /// Returns the text of the next piece, as far as it can be told before the following ones. It
    /// is lent where it is the piece itself. After an error nothing is known of the decoder.
    pub(crate) fn feed<'b>(&mut self, piece: &'b [u8]) -> Result<DecodedText<'b>, AllocError>
        ensures { IfOk result (λ text. DecodesOn piece.now self.old self.new (text_bytes text)) }
    {
        if self.stage == Stage::Known {
            return self.decoder.feed_lent(piece);
        }
        self.held.extend_from_slice(piece)?;
        let text = self.decode_held(false)?;
        Ok(DecodedText::Owned(text))
    }

    /// Returns the text of what is left at the end of the page, and the page's encoding.
    pub(crate) fn finish(self) -> Result<PageEnd, AllocError>
        ensures { (bytes read cs : List ℕ) → HasDecoded false bytes read self →
            IfOk result (λ end. string_bytes end.text.text ≡ encode_utf8_all cs →
            text_in end.encoding bytes ≡ read ++ cs) }
    {
        let mut decoder = self;
        let mut text = decoder.decode_held(true)?;
        let encoding = decoder.encoding;
        let confidence = decoder.confidence;
        let last = decoder.decoder.finish()?;
        text.text.push_str(last.text.as_str())?;
        text.replaced = text.replaced.saturating_add(last.replaced);
        Ok(PageEnd {
            text,
            encoding,
            confidence,
        })
    }

    /// Decodes what can be decoded of the bytes that are held.
    fn decode_held(&mut self, is_end: bool) -> Result<Decoded, AllocError>
        ensures { IfOk result (λ text.
            DecodesHeld is_end self.old self.new (string_bytes text.text)) }
    {
        let held = mem::replace(&mut self.held, Vec::new(self.alloc));
        let bytes = held.as_slice();
        let part = self.decodable(bytes, is_end)?;
        let text = self.decode(between(part, bytes))?;
        self.held.extend_from_slice(behind(part.to, bytes))?;
        Ok(text)
    }

    /// Decodes these bytes. They are ASCII where the encoding isn't known.
    fn decode(&mut self, bytes: &[u8]) -> Result<Decoded, AllocError>
        ensures only { self.new ≡ record self.old { decoder = self.new.decoder } }
        ensures known { self.old.stage ≡ stage.Known → (more : List ℕ) → IfOk result (λ text.
            Begins text (characters_behind self.old.decoder (bytes.now ++ more))
            (characters_behind self.new.decoder more)) }
        ensures ascii { (self.old.stage ≡ stage.Known → ⊥) → IfOk result (λ text.
            (self.new ≡ self.old)
            × (string_bytes text.text ≡ text_of (characters UTF8 bytes.now))) }
    {
        if self.stage == Stage::Known {
            return self.decoder.feed(bytes);
        }
        ascii_text(self.alloc, bytes)
    }

    /// Finds the encoding, if these bytes tell it, and returns which of them can be decoded then.
    fn decodable(&mut self, bytes: &[u8], is_end: bool) -> Result<Part, AllocError>
        ensures held { self.new.held ≡ self.old.held }
        ensures finds { (before : List ℕ) → WaitsAt self.old.stage before bytes.now self.old →
            IfOk result (λ part. Finds is_end before bytes.now part self.new) }
        ensures known { self.old.stage ≡ stage.Known → IfOk result (λ part.
            (self.new ≡ self.old) × (part.from ≡ 0) × (part.to ≡ length bytes.now)) }
    {
        match self.stage {
            Stage::Known => Ok(all_of(bytes)),
            Stage::Ascii => self.ascii_part(bytes, is_end),
            Stage::First => self.part_at_first(bytes, is_end),
        }
    }

    /// The same for the first bytes of the page: none of them as long as there are too few.
    fn part_at_first(&mut self, bytes: &[u8], is_end: bool) -> Result<Part, AllocError>
        ensures held { self.new.held ≡ self.old.held }
        ensures finds { self.old.stage ≡ stage.First → IsUnknown self.old →
            IfOk result (λ part. Finds is_end [] bytes.now part self.new) }
    {
        if self.awaits_first(bytes, is_end) {
            return Ok(Part { from: 0, to: 0 });
        }
        self.first_part(bytes, is_end)
    }

    /// Returns whether there are too few bytes yet to look for the encoding.
    fn awaits_first(&self, bytes: &[u8], is_end: bool) -> bool
        ensures few { result ≡ true → is_end ≡ false }
        ensures enough { result ≡ false → is_end ≡ false → 3 ≤ length bytes.now }
    {
        if is_end {
            return false;
        }
        bytes.len() < self.held_at_first()
    }

    /// How many bytes have to be there before the encoding is looked for.
    fn held_at_first(&self) -> usize
        ensures { 3 ≤ result }
    {
        if self.charset.transport.is_some() {
            return MARK;
        }
        HELD
    }

    /// The same where there are enough of the first bytes, or the page has ended.
    fn first_part(&mut self, bytes: &[u8], is_end: bool) -> Result<Part, AllocError>
        ensures held { self.new.held ≡ self.old.held }
        ensures finds { (is_end ≡ false → 3 ≤ length bytes.now) → IsUnknown self.old →
            IfOk result (λ part. Finds is_end [] bytes.now part self.new) }
    {
        if let Some((encoding, length)) = Encoding::for_bom(bytes) {
            self.know(encoding, Confidence::Mark);
            return Ok(Part {
                from: length,
                to: bytes.len(),
            });
        }
        if let Some((encoding, confidence)) = self.said(bytes) {
            self.know(encoding, confidence);
            return Ok(all_of(bytes));
        }
        self.guessed_part(bytes, is_end)
    }

    /// The same where nothing says the encoding.
    fn guessed_part(&mut self, bytes: &[u8], is_end: bool) -> Result<Part, AllocError>
        ensures held { self.new.held ≡ self.old.held }
        ensures finds { LacksMark is_end bytes.now → IsUnknown self.old →
            IfOk result (λ part. Finds is_end [] bytes.now part self.new) }
    {
        let first = front(HELD, bytes);
        if first.is_ascii() {
            self.stage = Stage::Ascii;
            return self.ascii_part(bytes, is_end);
        }
        let encoding = guessed(self.alloc, first, is_end && bytes.len() <= HELD)?;
        self.know(encoding, Confidence::Fallback);
        Ok(all_of(bytes))
    }

    /// The encoding of a page without a byte order mark, unless it has to be guessed.
    fn said(&self, bytes: &[u8]) -> Option<(Encoding, Confidence)> {
        if let Some(encoding) = self.charset.transport {
            return Some((encoding, Confidence::Transport));
        }
        if let Some(encoding) = declared_encoding(bytes) {
            return Some((encoding, Confidence::Declared));
        }
        match self.charset.fallback {
            Fallback::Of(encoding) => Some((encoding, Confidence::Fallback)),
            Fallback::Guess => None,
        }
    }

    /// The same where all bytes before these are ASCII.
    fn ascii_part(&mut self, bytes: &[u8], is_end: bool) -> Result<Part, AllocError>
        ensures held { self.new.held ≡ self.old.held }
        ensures finds { (before : List ℕ) → self.old.stage ≡ stage.Ascii → IsUnknown self.old
            → IsAscii before → LacksMark is_end (before ++ bytes.now) →
            IfOk result (λ part. Finds is_end before bytes.now part self.new) }
    {
        let ascii = ascii_length(bytes);
        let rest = behind(ascii, bytes);
        if awaits_character(rest, is_end) {
            return Ok(Part { from: 0, to: ascii });
        }
        let is_all = rest.len() <= CHARACTER && is_end;
        let encoding = guessed(self.alloc, front(CHARACTER, rest), is_all)?;
        self.know(encoding, Confidence::Fallback);
        Ok(all_of(bytes))
    }

    /// The page is in this encoding. What was decoded before is ASCII.
    fn know(&mut self, encoding: Encoding, confidence: Confidence)
        ensures only { self.new ≡ record self.old {
          encoding = encoding;
          decoder = self.new.decoder;
          confidence = confidence;
          stage = stage.Known;
        } }
        ensures decoder { (bytes : List ℕ) →
            characters_behind self.new.decoder bytes ≡ characters encoding bytes }
    {
        self.encoding = encoding;
        self.decoder = Decoder::new(self.alloc, encoding);
        self.confidence = confidence;
        self.stage = Stage::Known;
    }
}

/// Returns UTF-8 if the bytes are UTF-8, apart from a character that is cut at their end unless the
/// page ends there, and otherwise windows-1252.
fn guessed(alloc: Global, bytes: &[u8], is_end: bool) -> Result<Encoding, AllocError>
    ensures { IfOk result IsGuess }
{
    let mut decoder = Decoder::new(alloc, Encoding::Utf8);
    let text = decoder.feed(bytes)?;
    let end = decoder.finish()?;
    if text.replaced == 0 && (!is_end || end.replaced == 0) {
        return Ok(Encoding::Utf8);
    }
    Ok(Encoding::SingleByte(SingleByte::Windows1252))
}

/// Returns whether these bytes behind ASCII are too few yet to guess the encoding from them.
fn awaits_character(rest: &[u8], is_end: bool) -> bool
    ensures { result ≡ true → is_end ≡ true → rest.now ≡ [] }
{
    if is_end {
        return rest.is_empty();
    }
    rest.len() < CHARACTER
}

/// Returns the text of bytes that are ASCII.
fn ascii_text(alloc: Global, bytes: &[u8]) -> Result<Decoded, AllocError>
    ensures { IfOk result (λ text.
        string_bytes text.text ≡ text_of (characters UTF8 bytes.now)) }
{
    let text = decode(alloc, Encoding::Utf8, bytes)?;
    let mut out = Decoded::with_capacity(alloc, bytes.len())?;
    out.text.push_str(text.as_str())?;
    Ok(out)
}

/// Returns how many bytes at the front are ASCII.
fn ascii_length(bytes: &[u8]) -> usize
    ensures { IsAscii (take result bytes.now) }
{
    for (i, byte) in bytes.iter().enumerate() {
        if !byte.is_ascii() {
            return i;
        }
    }
    bytes.len()
}

/// Returns all of the bytes.
fn all_of(bytes: &[u8]) -> Part
    ensures { result ≡ record { from = 0; to = length bytes.now } }
{
    Part {
        from: 0,
        to: bytes.len(),
    }
}

/// Returns the bytes at the front, at most so many.
fn front(length: usize, bytes: &[u8]) -> &[u8]
    ensures { result.now ≡ take length bytes.now }
{
    match bytes.get(..length) {
        Some(front) => front,
        None => bytes,
    }
}

/// Returns the bytes without so many at the front.
fn behind(length: usize, bytes: &[u8]) -> &[u8]
    ensures { result.now ≡ drop length bytes.now }
{
    match bytes.get(length..) {
        Some(rest) => rest,
        None => &[],
    }
}

/// Returns a part of the bytes.
fn between(part: Part, bytes: &[u8]) -> &[u8]
    ensures { result.now ≡ drop part.from (take part.to bytes.now) }
{
    behind(part.from, front(part.to, bytes))
}
