//! Bytes in UTF-8, whole or in pieces.

ghost use Rattle.std.specs.Prelude.{◌≡◌, ◌&&◌, ◌++◌, [], IfOk, List, encode_utf8_all, length};
ghost use Rattle.std.specs.Prelude.{nat_eq, string_bytes, true, ℕ};
ghost use Rattle.decoded_text.specs.Characters.{text_of};
ghost use Rattle.encodings.specs.declared.encoding.Encoding.TheVariants.{Utf8};
ghost use Rattle.page_trees.specs.Framed.{IsFramed};
ghost use Rattle.page_reading.specs.Utf8Pages.{unmarked, unmarked_if};
ghost use Rattle.text_decoding.specs.Decoding.{BeginsWith, characters, characters_behind};

use std::alloc::{AllocError, Global};
use std::mem;
use text_decoding::{Decoded, DecodedText, Decoder, Encoding};

/// The decoder of a text in UTF-8 whose bytes come in pieces, and without a byte order mark at its
/// start.
#[derive(Drop)]
pub(crate) struct Utf8Pieces {
    alloc: Global,
    decoder: Decoder,
    /// Whether no text was decoded yet, so that a byte order mark may come.
    is_start: bool,
}

impl Utf8Pieces {
    /// A decoder before the first piece.
    pub(crate) fn new(alloc: Global) -> Utf8Pieces
        ensures decoder { (bytes : List ℕ) →
            characters_behind result.decoder bytes ≡ characters Utf8 bytes }
        ensures start { result.is_start ≡ true }
    {
        Utf8Pieces {
            alloc,
            decoder: Decoder::new(alloc, Encoding::Utf8),
            is_start: true,
        }
    }

    /// The text of the next piece. It is lent where it is the piece itself.
    pub(crate) fn feed<'b>(&mut self, piece: &'b [u8]) -> Result<DecodedText<'b>, AllocError>
        ensures begins { (more : List ℕ) → IfOk result (λ text.
            BeginsWith text (characters_behind self.old.decoder (piece.now ++ more))
            (characters_behind self.new.decoder more)) }
        ensures only { self.new ≡ record self.old { decoder = self.new.decoder } }
    {
        self.decoder.feed_lent(piece)
    }

    /// The text of the next piece without a byte order mark, if it is the first text.
    pub(crate) fn without_mark<'t>(&mut self, text: &'t str) -> &'t str
        ensures rest { (cs : List ℕ) → text.now ≡ encode_utf8_all cs →
            result.now ≡ encode_utf8_all (unmarked_if self.old.is_start cs) }
        ensures only { self.new ≡ record self.old {
          is_start = self.old.is_start && nat_eq (length text.now) 0;
        } }
    {
        if !self.is_start {
            return text;
        }
        self.is_start = text.is_empty();
        without_mark(text)
    }

    /// The text of what is left where the bytes end: U+FFFD for a character that is not whole, or
    /// nothing. Another text may follow.
    pub(crate) fn finish(&mut self) -> Result<Decoded, AllocError>
        ensures text { IfOk result (λ left.
            string_bytes left.text ≡ text_of (characters_behind self.old.decoder [])) }
        ensures ended { characters_behind self.new.decoder [] ≡ [] }
        ensures only { self.new ≡ record self.old { decoder = self.new.decoder } }
    {
        let next = Decoder::new(self.alloc, Encoding::Utf8);
        mem::replace(&mut self.decoder, next).finish()
    }
}

/// Returns the text without a byte order mark at its start. A calm page doesn't start with one, so
/// it is returned unchanged.
pub(crate) fn without_mark(text: &str) -> &str
    ensures rest { (cs : List ℕ) → text.now ≡ encode_utf8_all cs →
        result.now ≡ encode_utf8_all (unmarked cs) }
    ensures framed { IsFramed text.now → result.now ≡ text.now }
{
    match text.strip_prefix('\u{feff}') {
        Some(rest) => rest,
        None => text,
    }
}
