//! Parsing pages in any encoding whose bytes come in pieces.

ghost use Rattle.std.specs.Prelude.{[], IfOk, OnOk};
ghost use Rattle.page_reading.specs.BytePages.{HasParsedPage, ParsesPage, ParsesPageOn};
ghost use Rattle.page_trees.specs.Shape.{IsPage};

use crate::charset::ReadPage;
use crate::page_decoder::PageDecoder;
use crate::reading::page_of;
use page_trees::{Options, PageFault, PageReader};
use std::alloc::Global;
use text_decoding::Charset;

/// A parser for a page in any encoding whose bytes come in pieces, as a file or a connection
/// delivers them. The page may be split anywhere, even inside a character.
///
/// The encoding is that of a byte order mark, or else the transport's, or else the one that the
/// first 1,024 bytes declare, or else the fallback. If the transport names no encoding, nothing is
/// parsed before 1,024 bytes have come or the page ends.
///
/// `Fallback::Guess` can't ask whether all bytes are UTF-8, as `read_page` does, since they have
/// not come yet. It takes UTF-8 if the first 1,024 bytes are UTF-8, apart from a character that is
/// cut there, and otherwise windows-1252. If these bytes are ASCII, so that both would give the
/// same text, the four bytes from the first one on that isn't ASCII decide in the same way,
/// wherever they come; and a page of ASCII is in UTF-8. So a page of fewer than 1,024 bytes is
/// parsed as `read_page` parses it, and so is a page of which something says its encoding.
#[derive(Drop)]
pub struct PageByteParser {
    source: PageDecoder,
    reader: PageReader,
    replaced: usize,
}

impl PageByteParser {
    /// Returns a parser for a page. Fails only when memory runs out.
    pub fn new(
        alloc: Global,
        charset: Charset,
        options: Options,
    ) -> Result<PageByteParser, PageFault>
        ensures { IfOk result (HasParsedPage options []) }
    {
        Ok(PageByteParser {
            source: PageDecoder::new(alloc, charset),
            reader: PageReader::page(alloc, options)?,
            replaced: 0,
        })
    }

    /// Parses the next bytes of the page. Fails only with `Memory` or `TooManyNodes`; then nothing
    /// more is parsed, and each further call returns the same error.
    pub fn feed(&mut self, piece: &[u8]) -> Result<(), PageFault>
        ensures { OnOk result (ParsesPageOn piece.now self.old self.new) }
    {
        self.reader.settled()?;
        match self.source.feed(piece) {
            Ok(text) => {
                self.replaced = self.replaced.saturating_add(text.replaced());
                self.reader.feed(text.as_str())
            }
            Err(_) => {
                self.reader.fail(PageFault::Memory);
                Err(PageFault::Memory)
            }
        }
    }

    /// Returns the page after the last piece. Its document always has the shape of a page. It is
    /// the one as which the HTML Standard parses the text of the bytes in the encoding that is
    /// returned, if it nests no deeper than the options allow (`standard`). Fails with the error of
    /// an earlier call, or with `Memory` or `TooManyNodes`.
    pub fn finish(self) -> Result<ReadPage, PageFault>
        ensures page { IfOk result (λ read. IsPage read.document.tree) }
        ensures standard { IfOk result (ParsesPage self) }
    {
        let mut reader = self.reader;
        reader.settled()?;
        let end = self.source.finish()?;
        reader.feed(end.text.text.as_str())?;
        let document = page_of(reader.finish()?)?;
        Ok(ReadPage {
            document,
            encoding: end.encoding,
            confidence: end.confidence,
            replaced: self.replaced.saturating_add(end.text.replaced),
        })
    }
}
