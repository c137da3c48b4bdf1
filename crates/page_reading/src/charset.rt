//! Parsing pages in any encoding.

ghost use Rattle.std.specs.Prelude.{◌≡◌, IfOk, IsUtf8, Some};
ghost use Rattle.decoded_text.specs.Characters.{errors_in};
ghost use Rattle.calm_pages.specs.Calm.{ReadsCalm};
ghost use Rattle.page_reading.specs.Pages.{ReadsAsWritten};
ghost use Rattle.page_reading.specs.StandardPages.{ReadsText};
ghost use Rattle.encodings.specs.declared.encoding.Encoding.TheVariants.{Utf8};
ghost use Rattle.page_trees.specs.Shape.{IsPage};
ghost use Rattle.text_decoding.specs.Decoding.{characters};
ghost use Rattle.text_decoding.specs.Pages.{IsPageEncoding, behind_mark, page_text};

use crate::reading::parse_page;
use dom_markup::document::Document;
use page_trees::{Options, PageFault};
use std::alloc::Global;
use text_decoding::{Charset, Confidence, Encoding, decode_page};

/// A page that was read, and the encoding that it was in.
#[derive(Drop)]
pub struct ReadPage {
    /// The document.
    pub document: Document,
    /// The encoding of the page.
    pub encoding: Encoding,
    /// What names this encoding: a byte order mark, the transport, the page, or nothing.
    pub confidence: Confidence,
    /// How many times U+FFFD stands in the page's text for bytes that could not be decoded.
    pub replaced: usize,
}

/// Parses a page in whatever encoding like `parse_page`. The encoding is found as `decode_page`
/// finds it: from a byte order mark, or else from the transport, or else from what the page
/// declares, or else from the fallback. The byte order mark isn't part of the page's text. A calm
/// page is parsed as `parse_page` parses it: its text, and a page that comes as UTF-8 and is UTF-8.
/// Every page is parsed as the HTML Standard parses its text, if it nests no deeper than the options
/// allow (`text`).
/// Fails only with `Memory` or `TooManyNodes`.
///
/// `PageByteParser` parses a page whose bytes come in pieces.
pub fn read_page(
    alloc: Global,
    bytes: &[u8],
    charset: Charset,
    options: Options,
) -> Result<ReadPage, PageFault>
    ensures page { IfOk result (λ read. IsPage read.document.tree) }
    ensures encoding { IfOk result (λ read.
        IsPageEncoding charset bytes.now read.encoding read.confidence) }
    ensures replaced { IfOk result (λ read.
        read.replaced ≡ errors_in (characters read.encoding (behind_mark bytes.now))) }
    ensures text { IfOk result (λ read.
        ReadsText options (page_text read.encoding bytes.now) read.document) }
    ensures utf8 { charset.transport ≡ Some Utf8 → IsUtf8 bytes.now → ReadsCalm options
        → IfOk result (λ read. ReadsAsWritten bytes.now read.document.tree) }
{
    let page = decode_page(alloc, bytes, charset)?;
    let document = parse_page(alloc, page.text.as_str(), options)?;
    Ok(ReadPage {
        document,
        encoding: page.encoding,
        confidence: page.confidence,
        replaced: page.text.replaced(),
    })
}
