//! Parsing a page or a fragment, whole or in pieces. Start at `parse_page`; `PageParser` takes
//! pieces.

ghost use Rattle.std.specs.Prelude.{[], ◌≡◌, ◌↔◌, IfOk, IsTrue, IsUtf8, List, OnOk};
ghost use Rattle.std.specs.Prelude.{encode_utf8_all, false, ℕ};
ghost use Rattle.std.specs.Str.{chars};
ghost use Rattle.dom_links.specs.Forest.{Forest};
ghost use Rattle.dom_markup.specs.Numbered.{document_of};
ghost use Rattle.dom_markup.specs.ValueTrees.{ValueTrees};
ghost use Rattle.dom_trees.specs.SameTree.{SameTree};
ghost use Rattle.calm_pages.specs.Calm.{IsCalmPage, ReadsCalm, SpellsCalmPage};
ghost use Rattle.page_reading.specs.Parsers.{ReadsPage};
ghost use Rattle.page_reading.specs.StandardPages.{EndsBytes, HasParsed, HasParsedBytes};
ghost use Rattle.page_reading.specs.StandardPages.{IsFragmentInLimit, IsPageInLimit};
ghost use Rattle.page_reading.specs.StandardPages.{IsStandardFragment, IsStandardPage, KeepsParsed};
ghost use Rattle.page_reading.specs.StandardPages.{ParsesBytesOn, ParsesText};
ghost use Rattle.page_reading.specs.StandardPages.{ParsesBytes, ParsesOn, ParsesWhole};
ghost use Rattle.page_reading.specs.Utf8Pages.{utf8_text};
ghost use Rattle.page_trees.specs.Contexts.{IsUnspaced, surroundings_of};
ghost use Rattle.page_trees.specs.Shape.{IsPage};
ghost use Rattle.standard_order.specs.Beginnings.{OfFragment, OfPage};
ghost use Rattle.standard_laws.specs.Pages.{IsParsedPage, IsWrittenPage};

use crate::utf8_pieces::{Utf8Pieces, without_mark};
use calm_pages::read_calm;
use dom_markup::document::Document;
use page_trees::{BuiltTree, Context, Options, PageFault, PageReader, make_page};
use standard_laws::parsing::written_pages_are_parsed;
use standard_laws::spelled::calm_pages_are_parsed;
use std::alloc::Global;
use text_decoding::{Encoding, decode};

/// A parser for a page or a fragment whose text comes in pieces.
#[derive(Drop)]
pub struct PageParser {
    reader: PageReader,
    is_fragment: bool,
    bytes: Utf8Pieces,
}

/// Parses a page and returns its document, which always has the shape of a page. Malformed markup
/// is not an error: it is repaired by the rules of the HTML Standard. Fails only with `Memory` or
/// `TooManyNodes`.
///
/// The document is the one as which the HTML Standard parses the page, its tree and its quirks mode,
/// whatever the page is (`standard`). If the options limit the depth, that is so of a page whose
/// elements nest no deeper. A calm page is the tree that is written down (`calm`); it is read as
/// `Document::parse` reads it, if depth is not limited and errors are not collected.
pub fn parse_page(alloc: Global, source: &str, options: Options) -> Result<Document, PageFault>
    ensures page { IfOk result (λ document. IsPage document.tree) }
    ensures calm { (trees : ValueTrees) → IsCalmPage source.now trees → ReadsCalm options
        → IfOk result (λ document. document.tree ≡ document_of trees) }
    ensures same { (forest : Forest) → SpellsCalmPage source.now forest → ReadsCalm options
        → IfOk result (λ document. SameTree forest 0 document.tree 0) }
    ensures written { IsWrittenPage source.now → ReadsCalm options
        → IfOk result (λ document. IsParsedPage source.now document.tree) }
    ensures standard { IsPageInLimit options (chars source.now)
        → IfOk result (IsStandardPage options (chars source.now)) }
{
    // A law, called for its contract alone.
    written_pages_are_parsed();
    parse_text(alloc, source, options)
}

/// Parses a page: a calm page as explicit markup, if the options allow it.
fn parse_text(alloc: Global, source: &str, options: Options) -> Result<Document, PageFault>
    ensures page { IfOk result (λ document. IsPage document.tree) }
    ensures calm { (trees : ValueTrees) → IsCalmPage source.now trees → ReadsCalm options
        → IfOk result (λ document. document.tree ≡ document_of trees) }
    ensures standard { IsPageInLimit options (chars source.now)
        → IfOk result (IsStandardPage options (chars source.now)) }
{
    if !reads_calm(options) {
        return parse_any_page(alloc, source, options);
    }
    // A law, called for its contract alone.
    calm_pages_are_parsed();
    match read_calm(alloc, source)? {
        Some(document) => Ok(document),
        None => parse_any_page(alloc, source, options),
    }
}

/// Returns whether calm pages are parsed as explicit markup with these options.
fn reads_calm(options: Options) -> bool
    ensures { IsTrue result ↔ ReadsCalm options }
{
    options.max_depth.is_none() && !options.errors
}

/// Parses a page by tree construction and returns its document.
fn parse_any_page(alloc: Global, source: &str, options: Options) -> Result<Document, PageFault>
    ensures page { IfOk result (λ document. IsPage document.tree) }
    ensures standard { IsPageInLimit options (chars source.now)
        → IfOk result (IsStandardPage options (chars source.now)) }
{
    let parser = PageParser::new(alloc, options)?;
    parser.read_whole(source)
}

/// Parses a page in UTF-8 like `parse_page`, and fails as it does. A byte order mark at the start
/// is removed, and bytes that are not UTF-8 become U+FFFD. A page in another encoding has to be
/// converted first: the encoding that a `meta` element or an HTTP header names is ignored.
pub fn parse_page_bytes(
    alloc: Global,
    source: &[u8],
    options: Options,
) -> Result<Document, PageFault>
    ensures page { IfOk result (λ document. IsPage document.tree) }
    ensures calm { (trees : ValueTrees) → IsUtf8 source.now → IsCalmPage source.now trees
        → ReadsCalm options → IfOk result (λ document. document.tree ≡ document_of trees) }
    ensures same { (forest : Forest) → IsUtf8 source.now → SpellsCalmPage source.now forest
        → ReadsCalm options → IfOk result (λ document. SameTree forest 0 document.tree 0) }
    ensures written { IsUtf8 source.now → IsWrittenPage source.now → ReadsCalm options
        → IfOk result (λ document. IsParsedPage source.now document.tree) }
    ensures standard { IsPageInLimit options (utf8_text source.now)
        → IfOk result (IsStandardPage options (utf8_text source.now)) }
{
    if let Ok(text) = str::from_utf8(source) {
        return parse_page(alloc, without_mark(text), options);
    }
    let text = decode(alloc, Encoding::Utf8, source)?;
    parse_page(alloc, without_mark(text.as_str()), options)
}

/// Parses a text as the content of the context element (13.4) and returns a fragment: below the
/// root is an element `html`, and below that are the nodes. Fails only with `Memory` or
/// `TooManyNodes`.
///
/// These are the nodes as which the HTML Standard parses the text in an element of that name, if
/// they nest no deeper than the options allow (`standard`). The name has no space; it is taken in
/// lower case, or as SVG spells it.
pub fn parse_page_fragment(
    alloc: Global,
    source: &str,
    context: Context<'_>,
    options: Options,
) -> Result<Document, PageFault>
    ensures standard { let around = surroundings_of context.entry in IsUnspaced context.entry
        → IsFragmentInLimit options around (chars source.now)
        → IfOk result (IsStandardFragment options around (chars source.now)) }
{
    let parser = PageParser::for_fragment(alloc, context, options)?;
    parser.read_whole(source)
}

/// Returns the document of a tree.
fn document_of(built: BuiltTree) -> Document
    ensures tree { result.tree ≡ built.tree }
    ensures quirks { result.quirks_mode ≡ built.quirks_mode }
{
    Document {
        tree: built.tree,
        errors: built.errors,
        quirks_mode: built.quirks_mode,
    }
}

/// Returns the document of a tree, in the shape of a page.
pub(crate) fn page_of(built: BuiltTree) -> Result<Document, PageFault>
    ensures page { IfOk result (λ page. IsPage page.tree) }
    ensures same { IfOk result (λ page. IsPage built.tree → page.tree ≡ built.tree) }
    ensures quirks { IfOk result (λ page. page.quirks_mode ≡ built.quirks_mode) }
{
    let mut page = document_of(built);
    make_page(&mut page.tree)?;
    Ok(page)
}

impl PageParser {
    /// Returns a parser for a page. Fails only when memory runs out.
    pub fn new(alloc: Global, options: Options) -> Result<PageParser, PageFault>
        ensures page { IfOk result ReadsPage }
        ensures begins { IfOk result (HasParsed options (OfPage options.scripting) []) }
        ensures bytes { IfOk result (HasParsedBytes options (OfPage options.scripting) []) }
    {
        let reader = PageReader::page(alloc, options)?;
        Ok(PageParser {
            reader,
            is_fragment: false,
            bytes: Utf8Pieces::new(alloc),
        })
    }

    /// Returns a parser for a fragment, the content of the context element. Fails only when memory
    /// runs out.
    pub fn for_fragment(
        alloc: Global,
        context: Context<'_>,
        options: Options,
    ) -> Result<PageParser, PageFault>
        ensures begins { let around = surroundings_of context.entry in IsUnspaced context.entry →
            IfOk result (HasParsed options (OfFragment options.scripting around) []) }
        ensures bytes { let around = surroundings_of context.entry in IsUnspaced context.entry →
            IfOk result (HasParsedBytes options (OfFragment options.scripting around) []) }
    {
        let reader = PageReader::fragment(alloc, context, options)?;
        Ok(PageParser {
            reader,
            is_fragment: true,
            bytes: Utf8Pieces::new(alloc),
        })
    }

    /// Parses a text in one piece and returns its document.
    fn read_whole(self, source: &str) -> Result<Document, PageFault>
        ensures page { ReadsPage self → IfOk result (λ document. IsPage document.tree) }
        ensures standard { IfOk result (ParsesWhole self (chars source.now)) }
    {
        let mut parser = self;
        parser.feed(source)?;
        parser.finish()
    }

    /// Parses the next piece of the text. The text may be split anywhere. Fails only with `Memory`
    /// or `TooManyNodes`; then nothing more is parsed, and each further call returns the same
    /// error.
    pub fn feed(&mut self, piece: &str) -> Result<(), PageFault>
        ensures page { ReadsPage self.old → ReadsPage self.new }
        ensures parses { (cs : List ℕ) → piece.now ≡ encode_utf8_all cs →
            OnOk result (ParsesOn cs self.old self.new) }
    {
        self.end_bytes()?;
        self.reader.feed(piece)
    }

    /// Parses the next bytes of a page in UTF-8, in pieces as a file or a connection delivers them.
    /// The page may be split anywhere, even inside a character. A byte order mark at the start of
    /// the bytes is removed, and bytes that are not UTF-8 become U+FFFD. A text that `feed` parsed
    /// before them doesn't change that: the HTML Standard's decoder looks at the bytes alone. Fails
    /// as `feed` does.
    pub fn feed_bytes(&mut self, piece: &[u8]) -> Result<(), PageFault>
        ensures page { ReadsPage self.old → ReadsPage self.new }
        ensures parses { OnOk result (ParsesBytesOn piece.now self.old self.new) }
    {
        self.reader.settled()?;
        match self.bytes.feed(piece) {
            Ok(text) => {
                let text = self.bytes.without_mark(text.as_str());
                self.reader.feed(text)
            }
            Err(_) => Err(self.fail_for_memory()),
        }
    }

    /// Parses what is left of bytes, where they end within a character.
    fn end_bytes(&mut self) -> Result<(), PageFault>
        ensures page { ReadsPage self.old → ReadsPage self.new }
        ensures parses { OnOk result (KeepsParsed self.old self.new) }
        ensures bytes { OnOk result (EndsBytes self.old self.new) }
    {
        match self.bytes.finish() {
            Ok(left) => {
                let text = self.bytes.without_mark(left.text.as_str());
                self.reader.feed(text)
            }
            Err(_) => Err(self.fail_for_memory()),
        }
    }

    /// Parses nothing more, since memory ran out. Returns the error of an earlier call, or
    /// `Memory`.
    fn fail_for_memory(&mut self) -> PageFault
        ensures { ReadsPage self.old → ReadsPage self.new }
    {
        self.reader.fail(PageFault::Memory);
        match self.reader.settled() {
            Ok(()) => PageFault::Memory,
            Err(fault) => fault,
        }
    }

    /// Returns the document after the last piece. Fails with the error of an earlier call, or with
    /// `Memory` or `TooManyNodes`. The document is the one as which the HTML Standard parses the
    /// page or the fragment, if it nests no deeper than the options allow: of a text that came as
    /// such (`standard`), and of one that came as bytes (`bytes`).
    pub fn finish(self) -> Result<Document, PageFault>
        ensures page { ReadsPage self → IfOk result (λ document. IsPage document.tree) }
        ensures standard { IfOk result (ParsesText self) }
        ensures bytes { IfOk result (ParsesBytes self) }
    {
        let mut parser = self;
        parser.end_bytes()?;
        let built = parser.reader.finish()?;
        if parser.is_fragment {
            return Ok(document_of(built));
        }
        page_of(built)
    }
}
