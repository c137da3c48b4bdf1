//! Pages that are read while their bytes come, in pieces.

ghost use Rattle.std.specs.Prelude.{◌≡◌, IfOk};
ghost use Rattle.page_trees.specs.Shape.{IsPage};

use crate::decoding::{Decoded, charset_of};
use crate::fault::Fault;
use crate::state::{State, options_of};
use dom_query::{PageByteParser, ReadPage};
use std::alloc::Global;

/// A page of which not all bytes have come yet.
#[derive(Drop)]
pub struct Reader {
    pub parser: PageByteParser,
}

impl Reader {
    /// A reader of a page in any encoding, as `PageByteParser` reads it. The label is that of the
    /// transport's encoding; an empty one says nothing. Refused as `UnknownLabel` where no encoding
    /// has that label. Elements nest as deep as `max_depth` says; 0 is no limit.
    pub fn new(alloc: Global, label: &[u8], max_depth: usize) -> Result<Reader, Fault> {
        let charset = charset_of(label)?;
        let parser = PageByteParser::new(alloc, charset, options_of(max_depth))?;
        Ok(Reader { parser })
    }

    /// Reads the next bytes of the page. After a fault each further call has the same fault.
    pub fn feed(&mut self, piece: &[u8]) -> Result<usize, Fault> {
        self.parser.feed(piece)?;
        Ok(0)
    }

    /// The document of the page, all of whose bytes have come.
    pub fn finish(self, alloc: Global) -> Result<State, Fault>
        ensures { IfOk result (λ state. IsPage state.document.tree) }
    {
        let read = self.parser.finish()?;
        Ok(state_of(alloc, read))
    }
}

/// The document of a page, and how its bytes were decoded.
pub(crate) fn state_of(alloc: Global, read: ReadPage) -> State
    ensures { result.document ≡ read.document }
{
    let decoded = Decoded {
        encoding: read.encoding,
        source: read.confidence,
        replaced: read.replaced,
    };
    let mut state = State::of(alloc, read.document);
    state.decoded = Some(decoded);
    state
}
