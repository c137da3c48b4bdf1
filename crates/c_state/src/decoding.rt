//! Pages in any encoding.

ghost use Rattle.std.specs.Prelude.{◌≡◌, IfOk, MatchOption, Some, true};
ghost use Rattle.std.specs.Option.{is_some};
ghost use Rattle.text_decoding.specs.declared.page.Fallback.TheVariants.{Guess};
ghost use Rattle.c_state.specs.Answers.{GivesTextThat};
ghost use Rattle.c_state.specs.Decodings.{IsDecodedPage, IsTransport, source_number};

use crate::fault::Fault;
use crate::state::{State, options_of};
use dom_query::prelude::*;
use std::alloc::Global;

/// How the bytes of a page were decoded.
#[derive(Clone, Copy, Debug, Drop)]
pub struct Decoded {
    /// The encoding that the page was in.
    pub encoding: Encoding,
    /// What says so.
    pub source: Confidence,
    /// How many times U+FFFD stands in the page's text for bytes that could not be decoded.
    pub replaced: usize,
}

impl State {
    /// The document of a page in any encoding, as `read_page` reads it. The label is that of the
    /// transport's encoding; an empty one says nothing. Refused as `UnknownLabel` where no encoding
    /// has that label. Elements nest as deep as `max_depth` says; 0 is no limit.
    pub fn parse_bytes(
        alloc: Global,
        bytes: &[u8],
        label: &[u8],
        max_depth: usize,
    ) -> Result<State, Fault>
        ensures { IfOk result (IsDecodedPage label.now bytes.now max_depth) }
    {
        let charset = charset_of(label)?;
        let read = read_page(alloc, bytes, charset, options_of(max_depth))?;
        let decoded = Decoded {
            encoding: read.encoding,
            source: read.confidence,
            replaced: read.replaced,
        };
        let mut state = State::of(alloc, read.document);
        state.decoded = Some(decoded);
        Ok(state)
    }

    /// The name of the encoding that the page was in, as the Encoding Standard writes it. Refused
    /// as `Nothing` where the document wasn't read by `parse_bytes`.
    pub fn take_encoding(&mut self, to: &mut [u8]) -> Result<usize, Fault>
        ensures { GivesTextThat result self.old self.new to.old to.new
            (λ _. is_some self.old.decoded ≡ true) }
    {
        let decoded = self.decoded()?;
        let mut name = String::new(self.document.tree.allocator());
        name.push_str(decoded.encoding.name())?;
        Ok(self.keep(name, to))
    }

    /// What says in which encoding the page was: a byte order mark (0), the transport (1), the page
    /// itself (2), or nothing (3). Refused as `Nothing` where the document wasn't read by
    /// `parse_bytes`.
    pub fn encoding_source(&self) -> Result<usize, Fault>
        ensures { IfOk result (λ number. MatchOption self.now.decoded ⊥
            (λ decoded. number ≡ source_number decoded.source)) }
    {
        let decoded = self.decoded()?;
        Ok(number_of(decoded.source))
    }

    /// How many times U+FFFD stands in the page's text for bytes that could not be decoded. Refused
    /// as `Nothing` where the document wasn't read by `parse_bytes`.
    pub fn replaced(&self) -> Result<usize, Fault>
        ensures { IfOk result (λ count. MatchOption self.now.decoded ⊥
            (λ decoded. count ≡ decoded.replaced)) }
    {
        let decoded = self.decoded()?;
        Ok(decoded.replaced)
    }

    fn decoded(&self) -> Result<Decoded, Fault>
        ensures { IfOk result (λ decoded. self.now.decoded ≡ Some decoded) }
    {
        match self.decoded {
            Some(decoded) => Ok(decoded),
            None => Err(Fault::Nothing),
        }
    }
}

/// What is known of a page's encoding by the label that came with it; nothing if the label is
/// empty.
pub(crate) fn charset_of(label: &[u8]) -> Result<Charset, Fault>
    ensures fallback { IfOk result (λ charset. charset.fallback ≡ Guess) }
    ensures transport { IfOk result (λ charset. IsTransport label.now charset.transport) }
{
    if label.is_empty() {
        return Ok(Charset {
            transport: None,
            fallback: Fallback::Guess,
        });
    }
    match Encoding::for_label(label) {
        Some(encoding) => Ok(Charset {
            transport: Some(encoding),
            fallback: Fallback::Guess,
        }),
        None => Err(Fault::UnknownLabel),
    }
}

fn number_of(source: Confidence) -> usize
    ensures { result ≡ source_number source }
{
    match source {
        Confidence::Mark => 0,
        Confidence::Transport => 1,
        Confidence::Declared => 2,
        Confidence::Fallback => 3,
    }
}
