//! What a handle holds, how it is made, and how answers leave it.

ghost use Rattle.std.specs.Prelude.{◌≡◌, ◌<◌, IfErr, IfOk, length, string_bytes, take};
ghost use Rattle.dom_markup.specs.Documents.{IsDocumentOf};
ghost use Rattle.calm_pages.specs.Calm.{ReadsCalm};
ghost use Rattle.page_trees.specs.Shape.{IsPage};
ghost use Rattle.c_state.specs.Answers.{Forgets};
ghost use Rattle.c_state.specs.declared.fault.Fault.TheVariants.{NoNode};

use crate::bytes::{as_text, copy_bytes, copy_numbers};
use crate::decoding::Decoded;
use crate::fault::Fault;
use crate::pieces::Pieces;
use dom_query::prelude::*;
use dom_query::{Context, Options, parse_page_bytes, parse_page_fragment};
use std::alloc::Global;

/// A document, how its bytes were decoded if `parse_bytes` read it, and what the last questions
/// found: nodes, a text, and the lengths of the pieces that the text is made of.
#[derive(Drop)]
pub struct State {
    pub document: Document,
    pub decoded: Option<Decoded>,
    pub ids: Vec<NodeId>,
    pub text: String,
    pub lengths: Vec<u32>,
}

impl State {
    pub(crate) fn of(alloc: Global, document: Document) -> State
        ensures { result.document ≡ document }
    {
        State {
            document,
            decoded: None,
            ids: Vec::new(alloc),
            text: String::new(alloc),
            lengths: Vec::new(alloc),
        }
    }

    /// The document that explicit markup describes, as `Document::parse` reads it.
    pub fn parse(alloc: Global, html: &[u8]) -> Result<State, Fault>
        ensures { IfOk result (λ state. IsDocumentOf html.now state.document) }
    {
        let html = as_text(html)?;
        let document = Document::parse(alloc, html)?;
        Ok(State::of(alloc, document))
    }

    /// The document of a page, as browsers read it. Elements nest as deep as `max_depth` says; 0 is
    /// no limit.
    pub fn parse_page(alloc: Global, html: &[u8], max_depth: usize) -> Result<State, Fault>
        ensures { IfOk result (λ state. IsPage state.document.tree) }
    {
        let document = parse_page_bytes(alloc, html, options_of(max_depth))?;
        Ok(State::of(alloc, document))
    }

    /// The document of a fragment of a page, as browsers read it inside an HTML element of that
    /// name.
    pub fn parse_fragment(alloc: Global, html: &[u8], context: &[u8]) -> Result<State, Fault> {
        let html = as_text(html)?;
        let context = Context::Html(as_text(context)?);
        let document = parse_page_fragment(alloc, html, context, options_of(0))?;
        Ok(State::of(alloc, document))
    }

    /// The node of that number. Refused as `NoNode`.
    pub(crate) fn node(&self, number: u32) -> Result<NodeId, Fault>
        ensures ok { IfOk result (λ id. id ≡ number) }
        ensures known { IfOk result (λ _. number < length self.now.document.tree.content) }
        ensures err { IfErr result (λ fault. fault ≡ NoNode) }
    {
        match NodeId::new(number as usize) {
            Some(id) => {
                if id.value() < self.document.tree.len() {
                    Ok(id)
                } else {
                    Err(Fault::NoNode)
                }
            }
            None => Err(Fault::NoNode),
        }
    }

    /// The element of that number. Refused as `NoNode`, and as `Kind` for another node.
    pub(crate) fn element(&self, number: u32) -> Result<NodeId, Fault>
        ensures ok { IfOk result (λ id. id ≡ number) }
        ensures known { IfOk result (λ _. number < length self.now.document.tree.content) }
    {
        let id = self.node(number)?;
        if self.document.tree.get_unchecked(&id).is_element() {
            Ok(id)
        } else {
            Err(Fault::Kind)
        }
    }

    /// The element or the text of that number. Refused as `NoNode`, and as `Kind` for another node.
    pub(crate) fn element_or_text(&self, number: u32) -> Result<NodeId, Fault>
        ensures ok { IfOk result (λ id. id ≡ number) }
        ensures known { IfOk result (λ _. number < length self.now.document.tree.content) }
    {
        let id = self.node(number)?;
        let node = self.document.tree.get_unchecked(&id);
        if node.is_element() {
            return Ok(id);
        }
        if node.is_text() {
            return Ok(id);
        }
        Err(Fault::Kind)
    }

    /// How many nodes were found last. As many numbers are written as there is room for.
    pub fn write_ids(&self, to: &mut [u32]) -> usize
        ensures count { result ≡ length self.now.ids.items }
        ensures written { take result to.new ≡ take (length to.old) self.now.ids.items }
    {
        let count = self.ids.len().min(to.len());
        for i in 0..count {
            to[i] = self.ids[i].value() as u32;
        }
        self.ids.len()
    }

    /// The length of the text that was taken last. As much is written as there is room for.
    pub fn write_text(&self, to: &mut [u8]) -> usize
        ensures count { result ≡ length (string_bytes self.now.text) }
        ensures written { take result to.new ≡ take (length to.old) (string_bytes self.now.text) }
    {
        copy_bytes(self.text.as_bytes(), to);
        self.text.len()
    }

    /// How many pieces the text has that was taken last. As many lengths are written as there is
    /// room for.
    pub fn write_lengths(&self, to: &mut [u32]) -> usize
        ensures count { result ≡ length self.now.lengths.items }
        ensures written { take result to.new ≡ take (length to.old) self.now.lengths.items }
    {
        copy_numbers(self.lengths.as_slice(), to);
        self.lengths.len()
    }

    /// Gives back the memory of what the last questions found.
    pub fn forget(&mut self) -> Result<usize, Fault>
        ensures { Forgets result self.old self.new }
    {
        let alloc = self.document.tree.allocator();
        self.text = String::new(alloc);
        self.ids = Vec::new(alloc);
        self.lengths = Vec::new(alloc);
        Ok(0)
    }

    /// Keeps a text, and answers with it.
    pub(crate) fn keep(&mut self, text: String, to: &mut [u8]) -> usize
        ensures document { self.new.document ≡ self.old.document }
        ensures text { string_bytes self.new.text ≡ string_bytes text }
        ensures count { result ≡ length (string_bytes text) }
        ensures written { take result to.new ≡ take (length to.old) (string_bytes text) }
    {
        self.text = text;
        self.write_text(to)
    }

    /// Keeps several texts, and answers with their count.
    pub(crate) fn keep_pieces(&mut self, pieces: Pieces) -> usize
        ensures document { self.new.document ≡ self.old.document }
        ensures text { string_bytes self.new.text ≡ string_bytes pieces.text }
        ensures lengths { self.new.lengths.items ≡ pieces.lengths.items }
        ensures count { result ≡ length pieces.lengths.items }
    {
        let Pieces { text, lengths } = pieces;
        self.text = text;
        self.lengths = lengths;
        self.lengths.len()
    }
}

/// How a page is read.
pub(crate) fn options_of(max_depth: usize) -> Options
    ensures { max_depth ≡ 0 → ReadsCalm result }
{
    if max_depth > 0 {
        return Options {
            scripting: false,
            max_depth: Some(max_depth),
            errors: false,
        };
    }
    Options {
        scripting: false,
        max_depth: None,
        errors: false,
    }
}
