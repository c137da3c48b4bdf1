//! Questions to one node. A text is kept, its length is the answer, and as much is written as there
//! is room for.

ghost use Rattle.std.specs.Prelude.{◌≡◌, IfOk, Some, string_bytes, ⊤};
ghost use Rattle.std.specs.List.{flat_map};
ghost use Rattle.dom_links.specs.Texts.{text_of};
ghost use Rattle.dom_markup.specs.Html.{html_of, inner_html_of};
ghost use Rattle.dom_md.specs.Formatted.{formatted_below};
ghost use Rattle.dom_md.specs.Words.{ReadsAsWords};
ghost use Rattle.dom_nodes.specs.Kinds.{contents_named};
ghost use Rattle.dom_nodes.specs.Words.{class_words, words_of};
ghost use Rattle.dom_trees.specs.Views.{node_attr, node_attrs, node_name};
ghost use Rattle.c_state.specs.Answers.{GivesText, GivesTextThat};
ghost use Rattle.c_state.specs.KindNumbers.{HasContents, HasKind, kind_number};
ghost use Rattle.c_state.specs.Pieces.{GivesPieces, HoldsPieces, attr_pieces};

use crate::bytes::as_text;
use crate::fault::Fault;
use crate::pieces::Pieces;
use crate::state::State;
use dom_commonmark::options::Options;
use dom_commonmark::writer::commonmark;
use dom_query::prelude::*;
use dom_query::{Attr, NodeData, NodeMd};
use std::alloc::Global;

impl State {
    /// The texts at the node and below it, joined.
    pub fn take_text(&mut self, node: u32, to: &mut [u8]) -> Result<usize, Fault>
        ensures { GivesText result self.old self.new to.old to.new
            (text_of self.old.document.tree node) }
    {
        let node = self.node(node)?;
        let text = self.document.tree.get_unchecked(&node).text()?;
        Ok(self.keep(text, to))
    }

    /// The node's HTML.
    pub fn take_html(&mut self, node: u32, to: &mut [u8]) -> Result<usize, Fault>
        ensures { GivesText result self.old self.new to.old to.new
            (html_of self.old.document.tree node) }
    {
        let node = self.node(node)?;
        let text = self.document.tree.get_unchecked(&node).html()?;
        Ok(self.keep(text, to))
    }

    /// The HTML of the node's children.
    pub fn take_inner_html(&mut self, node: u32, to: &mut [u8]) -> Result<usize, Fault>
        ensures { GivesText result self.old self.new to.old to.new
            (inner_html_of self.old.document.tree node) }
    {
        let node = self.node(node)?;
        let text = self.document.tree.get_unchecked(&node).inner_html()?;
        Ok(self.keep(text, to))
    }

    /// The node as Markdown that readers show as the page.
    pub fn take_markdown(&mut self, node: u32, to: &mut [u8]) -> Result<usize, Fault>
        ensures { GivesTextThat result self.old self.new to.old to.new (λ _. ⊤) }
    {
        let node = self.node(node)?;
        let alloc = self.document.tree.allocator();
        let node = self.document.tree.get_unchecked(&node);
        let text = commonmark(alloc, &node, &Options::new())?;
        Ok(self.keep(text, to))
    }

    /// The node's Markdown as the Rust crate writes it.
    pub fn take_md(&mut self, node: u32, to: &mut [u8]) -> Result<usize, Fault>
        ensures { GivesTextThat result self.old self.new to.old to.new
            (ReadsAsWords self.old.document.tree node) }
    {
        let node = self.node(node)?;
        let text = self.document.tree.get_unchecked(&node).md(None)?;
        Ok(self.keep(text, to))
    }

    /// The node's text with its blocks on lines of their own.
    pub fn take_formatted_text(&mut self, node: u32, to: &mut [u8]) -> Result<usize, Fault>
        ensures { GivesText result self.old self.new to.old to.new
            (formatted_below self.old.document.tree node) }
    {
        let node = self.node(node)?;
        let text = self.document.tree.get_unchecked(&node).formatted_text()?;
        Ok(self.keep(text, to))
    }

    /// The local name of an element. Refused as `Nothing` for any other node.
    pub fn take_name(&mut self, node: u32, to: &mut [u8]) -> Result<usize, Fault>
        ensures { GivesTextThat result self.old self.new to.old to.new
            (λ text. Some (string_bytes text) ≡ node_name self.old.document.tree node) }
    {
        let node = self.node(node)?;
        let mut copy = String::new(self.document.tree.allocator());
        match self.document.tree.get_unchecked(&node).node_name() {
            Some(name) => copy.push_str(name)?,
            None => return Err(Fault::Nothing),
        }
        Ok(self.keep(copy, to))
    }

    /// The value of an attribute. Refused as `Nothing` where there is none of that name.
    pub fn take_attr(&mut self, node: u32, name: &[u8], to: &mut [u8]) -> Result<usize, Fault>
        ensures { GivesTextThat result self.old self.new to.old to.new
            (λ text. Some (string_bytes text) ≡ node_attr self.old.document.tree node name.now) }
    {
        let node = self.node(node)?;
        let name = as_text(name)?;
        let mut copy = String::new(self.document.tree.allocator());
        match self.document.tree.get_unchecked(&node).attr(name) {
            Some(value) => copy.push_str(value)?,
            None => return Err(Fault::Nothing),
        }
        Ok(self.keep(copy, to))
    }

    /// The attributes: a name and its value, by turns. The answer is the count of both together.
    pub fn take_attrs(&mut self, node: u32) -> Result<usize, Fault>
        ensures { GivesPieces result self.old self.new Some
            (λ pieces. pieces ≡ flat_map attr_pieces (node_attrs self.old.document.tree node)) }
    {
        let node = self.node(node)?;
        let attrs = self.document.tree.get_unchecked(&node).attrs();
        let pieces = pieces_of_attrs(self.document.tree.allocator(), attrs)?;
        Ok(self.keep_pieces(pieces))
    }

    /// The words of the attribute `class`.
    pub fn take_classes(&mut self, node: u32) -> Result<usize, Fault>
        ensures { GivesPieces result self.old self.new Some
            (λ pieces. pieces ≡ class_words (node_attrs self.old.document.tree node)) }
    {
        let node = self.node(node)?;
        let alloc = self.document.tree.allocator();
        let pieces = match self.document.tree.get_unchecked(&node).class() {
            Some(class) => pieces_of_words(alloc, class)?,
            None => Pieces::new(alloc),
        };
        Ok(self.keep_pieces(pieces))
    }

    /// The kind of the node, by the numbers of the DOM's `nodeType`.
    pub fn kind(&self, node: u32) -> Result<usize, Fault>
        ensures { IfOk result (λ kind. HasKind self.now.document.tree node kind) }
    {
        let node = self.node(node)?;
        match self.document.tree.tree_node(&node) {
            Some(node) => Ok(kind_of(&node.content)),
            None => Err(Fault::NoNode),
        }
    }

    /// The fragment that holds the contents of a template: its number. Refused as `Nothing` for any
    /// other node, and for a template that has none.
    pub fn contents(&self, node: u32) -> Result<usize, Fault>
        ensures { IfOk result (λ found. HasContents self.now.document.tree node found) }
    {
        let node = self.node(node)?;
        match self.document.tree.tree_node(&node) {
            Some(node) => contents_of(&node.content),
            None => Err(Fault::NoNode),
        }
    }
}

fn contents_of(content: &NodeData) -> Result<usize, Fault>
    ensures { IfOk result (λ found. contents_named content.now ≡ Some found) }
{
    match content.template_contents() {
        Some(contents) => Ok(contents.value()),
        None => Err(Fault::Nothing),
    }
}

fn pieces_of_attrs(alloc: Global, attrs: &[Attr]) -> Result<Pieces, Fault>
    ensures { IfOk result (HoldsPieces Some (flat_map attr_pieces attrs.now)) }
{
    let mut pieces = Pieces::new(alloc);
    for attr in attrs {
        pieces.push(attr.name.local().as_str())?;
        pieces.push(attr.value.as_str())?;
    }
    Ok(pieces)
}

fn pieces_of_words(alloc: Global, text: &str) -> Result<Pieces, Fault>
    ensures { IfOk result (HoldsPieces Some (words_of text.now)) }
{
    let mut pieces = Pieces::new(alloc);
    for word in text.split_ascii_whitespace() {
        pieces.push(word)?;
    }
    Ok(pieces)
}

/// The number that the DOM gives a kind of nodes.
fn kind_of(content: &NodeData) -> usize
    ensures { result ≡ kind_number content.now }
{
    match content {
        NodeData::Element(_) => 1,
        NodeData::Text { .. } => 3,
        NodeData::ProcessingInstruction { .. } => 7,
        NodeData::Comment { .. } => 8,
        NodeData::Document => 9,
        NodeData::Doctype { .. } => 10,
        NodeData::Fragment => 11,
    }
}
