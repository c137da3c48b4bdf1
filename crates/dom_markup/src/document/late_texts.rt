//! A tree under construction whose longer texts are stored together.

ghost use Rattle.std.specs.Prelude.{◌≡◌, ◌<◌, ◌+◌, OnErr, OnOk, IfOk, length};
ghost use Rattle.dom_nodes.specs.declared.node_data.NodeData.TheVariants as contents;
ghost use Rattle.dom_links.specs.Contents.{with_content};
ghost use Rattle.dom_links.specs.Growth.{lone, with_child, with_template};
ghost use Rattle.dom_trees.specs.NewNodes.{element_with, text_node};
ghost use Rattle.dom_nodes.specs.Changes.{with_attrs, with_missing};
ghost use Rattle.dom_markup.specs.TreeUnderConstruction.{GrowsTo, MayGrowAt};
ghost use Rattle.dom_markup.specs.DeferredTexts.{joined, with_contents, with_texts};
ghost use Rattle.dom_markup.specs.Limits.{IsLimit, IsPlainData, limit_kind};

use dom_nodes::fault::{EditFault, MarkupFaultKind, OutOfMemory};
use dom_nodes::name::QualName;
use dom_nodes::node_data::{Attrs, NodeData, NodeEdit};
use dom_nodes::node_id::NodeId;
use dom_nodes::text::{Text, TextBlock};
use dom_trees::tree::Tree;
use std::alloc::Global;
use std::marker::Model;

/// How many bytes of text are collected at most before they are stored.
const ROOM: usize = 8192;

/// The shortest text that shares a block with others; a shorter one needs no allocation.
const SHORTEST: usize = 31;

/// The longest text that shares a block with others.
const LONGEST: usize = 1024;

/// A text node whose contents are stored later.
#[derive(Clone, Copy)]
struct Late<'a> {
    number: NodeId,
    text: &'a str,
}

/// A tree under construction. The contents of longer texts are collected first, and many are then
/// copied into one block that the texts share, which saves allocations. A contract sees the forest
/// in which each text already has its contents.
#[derive(Drop)]
pub struct DeferredTexts<'a> {
    tree: Tree,
    late: Vec<Late<'a>>,
    bytes: usize,
}

impl<'a> Model for DeferredTexts<'a> {
    ghost use Rattle.std.specs.Prelude.{length};
    ghost use Rattle.dom_links.specs.Forest.{Forest};
    ghost use Rattle.dom_markup.specs.DeferredTexts.{AreAmong, with_texts};

    ghost Value = { Forest };

    ghost view = { λ texts. with_texts texts.late.items texts.tree };

    ghost invariant = { λ texts. AreAmong (length texts.tree.content) texts.late.items };
}

impl<'a> DeferredTexts<'a> {
    /// Returns a document without children. Fails only when memory runs out.
    pub fn new(alloc: Global) -> Result<DeferredTexts<'a>, OutOfMemory>
        ensures { IfOk result (λ texts. texts ≡ lone contents.Document) }
    {
        let Ok(tree) = Tree::new(alloc, NodeData::Document) else {
            return Err(OutOfMemory);
        };
        Ok(DeferredTexts {
            tree,
            late: Vec::new(alloc),
            bytes: 0,
        })
    }

    /// Returns the allocator of the tree.
    pub fn allocator(&self) -> Global {
        self.tree.allocator()
    }

    /// Reserves room for `additional` more nodes, if there is memory for it.
    pub fn reserve(&mut self, additional: usize)
        ensures { self.new ≡ self.old }
    {
        self.tree.reserve(additional);
    }

    /// Makes a node as the last child of another and returns its id. Fails only with `TooManyNodes`
    /// or `Memory`.
    #[inline(always)]
    pub fn append(&mut self, parent: &NodeId, content: NodeData) -> Result<NodeId, MarkupFaultKind>
        requires may { MayGrowAt self.old parent.now }
        requires plain { IsPlainData content }
        ensures grows { GrowsTo result self.new (length self.old.content)
            (with_child parent.now content self.old) }
        ensures err { OnErr result (self.new ≡ self.old) }
    {
        match self.tree.append_child_data_of(parent, content) {
            Ok(number) => Ok(number),
            Err(fault) => Err(limit_of(fault)),
        }
    }

    /// Makes a template as the last child of a node, and returns the id of its contents fragment.
    /// Fails only with `TooManyNodes` or `Memory`.
    pub fn append_template(
        &mut self,
        parent: &NodeId,
        name: QualName,
        attrs: Attrs,
    ) -> Result<NodeId, MarkupFaultKind>
        requires { MayGrowAt self.old parent.now }
        ensures grows { let contents = length self.old.content + 1 in
            GrowsTo result self.new contents
            (with_template parent.now (element_with name attrs contents) self.old) }
        ensures err { OnErr result (self.new ≡ self.old) }
    {
        match self.tree.append_template_of(parent, name, attrs) {
            Ok((_, contents)) => Ok(contents),
            Err(fault) => Err(limit_of(fault)),
        }
    }

    /// Makes a text as the last child of a node and returns its id. Fails only with `TooManyNodes`
    /// or `Memory`.
    pub fn append_text(&mut self, parent: &NodeId, text: &'a str) -> Result<NodeId, MarkupFaultKind>
        requires { MayGrowAt self.old parent.now }
        ensures { GrowsTo result self.new (length self.old.content)
            (with_child parent.now (text_node text.now) self.old) }
    {
        if SHORTEST <= text.len() && text.len() <= LONGEST {
            return self.append_late(parent, text);
        }
        let Ok(contents) = Text::new(self.tree.allocator(), text) else {
            return Err(MarkupFaultKind::Memory);
        };
        self.append(parent, NodeData::Text { contents })
    }

    /// Makes a text as the last child of a node, whose contents are stored later.
    fn append_late(&mut self, parent: &NodeId, text: &'a str) -> Result<NodeId, MarkupFaultKind>
        requires { MayGrowAt self.old parent.now }
        ensures { GrowsTo result self.new (length self.old.content)
            (with_child parent.now (text_node text.now) self.old) }
    {
        let contents = Text::from(String::new(self.tree.allocator()));
        let number = self.append(parent, NodeData::Text { contents })?;
        let Ok(()) = self.late.push(Late { number, text }) else {
            return Err(MarkupFaultKind::Memory);
        };
        self.bytes = self.bytes.saturating_add(text.len());
        match self.settle_where_full() {
            Ok(()) => Ok(number),
            Err(_) => Err(MarkupFaultKind::Memory),
        }
    }

    /// Adds to the element those of the attributes whose names it doesn't have yet. Fails only when
    /// memory runs out.
    pub fn add_attrs(&mut self, number: &NodeId, attrs: Attrs) -> Result<(), OutOfMemory>
        ensures { OnOk result (self.new
            ≡ with_content number.now (with_attrs (with_missing attrs)) self.old) }
    {
        match self.tree.add_missing_attrs_of(number, attrs) {
            Ok(()) => Ok(()),
            Err(_) => Err(OutOfMemory),
        }
    }

    /// Stores the collected contents in their texts, if there is no room for another long text.
    fn settle_where_full(&mut self) -> Result<(), OutOfMemory>
        ensures { OnOk result (self.new ≡ self.old) }
    {
        if self.bytes <= ROOM - LONGEST {
            return Ok(());
        }
        let given = give(&mut self.tree, self.late.as_slice(), self.bytes);
        self.late.clear();
        self.bytes = 0;
        given
    }

    /// Returns the tree, in which each text has its contents. Fails only when memory runs out.
    pub fn finish(self) -> Result<Tree, OutOfMemory>
        ensures { IfOk result (λ tree. tree ≡ self.entry) }
    {
        let DeferredTexts {
            mut tree,
            late,
            bytes,
        } = self;
        give(&mut tree, late.as_slice(), bytes)?;
        Ok(tree)
    }
}

/// Returns the parser's fault for an edit that ran out of node ids or memory.
fn limit_of(fault: EditFault) -> MarkupFaultKind
    requires { IsLimit fault }
    ensures { result ≡ limit_kind fault }
{
    match fault {
        EditFault::TooManyNodes => MarkupFaultKind::TooManyNodes,
        EditFault::Memory => MarkupFaultKind::Memory,
        _ => unreachable!(),
    }
}

/// Returns one block with the texts, concatenated.
fn block_of(alloc: Global, late: &[Late], bytes: usize) -> Result<TextBlock, OutOfMemory>
    ensures texts { IfOk result (λ block. block ≡ joined late.now) }
    ensures fits { IfOk result (λ block. length block < 18446744073709551616) }
{
    let mut all = Vec::with_capacity(alloc, bytes)?;
    for one in late {
        all.extend_from_slice(one.text.as_bytes())?;
    }
    TextBlock::new(alloc, all)
}

/// Stores the contents of each waiting text in one block of `bytes` bytes, which the texts share.
fn give(tree: &mut Tree, late: &[Late], bytes: usize) -> Result<(), OutOfMemory>
    ensures { OnOk result (tree.new ≡ with_texts late.now tree.old) }
{
    if late.is_empty() {
        return Ok(());
    }
    let block = block_of(tree.allocator(), late, bytes)?;
    share(tree, late, &block)
}

/// Stores in each waiting text its part of the block.
fn share(tree: &mut Tree, late: &[Late], block: &TextBlock) -> Result<(), OutOfMemory>
    requires texts { block.now ≡ joined late.now }
    requires fits { length block.now < 18446744073709551616 }
    ensures { OnOk result (tree.new ≡ with_texts late.now tree.old) }
{
    let alloc = tree.allocator();
    let mut start = 0;
    for one in late {
        let contents = Text::within(alloc, block, start, one.text)?;
        set_contents(tree, &one.number, contents);
        start += one.text.len();
    }
    Ok(())
}

/// Replaces the contents of a text or a comment.
fn set_contents(tree: &mut Tree, number: &NodeId, contents: Text)
    ensures { tree.new ≡ with_content number.now (with_contents contents) tree.old }
{
    let change = move |edit: &mut NodeEdit|
        ensures { edit.new ≡ record edit.old { contents = contents } }
    {
        edit.contents = contents;
    };
    let _ = tree.update_node(number, change);
}
