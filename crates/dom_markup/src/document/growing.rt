//! The tree under construction while markup is parsed.

ghost use Rattle.std.specs.Prelude.{◌≡◌, ◌+◌, ◌++◌, OnErr, OnOk, IfOk, length};
ghost use Rattle.dom_nodes.specs.Changes.{with_attrs, with_missing};
ghost use Rattle.dom_nodes.specs.declared.node_data.NodeData.TheVariants as contents;
ghost use Rattle.dom_links.specs.Contents.{with_content};
ghost use Rattle.dom_links.specs.Growth.{lone, with_child, with_template};
ghost use Rattle.dom_trees.specs.NewNodes.{bare_element, element_with, text_node};
ghost use Rattle.dom_markup.specs.TreeUnderConstruction.{GrowsTo, MayGrowAt, plain_element, with_lists};
ghost use Rattle.dom_markup.specs.Limits.{IsPlainData};

use crate::document::late_texts::DeferredTexts;
use dom_nodes::fault::{MarkupFaultKind, OutOfMemory};
use dom_nodes::name::{Attr, QualName};
use dom_nodes::node_data::{Attrs, Element, NodeData, take_all};
use dom_nodes::node_id::NodeId;
use dom_trees::tree::Tree;
use std::alloc::Global;
use std::marker::Model;
use std::mem;
use std::rc::Rc;

/// The longest shared list of attributes before it is handed out to the elements.
const ROOM: usize = 512;

/// An element whose attributes are stored later: its node id, and its range in the shared list.
#[derive(Clone, Copy)]
struct PendingText {
    number: NodeId,
    from: usize,
    to: usize,
}

/// A tree under construction. The attributes of an element with one or two are collected in one
/// list first, and many elements then share that list, which saves allocations. A contract sees the
/// forest in which each element already has its attributes.
#[derive(Drop)]
pub struct TreeUnderConstruction<'a> {
    tree: DeferredTexts<'a>,
    attrs: Vec<Attr>,
    waiting: Vec<PendingText>,
}

impl<'a> Model for TreeUnderConstruction<'a> {
    ghost use Rattle.std.specs.Prelude.{length};
    ghost use Rattle.dom_links.specs.Forest.{Forest};
    ghost use Rattle.dom_markup.specs.TreeUnderConstruction.{AreKnown, with_lists};

    ghost Value = { Forest };

    ghost view = { λ growing. with_lists growing.attrs.items growing.waiting.items growing.tree };

    ghost invariant = { λ growing. AreKnown (length growing.tree.content)
        (length growing.attrs.items) growing.waiting.items };
}

impl<'a> TreeUnderConstruction<'a> {
    /// Returns a document without children. Fails only when memory runs out.
    pub fn new(alloc: Global) -> Result<TreeUnderConstruction<'a>, OutOfMemory>
        ensures { IfOk result (λ growing. growing ≡ lone contents.Document) }
    {
        Ok(TreeUnderConstruction {
            tree: DeferredTexts::new(alloc)?,
            attrs: Vec::new(alloc),
            waiting: Vec::new(alloc),
        })
    }

    /// Reserves room for `additional` more nodes, if there is memory for it.
    pub fn reserve(&mut self, additional: usize)
        ensures { self.new ≡ self.old }
    {
        self.tree.reserve(additional);
    }

    /// Makes a node as the last child of another and returns its id. Fails only with `TooManyNodes`
    /// or `Memory`.
    #[inline(always)]
    pub fn append(&mut self, parent: &NodeId, content: NodeData) -> Result<NodeId, MarkupFaultKind>
        requires may { MayGrowAt self.old parent.now }
        requires plain { IsPlainData content }
        ensures { GrowsTo result self.new (length self.old.content)
            (with_child parent.now content self.old) }
    {
        self.tree.append(parent, content)
    }

    /// Makes a text as the last child of a node and returns its id. Fails only with `TooManyNodes`
    /// or `Memory`.
    #[inline(always)]
    pub fn append_text(&mut self, parent: &NodeId, text: &'a str) -> Result<NodeId, MarkupFaultKind>
        requires { MayGrowAt self.old parent.now }
        ensures { GrowsTo result self.new (length self.old.content)
            (with_child parent.now (text_node text.now) self.old) }
    {
        match self.tree.append_text(parent, text) {
            Ok(number) => Ok(number),
            Err(kind) => {
                self.waiting.clear();
                Err(kind)
            }
        }
    }

    /// Makes a template as the last child of a node, and returns the id of its contents fragment.
    /// The attributes are moved out of the list. Fails only with `TooManyNodes` or `Memory`.
    pub fn append_template(
        &mut self,
        parent: &NodeId,
        name: QualName,
        attrs: &mut Vec<Attr>,
    ) -> Result<NodeId, MarkupFaultKind>
        requires { MayGrowAt self.old parent.now }
        ensures { let contents = length self.old.content + 1 in
            GrowsTo result self.new contents
            (with_template parent.now (element_with name attrs.old.items contents) self.old) }
    {
        let alloc = self.tree.allocator();
        let Ok(attrs) = take_all(alloc, attrs) else {
            return Err(MarkupFaultKind::Memory);
        };
        self.tree.append_template(parent, name, attrs)
    }

    /// Makes an element as the last child of a node, and returns its id. The attributes are moved
    /// out of the list. Fails only with `TooManyNodes` or `Memory`.
    pub fn append_element(
        &mut self,
        parent: &NodeId,
        name: QualName,
        attrs: &mut Vec<Attr>,
    ) -> Result<NodeId, MarkupFaultKind>
        requires { MayGrowAt self.old parent.now }
        ensures { GrowsTo result self.new (length self.old.content)
            (with_child parent.now (plain_element name attrs.old.items) self.old) }
    {
        if attrs.is_empty() {
            let bare = bare_of(self.tree.allocator(), name);
            return self.append(parent, bare);
        }
        if attrs.len() <= 2 {
            return self.append_waiting(parent, name, attrs);
        }
        let Ok(attrs) = take_all(self.tree.allocator(), attrs) else {
            return Err(MarkupFaultKind::Memory);
        };
        self.append(parent, element_of(name, attrs))
    }

    /// Makes an element as the last child of a node, whose attributes go to the shared list for
    /// now.
    fn append_waiting(
        &mut self,
        parent: &NodeId,
        name: QualName,
        attrs: &mut Vec<Attr>,
    ) -> Result<NodeId, MarkupFaultKind>
        requires { MayGrowAt self.old parent.now }
        ensures { GrowsTo result self.new (length self.old.content)
            (with_child parent.now (plain_element name attrs.old.items) self.old) }
    {
        let bare = bare_of(self.tree.allocator(), name);
        let number = self.append(parent, bare)?;
        let from = self.attrs.as_slice().len();
        let Ok(()) = move_behind(&mut self.attrs, attrs) else {
            return Err(MarkupFaultKind::Memory);
        };
        let to = self.attrs.as_slice().len();
        let Ok(()) = self.waiting.push(PendingText { number, from, to }) else {
            return Err(MarkupFaultKind::Memory);
        };
        match self.settle_where_full() {
            Ok(()) => Ok(number),
            Err(_) => Err(MarkupFaultKind::Memory),
        }
    }

    /// Stores the collected attributes in their elements, if the list has no room for two more.
    fn settle_where_full(&mut self) -> Result<(), OutOfMemory>
        ensures { OnOk result (self.new ≡ self.old) }
    {
        if self.attrs.as_slice().len() <= ROOM - 2 {
            return Ok(());
        }
        let next = Vec::with_capacity(self.tree.allocator(), ROOM)?;
        let attrs = mem::replace(&mut self.attrs, next);
        let given = give(&mut self.tree, attrs, self.waiting.as_slice());
        self.waiting.clear();
        given
    }

    /// Returns the tree, in which each element has its attributes. Fails only when memory runs out.
    pub fn finish(self) -> Result<Tree, OutOfMemory>
        ensures { IfOk result (λ tree. tree ≡ self.entry) }
    {
        let TreeUnderConstruction {
            mut tree,
            mut attrs,
            waiting,
        } = self;
        attrs.shrink_to_fit();
        give(&mut tree, attrs, waiting.as_slice())?;
        tree.finish()
    }
}

/// Returns an element without template contents.
#[inline(always)]
fn element_of(name: QualName, attrs: Attrs) -> NodeData
    ensures is { result ≡ plain_element name attrs }
    ensures plain { IsPlainData result }
{
    NodeData::Element(Element::new(name, attrs, None, false))
}

/// Returns an element without attributes and template contents.
#[inline(always)]
fn bare_of(alloc: Global, name: QualName) -> NodeData
    ensures is { result ≡ bare_element name }
    ensures plain { IsPlainData result }
{
    element_of(name, Attrs::new(alloc))
}

/// Moves all attributes to the end of `list`. A list that has no memory yet takes over the memory
/// of `attrs`.
fn move_behind(list: &mut Vec<Attr>, attrs: &mut Vec<Attr>) -> Result<(), OutOfMemory>
    ensures ok { OnOk result (list.new.items ≡ list.old.items ++ attrs.old.items) }
    ensures err { OnErr result (list.new.items ≡ list.old.items) }
{
    if list.is_empty() && list.capacity() == 0 {
        mem::swap(list, attrs);
        return Ok(());
    }
    list.append(attrs)?;
    Ok(())
}

/// Stores in each waiting element its range of the attributes; the elements share the list.
fn give(
    tree: &mut DeferredTexts<'_>,
    attrs: Vec<Attr>,
    waiting: &[PendingText],
) -> Result<(), OutOfMemory>
    ensures { OnOk result (tree.new ≡ with_lists attrs.items waiting.now tree.old) }
{
    if waiting.is_empty() {
        return Ok(());
    }
    let alloc = tree.allocator();
    let list = Rc::new(alloc, attrs)?;
    for one in waiting {
        let part = Attrs::part(alloc, &list, one.from, one.to)?;
        tree.add_attrs(&one.number, part)?;
    }
    Ok(())
}
