//! Updates of a node by a closure, which may change its content but not its kind.

ghost use Rattle.std.specs.Prelude.{◌≡◌, []};
ghost use Rattle.std.specs.Fn.{FnOnceReturnsAtMut};

use super::{Attrs, Element, NodeData, TreeNode};
use crate::name::{LocalName, QualName};
use crate::text::Text;
use std::alloc::Global;
use std::mem;

/// What an update may change of a node: the name and the attributes of an element, or the contents
/// of a text or a comment. A field that the node doesn't have is empty before the update, and what
/// is put into it is dropped.
#[derive(Drop)]
pub struct NodeEdit {
    pub name: QualName,
    pub attrs: Attrs,
    pub contents: Text,
}

impl NodeEdit {
    ghost use Rattle.dom_nodes.specs.Updates.{empty_edit};

    /// Returns an empty edit: an empty name, no attributes, empty contents. It allocates no memory.
    pub fn new(alloc: Global) -> NodeEdit
        ensures { result ≡ empty_edit }
    {
        NodeEdit {
            name: QualName::plain(LocalName::empty()),
            attrs: Attrs::new(alloc),
            contents: empty_text(alloc),
        }
    }
}

impl Element {
    /// Replaces the element's name and returns the old one.
    #[inline(always)]
    pub(super) fn replace_name(&mut self, name: QualName) -> QualName
        ensures new { self.new ≡ record self.old { name = name } }
        ensures old { result ≡ self.old.name }
    {
        let contents = self.form.contents();
        let form = name.into_form().beside(self.form.flag(), contents);
        QualName::of_form(mem::replace(&mut self.form, form))
    }
}

impl NodeData {
    ghost use Rattle.dom_nodes.specs.Updates.{IsUpdated, edit_of, empty_edit, with_edit};

    /// Calls the closure with the name and the attributes of an element, or with the contents of a
    /// text or a comment, and stores what it leaves. The kind, the template contents and the flag
    /// stay. For other kinds of nodes nothing changes. The call allocates no memory, apart from
    /// what the closure itself does.
    pub fn update<F: FnOnce(&mut NodeEdit)>(&mut self, alloc: Global, change: F)
        requires { F.IsAlwaysCallable change }
        ensures { IsUpdated (λ edit left. FnOnceReturnsAtMut F.FnOnce change edit tt left)
            self.old self.new }
    {
        let mut edit = self.take_edit(alloc);
        apply(change, &mut edit);
        self.put_edit(edit);
    }

    /// Moves out the parts that an update may change, and leaves empty ones in the node. It
    /// allocates no memory.
    pub fn take_edit(&mut self, alloc: Global) -> NodeEdit
        ensures edit { result ≡ edit_of self.old }
        ensures node { self.new ≡ with_edit empty_edit self.old }
    {
        let mut edit = NodeEdit::new(alloc);
        match self {
            NodeData::Element(element) => {
                edit.name = element.replace_name(QualName::plain(LocalName::empty()));
                mem::swap(&mut element.attrs, &mut edit.attrs);
            }
            NodeData::Text { contents } => mem::swap(contents, &mut edit.contents),
            NodeData::Comment { contents } => mem::swap(contents, &mut edit.contents),
            _ => {}
        }
        edit
    }

    /// Moves in the parts that an update may change. Parts that the node doesn't have are dropped.
    pub fn put_edit(&mut self, edit: NodeEdit)
        ensures { self.new ≡ with_edit edit self.old }
    {
        let NodeEdit {
            name,
            attrs,
            contents: changed,
        } = edit;
        match self {
            NodeData::Element(element) => {
                element.set_name(name);
                element.set_attrs(attrs);
            }
            NodeData::Text { contents } => *contents = changed,
            NodeData::Comment { contents } => *contents = changed,
            _ => {}
        }
    }
}

impl TreeNode {
    ghost use Rattle.dom_nodes.specs.Updates.{IsUpdated};

    /// Calls the closure with the parts of the node that it may change, as `NodeData::update` does.
    /// The id and the links stay.
    pub fn update<F: FnOnce(&mut NodeEdit)>(&mut self, alloc: Global, change: F)
        requires { F.IsAlwaysCallable change }
        ensures content { IsUpdated (λ edit left. FnOnceReturnsAtMut F.FnOnce change edit tt left)
            self.old.content self.new.content }
        ensures links { self.new ≡ record self.old { content = self.new.content } }
    {
        self.content.update(alloc, change);
    }
}

fn apply<F: FnOnce(&mut NodeEdit)>(change: F, edit: &mut NodeEdit)
    requires { F.IsAlwaysCallable change }
    ensures { FnOnceReturnsAtMut F.FnOnce change edit.old tt edit.new }
{
    change(edit);
}

fn empty_text(alloc: Global) -> Text
    ensures { result ≡ [] }
{
    Text::from(String::new(alloc))
}
