//! HTML serialization of a tree, to a writer or into a string. Start at `NodeMarkup`.

ghost use Rattle.std.specs.Prelude.{◌≡◌, IfOk, IfSome};
ghost use Rattle.dom_markup.specs.Html.{html_of, inner_html_of};
ghost use Rattle.dom_markup.specs.Plain.{IsPlain};
ghost use Rattle.dom_markup.specs.ReadingBack.{SpellsDocument};
ghost use Rattle.dom_markup.specs.Writing.{IsText, Writes};

use crate::laws::plain::plain_documents_are_spelled;
use crate::serializing::edges::{put_children, put_node};
pub use crate::writing::WriteFault;
use crate::writing::{ToText, ToWriter};
use dom_nodes::fault::OutOfMemory;
use dom_trees::node_ref::NodeRef;
use dom_trees::tree::Tree;
use std::io::Write;

mod edges;
mod tags;

/// Whether a node is written with its own tags, or only its content.
#[derive(Clone, Copy, PartialEq, Eq, Debug, Drop)]
pub enum TraversalScope {
    IncludeNode,
    ChildrenOnly,
}

/// Serialization of a node as HTML.
pub trait NodeMarkup {
    ghost use Rattle.dom_links.specs.Forest.{Forest};
    ghost use Rattle.dom_markup.specs.ReadingBack.{SpellsPlainRoot};
    ghost use Rattle.std.specs.Prelude.{ℕ};

    // The forest of the node's tree.
    ghost forest: { Self → Forest };

    // The node's id.
    ghost number: { Self → ℕ };

    /// Writes the node's HTML, or that of its children alone; nothing if the tree has no such node.
    /// After an error, a beginning of the HTML is written. Fails with `Write` if the writer failed,
    /// was interrupted or accepted no bytes, and with `Memory` if memory runs out.
    fn write_html<W: Write>(&self, scope: TraversalScope, w: &mut W) -> Result<(), WriteFault>
        ensures { Writes (W.contents w.old) (W.contents w.new) result
            (html_in scope (forest self.now) (number self.now)) };

    /// Returns the node's HTML; empty if the tree has no such node. If the node is the root of a
    /// plain document, `Document::parse` reads the HTML as the same tree. Fails only when memory
    /// runs out.
    fn html(&self) -> Result<String, OutOfMemory>
        ensures text { IfOk result (IsText (html_of (forest self.now) (number self.now))) }
        ensures spelled { IfOk result (SpellsPlainRoot (forest self.now) (number self.now)) };

    /// Returns the HTML of the node's children; empty if the tree has no such node. If the node is
    /// the root of a plain document, `Document::parse` reads the HTML as the same tree. Fails only
    /// when memory runs out.
    fn inner_html(&self) -> Result<String, OutOfMemory>
        ensures text { IfOk result (IsText (inner_html_of (forest self.now) (number self.now))) }
        ensures spelled { IfOk result (SpellsPlainRoot (forest self.now) (number self.now)) };

    /// Returns the node's HTML, like `html`, or `None` if memory runs out.
    fn try_html(&self) -> Option<String>
        ensures text { IfSome result (IsText (html_of (forest self.now) (number self.now))) }
        ensures spelled { IfSome result (SpellsPlainRoot (forest self.now) (number self.now)) };

    /// Returns the HTML of the node's children, like `inner_html`, or `None` if memory runs out.
    fn try_inner_html(&self) -> Option<String>
        ensures text { IfSome result (IsText (inner_html_of (forest self.now) (number self.now))) }
        ensures spelled { IfSome result (SpellsPlainRoot (forest self.now) (number self.now)) };
}

ghost use Rattle.dom_markup.specs.Scopes.{html_in};

impl<'a> NodeMarkup for NodeRef<'a> {
    ghost forest = { λ node. node.tree.now };

    ghost number = { λ node. node.id };

    fn write_html<W: Write>(&self, scope: TraversalScope, w: &mut W) -> Result<(), WriteFault> {
        match scope {
            TraversalScope::IncludeNode => put_node::<ToWriter, W>(self.tree, self.id, w),
            TraversalScope::ChildrenOnly => put_children::<ToWriter, W>(self.tree, self.id, w),
        }
    }

    fn html(&self) -> Result<String, OutOfMemory> {
        plain_html_spells(self.tree);
        let mut text = String::new(self.tree.allocator());
        put_node::<ToText, String>(self.tree, self.id, &mut text)?;
        Ok(text)
    }

    fn inner_html(&self) -> Result<String, OutOfMemory> {
        plain_html_spells(self.tree);
        let mut text = String::new(self.tree.allocator());
        put_children::<ToText, String>(self.tree, self.id, &mut text)?;
        Ok(text)
    }

    fn try_html(&self) -> Option<String> {
        self.html().ok()
    }

    fn try_inner_html(&self) -> Option<String> {
        self.inner_html().ok()
    }
}

/// The HTML of a plain document is markup for the same tree. The function does nothing at run time:
/// the calls in it bring the `ensures` clauses of laws into its proof.
fn plain_html_spells(tree: &Tree)
    ensures root { IsPlain tree.now → SpellsDocument (html_of tree.now 0) tree.now }
    ensures children { IsPlain tree.now → SpellsDocument (inner_html_of tree.now 0) tree.now }
{
    tree.nodes();
    plain_documents_are_spelled();
}

/// A node reference that can be serialized.
#[derive(Clone, Copy)]
pub struct SerializableNodeRef<'a>(pub NodeRef<'a>);

impl<'a> From<NodeRef<'a>> for SerializableNodeRef<'a> {
    ghost from_gives = { λ node made. made ≡ record { 0 = node } };

    fn from(node: NodeRef<'a>) -> SerializableNodeRef<'a> {
        SerializableNodeRef(NodeRef::new(node.id, node.tree))
    }
}

impl<'a> SerializableNodeRef<'a> {
    /// Writes the node's HTML, or that of its children alone, as `NodeMarkup::write_html` does, and
    /// fails as it does.
    pub fn serialize<W: Write>(&self, scope: TraversalScope, w: &mut W) -> Result<(), WriteFault>
        ensures { Writes (W.contents w.old) (W.contents w.new) result
            (html_in scope self.now.0.tree.now self.now.0.id) }
    {
        self.0.write_html(scope, w)
    }
}
