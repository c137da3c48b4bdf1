//! Editing a tree by markup, which is parsed and inserted. The methods are named as those of
//! `NodeRef` in the crate dom_query; the markup here has to be explicit markup, as
//! `Document::parse` reads it.

ghost use Rattle.std.specs.Prelude.{◌≡◌, IfErr, IfOk};
ghost use Rattle.dom_links.specs.declared.gap.Place.TheVariants.{After, Around, AtEnd, AtFront};
ghost use Rattle.dom_links.specs.declared.gap.Place.TheVariants.{Before, InsteadOfChildren};
ghost use Rattle.dom_markup.specs.Documents.{IsSpelled};
ghost use Rattle.dom_markup.specs.Setters.{EditsByHtml, ReadCause, named_edit, PutsHtml};
ghost use Rattle.dom_markup.specs.Setters.{replacing_by};

use crate::document::snippet::Snippet;
use dom_links::gap::Place;
use dom_nodes::fault::{EditFault, MarkupFault, MarkupFaultKind};
use dom_trees::node_mut::NodeMut;

/// Edits of a node's tree by markup. The markup is parsed first, as `Document::parse` does; then
/// its top-level nodes, without doctypes, are inserted with their descendants. The new nodes get
/// the next ids of the tree in document order, the contents of a template before its children.
///
/// Every call fails with `Markup` if the text is not markup; with `UnknownNode`; with
/// `NoChildrenHere` or `RootOrFragment` if nothing can be inserted at that place, even when the
/// markup is empty; and with `TooManyNodes` or `Memory`. After an error the tree is as it was.
pub trait NodeMutMarkup {
    ghost use Rattle.dom_trees.specs.declared.node_mut.NodeMut.{NodeMut};

    // The node, with its tree.
    ghost node: { Self → NodeMut };

    /// Replaces the children of the node by the markup. The old children are detached and stay
    /// siblings.
    fn set_html(&mut self, html: &str) -> Result<(), EditFault>
        ensures { PutsHtml InsteadOfChildren html.now (node self.old) (node self.new) result };

    /// Inserts the markup after the last child of the node.
    fn append_html(&mut self, html: &str) -> Result<(), EditFault>
        ensures { PutsHtml AtEnd html.now (node self.old) (node self.new) result };

    /// Inserts the markup before the first child of the node.
    fn prepend_html(&mut self, html: &str) -> Result<(), EditFault>
        ensures { PutsHtml AtFront html.now (node self.old) (node self.new) result };

    /// Inserts the markup right before the node, as its siblings.
    fn before_html(&mut self, html: &str) -> Result<(), EditFault>
        ensures { PutsHtml Before html.now (node self.old) (node self.new) result };

    /// Inserts the markup right after the node, as its siblings.
    fn after_html(&mut self, html: &str) -> Result<(), EditFault>
        ensures { PutsHtml After html.now (node self.old) (node self.new) result };

    /// Replaces the node by the markup; the node is detached. If the markup has no nodes, nothing
    /// changes.
    fn replace_with_html(&mut self, html: &str) -> Result<(), EditFault>
        ensures { EditsByHtml result (node self.old) (node self.new) html.now
            (replacing_by (node self.old).id) };

    /// Wraps the node: if the first node of the markup is an element, it is inserted right before
    /// the node, and the node becomes its last child. The other nodes of the markup are made and
    /// stay detached.
    fn wrap_html(&mut self, html: &str) -> Result<(), EditFault>
        ensures { PutsHtml Around html.now (node self.old) (node self.new) result };
}

impl<'a> NodeMutMarkup for NodeMut<'a> {
    ghost node = { λ node. node };

    fn set_html(&mut self, html: &str) -> Result<(), EditFault> {
        put_html(self, Place::InsteadOfChildren, html)
    }

    fn append_html(&mut self, html: &str) -> Result<(), EditFault> {
        put_html(self, Place::AtEnd, html)
    }

    fn prepend_html(&mut self, html: &str) -> Result<(), EditFault> {
        put_html(self, Place::AtFront, html)
    }

    fn before_html(&mut self, html: &str) -> Result<(), EditFault> {
        put_html(self, Place::Before, html)
    }

    fn after_html(&mut self, html: &str) -> Result<(), EditFault> {
        put_html(self, Place::After, html)
    }

    fn replace_with_html(&mut self, html: &str) -> Result<(), EditFault> {
        let snippet = read_html(self, html)?;
        snippet.put_at(self.tree, &self.id, snippet.replacing())
    }

    fn wrap_html(&mut self, html: &str) -> Result<(), EditFault> {
        put_html(self, Place::Around, html)
    }
}

/// Parses the markup and inserts it at the place at the node.
fn put_html(node: &mut NodeMut<'_>, place: Place, html: &str) -> Result<(), EditFault>
    ensures { PutsHtml place html.now node.old node.new result }
{
    let snippet = read_html(node, html)?;
    snippet.put_at(node.tree, &node.id, place)
}

/// Parses markup that is to be inserted into the node's tree.
fn read_html(node: &NodeMut<'_>, html: &str) -> Result<Snippet, EditFault>
    ensures ok { IfOk result (λ snippet. IsSpelled html.now snippet) }
    ensures cause { IfErr result (ReadCause html.now) }
{
    match Snippet::read(node.tree.allocator(), html) {
        Ok(snippet) => Ok(snippet),
        Err(fault) => Err(edit_fault(fault)),
    }
}

/// Returns the error of an edit for a fault of the parser: limits keep their names, and any other
/// fault becomes `Markup`.
pub fn edit_fault(fault: MarkupFault) -> EditFault
    ensures { result ≡ named_edit fault.kind fault }
{
    match fault.kind {
        MarkupFaultKind::TooManyNodes => EditFault::TooManyNodes,
        MarkupFaultKind::Memory => EditFault::Memory,
        _ => EditFault::Markup(fault),
    }
}
