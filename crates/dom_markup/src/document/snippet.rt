//! Markup that is parsed once, to be inserted into trees.

ghost use Rattle.std.specs.Prelude.{◌≡◌, ◌≤◌, ◌∷◌, [], IfErr, IfOk, length};
ghost use Rattle.dom_nodes.specs.Kinds.{is_doctype};
ghost use Rattle.dom_trees.specs.Edits.{Edits};
ghost use Rattle.dom_trees.specs.NewNodes.{html_root_element};
ghost use Rattle.dom_trees.specs.Views.{node_is};
ghost use Rattle.dom_markup.specs.Fragments.{fragment_read, top_nodes};

use crate::document::Document;
use crate::document::id_list::IdList;
use dom_links::gap::Place;
use dom_nodes::fault::{EditFault, MarkupFault, MarkupFaultKind, OutOfMemory};
use dom_nodes::node_id::NodeId;
use dom_trees::node_ref::NodeRef;
use dom_trees::tree::Tree;
use std::alloc::Global;
use std::marker::Model;

/// Parsed markup that can be inserted into trees any number of times. A contract sees it as the
/// document's forest.
#[derive(Drop)]
pub struct Snippet {
    tree: Tree,
    top_ids: IdList,
}

impl Model for Snippet {
    ghost use Rattle.dom_links.specs.Forest.{Forest};
    ghost use Rattle.dom_markup.specs.Fragments.{top_nodes};
    ghost use Rattle.std.specs.Prelude.{◌≡◌};

    ghost Value = { Forest };

    ghost view = { λ snippet. snippet.tree };

    ghost invariant = { λ snippet. snippet.top_ids ≡ top_nodes snippet.tree };
}

impl Snippet {
    ghost use Rattle.dom_links.specs.Copies.{FragmentCause};
    ghost use Rattle.dom_markup.specs.Documents.{IsSpelled};
    ghost use Rattle.dom_markup.specs.Refusals.{IsFaultAt, Refused};
    ghost use Rattle.dom_markup.specs.Setters.{putting, replacing};

    /// Parses the text as `Document::parse` does, and fails as it does.
    pub fn read(alloc: Global, text: &str) -> Result<Snippet, MarkupFault>
        ensures ok { IfOk result (λ snippet. IsSpelled text.now snippet) }
        ensures refused { IfErr result (λ fault. Refused text.now fault.kind) }
        ensures place { IfErr result (λ fault. fault.at ≤ length text.now) }
        ensures cause { IfErr result (λ fault. IsFaultAt text.now fault.at fault.kind) }
    {
        let document = Document::read(alloc, text)?;
        let Ok(top_ids) = top_nodes(&document.tree) else {
            return Err(MarkupFault {
                kind: MarkupFaultKind::Memory,
                at: text.len(),
            });
        };
        Ok(Snippet {
            tree: document.tree,
            top_ids,
        })
    }

    /// Inserts copies of the top-level nodes, without doctypes and with all their descendants, at a
    /// place relative to the node `id` of the tree.
    ///
    /// If the call fails, the tree is unchanged; it checks the node and the place even if there is
    /// nothing to insert. It fails with `UnknownNode`; with `NoChildrenHere`, if the place is among
    /// the children of a node that can't have any; with `RootOrFragment`, if the place is beside a
    /// node that can't have siblings; and with `TooManyNodes` or `Memory`.
    pub fn put_at(&self, tree: &mut Tree, id: &NodeId, place: Place) -> Result<(), EditFault>
        ensures { Edits result tree.old tree.new (putting place id.now self.now) }
    {
        // Called for its contract alone: the links of this tree are consistent.
        self.tree.nodes();
        tree.merge_at(id, place, &self.tree, self.top_ids.as_slice())
    }

    /// Returns the place for nodes that replace a node. If there are no nodes, nothing is replaced.
    pub(crate) fn replacing(&self) -> Place
        ensures { result ≡ replacing (top_nodes self.now) }
    {
        if self.top_ids.as_slice().is_empty() {
            Place::Before
        } else {
            Place::InsteadOfNode
        }
    }

    /// Returns a fragment with copies of the top-level nodes, without doctypes and with all their
    /// descendants. Fails with `TooManyNodes` or `Memory`.
    pub(super) fn fragment(&self) -> Result<Tree, EditFault>
        ensures ok { IfOk result (λ tree. tree ≡ fragment_read self.now) }
        ensures cause { IfErr result
            (FragmentCause html_root_element self.now (top_nodes self.now)) }
    {
        Tree::fragment_of(&self.tree, self.top_ids.as_slice())
    }
}

/// Returns the ids of the root's children, without doctypes.
fn top_nodes(tree: &Tree) -> Result<IdList, OutOfMemory>
    ensures { IfOk result (λ top_ids. top_ids ≡ top_nodes tree.now) }
{
    let mut top_ids = IdList::new(tree.allocator());
    for id in tree.child_ids_of_it(&NodeId::root(), false) {
        if !is_doctype(tree, id) {
            top_ids.push(id)?;
        }
    }
    Ok(top_ids)
}

fn is_doctype(tree: &Tree, id: NodeId) -> bool
    ensures { result ≡ node_is is_doctype tree.now id }
{
    NodeRef::new(id, tree).is_doctype()
}
