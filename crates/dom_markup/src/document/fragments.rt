//! Fragments: markup that is parsed below an element `html`, and nodes that are copied in that
//! form.

ghost use Rattle.std.specs.Prelude.{◌≡◌, IfErr, IfOk, MatchResult};
ghost use Rattle.dom_nodes.specs.declared.fault.EditFault.TheVariants.{Memory};
ghost use Rattle.dom_nodes.specs.Kinds.{is_top};
ghost use Rattle.dom_links.specs.Growth.{lone};
ghost use Rattle.dom_trees.specs.Views.{node_is};
ghost use Rattle.dom_markup.specs.Documents.{IsFaultOf, NotesNothing, SuitsText};
ghost use Rattle.dom_markup.specs.FaultKinds.{IsLimitFault};
ghost use Rattle.dom_markup.specs.Fragments.{FragmentRefused, IsFragmentFaultAt, IsFragmentOf};
ghost use Rattle.dom_markup.specs.Fragments.{is_whole, node_fragment, NodeFragmentCause};
ghost use Rattle.dom_markup.specs.Limits.{limit_kind};
ghost use Rattle.dom_markup.specs.Markup.{Spells};
ghost use Rattle.dom_markup.specs.ValueTrees.{ValueTrees};

use crate::document::snippet::Snippet;
use crate::document::{Document, lone, whole};
use crate::laws::faults::kinds_of_faults;
use dom_nodes::fault::{EditFault, MarkupFault, MarkupFaultKind, OutOfMemory};
use dom_nodes::node_data::NodeData;
use dom_nodes::node_id::NodeId;
use dom_trees::node_ref::NodeRef;
use dom_trees::tree::Tree;
use std::alloc::Global;

impl Document {
    /// Parses the text as a fragment: a fragment node, its child `html`, and below that the nodes
    /// that `parse` would put below the root, without doctypes. Node ids follow document order.
    /// Fails as `parse` does, or with `TooManyNodes` or `Memory` at the end of the text.
    pub fn fragment(alloc: Global, source: &str) -> Result<Document, MarkupFault>
        ensures ok { IfOk result (λ document. IsFragmentOf source.now document.tree) }
        ensures notes { IfOk result NotesNothing }
        ensures fault { IfErr result (IsFaultOf source.now FragmentRefused IsFragmentFaultAt) }
        ensures kind { IfErr result (λ fault. SuitsText source.now fault.kind) }
        ensures limits { (t : ValueTrees) → Spells source.now t → IfErr result
            (λ f. IsLimitFault f.kind) }
    {
        kinds_of_faults();
        let snippet = Snippet::read(alloc, source)?;
        match snippet.fragment() {
            Ok(tree) => Ok(whole(alloc, tree)),
            Err(fault) => Err(MarkupFault {
                kind: limit_of(fault),
                at: source.len(),
            }),
        }
    }

    /// Returns an empty fragment, which is a fragment node alone, for a parser to fill. Fails only
    /// when memory runs out.
    pub fn fragment_sink(alloc: Global) -> Result<Document, OutOfMemory>
        ensures empty { IfOk result (λ document. document.tree ≡ lone NodeData.Fragment) }
        ensures notes { IfOk result NotesNothing }
    {
        lone(alloc, NodeData::Fragment)
    }
}

/// Returns the parser's fault for an edit that ran out of node ids or memory.
fn limit_of(fault: EditFault) -> MarkupFaultKind
    ensures is { result ≡ limit_kind fault }
    ensures limit { IsLimitFault result }
{
    match fault {
        EditFault::TooManyNodes => MarkupFaultKind::TooManyNodes,
        _ => MarkupFaultKind::Memory,
    }
}

/// Copying a node into a document of its own.
pub trait NodeFragment {
    ghost use Rattle.dom_links.specs.Forest.{Forest};
    ghost use Rattle.std.specs.Prelude.{ℕ};

    // The forest of the node's tree.
    ghost forest: { Self → Forest };

    // The node's id.
    ghost number: { Self → ℕ };

    /// Returns a fragment with a copy of the node below an element `html`. For a document or a
    /// fragment, its children are copied instead. For the root and for an element named `html`, the
    /// result is a copy of the whole tree with the same node ids. Fails with `UnknownNode`,
    /// `TooManyNodes` or `Memory`.
    fn to_fragment(&self) -> Result<Document, EditFault>
        ensures ok { IfOk result (λ d. d.tree ≡ node_fragment (forest self.now) (number self.now)) }
        ensures cause { IfErr result (NodeFragmentCause (forest self.now) (number self.now)) }
        ensures notes { IfOk result NotesNothing };
}

impl<'a> NodeFragment for NodeRef<'a> {
    ghost forest = { λ node. node.tree.now };

    ghost number = { λ node. node.id };

    fn to_fragment(&self) -> Result<Document, EditFault> {
        let alloc = self.tree.allocator();
        Ok(whole(alloc, fragment_tree(self.tree, self.id)?))
    }
}

/// Returns the tree of the node's fragment.
fn fragment_tree(tree: &Tree, id: NodeId) -> Result<Tree, EditFault>
    ensures ok { IfOk result (λ made. made ≡ node_fragment tree.now id) }
    ensures cause { IfErr result (NodeFragmentCause tree.now id) }
{
    if is_whole(tree, id) {
        return cloned(tree);
    }
    if !is_top(tree, id) {
        return Tree::fragment_of(tree, &[id]);
    }
    match tree.child_ids_of(&id) {
        Ok(children) => Tree::fragment_of(tree, &children),
        Err(_) => Err(EditFault::Memory),
    }
}

/// Returns a copy of the tree. Fails only with `Memory`.
fn cloned(tree: &Tree) -> Result<Tree, EditFault>
    ensures { MatchResult result (λ made. made ≡ tree.now) (λ fault. fault ≡ Memory) }
{
    match tree.try_clone() {
        Ok(made) => Ok(made),
        Err(_) => Err(EditFault::Memory),
    }
}

/// Returns whether the node is the root or an element named `html`.
fn is_whole(tree: &Tree, id: NodeId) -> bool
    ensures { result ≡ is_whole tree.now id }
{
    id.value() == 0 || NodeRef::new(id, tree).has_name("html")
}

/// Returns whether the node is a document or a fragment.
fn is_top(tree: &Tree, id: NodeId) -> bool
    ensures { result ≡ node_is is_top tree.now id }
{
    match tree.tree_node(&id) {
        Some(node) => node.content.is_top(),
        None => false,
    }
}
