//! Reading calm pages as explicit markup, without tree construction.

ghost use Rattle.std.specs.Prelude.{◌≡◌, IfErr, IfOk, IfSome, MatchOption, MatchResult, None};
ghost use Rattle.std.specs.Prelude.{true};
ghost use Rattle.calm_pages.specs.Calm.{IsCalmDocument, IsCalmPage, IsReadCalm, PassesTests};
ghost use Rattle.calm_pages.specs.Calm.{are_calm, has_elements_at_ends, is_element_at, top};
ghost use Rattle.dom_links.specs.Forest.{children_of};
ghost use Rattle.dom_links.specs.Lists.{first, last};
ghost use Rattle.page_trees.specs.Shape.{IsPage};
ghost use Rattle.dom_markup.specs.FaultKinds.{IsLimitFault};
ghost use Rattle.dom_markup.specs.Numbered.{document_of};
ghost use Rattle.dom_markup.specs.ValueTrees.{ValueTrees};

use crate::nesting::{TOP, next_scope};
use crate::texts::{is_calm_text, is_framed};
use dom_markup::document::Document;
use dom_markup::laws::one_reading;
use dom_markup::laws::plain::documents_are_forests;
use dom_nodes::fault::{MarkupFault, MarkupFaultKind};
use dom_nodes::node_id::NodeId;
use dom_trees::tree::Tree;
use page_trees::{PageFault, is_page};
use std::alloc::Global;

/// Returns the document of a calm page, or `None` if the page isn't calm. Fails only with `Memory`
/// or `TooManyNodes`.
pub fn read_calm(alloc: Global, source: &str) -> Result<Option<Document>, PageFault>
    ensures page { IfOk result (λ found. IfSome found (λ document. IsPage document.tree)) }
    ensures calm { (trees : ValueTrees) → IsCalmPage source.now trees → IfOk result (λ found.
        MatchOption found ⊥ (λ document. document.tree ≡ document_of trees)) }
    ensures read { IfOk result (λ found. IfSome found (IsReadCalm source.now)) }
{
    if !is_framed(source) {
        return Ok(None);
    }
    if !is_calm_text(source) {
        return Ok(None);
    }
    // Calls of laws: they do nothing, and their contracts prove the clause `calm`.
    one_reading();
    documents_are_forests();
    match Document::parse(alloc, source) {
        Ok(document) => calm_only(document),
        Err(fault) => unread(fault),
    }
}

/// Converts a fault of the parser of explicit markup: a limit is an error here too, and any other
/// fault means that the page isn't calm.
fn unread(fault: MarkupFault) -> Result<Option<Document>, PageFault>
    ensures none { IfOk result (λ found. found ≡ None) }
    ensures limit { IsLimitFault fault.kind → IfOk result (λ _. ⊥) }
{
    match fault.kind {
        MarkupFaultKind::Memory => Err(PageFault::Memory),
        MarkupFaultKind::TooManyNodes => Err(PageFault::TooManyNodes),
        _ => Ok(None),
    }
}

/// Returns the document if it is calm, and otherwise `None`.
fn calm_only(document: Document) -> Result<Option<Document>, PageFault>
    ensures page { IfOk result (λ found. IfSome found (λ calm. IsPage calm.tree)) }
    ensures calm { (trees : ValueTrees) → document.tree ≡ document_of trees → IsCalmDocument trees
        → IfOk result (λ found. MatchOption found ⊥ (λ calm. calm.tree ≡ document.tree)) }
    ensures read { IfOk result (λ found. IfSome found (λ calm.
        (calm ≡ document) × PassesTests document.tree)) }
{
    if is_calm(&document.tree)? {
        return Ok(Some(document));
    }
    Ok(None)
}

/// Returns whether a tree that was parsed from explicit markup is calm.
fn is_calm(tree: &Tree) -> Result<bool, PageFault>
    ensures page { IfOk result (λ is. is ≡ true → IsPage tree.now) }
    ensures calm { (trees : ValueTrees) → tree.now ≡ document_of trees → IsCalmDocument trees
        → IfOk result (λ is. is ≡ true) }
    ensures read { IfOk result (λ is. is ≡ true → PassesTests tree.now) }
{
    if !is_page(tree)? {
        return Ok(false);
    }
    if !has_elements_at_ends(tree) {
        return Ok(false);
    }
    are_nodes_calm(tree)
}

/// Returns whether the first and the last child of the element `html` are elements. Whitespace can
/// then only be between the head and the body.
fn has_elements_at_ends(tree: &Tree) -> bool
    ensures { result ≡ has_elements_at_ends tree.now }
{
    let Some(html) = tree.html_root() else {
        return false;
    };
    if !begins_with_element(tree, html.id) {
        return false;
    }
    ends_with_element(tree, html.id)
}

/// Returns whether the first child of the node is an element.
fn begins_with_element(tree: &Tree, id: NodeId) -> bool
    ensures { result ≡ is_element_at tree.now (first (children_of tree.now id)) }
{
    match tree.first_child_of(&id) {
        Some(child) => child.is_element(),
        None => false,
    }
}

/// Returns whether the last child of the node is an element.
fn ends_with_element(tree: &Tree, id: NodeId) -> bool
    ensures { result ≡ is_element_at tree.now (last (children_of tree.now id)) }
{
    match tree.last_child_of(&id) {
        Some(child) => child.is_element(),
        None => false,
    }
}

/// Returns whether each node may be in its scope. The nodes of a parsed tree have their ids in
/// document order, so the scope of a parent is known before that of its children.
fn are_nodes_calm(tree: &Tree) -> Result<bool, PageFault>
    ensures { (trees : ValueTrees) → tree.now ≡ document_of trees
        → IfOk result (λ are. are ≡ are_calm top trees) }
{
    let below = &tree.nodes()[1..];
    let mut scopes = Vec::with_capacity(tree.allocator(), tree.len())?;
    scopes.push(TOP)?;
    for node in below {
        let Some(scope) = next_scope(node, &scopes) else {
            return Ok(false);
        };
        scopes.push(scope)?;
    }
    Ok(true)
}
