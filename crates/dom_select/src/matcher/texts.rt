//! Tests of a node's children, and of the texts at and below it.

ghost use Rattle.std.specs.Prelude.{◌≡◌, ◌||◌, not};
ghost use Rattle.dom_links.specs.ListMoves.{element_at};
ghost use Rattle.dom_select.specs.Texts.{contains_at, empty_at, filled_at, has_text_at};
ghost use Rattle.dom_select.specs.Texts.{only_text_at, text_contains};

use crate::matcher::parts::element_at;
use dom_nodes::case_sensitivity::CaseSensitivity;
use dom_nodes::node_data::NodeData;
use dom_nodes::node_id::NodeId;
use dom_selectors::comparisons::has_within;
use dom_trees::node_ref::NodeRef;
use dom_trees::tree::Tree;

fn is_filled(tree: &Tree, id: &NodeId) -> bool
    ensures { result ≡ filled_at tree.now id.now }
{
    NodeRef::new(*id, tree).is_nonempty_text()
}

fn is_ignorable(tree: &Tree, id: &NodeId) -> bool
    ensures { result ≡ not (element_at tree.now id.now || filled_at tree.now id.now) }
{
    if element_at(tree, id) {
        return false;
    }
    !is_filled(tree, id)
}

/// Returns whether the node is an element without child elements and without a child text that
/// isn't blank.
#[inline(never)]
pub(crate) fn is_empty(tree: &Tree, id: &NodeId) -> bool
    ensures { result ≡ empty_at tree.now id.now }
{
    if !element_at(tree, id) {
        return false;
    }
    for child in tree.child_ids_of_it(id, false) {
        if !is_ignorable(tree, &child) {
            return false;
        }
    }
    true
}

/// Returns whether the node has exactly one child, a text that isn't blank.
#[inline(never)]
pub(crate) fn is_only_text(tree: &Tree, id: &NodeId) -> bool
    ensures { result ≡ only_text_at tree.now id.now }
{
    let mut children = tree.child_ids_of_it(id, false);
    let Some(first) = children.next() else {
        return false;
    };
    if children.next().is_some() {
        return false;
    }
    is_filled(tree, &first)
}

fn contains(tree: &Tree, id: &NodeId, inner: &str) -> bool
    ensures { result ≡ contains_at tree.now inner.now id.now }
{
    match tree.tree_node(id) {
        Some(found) => text_contains(&found.content, inner),
        None => false,
    }
}

fn text_contains(node: &NodeData, inner: &str) -> bool
    ensures { result ≡ text_contains inner.now node.now }
{
    match node {
        NodeData::Text { contents } => has_within(
            CaseSensitivity::CaseSensitive,
            contents.as_str().as_bytes(),
            inner.as_bytes(),
        ),
        _ => false,
    }
}

/// Returns whether one of the texts at or below the node contains `inner`.
#[inline(never)]
pub(crate) fn has_text(tree: &Tree, id: &NodeId, inner: &str) -> bool
    ensures { result ≡ has_text_at tree.now inner.now id.now }
{
    if contains(tree, id, inner) {
        return true;
    }
    for below in tree.descendant_ids_of_it(id) {
        if contains(tree, &below, inner) {
            return true;
        }
    }
    false
}
