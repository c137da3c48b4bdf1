//! Tests of a node's index among its siblings.

ghost use Rattle.std.specs.Prelude.{◌≡◌, ◌==◌, IfSome};
ghost use Rattle.dom_selectors.specs.Spelling.{Decides};
ghost use Rattle.dom_links.specs.Indexes.{IsNth, counts, index_at, is_from_first, same_type};
ghost use Rattle.dom_links.specs.Lists.{after};
ghost use Rattle.dom_links.specs.Forest.{siblings};
ghost use Rattle.dom_links.specs.Trees.{in_order};
ghost use Rattle.dom_select.specs.Parts.{AsksFor};

use crate::matcher::caches::SelectorCaches;
use crate::matcher::chains::line_laws;
use crate::matcher::parts::element_at;
use dom_links::indexes::{IndexKind, Nth, are_of_one_type, is_nth};
use dom_links::iters::{next_sibling_id, prev_sibling_id};
use dom_nodes::node_id::NodeId;
use dom_selectors::syntax::Position;
use dom_trees::tree::Tree;

/// Up to this index, siblings are counted for each node without the cache.
const NEAR: u32 = 8;

/// How many siblings are visited at most for that.
const LOOKED_AT: u32 = 32;

/// Returns whether the index of the node is one of those in `position`.
#[inline(never)]
pub(crate) fn has_position(position: Position, caches: &mut SelectorCaches<'_>, id: &NodeId) -> bool
    ensures is { Decides result (IsNth position.nth (index_at position.kind caches.old id.now)) }
    ensures kept { caches.new ≡ caches.old }
{
    if let Some(answer) = has_near_position(position, caches.tree(), *id) {
        return answer;
    }
    let index = caches.index_at(id, position.kind);
    is_nth(position.nth, index)
}

/// Returns the answer of `has_position`, if only one small index is asked for and a few siblings
/// decide it.
fn has_near_position(position: Position, tree: &Tree, id: NodeId) -> Option<bool>
    ensures { IfSome result (λ answer. Decides answer
        (IsNth position.nth (index_at position.kind tree.now id))) }
{
    let index = sole_index(position.nth)?;
    has_index(tree, id, position.kind, index)
}

/// Returns the only index that An+B selects, if it is small, or 0 if it selects none.
fn sole_index(nth: Nth) -> Option<u32>
    ensures { IfSome result (AsksFor nth) }
{
    if nth.a.magnitude > 0 {
        return None;
    }
    if nth.b.is_negative {
        return Some(0);
    }
    if nth.b.magnitude > NEAR {
        return None;
    }
    Some(nth.b.magnitude)
}

/// Returns whether the node has this index, if a few siblings decide it.
fn has_index(tree: &Tree, id: NodeId, kind: IndexKind, index: u32) -> Option<bool>
    ensures { IfSome result (λ answer. answer ≡ (index_at kind tree.now id == index)) }
{
    line_laws(tree);
    if index == 0 {
        return Some(false);
    }
    let from_first = is_from_first(kind);
    let mut left = index - 1;
    let mut next = beside(tree, from_first, id);
    for _ in 0..LOOKED_AT {
        let Some(at) = next else {
            return Some(left == 0);
        };
        if counts(tree, kind, id, at) {
            if left == 0 {
                return Some(false);
            }
            left -= 1;
        }
        next = beside(tree, from_first, at);
    }
    None
}

fn is_from_first(kind: IndexKind) -> bool
    ensures { result ≡ is_from_first kind }
{
    matches!(kind, IndexKind::Child | IndexKind::OfType)
}

/// Returns whether a sibling counts for the index of a node.
#[inline(always)]
fn counts(tree: &Tree, kind: IndexKind, id: NodeId, sibling: NodeId) -> bool
    ensures { result ≡ counts kind tree.now id sibling }
{
    match kind {
        IndexKind::Child | IndexKind::LastChild => element_at(tree, &sibling),
        IndexKind::OfType | IndexKind::LastOfType => same_type(tree, id, sibling),
    }
}

/// Returns whether both nodes are elements of the same type.
#[inline(always)]
fn same_type(tree: &Tree, one: NodeId, other: NodeId) -> bool
    ensures { result ≡ same_type tree.now one other }
{
    let Some(node) = tree.tree_node(&one) else {
        return false;
    };
    match tree.tree_node(&other) {
        Some(found) => are_of_one_type(&node.content, &found.content),
        None => false,
    }
}

/// Returns the previous sibling of the node, or the next one.
#[inline(always)]
pub(crate) fn beside(tree: &Tree, before: bool, id: NodeId) -> Option<NodeId>
    ensures { result ≡ after (in_order before (siblings tree.now id)) id }
{
    if before {
        return prev_sibling_id(tree.nodes(), &id);
    }
    next_sibling_id(tree.nodes(), &id)
}
