//! The index of a node among its siblings, for `:nth-child()` and its relatives.

ghost use Rattle.std.specs.Prelude.{◌≡◌, ◌≤◌, ◌+◌, ◌*◌, ℕ, MatchBool, slice_set, if◌then◌else◌};
ghost use Rattle.dom_links.specs.Forest.{forest_of};
ghost use Rattle.dom_links.specs.Indexes.{AreIndexes, IsNth, above_zero, below_zero, index_at};
ghost use Rattle.dom_links.specs.Indexes.{index_known, is_from_first, of_one_type, counts_sibling};
ghost use Rattle.dom_links.specs.Sound.{IsSoundArena};

use crate::iters::{find_node, node_at};
use crate::ops::siblings::neighbour;
pub use dom_nodes::indexes::{IndexKind, Nth, Signed};
use dom_nodes::node_data::{NodeData, TreeNode};
use dom_nodes::node_id::NodeId;

/// Returns the index of a node, counted from 1: one more than the number of siblings on one side
/// that `kind` counts. For an unknown id the result is 1.
pub fn index_at(nodes: &[TreeNode], id: &NodeId, kind: IndexKind) -> u64
    requires { IsSoundArena nodes.now }
    ensures is { result ≡ index_at kind (forest_of nodes.now) id.now }
    ensures few { result ≤ 4294967295 }
{
    index_with(nodes, id, kind, &[])
}

/// Returns what `index_at` returns, and uses the indexes in `known`, which is indexed by node id
/// and has 0 for indexes that aren't known. Siblings are counted only up to the nearest one with a
/// known index.
pub fn index_with(nodes: &[TreeNode], id: &NodeId, kind: IndexKind, known: &[u32]) -> u64
    requires sound { IsSoundArena nodes.now }
    requires known { AreIndexes kind (forest_of nodes.now) known.now }
    ensures is { result ≡ index_at kind (forest_of nodes.now) id.now }
    ensures few { result ≤ 4294967295 }
{
    let Some(node) = find_node(nodes, *id) else {
        return 1;
    };
    let mut next = counted_neighbour(node, kind);
    let mut index = 1;
    while let Some(at) = next {
        let other = node_at(nodes, at);
        if counts(kind, &node.content, &other.content) {
            let there = known_at(known, at);
            if there > 0 {
                return index + there;
            }
            index += 1;
        }
        next = counted_neighbour(other, kind);
    }
    index
}

/// Returns the known index of a node, or 0.
fn known_at(known: &[u32], id: NodeId) -> u64
    ensures is { result ≡ index_known known.now id }
    ensures few { result ≤ 4294967295 }
{
    match known.get(id.value()) {
        Some(index) => u64::from(*index),
        None => 0,
    }
}

/// Stores the index of a node in `known`, and those of the siblings that count for it, up to the
/// first one that is stored already. Nodes beyond the end of `known` are skipped.
pub fn note_indexes(nodes: &[TreeNode], id: &NodeId, kind: IndexKind, index: u64, known: &mut [u32])
    requires sound { IsSoundArena nodes.now }
    requires known { AreIndexes kind (forest_of nodes.now) known.old }
    requires is { index ≡ index_at kind (forest_of nodes.now) id.now }
    requires few { index ≤ 4294967295 }
    ensures { AreIndexes kind (forest_of nodes.now) known.new }
{
    note(known, *id, index);
    let Some(node) = find_node(nodes, *id) else {
        return;
    };
    let mut next = counted_neighbour(node, kind);
    let mut passed = 1;
    while let Some(at) = next {
        let other = node_at(nodes, at);
        if counts(kind, &node.content, &other.content) {
            if known_at(known, at) > 0 {
                return;
            }
            note(known, at, index - passed);
            passed += 1;
        }
        next = counted_neighbour(other, kind);
    }
}

fn note(known: &mut [u32], id: NodeId, index: u64)
    requires { index ≤ 4294967295 }
    ensures { known.new ≡ slice_set known.old id index }
{
    let place = id.value();
    if place < known.len() {
        known[place] = index as u32;
    }
}

/// Returns the sibling on the side where siblings are counted.
fn counted_neighbour(node: &TreeNode, kind: IndexKind) -> Option<NodeId>
    ensures { result ≡ (if is_from_first kind then node.now.prev_sibling
        else node.now.next_sibling) }
{
    neighbour(node, is_from_first(kind))
}

fn is_from_first(kind: IndexKind) -> bool
    ensures { result ≡ is_from_first kind }
{
    match kind {
        IndexKind::Child | IndexKind::OfType => true,
        IndexKind::LastChild | IndexKind::LastOfType => false,
    }
}

/// Returns whether a sibling is counted for the index of a node.
fn counts(kind: IndexKind, node: &NodeData, other: &NodeData) -> bool
    ensures { result ≡ counts_sibling kind node.now other.now }
{
    match kind {
        IndexKind::Child | IndexKind::LastChild => other.is_element(),
        IndexKind::OfType | IndexKind::LastOfType => are_of_one_type(node, other),
    }
}

/// Returns whether both are elements of the same name: prefix, namespace and local name.
pub fn are_of_one_type(node: &NodeData, other: &NodeData) -> bool
    ensures { result ≡ of_one_type node.now other.now }
{
    match node {
        NodeData::Element(element) => match other {
            NodeData::Element(also) => element.name().is_same(&also.name()),
            _ => false,
        },
        _ => false,
    }
}

/// Returns whether the index is `a * k + b` for some integer k from 0 on.
pub fn is_nth(nth: Nth, index: u64) -> bool
    requires { index ≤ 4294967296 }
    ensures { MatchBool result (IsNth nth index) (IsNth nth index → ⊥) }
{
    let up = above_zero(nth.b);
    let down = index + below_zero(nth.b);
    let step = u64::from(nth.a.magnitude);
    if nth.a.is_negative {
        return is_reached(step, down, up);
    }
    is_reached(step, up, down)
}

/// Returns whether some number of steps of this size leads from one number to the other.
fn is_reached(step: u64, from: u64, to: u64) -> bool
    ensures { MatchBool result ((k : ℕ) × (from + step * k ≡ to))
        ((k : ℕ) → from + step * k ≡ to → ⊥) }
{
    if to < from {
        return false;
    }
    if step == 0 {
        return from == to;
    }
    (to - from) % step == 0
}

fn above_zero(number: Signed) -> u64
    ensures is { result ≡ above_zero number }
    ensures few { result ≤ 4294967295 }
{
    if number.is_negative {
        return 0;
    }
    u64::from(number.magnitude)
}

fn below_zero(number: Signed) -> u64
    ensures is { result ≡ below_zero number }
    ensures few { result ≤ 4294967295 }
{
    if number.is_negative {
        return u64::from(number.magnitude);
    }
    0
}
