//! The indexes by type of all siblings, computed in one pass.

ghost use Rattle.std.specs.Prelude.{◌≡◌, ◌∷◌, [], IfSome, not, slice_set};
ghost use Rattle.dom_links.specs.Forest.{siblings};
ghost use Rattle.dom_links.specs.Indexes.{AreIndexes};
ghost use Rattle.dom_links.specs.Lists.{after};
ghost use Rattle.dom_links.specs.Trees.{in_order};
ghost use Rattle.dom_links.specs.Walk.{later};
ghost use Rattle.dom_select.specs.TypeCounts.{type_kind};

use crate::matcher::caches::kept;
use crate::matcher::chains::line_laws;
use crate::matcher::positions::beside;
use crate::matcher::type_counts::{TypeCounts, TypeName, count_one};
use dom_links::indexes::{IndexKind, are_of_one_type};
use dom_nodes::node_data::NodeData;
use dom_nodes::node_id::NodeId;
use dom_trees::tree::Tree;

/// How many siblings may be counted before all are indexed in one pass.
const NEAR: u32 = 256;

/// Caches the indexes by type of an element and of all its siblings, if counting for the element
/// alone would pass many of them. If memory runs out, some indexes stay unknown.
pub(crate) fn note_types(tree: &Tree, id: &NodeId, kind: IndexKind, known: &mut [u32])
    requires { AreIndexes kind tree.now known.old }
    ensures { AreIndexes kind tree.now known.new }
{
    match kind {
        IndexKind::OfType => note_many(tree, *id, true, known),
        IndexKind::LastOfType => note_many(tree, *id, false, known),
        IndexKind::Child | IndexKind::LastChild => {}
    }
}

/// Caches the indexes by type that are counted from the first sibling, or from the last.
fn note_many(tree: &Tree, id: NodeId, from_first: bool, known: &mut [u32])
    requires { AreIndexes (type_kind from_first) tree.now known.old }
    ensures { AreIndexes (type_kind from_first) tree.now known.new }
{
    if !is_far(tree, id, from_first, known) {
        return;
    }
    note_line(tree, far_end(tree, id, from_first), from_first, known);
}

/// Returns whether counting for an element passes many siblings: neither their end nor a sibling of
/// its type with a cached index is near. It has no contract, since only the time depends on it.
fn is_far(tree: &Tree, id: NodeId, from_first: bool, known: &[u32]) -> bool {
    let Some(node) = tree.tree_node(&id) else {
        return false;
    };
    if known.is_empty() || !node.is_element() {
        return false;
    }
    let mut at = id;
    for _ in 0..NEAR {
        let Some(next) = beside(tree, from_first, at) else {
            return false;
        };
        if has_known_type(tree, next, &node.content, known) {
            return false;
        }
        at = next;
    }
    true
}

/// Returns whether the index of the node is cached and the node has that type. It has no contract,
/// since only the time depends on it.
fn has_known_type(tree: &Tree, id: NodeId, of: &NodeData, known: &[u32]) -> bool {
    if kept(known, &id).is_none() {
        return false;
    }
    match tree.tree_node(&id) {
        Some(node) => are_of_one_type(of, &node.content),
        None => false,
    }
}

/// Returns the last node on one side of a node, which may be the node itself.
fn far_end(tree: &Tree, id: NodeId, before: bool) -> NodeId
    ensures { later tree.now before result ≡ [] }
{
    line_laws(tree);
    let mut end = id;
    while let Some(at) = beside(tree, before, end) {
        end = at;
    }
    end
}

/// Caches the indexes by type of siblings, starting at the end from which they are counted.
fn note_line(tree: &Tree, end: NodeId, from_first: bool, known: &mut [u32])
    requires end { later tree.now from_first end ≡ [] }
    requires known { AreIndexes (type_kind from_first) tree.now known.old }
    ensures { AreIndexes (type_kind from_first) tree.now known.new }
{
    line_laws(tree);
    let mut counts = TypeCounts::new(tree.allocator());
    let mut next = Some(end);
    while let Some(at) = next {
        let Some(node) = tree.tree_node(&at) else {
            return;
        };
        if let Some(element) = node.as_element() {
            let Some(index) = count_one(&mut counts, TypeName::of(&element.name())) else {
                return;
            };
            note(known, at, index);
        }
        next = onward(tree, from_first, at);
    }
}

/// Caches the index of a node, if there is room for it.
fn note(known: &mut [u32], at: NodeId, index: u32)
    ensures { known.new ≡ slice_set known.old at index }
{
    let place = at.value();
    if place < known.len() {
        known[place] = index;
    }
}

/// Returns the neighbour on the side away from which indexes are counted.
fn onward(tree: &Tree, from_first: bool, at: NodeId) -> Option<NodeId>
    ensures link { result ≡ after (in_order (not from_first) (siblings tree.now at)) at }
    ensures passed { IfSome result (λ next.
        later tree.now from_first next ≡ at ∷ later tree.now from_first at) }
{
    let _nodes = tree.nodes();
    line_laws(tree);
    beside(tree, !from_first, at)
}
