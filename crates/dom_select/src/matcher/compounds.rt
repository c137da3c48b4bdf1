//! Tests of one compound selector against one node.

ghost use Rattle.std.specs.Prelude.{◌≡◌, ◌↔◌, ◌<◌, ◌≤◌, IsTrue};
ghost use Rattle.std.specs.List.{list_all};
ghost use Rattle.dom_links.specs.Indexes.{IsNth, index_at};
ghost use Rattle.dom_links.specs.Walk.{IsNodeOf};
ghost use Rattle.dom_nodes.specs.declared.indexes.IndexKind.{IndexKind};
ghost use Rattle.dom_selectors.specs.Spelling.{Decides};
ghost use Rattle.dom_selectors.specs.ValuesAsTrees.{read_compound};
ghost use Rattle.dom_select.specs.Answers.{AreIndexesFor, HasIndex, HasIndexFor, kind_place};
ghost use Rattle.dom_select.specs.Meaning.{Holds, PartsHold};
ghost use Rattle.dom_select.specs.Parts.{EachHolds, PartHolds};

use crate::matcher::caches::SelectorCaches;
use crate::matcher::matches::{has_type, holds, sole_type_selector};
use crate::matcher::parts::holds_without_index;
use dom_links::indexes::{IndexKind, is_nth};
use dom_nodes::node_data::TreeNode;
use dom_nodes::node_id::NodeId;
use dom_selectors::syntax::{Compound, Part, Position};
use dom_trees::node_ref::NodeRef;
use dom_trees::tree::Tree;

/// A compound selector that is tested with the answers of its nested lists and the indexes of the
/// node.
pub trait CompoundTest {
    ghost use Rattle.std.specs.Prelude.{◌≡◌, ◌+◌, ◌<◌, ◌^◌, ℕ, Bool, List};
    ghost use Rattle.dom_links.specs.Forest.{Forest};
    ghost use Rattle.dom_selectors.specs.Spelling.{Decides};

    // The answers are those of the nested lists at the node, and the indexes are the node's.
    ghost are_known: { Self → Forest → ℕ → List Bool → List ℕ → Type 0 };

    // The compound selector matches the node.
    ghost matches: { Self → Forest → ℕ → Type 0 };

    /// Returns whether the compound selector matches the node. `nested` says of each of its nested
    /// lists, in order, whether the list matches the node. `indexes` are the node's indexes for
    /// `:nth-child`, `:nth-last-child`, `:nth-of-type` and `:nth-last-of-type`, in this order; only
    /// those that the compound selector asks for are read. `tests` is increased by one.
    fn test(&self, x: &NodeRef<'_>, nested: &[bool], indexes: [u64; 4], tests: &mut u128) -> bool
        requires known { are_known self.now x.now.tree.now x.now.id nested.now indexes }
        requires room { tests.old + 1 < 2 ^ 128 }
        ensures is { Decides result (matches self.now x.now.tree.now x.now.id) }
        ensures counted { tests.new ≡ tests.old + 1 };
}

impl CompoundTest for Compound {
    ghost use Rattle.dom_selectors.specs.ValuesAsTrees.{read_compound};
    ghost use Rattle.dom_select.specs.Answers.{AreKnown};
    ghost use Rattle.dom_select.specs.Meaning.{Holds};

    ghost are_known = { AreKnown };

    ghost matches = { λ compound forest n. Holds (read_compound compound) forest n };

    fn test(&self, x: &NodeRef<'_>, nested: &[bool], indexes: [u64; 4], tests: &mut u128) -> bool {
        *tests += 1;
        if let Some(name) = sole_type_selector(self) {
            return has_type(x.tree, &x.id, name);
        }
        let all = are_true(nested);
        if !all {
            return false;
        }
        parts_pass(&self.parts, x, &indexes)
    }
}

/// Returns whether the tree has the node and each simple selector matches it. The indexes of the
/// node are used for those that ask for one.
fn parts_pass(parts: &[Part], x: &NodeRef<'_>, indexes: &[u64; 4]) -> bool
    requires { AreIndexesFor parts.now x.now.tree.now x.now.id indexes.now }
    ensures { Decides result (PartsHold parts.now x.now.tree.now x.now.id) }
{
    match x.tree.tree_node(&x.id) {
        Some(found) => each_passes(parts, x, found, indexes),
        None => false,
    }
}

/// Returns whether each simple selector matches the node.
fn each_passes(parts: &[Part], x: &NodeRef<'_>, node: &TreeNode, indexes: &[u64; 4]) -> bool
    requires node { IsNodeOf x.now.tree.now x.now.id node.now }
    requires indexes { AreIndexesFor parts.now x.now.tree.now x.now.id indexes.now }
    ensures { IsTrue result ↔ EachHolds parts.now x.now.tree.now x.now.id }
{
    for part in parts {
        if !part_passes(part, x, node, indexes) {
            return false;
        }
    }
    true
}

/// Returns whether the simple selector matches the node.
fn part_passes(part: &Part, x: &NodeRef<'_>, node: &TreeNode, indexes: &[u64; 4]) -> bool
    requires node { IsNodeOf x.now.tree.now x.now.id node.now }
    requires index { HasIndexFor part.now x.now.tree.now x.now.id indexes.now }
    ensures { IsTrue result ↔ PartHolds part.now x.now.tree.now x.now.id }
{
    match part {
        Part::Position(position) => position_passes(*position, x, node, indexes),
        _ => holds_without_index(part, x.tree, &x.id, &node.content),
    }
}

/// Returns whether the index of the node is one of those in `position`.
fn position_passes(position: Position, x: &NodeRef<'_>, node: &TreeNode, indexes: &[u64; 4]) -> bool
    requires node { IsNodeOf x.now.tree.now x.now.id node.now }
    requires index { HasIndex position.kind x.now.tree.now x.now.id indexes.now }
    ensures { Decides result (IsNth position.nth (index_at position.kind x.now.tree.now x.now.id)) }
{
    index_law(x.tree, x.id, node);
    is_nth(position.nth, indexes[kind_place(position.kind)])
}

/// States that no index of the node is greater than 4294967295. It does nothing and is called for
/// its contract.
fn index_law(tree: &Tree, id: NodeId, node: &TreeNode)
    requires { IsNodeOf tree.now id node.now }
    ensures { (kind : IndexKind) → index_at kind tree.now id ≤ 4294967295 }
{
    let _nodes = tree.nodes();
}

/// Returns the place of an index of this kind among the four indexes of a node.
fn kind_place(kind: IndexKind) -> usize
    ensures is { result ≡ kind_place kind }
    ensures few { result < 4 }
{
    match kind {
        IndexKind::Child => 0,
        IndexKind::LastChild => 1,
        IndexKind::OfType => 2,
        IndexKind::LastOfType => 3,
    }
}

/// Returns the indexes of the node for a test of the compound selector: those of each kind that it
/// asks for, and 0 for the others. The caches have to be those of the node's tree.
pub fn indexes_for(
    compound: &Compound,
    x: &NodeRef<'_>,
    caches: &mut SelectorCaches<'_>,
) -> [u64; 4]
    requires { caches.old ≡ x.now.tree.now }
    ensures are { AreIndexesFor compound.now.parts.items x.now.tree.now x.now.id result }
    ensures kept { caches.new ≡ caches.old }
{
    let mut indexes = [0; 4];
    for part in &compound.parts {
        if let Part::Position(position) = part {
            indexes[kind_place(position.kind)] = caches.index_at(&x.id, position.kind);
        }
    }
    indexes
}

/// Returns whether the compound selector, with its nested lists, matches the node. The caches have
/// to be those of the node's tree.
pub fn compound_matches(
    compound: &Compound,
    x: &NodeRef<'_>,
    caches: &mut SelectorCaches<'_>,
) -> bool
    requires { caches.old ≡ x.now.tree.now }
    ensures is { Decides result (Holds (read_compound compound.now) x.now.tree.now x.now.id) }
    ensures kept { caches.new ≡ caches.old }
{
    holds(compound, caches, x.id)
}

/// Returns whether all answers are true.
fn are_true(answers: &[bool]) -> bool
    ensures { result ≡ list_all (λ b. b) answers.now }
{
    answers.iter().all(|answer| *answer)
}
