//! The relative selectors of `:has`: where they start, and which nodes they can match.

ghost use Rattle.std.specs.Prelude.{◌≡◌, ◌↔◌, ◌∷◌, Some, IsTrue};
ghost use Rattle.std.specs.List.{list_all};
ghost use Rattle.dom_selectors.specs.declared.syntax.Combinator.TheVariants.{Descendant};
ghost use Rattle.dom_select.specs.Meaning.{IsJoined};
ghost use Rattle.dom_select.specs.Has.{AreRightOf, IsInRow, IsNear, ends_right, is_sideways};
ghost use Rattle.dom_select.specs.Has.{may_be_subject, right_row, row_combinator, search_roots};
ghost use Rattle.dom_select.specs.Has.{search_roots_from};

use crate::matcher::chains::{combinator_holds, is_sideways, line_laws, may_be_operand};
use crate::matcher::parts::element_at;
use dom_links::iters::{first_child_id, next_sibling_id};
use dom_nodes::node_id::NodeId;
use dom_selectors::syntax::{Combinator, Step};
use dom_trees::tree::Tree;

/// Where a selector starts: anywhere, or on the right of a combinator with this anchor on its left.
#[derive(Clone, Copy)]
pub(crate) enum Start {
    Absolute,
    Relative(Combinator, NodeId),
}

/// Returns whether the combinator relates the anchor to the node, and both are allowed as its
/// operands.
pub(crate) fn is_joined(tree: &Tree, lead: Combinator, from: NodeId, id: NodeId) -> bool
    ensures { IsTrue result ↔ IsJoined tree.now from lead from id }
{
    if !may_be_operand(tree, from, lead, id) {
        return false;
    }
    combinator_holds(tree, lead, from, id)
}

/// Returns whether the node may be the result of a match: in a relative selector it has to be an
/// element.
pub(crate) fn may_be_subject(start: &Start, tree: &Tree, id: NodeId) -> bool
    ensures { result ≡ may_be_subject start.now tree.now id }
{
    match start {
        Start::Absolute => true,
        Start::Relative(_, _) => element_at(tree, &id),
    }
}

/// Returns the first node at or below which a relative selector with this combinator can match.
pub(crate) fn first_search_root(tree: &Tree, lead: Combinator, id: NodeId) -> Option<NodeId>
    ensures { search_roots_from tree.now lead result ≡ search_roots tree.now lead id }
{
    line_laws(tree);
    if is_sideways(lead) {
        return next_sibling_id(tree.nodes(), &id);
    }
    Some(id)
}

/// Returns the next node at or below which it can match.
pub(crate) fn next_search_root(tree: &Tree, lead: Combinator, at: NodeId) -> Option<NodeId>
    ensures { search_roots_from tree.now lead (Some at)
        ≡ at ∷ search_roots_from tree.now lead result }
{
    line_laws(tree);
    if is_sideways(lead) {
        return next_sibling_id(tree.nodes(), &at);
    }
    None
}

/// Returns whether the selector has no steps and can match only children or siblings.
pub(crate) fn is_near(lead: Combinator, steps: &[Step]) -> bool
    ensures { IsTrue result → IsNear lead steps.now }
{
    match lead {
        Combinator::Descendant => false,
        Combinator::Child | Combinator::Adjacent | Combinator::Sibling => steps.is_empty(),
    }
}

/// Returns whether all steps go to siblings and the selector can match only children or siblings.
pub(crate) fn is_in_row(lead: Combinator, steps: &[Step]) -> bool
    ensures { IsTrue result → IsInRow lead steps.now }
{
    match lead {
        Combinator::Descendant => false,
        Combinator::Child | Combinator::Adjacent | Combinator::Sibling => are_sideways(steps),
    }
}

fn are_sideways(steps: &[Step]) -> bool
    ensures { result ≡ list_all (λ step. is_sideways step.combinator) steps.now }
{
    steps.iter().all(|step| is_sideways(step.combinator))
}

/// Returns the combinator that covers all these children or siblings.
pub(crate) fn row_combinator(lead: Combinator) -> Combinator
    ensures { result ≡ row_combinator lead }
{
    match lead {
        Combinator::Child => Combinator::Child,
        Combinator::Descendant | Combinator::Adjacent | Combinator::Sibling => Combinator::Sibling,
    }
}

/// Returns the first of the children, or of the later siblings, that the combinator can relate to
/// the node.
pub(crate) fn first_right(tree: &Tree, lead: Combinator, id: NodeId) -> Option<NodeId>
    requires { lead ≡ Descendant → ⊥ }
    ensures { AreRightOf tree.now lead id (right_row tree.now lead result) }
{
    line_laws(tree);
    if is_sideways(lead) {
        return next_sibling_id(tree.nodes(), &id);
    }
    first_child_id(tree.nodes(), &id)
}

/// Returns the next of them.
pub(crate) fn next_right(tree: &Tree, lead: Combinator, at: NodeId) -> Option<NodeId>
    ensures { right_row tree.now lead (Some at) ≡ at ∷ right_row tree.now lead result }
{
    line_laws(tree);
    if ends_right(tree, lead, at) {
        return None;
    }
    next_sibling_id(tree.nodes(), &at)
}

/// Returns whether the combinator can relate no later node.
fn ends_right(tree: &Tree, lead: Combinator, at: NodeId) -> bool
    ensures { result ≡ ends_right tree.now lead at }
{
    match lead {
        Combinator::Adjacent => element_at(tree, &at),
        Combinator::Descendant | Combinator::Child | Combinator::Sibling => false,
    }
}
