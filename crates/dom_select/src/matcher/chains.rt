//! The relations between the nodes of a chain of compound selectors, from right to left.

ghost use Rattle.std.specs.Prelude.{◌≡◌, ◌↔◌, Some, IsTrue};
ghost use Rattle.dom_links.specs.Laws.{AreLines};
ghost use Rattle.dom_select.specs.Leftward.{ends_at, left_of};
ghost use Rattle.dom_select.specs.Meaning.{MayBeOperand, CombinatorHolds};
ghost use Rattle.dom_select.specs.Chains.{binding_level};
ghost use Rattle.dom_select.specs.Has.{is_deep, is_sideways};

use crate::matcher::parts::element_at;
use dom_links::iters::{next_sibling_id, parent_id, prev_sibling_id};
use dom_links::laws::lines_of_a_forest;
use dom_nodes::node_id::NodeId;
use dom_selectors::syntax::Combinator;
use dom_trees::tree::Tree;

/// Returns whether every descendant may be on the right of the combinator.
#[inline(always)]
pub fn is_deep(combinator: Combinator) -> bool
    ensures { result ≡ is_deep combinator }
{
    match combinator {
        Combinator::Descendant => true,
        Combinator::Child | Combinator::Adjacent | Combinator::Sibling => false,
    }
}

/// Returns whether the combinator relates siblings.
pub fn is_sideways(combinator: Combinator) -> bool
    ensures { result ≡ is_sideways combinator }
{
    match combinator {
        Combinator::Descendant | Combinator::Child => false,
        Combinator::Adjacent | Combinator::Sibling => true,
    }
}

/// Returns whether the node may be an operand of the combinator: beside `+` and `~` it has to be an
/// element, unless it is `exempt`.
#[inline(always)]
pub(crate) fn may_be_operand(
    tree: &Tree,
    exempt: NodeId,
    combinator: Combinator,
    id: NodeId,
) -> bool
    ensures { IsTrue result ↔ MayBeOperand tree.now exempt combinator id }
{
    match combinator {
        Combinator::Descendant | Combinator::Child => true,
        Combinator::Adjacent | Combinator::Sibling => {
            id.value() == exempt.value() || element_at(tree, &id)
        }
    }
}

/// States how parents and siblings are linked in the tree. It does nothing at run time; a call of
/// it brings its `ensures` clauses into the caller's proof.
pub(crate) fn line_laws(tree: &Tree)
    ensures { AreLines tree.now }
{
    let _nodes = tree.nodes();
    lines_of_a_forest();
}

/// Returns the next node to the left: the parent, or the previous sibling.
#[inline(always)]
pub(crate) fn left_of(tree: &Tree, combinator: Combinator, id: NodeId) -> Option<NodeId>
    ensures link { result ≡ left_of tree.now combinator id }
    ensures lines { AreLines tree.now }
{
    let nodes = tree.nodes();
    lines_of_a_forest();
    match combinator {
        Combinator::Descendant | Combinator::Child => parent_id(nodes, &id),
        Combinator::Adjacent | Combinator::Sibling => prev_sibling_id(nodes, &id),
    }
}

/// Returns whether no node farther to the left can be related by the combinator.
#[inline(always)]
pub(crate) fn ends_at(tree: &Tree, combinator: Combinator, id: NodeId) -> bool
    ensures { result ≡ ends_at tree.now combinator id }
{
    match combinator {
        Combinator::Descendant | Combinator::Sibling => false,
        Combinator::Child => true,
        Combinator::Adjacent => element_at(tree, &id),
    }
}

/// Returns how loosely a combinator binds.
pub(crate) fn binding_level(combinator: Combinator) -> usize
    ensures { result ≡ binding_level combinator }
{
    match combinator {
        Combinator::Adjacent => 1,
        Combinator::Sibling => 2,
        Combinator::Child => 3,
        Combinator::Descendant => 4,
    }
}

/// Returns whether the combinator relates `first`, on its left, to `id`.
pub(crate) fn combinator_holds(
    tree: &Tree,
    combinator: Combinator,
    first: NodeId,
    id: NodeId,
) -> bool
    ensures { IsTrue result ↔ CombinatorHolds tree.now combinator first id }
{
    let mut at = id;
    while let Some(left) = left_of(tree, combinator, at) {
        if left == first {
            return true;
        }
        if ends_at(tree, combinator, left) {
            return false;
        }
        at = left;
    }
    false
}
