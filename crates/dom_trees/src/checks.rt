//! The tests for whether an edit is allowed, each with the fault that says why not.

ghost use Rattle.std.specs.Prelude.{◌≡◌, ◌<◌, ◌≤◌, MatchResult, length, true};
ghost use Rattle.dom_nodes.specs.declared.fault.EditFault.TheVariants.{TooManyNodes};
ghost use Rattle.dom_links.specs.Forest.{forest_of};
ghost use Rattle.dom_links.specs.Insertions.{gap_at};
ghost use Rattle.dom_links.specs.ListMoves.{EachOf, MayWrap, moved_nodes, moving_id};
ghost use Rattle.dom_links.specs.Sound.{IsSoundArena, MayPlace, is_open, target};
ghost use Rattle.dom_trees.specs.Edits.{IsKnown, MayMove, MayReparentOf};
ghost use Rattle.dom_trees.specs.Refusals.{KnownCause, MoveCause, MovedCause, OpenCause};
ghost use Rattle.dom_trees.specs.Refusals.{PlaceCause, ReparentCause, WrapCause};

use dom_links::gap::{InsertionPoint, MovedNodes, Place};
use dom_links::ops::TreeNodeOps;
use dom_links::ops::placing::stays_put;
use dom_links::ops::siblings::first_child_of;
use dom_nodes::fault::EditFault;
use dom_nodes::node_data::TreeNode;
use dom_nodes::node_id::NodeId;

/// Tests that there is a node with this id. It fails with `UnknownNode`.
pub(crate) fn check_known(nodes: &[TreeNode], x: NodeId) -> Result<(), EditFault>
    requires { IsSoundArena nodes.now }
    ensures { MatchResult result (λ _. IsKnown x (forest_of nodes.now))
        (KnownCause x (forest_of nodes.now)) }
{
    if x.value() < nodes.len() {
        Ok(())
    } else {
        Err(EditFault::UnknownNode)
    }
}

/// Tests that nodes may be put at the insertion point. It fails with `NoChildrenHere` or
/// `RootOrFragment`.
pub(crate) fn check_open(nodes: &[TreeNode], gap: &InsertionPoint) -> Result<(), EditFault>
    requires sound { IsSoundArena nodes.now }
    requires known { IsKnown (target gap.now) (forest_of nodes.now) }
    ensures { MatchResult result (λ _. is_open gap.now (forest_of nodes.now) ≡ true)
        (OpenCause gap.now (forest_of nodes.now)) }
{
    match *gap {
        InsertionPoint::EndOf(t) | InsertionPoint::FrontOf(t) => {
            if !TreeNodeOps::may_have_children(nodes, t) {
                return Err(EditFault::NoChildrenHere);
            }
        }
        InsertionPoint::Before(t) | InsertionPoint::After(t) => {
            if !TreeNodeOps::may_have_siblings(nodes, t) {
                return Err(EditFault::RootOrFragment);
            }
        }
    }
    Ok(())
}

/// Tests that the node `x` exists and that nodes may be put at this place relative to it. It fails
/// with `UnknownNode`, `NoChildrenHere` or `RootOrFragment`.
pub(crate) fn check_place(nodes: &[TreeNode], x: NodeId, place: Place) -> Result<(), EditFault>
    requires { IsSoundArena nodes.now }
    ensures { MatchResult result (λ _. IsKnown x (forest_of nodes.now)
        × (is_open (gap_at place x) (forest_of nodes.now) ≡ true))
        (PlaceCause place x (forest_of nodes.now)) }
{
    check_known(nodes, x)?;
    check_open(nodes, &place.gap(x))
}

/// Returns the node that describes the insertion point.
pub(crate) fn target_of(gap: &InsertionPoint) -> NodeId
    ensures { result ≡ target gap.now }
{
    match *gap {
        InsertionPoint::EndOf(t)
        | InsertionPoint::FrontOf(t)
        | InsertionPoint::Before(t)
        | InsertionPoint::After(t) => t,
    }
}

/// Returns the node that describes which nodes are moved.
fn moving_id_of(moving: &MovedNodes) -> NodeId
    ensures { result ≡ moving_id moving.now }
{
    match *moving {
        MovedNodes::Node(x) | MovedNodes::WithLater(x) | MovedNodes::WholeList(x) => x,
    }
}

/// Tests that each of the moved nodes may be moved to `t`. It fails with `RootOrFragment` or
/// `Cycle`.
#[tactic(auto, using(crate::proofs::Whole::mover_stands))]
fn check_moved(nodes: &[TreeNode], t: NodeId, moving: &MovedNodes) -> Result<(), EditFault>
    requires sound { IsSoundArena nodes.now }
    requires target_known { IsKnown t (forest_of nodes.now) }
    requires known { IsKnown (moving_id moving.now) (forest_of nodes.now) }
    ensures { let moved = moved_nodes (forest_of nodes.now) moving.now
        in MatchResult result (λ _. EachOf moved (MayPlace (forest_of nodes.now) t))
        (MovedCause t moved (forest_of nodes.now)) }
{
    if TreeNodeOps::may_move(nodes, t, *moving) {
        return Ok(());
    }
    if stays_put(nodes, moving_id_of(moving)) {
        Err(EditFault::RootOrFragment)
    } else {
        Err(EditFault::Cycle)
    }
}

/// Tests that an id is left for a new node. It fails with `TooManyNodes`.
pub(crate) fn check_room(nodes: &[TreeNode]) -> Result<(), EditFault>
    requires { IsSoundArena nodes.now }
    ensures { let count = length (forest_of nodes.now).content
        in MatchResult result (λ _. count < 4294967295)
        (λ fault. (fault ≡ TooManyNodes) × (4294967295 ≤ count)) }
{
    match NodeId::new(nodes.len()) {
        Some(_) => Ok(()),
        None => Err(EditFault::TooManyNodes),
    }
}

/// Tests that the nodes may be moved to the insertion point. It fails with `UnknownNode`,
/// `NoChildrenHere`, `RootOrFragment` or `Cycle`.
pub(crate) fn check_move(
    nodes: &[TreeNode],
    gap: &InsertionPoint,
    moving: &MovedNodes,
) -> Result<(), EditFault>
    requires { IsSoundArena nodes.now }
    ensures { MatchResult result (λ _. MayMove gap.now moving.now (forest_of nodes.now))
        (MoveCause gap.now moving.now (forest_of nodes.now)) }
{
    let t = target_of(gap);
    check_known(nodes, t)?;
    check_known(nodes, moving_id_of(moving))?;
    check_open(nodes, gap)?;
    check_moved(nodes, t, moving)
}

/// Tests that the children of `x` may be moved to the end of the children of another node, or
/// detached. It fails with `UnknownNode`, `NoChildrenHere` or `Cycle`.
pub(crate) fn check_reparent(
    nodes: &[TreeNode],
    x: NodeId,
    parent: Option<NodeId>,
) -> Result<(), EditFault>
    requires { IsSoundArena nodes.now }
    ensures { MatchResult result (λ _. MayReparentOf x parent (forest_of nodes.now))
        (ReparentCause x parent (forest_of nodes.now)) }
{
    check_known(nodes, x)?;
    let Some(t) = parent else {
        return Ok(());
    };
    check_known(nodes, t)?;
    check_open(nodes, &InsertionPoint::EndOf(t))?;
    let Some(first) = first_child_of(nodes, x) else {
        return Ok(());
    };
    check_moved(nodes, t, &MovedNodes::WithLater(first))
}

/// Tests that `x` may be wrapped in `w`. It fails with `UnknownNode`, `NoChildrenHere`,
/// `RootOrFragment` or `Cycle`.
pub(crate) fn check_wrap(nodes: &[TreeNode], x: NodeId, w: NodeId) -> Result<(), EditFault>
    requires { IsSoundArena nodes.now }
    ensures { MatchResult result (λ _. MayWrap (forest_of nodes.now) x w)
        (WrapCause x w (forest_of nodes.now)) }
{
    check_move(nodes, &InsertionPoint::Before(x), &MovedNodes::Node(w))?;
    check_open(nodes, &InsertionPoint::EndOf(w))
}
