//! The moves of nodes. They allocate no memory and can't fail. A call requires that the move is
//! possible; `placing` has the tests for that.

ghost use Rattle.std.specs.Prelude.{◌≡◌, ◌<◌, [], ◌∷◌, false, length, Some};
ghost use Rattle.dom_links.specs.Forest.{IsArenaOf, forest_of, run_of};
ghost use Rattle.dom_links.specs.ListMoves.{CanMove, Moves, moved_nodes, moving_id};
ghost use Rattle.dom_links.specs.Lists.{first, is_member};
ghost use Rattle.dom_links.specs.Moves.{StartsRun, after_node, before_node, detach, end_of, front_of};
ghost use Rattle.dom_links.specs.Moves.{after_gap, before_gap, moved_to, owner_at, put};
ghost use Rattle.dom_links.specs.Sound.{Allowed, IsSoundArena, Removed, target};
ghost use Rattle.dom_links.specs.declared.gap.MovedNodes.TheVariants.{Node, WholeList, WithLater};

use crate::gap::{InsertionPoint, MovedNodes};
use crate::ops::TreeNodeOps;
use crate::ops::list_writes::attach_run;
use crate::ops::lists::cut_with_later;
use crate::ops::siblings::first_sibling_of;
use crate::ops::writes::{join, set_links};
use dom_nodes::node_data::TreeNode;
use dom_nodes::node_id::NodeId;

impl TreeNodeOps {
    /// Detaches a node from its parent and its siblings. A node that is detached already stays as
    /// it is.
    pub fn remove_from_parent(nodes: &mut [TreeNode], x: NodeId)
        requires linked { IsArenaOf (forest_of nodes.old) nodes.old }
        requires known { x < length nodes.old }
        ensures arena { IsArenaOf (detach (x ∷ []) (forest_of nodes.old)) nodes.new }
        ensures removed { Removed nodes.old nodes.new x }
    {
        let node = &nodes[x.value()];
        let parent = node.parent.get();
        let prev = node.prev_sibling.get();
        let next = node.next_sibling.get();
        join(nodes, parent, prev, next);
        set_links(nodes, x, None, None, None);
    }

    /// Moves nodes to an insertion point.
    pub fn move_to(nodes: &mut [TreeNode], gap: InsertionPoint, moving: MovedNodes)
        requires { CanMove nodes.old gap moving }
        ensures { Moves nodes.old nodes.new gap moving }
    {
        let start = cut_out(nodes, moving);
        put_at(nodes, gap, start);
    }

    /// Moves a node to the end of the children of `t`.
    pub fn append_child_of(nodes: &mut [TreeNode], t: NodeId, x: NodeId)
        requires { CanMove nodes.old (end_of t) (Node x) }
        ensures { Moves nodes.old nodes.new (end_of t) (Node x) }
    {
        TreeNodeOps::move_to(nodes, InsertionPoint::EndOf(t), MovedNodes::Node(x));
    }

    /// Moves a node to the front of the children of `t`.
    pub fn prepend_child_of(nodes: &mut [TreeNode], t: NodeId, x: NodeId)
        requires { CanMove nodes.old (front_of t) (Node x) }
        ensures { Moves nodes.old nodes.new (front_of t) (Node x) }
    {
        TreeNodeOps::move_to(nodes, InsertionPoint::FrontOf(t), MovedNodes::Node(x));
    }

    /// Moves a node to the place immediately before `t`.
    pub fn insert_before_of(nodes: &mut [TreeNode], t: NodeId, x: NodeId)
        requires { CanMove nodes.old (before_node t) (Node x) }
        ensures { Moves nodes.old nodes.new (before_node t) (Node x) }
    {
        TreeNodeOps::move_to(nodes, InsertionPoint::Before(t), MovedNodes::Node(x));
    }

    /// Moves a node to the place immediately after `t`.
    pub fn insert_after_of(nodes: &mut [TreeNode], t: NodeId, x: NodeId)
        requires { CanMove nodes.old (after_node t) (Node x) }
        ensures { Moves nodes.old nodes.new (after_node t) (Node x) }
    {
        TreeNodeOps::move_to(nodes, InsertionPoint::After(t), MovedNodes::Node(x));
    }

    /// Moves a node and its later siblings to the end of the children of `t`.
    pub fn append_children_of(nodes: &mut [TreeNode], t: NodeId, x: NodeId)
        requires { CanMove nodes.old (end_of t) (WithLater x) }
        ensures { Moves nodes.old nodes.new (end_of t) (WithLater x) }
    {
        TreeNodeOps::move_to(nodes, InsertionPoint::EndOf(t), MovedNodes::WithLater(x));
    }

    /// Moves a node and all its siblings to the front of the children of `t`.
    pub fn prepend_children_of(nodes: &mut [TreeNode], t: NodeId, x: NodeId)
        requires { CanMove nodes.old (front_of t) (WholeList x) }
        ensures { Moves nodes.old nodes.new (front_of t) (WholeList x) }
    {
        TreeNodeOps::move_to(nodes, InsertionPoint::FrontOf(t), MovedNodes::WholeList(x));
    }

    /// Moves a node and its later siblings to the place immediately before `t`.
    pub fn insert_siblings_before(nodes: &mut [TreeNode], t: NodeId, x: NodeId)
        requires { CanMove nodes.old (before_node t) (WithLater x) }
        ensures { Moves nodes.old nodes.new (before_node t) (WithLater x) }
    {
        TreeNodeOps::move_to(nodes, InsertionPoint::Before(t), MovedNodes::WithLater(x));
    }

    /// Moves a node and its later siblings to the place immediately after `t`.
    pub fn insert_siblings_after(nodes: &mut [TreeNode], t: NodeId, x: NodeId)
        requires { CanMove nodes.old (after_node t) (WithLater x) }
        ensures { Moves nodes.old nodes.new (after_node t) (WithLater x) }
    {
        TreeNodeOps::move_to(nodes, InsertionPoint::After(t), MovedNodes::WithLater(x));
    }
}

/// Moves one node, which must be allowed there, to an insertion point.
#[tactic(auto, using(crate::proofs::moves::Cuts::no_other))]
pub(crate) fn put_alone(nodes: &mut [TreeNode], gap: InsertionPoint, x: NodeId)
    requires sound { IsSoundArena nodes.old }
    requires allowed { Allowed (forest_of nodes.old) gap x }
    ensures made { let old = forest_of nodes.old
        in forest_of nodes.new ≡ moved_to (moved_nodes old (Node x)) gap old }
    ensures sound { IsSoundArena nodes.new }
{
    TreeNodeOps::move_to(nodes, gap, MovedNodes::Node(x));
}

/// Detaches the nodes that are to be moved, and returns the first of them. They are then siblings
/// of each other without a parent.
fn cut_out(nodes: &mut [TreeNode], moving: MovedNodes) -> NodeId
    requires linked { IsArenaOf (forest_of nodes.old) nodes.old }
    requires known { moving_id moving < length nodes.old }
    ensures arena { IsArenaOf
        (detach (moved_nodes (forest_of nodes.old) moving) (forest_of nodes.old)) nodes.new }
    ensures start { first (moved_nodes (forest_of nodes.old) moving) ≡ Some result }
    ensures start_known { result < length nodes.old }
{
    match moving {
        MovedNodes::Node(x) => {
            TreeNodeOps::remove_from_parent(nodes, x);
            x
        }
        MovedNodes::WithLater(x) => {
            cut_with_later(nodes, x);
            x
        }
        MovedNodes::WholeList(x) => {
            let start = first_sibling_of(nodes, x);
            cut_with_later(nodes, start);
            start
        }
    }
}

/// The parent and the neighbours that nodes at an insertion point get.
#[derive(Drop)]
pub(crate) struct ResolvedPoint {
    pub(crate) owner: Option<NodeId>,
    pub(crate) left: Option<NodeId>,
    pub(crate) right: Option<NodeId>,
}

/// Returns the parent and the neighbours for an insertion point.
pub(crate) fn resolved_point_at(nodes: &[TreeNode], gap: InsertionPoint) -> ResolvedPoint
    requires linked { IsArenaOf (forest_of nodes.now) nodes.now }
    requires target_known { target gap < length nodes.now }
    ensures owner { result.owner ≡ owner_at gap (forest_of nodes.now) }
    ensures left { result.left ≡ before_gap gap (forest_of nodes.now) }
    ensures right { result.right ≡ after_gap gap (forest_of nodes.now) }
{
    match gap {
        InsertionPoint::EndOf(t) => ResolvedPoint {
            owner: Some(t),
            left: nodes[t.value()].last_child.get(),
            right: None,
        },
        InsertionPoint::FrontOf(t) => ResolvedPoint {
            owner: Some(t),
            left: None,
            right: nodes[t.value()].first_child.get(),
        },
        InsertionPoint::Before(t) => ResolvedPoint {
            owner: nodes[t.value()].parent.get(),
            left: nodes[t.value()].prev_sibling.get(),
            right: Some(t),
        },
        InsertionPoint::After(t) => ResolvedPoint {
            owner: nodes[t.value()].parent.get(),
            left: Some(t),
            right: nodes[t.value()].next_sibling.get(),
        },
    }
}

/// Links a node that starts a detached list of siblings, and the rest of that list, at an insertion
/// point.
pub(crate) fn put_at(nodes: &mut [TreeNode], gap: InsertionPoint, x: NodeId)
    requires linked { IsArenaOf (forest_of nodes.old) nodes.old }
    requires target_known { target gap < length nodes.old }
    requires run { StartsRun (forest_of nodes.old) x }
    requires apart { is_member (target gap) (run_of (forest_of nodes.old) x) ≡ false }
    ensures { IsArenaOf (put gap (run_of (forest_of nodes.old) x) (forest_of nodes.old)) nodes.new }
{
    let room = resolved_point_at(nodes, gap);
    attach_run(nodes, x, &room);
}
