//! Moves of all children of a node, and edits that consist of two moves: replace, wrap, unwrap.
//! They allocate no memory and can't fail.

ghost use Rattle.std.specs.Prelude.{◌≡◌, ◌≢◌, ◌<◌, [], ◌∷◌, ℕ, false, length, IfSome};
ghost use Rattle.dom_links.specs.Forest.{IsArenaOf, forest_of, children_of};
ghost use Rattle.dom_links.specs.ListMoves.{ChildrenRemoved, Reparents, Replaced, Unwrapped};
ghost use Rattle.dom_links.specs.ListMoves.{Wrapped, with_later};
ghost use Rattle.dom_links.specs.Lists.{is_member};
ghost use Rattle.dom_links.specs.Moves.{detach, end_of};
ghost use Rattle.dom_links.specs.SetTexts.{with_only_child};
ghost use Rattle.dom_links.specs.Sound.{Allowed, IsForest, IsSoundArena};

use crate::gap::{InsertionPoint, MovedNodes};
use crate::ops::TreeNodeOps;
use crate::ops::list_writes::set_parents;
use crate::ops::siblings::{first_child_of, wrapper_of};
use crate::ops::writes::join;
use dom_nodes::node_data::TreeNode;
use dom_nodes::node_id::NodeId;

impl TreeNodeOps {
    /// Moves the children of `x` to the end of the children of `parent`. Without a parent they are
    /// detached, and are siblings of each other.
    pub fn reparent_children_of(nodes: &mut [TreeNode], x: NodeId, parent: Option<NodeId>)
        requires linked { IsArenaOf (forest_of nodes.old) nodes.old }
        requires known { x < length nodes.old }
        requires target_known { IfSome parent (λ t. t < length nodes.old) }
        requires apart { IfSome parent
            (λ t. is_member t (children_of (forest_of nodes.old) x) ≡ false) }
        ensures { Reparents nodes.old nodes.new x parent }
    {
        let Some(t) = parent else {
            remove_children(nodes, x);
            return;
        };
        let Some(first) = first_child_of(nodes, x) else {
            return;
        };
        TreeNodeOps::append_children_of(nodes, t, first);
    }
}

/// Detaches a node and its later siblings. They stay siblings of each other.
pub(crate) fn cut_with_later(nodes: &mut [TreeNode], x: NodeId)
    requires linked { IsArenaOf (forest_of nodes.old) nodes.old }
    requires known { x < length nodes.old }
    ensures { IsArenaOf (detach (with_later (forest_of nodes.old) x) (forest_of nodes.old)) nodes.new }
{
    let node = &nodes[x.value()];
    let parent = node.parent.get();
    let prev = node.prev_sibling.get();
    join(nodes, parent, prev, None);
    join(nodes, None, None, Some(x));
    set_parents(nodes, x, None);
}

/// Detaches the children of a node. They stay siblings of each other.
pub fn remove_children(nodes: &mut [TreeNode], x: NodeId)
    requires linked { IsArenaOf (forest_of nodes.old) nodes.old }
    requires known { x < length nodes.old }
    ensures { ChildrenRemoved nodes.old nodes.new x }
{
    let Some(first) = first_child_of(nodes, x) else {
        return;
    };
    cut_with_later(nodes, first);
}

/// Detaches the children of `x`, and makes the node `child` its only child.
#[tactic(auto, using(crate::proofs::moves::Cuts::no_other))]
pub(crate) fn set_only_child(nodes: &mut [TreeNode], x: NodeId, child: NodeId)
    requires sound { IsSoundArena nodes.old }
    requires allowed { Allowed (forest_of nodes.old) (end_of x) child }
    ensures made { forest_of nodes.new ≡ with_only_child x child (forest_of nodes.old) }
    ensures sound { IsSoundArena nodes.new }
{
    remove_children(nodes, x);
    TreeNodeOps::append_child_of(nodes, x, child);
}

/// Moves `x` to the place immediately before `t`, and then detaches `t`.
#[tactic(auto, using(crate::proofs::moves::Cuts::no_other))]
pub fn replace_with(nodes: &mut [TreeNode], t: NodeId, x: NodeId)
    requires linked { IsArenaOf (forest_of nodes.old) nodes.old }
    requires target_known { t < length nodes.old }
    requires known { x < length nodes.old }
    requires apart { x ≢ t }
    ensures { Replaced nodes.old nodes.new t x }
{
    TreeNodeOps::insert_before_of(nodes, t, x);
    TreeNodeOps::remove_from_parent(nodes, t);
}

/// Moves `w` to the place immediately before `x`, and then `x` to the end of the children of `w`.
#[tactic(auto, using(crate::proofs::moves::Cuts::no_other))]
pub fn wrap_node(nodes: &mut [TreeNode], x: NodeId, w: NodeId)
    requires linked { IsArenaOf (forest_of nodes.old) nodes.old }
    requires known { x < length nodes.old }
    requires wrapper_known { w < length nodes.old }
    requires apart { w ≢ x }
    ensures { Wrapped nodes.old nodes.new x w }
{
    TreeNodeOps::insert_before_of(nodes, x, w);
    TreeNodeOps::append_child_of(nodes, w, x);
}

/// Removes the parent of a node and keeps the parent's children in its place. If the parent or the
/// grandparent is no element, nothing changes.
pub fn unwrap_node(nodes: &mut [TreeNode], x: NodeId)
    requires linked { IsArenaOf (forest_of nodes.old) nodes.old }
    requires forest { IsForest (forest_of nodes.old) }
    requires known { x < length nodes.old }
    ensures { Unwrapped nodes.old nodes.new x }
{
    let Some(parent) = wrapper_of(nodes, x) else {
        return;
    };
    TreeNodeOps::move_to(
        nodes,
        InsertionPoint::Before(parent),
        MovedNodes::WholeList(x),
    );
    TreeNodeOps::remove_from_parent(nodes, parent);
}
