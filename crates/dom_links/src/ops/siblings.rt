//! Looking up the siblings, the parent and the children of a node. An unknown id has none of them.

ghost use Rattle.std.specs.Prelude.{◌≡◌, ◌<◌, IfSome, MatchOption, Some, [], false, find, length};
ghost use Rattle.std.specs.Prelude.{not, true, if◌then◌else◌};
ghost use Rattle.dom_links.specs.Forest.{IsArenaOf, forest_of, children_of, siblings};
ghost use Rattle.dom_links.specs.ListMoves.{element_above, element_at, with_later, wrapper};
ghost use Rattle.dom_links.specs.Lists.{first, last};
ghost use Rattle.dom_links.specs.Sound.{IsSoundArena, stays};
ghost use Rattle.dom_links.specs.Walk.{IsWithin, later, row_on};

use crate::iters::{first_child_id, next_sibling_id, node_at, prev_sibling_id};
use crate::ops::TreeNodeOps;
use crate::ops::placing::stays_put;
use dom_nodes::node_data::TreeNode;
use dom_nodes::node_id::NodeId;

impl TreeNodeOps {
    /// Returns whether nodes may be put beside a node: whether it isn't the root, a document or a
    /// fragment.
    pub fn may_have_siblings(nodes: &[TreeNode], t: NodeId) -> bool
        requires linked { IsArenaOf (forest_of nodes.now) nodes.now }
        requires known { t < length nodes.now }
        ensures { result ≡ not (stays (forest_of nodes.now) t) }
    {
        !stays_put(nodes, t)
    }

    /// Returns the last one of the siblings after a node, or `None` when there is none after it.
    pub fn last_sibling_of(nodes: &[TreeNode], id: &NodeId) -> Option<NodeId>
        requires { IsSoundArena nodes.now }
        ensures { result ≡ last (later (forest_of nodes.now) false id.now) }
    {
        let mut found = None;
        let mut next = next_sibling_id(nodes, id);
        while let Some(at) = next {
            found = Some(at);
            next = node_at(nodes, at).next_sibling.get();
        }
        found
    }

    /// Returns the nearest element among the siblings after a node, or `None` when there is none.
    pub fn next_element_sibling_of(nodes: &[TreeNode], id: &NodeId) -> Option<NodeId>
        requires { IsSoundArena nodes.now }
        ensures { result ≡ find (element_at (forest_of nodes.now))
            (later (forest_of nodes.now) false id.now) }
    {
        first_element_on(nodes, next_sibling_id(nodes, id), false)
    }

    /// Returns the nearest element among the siblings before a node, or `None` when there is none.
    pub fn prev_element_sibling_of(nodes: &[TreeNode], id: &NodeId) -> Option<NodeId>
        requires { IsSoundArena nodes.now }
        ensures { result ≡ find (element_at (forest_of nodes.now))
            (later (forest_of nodes.now) true id.now) }
    {
        first_element_on(nodes, prev_sibling_id(nodes, id), true)
    }

    /// Returns the first element among the children of a node, or `None` when there is none.
    pub fn first_element_child_of(nodes: &[TreeNode], id: &NodeId) -> Option<NodeId>
        requires { IsSoundArena nodes.now }
        ensures { result ≡ find (element_at (forest_of nodes.now))
            (children_of (forest_of nodes.now) id.now) }
    {
        first_element_on(nodes, first_child_id(nodes, id), false)
    }
}

/// Returns the first node of the list of siblings that the node belongs to, which may be the node
/// itself.
pub fn first_sibling_of(nodes: &[TreeNode], x: NodeId) -> NodeId
    requires linked { IsArenaOf (forest_of nodes.now) nodes.now }
    requires known { x < length nodes.now }
    ensures first { first (siblings (forest_of nodes.now) x) ≡ Some result }
    ensures known { result < length nodes.now }
    ensures all { with_later (forest_of nodes.now) result ≡ siblings (forest_of nodes.now) x }
{
    let mut at = x;
    while let Some(prev) = nodes[at.value()].prev_sibling.get() {
        at = prev;
    }
    at
}

/// Returns the first child of a node, or `None` when there is none.
pub fn first_child_of(nodes: &[TreeNode], x: NodeId) -> Option<NodeId>
    requires linked { IsArenaOf (forest_of nodes.now) nodes.now }
    requires known { x < length nodes.now }
    ensures first { result ≡ first (children_of (forest_of nodes.now) x) }
    ensures known { IfSome result (λ child. child < length nodes.now) }
    ensures all { MatchOption result (children_of (forest_of nodes.now) x ≡ [])
        (λ child. with_later (forest_of nodes.now) child ≡ children_of (forest_of nodes.now) x) }
{
    nodes[x.value()].first_child.get()
}

/// Returns the parent of a node if that is an element, and `None` otherwise.
fn element_above_of(nodes: &[TreeNode], n: NodeId) -> Option<NodeId>
    requires linked { IsArenaOf (forest_of nodes.now) nodes.now }
    requires known { n < length nodes.now }
    ensures { result ≡ element_above (forest_of nodes.now) n }
{
    let parent = nodes[n.value()].parent.get()?;
    if nodes[parent.value()].is_element() {
        Some(parent)
    } else {
        None
    }
}

/// Returns the parent of a node if both the parent and the grandparent are elements, and `None`
/// otherwise.
pub fn wrapper_of(nodes: &[TreeNode], x: NodeId) -> Option<NodeId>
    requires linked { IsArenaOf (forest_of nodes.now) nodes.now }
    requires known { x < length nodes.now }
    ensures { result ≡ wrapper (forest_of nodes.now) x }
{
    let parent = element_above_of(nodes, x)?;
    element_above_of(nodes, parent)?;
    Some(parent)
}

/// Returns the first element from a node on, in this direction along its siblings.
fn first_element_on(nodes: &[TreeNode], from: Option<NodeId>, rev: bool) -> Option<NodeId>
    requires sound { IsSoundArena nodes.now }
    requires within { IsWithin (forest_of nodes.now) from }
    ensures { result ≡ find (element_at (forest_of nodes.now))
        (row_on (forest_of nodes.now) rev from) }
{
    let mut next = from;
    while let Some(at) = next {
        let node = node_at(nodes, at);
        if node.is_element() {
            return Some(at);
        }
        next = neighbour(node, rev);
    }
    None
}

/// Returns the next sibling of a node, or the previous one if `rev` is true; `None` when there is
/// none.
pub(crate) fn neighbour(node: &TreeNode, rev: bool) -> Option<NodeId>
    ensures { result ≡ (if rev then node.now.prev_sibling else node.now.next_sibling) }
{
    if rev {
        node.prev_sibling.get()
    } else {
        node.next_sibling.get()
    }
}
