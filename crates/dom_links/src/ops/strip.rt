//! Replacing elements by their children. No memory is allocated.

ghost use Rattle.std.specs.Prelude.{◌≡◌, ◌<◌, map, length, Some, ℕ};
ghost use Rattle.dom_links.specs.Forest.{children_of, forest_of, parent};
ghost use Rattle.dom_links.specs.ListMoves.{MovedList};
ghost use Rattle.dom_links.specs.Moves.{before_node};
ghost use Rattle.dom_links.specs.Sound.{IsSoundArena};
ghost use Rattle.dom_links.specs.Stripped.{dissolved, is_named, stripped};

use crate::gap::{InsertionPoint, MovedNodes};
use crate::iters::{find_node, first_child_id, next_after};
use crate::ops::TreeNodeOps;
use crate::ops::siblings::first_child_of;
use dom_nodes::node_data::TreeNode;
use dom_nodes::node_id::NodeId;
use dom_nodes::words::is_one_of;

impl TreeNodeOps {
    /// Replaces each element below the node whose local name is one of the names by its children.
    /// The node itself stays. It allocates no memory and can't fail, and its time is linear in the
    /// size of the subtree. For an unknown id nothing happens.
    pub fn strip_elements(nodes: &mut [TreeNode], id: NodeId, names: &[&str])
        requires { IsSoundArena nodes.old }
        ensures made { forest_of nodes.new
            ≡ stripped (map (λ name. name.now) names.now) id (forest_of nodes.old) }
        ensures sound { IsSoundArena nodes.new }
    {
        let mut next = first_child_id(nodes, &id);
        while let Some(at) = next {
            next = next_after(nodes, id, at);
            if is_named(nodes, at, names) {
                dissolve(nodes, at);
            }
        }
    }
}

/// Returns whether the node is an element whose local name is one of the names.
fn is_named(nodes: &[TreeNode], id: NodeId, names: &[&str]) -> bool
    requires { IsSoundArena nodes.now }
    ensures { result ≡ is_named (map (λ name. name.now) names.now) (forest_of nodes.now) id }
{
    let Some(node) = find_node(nodes, id) else {
        return false;
    };
    let Some(element) = node.content.as_element() else {
        return false;
    };
    is_one_of(element.node_name(), names)
}

/// Moves the children of a node, which must have a parent, to the place immediately before it.
fn put_children_before(nodes: &mut [TreeNode], p: NodeId)
    requires sound { IsSoundArena nodes.old }
    requires placed { (q : ℕ) × (parent (forest_of nodes.old) p ≡ Some q) }
    ensures { MovedList nodes.old nodes.new (before_node p) (children_of (forest_of nodes.old) p) }
{
    let Some(first) = first_child_of(nodes, p) else {
        return;
    };
    TreeNodeOps::move_to(
        nodes,
        InsertionPoint::Before(p),
        MovedNodes::WithLater(first),
    );
}

/// Replaces a node, which must have a parent, by its children.
fn dissolve(nodes: &mut [TreeNode], p: NodeId)
    requires sound { IsSoundArena nodes.old }
    requires placed { (q : ℕ) × (parent (forest_of nodes.old) p ≡ Some q) }
    ensures made { forest_of nodes.new ≡ dissolved p (forest_of nodes.old) }
    ensures sound { IsSoundArena nodes.new }
{
    put_children_before(nodes, p);
    TreeNodeOps::remove_from_parent(nodes, p);
}
