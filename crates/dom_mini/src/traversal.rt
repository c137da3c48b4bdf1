//! Search for children and descendants by name or test, in the arena of a tree, as in the crate
//! dom_query.

ghost use Rattle.std.specs.Prelude.{◌≡◌, ◌≤◌, length, IfOk, None};
ghost use Rattle.std.specs.Fn.{FnReturnsAt};
ghost use Rattle.dom_links.specs.Forest.{forest_of};
ghost use Rattle.dom_links.specs.Sound.{IsSoundArena};
ghost use Rattle.dom_mini.specs.MiniPaths.{IsFoundByNames};
ghost use Rattle.dom_selectors.specs.MiniSyntax.{texts_of};
ghost use Rattle.dom_mini.specs.Traversals.{DecidesPassing, FindsByNames, FindsChild};
ghost use Rattle.dom_trees.specs.Views.{child_named, has_local_name};

use crate::mini_selector::search::{follow, path_of};
use dom_links::iters::{find_node, first_child_id, next_sibling_id};
use dom_links::laws::lines_of_a_forest;
use dom_nodes::fault::OutOfMemory;
use dom_nodes::node_data::TreeNode;
use dom_nodes::node_id::NodeId;
use std::alloc::Global;

/// Search for children and descendants. The functions are called as
/// `Traversal::find_child_element`.
pub struct Traversal {}

fn is_named(nodes: &[TreeNode], id: NodeId, name: &str) -> bool
    requires { IsSoundArena nodes.now }
    ensures { result ≡ has_local_name (forest_of nodes.now) id name.now }
{
    let Some(node) = find_node(nodes, id) else {
        return false;
    };
    match node.content.as_element() {
        Some(element) => element.node_name() == name,
        None => false,
    }
}

/// Returns whether the node is an element that passes the test.
fn passes<F: Fn(&TreeNode) -> bool>(nodes: &[TreeNode], id: NodeId, test: &F) -> bool
    requires sound { IsSoundArena nodes.now }
    requires callable { F.IsAlwaysCallable test.now }
    ensures { DecidesPassing (FnReturnsAt F.Fn test.now) (forest_of nodes.now) id result }
{
    let Some(node) = find_node(nodes, id) else {
        return false;
    };
    if !node.is_element() {
        return false;
    }
    test(node)
}

impl Traversal {
    /// Returns the first child that is an element and passes the test, or `None`, also if there is
    /// no such node.
    pub fn find_child_element<F: Fn(&TreeNode) -> bool + Drop>(
        nodes: &[TreeNode],
        id: NodeId,
        f: F,
    ) -> Option<NodeId>
        requires sound { IsSoundArena nodes.now }
        requires callable { F.IsAlwaysCallable f }
        ensures { FindsChild (FnReturnsAt F.Fn f) (forest_of nodes.now) id result }
    {
        // A law, called for its contract alone.
        lines_of_a_forest();
        let mut next = first_child_id(nodes, &id);
        while let Some(child) = next {
            if passes(nodes, child, &f) {
                return Some(child);
            }
            next = next_sibling_id(nodes, &child);
        }
        None
    }

    /// Returns the first child that is an element with this local name, or `None`, also if there is
    /// no such node.
    pub fn find_child_element_by_name(nodes: &[TreeNode], id: NodeId, name: &str) -> Option<NodeId>
        requires { IsSoundArena nodes.now }
        ensures { result ≡ child_named (forest_of nodes.now) id name.now }
    {
        lines_of_a_forest();
        let mut next = first_child_id(nodes, &id);
        while let Some(child) = next {
            if is_named(nodes, child, name) {
                return Some(child);
            }
            next = next_sibling_id(nodes, &child);
        }
        None
    }

    /// Returns the first child with the first name, its first child with the next name, and so on
    /// to the last name. An empty path returns the node itself. Returns `None` if a child or the
    /// node doesn't exist.
    pub fn find_descendant_element(nodes: &[TreeNode], id: NodeId, path: &[&str]) -> Option<NodeId>
        requires { IsSoundArena nodes.now }
        ensures known { FindsByNames (forest_of nodes.now) id (texts_of path.now) result }
        ensures unknown { length (forest_of nodes.now).content ≤ id → result ≡ None }
    {
        find_node(nodes, id)?;
        let mut at = id;
        for name in path {
            at = Traversal::find_child_element_by_name(nodes, at, name)?;
        }
        Some(at)
    }

    /// Returns the elements that a path of local names reaches: descendants of the node with the
    /// first name, their descendants with the next name, and so on. Each is returned once, in
    /// document order. An empty path reaches the node itself; if there is no such node, nothing is
    /// reached. Fails only when memory runs out.
    pub fn find_descendant_elements(
        alloc: Global,
        nodes: &[TreeNode],
        id: NodeId,
        path: &[&str],
    ) -> Result<Vec<NodeId>, OutOfMemory>
        requires { IsSoundArena nodes.now }
        ensures { IfOk result
            (λ found. IsFoundByNames (texts_of path.now) (forest_of nodes.now) id found.items) }
    {
        let path = path_of(alloc, path)?;
        follow(alloc, nodes, id, &path)
    }
}
