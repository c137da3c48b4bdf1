//! Iterators over the ids of the nodes around a node. They allocate no memory. For an unknown id
//! they are empty.

ghost use Rattle.std.specs.Prelude.{◌≡◌, ◌≤◌, length};
ghost use Rattle.dom_links.specs.Forest.{children_of};
ghost use Rattle.dom_links.specs.Lists.{IsDistinct};
ghost use Rattle.dom_links.specs.Trees.{ancestors, in_order, limited, descendants_in_order};
ghost use Rattle.dom_links.specs.Walk.{leaves_among};

use crate::tree::Tree;
use dom_links::iters::{AncestorNodes, ChildNodes, DescendantNodes};
use dom_nodes::node_id::NodeId;

/// Returns an iterator over the children of a node, from the last to the first if `rev` is true.
pub fn child_nodes<'a>(tree: &'a Tree, id: &NodeId, rev: bool) -> ChildNodes<'a>
    ensures { result ≡ in_order rev (children_of tree.now id.now) }
{
    tree.child_ids_of_it(id, rev)
}

/// Returns an iterator over the ancestors of a node, from its parent up. It ends after `max_depth`
/// of them; `None` or 0 means no limit.
pub fn ancestor_nodes<'a>(
    tree: &'a Tree,
    id: &NodeId,
    max_depth: Option<usize>,
) -> AncestorNodes<'a>
    ensures { result ≡ limited max_depth (ancestors tree.now id.now) }
{
    tree.ancestor_ids_of_it(id, max_depth)
}

/// Returns an iterator over the descendants of a node in document order: each node comes before its
/// own descendants. Template contents aren't visited.
pub fn descendant_nodes<'a>(tree: &'a Tree, id: &NodeId) -> DescendantNodes<'a>
    ensures all { result.left ≡ descendants_in_order tree.now id.now }
    ensures whole { result.whole ≡ descendants_in_order tree.now id.now }
    ensures leaves { result.leaves ≡ leaves_among tree.now (descendants_in_order tree.now id.now) }
    ensures once { IsDistinct result.left }
    ensures few { length result.left ≤ 4294967295 }
{
    tree.descendant_ids_of_it(id)
}
