//! Selection below some nodes, by the strategy that suits the selectors: node by node, in one
//! traversal, or with an index of the tree.

ghost use Rattle.std.specs.Prelude.{◌≡◌, ◌∷◌, ◌++◌, [], IfOk, OnOk};
ghost use Rattle.dom_select.specs.Selected.{Selected};
ghost use Rattle.dom_index.specs.Index.{Finds};
ghost use Rattle.dom_trees.specs.Views.{refs_to};

use crate::index::TreeIndex;
use crate::strategies::{are_traversed, matches_node_by_node};
use crate::streaming::select_plain;
use dom_nodes::fault::OutOfMemory;
use dom_nodes::node_id::NodeId;
use dom_select::matcher::Matcher;
use dom_select::matcher::several::select_below_all;
use dom_trees::node_ref::NodeRef;
use dom_trees::tree::Tree;

/// Returns the ids of the elements below the roots that match one of the matcher's selectors, each
/// once: those below the first root in document order, then those below the second, and so on. The
/// structure of the selectors, and how many nodes are around those below the roots, decide how they
/// are found (see `strategies`): each node below the roots is tested by itself; or one traversal
/// tests all of them; or an index of the tree is made. The tests aren't counted;
/// `TreeIndex::select` counts them. It fails with `OutOfMemory` when memory is refused.
pub fn select_ids(
    tree: &Tree,
    roots: &[NodeId],
    matcher: &Matcher,
) -> Result<Vec<NodeId>, OutOfMemory>
    ensures { IfOk result (λ ids. Selected tree.now roots.now matcher.now ids.items) }
{
    let selectors = matcher.selectors();
    if matches_node_by_node(tree, roots, selectors) {
        return select_below_all(tree, roots, matcher);
    }
    if are_traversed(selectors) {
        return select_plain(tree, roots, selectors);
    }
    let mut index = TreeIndex::new(tree)?;
    index.select_ids(matcher, roots)
}

/// Returns references to the nodes whose ids `select_ids` returns. Fails only when memory runs out.
pub fn select_nodes<'a>(
    tree: &'a Tree,
    roots: &[NodeId],
    matcher: &Matcher,
) -> Result<Vec<NodeRef<'a>>, OutOfMemory>
    ensures { IfOk result (λ found. Finds tree.entry roots.now matcher.now found.items) }
{
    let ids = select_ids(tree, roots, matcher)?;
    nodes_of(tree, &ids)
}

/// Returns references to the nodes with these ids.
pub(crate) fn nodes_of<'a>(tree: &'a Tree, ids: &[NodeId]) -> Result<Vec<NodeRef<'a>>, OutOfMemory>
    ensures { IfOk result (λ nodes. nodes.items ≡ refs_to tree.entry ids.now) }
{
    let root = tree.root();
    let mut nodes = Vec::with_capacity(tree.allocator(), ids.len())?;
    for id in ids {
        push_node(&mut nodes, &NodeRef::new(*id, root.tree))?;
    }
    Ok(nodes)
}

/// Appends a node reference. Fails only when memory runs out.
fn push_node<'a>(nodes: &mut Vec<NodeRef<'a>>, node: &NodeRef<'a>) -> Result<(), OutOfMemory>
    ensures { OnOk result (nodes.new.items ≡ nodes.old.items ++ node.now ∷ []) }
{
    match nodes.push(NodeRef::new(node.id, node.tree)) {
        Ok(()) => Ok(()),
        Err(_) => Err(OutOfMemory),
    }
}
