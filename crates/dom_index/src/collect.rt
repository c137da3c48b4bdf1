//! Collecting the elements of a set below some nodes, root by root in document order.

ghost use Rattle.std.specs.Prelude.{◌≡◌, ◌<◌, ◌++◌, ◌&&◌, ℕ, length, true, IfOk, OnOk};
ghost use Rattle.dom_links.specs.ListMoves.{element_at};
ghost use Rattle.dom_links.specs.Lists.{is_member};
ghost use Rattle.dom_links.specs.Trees.{descendants_in_order};
ghost use Rattle.dom_index.specs.NodeSets.{in_set};
ghost use Rattle.dom_index.specs.PreorderSets.{collected_at, collected_below, left_at};

use crate::preorder::{Preorder, below};
use crate::type_filter::is_element_at;
use dom_links::laws::trees_of_a_forest;
use dom_nodes::fault::OutOfMemory;
use dom_nodes::node_id::NodeId;
use dom_trees::tree::Tree;

/// Returns the elements below the roots that are in the set, each once, root by root in document
/// order. Fails only when memory runs out.
pub(crate) fn collect_matches(
    preorder: &Preorder<'_>,
    roots: &[NodeId],
    table: Vec<bool>,
) -> Result<Vec<NodeId>, OutOfMemory>
    requires { length table.items ≡ length preorder.now.tree.now.content }
    ensures { IfOk result (λ found.
        found.items ≡ collected_below preorder.now table.items roots.now) }
{
    let mut table = table;
    let mut found = Vec::new(preorder.tree.allocator());
    for root in roots {
        collect_below(preorder, *root, &mut table, &mut found)?;
    }
    Ok(found)
}

/// Moves the elements below a node from the set to `found`.
fn collect_below(
    preorder: &Preorder<'_>,
    root: NodeId,
    table: &mut Vec<bool>,
    found: &mut Vec<NodeId>,
) -> Result<(), OutOfMemory>
    requires { length table.old.items ≡ length preorder.now.tree.now.content }
    ensures long { length table.new.items ≡ length table.old.items }
    ensures added { OnOk result
        (found.new.items ≡ found.old.items ++ collected_at preorder.now table.old.items root) }
    ensures left { OnOk result (table.new.items ≡ left_at preorder.now table.old.items root) }
{
    walk_laws(preorder.tree);
    let row = below(preorder, root);
    for i in 0..row.len() {
        let id = row[i];
        if !is_element_in(preorder, table, id) {
            continue;
        }
        table[id.value()] = false;
        found.push(id)?;
    }
    Ok(())
}

/// Returns whether the node is an element of the set.
fn is_element_in(preorder: &Preorder<'_>, table: &[bool], id: NodeId) -> bool
    requires known { id < length preorder.now.tree.now.content }
    requires table_long { length table.now ≡ length preorder.now.tree.now.content }
    ensures { result ≡ (in_set table.now id && element_at preorder.now.tree.now id) }
{
    let n = id.value();
    if !table[n] {
        return false;
    }
    is_element_at(preorder, n)
}

/// States that a traversal visits nodes of the tree. It does nothing at run time; a call of it
/// brings its `ensures` clauses into the caller's proof.
pub(crate) fn walk_laws(tree: &Tree)
    ensures { (n m : ℕ) → is_member m (descendants_in_order tree.now n) ≡ true
        → m < length tree.now.content }
{
    let _nodes = tree.nodes();
    trees_of_a_forest();
}
