//! Sets of nodes across a combinator: the right operands for a set of left operands, and the left
//! operands for a set of right ones.

ghost use Rattle.std.specs.Prelude.{◌≡◌, ◌<◌, ◌+◌, length, IfOk, IfSome};
ghost use Rattle.dom_selectors.specs.declared.syntax.Combinator.TheVariants.{Descendant};
ghost use Rattle.dom_select.specs.Leftward.{left_of};
ghost use Rattle.dom_links.specs.Forest.{parent};
ghost use Rattle.dom_index.specs.NodeSets.{propagates, reached_from, with_node};
ghost use Rattle.dom_index.specs.PreorderSets.{HaveLeftOperand, HaveRightOperand, IsFurthestEnd};
ghost use Rattle.dom_index.specs.PreorderSets.{place_of};

use crate::preorder::{Preorder, forest_laws};
use crate::type_filter::is_element_at;
use dom_links::iters::prev_sibling_id;
use dom_nodes::fault::OutOfMemory;
use dom_nodes::link::Link;
use dom_nodes::node_id::NodeId;
use dom_selectors::syntax::Combinator;
use dom_trees::tree::Tree;

/// Returns the next node to the left by a combinator: the parent, which is passed in, or the
/// previous sibling.
fn left_of(tree: &Tree, combinator: Combinator, id: NodeId, above: Link) -> Option<NodeId>
    requires { above ≡ parent tree.now id }
    ensures { result ≡ left_of tree.now combinator id }
{
    match combinator {
        Combinator::Descendant | Combinator::Child => above.get(),
        Combinator::Adjacent | Combinator::Sibling => prev_sibling_id(tree.nodes(), &id),
    }
}

/// Returns whether the node is a left operand in the set, or passes on the flag of such a node.
fn propagates(
    preorder: &Preorder<'_>,
    combinator: Combinator,
    table: &[bool],
    flags: &[bool],
    id: NodeId,
) -> bool
    requires known { id < length preorder.now.tree.now.content }
    requires table_long { length table.now ≡ length preorder.now.tree.now.content }
    requires flags_long { length flags.now ≡ length preorder.now.tree.now.content }
    ensures { result ≡ propagates preorder.now.tree.now combinator table.now flags.now id }
{
    let v = id.value();
    match combinator {
        Combinator::Descendant => table[v] | flags[v],
        Combinator::Child => table[v],
        Combinator::Adjacent => {
            if is_element_at(preorder, v) {
                table[v]
            } else {
                flags[v]
            }
        }
        Combinator::Sibling => {
            let element = is_element_at(preorder, v);
            (element & table[v]) | flags[v]
        }
    }
}

/// Returns whether a node has a left operand in the set, from the next node to its left.
fn is_reached(
    preorder: &Preorder<'_>,
    combinator: Combinator,
    table: &[bool],
    flags: &[bool],
    left: Option<NodeId>,
) -> bool
    requires known { IfSome left (λ v. v < length preorder.now.tree.now.content) }
    requires table_long { length table.now ≡ length preorder.now.tree.now.content }
    requires flags_long { length flags.now ≡ length preorder.now.tree.now.content }
    ensures { result ≡ reached_from preorder.now.tree.now combinator table.now flags.now left }
{
    match left {
        Some(left) => propagates(preorder, combinator, table, flags, left),
        None => false,
    }
}

/// Returns the nodes that have a left operand in the set.
pub(crate) fn step_forward(
    preorder: &Preorder<'_>,
    combinator: Combinator,
    table: &[bool],
) -> Result<Vec<bool>, OutOfMemory>
    requires { length table.now ≡ length preorder.now.tree.now.content }
    ensures { IfOk result (HaveLeftOperand preorder.now combinator table.now) }
{
    match combinator {
        Combinator::Descendant => descendants_of(preorder, table),
        _ => propagate_forward(preorder, combinator, table),
    }
}

/// Returns the nodes that have an ancestor in the set. The descendants of a node are those up to
/// its subtree end.
fn descendants_of(preorder: &Preorder<'_>, table: &[bool]) -> Result<Vec<bool>, OutOfMemory>
    requires { length table.now ≡ length preorder.now.tree.now.content }
    ensures { IfOk result (HaveLeftOperand preorder.now Descendant table.now) }
{
    forest_laws(preorder.tree);
    let order = preorder.order.as_slice();
    let mut flags = vec![in preorder.tree.allocator(); false; table.len()]?;
    let mut end = 0;
    for i in 0..order.len() {
        let n = order[i].value();
        flags[n] = i < end;
        end = extend_end(preorder, table, n, end);
    }
    Ok(flags)
}

/// Returns the furthest end of the subtrees of nodes in the set, after one more node in preorder.
#[inline(always)]
fn extend_end(preorder: &Preorder<'_>, table: &[bool], n: usize, end: usize) -> usize
    requires known { n < length preorder.now.tree.now.content }
    requires long { length table.now ≡ length preorder.now.tree.now.content }
    requires ends { IsFurthestEnd preorder.now table.now (place_of preorder.now n) end }
    ensures { IsFurthestEnd preorder.now table.now (place_of preorder.now n + 1) result }
{
    if !table[n] {
        return end;
    }
    let past = preorder.subtree_ends[n] as usize + 1;
    if past <= end {
        return end;
    }
    past
}

/// Returns the nodes that have a left operand in the set. They are visited in preorder, and each is
/// computed from the next node to its left.
fn propagate_forward(
    preorder: &Preorder<'_>,
    combinator: Combinator,
    table: &[bool],
) -> Result<Vec<bool>, OutOfMemory>
    requires { length table.now ≡ length preorder.now.tree.now.content }
    ensures { IfOk result (HaveLeftOperand preorder.now combinator table.now) }
{
    forest_laws(preorder.tree);
    let order = preorder.order.as_slice();
    let above = preorder.above.as_slice();
    let mut flags = vec![in preorder.tree.allocator(); false; table.len()]?;
    for i in 0..order.len() {
        let id = order[i];
        let n = id.value();
        let left = left_of(preorder.tree, combinator, id, above[i]);
        flags[n] = is_reached(preorder, combinator, table, &flags, left);
    }
    Ok(flags)
}

/// Returns the nodes that have a right operand in the set. They are visited in reverse preorder,
/// and each is computed from the nodes to its right.
pub(crate) fn step_backward(
    preorder: &Preorder<'_>,
    combinator: Combinator,
    table: &[bool],
) -> Result<Vec<bool>, OutOfMemory>
    requires { length table.now ≡ length preorder.now.tree.now.content }
    ensures { IfOk result (HaveRightOperand preorder.now combinator table.now) }
{
    forest_laws(preorder.tree);
    let order = preorder.order.as_slice();
    let above = preorder.above.as_slice();
    let mut flags = vec![in preorder.tree.allocator(); false; table.len()]?;
    for i in 0..order.len() {
        let place = order.len() - 1 - i;
        let id = order[place];
        if propagates(preorder, combinator, table, &flags, id) {
            insert_node(
                &mut flags,
                left_of(preorder.tree, combinator, id, above[place]),
            );
        }
    }
    Ok(flags)
}

/// Adds a node to the set, if there is one.
fn insert_node(flags: &mut Vec<bool>, id: Option<NodeId>)
    ensures { flags.new.items ≡ with_node flags.old.items id }
{
    if let Some(id) = id {
        let n = id.value();
        if n < flags.len() {
            flags[n] = true;
        }
    }
}
