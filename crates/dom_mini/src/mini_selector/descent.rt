//! Paths of descendant combinators alone. One traversal keeps for each node how many steps of the
//! path its ancestors match, one below the other, so a node is tested for one step only.

ghost use Rattle.std.specs.Prelude.{◌≡◌, ◌<◌, ◌++◌, None, [], false, length, true, IfOk, OnOk};
ghost use Rattle.dom_links.specs.Forest.{forest_of};
ghost use Rattle.dom_links.specs.Sound.{IsSoundArena};
ghost use Rattle.dom_mini.specs.Descents.{IsPassed, flags_after, goes_down, waiting};
ghost use Rattle.dom_mini.specs.MiniPaths.{IsFound};
ghost use Rattle.dom_mini.specs.PathFlags.{is_led};
ghost use Rattle.dom_select.specs.Selected.{one_if};

use dom_links::iters::{find_node, node_at, predict_next};
use dom_links::laws::{lines_of_a_forest, trees_of_a_forest};
use dom_nodes::fault::OutOfMemory;
use dom_nodes::node_data::{NodeData, TreeNode};
use dom_nodes::node_id::NodeId;
use dom_select::matcher::chains::is_deep;
use dom_selectors::mini_selector::selector::MiniSelector;
use std::alloc::Global;

/// A node that is still to be visited, and how many steps are matched above it.
type PendingNode = (NodeId, usize);

/// Returns whether each step has the descendant combinator.
pub(crate) fn goes_down(path: &[MiniSelector<'_>]) -> bool
    ensures { result ≡ goes_down path.now }
{
    path.iter().all(|mini| is_deep(mini.combinator()))
}

/// Returns how many steps, apart from the last, are matched at or above the node; `passed` are
/// matched above it. If the last step matches the node, the node is added to `found`.
#[inline(always)]
fn count_passed(
    path: &[MiniSelector<'_>],
    node: &NodeData,
    id: NodeId,
    passed: usize,
    found: &mut Vec<NodeId>,
) -> Result<usize, OutOfMemory>
    requires down { goes_down path.now ≡ true }
    requires few { passed < length path.now }
    ensures below { IfOk result (λ below. IsPassed path.now node.now passed below) }
    ensures found { OnOk result (found.new.items ≡ found.old.items
        ++ one_if (is_led path.now node.now false (flags_after path.now passed)) id) }
{
    if !path[passed].match_data(node) {
        return Ok(passed);
    }
    if passed + 1 < path.len() {
        return Ok(passed + 1);
    }
    found.push(id)?;
    Ok(passed)
}

/// Returns the node to be visited next: the first child, at which `below` steps are passed, or the
/// next sibling, or the last pending node. If there is a child, the sibling becomes pending.
#[inline(always)]
fn go_on(
    node: &TreeNode,
    below: usize,
    passed: &mut usize,
    pending: &mut Vec<PendingNode>,
) -> Result<Option<NodeId>, OutOfMemory>
    ensures waits { IfOk result (λ next. pending.new.items ++ waiting next passed.new
        ≡ (pending.old.items ++ waiting node.now.next_sibling passed.old)
        ++ waiting node.now.first_child below) }
    ensures last { IfOk result (λ next. next ≡ None → pending.new.items ≡ []) }
{
    if let Some(child) = node.first_child.get() {
        if let Some(sibling) = node.next_sibling.get() {
            pending.push((sibling, *passed))?;
        }
        *passed = below;
        return Ok(Some(child));
    }
    if let Some(sibling) = node.next_sibling.get() {
        return Ok(Some(sibling));
    }
    let Some((id, count)) = pending.pop() else {
        return Ok(None);
    };
    *passed = count;
    Ok(Some(id))
}

/// Returns the nodes that a path of descendant steps reaches from a node. Fails only when memory
/// runs out.
pub(crate) fn follow_down(
    alloc: Global,
    nodes: &[TreeNode],
    start: NodeId,
    path: &[MiniSelector<'_>],
) -> Result<Vec<NodeId>, OutOfMemory>
    requires sound { IsSoundArena nodes.now }
    requires down { goes_down path.now ≡ true }
    requires some { 0 < length path.now }
    ensures { IfOk result (λ found. IsFound path.now (forest_of nodes.now) start found.items) }
{
    // Laws, called for their contracts alone.
    lines_of_a_forest();
    trees_of_a_forest();
    let mut found = Vec::new(alloc);
    let Some(first) = find_node(nodes, start) else {
        return Ok(found);
    };
    let mut pending = Vec::new(alloc);
    let mut passed = 0;
    let mut next = first.first_child.get();
    while let Some(id) = next {
        let node = node_at(nodes, id);
        let below = count_passed(path, &node.content, id, passed, &mut found)?;
        let after = go_on(node, below, &mut passed, &mut pending)?;
        next = predict_next(after, id.value() + 1);
    }
    Ok(found)
}
