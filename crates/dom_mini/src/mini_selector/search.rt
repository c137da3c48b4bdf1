//! Paths with any combinators. One traversal keeps a flag for each step at each node that is still
//! to be visited, and goes on only where a flag is set.

ghost use Rattle.std.specs.Prelude.{◌≡◌, ◌≤◌, ◌<◌, ◌++◌, length, take, drop, map, IfOk, OnOk};
ghost use Rattle.dom_links.specs.Forest.{children_of, forest_of, siblings};
ghost use Rattle.dom_links.specs.Lists.{after, first};
ghost use Rattle.dom_links.specs.Sound.{IsSoundArena};
ghost use Rattle.dom_selectors.specs.MiniSyntax.{named, texts_of};
ghost use Rattle.dom_mini.specs.MiniPaths.{IsFound};
ghost use Rattle.dom_mini.specs.PathFlags.{IsStepped, IsVisit, IsVisited, IsWaiting, flag_below};
ghost use Rattle.dom_mini.specs.PathFlags.{flag_beside, flags_below};
ghost use Rattle.dom_mini.specs.PathFlags.{flags_beside, is_any, is_led, last_flags};
ghost use Rattle.dom_mini.specs.PathFlags.{passed_on};
ghost use Rattle.dom_select.specs.Selected.{one_if};

use crate::mini_selector::descent::{follow_down, goes_down};
use dom_links::iters::{find_node, first_child_id, next_sibling_id};
use dom_links::laws::{lines_of_a_forest, trees_of_a_forest};
use dom_nodes::fault::OutOfMemory;
use dom_nodes::node_data::{NodeData, TreeNode};
use dom_nodes::node_id::NodeId;
use dom_select::matcher::chains::is_sideways;
use dom_selectors::mini_selector::selector::MiniSelector;
use dom_selectors::syntax::Combinator;
use std::alloc::Global;

/// A traversal in progress: the nodes to be visited, the last of them next, and the flags of each,
/// one for each step. A flag is set if the step's combinator relates the node to one that the steps
/// before reach.
#[derive(Drop)]
pub(crate) struct PathSearch {
    pending: Vec<NodeId>,
    flags: Vec<bool>,
    below: Vec<bool>,
    found: Vec<NodeId>,
}

/// Returns the flag at a node, computed from the next node to its left: `here` says that the steps
/// before reach that node, and `on` is its flag.
#[inline(always)]
fn passed_on(combinator: Combinator, is_element: bool, here: bool, on: bool) -> bool
    ensures { result ≡ passed_on combinator is_element here on }
{
    match combinator {
        Combinator::Descendant | Combinator::Sibling => here | on,
        Combinator::Child => here,
        Combinator::Adjacent => here | (!is_element & on),
    }
}

/// Returns the flag at the first child.
#[inline(always)]
fn flag_below(combinator: Combinator, is_element: bool, here: bool, on: bool) -> bool
    ensures { result ≡ flag_below combinator is_element here on }
{
    if is_sideways(combinator) {
        return false;
    }
    passed_on(combinator, is_element, here, on)
}

/// Returns the flag at the next sibling.
#[inline(always)]
fn flag_beside(combinator: Combinator, is_element: bool, here: bool, on: bool) -> bool
    ensures { result ≡ flag_beside combinator is_element here on }
{
    if is_sideways(combinator) {
        return passed_on(combinator, is_element, here, on);
    }
    on
}

/// Returns whether the path reaches the node with these flags; `is_start` says that it is the
/// start. The flags become those of its next sibling, and `below` those of its first child.
fn step_flags(
    path: &[MiniSelector<'_>],
    node: &NodeData,
    is_start: bool,
    flags: &mut [bool],
    below: &mut [bool],
) -> bool
    requires flags { length flags.old ≡ length path.now }
    requires below { length below.old ≡ length path.now }
    ensures led { result ≡ is_led path.now node.now is_start flags.old }
    ensures beside { flags.new ≡ flags_beside path.now node.now is_start flags.old }
    ensures below { below.new ≡ flags_below path.now node.now is_start flags.old }
{
    let is_element = node.is_element();
    let mut here = is_start;
    for i in 0..path.len() {
        let mini = &path[i];
        let on = flags[i];
        let combinator = mini.combinator();
        flags[i] = flag_beside(combinator, is_element, here, on);
        below[i] = flag_below(combinator, is_element, here, on);
        here = on && mini.match_data(node);
    }
    here
}

impl PathSearch {
    /// Calls `step_flags` for the last flags of the traversal; the flags before them are unchanged.
    fn step_last(&mut self, path: &[MiniSelector<'_>], node: &NodeData, is_start: bool) -> bool
        requires room { length path.now ≤ length self.old.flags.items }
        requires below { length self.old.below.items ≡ length path.now }
        ensures led { result
            ≡ is_led path.now node.now is_start (last_flags path.now self.old.flags.items) }
        ensures stepped { IsStepped path.now node.now is_start self.old self.new }
    {
        let top = self.flags.len() - path.len();
        let last = &mut self.flags[top..];
        step_flags(path, node, is_start, last, self.below.as_mut_slice())
    }
}

/// Returns whether one of the flags is set.
fn is_any(flags: &[bool]) -> bool
    ensures { result ≡ is_any flags.now }
{
    flags.iter().any(|on| *on)
}

fn push_if(found: &mut Vec<NodeId>, id: NodeId, passes: bool) -> Result<(), OutOfMemory>
    ensures { OnOk result (found.new.items ≡ found.old.items ++ one_if passes id) }
{
    if !passes {
        return Ok(());
    }
    found.push(id)?;
    Ok(())
}

/// Visits a node, whose flags follow those of the pending nodes. The node is found if the path
/// reaches it, and its next sibling and first child become pending if one of their flags is set.
fn visit(
    nodes: &[TreeNode],
    path: &[MiniSelector<'_>],
    id: NodeId,
    is_start: bool,
    search: &mut PathSearch,
) -> Result<(), OutOfMemory>
    requires sound { IsSoundArena nodes.now }
    requires known { id < length (forest_of nodes.now).content }
    requires visit { IsVisit (forest_of nodes.now) path.now search.old }
    ensures { OnOk result
        (IsVisited (forest_of nodes.now) path.now id is_start search.old search.new) }
{
    // Laws, called for their contracts alone.
    lines_of_a_forest();
    trees_of_a_forest();
    let Some(node) = find_node(nodes, id) else {
        return Ok(());
    };
    let top = search.flags.len() - path.len();
    let is_led = search.step_last(path, &node.content, is_start);
    push_if(&mut search.found, id, is_led)?;
    wait_beside(nodes, id, top, search)?;
    wait_below(nodes, id, search)
}

/// Makes the next sibling pending if one of its flags is set, and drops its flags otherwise.
fn wait_beside(
    nodes: &[TreeNode],
    id: NodeId,
    top: usize,
    search: &mut PathSearch,
) -> Result<(), OutOfMemory>
    requires sound { IsSoundArena nodes.now }
    requires room { top ≤ length search.old.flags.items }
    ensures { OnOk result (IsWaiting (after (siblings (forest_of nodes.now) id) id)
        (take top search.old.flags.items) (drop top search.old.flags.items) search.old search.new) }
{
    if is_any(&search.flags[top..]) {
        if let Some(next) = next_sibling_id(nodes, &id) {
            search.pending.push(next)?;
            return Ok(());
        }
    }
    search.flags.truncate(top);
    Ok(())
}

/// Makes the first child pending if one of its flags is set.
fn wait_below(nodes: &[TreeNode], id: NodeId, search: &mut PathSearch) -> Result<(), OutOfMemory>
    requires { IsSoundArena nodes.now }
    ensures { OnOk result (IsWaiting (first (children_of (forest_of nodes.now) id))
        search.old.flags.items search.old.below.items search.old search.new) }
{
    if is_any(&search.below) {
        if let Some(child) = first_child_id(nodes, &id) {
            search.pending.push(child)?;
            search.flags.extend_from_slice(&search.below)?;
        }
    }
    Ok(())
}

/// Returns the nodes that a path reaches from a node. Fails only when memory runs out.
pub(crate) fn follow(
    alloc: Global,
    nodes: &[TreeNode],
    start: NodeId,
    path: &[MiniSelector<'_>],
) -> Result<Vec<NodeId>, OutOfMemory>
    requires { IsSoundArena nodes.now }
    ensures { IfOk result (λ found. IsFound path.now (forest_of nodes.now) start found.items) }
{
    if path.len() > 0 && goes_down(path) {
        return follow_down(alloc, nodes, start, path);
    }
    lines_of_a_forest();
    trees_of_a_forest();
    let mut search = PathSearch {
        pending: Vec::new(alloc),
        flags: vec![in alloc; false; path.len()]?,
        below: vec![in alloc; false; path.len()]?,
        found: Vec::new(alloc),
    };
    if find_node(nodes, start).is_none() {
        return Ok(search.found);
    }
    visit(nodes, path, start, true, &mut search)?;
    while let Some(id) = search.pending.pop() {
        visit(nodes, path, id, false, &mut search)?;
    }
    Ok(search.found)
}

/// Returns the path for a list of names.
pub(crate) fn path_of<'a>(
    alloc: Global,
    names: &[&'a str],
) -> Result<Vec<MiniSelector<'a>>, OutOfMemory>
    ensures { IfOk result (λ path. path.items ≡ map named (texts_of names.now)) }
{
    let mut path = Vec::with_capacity(alloc, names.len())?;
    for name in names {
        path.push(MiniSelector::named(alloc, name))?;
    }
    Ok(path)
}
