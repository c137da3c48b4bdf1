//! Selection below some nodes in one traversal. Each node has a row of flags. Where the last
//! compound selector of a selector matches a node, the row of the next node to its left is needed:
//! that of its parent or of its previous sibling.

ghost use Rattle.std.specs.Prelude.{◌≡◌, ◌<◌, ◌+◌, ◌∷◌, ◌++◌, [], length, true, IfOk, OnOk};
ghost use Rattle.std.specs.Prelude.{not};
ghost use Rattle.std.specs.Iterator.{IsFinite};
ghost use Rattle.dom_selectors.specs.Spelling.{Decides};
ghost use Rattle.dom_selectors.specs.ValuesAsTrees.{read_list};
ghost use Rattle.dom_select.specs.Descendants.{FiltersItems};
ghost use Rattle.dom_select.specs.Leftward.{ends_at, left_of};
ghost use Rattle.dom_select.specs.Selected.{FiltersTo, Selected, walks_below};
ghost use Rattle.dom_index.specs.FlagRows.{reached_at};
ghost use Rattle.dom_index.specs.NodeSets.{in_set, may_be_operand};
ghost use Rattle.dom_index.specs.NodeTests.{ArePlain};
ghost use Rattle.dom_index.specs.Tracks.{AreFlagsAt, AreFollowing, AreTracked};
ghost use Rattle.dom_index.specs.Tracks.{FlagsRight, IsFilledAt, IsFollowing, IsOnWay, IsReached};
ghost use Rattle.dom_index.specs.Tracks.{IsStepFlag, IsTracked, Reaches, SomeReaches, left_in};

use crate::chains::{Chain, prepare_all};
use crate::node_tests::Visited;
use crate::preorder::forest_laws;
use dom_links::iters::{parent_id, prev_sibling_id};
use dom_nodes::fault::OutOfMemory;
use dom_nodes::node_id::NodeId;
use dom_select::matcher::caches::SelectorCaches;
use dom_select::matcher::several::nodes_below;
use dom_selectors::syntax::{Combinator, Selector};
use dom_trees::tree::Tree;

/// Rows of flags, one for each node by its id. The row of a node has the flags of a selector's
/// steps at the nodes to its right: its children or its next sibling. `filled` says which rows are
/// filled, and `none` is the row at a node that has no node to its left.
#[derive(Drop)]
struct Rows {
    none: Vec<bool>,
    flags: Vec<bool>,
    filled: Vec<bool>,
}

/// What the selectors of a traversal share: sibling indexes, and room for nodes whose rows still
/// have to be filled.
#[derive(Drop)]
struct Shared<'t> {
    caches: SelectorCaches<'t>,
    missing: Vec<NodeId>,
}

/// Returns whether the compound selector at index `i` is reached at a node with these flags; the
/// first one always is.
#[inline(always)]
fn reached_at(flags: &[bool], i: usize) -> bool
    requires { i < length flags.now + 1 }
    ensures { result ≡ reached_at flags.now i }
{
    if i == 0 {
        return true;
    }
    flags[i - 1]
}

/// Returns the next node to the left by a combinator: the parent or the previous sibling.
#[inline(always)]
fn next_left(tree: &Tree, way: Combinator, id: NodeId) -> Option<NodeId>
    ensures { result ≡ left_of tree.now way id }
{
    let nodes = tree.nodes();
    match way {
        Combinator::Descendant | Combinator::Child => parent_id(nodes, &id),
        Combinator::Adjacent | Combinator::Sibling => prev_sibling_id(nodes, &id),
    }
}

/// Returns whether left operands of a node to the right of this one can be farther to the left.
#[inline(always)]
fn goes_on(combinator: Combinator, visited: &Visited<'_>) -> bool
    ensures { result ≡ not (ends_at visited.now.tree.now combinator visited.now.id) }
{
    match combinator {
        Combinator::Descendant | Combinator::Sibling => true,
        Combinator::Child => false,
        Combinator::Adjacent => !visited.is_element(),
    }
}

/// Returns whether the node may be a left operand: beside `+` and `~` it has to be an element.
#[inline(always)]
fn may_be_operand(combinator: Combinator, visited: &Visited<'_>) -> bool
    ensures { result ≡ may_be_operand visited.now.tree.now combinator visited.now.id }
{
    match combinator {
        Combinator::Descendant | Combinator::Child => true,
        Combinator::Adjacent | Combinator::Sibling => visited.is_element(),
    }
}

/// Returns the flag of a step at the nodes to the right of a node, from the flags at the node.
#[inline(always)]
fn step_flag(
    chain: &Chain<'_>,
    i: usize,
    flags: &[bool],
    visited: &Visited<'_>,
    caches: &mut SelectorCaches<'_>,
) -> bool
    requires step { i < length chain.now.steps.now }
    requires at { AreFlagsAt chain.now visited.now.tree.now visited.now.id flags.now caches.old }
    ensures is { IsStepFlag chain.now visited.now.tree.now visited.now.id i result }
    ensures kept { caches.new ≡ caches.old }
{
    forest_laws(visited.tree);
    let combinator = chain.steps[i].combinator;
    let on = flags[i];
    if on & goes_on(combinator, visited) {
        return true;
    }
    if !may_be_operand(combinator, visited) {
        return false;
    }
    if !reached_at(flags, i) {
        return false;
    }
    chain.tests[i].matches(visited, caches)
}

/// Returns the row of the next node to the left, which has the flags at the node.
#[inline(always)]
fn row_left<'r>(chain: &Chain<'_>, rows: &'r Rows, visited: &Visited<'_>) -> &'r [bool]
    requires tracked { IsTracked chain.now visited.now.tree.now rows.now }
    requires filled { IsFilledAt rows.now.filled.items
        (left_in chain.now visited.now.tree.now visited.now.id) }
    ensures { FlagsRight chain.now visited.now.tree.now
        (left_in chain.now visited.now.tree.now visited.now.id) result.now }
{
    forest_laws(visited.tree);
    let Some(left) = next_left(visited.tree, chain.way, visited.id) else {
        return &rows.none;
    };
    let width = chain.steps.len();
    let start = left.value() * width;
    &rows.flags[start..start + width]
}

/// Fills the row of a node, unless it is filled.
fn fill(chain: &Chain<'_>, rows: &mut Rows, visited: &Visited<'_>, caches: &mut SelectorCaches<'_>)
    requires following { IsFollowing chain.now rows.old visited.now.tree.now caches.old }
    requires left { IsFilledAt rows.old.filled.items
        (left_in chain.now visited.now.tree.now visited.now.id) }
    ensures following { IsFollowing chain.now rows.new visited.now.tree.now caches.new }
    ensures filled { in_set rows.new.filled.items visited.now.id ≡ true }
{
    let n = visited.id.value();
    if rows.filled[n] {
        return;
    }
    let width = chain.steps.len();
    for i in 0..width {
        let flags = row_left(chain, rows, visited);
        let flag = step_flag(chain, i, flags, visited, caches);
        rows.flags[n * width + i] = flag;
    }
    rows.filled[n] = true;
}

/// Returns whether the row of the node is filled.
#[inline(always)]
fn is_filled(filled: &[bool], id: NodeId) -> bool
    ensures { result ≡ in_set filled.now id }
{
    match filled.get(id.value()) {
        Some(flag) => *flag,
        None => false,
    }
}

/// Lists the nodes to the left of the node whose rows aren't filled, the nearest first, up to one
/// whose row is filled.
#[inline(always)]
fn find_missing(
    chain: &Chain<'_>,
    filled: &[bool],
    visited: &Visited<'_>,
    missing: &mut Vec<NodeId>,
) -> Result<(), OutOfMemory>
    ensures { OnOk result
        (IsOnWay chain.now visited.now.tree.now visited.now.id filled.now missing.new.items) }
{
    let tree = visited.tree;
    forest_laws(tree);
    missing.clear();
    let mut at = visited.id;
    while let Some(left) = next_left(tree, chain.way, at) {
        if is_filled(filled, left) {
            return Ok(());
        }
        missing.push(left)?;
        at = left;
    }
    Ok(())
}

/// Fills the row of the next node to the left, and before it the rows farther to the left that it
/// needs.
fn follow(
    chain: &Chain<'_>,
    rows: &mut Rows,
    visited: &Visited<'_>,
    shared: &mut Shared<'_>,
) -> Result<(), OutOfMemory>
    requires { IsFollowing chain.now rows.old visited.now.tree.now shared.old.caches }
    ensures following { IsFollowing chain.now rows.new visited.now.tree.now shared.new.caches }
    ensures filled { OnOk result (IsFilledAt rows.new.filled.items
        (left_in chain.now visited.now.tree.now visited.now.id)) }
{
    let tree = visited.tree;
    forest_laws(tree);
    find_missing(chain, &rows.filled, visited, &mut shared.missing)?;
    while let Some(id) = shared.missing.pop() {
        let left = Visited::new(tree, id);
        fill(chain, rows, &left, &mut shared.caches);
    }
    Ok(())
}

/// Returns whether the selector matches the node. Rows are filled only if the last compound
/// selector matches.
#[inline(always)]
fn visit(
    chain: &Chain<'_>,
    rows: &mut Rows,
    visited: &Visited<'_>,
    shared: &mut Shared<'_>,
) -> Result<bool, OutOfMemory>
    requires { IsFollowing chain.now rows.old visited.now.tree.now shared.old.caches }
    ensures is { IfOk result
        (λ b. Decides b (Reaches chain.now visited.now.tree.now visited.now.id)) }
    ensures following { IsFollowing chain.now rows.new visited.now.tree.now shared.new.caches }
{
    forest_laws(visited.tree);
    let last = chain.steps.len();
    if !chain.tests[last].matches(visited, &mut shared.caches) {
        return Ok(false);
    }
    if last == 0 {
        return Ok(true);
    }
    follow(chain, rows, visited, shared)?;
    let flags = row_left(chain, rows, visited);
    Ok(reached_at(flags, last))
}

/// Returns whether one of the selectors matches the node.
#[inline(always)]
fn visit_all(
    chains: &[Chain<'_>],
    rows: &mut Vec<Rows>,
    visited: &Visited<'_>,
    shared: &mut Shared<'_>,
) -> Result<bool, OutOfMemory>
    requires { AreFollowing chains.now rows.old.items visited.now.tree.now shared.old.caches }
    ensures is { IfOk result
        (λ b. Decides b (SomeReaches chains.now visited.now.tree.now visited.now.id)) }
    ensures following { AreFollowing chains.now rows.new.items visited.now.tree.now
        shared.new.caches }
{
    for i in 0..chains.len() {
        if visit(&chains[i], &mut rows[i], visited, shared)? {
            return Ok(true);
        }
    }
    Ok(false)
}

/// Returns whether the node is an element that one of the selectors matches.
#[inline(always)]
fn is_selected(
    chains: &[Chain<'_>],
    rows: &mut Vec<Rows>,
    tree: &Tree,
    id: NodeId,
    shared: &mut Shared<'_>,
) -> Result<bool, OutOfMemory>
    requires { AreFollowing chains.now rows.old.items tree.now shared.old.caches }
    ensures is { IfOk result (λ b. Decides b (IsReached chains.now tree.now id)) }
    ensures following { AreFollowing chains.now rows.new.items tree.now shared.new.caches }
{
    if id.value() >= tree.len() {
        return Ok(false);
    }
    let visited = Visited::new(tree, id);
    if !visited.is_element() {
        return Ok(false);
    }
    visit_all(chains, rows, &visited, shared)
}

/// Returns rows of which none is filled. Fails only when memory runs out.
fn empty_rows(tree: &Tree, chain: &Chain<'_>) -> Result<Rows, OutOfMemory>
    ensures { IfOk result (IsTracked chain.now tree.now) }
{
    let alloc = tree.allocator();
    let width = chain.steps.len();
    let Some(count) = tree.len().checked_mul(width) else {
        return Err(OutOfMemory);
    };
    Ok(Rows {
        none: vec![in alloc; false; width]?,
        flags: vec![in alloc; false; count]?,
        filled: vec![in alloc; false; tree.len()]?,
    })
}

/// Returns empty rows for each of the selectors.
fn all_empty(tree: &Tree, chains: &[Chain<'_>]) -> Result<Vec<Rows>, OutOfMemory>
    ensures long { IfOk result (λ all. length all.items ≡ length chains.now) }
    ensures tracked { IfOk result (λ all. AreTracked chains.now tree.now all.items) }
{
    let mut all = Vec::new(tree.allocator());
    for i in 0..chains.len() {
        let rows = empty_rows(tree, &chains[i])?;
        push_rows(&mut all, rows)?;
    }
    Ok(all)
}

fn push_rows(all: &mut Vec<Rows>, rows: Rows) -> Result<(), OutOfMemory>
    ensures { OnOk result (all.new.items ≡ all.old.items ++ rows ∷ []) }
{
    match all.push(rows) {
        Ok(()) => Ok(()),
        Err(_) => Err(OutOfMemory),
    }
}

/// Returns those of the nodes that are elements and that one of the selectors matches.
#[inline(always)]
fn select_among<I: Iterator<Item = NodeId> + Drop>(
    tree: &Tree,
    ids: I,
    chains: &[Chain<'_>],
    rows: &mut Vec<Rows>,
    shared: &mut Shared<'_>,
) -> Result<Vec<NodeId>, OutOfMemory>
    requires ids { I.can_next ids × IsFinite (I.remaining ids) }
    requires following { AreFollowing chains.now rows.old.items tree.now shared.old.caches }
    ensures found { FiltersItems result I.next_gives ids (IsReached chains.now tree.now) }
    ensures following { AreFollowing chains.now rows.new.items tree.now shared.new.caches }
{
    let mut matched = Vec::new(tree.allocator());
    for id in ids {
        if !is_selected(chains, rows, tree, id, shared)? {
            continue;
        }
        matched.push(id)?;
    }
    Ok(matched)
}

/// Returns the elements below the roots that one of the selectors matches, each once.
fn select_along(
    tree: &Tree,
    roots: &[NodeId],
    chains: &[Chain<'_>],
    rows: &mut Vec<Rows>,
    shared: &mut Shared<'_>,
) -> Result<Vec<NodeId>, OutOfMemory>
    requires { AreFollowing chains.now rows.old.items tree.now shared.old.caches }
    ensures found { IfOk result (λ ids. FiltersTo (IsReached chains.now tree.now)
        (walks_below tree.now roots.now) ids.items) }
    ensures following { AreFollowing chains.now rows.new.items tree.now shared.new.caches }
{
    if let [root] = roots {
        return select_among(tree, tree.descendant_ids_of_it(root), chains, rows, shared);
    }
    let ids = nodes_below(tree, roots)?;
    select_among(tree, ids, chains, rows, shared)
}

/// Returns the elements below the roots that one of the selectors matches, each once. The selectors
/// must be plain (`ArePlain`): the combinators of each are only whitespace and `>`, or only `+` and
/// `~`. It fails with `OutOfMemory` when memory is refused.
pub(crate) fn select_plain(
    tree: &Tree,
    roots: &[NodeId],
    selectors: &[Selector],
) -> Result<Vec<NodeId>, OutOfMemory>
    requires { ArePlain selectors.now }
    ensures { IfOk result (λ ids. Selected tree.now roots.now (read_list selectors.now) ids.items) }
{
    let chains = prepare_all(selectors, tree)?;
    let mut rows = all_empty(tree, &chains)?;
    let mut shared = Shared {
        caches: SelectorCaches::new(tree),
        missing: Vec::new(tree.allocator()),
    };
    select_along(tree, roots, &chains, &mut rows, &mut shared)
}
