//! Selection by node sets: the set of the nodes that a selector matches, computed one compound
//! selector at a time.

ghost use Rattle.std.specs.Prelude.{◌≡◌, ◌≤◌, ◌+◌, ◌*◌, length, IfOk};
ghost use Rattle.dom_selectors.specs.ValuesAsTrees.{read_list, read_nested, read_steps};
ghost use Rattle.dom_select.specs.Meaning.{HasHolds, ListHolds, MatchesNode};
ghost use Rattle.dom_index.specs.PreorderSets.{ChainAsks, CompoundAsks, HasAsks, HasWanted};
ghost use Rattle.dom_index.specs.PreorderSets.{IsFiltered, IsSetWhere, ListAsks, ListsAsk};
ghost use Rattle.dom_index.specs.PreorderSets.{RelativeAsks, RestAsks, SelectorsAsk, node_count};
ghost use Rattle.dom_index.specs.RestMatches.{RestMatches};
ghost use Rattle.dom_index.specs.SelectorValues.{ChainHolds, CompoundHolds, NestedHold};
ghost use Rattle.dom_index.specs.SelectorValues.{RelativeHolds, compounds_among, compounds_behind};
ghost use Rattle.dom_index.specs.SelectorValues.{compounds_in, compounds_listed, compounds_nested};
ghost use Rattle.dom_index.specs.SelectorValues.{compounds_of};
ghost use Rattle.dom_index.specs.TestCounts.{Counts};

use crate::combinators::{step_backward, step_forward};
use crate::node_set::{
    complement, elements, filter_by_compound, filter_by_type, intersect, intersect_operands,
    member_count, unite,
};
use crate::preorder::{Preorder, forest_laws};
use dom_nodes::fault::OutOfMemory;
use dom_selectors::syntax::{Combinator, Compound, Nested, Selector, Step};

/// Returns the nodes of the set that the compound selector matches. Each node of the set counts as
/// a test, even if its type or a nested list excludes it.
#[cycle(evaluation)]
fn compound_set(
    preorder: &Preorder<'_>,
    compound: &Compound,
    wanted: Vec<bool>,
    tests: &mut u128,
) -> Result<Vec<bool>, OutOfMemory>
    requires { length wanted.items ≡ length preorder.now.tree.now.content }
    ensures table { IfOk result (IsFiltered preorder.now wanted.items
        (CompoundHolds compound.now)) }
    ensures counted { Counts result tests.old tests.new
        (CompoundAsks compound.now preorder.now wanted.items) }
    ensures tests { tests.new ≤ tests.old + compounds_in compound.now * node_count preorder.now }
{
    let asked = member_count(&wanted);
    let mut named = wanted;
    if filter_by_type(preorder, compound, &mut named) {
        *tests = tests.saturating_add(asked as u128);
        return Ok(named);
    }
    let narrowed = lists_set(preorder, &compound.nested, named, tests)?;
    let turned_away = asked - member_count(&narrowed);
    *tests = tests.saturating_add(turned_away as u128);
    filter_by_compound(preorder, compound, narrowed, tests)
}

/// Returns the nodes of the set that each nested list of a compound selector matches.
#[cycle(evaluation)]
fn lists_set(
    preorder: &Preorder<'_>,
    lists: &[Nested],
    wanted: Vec<bool>,
    tests: &mut u128,
) -> Result<Vec<bool>, OutOfMemory>
    requires { length wanted.items ≡ length preorder.now.tree.now.content }
    ensures table { IfOk result
        (IsFiltered preorder.now wanted.items (NestedHold lists.now)) }
    ensures counted { Counts result tests.old tests.new
        (ListsAsk lists.now preorder.now wanted.items) }
    ensures tests { tests.new ≤ tests.old + compounds_nested lists.now * node_count preorder.now }
{
    let mut table = wanted;
    for list in lists {
        let answer = nested_set(preorder, list, &table, tests)?;
        intersect(&mut table, &answer);
    }
    Ok(table)
}

/// Returns the nodes that a nested list matches. Only the flags of nodes in `wanted` are
/// meaningful.
#[cycle(evaluation)]
fn nested_set(
    preorder: &Preorder<'_>,
    list: &Nested,
    wanted: &[bool],
    tests: &mut u128,
) -> Result<Vec<bool>, OutOfMemory>
    requires { length wanted.now ≡ length preorder.now.tree.now.content }
    ensures table { IfOk result
        (HasWanted preorder.now wanted.now (ListHolds (read_nested list.now))) }
    ensures counted { Counts result tests.old tests.new
        (ListAsks list.now preorder.now wanted.now) }
    ensures tests { tests.new ≤ tests.old + compounds_listed list.now * node_count preorder.now }
{
    match list {
        Nested::Is(selectors) => list_set(preorder, selectors, wanted, tests),
        Nested::Not(selectors) => {
            let mut table = list_set(preorder, selectors, wanted, tests)?;
            complement(&mut table);
            Ok(table)
        }
        Nested::Has(selectors) => has_set(preorder, selectors, tests),
    }
}

/// Returns the nodes that one of the selectors matches. Only the flags of nodes in `wanted` are
/// meaningful.
#[cycle(evaluation)]
pub(crate) fn list_set(
    preorder: &Preorder<'_>,
    selectors: &[Selector],
    wanted: &[bool],
    tests: &mut u128,
) -> Result<Vec<bool>, OutOfMemory>
    requires { length wanted.now ≡ length preorder.now.tree.now.content }
    ensures table { IfOk result
        (HasWanted preorder.now wanted.now (MatchesNode (read_list selectors.now))) }
    ensures counted { Counts result tests.old tests.new
        (SelectorsAsk selectors.now preorder.now wanted.now) }
    ensures tests { tests.new
        ≤ tests.old + compounds_among selectors.now * node_count preorder.now }
{
    let mut table = vec![in preorder.tree.allocator(); false; preorder.order.len()]?;
    for selector in selectors {
        let answer = selector_set(preorder, &selector.first, &selector.rest, wanted, tests)?;
        unite(&mut table, &answer);
    }
    Ok(table)
}

/// Returns the nodes that a complex selector matches. Only the flags of nodes in `wanted` are
/// meaningful. The last compound selector is tested only at nodes of `wanted`, and every other one
/// at all nodes that its combinator reaches.
#[cycle(evaluation)]
fn selector_set(
    preorder: &Preorder<'_>,
    first: &Compound,
    steps: &[Step],
    wanted: &[bool],
    tests: &mut u128,
) -> Result<Vec<bool>, OutOfMemory>
    requires { length wanted.now ≡ length preorder.now.tree.now.content }
    ensures table { IfOk result
        (HasWanted preorder.now wanted.now (ChainHolds first.now steps.now)) }
    ensures counted { Counts result tests.old tests.new
        (ChainAsks first.now steps.now preorder.now wanted.now) }
    ensures tests { tests.new ≤ tests.old
        + compounds_of first.now steps.now * node_count preorder.now }
{
    forest_laws(preorder.tree);
    let mut here = vec![in preorder.tree.allocator(); true; preorder.order.len()]?;
    let mut compound = first;
    let mut left = steps;
    while let Some((step, behind)) = left.split_first() {
        let held = compound_set(preorder, compound, here, tests)?;
        here = step_forward(preorder, step.combinator, &held)?;
        compound = &step.compound;
        left = behind;
    }
    intersect(&mut here, wanted);
    compound_set(preorder, compound, here, tests)
}

/// Returns the anchors for which one of the relative selectors matches.
#[cycle(evaluation)]
fn has_set(
    preorder: &Preorder<'_>,
    selectors: &[Selector],
    tests: &mut u128,
) -> Result<Vec<bool>, OutOfMemory>
    ensures table { IfOk result (IsSetWhere preorder.now (HasHolds (read_list selectors.now))) }
    ensures counted { Counts result tests.old tests.new (HasAsks selectors.now preorder.now) }
    ensures tests { tests.new
        ≤ tests.old + compounds_among selectors.now * node_count preorder.now }
{
    let mut table = vec![in preorder.tree.allocator(); false; preorder.order.len()]?;
    for selector in selectors {
        let answer = relative_set(
            preorder,
            selector.lead,
            &selector.first,
            &selector.rest,
            tests,
        )?;
        unite(&mut table, &answer);
    }
    Ok(table)
}

/// Returns the anchors for which a relative selector matches, computed from its last compound
/// selector to its first.
#[cycle(evaluation)]
fn relative_set(
    preorder: &Preorder<'_>,
    lead: Combinator,
    first: &Compound,
    steps: &[Step],
    tests: &mut u128,
) -> Result<Vec<bool>, OutOfMemory>
    ensures table { IfOk result (IsSetWhere preorder.now (RelativeHolds lead first.now steps.now)) }
    ensures counted { Counts result tests.old tests.new
        (RelativeAsks first.now steps.now preorder.now) }
    ensures tests { tests.new ≤ tests.old
        + compounds_of first.now steps.now * node_count preorder.now }
{
    forest_laws(preorder.tree);
    let wanted = rest_set(preorder, steps, tests)?;
    let held = compound_set(preorder, first, wanted, tests)?;
    step_backward(preorder, lead, &held)
}

/// Returns the nodes from which the steps can be matched to their end, at an element.
#[cycle(evaluation)]
fn rest_set(
    preorder: &Preorder<'_>,
    steps: &[Step],
    tests: &mut u128,
) -> Result<Vec<bool>, OutOfMemory>
    ensures table { IfOk result (IsSetWhere preorder.now (RestMatches (read_steps steps.now))) }
    ensures counted { Counts result tests.old tests.new (RestAsks steps.now preorder.now) }
    ensures tests { tests.new ≤ tests.old + compounds_behind steps.now * node_count preorder.now }
{
    let mut table = elements(preorder)?;
    let mut left = steps;
    while let Some((step, before)) = left.split_last() {
        let held = compound_set(preorder, &step.compound, table, tests)?;
        table = step_backward(preorder, step.combinator, &held)?;
        intersect_operands(preorder, step.combinator, &mut table);
        left = before;
    }
    Ok(table)
}
