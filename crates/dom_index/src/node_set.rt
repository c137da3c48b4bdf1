//! Sets of nodes, stored as one flag for each node, and their operations.

ghost use Rattle.std.specs.Prelude.{◌≡◌, ◌<◌, ◌≤◌, ◌+◌, ◌^◌, true, length, IfOk};
ghost use Rattle.dom_selectors.specs.declared.syntax.Combinator.TheVariants.{Sibling};
ghost use Rattle.dom_links.specs.ListMoves.{element_at};
ghost use Rattle.dom_selectors.specs.Spelling.{Decides};
ghost use Rattle.dom_index.specs.NodeSets.{AreOperands, IsComplement, IsIntersection, IsUnion};
ghost use Rattle.dom_index.specs.PreorderSets.{AllListsHold, AllMatch, IsFiltered, IsSetWhere};
ghost use Rattle.dom_index.specs.PreorderSets.{LacksNoMatch};
ghost use Rattle.dom_index.specs.PreparedCompounds.{IsPreparedAt};
ghost use Rattle.dom_index.specs.SelectorValues.{CompoundHolds};
ghost use Rattle.dom_index.specs.TestCounts.{Counts, IsCardinality, cardinality};
ghost use Rattle.dom_index.specs.TypeBytes.{AreElements};

use crate::preorder::{Preorder, numbered};
use crate::type_filter::{
    NO_ELEMENT, TypeFilter, decided_by_type, have_known_types, intersect_type, is_element_at,
    type_filter_of,
};
use dom_nodes::fault::OutOfMemory;
use dom_select::matcher::caches::SelectorCaches;
use dom_select::matcher::compounds::{CompoundTest, indexes_for};
use dom_selectors::syntax::{Combinator, Compound};
use dom_trees::node_ref::NodeRef;

/// Returns the nodes of the set that the compound selector matches. Its nested lists have to match
/// each node of the set.
pub(crate) fn filter_by_compound(
    preorder: &Preorder<'_>,
    compound: &Compound,
    wanted: Vec<bool>,
    tests: &mut u128,
) -> Result<Vec<bool>, OutOfMemory>
    requires wanted { length wanted.items ≡ length preorder.now.tree.now.content }
    requires lists { AllListsHold preorder.now compound.now.nested.items wanted.items }
    ensures table { IfOk result (IsFiltered preorder.now wanted.items
        (CompoundHolds compound.now)) }
    ensures counted { Counts result tests.old tests.new (IsCardinality wanted.items) }
    ensures tests { tests.new ≤ tests.old + cardinality wanted.items }
{
    let prepared = PreparedCompound {
        compound,
        name: type_filter_of(compound),
        answers: vec![in preorder.tree.allocator(); true; compound.nested.len()]?,
    };
    let mut caches = SelectorCaches::new(preorder.tree);
    let mut table = wanted;
    let mut asked = 0;
    for n in 0..table.len() {
        if !table[n] {
            continue;
        }
        table[n] = compound_holds(preorder, &prepared, n, &mut caches, &mut asked);
    }
    *tests = tests.saturating_add(asked);
    Ok(table)
}

/// A compound selector, its type filter if it has one, and the answers of its nested lists.
#[derive(Drop)]
struct PreparedCompound<'c> {
    compound: &'c Compound,
    name: Option<TypeFilter>,
    answers: Vec<bool>,
}

/// Returns whether the compound selector matches the node, which its type alone may decide. It adds
/// one to `asked`.
fn compound_holds(
    preorder: &Preorder<'_>,
    prepared: &PreparedCompound<'_>,
    n: usize,
    caches: &mut SelectorCaches<'_>,
    asked: &mut u128,
) -> bool
    requires prepared { IsPreparedAt preorder.now.tree.now n prepared.now caches.old }
    requires room { asked.old + 1 < 2 ^ 128 }
    ensures is { Decides result
        (CompoundHolds prepared.now.compound.now preorder.now.tree.now n) }
    ensures kept { caches.new ≡ caches.old }
    ensures counted { asked.new ≡ asked.old + 1 }
{
    if let Some(answer) = decided_by_type(preorder, n, prepared.name) {
        *asked += 1;
        return answer;
    }
    let node = NodeRef::new(numbered(preorder.tree, n), preorder.tree);
    let indexes = indexes_for(prepared.compound, &node, caches);
    prepared
        .compound
        .test(&node, &prepared.answers, indexes, asked)
}

/// Returns the set of elements. Fails only when memory runs out.
pub(crate) fn elements(preorder: &Preorder<'_>) -> Result<Vec<bool>, OutOfMemory>
    ensures { IfOk result (IsSetWhere preorder.now (λ forest n. element_at forest n ≡ true)) }
{
    let mut table = vec![in preorder.tree.allocator(); false; preorder.order.len()]?;
    mark_elements(&preorder.type_bytes, &mut table);
    Ok(table)
}

/// Sets the flags of the nodes whose type bytes are those of elements.
fn mark_elements(bytes: &[u8], table: &mut Vec<bool>)
    requires { length bytes.now ≡ length table.old.items }
    ensures { AreElements bytes.now table.new.items }
{
    let cells = table.as_mut_slice();
    for n in 0..cells.len() {
        cells[n] = bytes[n] != NO_ELEMENT;
    }
}

/// Intersects the set with another one.
pub(crate) fn intersect(table: &mut Vec<bool>, other: &[bool])
    requires { length other.now ≡ length table.old.items }
    ensures { IsIntersection table.new.items table.old.items other.now }
{
    let cells = table.as_mut_slice();
    for n in 0..cells.len() {
        cells[n] = cells[n] & other[n];
    }
}

/// Removes the nodes that can't have the type of the compound selector. Returns `true` only if all
/// remaining nodes match it: it is a type selector alone, and the names of these nodes are in the
/// table of known names.
pub(crate) fn filter_by_type(
    preorder: &Preorder<'_>,
    compound: &Compound,
    table: &mut Vec<bool>,
) -> bool
    requires { length table.old.items ≡ length preorder.now.tree.now.content }
    ensures asked { LacksNoMatch preorder.now compound.now table.new.items table.old.items }
    ensures answer { result ≡ true → AllMatch preorder.now compound.now table.new.items }
{
    let Some(wanted) = type_filter_of(compound) else {
        return false;
    };
    intersect_type(table, &preorder.type_bytes, wanted.number);
    wanted.is_all && have_known_types(table, &preorder.type_bytes)
}

/// Returns the number of nodes in the set.
pub(crate) fn member_count(table: &[bool]) -> usize
    ensures { result ≡ cardinality table.now }
{
    let mut count: usize = 0;
    for n in 0..table.len() {
        if table[n] {
            count += 1;
        }
    }
    count
}

/// Adds the nodes of another set.
pub(crate) fn unite(table: &mut Vec<bool>, other: &[bool])
    requires { length other.now ≡ length table.old.items }
    ensures { IsUnion table.new.items table.old.items other.now }
{
    let cells = table.as_mut_slice();
    for n in 0..cells.len() {
        cells[n] = cells[n] | other[n];
    }
}

/// Replaces the set by its complement.
pub(crate) fn complement(table: &mut Vec<bool>)
    ensures { IsComplement table.new.items table.old.items }
{
    let cells = table.as_mut_slice();
    for n in 0..cells.len() {
        cells[n] = !cells[n];
    }
}

/// Removes the nodes that may not be operands of the combinator.
pub(crate) fn intersect_operands(
    preorder: &Preorder<'_>,
    combinator: Combinator,
    table: &mut Vec<bool>,
)
    requires { length table.old.items ≡ length preorder.now.tree.now.content }
    ensures { AreOperands preorder.now.tree.now combinator table.new.items table.old.items }
{
    match combinator {
        Combinator::Descendant | Combinator::Child => {}
        Combinator::Adjacent | Combinator::Sibling => intersect_elements(preorder, table),
    }
}

/// Removes the nodes that are no elements.
fn intersect_elements(preorder: &Preorder<'_>, table: &mut Vec<bool>)
    requires { length table.old.items ≡ length preorder.now.tree.now.content }
    ensures { AreOperands preorder.now.tree.now Sibling table.new.items table.old.items }
{
    for n in 0..table.len() {
        if table[n] {
            table[n] = is_element_at(preorder, n);
        }
    }
}
