//! The matching algorithm. The compound selectors of a chain are matched from right to left, and
//! those first that bind more tightly: `+`, then `~`, then `>`, then whitespace.
//!
//! If a combinator leaves a choice of nodes, the nearest one that fits is taken, and no other is
//! tried: any node to the left of a farther one is also to the left of the nearest.

ghost use Rattle.std.specs.Prelude.{◌≡◌, ◌↔◌, ◌∷◌, ◌<◌, [], IfSome, IsTrue, Some, map};
ghost use Rattle.std.specs.Prelude.{slice_get};
ghost use Rattle.dom_selectors.specs.declared.syntax.Combinator.TheVariants.{Descendant};
ghost use Rattle.dom_selectors.specs.Spelling.{Decides};
ghost use Rattle.dom_selectors.specs.ValuesAsTrees.{read_compound, read_list, read_nested};
ghost use Rattle.dom_select.specs.Chains.{BeginsChain, EndsChain, FollowsCandidate, FollowsChain};
ghost use Rattle.dom_select.specs.Chains.{IsCandidate, IsOrPrecedes, binding_level};
ghost use Rattle.dom_select.specs.Ends.{AreDecided, ImpliesType, IsSubjectType};
ghost use Rattle.dom_select.specs.declared.matcher.has.Start.TheVariants.{Absolute};
ghost use Rattle.dom_select.specs.Has.{CompoundsMatch, CompoundsMatchFrom, CompoundsMatchWithin};
ghost use Rattle.dom_select.specs.Has.{IsElementThat, IsInRow, may_be_subject};
ghost use Rattle.dom_select.specs.Leftward.{ends_at};
ghost use Rattle.dom_select.specs.Meaning.{HasHolds, HasType, Holds, IsTypeAlone, ListHolds};
ghost use Rattle.dom_select.specs.Meaning.{MatchesNode, MeansType};

use crate::matcher::caches::SelectorCaches;
use crate::matcher::chains::{binding_level, ends_at, left_of, line_laws, may_be_operand};
use crate::matcher::has::{
    Start, first_right, first_search_root, is_in_row, is_joined, is_near, may_be_subject,
    next_right, next_search_root, row_combinator,
};
use crate::matcher::parts::{each_holds, element_at, is_named_node};
use dom_nodes::node_data::NodeData;
use dom_nodes::node_id::NodeId;
use dom_selectors::selector_name::SelectorName;
use dom_selectors::syntax::{Combinator, Compound, Nested, Part, Selector, Step};
use dom_trees::tree::Tree;

/// A level above that of every combinator.
const ALL: usize = 5;

/// Returns the name, if the compound selector is a type selector and nothing else.
pub(crate) fn sole_type_selector(compound: &Compound) -> Option<&SelectorName>
    ensures { IfSome result (λ name. IsTypeAlone name.now (read_compound compound.now)) }
{
    if !compound.nested.is_empty() {
        return None;
    }
    match compound.parts.as_slice() {
        [Part::Type(name)] => Some(name),
        _ => None,
    }
}

/// Returns the name, if the list is one type selector and nothing else.
pub(crate) fn sole_type(selectors: &[Selector]) -> Option<&SelectorName>
    ensures { IfSome result (λ name. MeansType name.now (read_list selectors.now)) }
{
    let [selector] = selectors else {
        return None;
    };
    if !selector.rest.as_slice().is_empty() {
        return None;
    }
    sole_type_selector(&selector.first)
}

/// Returns the name of the type selector with which the compound selector starts, if it does.
fn type_selector(compound: &Compound) -> Option<&SelectorName>
    ensures { IfSome result (λ name. ImpliesType name.now (read_compound compound.now)) }
{
    let Some(part) = compound.parts.first() else {
        return None;
    };
    match part {
        Part::Type(name) => Some(name),
        _ => None,
    }
}

/// Returns the name of the type selector with which the last compound selector starts, if it does.
pub(crate) fn subject_type<'a>(first: &'a Compound, steps: &'a [Step]) -> Option<&'a SelectorName>
    ensures { IfSome result (λ name. IsSubjectType first.now steps.now name.now) }
{
    match steps.split_last() {
        None => type_selector(first),
        Some((last, _)) => type_selector(&last.compound),
    }
}

/// Returns whether the node is an element of this type.
#[inline(always)]
pub(crate) fn has_type(tree: &Tree, id: &NodeId, name: &SelectorName) -> bool
    ensures { Decides result (HasType name.now tree.now id.now) }
{
    match tree.tree_node(id) {
        Some(found) => is_named_node(&found.content, name),
        None => false,
    }
}

/// Returns whether the chain matches the node, if its type decides that: the chain is a type
/// selector alone, or the last compound selector starts with a type that the node doesn't have.
#[inline(always)]
fn decided_by_type(first: &Compound, steps: &[Step], node: &NodeData) -> Option<bool>
    ensures { IfSome result (AreDecided first.now steps.now node.now) }
{
    if steps.is_empty() {
        let name = sole_type_selector(first)?;
        return Some(is_named_node(node, name));
    }
    let name = subject_type(first, steps)?;
    if is_named_node(node, name) {
        return None;
    }
    Some(false)
}

/// Returns whether the compound selector matches the node. For a type selector alone, nothing else
/// is tested.
#[cycle(matching)]
pub(crate) fn holds(compound: &Compound, caches: &mut SelectorCaches<'_>, id: NodeId) -> bool
    ensures is { IsTrue result ↔ Holds (read_compound compound.now) caches.old id }
    ensures kept { caches.new ≡ caches.old }
{
    let Some(found) = caches.tree().tree_node(&id) else {
        return false;
    };
    if let Some(name) = sole_type_selector(compound) {
        return is_named_node(&found.content, name);
    }
    holds_of(compound, caches, id, &found.content)
}

/// Returns whether the compound selector matches the node, whose data is already looked up.
#[cycle(matching)]
fn holds_of(
    compound: &Compound,
    caches: &mut SelectorCaches<'_>,
    id: NodeId,
    node: &NodeData,
) -> bool
    requires { slice_get caches.old.content id ≡ Some node.now }
    ensures is { IsTrue result ↔ Holds (read_compound compound.now) caches.old id }
    ensures kept { caches.new ≡ caches.old }
{
    if !each_holds(&compound.parts, caches, &id, node) {
        return false;
    }
    for list in &compound.nested {
        if !list_holds(list, caches, id, node) {
            return false;
        }
    }
    true
}

/// Returns whether a nested list matches the node, whose data is already looked up.
#[cycle(matching)]
fn list_holds(list: &Nested, caches: &mut SelectorCaches<'_>, id: NodeId, node: &NodeData) -> bool
    requires { slice_get caches.old.content id ≡ Some node.now }
    ensures is { IsTrue result ↔ ListHolds (read_nested list.now) caches.old id }
    ensures kept { caches.new ≡ caches.old }
{
    match list {
        Nested::Is(selectors) => means_node(selectors, caches, id, node),
        Nested::Not(selectors) => !means_node(selectors, caches, id, node),
        Nested::Has(selectors) => has_holds(selectors, caches, id),
    }
}

/// Returns whether one of the selectors matches the node.
pub(crate) fn means(selectors: &[Selector], caches: &mut SelectorCaches<'_>, id: NodeId) -> bool
    ensures is { IsTrue result ↔ MatchesNode (read_list selectors.now) caches.old id }
    ensures kept { caches.new ≡ caches.old }
{
    match caches.tree().tree_node(&id) {
        Some(found) => means_node(selectors, caches, id, &found.content),
        None => false,
    }
}

/// Returns whether one of the selectors matches the node, whose data is already looked up.
#[cycle(matching)]
pub(crate) fn means_node(
    selectors: &[Selector],
    caches: &mut SelectorCaches<'_>,
    id: NodeId,
    node: &NodeData,
) -> bool
    requires { slice_get caches.old.content id ≡ Some node.now }
    ensures is { IsTrue result ↔ MatchesNode (read_list selectors.now) caches.old id }
    ensures kept { caches.new ≡ caches.old }
{
    for selector in selectors {
        if compounds_match(&selector.first, &selector.rest, caches, id, node) {
            return true;
        }
    }
    false
}

/// Returns whether the chain matches the node, whose data is already looked up. A single compound
/// selector is tested directly.
#[cycle(matching)]
fn compounds_match(
    first: &Compound,
    steps: &[Step],
    caches: &mut SelectorCaches<'_>,
    id: NodeId,
    node: &NodeData,
) -> bool
    requires { slice_get caches.old.content id ≡ Some node.now }
    ensures is { IsTrue result ↔ CompoundsMatch Absolute first.now steps.now caches.old id }
    ensures kept { caches.new ≡ caches.old }
{
    if let Some(answer) = decided_by_type(first, steps, node) {
        return answer;
    }
    if steps.is_empty() {
        return holds_of(first, caches, id, node);
    }
    let start = Start::Absolute;
    chain_matches(&start, first, steps, caches, id)
}

/// Returns whether one of the relative selectors matches an element, with this node as the anchor.
#[cycle(matching)]
fn has_holds(selectors: &[Selector], caches: &mut SelectorCaches<'_>, id: NodeId) -> bool
    ensures is { IsTrue result ↔ HasHolds (read_list selectors.now) caches.old id }
    ensures kept { caches.new ≡ caches.old }
{
    for selector in selectors {
        if relative_matches(selector.lead, &selector.first, &selector.rest, caches, id) {
            return true;
        }
    }
    false
}

/// Returns whether a relative selector matches an element, with this node as the anchor. Each node
/// that it could match is tried.
#[cycle(matching)]
fn relative_matches(
    lead: Combinator,
    first: &Compound,
    steps: &[Step],
    caches: &mut SelectorCaches<'_>,
    id: NodeId,
) -> bool
    ensures is { IsTrue result ↔ CompoundsMatchFrom lead first.now steps.now caches.old id }
    ensures kept { caches.new ≡ caches.old }
{
    if is_near(lead, steps) {
        return holds_beside(lead, first, caches, id);
    }
    if is_in_row(lead, steps) {
        return matches_in_row(lead, first, steps, caches, id);
    }
    let tree = caches.tree();
    line_laws(tree);
    let start = Start::Relative(lead, id);
    let mut top = first_search_root(tree, lead, id);
    while let Some(at) = top {
        if matches_within(&start, first, steps, caches, at) {
            return true;
        }
        top = next_search_root(tree, lead, at);
    }
    false
}

/// Returns the answer of `relative_matches` for a single compound selector and a combinator that
/// relates children or siblings. Only these are tested.
#[cycle(matching)]
fn holds_beside(
    lead: Combinator,
    first: &Compound,
    caches: &mut SelectorCaches<'_>,
    id: NodeId,
) -> bool
    requires { lead ≡ Descendant → ⊥ }
    ensures is { IsTrue result ↔ CompoundsMatchFrom lead first.now [] caches.old id }
    ensures kept { caches.new ≡ caches.old }
{
    let tree = caches.tree();
    let mut next = first_right(tree, lead, id);
    while let Some(at) = next {
        if holds_of_element(first, caches, at) {
            return true;
        }
        next = next_right(tree, lead, at);
    }
    false
}

/// Returns whether the node is an element that the compound selector matches.
#[cycle(matching)]
fn holds_of_element(compound: &Compound, caches: &mut SelectorCaches<'_>, id: NodeId) -> bool
    ensures is { IsTrue result ↔ IsElementThat (read_compound compound.now) caches.old id }
    ensures kept { caches.new ≡ caches.old }
{
    if !element_at(caches.tree(), &id) {
        return false;
    }
    holds(compound, caches, id)
}

/// Returns the answer of `relative_matches` for a selector that can match only children or
/// siblings. Only these are tried.
#[cycle(matching)]
fn matches_in_row(
    lead: Combinator,
    first: &Compound,
    steps: &[Step],
    caches: &mut SelectorCaches<'_>,
    id: NodeId,
) -> bool
    requires { IsInRow lead steps.now }
    ensures is { IsTrue result ↔ CompoundsMatchFrom lead first.now steps.now caches.old id }
    ensures kept { caches.new ≡ caches.old }
{
    let tree = caches.tree();
    line_laws(tree);
    let start = Start::Relative(lead, id);
    let row = row_combinator(lead);
    let mut next = first_right(tree, row, id);
    while let Some(at) = next {
        if chain_matches(&start, first, steps, caches, at) {
            return true;
        }
        next = next_right(tree, row, at);
    }
    false
}

/// Returns whether the chain matches this node or a descendant, from the start.
#[cycle(matching)]
fn matches_within(
    start: &Start,
    first: &Compound,
    steps: &[Step],
    caches: &mut SelectorCaches<'_>,
    top: NodeId,
) -> bool
    ensures is { Decides result
        (CompoundsMatchWithin start.now first.now steps.now caches.old top) }
    ensures kept { caches.new ≡ caches.old }
{
    if chain_matches(start, first, steps, caches, top) {
        return true;
    }
    for y in caches.tree().descendant_ids_of_it(&top) {
        if chain_matches(start, first, steps, caches, y) {
            return true;
        }
    }
    false
}

/// What stays the same while one chain is matched: its start, its first compound selector, and the
/// node that may be beside `+` and `~` even if it is no element.
#[derive(Clone, Copy)]
struct Chain<'c> {
    start: &'c Start,
    first: &'c Compound,
    exempt: NodeId,
}

/// Returns whether there are nodes for the first compound selector and for the steps, the last of
/// them this node.
#[cycle(matching)]
fn chain_matches(
    start: &Start,
    first: &Compound,
    steps: &[Step],
    caches: &mut SelectorCaches<'_>,
    id: NodeId,
) -> bool
    ensures is { IsTrue result ↔ CompoundsMatch start.now first.now steps.now caches.old id }
    ensures kept { caches.new ≡ caches.old }
{
    if !may_be_subject(start, caches.tree(), id) {
        return false;
    }
    let chain = Chain {
        start,
        first,
        exempt: id,
    };
    if steps.is_empty() {
        return begins(&chain, caches, id);
    }
    match_suffix(&chain, steps, ALL, caches, id).is_some()
}

/// Returns whether the node may be the one for the first compound selector.
#[cycle(matching)]
fn begins(chain: &Chain<'_>, caches: &mut SelectorCaches<'_>, id: NodeId) -> bool
    ensures is { IsTrue result ↔ BeginsChain chain.now caches.old id }
    ensures kept { caches.new ≡ caches.old }
{
    match chain.start {
        Start::Absolute => holds(chain.first, caches, id),
        Start::Relative(lead, from) => {
            if !is_joined(caches.tree(), *lead, *from, id) {
                return false;
            }
            holds(chain.first, caches, id)
        }
    }
}

/// Returns whether the last compound selector matches the node, and the node is allowed on the
/// right of the combinator before it.
#[cycle(matching)]
fn last_holds(
    chain: &Chain<'_>,
    steps: &[Step],
    caches: &mut SelectorCaches<'_>,
    id: NodeId,
) -> bool
    ensures is { Decides result (EndsChain chain.now steps.now caches.old id) }
    ensures kept { caches.new ≡ caches.old }
{
    match steps.split_last() {
        None => begins(chain, caches, id),
        Some((last, _)) => {
            if !may_be_operand(caches.tree(), chain.exempt, last.combinator, id) {
                return false;
            }
            holds(&last.compound, caches, id)
        }
    }
}

/// Returns whether matching may go on from the node: it is allowed beside the combinator, and has
/// the type if one is known.
#[inline(always)]
fn is_candidate(
    name: Option<&SelectorName>,
    combinator: Combinator,
    tree: &Tree,
    exempt: NodeId,
    id: NodeId,
) -> bool
    ensures { Decides result (IsCandidate name.entry combinator tree.now exempt id) }
{
    if !may_be_operand(tree, exempt, combinator, id) {
        return false;
    }
    match name {
        Some(name) => has_type(tree, &id, name),
        None => true,
    }
}

/// How far a chain was matched: the steps that are left, and the node that they have to match.
#[derive(Clone, Copy)]
struct Remainder<'a> {
    left: &'a [Step],
    at: NodeId,
}

/// Matches the steps from the node to the left, over all that bind more tightly than `level`.
#[cycle(matching)]
fn match_suffix<'a>(
    chain: &Chain<'_>,
    steps: &'a [Step],
    level: usize,
    caches: &mut SelectorCaches<'_>,
    id: NodeId,
) -> Option<Remainder<'a>>
    requires { IsOrPrecedes caches.old id chain.now.exempt }
    ensures is { FollowsChain chain.now steps.now level caches.old id result }
    ensures kept { caches.new ≡ caches.old }
{
    if !last_holds(chain, steps, caches, id) {
        return None;
    }
    line_laws(caches.tree());
    let mut remainder = Remainder {
        left: steps,
        at: id,
    };
    while let Some((last, front)) = remainder.left.split_last() {
        if binding_level(last.combinator) >= level {
            return Some(remainder);
        }
        let Some(next) = match_from_candidates(chain, front, last.combinator, caches, remainder.at)
        else {
            return None;
        };
        remainder = next;
    }
    Some(remainder)
}

/// Matches the steps from the nearest node that fits, among those that the combinator relates to
/// this node.
#[cycle(matching)]
fn match_from_candidates<'a>(
    chain: &Chain<'_>,
    steps: &'a [Step],
    combinator: Combinator,
    caches: &mut SelectorCaches<'_>,
    id: NodeId,
) -> Option<Remainder<'a>>
    requires { IsOrPrecedes caches.old id chain.now.exempt }
    ensures is { FollowsCandidate chain.now steps.now combinator caches.old id result }
    ensures kept { caches.new ≡ caches.old }
{
    let name = subject_type(chain.first, steps);
    let tree = caches.tree();
    let mut at = id;
    while let Some(v) = left_of(tree, combinator, at) {
        if is_candidate(name, combinator, tree, chain.exempt, v) {
            let level = binding_level(combinator);
            if let Some(remainder) = match_suffix(chain, steps, level, caches, v) {
                return Some(remainder);
            }
        }
        if ends_at(tree, combinator, v) {
            return None;
        }
        at = v;
    }
    None
}

/// Returns whether the selector matches the node.
pub(crate) fn matches_selector(
    selector: &Selector,
    caches: &mut SelectorCaches<'_>,
    id: NodeId,
) -> bool
    ensures { IsTrue result ↔ MatchesNode (read_list (selector.now ∷ [])) caches.old id }
{
    let start = Start::Absolute;
    chain_matches(&start, &selector.first, &selector.rest, caches, id)
}
