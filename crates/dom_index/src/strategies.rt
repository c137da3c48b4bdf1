//! The choice of a strategy from the structure of the selectors, so that no compound selector is
//! tested more often than once at each node.

ghost use Rattle.std.specs.Prelude.{◌≡◌, true};
ghost use Rattle.dom_index.specs.FlagRows.{is_sideways};
ghost use Rattle.dom_index.specs.NodeTests.{ArePlain, IsPlain};

use crate::chains::way_of;
use dom_nodes::node_id::NodeId;
use dom_selectors::syntax::{Combinator, Compound, Nested, Selector, Step};
use dom_trees::tree::Tree;

/// The largest number of compound selectors with which a list is selected in one traversal. The
/// traversal keeps, for each node, a flag for each selector and one for each combinator.
const MOST_COMPOUNDS: usize = 32;

/// The largest number of nodes that counts as few.
const FEW: usize = 32;

/// Returns whether each candidate, which is a node below the roots, is matched by itself. Nested
/// lists then have to be near (see `is_near`), and only last compound selectors may have `:has`,
/// since others are tested at one node for several candidates.
///
/// The combinators are `>` and `+`, or few nodes are around the candidates. A candidate tests no
/// compound selector twice at itself, an ancestor or a sibling of these, so fewer tests are made
/// than one at each node.
pub(crate) fn matches_node_by_node(tree: &Tree, roots: &[NodeId], selectors: &[Selector]) -> bool {
    if !selectors.iter().all(is_askable) {
        return false;
    }
    if selectors.iter().all(is_tight) {
        return true;
    }
    let height = if selectors.iter().any(leads_up) {
        None
    } else {
        Some(1)
    };
    have_few_around(tree, roots, height, selectors.iter().any(leads_along))
}

fn is_askable(selector: &Selector) -> bool {
    has_near_lists(selector) && !has_has_before(&selector.first, &selector.rest)
}

/// Returns whether each combinator has at most one left operand.
fn is_tight(selector: &Selector) -> bool {
    selector.rest.iter().all(|step| is_bound(step.combinator))
}

/// Returns whether a combinator leads to ancestors.
fn leads_up(selector: &Selector) -> bool {
    selector
        .rest
        .iter()
        .any(|step| !is_sideways(step.combinator))
}

/// Returns whether a combinator leads to any previous sibling.
fn leads_along(selector: &Selector) -> bool {
    selector
        .rest
        .iter()
        .any(|step| matches!(step.combinator, Combinator::Sibling))
}

/// Returns whether the nodes below the roots have few ancestors in total up to that height,
/// compared with the size of the tree; with siblings, also few children of these. It stops counting
/// when there are too many. It has no contract, since only the time depends on it.
fn have_few_around(
    tree: &Tree,
    roots: &[NodeId],
    height: Option<usize>,
    with_siblings: bool,
) -> bool {
    let mut left = tree.len() / FEW;
    for root in roots {
        for id in tree.descendant_ids_of_it(root) {
            let mut around: usize = 0;
            for above in tree.ancestor_ids_of_it(&id, height) {
                if around > left {
                    return false;
                }
                around = around.saturating_add(1);
                if with_siblings {
                    around = around.saturating_add(count_children(tree, above, left));
                }
            }
            if around > left {
                return false;
            }
            left -= around;
        }
    }
    true
}

/// Returns how many children a node has; it stops counting at more than `most`.
fn count_children(tree: &Tree, id: NodeId, most: usize) -> usize {
    let mut count: usize = 0;
    for _ in tree.child_ids_of_it(&id, false) {
        if count > most {
            break;
        }
        count = count.saturating_add(1);
    }
    count
}

/// Returns whether the combinator has at most one left operand, as `>` and `+` do.
fn is_bound(combinator: Combinator) -> bool {
    matches!(combinator, Combinator::Child | Combinator::Adjacent)
}

/// Returns whether the compound selector has `:has`.
fn has_has(compound: &Compound) -> bool {
    compound
        .nested
        .iter()
        .any(|list| matches!(list, Nested::Has(_)))
}

/// Returns whether a compound selector other than the last one has a list `:has`.
fn has_has_before(first: &Compound, steps: &[Step]) -> bool {
    match steps.split_last() {
        None => false,
        Some((_, front)) => has_has(first) || front.iter().any(|step| has_has(&step.compound)),
    }
}

/// Returns whether the nested lists of the compound selector are near: if it is tested once at each
/// node, they test each of their compound selectors at most once at each node.
fn is_near(compound: &Compound) -> bool {
    compound.nested.iter().all(|list| match list {
        Nested::Is(selectors) | Nested::Not(selectors) => are_bound(selectors),
        Nested::Has(selectors) => selectors.iter().all(is_near_anchor),
    })
}

/// Returns whether the selectors have no nested lists and only the combinators `>` and `+`.
fn are_bound(selectors: &[Selector]) -> bool {
    selectors
        .iter()
        .all(|selector| has_no_lists(selector) && is_tight(selector))
}

fn has_no_lists(selector: &Selector) -> bool {
    selector.first.nested.is_empty()
        && selector
            .rest
            .iter()
            .all(|step| step.compound.nested.is_empty())
}

/// Returns whether the relative selector has no nested lists and leads to a child, to a child by
/// compound selectors side by side, or to the next sibling. Each node is then visited for one
/// anchor alone.
fn is_near_anchor(selector: &Selector) -> bool {
    if !has_no_lists(selector) {
        return false;
    }
    match selector.lead {
        Combinator::Child => selector
            .rest
            .iter()
            .all(|step| matches!(step.combinator, Combinator::Adjacent)),
        Combinator::Adjacent => selector.rest.is_empty(),
        Combinator::Descendant | Combinator::Sibling => false,
    }
}

/// Returns whether the list can be selected in one traversal: it has few compound selectors, the
/// combinators of each selector are whitespace and `>` or are `+` and `~`, and nested lists are
/// near.
pub(crate) fn are_traversed(selectors: &[Selector]) -> bool
    ensures { result ≡ true → ArePlain selectors.now }
{
    if count_compounds(selectors) > MOST_COMPOUNDS {
        return false;
    }
    if !selectors.iter().all(has_near_lists) {
        return false;
    }
    are_plain(selectors)
}

/// Returns how many compound selectors the selectors have, without those of nested lists. There is
/// no `ensures` clause, because only the time depends on it.
fn count_compounds(selectors: &[Selector]) -> usize {
    let mut count: usize = 0;
    for selector in selectors {
        count = count.saturating_add(1).saturating_add(selector.rest.len());
    }
    count
}

/// Returns whether nested lists are near.
fn has_near_lists(selector: &Selector) -> bool {
    is_near(&selector.first) && selector.rest.iter().all(|step| is_near(&step.compound))
}

/// Returns whether the combinators of each selector are whitespace and `>`, or are `+` and `~`.
fn are_plain(selectors: &[Selector]) -> bool
    ensures { result ≡ true → ArePlain selectors.now }
{
    for i in 0..selectors.len() {
        if !is_plain(&selectors[i].rest) {
            return false;
        }
    }
    true
}

/// Returns whether these combinators are whitespace and `>`, or are `+` and `~`.
fn is_plain(steps: &[Step]) -> bool
    ensures { result ≡ true → IsPlain steps.now }
{
    let way = way_of(steps);
    for i in 0..steps.len() {
        if !is_along(way, steps[i].combinator) {
            return false;
        }
    }
    true
}

/// Returns whether both combinators lead to ancestors, or both to siblings.
fn is_along(way: Combinator, combinator: Combinator) -> bool
    ensures { result ≡ true → is_sideways combinator ≡ is_sideways way }
{
    match combinator {
        Combinator::Descendant | Combinator::Child => !is_sideways(way),
        Combinator::Adjacent | Combinator::Sibling => is_sideways(way),
    }
}

/// Returns whether the combinator relates siblings.
fn is_sideways(combinator: Combinator) -> bool
    ensures { result ≡ is_sideways combinator }
{
    match combinator {
        Combinator::Descendant | Combinator::Child => false,
        Combinator::Adjacent | Combinator::Sibling => true,
    }
}
