//! Selection below one node.

ghost use Rattle.std.specs.Prelude.{◌≡◌, ◌∷◌, [], length, IfOk, IfSome};
ghost use Rattle.std.specs.Iterator.{IsFinite, at_most};
ghost use Rattle.dom_links.specs.Trees.{descendants_in_order};
ghost use Rattle.dom_select.specs.Descendants.{FiltersItems, GivesMatch, IsMatch};
ghost use Rattle.dom_select.specs.Descendants.{SelectsBelow};
ghost use Rattle.dom_select.specs.Meaning.{MeansType};
ghost use Rattle.dom_select.specs.Selected.{Selected, walks_below};
ghost use Rattle.dom_select.specs.Subjects.{SubjectIsAmong};
ghost use Rattle.dom_selectors.specs.Spelling.{Decides};

use crate::matcher::Matcher;
use crate::matcher::caches::SelectorCaches;
use crate::matcher::matches::{has_type, means_node};
use crate::matcher::parts::element_at;
use crate::matcher::several::select_below_all;
use crate::matcher::subjects::may_be_subject;
use dom_links::iters::DescendantNodes;
use dom_nodes::fault::OutOfMemory;
use dom_nodes::node_id::NodeId;
use dom_selectors::selector_name::SelectorName;
use dom_trees::node_ref::NodeRef;
use dom_trees::tree::Tree;
use std::marker::Model;

/// An iterator over the elements below a node that a selector matches, in document order. It
/// allocates memory only for sibling indexes, if many are needed; if that memory isn't available,
/// it counts siblings instead.
#[derive(Drop)]
pub struct DescendantMatches<'a, 'b> {
    ids: DescendantNodes<'a>,
    tree: &'a Tree,
    caches: SelectorCaches<'a>,
    matcher: &'b Matcher,
    /// The types of the elements that the selectors can match, if each selector names one.
    types: Option<[bool; 256]>,
}

impl<'a, 'b> Model for DescendantMatches<'a, 'b> {
    ghost use Rattle.std.specs.Prelude.{◌≡◌, IfSome, List};
    ghost use Rattle.std.specs.Coded.{code_by, codes};
    ghost use Rattle.dom_select.specs.Descendants.{Matches};
    ghost use Rattle.dom_select.specs.Subjects.{SubjectIsAmong};
    ghost use Rattle.dom_selectors.specs.Tokens.{Token, list_of, read_back, tokens_of};

    ghost Value = { Matches };

    ghost coded = { Prim.hlevel
        (codes, code_by (List Token) (Prim.hlevel codes) tokens_of list_of read_back) };

    ghost view = { λ it. record { left = it.ids.left; tree = it.tree; selector = it.matcher.now } };

    ghost invariant = { λ it. (it.caches ≡ it.tree.now)
        × IfSome it.types (λ types. SubjectIsAmong types it.matcher.now) };
}

impl<'a, 'b> DescendantMatches<'a, 'b> {
    /// Returns an iterator over what the selector selects below the node.
    pub fn new(node: NodeRef<'a>, matcher: &'b Matcher) -> Self
        ensures all { result.left ≡ descendants_in_order node.entry.tree.now node.entry.id }
        ensures once { result.left ≡ walks_below node.entry.tree.now (node.entry.id ∷ []) }
        ensures tree { result.tree ≡ node.entry.tree }
        ensures selector { result.selector ≡ matcher.now }
        ensures selected { SelectsBelow result node.entry.tree.now
            (node.entry.id ∷ []) matcher.now }
    {
        let NodeRef { id, tree } = node;
        DescendantMatches {
            ids: tree.descendant_ids_of_it(&id),
            tree,
            caches: SelectorCaches::late(tree),
            matcher,
            types: matcher.subject_types(),
        }
    }
}

impl<'a, 'b> Iterator for DescendantMatches<'a, 'b> {
    type Item = NodeRef<'a>;

    ghost next_gives = { GivesMatch };

    ghost remaining = { λ walk. at_most (length walk.left) };

    fn next(&mut self) -> Option<NodeRef<'a>> {
        loop {
            let id = self.ids.next()?;
            if is_match_of_types(self.matcher, &self.types, &mut self.caches, id) {
                return Some(NodeRef::new(id, self.tree));
            }
        }
    }
}

/// Returns the elements below the root that the selector matches, in document order; none if the
/// tree has no such node. Fails only when memory runs out.
pub fn select_below(
    tree: &Tree,
    root: &NodeId,
    matcher: &Matcher,
) -> Result<Vec<NodeId>, OutOfMemory>
    ensures { IfOk result (λ ids. Selected tree.now (root.now ∷ []) matcher.now ids.items) }
{
    select_below_all(tree, &[*root], matcher)
}

/// Returns the elements below the root that have the name, for a selector that is this type
/// selector alone.
pub(crate) fn named_below(
    tree: &Tree,
    root: &NodeId,
    matcher: &Matcher,
    name: &SelectorName,
) -> Result<Vec<NodeId>, OutOfMemory>
    requires { MeansType name.now matcher.now }
    ensures { IfOk result (λ ids. Selected tree.now (root.now ∷ []) matcher.now ids.items) }
{
    let mut named = Vec::new(tree.allocator());
    for id in tree.descendant_ids_of_it(root) {
        if !has_type(tree, &id, name) {
            continue;
        }
        named.push(id)?;
    }
    Ok(named)
}

/// Returns those of the nodes that are elements and that the selector matches.
#[inline(always)]
pub(crate) fn collect_matches<I: Iterator<Item = NodeId> + Drop>(
    tree: &Tree,
    ids: I,
    matcher: &Matcher,
) -> Result<Vec<NodeId>, OutOfMemory>
    requires { I.can_next ids × IsFinite (I.remaining ids) }
    ensures { FiltersItems result I.next_gives ids (IsMatch matcher.now tree.now) }
{
    let types = matcher.subject_types();
    let mut caches = SelectorCaches::late(tree);
    let mut matched = Vec::new(tree.allocator());
    for id in ids {
        if !is_match_of_types(matcher, &types, &mut caches, id) {
            continue;
        }
        matched.push(id)?;
    }
    Ok(matched)
}

/// Returns whether the node is an element that the selector matches. `types` are the types that the
/// selector can match, if they are known.
#[inline(always)]
pub(crate) fn is_match_of_types(
    matcher: &Matcher,
    types: &Option<[bool; 256]>,
    caches: &mut SelectorCaches<'_>,
    id: NodeId,
) -> bool
    requires { IfSome types.now (λ types. SubjectIsAmong types matcher.now) }
    ensures is { Decides result (IsMatch matcher.now caches.old id) }
    ensures same { caches.new ≡ caches.old }
{
    let Some(found) = caches.tree().tree_node(&id) else {
        return false;
    };
    if !may_be_subject(types, &found.content) {
        return false;
    }
    means_node(matcher.selectors(), caches, id, &found.content)
}

/// Returns whether the node is an element that the selector matches.
pub(crate) fn is_selected(tree: &Tree, id: NodeId, matcher: &Matcher) -> bool
    ensures { Decides result (IsMatch matcher.now tree.now id) }
{
    if !element_at(tree, &id) {
        return false;
    }
    matcher.match_element(&NodeRef::new(id, tree))
}
