//! Selection below several nodes, each node once.

ghost use Rattle.std.specs.Prelude.{◌≡◌, length, IfOk};
ghost use Rattle.std.specs.Iterator.{YieldsFirst, at_most, item_count};
ghost use Rattle.dom_links.specs.Laws.{AreTrees};
ghost use Rattle.dom_select.specs.Descendants.{GivesMatch, SelectsAll, WalksAll};
ghost use Rattle.dom_select.specs.Marks.{SetsMark, left_in};
ghost use Rattle.dom_select.specs.Roots.{node_ids, root_ids};
ghost use Rattle.dom_select.specs.Selected.{Selected, walks_below};
ghost use Rattle.dom_selectors.specs.Spelling.{same};

use crate::matcher::Matcher;
use crate::matcher::caches::SelectorCaches;
use crate::matcher::descendants::{collect_matches, is_match_of_types, named_below};
use crate::matcher::roots::{Roots, take_first};
use dom_links::iters::DescendantNodes;
use dom_links::laws::trees_of_a_forest;
use dom_nodes::fault::OutOfMemory;
use dom_nodes::node_id::NodeId;
use dom_trees::node_ref::NodeRef;
use dom_trees::tree::Tree;
use std::marker::Model;

/// The traversals below several nodes, one after the other.
#[derive(Drop)]
struct Walks<'a, 'r> {
    tree: &'a Tree,
    walk: Option<DescendantNodes<'a>>,
    roots: Roots<'a, 'r>,
}

impl<'a, 'r> Model for Walks<'a, 'r> {
    ghost use Rattle.std.specs.Prelude.{ℕ, List, ◌++◌};
    ghost use Rattle.std.specs.List.{flat_map};
    ghost use Rattle.dom_links.specs.Trees.{descendants_in_order};
    ghost use Rattle.dom_select.specs.Marks.{left_in};
    ghost use Rattle.dom_select.specs.Roots.{root_ids};

    ghost Value = { List ℕ };

    ghost view = { λ it. left_in it.walk
        ++ flat_map (descendants_in_order it.tree.now) (root_ids it.roots) };
}

impl<'a, 'r> Walks<'a, 'r> {
    /// Returns the next node, root by root in document order.
    fn next(&mut self) -> Option<NodeId>
        ensures { YieldsFirst (λ rest. rest) self.old result self.new }
    {
        loop {
            if let Some(id) = next_in(&mut self.walk) {
                return Some(id);
            }
            let root = take_first(&mut self.roots)?;
            self.walk = Some(self.tree.descendant_ids_of_it(&root));
        }
    }
}

/// Returns the next node of a traversal, if there is one.
fn next_in(walk: &mut Option<DescendantNodes<'_>>) -> Option<NodeId>
    ensures { YieldsFirst left_in walk.old result walk.new }
{
    match walk {
        Some(walk) => walk.next(),
        None => None,
    }
}

/// An iterator over the nodes below several nodes, each at its first occurrence.
#[derive(Drop)]
pub struct FirstOccurrences<'a, 'r> {
    walks: Walks<'a, 'r>,
    marks: Vec<bool>,
}

impl<'a, 'r> Model for FirstOccurrences<'a, 'r> {
    ghost use Rattle.std.specs.Prelude.{ℕ, List};
    ghost use Rattle.dom_select.specs.Marks.{first_unmarked};

    ghost Value = { List ℕ };

    ghost view = { λ it. first_unmarked it.marks.items it.walks };
}

impl<'a, 'r> Iterator for FirstOccurrences<'a, 'r> {
    type Item = NodeId;

    ghost next_gives = { YieldsFirst (λ rest. rest) };

    ghost remaining = { item_count (λ rest. rest) };

    fn next(&mut self) -> Option<NodeId> {
        loop {
            let id = self.walks.next()?;
            if mark(&mut self.marks, id) {
                return Some(id);
            }
        }
    }
}

/// Marks the node; returns `false` if it was already marked.
fn mark(marks: &mut Vec<bool>, id: NodeId) -> bool
    ensures { SetsMark marks.old.items marks.new.items id result }
{
    let place = id.value();
    if place >= marks.len() {
        return true;
    }
    if marks[place] {
        return false;
    }
    marks[place] = true;
    true
}

/// An iterator over the elements below several nodes that a selector matches, each once, root by
/// root in document order. Making it allocates memory; later only sibling indexes do, if many are
/// needed, and if that memory isn't available, siblings are counted instead.
#[derive(Drop)]
pub struct Matches<'a, 'b, 'r> {
    ids: FirstOccurrences<'a, 'r>,
    tree: &'a Tree,
    caches: SelectorCaches<'a>,
    matcher: &'b Matcher,
    /// The types of the elements that the selectors can match, if each selector names one.
    types: Option<[bool; 256]>,
}

impl<'a, 'b, 'r> Model for Matches<'a, 'b, 'r> {
    ghost use Rattle.std.specs.Prelude.{◌≡◌, IfSome, List};
    ghost use Rattle.std.specs.Coded.{code_by, codes};
    ghost use Rattle.dom_select.specs.Descendants.{Matches};
    ghost use Rattle.dom_select.specs.Subjects.{SubjectIsAmong};
    ghost use Rattle.dom_selectors.specs.Tokens.{Token, list_of, read_back, tokens_of};

    ghost Value = { Matches };

    ghost coded = { Prim.hlevel
        (codes, code_by (List Token) (Prim.hlevel codes) tokens_of list_of read_back) };

    ghost view = { λ it. record { left = it.ids; tree = it.tree; selector = it.matcher.now } };

    ghost invariant = { λ it. (it.caches ≡ it.tree.now)
        × IfSome it.types (λ types. SubjectIsAmong types it.matcher.now) };
}

impl<'a, 'b, 'r> Matches<'a, 'b, 'r> {
    /// Returns an iterator over what the selector selects below the roots. A root that the tree
    /// doesn't have has no descendants. Fails only when memory runs out.
    pub fn new(
        tree: &'a Tree,
        roots: &'r [NodeId],
        matcher: &'b Matcher,
    ) -> Result<Matches<'a, 'b, 'r>, OutOfMemory>
        ensures all { WalksAll result same tree.entry.now roots.entry.now }
        ensures tree { IfOk result (λ it. it.tree ≡ tree.entry) }
        ensures selector { IfOk result (λ it. it.selector ≡ matcher.now) }
        ensures selected { SelectsAll result same tree.entry.now roots.entry.now matcher.now }
    {
        Matches::below(tree, Roots::Numbers(roots), matcher)
    }

    /// Returns an iterator like `new`, for roots that are node references. Each is taken as the
    /// node with its id in `tree`. Fails only when memory runs out.
    pub fn below_nodes(
        tree: &'a Tree,
        nodes: &'r [NodeRef<'a>],
        matcher: &'b Matcher,
    ) -> Result<Matches<'a, 'b, 'r>, OutOfMemory>
        ensures all { WalksAll result same tree.entry.now (node_ids nodes.entry.now) }
        ensures tree { IfOk result (λ it. it.tree ≡ tree.entry) }
        ensures selector { IfOk result (λ it. it.selector ≡ matcher.now) }
        ensures selected { SelectsAll result same tree.entry.now
            (node_ids nodes.entry.now) matcher.now }
    {
        Matches::below(tree, Roots::Nodes(nodes), matcher)
    }

    fn below(
        tree: &'a Tree,
        roots: Roots<'a, 'r>,
        matcher: &'b Matcher,
    ) -> Result<Matches<'a, 'b, 'r>, OutOfMemory>
        ensures all { WalksAll result same tree.entry.now (root_ids roots.entry) }
        ensures tree { IfOk result (λ it. it.tree ≡ tree.entry) }
        ensures selector { IfOk result (λ it. it.selector ≡ matcher.now) }
        ensures selected { SelectsAll result same tree.entry.now
            (root_ids roots.entry) matcher.now }
    {
        Ok(Matches {
            ids: first_occurrences(tree, roots)?,
            tree,
            caches: SelectorCaches::late(tree),
            matcher,
            types: matcher.subject_types(),
        })
    }
}

/// States in which order a traversal visits the tree. It does nothing at run time; a call of it
/// brings its `ensures` clauses into the caller's proof.
fn tree_laws(tree: &Tree)
    ensures { AreTrees tree.now }
{
    let _nodes = tree.nodes();
    trees_of_a_forest();
}

impl<'a, 'b, 'r> Iterator for Matches<'a, 'b, 'r> {
    type Item = NodeRef<'a>;

    ghost next_gives = { GivesMatch };

    ghost remaining = { λ walk. at_most (length walk.left) };

    fn next(&mut self) -> Option<NodeRef<'a>> {
        loop {
            let id = self.ids.next()?;
            if is_match_of_types(self.matcher, &self.types, &mut self.caches, id) {
                return Some(NodeRef::new(id, self.tree));
            }
        }
    }
}

/// Returns the elements below the roots that the selector matches, each once, root by root in
/// document order. Fails only when memory runs out.
pub fn select_below_all(
    tree: &Tree,
    roots: &[NodeId],
    matcher: &Matcher,
) -> Result<Vec<NodeId>, OutOfMemory>
    ensures { IfOk result (λ ids. Selected tree.now roots.now matcher.now ids.items) }
{
    if let [root] = roots {
        if let Some(name) = matcher.sole_type() {
            return named_below(tree, root, matcher, name);
        }
        return collect_matches(tree, tree.descendant_ids_of_it(root), matcher);
    }
    let ids = nodes_below(tree, roots)?;
    collect_matches(tree, ids, matcher)
}

/// Returns an iterator over the nodes below the roots, each once, root by root in document order. A
/// root that the tree doesn't have has no descendants. Fails only when memory runs out.
pub fn nodes_below<'a, 'r>(
    tree: &'a Tree,
    roots: &'r [NodeId],
) -> Result<FirstOccurrences<'a, 'r>, OutOfMemory>
    ensures { IfOk result (λ ids. ids ≡ walks_below tree.entry.now roots.entry.now) }
{
    first_occurrences(tree, Roots::Numbers(roots))
}

/// Returns the iterator of `nodes_below` for ids or node references.
fn first_occurrences<'a, 'r>(
    tree: &'a Tree,
    roots: Roots<'a, 'r>,
) -> Result<FirstOccurrences<'a, 'r>, OutOfMemory>
    ensures { IfOk result (λ ids. ids ≡ walks_below tree.entry.now (root_ids roots.entry)) }
{
    tree_laws(tree);
    let marks = vec![in tree.allocator(); false; tree.len()]?;
    let walks = Walks {
        tree,
        walk: None,
        roots,
    };
    Ok(FirstOccurrences { walks, marks })
}
