//! `TreeIndex`: an index of a tree's nodes, for repeated selections and for the positions of nodes.

ghost use Rattle.std.specs.Prelude.{◌≡◌, ◌≤◌, ◌*◌, length, slice_get, IfOk};
ghost use Rattle.std.specs.Iterator.{YieldsFirst, item_count};
ghost use Rattle.dom_links.specs.Lists.{is_member};
ghost use Rattle.dom_links.specs.Trees.{descendants_in_order};
ghost use Rattle.dom_select.specs.Selected.{Selected};
ghost use Rattle.dom_index.specs.TestCounts.{Counts, SelectionTests};
ghost use Rattle.dom_index.specs.CompoundCounts.{selectors_count};
ghost use Rattle.dom_index.specs.Index.{GivesIndex, GivesLastBelow, SelectsByIndex};
ghost use Rattle.dom_index.specs.Preorder.{position};

use crate::collect::{collect_matches, walk_laws};
use crate::evaluation::list_set;
use crate::preorder::{Preorder, below, forest_laws};
use crate::selecting::nodes_of;
use dom_links::indexes::IndexKind;
use dom_nodes::fault::OutOfMemory;
use dom_nodes::node_id::NodeId;
use dom_select::matcher::Matcher;
use dom_select::matcher::caches::SelectorCaches;
use dom_trees::node_ref::NodeRef;
use dom_trees::tree::Tree;
use std::marker::Model;

/// An index of a tree: its nodes in preorder, and their indexes among siblings. Detached lists of
/// siblings come in the order of the ids of their first nodes. The index borrows the tree, so the
/// tree can't change while the index is in use. A contract sees the tree, and the number of tests
/// of the last selection.
#[derive(Drop)]
pub struct TreeIndex<'a> {
    preorder: Preorder<'a>,
    siblings: SelectorCaches<'a>,
    tests: u128,
}

impl<'a> Model for TreeIndex<'a> {
    ghost use Rattle.std.specs.Prelude.{◌≡◌};
    ghost use Rattle.dom_index.specs.Index.{Indexed};

    ghost Value = { Indexed };

    ghost view = { λ it. record { tree = it.preorder.tree; tests = it.tests } };

    ghost invariant = { λ it. it.siblings ≡ it.preorder.tree.now };
}

impl<'a> TreeIndex<'a> {
    /// Returns the index of a tree. It takes time linear in the number of nodes. Fails only when
    /// memory runs out.
    pub fn new(tree: &'a Tree) -> Result<TreeIndex<'a>, OutOfMemory>
        ensures { IfOk result (λ index. index ≡ record { tree = tree.entry; tests = 0 }) }
    {
        Ok(TreeIndex {
            preorder: Preorder::new(tree)?,
            siblings: SelectorCaches::new(tree),
            tests: 0,
        })
    }

    /// Returns the number of tests that the last call of `select` made, or 0 before the first call.
    /// One test matches one compound selector against one node.
    pub fn tests(&self) -> u128
        ensures { result ≡ self.now.tests }
    {
        self.tests
    }

    /// Returns the elements below the roots that match one of the matcher's selectors, each once:
    /// those below the first root in document order, then those below the second, and so on. Each
    /// compound selector is tested at most once at each node, and only at nodes that its combinator
    /// reaches; one in a nested list is tested only where the compound selector around the list can
    /// still match. It fails with `OutOfMemory` when memory is refused; only the number of tests
    /// has then changed.
    pub fn select(
        &mut self,
        matcher: &Matcher,
        roots: &[NodeId],
    ) -> Result<Vec<NodeRef<'a>>, OutOfMemory>
        ensures selects { SelectsByIndex result roots.now matcher.now self.old self.new }
        ensures asked { Counts result 0 self.new.tests
            (SelectionTests matcher.now self.old.tree.now) }
    {
        let ids = self.select_ids(matcher, roots)?;
        nodes_of(self.preorder.tree, &ids)
    }

    /// Returns the ids of the nodes that `select` returns. It fails as `select` does.
    pub(crate) fn select_ids(
        &mut self,
        matcher: &Matcher,
        roots: &[NodeId],
    ) -> Result<Vec<NodeId>, OutOfMemory>
        ensures found { IfOk result (λ ids.
            Selected self.old.tree.now roots.now matcher.now ids.items) }
        ensures asked { Counts result 0 self.new.tests
            (SelectionTests matcher.now self.old.tree.now) }
        ensures tests { self.new.tests
            ≤ selectors_count matcher.now * length self.old.tree.now.content }
        ensures kept { self.new.tree ≡ self.old.tree }
    {
        self.tests = 0;
        walk_laws(self.preorder.tree);
        let all = vec![in self.preorder.tree.allocator(); true; self.preorder.order.len()]?;
        let table = list_set(&self.preorder, matcher.selectors(), &all, &mut self.tests)?;
        collect_matches(&self.preorder, roots, table)
    }

    /// Returns the position of a node in preorder, counted from 0, or `None` if the tree has no
    /// such node.
    pub fn position(&self, id: &NodeId) -> Option<usize>
        ensures { result ≡ position self.now.tree.now id.now }
    {
        position_at(&self.preorder, id.value())
    }

    /// Returns the greatest position at or below a node, or `None` if the tree has no such node.
    pub fn last_below(&self, id: &NodeId) -> Option<usize>
        ensures { GivesLastBelow self.now.tree.now id.now result }
    {
        subtree_end_at(&self.preorder, id.value())
    }

    /// Returns whether `y` is a descendant of `x`.
    pub fn is_below(&self, x: &NodeId, y: &NodeId) -> bool
        ensures { result ≡ is_member y.now (descendants_in_order self.now.tree.now x.now) }
    {
        is_within(&self.preorder, x.value(), y.value())
    }

    /// Returns the index of a node among its siblings, counted from 1, or `None` if the tree has no
    /// such node. The first call for a kind makes a cache for that kind, if there is memory for it,
    /// and each call stores the indexes that it finds there.
    pub fn index_at(&mut self, id: &NodeId, kind: IndexKind) -> Option<u64>
        ensures is { GivesIndex kind self.old.tree.now id.now result }
        ensures kept { self.new ≡ self.old }
    {
        if id.value() >= self.preorder.order.len() {
            return None;
        }
        Some(self.siblings.index_at(id, kind))
    }

    /// Returns an iterator over the descendants of a node, in document order. It allocates no
    /// memory.
    pub fn descendants(&self, id: &NodeId) -> IndexedNodes<'_>
        ensures { result ≡ descendants_in_order self.now.tree.now id.now }
    {
        IndexedNodes {
            ids: below(&self.preorder, *id),
        }
    }
}

/// Returns the position of the node with this id.
fn position_at(preorder: &Preorder<'_>, n: usize) -> Option<usize>
    ensures { result ≡ position preorder.now.tree.now n }
{
    written(&preorder.places, n)
}

/// Returns the subtree end of the node with this id.
fn subtree_end_at(preorder: &Preorder<'_>, n: usize) -> Option<usize>
    ensures { GivesLastBelow preorder.now.tree.now n result }
{
    written(&preorder.subtree_ends, n)
}

/// Returns the entry at index `n`.
fn written(places: &[u32], n: usize) -> Option<usize>
    ensures { result ≡ slice_get places.now n }
{
    let place = places.get(n)?;
    Some(*place as usize)
}

/// Returns whether `y` is a descendant of `x`, by their positions.
fn is_within(preorder: &Preorder<'_>, x: usize, y: usize) -> bool
    ensures { result ≡ is_member y (descendants_in_order preorder.now.tree.now x) }
{
    forest_laws(preorder.tree);
    let count = preorder.order.len();
    if x >= count || y >= count {
        return false;
    }
    let place = preorder.places[y];
    if place <= preorder.places[x] {
        return false;
    }
    place <= preorder.subtree_ends[x]
}

/// An iterator over the ids of consecutive nodes in the preorder of an index.
#[derive(Drop)]
pub struct IndexedNodes<'i> {
    ids: &'i [NodeId],
}

impl<'i> Model for IndexedNodes<'i> {
    ghost use Rattle.std.specs.Prelude.{ℕ, List};

    ghost Value = { List ℕ };

    ghost view = { λ it. it.ids.now };
}

impl<'i> Iterator for IndexedNodes<'i> {
    type Item = NodeId;

    ghost next_gives = { YieldsFirst (λ rest. rest) };

    ghost remaining = { item_count (λ rest. rest) };

    fn next(&mut self) -> Option<NodeId> {
        let (first, rest) = self.ids.split_first()?;
        self.ids = rest;
        Some(*first)
    }
}
