//! Caches of sibling indexes.

ghost use Rattle.std.specs.Prelude.{◌≡◌, ◌<◌, ◌≤◌, ℕ, MatchOption};
ghost use Rattle.dom_links.specs.Indexes.{AreIndexes, index_at, index_known};
ghost use Rattle.dom_select.specs.KeptIndexes.{IsKept};

use crate::matcher::type_indexes::note_types;
use dom_links::indexes::{IndexKind, index_at, index_with, note_indexes};
use dom_nodes::node_id::NodeId;
use dom_trees::tree::Tree;
use std::marker::Model;

/// The least number of siblings that an index outside the cache counts for.
const FEW: u64 = 16;

/// Caches of the sibling indexes that selectors ask for in one tree. They borrow the tree, so the
/// tree can't change while they are in use. A contract sees the forest of the tree: a cached index
/// is right, and no answer depends on what is cached.
#[derive(Drop)]
pub struct SelectorCaches<'t> {
    tree: &'t Tree,
    waits: Option<u64>,
    child: Vec<u32>,
    last_child: Vec<u32>,
    of_type: Vec<u32>,
    last_of_type: Vec<u32>,
    hits: u64,
}

impl<'t> Model for SelectorCaches<'t> {
    ghost use Rattle.dom_links.specs.Forest.{Forest};
    ghost use Rattle.dom_links.specs.Indexes.{AreIndexes};
    ghost use Rattle.dom_nodes.specs.declared.indexes.IndexKind.TheVariants.{Child, LastChild};
    ghost use Rattle.dom_nodes.specs.declared.indexes.IndexKind.TheVariants.{OfType, LastOfType};

    ghost Value = { Forest };

    ghost view = { λ it. it.tree.now };

    ghost invariant = { λ it. AreIndexes Child it.tree.now it.child.items
        × AreIndexes LastChild it.tree.now it.last_child.items
        × AreIndexes OfType it.tree.now it.of_type.items
        × AreIndexes LastOfType it.tree.now it.last_of_type.items };
}

impl<'t> SelectorCaches<'t> {
    /// Returns empty caches.
    pub fn new(tree: &'t Tree) -> SelectorCaches<'t>
        ensures { result ≡ tree.entry.now }
    {
        SelectorCaches::made(tree, Some(0))
    }

    /// Returns caches for one selection. They stay empty, and allocate no memory, until many
    /// siblings were counted: room for all indexes of the tree is too much for a selection that
    /// tests a few nodes.
    pub(crate) fn late(tree: &'t Tree) -> SelectorCaches<'t>
        ensures { result ≡ tree.entry.now }
    {
        SelectorCaches::made(tree, Some(256))
    }

    /// Returns caches that never keep anything and allocate no memory.
    pub(crate) fn none(tree: &'t Tree) -> SelectorCaches<'t>
        ensures { result ≡ tree.entry.now }
    {
        SelectorCaches::made(tree, None)
    }

    /// Returns caches that stay empty until `waits` siblings were counted; with `None` they stay
    /// empty for ever.
    fn made(tree: &'t Tree, waits: Option<u64>) -> SelectorCaches<'t>
        ensures { result ≡ tree.entry.now }
    {
        SelectorCaches {
            tree,
            waits,
            child: Vec::new(tree.allocator()),
            last_child: Vec::new(tree.allocator()),
            of_type: Vec::new(tree.allocator()),
            last_of_type: Vec::new(tree.allocator()),
            hits: 0,
        }
    }

    /// Returns the tree.
    pub fn tree(&self) -> &'t Tree
        ensures { result.now ≡ self.now }
    {
        self.tree
    }

    /// Returns how many indexes were found in the caches. It has no contract, since nothing else
    /// depends on it.
    pub fn hits(&self) -> u64 {
        self.hits
    }

    /// Returns whether the next index is cached.
    fn keeps(&self) -> bool {
        matches!(self.waits, Some(0))
    }

    /// Records how many siblings were counted for an index that isn't cached: at least `FEW`, since
    /// as many siblings of other types may have been passed.
    fn note_counted(&mut self, count: u64)
        ensures { self.new ≡ self.old }
    {
        if let Some(more) = self.waits {
            self.waits = Some(more.saturating_sub(count.max(FEW)));
        }
    }

    /// Returns an index of a node among its siblings, starting at 1; 1 if the tree has no such
    /// node. If indexes are cached, those of all siblings that were counted are cached too.
    pub fn index_at(&mut self, id: &NodeId, kind: IndexKind) -> u64
        ensures is { result ≡ index_at kind self.old id.now }
        ensures few { result ≤ 4294967295 }
        ensures same { self.new ≡ self.old }
    {
        if !self.keeps() {
            let index = index_at(self.tree.nodes(), id, kind);
            self.note_counted(index);
            return index;
        }
        match kind {
            IndexKind::Child => index_in(self.tree, &mut self.child, &mut self.hits, id, kind),
            IndexKind::LastChild => {
                index_in(self.tree, &mut self.last_child, &mut self.hits, id, kind)
            }
            IndexKind::OfType => index_in(self.tree, &mut self.of_type, &mut self.hits, id, kind),
            IndexKind::LastOfType => {
                index_in(self.tree, &mut self.last_of_type, &mut self.hits, id, kind)
            }
        }
    }
}

/// Returns an index of a node from the cache or by counting; what was counted is cached if there is
/// room.
fn index_in(tree: &Tree, known: &mut Vec<u32>, hits: &mut u64, id: &NodeId, kind: IndexKind) -> u64
    requires { AreIndexes kind tree.now known.old.items }
    ensures is { result ≡ index_at kind tree.now id.now }
    ensures few { result ≤ 4294967295 }
    ensures known { AreIndexes kind tree.now known.new.items }
{
    make_room(known, tree.len());
    if let Some(index) = kept(known, id) {
        *hits = hits.saturating_add(1);
        return index;
    }
    note_types(tree, id, kind, known);
    match kept(known, id) {
        Some(index) => index,
        None => count_on(tree, known, id, kind),
    }
}

/// Returns an index of a node by counting up to a sibling whose index is cached, and caches what
/// was counted.
fn count_on(tree: &Tree, known: &mut [u32], id: &NodeId, kind: IndexKind) -> u64
    requires { AreIndexes kind tree.now known.old }
    ensures is { result ≡ index_at kind tree.now id.now }
    ensures few { result ≤ 4294967295 }
    ensures known { AreIndexes kind tree.now known.new }
{
    let nodes = tree.nodes();
    let index = index_with(nodes, id, kind, known);
    note_indexes(nodes, id, kind, index, known);
    index
}

/// Makes room for an index of each node, unless there is room already or memory runs out.
fn make_room(known: &mut Vec<u32>, len: usize)
    ensures { (n : ℕ) → index_known known.new.items n ≡ index_known known.old.items n }
{
    if !known.is_empty() {
        return;
    }
    if let Ok(zeros) = vec![in *known.allocator(); 0; len] {
        *known = zeros;
    }
}

/// Returns the index that is cached for a node, if there is one.
pub(crate) fn kept(known: &[u32], id: &NodeId) -> Option<u64>
    ensures { MatchOption result (Unit {0}) (IsKept known.now id.now) }
{
    match known.get(id.value()) {
        Some(index) if *index > 0 => Some(u64::from(*index)),
        _ => None,
    }
}
