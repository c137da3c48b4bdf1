//! The preorder of a tree's nodes, and the traversal that computes it.

ghost use Rattle.std.specs.Prelude.{◌≡◌, ◌<◌, ◌≤◌, ◌+◌, ◌∷◌, ℕ, [], length, map, true};
ghost use Rattle.std.specs.Prelude.{IfOk, Some};
ghost use Rattle.dom_links.specs.Forest.{children_of, parent};
ghost use Rattle.dom_links.specs.Laws.{AreLines, AreTrees};
ghost use Rattle.dom_links.specs.Lists.{IsDistinct, first, is_member};
ghost use Rattle.dom_links.specs.Sound.{IsForest};
ghost use Rattle.dom_links.specs.Trees.{ancestors, descendants_in_order};
ghost use Rattle.dom_index.specs.TypeBytes.{AreTypeBytes};
ghost use Rattle.dom_index.specs.Orders.{AreEndsBefore, AreEndsBehind, AreSpans, HasVisitedTo};
ghost use Rattle.dom_index.specs.Orders.{IsAt, IsOrder, IsTraversed, PlacesMakeOrder};
ghost use Rattle.dom_index.specs.Orders.{VisitedStartNoRun};
ghost use Rattle.dom_index.specs.Preorder.{preorder, run_on, run_past, starts_run};

use crate::type_filter::{NO_ELEMENT, type_byte};
use dom_links::iters::{node_at, parent_id, predict_next, prev_sibling_id};
use dom_links::laws::{lines_of_a_forest, trees_of_a_forest};
use dom_nodes::fault::OutOfMemory;
use dom_nodes::link::Link;
use dom_nodes::node_id::NodeId;
use dom_trees::tree::Tree;

/// A tree and its preorder. `order` has the nodes and `above` their parents, by position. The other
/// lists are indexed by node id: the position of the node, its subtree end (the last position at or
/// below it), and its type byte.
#[derive(Drop)]
pub(crate) struct Preorder<'a> {
    pub(crate) tree: &'a Tree,
    pub(crate) order: Vec<NodeId>,
    pub(crate) above: Vec<Link>,
    pub(crate) places: Vec<u32>,
    pub(crate) subtree_ends: Vec<u32>,
    pub(crate) type_bytes: Vec<u8>,
    ghost is_preorder: { order.items ≡ preorder tree.now },
    ghost parents_given: { above.items ≡ map (parent tree.now) order.items },
    ghost ordered: { IsOrder tree.now order.items places.items },
    ghost spans: { AreSpans tree.now order.items places.items subtree_ends.items },
    ghost named: { AreTypeBytes tree.now type_bytes.items },
}

/// States that a tree is a well-formed forest with no more nodes than there are ids. It does
/// nothing at run time; a call of it brings its `ensures` clauses into the caller's proof.
pub(crate) fn forest_laws(tree: &Tree)
    ensures forest { IsForest tree.now }
    ensures lines { AreLines tree.now }
    ensures trees { AreTrees tree.now }
    ensures few { length tree.now.content ≤ 4294967295 }
{
    let _nodes = tree.nodes();
    lines_of_a_forest();
    trees_of_a_forest();
}

/// Returns whether the node has no parent and no previous sibling.
fn starts_run(tree: &Tree, id: NodeId) -> bool
    ensures { result ≡ starts_run tree.now id }
{
    let nodes = tree.nodes();
    parent_id(nodes, &id).is_none() && prev_sibling_id(nodes, &id).is_none()
}

/// What a traversal has stored: by position each visited node and its parent, and by node id its
/// position, its subtree end and its type byte.
#[derive(Drop)]
struct Traversal {
    visited: usize,
    order: Vec<NodeId>,
    above: Vec<Link>,
    places: Vec<u32>,
    subtree_ends: Vec<u32>,
    type_bytes: Vec<u8>,
}

/// The type byte of a node that wasn't visited.
const NOT_VISITED: u8 = 253;

impl Traversal {
    /// Returns a traversal that has visited no node of the tree. Fails only when memory runs out.
    fn new(tree: &Tree) -> Result<Traversal, OutOfMemory>
        ensures { IfOk result (HasVisitedTo tree.now 0) }
    {
        let alloc = tree.allocator();
        let count = tree.len();
        Ok(Traversal {
            visited: 0,
            order: vec![in alloc; NodeId::root(); count]?,
            above: vec![in alloc; Link::new(None); count]?,
            places: vec![in alloc; 0; count]?,
            subtree_ends: vec![in alloc; 0; count]?,
            type_bytes: vec![in alloc; NOT_VISITED; count]?,
        })
    }

    /// Visits the node that is next in preorder, and returns its first child.
    #[inline(always)]
    fn visit(&mut self, tree: &Tree, id: NodeId) -> Option<NodeId>
        requires { IsAt tree.now id self.old }
        ensures first { result ≡ first (children_of tree.now id) }
        ensures visited { self.new.visited ≡ self.old.visited + 1 }
        ensures traversed { IsTraversed tree.now self.new }
        ensures kept { self.new.subtree_ends ≡ self.old.subtree_ends }
    {
        order_laws(tree);
        let node = node_at(tree.nodes(), id);
        let n = id.value();
        let place = self.visited;
        self.order[place] = id;
        self.above[place] = node.parent;
        self.places[n] = place as u32;
        self.type_bytes[n] = type_byte(&node.content);
        self.visited = place + 1;
        node.first_child.get()
    }
}

/// Stores `last`, the last position visited, as the subtree end of a leaf and of each ancestor
/// whose subtree ends with it. Returns the next node, or `None` after the last sibling without a
/// parent.
#[inline(always)]
fn end_subtrees(tree: &Tree, id: NodeId, last: u32, subtree_ends: &mut Vec<u32>) -> Option<NodeId>
    requires known { id < length tree.now.content }
    requires visited { last < length tree.now.content }
    requires ended { AreEndsBehind tree.now id (last + 1) subtree_ends.old.items }
    ensures next { run_past tree.now (id ∷ ancestors tree.now id) ≡ run_on tree.now result }
    ensures ends { AreEndsBefore tree.now result (last + 1) subtree_ends.new.items }
{
    order_laws(tree);
    forest_laws(tree);
    let mut ended = Some(id);
    while let Some(at) = ended {
        subtree_ends[at.value()] = last;
        let node = node_at(tree.nodes(), at);
        let next = node.next_sibling.get();
        if next.is_some() {
            return next;
        }
        ended = node.parent.get();
    }
    None
}

/// Visits all nodes in preorder. Every node without parent and previous sibling starts a traversal.
/// A node that was visited is skipped, so each is looked at once or twice.
fn visit_tree(tree: &Tree) -> Result<Traversal, OutOfMemory>
    ensures { IfOk result (HasVisitedTo tree.now (length tree.now.content)) }
{
    started_laws(tree);
    order_laws(tree);
    let mut traversal = Traversal::new(tree)?;
    for n in 0..tree.len() {
        if traversal.type_bytes[n] != NOT_VISITED {
            continue;
        }
        let id = numbered(tree, n);
        if starts_run(tree, id) {
            visit_run(tree, id, &mut traversal);
            if traversal.visited == tree.len() {
                return Ok(traversal);
            }
        }
    }
    Ok(traversal)
}

/// States that a node that was visited with an earlier list of siblings is not the first of one
/// itself. It does nothing at run time; a call of it brings its `ensures` clauses into the caller's
/// proof.
fn started_laws(tree: &Tree)
    ensures { VisitedStartNoRun tree.now }
{
    forest_laws(tree);
}

/// Returns the node id with this value.
pub(crate) fn numbered(tree: &Tree, n: usize) -> NodeId
    requires { n < length tree.now.content }
    ensures { result ≡ n }
{
    forest_laws(tree);
    match NodeId::new(n) {
        Some(id) => id,
        None => NodeId::root(),
    }
}

/// Visits a node, stores the subtree ends that are then known, and returns the next node.
#[inline(always)]
fn visit_next(tree: &Tree, id: NodeId, traversal: &mut Traversal) -> Option<NodeId>
    requires { IsAt tree.now id traversal.old }
    ensures steps { run_on tree.now (Some id) ≡ id ∷ run_on tree.now result }
    ensures visited { traversal.new.visited ≡ traversal.old.visited + 1 }
    ensures traversed { IsTraversed tree.now traversal.new }
    ensures ends { AreEndsBefore tree.now result traversal.new.visited
        traversal.new.subtree_ends.items }
{
    order_laws(tree);
    forest_laws(tree);
    let last = traversal.visited as u32;
    let first = traversal.visit(tree, id);
    if first.is_some() {
        return first;
    }
    end_subtrees(tree, id, last, &mut traversal.subtree_ends)
}

/// Visits a list of siblings without a parent and all their descendants, from the first sibling on.
fn visit_run(tree: &Tree, first: NodeId, traversal: &mut Traversal)
    requires known { first < length tree.now.content }
    requires starts { starts_run tree.now first ≡ true }
    requires before { HasVisitedTo tree.now first traversal.old }
    ensures { HasVisitedTo tree.now (first + 1) traversal.new }
{
    order_laws(tree);
    forest_laws(tree);
    let mut next = Some(first);
    while let Some(at) = next {
        let follower = visit_next(tree, at, traversal);
        next = predict_next(follower, at.value() + 1);
    }
}

impl<'a> Preorder<'a> {
    /// Returns the preorder of a tree. Fails only when memory runs out.
    pub(crate) fn new(tree: &'a Tree) -> Result<Preorder<'a>, OutOfMemory>
        ensures { IfOk result (λ preorder. preorder.tree ≡ tree.entry) }
    {
        forest_laws(tree);
        order_laws(tree);
        let traversal = visit_tree(tree)?;
        let Traversal {
            order,
            above,
            places,
            subtree_ends,
            type_bytes,
            ..
        } = traversal;
        Ok(Preorder {
            tree,
            order,
            above,
            places,
            subtree_ends,
            type_bytes,
        })
    }
}

/// States that the preorder contains each node once. It does nothing at run time; a call of it
/// brings its `ensures` clauses into the caller's proof.
fn order_laws(tree: &Tree)
    ensures long { length (preorder tree.now) ≡ length tree.now.content }
    ensures once { IsDistinct (preorder tree.now) }
    ensures inside { (n : ℕ) → is_member n (preorder tree.now) ≡ true
        → n < length tree.now.content }
    ensures all { (n : ℕ) → n < length tree.now.content
        → is_member n (preorder tree.now) ≡ true }
    ensures order { PlacesMakeOrder tree.now }
{
    forest_laws(tree);
}

/// Returns the descendants of a node, in document order.
pub(crate) fn below<'i>(preorder: &'i Preorder<'_>, id: NodeId) -> &'i [NodeId]
    ensures { result.now ≡ descendants_in_order preorder.now.tree.now id }
{
    none_below_law(preorder.tree, id);
    let n = id.value();
    if n >= preorder.order.len() {
        return &[];
    }
    let first = preorder.places[n] as usize + 1;
    let end = preorder.subtree_ends[n] as usize + 1;
    &preorder.order[first..end]
}

/// States that a node that the tree doesn't have has no descendants. It does nothing at run time; a
/// call of it brings its `ensures` clauses into the caller's proof.
fn none_below_law(tree: &Tree, id: NodeId)
    ensures { length tree.now.content ≤ id → descendants_in_order tree.now id ≡ [] }
{
    forest_laws(tree);
}
