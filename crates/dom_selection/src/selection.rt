//! `Selection`: a list of nodes of one tree, for reading.

ghost use Rattle.std.specs.Prelude.{◌≡◌, ◌≢◌, ◌∷◌, ◌++◌, [], length, reverse, slice_get};
ghost use Rattle.std.specs.Prelude.{IfOk, IfSome, MatchBool, OnOk, if◌then◌else◌};
ghost use Rattle.std.specs.Option.{option_copied};
ghost use Rattle.dom_selection.specs.Selections.{HasOneTree, ids_of, in_one_tree, tree_of};
ghost use Rattle.dom_trees.specs.Views.{refs_to};
ghost use Rattle.dom_selection.specs.Selections.{Lists, first_alone};

use dom_nodes::fault::OutOfMemory;
use dom_nodes::node_id::NodeId;
use dom_trees::node_ref::NodeRef;
use dom_trees::tree::Tree;
use std::alloc::Global;
use std::marker::Model;
use std::slice;

mod asking;
mod first_node;
mod gathering;
pub mod iter;
mod printed;
mod seen;
mod selecting;
mod sets;
mod texts;

/// One node, which needs no memory, or any number of them.
#[derive(Drop)]
enum Nodes<'a> {
    One(NodeRef<'a>),
    Several(Vec<NodeRef<'a>>),
}

/// A list of nodes of one tree. A node may occur more than once. In a contract a `Selection` is the
/// list of its nodes.
#[derive(Drop)]
pub struct Selection<'a> {
    nodes: Nodes<'a>,
}

impl<'a> Model for Selection<'a> {
    ghost use Rattle.std.specs.Prelude.{List};
    ghost use Rattle.dom_trees.specs.declared.node_ref.NodeRef.{NodeRef};
    ghost use Rattle.dom_selection.specs.SelectedNodes.{nodes_in};
    ghost use Rattle.dom_selection.specs.Selections.{HasOneTree};

    ghost Value = { List NodeRef };

    ghost view = { λ selection. nodes_in selection.nodes };

    ghost invariant = { λ selection. HasOneTree (nodes_in selection.nodes) };
}

impl<'a> From<NodeRef<'a>> for Selection<'a> {
    ghost from_gives = { λ node made. made ≡ node ∷ [] };

    /// Returns the selection of this node. It allocates no memory.
    fn from(node: NodeRef<'a>) -> Selection<'a> {
        Selection {
            nodes: Nodes::One(NodeRef::new(node.id, node.tree)),
        }
    }
}

impl<'a> From<Vec<NodeRef<'a>>> for Selection<'a> {
    ghost from_gives = { λ nodes made. made ≡ in_one_tree nodes.items };

    /// Returns the selection of these nodes, in their order. A selection has one tree: if the nodes
    /// are of several trees, each is replaced by the node with its id in the tree of the first one.
    /// It allocates no memory.
    fn from(nodes: Vec<NodeRef<'a>>) -> Selection<'a> {
        let mut nodes = nodes;
        put_in_one_tree(&mut nodes);
        Selection::of_one_tree(nodes)
    }
}

/// Replaces each node by the node with its id in the tree of the first one.
fn put_in_one_tree(nodes: &mut Vec<NodeRef<'_>>)
    ensures { nodes.new.items ≡ in_one_tree nodes.old.items }
{
    let Some(first) = nodes.first() else {
        return;
    };
    let tree = first.tree;
    for i in 0..nodes.len() {
        nodes[i] = NodeRef::new(nodes[i].id, tree);
    }
}

impl<'a> Selection<'a> {
    /// Returns the empty selection. It allocates no memory.
    pub fn new(alloc: Global) -> Selection<'a>
        ensures { result ≡ [] }
    {
        Selection {
            nodes: Nodes::Several(Vec::new(alloc)),
        }
    }

    /// Returns the nodes of the tree with these ids, in their order. It fails with `OutOfMemory`
    /// when memory is refused.
    pub fn from_ids(tree: &'a Tree, ids: &[NodeId]) -> Result<Selection<'a>, OutOfMemory>
        ensures { Lists result (refs_to tree.entry ids.now) }
    {
        let root = tree.root();
        let mut nodes = Vec::new(tree.allocator());
        for id in ids {
            push_node(&mut nodes, &NodeRef::new(*id, root.tree))?;
        }
        Ok(Selection::of_one_tree(nodes))
    }

    /// Returns the nodes.
    pub fn nodes(&self) -> &[NodeRef<'a>]
        ensures nodes { result.now ≡ self.now }
        ensures one_tree { HasOneTree self.now }
    {
        match &self.nodes {
            Nodes::One(node) => slice::from_ref(node),
            Nodes::Several(nodes) => nodes.as_slice(),
        }
    }

    /// Returns the node at this index, or `None` past the end.
    pub fn get(&self, index: usize) -> Option<&NodeRef<'a>>
        ensures { option_copied result ≡ slice_get self.now index }
    {
        self.nodes().get(index)
    }

    /// Returns the number of nodes.
    pub fn length(&self) -> usize
        ensures { result ≡ length self.now }
    {
        self.nodes().len()
    }

    /// Returns the number of nodes; it is another name of `length`.
    pub fn size(&self) -> usize
        ensures { result ≡ length self.now }
    {
        self.length()
    }

    /// Returns whether there is at least one node.
    pub fn exists(&self) -> bool
        ensures { MatchBool result (self.now ≢ []) (self.now ≡ []) }
    {
        !self.is_empty()
    }

    /// Returns whether there is no node.
    pub fn is_empty(&self) -> bool
        ensures { MatchBool result (self.now ≡ []) (self.now ≢ []) }
    {
        self.nodes().is_empty()
    }

    /// Returns the ids of the nodes. It fails with `OutOfMemory` when memory is refused.
    pub fn ids(&self) -> Result<Vec<NodeId>, OutOfMemory>
        ensures { IfOk result (λ ids. ids.items ≡ ids_of self.now) }
    {
        ids_of(self.allocator(), self.nodes())
    }

    /// Returns the tree of the nodes, or `None` for the empty selection.
    pub(crate) fn tree(&self) -> Option<&'a Tree>
        ensures tree { result ≡ tree_of self.now }
        ensures all { IfSome result (λ tree. self.now ≡ refs_to tree (ids_of self.now)) }
    {
        match &self.nodes {
            Nodes::One(node) => Some(node.tree),
            Nodes::Several(nodes) => Some(nodes.as_slice().first()?.tree),
        }
    }

    /// Returns the allocator of the selection. There is no `ensures` clause, because a contract
    /// sees the selection as a list of nodes, which has no allocator.
    pub fn allocator(&self) -> Global {
        match &self.nodes {
            Nodes::One(node) => node.tree.allocator(),
            Nodes::Several(nodes) => *nodes.allocator(),
        }
    }

    /// Returns a copy of the selection. It fails with `OutOfMemory` when memory is refused.
    pub fn try_clone(&self) -> Result<Selection<'a>, OutOfMemory>
        ensures { Lists result self.now }
    {
        let nodes = copies_of(self.allocator(), self.nodes())?;
        Ok(Selection::of_one_tree(nodes))
    }

    /// Returns the selection of these nodes, which must be of one tree.
    pub(crate) fn of_one_tree(nodes: Vec<NodeRef<'a>>) -> Selection<'a>
        requires { HasOneTree nodes.items }
        ensures { result ≡ nodes.entry.items }
    {
        Selection {
            nodes: Nodes::Several(nodes),
        }
    }

    /// Returns the first node as a selection, or the empty selection when there is none. It
    /// allocates no memory.
    pub fn first(&self) -> Selection<'a>
        ensures { result ≡ first_alone self.now }
    {
        match self.nodes().first() {
            Some(node) => Selection::from(NodeRef::new(node.id, node.tree)),
            None => Selection::new(self.allocator()),
        }
    }

    /// Returns the last node as a selection, or the empty selection when there is none. It
    /// allocates no memory.
    pub fn last(&self) -> Selection<'a>
        ensures { result ≡ first_alone (reverse self.now) }
    {
        match self.nodes().last() {
            Some(node) => Selection::from(NodeRef::new(node.id, node.tree)),
            None => Selection::new(self.allocator()),
        }
    }
}

/// Returns the ids of the nodes.
pub(crate) fn ids_of(alloc: Global, nodes: &[NodeRef<'_>]) -> Result<Vec<NodeId>, OutOfMemory>
    ensures { IfOk result (λ ids. ids.items ≡ ids_of nodes.now) }
{
    let mut ids = Vec::new(alloc);
    for node in nodes {
        ids.push(node.id)?;
    }
    Ok(ids)
}

/// Returns a copy of the list of nodes.
fn copies_of<'a>(alloc: Global, nodes: &[NodeRef<'a>]) -> Result<Vec<NodeRef<'a>>, OutOfMemory>
    ensures { IfOk result (λ copies. copies.items ≡ nodes.now) }
{
    let mut copies = Vec::new(alloc);
    for node in nodes {
        push_node(&mut copies, node)?;
    }
    Ok(copies)
}

/// Appends a node.
pub(crate) fn push_node<'a>(
    nodes: &mut Vec<NodeRef<'a>>,
    node: &NodeRef<'a>,
) -> Result<(), OutOfMemory>
    ensures { OnOk result (nodes.new.items ≡ nodes.old.items ++ node.now ∷ []) }
{
    match nodes.push(NodeRef::new(node.id, node.tree)) {
        Ok(()) => Ok(()),
        Err(_) => Err(OutOfMemory),
    }
}

/// Appends a node if `passes` is true.
pub(crate) fn push_if<'a>(
    nodes: &mut Vec<NodeRef<'a>>,
    node: &NodeRef<'a>,
    passes: bool,
) -> Result<(), OutOfMemory>
    ensures { OnOk result
        (nodes.new.items ≡ nodes.old.items ++ (if passes then node.now ∷ [] else [])) }
{
    if passes {
        return push_node(nodes, node);
    }
    Ok(())
}
