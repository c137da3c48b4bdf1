//! A traversal that visits each node twice: before everything inside it and after it. It is an
//! explicit stack instead of a recursion, so its depth isn't limited by the call stack.

ghost use Rattle.std.specs.Prelude.{◌≡◌, ◌∷◌, ◌++◌, [], IfOk, MatchOption, None, OnOk};
ghost use Rattle.std.specs.Prelude.{if◌then◌else◌};
ghost use Rattle.dom_nodes.specs.declared.node_data.NodeData.{NodeData};
ghost use Rattle.dom_links.specs.Edges.{Descending, Pushes, child_edges, content_edges};
ghost use Rattle.dom_links.specs.Edges.{edges_ahead, entry_edges, inner_edges, mark_of, node_edges};
ghost use Rattle.dom_links.specs.Edges.{row_edges};
ghost use Rattle.dom_links.specs.Forest.{forest_of};
ghost use Rattle.dom_links.specs.Sound.{IsSoundArena};
ghost use Rattle.dom_links.specs.Walk.{IsNodeOf};
ghost use Rattle.dom_links.specs.declared.edges.Edge.TheVariants.{Open};
ghost use Rattle.dom_links.specs.declared.edges.Entry.TheVariants.{Row};

use crate::iters::{find_node, parent_id};
use dom_nodes::fault::OutOfMemory;
use dom_nodes::node_data::{NodeData, TreeNode};
use dom_nodes::node_id::NodeId;
use std::alloc::Global;
use std::marker::{Model, PhantomData};

/// One step of a traversal: it enters a node before everything inside the node, and leaves it
/// afterwards.
#[derive(Clone, Copy)]
pub enum Edge {
    /// The traversal enters the node. `marked` is what `Descent::mark` returns for its parent; it
    /// is false for a node without a parent.
    Open { id: NodeId, marked: bool },
    /// The traversal leaves the node.
    Close { id: NodeId },
}

/// What a traversal visits inside a node. For `Nothing` there is no closing edge either.
#[derive(Clone, Copy)]
pub enum Entered {
    Nothing,
    Children,
    /// The template contents, then the children.
    All,
}

/// Decides what a traversal visits inside a node, and which mark it passes to the node's children.
pub trait Descent {
    ghost use Rattle.dom_links.specs.Edges.{Descending};

    ghost descending: { Descending };

    /// Returns what is visited inside a node with this data.
    fn inside(content: &NodeData) -> Entered
        ensures { result ≡ descending.inside content.now };

    /// Returns the mark that the children of a node with this data get.
    fn mark(content: &NodeData) -> bool
        ensures { result ≡ descending.mark content.now };
}

/// An entry of the stack: a part of the traversal that is still to come.
#[derive(Clone, Copy)]
enum Entry {
    /// A node with everything inside it, and also its later siblings unless it is `alone`.
    Row {
        first: NodeId,
        marked: bool,
        alone: bool,
    },
    /// The step that leaves a node.
    End {
        id: NodeId,
    },
}

/// The steps of a traversal, in order. Each node takes at most two pushes, so the traversal is
/// linear in the number of nodes. In a contract it is the list of the steps that are left.
#[derive(Drop)]
pub struct NodeEdges<'a, D: Descent> {
    nodes: &'a [TreeNode],
    ahead: Vec<Entry>,
    descent: PhantomData<D>,
}

impl<'a, D: Descent> Model for NodeEdges<'a, D> {
    ghost use Rattle.std.specs.Prelude.{List};
    ghost use Rattle.dom_links.specs.declared.edges.Edge.{Edge};
    ghost use Rattle.dom_links.specs.Edges.{edges_ahead};
    ghost use Rattle.dom_links.specs.Forest.{forest_of};
    ghost use Rattle.dom_links.specs.Sound.{IsSoundArena};

    ghost Value = { List Edge };

    ghost view = { λ it. edges_ahead D.descending (forest_of it.nodes.now) it.ahead.items };

    ghost invariant = { λ it. IsSoundArena it.nodes.now };
}

impl<'a, D: Descent> NodeEdges<'a, D> {
    /// Returns the traversal of one node with everything inside it. For an unknown id the only step
    /// is `Open`. It fails with `OutOfMemory` when memory is refused.
    pub fn of_node(alloc: Global, nodes: &'a [TreeNode], id: NodeId) -> Result<Self, OutOfMemory>
        requires { IsSoundArena nodes.now }
        ensures { IfOk result (λ edges. edges ≡ node_edges D.descending (forest_of nodes.now) id) }
    {
        let mut ahead = Vec::new(alloc);
        push_row::<D>(nodes, Some(id), mark_of::<D>(nodes, id), true, &mut ahead)?;
        Ok(NodeEdges::new(nodes, ahead))
    }

    /// Returns the traversal of the children of a node, without the node itself. For an unknown id
    /// there are no steps. It fails with `OutOfMemory` when memory is refused.
    pub fn of_children(
        alloc: Global,
        nodes: &'a [TreeNode],
        id: NodeId,
    ) -> Result<Self, OutOfMemory>
        requires { IsSoundArena nodes.now }
        ensures { IfOk result (λ edges. edges ≡ child_edges D.descending (forest_of nodes.now) id) }
    {
        let mut ahead = Vec::new(alloc);
        let Some(node) = find_node(nodes, id) else {
            return Ok(NodeEdges::new(nodes, ahead));
        };
        let first = node.first_child.get();
        push_row::<D>(nodes, first, D::mark(&node.content), false, &mut ahead)?;
        Ok(NodeEdges::new(nodes, ahead))
    }

    fn new(nodes: &'a [TreeNode], ahead: Vec<Entry>) -> Self
        requires { IsSoundArena nodes.now }
        ensures { result ≡ edges_ahead D.descending (forest_of nodes.now) ahead.items }
    {
        NodeEdges {
            nodes,
            ahead,
            descent: PhantomData,
        }
    }

    /// Returns the next step, or `None` at the end. It fails with `OutOfMemory` when memory for the
    /// stack is refused.
    #[inline(always)]
    pub fn next(&mut self) -> Result<Option<Edge>, OutOfMemory>
        ensures { IfOk result (λ edge. MatchOption edge (self.old ≡ []) (λ edge. self.old
            ≡ edge ∷ self.new)) }
    {
        let Some(entry) = self.ahead.pop() else {
            return Ok(None);
        };
        let edge = begin::<D>(self.nodes, entry, &mut self.ahead)?;
        Ok(Some(edge))
    }
}

/// Returns the first step of an entry and pushes the rest of the entry.
#[inline(always)]
fn begin<D: Descent>(
    nodes: &[TreeNode],
    entry: Entry,
    ahead: &mut Vec<Entry>,
) -> Result<Edge, OutOfMemory>
    requires { IsSoundArena nodes.now }
    ensures { IfOk result (λ edge. edge ∷ edges_ahead D.descending (forest_of nodes.now)
        ahead.new.items ≡ entry_edges D.descending (forest_of nodes.now) entry
        ++ edges_ahead D.descending (forest_of nodes.now) ahead.old.items) }
{
    match entry {
        Entry::Row {
            first,
            marked,
            alone,
        } => {
            push_after::<D>(nodes, first, marked, alone, ahead)?;
            Ok(Edge::Open { id: first, marked })
        }
        Entry::End { id } => Ok(Edge::Close { id }),
    }
}

/// Returns the mark of a node: what `Descent::mark` returns for its parent, or false without a
/// parent.
fn mark_of<D: Descent>(nodes: &[TreeNode], id: NodeId) -> bool
    requires { IsSoundArena nodes.now }
    ensures { result ≡ mark_of D.descending (forest_of nodes.now) id }
{
    let Some(parent) = parent_id(nodes, &id) else {
        return false;
    };
    match find_node(nodes, parent) {
        Some(above) => D::mark(&above.content),
        None => false,
    }
}

/// Pushes what comes after entering a node.
#[inline(always)]
fn push_after<D: Descent>(
    nodes: &[TreeNode],
    id: NodeId,
    marked: bool,
    alone: bool,
    ahead: &mut Vec<Entry>,
) -> Result<(), OutOfMemory>
    requires { IsSoundArena nodes.now }
    ensures { OnOk result (Open id marked ∷ edges_ahead D.descending (forest_of nodes.now)
        ahead.new.items ≡ entry_edges D.descending (forest_of nodes.now) (Row id marked alone)
        ++ edges_ahead D.descending (forest_of nodes.now) ahead.old.items) }
{
    let Some(node) = find_node(nodes, id) else {
        return Ok(());
    };
    push_row::<D>(nodes, next_of(node, alone), marked, false, ahead)?;
    push_inside::<D>(nodes, id, node, ahead)
}

/// Returns the next sibling of the node, or `None` if the node is `alone`.
#[inline(always)]
fn next_of(node: &TreeNode, alone: bool) -> Option<NodeId>
    ensures { result ≡ (if alone then None else node.now.next_sibling) }
{
    if alone {
        return None;
    }
    node.next_sibling.get()
}

/// Pushes what is visited inside a node, and the step that leaves it.
#[inline(always)]
fn push_inside<D: Descent>(
    nodes: &[TreeNode],
    id: NodeId,
    node: &TreeNode,
    ahead: &mut Vec<Entry>,
) -> Result<(), OutOfMemory>
    requires sound { IsSoundArena nodes.now }
    requires node { IsNodeOf (forest_of nodes.now) id node.now }
    ensures { Pushes result D.descending (forest_of nodes.now) ahead.old.items ahead.new.items
        (content_edges D.descending (forest_of nodes.now) id node.now.content) }
{
    match D::inside(&node.content) {
        Entered::Nothing => Ok(()),
        Entered::Children => push_children::<D>(nodes, id, node, ahead),
        Entered::All => {
            push_children::<D>(nodes, id, node, ahead)?;
            push_row::<D>(nodes, node.content.template_contents(), false, true, ahead)
        }
    }
}

/// Pushes the children of a node, and the step that leaves it.
#[inline(always)]
fn push_children<D: Descent>(
    nodes: &[TreeNode],
    id: NodeId,
    node: &TreeNode,
    ahead: &mut Vec<Entry>,
) -> Result<(), OutOfMemory>
    requires sound { IsSoundArena nodes.now }
    requires node { IsNodeOf (forest_of nodes.now) id node.now }
    ensures { Pushes result D.descending (forest_of nodes.now) ahead.old.items ahead.new.items
        (inner_edges D.descending (forest_of nodes.now) id node.now.content) }
{
    push(ahead, Entry::End { id })?;
    let first = node.first_child.get();
    push_row::<D>(nodes, first, D::mark(&node.content), false, ahead)
}

/// Pushes a node, alone or with its later siblings. Without a node it pushes nothing.
#[inline(always)]
fn push_row<D: Descent>(
    nodes: &[TreeNode],
    first: Option<NodeId>,
    marked: bool,
    alone: bool,
    ahead: &mut Vec<Entry>,
) -> Result<(), OutOfMemory>
    ensures { Pushes result D.descending (forest_of nodes.now) ahead.old.items ahead.new.items
        (row_edges D.descending (forest_of nodes.now) marked alone first) }
{
    if let Some(first) = first {
        push(
            ahead,
            Entry::Row {
                first,
                marked,
                alone,
            },
        )?;
    }
    Ok(())
}

/// Pushes one entry.
#[inline(always)]
fn push(ahead: &mut Vec<Entry>, entry: Entry) -> Result<(), OutOfMemory>
    ensures { OnOk result (ahead.new.items ≡ ahead.old.items ++ entry ∷ []) }
{
    match ahead.push(entry) {
        Ok(()) => Ok(()),
        Err(_) => Err(OutOfMemory),
    }
}
