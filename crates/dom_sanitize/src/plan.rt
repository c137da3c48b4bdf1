//! The plan: what becomes of each node. It is complete before any node is moved.

ghost use Rattle.std.specs.Prelude.{◌≡◌, ◌<◌, ◌++◌, ◌∷◌, [], length};
ghost use Rattle.std.specs.Prelude.{IfOk, MatchOption, OnErr, OnOk};
ghost use Rattle.dom_links.specs.Forest.{children_of};
ghost use Rattle.dom_links.specs.Lists.{first};
ghost use Rattle.dom_links.specs.Sound.{IsForest};
ghost use Rattle.dom_links.specs.Trees.{trees};
ghost use Rattle.dom_sanitize.specs.Clean.{element_fate, fate_of, lists_of};
ghost use Rattle.dom_sanitize.specs.Plan.{AreRows, LooksAt, home_of, with_below, with_row, plan_of};

use crate::lookup::Lookup;
use crate::sanitize::Allow;
use dom_links::iters::first_child_id;
use dom_links::laws::{lines_of_a_forest, trees_of_a_forest};
use dom_nodes::fault::OutOfMemory;
use dom_nodes::node_data::{Element, NodeData};
use dom_nodes::node_id::NodeId;
use dom_trees::tree::Tree;
use std::alloc::Global;
use std::marker::Model;

/// What becomes of a node.
#[derive(Clone, Copy)]
pub(crate) enum Fate {
    /// It stays, with what is left of its children.
    Stay,
    /// It is removed, and those of its children that are left take its place.
    Unwrap,
    /// It is removed with everything below it.
    Vanish,
}

/// A node that is detached. If it stays, `home` is the node that it becomes a child of.
#[derive(Clone, Copy, Drop)]
pub(crate) struct Step {
    pub(crate) id: NodeId,
    pub(crate) home: Option<NodeId>,
}

/// A node and its later siblings. Those that stay become children of `home`.
#[derive(Clone, Copy, Drop)]
struct Row {
    first: NodeId,
    home: NodeId,
}

/// A stack of rows that are still to be planned. In a contract the top comes first.
#[derive(Drop)]
struct Rows {
    items: Vec<Row>,
}

impl Model for Rows {
    ghost use Rattle.std.specs.Prelude.{List, reverse};
    ghost use Rattle.dom_sanitize.specs.declared.plan.Row.{Row};

    ghost Value = { List Row };

    ghost view = { λ rows. reverse rows.items.items };
}

impl Rows {
    /// Returns an empty stack. It allocates no memory.
    fn new(alloc: Global) -> Rows
        ensures { result ≡ [] }
    {
        Rows {
            items: Vec::new(alloc),
        }
    }

    /// Pushes a row. It fails with `OutOfMemory`, and the stack is then unchanged.
    fn push(&mut self, row: Row) -> Result<(), OutOfMemory>
        ensures ok { OnOk result (self.new ≡ row ∷ self.old) }
        ensures err { OnErr result (self.new ≡ self.old) }
    {
        match self.items.push(row) {
            Ok(()) => Ok(()),
            Err(_) => Err(OutOfMemory),
        }
    }

    /// Pops the top row, or returns `None` when the stack is empty.
    fn pop(&mut self) -> Option<Row>
        ensures { MatchOption result (self.old ≡ []) (λ row. self.old ≡ row ∷ self.new) }
    {
        self.items.pop()
    }
}

/// Returns what becomes of an element.
fn element_fate(allow: &Lookup<'_>, element: &Element) -> Fate
    ensures { result ≡ element_fate allow.now element.now }
{
    let name = element.node_name();
    if name == "template" || element.template_contents().is_some() || allow.drops(name) {
        return Fate::Vanish;
    }
    if allow.allows(name) {
        return Fate::Stay;
    }
    Fate::Unwrap
}

/// Returns what becomes of a node.
fn fate_of(allow: &Lookup<'_>, content: &NodeData) -> Fate
    ensures { result ≡ fate_of allow.now content.now }
{
    match content {
        NodeData::Text { .. } => Fate::Stay,
        NodeData::Element(element) => element_fate(allow, element),
        _ => Fate::Vanish,
    }
}

/// Returns the plan for all nodes below the root, in document order. Nodes below one that is
/// removed with everything below it have no step. It fails with `OutOfMemory` when memory is
/// refused.
pub(crate) fn plan(tree: &Tree, allow: &Allow<'_>) -> Result<Vec<Step>, OutOfMemory>
    requires { IsForest tree.now }
    ensures { IfOk result (λ steps. steps.items ≡ plan_of (lists_of allow.now) tree.now) }
{
    // Called for their contracts; the functions have empty bodies, so the calls cost nothing.
    trees_of_a_forest();
    lines_of_a_forest();
    let root = tree.root_id();
    let lookup = Lookup::new(tree.allocator(), *allow)?;
    let mut rows = Rows::new(tree.allocator());
    let mut steps = Vec::new(tree.allocator());
    let first = first_below(tree, &root);
    push_row(&mut rows, first, root)?;
    while let Some(row) = rows.pop() {
        plan_node(tree, &lookup, row, &mut rows, &mut steps)?;
    }
    Ok(steps)
}

/// Returns the first child of a node.
fn first_below(tree: &Tree, id: &NodeId) -> Option<NodeId>
    ensures { result ≡ first (children_of tree.now id.now) }
{
    first_child_id(tree.nodes(), id)
}

/// Plans the first node of a row, and pushes the rows that come next.
fn plan_node(
    tree: &Tree,
    allow: &Lookup<'_>,
    row: Row,
    rows: &mut Rows,
    steps: &mut Vec<Step>,
) -> Result<(), OutOfMemory>
    requires sound { IsForest tree.now }
    requires known { row.first < length tree.now.content }
    requires rows { AreRows tree.now rows.old }
    ensures { OnOk result (LooksAt allow.now tree.now row
        rows.old rows.new steps.old.items steps.new.items) }
{
    // Called for their contracts; the functions have empty bodies, so the calls cost nothing.
    trees_of_a_forest();
    lines_of_a_forest();
    let Some(node) = tree.tree_node(&row.first) else {
        return Ok(());
    };
    let fate = fate_of(allow, &node.content);
    push_row(rows, node.next_sibling.get(), row.home)?;
    push_below(rows, fate, node.first_child.get(), row)?;
    push_step(steps, row.first, home_of(fate, row.home))
}

/// Returns the new parent of a node if it stays.
fn home_of(fate: Fate, home: NodeId) -> Option<NodeId>
    ensures { result ≡ home_of fate home }
{
    match fate {
        Fate::Stay => Some(home),
        Fate::Unwrap | Fate::Vanish => None,
    }
}

/// Pushes the children of the first node of a row, unless they are removed with it.
fn push_below(
    rows: &mut Rows,
    fate: Fate,
    below: Option<NodeId>,
    row: Row,
) -> Result<(), OutOfMemory>
    ensures { OnOk result (rows.new ≡ with_below fate below row rows.old) }
{
    match fate {
        Fate::Stay => push_row(rows, below, row.first),
        Fate::Unwrap => push_row(rows, below, row.home),
        Fate::Vanish => Ok(()),
    }
}

/// Pushes the row that begins at `first`, if there is one.
fn push_row(rows: &mut Rows, first: Option<NodeId>, home: NodeId) -> Result<(), OutOfMemory>
    ensures { OnOk result (rows.new ≡ with_row first home rows.old) }
{
    if let Some(first) = first {
        rows.push(Row { first, home })?;
    }
    Ok(())
}

/// Appends a step.
fn push_step(steps: &mut Vec<Step>, id: NodeId, home: Option<NodeId>) -> Result<(), OutOfMemory>
    ensures { OnOk result (steps.new.items
        ≡ steps.old.items ++ record { id = id; home = home } ∷ []) }
{
    steps.push(Step { id, home })?;
    Ok(())
}
