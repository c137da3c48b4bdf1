//! The appropriate place for inserting a node (13.2.6.1), with foster parenting.

ghost use Rattle.std.specs.Prelude.{◌≡◌, List, ℕ, false, length, nat_le, reverse, true};
ghost use Rattle.standard_trees.specs.GrowingTree.{GrowingTree as StandardTree, place};
ghost use Rattle.dom_links.specs.Sound.{IsOpenGap, children_allowed_at};
ghost use Rattle.dom_links.specs.Sound.{AtOrBelow, target};
ghost use Rattle.page_trees.specs.Elements.{AreOpen, IsElement, IsPlace, IsRooted};
ghost use Rattle.page_trees.specs.Elements.{LiesAt, LiesIn};
ghost use Rattle.page_trees.specs.Placing.{fosters, foster_place_of, inner, is_a_table};
ghost use Rattle.page_trees.specs.Placing.{is_a_template, place_above, place_of};
ghost use Rattle.page_trees.specs.Placing.{place_outside, place_within, point_of};
ghost use Rattle.page_trees.specs.SameNodes.{AreNodes, IsPointOf};
ghost use Rattle.page_trees.specs.Stands.{IsStackOf};
ghost use Rattle.page_trees.specs.declared.growing.placing.Place.TheVariants.{EndOf as AtEnd};
ghost use Rattle.page_trees.specs.declared.stack.Open.{Open as AnOpen};

use super::edits::is_forest;
use crate::name::Name;
use crate::stack::{ElementNamespace, Open, OpenElements};
use dom_links::gap::InsertionPoint;
use dom_nodes::node_id::NodeId;
use dom_trees::tree::Tree;

/// What determines the place of a node, besides the stack of open elements.
#[derive(Clone, Copy, Drop)]
pub struct Placing {
    /// Whether foster parenting is enabled.
    pub foster: bool,
    /// Whether elements go into the head, which is closed already.
    pub in_head: bool,
    /// The largest number of elements that may be nested.
    pub max_depth: usize,
}

/// A place for a node.
#[derive(Clone, Copy, Drop)]
pub enum Place {
    EndOf(NodeId),
    /// Right before a table that has a parent, and otherwise at the end of the other node.
    Table(NodeId, NodeId),
}

/// Returns whether foster parenting applies to what is inserted into that element.
pub fn is_foster_target(target: &Open) -> bool
    ensures { result ≡ fosters target.now }
{
    match target.ns {
        ElementNamespace::Html => matches!(
            target.name,
            Name::Table | Name::Tbody | Name::Tfoot | Name::Thead | Name::Tr
        ),
        _ => false,
    }
}

pub fn is_template(element: &Open) -> bool
    ensures { result ≡ is_a_template element.now }
{
    match element.ns {
        ElementNamespace::Html => matches!(element.name, Name::Template),
        _ => false,
    }
}

fn is_table(element: &Open) -> bool
    ensures { result ≡ is_a_table element.now }
{
    match element.ns {
        ElementNamespace::Html => matches!(element.name, Name::Table),
        _ => false,
    }
}

/// Returns the contents fragment of a template, and otherwise the element itself.
fn inside(tree: &Tree, id: NodeId) -> NodeId
    requires { IsElement tree.now id }
    ensures open { children_allowed_at tree.now result ≡ true }
    ensures held { (x : ℕ) → IsElement tree.now x → AtOrBelow tree.now x result
        → AtOrBelow tree.now x id }
    ensures value { result ≡ inner tree.now id }
{
    is_forest(tree);
    match tree.tree_node(&id) {
        Some(node) => node.content.template_contents().unwrap_or(id),
        None => id,
    }
}

/// Returns the place with the last of these open elements as the target.
fn place_in(tree: &Tree, elements: &[Open], foster: bool) -> Place
    requires root { IsRooted tree.now }
    requires open { AreOpen tree.now elements.now }
    ensures place { IsPlace tree.now result }
    ensures lies { LiesAt tree.now elements.now result }
    ensures value { result ≡ place_of tree.now foster (reverse elements.now) }
{
    let Some((target, _)) = elements.split_last() else {
        return root_place(tree);
    };
    if foster && is_foster_target(target) {
        return foster_place(tree, elements);
    }
    Place::EndOf(inside(tree, target.id))
}

/// Returns the place at the end of the root.
fn root_place(tree: &Tree) -> Place
    requires { IsRooted tree.now }
    ensures place { IsPlace tree.now result }
    ensures lies { (elements : List AnOpen) → LiesAt tree.now elements result }
    ensures value { result ≡ AtEnd 0 }
{
    is_forest(tree);
    Place::EndOf(tree.root_id())
}

/// Returns the foster parent's place: before the last table, or in a template that was opened
/// later.
fn foster_place(tree: &Tree, elements: &[Open]) -> Place
    requires root { IsRooted tree.now }
    requires open { AreOpen tree.now elements.now }
    ensures place { IsPlace tree.now result }
    ensures lies { LiesAt tree.now elements.now result }
    ensures value { result ≡ foster_place_of tree.now (reverse elements.now) }
{
    let mut rest = elements;
    while let Some((open, below)) = rest.split_last() {
        if is_template(open) {
            return Place::EndOf(inside(tree, open.id));
        }
        let Some((other, _)) = below.split_last() else {
            return Place::EndOf(open.id);
        };
        if is_table(open) {
            return Place::Table(open.id, other.id);
        }
        rest = below;
    }
    root_place(tree)
}

/// Returns the place at the end of a node's parent, or of the node if it has none.
fn place_above(tree: &Tree, id: NodeId) -> Place
    requires { children_allowed_at tree.now id ≡ true }
    ensures place { IsPlace tree.now result }
    ensures value { result ≡ place_above tree.now id }
{
    is_forest(tree);
    match tree.parent_of(&id) {
        Some(parent) => Place::EndOf(parent.id),
        None => Place::EndOf(id),
    }
}

/// Returns the insertion point for a place.
fn gap_of(tree: &Tree, place: Place) -> InsertionPoint
    requires { IsPlace tree.now place }
    ensures open { IsOpenGap result tree.now }
    ensures lies { (elements : List AnOpen) → LiesAt tree.now elements place
        → LiesIn tree.now elements (target result) }
    ensures value { result ≡ point_of tree.now place }
{
    is_forest(tree);
    match place {
        Place::EndOf(parent) => InsertionPoint::EndOf(parent),
        Place::Table(table, other) => match tree.parent_of(&table) {
            Some(_) => InsertionPoint::Before(table),
            None => InsertionPoint::EndOf(inside(tree, other)),
        },
    }
}

/// Returns the insertion point with the last of these open elements as the target.
pub fn gap_in(tree: &Tree, elements: &[Open], foster: bool) -> InsertionPoint
    requires root { IsRooted tree.now }
    requires open { AreOpen tree.now elements.now }
    ensures open { IsOpenGap result tree.now }
    ensures lies { LiesIn tree.now elements.now (target result) }
    ensures value { let found = place_of tree.now foster (reverse elements.now) in
        result ≡ point_of tree.now found }
    ensures rule { (built : StandardTree) → AreNodes built.nodes tree.now →
        IsStackOf built elements.now → built.fostering ≡ foster →
        IsPointOf built.nodes result (place built) }
{
    is_forest(tree);
    gap_of(tree, place_in(tree, elements, foster))
}

/// Returns the insertion point for a node: the appropriate place. If the elements are nested as deep
/// as is allowed, it is in the parent of the current node instead.
pub fn gap(tree: &Tree, stack: &OpenElements, placing: Placing) -> InsertionPoint
    requires root { IsRooted tree.now }
    requires stack { AreOpen tree.now stack.now.elements.items }
    ensures open { IsOpenGap result tree.now }
    ensures value { let elements = stack.now.elements.items in
        result ≡ point_of tree.now (place_within tree.now placing elements) }
    ensures rule { let elements = stack.now.elements.items in (built : StandardTree) →
        AreNodes built.nodes tree.now → IsStackOf built elements →
        built.fostering ≡ placing.foster →
        nat_le placing.max_depth (length elements) ≡ false →
        IsPointOf built.nodes result (place built) }
{
    is_forest(tree);
    gap_within(tree, stack.as_slice(), placing)
}

/// Returns the insertion point for a node in the last of these open elements, within the limit on
/// depth.
fn gap_within(tree: &Tree, elements: &[Open], placing: Placing) -> InsertionPoint
    requires root { IsRooted tree.now }
    requires stack { AreOpen tree.now elements.now }
    ensures open { IsOpenGap result tree.now }
    ensures value { result ≡ point_of tree.now (place_within tree.now placing elements.now) }
{
    let place = place_in(tree, elements, placing.foster);
    if elements.len() >= placing.max_depth {
        return gap_of(tree, place_outside(tree, place));
    }
    gap_of(tree, place)
}

/// Returns the place that replaces one in an element that is nested too deep: in the parent of that
/// element. A place beside a table stays.
fn place_outside(tree: &Tree, place: Place) -> Place
    requires { IsPlace tree.now place }
    ensures place { IsPlace tree.now result }
    ensures value { result ≡ place_outside tree.now place }
{
    match place {
        Place::EndOf(id) => place_above(tree, id),
        Place::Table(..) => place,
    }
}
