//! Tells what a policy takes out of a tree.

ghost use Rattle.std.specs.Prelude.{◌≡◌, ◌<◌, ◌++◌, ◌∷◌, [], IfOk, OnOk, length, map};
ghost use Rattle.std.specs.Prelude.{string_bytes};
ghost use Rattle.dom_clean.specs.Ahead.{AreKnown};
ghost use Rattle.dom_clean.specs.Cleaned.{body_of};
ghost use Rattle.dom_clean.specs.Fates.{cleaned_attr};
ghost use Rattle.dom_clean.specs.Policies.{policy_of};
ghost use Rattle.dom_clean.specs.Removals.{Notes, is_given_rel, is_left};
ghost use Rattle.dom_clean.specs.Removals.{is_refused_address, removal_of};
ghost use Rattle.dom_clean.specs.Removals.{removed_attr, removed_behind, removed_below, removed_of};
ghost use Rattle.dom_clean.specs.Removals.Removal.{an_address, an_attribute, an_element};
ghost use Rattle.dom_clean.specs.declared.writer.Entry.TheVariants.{Row};
ghost use Rattle.dom_links.specs.Sound.{IsForest};

use crate::addresses::cleaned_address;
use crate::attributes::{is_address_name, is_link_name, is_named, is_nowhere, push_attr};
use crate::cleaning::body_of;
use crate::fates::{Fate, Place, fate_of, in_body};
use crate::lists::Lists;
use crate::policy::Policy;
use crate::values::spellable;
use crate::writer::{Ahead, Entry, first_below, push_below, push_row};
use dom_links::laws::{lines_of_a_forest, trees_of_a_forest};
use dom_nodes::fault::OutOfMemory;
use dom_nodes::name::Attr;
use dom_nodes::node_data::{Element, NodeData};
use dom_nodes::node_id::NodeId;
use dom_trees::tree::Tree;
use std::alloc::Global;

/// Something that a policy takes out, by its name.
#[derive(Drop)]
pub enum Removed {
    /// An element: its children took its place, or it is gone with everything in it.
    Element(String),
    /// An attribute of an element that stays.
    Attribute(String),
    /// An attribute of an element that stays, whose address is refused.
    Address(String),
}

/// Returns what the policy takes out below the root of a tree, in the order of the tree: what
/// `clean_tree` leaves out, but for texts and comments. What is in an element that is removed with
/// everything in it isn't listed by itself. Where in the source it was isn't known: a tree has no
/// places. Fails only if memory is refused.
pub fn removed_from_tree(tree: &Tree, policy: &Policy) -> Result<Vec<Removed>, OutOfMemory>
    ensures { IfOk result (λ made. map removal_of made.items
        ≡ removed_below policy.now tree.now 0) }
{
    removed_below(tree, &tree.root_id(), policy)
}

/// Returns what the policy takes out of the body of a tree, or of the whole tree if it has no body,
/// as `removed_from_tree` does: what `clean_document` leaves out. Fails only if memory is refused.
pub fn removed_from_body(tree: &Tree, policy: &Policy) -> Result<Vec<Removed>, OutOfMemory>
    ensures { IfOk result (λ made. map removal_of made.items
        ≡ removed_below policy.now tree.now (body_of tree.now)) }
{
    removed_below(tree, &body_of(tree), policy)
}

/// Returns what the policy takes out below a node, as `removed_from_tree` does below the root. Fails
/// only if memory is refused.
pub fn removed_below(tree: &Tree, id: &NodeId, policy: &Policy) -> Result<Vec<Removed>, OutOfMemory>
    ensures { IfOk result (λ made. map removal_of made.items
        ≡ removed_below policy.now tree.now id.now) }
{
    let _ = tree.nodes();
    removed_in_forest(tree, id, policy.lists())
}

/// The same for a tree that is known to be a forest.
fn removed_in_forest(tree: &Tree, id: &NodeId, lists: &Lists) -> Result<Vec<Removed>, OutOfMemory>
    requires { IsForest tree.now }
    ensures { IfOk result (λ made. map removal_of made.items
        ≡ removed_below (policy_of lists.now) tree.now id.now) }
{
    trees_of_a_forest();
    lines_of_a_forest();
    let alloc = tree.allocator();
    let mut made = Vec::new(alloc);
    let mut ahead = Ahead::new(alloc);
    let first = first_below(tree, id);
    push_row(&mut ahead, first, in_body(lists))?;
    while let Some(entry) = ahead.pop() {
        note_entry(tree, lists, entry, &mut ahead, &mut made)?;
    }
    Ok(made)
}

/// Tells what is taken out of the node of an entry itself, and pushes entries for the rest of it.
fn note_entry(
    tree: &Tree,
    lists: &Lists,
    entry: Entry,
    ahead: &mut Ahead,
    made: &mut Vec<Removed>,
) -> Result<(), OutOfMemory>
    requires sound { IsForest tree.now }
    requires known { AreKnown tree.now (entry ∷ ahead.old) }
    ensures { OnOk result (Notes (policy_of lists.now) tree.now entry ahead.old ahead.new
        (map removal_of made.old.items) (map removal_of made.new.items)) }
{
    match entry {
        Entry::Row { first, place } => note_node(tree, lists, (first, place), ahead, made),
        Entry::End { .. } => Ok(()),
    }
}

/// Tells what is taken out of the first node of a row itself, and pushes entries for its later
/// siblings and for what is below it.
fn note_node(
    tree: &Tree,
    lists: &Lists,
    row: (NodeId, Place),
    ahead: &mut Ahead,
    made: &mut Vec<Removed>,
) -> Result<(), OutOfMemory>
    requires sound { IsForest tree.now }
    requires first { row.0 < length tree.now.content }
    requires known { AreKnown tree.now ahead.old }
    ensures { OnOk result (Notes (policy_of lists.now) tree.now (Row row.0 row.1)
        ahead.old ahead.new (map removal_of made.old.items) (map removal_of made.new.items)) }
{
    trees_of_a_forest();
    lines_of_a_forest();
    let (first, place) = row;
    let Some(node) = tree.tree_node(&first) else {
        return Ok(());
    };
    let fate = fate_of(tree.allocator(), lists, &place, &node.content)?;
    push_row(ahead, node.next_sibling.get(), place)?;
    push_below(
        ahead,
        fate,
        &node.content,
        first,
        node.first_child.get(),
        place,
    )?;
    push_removed(tree.allocator(), lists, fate, &node.content, made)
}

/// Pushes what is taken out of a node of that fate itself.
fn push_removed(
    alloc: Global,
    lists: &Lists,
    fate: Fate,
    content: &NodeData,
    made: &mut Vec<Removed>,
) -> Result<(), OutOfMemory>
    ensures { OnOk result (map removal_of made.new.items ≡ map removal_of made.old.items
        ++ removed_of (policy_of lists.now) fate content.now) }
{
    let NodeData::Element(element) = content else {
        return Ok(());
    };
    match fate {
        Fate::Stays => push_removed_attrs(alloc, lists, element, made),
        Fate::Unwrapped => push_element(alloc, made, element.node_name()),
        Fate::Vanishes => push_element(alloc, made, element.node_name()),
    }
}

/// Pushes those attributes of an element of which nothing is left.
fn push_removed_attrs(
    alloc: Global,
    lists: &Lists,
    element: &Element,
    made: &mut Vec<Removed>,
) -> Result<(), OutOfMemory>
    ensures { OnOk result (map removal_of made.new.items ≡ map removal_of made.old.items
        ++ removed_behind (policy_of lists.now) element.now.name.local [] element.now.attrs) }
{
    push_each(
        alloc,
        lists,
        element.node_name(),
        element.attrs().as_slice(),
        made,
    )
}

fn push_each(
    alloc: Global,
    lists: &Lists,
    element: &str,
    attrs: &[Attr],
    made: &mut Vec<Removed>,
) -> Result<(), OutOfMemory>
    ensures { OnOk result (map removal_of made.new.items ≡ map removal_of made.old.items
        ++ removed_behind (policy_of lists.now) element.now [] attrs.now) }
{
    for at in 0..attrs.len() {
        push_removed_attr(alloc, lists, element, (&attrs[..at], &attrs[at]), made)?;
    }
    Ok(())
}

/// Pushes an attribute, unless something is left of it; `place` is the attributes before it, and it.
fn push_removed_attr(
    alloc: Global,
    lists: &Lists,
    element: &str,
    place: (&[Attr], &Attr),
    made: &mut Vec<Removed>,
) -> Result<(), OutOfMemory>
    ensures { OnOk result (map removal_of made.new.items ≡ map removal_of made.old.items
        ++ removed_attr (policy_of lists.now) element.now place.entry.0.now place.entry.1.now) }
{
    let (before, attr) = place;
    if is_left(alloc, lists, element, (before, attr))? {
        return Ok(());
    }
    if is_given_rel(lists, element, attr) {
        return Ok(());
    }
    let local = attr.name.local();
    if is_refused_address(alloc, lists, attr)? {
        return push_address(alloc, made, local.as_str());
    }
    push_attribute(alloc, made, local.as_str())
}

/// Returns whether something is left of an attribute.
fn is_left(
    alloc: Global,
    lists: &Lists,
    element: &str,
    place: (&[Attr], &Attr),
) -> Result<bool, OutOfMemory>
    ensures { IfOk result (λ is. is ≡ is_left
        (cleaned_attr (policy_of lists.now) element.now place.entry.0.now place.entry.1.now)) }
{
    let mut text = String::new(alloc);
    push_attr(alloc, lists, element, place, &mut text)?;
    Ok(!text.as_str().is_empty())
}

/// Returns whether an attribute is a `rel` with the value that the policy gives to such an element.
fn is_given_rel(lists: &Lists, element: &str, attr: &Attr) -> bool
    ensures { result ≡ is_given_rel (policy_of lists.now) element.now attr.now }
{
    if !is_named(attr, "rel") {
        return false;
    }
    if !is_link_name(element) {
        return false;
    }
    match &lists.rel {
        Some(rel) => attr.value.as_str() == rel.as_str(),
        None => false,
    }
}

/// Returns whether the value of an attribute is an address of which nothing is left.
fn is_refused_address(alloc: Global, lists: &Lists, attr: &Attr) -> Result<bool, OutOfMemory>
    ensures { IfOk result (λ is. is ≡ is_refused_address (policy_of lists.now) attr.now) }
{
    if !is_nowhere(attr) {
        return Ok(false);
    }
    let local = attr.name.local();
    if !is_address_name(local.as_str()) {
        return Ok(false);
    }
    let address = spellable(alloc, attr.value.as_str())?;
    let left = cleaned_address(alloc, lists, address)?;
    Ok(left.is_none())
}

fn push_element(alloc: Global, made: &mut Vec<Removed>, name: &str) -> Result<(), OutOfMemory>
    ensures { OnOk result (map removal_of made.new.items
        ≡ map removal_of made.old.items ++ an_element name.now ∷ []) }
{
    let name = String::from_str(alloc, name)?;
    push_one(made, Removed::Element(name))
}

fn push_attribute(alloc: Global, made: &mut Vec<Removed>, name: &str) -> Result<(), OutOfMemory>
    ensures { OnOk result (map removal_of made.new.items
        ≡ map removal_of made.old.items ++ an_attribute name.now ∷ []) }
{
    let name = String::from_str(alloc, name)?;
    push_one(made, Removed::Attribute(name))
}

fn push_address(alloc: Global, made: &mut Vec<Removed>, name: &str) -> Result<(), OutOfMemory>
    ensures { OnOk result (map removal_of made.new.items
        ≡ map removal_of made.old.items ++ an_address name.now ∷ []) }
{
    let name = String::from_str(alloc, name)?;
    push_one(made, Removed::Address(name))
}

fn push_one(made: &mut Vec<Removed>, one: Removed) -> Result<(), OutOfMemory>
    ensures { OnOk result (made.new.items ≡ made.old.items ++ one ∷ []) }
{
    match made.push(one) {
        Ok(()) => Ok(()),
        Err(_) => Err(OutOfMemory),
    }
}
