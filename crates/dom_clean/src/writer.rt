//! Writes the text of what a policy leaves of a tree, in one pass, without a copy of the tree.

ghost use Rattle.std.specs.Prelude.{◌≡◌, ◌<◌, ◌&&◌, ◌++◌, ◌∷◌, [], length, not, string_bytes};
ghost use Rattle.std.specs.Prelude.{IfOk, MatchOption, OnOk, Some, slice_get};
ghost use Rattle.dom_clean.specs.Ahead.{AreKnown, Writes, front_after, front_past, is_nil};
ghost use Rattle.dom_clean.specs.Ahead.{is_pre, opening, seen, with_below, with_row};
ghost use Rattle.dom_clean.specs.Cleaned.{after_lines, cleaned_below};
ghost use Rattle.dom_clean.specs.Fates.{cleaned_attrs, spellable};
ghost use Rattle.dom_clean.specs.declared.fates.Fate.TheVariants.{Stays};
ghost use Rattle.dom_clean.specs.declared.writer.Entry.TheVariants.{Row};
ghost use Rattle.dom_markup.specs.Escaping.{escaped_text};
ghost use Rattle.std.specs.Option.{option_map_or};
ghost use Rattle.dom_clean.specs.Laws.{left_below};
ghost use Rattle.dom_clean.specs.Parsed.{IsCleanedAs};
ghost use Rattle.dom_clean.specs.Policies.{policy_of};
ghost use Rattle.dom_clean.specs.Written.{start_of, text_of};
ghost use Rattle.dom_links.specs.Forest.{children_of};
ghost use Rattle.dom_links.specs.Lists.{first};
ghost use Rattle.dom_links.specs.Sound.{IsForest};
ghost use Rattle.dom_markup.specs.Html.{closing, end_tag};
ghost use Rattle.dom_markup.specs.Names.{void_names};
ghost use Rattle.dom_nodes.specs.Words.{is_among};
ghost use Rattle.page_trees.specs.ElementKinds.{kind_of};

use crate::attributes::{is_void_name, push_start};
use crate::fates::{Fate, Place, category, fate_of, in_body, place_below};
use crate::laws::cleaned_text_is_parsed;
use crate::lists::Lists;
use crate::policy::Policy;
use crate::values::{after_lines, push_text, spellable};
use dom_links::iters::first_child_id;
use dom_links::laws::{lines_of_a_forest, trees_of_a_forest};
use dom_nodes::fault::OutOfMemory;
use dom_nodes::node_data::{Element, NodeData};
use dom_nodes::node_id::NodeId;
use dom_trees::tree::Tree;
use page_trees::ElementCategory;
use std::alloc::Global;
use std::marker::Model;

/// Something that is still to be written.
#[derive(Clone, Copy, Drop)]
pub(crate) enum Entry {
    /// A node and its later siblings, at that place.
    Row { first: NodeId, place: Place },
    /// The end tag of an element.
    End { id: NodeId },
}

/// A stack of entries; the next one to be written is on top.
#[derive(Drop)]
pub(crate) struct Ahead {
    items: Vec<Entry>,
}

impl Model for Ahead {
    ghost use Rattle.std.specs.Prelude.{List, reverse};
    ghost use Rattle.dom_clean.specs.declared.writer.Entry.{Entry};

    ghost Value = { List Entry };

    ghost view = { λ ahead. reverse ahead.items.items };
}

impl Ahead {
    pub(crate) fn new(alloc: Global) -> Ahead
        ensures { result ≡ [] }
    {
        Ahead {
            items: Vec::new(alloc),
        }
    }

    /// Pushes an entry. Fails if memory is refused.
    fn push(&mut self, entry: Entry) -> Result<(), OutOfMemory>
        ensures { OnOk result (self.new ≡ entry ∷ self.old) }
    {
        match self.items.push(entry) {
            Ok(()) => Ok(()),
            Err(_) => Err(OutOfMemory),
        }
    }

    /// Pops the next entry.
    pub(crate) fn pop(&mut self) -> Option<Entry>
        ensures { MatchOption result (self.old ≡ []) (λ entry. self.old ≡ entry ∷ self.new) }
    {
        self.items.pop()
    }
}

/// The text that was written so far.
#[derive(Drop)]
pub(crate) struct Output {
    pub(crate) text: String,
    /// Whether the text ends directly after the start tag of a `pre`.
    pub(crate) in_front: bool,
}

/// Returns the text of what the policy leaves of the children of the root. Fails with `OutOfMemory`
/// if memory is refused. The HTML Standard parses the text as `clean` says.
pub fn clean_tree(tree: &Tree, policy: &Policy) -> Result<String, OutOfMemory>
    ensures text { IfOk result (λ text. string_bytes text
        ≡ text_of (cleaned_below policy.now tree.now 0)) }
    ensures cleaned { IfOk result (λ text. IsCleanedAs policy.now (string_bytes text)
        (left_below policy.now tree.now 0)) }
{
    // A law, called for its contract alone.
    cleaned_text_is_parsed();
    let text = clean_below(tree, &tree.root_id(), policy.lists())?;
    // A text that is read as a `str` is known to be UTF-8.
    let _ = text.as_str();
    Ok(text)
}

/// Returns the text of what is left of the children of a node.
pub(crate) fn clean_below(tree: &Tree, id: &NodeId, lists: &Lists) -> Result<String, OutOfMemory>
    ensures { IfOk result (λ text. string_bytes text
        ≡ text_of (cleaned_below (policy_of lists.now) tree.now id.now)) }
{
    let _ = tree.nodes();
    clean_forest(tree, id, lists)
}

/// The same for a tree that is known to be a forest.
fn clean_forest(tree: &Tree, id: &NodeId, lists: &Lists) -> Result<String, OutOfMemory>
    requires { IsForest tree.now }
    ensures { IfOk result (λ text. string_bytes text
        ≡ text_of (cleaned_below (policy_of lists.now) tree.now id.now)) }
{
    trees_of_a_forest();
    lines_of_a_forest();
    let alloc = tree.allocator();
    let mut output = Output {
        text: String::new(alloc),
        in_front: false,
    };
    let mut ahead = Ahead::new(alloc);
    let first = first_below(tree, id);
    push_row(&mut ahead, first, in_body(lists))?;
    while let Some(entry) = ahead.pop() {
        write_entry(tree, lists, entry, &mut ahead, &mut output)?;
    }
    Ok(output.text)
}

/// Returns the first child of a node.
pub(crate) fn first_below(tree: &Tree, id: &NodeId) -> Option<NodeId>
    ensures { result ≡ first (children_of tree.now id.now) }
{
    first_child_id(tree.nodes(), id)
}

/// Writes the first part of an entry, and pushes entries for the rest of it.
pub(crate) fn write_entry(
    tree: &Tree,
    lists: &Lists,
    entry: Entry,
    ahead: &mut Ahead,
    output: &mut Output,
) -> Result<(), OutOfMemory>
    requires sound { IsForest tree.now }
    requires known { AreKnown tree.now (entry ∷ ahead.old) }
    ensures { OnOk result (Writes (policy_of lists.now) tree.now entry
        ahead.old ahead.new (string_bytes output.old.text)
        (string_bytes output.new.text) output.old.in_front output.new.in_front) }
{
    match entry {
        Entry::Row { first, place } => write_node(tree, lists, first, place, ahead, output),
        Entry::End { id } => write_end(tree, id, output),
    }
}

/// Writes the end tag of a node.
fn write_end(tree: &Tree, id: NodeId, output: &mut Output) -> Result<(), OutOfMemory>
    ensures text { OnOk result (string_bytes output.new.text ≡ string_bytes output.old.text
        ++ option_map_or closing (slice_get tree.now.content id) []) }
    ensures front { output.new.in_front
        ≡ front_past output.old.in_front (slice_get tree.now.content id) }
{
    match tree.tree_node(&id) {
        Some(node) => push_closing(&node.content, output),
        None => Ok(()),
    }
}

fn push_closing(content: &NodeData, output: &mut Output) -> Result<(), OutOfMemory>
    ensures text { OnOk result (string_bytes output.new.text
        ≡ string_bytes output.old.text ++ closing content.now) }
    ensures front { output.new.in_front ≡ front_past output.old.in_front (Some content.now) }
{
    let NodeData::Element(element) = content else {
        return Ok(());
    };
    output.in_front = false;
    push_end_tag(&mut output.text, element.node_name())
}

fn push_end_tag(text: &mut String, name: &str) -> Result<(), OutOfMemory>
    ensures { OnOk result (string_bytes text.new ≡ string_bytes text.old ++ end_tag name.now) }
{
    text.push_str("</")?;
    text.push_str(name)?;
    text.push_str(">")?;
    Ok(())
}

/// Writes the opening of the first node of a row, and pushes entries for its later siblings and for
/// what is below it.
fn write_node(
    tree: &Tree,
    lists: &Lists,
    first: NodeId,
    place: Place,
    ahead: &mut Ahead,
    output: &mut Output,
) -> Result<(), OutOfMemory>
    requires sound { IsForest tree.now }
    requires first { first < length tree.now.content }
    requires known { AreKnown tree.now ahead.old }
    ensures { OnOk result (Writes (policy_of lists.now) tree.now (Row first place)
        ahead.old ahead.new (string_bytes output.old.text)
        (string_bytes output.new.text) output.old.in_front output.new.in_front) }
{
    trees_of_a_forest();
    lines_of_a_forest();
    let Some(node) = tree.tree_node(&first) else {
        return Ok(());
    };
    let fate = fate_of(tree.allocator(), lists, &place, &node.content)?;
    push_row(ahead, node.next_sibling.get(), place)?;
    push_below(
        ahead,
        fate,
        &node.content,
        first,
        node.first_child.get(),
        place,
    )?;
    push_opening(tree.allocator(), lists, fate, &node.content, output)
}

/// Pushes entries for what is below a node of that fate.
pub(crate) fn push_below(
    ahead: &mut Ahead,
    fate: Fate,
    content: &NodeData,
    id: NodeId,
    below: Option<NodeId>,
    place: Place,
) -> Result<(), OutOfMemory>
    ensures { OnOk result (ahead.new ≡ with_below fate content.now id below place ahead.old) }
{
    match fate {
        Fate::Stays => push_inside(ahead, content, id, below, place),
        Fate::Unwrapped => push_row(ahead, below, place),
        Fate::Vanishes => Ok(()),
    }
}

/// Pushes an entry for the end tag of an element that stays, and one for its children.
fn push_inside(
    ahead: &mut Ahead,
    content: &NodeData,
    id: NodeId,
    below: Option<NodeId>,
    place: Place,
) -> Result<(), OutOfMemory>
    ensures { OnOk result (ahead.new ≡ with_below Stays content.now id below place ahead.old) }
{
    let NodeData::Element(element) = content else {
        return Ok(());
    };
    if is_void_name(element.node_name()) {
        return Ok(());
    }
    ahead.push(Entry::End { id })?;
    push_row(ahead, below, place_below(&place, element))
}

/// Pushes an entry for a row, if there is a node in it.
pub(crate) fn push_row(
    ahead: &mut Ahead,
    first: Option<NodeId>,
    place: Place,
) -> Result<(), OutOfMemory>
    ensures { OnOk result (ahead.new ≡ with_row first place ahead.old) }
{
    if let Some(first) = first {
        ahead.push(Entry::Row { first, place })?;
    }
    Ok(())
}

/// Writes a node of that fate, up to its children.
fn push_opening(
    alloc: Global,
    lists: &Lists,
    fate: Fate,
    content: &NodeData,
    output: &mut Output,
) -> Result<(), OutOfMemory>
    ensures text { OnOk result (string_bytes output.new.text ≡ string_bytes output.old.text
        ++ opening (policy_of lists.now) fate output.old.in_front content.now) }
    ensures front { OnOk result (output.new.in_front
        ≡ front_after fate output.old.in_front content.now) }
{
    let Fate::Stays = fate else {
        return Ok(());
    };
    match content {
        NodeData::Text { contents } => push_spelled_text(alloc, contents.as_str(), output),
        NodeData::Element(element) => push_tag(alloc, lists, element, output),
        _ => Ok(()),
    }
}

/// Writes the start tag of an element.
fn push_tag(
    alloc: Global,
    lists: &Lists,
    element: &Element,
    output: &mut Output,
) -> Result<(), OutOfMemory>
    ensures text { OnOk result (string_bytes output.new.text ≡ string_bytes output.old.text
        ++ start_of element.now.name.local (cleaned_attrs (policy_of lists.now) element.now)) }
    ensures front { OnOk result (output.new.in_front
        ≡ (not (is_among element.now.name.local void_names)
        && is_pre (kind_of element.now.name.local))) }
{
    output.in_front = !is_void_name(element.node_name()) && is_pre(element);
    push_start(alloc, lists, element, &mut output.text)
}

fn is_pre(element: &Element) -> bool
    ensures { result ≡ is_pre (kind_of element.now.name.local) }
{
    matches!(category(element), ElementCategory::Pre)
}

/// Writes a text; directly after the start tag of a `pre` without the line feeds at its front.
fn push_spelled_text(alloc: Global, contents: &str, output: &mut Output) -> Result<(), OutOfMemory>
    ensures text { OnOk result (string_bytes output.new.text ≡ string_bytes output.old.text
        ++ escaped_text (seen output.old.in_front (spellable contents.now))) }
    ensures front { OnOk result (output.new.in_front ≡ (output.old.in_front
        && is_nil (after_lines (spellable contents.now)))) }
{
    let spelled = spellable(alloc, contents)?;
    if !output.in_front {
        return push_text(&mut output.text, spelled.as_str());
    }
    let text = after_lines(spelled.as_str());
    output.in_front = text.is_empty();
    push_text(&mut output.text, text)
}
