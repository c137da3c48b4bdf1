//! Tests of nodes.

ghost use Rattle.std.specs.Prelude.{◌≡◌};
ghost use Rattle.dom_md.specs.Words.{holds_texts};

use crate::serializer::lists::parse_list_number;
use crate::serializer::names::{Tag, tag_of};
use dom_nodes::name::LocalRef;
use dom_nodes::node_data::NodeData;
use dom_trees::node_ref::NodeRef;

/// Returns the kind of the node for Markdown; `Other` if it is not an element.
pub(super) fn tag(node: &NodeRef<'_>) -> Tag {
    match local_name(node) {
        Some(name) => tag_of(&name),
        None => Tag::Other,
    }
}

/// Returns the local name of the node if it is an element.
pub(super) fn local_name<'a>(node: &NodeRef<'a>) -> Option<LocalRef<'a>> {
    match &node.tree.tree_node(&node.id)?.content {
        NodeData::Element(element) => Some(element.name().local()),
        _ => None,
    }
}

/// Returns the contents of the node if it is a text.
pub(super) fn contents<'a>(node: &NodeRef<'a>) -> Option<&'a str> {
    match &node.tree.tree_node(&node.id)?.content {
        NodeData::Text { contents } => Some(contents.as_str()),
        _ => None,
    }
}

/// Returns whether the node may have children, and all its children are texts.
pub(super) fn holds_texts(node: &NodeRef<'_>) -> bool
    ensures { result ≡ holds_texts node.now.tree.now node.now.id }
{
    if !node.may_have_children() {
        return false;
    }
    for child in node.tree.child_ids_of_it(&node.id, false) {
        if !NodeRef::new(child, node.tree).is_text() {
            return false;
        }
    }
    true
}

/// Returns whether the node is a text of only ASCII whitespace.
pub(super) fn is_blank_text(node: &NodeRef<'_>) -> bool {
    match contents(node) {
        Some(text) => text.trim_ascii().is_empty(),
        None => false,
    }
}

/// Returns whether the node is a block that needs lines of its own in an item: any block but a
/// list, or a `pre`.
pub(super) fn is_item_block(node: &NodeRef<'_>) -> bool {
    let tag = tag(node);
    if tag.is_list() {
        return false;
    }
    tag.is_block() || tag == Tag::Preformatted
}

/// Returns whether a child of the node is such a block.
pub(super) fn has_item_blocks(node: &NodeRef<'_>) -> bool {
    for child in node.children_it(false) {
        if is_item_block(&child) {
            return true;
        }
    }
    false
}

/// Returns whether the node only groups blocks: it is a `div`, `section` or `article`, at least one
/// of its children is a block that needs lines of its own, and the others are such blocks, lists,
/// comments or blank texts. Tables and rules are not allowed among them.
pub(super) fn is_block_wrapper(node: &NodeRef<'_>) -> bool {
    // The three names are of kind `Block`, which few nodes are, so this test comes first.
    if tag(node) != Tag::Block {
        return false;
    }
    if !node.has_name("div") && !node.has_name("section") && !node.has_name("article") {
        return false;
    }
    for child in node.children_it(false) {
        if !may_be_wrapped(&child) {
            return false;
        }
    }
    has_item_blocks(node)
}

fn may_be_wrapped(node: &NodeRef<'_>) -> bool {
    let tag = tag(node);
    if tag == Tag::Table || tag == Tag::Rule {
        return false;
    }
    if tag.is_list() || is_item_block(node) {
        return true;
    }
    node.is_comment() || is_blank_text(node)
}

/// Returns whether the list can follow a paragraph without a blank line: its first item begins with
/// text, and an ordered list begins with the number 1.
pub(super) fn can_interrupt_paragraph(list: &NodeRef<'_>) -> bool {
    let Some(first) = list.first_element_child() else {
        return false;
    };
    if !first.has_name("li") || !begins_with_text(&first) {
        return false;
    }
    if !list.has_name("ol") {
        return true;
    }
    first_number(list, &first) == 1
}

/// Returns whether there is a text before the first list among the item's children.
fn begins_with_text(item: &NodeRef<'_>) -> bool {
    for child in item.children_it(false) {
        if tag(&child).is_list() {
            return false;
        }
        if has_words(&child) {
            return true;
        }
    }
    false
}

/// Returns whether there is a character other than whitespace in the text of the node.
fn has_words(node: &NodeRef<'_>) -> bool {
    if let Some(text) = contents(node) {
        return !text.trim().is_empty();
    }
    for below in node.descendants_it() {
        if let Some(text) = contents(&below) {
            if !text.trim().is_empty() {
                return true;
            }
        }
    }
    false
}

/// Returns the number of the first item of an ordered list.
fn first_number(list: &NodeRef<'_>, first: &NodeRef<'_>) -> u32 {
    if let Some(number) = number_at(first, "value") {
        return number;
    }
    match number_at(list, "start") {
        Some(number) => number,
        None => 1,
    }
}

/// Returns the number in an attribute of the node, as `parse_list_number` reads it.
pub(super) fn number_at(node: &NodeRef<'_>, name: &str) -> Option<u32> {
    parse_list_number(node.attr(name)?)
}
