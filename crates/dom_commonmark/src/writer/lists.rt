//! Lists and their items.

use crate::flanks::MarkKind;
use crate::lines::Beginning;
use crate::tags::{Tag, tag_of};
use crate::writer::{MAX_DEPTH, Task, Writer};
use dom_nodes::fault::OutOfMemory;
use dom_nodes::node_id::NodeId;
use dom_trees::node_ref::NodeRef;

/// The greatest number of an item.
const MAX_NUMBER: u32 = 999_999_999;

/// A list that is being written.
#[derive(Clone, Copy, Drop)]
pub(super) struct List {
    is_ordered: bool,
    /// The number of the next item.
    number: u32,
    /// The character of its markers: that after the number, in an ordered list.
    marker: char,
    /// Blank lines are between its items.
    is_loose: bool,
    /// No item was begun.
    is_first: bool,
    /// It may follow a paragraph without a blank line.
    is_direct: bool,
    /// Where the item began that is being written.
    item: Option<Beginning>,
}

impl<'a> Writer<'a> {
    pub(super) fn begin_list(&mut self, id: NodeId, tag: Tag) -> Result<(), OutOfMemory> {
        if self.depth >= MAX_DEPTH {
            return self.begin_plain(id);
        }
        let node = NodeRef::new(id, self.tree);
        let Some(first) = node.first_child() else {
            return Ok(());
        };
        let list = self.new_list(&node, tag == Tag::OrderedList);
        self.depth = self.depth.saturating_add(1);
        push_list(&mut self.lists, list)?;
        self.push(Task::EndList)?;
        self.push(Task::Items { id: first.id })
    }

    fn is_in_tight_item(&self) -> bool {
        match self.lists.last() {
            Some(list) => !list.is_loose,
            None => false,
        }
    }

    fn new_list(&self, node: &NodeRef<'_>, is_ordered: bool) -> List {
        let outer = match self.lists.last() {
            Some(list) => list.marker,
            None => ' ',
        };
        let marker = if is_ordered {
            self.lines.stop()
        } else {
            self.lines.bullet(self.options.bullet.as_char(), outer)
        };
        let number = first_number(node);
        List {
            is_ordered,
            number,
            marker,
            is_loose: is_loose(node),
            is_first: true,
            is_direct: self.is_in_tight_item() && (!is_ordered || number == 1),
            item: None,
        }
    }

    /// Writes a child of a list, and pushes a task for the later ones. What is not an item belongs
    /// to the item before it. Before the first item, a list in the list begins one; anything else
    /// is written before the list.
    pub(super) fn write_items(&mut self, id: NodeId) -> Result<(), OutOfMemory> {
        let node = NodeRef::new(id, self.tree);
        if let Some(next) = node.next_sibling() {
            self.push(Task::Items { id: next.id })?;
        }
        let tag = tag_of(&node);
        if tag == Tag::Item {
            self.begin_item()?;
            return self.begin_plain(id);
        }
        if holds_items(&node, tag) {
            return self.begin_group(&node, tag);
        }
        if holds_list(&node, tag) && !self.is_in_item() {
            self.begin_item()?;
        }
        self.push(Task::Node { id })
    }

    /// Begins an element around items of a list, which marks the contents of each.
    fn begin_group(&mut self, node: &NodeRef<'_>, tag: Tag) -> Result<(), OutOfMemory> {
        match tag {
            Tag::Strong => self.put_mark(node.id, MarkKind::Strong)?,
            Tag::Emphasis => self.put_mark(node.id, MarkKind::Emphasis)?,
            Tag::Strike => self.put_mark(node.id, MarkKind::Strike)?,
            Tag::Code => self.put_code()?,
            _ => {}
        }
        match node.first_child() {
            Some(first) => self.push(Task::Items { id: first.id }),
            None => Ok(()),
        }
    }

    fn is_in_item(&self) -> bool {
        match self.lists.last() {
            Some(list) => list.item.is_some(),
            None => true,
        }
    }

    fn begin_item(&mut self) -> Result<(), OutOfMemory> {
        self.end_item()?;
        let Some(mut list) = self.lists.pop() else {
            return Ok(());
        };
        if list.is_first {
            self.lines.begin_list(list.is_direct);
        } else {
            self.lines.part_items(list.is_loose);
        }
        let marker = self.item_marker(list.is_ordered, list.number, list.marker)?;
        list.item = Some(self.lines.begin_item(marker.as_str())?);
        list.is_first = false;
        list.number = next_number(list.number);
        push_list(&mut self.lists, list)
    }

    fn item_marker(
        &self,
        is_ordered: bool,
        number: u32,
        marker: char,
    ) -> Result<String, OutOfMemory> {
        let alloc = self.alloc;
        if is_ordered {
            return Ok(format!(in alloc; "{number}{marker} ")?);
        }
        Ok(format!(in alloc; "{marker} ")?)
    }

    /// Ends the item that is being written, if there is one.
    fn end_item(&mut self) -> Result<(), OutOfMemory> {
        self.end_paragraph()?;
        self.inlines.drop_box();
        let Some(mut list) = self.lists.pop() else {
            return Ok(());
        };
        if let Some(beginning) = list.item {
            self.lines.end_item(beginning)?;
        }
        list.item = None;
        push_list(&mut self.lists, list)
    }

    pub(super) fn end_list(&mut self) -> Result<(), OutOfMemory> {
        self.end_item()?;
        self.depth = self.depth.saturating_sub(1);
        if let Some(list) = self.lists.pop() {
            if !list.is_first {
                self.lines.end_list(list.marker);
            }
        }
        Ok(())
    }
}

fn push_list(lists: &mut Vec<List>, list: List) -> Result<(), OutOfMemory> {
    match lists.push(list) {
        Ok(()) => Ok(()),
        Err(_) => Err(OutOfMemory),
    }
}

fn next_number(number: u32) -> u32 {
    if number < MAX_NUMBER {
        number + 1
    } else {
        MAX_NUMBER
    }
}

/// Returns the number of the first item: that in `start`, at most 999,999,999, or else 1.
fn first_number(list: &NodeRef<'_>) -> u32 {
    match list.attr("start") {
        Some(value) => number_in(value),
        None => 1,
    }
}

fn number_in(value: &str) -> u32 {
    let digits = value.trim_ascii();
    match digits.parse::<u32>() {
        Ok(number) if number < MAX_NUMBER => number,
        Ok(_) => MAX_NUMBER,
        Err(_) => 1,
    }
}

/// Returns whether a node is a list with items, or a block of which a child is one.
fn holds_list(node: &NodeRef<'_>, tag: Tag) -> bool {
    if is_list(node) {
        return has_items(node);
    }
    if tag != Tag::Block {
        return false;
    }
    for child in node.children_it(false) {
        if is_list(&child) && has_items(&child) {
            return true;
        }
    }
    false
}

/// Returns whether a child of a list is an item, a list or an element around items.
fn has_items(list: &NodeRef<'_>) -> bool {
    for child in list.children_it(false) {
        let tag = tag_of(&child);
        if tag == Tag::Item || is_list(&child) || holds_items(&child, tag) {
            return true;
        }
    }
    false
}

fn is_list(node: &NodeRef<'_>) -> bool {
    matches!(tag_of(node), Tag::UnorderedList | Tag::OrderedList)
}

fn groups_items(tag: Tag) -> bool {
    match tag {
        Tag::Block | Tag::Inline | Tag::Link | Tag::Code => true,
        Tag::Strong | Tag::Emphasis | Tag::Strike => true,
        _ => false,
    }
}

/// Returns whether an element in a list only groups items of it.
fn holds_items(node: &NodeRef<'_>, tag: Tag) -> bool {
    if !groups_items(tag) {
        return false;
    }
    for child in node.children_it(false) {
        if child.has_name("li") {
            return true;
        }
    }
    false
}

/// Returns whether a paragraph is in an item of the list.
fn is_loose(list: &NodeRef<'_>) -> bool {
    for item in list.children_it(false) {
        for child in item.children_it(false) {
            if child.has_name("p") {
                return true;
            }
        }
    }
    false
}
