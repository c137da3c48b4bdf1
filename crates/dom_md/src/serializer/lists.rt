//! Lists, and list items without blocks.

use crate::context::{FormatOpts, ListContext, ListKind};
use crate::serializer::Writer;
use crate::serializer::names::Tag;
use crate::serializer::nodes::{has_item_blocks, number_at, tag};
use crate::serializer::tasks::Task;
use crate::serializer::texts::{add_linebreaks, push_spaces, trim_end_spaces};
use dom_nodes::fault::OutOfMemory;
use dom_nodes::node_id::NodeId;
use dom_trees::node_ref::NodeRef;

/// The greatest number of a list item.
const MAX_LIST_NUMBER: u32 = 999_999_999;

impl<'a> Writer<'a> {
    pub(super) fn begin_list(
        &mut self,
        id: NodeId,
        tag: Tag,
        opts: FormatOpts,
    ) -> Result<(), OutOfMemory> {
        let node = NodeRef::new(id, self.tree);
        if !opts.table_cell {
            self.push(Task::EndList)?;
        }
        match node.first_child() {
            Some(first) => self.push(Task::NextItem {
                id: first.id,
                context: ListContext::new(opts, kind_of(&node, tag)),
            }),
            None => Ok(()),
        }
    }

    /// Ends a list with a blank line; otherwise a text after it would continue its last item.
    pub(super) fn end_list(&mut self) -> Result<(), OutOfMemory> {
        add_linebreaks(&mut self.text, "\n\n")
    }

    /// Writes a child of a list, and pushes a task for the later ones.
    pub(super) fn next_item(&mut self, id: NodeId, list: ListContext) -> Result<(), OutOfMemory> {
        let node = NodeRef::new(id, self.tree);
        let is_item = tag(&node) == Tag::Item;
        let list = if is_item {
            renumbered(list, &node)
        } else {
            list
        };
        let mut after = list;
        if is_item {
            after.advance_ol_number();
        }
        if let Some(next) = node.next_sibling() {
            self.push(Task::NextItem {
                id: next.id,
                context: after,
            })?;
        }
        if !is_item {
            return self.open_node(id, FormatOpts::new().include_node());
        }
        if let Some(mark) = list.mark() {
            return self.write_item(id, after, mark);
        }
        let prefix = list.prefix(self.tree.allocator())?;
        self.write_item(id, after, prefix.as_str())
    }

    /// Writes the beginning of an item; `context` is the state of the list after the item's number.
    fn write_item(
        &mut self,
        id: NodeId,
        context: ListContext,
        prefix: &str,
    ) -> Result<(), OutOfMemory> {
        if has_item_blocks(&NodeRef::new(id, self.tree)) {
            return self.begin_item(id, context, prefix);
        }
        trim_end_spaces(&mut self.text);
        push_spaces(&mut self.text, context.list_indent_len())?;
        self.text.push_str(prefix)?;
        self.push(Task::EndLine {
            table_cell: context.opts.table_cell,
        })?;
        self.push_below(id, context.opts.list_item())
    }
}

/// Returns the kind of a list; an ordered one begins with the number in `start`, or with 1.
fn kind_of(node: &NodeRef<'_>, tag: Tag) -> ListKind {
    if tag != Tag::OrderedList {
        return ListKind::Ul;
    }
    match number_at(node, "start") {
        Some(number) => ListKind::Ol(number),
        None => ListKind::Ol(1),
    }
}

/// Returns the state of the list before an item, whose `value` may set its number.
fn renumbered(context: ListContext, item: &NodeRef<'_>) -> ListContext {
    let mut context = context;
    if let ListKind::Ol(_) = context.kind {
        if let Some(number) = number_at(item, "value") {
            context.kind = ListKind::Ol(number);
        }
    }
    context
}

/// Parses the integer at the start of an attribute's value, after ASCII whitespace and an optional
/// sign. Returns 0 for a negative number, and at most 999,999,999; `None` if there are no digits.
pub(super) fn parse_list_number(value: &str) -> Option<u32> {
    let value = value.trim_ascii_start();
    if let Some(digits) = value.strip_prefix('-') {
        number_in(digits)?;
        return Some(0);
    }
    match value.strip_prefix('+') {
        Some(digits) => number_in(digits),
        None => number_in(value),
    }
}

/// Returns the number in the digits at the start of the text, or `None` if there are none.
fn number_in(text: &str) -> Option<u32> {
    let mut number: Option<u32> = None;
    for byte in text.as_bytes() {
        if !byte.is_ascii_digit() {
            return number;
        }
        number = Some(with_digit(number, *byte));
    }
    number
}

/// Returns the number with a digit appended, at most 999,999,999.
fn with_digit(number: Option<u32>, digit: u8) -> u32 {
    let tens = match number {
        Some(number) => number.saturating_mul(10),
        None => 0,
    };
    let more = tens.saturating_add(u32::from(digit.saturating_sub(b'0')));
    if more < MAX_LIST_NUMBER {
        more
    } else {
        MAX_LIST_NUMBER
    }
}
