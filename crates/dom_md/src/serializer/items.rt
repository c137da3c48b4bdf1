//! List items that contain blocks.

use crate::context::ListContext;
use crate::serializer::Writer;
use crate::serializer::names::Tag;
use crate::serializer::nodes::{is_blank_text, is_block_wrapper, is_item_block, local_name, tag};
use crate::serializer::tasks::{Item, Task};
use crate::serializer::texts::{
    cut_at, ends_in_byte, escape_closing_hashes, push_spaces, trim_end_space, trim_end_spaces,
    trim_start_space,
};
use dom_nodes::fault::OutOfMemory;
use dom_nodes::node_id::NodeId;
use dom_trees::node_ref::NodeRef;

impl<'a> Writer<'a> {
    /// Begins a list item that contains blocks: writes its prefix and pushes tasks for its
    /// children.
    pub(super) fn begin_item(
        &mut self,
        id: NodeId,
        context: ListContext,
        prefix: &str,
    ) -> Result<(), OutOfMemory> {
        let indent = context.list_indent_len();
        trim_end_spaces(&mut self.text);
        // The content trims the start of the text, which would move the place where the item
        // starts.
        trim_start_space(&mut self.text)?;
        push_spaces(&mut self.text, indent)?;
        self.text.push_str(prefix)?;
        let start = self.text.as_str().len();
        self.push_item(Item {
            context,
            indent: indent.saturating_add(prefix.len()),
            start,
            is_first: true,
            is_line_due: false,
        })?;
        self.push(Task::EndItem)?;
        match NodeRef::new(id, self.tree).first_child() {
            Some(first) => self.push(Task::NextBlock { id: first.id }),
            None => Ok(()),
        }
    }

    fn push_item(&mut self, item: Item) -> Result<(), OutOfMemory> {
        match self.items.push(item) {
            Ok(()) => Ok(()),
            Err(_) => Err(OutOfMemory),
        }
    }

    pub(super) fn end_item(&mut self) -> Result<(), OutOfMemory> {
        let Some(item) = self.items.pop() else {
            return Ok(());
        };
        if ends_in_byte(self.text.as_str(), b'\n') {
            return Ok(());
        }
        self.end_line(item.context.opts.table_cell)
    }

    /// Writes a child of an item, and pushes a task for the later ones.
    pub(super) fn next_block(&mut self, id: NodeId) -> Result<(), OutOfMemory> {
        let node = NodeRef::new(id, self.tree);
        if let Some(next) = node.next_sibling() {
            self.push(Task::NextBlock { id: next.id })?;
        }
        if node.is_comment() || self.is_left_out(&node) {
            return Ok(());
        }
        if is_block_wrapper(&node) {
            return match node.first_child() {
                Some(first) => self.push(Task::NextBlock { id: first.id }),
                None => Ok(()),
            };
        }
        let Some(mut item) = self.items.pop() else {
            return Ok(());
        };
        self.write_child(&node, &mut item)?;
        self.push_item(item)
    }

    fn is_left_out(&self, node: &NodeRef<'_>) -> bool {
        match local_name(node) {
            Some(name) => self.is_skipped(&name),
            None => false,
        }
    }

    fn write_child(&mut self, node: &NodeRef<'_>, item: &mut Item) -> Result<(), OutOfMemory> {
        let blank = is_blank_text(node);
        let tag = tag(node);
        if item.is_line_due && !blank && tag != Tag::Preformatted {
            self.end_line(item.context.opts.table_cell)?;
            item.is_line_due = false;
        }
        if tag == Tag::Rule {
            return self.write_rule(item);
        }
        if is_item_block(node) {
            return self.begin_item_block(node.id, tag, item);
        }
        if self.text.as_str().len() > item.start
            && ends_in_byte(self.text.as_str(), b'\n')
            && !blank
        {
            push_spaces(&mut self.text, item.indent)?;
        }
        let opts = if tag.is_list() {
            item.context.opts
        } else {
            item.context.opts.list_item()
        };
        self.push(Task::Node {
            id: node.id,
            opts: opts.include_node(),
        })
    }

    /// Writes a rule on a line of its own. In the cell of a table, it becomes a line break between
    /// what is before and after it.
    fn write_rule(&mut self, item: &mut Item) -> Result<(), OutOfMemory> {
        if item.context.opts.table_cell {
            if self.text.as_str().len() > item.start {
                item.is_line_due = true;
            }
            return Ok(());
        }
        trim_end_space(&mut self.text);
        if self.text.as_str().len() > item.start {
            self.text.push('\n')?;
        }
        self.text.push('\n')?;
        item.is_first = false;
        push_spaces(&mut self.text, item.indent)?;
        Ok(self.text.push_str("---\n")?)
    }

    fn begin_item_block(
        &mut self,
        id: NodeId,
        tag: Tag,
        item: &mut Item,
    ) -> Result<(), OutOfMemory> {
        let indented = tag == Tag::Preformatted || tag == Tag::Quote;
        self.begin_block_line(indented, item)?;
        if indented {
            item.is_line_due = true;
            self.push(Task::EndIndented)?;
            self.push(Task::Node {
                id,
                opts: item.context.opts.include_node(),
            })?;
            return self.begin_text();
        }
        self.text.push_str(tag.prefix())?;
        self.push(Task::EndBlock {
            heading: tag.is_heading(),
        })?;
        self.push_below(id, item.context.opts.list_item())
    }

    /// Begins the line of a block in an item; the first block may directly follow the item's
    /// prefix.
    fn begin_block_line(&mut self, indented: bool, item: &mut Item) -> Result<(), OutOfMemory> {
        let was_first = item.is_first;
        item.is_first = false;
        if was_first && (indented || self.text.as_str().len() <= item.start) {
            return Ok(());
        }
        if !indented && !ends_in_byte(self.text.as_str(), b'\n') {
            self.end_line(item.context.opts.table_cell)?;
        }
        push_spaces(&mut self.text, item.indent)
    }

    pub(super) fn end_block(&mut self, heading: bool) -> Result<(), OutOfMemory> {
        let table_cell = self.is_item_in_cell();
        if heading {
            escape_closing_hashes(&mut self.text)?;
        } else {
            self.end_line(table_cell)?;
        }
        self.end_line(table_cell)
    }

    fn is_item_in_cell(&self) -> bool {
        match self.items.last() {
            Some(item) => item.context.opts.table_cell,
            None => false,
        }
    }

    /// Appends the finished text of a quote or a code block, with each line indented as the item.
    pub(super) fn end_indented(&mut self) -> Result<(), OutOfMemory> {
        let written = self.end_text();
        let Some(item) = self.items.pop() else {
            return Ok(());
        };
        let block = written.as_str().trim_end_matches('\n');
        self.add_indented(block.trim_start_matches('\n'), &item)?;
        self.end_line(item.context.opts.table_cell)?;
        self.push_item(item)
    }

    fn add_indented(&mut self, block: &str, item: &Item) -> Result<(), OutOfMemory> {
        let table_cell = item.context.opts.table_cell;
        let text = self.text.as_str();
        if text.len() != item.start && !ends_in_indent(text, item.indent) {
            let kept = text.trim_end().len();
            let end = if kept < item.start { item.start } else { kept };
            cut_at(&mut self.text, end);
            self.end_line(table_cell)?;
            push_spaces(&mut self.text, item.indent)?;
        }
        let mut is_first = true;
        for line in block.split('\n') {
            if !is_first {
                self.end_line(table_cell)?;
                if !line.is_empty() {
                    push_spaces(&mut self.text, item.indent)?;
                }
            }
            self.text.push_str(line)?;
            is_first = false;
        }
        Ok(())
    }
}

/// Returns whether the text ends in a line feed and `indent` spaces.
fn ends_in_indent(text: &str, indent: usize) -> bool {
    let Some((front, spaces)) = text.split_at_checked(text.len().saturating_sub(indent)) else {
        return false;
    };
    spaces.trim_end_matches(' ').is_empty() && front.ends_with('\n')
}
