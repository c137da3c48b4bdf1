//! Writing a tree as CommonMark. Start at `commonmark`.

mod blocks;
mod lists;
mod preformatted;
mod tables;

use crate::addresses::{image_target, own_address};
use crate::flanks::MarkKind;
use crate::inlines::{Flow, Inlines};
use crate::lines::{Beginning, Lines};
use crate::options::Options;
use crate::tags::{Tag, is_block_tag, tag_named, tag_of};
use crate::writer::lists::List;
use crate::writer::tables::Table;
use dom_nodes::fault::OutOfMemory;
use dom_nodes::node_data::NodeData;
use dom_nodes::node_id::NodeId;
use dom_trees::node_ref::NodeRef;
use dom_trees::tree::Tree;
use std::alloc::Global;

/// Returns the CommonMark of a node, with GFM's tables, strikethrough and task lists; an empty
/// string for an unknown id. No line feed is at its end. Elements that a page doesn't show, such as
/// `script`, `style`, `template` and `head`, are left out. Fails only when memory runs out.
pub fn commonmark(
    alloc: Global,
    node: &NodeRef<'_>,
    options: &Options,
) -> Result<String, OutOfMemory> {
    let mut writer = Writer::new(alloc, node.tree, *options);
    writer.push(Task::Node { id: node.id })?;
    writer.written()
}

/// Returns the CommonMark of what is inside a node, as `commonmark` does of the node itself. Fails
/// only when memory runs out.
pub fn commonmark_inside(
    alloc: Global,
    node: &NodeRef<'_>,
    options: &Options,
) -> Result<String, OutOfMemory> {
    let mut writer = Writer::new(alloc, node.tree, *options);
    writer.push_children(node.id)?;
    writer.written()
}

/// Returns whether a node is a block, which stands on lines of its own.
pub fn is_block(node: &NodeRef<'_>) -> bool {
    is_block_tag(tag_of(node))
}

/// A piece of what remains to be written.
#[derive(Clone, Copy)]
enum Task {
    /// Writes the node and its later siblings.
    Row { id: NodeId },
    /// Writes the node.
    Node { id: NodeId },
    /// Ends a block.
    EndBlock,
    EndHeading { level: u8 },
    /// Ends the innermost mark.
    EndMark,
    EndCode,
    EndQuote { beginning: Beginning },
    /// Writes a child of a list and its later siblings.
    Items { id: NodeId },
    EndList,
    /// Begins the rows of a table.
    Rows { id: NodeId },
    EndCell { span: usize },
    EndRow,
    EndTable,
}

/// The state of writing.
#[derive(Drop)]
struct Writer<'a> {
    alloc: Global,
    tree: &'a Tree,
    options: Options,
    /// The tasks that remain; the last one is the next to run.
    tasks: Vec<Task>,
    lines: Lines,
    inlines: Inlines<'a>,
    /// The lists that are being written, the outermost first.
    lists: Vec<List>,
    /// How many lists and quotes are being written.
    depth: usize,
    /// The table that is being written. One is enough, since no table is written in a cell.
    table: Table,
}

/// Lists and quotes in so many others are written as their contents, without a marker.
const MAX_DEPTH: usize = 100;

impl<'a> Writer<'a> {
    fn new(alloc: Global, tree: &'a Tree, options: Options) -> Writer<'a> {
        Writer {
            alloc,
            tree,
            options,
            tasks: Vec::new(alloc),
            lines: Lines::new(alloc),
            inlines: Inlines::new(alloc, tree),
            lists: Vec::new(alloc),
            depth: 0,
            table: Table::new(alloc),
        }
    }

    /// Runs the tasks, and returns what they wrote.
    fn written(&mut self) -> Result<String, OutOfMemory> {
        self.write_all()?;
        self.end_paragraph()?;
        Ok(self.lines.take_text(self.alloc))
    }

    /// Runs the tasks until the stack is empty. The bound on the number of steps is one that no
    /// machine counts up to; it makes the loop terminate.
    fn write_all(&mut self) -> Result<(), OutOfMemory> {
        for _ in 0..u64::MAX {
            let Some(task) = self.tasks.pop() else {
                return Ok(());
            };
            self.step(task)?;
        }
        Ok(())
    }

    /// Runs a task: writes its beginning, and pushes tasks for the rest.
    fn step(&mut self, task: Task) -> Result<(), OutOfMemory> {
        match task {
            Task::Row { id } => self.write_row(id),
            Task::Node { id } => self.open_node(id),
            Task::EndBlock => self.end_block(),
            Task::EndHeading { level } => self.end_heading(level),
            Task::EndMark => {
                self.inlines.drop_mark();
                Ok(())
            }
            Task::EndCode => {
                self.inlines.set_code(false);
                Ok(())
            }
            Task::EndQuote { beginning } => self.end_quote(beginning),
            Task::Items { id } => self.write_items(id),
            Task::EndList => self.end_list(),
            Task::Rows { id } => self.begin_rows(id),
            Task::EndCell { span } => self.end_cell(span),
            Task::EndRow => self.end_row(),
            Task::EndTable => self.end_table(),
        }
    }

    /// Pushes a task.
    fn push(&mut self, task: Task) -> Result<(), OutOfMemory> {
        match self.tasks.push(task) {
            Ok(()) => Ok(()),
            Err(_) => Err(OutOfMemory),
        }
    }

    /// Pushes a task that writes what is below a node.
    fn push_children(&mut self, id: NodeId) -> Result<(), OutOfMemory> {
        let tree = self.tree;
        let Some(node) = tree.tree_node(&id) else {
            return Ok(());
        };
        match node.first_child.get() {
            Some(first) => self.push(Task::Row { id: first }),
            None => Ok(()),
        }
    }

    fn write_row(&mut self, id: NodeId) -> Result<(), OutOfMemory> {
        let tree = self.tree;
        let Some(node) = tree.tree_node(&id) else {
            return Ok(());
        };
        if let Some(next) = node.next_sibling.get() {
            self.push(Task::Row { id: next })?;
        }
        self.open_node(id)
    }

    /// Writes the beginning of a node, and pushes tasks for the rest of it.
    fn open_node(&mut self, id: NodeId) -> Result<(), OutOfMemory> {
        let tree = self.tree;
        let Some(node) = tree.tree_node(&id) else {
            return Ok(());
        };
        match &node.content {
            NodeData::Text { contents } => self.inlines.push_text(contents.as_str()),
            NodeData::Element(element) => self.open_element(id, tag_named(element.node_name())),
            _ => self.push_children(id),
        }
    }

    fn open_element(&mut self, id: NodeId, tag: Tag) -> Result<(), OutOfMemory> {
        match tag {
            Tag::Skipped => Ok(()),
            Tag::Inline => self.push_children(id),
            Tag::Strong => self.begin_mark(id, MarkKind::Strong),
            Tag::Emphasis => self.begin_mark(id, MarkKind::Emphasis),
            Tag::Strike => self.begin_mark(id, MarkKind::Strike),
            Tag::Link => self.begin_link(id),
            Tag::Code => self.begin_code(id),
            Tag::Image => self.write_image(id),
            Tag::Break => {
                self.inlines.push_break();
                Ok(())
            }
            Tag::Input => self.put_box(id),
            _ => self.open_block(id, tag),
        }
    }

    /// Begins a marked text. Within one of the same kind nothing is marked.
    fn begin_mark(&mut self, id: NodeId, kind: MarkKind) -> Result<(), OutOfMemory> {
        self.put_mark(id, kind)?;
        self.push_children(id)
    }

    fn put_mark(&mut self, id: NodeId, kind: MarkKind) -> Result<(), OutOfMemory> {
        if self.inlines.put_mark(kind, id)? {
            self.push(Task::EndMark)?;
        }
        Ok(())
    }

    /// Begins a link. For one without an address, and for one in another link, the contents are
    /// written.
    fn begin_link(&mut self, id: NodeId) -> Result<(), OutOfMemory> {
        let node = NodeRef::new(id, self.tree);
        if node.attr_or("href", "").trim_ascii().is_empty() {
            return self.push_children(id);
        }
        if !self.inlines.has_mark(MarkKind::Link) && !self.inlines.is_in_code() {
            if let Some(address) = own_address(&node) {
                return self.inlines.push_autolink(address);
            }
        }
        self.begin_mark(id, MarkKind::Link)
    }

    fn begin_code(&mut self, id: NodeId) -> Result<(), OutOfMemory> {
        self.put_code()?;
        self.push_children(id)
    }

    fn put_code(&mut self) -> Result<(), OutOfMemory> {
        if !self.inlines.is_in_code() {
            self.inlines.set_code(true);
            self.push(Task::EndCode)?;
        }
        Ok(())
    }

    /// Writes an image; nothing for an image without an address.
    fn write_image(&mut self, id: NodeId) -> Result<(), OutOfMemory> {
        let node = NodeRef::new(id, self.tree);
        let Some(target) = image_target(&node, self.inlines.flow == Flow::Cell) else {
            return Ok(());
        };
        match node.attr("alt") {
            Some(words) => self.inlines.push_image(words, target),
            None => self.inlines.push_image("", target),
        }
    }

    /// Puts the box of a task at the start of an item; nothing is written for other inputs.
    fn put_box(&mut self, id: NodeId) -> Result<(), OutOfMemory> {
        let node = NodeRef::new(id, self.tree);
        let is_box = node.attr_or("type", "").eq_ignore_ascii_case("checkbox");
        let is_at_start = self.lines.is_at_item && self.inlines.is_empty();
        if is_box && is_at_start && self.inlines.flow == Flow::Lines {
            self.inlines.put_box(node.has_attr("checked"));
        }
        Ok(())
    }
}
