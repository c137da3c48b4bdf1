//! Writes a tree as Markdown. A stack of tasks says what remains to be written, so the writer needs
//! no recursion. Start at `serialize_md`; `Writer::step` runs a task.

ghost use Rattle.std.specs.Prelude.{◌≡◌, IfOk, OnOk, [], false, string_bytes, true};
ghost use Rattle.dom_md.specs.Resolved.{resolved};
ghost use Rattle.dom_md.specs.Words.{ReadsAsWords, holds_texts, joined_words_of};

mod blocks;
mod code;
mod emphasis;
mod images;
mod items;
mod levels;
mod links;
mod lists;
mod names;
mod nodes;
mod quotes;
mod tables;
mod tasks;
mod texts;
mod urls;
pub(crate) mod words;

use crate::context::FormatOpts;
use crate::serializer::levels::{Front, Level, ends_near_letter};
use crate::serializer::names::is_default_skipped;
use crate::serializer::nodes::holds_texts;
use crate::serializer::tables::Table;
use crate::serializer::tasks::{Item, Task};
use crate::serializer::texts::trim_space;
use crate::serializer::words::push_words;
use dom_nodes::fault::OutOfMemory;
use dom_nodes::name::LocalRef;
use dom_nodes::node_id::NodeId;
use dom_trees::node_ref::NodeRef;
use dom_trees::tree::Tree;

/// Returns the Markdown of what is below the node or, with `include_node`, of the node itself; an
/// empty string for an unknown id. Elements whose names are in `skip_tags` are left out; with
/// `None` these are `script`, `style`, `meta` and `head`. Without `include_node`, the Markdown of a
/// node whose children are all texts resolves to the words of its text. Fails only when memory runs
/// out.
pub fn serialize_md(
    node: &NodeRef<'_>,
    include_node: bool,
    skip_tags: Option<&[&str]>,
) -> Result<String, OutOfMemory>
    ensures { include_node ≡ false → IfOk result (ReadsAsWords node.now.tree.now node.now.id) }
{
    MDSerializer::new(node, skip_tags).serialize(include_node)
}

/// A Markdown serializer for one node.
#[derive(Clone, Copy, Drop)]
pub struct MDSerializer<'a> {
    node: NodeRef<'a>,
    skip_tags: Option<&'a [&'a str]>,
}

impl<'a> MDSerializer<'a> {
    /// Returns a serializer of that node which leaves out elements with those names; with `None`,
    /// it leaves out `script`, `style`, `meta` and `head`.
    pub fn new(node: &NodeRef<'a>, skip_tags: Option<&'a [&'a str]>) -> MDSerializer<'a>
        ensures node { result.node ≡ node.now }
        ensures names { result.skip_tags ≡ skip_tags.entry }
    {
        MDSerializer {
            node: NodeRef::new(node.id, node.tree),
            skip_tags,
        }
    }

    /// Returns the Markdown of what is below the node or, with `include_node`, of the node itself.
    /// Without `include_node`, the Markdown of a node whose children are all texts resolves to the
    /// words of its text. Fails only when memory runs out.
    pub fn serialize(&self, include_node: bool) -> Result<String, OutOfMemory>
        ensures { include_node ≡ false → IfOk result (ReadsAsWords self.now.node.tree.now
            self.now.node.id) }
    {
        let mut writer = Writer::new(self.node.tree, self.skip_tags);
        writer.begin(self.node.id, include_node)?;
        writer.write_all()?;
        Ok(writer.text)
    }
}

/// The state of a serialization: the text so far, and the tasks that remain.
#[derive(Drop)]
struct Writer<'a> {
    tree: &'a Tree,
    skip_tags: Option<&'a [&'a str]>,
    /// The tasks that remain; the last one is the next to run.
    tasks: Vec<Task>,
    /// The text that is being written, behind the pieces of `front`.
    text: String,
    front: Front,
    /// The texts that it will be part of, the outermost first.
    outer: Vec<Level>,
    /// How many items of lists were being written when the text began.
    items_before: usize,
    /// The items of lists that are being written, the outermost first.
    items: Vec<Item>,
    /// The table that is being written. One is enough, since a table with a table below it is not
    /// written as a Markdown table.
    table: Table,
}

impl<'a> Writer<'a> {
    fn new(tree: &'a Tree, skip_tags: Option<&'a [&'a str]>) -> Writer<'a>
        ensures tree { result.tree ≡ tree.entry }
        ensures names { result.skip_tags ≡ skip_tags.entry }
        ensures tasks { result.tasks.items ≡ [] }
        ensures text { string_bytes result.text ≡ [] }
    {
        let alloc = tree.allocator();
        Writer {
            tree,
            skip_tags,
            tasks: Vec::new(alloc),
            text: String::new(alloc),
            front: Front::new(alloc),
            outer: Vec::new(alloc),
            items_before: 0,
            items: Vec::new(alloc),
            table: Table::new(alloc),
        }
    }

    /// Starts with the node or with what is below it. If all children are texts, they are written
    /// at once, as one text.
    fn begin(&mut self, id: NodeId, include_node: bool) -> Result<(), OutOfMemory>
        requires text { string_bytes self.now.text ≡ [] }
        ensures tasks { include_node ≡ false → holds_texts self.old.tree.now id ≡ true →
            self.old.tasks.items ≡ [] → self.new.tasks.items ≡ [] }
        ensures text { include_node ≡ false → holds_texts self.old.tree.now id ≡ true →
            OnOk result (resolved (string_bytes self.new.text)
            ≡ joined_words_of self.old.tree.now id) }
    {
        if include_node {
            self.push(Task::Join)?;
            return self.push(Task::Node {
                id,
                opts: FormatOpts::new().include_node(),
            });
        }
        let node = NodeRef::new(id, self.tree);
        if !holds_texts(&node) {
            return self.push_below(id, FormatOpts::new());
        }
        let text = node.text()?;
        push_words(&mut self.text, text.as_str(), FormatOpts::new(), false)?;
        Ok(())
    }

    /// Runs the tasks until the stack is empty. The bound on the number of steps is one that no
    /// machine counts up to; it makes the loop terminate.
    fn write_all(&mut self) -> Result<(), OutOfMemory>
        ensures { self.old.tasks.items ≡ [] → OnOk result (
            string_bytes self.new.text ≡ string_bytes self.old.text) }
    {
        for _ in 0..u64::MAX {
            let Some(task) = self.tasks.pop() else {
                return Ok(());
            };
            self.step(task)?;
        }
        Ok(())
    }

    /// Runs a task: writes its beginning, and pushes tasks for the rest.
    fn step(&mut self, task: Task) -> Result<(), OutOfMemory> {
        if !self.front.is_empty() && self.looks_at_front(&task) {
            self.join_front()?;
        }
        match task {
            Task::Row { id, opts } => self.write_row(id, opts),
            Task::Node { id, opts } => self.open_node(id, opts),
            Task::Close { id, opts } => self.close_node(id, opts),
            Task::Trim => trim_space(&mut self.text),
            Task::Join => Ok(()),
            Task::EndLine { table_cell } => self.end_line(table_cell),
            Task::EndEmphasis { marker, merged } => self.end_emphasis(marker, merged),
            Task::EndLink { id } => self.end_link(id),
            Task::EndCode { id } => self.end_code(id),
            Task::EndQuote { depth } => self.end_quote(depth),
            Task::NextItem { id, context } => self.next_item(id, context),
            Task::EndList => self.end_list(),
            Task::NextBlock { id } => self.next_block(id),
            Task::EndBlock { heading } => self.end_block(heading),
            Task::EndIndented => self.end_indented(),
            Task::EndItem => self.end_item(),
            Task::NextCell => self.next_cell(),
            Task::EndCell => self.end_cell(),
        }
    }

    /// Pushes a task.
    fn push(&mut self, task: Task) -> Result<(), OutOfMemory> {
        match self.tasks.push(task) {
            Ok(()) => Ok(()),
            Err(_) => Err(OutOfMemory),
        }
    }

    /// Pushes tasks that write what is below the node and then trim the text.
    fn push_below(&mut self, id: NodeId, opts: FormatOpts) -> Result<(), OutOfMemory> {
        self.push(Task::Trim)?;
        self.push_children(id, opts)
    }

    /// Pushes a task that writes what is below the node.
    fn push_children(&mut self, id: NodeId, opts: FormatOpts) -> Result<(), OutOfMemory> {
        let tree = self.tree;
        let Some(node) = tree.tree_node(&id) else {
            return Ok(());
        };
        match node.first_child.get() {
            Some(first) => self.push(Task::Row { id: first, opts }),
            None => Ok(()),
        }
    }

    /// Begins a new text, which will be inserted into the current one.
    fn begin_text(&mut self) -> Result<(), OutOfMemory> {
        let alloc = self.tree.allocator();
        let level = Level {
            front: std::mem::replace(&mut self.front, Front::new(alloc)),
            text: std::mem::replace(&mut self.text, String::new(alloc)),
            items: self.items_before,
        };
        self.items_before = self.items.len();
        match self.outer.push(level) {
            Ok(()) => Ok(()),
            Err(_) => Err(OutOfMemory),
        }
    }

    /// Ends the current text and returns it; the one that it will be inserted into becomes current
    /// again.
    fn end_text(&mut self) -> String {
        let ended = self.end_level();
        ended.text
    }

    /// Ends the text and goes on with the one that it will be part of.
    fn end_level(&mut self) -> Level {
        let alloc = self.tree.allocator();
        let outer = match self.outer.pop() {
            Some(outer) => outer,
            None => Level {
                front: Front::new(alloc),
                text: String::new(alloc),
                items: 0,
            },
        };
        let items = self.items_before;
        self.items_before = outer.items;
        Level {
            front: std::mem::replace(&mut self.front, outer.front),
            text: std::mem::replace(&mut self.text, outer.text),
            items,
        }
    }

    /// Returns whether a task may look further back than to the last letter of the text.
    fn looks_at_front(&self, task: &Task) -> bool {
        match task {
            Task::EndEmphasis { .. } => false,
            Task::Row { .. } | Task::Node { .. } | Task::Close { .. } => {
                !ends_near_letter(self.text.as_str())
            }
            _ => true,
        }
    }

    /// Joins the text and the pieces before it.
    fn join_front(&mut self) -> Result<(), OutOfMemory> {
        let alloc = self.tree.allocator();
        let front = std::mem::replace(&mut self.front, Front::new(alloc));
        let text = std::mem::replace(&mut self.text, String::new(alloc));
        self.text = front.joined(text)?;
        Ok(())
    }

    /// Returns whether elements with that name are left out.
    fn is_skipped(&self, name: &LocalRef<'_>) -> bool {
        match self.skip_tags {
            Some(names) => names.iter().any(|skipped| *skipped == name.as_str()),
            None => is_default_skipped(name),
        }
    }
}
