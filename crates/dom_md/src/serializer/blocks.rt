//! Blocks, headings, breaks and rules, and the dispatch to the other kinds of elements.

use crate::context::FormatOpts;
use crate::serializer::Writer;
use crate::serializer::names::{Tag, tag_of};
use crate::serializer::nodes::{can_interrupt_paragraph, local_name};
use crate::serializer::tables::add_cell_break;
use crate::serializer::tasks::{Marker, Task};
use crate::serializer::texts::{
    add_linebreaks, escape_closing_hashes, push_block_space, push_text, trim_end_spaces,
};
use dom_nodes::fault::OutOfMemory;
use dom_nodes::name::LocalRef;
use dom_nodes::node_data::NodeData;
use dom_nodes::node_id::NodeId;
use dom_trees::node_ref::NodeRef;

impl<'a> Writer<'a> {
    /// Writes a node and pushes a task for its later siblings. Text nodes at the front are written
    /// at once.
    pub(super) fn write_row(&mut self, id: NodeId, opts: FormatOpts) -> Result<(), OutOfMemory> {
        let tree = self.tree;
        let mut at = id;
        for _ in 0..u64::MAX {
            let Some(node) = tree.tree_node(&at) else {
                return Ok(());
            };
            let NodeData::Text { contents } = &node.content else {
                if let Some(next) = node.next_sibling.get() {
                    self.push(Task::Row { id: next, opts })?;
                }
                return self.open_node(at, opts);
            };
            push_text(&mut self.text, contents.as_str(), opts)?;
            let Some(next) = node.next_sibling.get() else {
                return Ok(());
            };
            at = next;
        }
        Ok(())
    }

    /// Writes the beginning of a node, and pushes tasks for the rest of it.
    pub(super) fn open_node(&mut self, id: NodeId, opts: FormatOpts) -> Result<(), OutOfMemory> {
        let tree = self.tree;
        let Some(node) = tree.tree_node(&id) else {
            return Ok(());
        };
        match &node.content {
            NodeData::Text { contents } => push_text(&mut self.text, contents.as_str(), opts),
            NodeData::Element(element) => self.open_element(id, &element.name().local(), opts),
            _ => Ok(()),
        }
    }

    fn open_element(
        &mut self,
        id: NodeId,
        name: &LocalRef<'_>,
        opts: FormatOpts,
    ) -> Result<(), OutOfMemory> {
        if self.is_skipped(name) {
            return Ok(());
        }
        if opts.skip_md {
            return self.push_plain(id, tag_of(name), opts);
        }
        let tag = tag_of(name);
        self.begin_block(id, tag, opts)?;
        self.write_element(id, tag, opts)
    }

    /// Separates an element from the text before it and writes its prefix.
    fn begin_block(&mut self, id: NodeId, tag: Tag, opts: FormatOpts) -> Result<(), OutOfMemory> {
        if opts.link_body {
            if tag.is_link_block() {
                push_block_space(&mut self.text)?;
            }
            return Ok(());
        }
        if !tag.is_block() {
            return Ok(());
        }
        self.begin_lines(id, tag, opts)?;
        Ok(self.text.push_str(tag.prefix())?)
    }

    fn begin_lines(&mut self, id: NodeId, tag: Tag, opts: FormatOpts) -> Result<(), OutOfMemory> {
        if opts.table_cell {
            return add_cell_break(&mut self.text);
        }
        // A blank line before a list in an item would make the outer list loose, with paragraphs in
        // its items.
        let is_tight = opts.list_item
            && tag.is_list()
            && can_interrupt_paragraph(&NodeRef::new(id, self.tree));
        let end = if is_tight { "\n" } else { "\n\n" };
        add_linebreaks(&mut self.text, end)
    }

    fn write_element(&mut self, id: NodeId, tag: Tag, opts: FormatOpts) -> Result<(), OutOfMemory> {
        match tag {
            Tag::Link => self.begin_link(id),
            Tag::Image => self.write_image(id),
            Tag::Preformatted => self.write_preformatted(id, opts),
            Tag::Code => self.begin_code(id, opts),
            Tag::Strong => self.begin_emphasis(id, Marker::Strong, opts),
            Tag::Emphasis => self.begin_emphasis(id, Marker::Light, opts),
            _ if opts.link_body => self.push_plain(id, tag, opts),
            Tag::UnorderedList | Tag::OrderedList => self.begin_list(id, tag, opts),
            Tag::Quote => self.begin_quote(id),
            Tag::Table => self.begin_table(id),
            _ => self.push_plain(id, tag, opts),
        }
    }

    /// Pushes tasks for what is below an element, and for its end if that may need text.
    fn push_plain(&mut self, id: NodeId, tag: Tag, opts: FormatOpts) -> Result<(), OutOfMemory> {
        if tag.has_end() {
            self.push(Task::Close { id, opts })?;
        }
        self.push_children(id, opts)
    }

    /// Writes the end of an element.
    pub(super) fn close_node(&mut self, id: NodeId, opts: FormatOpts) -> Result<(), OutOfMemory> {
        let Some(name) = &local_name(&NodeRef::new(id, self.tree)) else {
            return Ok(());
        };
        let double = if opts.table_cell { "<br><br>" } else { "\n\n" };
        if self.text.as_str().ends_with(double) {
            return Ok(());
        }
        let tag = tag_of(name);
        if opts.link_body && tag.is_link_block() {
            return push_block_space(&mut self.text);
        }
        if opts.skip_md {
            return self.close_plain(tag);
        }
        self.close_block(tag, opts)
    }

    /// Writes the end of an element where no Markdown is written: a space for a `br`.
    fn close_plain(&mut self, tag: Tag) -> Result<(), OutOfMemory> {
        if tag == Tag::Break && !self.text.as_str().ends_with(' ') {
            self.text.push(' ')?;
        }
        Ok(())
    }

    fn close_block(&mut self, tag: Tag, opts: FormatOpts) -> Result<(), OutOfMemory> {
        if tag.is_heading() {
            escape_closing_hashes(&mut self.text)?;
        }
        if tag.is_block() {
            if opts.table_cell {
                return add_cell_break(&mut self.text);
            }
            return add_linebreaks(&mut self.text, "\n\n");
        }
        match tag {
            Tag::Break | Tag::Item | Tag::TableRow => self.break_line(opts),
            _ => Ok(()),
        }
    }

    /// Writes a line break within a block.
    fn break_line(&mut self, opts: FormatOpts) -> Result<(), OutOfMemory> {
        trim_end_spaces(&mut self.text);
        if opts.link_body {
            return Ok(self.text.push_str("<br>")?);
        }
        self.text.push_str("  ")?;
        self.end_line(opts.table_cell)
    }

    /// Ends a line.
    pub(super) fn end_line(&mut self, table_cell: bool) -> Result<(), OutOfMemory> {
        Ok(self.text.push_str(if table_cell { "<br>" } else { "\n" })?)
    }
}
