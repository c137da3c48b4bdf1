//! Blocks, headings and quotes.

use crate::flanks::MarkKind;
use crate::inlines::Flow;
use crate::lines::Beginning;
use crate::tags::Tag;
use crate::writer::{MAX_DEPTH, Task, Writer};
use dom_nodes::fault::OutOfMemory;
use dom_nodes::node_id::NodeId;

impl<'a> Writer<'a> {
    pub(super) fn open_block(&mut self, id: NodeId, tag: Tag) -> Result<(), OutOfMemory> {
        if self.inlines.flow != Flow::Lines {
            return self.open_flat(id, tag);
        }
        self.end_paragraph()?;
        if tag != Tag::Block {
            self.inlines.drop_box();
        }
        match tag {
            Tag::Heading(level) => self.begin_heading(id, level),
            Tag::Quote => self.begin_quote(id),
            Tag::UnorderedList | Tag::OrderedList => self.begin_list(id, tag),
            Tag::Preformatted => self.write_preformatted(id),
            Tag::Rule => self.lines.write_rule(),
            Tag::Table => self.begin_table(id),
            Tag::Term => self.begin_term(id),
            _ => self.begin_plain(id),
        }
    }

    /// Begins a block in a heading or a cell, which is a break there.
    fn open_flat(&mut self, id: NodeId, tag: Tag) -> Result<(), OutOfMemory> {
        if self.table.is_between_cells {
            match tag {
                Tag::Row => return self.begin_row(id),
                Tag::Cell => return self.begin_cell(id),
                Tag::Caption => return Ok(()),
                _ => {}
            }
        }
        self.inlines.push_block_break();
        if tag == Tag::Preformatted {
            return self.write_flat_code(id);
        }
        self.begin_plain(id)
    }

    /// Begins a block for which nothing is written but its contents.
    pub(super) fn begin_plain(&mut self, id: NodeId) -> Result<(), OutOfMemory> {
        self.push(Task::EndBlock)?;
        self.push_children(id)
    }

    /// Begins the term of a description list, as a paragraph in bold.
    fn begin_term(&mut self, id: NodeId) -> Result<(), OutOfMemory> {
        self.push(Task::EndBlock)?;
        self.begin_mark(id, MarkKind::Strong)
    }

    pub(super) fn end_block(&mut self) -> Result<(), OutOfMemory> {
        if self.inlines.flow == Flow::Lines {
            return self.end_paragraph();
        }
        self.inlines.push_block_break();
        Ok(())
    }

    /// Writes the paragraph that was collected, if it isn't empty.
    pub(super) fn end_paragraph(&mut self) -> Result<(), OutOfMemory> {
        self.inlines.finish()?;
        if self.inlines.line.is_empty() {
            return Ok(());
        }
        self.lines.write_paragraph(self.inlines.line.as_str())?;
        self.inlines.line.clear();
        Ok(())
    }

    fn begin_heading(&mut self, id: NodeId, level: u8) -> Result<(), OutOfMemory> {
        self.inlines.flow = Flow::Heading;
        self.push(Task::EndHeading { level })?;
        self.push_children(id)
    }

    pub(super) fn end_heading(&mut self, level: u8) -> Result<(), OutOfMemory> {
        self.inlines.finish()?;
        self.inlines.flow = Flow::Lines;
        if self.inlines.line.is_empty() {
            return Ok(());
        }
        self.lines.write_heading(level, self.inlines.line.as_str())?;
        self.inlines.line.clear();
        Ok(())
    }

    fn begin_quote(&mut self, id: NodeId) -> Result<(), OutOfMemory> {
        if self.depth >= MAX_DEPTH {
            return self.begin_plain(id);
        }
        self.depth = self.depth.saturating_add(1);
        let beginning = self.lines.begin_quote()?;
        self.push(Task::EndQuote { beginning })?;
        self.push_children(id)
    }

    pub(super) fn end_quote(&mut self, beginning: Beginning) -> Result<(), OutOfMemory> {
        self.end_paragraph()?;
        self.depth = self.depth.saturating_sub(1);
        self.lines.end_quote(beginning)
    }
}
