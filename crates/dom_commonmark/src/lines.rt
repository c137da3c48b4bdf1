//! The lines that are finished, and the prefixes of those that follow.

use crate::line_marks::push_line;
use crate::spans::push_times;
use dom_nodes::fault::OutOfMemory;
use std::alloc::Global;

/// What comes before the next block.
#[derive(Clone, Copy, PartialEq, Eq, Drop)]
enum Gap {
    None,
    /// A blank line, if the next line is that of an empty item, which cannot follow a paragraph.
    Soft,
    Blank,
}

/// Where an item or a quote began.
#[derive(Clone, Copy, Drop)]
pub(crate) struct Beginning {
    /// How many bytes were written.
    written: usize,
    /// The lengths of the prefixes.
    first: usize,
    rest: usize,
}

/// The lines that are finished.
#[derive(Drop)]
pub(crate) struct Lines {
    pub(crate) text: String,
    /// The prefix of the next line, which has the markers of items that begin in it.
    first: String,
    /// The prefix of the later lines.
    rest: String,
    gap: Gap,
    /// The next line is the first of an item.
    pub(crate) is_at_item: bool,
    /// The last line is that of a paragraph in the same item or quote.
    is_after_paragraph: bool,
    /// The marker of a list that ended last.
    after_list: char,
}

impl Lines {
    pub(crate) fn new(alloc: Global) -> Lines {
        Lines {
            text: String::new(alloc),
            first: String::new(alloc),
            rest: String::new(alloc),
            gap: Gap::None,
            is_at_item: false,
            is_after_paragraph: false,
            after_list: ' ',
        }
    }

    /// Returns the text, without the line feeds at its end.
    pub(crate) fn take_text(&mut self, alloc: Global) -> String {
        let end = self.text.as_str().trim_end_matches('\n').len();
        cut(&mut self.text, end);
        std::mem::replace(&mut self.text, String::new(alloc))
    }

    /// Begins a block: writes the blank line before it.
    pub(crate) fn begin_block(&mut self) -> Result<(), OutOfMemory> {
        self.write_gap()?;
        self.is_at_item = false;
        self.is_after_paragraph = false;
        self.after_list = ' ';
        Ok(())
    }

    fn write_gap(&mut self) -> Result<(), OutOfMemory> {
        if self.gap == Gap::Blank {
            self.write_blank()?;
        }
        self.gap = Gap::None;
        Ok(())
    }

    fn write_blank(&mut self) -> Result<(), OutOfMemory> {
        self.text.push_str(self.rest.as_str().trim_end())?;
        Ok(self.text.push('\n')?)
    }

    /// Ends a block: a blank line follows it.
    pub(crate) fn end_block(&mut self) {
        self.gap = Gap::Blank;
    }

    /// Writes a line.
    pub(crate) fn write_line(&mut self, line: &str) -> Result<(), OutOfMemory> {
        self.write_prefix(line.is_empty())?;
        self.text.push_str(line)?;
        Ok(self.text.push('\n')?)
    }

    /// Writes the prefix of a line; before an empty line without the spaces at its end.
    fn write_prefix(&mut self, is_empty: bool) -> Result<(), OutOfMemory> {
        let prefix = self.first.as_str();
        self.text
            .push_str(if is_empty { prefix.trim_end() } else { prefix })?;
        if self.first.as_str() != self.rest.as_str() {
            self.reset_first()?;
        }
        Ok(())
    }

    fn reset_first(&mut self) -> Result<(), OutOfMemory> {
        self.first.clear();
        Ok(self.first.push_str(self.rest.as_str())?)
    }

    /// Writes a paragraph.
    pub(crate) fn write_paragraph(&mut self, text: &str) -> Result<(), OutOfMemory> {
        self.begin_block()?;
        for line in text.split('\n') {
            self.write_text_line(line)?;
        }
        self.is_after_paragraph = true;
        self.end_block();
        Ok(())
    }

    /// Writes a line of a paragraph, so that it begins no other block.
    fn write_text_line(&mut self, line: &str) -> Result<(), OutOfMemory> {
        self.write_prefix(line.is_empty())?;
        push_line(&mut self.text, line)?;
        Ok(self.text.push('\n')?)
    }

    /// Writes a heading. A `#` at its end gets a backslash, since a reader would leave it out.
    pub(crate) fn write_heading(&mut self, level: u8, text: &str) -> Result<(), OutOfMemory> {
        self.begin_block()?;
        self.write_prefix(false)?;
        push_times(&mut self.text, '#', level as usize)?;
        self.text.push(' ')?;
        match text.strip_suffix('#') {
            Some(before) => {
                self.text.push_str(before)?;
                self.text.push_str("\\#")?;
            }
            None => self.text.push_str(text)?,
        }
        self.end_block();
        Ok(self.text.push('\n')?)
    }

    /// Writes a thematic break: at the start of an item or of the text one of underscores, since
    /// dashes would make one of the item's line, and front matter of the text.
    pub(crate) fn write_rule(&mut self) -> Result<(), OutOfMemory> {
        let rule = if self.is_at_item || self.text.is_empty() {
            "___"
        } else {
            "---"
        };
        self.begin_block()?;
        self.write_line(rule)?;
        self.end_block();
        Ok(())
    }

    /// Returns the character after the numbers of a new list: one that does not join it to the list
    /// before.
    pub(crate) fn stop(&self) -> char {
        if self.after_list == '.' { ')' } else { '.' }
    }

    /// Returns the marker of a new list in one with that marker: the wanted one, unless it would
    /// join the list to the one before it, or make a thematic break of the markers in the line.
    pub(crate) fn bullet(&self, wanted: char, outer: char) -> char {
        if self.is_free(wanted, outer) {
            return wanted;
        }
        if self.is_free('-', outer) {
            return '-';
        }
        if self.is_free('*', outer) {
            return '*';
        }
        '+'
    }

    fn is_free(&self, marker: char, outer: char) -> bool {
        if marker == self.after_list {
            return false;
        }
        !self.is_at_item || marker != outer
    }

    /// Begins a list. If it may follow a paragraph directly, there is no blank line between.
    pub(crate) fn begin_list(&mut self, is_direct: bool) {
        if is_direct && self.is_after_paragraph && self.gap == Gap::Blank {
            self.gap = Gap::Soft;
        }
    }

    /// Decides whether a blank line is between two items.
    pub(crate) fn part_items(&mut self, is_loose: bool) {
        self.gap = if is_loose { Gap::Blank } else { Gap::None };
    }

    /// Begins an item with this marker.
    pub(crate) fn begin_item(&mut self, marker: &str) -> Result<Beginning, OutOfMemory> {
        if self.gap == Gap::Blank {
            self.write_gap()?;
        }
        let beginning = self.beginning();
        self.first.push_str(marker)?;
        push_times(&mut self.rest, ' ', marker.len())?;
        self.is_at_item = true;
        self.is_after_paragraph = false;
        self.after_list = ' ';
        Ok(beginning)
    }

    fn beginning(&self) -> Beginning {
        Beginning {
            written: self.text.len(),
            first: self.first.len(),
            rest: self.rest.len(),
        }
    }

    /// Ends an item; one without content is a line with its marker alone.
    pub(crate) fn end_item(&mut self, beginning: Beginning) -> Result<(), OutOfMemory> {
        if self.text.len() <= beginning.written {
            if self.gap == Gap::Soft {
                self.write_blank()?;
            }
            self.write_line("")?;
        }
        self.gap = Gap::None;
        self.is_at_item = false;
        self.is_after_paragraph = false;
        cut(&mut self.rest, beginning.rest);
        self.reset_first()
    }

    /// Ends a list.
    pub(crate) fn end_list(&mut self, marker: char) {
        self.after_list = marker;
        self.end_block();
    }

    /// Begins a quote.
    pub(crate) fn begin_quote(&mut self) -> Result<Beginning, OutOfMemory> {
        self.begin_block()?;
        let beginning = self.beginning();
        self.first.push_str("> ")?;
        self.rest.push_str("> ")?;
        Ok(beginning)
    }

    /// Ends a quote; nothing is written for one without content.
    pub(crate) fn end_quote(&mut self, beginning: Beginning) -> Result<(), OutOfMemory> {
        cut(&mut self.rest, beginning.rest);
        self.is_after_paragraph = false;
        if self.text.len() <= beginning.written {
            cut(&mut self.first, beginning.first);
            return Ok(());
        }
        self.after_list = ' ';
        self.end_block();
        self.reset_first()
    }

    /// Writes a code block: a fence, the lines of the code, and a fence.
    pub(crate) fn write_code(
        &mut self,
        fence: &str,
        language: &str,
        code: &str,
    ) -> Result<(), OutOfMemory> {
        self.begin_block()?;
        self.write_prefix(false)?;
        self.text.push_str(fence)?;
        self.text.push_str(language)?;
        self.text.push('\n')?;
        for line in code.split('\n') {
            self.write_line(line)?;
        }
        self.end_block();
        self.write_line(fence)
    }
}

/// Removes a text from this index on, if a character begins there.
pub(crate) fn cut(text: &mut String, end: usize) {
    if text.is_char_boundary(end) {
        text.truncate(end);
    }
}
