//! The content of a block that is being written: a line of text with marks, links, images and code.

use crate::addresses::{Target, push_image, push_target, target_of};
use crate::escaping::{Place, push_escaped};
use crate::flanks::{Mark, MarkKind, is_letter_like, is_punctuation_like};
use crate::spans::push_span;
use dom_nodes::fault::OutOfMemory;
use dom_nodes::node_id::NodeId;
use dom_trees::node_ref::NodeRef;
use dom_trees::tree::Tree;
use std::alloc::Global;

/// Where a text stands, which decides what a break or a block in it becomes.
#[derive(Clone, Copy, PartialEq, Eq, Drop)]
pub(crate) enum Flow {
    /// In a block of its own, with breaks of lines.
    Lines,
    /// In a heading, without breaks.
    Heading,
    /// In the cell of a table, with `<br>` as breaks.
    Cell,
}

/// The content of a block.
#[derive(Drop)]
pub(crate) struct Inlines<'a> {
    tree: &'a Tree,
    pub(crate) flow: Flow,
    /// What is finished.
    pub(crate) line: String,
    /// The text, or the code, that comes next and is not written yet.
    text: String,
    text_is_code: bool,
    /// The whitespace after that text.
    space: String,
    /// How many breaks are after it; no more than two are counted.
    breaks: u8,
    /// The marks around the place that was reached, the outermost first.
    marks: Vec<Mark>,
    /// Those around the text.
    opened: Vec<Mark>,
    is_in_code: bool,
    /// The last character that is not whitespace; a space where a line begins.
    last: char,
    /// Marks, breaks or code began or ended after the text.
    is_changed: bool,
    /// How many stars are directly before the place that was reached, if the first of them end a
    /// mark.
    run: u8,
    /// The box of a task, which is written before the text that comes next.
    task_box: Option<&'static str>,
}

/// A reader takes three stars as the end of one mark and the beginning of another. Longer runs, and
/// those of two, it may read otherwise.
const FULL_RUN: u8 = 3;

impl<'a> Inlines<'a> {
    pub(crate) fn new(alloc: Global, tree: &'a Tree) -> Inlines<'a> {
        Inlines {
            tree,
            flow: Flow::Lines,
            line: String::new(alloc),
            text: String::new(alloc),
            text_is_code: false,
            space: String::new(alloc),
            breaks: 0,
            marks: Vec::new(alloc),
            opened: Vec::new(alloc),
            is_in_code: false,
            last: ' ',
            is_changed: false,
            run: 0,
            task_box: None,
        }
    }

    /// Appends a text of the page.
    pub(crate) fn push_text(&mut self, text: &str) -> Result<(), OutOfMemory> {
        let mut rest = text;
        for _ in 0..text.len() {
            if rest.is_empty() {
                return Ok(());
            }
            let Some((run, behind)) = rest.split_at_checked(run_length(rest.as_bytes())) else {
                return Ok(());
            };
            self.push_run(run)?;
            rest = self.push_next(behind)?;
        }
        Ok(())
    }

    /// Appends words with one space between them.
    fn push_run(&mut self, run: &str) -> Result<(), OutOfMemory> {
        let Some(first) = run.chars().next() else {
            return Ok(());
        };
        self.push_char(first)?;
        let Some(rest) = run.get(first.len_utf8()..) else {
            return Ok(());
        };
        if !self.is_in_code && !rest.is_empty() {
            self.last = last_char(rest);
        }
        Ok(self.text.push_str(rest)?)
    }

    /// Appends the next character of a text, or the ASCII whitespace that it begins with. Returns
    /// the rest of the text.
    fn push_next<'t>(&mut self, text: &'t str) -> Result<&'t str, OutOfMemory> {
        let Some(next) = text.chars().next() else {
            return Ok(text);
        };
        if next.is_ascii_whitespace() {
            self.push_space(' ')?;
            return Ok(text.trim_ascii_start());
        }
        if next.is_whitespace() {
            self.push_space(next)?;
        } else {
            self.push_char(next)?;
        }
        Ok(text.get(next.len_utf8()..).unwrap_or(""))
    }

    /// Appends whitespace, which is written once something visible follows. A run of ASCII
    /// whitespace becomes one space.
    fn push_space(&mut self, c: char) -> Result<(), OutOfMemory> {
        if self.last == ' ' || self.breaks > 0 {
            return Ok(());
        }
        if !c.is_ascii() {
            return Ok(self.space.push(c)?);
        }
        if !self.space.as_str().ends_with(' ') {
            self.space.push(' ')?;
        }
        Ok(())
    }

    fn push_char(&mut self, c: char) -> Result<(), OutOfMemory> {
        if self.is_in_code {
            self.go_on('`')?;
            self.last = '`';
            return Ok(self.text.push(c)?);
        }
        let must_name = self.go_on(c)?;
        if must_name {
            self.last = ';';
            return self.push_named(c);
        }
        self.last = c;
        Ok(self.text.push(c)?)
    }

    /// Appends a character as a reference, which a reader takes as punctuation where it decides on
    /// emphasis.
    fn push_named(&mut self, c: char) -> Result<(), OutOfMemory> {
        let code = u32::from(c);
        let alloc = *self.line.allocator();
        let name = format!(in alloc; "&#{code};")?;
        Ok(self.line.push_str(name.as_str())?)
    }

    /// Writes the whitespace, the breaks and the marks before the next character. Returns whether
    /// that character must be written as a reference, so that the marks before it are read.
    fn go_on(&mut self, next: char) -> Result<bool, OutOfMemory> {
        if self.is_changed {
            self.is_changed = false;
            return self.change(next);
        }
        if !self.space.is_empty() {
            self.text.push_str(self.space.as_str())?;
            self.space.clear();
        }
        Ok(false)
    }

    /// Writes what changed before the next character.
    fn change(&mut self, next: char) -> Result<bool, OutOfMemory> {
        self.write_box()?;
        self.settle_breaks()?;
        let kept = self.kept_marks();
        let begins_link = self.begins_link(kept);
        let is_joined = self.space.is_empty() && self.breaks == 0;
        let hides = is_joined && self.hides_marks(kept, self.next_outside(kept, next));
        let is_same_text = self.text_is_code == self.is_in_code && self.breaks == 0;
        if is_same_text && !self.writes_marks(kept, hides) {
            self.opened.truncate(kept);
            self.open_marks(kept, hides)?;
            self.text.push_str(self.space.as_str())?;
            self.space.clear();
            return Ok(false);
        }
        self.flush_text(is_joined && begins_link)?;
        self.text_is_code = false;
        let is_open = self.close_marks(kept)?;
        if !is_joined {
            self.run = 0;
        }
        self.push_gap()?;
        let is_apart = self.open_marks(kept, hides)?;
        self.set_text_kind()?;
        if !is_open || !is_joined || is_apart || begins_link {
            return Ok(false);
        }
        Ok(is_letter_like(next))
    }

    /// Makes what is collected from here on code, if the place that was reached is in code.
    fn set_text_kind(&mut self) -> Result<(), OutOfMemory> {
        if self.is_in_code {
            self.flush_text(false)?;
            self.text_is_code = true;
        }
        Ok(())
    }

    /// Breaks at the start of a block are left out; in a heading they are spaces.
    fn settle_breaks(&mut self) -> Result<(), OutOfMemory> {
        if self.breaks == 0 {
            return Ok(());
        }
        self.space.clear();
        if self.is_empty() || self.last == ' ' {
            self.breaks = 0;
            return Ok(());
        }
        if self.flow == Flow::Heading {
            self.breaks = 0;
            self.space.push(' ')?;
        }
        Ok(())
    }

    /// Returns how many of the marks around the text are also around the place that was reached.
    fn kept_marks(&self) -> usize {
        // No mark reaches over an empty line.
        if self.breaks > 1 && self.flow == Flow::Lines {
            return 0;
        }
        for at in 0..self.opened.len() {
            if !self.keeps_mark(at) {
                return at;
            }
        }
        self.opened.len()
    }

    /// Returns whether the mark of that index around the text goes on. One that was left out begins
    /// anew after whitespace.
    fn keeps_mark(&self, at: usize) -> bool {
        let Some(opened) = self.opened.get(at) else {
            return false;
        };
        let Some(mark) = self.marks.get(at) else {
            return false;
        };
        if opened.is_hidden && !self.space.is_empty() {
            return false;
        }
        opened.is_same(mark)
    }

    /// Returns what follows the first mark from an index on: that character, or a mark that a
    /// reader takes as punctuation. It looks past the mark of strikethrough, but not past others.
    fn next_outside(&self, kept: usize, next: char) -> char {
        let begins_marks = self.marks.len().saturating_sub(kept) > 1;
        if self.begins_link(kept) || (begins_marks && self.has_mark(MarkKind::Strike)) {
            return '[';
        }
        next
    }

    fn begins_link(&self, kept: usize) -> bool {
        for at in kept..self.marks.len() {
            if let Some(mark) = self.marks.get(at) {
                if mark.kind == MarkKind::Link {
                    return true;
                }
            }
        }
        false
    }

    /// Returns whether marks directly after the text are left out. If punctuation follows, a reader
    /// would not take them as beginnings, or would take them as ends of the marks around.
    fn hides_marks(&self, kept: usize, next: char) -> bool {
        if !is_punctuation_like(next) {
            return self.ends_outer(kept);
        }
        if is_letter_like(self.last) {
            return true;
        }
        if self.last == ' ' {
            return false;
        }
        self.are_written(0, kept)
    }

    /// Returns whether a reader would take stars that begin here as the end of a mark around them.
    /// It does so between two letters, if the stars of that mark begin in a run with others. It
    /// looks past the ends of strikethrough.
    fn ends_outer(&self, kept: usize) -> bool {
        if self.new_stars(kept) == 0 || !is_letter_like(self.last) {
            return false;
        }
        for at in kept..self.opened.len() {
            if let Some(mark) = self.opened.get(at) {
                if mark.kind != MarkKind::Strike && !mark.is_hidden {
                    return false;
                }
            }
        }
        for at in 0..kept {
            if let Some(mark) = self.opened.get(at) {
                if mark.is_in_run && !mark.is_hidden {
                    return true;
                }
            }
        }
        false
    }

    /// Returns how many of the marks from an index on have stars.
    fn new_stars(&self, kept: usize) -> usize {
        let mut count: usize = 0;
        for at in kept..self.marks.len() {
            if let Some(mark) = self.marks.get(at) {
                if mark.kind.stars() > 0 {
                    count = count.saturating_add(1);
                }
            }
        }
        count
    }

    /// Returns whether a mark is written where those from an index on end.
    fn ends_marks(&self, kept: usize) -> bool {
        self.are_written(kept, self.opened.len())
    }

    /// Returns whether one of these marks around the text isn't left out.
    fn are_written(&self, from: usize, to: usize) -> bool {
        for at in from..to {
            if let Some(mark) = self.opened.get(at) {
                if !mark.is_hidden {
                    return true;
                }
            }
        }
        false
    }

    /// Returns whether a mark is written between the text and what follows.
    fn writes_marks(&self, kept: usize, hides: bool) -> bool {
        if self.ends_marks(kept) {
            return true;
        }
        self.begins_marks(kept, hides)
    }

    /// Returns whether a mark is written where those from an index on begin.
    fn begins_marks(&self, kept: usize, hides: bool) -> bool {
        if kept >= self.marks.len() {
            return false;
        }
        if !hides {
            return true;
        }
        self.begins_link(kept)
    }

    /// Writes the text that was collected.
    fn flush_text(&mut self, before_link: bool) -> Result<(), OutOfMemory> {
        if self.text.is_empty() {
            return Ok(());
        }
        let cell = self.flow == Flow::Cell;
        if self.text_is_code {
            push_span(&mut self.line, self.text.as_str(), cell)?;
        } else {
            push_escaped(
                &mut self.line,
                self.text.as_str(),
                Place { cell, before_link },
            )?;
        }
        self.text.clear();
        Ok(())
    }

    /// Writes the ends of the marks from an index on, the innermost first. Returns whether the
    /// outermost of them follows punctuation, so that a reader takes it as an end only where no
    /// letter follows.
    fn close_marks(&mut self, kept: usize) -> Result<bool, OutOfMemory> {
        let mut is_open = false;
        let mut is_after_mark = false;
        let mut is_after_strike = false;
        self.run = 0;
        for _ in 0..self.opened.len() {
            if self.opened.len() <= kept {
                return Ok(is_open);
            }
            let Some(mark) = self.opened.pop() else {
                return Ok(is_open);
            };
            if mark.kind == MarkKind::Link {
                self.end_link(mark.id)?;
                self.run = 0;
                is_open = false;
                is_after_strike = false;
            } else if !mark.is_hidden {
                self.line.push_str(mark.kind.as_str())?;
                self.run = self.run_with(mark.kind, is_after_strike);
                is_after_strike = mark.kind == MarkKind::Strike;
                if is_after_mark || is_punctuation_like(self.last) {
                    is_open = true;
                }
                is_after_mark = true;
            }
        }
        Ok(is_open)
    }

    fn end_link(&mut self, id: NodeId) -> Result<(), OutOfMemory> {
        let node = NodeRef::new(id, self.tree);
        self.last = ')';
        self.line.push(']')?;
        push_target(&mut self.line, target_of(&node, self.flow == Flow::Cell))
    }

    /// Writes the breaks, or else the whitespace.
    fn push_gap(&mut self) -> Result<(), OutOfMemory> {
        if self.breaks == 0 {
            self.text.push_str(self.space.as_str())?;
            self.space.clear();
            return Ok(());
        }
        let text = match self.flow {
            Flow::Cell => "<br>",
            _ if self.breaks == 1 => "\\\n",
            _ => "\n\n",
        };
        self.breaks = 0;
        self.last = ' ';
        Ok(self.line.push_str(text)?)
    }

    /// Writes the beginnings of the marks from an index on. Returns whether stars begin that aren't
    /// directly after stars.
    fn open_marks(&mut self, kept: usize, hides: bool) -> Result<bool, OutOfMemory> {
        let mut hides = hides;
        let mut is_apart = false;
        let is_in_run = self.run > 0 || self.new_stars(kept) > 1;
        for at in kept..self.marks.len() {
            let Some(found) = self.marks.get(at) else {
                return Ok(is_apart);
            };
            let mut mark = *found;
            if mark.kind == MarkKind::Link {
                hides = false;
            }
            mark.is_hidden = hides || self.is_run_full(mark.kind);
            mark.is_in_run = is_in_run;
            if !mark.is_hidden {
                if mark.kind.stars() > 0 && self.run == 0 {
                    is_apart = true;
                }
                self.begin_mark(mark.kind)?;
            }
            push_mark(&mut self.opened, mark)?;
        }
        Ok(is_apart)
    }

    fn begin_mark(&mut self, kind: MarkKind) -> Result<(), OutOfMemory> {
        self.flush_text(kind == MarkKind::Link)?;
        if self.run > 0 {
            self.run = if kind.stars() > 0 { FULL_RUN } else { 0 };
        }
        Ok(self.line.push_str(kind.as_str())?)
    }

    /// Returns whether the mark doesn't fit into the run of stars that is before it.
    fn is_run_full(&self, kind: MarkKind) -> bool {
        let stars = kind.stars();
        if stars == 0 || self.run == 0 {
            return false;
        }
        self.run.saturating_add(stars) != FULL_RUN
    }

    /// Returns how many stars are in the run after the end of a mark. Directly after the end of
    /// strikethrough no mark begins in it.
    fn run_with(&self, kind: MarkKind, is_after_strike: bool) -> u8 {
        let stars = kind.stars();
        if stars == 0 {
            return 0;
        }
        if is_after_strike {
            return FULL_RUN;
        }
        self.run.saturating_add(stars)
    }

    /// Puts a mark around what follows. Returns whether it was not there before.
    pub(crate) fn put_mark(&mut self, kind: MarkKind, id: NodeId) -> Result<bool, OutOfMemory> {
        if self.has_mark(kind) {
            return Ok(false);
        }
        self.is_changed = true;
        let mark = Mark {
            kind,
            id,
            is_hidden: false,
            is_in_run: false,
        };
        push_mark(&mut self.marks, mark)?;
        Ok(true)
    }

    pub(crate) fn has_mark(&self, kind: MarkKind) -> bool {
        for mark in &self.marks {
            if mark.kind == kind {
                return true;
            }
        }
        false
    }

    /// Ends the innermost mark.
    pub(crate) fn drop_mark(&mut self) {
        self.marks.pop();
        self.is_changed = true;
    }

    /// What follows is code, or is not.
    pub(crate) fn set_code(&mut self, is_in_code: bool) {
        self.is_in_code = is_in_code;
        self.is_changed = true;
    }

    pub(crate) fn is_in_code(&self) -> bool {
        self.is_in_code
    }

    /// Appends a break, which is written once something visible follows.
    pub(crate) fn push_break(&mut self) {
        self.breaks = if self.breaks == 0 { 1 } else { 2 };
        self.is_changed = true;
    }

    /// Appends a break unless there is one.
    pub(crate) fn push_block_break(&mut self) {
        if self.breaks == 0 {
            self.push_break();
        }
    }

    /// Appends an image with these words.
    pub(crate) fn push_image(
        &mut self,
        words: &str,
        target: Target<'_>,
    ) -> Result<(), OutOfMemory> {
        // Code ends before it, and goes on in a span of its own.
        let is_in_code = self.is_in_code;
        self.set_code(false);
        self.go_on('!')?;
        self.flush_text(false)?;
        self.last = ')';
        self.set_code(is_in_code);
        push_image(&mut self.line, words, target)
    }

    /// Appends an address that is its own link.
    pub(crate) fn push_autolink(&mut self, address: &str) -> Result<(), OutOfMemory> {
        self.is_changed = true;
        self.go_on('<')?;
        self.flush_text(false)?;
        self.last = '>';
        self.line.push('<')?;
        self.line.push_str(address)?;
        Ok(self.line.push('>')?)
    }

    /// Puts the box of a task before the text that comes next.
    pub(crate) fn put_box(&mut self, is_checked: bool) {
        self.task_box = Some(if is_checked { "[x] " } else { "[ ] " });
        self.is_changed = true;
    }

    /// No text comes that a box can stand before.
    pub(crate) fn drop_box(&mut self) {
        self.task_box = None;
    }

    fn write_box(&mut self) -> Result<(), OutOfMemory> {
        let Some(task_box) = self.task_box else {
            return Ok(());
        };
        self.task_box = None;
        self.space.clear();
        self.last = ' ';
        Ok(self.line.push_str(task_box)?)
    }

    /// Returns whether nothing is written yet.
    pub(crate) fn is_empty(&self) -> bool {
        if !self.line.is_empty() {
            return false;
        }
        self.text.is_empty()
    }

    /// Ends the block: what is written is whole, and whitespace and breaks at its end are left out.
    /// The marks go on in the next block.
    pub(crate) fn finish(&mut self) -> Result<(), OutOfMemory> {
        self.flush_text(false)?;
        self.close_marks(0)?;
        self.space.clear();
        self.breaks = 0;
        self.last = ' ';
        self.is_changed = true;
        Ok(())
    }
}

/// Returns how many bytes at the start of a text are those of words with one space between them. A
/// character that may be whitespace and isn't ASCII ends them.
fn run_length(bytes: &[u8]) -> usize {
    let mut spaces: usize = 1;
    for at in 0..bytes.len() {
        let byte = bytes[at];
        if is_in_word(byte) {
            spaces = 0;
        } else if byte == b' ' && spaces == 0 {
            spaces = 1;
        } else {
            return at.saturating_sub(spaces);
        }
    }
    bytes.len().saturating_sub(spaces)
}

/// Returns whether a byte belongs to a character that is no whitespace. The characters of Unicode
/// that are whitespace begin with the bytes 0xC2, 0xE1, 0xE2 and 0xE3.
fn is_in_word(byte: u8) -> bool {
    if byte < 0xC2 {
        return byte > b' ';
    }
    byte != 0xC2 && !(0xE1..=0xE3).contains(&byte)
}

/// Returns the last character of a text; a space if there is none.
fn last_char(text: &str) -> char {
    match text.as_bytes().last() {
        Some(byte) if byte.is_ascii() => char::from(*byte),
        _ => text.chars().next_back().unwrap_or(' '),
    }
}

fn push_mark(marks: &mut Vec<Mark>, mark: Mark) -> Result<(), OutOfMemory> {
    match marks.push(mark) {
        Ok(()) => Ok(()),
        Err(_) => Err(OutOfMemory),
    }
}
