//! Preformatted text, as fenced code blocks.

use crate::spans::{longest_run, push_times};
use crate::tags::{Tag, is_block_tag, tag_named, tag_of};
use crate::writer::Writer;
use dom_nodes::fault::OutOfMemory;
use dom_nodes::node_data::NodeData;
use dom_nodes::node_id::NodeId;
use dom_trees::node_ref::NodeRef;
use std::alloc::Global;

impl<'a> Writer<'a> {
    /// Writes a code block; nothing for one without content.
    pub(super) fn write_preformatted(&mut self, id: NodeId) -> Result<(), OutOfMemory> {
        let node = NodeRef::new(id, self.tree);
        let content = content_of(self.alloc, &node)?;
        let code = without_end(content.as_str());
        if code.trim_ascii().is_empty() {
            return Ok(());
        }
        let fence_char = self.options.fence.as_char();
        let longest = longest_run(code, if fence_char == '`' { b'`' } else { b'~' });
        let mut fence = String::new(self.alloc);
        push_times(&mut fence, fence_char, longest.saturating_add(1).max(3))?;
        self.lines
            .write_code(fence.as_str(), language_of(&node), code)
    }

    /// Writes preformatted text in a heading or a cell: each line is a code span.
    pub(super) fn write_flat_code(&mut self, id: NodeId) -> Result<(), OutOfMemory> {
        let content = content_of(self.alloc, &NodeRef::new(id, self.tree))?;
        let was_in_code = self.inlines.is_in_code();
        self.inlines.set_code(true);
        for line in content.as_str().split('\n') {
            self.inlines.push_text(line)?;
            self.inlines.push_block_break();
        }
        self.inlines.set_code(was_in_code);
        Ok(())
    }
}

/// Returns the text without a line feed at its end.
fn without_end(text: &str) -> &str {
    match text.strip_suffix('\n') {
        Some(before) => before,
        None => text,
    }
}

/// A step of the walk through preformatted text.
#[derive(Clone, Copy)]
enum Step {
    Begin(NodeId),
    End(NodeId),
}

/// The text of preformatted text, as far as it was read.
#[derive(Drop)]
struct Content {
    text: String,
    /// A block began or ended after the text.
    is_parted: bool,
    /// How many blocks are around the place that was reached.
    blocks: usize,
}

/// Returns the text of preformatted text. A block in it begins and ends a line, and a `br` ends
/// one; tabs are between the cells of a row.
fn content_of(alloc: Global, node: &NodeRef<'_>) -> Result<String, OutOfMemory> {
    let mut content = Content {
        text: String::new(alloc),
        is_parted: false,
        blocks: 0,
    };
    let Some(first) = node.first_child() else {
        return Ok(content.text);
    };
    let mut step = Step::Begin(first.id);
    for _ in 0..u64::MAX {
        let next = match step {
            Step::Begin(id) => content.begin(&NodeRef::new(id, node.tree))?,
            Step::End(id) => content.end(&NodeRef::new(id, node.tree), node.id),
        };
        match next {
            Some(next) => step = next,
            None => break,
        }
    }
    Ok(content.text)
}

impl Content {
    /// Reads the beginning of a node. Returns the next step.
    fn begin(&mut self, node: &NodeRef<'_>) -> Result<Option<Step>, OutOfMemory> {
        let Some(tree_node) = node.tree.tree_node(&node.id) else {
            return Ok(None);
        };
        let is_read = match &tree_node.content {
            NodeData::Text { contents } => {
                self.push_text(contents.as_str())?;
                false
            }
            NodeData::Element(element) => self.begin_element(tag_named(element.node_name()))?,
            _ => false,
        };
        match tree_node.first_child.get() {
            Some(first) if is_read => Ok(Some(Step::Begin(first))),
            _ => Ok(Some(Step::End(node.id))),
        }
    }

    /// Begins an element. Returns whether its contents belong to the text.
    fn begin_element(&mut self, tag: Tag) -> Result<bool, OutOfMemory> {
        match tag {
            Tag::Skipped => return Ok(false),
            Tag::Break => {
                self.end_line()?;
                self.text.push('\n')?;
            }
            Tag::Cell => self.begin_cell()?,
            _ => self.begin_block(tag),
        }
        Ok(true)
    }

    /// Begins an element, which may be a block.
    fn begin_block(&mut self, tag: Tag) {
        if is_block_tag(tag) {
            self.is_parted = true;
            self.blocks = self.blocks.saturating_add(1);
        }
    }

    /// Reads the end of a node in preformatted text. Returns the next step, if it isn't the end of
    /// the whole.
    fn end(&mut self, node: &NodeRef<'_>, whole: NodeId) -> Option<Step> {
        if self.blocks > 0 {
            self.end_block(tag_of(node));
        }
        step_after(node, whole)
    }

    /// Ends an element, which may be a block. Cells go on in the line.
    fn end_block(&mut self, tag: Tag) {
        if tag != Tag::Cell && is_block_tag(tag) {
            self.is_parted = true;
            self.blocks = self.blocks.saturating_sub(1);
        }
    }

    fn push_text(&mut self, text: &str) -> Result<(), OutOfMemory> {
        if text.is_empty() {
            return Ok(());
        }
        self.end_line()?;
        push_lines(&mut self.text, text)
    }

    /// Ends the line where a block begins or ends.
    fn end_line(&mut self) -> Result<(), OutOfMemory> {
        if self.is_parted && self.is_in_line() {
            self.text.push('\n')?;
        }
        self.is_parted = false;
        Ok(())
    }

    fn begin_cell(&mut self) -> Result<(), OutOfMemory> {
        if !self.is_parted && self.is_in_line() {
            self.text.push('\t')?;
        }
        Ok(())
    }

    fn is_in_line(&self) -> bool {
        !self.text.is_empty() && !self.text.as_str().ends_with('\n')
    }
}

/// Returns the step after the end of a node in preformatted text, if it isn't the end of the whole.
fn step_after(node: &NodeRef<'_>, whole: NodeId) -> Option<Step> {
    if let Some(next) = node.next_sibling() {
        return Some(Step::Begin(next.id));
    }
    let Some(above) = node.parent() else {
        return None;
    };
    if above.id == whole {
        return None;
    }
    Some(Step::End(above.id))
}

/// Appends a text, with line feeds in place of carriage returns, at which readers end lines.
fn push_lines(content: &mut String, text: &str) -> Result<(), OutOfMemory> {
    let mut is_first = true;
    for piece in text.split('\r') {
        if !is_first && !piece.starts_with('\n') {
            content.push('\n')?;
        }
        content.push_str(piece)?;
        is_first = false;
    }
    Ok(())
}

/// Returns the language of a code block: that in a class of the element, of the first element in it
/// or the first in that, or of its two nearest ancestors; an empty text if there is none.
fn language_of<'a>(node: &NodeRef<'a>) -> &'a str {
    if let Some(language) = language_at(node) {
        return language;
    }
    if let Some(language) = language_below(node) {
        return language;
    }
    for above in node.ancestors_it(Some(2)) {
        if let Some(language) = language_at(&above) {
            return language;
        }
    }
    ""
}

/// Returns the language of the first element in a node, or else of the first in that.
fn language_below<'a>(node: &NodeRef<'a>) -> Option<&'a str> {
    let Some(child) = node.first_element_child() else {
        return None;
    };
    if let Some(language) = language_at(&child) {
        return Some(language);
    }
    let Some(below) = child.first_element_child() else {
        return None;
    };
    language_at(&below)
}

/// Returns the language that a class of the node names.
fn language_at<'a>(node: &NodeRef<'a>) -> Option<&'a str> {
    for class in node.attr_or("class", "").split_ascii_whitespace() {
        if let Some(language) = language_in(class) {
            return Some(language);
        }
    }
    None
}

/// Returns what follows `language-`, `lang-`, `highlight-source-` or `highlight-` in a class.
fn language_in(class: &str) -> Option<&str> {
    for front in ["language-", "lang-", "highlight-source-", "highlight-"] {
        if let Some(language) = class.strip_prefix(front) {
            if is_language(language) {
                return Some(language);
            }
        }
    }
    None
}

/// Returns whether the text is the name of a language, and says more than that there is none.
fn is_language(text: &str) -> bool {
    for byte in text.as_bytes() {
        if !is_in_name(*byte) {
            return false;
        }
    }
    !matches!(text, "" | "default" | "none" | "notranslate" | "text")
}

fn is_in_name(byte: u8) -> bool {
    if byte.is_ascii_alphanumeric() {
        return true;
    }
    matches!(byte, b'-' | b'_' | b'+' | b'.' | b'#')
}
