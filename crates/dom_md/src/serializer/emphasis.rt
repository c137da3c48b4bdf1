//! Emphasis: bold and italic text.

use crate::context::{EmphasisScope, FormatOpts};
use crate::serializer::Writer;
use crate::serializer::levels::Level;
use crate::serializer::tasks::{Marker, Task};
use crate::serializer::texts::{cut_at, ends_in_byte, escape_trailing_bang};
use dom_nodes::fault::OutOfMemory;
use dom_nodes::node_id::NodeId;

/// A text of so many bytes isn't copied to the end of another one, but keeps that one before it in
/// a piece of its own.
const LONG: usize = 256;

impl<'a> Writer<'a> {
    /// Begins emphasized text. Within emphasis of the same kind, no markers are written.
    pub(super) fn begin_emphasis(
        &mut self,
        id: NodeId,
        marker: Marker,
        opts: FormatOpts,
    ) -> Result<(), OutOfMemory> {
        let scope = EmphasisScope::from(marker.as_str());
        let merged = opts.emphasis_scope.contains(scope);
        self.push(Task::EndEmphasis { marker, merged })?;
        self.push_children(id, opts.include_node().inline().emphasis_scope(scope))?;
        self.begin_text()
    }

    pub(super) fn end_emphasis(&mut self, marker: Marker, merged: bool) -> Result<(), OutOfMemory> {
        let is_long = !self.front.is_empty() || self.text.as_str().len() >= LONG;
        if merged && is_long && self.has_no_items_outside() {
            return self.end_merged();
        }
        self.join_front()?;
        let content = self.end_text();
        let marker = if merged { "" } else { marker.as_str() };
        push_emphasis(&mut self.text, content, marker)
    }

    /// Returns whether no item of a list is being written in the text that this one will be part
    /// of. The places where items begin count from the start of a text that is in one piece.
    fn has_no_items_outside(&self) -> bool {
        match self.outer.last() {
            Some(outer) => outer.items == self.items_before,
            None => false,
        }
    }

    /// Ends an emphasis within another of its kind: its text goes behind the outer one, which
    /// becomes a piece before it.
    fn end_merged(&mut self) -> Result<(), OutOfMemory> {
        let Level { front, text, .. } = self.end_level();
        if self.front.is_empty() && self.text.as_str().is_empty() {
            self.front = front;
            self.text = text;
            return Ok(());
        }
        let is_blank = front.is_blank_before(text.as_str());
        if !is_blank {
            open_before(&mut self.text, front.first_byte_before(text.as_str()))?;
        }
        let outer_front = std::mem::replace(&mut self.front, front);
        let outer = std::mem::replace(&mut self.text, text);
        self.front.put(outer_front, outer, is_blank)
    }
}

/// Makes the end of a text ready for words that begin with that byte: one space is enough.
fn open_before(text: &mut String, first: Option<u8>) -> Result<(), OutOfMemory> {
    match first {
        Some(b' ') => {
            if ends_in_byte(text.as_str(), b' ') {
                let end = text.as_str().len().saturating_sub(1);
                cut_at(text, end);
            }
            Ok(())
        }
        Some(b'[') => escape_trailing_bang(text),
        _ => Ok(()),
    }
}

/// Appends a text between markers. A space at either end of the text is put outside of them.
fn push_emphasis(text: &mut String, content: String, marker: &str) -> Result<(), OutOfMemory> {
    if marker.is_empty() && text.as_str().is_empty() {
        *text = content;
        return Ok(());
    }
    if content.as_str().trim().is_empty() {
        return Ok(text.push_str(content.as_str())?);
    }
    let joined = cut_marker(text, marker)?;
    let body = without_first_space(content.as_str());
    if body.len() < content.as_str().len() && !text.as_str().ends_with(' ') {
        text.push(' ')?;
    }
    if !joined {
        text.push_str(marker)?;
    }
    if body.starts_with('[') {
        escape_trailing_bang(text)?;
    }
    push_marked(text, body, marker)
}

/// Appends a text and its closing marker; a space at the end of the text follows the marker.
fn push_marked(text: &mut String, body: &str, marker: &str) -> Result<(), OutOfMemory> {
    match body.strip_suffix(' ') {
        Some(front) => {
            text.push_str(front)?;
            text.push_str(marker)?;
            Ok(text.push(' ')?)
        }
        None => {
            text.push_str(body)?;
            Ok(text.push_str(marker)?)
        }
    }
}

fn without_first_space(content: &str) -> &str {
    match content.strip_prefix(' ') {
        Some(rest) => rest,
        None => content,
    }
}

/// Removes the marker at the end of the text, but keeps a space after it, so that two adjacent
/// emphasized texts become one. Returns whether there was a marker.
fn cut_marker(text: &mut String, marker: &str) -> Result<bool, OutOfMemory> {
    if marker.is_empty() {
        return Ok(false);
    }
    let has_space = text.as_str().ends_with(' ');
    let Some(front) = before_marker(text.as_str(), marker) else {
        return Ok(false);
    };
    let end = front.len();
    cut_at(text, end);
    if has_space {
        text.push(' ')?;
    }
    Ok(true)
}

/// Returns the text before such a marker at its end, with at most one space after the marker;
/// `None` if there is no such marker, if it is escaped, or if a `*` is part of a longer run.
fn before_marker<'a>(text: &'a str, marker: &str) -> Option<&'a str> {
    let body = match text.strip_suffix(' ') {
        Some(front) => front,
        None => text,
    };
    let front = body.strip_suffix(marker)?;
    if marker == "*" && front.ends_with('*') {
        return None;
    }
    let slashes = front.len() - front.trim_end_matches('\\').len();
    if slashes % 2 == 0 { Some(front) } else { None }
}
