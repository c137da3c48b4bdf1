//! Block quotes.

use crate::context::FormatOpts;
use crate::serializer::Writer;
use crate::serializer::names::Tag;
use crate::serializer::nodes::{is_blank_text, tag};
use crate::serializer::tasks::Task;
use crate::serializer::texts::push_linebreaks;
use dom_nodes::fault::OutOfMemory;
use dom_nodes::node_id::NodeId;
use dom_trees::node_ref::NodeRef;

impl<'a> Writer<'a> {
    /// Begins a quote. Quotes that contain nothing but a quote are written together with it, so
    /// that the text is copied only once.
    pub(super) fn begin_quote(&mut self, id: NodeId) -> Result<(), OutOfMemory> {
        let mut inner = id;
        let mut depth: usize = 1;
        for _ in 0..self.tree.len() {
            let Some(next) = lone_quote(&NodeRef::new(inner, self.tree)) else {
                break;
            };
            inner = next;
            depth = depth.saturating_add(1);
        }
        self.push(Task::EndQuote { depth })?;
        self.push_below(inner, FormatOpts::new())?;
        self.begin_text()
    }

    /// Appends the finished text of nested quotes; each line gets one `> ` for each of the `depth`
    /// quotes.
    pub(super) fn end_quote(&mut self, depth: usize) -> Result<(), OutOfMemory> {
        let quoted = self.end_text();
        if quoted.as_str().is_empty() {
            return Ok(());
        }
        push_linebreaks(&mut self.text, "\n\n")?;
        for line in quoted.as_str().lines() {
            push_marks(&mut self.text, depth)?;
            self.text.push_str(line)?;
            self.text.push('\n')?;
        }
        Ok(self.text.push('\n')?)
    }
}

fn push_marks(text: &mut String, depth: usize) -> Result<(), OutOfMemory> {
    for _ in 0..depth {
        text.push_str("> ")?;
    }
    Ok(())
}

/// Returns the only quote in the node, if its other children are comments and blank texts.
fn lone_quote(node: &NodeRef<'_>) -> Option<NodeId> {
    let mut found = None;
    for child in node.children_it(false) {
        if child.is_comment() || is_blank_text(&child) {
            continue;
        }
        if tag(&child) != Tag::Quote || found.is_some() {
            return None;
        }
        found = Some(child.id);
    }
    found
}
