//! Code: fenced code blocks and code spans.

use crate::context::FormatOpts;
use crate::fences::fence_len;
use crate::serializer::Writer;
use crate::serializer::images::first_word;
use crate::serializer::names::tag_of;
use crate::serializer::nodes::contents;
use crate::serializer::tasks::Task;
use crate::serializer::texts::push_block_space;
use dom_nodes::fault::OutOfMemory;
use dom_nodes::name::LocalRef;
use dom_nodes::node_data::NodeData;
use dom_nodes::node_id::NodeId;
use dom_trees::node_ref::NodeRef;

impl<'a> Writer<'a> {
    /// Writes a fenced code block; in the text of a link, a code span between spaces.
    pub(super) fn write_preformatted(
        &mut self,
        id: NodeId,
        opts: FormatOpts,
    ) -> Result<(), OutOfMemory> {
        let node = NodeRef::new(id, self.tree);
        let content = node.text()?;
        if opts.link_body {
            push_block_space(&mut self.text)?;
            push_words_as_code(&mut self.text, content.as_str())?;
            return push_block_space(&mut self.text);
        }
        if !self.text.as_str().ends_with("\n\n") {
            self.text.push('\n')?;
        }
        let fence = fence_len(content.as_str(), 3);
        push_ticks(&mut self.text, fence)?;
        if let Some(language) = language_of(&node) {
            push_language(&mut self.text, language)?;
        }
        self.text.push('\n')?;
        push_lines(&mut self.text, content.as_str())?;
        push_ticks(&mut self.text, fence)?;
        Ok(self.text.push('\n')?)
    }

    /// Begins a code span; code of several lines becomes a code block.
    pub(super) fn begin_code(&mut self, id: NodeId, opts: FormatOpts) -> Result<(), OutOfMemory> {
        if let Some(word) = self.lone_word(id) {
            return push_code(&mut self.text, word);
        }
        if has_lines(&NodeRef::new(id, self.tree)) {
            return self.write_preformatted(id, opts);
        }
        self.push(Task::EndCode { id })?;
        self.push(Task::Node {
            id,
            opts: FormatOpts::new()
                .include_node()
                .inline()
                .skip_escape()
                .skip_md(),
        })?;
        self.begin_text()
    }

    /// Returns the only text below the node if it has no ASCII whitespace and all elements around
    /// it are ones for which nothing is written.
    fn lone_word(&self, id: NodeId) -> Option<&'a str> {
        let tree = self.tree;
        let mut at = id;
        for _ in 0..tree.len() {
            let first = tree.tree_node(&at)?.first_child.get()?;
            let child = tree.tree_node(&first)?;
            if child.next_sibling.get().is_some() {
                return None;
            }
            match &child.content {
                NodeData::Text { contents } => return as_word(contents.as_str()),
                NodeData::Element(element) if self.is_plain(&element.name().local()) => at = first,
                _ => return None,
            }
        }
        None
    }

    fn is_plain(&self, name: &LocalRef<'_>) -> bool {
        !self.is_skipped(name) && !tag_of(name).has_end()
    }

    pub(super) fn end_code(&mut self, id: NodeId) -> Result<(), OutOfMemory> {
        let written = self.end_text();
        let raw = NodeRef::new(id, self.tree).text()?;
        let code = trimmed_code(written.as_str(), raw.as_str());
        push_code(&mut self.text, code)
    }
}

/// Returns the text if it has no ASCII whitespace.
fn as_word(text: &str) -> Option<&str> {
    for byte in text.as_bytes() {
        if byte.is_ascii_whitespace() {
            return None;
        }
    }
    Some(text)
}

/// Returns the code without the spaces that indentation left: at each end of the text that has a
/// line feed, apart from blanks, the code's spaces are removed.
fn trimmed_code<'a>(code: &'a str, raw: &str) -> &'a str {
    let front = if raw.trim_end_matches(is_blank).ends_with('\n') {
        code.trim_end_matches(' ')
    } else {
        code
    };
    if raw.trim_start_matches(is_blank).starts_with('\n') {
        front.trim_start_matches(' ')
    } else {
        front
    }
}

fn is_blank(c: char) -> bool {
    c == ' ' || c == '\t'
}

/// Returns whether a text below the node has a line feed other than in the whitespace at its ends.
fn has_lines(node: &NodeRef<'_>) -> bool {
    for below in node.descendants_it() {
        if let Some(text) = contents(&below) {
            if text.trim().contains('\n') {
                return true;
            }
        }
    }
    false
}

/// Appends the content of a code block, and a line feed if its last line lacks one.
fn push_lines(text: &mut String, content: &str) -> Result<(), OutOfMemory> {
    text.push_str(content)?;
    if !content.is_empty() && !content.ends_with('\n') {
        text.push('\n')?;
    }
    Ok(())
}

/// Appends the words of the content, joined by single spaces, as a code span.
fn push_words_as_code(text: &mut String, content: &str) -> Result<(), OutOfMemory> {
    let mut code = String::new(*text.allocator());
    for word in content.split_ascii_whitespace() {
        if !code.as_str().is_empty() {
            code.push(' ')?;
        }
        code.push_str(word)?;
    }
    push_code(text, code.as_str())
}

/// Appends a code span; nothing for an empty one.
fn push_code(text: &mut String, code: &str) -> Result<(), OutOfMemory> {
    if code.is_empty() {
        return Ok(());
    }
    // Two adjacent spans would become one.
    if text.as_str().ends_with('`') {
        text.push(' ')?;
    }
    let fence = fence_len(code, 1);
    let padded = needs_space(code);
    push_ticks(text, fence)?;
    if padded {
        text.push(' ')?;
    }
    text.push_str(code)?;
    if padded {
        text.push(' ')?;
    }
    push_ticks(text, fence)
}

/// Returns whether spaces are needed between fence and code: if the code begins or ends with a
/// backtick, or if it begins and ends with a space, since Markdown removes one space at each end.
fn needs_space(code: &str) -> bool {
    if code.starts_with('`') || code.ends_with('`') {
        return true;
    }
    code.starts_with(' ') && code.ends_with(' ') && !code.trim_end_matches(' ').is_empty()
}

fn push_ticks(text: &mut String, count: usize) -> Result<(), OutOfMemory> {
    for _ in 0..count {
        text.push('`')?;
    }
    Ok(())
}

/// Returns the language of a code block: the attribute `data-lang` or `data-language` of the
/// element or of one of its three nearest ancestors, or else the `language-` class of its first
/// `code` child.
fn language_of<'a>(node: &NodeRef<'a>) -> Option<&'a str> {
    if let Some(language) = language_at(node) {
        return Some(language);
    }
    for above in node.ancestors_it(Some(3)) {
        if let Some(language) = language_at(&above) {
            return Some(language);
        }
    }
    for child in node.children_it(false) {
        if child.has_name("code") {
            return language_class(child.attr_or("class", ""));
        }
    }
    None
}

/// Returns the value of the node's first attribute that names a language.
fn language_at<'a>(node: &NodeRef<'a>) -> Option<&'a str> {
    for attr in node.attrs() {
        let name = attr.name.local().as_str();
        if name == "data-lang" || name == "data-language" {
            return Some(attr.value.as_str());
        }
    }
    None
}

/// Returns what follows `language-` in the first class that begins with it.
fn language_class(classes: &str) -> Option<&str> {
    for class in classes.split_ascii_whitespace() {
        if let Some(language) = class.strip_prefix("language-") {
            return Some(language);
        }
    }
    None
}

/// Appends the first word of the language, without the characters that are not allowed there:
/// letters, digits, `-`, `_`, `+`, `.` and `#` are kept.
fn push_language(text: &mut String, language: &str) -> Result<(), OutOfMemory> {
    let Some(word) = first_word(language) else {
        return Ok(());
    };
    for c in word.chars() {
        if c.is_ascii_alphanumeric() || c == '-' || c == '_' || c == '+' || c == '.' || c == '#' {
            text.push(c)?;
        }
    }
    Ok(())
}
