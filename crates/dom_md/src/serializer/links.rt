//! Links.

ghost use Rattle.std.specs.Prelude.{◌≡◌, codes, option_copied};
ghost use Rattle.dom_nodes.specs.Attrs.{attr_of};
ghost use Rattle.dom_trees.specs.Views.{node_attr};

use crate::context::FormatOpts;
use crate::serializer::Writer;
use crate::serializer::names::{Tag, is_href, is_title};
use crate::serializer::nodes::{contents, tag};
use crate::serializer::tasks::Task;
use crate::serializer::texts::{escape_trailing_bang, push_text};
use crate::serializer::urls::push_target;
use dom_nodes::fault::OutOfMemory;
use dom_nodes::node_data::{Element, NodeData};
use dom_nodes::node_id::NodeId;
use dom_trees::node_ref::NodeRef;

impl<'a> Writer<'a> {
    /// Writes a link whose body is only text, or begins the body of any other link. For a link
    /// without `href`, only the body is written.
    pub(super) fn begin_link(&mut self, id: NodeId) -> Result<(), OutOfMemory> {
        let node = NodeRef::new(id, self.tree);
        let opts = FormatOpts::new();
        let target = target_of(&node);
        if target.address.is_none() {
            return self.push_below(id, opts);
        }
        if let Some(words) = only_text(&node) {
            return self.write_text_link(target, words);
        }
        if has_image(&node) {
            return self.begin_body(id, opts.link_body());
        }
        let mut body = String::new(self.tree.allocator());
        push_texts(&mut body, &node)?;
        if body.as_str().is_empty() {
            return self.begin_body(id, opts);
        }
        self.write_text_link(target, body.as_str())
    }

    /// Writes a link whose text is not empty.
    fn write_text_link(&mut self, target: Target<'_>, text: &str) -> Result<(), OutOfMemory> {
        // A link whose text is only whitespace still separates the words around it.
        if text.trim_ascii().is_empty() {
            return push_text(&mut self.text, text, FormatOpts::new());
        }
        escape_trailing_bang(&mut self.text)?;
        self.text.push('[')?;
        push_text(&mut self.text, text, FormatOpts::new())?;
        self.push_link_target(target)
    }

    fn begin_body(&mut self, id: NodeId, opts: FormatOpts) -> Result<(), OutOfMemory> {
        self.push(Task::EndLink { id })?;
        self.push_below(id, opts)?;
        self.begin_text()
    }

    pub(super) fn end_link(&mut self, id: NodeId) -> Result<(), OutOfMemory> {
        let body = self.end_text();
        if body.as_str().is_empty() {
            return Ok(());
        }
        escape_trailing_bang(&mut self.text)?;
        self.text.push('[')?;
        self.text.push_str(body.as_str())?;
        let target = target_of(&NodeRef::new(id, self.tree));
        self.push_link_target(target)
    }

    fn push_link_target(&mut self, target: Target<'_>) -> Result<(), OutOfMemory> {
        self.text.push(']')?;
        let address = match target.address {
            Some(address) => address,
            None => "",
        };
        push_target(&mut self.text, address, target.title)
    }
}

/// The address and the title of a link.
#[derive(Clone, Copy)]
struct Target<'a> {
    address: Option<&'a str>,
    title: Option<&'a str>,
}

/// Returns the values of the node's first attributes `href` and `title`.
fn target_of<'a>(node: &NodeRef<'a>) -> Target<'a>
    ensures address { option_copied result.address
        ≡ node_attr node.now.tree.now node.now.id (codes "href") }
    ensures title { option_copied result.title
        ≡ node_attr node.now.tree.now node.now.id (codes "title") }
{
    match node.element_ref() {
        Some(element) => Target {
            address: address_in(element),
            title: title_in(element),
        },
        None => Target {
            address: None,
            title: None,
        },
    }
}

fn address_in(element: &Element) -> Option<&str>
    ensures { option_copied result ≡ attr_of element.now.attrs (codes "href") }
{
    element
        .attrs()
        .as_slice()
        .iter()
        .find(|attr| is_href(&attr.name.local()))
        .map(|attr| attr.value.as_str())
}

fn title_in(element: &Element) -> Option<&str>
    ensures { option_copied result ≡ attr_of element.now.attrs (codes "title") }
{
    element
        .attrs()
        .as_slice()
        .iter()
        .find(|attr| is_title(&attr.name.local()))
        .map(|attr| attr.value.as_str())
}

/// Returns the text of the node's only child, without whitespace at its start, if that child is a
/// text that is not empty; a single space if it is all whitespace.
fn only_text<'a>(node: &NodeRef<'a>) -> Option<&'a str> {
    let first = node.tree.tree_node(&node.id)?.first_child.get()?;
    let child = node.tree.tree_node(&first)?;
    if child.next_sibling.get().is_some() {
        return None;
    }
    match &child.content {
        NodeData::Text { contents } if !contents.as_str().is_empty() => {
            let words = contents.as_str().trim_ascii_start();
            Some(if words.is_empty() { " " } else { words })
        }
        _ => None,
    }
}

fn has_image(node: &NodeRef<'_>) -> bool {
    for below in node.descendants_it() {
        if tag(&below) == Tag::Image {
            return true;
        }
    }
    false
}

/// Appends the words of all texts below the node, without backslash escapes.
fn push_texts(text: &mut String, node: &NodeRef<'_>) -> Result<(), OutOfMemory> {
    for below in node.descendants_it() {
        if let Some(words) = contents(&below) {
            push_text(text, words, FormatOpts::new().skip_escape())?;
        }
    }
    Ok(())
}
