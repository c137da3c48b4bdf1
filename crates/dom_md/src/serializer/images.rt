//! Images.

use crate::context::FormatOpts;
use crate::serializer::Writer;
use crate::serializer::texts::push_text;
use crate::serializer::urls::push_target;
use dom_nodes::fault::OutOfMemory;
use dom_nodes::node_id::NodeId;
use dom_trees::node_ref::NodeRef;

impl<'a> Writer<'a> {
    /// Writes an image; nothing for an image without an address.
    pub(super) fn write_image(&mut self, id: NodeId) -> Result<(), OutOfMemory> {
        let node = NodeRef::new(id, self.tree);
        let Some(address) = address_of(&node) else {
            return Ok(());
        };
        self.text.push_str("![")?;
        if let Some(words) = node.attr("alt") {
            push_text(&mut self.text, words, FormatOpts::new())?;
        }
        self.text.push(']')?;
        push_target(&mut self.text, address, node.attr("title"))
    }
}

/// Returns the address of an image: `src`, else the first address of `srcset`, else `data-src`.
fn address_of<'a>(node: &NodeRef<'a>) -> Option<&'a str> {
    if let Some(address) = address_at(node, "src") {
        return Some(address);
    }
    if let Some(address) = first_address(node.attr_or("srcset", "")) {
        return Some(address);
    }
    address_at(node, "data-src")
}

/// Returns the value of the attribute, unless it is blank.
fn address_at<'a>(node: &NodeRef<'a>, name: &str) -> Option<&'a str> {
    let address = node.attr(name)?;
    if address.trim().is_empty() {
        return None;
    }
    Some(address)
}

/// Returns the first word, without commas at its end, if anything is left.
fn first_address(addresses: &str) -> Option<&str> {
    let address = first_word(addresses)?.trim_end_matches(',');
    if address.is_empty() {
        return None;
    }
    Some(address)
}

/// Returns the first word of a text, as separated by ASCII whitespace.
pub(super) fn first_word(text: &str) -> Option<&str> {
    for word in text.split_ascii_whitespace() {
        return Some(word);
    }
    None
}
