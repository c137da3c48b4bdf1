//! Reading the text of nodes.

ghost use Rattle.std.specs.Prelude.{◌≡◌, ◌++◌, ◌∷◌, IfOk, OnOk, string_bytes};
ghost use Rattle.dom_links.specs.Forest.{forest_of};
ghost use Rattle.dom_links.specs.Sound.{IsSoundArena};
ghost use Rattle.dom_links.specs.Texts.{immediate_text_of, text_at, text_in, text_of};

use crate::iters::{ChildNodes, DescendantNodes, find_node};
use crate::ops::TreeNodeOps;
use dom_nodes::fault::OutOfMemory;
use dom_nodes::node_data::{NodeData, TreeNode};
use dom_nodes::node_id::NodeId;
use std::alloc::Global;

impl TreeNodeOps {
    /// Returns the text of a node: the contents of all text nodes in its subtree, in document
    /// order, joined. Template contents aren't visited. For an unknown id the result is empty. It
    /// fails with `OutOfMemory` when memory is refused.
    pub fn text_of(alloc: Global, nodes: &[TreeNode], id: &NodeId) -> Result<String, OutOfMemory>
        requires { IsSoundArena nodes.now }
        ensures { IfOk result (λ text. string_bytes text ≡ text_of (forest_of nodes.now) id.now) }
    {
        let mut text = String::new(alloc);
        text.push_str(text_at(nodes, *id))?;
        for below in DescendantNodes::new(nodes, id) {
            text.push_str(text_at(nodes, below))?;
        }
        Ok(text)
    }

    /// Returns the contents of the text nodes among the node and its children, joined. For an
    /// unknown id the result is empty. It fails with `OutOfMemory` when memory is refused.
    pub fn immediate_text_of(
        alloc: Global,
        nodes: &[TreeNode],
        id: &NodeId,
    ) -> Result<String, OutOfMemory>
        requires { IsSoundArena nodes.now }
        ensures { IfOk result
            (λ text. string_bytes text ≡ immediate_text_of (forest_of nodes.now) id.now) }
    {
        let mut joined = String::new(alloc);
        joined.push_str(text_at(nodes, *id))?;
        for child in ChildNodes::new(nodes, id, false) {
            joined.push_str(text_at(nodes, child))?;
        }
        Ok(joined)
    }
}

/// Returns the contents of a text node; the empty text for any other node.
pub(crate) fn text_at(nodes: &[TreeNode], id: NodeId) -> &str
    requires { IsSoundArena nodes.now }
    ensures { result.now ≡ text_at (forest_of nodes.now) id }
{
    match find_node(nodes, id) {
        Some(node) => text_in(&node.content),
        None => "",
    }
}

fn text_in(content: &NodeData) -> &str
    ensures { result.now ≡ text_in content.now }
{
    match content {
        NodeData::Text { contents } => contents.as_str(),
        _ => "",
    }
}
