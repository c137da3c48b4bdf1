//! Setting the text of a node, as the property `textContent` of the DOM does.

ghost use Rattle.std.specs.Prelude.{◌≡◌, MatchResult, true};
ghost use Rattle.dom_nodes.specs.declared.fault.EditFault.TheVariants.{Memory};
ghost use Rattle.dom_links.specs.ArenaEdits.{Becomes};
ghost use Rattle.dom_links.specs.Contents.{Changed};
ghost use Rattle.dom_links.specs.Forest.{forest_of};
ghost use Rattle.dom_links.specs.ListMoves.{element_at};
ghost use Rattle.dom_links.specs.SetTexts.{SetTextCause, is_text_at, with_text_content};
ghost use Rattle.dom_links.specs.SetTexts.{with_text_data};
ghost use Rattle.dom_links.specs.Sound.{IsSoundArena};

use crate::iters::find_node;
use crate::ops::TreeNodeOps;
use crate::ops::lists::set_only_child;
use dom_nodes::fault::EditFault;
use dom_nodes::node_data::{NodeData, TreeNode};
use dom_nodes::node_id::NodeId;
use dom_nodes::text::Text;
use std::alloc::Global;

impl TreeNodeOps {
    /// Replaces the children of an element by one text node, or the contents of a text node. Other
    /// nodes are left alone, and for an unknown id nothing happens. It fails with `Memory` for an
    /// element or a text, and with `TooManyNodes` for an element when no id is left; then nothing
    /// changes.
    pub fn set_text(nodes: &mut Vec<TreeNode>, id: NodeId, text: &str) -> Result<(), EditFault>
        requires { IsSoundArena nodes.old.items }
        ensures { Becomes result nodes.old nodes.new (with_text_content id text.now)
            (SetTextCause id) }
    {
        if is_element_at(nodes, id) {
            return replace_children(nodes, id, text);
        }
        if is_text_at(nodes, id) {
            let contents = owned_text(*nodes.allocator(), text)?;
            put_text(nodes, id, contents);
        }
        Ok(())
    }
}

fn is_element_at(nodes: &[TreeNode], id: NodeId) -> bool
    requires { IsSoundArena nodes.now }
    ensures { result ≡ element_at (forest_of nodes.now) id }
{
    find_node(nodes, id).is_some_and(|node| node.content.is_element())
}

pub(crate) fn is_text_at(nodes: &[TreeNode], id: NodeId) -> bool
    requires { IsSoundArena nodes.now }
    ensures { result ≡ is_text_at (forest_of nodes.now) id }
{
    find_node(nodes, id).is_some_and(|node| node.content.is_text())
}

/// Returns a copy of the text. It fails with `Memory`.
pub(crate) fn owned_text(alloc: Global, text: &str) -> Result<Text, EditFault>
    ensures { MatchResult result (λ made. made ≡ text.now) (λ fault. fault ≡ Memory) }
{
    match Text::new(alloc, text) {
        Ok(made) => Ok(made),
        Err(_) => Err(EditFault::Memory),
    }
}

/// Replaces the children of an element by one new text node.
fn replace_children(nodes: &mut Vec<TreeNode>, x: NodeId, text: &str) -> Result<(), EditFault>
    requires sound { IsSoundArena nodes.old.items }
    requires element { element_at (forest_of nodes.old.items) x ≡ true }
    ensures { Becomes result nodes.old nodes.new (with_text_content x text.now) (SetTextCause x) }
{
    let contents = owned_text(*nodes.allocator(), text)?;
    let child = TreeNodeOps::create_node(nodes, NodeData::Text { contents })?;
    set_only_child(nodes, x, child);
    Ok(())
}

/// Replaces the contents of a text node. Other nodes and unknown ids are left alone.
pub(crate) fn put_text(nodes: &mut [TreeNode], x: NodeId, text: Text)
    requires { IsSoundArena nodes.old }
    ensures { Changed nodes.old nodes.new x (with_text_data text) }
{
    let at = x.value();
    if at < nodes.len() {
        set_text_data(&mut nodes[at], text);
    }
}

fn set_text_data(node: &mut TreeNode, text: Text)
    ensures { node.new ≡ record node.old { content = with_text_data text node.old.content } }
{
    if let NodeData::Text { contents } = &mut node.content {
        *contents = text;
    }
}
