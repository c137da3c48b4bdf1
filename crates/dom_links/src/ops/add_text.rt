//! Adding text at an insertion point: the text node before it grows, or a new text node is
//! inserted.

ghost use Rattle.std.specs.Prelude.{◌≡◌, ◌<◌, IfErr, OnErr, OnOk, None, Some, length};
ghost use Rattle.dom_nodes.specs.declared.fault.EditFault.TheVariants.{Memory};
ghost use Rattle.dom_links.specs.AddedTexts.{TextCause, lengthened, text_before, with_text_at};
ghost use Rattle.dom_links.specs.ArenaEdits.{Becomes};
ghost use Rattle.dom_links.specs.Contents.{Changed};
ghost use Rattle.dom_links.specs.Forest.{forest_of};
ghost use Rattle.dom_links.specs.Moves.{before_gap, end_of};
ghost use Rattle.dom_links.specs.Sound.{IsOpenGap, IsSoundArena, target};

use crate::gap::InsertionPoint;
use crate::ops::TreeNodeOps;
use crate::ops::create::add_child;
use crate::ops::moves::{put_alone, resolved_point_at};
use crate::ops::set_text::{is_text_at, owned_text};
use dom_nodes::fault::{EditFault, OutOfMemory};
use dom_nodes::node_data::{NodeData, TreeNode};
use dom_nodes::node_id::NodeId;
use dom_nodes::text::Text;

/// Appends `text` to the text node immediately before the insertion point, or inserts a new text
/// node there. It fails with `Memory` when memory is refused, and with `TooManyNodes` when a new
/// node is needed and no id is left. The arena is unchanged after an error.
pub fn add_text(nodes: &mut Vec<TreeNode>, gap: InsertionPoint, text: &str) -> Result<(), EditFault>
    requires sound { IsSoundArena nodes.old.items }
    requires open { IsOpenGap gap (forest_of nodes.old.items) }
    ensures { Becomes result nodes.old nodes.new (with_text_at gap text.now) (TextCause gap) }
{
    let Some(before) = text_before(nodes, &gap) else {
        return put_new_text(nodes, gap, text);
    };
    lengthen(nodes, before, text)
}

/// Returns the text node immediately before the insertion point, or `None` when no text node is
/// there.
fn text_before(nodes: &[TreeNode], gap: &InsertionPoint) -> Option<NodeId>
    requires sound { IsSoundArena nodes.now }
    requires target_known { target gap.now < length (forest_of nodes.now).content }
    ensures { result ≡ text_before gap.now (forest_of nodes.now) }
{
    let Some(before) = node_before(nodes, gap) else {
        return None;
    };
    if is_text_at(nodes, before) {
        Some(before)
    } else {
        None
    }
}

/// Returns the node immediately before the insertion point, or `None`.
#[inline(always)]
fn node_before(nodes: &[TreeNode], gap: &InsertionPoint) -> Option<NodeId>
    requires sound { IsSoundArena nodes.now }
    requires target_known { target gap.now < length (forest_of nodes.now).content }
    ensures { result ≡ before_gap gap.now (forest_of nodes.now) }
{
    match gap {
        InsertionPoint::EndOf(t) => nodes[t.value()].last_child.get(),
        _ => resolved_point_at(nodes, *gap).left,
    }
}

/// Appends `more` to a text node. It fails with `Memory`.
fn lengthen(nodes: &mut [TreeNode], x: NodeId, more: &str) -> Result<(), EditFault>
    requires { IsSoundArena nodes.old }
    ensures ok { OnOk result (Changed nodes.old nodes.new x (lengthened more.now)) }
    ensures err { OnErr result (nodes.new ≡ nodes.old) }
    ensures cause { IfErr result (λ fault. fault ≡ Memory) }
{
    let at = x.value();
    if at >= nodes.len() {
        return Ok(());
    }
    match lengthen_node(&mut nodes[at], more) {
        Ok(()) => Ok(()),
        Err(_) => Err(EditFault::Memory),
    }
}

fn lengthen_node(node: &mut TreeNode, more: &str) -> Result<(), OutOfMemory>
    ensures ok { OnOk result
        (node.new ≡ record node.old { content = lengthened more.now node.old.content }) }
    ensures err { OnErr result (node.new ≡ node.old) }
{
    match &mut node.content {
        NodeData::Text { contents } => contents.push_str(more),
        _ => Ok(()),
    }
}

/// Inserts a new text node at the insertion point.
fn put_new_text(nodes: &mut Vec<TreeNode>, gap: InsertionPoint, text: &str) -> Result<(), EditFault>
    requires sound { IsSoundArena nodes.old.items }
    requires open { IsOpenGap gap (forest_of nodes.old.items) }
    requires alone { text_before gap (forest_of nodes.old.items) ≡ None }
    ensures { Becomes result nodes.old nodes.new (with_text_at gap text.now) (TextCause gap) }
{
    let contents = owned_text(*nodes.allocator(), text)?;
    match gap {
        InsertionPoint::EndOf(t) => append_text(nodes, t, contents),
        _ => place_text(nodes, gap, contents),
    }
}

/// Appends a new text node to the children of a node.
#[inline(always)]
fn append_text(nodes: &mut Vec<TreeNode>, t: NodeId, contents: Text) -> Result<(), EditFault>
    requires sound { IsSoundArena nodes.old.items }
    requires open { IsOpenGap (end_of t) (forest_of nodes.old.items) }
    requires alone { text_before (end_of t) (forest_of nodes.old.items) ≡ None }
    ensures { Becomes result nodes.old nodes.new (with_text_at (end_of t) contents)
        (TextCause (end_of t)) }
{
    add_child(nodes, t, NodeData::Text { contents })?;
    Ok(())
}

/// Makes a detached text node and moves it to the insertion point.
fn place_text(
    nodes: &mut Vec<TreeNode>,
    gap: InsertionPoint,
    contents: Text,
) -> Result<(), EditFault>
    requires sound { IsSoundArena nodes.old.items }
    requires open { IsOpenGap gap (forest_of nodes.old.items) }
    requires alone { text_before gap (forest_of nodes.old.items) ≡ None }
    ensures { Becomes result nodes.old nodes.new (with_text_at gap contents) (TextCause gap) }
{
    let made = TreeNodeOps::create_node(nodes, NodeData::Text { contents })?;
    put_alone(nodes, gap, made);
    Ok(())
}
