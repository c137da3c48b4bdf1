//! Formatting of a tree by a traversal, edge by edge.

ghost use Rattle.std.specs.Prelude.{◌≡◌, [], IfOk, OnOk, string_bytes};
ghost use Rattle.std.specs.Str.{IsUtf8};
ghost use Rattle.dom_links.specs.Forest.{forest_of};
ghost use Rattle.dom_links.specs.Sound.{IsSoundArena};
ghost use Rattle.dom_links.specs.Texts.{text_of};
ghost use Rattle.dom_md.specs.Adding.{Adds};
ghost use Rattle.dom_md.specs.EdgeEvents.{Formats, IsFolded, close_events, edge_events};
ghost use Rattle.dom_md.specs.EdgeEvents.{edges_events, inside_element, open_events, outside_pre};
ghost use Rattle.dom_md.specs.Formatted.{events_below, formatted_node};

use crate::formatting::names::is_pre;
use crate::formatting::steps::{add_text, close_element, open_element};
use dom_links::edges::{Descent, Edge, Entered, NodeEdges};
use dom_links::iters::find_node;
use dom_links::ops::TreeNodeOps;
use dom_nodes::fault::OutOfMemory;
use dom_nodes::name::LocalRef;
use dom_nodes::node_data::{NodeData, TreeNode};
use dom_nodes::node_id::NodeId;
use dom_trees::tree::Tree;
use std::alloc::Global;

/// The traversal of all nodes except those below a `pre`.
struct OutsidePre;

impl Descent for OutsidePre {
    ghost descending = { outside_pre };

    #[inline(always)]
    fn inside(content: &NodeData) -> Entered {
        match content {
            NodeData::Document | NodeData::Fragment => Entered::Children,
            NodeData::Element(element) => inside_element(&element.name().local()),
            _ => Entered::Nothing,
        }
    }

    fn mark(_content: &NodeData) -> bool {
        false
    }
}

/// Returns what the traversal enters of an element with this name.
#[inline(always)]
fn inside_element(name: &LocalRef<'_>) -> Entered
    ensures { result ≡ inside_element name.now }
{
    if is_pre(name) {
        return Entered::Nothing;
    }
    Entered::Children
}

/// Returns the formatted text of what is below the node; an empty string for an unknown id.
pub(super) fn format_children(tree: &Tree, id: NodeId) -> Result<String, OutOfMemory>
    ensures { IfOk result (λ text. IsFolded [] (string_bytes text) (events_below tree.now id)) }
{
    let nodes = tree.nodes();
    let edges = NodeEdges::of_children(tree.allocator(), nodes, id)?;
    format_edges(tree.allocator(), nodes, edges)
}

/// Returns the formatted text of the node; an empty string for a document, a fragment or an unknown
/// id.
pub(super) fn format_node(tree: &Tree, id: NodeId) -> Result<String, OutOfMemory>
    ensures { IfOk result (λ text. string_bytes text ≡ formatted_node tree.now id) }
{
    let nodes = tree.nodes();
    let Some(node) = find_node(nodes, id) else {
        return Ok(String::new(tree.allocator()));
    };
    if node.content.is_top() {
        return Ok(String::new(tree.allocator()));
    }
    let edges = NodeEdges::of_node(tree.allocator(), nodes, id)?;
    format_edges(tree.allocator(), nodes, edges)
}

/// Formats the edges, one after another, and returns the text.
fn format_edges(
    alloc: Global,
    nodes: &[TreeNode],
    mut edges: NodeEdges<'_, OutsidePre>,
) -> Result<String, OutOfMemory>
    requires { IsSoundArena nodes.now }
    ensures { IfOk result (λ text. IsFolded [] (string_bytes text)
        (edges_events (forest_of nodes.now) edges.entry)) }
{
    let mut text = String::new(alloc);
    while let Some(edge) = edges.next()? {
        format_edge(nodes, edge, &mut text)?;
    }
    Ok(text)
}

/// Appends what an edge adds to the text.
fn format_edge(nodes: &[TreeNode], edge: Edge, text: &mut String) -> Result<(), OutOfMemory>
    requires { IsSoundArena nodes.now }
    ensures { Formats text.old text.new result (edge_events (forest_of nodes.now) edge) }
{
    match edge {
        Edge::Open { id, .. } => match find_node(nodes, id) {
            Some(node) => open_node(nodes, id, &node.content, text),
            None => Ok(()),
        },
        Edge::Close { id } => match find_node(nodes, id) {
            Some(node) => close_node(&node.content, text),
            None => Ok(()),
        },
    }
}

/// Appends what the opening of a node adds. A `pre` is written completely, since nothing below it
/// is entered.
fn open_node(
    nodes: &[TreeNode],
    id: NodeId,
    content: &NodeData,
    text: &mut String,
) -> Result<(), OutOfMemory>
    requires { IsSoundArena nodes.now }
    ensures { Formats text.old text.new result (open_events (forest_of nodes.now) id content.now) }
{
    match content {
        NodeData::Text { contents } => Ok(add_text(text, contents.as_str())?),
        NodeData::Element(element) => {
            let name = &element.name().local();
            open_element(text, name)?;
            if is_pre(name) {
                keep_text(nodes, id, text)?;
                close_element(text, name)?;
            }
            Ok(())
        }
        _ => Ok(()),
    }
}

/// Appends what the end of a node adds.
fn close_node(content: &NodeData, text: &mut String) -> Result<(), OutOfMemory>
    ensures { Formats text.old text.new result (close_events content.now) }
{
    match content {
        NodeData::Element(element) => Ok(close_element(text, &element.name().local())?),
        _ => Ok(()),
    }
}

/// Appends the text of the node unchanged.
fn keep_text(nodes: &[TreeNode], id: NodeId, text: &mut String) -> Result<(), OutOfMemory>
    requires { IsSoundArena nodes.now }
    ensures text { Adds text.old text.new result (text_of (forest_of nodes.now) id) }
    ensures utf8 { OnOk result (IsUtf8 (text_of (forest_of nodes.now) id)) }
{
    let kept = TreeNodeOps::text_of(*text.allocator(), nodes, &id)?;
    Ok(text.push_str(kept.as_str())?)
}
