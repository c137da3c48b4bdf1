//! Writes a tree as HTML without recursion: each node is entered and left once.

ghost use Rattle.std.specs.Prelude.{◌≡◌};
ghost use Rattle.dom_links.specs.Forest.{forest_of};
ghost use Rattle.dom_links.specs.Sound.{IsSoundArena};
ghost use Rattle.dom_markup.specs.Html.{html_of, inner_html_of, is_bare};
ghost use Rattle.dom_markup.specs.EdgeTexts.{edge_text, edges_text, written_nodes};
ghost use Rattle.dom_markup.specs.Writing.{Writes};

use crate::escaping::Escaper;
use crate::serializing::tags::{is_void, is_void_node, keeps_texts, put_end_tag, put_opening};
use crate::writing::PutText;
use dom_links::edges::{Descent, Edge, Entered, NodeEdges};
use dom_links::iters::find_node;
use dom_nodes::node_data::{NodeData, TreeNode};
use dom_nodes::node_id::NodeId;
use dom_trees::tree::Tree;

/// Which nodes are visited when HTML is written; a text is marked if it is not escaped.
struct WrittenNodes;

impl Descent for WrittenNodes {
    ghost descending = { written_nodes };

    fn inside(content: &NodeData) -> Entered {
        match content {
            NodeData::Document | NodeData::Fragment => Entered::Children,
            NodeData::Element(element) if !is_void(element) => Entered::All,
            _ => Entered::Nothing,
        }
    }

    fn mark(content: &NodeData) -> bool {
        keeps_texts(content)
    }
}

/// Writes the HTML of a node; nothing if the tree has no such node.
pub(super) fn put_node<P: PutText<W>, W>(tree: &Tree, id: NodeId, w: &mut W) -> Result<(), P::Fault>
    ensures { Writes (P.written w.old) (P.written w.new) result (html_of tree.now id) }
{
    let nodes = tree.nodes();
    let edges = NodeEdges::of_node(tree.allocator(), nodes, id)?;
    put_edges::<P, W>(nodes, edges, w)
}

/// Writes the HTML of a node's children; nothing for a void element or if the tree has no such
/// node.
pub(super) fn put_children<P: PutText<W>, W>(
    tree: &Tree,
    id: NodeId,
    w: &mut W,
) -> Result<(), P::Fault>
    ensures { Writes (P.written w.old) (P.written w.new) result (inner_html_of tree.now id) }
{
    let nodes = tree.nodes();
    if is_bare(nodes, id) {
        return Ok(());
    }
    let edges = NodeEdges::of_children(tree.allocator(), nodes, id)?;
    put_edges::<P, W>(nodes, edges, w)
}

/// Returns whether the node is a void element, so nothing is written inside it.
fn is_bare(nodes: &[TreeNode], id: NodeId) -> bool
    requires { IsSoundArena nodes.now }
    ensures { result ≡ is_bare (forest_of nodes.now) id }
{
    match find_node(nodes, id) {
        Some(node) => is_void_node(&node.content),
        None => false,
    }
}

/// Writes what each entering and leaving of a node contributes, in order.
fn put_edges<P: PutText<W>, W>(
    nodes: &[TreeNode],
    mut edges: NodeEdges<'_, WrittenNodes>,
    w: &mut W,
) -> Result<(), P::Fault>
    requires { IsSoundArena nodes.now }
    ensures { Writes (P.written w.old) (P.written w.new) result
        (edges_text (forest_of nodes.now) edges.entry) }
{
    let escaper = Escaper::new();
    while let Some(edge) = edges.next()? {
        put_edge::<P, W>(nodes, &escaper, edge, w)?;
    }
    Ok(())
}

/// Writes the start of a node that is entered, or the end tag of one that is left.
fn put_edge<P: PutText<W>, W>(
    nodes: &[TreeNode],
    escaper: &Escaper,
    edge: Edge,
    w: &mut W,
) -> Result<(), P::Fault>
    requires { IsSoundArena nodes.now }
    ensures { Writes (P.written w.old) (P.written w.new) result
        (edge_text (forest_of nodes.now) edge) }
{
    match edge {
        Edge::Open { id, marked } => match find_node(nodes, id) {
            Some(node) => put_opening::<P, W>(w, escaper, &node.content, marked),
            None => Ok(()),
        },
        Edge::Close { id } => match find_node(nodes, id) {
            Some(node) => put_end_tag::<P, W>(w, &node.content),
            None => Ok(()),
        },
    }
}
