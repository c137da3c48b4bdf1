//! A copy of the nodes that an article keeps.

use crate::hidden::is_frame;
use crate::marking::is_marked;
use crate::texts::is_visible;
use dom_nodes::fault::EditFault;
use dom_nodes::node_data::NodeData;
use dom_nodes::node_id::NodeId;
use dom_trees::tree::Tree;

/// Returns a document with a copy of the kept nodes of a tree: each copy is a child of its parent's
/// copy. Documents, fragments, `html` and `body` have no copy, and what is copied of their children
/// stands in their place; the copy of the root is otherwise the only child of the document. Fails
/// when memory or node ids run out.
pub(crate) fn copy_kept(tree: &Tree, root: NodeId, kept: &[bool]) -> Result<Tree, EditFault> {
    let alloc = tree.allocator();
    let mut copy = Tree::new(alloc, NodeData::Document)?;
    let top = copy.root_id();
    let Ok(mut places) = vec![in alloc; top; tree.len()] else {
        return Err(EditFault::Memory);
    };
    copy_node(tree, root, top, &mut copy, &mut places)?;
    for id in tree.descendant_ids_of_it(&root) {
        if is_marked(kept, id)
            && let Some(place) = place_of(tree, id, &places)
        {
            copy_node(tree, id, place, &mut copy, &mut places)?;
        }
    }
    Ok(copy)
}

/// Returns the copy of the parent of a node. `None` for white space between the parts of a page,
/// which isn't copied.
fn place_of(tree: &Tree, id: NodeId, places: &[NodeId]) -> Option<NodeId> {
    let node = tree.tree_node(&id)?;
    let parent = node.parent.get()?;
    if let NodeData::Text { contents } = &node.content
        && !is_visible(contents.as_str())
        && is_above_body(&tree.tree_node(&parent)?.content)
    {
        return None;
    }
    places.get(parent.value()).copied()
}

/// Returns whether a node is one of those that stand above `body`.
fn is_above_body(content: &NodeData) -> bool {
    match content {
        NodeData::Document => true,
        NodeData::Element(element) => element.node_name() == "html",
        _ => false,
    }
}

/// Returns whether a node has no copy, so that its children stand in its place.
fn has_no_copy(content: &NodeData) -> bool {
    match content {
        NodeData::Document | NodeData::Fragment => true,
        NodeData::Element(element) => is_frame(element.node_name()),
        _ => false,
    }
}

/// Copies a node to the end of the children of `place`, unless it is one that has no copy.
fn copy_node(
    tree: &Tree,
    id: NodeId,
    place: NodeId,
    copy: &mut Tree,
    places: &mut Vec<NodeId>,
) -> Result<(), EditFault> {
    let Some(node) = tree.tree_node(&id) else {
        return Ok(());
    };
    let mut made = place;
    if !has_no_copy(&node.content) {
        let Ok(content) = node.content.try_clone() else {
            return Err(EditFault::Memory);
        };
        made = copy.append_child_data_of(&place, content)?;
    }
    if let Some(slot) = places.get_mut(id.value()) {
        *slot = made;
    }
    Ok(())
}
