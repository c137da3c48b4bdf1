//! One edit as a value, made at one node or at each node of a list.

ghost use Rattle.std.specs.Prelude.{map};
ghost use Rattle.dom_trees.specs.Edits.{Edits};
ghost use Rattle.dom_edits.specs.Edits.{EditsEach, edit_at, putting_known, stripping};

use dom_links::gap::Place;
use dom_markup::document::snippet::Snippet;
use dom_nodes::fault::EditFault;
use dom_nodes::node_data::Change;
use dom_nodes::node_id::NodeId;
use dom_trees::tree::Tree;

/// An edit that is made at a node. The methods of `Tree` with these names say what each does and
/// when it fails.
#[derive(Clone, Copy)]
pub enum Edit<'a> {
    /// Changes the node's own data.
    Change(Change<'a>),
    /// Sets the node's text.
    SetText(&'a str),
    /// Detaches the node.
    Remove,
    /// Removes the node's parent and keeps the parent's children in its place.
    Unwrap,
    /// Replaces each element below the node with one of these local names by its children.
    Strip(&'a [&'a str]),
    /// Joins adjacent text nodes below the node.
    Normalize,
    /// Inserts copies of the nodes of parsed markup at a place relative to the node.
    Put(Place, &'a Snippet),
    /// Inserts copies of nodes of the same tree at a place relative to the node.
    Copy(Place, &'a [NodeId]),
}

/// Why an edit of several nodes ended early. The edit was made at the first `done` nodes; at the
/// next one it failed with `fault`, and that node and those after it are unchanged.
#[derive(Clone, Copy, PartialEq, Eq, Debug, Drop, thiserror::Error)]
#[error("edit refused after {done} nodes: {fault}")]
pub struct SelectionFault {
    pub done: usize,
    pub fault: EditFault,
}

/// Makes the edit at one node. It fails with `UnknownNode` for an unknown id, and otherwise as the
/// method of `Tree` with the name of the edit does. After an error the tree is unchanged.
pub fn edit_node(tree: &mut Tree, id: NodeId, edit: Edit) -> Result<(), EditFault>
    ensures { Edits result tree.old tree.new (edit_at edit.entry id) }
{
    match edit {
        Edit::Change(change) => tree.try_change_of(&id, change),
        Edit::SetText(text) => tree.set_text_of(&id, text),
        Edit::Remove => tree.remove_from_parent(&id),
        Edit::Unwrap => tree.unwrap_node(&id),
        Edit::Strip(names) => strip_known(tree, id, names),
        Edit::Normalize => tree.normalize_of(&id),
        Edit::Put(place, snippet) => put_known(tree, id, place, snippet),
        Edit::Copy(place, ids) => tree.copy_at(&id, place, ids),
    }
}

/// Inserts the parsed markup at a place relative to the node `id`. For an unknown id it fails with
/// `UnknownNode`, before any other test.
fn put_known(tree: &mut Tree, id: NodeId, place: Place, snippet: &Snippet) -> Result<(), EditFault>
    ensures { Edits result tree.old tree.new (putting_known place snippet.now id) }
{
    if id.value() >= tree.len() {
        return Err(EditFault::UnknownNode);
    }
    snippet.put_at(tree, &id, place)
}

/// Replaces elements below the node by their children. For an unknown id it fails with
/// `UnknownNode`.
fn strip_known(tree: &mut Tree, id: NodeId, names: &[&str]) -> Result<(), EditFault>
    ensures { Edits result tree.old tree.new (stripping (map (λ name. name.now) names.now) id) }
{
    if id.value() >= tree.len() {
        return Err(EditFault::UnknownNode);
    }
    tree.strip_elements_of(&id, names);
    Ok(())
}

/// Makes the edit at each of the nodes, one after another. It stops at the first node at which
/// `edit_node` fails, and returns that fault with the number of nodes at which the edit was made.
pub fn edit_each(tree: &mut Tree, nodes: &[NodeId], edit: Edit) -> Result<(), SelectionFault>
    ensures { EditsEach result tree.old tree.new nodes.now (edit_at edit.entry) }
{
    for done in 0..nodes.len() {
        if let Err(fault) = edit_node(tree, nodes[done], edit) {
            return Err(SelectionFault { done, fault });
        }
    }
    Ok(())
}
