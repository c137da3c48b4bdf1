//! Copies of nodes with their subtrees, and of a whole tree.

ghost use Rattle.std.specs.Prelude.{◌≡◌, [], IfErr, IfOk, MatchResult};
ghost use Rattle.dom_nodes.specs.declared.fault.EditFault.TheVariants.{Memory};
ghost use Rattle.dom_links.specs.Copies.{FragmentCause, fragment_of};
ghost use Rattle.dom_trees.specs.Edits.{Copies};
ghost use Rattle.dom_trees.specs.NewNodes.{html_root_element};

use crate::tree::Tree;
use dom_links::ops::copies;
use dom_nodes::fault::{EditFault, OutOfMemory};
use dom_nodes::name::{LocalName, QualName};
use dom_nodes::node_data::{Attrs, Element, NodeData, TreeNode};
use dom_nodes::node_id::NodeId;
use std::alloc::Global;

impl Tree {
    /// Copies nodes of another tree with their subtrees, and returns the ids of the copies, in
    /// order. Each copy is detached. The new nodes get consecutive ids in document order; template
    /// contents are copied too, and come immediately after their element. It fails with
    /// `UnknownNode` for an id that `other` doesn't have, with `RootOrFragment` for a document or a
    /// fragment, and with `TooManyNodes` or `Memory`. After an error the tree is unchanged.
    pub fn merge(&mut self, other: &Tree, ids: &[NodeId]) -> Result<Vec<NodeId>, EditFault>
        ensures { Copies result self.old self.new other.now ids.now }
    {
        copies::merge(&mut self.nodes, &other.nodes, ids)
    }

    /// Copies nodes of this tree with their subtrees, and returns the ids of the copies, in order.
    /// Each copy is detached. The new nodes get ids as in `merge`. It fails with `UnknownNode` for
    /// an unknown id, with `RootOrFragment` for a document or a fragment, and with `TooManyNodes`
    /// or `Memory`. After an error the tree is unchanged.
    pub fn copy_nodes(&mut self, ids: &[NodeId]) -> Result<Vec<NodeId>, EditFault>
        ensures { Copies result self.old self.new self.old ids.now }
    {
        copies::copy_nodes(&mut self.nodes, ids)
    }

    /// Returns a new tree whose root is a fragment with one child, an element `html`; the children
    /// of that are copies of nodes of another tree. It fails as `merge` does.
    pub fn fragment_of(other: &Tree, ids: &[NodeId]) -> Result<Tree, EditFault>
        ensures ok { IfOk result (λ tree. tree ≡ fragment_of html_root_element other.now ids.now) }
        ensures cause { IfErr result
            (λ fault. FragmentCause html_root_element other.now ids.now fault) }
    {
        let html = html_root_element(other.allocator())?;
        Ok(Tree {
            nodes: copies::fragment_of(other.allocator(), html, &other.nodes, ids)?,
        })
    }

    /// Returns a copy of the whole tree in which every node has the same id, detached nodes
    /// included. It fails with `OutOfMemory` when memory is refused.
    pub fn try_clone(&self) -> Result<Tree, OutOfMemory>
        ensures { IfOk result (λ copy. copy ≡ self.now) }
    {
        let nodes = cloned(self.allocator(), self.nodes())?;
        Ok(Tree { nodes })
    }
}

/// Returns a copy of the nodes.
fn cloned(alloc: Global, nodes: &[TreeNode]) -> Result<Vec<TreeNode>, OutOfMemory>
    ensures { IfOk result (λ made. made.items ≡ nodes.now) }
{
    let mut made = with_room(alloc, nodes.len())?;
    TreeNode::push_copies(&mut made, nodes)?;
    Ok(made)
}

/// Returns an empty vector with room for `count` nodes, and for half as many more if there is
/// memory for them: a copy is mostly made to be changed, and then it needn't grow for the first new
/// node.
fn with_room(alloc: Global, count: usize) -> Result<Vec<TreeNode>, OutOfMemory>
    ensures { IfOk result (λ made. made.items ≡ []) }
{
    match Vec::with_capacity(alloc, count.saturating_add(count / 2)) {
        Ok(made) => Ok(made),
        Err(_) => Ok(Vec::with_capacity(alloc, count)?),
    }
}

/// Returns the data of an element `html`. It fails with `Memory`.
fn html_root_element(alloc: Global) -> Result<NodeData, EditFault>
    ensures { MatchResult result (λ made. made ≡ html_root_element) (λ fault. fault ≡ Memory) }
{
    match LocalName::new(alloc, "html") {
        Ok(local) => Ok(NodeData::Element(Element::new(
            QualName::html(local),
            Attrs::new(alloc),
            None,
            false,
        ))),
        Err(_) => Err(EditFault::Memory),
    }
}
