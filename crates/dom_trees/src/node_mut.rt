//! `NodeMut`: a node together with a mutable borrow of its tree. Each edit calls the method of
//! `Tree` that does the same by id. When an edit fails, the tree is unchanged.

ghost use Rattle.std.specs.Prelude.{◌≡◌, ◌≤◌, MatchOption, length};
ghost use Rattle.std.specs.Borrow.{sem};
ghost use Rattle.dom_links.specs.declared.gap.InsertionPoint.TheVariants.{After, Before, EndOf, FrontOf};
ghost use Rattle.dom_links.specs.declared.gap.MovedNodes.TheVariants.{Node, WholeList, WithLater};
ghost use Rattle.dom_trees.specs.Edits.{moving_to, removing, removing_children, replacing};
ghost use Rattle.dom_trees.specs.Edits.{unwrapping, wrapping};
ghost use Rattle.dom_trees.specs.Lending.{EditsAt};

use crate::tree::Tree;
use dom_nodes::fault::EditFault;
use dom_nodes::node_id::NodeId;

mod changes;
mod texts;

/// A node of a tree, which may be changed.
#[derive(Drop)]
pub struct NodeMut<'a> {
    pub id: NodeId,
    pub tree: &'a mut Tree,
}

impl Tree {
    ghost use Rattle.dom_trees.specs.Lending.{LendsNode};

    /// Returns the node with this id for edits, or `None` for an unknown id.
    pub fn node_mut(&mut self, id: &NodeId) -> Option<NodeMut<'_>>
        ensures* lends { sem 𝓛 (LendsNode self.entry result) }
        ensures node { MatchOption result (length self.old.content ≤ id.now)
            (λ node. (node.id ≡ id.now) × (node.tree.now ≡ self.old)
            × (node.tree.ghost_name ≡ self.entry.ghost_name)) }
    {
        if id.value() >= self.len() {
            return None;
        }
        Some(NodeMut {
            id: *id,
            tree: self,
        })
    }
}

impl<'a> NodeMut<'a> {
    /// Detaches the node from its parent and its siblings. A node that is detached already stays as
    /// it is. It fails with `UnknownNode` only.
    pub fn remove_from_parent(&mut self) -> Result<(), EditFault>
        ensures { EditsAt result self.old self.new (removing self.old.id) }
    {
        self.tree.remove_from_parent(&self.id)
    }

    /// Detaches the children of the node. They stay siblings of each other. It fails with
    /// `UnknownNode` only.
    pub fn remove_children(&mut self) -> Result<(), EditFault>
        ensures { EditsAt result self.old self.new (removing_children self.old.id) }
    {
        self.tree.remove_children_of(&self.id)
    }

    /// Moves another node to the end of this node's children. It fails as `Tree::move_to` does.
    pub fn append_child(&mut self, new_child: &NodeId) -> Result<(), EditFault>
        ensures { EditsAt result self.old self.new
            (moving_to (EndOf self.old.id) (Node new_child.now)) }
    {
        self.tree.append_child_of(&self.id, new_child)
    }

    /// Moves another node to the front of this node's children. It fails as `Tree::move_to` does.
    pub fn prepend_child(&mut self, new_child: &NodeId) -> Result<(), EditFault>
        ensures { EditsAt result self.old self.new
            (moving_to (FrontOf self.old.id) (Node new_child.now)) }
    {
        self.tree.prepend_child_of(&self.id, new_child)
    }

    /// Moves another node to the place immediately before this one. It fails as `Tree::move_to`
    /// does.
    pub fn insert_before(&mut self, new_sibling: &NodeId) -> Result<(), EditFault>
        ensures { EditsAt result self.old self.new
            (moving_to (Before self.old.id) (Node new_sibling.now)) }
    {
        self.tree.insert_before_of(&self.id, new_sibling)
    }

    /// Moves another node to the place immediately after this one. It fails as `Tree::move_to`
    /// does.
    pub fn insert_after(&mut self, new_sibling: &NodeId) -> Result<(), EditFault>
        ensures { EditsAt result self.old self.new
            (moving_to (After self.old.id) (Node new_sibling.now)) }
    {
        self.tree.insert_after_of(&self.id, new_sibling)
    }

    /// Moves another node and its later siblings to the end of this node's children. It fails as
    /// `Tree::move_to` does.
    pub fn append_children(&mut self, new_child: &NodeId) -> Result<(), EditFault>
        ensures { EditsAt result self.old self.new
            (moving_to (EndOf self.old.id) (WithLater new_child.now)) }
    {
        self.tree.append_children_of(&self.id, new_child)
    }

    /// Moves another node and all its siblings to the front of this node's children. It fails as
    /// `Tree::move_to` does.
    pub fn prepend_children(&mut self, new_child: &NodeId) -> Result<(), EditFault>
        ensures { EditsAt result self.old self.new
            (moving_to (FrontOf self.old.id) (WholeList new_child.now)) }
    {
        self.tree.prepend_children_of(&self.id, new_child)
    }

    /// Moves another node and its later siblings to the place immediately before this one. It fails
    /// as `Tree::move_to` does.
    pub fn insert_siblings_before(&mut self, new_sibling: &NodeId) -> Result<(), EditFault>
        ensures { EditsAt result self.old self.new
            (moving_to (Before self.old.id) (WithLater new_sibling.now)) }
    {
        self.tree.insert_siblings_before(&self.id, new_sibling)
    }

    /// Moves another node and its later siblings to the place immediately after this one. It fails
    /// as `Tree::move_to` does.
    pub fn insert_siblings_after(&mut self, new_sibling: &NodeId) -> Result<(), EditFault>
        ensures { EditsAt result self.old self.new
            (moving_to (After self.old.id) (WithLater new_sibling.now)) }
    {
        self.tree.insert_siblings_after(&self.id, new_sibling)
    }

    /// Moves another node to the place of this one, and detaches this one. It fails as
    /// `Tree::replace_with` does.
    pub fn replace_with(&mut self, new_node: &NodeId) -> Result<(), EditFault>
        ensures { EditsAt result self.old self.new (replacing self.old.id new_node.now) }
    {
        self.tree.replace_with(&self.id, new_node)
    }

    /// Wraps this node: moves the wrapper to the place immediately before it, and then this node to
    /// the end of the wrapper's children. It fails as `Tree::wrap_node` does.
    pub fn wrap_node(&mut self, wrapper: &NodeId) -> Result<(), EditFault>
        ensures { EditsAt result self.old self.new (wrapping self.old.id wrapper.now) }
    {
        self.tree.wrap_node(&self.id, wrapper)
    }

    /// Removes the parent of this node and keeps the parent's children in its place. If the parent
    /// or the grandparent is no element, nothing changes. It fails with `UnknownNode` only.
    pub fn unwrap_node(&mut self) -> Result<(), EditFault>
        ensures { EditsAt result self.old self.new (unwrapping self.old.id) }
    {
        self.tree.unwrap_node(&self.id)
    }
}
