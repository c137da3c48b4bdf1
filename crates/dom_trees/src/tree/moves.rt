//! Moves of nodes: they are detached, and then put at an insertion point or left detached. The
//! moves allocate no memory. When one fails, the tree is unchanged.

ghost use Rattle.std.specs.Prelude.{◌≡◌};
ghost use Rattle.dom_links.specs.ListMoves.{moved_nodes};
ghost use Rattle.dom_links.specs.Moves.{moved_to};
ghost use Rattle.dom_links.specs.declared.gap.InsertionPoint.TheVariants.{After, Before, EndOf, FrontOf};
ghost use Rattle.dom_links.specs.declared.gap.MovedNodes.TheVariants.{Node, WholeList, WithLater};
ghost use Rattle.dom_trees.specs.Edits.{Edits, MayMove, moving_to, removing, removing_children, reparenting};
ghost use Rattle.dom_trees.specs.Edits.{replacing, unwrapping, wrapping};

use crate::checks::{check_known, check_move, check_reparent, check_wrap};
use crate::tree::Tree;
use dom_links::gap::{InsertionPoint, MovedNodes};
use dom_links::ops::{TreeNodeOps, lists};
use dom_nodes::fault::EditFault;
use dom_nodes::node_id::NodeId;

impl Tree {
    /// Moves nodes to an insertion point. It fails with `UnknownNode` when the target or the moved
    /// node is unknown; with `NoChildrenHere` when the target would get children and can't have
    /// any; with `RootOrFragment` when the target would get siblings and is the root, a document or
    /// a fragment, or when a moved node is one of these; with `Cycle` when the target is a moved
    /// node or inside one, by children or template contents.
    pub fn move_to(&mut self, gap: InsertionPoint, moving: MovedNodes) -> Result<(), EditFault>
        ensures { Edits result self.old self.new (moving_to gap moving) }
    {
        check_move(&self.nodes, &gap, &moving)?;
        self.move_allowed(gap, moving);
        Ok(())
    }

    /// Moves nodes to an insertion point. The caller must have proved that this move is allowed
    /// (`MayMove`). It searches no ancestors for a cycle, so its time depends only on the nodes
    /// that are moved.
    pub fn move_allowed(&mut self, gap: InsertionPoint, moving: MovedNodes)
        requires { MayMove gap moving self.old }
        ensures { self.new ≡ moved_to (moved_nodes self.old moving) gap self.old }
    {
        TreeNodeOps::move_to(&mut self.nodes, gap, moving);
    }

    /// Moves the node `new_child` to the end of the children of the node `id`. It fails as `move_to`
    /// does.
    pub fn append_child_of(&mut self, id: &NodeId, new_child: &NodeId) -> Result<(), EditFault>
        ensures { Edits result self.old self.new (moving_to (EndOf id.now) (Node new_child.now)) }
    {
        self.move_to(InsertionPoint::EndOf(*id), MovedNodes::Node(*new_child))
    }

    /// Moves a node to the front of the children of the node `id`. It fails as `move_to` does.
    pub fn prepend_child_of(&mut self, id: &NodeId, new_child: &NodeId) -> Result<(), EditFault>
        ensures { Edits result self.old self.new (moving_to (FrontOf id.now) (Node new_child.now)) }
    {
        self.move_to(InsertionPoint::FrontOf(*id), MovedNodes::Node(*new_child))
    }

    /// Moves a node to the place immediately before the node `id`. It fails as `move_to` does.
    pub fn insert_before_of(&mut self, id: &NodeId, new_sibling: &NodeId) -> Result<(), EditFault>
        ensures { Edits result self.old self.new
            (moving_to (Before id.now) (Node new_sibling.now)) }
    {
        self.move_to(InsertionPoint::Before(*id), MovedNodes::Node(*new_sibling))
    }

    /// Moves a node to the place immediately after the node `id`. It fails as `move_to` does.
    pub fn insert_after_of(&mut self, id: &NodeId, new_sibling: &NodeId) -> Result<(), EditFault>
        ensures { Edits result self.old self.new (moving_to (After id.now) (Node new_sibling.now)) }
    {
        self.move_to(InsertionPoint::After(*id), MovedNodes::Node(*new_sibling))
    }

    /// Moves a node and its later siblings to the end of the children of the node `id`. It fails as
    /// `move_to` does.
    pub fn append_children_of(&mut self, id: &NodeId, new_child: &NodeId) -> Result<(), EditFault>
        ensures { Edits result self.old self.new
            (moving_to (EndOf id.now) (WithLater new_child.now)) }
    {
        self.move_to(
            InsertionPoint::EndOf(*id),
            MovedNodes::WithLater(*new_child),
        )
    }

    /// Moves a node and all its siblings to the front of the children of the node `id`. It fails as
    /// `move_to` does.
    pub fn prepend_children_of(&mut self, id: &NodeId, new_child: &NodeId) -> Result<(), EditFault>
        ensures { Edits result self.old self.new
            (moving_to (FrontOf id.now) (WholeList new_child.now)) }
    {
        self.move_to(
            InsertionPoint::FrontOf(*id),
            MovedNodes::WholeList(*new_child),
        )
    }

    /// Moves a node and its later siblings to the place immediately before the node `id`. It fails
    /// as `move_to` does.
    pub fn insert_siblings_before(
        &mut self,
        id: &NodeId,
        new_sibling: &NodeId,
    ) -> Result<(), EditFault>
        ensures { Edits result self.old self.new
            (moving_to (Before id.now) (WithLater new_sibling.now)) }
    {
        self.move_to(
            InsertionPoint::Before(*id),
            MovedNodes::WithLater(*new_sibling),
        )
    }

    /// Moves a node and its later siblings to the place immediately after the node `id`. It fails
    /// as `move_to` does.
    pub fn insert_siblings_after(
        &mut self,
        id: &NodeId,
        new_sibling: &NodeId,
    ) -> Result<(), EditFault>
        ensures { Edits result self.old self.new
            (moving_to (After id.now) (WithLater new_sibling.now)) }
    {
        self.move_to(
            InsertionPoint::After(*id),
            MovedNodes::WithLater(*new_sibling),
        )
    }

    /// Detaches a node from its parent and its siblings. A node that is detached already stays as
    /// it is. It fails with `UnknownNode` only.
    pub fn remove_from_parent(&mut self, id: &NodeId) -> Result<(), EditFault>
        ensures { Edits result self.old self.new (removing id.now) }
    {
        check_known(&self.nodes, *id)?;
        TreeNodeOps::remove_from_parent(&mut self.nodes, *id);
        Ok(())
    }

    /// Detaches the children of a node. They stay siblings of each other. It fails with
    /// `UnknownNode` only.
    pub fn remove_children_of(&mut self, id: &NodeId) -> Result<(), EditFault>
        ensures { Edits result self.old self.new (removing_children id.now) }
    {
        check_known(&self.nodes, *id)?;
        lists::remove_children(&mut self.nodes, *id);
        Ok(())
    }

    /// Moves the children of a node to the end of the children of `new_parent`. Without a new
    /// parent they are detached, and stay siblings of each other. It fails with `UnknownNode`; with
    /// `NoChildrenHere` when the new parent can't have children, even if there are none to move;
    /// with `Cycle` when the new parent is one of the children or inside one.
    pub fn reparent_children_of(
        &mut self,
        id: &NodeId,
        new_parent: Option<NodeId>,
    ) -> Result<(), EditFault>
        ensures { Edits result self.old self.new (reparenting id.now new_parent) }
    {
        let parent = new_parent;
        check_reparent(&self.nodes, *id, parent)?;
        TreeNodeOps::reparent_children_of(&mut self.nodes, *id, new_parent);
        Ok(())
    }

    /// Moves a node to the place immediately before the node `id`, and then detaches that one. It
    /// fails as `move_to` does for the first of these steps.
    pub fn replace_with(&mut self, id: &NodeId, new_node: &NodeId) -> Result<(), EditFault>
        ensures { Edits result self.old self.new (replacing id.now new_node.now) }
    {
        check_move(
            &self.nodes,
            &InsertionPoint::Before(*id),
            &MovedNodes::Node(*new_node),
        )?;
        lists::replace_with(&mut self.nodes, *id, *new_node);
        Ok(())
    }

    /// Moves `wrapper` to the place immediately before the node `id`, and then that node to the end
    /// of the wrapper's children. It fails as `move_to` does when one of the two steps isn't
    /// allowed.
    pub fn wrap_node(&mut self, id: &NodeId, wrapper: &NodeId) -> Result<(), EditFault>
        ensures { Edits result self.old self.new (wrapping id.now wrapper.now) }
    {
        check_wrap(&self.nodes, *id, *wrapper)?;
        lists::wrap_node(&mut self.nodes, *id, *wrapper);
        Ok(())
    }

    /// Removes the parent of a node and keeps the parent's children in its place. If the parent or
    /// the grandparent is no element, nothing changes. It fails with `UnknownNode` only.
    pub fn unwrap_node(&mut self, id: &NodeId) -> Result<(), EditFault>
        ensures { Edits result self.old self.new (unwrapping id.now) }
    {
        check_known(&self.nodes, *id)?;
        lists::unwrap_node(&mut self.nodes, *id);
        Ok(())
    }
}
