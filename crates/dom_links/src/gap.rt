//! Which nodes a move takes along, and where they are put.

ghost use Rattle.std.specs.Prelude.{◌≡◌};
ghost use Rattle.dom_links.specs.Insertions.{gap_at};
ghost use Rattle.dom_links.specs.Sound.{target};

use dom_nodes::node_id::NodeId;

/// A position for nodes in a forest, described by a node: at one end of its children, or beside it.
#[derive(Clone, Copy)]
pub enum InsertionPoint {
    EndOf(NodeId),
    FrontOf(NodeId),
    Before(NodeId),
    After(NodeId),
}

/// Which nodes are moved, described by one of them: the node alone, the node with its later
/// siblings, or its whole list of siblings.
#[derive(Clone, Copy)]
pub enum MovedNodes {
    Node(NodeId),
    WithLater(NodeId),
    WholeList(NodeId),
}

/// Where new nodes are inserted, relative to a node.
#[derive(Clone, Copy)]
pub enum Place {
    /// After its last child.
    AtEnd,
    /// Before its first child.
    AtFront,
    /// Immediately before it.
    Before,
    /// Immediately after it.
    After,
    /// In place of its children, which are detached.
    InsteadOfChildren,
    /// In place of the node, which is detached, even when there are no new nodes.
    InsteadOfNode,
    /// Around the node: the first new node is put before it, and the node becomes the last child of
    /// that one. This needs an element as the first new node; without one, the node stays where it
    /// is. The new nodes that aren't used stay detached, as a list of siblings of their own.
    Around,
}

impl Place {
    /// Returns the insertion point that new nodes are put at, relative to the node `x`.
    pub fn gap(self, x: NodeId) -> InsertionPoint
        ensures gap { result ≡ gap_at self x }
        ensures target { target result ≡ x }
    {
        match self {
            Place::AtEnd | Place::InsteadOfChildren => InsertionPoint::EndOf(x),
            Place::AtFront => InsertionPoint::FrontOf(x),
            Place::Before | Place::InsteadOfNode | Place::Around => InsertionPoint::Before(x),
            Place::After => InsertionPoint::After(x),
        }
    }
}
