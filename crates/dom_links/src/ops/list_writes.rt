//! Writing the links for moves of several siblings.

ghost use Rattle.std.specs.Prelude.{◌≡◌, ◌<◌, length, Some};
ghost use Rattle.dom_links.specs.Lists.{last};
ghost use Rattle.dom_links.specs.ListWrites.{IsPointIn, NextsKnown, ParentsSet, RunAttached};
ghost use Rattle.dom_links.specs.ListWrites.{next_chain};

use crate::ops::moves::ResolvedPoint;
use crate::ops::writes::join;
use dom_nodes::link::Link;
use dom_nodes::node_data::TreeNode;
use dom_nodes::node_id::NodeId;

/// Sets the parent of a node and of all siblings after it, and returns the last of them.
pub(crate) fn set_parents(nodes: &mut [TreeNode], x: NodeId, owner: Option<NodeId>) -> NodeId
    requires known { x < length nodes.old }
    requires nexts_known { NextsKnown nodes.old }
    ensures set { ParentsSet nodes.old nodes.new (next_chain nodes.old x) owner }
    ensures end { last (next_chain nodes.old x) ≡ Some result }
    ensures end_known { result < length nodes.old }
{
    let owner = &owner;
    let mut end = x;
    let mut next = Some(x);
    for _step in 0..nodes.len() {
        let Some(at) = next else {
            return end;
        };
        let node = &mut nodes[at.value()];
        node.parent = Link::new(*owner);
        next = node.next_sibling.get();
        end = at;
    }
    end
}

/// Links a node and all siblings after it between two neighbours below a parent.
pub(crate) fn attach_run(nodes: &mut [TreeNode], x: NodeId, point: &ResolvedPoint)
    requires known { x < length nodes.old }
    requires nexts_known { NextsKnown nodes.old }
    requires point_known { IsPointIn (length nodes.old) point.now }
    ensures { RunAttached nodes.old nodes.new x point.now.owner point.now.left point.now.right }
{
    let end = set_parents(nodes, x, point.owner);
    join(nodes, point.owner, point.left, Some(x));
    join(nodes, point.owner, Some(end), point.right);
}
