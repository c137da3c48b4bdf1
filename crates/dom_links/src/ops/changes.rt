//! Changes of one node's own data. Its id, its links, its kind and its template contents stay. For
//! an unknown id the calls do nothing and return `Ok`.

ghost use Rattle.std.specs.Prelude.{◌≡◌, IsOk, OnErr, OnOk, false};
ghost use Rattle.std.specs.Fn.{FnOnceReturnsAtMut};
ghost use Rattle.dom_nodes.specs.Change.{changed};
ghost use Rattle.dom_nodes.specs.Changes.{with_attrs, with_missing};
ghost use Rattle.dom_links.specs.Contents.{Changed, IsUpdatedAt, may_allocate_at};
ghost use Rattle.dom_links.specs.Forest.{forest_of};
ghost use Rattle.dom_links.specs.ListMoves.{element_at};
ghost use Rattle.dom_links.specs.Sound.{IsSoundArena};

use dom_nodes::fault::OutOfMemory;
use dom_nodes::node_data::{Attrs, Change, NodeEdit, TreeNode};
use dom_nodes::node_id::NodeId;
use std::alloc::Global;

/// Calls the closure with the parts of a node that it may change, as `TreeNode::update` does.
pub fn update<F: FnOnce(&mut NodeEdit)>(nodes: &mut [TreeNode], alloc: Global, x: NodeId, change: F)
    requires sound { IsSoundArena nodes.old }
    requires callable { F.IsAlwaysCallable change }
    ensures updated { IsUpdatedAt (λ edit left. FnOnceReturnsAtMut F.FnOnce change edit tt left)
        x (forest_of nodes.old) (forest_of nodes.new) }
    ensures sound { IsSoundArena nodes.new }
{
    let at = x.value();
    if at < nodes.len() {
        nodes[at].update(alloc, change);
    }
}

/// Adds missing attributes to an element, as `TreeNode::add_attrs_if_missing` does. It fails with
/// `OutOfMemory` when memory is refused, and the nodes are then unchanged.
pub fn add_attrs(nodes: &mut [TreeNode], x: NodeId, attrs: Attrs) -> Result<(), OutOfMemory>
    requires { IsSoundArena nodes.old }
    ensures ok { OnOk result (Changed nodes.old nodes.new x (with_attrs (with_missing attrs))) }
    ensures err { OnErr result (nodes.new ≡ nodes.old) }
    ensures no_element { element_at (forest_of nodes.old) x ≡ false → IsOk result }
{
    let at = x.value();
    if at < nodes.len() {
        nodes[at].add_attrs_if_missing(attrs)
    } else {
        Ok(())
    }
}

/// Applies a change to a node, as `TreeNode::change` does. It fails with `OutOfMemory` when memory
/// is refused, and the nodes are then unchanged.
pub fn apply(nodes: &mut [TreeNode], x: NodeId, change: Change) -> Result<(), OutOfMemory>
    requires { IsSoundArena nodes.old }
    ensures ok { OnOk result (Changed nodes.old nodes.new x (changed change.entry)) }
    ensures err { OnErr result (nodes.new ≡ nodes.old) }
    ensures sure { may_allocate_at (forest_of nodes.old) x change.entry ≡ false → IsOk result }
{
    let at = x.value();
    if at < nodes.len() {
        nodes[at].change(change)
    } else {
        Ok(())
    }
}
