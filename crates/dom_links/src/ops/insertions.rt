//! Inserting copies of nodes at a place in an arena. All memory is allocated before a link of an
//! old node changes, so an error leaves the tree as it was.

ghost use Rattle.std.specs.Prelude.{◌≡◌, ◌<◌, ◌∷◌, [], false, length, true};
ghost use Rattle.dom_links.specs.Forest.{IsArenaOf, forest_of};
ghost use Rattle.dom_links.specs.Insertions.{Inserted, Placed, around_it, gap_at, placed};
ghost use Rattle.dom_links.specs.ListMoves.{AllowedList, AreNodes, MovedList, element_at};
ghost use Rattle.dom_links.specs.Lists.{first, is_member};
ghost use Rattle.dom_links.specs.Moves.{detach};
ghost use Rattle.dom_links.specs.Sound.{IsSoundArena, is_open, target};

use crate::gap::{InsertionPoint, Place};
use crate::ops::TreeNodeOps;
use crate::ops::copies::{copy_nodes, merge, merge_one};
use crate::ops::lists::{remove_children, wrap_node};
use crate::ops::moves::put_at;
use dom_nodes::fault::EditFault;
use dom_nodes::node_data::TreeNode;
use dom_nodes::node_id::NodeId;

/// Copies nodes of another arena and inserts the copies at a place relative to the node `x`. It
/// fails as `merge` does, and then nothing changes. For a single node no list of ids is allocated.
pub fn merge_at(
    nodes: &mut Vec<TreeNode>,
    x: NodeId,
    place: Place,
    other: &[TreeNode],
    ids: &[NodeId],
) -> Result<(), EditFault>
    requires sound { IsSoundArena nodes.old.items }
    requires known { x < length (forest_of nodes.old.items).content }
    requires open { is_open (gap_at place x) (forest_of nodes.old.items) ≡ true }
    requires other { IsSoundArena other.now }
    ensures { Inserted result (forest_of other.now) ids.now place x nodes.old.items
        nodes.new.items }
{
    if let [id] = ids {
        let one = merge_one(nodes, other, ids, *id)?;
        put_copies(nodes, x, place, &[one]);
        return Ok(());
    }
    let made = merge(nodes, other, ids)?;
    put_copies(nodes, x, place, &made);
    Ok(())
}

/// Copies nodes of this arena and inserts the copies at a place relative to the node `x`. It fails
/// as `copy_nodes` does, and then nothing changes.
pub fn copy_at(
    nodes: &mut Vec<TreeNode>,
    x: NodeId,
    place: Place,
    ids: &[NodeId],
) -> Result<(), EditFault>
    requires sound { IsSoundArena nodes.old.items }
    requires known { x < length (forest_of nodes.old.items).content }
    requires open { is_open (gap_at place x) (forest_of nodes.old.items) ≡ true }
    ensures { Inserted result (forest_of nodes.old.items) ids.now place x nodes.old.items
        nodes.new.items }
{
    let made = copy_nodes(nodes, ids)?;
    put_copies(nodes, x, place, &made);
    Ok(())
}

/// Inserts nodes at a place relative to `x`; they must be allowed there.
fn put_copies(nodes: &mut [TreeNode], x: NodeId, place: Place, new: &[NodeId])
    requires sound { IsSoundArena nodes.old }
    requires new { AreNodes (forest_of nodes.old) new.now }
    requires allowed { AllowedList (forest_of nodes.old) (gap_at place x) new.now }
    ensures made { forest_of nodes.new ≡ placed place x new.now (forest_of nodes.old) }
    ensures sound { IsSoundArena nodes.new }
{
    put_new(nodes, x, place, new);
}

/// Inserts nodes at a place relative to `x`.
fn put_new(nodes: &mut [TreeNode], x: NodeId, place: Place, new: &[NodeId])
    requires linked { IsArenaOf (forest_of nodes.old) nodes.old }
    requires known { x < length nodes.old }
    requires new { AreNodes (forest_of nodes.old) new.now }
    requires apart { is_member x new.now ≡ false }
    ensures { Placed nodes.old nodes.new place x new.now }
{
    match place {
        Place::InsteadOfChildren => {
            remove_children(nodes, x);
            move_list(nodes, InsertionPoint::EndOf(x), new);
        }
        Place::InsteadOfNode => {
            move_list(nodes, InsertionPoint::Before(x), new);
            TreeNodeOps::remove_from_parent(nodes, x);
        }
        Place::Around => put_around(nodes, x, new),
        Place::AtEnd => move_list(nodes, InsertionPoint::EndOf(x), new),
        Place::AtFront => move_list(nodes, InsertionPoint::FrontOf(x), new),
        Place::Before => move_list(nodes, InsertionPoint::Before(x), new),
        Place::After => move_list(nodes, InsertionPoint::After(x), new),
    }
}

/// Detaches the nodes as one list of siblings, and wraps `x` in the first of them if that is an
/// element.
fn put_around(nodes: &mut [TreeNode], x: NodeId, new: &[NodeId])
    requires linked { IsArenaOf (forest_of nodes.old) nodes.old }
    requires known { x < length nodes.old }
    requires new { AreNodes (forest_of nodes.old) new.now }
    requires apart { is_member x new.now ≡ false }
    ensures { Placed nodes.old nodes.new around_it x new.now }
{
    let Some(start) = gather(nodes, new) else {
        return;
    };
    if is_element(nodes, start) {
        wrap_node(nodes, x, start);
    }
}

fn is_element(nodes: &[TreeNode], x: NodeId) -> bool
    requires linked { IsArenaOf (forest_of nodes.now) nodes.now }
    requires known { x < length nodes.now }
    ensures { result ≡ element_at (forest_of nodes.now) x }
{
    nodes[x.value()].content.is_element()
}

/// Moves nodes, in this order, to an insertion point.
fn move_list(nodes: &mut [TreeNode], gap: InsertionPoint, moved: &[NodeId])
    requires linked { IsArenaOf (forest_of nodes.old) nodes.old }
    requires target_known { target gap < length nodes.old }
    requires moved { AreNodes (forest_of nodes.old) moved.now }
    requires apart { is_member (target gap) moved.now ≡ false }
    ensures { MovedList nodes.old nodes.new gap moved.now }
{
    let Some(start) = gather(nodes, moved) else {
        return;
    };
    put_at(nodes, gap, start);
}

/// Detaches the nodes, makes them siblings in this order, and returns the first of them.
fn gather(nodes: &mut [TreeNode], moved: &[NodeId]) -> Option<NodeId>
    requires linked { IsArenaOf (forest_of nodes.old) nodes.old }
    requires moved { AreNodes (forest_of nodes.old) moved.now }
    ensures arena { IsArenaOf (detach moved.now (forest_of nodes.old)) nodes.new }
    ensures start { result ≡ first moved.now }
{
    let Some((start, others)) = moved.split_first() else {
        return None;
    };
    TreeNodeOps::remove_from_parent(nodes, *start);
    let mut last = *start;
    for id in others {
        TreeNodeOps::insert_after_of(nodes, last, *id);
        last = *id;
    }
    Some(*start)
}
