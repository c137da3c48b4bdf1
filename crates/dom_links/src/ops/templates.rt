//! Making elements with template contents: the element and its contents fragment together.

ghost use Rattle.std.specs.Prelude.{◌≡◌, ◌<◌, ◌+◌, ◌∷◌, ◌++◌, [], List, IfErr, OnErr, OnOk};
ghost use Rattle.std.specs.Prelude.{vec_len};
ghost use Rattle.dom_nodes.specs.declared.node_data.TreeNode.{TreeNode};
ghost use Rattle.dom_links.specs.ArenaEdits.{AddsNodes};
ghost use Rattle.dom_links.specs.Forest.{IsArenaOf, forest_of};
ghost use Rattle.dom_links.specs.Growth.{AppendedTemplate, Created, CreatedTemplate};
ghost use Rattle.dom_links.specs.Growth.{NoRoom, NoRoomForTwo};

use crate::ops::TreeNodeOps;
use crate::ops::create::push_alone;
use dom_nodes::fault::EditFault;
use dom_nodes::node_data::{NodeData, TreeNode};
use dom_nodes::node_id::NodeId;

/// Removes the last node of the arena.
fn drop_last(nodes: &mut Vec<TreeNode>)
    ensures { (front : List TreeNode) (node : TreeNode) → nodes.old.items ≡ front ++ node ∷ []
        → nodes.new.items ≡ front }
{
    nodes.pop();
}

/// Makes a detached fragment. On an error, the last node of the arena is removed, which is the
/// element made before.
fn create_fragment(nodes: &mut Vec<TreeNode>) -> Result<(), EditFault>
    requires linked { IsArenaOf (forest_of nodes.old.items) nodes.old.items }
    ensures ok { OnOk result (Created nodes.old.items nodes.new.items NodeData.Fragment) }
    ensures grown { OnOk result (vec_len nodes.new ≡ vec_len nodes.old + 1) }
    ensures err { OnErr result
        ((front : List TreeNode) (node : TreeNode) → nodes.old.items ≡ front ++ node ∷ []
        → nodes.new.items ≡ front) }
    ensures cause { IfErr result (λ fault. NoRoom (vec_len nodes.old) fault) }
{
    match push_alone(nodes, NodeData::Fragment) {
        Ok(_) => Ok(()),
        Err(fault) => {
            drop_last(nodes);
            Err(fault)
        }
    }
}

/// Makes a detached element and, with the next id, the fragment for its template contents. It
/// returns the id of the element. It fails with `TooManyNodes` or `Memory`, and then neither is
/// made. It doesn't check that the data is an element that names the fragment as its contents.
pub fn create_template(nodes: &mut Vec<TreeNode>, content: NodeData) -> Result<NodeId, EditFault>
    requires linked { IsArenaOf (forest_of nodes.old.items) nodes.old.items }
    ensures ok { OnOk result (CreatedTemplate nodes.old.items nodes.new.items content) }
    ensures adds { AddsNodes result nodes.old nodes.new 2 NoRoomForTwo }
{
    let id = push_alone(nodes, content)?;
    create_fragment(nodes)?;
    Ok(id)
}

/// Makes an element as the last child of `t` and, with the next id, the fragment for its template
/// contents. It returns the id of the element. It fails with `TooManyNodes` or `Memory`, and then
/// neither is made. It doesn't check that this is allowed.
#[tactic(auto, using(crate::proofs::moves::Cuts::no_other))]
pub fn append_template_of(
    nodes: &mut Vec<TreeNode>,
    t: NodeId,
    content: NodeData,
) -> Result<NodeId, EditFault>
    requires linked { IsArenaOf (forest_of nodes.old.items) nodes.old.items }
    requires target_known { t < vec_len nodes.old }
    ensures ok { OnOk result (AppendedTemplate nodes.old.items nodes.new.items t content) }
    ensures adds { AddsNodes result nodes.old nodes.new 2 NoRoomForTwo }
{
    let id = push_alone(nodes, content)?;
    create_fragment(nodes)?;
    TreeNodeOps::append_child_of(nodes, t, id);
    Ok(id)
}
