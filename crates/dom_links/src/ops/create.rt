//! Making new nodes.

ghost use Rattle.std.specs.Prelude.{◌≡◌, ◌<◌, ◌+◌, ◌∷◌, ◌++◌, [], IfErr, IfOk, MatchResult, None};
ghost use Rattle.std.specs.Prelude.{OnErr, OnOk, length, vec_len};
ghost use Rattle.dom_nodes.specs.Kinds.{contents_named};
ghost use Rattle.dom_nodes.specs.declared.fault.EditFault.TheVariants.{Memory};
ghost use Rattle.dom_nodes.specs.declared.node_data.TreeNode.{TreeNode};
ghost use Rattle.dom_links.specs.ArenaEdits.{AddsNodes, MakesNode, appending, making};
ghost use Rattle.dom_links.specs.Forest.{IsArenaOf, forest_of};
ghost use Rattle.dom_links.specs.Growth.{Appended, Created, DataCause, HasFreeContents, Limit};
ghost use Rattle.dom_links.specs.Growth.{MayAppend, NoRoom, NodeCause, lone, new_node};
ghost use Rattle.dom_links.specs.Sound.{IsSoundArena};

use crate::ops::TreeNodeOps;
use crate::ops::placing::{is_at_or_below, is_free};
use crate::ops::writes::link_last;
use dom_nodes::fault::EditFault;
use dom_nodes::link::Link;
use dom_nodes::node_data::{NodeData, TreeNode};
use dom_nodes::node_id::NodeId;
use std::alloc::Global;

impl TreeNodeOps {
    /// Makes a detached node and returns its id. It fails with `BadContents` when the data has
    /// template contents that aren't free (see `is_free`), and with `TooManyNodes` or `Memory`.
    /// After an error the arena is unchanged.
    pub fn create_node(nodes: &mut Vec<TreeNode>, content: NodeData) -> Result<NodeId, EditFault>
        requires { IsSoundArena nodes.old.items }
        ensures makes { MakesNode result nodes.old nodes.new (making content) }
        ensures plain { contents_named content ≡ None → IfErr result (Limit (vec_len nodes.old)) }
    {
        check_contents(nodes, &content)?;
        let id = push_alone(nodes, content)?;
        Ok(id)
    }

    /// Makes a node as the last child of `t` and returns its id. It fails with `UnknownNode` when
    /// `t` is unknown, with `NoChildrenHere` when `t` can't have children, with `RootOrFragment`
    /// when the data is a document or a fragment, with `BadContents` when its template contents
    /// aren't free, with `Cycle` when `t` is inside these contents, and with `TooManyNodes` or
    /// `Memory`. After an error the arena is unchanged.
    #[inline(always)]
    pub fn append_child_data_of(
        nodes: &mut Vec<TreeNode>,
        t: NodeId,
        content: NodeData,
    ) -> Result<NodeId, EditFault>
        requires { IsSoundArena nodes.old.items }
        ensures { MakesNode result nodes.old nodes.new (appending t content) }
    {
        check_data(nodes, t, &content)?;
        add_child(nodes, t, content)
    }
}

/// Appends a detached node to the arena. It doesn't check that template contents are free; the
/// result is a forest only if they are.
#[inline(always)]
pub(crate) fn push_alone(nodes: &mut Vec<TreeNode>, content: NodeData) -> Result<NodeId, EditFault>
    requires linked { IsArenaOf (forest_of nodes.old.items) nodes.old.items }
    ensures ok { OnOk result (Created nodes.old.items nodes.new.items content) }
    ensures adds { AddsNodes result nodes.old nodes.new 1 NoRoom }
    ensures pushed { OnOk result
        ((node : TreeNode) × (nodes.new.items ≡ nodes.old.items ++ node ∷ [])) }
{
    push_new(nodes, None, None, content)
}

/// Makes a node as the last child of `t`. It doesn't check that this is allowed; the result is a
/// forest only if it is.
#[inline(always)]
pub(crate) fn add_child(
    nodes: &mut Vec<TreeNode>,
    t: NodeId,
    content: NodeData,
) -> Result<NodeId, EditFault>
    requires target_known { t < vec_len nodes.old }
    requires linked { IsArenaOf (forest_of nodes.old.items) nodes.old.items }
    ensures ok { OnOk result (Appended nodes.old.items nodes.new.items t content) }
    ensures adds { AddsNodes result nodes.old nodes.new 1 NoRoom }
{
    let left = nodes[t.value()].last_child.get();
    let before = left;
    let id = push_new(nodes, Some(t), before, content)?;
    link_last(nodes, t, left, id);
    Ok(id)
}

/// Appends a node with this parent and previous sibling to the arena. The links of those two to the
/// new node aren't set.
#[inline(always)]
fn push_new(
    nodes: &mut Vec<TreeNode>,
    parent: Option<NodeId>,
    prev: Option<NodeId>,
    content: NodeData,
) -> Result<NodeId, EditFault>
    ensures ok { let node = new_node (length nodes.old.items) parent prev content in
        OnOk result (nodes.new.items ≡ nodes.old.items ++ node ∷ []) }
    ensures adds { AddsNodes result nodes.old nodes.new 1 NoRoom }
{
    let Some(id) = NodeId::new(nodes.as_slice().len()) else {
        return Err(EditFault::TooManyNodes);
    };
    let node = TreeNode {
        id,
        parent: Link::new(parent),
        prev_sibling: Link::new(prev),
        next_sibling: Link::new(None),
        first_child: Link::new(None),
        last_child: Link::new(None),
        content,
    };
    push_node(nodes, node)?;
    Ok(id)
}

/// Tests that a detached node with this data may be made. It fails with `BadContents`.
fn check_contents(nodes: &[TreeNode], content: &NodeData) -> Result<(), EditFault>
    requires { IsSoundArena nodes.now }
    ensures { MatchResult result (λ _. HasFreeContents (forest_of nodes.now) content.now)
        (λ fault. NodeCause (forest_of nodes.now) content.now fault) }
{
    let Some(contents) = content.template_contents() else {
        return Ok(());
    };
    if is_free(nodes, contents) {
        Ok(())
    } else {
        Err(EditFault::BadContents)
    }
}

/// Tests that a node with this data may be made as a child of `t`. The errors are those of
/// `append_child_data_of` without `TooManyNodes` and `Memory`.
#[inline(always)]
fn check_data(nodes: &[TreeNode], t: NodeId, content: &NodeData) -> Result<(), EditFault>
    requires { IsSoundArena nodes.now }
    ensures { MatchResult result (λ _. MayAppend (forest_of nodes.now) t content.now)
        (λ fault. DataCause (forest_of nodes.now) t content.now fault) }
{
    if t.value() >= nodes.len() {
        return Err(EditFault::UnknownNode);
    }
    if !TreeNodeOps::may_have_children(nodes, t) {
        return Err(EditFault::NoChildrenHere);
    }
    if content.is_top() {
        return Err(EditFault::RootOrFragment);
    }
    let Some(contents) = content.template_contents() else {
        return Ok(());
    };
    if !is_free(nodes, contents) {
        return Err(EditFault::BadContents);
    }
    if is_at_or_below(nodes, contents, t) {
        return Err(EditFault::Cycle);
    }
    Ok(())
}

/// Returns an arena of one node, the root. It fails with `Memory`.
pub fn create_root(alloc: Global, content: NodeData) -> Result<Vec<TreeNode>, EditFault>
    requires { contents_named content ≡ None }
    ensures sound { IfOk result (λ nodes. IsSoundArena nodes.items) }
    ensures made { IfOk result (λ nodes. forest_of nodes.items ≡ lone content) }
    ensures cause { IfErr result (λ fault. NoRoom 0 fault) }
{
    let mut nodes = Vec::new(alloc);
    push_alone(&mut nodes, content)?;
    Ok(nodes)
}

/// Appends a node to the vector. It fails with `Memory`.
#[inline(always)]
fn push_node(nodes: &mut Vec<TreeNode>, node: TreeNode) -> Result<(), EditFault>
    ensures ok { OnOk result (nodes.new.items ≡ nodes.old.items ++ node ∷ []) }
    ensures grown { OnOk result (vec_len nodes.new ≡ vec_len nodes.old + 1) }
    ensures err { OnErr result (nodes.new.items ≡ nodes.old.items) }
    ensures cause { IfErr result (λ fault. fault ≡ Memory) }
{
    match nodes.push(node) {
        Ok(()) => Ok(()),
        Err(_) => Err(EditFault::Memory),
    }
}
