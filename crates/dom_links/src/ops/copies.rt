//! Copies of nodes with their whole subtrees. The copies get new consecutive ids in document order;
//! template contents come immediately after the element that holds them, before its children.

ghost use Rattle.std.specs.Prelude.{◌≡◌, ◌<◌, ◌≤◌, ◌+◌, ◌∷◌, ◌++◌, [], None, Some, length, vec_len};
ghost use Rattle.std.specs.Prelude.{IfErr, IfOk, IfSome, MatchResult, OnErr, OnOk};
ghost use Rattle.dom_nodes.specs.declared.fault.EditFault.TheVariants.{Memory};
ghost use Rattle.dom_links.specs.ArenaEdits.{AddsNodes};
ghost use Rattle.dom_links.specs.Copies.{CheckCause, Copied, CopiedOne, MayCopy, MayCopyOne};
ghost use Rattle.dom_links.specs.Copies.{FragmentCause, IsPlainElement, OneCause, fragment_of};
ghost use Rattle.dom_links.specs.Copies.{copied_below, copied_data, copy_numbers};
ghost use Rattle.dom_links.specs.Copies.{with_contents, with_node_below};
ghost use Rattle.dom_links.specs.Copying.{AreNodesOf, AreRows, CanBegin, CanGoBelow, CopiesAll};
ghost use Rattle.dom_links.specs.Copying.{CopiesAlone, CopiesAndNotes, Copying, IsPlaceFor};
ghost use Rattle.dom_links.specs.Copying.{IsRow, IsUnderWay, LacksRoom, read_nodes, row_from};
ghost use Rattle.dom_links.specs.Copying.{with_row, with_rows};
ghost use Rattle.dom_links.specs.Forest.{IsArenaOf, children_of, forest_of};
ghost use Rattle.dom_links.specs.Growth.{NoRoom};
ghost use Rattle.dom_links.specs.Lists.{first};
ghost use Rattle.dom_links.specs.Sound.{IsSoundArena};
ghost use Rattle.dom_links.specs.Walk.{IsNodeOf};

mod rows;

use crate::iters::find_node;
use crate::ops::TreeNodeOps;
use crate::ops::create::{add_child, create_root, push_alone};
use dom_nodes::fault::EditFault;
use dom_nodes::node_data::{Element, NodeData, TreeNode};
use dom_nodes::node_id::NodeId;
use rows::Rows;
use std::alloc::Global;

/// Work that is left: a node and its later siblings in the source, whose copies become children of
/// the node `parent`.
#[derive(Clone, Copy)]
struct Row {
    first: NodeId,
    parent: NodeId,
}

/// Copies nodes of another arena with their subtrees, and returns the ids of the copies, in order.
/// Each copy is detached. It fails with `UnknownNode` for an id that isn't in `other`, with
/// `RootOrFragment` for a document or a fragment, and with `TooManyNodes` or `Memory`. After an
/// error no copy is left.
pub fn merge(
    nodes: &mut Vec<TreeNode>,
    other: &[TreeNode],
    ids: &[NodeId],
) -> Result<Vec<NodeId>, EditFault>
    requires sound { IsSoundArena nodes.old.items }
    requires other { IsSoundArena other.now }
    ensures { Copied result (forest_of other.now) nodes.old.items nodes.new.items ids.now }
{
    check_copies(other, ids)?;
    copy_all(nodes, Some(other), ids)
}

/// Copies one node of another arena with its subtree, and returns the id of the copy. It does what
/// `merge` does for a list of one id, without allocating a list.
pub(crate) fn merge_one(
    nodes: &mut Vec<TreeNode>,
    other: &[TreeNode],
    ids: &[NodeId],
    id: NodeId,
) -> Result<NodeId, EditFault>
    requires sound { IsSoundArena nodes.old.items }
    requires other { IsSoundArena other.now }
    requires one { ids.now ≡ id ∷ [] }
    ensures { CopiedOne result (forest_of other.now) nodes.old.items nodes.new.items ids.now }
{
    check_copies(other, ids)?;
    copy_one(nodes, Some(other), id)
}

/// Copies nodes of this arena with their subtrees, and returns the ids of the copies, in order.
/// Each copy is detached. It fails with `UnknownNode` for an unknown id, with `RootOrFragment` for
/// a document or a fragment, and with `TooManyNodes` or `Memory`. After an error no copy is left.
pub fn copy_nodes(nodes: &mut Vec<TreeNode>, ids: &[NodeId]) -> Result<Vec<NodeId>, EditFault>
    requires { IsSoundArena nodes.old.items }
    ensures { Copied result (forest_of nodes.old.items) nodes.old.items nodes.new.items ids.now }
{
    check_copies(nodes, ids)?;
    copy_all(nodes, None, ids)
}

/// Returns a new arena: a fragment as the root, the element `html` as its child, and copies of
/// nodes of another arena as the children of that. It fails as `merge` does.
pub fn fragment_of(
    alloc: Global,
    html: NodeData,
    other: &[TreeNode],
    ids: &[NodeId],
) -> Result<Vec<TreeNode>, EditFault>
    requires html { IsPlainElement html }
    requires other { IsSoundArena other.now }
    ensures made { IfOk result (λ nodes.
        forest_of nodes.items ≡ fragment_of html (forest_of other.now) ids.now) }
    ensures sound { IfOk result (λ nodes. IsSoundArena nodes.items) }
    ensures cause { IfErr result (λ fault. FragmentCause html (forest_of other.now) ids.now fault) }
{
    check_copies(other, ids)?;
    let mut nodes = create_root(alloc, NodeData::Fragment)?;
    let top = TreeNodeOps::append_child_data_of(&mut nodes, NodeId::root(), html)?;
    copy_each(&mut nodes, Some(other), ids, &Some(top))?;
    Ok(nodes)
}

/// Tests that each of the nodes may be copied. It fails with `UnknownNode` or `RootOrFragment`.
fn check_copies(nodes: &[TreeNode], ids: &[NodeId]) -> Result<(), EditFault>
    requires { IsSoundArena nodes.now }
    ensures { MatchResult result (λ _. MayCopy (forest_of nodes.now) ids.now)
        (λ fault. CheckCause (forest_of nodes.now) ids.now fault) }
{
    for id in ids {
        check_copy(nodes, *id)?;
    }
    Ok(())
}

/// Tests that a node may be copied. It fails with `UnknownNode` or `RootOrFragment`.
fn check_copy(nodes: &[TreeNode], id: NodeId) -> Result<(), EditFault>
    requires { IsSoundArena nodes.now }
    ensures { MatchResult result (λ _. MayCopyOne (forest_of nodes.now) id)
        (λ fault. OneCause (forest_of nodes.now) id fault) }
{
    let Some(node) = find_node(nodes, id) else {
        return Err(EditFault::UnknownNode);
    };
    if node.content.is_top() {
        return Err(EditFault::RootOrFragment);
    }
    Ok(())
}

/// Makes the copies. On an error it removes those that were made.
fn copy_all(
    nodes: &mut Vec<TreeNode>,
    other: Option<&[TreeNode]>,
    ids: &[NodeId],
) -> Result<Vec<NodeId>, EditFault>
    ghost at: { Copying }
    requires { CanBegin at other nodes.old.items ids.now }
    ensures { Copied result at.source nodes.old.items nodes.new.items ids.now }
{
    let count = nodes.len();
    match copy_each(nodes, other, ids, &None) {
        Ok(made) => Ok(made),
        Err(fault) => {
            nodes.truncate(count);
            Err(fault)
        }
    }
}

/// Makes the copy of one node. On an error it removes what was made.
fn copy_one(
    nodes: &mut Vec<TreeNode>,
    other: Option<&[TreeNode]>,
    id: NodeId,
) -> Result<NodeId, EditFault>
    ghost at: { Copying }
    requires { CanBegin at other nodes.old.items (id ∷ []) }
    ensures { CopiedOne result at.source nodes.old.items nodes.new.items (id ∷ []) }
{
    let count = nodes.len();
    match copy_tree(nodes, other, id, None) {
        Ok(made) => Ok(made),
        Err(fault) => {
            nodes.truncate(count);
            Err(fault)
        }
    }
}

/// Makes the copies as children of `parent`, or detached ones.
fn copy_each(
    nodes: &mut Vec<TreeNode>,
    other: Option<&[TreeNode]>,
    ids: &[NodeId],
    parent: &Option<NodeId>,
) -> Result<Vec<NodeId>, EditFault>
    ghost at: { Copying }
    requires under_way { IsUnderWay at other nodes.old.items }
    requires known { AreNodesOf at.source ids.now }
    requires below { IsPlaceFor at (vec_len nodes.old) parent.now }
    ensures copies { let after = copied_below at.source parent.now ids.now
        in CopiesAll at other.entry result nodes.old nodes.new after }
    ensures numbers { IfOk result (λ made. made.items
        ≡ copy_numbers at.source ids.now (forest_of nodes.old.items)) }
{
    let mut numbers = Vec::new(*nodes.allocator());
    for id in ids {
        let number = copy_tree(nodes, other, *id, *parent)?;
        push_number(&mut numbers, number)?;
    }
    Ok(numbers)
}

fn push_number(numbers: &mut Vec<NodeId>, number: NodeId) -> Result<(), EditFault>
    ensures ok { OnOk result (numbers.new.items ≡ numbers.old.items ++ number ∷ []) }
    ensures cause { IfErr result (λ fault. fault ≡ Memory) }
{
    match numbers.push(number) {
        Ok(()) => Ok(()),
        Err(_) => Err(EditFault::Memory),
    }
}

/// Copies a node with its subtree.
fn copy_tree(
    nodes: &mut Vec<TreeNode>,
    other: Option<&[TreeNode]>,
    id: NodeId,
    parent: Option<NodeId>,
) -> Result<NodeId, EditFault>
    ghost at: { Copying }
    requires under_way { IsUnderWay at other nodes.old.items }
    requires below { CanGoBelow at (vec_len nodes.old) id parent }
    ensures copies { let after = copied_below at.source parent (id ∷ [])
        in CopiesAll at other.entry result nodes.old nodes.new after }
    ensures number { IfOk result (λ made. made ≡ vec_len nodes.old) }
{
    let mut rows = Rows::new(*nodes.allocator());
    let made = copy_node(nodes, other, &mut rows, id, parent)?;
    copy_rows(nodes, other, rows)?;
    Ok(made)
}

/// Copies everything that is left on the stack.
fn copy_rows(
    nodes: &mut Vec<TreeNode>,
    other: Option<&[TreeNode]>,
    mut rows: Rows,
) -> Result<(), EditFault>
    ghost at: { Copying }
    requires under_way { IsUnderWay at other nodes.old.items }
    requires rows { AreRows at (vec_len nodes.old) rows }
    ensures { CopiesAll at other.entry result nodes.old nodes.new (with_rows at.source rows) }
{
    while let Some(row) = rows.pop() {
        copy_row(nodes, other, &mut rows, row)?;
    }
    Ok(())
}

/// Copies the first node of a row, and pushes the rest of the row.
fn copy_row(
    nodes: &mut Vec<TreeNode>,
    other: Option<&[TreeNode]>,
    rows: &mut Rows,
    row: Row,
) -> Result<(), EditFault>
    ghost at: { Copying }
    requires under_way { IsUnderWay at other nodes.old.items }
    requires row { IsRow at (vec_len nodes.old) row }
    requires rows { AreRows at (vec_len nodes.old) rows.old }
    ensures { let after = with_row at.source row
        in CopiesAndNotes at other.entry result nodes.old nodes.new rows.old rows.new after }
{
    let next = source_node(other, nodes, row.first).next_sibling.get();
    push_row(rows, next, row.parent)?;
    copy_node(nodes, other, rows, row.first, Some(row.parent))?;
    Ok(())
}

/// Copies a node and its template contents, and pushes their children.
fn copy_node(
    nodes: &mut Vec<TreeNode>,
    other: Option<&[TreeNode]>,
    rows: &mut Rows,
    id: NodeId,
    parent: Option<NodeId>,
) -> Result<NodeId, EditFault>
    ghost at: { Copying }
    requires under_way { IsUnderWay at other nodes.old.items }
    requires below { CanGoBelow at (vec_len nodes.old) id parent }
    requires rows { AreRows at (vec_len nodes.old) rows.old }
    ensures copies { let after = copied_below at.source parent (id ∷ [])
        in CopiesAndNotes at other.entry result nodes.old nodes.new rows.old rows.new after }
    ensures number { IfOk result (λ made. made ≡ vec_len nodes.old) }
{
    let held = source_node(other, nodes, id).content.template_contents();
    let made = copy_alone(nodes, other, rows, id, parent)?;
    if let Some(contents) = held {
        copy_alone(nodes, other, rows, contents, None)?;
    }
    Ok(made)
}

/// Copies one node without its subtree, and pushes its children.
fn copy_alone(
    nodes: &mut Vec<TreeNode>,
    other: Option<&[TreeNode]>,
    rows: &mut Rows,
    id: NodeId,
    parent: Option<NodeId>,
) -> Result<NodeId, EditFault>
    ghost at: { Copying }
    requires under_way { IsUnderWay at other nodes.old.items }
    requires below { CanGoBelow at (vec_len nodes.old) id parent }
    ensures copies { CopiesAlone at other.entry result nodes.old nodes.new id parent }
    ensures rows { let children = first (children_of at.source id) in
        OnOk result (rows.new ≡ rows.old ++ row_from children (vec_len nodes.old)) }
{
    let first = source_node(other, nodes, id).first_child.get();
    let made = add_copy(nodes, other, id, parent)?;
    push_row(rows, first, made)?;
    Ok(made)
}

/// Copies one node without its subtree. Most nodes are short texts or elements without attributes
/// and template contents, so these have a quick way of their own.
#[inline(always)]
fn add_copy(
    nodes: &mut Vec<TreeNode>,
    other: Option<&[TreeNode]>,
    id: NodeId,
    parent: Option<NodeId>,
) -> Result<NodeId, EditFault>
    ghost at: { Copying }
    requires under_way { IsUnderWay at other nodes.old.items }
    requires below { CanGoBelow at (vec_len nodes.old) id parent }
    ensures { CopiesAlone at other.entry result nodes.old nodes.new id parent }
{
    let node = source_node(other, nodes, id);
    let number = nodes.len();
    if let Some(text) = copy_text(node, number) {
        let made = add_below(nodes, parent, text)?;
        return Ok(made);
    }
    if let Some(element) = copy_element(node, number) {
        let made = add_below(nodes, parent, element)?;
        return Ok(made);
    }
    let content = copy_data(node, number)?;
    let made = add_below(nodes, parent, content)?;
    Ok(made)
}

/// Returns a node of the source.
#[inline(always)]
fn source_node<'a>(other: Option<&'a [TreeNode]>, nodes: &'a [TreeNode], id: NodeId) -> &'a TreeNode
    requires { id < length (read_nodes other nodes.now) }
    ensures { (at : Copying) → IsUnderWay at other.entry nodes.now → id < length at.source.content
        → IsNodeOf at.source id result.now }
{
    match other {
        Some(read) => &read[id.value()],
        None => &nodes[id.value()],
    }
}

/// Returns the data of the copy if the node is a short text, and `None` otherwise.
#[inline(always)]
fn copy_text(node: &TreeNode, number: usize) -> Option<NodeData>
    ensures { IfSome result (λ made. made ≡ copied_data number node.now.content) }
{
    node.content.short_text()
}

/// Returns the data of the copy if the node is an element without attributes and template contents,
/// and `None` otherwise.
#[inline(always)]
fn copy_element(node: &TreeNode, number: usize) -> Option<NodeData>
    ensures { IfSome result (λ made. made ≡ copied_data number node.now.content) }
{
    node.content.bare_element()
}

/// Returns the data of the copy that gets the id `number`. Its template contents will get the id
/// after that.
fn copy_data(node: &TreeNode, number: usize) -> Result<NodeData, EditFault>
    requires { number ≤ 4294967295 }
    ensures { MatchResult result (λ made. made ≡ copied_data number node.now.content)
        (λ fault. LacksRoom number node.now.content fault) }
{
    let Some(_) = node.content.template_contents() else {
        return cloned(&node.content);
    };
    let Some(contents) = NodeId::new(number + 1) else {
        return Err(EditFault::TooManyNodes);
    };
    let made = cloned(&node.content)?;
    Ok(with_contents(made, contents))
}

/// Returns a copy of the data, or `Memory`.
fn cloned(content: &NodeData) -> Result<NodeData, EditFault>
    ensures { MatchResult result (λ made. made ≡ content.now) (λ fault. fault ≡ Memory) }
{
    match content.try_clone() {
        Ok(made) => Ok(made),
        Err(_) => Err(EditFault::Memory),
    }
}

/// Returns the data with the template contents of an element replaced.
fn with_contents(content: NodeData, contents: NodeId) -> NodeData
    ensures { result ≡ with_contents (Some contents) content }
{
    match content {
        NodeData::Element(element) => {
            NodeData::Element(element.with_template_contents(Some(contents)))
        }
        same => same,
    }
}

/// Makes a node as the last child of `parent`, or a detached one.
#[inline(always)]
fn add_below(
    nodes: &mut Vec<TreeNode>,
    parent: Option<NodeId>,
    content: NodeData,
) -> Result<NodeId, EditFault>
    requires linked { IsArenaOf (forest_of nodes.old.items) nodes.old.items }
    requires parent_known { IfSome parent (λ p. p < vec_len nodes.old) }
    ensures made { OnOk result (forest_of nodes.new.items
        ≡ with_node_below parent content (forest_of nodes.old.items)) }
    ensures linked { IsArenaOf (forest_of nodes.new.items) nodes.new.items }
    ensures adds { AddsNodes result nodes.old nodes.new 1 NoRoom }
{
    match parent {
        Some(p) => add_child(nodes, p, content),
        None => push_alone(nodes, content),
    }
}

/// Pushes the row that begins at `first`, if there is one.
#[inline(always)]
fn push_row(rows: &mut Rows, first: Option<NodeId>, parent: NodeId) -> Result<(), EditFault>
    ensures ok { OnOk result (rows.new ≡ rows.old ++ row_from first parent) }
    ensures err { OnErr result (rows.new ≡ rows.old) }
    ensures cause { IfErr result (λ fault. fault ≡ Memory) }
{
    let Some(first) = first else {
        return Ok(());
    };
    rows.push(Row { first, parent })
}
