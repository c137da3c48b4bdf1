//! Joining adjacent text nodes, as the method `normalize()` of the DOM Standard does.

ghost use Rattle.std.specs.Prelude.{◌≡◌, ◌<◌, ◌++◌, ◌∷◌, [], IfOk, OnErr, OnOk, false, length};
ghost use Rattle.std.specs.Prelude.{IfErr, MatchResult, string_bytes};
ghost use Rattle.dom_nodes.specs.declared.fault.EditFault.TheVariants.{Memory};
ghost use Rattle.dom_links.specs.Forest.{forest_of};
ghost use Rattle.dom_links.specs.Normalized.{front_texts, is_empty_text, nearest_before};
ghost use Rattle.dom_links.specs.Normalized.{normalized, starts_text_run};
ghost use Rattle.dom_links.specs.Rewrites.{is_text_after, listed, rewrite_at, rewrites, rewritten};
ghost use Rattle.dom_links.specs.Sound.{IsSoundArena};
ghost use Rattle.dom_links.specs.Texts.{text_at};
ghost use Rattle.dom_links.specs.Trees.{descendants_in_order};
ghost use Rattle.dom_links.specs.Walk.{later};

use crate::iters::{DescendantNodes, next_sibling_id, node_at, prev_sibling_id};
use crate::ops::TreeNodeOps;
use crate::ops::set_text::{is_text_at, put_text};
use crate::ops::texts::text_at;
use dom_nodes::fault::{EditFault, OutOfMemory};
use dom_nodes::node_data::TreeNode;
use dom_nodes::node_id::NodeId;
use dom_nodes::text::Text;
use std::alloc::Global;

impl TreeNodeOps {
    /// Joins adjacent text nodes among the descendants of a node. In each sequence of adjacent
    /// texts the first one that isn't empty gets the text of all; the others are detached and
    /// emptied. The time is linear in the size of the subtree. It fails with `Memory`, and then
    /// nothing changes. For an unknown id nothing happens.
    pub fn normalize(alloc: Global, nodes: &mut [TreeNode], id: NodeId) -> Result<(), EditFault>
        requires { IsSoundArena nodes.old }
        ensures made { OnOk result (forest_of nodes.new ≡ normalized id (forest_of nodes.old)) }
        ensures err { OnErr result (nodes.new ≡ nodes.old) }
        ensures cause { IfErr result (λ fault. fault ≡ Memory) }
        ensures sound { IsSoundArena nodes.new }
    {
        let mut found = rewrites_or_fault(alloc, nodes, &id)?;
        while let Some(rewrite) = found.pop() {
            apply(nodes, rewrite);
        }
        Ok(())
    }
}

/// A change of one text node: its new text, and whether it stays where it is or is detached.
#[derive(Drop)]
struct Rewrite {
    id: NodeId,
    text: Text,
    stays: bool,
}

/// Applies a change of a text node.
fn apply(nodes: &mut [TreeNode], rewrite: Rewrite)
    requires sound { IsSoundArena nodes.old }
    requires known { rewrite.id < length nodes.old }
    ensures made { forest_of nodes.new ≡ rewritten rewrite (forest_of nodes.old) }
    ensures sound { IsSoundArena nodes.new }
{
    let Rewrite { id, text, stays } = rewrite;
    put_text(nodes, id, text);
    if !stays {
        TreeNodeOps::remove_from_parent(nodes, id);
    }
}

/// Returns the changes that `rewrites_below` returns. It fails with `Memory`.
fn rewrites_or_fault(
    alloc: Global,
    nodes: &[TreeNode],
    id: &NodeId,
) -> Result<Vec<Rewrite>, EditFault>
    requires { IsSoundArena nodes.now }
    ensures { MatchResult result
        (λ found. found.items
        ≡ rewrites (forest_of nodes.now) (descendants_in_order (forest_of nodes.now) id.now))
        (λ fault. fault ≡ Memory) }
{
    match rewrites_below(alloc, nodes, id) {
        Ok(found) => Ok(found),
        Err(_) => Err(EditFault::Memory),
    }
}

/// Returns the changes of the text nodes among the descendants of a node, in document order.
fn rewrites_below(
    alloc: Global,
    nodes: &[TreeNode],
    id: &NodeId,
) -> Result<Vec<Rewrite>, OutOfMemory>
    requires { IsSoundArena nodes.now }
    ensures { IfOk result (λ found. found.items
        ≡ rewrites (forest_of nodes.now) (descendants_in_order (forest_of nodes.now) id.now)) }
{
    let mut found = Vec::new(alloc);
    for below in DescendantNodes::new(nodes, id) {
        let rewrite = rewrite_of(alloc, nodes, below)?;
        add_found(&mut found, rewrite)?;
    }
    Ok(found)
}

fn add_found(found: &mut Vec<Rewrite>, rewrite: Option<Rewrite>) -> Result<(), OutOfMemory>
    ensures { OnOk result (found.new.items ≡ found.old.items ++ listed rewrite) }
{
    if let Some(rewrite) = rewrite {
        found.push(rewrite)?;
    }
    Ok(())
}

/// Returns the change of a node, or `None` if it stays as it is.
fn rewrite_of(alloc: Global, nodes: &[TreeNode], id: NodeId) -> Result<Option<Rewrite>, OutOfMemory>
    requires { IsSoundArena nodes.now }
    ensures { IfOk result (λ found. found ≡ rewrite_at (forest_of nodes.now) id) }
{
    if !is_text_at(nodes, id) {
        return Ok(None);
    }
    if !starts_text_run(nodes, id) {
        let text = Text::from(String::new(alloc));
        return Ok(Some(Rewrite {
            id,
            text,
            stays: false,
        }));
    }
    if !is_text_after(nodes, id) {
        return Ok(None);
    }
    let text = joined_text(alloc, nodes, id)?;
    Ok(Some(Rewrite {
        id,
        text,
        stays: true,
    }))
}

/// Returns the text of a text node and of the text nodes immediately after it, joined.
fn joined_text(alloc: Global, nodes: &[TreeNode], id: NodeId) -> Result<Text, OutOfMemory>
    requires { IsSoundArena nodes.now }
    ensures { IfOk result (λ text. text ≡ text_at (forest_of nodes.now) id
        ++ front_texts (forest_of nodes.now) (later (forest_of nodes.now) false id)) }
{
    let mut joined = String::new(alloc);
    joined.push_str(text_at(nodes, id))?;
    join_after(&mut joined, nodes, id)?;
    Ok(Text::from(joined))
}

/// Appends the text of the text nodes immediately after a node.
fn join_after(joined: &mut String, nodes: &[TreeNode], id: NodeId) -> Result<(), OutOfMemory>
    requires { IsSoundArena nodes.now }
    ensures { OnOk result (string_bytes joined.new ≡ string_bytes joined.old
        ++ front_texts (forest_of nodes.now) (later (forest_of nodes.now) false id)) }
{
    let mut next = next_sibling_id(nodes, &id);
    while let Some(at) = next {
        if !is_text_at(nodes, at) {
            return Ok(());
        }
        joined.push_str(text_at(nodes, at))?;
        next = node_at(nodes, at).next_sibling.get();
    }
    Ok(())
}

fn is_text_after(nodes: &[TreeNode], id: NodeId) -> bool
    requires { IsSoundArena nodes.now }
    ensures { result ≡ is_text_after (forest_of nodes.now) id }
{
    match next_sibling_id(nodes, &id) {
        Some(next) => is_text_at(nodes, next),
        None => false,
    }
}

/// Returns whether the node is the first text of its sequence that isn't empty.
fn starts_text_run(nodes: &[TreeNode], id: NodeId) -> bool
    requires { IsSoundArena nodes.now }
    ensures { result ≡ starts_text_run (forest_of nodes.now) id }
{
    if !is_text_at(nodes, id) {
        return false;
    }
    if is_empty_text(nodes, id) {
        return false;
    }
    match nearest_before(nodes, id) {
        Some(before) => !is_text_at(nodes, before),
        None => true,
    }
}

/// Returns the nearest earlier sibling that isn't an empty text.
fn nearest_before(nodes: &[TreeNode], id: NodeId) -> Option<NodeId>
    requires { IsSoundArena nodes.now }
    ensures { result ≡ nearest_before (forest_of nodes.now) id }
{
    let mut next = prev_sibling_id(nodes, &id);
    while let Some(at) = next {
        if !is_empty_text(nodes, at) {
            return Some(at);
        }
        next = node_at(nodes, at).prev_sibling.get();
    }
    None
}

fn is_empty_text(nodes: &[TreeNode], id: NodeId) -> bool
    requires { IsSoundArena nodes.now }
    ensures { result ≡ is_empty_text (forest_of nodes.now) id }
{
    if !is_text_at(nodes, id) {
        return false;
    }
    text_at(nodes, id).is_empty()
}
