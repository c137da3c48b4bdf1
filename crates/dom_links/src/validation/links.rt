//! The checks of the nodes' ids and links.

ghost use Rattle.std.specs.Prelude.{◌≡◌, ◌<◌, ◌≤◌, [], Err, IfErr, IfSome, IsSomeAnd, MatchBool};
ghost use Rattle.std.specs.Prelude.{MatchResult, None, Some, SomeIndex, length};
ghost use Rattle.dom_links.specs.Forest.{parent_link};
ghost use Rattle.dom_links.specs.Lists.{names};
ghost use Rattle.dom_links.specs.Validation.{Agrees, AreLinksKnown, HasOwnId, IsFirstFault};
ghost use Rattle.dom_links.specs.Validation.{IsLinkKnown, IsLinked, IsNamedAtEnds, IsRefused};
ghost use Rattle.dom_links.specs.Validation.{LinksAstray, LinksHold, LinksKnown, SharesParent};
ghost use Rattle.dom_links.specs.Validation.{TestsEach};
ghost use Rattle.dom_links.specs.declared.validation.ValidateFault.TheVariants.{NoRoot};

use crate::validation::ValidateFault;
use crate::validation::each::{NodeCheck, all_pass};
use dom_nodes::node_data::TreeNode;
use dom_nodes::node_id::NodeId;

/// Makes the checks that come before the search for cycles.
pub(crate) fn check_links(nodes: &[TreeNode]) -> Result<(), ValidateFault>
    ensures sound { MatchResult result (λ _. LinksHold nodes.now)
        (λ fault. IsRefused nodes.now fault) }
    ensures cause { IfErr result (λ fault. IsFirstFault nodes.now fault) }
    ensures empty { nodes.now ≡ [] → result ≡ Err NoRoot }
{
    let Some(root) = nodes.first() else {
        return Err(ValidateFault::NoRoot);
    };
    if root.parent.get().is_some() {
        return Err(ValidateFault::RootPlaced);
    }
    if !ids_are_indexes(nodes) {
        return Err(ValidateFault::BadId);
    }
    if !are_known(nodes) {
        return Err(ValidateFault::UnknownLink);
    }
    if !all_pass(nodes, NodeCheck::Neighbours) {
        return Err(ValidateFault::BadLink);
    }
    Ok(())
}

/// Returns whether the id of each node is its index.
pub(crate) fn ids_are_indexes(nodes: &[TreeNode]) -> bool
    ensures { TestsEach result nodes.now (HasOwnId nodes.now) }
{
    for n in 0..nodes.len() {
        if nodes[n].id.value() != n {
            return false;
        }
    }
    true
}

/// Returns whether the link, if there is one, leads to a node.
fn is_link_known(nodes: &[TreeNode], link: Option<NodeId>) -> bool
    ensures { MatchBool result (IsLinkKnown nodes.now link)
        (IsSomeAnd link (λ k. length nodes.now ≤ k)) }
{
    if let Some(id) = link {
        if id.value() >= nodes.len() {
            return false;
        }
    }
    true
}

/// Returns whether the links of the node with this index lead to nodes.
fn links_in_range(nodes: &[TreeNode], n: usize) -> bool
    requires { n < length nodes.now }
    ensures { MatchBool result (LinksKnown nodes.now n) (LinksAstray nodes.now n) }
{
    let node = &nodes[n];
    if !is_link_known(nodes, node.parent.get()) {
        return false;
    }
    if !is_link_known(nodes, node.prev_sibling.get()) {
        return false;
    }
    if !is_link_known(nodes, node.next_sibling.get()) {
        return false;
    }
    if !is_link_known(nodes, node.first_child.get()) {
        return false;
    }
    is_link_known(nodes, node.last_child.get())
}

/// Returns whether all links lead to nodes.
pub(crate) fn are_known(nodes: &[TreeNode]) -> bool
    ensures { MatchBool result (AreLinksKnown nodes.now)
        (SomeIndex nodes.now (LinksAstray nodes.now)) }
{
    for n in 0..nodes.len() {
        if !links_in_range(nodes, n) {
            return false;
        }
    }
    true
}

/// Returns whether the link leads to `n`.
pub(crate) fn links_to(link: Option<NodeId>, n: usize) -> bool
    ensures { result ≡ names link n }
{
    match link {
        Some(id) => id.value() == n,
        None => false,
    }
}

/// Returns whether the siblings of a node link back to it.
pub(crate) fn agrees(nodes: &[TreeNode], n: usize) -> bool
    requires known { AreLinksKnown nodes.now }
    requires here { n < length nodes.now }
    ensures { MatchBool result (Agrees nodes.now n) (Agrees nodes.now n → ⊥) }
{
    let node = &nodes[n];
    if let Some(prev) = node.prev_sibling.get() {
        if !links_to(nodes[prev.value()].next_sibling.get(), n) {
            return false;
        }
    }
    if let Some(next) = node.next_sibling.get() {
        if !links_to(nodes[next.value()].prev_sibling.get(), n) {
            return false;
        }
    }
    true
}

/// Returns whether the previous sibling of a node has the same parent.
fn shares_parent(nodes: &[TreeNode], n: usize) -> bool
    requires known { AreLinksKnown nodes.now }
    requires here { n < length nodes.now }
    ensures { MatchBool result (SharesParent nodes.now n) (SharesParent nodes.now n → ⊥) }
{
    let Some(prev) = nodes[n].prev_sibling.get() else {
        return true;
    };
    nodes[prev.value()].parent.get() == nodes[n].parent.get()
}

/// Returns whether the link, if there is one, leads to a node whose parent is `n`.
fn is_child(nodes: &[TreeNode], link: Option<NodeId>, n: usize) -> bool
    requires { IsLinkKnown nodes.now link }
    ensures { MatchBool result (IfSome link (λ c. parent_link nodes.now c ≡ Some n))
        (IfSome link (λ c. parent_link nodes.now c ≡ Some n) → ⊥) }
{
    let Some(child) = link else {
        return true;
    };
    links_to(nodes[child.value()].parent.get(), n)
}

/// Returns whether a node without a previous or next sibling is the first or last child of its
/// parent.
fn is_named(nodes: &[TreeNode], n: usize) -> bool
    requires known { AreLinksKnown nodes.now }
    requires here { n < length nodes.now }
    ensures { MatchBool result (IsNamedAtEnds nodes.now n) (IsNamedAtEnds nodes.now n → ⊥) }
{
    let node = &nodes[n];
    let Some(parent) = node.parent.get() else {
        return true;
    };
    let above = &nodes[parent.value()];
    if node.prev_sibling.get().is_none() && !links_to(above.first_child.get(), n) {
        return false;
    }
    if node.next_sibling.get().is_none() && !links_to(above.last_child.get(), n) {
        return false;
    }
    true
}

/// Returns whether a node and its parent link to each other.
pub(crate) fn is_linked(nodes: &[TreeNode], n: usize) -> bool
    requires known { AreLinksKnown nodes.now }
    requires here { n < length nodes.now }
    ensures { MatchBool result (IsLinked nodes.now n) (IsLinked nodes.now n → ⊥) }
{
    if !shares_parent(nodes, n) {
        return false;
    }
    if !is_child(nodes, nodes[n].first_child.get(), n) {
        return false;
    }
    if !is_child(nodes, nodes[n].last_child.get(), n) {
        return false;
    }
    is_named(nodes, n)
}
