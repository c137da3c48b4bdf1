//! The checks of the nodes' kinds and template contents.

ghost use Rattle.std.specs.Prelude.{◌<◌, EachIndex, IfErr, IfOk, MatchBool, MatchResult, Some};
ghost use Rattle.std.specs.Prelude.{length};
ghost use Rattle.dom_links.specs.Validation.{AreHosts, AreLinksKnown, ContentsHold, HasOwnId};
ghost use Rattle.dom_links.specs.Validation.{HostsContents, IsAlone, IsFirstFault, IsRefused};
ghost use Rattle.dom_links.specs.Validation.{ParentAllowsChildren, PassesEarlierChecks, TestsEach};
ghost use Rattle.dom_links.specs.declared.validation.ValidateFault.TheVariants.{NoChildrenHere};

use crate::validation::ValidateFault;
use crate::validation::each::{NodeCheck, all_pass};
use crate::validation::links::links_to;
use dom_nodes::node_data::TreeNode;
use dom_nodes::node_id::NodeId;
use std::alloc::{AllocError, Global};

/// Checks the kinds of the nodes: that parents may have children, that documents and fragments are
/// detached, that template contents are fragments of one host each, and that there are enough ids.
pub(crate) fn check_contents(
    nodes: &[TreeNode],
    hosts: &[Option<NodeId>],
) -> Result<(), ValidateFault>
    requires known { AreLinksKnown nodes.now }
    requires hosts { AreHosts nodes.now hosts.now }
    requires before { PassesEarlierChecks nodes.now NoChildrenHere }
    ensures sound { MatchResult result (λ _. ContentsHold nodes.now hosts.now)
        (λ fault. IsRefused nodes.now fault) }
    ensures cause { IfErr result (λ fault. IsFirstFault nodes.now fault) }
{
    if !all_pass(nodes, NodeCheck::OpenParent) {
        return Err(ValidateFault::NoChildrenHere);
    }
    if !all_pass(nodes, NodeCheck::Alone) {
        return Err(ValidateFault::PlacedFragment);
    }
    if !host_contents(nodes, hosts) {
        return Err(ValidateFault::BadContents);
    }
    if nodes.len() > 4294967295 {
        return Err(ValidateFault::TooManyNodes);
    }
    Ok(())
}

/// Returns, for each node, an element that has it as its template contents.
pub(crate) fn hosts_of(alloc: Global, nodes: &[TreeNode]) -> Result<Vec<Option<NodeId>>, AllocError>
    requires { EachIndex nodes.now (HasOwnId nodes.now) }
    ensures { IfOk result (λ hosts. AreHosts nodes.now hosts.items) }
{
    let mut hosts = vec![in alloc; None; nodes.len()]?;
    for node in nodes {
        if let Some(contents) = node.content.template_contents() {
            if contents.value() < nodes.len() {
                hosts[contents.value()] = Some(node.id);
            }
        }
    }
    Ok(hosts)
}

/// Returns whether the parent of the node with this index may have children.
pub(crate) fn parent_allows_children(nodes: &[TreeNode], n: usize) -> bool
    requires known { AreLinksKnown nodes.now }
    requires here { n < length nodes.now }
    ensures { MatchBool result (ParentAllowsChildren nodes.now n)
        (ParentAllowsChildren nodes.now n → ⊥) }
{
    let Some(parent) = nodes[n].parent.get() else {
        return true;
    };
    nodes[parent.value()].content.may_have_children()
}

/// Returns whether the node, if it is the root, a document or a fragment, has no parent and no
/// siblings.
pub(crate) fn stays_alone(nodes: &[TreeNode], n: usize) -> bool
    requires { n < length nodes.now }
    ensures { MatchBool result (IsAlone nodes.now n) (IsAlone nodes.now n → ⊥) }
{
    let node = &nodes[n];
    if n != 0 && !node.content.is_top() {
        return true;
    }
    if node.parent.get().is_some() {
        return false;
    }
    if node.prev_sibling.get().is_some() {
        return false;
    }
    node.next_sibling.get().is_none()
}

/// Returns whether the template contents of the node, if it has any, are a fragment that has this
/// node as its host in `hosts`.
fn hosts_contents(nodes: &[TreeNode], hosts: &[Option<NodeId>], n: usize) -> bool
    requires hosts { AreHosts nodes.now hosts.now }
    requires here { n < length nodes.now }
    ensures { MatchBool result (HostsContents nodes.now hosts.now n)
        (HostsContents nodes.now hosts.now n → ⊥) }
{
    let Some(contents) = nodes[n].content.template_contents() else {
        return true;
    };
    let place = contents.value();
    if place == 0 || place >= nodes.len() {
        return false;
    }
    if !nodes[place].content.is_fragment() {
        return false;
    }
    links_to(hosts[place], n)
}

/// Returns whether all template contents are fragments with one host.
pub(crate) fn host_contents(nodes: &[TreeNode], hosts: &[Option<NodeId>]) -> bool
    requires { AreHosts nodes.now hosts.now }
    ensures { TestsEach result nodes.now (HostsContents nodes.now hosts.now) }
{
    for n in 0..nodes.len() {
        if !hosts_contents(nodes, hosts, n) {
            return false;
        }
    }
    true
}
