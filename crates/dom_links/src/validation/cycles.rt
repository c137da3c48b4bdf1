//! The search for cycles of links.

ghost use Rattle.std.specs.Prelude.{◌≡◌, ◌<◌, ◌+◌, IfOk, IfSome, MatchBool, length, ℕ};
ghost use Rattle.dom_links.specs.Forest.{prev_link};
ghost use Rattle.dom_links.specs.Validation.{AreHosts, AreLinksBy, AreLinksKnown, AreMarks};
ghost use Rattle.dom_links.specs.Validation.{FindsCycle, HasCycle, link_at, parent_or_host};

use dom_nodes::node_data::TreeNode;
use dom_nodes::node_id::NodeId;
use std::alloc::{AllocError, Global};

/// Follows the links from `start` and marks every node on the way, up to the end or to a node that
/// is marked already. Returns whether that node was marked on this way, which means that there is a
/// cycle.
fn closes_cycle(links: &[Option<NodeId>], marks: &mut [usize], start: usize) -> bool
    requires known { (n : ℕ) → IfSome (link_at links.now n) (λ m. m < length links.now) }
    requires here { start < length links.now }
    requires earlier { AreMarks links.now marks.old start }
    ensures { MatchBool result (HasCycle (link_at links.now))
        (AreMarks links.now marks.new (start + 1)) }
{
    let mut at = start;
    while marks[at] == 0 {
        marks[at] = start + 1;
        let Some(next) = links[at] else {
            return false;
        };
        at = next.value();
    }
    marks[at] == start + 1
}

/// Returns whether some node leads back to itself. Each node is marked once, so the time is linear.
fn has_cycle(alloc: Global, links: &[Option<NodeId>]) -> Result<bool, AllocError>
    requires { (n : ℕ) → IfSome (link_at links.now n) (λ m. m < length links.now) }
    ensures { IfOk result (λ ring. FindsCycle ring (link_at links.now)) }
{
    let mut marks = vec![in alloc; 0; links.len()]?;
    for start in 0..links.len() {
        if closes_cycle(links, &mut marks, start) {
            return Ok(true);
        }
    }
    Ok(false)
}

/// Returns the parent of each node, or its host when it has no parent.
fn parents_or_hosts(
    alloc: Global,
    nodes: &[TreeNode],
    hosts: &[Option<NodeId>],
) -> Result<Vec<Option<NodeId>>, AllocError>
    requires { length hosts.now ≡ length nodes.now }
    ensures { IfOk result
        (λ ups. AreLinksBy ups.items (length nodes.now) (parent_or_host nodes.now hosts.now)) }
{
    let mut ups = Vec::with_capacity(alloc, nodes.len())?;
    for n in 0..nodes.len() {
        ups.push(nodes[n].parent.get().or(hosts[n]))?;
    }
    Ok(ups)
}

/// Returns whether a node leads back to itself by steps from each node to its parent, or to its
/// host when it has no parent.
pub(crate) fn has_ancestor_cycle(
    alloc: Global,
    nodes: &[TreeNode],
    hosts: &[Option<NodeId>],
) -> Result<bool, AllocError>
    requires known { AreLinksKnown nodes.now }
    requires hosts { AreHosts nodes.now hosts.now }
    ensures { IfOk result (λ ring. FindsCycle ring (parent_or_host nodes.now hosts.now)) }
{
    let ups = parents_or_hosts(alloc, nodes, hosts)?;
    has_cycle(alloc, &ups)
}

/// Returns the previous sibling of each node.
fn siblings_before(alloc: Global, nodes: &[TreeNode]) -> Result<Vec<Option<NodeId>>, AllocError>
    ensures { IfOk result
        (λ prevs. AreLinksBy prevs.items (length nodes.now) (prev_link nodes.now)) }
{
    let mut prevs = Vec::with_capacity(alloc, nodes.len())?;
    for node in nodes {
        prevs.push(node.prev_sibling.get())?;
    }
    Ok(prevs)
}

/// Returns whether a node leads back to itself by steps from each node to its previous sibling.
pub(crate) fn has_sibling_cycle(alloc: Global, nodes: &[TreeNode]) -> Result<bool, AllocError>
    requires { AreLinksKnown nodes.now }
    ensures { IfOk result (λ ring. FindsCycle ring (prev_link nodes.now)) }
{
    let prevs = siblings_before(alloc, nodes)?;
    has_cycle(alloc, &prevs)
}
