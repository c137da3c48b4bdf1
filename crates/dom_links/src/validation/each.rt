//! The checks that look at each node in turn.

ghost use Rattle.std.specs.Prelude.{◌<◌, MatchBool, length};
ghost use Rattle.dom_links.specs.Validation.{AreLinksKnown, Passes, TestsEach};

use crate::validation::contents::{parent_allows_children, stays_alone};
use crate::validation::links::{agrees, is_linked};
use dom_nodes::node_data::TreeNode;

/// What is checked of each node.
#[derive(Clone, Copy)]
pub(crate) enum NodeCheck {
    /// Its siblings link back to it.
    Neighbours,
    /// It and its parent link to each other.
    Linked,
    /// Its parent may have children.
    OpenParent,
    /// If it is the root, a document or a fragment, it has no parent and no siblings.
    Alone,
}

/// Returns whether every node passes a check.
pub(crate) fn all_pass(nodes: &[TreeNode], check: NodeCheck) -> bool
    requires { AreLinksKnown nodes.now }
    ensures { TestsEach result nodes.now (Passes check nodes.now) }
{
    for n in 0..nodes.len() {
        if !passes(nodes, n, check) {
            return false;
        }
    }
    true
}

/// Returns whether the node with this index passes a check.
fn passes(nodes: &[TreeNode], n: usize, check: NodeCheck) -> bool
    requires known { AreLinksKnown nodes.now }
    requires here { n < length nodes.now }
    ensures { MatchBool result (Passes check nodes.now n) (Passes check nodes.now n → ⊥) }
{
    match check {
        NodeCheck::Neighbours => agrees(nodes, n),
        NodeCheck::Linked => is_linked(nodes, n),
        NodeCheck::OpenParent => parent_allows_children(nodes, n),
        NodeCheck::Alone => stays_alone(nodes, n),
    }
}
