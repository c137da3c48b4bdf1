//! Checking that nodes from elsewhere are linked as a forest.

ghost use Rattle.std.specs.Prelude.{◌≡◌, [], Err, IfErr, MatchResult};
ghost use Rattle.dom_links.specs.Sound.{IsSoundArena};
ghost use Rattle.dom_links.specs.declared.validation.ValidateFault.TheVariants.{Memory, NoRoot};
ghost use Rattle.dom_links.specs.Validation.{IsRefused, IsFirstFault};

mod contents;
mod cycles;
mod each;
mod links;

use crate::ops::TreeNodeOps;
use dom_nodes::node_data::TreeNode;
use each::{NodeCheck, all_pass};
use std::alloc::{AllocError, Global};

/// Why nodes aren't linked as a forest. The checks are made in this order, apart from `Memory`.
#[derive(Clone, Copy, PartialEq, Eq, Debug, Drop, thiserror::Error)]
pub enum ValidateFault {
    /// There are no nodes.
    #[error("Root node (NodeId(0)) missing")]
    NoRoot,
    /// The first node has a parent.
    #[error("Root node (NodeId(0)) must have no parent")]
    RootPlaced,
    /// The id of a node isn't its index.
    #[error("The id of a node is not its place")]
    BadId,
    /// A link leads to an id that no node has.
    #[error("Invalid parent, first_child, last_child, prev_sibling or next_sibling reference")]
    UnknownLink,
    /// The next sibling of a node doesn't have the node as its previous sibling, or the other way
    /// round.
    #[error("prev_sibling or next_sibling mismatch")]
    BadLink,
    /// A node is inside itself, by children or template contents.
    #[error("Cycle detected")]
    Cycle,
    /// A node and its first or last child, or a node and its siblings, don't agree on the parent.
    #[error("A node is not linked to its parent")]
    NotLinked,
    /// A list of siblings is circular.
    #[error("Cycle detected in siblings")]
    SiblingCycle,
    /// A text, a comment, a doctype or a processing instruction has children.
    #[error("The parent of a node may not have children")]
    NoChildrenHere,
    /// The root, a document or a fragment has a parent or siblings.
    #[error("A document or fragment is placed")]
    PlacedFragment,
    /// Template contents aren't a fragment, are the root, or belong to two elements.
    #[error("bad template contents")]
    BadContents,
    /// There are more nodes than ids. When each id is an index, this can't happen.
    #[error("too many nodes")]
    TooManyNodes,
    /// A request for memory was refused.
    #[error("out of memory")]
    Memory,
}

impl From<AllocError> for ValidateFault {
    ghost from_gives = { λ _ fault. fault ≡ Memory };

    fn from(_refused: AllocError) -> ValidateFault {
        ValidateFault::Memory
    }
}

impl TreeNodeOps {
    /// Checks that the nodes are linked as a forest and that each one's id is its index. The result
    /// is the first fault in the order of `ValidateFault`, or `Memory` when memory is refused. It
    /// takes time linear in the number of nodes, and memory for a few integers for each node.
    pub fn validate(alloc: Global, nodes: &[TreeNode]) -> Result<(), ValidateFault>
        ensures sound { MatchResult result (λ _. IsSoundArena nodes.now)
            (λ fault. IsRefused nodes.now fault) }
        ensures cause { IfErr result (λ fault. IsFirstFault nodes.now fault) }
        ensures empty { nodes.now ≡ [] → result ≡ Err NoRoot }
    {
        links::check_links(nodes)?;
        let hosts = contents::hosts_of(alloc, nodes)?;
        if cycles::has_ancestor_cycle(alloc, nodes, &hosts)? {
            return Err(ValidateFault::Cycle);
        }
        if !all_pass(nodes, NodeCheck::Linked) {
            return Err(ValidateFault::NotLinked);
        }
        if cycles::has_sibling_cycle(alloc, nodes)? {
            return Err(ValidateFault::SiblingCycle);
        }
        contents::check_contents(nodes, &hosts)
    }
}
