//! A forest of nodes in one vector (an arena): edits, traversals, queries and checks over slices of
//! `TreeNode`.
//!
//! A node's id is its index in the vector. Nodes are linked to their parent, siblings and children;
//! a node without a parent is detached, and may still have siblings. An element can have template
//! contents, a fragment that is no child of it. Start at `ops` (edits and queries) and `iters`
//! (iterators); `validation` checks nodes from elsewhere. The definition that all contracts refer
//! to is `Forest` in specs/Forest.antt.
#![tactic(auto)]

pub mod edges;
pub mod gap;
pub mod indexes;
pub mod iters;
pub mod laws;
pub mod ops;
pub mod validation;
