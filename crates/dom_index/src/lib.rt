//! An index of a tree's nodes in preorder, and fast selection. Start at `index::TreeIndex`, or at
//! `selecting::select_ids` for a single selection.
//!
//! There are three strategies, which `strategies` chooses between: matching each node, one
//! traversal with rows of flags (`streaming`), and node sets over the index (`evaluation`).
#![tactic(auto)]

mod chains;
mod collect;
mod combinators;
mod evaluation;
pub mod index;
mod node_set;
mod node_tests;
mod preorder;
pub mod selecting;
mod strategies;
mod streaming;
mod type_filter;
