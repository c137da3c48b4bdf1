//! Edits at one node and at each node of a list.
//!
//! Start at `selection_mut`: a `SelectionMut` is a list of nodes with a mutable borrow of their
//! tree. `edit` has the edits as values.
#![tactic(auto)]

pub mod edit;
mod html;
pub mod selection_mut;
mod sources;
