//! Selections: lists of nodes of one tree, as CSS selectors select them.
//!
//! Start at `document_select` (selecting in a document) and `selection` (what can be done with a
//! selection: read, filter, combine, go to parents and children, select further).
#![tactic(auto)]

pub mod document_select;
pub mod selection;
