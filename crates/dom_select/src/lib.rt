//! Matching of selectors against the nodes of a tree. Start at `matcher::Matcher`, or at
//! `node_select::NodeSelect` to test one node.
#![tactic(auto)]

pub use dom_selectors::{css, fault, pseudo_class};

pub mod laws;
pub mod matcher;
pub mod node_select;
mod printed;
