//! Matching of mini selectors, and of paths of them. Start at
//! `mini_selector::extension::MiniSelect`.
#![tactic(auto)]

pub mod laws;
pub mod mini_selector;
pub mod traversal;
