//! The syntax of selectors: parsing and writing CSS selectors (Selectors Level 4) and mini
//! selectors.
//!
//! Start at `parser::parse_selectors` and `syntax`; mini selectors are in `mini_selector`.
#![tactic(auto)]

pub(crate) mod attributes;
mod compared;
pub mod comparisons;
pub mod copies;
pub mod css;
pub mod fault;
pub mod laws;
pub mod mini_selector;
pub(crate) mod names;
pub(crate) mod nth;
pub mod parser;
pub mod pseudo_class;
pub(crate) mod pseudos;
mod selector_css;
pub mod selector_name;
pub(crate) mod strings;
pub mod syntax;
