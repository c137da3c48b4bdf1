//! Mini selectors, a small selector syntax of the crate dom_query: a name, an id, classes and
//! attributes, with a combinator before them. They are matched without allocating memory.

mod attributes;
pub mod fault;
pub mod parser;
mod scan;
pub mod selector;
mod truth;
