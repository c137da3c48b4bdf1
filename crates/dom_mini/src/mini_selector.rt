//! Matching of mini selectors, and of paths of them, as in the crate dom_query.

pub use dom_selectors::mini_selector::{fault, parser, selector};

pub(crate) mod descent;
pub mod extension;
pub(crate) mod search;
