//! The article of a page: what a reader came for, without navigation, advertisements and comments.
#![tactic(auto)]

mod attributes;
mod badness;
mod blocks;
mod choosing;
mod copies;
mod finding;
mod hidden;
mod hints;
mod kinds;
pub mod laws;
mod marking;
mod metadata;
mod page;
mod rounds;
mod scores;
mod sums;
mod tables;
mod texts;
mod titles;
mod words;

pub use finding::{Article, article_of, article_of_known};
pub use hidden::is_hidden;
pub use metadata::{Known, Metadata};
