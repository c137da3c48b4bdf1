//! The article of a page by all that the page says of it, JSON-LD included, and a document of it.
#![tactic(auto)]

mod linked_data;
mod taking;

pub use dom_article::{Article, Metadata};
pub use taking::{article_of_page, document_of_article};
