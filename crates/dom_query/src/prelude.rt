//! The names that most programs use, for `use dom_query::prelude::*;`.

pub use crate::document_md::DocumentMd;
pub use crate::selection_md::SelectionMd;
pub use dom_clean::{Policy, PolicyFault, Rules, clean};
pub use dom_edits::edit::SelectionFault;
pub use dom_edits::selection_mut::SelectionMut;
pub use dom_links::gap::Place;
pub use dom_markup::document::Document;
pub use dom_markup::document::snippet::Snippet;
pub use dom_markup::serializing::{NodeMarkup, TraversalScope, WriteFault};
pub use dom_markup::setters::NodeMutMarkup;
pub use dom_md::node_md::NodeMd;
pub use dom_nodes::fault::{EditFault, MarkupFault, MarkupFaultKind, OutOfMemory};
pub use dom_nodes::node_id::NodeId;
pub use dom_sanitize::sanitize::{Allow, sanitize};
pub use dom_select::matcher::descendants::DescendantMatches;
pub use dom_select::matcher::{MatchNode, Matcher};
pub use dom_select::node_select::NodeSelect;
pub use dom_selection::document_select::DocumentSelect;
pub use dom_selection::selection::Selection;
pub use dom_selectors::fault::SelectorFault;
pub use dom_trees::node_mut::NodeMut;
pub use dom_trees::node_ref::NodeRef;
pub use dom_trees::tree::Tree;
pub use page_reading::{
    Charset, Confidence, Context, Encoding, Fallback, Options, PageByteParser, PageFault,
    PageParser, ReadPage, parse_page, parse_page_bytes, parse_page_fragment, read_page,
};
