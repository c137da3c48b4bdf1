//! A cleaner of HTML from strangers. `clean` returns the text of what a `Policy` leaves of a
//! fragment, and `clean_page` that of a page.
//!
//! Whatever the input is, the HTML Standard parses that text as exactly the tree that was left. The
//! page with the text in its body is a calm page, so `parse_page` reads the same tree. The module
//! `laws` has the theorems about the definitions.
#![tactic(auto)]

mod addresses;
mod attributes;
mod cleaning;
mod common;
mod counting;
mod decoding;
mod documents;
mod fates;
pub mod laws;
mod lists;
mod policy;
mod presets;
mod removals;
mod reports;
mod rules;
mod streaming;
mod values;
mod writer;

pub use cleaning::{clean, clean_page};
pub use counting::{RemovedCounts, count_removed, removed_lines};
pub use decoding::{CleanedBytes, clean_bytes, clean_page_bytes};
pub use documents::clean_document;
pub use policy::{Policy, PolicyFault};
pub use removals::{Removed, removed_below, removed_from_body, removed_from_tree};
pub use reports::{CleanReport, clean_report};
pub use rules::Rules;
pub use streaming::write_clean_tree;
pub use writer::clean_tree;
