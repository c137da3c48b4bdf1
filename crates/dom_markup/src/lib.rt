//! Markup: parsing explicit markup into a document, and serializing a tree as HTML. Start at
//! `document` for parsing, at `serializing` for writing, and at `setters` for editing a tree by
//! markup.
#![tactic(auto)]

pub mod document;
pub mod escaping;
mod find;
pub mod laws;
mod names;
mod references;
pub mod serializing;
pub mod setters;
pub mod writing;
