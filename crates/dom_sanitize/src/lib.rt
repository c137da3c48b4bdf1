//! A sanitizer: it keeps the texts, the allowed elements and the allowed attributes of a tree, and
//! removes the rest.
//!
//! Start at `sanitize`: `Allow` holds the lists of names, and `sanitize` applies them to a
//! document. The definition of the result is `Cleaned` in specs/Clean.antt. It works in four
//! passes: plan what becomes of each node, detach all nodes, put back those that stay, and remove
//! attributes.
#![tactic(auto)]

mod attrs;
pub mod laws;
mod lookup;
mod moves;
mod plan;
pub mod sanitize;
