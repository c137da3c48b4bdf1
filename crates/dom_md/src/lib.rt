//! Formatted text and Markdown of a tree. `NodeMd` has the calls for a node; the module
//! `serializer` writes Markdown, and `formatting` writes formatted text. The other modules contain
//! the pieces: escaping (`chunks`, `cells`), code fences (`fences`), and the options and lists
//! (`context`).
#![tactic(auto)]

pub mod cells;
pub mod chunks;
pub mod context;
pub mod fences;
pub mod formatting;
mod lanes;
pub mod node_md;
pub mod serializer;

pub use dom_nodes::escaping::html_escape;
