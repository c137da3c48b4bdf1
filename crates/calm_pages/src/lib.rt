//! Calm pages: explicit markup that tree construction leaves as it is, so that `Document::parse` and
//! the HTML Standard give the same tree. `read_calm` reads them.
#![tactic(auto)]

pub mod laws;
mod nesting;
mod reading;
mod texts;

pub use nesting::{Scope, TOP, holds_text};
pub use reading::read_calm;
