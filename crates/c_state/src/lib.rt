//! The state behind a document's handle: the document, and what was asked of it last; and the state
//! behind the handle of a policy. Every answer is a number, and lists and texts are written into
//! the caller's room as far as they fit.
#![tactic(auto)]

mod articles;
mod bytes;
mod decoding;
mod editing;
mod fault;
mod finding;
mod gathering;
mod moving;
mod names;
mod numbers;
mod pages;
mod pieces;
mod policies;
mod reading;
mod rules;
mod state;

pub use articles::TakenArticle;
pub use decoding::Decoded;
pub use fault::{Fault, Refusal, fault_text};
pub use pages::Reader;
pub use policies::{PolicyState, Stage};
pub use state::State;
