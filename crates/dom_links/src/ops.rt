//! Edits of an arena of nodes, and the tests for whether an edit is allowed.
//!
//! Start at `moves` (moves of nodes), `create` (new nodes) and `placing` (the tests). The other
//! modules build on them: `lists`, `insertions`, `copies`, `templates`, `set_text`, `add_text`,
//! `normalize`, `strip` and `changes`; `siblings`, `texts` and `counts` only read.

pub mod add_text;
pub mod changes;
pub mod copies;
mod counts;
pub mod create;
pub mod insertions;
mod list_writes;
pub mod lists;
pub mod moves;
mod normalize;
pub mod placing;
mod set_text;
pub mod siblings;
mod strip;
pub mod templates;
pub mod texts;
mod writes;

/// The edits and queries of an arena of nodes, as associated functions over slices. Most edits
/// require that the move is possible; `placing` has the tests for that, and `validate` checks that
/// nodes from elsewhere form a sound arena.
pub struct TreeNodeOps {}
