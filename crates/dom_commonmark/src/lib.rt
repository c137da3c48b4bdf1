//! Trees as CommonMark, with the tables, the strikethrough and the task lists of GFM. Start at
//! `writer::commonmark`; `escaping::push_escaped` escapes a text.
#![tactic(auto)]

mod addresses;
pub mod escaping;
mod flanks;
mod inlines;
pub mod line_marks;
mod lines;
pub mod options;
mod spans;
mod tags;
pub mod writer;
