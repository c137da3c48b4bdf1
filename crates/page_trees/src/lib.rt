//! Tree construction for web pages, as in the HTML Standard (13.2.6).
//!
//! Start at `reading::PageReader`, which connects the tokenizer with `builder::TreeBuilder`. The
//! insertion modes are in `modes`, the tree and the stack of open elements in `growing` and
//! `stack`.
#![tactic(auto)]

mod adjusting;
mod attributes;
mod builder;
mod chars;
mod depth;
mod element_kinds;
mod fault;
mod foreign;
mod formatting;
mod growing;
mod inserting;
pub mod laws;
mod modes;
mod name;
mod pointers;
mod quirks;
mod reading;
mod sets;
mod shape;
mod stack;

pub use element_kinds::ElementCategory;
pub use fault::PageFault;
pub use growing::BuiltTree;
pub use reading::{Context, Options, PageReader};
pub use shape::{is_page, make_page};
