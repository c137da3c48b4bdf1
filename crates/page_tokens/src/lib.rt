//! The tokenizer for web pages: tokenization as in the HTML Standard (13.2.5).
//!
//! Start at [`tokenizer::Tokenizer`]. It reads a page in parts and returns tags, comments and
//! doctypes; the characters between two tokens are collected until the caller takes them.
#![tactic(auto)]

pub mod attribute;
mod attributes;
pub mod laws;
pub mod named_references;
pub mod parse_error;
pub mod token;
pub mod tokenizer;
