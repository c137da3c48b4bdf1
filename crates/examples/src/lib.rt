//! What README.md and the pages of docs/ quote: parts of programs and whole programs over
//! `dom_query`, and functions with contracts of their own (`callers`). The documents are compared with
//! these files, and with what the program `print_examples` of tests/programs prints by calling them.
#![tactic(auto)]

pub mod article;
pub mod callers;
pub mod changing;
pub mod comments;
pub mod copying;
pub mod counts;
pub mod fault;
pub mod finding;
pub mod links;
pub mod many;
pub mod mini;
pub mod page;
pub mod parens;
pub mod reading;
pub mod reducing;
pub mod rewriter;
pub mod selectors;
pub mod table;
pub mod texts;
pub mod walking;
pub mod writing;
