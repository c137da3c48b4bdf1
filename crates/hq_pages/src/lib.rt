//! The parts of `hq`: its command line, reading, sanitising and rewriting pages, and printing
//! matches as text, Markdown, JSON and CSV.
#![tactic(auto)]

pub mod addresses;
pub mod allowing;
pub mod articles;
pub mod charset;
pub mod command;
pub mod compressed;
pub mod csv_rows;
pub mod faults;
pub mod hints;
pub mod json;
pub mod options;
pub mod page_lines;
pub mod pages;
pub mod policies;
pub mod policy_files;
pub mod rule_faults;
pub mod showing;
pub mod tree;
pub mod words;
