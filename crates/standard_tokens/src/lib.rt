//! The tokenizer of the HTML Standard (13.2.5), written out as definitions in `specs/`, and what it
//! makes of plain markup. The crate has no code that runs: its functions are laws. How to read the
//! definitions is said in docs/STANDARD.md.
#![tactic(auto)]

pub mod laws;
