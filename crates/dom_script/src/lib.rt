//! The grammar of scripts: it parses each line of a script to a command. Start at `script`.
#![tactic(auto)]

pub mod script;
