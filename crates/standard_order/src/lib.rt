//! What is so of the stack of open elements and of the list of active formatting elements wherever
//! a turn of the HTML Standard's tree construction begins, as standard_trees defines it: a turn
//! begins where the dispatcher begins with a token. The crate has no code that runs: its functions
//! are laws.
#![tactic(auto)]

pub mod laws;
