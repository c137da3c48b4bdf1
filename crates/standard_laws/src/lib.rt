//! Laws of the HTML Standard's parser, as it is defined in standard_tokens and standard_trees: what
//! its tokenizer makes of the HTML that the libraries write (`tokens`), what its tree construction
//! makes of calm documents (`calm`), and what both together make of calm pages (`parsing`). The
//! crate has no code that runs: its functions are laws.
#![tactic(auto)]

pub mod calm;
pub mod parsing;
pub mod spelled;
pub mod tokens;
