//! Big5, the encoding of Chinese pages in traditional characters, as the Encoding Standard decodes
//! it: with the Hong Kong characters.
#![tactic(auto)]

mod decoding;
mod table;

pub use decoding::Big5;
