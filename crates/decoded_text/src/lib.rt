//! What the decoders of character encodings have in common: the text that they write, with the
//! number of replacements in it, and fast decoding of runs of ASCII.
#![tactic(auto)]

mod ascii;
mod decoded;
mod index;
mod multi_byte;

pub use ascii::ascii_front;
pub use decoded::Decoded;
pub use index::{character_at, character_of};
pub use multi_byte::{Found, MultiByte, character_or_error, decode_into};
