//! Encodings of the Encoding Standard: their labels and names, the search for the encoding that a
//! page declares, and the decoders that need no large table (UTF-16 and the single-byte encodings).
#![tactic(auto)]

mod attributes;
mod encoding;
mod labels;
pub mod laws;
mod places;
mod prescan;
mod single_byte;
mod tables;
pub mod utf16;

pub use attributes::label_in_content;
pub use encoding::Encoding;
pub use prescan::declared_encoding;
pub use single_byte::SingleByte;
