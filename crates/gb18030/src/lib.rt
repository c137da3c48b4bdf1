//! gb18030, the encoding of Chinese pages in simplified characters, as the Encoding Standard
//! decodes it. GBK is decoded by the same rules.
#![tactic(auto)]

mod decoding;
mod ranges;
mod table;

pub use decoding::Gb18030;
