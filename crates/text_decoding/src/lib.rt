//! The text of bytes in any encoding of the Encoding Standard, whole or in pieces,
//! and the encodings of pages.
#![tactic(auto)]

mod decoder;
pub mod laws;
mod page;
mod state;
mod utf8;
mod whole;

pub use decoded_text::Decoded;
pub use decoder::{Decoder, decode_pieces};
pub use encodings::{Encoding, SingleByte, declared_encoding, label_in_content};
pub use page::{Charset, Confidence, Fallback, PageText, decode_page};
pub use whole::{DecodedText, decode};
