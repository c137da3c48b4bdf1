//! Parsing web pages into documents, as the HTML Standard says. Start at `reading::parse_page`.
//!
//! A page is parsed by tree construction (`page_trees`). A calm page (`calm_pages`), which tree
//! construction would leave as it is, is parsed faster as explicit markup.
#![tactic(auto)]

mod byte_parser;
mod charset;
pub mod laws;
mod page_decoder;
mod reading;
mod utf8_pieces;

pub use byte_parser::PageByteParser;
pub use charset::{ReadPage, read_page};
pub use page_trees::{Context, Options, PageFault, make_page};
pub use reading::{PageParser, parse_page, parse_page_bytes, parse_page_fragment};
pub use text_decoding::{Charset, Confidence, Encoding, Fallback, PageText, decode_page};
