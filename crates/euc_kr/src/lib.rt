//! EUC-KR, the encoding of Korean pages, as the Encoding Standard decodes it.
#![tactic(auto)]

mod decoding;
mod table;

pub use decoding::EucKr;
