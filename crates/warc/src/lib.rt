//! WARC files, the archives of crawls. A file is a sequence of records; a record has a head, which
//! is a version line and fields, and a block of bytes. The block of a record of the type `response`
//! is a response of HTTP as the server sent it, head and body. The format is that of ISO 28500
//! (WARC 1.0 and 1.1).
#![tactic(auto)]

mod fields;
mod records;
mod responses;

pub use records::{Found, Place, Record, RecordFault, next_record};
pub use responses::{Body, Response, ResponseFault, response_of};
