//! The response of HTTP in a record.

ghost use Rattle.std.specs.Prelude.{◌≡◌, IfOk, option_copied};
ghost use Rattle.warc.specs.Responses.{IsEndOf, body_bytes, is_html};
ghost use Rattle.warc.specs.declared.responses.ResponseFault.TheVariants.{Memory};

use crate::fields::{FIELDS, begins_with_word, value_of};
use httparse::{EMPTY_HEADER, Response as Head, Status, parse_chunk_size};
use std::alloc::{AllocError, Global};

/// What a response says, and its body.
#[derive(Drop)]
pub struct Response<'a> {
    /// The status code, such as 200.
    pub status: u16,
    /// The field `Content-Type`.
    pub content_type: Option<&'a [u8]>,
    pub body: Body<'a>,
}

impl Response<'_> {
    /// Returns whether the body is HTML by its content type; `true` if there is none.
    pub fn is_html(&self) -> bool
        ensures { result ≡ is_html (option_copied self.now.content_type) }
    {
        match self.content_type {
            Some(kind) => {
                begins_with_word(kind, "text/html")
                    || begins_with_word(kind, "application/xhtml+xml")
            }
            None => true,
        }
    }
}

/// The bytes of a body: lent from the record, or joined if it was sent in chunks.
#[derive(Drop)]
pub enum Body<'a> {
    Lent(&'a [u8]),
    Joined(Vec<u8>),
}

impl Body<'_> {
    /// Returns the bytes.
    pub fn as_slice(&self) -> &[u8]
        ensures { result.now ≡ body_bytes self.now }
    {
        match self {
            Body::Lent(bytes) => bytes,
            Body::Joined(bytes) => bytes,
        }
    }
}

/// Why a response has no body that can be read.
#[derive(Clone, Copy, Drop)]
pub enum ResponseFault {
    /// It doesn't begin with a status line and fields, or there are more than 128 fields.
    Head,
    /// It is said to be in chunks, and isn't.
    Chunks,
    /// It is compressed: the field `Content-Encoding` says so.
    Compressed,
    Memory,
}

impl ResponseFault {
    /// Returns the name of the fault, for people.
    pub fn name(self) -> &'static str {
        match self {
            ResponseFault::Head => "bad head of an HTTP response",
            ResponseFault::Chunks => "bad chunk of an HTTP response",
            ResponseFault::Compressed => "a compressed HTTP response",
            ResponseFault::Memory => "out of memory",
        }
    }
}

impl From<AllocError> for ResponseFault {
    ghost from_gives = { λ _ fault. fault ≡ Memory };

    fn from(_: AllocError) -> ResponseFault {
        ResponseFault::Memory
    }
}

/// Returns what a response of HTTP says, with its body, which is joined if it was sent in chunks.
/// Fails if the bytes aren't a response of HTTP/1.0 or 1.1, if a chunk is bad or cut off, if the
/// body is compressed, and when memory runs out. A body that isn't joined is lent from the bytes.
pub fn response_of(alloc: Global, bytes: &[u8]) -> Result<Response<'_>, ResponseFault>
    ensures { IfOk result (λ response. IsEndOf bytes.now response.body) }
{
    let mut fields = [EMPTY_HEADER; FIELDS];
    let mut head = Head::new(&mut fields);
    let Ok(Status::Complete(length)) = head.parse(bytes) else {
        return Err(ResponseFault::Head);
    };
    let Some(body) = bytes.get(length..) else {
        return Err(ResponseFault::Head);
    };
    if is_compressed(value_of(head.headers, "Content-Encoding")) {
        return Err(ResponseFault::Compressed);
    }
    let is_chunked = match value_of(head.headers, "Transfer-Encoding") {
        Some(coding) => begins_with_word(coding, "chunked"),
        None => false,
    };
    Ok(Response {
        status: head.code.unwrap_or(0),
        content_type: value_of(head.headers, "Content-Type"),
        body: if is_chunked {
            Body::Joined(joined_chunks(alloc, body)?)
        } else {
            Body::Lent(body)
        },
    })
}

fn is_compressed(coding: Option<&[u8]>) -> bool {
    match coding {
        Some(coding) => !coding.is_empty() && !coding.eq_ignore_ascii_case(b"identity"),
        None => false,
    }
}

/// Returns the bytes of all chunks of a body, one after the other. What is after the last chunk,
/// the empty one, is ignored.
fn joined_chunks(alloc: Global, body: &[u8]) -> Result<Vec<u8>, ResponseFault> {
    let mut joined = Vec::new(alloc);
    let mut rest = body;
    for _ in 0..body.len() {
        let Some((chunk, after)) = chunk_of(rest) else {
            return Err(ResponseFault::Chunks);
        };
        if chunk.is_empty() {
            return Ok(joined);
        }
        joined.extend_from_slice(chunk)?;
        rest = after;
    }
    Err(ResponseFault::Chunks)
}

/// Returns the first chunk of the bytes and what is after it, or `None` if there is no whole chunk.
fn chunk_of(bytes: &[u8]) -> Option<(&[u8], &[u8])> {
    let Ok(Status::Complete((start, size))) = parse_chunk_size(bytes) else {
        return None;
    };
    let size = usize::try_from(size).ok()?;
    let data = bytes.get(start..)?;
    let chunk = data.get(..size)?;
    let after = data.get(size..)?;
    match after.strip_prefix(b"\r\n") {
        Some(rest) => Some((chunk, rest)),
        None => Some((chunk, after)),
    }
}
