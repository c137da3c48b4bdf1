//! Reading the records of a file, one after the other.

use crate::fields::{FIELDS, begins_with_word, value_of};
use httparse::{EMPTY_HEADER, Header, Status, parse_headers};
use std::alloc::{AllocError, Global};
use std::io::{self, BufRead, Read};

/// What the head of a record says, and the response of HTTP in it.
#[derive(Drop)]
pub struct Record {
    /// The field `WARC-Target-URI`, the address that was asked for.
    pub url: Option<String>,
    /// The field `WARC-Date`, the time of the crawl.
    pub date: Option<String>,
    /// The bytes of a response of HTTP, head and body; `None` if the record is something else, such
    /// as a request.
    pub response: Option<Vec<u8>>,
}

/// Why there is no record at some place of a file.
#[derive(Clone, Copy, Drop)]
pub enum RecordFault {
    /// The line isn't the version line of a record.
    NoRecord,
    /// The lines up to an empty line aren't fields, or there are more than 128.
    Head,
    /// The field `Content-Length` is missing, or isn't a number.
    Length,
    /// The file ends before the record does.
    CutOff,
}

impl RecordFault {
    /// Returns the name of the fault, for people.
    pub fn name(self) -> &'static str {
        match self {
            RecordFault::NoRecord => "not a WARC record",
            RecordFault::Head => "bad head of a WARC record",
            RecordFault::Length => "a WARC record without Content-Length",
            RecordFault::CutOff => "a WARC record that is cut off",
        }
    }
}

/// A record, or why there is none, and where in the file it begins.
#[derive(Drop)]
pub struct Found {
    /// How many bytes of the file are before it.
    pub offset: u64,
    pub record: Result<Record, RecordFault>,
}

/// How far a file has been read.
#[derive(Drop)]
pub struct Place {
    /// How many bytes were read, with those of the line.
    read: u64,
    /// A line that was read and doesn't belong to a record yet; empty if there is none.
    line: Vec<u8>,
}

impl Place {
    /// Returns the beginning of a file.
    pub fn new(alloc: Global) -> Place {
        Place {
            read: 0,
            line: Vec::new(alloc),
        }
    }

    /// Reads the next line in place of the one that was read last. At the end of the file the line
    /// is empty.
    fn read_line<R: BufRead>(&mut self, reader: &mut R) -> io::Result<()> {
        self.line.clear();
        let count = reader.read_until(b'\n', &mut self.line)?;
        self.read = self.read.saturating_add(count as u64);
        Ok(())
    }

    /// Returns how many bytes of the file are before the line that was read last.
    fn line_offset(&self) -> u64 {
        self.read.saturating_sub(self.line.len() as u64)
    }

    /// Returns whether the line is the version line of a record, such as `WARC/1.1`.
    fn is_version(&self) -> bool {
        self.line.starts_with(b"WARC/")
    }

    /// Reads lines until one isn't blank. Returns whether there is one.
    fn find_line<R: BufRead>(&mut self, reader: &mut R) -> io::Result<bool> {
        if !self.line.trim_ascii().is_empty() {
            return Ok(true);
        }
        for _ in 0..u64::MAX {
            self.read_line(reader)?;
            if self.line.is_empty() {
                return Ok(false);
            }
            if !self.line.trim_ascii().is_empty() {
                return Ok(true);
            }
        }
        Ok(false)
    }

    /// Reads lines until one is a version line, or up to the end of the file. The line that was
    /// read last doesn't count.
    fn find_version<R: BufRead>(&mut self, reader: &mut R) -> io::Result<()> {
        for _ in 0..u64::MAX {
            self.read_line(reader)?;
            if self.line.is_empty() || self.is_version() {
                break;
            }
        }
        Ok(())
    }

    /// Reads the fields of a head, up to the empty line after them. Returns `None` if the file ends
    /// before.
    fn read_head<R: BufRead>(
        &mut self,
        alloc: Global,
        reader: &mut R,
    ) -> io::Result<Option<Vec<u8>>> {
        let mut head = Vec::new(alloc);
        for _ in 0..u64::MAX {
            self.read_line(reader)?;
            if self.line.is_empty() {
                return Ok(None);
            }
            head.extend_from_slice(&self.line)?;
            if self.line.trim_ascii().is_empty() {
                break;
            }
        }
        self.line.clear();
        Ok(Some(head))
    }

    /// Reads this many bytes, and stores them in the vector if there is one. Returns whether the
    /// file has so many.
    fn read_block<R: BufRead>(
        &mut self,
        reader: &mut R,
        length: u64,
        stored: &mut Option<Vec<u8>>,
    ) -> io::Result<bool> {
        let mut left = length;
        for _ in 0..u64::MAX {
            let bytes = reader.fill_buf()?;
            let count = (bytes.len() as u64).min(left);
            if count == 0 {
                break;
            }
            if let (Some(block), Some(front)) = (stored.as_mut(), bytes.get(..count as usize)) {
                block.extend_from_slice(front)?;
            }
            reader.consume(count as usize);
            left = left.saturating_sub(count);
        }
        self.read = self.read.saturating_add(length.saturating_sub(left));
        Ok(left == 0)
    }
}

/// Reads the next record of a file; `place` says how far the file has been read. Returns `None` at
/// its end. After a fault, the next call goes on at the next line that begins with `WARC/`.
///
/// Fails if the reader fails, and when memory runs out. Records that aren't responses of HTTP are
/// skipped without being stored.
pub fn next_record<R: BufRead>(
    alloc: Global,
    reader: &mut R,
    place: &mut Place,
) -> io::Result<Option<Found>> {
    if !place.find_line(reader)? {
        return Ok(None);
    }
    let offset = place.line_offset();
    let record = if place.is_version() {
        read_record(alloc, reader, place)?
    } else {
        Err(RecordFault::NoRecord)
    };
    if record.is_err() {
        place.find_version(reader)?;
    }
    Ok(Some(Found { offset, record }))
}

/// Reads a record after its version line.
fn read_record<R: BufRead>(
    alloc: Global,
    reader: &mut R,
    place: &mut Place,
) -> io::Result<Result<Record, RecordFault>> {
    let Some(head) = place.read_head(alloc, reader)? else {
        return Ok(Err(RecordFault::CutOff));
    };
    let mut fields = [EMPTY_HEADER; FIELDS];
    let Ok(Status::Complete((_, fields))) = parse_headers(&head, &mut fields) else {
        return Ok(Err(RecordFault::Head));
    };
    let Some(length) = length_of(fields) else {
        return Ok(Err(RecordFault::Length));
    };
    let mut record = record_of(alloc, fields)?;
    if !place.read_block(reader, length, &mut record.response)? {
        return Ok(Err(RecordFault::CutOff));
    }
    Ok(Ok(record))
}

/// Returns the record with these fields. If its block is a response of HTTP, that is empty yet.
fn record_of(alloc: Global, fields: &[Header<'_>]) -> Result<Record, AllocError> {
    let response = if is_response(fields) {
        Some(Vec::new(alloc))
    } else {
        None
    };
    Ok(Record {
        url: address_in(alloc, fields)?,
        date: text_in(alloc, fields, "WARC-Date")?,
        response,
    })
}

/// Returns whether the block of a record is a response of HTTP.
fn is_response(fields: &[Header<'_>]) -> bool {
    let kind = value_of(fields, "WARC-Type").unwrap_or(b"");
    let content = value_of(fields, "Content-Type").unwrap_or(b"");
    kind.eq_ignore_ascii_case(b"response") && begins_with_word(content, "application/http")
}

fn length_of(fields: &[Header<'_>]) -> Option<u64> {
    let value = value_of(fields, "Content-Length")?;
    str::from_utf8(value).ok()?.parse::<u64>().ok()
}

/// Returns the address of a record. Some programs write it in angle brackets, as the standard's
/// first edition has it; these are left out.
fn address_in(alloc: Global, fields: &[Header<'_>]) -> Result<Option<String>, AllocError> {
    let Some(value) = value_of(fields, "WARC-Target-URI") else {
        return Ok(None);
    };
    let Ok(text) = str::from_utf8(value) else {
        return Ok(None);
    };
    let inside = match text.strip_prefix('<') {
        Some(rest) => rest.strip_suffix('>').unwrap_or(text),
        None => text,
    };
    Ok(Some(String::from_str(alloc, inside)?))
}

fn text_in(alloc: Global, fields: &[Header<'_>], name: &str) -> Result<Option<String>, AllocError> {
    let Some(value) = value_of(fields, name) else {
        return Ok(None);
    };
    match str::from_utf8(value) {
        Ok(text) => Ok(Some(String::from_str(alloc, text)?)),
        Err(_) => Ok(None),
    }
}
