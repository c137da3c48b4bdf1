//! WARC files: for each page in the records of a crawl's archive, a line of JSON is written.

use crate::stream::{Counts, answer_or_error, write_answer};
use hq_pages::compressed::command_for;
use hq_pages::faults::Fault;
use hq_pages::options::Options;
use hq_pages::page_lines::{put, put_error};
use hq_pages::pages::read_received_page;
use serde_json::{Map, Value};
use std::alloc::Global;
use std::io::{BufRead, Write};
use warc::{Found, Place, Record, Response, next_record, response_of};

/// Writes the answer to each page in the records of a reader. A bad record is answered by an error,
/// and the next one is read. Fails if the reader fails or is compressed, if the output can't be
/// written, and when memory runs out.
pub fn answer_records<R: BufRead, W: Write>(
    alloc: Global,
    reader: &mut R,
    options: &Options<'_>,
    counts: &mut Counts,
    out: &mut W,
) -> Result<(), Fault> {
    let command = match reader.fill_buf() {
        Ok(front) => command_for(front),
        Err(fault) => return Err(Fault::File(fault)),
    };
    if let Some(command) = command {
        return Err(Fault::Compressed(command));
    }
    let mut place = Place::new(alloc);
    for _ in 0..u64::MAX {
        match next_record(alloc, reader, &mut place) {
            Ok(Some(found)) => answer_found(alloc, found, options, counts, out)?,
            Ok(None) => break,
            Err(fault) => return Err(Fault::File(fault)),
        }
    }
    Ok(())
}

/// Writes the answer to a record if it is a page, or why it can't be read.
fn answer_found<W: Write>(
    alloc: Global,
    found: Found,
    options: &Options<'_>,
    counts: &mut Counts,
    out: &mut W,
) -> Result<(), Fault> {
    let Found { offset, record } = found;
    match record {
        Ok(record) => answer_record(alloc, offset, record, options, counts, out),
        Err(fault) => {
            counts.add_page(0);
            counts.add_fault();
            let mut members = Map::new(alloc);
            put(alloc, &mut members, "offset", Value::from(offset))?;
            put_error(alloc, &mut members, fault.name())?;
            write_answer(alloc, members, options, out)
        }
    }
}

/// Writes the answer to a record: nothing if it isn't a response of HTTP with HTML.
fn answer_record<W: Write>(
    alloc: Global,
    offset: u64,
    record: Record,
    options: &Options<'_>,
    counts: &mut Counts,
    out: &mut W,
) -> Result<(), Fault> {
    let Record {
        url,
        date,
        response,
    } = record;
    let Some(bytes) = response else {
        return Ok(());
    };
    let mut members = Map::new(alloc);
    put(alloc, &mut members, "offset", Value::from(offset))?;
    put_text(alloc, &mut members, "url", url)?;
    put_text(alloc, &mut members, "date", date)?;
    match response_of(alloc, &bytes) {
        Ok(response) if !response.is_html() => return Ok(()),
        Ok(response) => answer_response(alloc, &response, options, counts, &mut members)?,
        Err(fault) => {
            counts.add_fault();
            put_error(alloc, &mut members, fault.name())?;
        }
    }
    counts.add_page(bytes.len());
    write_answer(alloc, members, options, out)
}

/// Adds the answer to the page in a response to the members of its record.
fn answer_response(
    alloc: Global,
    response: &Response<'_>,
    options: &Options<'_>,
    counts: &mut Counts,
    members: &mut Map<String, Value>,
) -> Result<(), Fault> {
    let status = Value::from(u64::from(response.status));
    put(alloc, members, "status", status)?;
    let page = response.body.as_slice();
    let read = read_received_page(alloc, page, response.content_type, options.reading);
    answer_or_error(alloc, read, options, counts, members)
}

fn put_text(
    alloc: Global,
    members: &mut Map<String, Value>,
    name: &str,
    text: Option<String>,
) -> Result<(), Fault> {
    match text {
        Some(text) => put(alloc, members, name, Value::String(text)),
        None => Ok(()),
    }
}
