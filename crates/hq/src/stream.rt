//! Streams of pages: for each line of JSON that is read, a line of JSON is written.

use crate::archive::answer_records;
use crate::pages::change;
use dom_query::{Command, Document, DocumentSelect, Matcher, NodeMarkup, NodeRef, run_commands};
use hq_pages::articles::take_article;
use hq_pages::charset::{Found, put_found};
use hq_pages::faults::{Fault, report_in};
use hq_pages::json::summary_value;
use hq_pages::options::{Job, Options, Printing, Show};
use hq_pages::page_lines::{PageLine, address_of, put, put_error, read_line};
use hq_pages::pages::read_line_page;
use hq_pages::showing::text_of;
use hq_pages::words::open_file;
use serde_json::{Map, Value};
use std::alloc::Global;
use std::io::{BufRead, BufReader, Write};
use std::time::Instant;

/// How much was read and written so far.
#[derive(Clone, Copy, Drop)]
pub struct Counts {
    pub pages: u64,
    pub bytes: u64,
    pub faults: u64,
    /// Whether something matched in one of the pages, or a page was processed without a selector.
    pub matched: bool,
}

impl Counts {
    /// Counts a page of this many bytes.
    pub fn add_page(&mut self, bytes: usize) {
        self.pages = self.pages.saturating_add(1);
        self.bytes = self.bytes.saturating_add(bytes as u64);
    }

    /// Counts a page that couldn't be read or processed.
    pub fn add_fault(&mut self) {
        self.faults = self.faults.saturating_add(1);
    }

    fn new() -> Counts {
        Counts {
            pages: 0,
            bytes: 0,
            faults: 0,
            matched: false,
        }
    }
}

/// How a run over all files ended.
#[derive(Clone, Copy, Drop)]
pub struct Outcome {
    /// Whether something matched in one of the pages, or a page was processed without a selector.
    pub matched: bool,
    /// Whether every file could be read to its end.
    pub all_read: bool,
}

/// Writes the answers to the lines or records of all files. A file that can't be read is reported,
/// and the next one is read.
pub fn answer_files<W: Write>(
    rt: &HostRuntime,
    options: &Options<'_>,
    out: &mut W,
) -> Result<Outcome, Fault> {
    let begun = Instant::now(rt).ok();
    let mut counts = Counts::new();
    let mut all_read = true;
    for name in options.files.as_slice() {
        let is_read = answer_or_report(rt, name, options, &mut counts, out)?;
        all_read = all_read && is_read;
    }
    if options.stream.progress {
        out.flush()?;
        report_counts(rt, counts, begun);
    }
    let matched = counts.matched;
    Ok(Outcome { matched, all_read })
}

/// Writes the answers to the pages of a file. Returns whether it could be read to its end; if not,
/// that is reported.
fn answer_or_report<W: Write>(
    rt: &HostRuntime,
    name: &str,
    options: &Options<'_>,
    counts: &mut Counts,
    out: &mut W,
) -> Result<bool, Fault> {
    match answer_file(rt, name, options, counts, out) {
        Ok(()) => Ok(true),
        Err(fault) => {
            if !fault.is_of_a_file() {
                return Err(fault);
            }
            // The output so far is written first, so that it comes before the report.
            out.flush()?;
            report_in(rt, name, &fault);
            Ok(false)
        }
    }
}

fn answer_file<W: Write>(
    rt: &HostRuntime,
    name: &str,
    options: &Options<'_>,
    counts: &mut Counts,
    out: &mut W,
) -> Result<(), Fault> {
    let alloc = rt.alloc();
    if name == "-" {
        let mut reader = BufReader::new(alloc, rt.stdin())?;
        return answer_pages(alloc, &mut reader, options, counts, out);
    }
    let mut reader = BufReader::new(alloc, open_file(rt, name)?)?;
    answer_pages(alloc, &mut reader, options, counts, out)
}

/// Writes the answer to each page of a reader: of each line, or of each record of a WARC file.
fn answer_pages<R: BufRead, W: Write>(
    alloc: Global,
    reader: &mut R,
    options: &Options<'_>,
    counts: &mut Counts,
    out: &mut W,
) -> Result<(), Fault> {
    if options.stream.warc {
        return answer_records(alloc, reader, options, counts, out);
    }
    answer_lines(alloc, reader, options, counts, out)
}

/// Writes the answer to each line of a reader.
fn answer_lines<R: BufRead, W: Write>(
    alloc: Global,
    reader: &mut R,
    options: &Options<'_>,
    counts: &mut Counts,
    out: &mut W,
) -> Result<(), Fault> {
    let mut line = Vec::new(alloc);
    for _ in 0..u64::MAX {
        line.clear();
        match reader.read_until(b'\n', &mut line) {
            Ok(0) => break,
            Ok(_) => answer_line(alloc, &line, options, counts, out)?,
            Err(fault) => return Err(Fault::File(fault)),
        }
    }
    Ok(())
}

/// Writes the answer to a line. An empty line has no answer.
fn answer_line<W: Write>(
    alloc: Global,
    line: &[u8],
    options: &Options<'_>,
    counts: &mut Counts,
    out: &mut W,
) -> Result<(), Fault> {
    if line.trim_ascii().is_empty() {
        return Ok(());
    }
    counts.add_page(line.len());
    let members = answer_of(alloc, line, options, counts)?;
    write_answer(alloc, members, options, out)
}

/// Writes an answer, and flushes it if that is asked for.
pub fn write_answer<W: Write>(
    alloc: Global,
    members: Map<String, Value>,
    options: &Options<'_>,
    out: &mut W,
) -> Result<(), Fault> {
    let answer = Value::Object(members).to_string(alloc)?;
    out.write_all(answer.as_bytes())?;
    out.write_all(b"\n")?;
    if options.stream.line_buffered {
        out.flush()?;
    }
    Ok(())
}

/// Returns the members of the answer to a line.
fn answer_of(
    alloc: Global,
    line: &[u8],
    options: &Options<'_>,
    counts: &mut Counts,
) -> Result<Map<String, Value>, Fault> {
    let (mut members, page) = read_line(alloc, line);
    match page {
        Ok(PageLine { page, is_text }) => {
            let read = read_line_page(alloc, &page, is_text, options.reading);
            answer_or_error(alloc, read, options, counts, &mut members)?;
        }
        Err(fault) => {
            counts.add_fault();
            put_error(alloc, &mut members, fault.name())?;
        }
    }
    Ok(members)
}

/// Adds the answer to a page to the members of its line or record, or why there is none.
pub fn answer_or_error(
    alloc: Global,
    read: Result<(Document, Found), Fault>,
    options: &Options<'_>,
    counts: &mut Counts,
    members: &mut Map<String, Value>,
) -> Result<(), Fault> {
    if let Err(fault) = answer_page(alloc, read, options, counts, members) {
        counts.add_fault();
        let why = format!(in alloc; "{fault}")?;
        put_error(alloc, members, why.as_str())?;
    }
    Ok(())
}

/// Adds the answer to a page to the members of its line or record.
fn answer_page(
    alloc: Global,
    read: Result<(Document, Found), Fault>,
    options: &Options<'_>,
    counts: &mut Counts,
    members: &mut Map<String, Value>,
) -> Result<(), Fault> {
    let (mut document, found) = read?;
    if options.verbose || found.replaced > 0 {
        put_found(alloc, members, found)?;
    }
    change(&mut document, address_of(members), options)?;
    match &options.job {
        Job::Select(selector) => put_matches(alloc, &document, selector, options, counts, members),
        Job::Script(commands) => {
            counts.matched = true;
            let output = output_of(alloc, &mut document, commands)?;
            put(alloc, members, "output", Value::String(output))
        }
        Job::Article { any } => {
            let article = take_article(&document, options, *any)?;
            counts.matched = counts.matched || article.is_some();
            let value = match article {
                Some(article) => article.value(None)?,
                None => Value::Null,
            };
            put(alloc, members, "article", value)
        }
        _ => {
            counts.matched = true;
            let text = document.root().inner_html()?;
            put(alloc, members, "document", Value::String(text))
        }
    }
}

/// Adds what a selector matches to the members, or how many matches there are.
fn put_matches(
    alloc: Global,
    document: &Document,
    selector: &Matcher,
    options: &Options<'_>,
    counts: &mut Counts,
    members: &mut Map<String, Value>,
) -> Result<(), Fault> {
    let found = if options.printing.first {
        document.select_single_matcher(selector)?
    } else {
        document.select_matcher(selector)?
    };
    counts.matched = counts.matched || found.exists();
    if let Show::Count = options.printing.show {
        return put(alloc, members, "count", Value::from(found.length() as u64));
    }
    let mut values = Vec::new(alloc);
    for node in found.nodes() {
        values.push(value_of(alloc, node, options.printing)?)?;
    }
    put(alloc, members, "matches", Value::Array(values))
}

/// Returns the JSON value for a match: an object, a text, or null if the match doesn't have the
/// attribute that is asked for.
fn value_of(alloc: Global, node: &NodeRef<'_>, printing: Printing<'_>) -> Result<Value, Fault> {
    if let Show::All = printing.show {
        return summary_value(alloc, node, None);
    }
    match text_of(node, printing)? {
        Some(text) => Ok(Value::String(text)),
        None => Ok(Value::Null),
    }
}

/// Returns what the commands of a script print for a page.
fn output_of(
    alloc: Global,
    document: &mut Document,
    commands: &[Command],
) -> Result<String, Fault> {
    let mut output = Vec::new(alloc);
    run_commands(alloc, &mut document.tree, commands, &mut output)?;
    match String::from_utf8(output) {
        Ok(text) => Ok(text),
        Err(_) => Err(Fault::Memory),
    }
}

/// Reports what was read on standard error.
fn report_counts(rt: &HostRuntime, counts: Counts, begun: Option<Instant>) {
    let Counts {
        pages,
        bytes,
        faults,
        ..
    } = counts;
    let seconds = match begun.map(|begun| begun.elapsed(rt)) {
        Some(Ok(took)) => took.as_secs().max(1),
        _ => 1,
    };
    let rate = pages / seconds;
    let _ = eprintln!(rt;
        "hq: {pages} pages, {bytes} bytes, {faults} faults, {rate} pages a second"
    );
}
