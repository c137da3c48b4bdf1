//! Reading pages, pieces of pages, fragments and explicit markup.

use crate::fault::Fault;
use dom_query::prelude::*;
use std::alloc::Global;
use std::io::Write;

/// Prints what is read of a page that leaves out most of its tags.
pub fn print_read<W: Write>(alloc: Global, out: &mut W) -> Result<(), Fault> {
    let page = "<title>Tea</title><p>Green<p>Mat&eacute;";
    let document = parse_page(alloc, page, Options::default())?;
    writeln!(out, "{}", document.html()?)?;
    Ok(())
}

/// Prints the page that comes in these pieces.
pub fn print_pieces<W: Write>(alloc: Global, out: &mut W) -> Result<(), Fault> {
    let document = read_pieces(alloc, &[b"<p>Gre", b"en<p>Mat\xC3", b"\xA9"])?;
    writeln!(out, "{}", document.html()?)?;
    Ok(())
}

/// Reads a page whose bytes come in pieces.
fn read_pieces(alloc: Global, pieces: &[&[u8]]) -> Result<Document, Fault> {
    let mut parser = PageParser::new(alloc, Options::default())?;
    for piece in pieces {
        parser.feed_bytes(piece)?;
    }
    Ok(parser.finish()?)
}

/// Prints a page that came with a label of its encoding.
pub fn print_received<W: Write>(alloc: Global, out: &mut W) -> Result<(), Fault> {
    let page = read_received(alloc, b"<p>\xFE\xC1\xCA", b"koi8-r")?;
    writeln!(out, "{}: {}", page.encoding.name(), page.document.text()?)?;
    Ok(())
}

/// Reads a page that came with this label, as in `Content-Type: text/html; charset=koi8-r`.
fn read_received(alloc: Global, bytes: &[u8], label: &[u8]) -> Result<ReadPage, Fault> {
    let charset = match Encoding::for_label(label) {
        Some(encoding) => Charset::of_transport(encoding),
        None => Charset::unknown(),
    };
    Ok(read_page(alloc, bytes, charset, Options::default())?)
}

/// Prints a fragment that is parsed as the rows of a table.
pub fn print_fragment<W: Write>(alloc: Global, out: &mut W) -> Result<(), Fault> {
    let context = Context::Html("tbody");
    let rows = parse_page_fragment(alloc, "<tr><td>1<td>2", context, Options::default())?;
    writeln!(out, "{}", rows.html()?)?;
    Ok(())
}

/// Prints the parse errors of a page.
pub fn print_errors<W: Write>(alloc: Global, out: &mut W) -> Result<(), Fault> {
    let options = Options {
        errors: true,
        ..Options::default()
    };
    let document = parse_page(alloc, "<!doctype html><p id=>Tea</p id=x>", options)?;
    for error in document.errors.as_slice() {
        writeln!(out, "{error}")?;
    }
    Ok(())
}

/// Prints where explicit markup is at fault.
pub fn print_fault<W: Write>(alloc: Global, out: &mut W) -> Result<(), Fault> {
    let markup = "<p>one<p>two</p>";
    // Each element has to be closed. The fault says what is wrong, and where.
    if let Err(fault) = Document::parse(alloc, markup) {
        let (line, column) = fault.line_and_column(markup);
        writeln!(out, "{line}:{column}: {}", fault.kind)?;
    }
    Ok(())
}
