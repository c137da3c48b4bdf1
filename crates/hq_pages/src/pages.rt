//! Reading files as pages.

use crate::charset::Found;
use crate::compressed::command_for;
use crate::faults::Fault;
use crate::options::{Options, Reading};
use crate::words::open_file;
use dom_query::{
    Charset, Document, Encoding, MarkupFault, MarkupFaultKind, NodeId, Options as PageOptions,
    PageParser, decode_page, read_page,
};
use std::alloc::Global;
use std::io::Read;
use text_decoding::label_in_content;

/// Returns the node whose children are the top of what was read: the root, or for a fragment the
/// element around it, which is `html`, or `body` once the fragment has been sanitised.
pub fn top_of(document: &Document, options: &Options<'_>) -> NodeId {
    let root = document.root().id;
    if !is_of_fragment(options.reading) {
        return root;
    }
    let around = if options.policy.is_some() {
        document.body()
    } else {
        document.html_root()
    };
    match around {
        Some(node) => node.id,
        None => root,
    }
}

fn is_of_fragment(reading: Reading<'_>) -> bool {
    match reading {
        Reading::Explicit => false,
        Reading::Page { context, .. } => context.is_some(),
    }
}

/// Reads a file and returns its document, and for a page how it was decoded. The name `-` means
/// standard input. Fails if the file can't be read or is compressed, if explicit markup is refused,
/// and when memory or node ids run out.
pub fn read_document(
    rt: &HostRuntime,
    name: &str,
    reading: Reading<'_>,
) -> Result<(Document, Option<Found>), Fault> {
    if name == "-" {
        return read_from(rt.alloc(), &mut rt.stdin(), reading);
    }
    let mut file = open_file(rt, name)?;
    read_from(rt.alloc(), &mut file, reading)
}

/// Reads everything from a reader and returns its document.
fn read_from<R: Read>(
    alloc: Global,
    reader: &mut R,
    reading: Reading<'_>,
) -> Result<(Document, Option<Found>), Fault> {
    let mut bytes = Vec::new(alloc);
    if let Err(fault) = reader.read_to_end(&mut bytes) {
        return Err(Fault::File(fault));
    }
    if let Reading::Explicit = reading {
        return Ok((read_explicit(alloc, &bytes)?, None));
    }
    if let Some(command) = command_for(&bytes) {
        return Err(Fault::Compressed(command));
    }
    let (document, found) = read_bytes(alloc, &bytes, reading)?;
    Ok((document, Some(found)))
}

/// The document that the bytes of a page stand for, or those of a fragment, and how they were
/// decoded.
fn read_bytes(
    alloc: Global,
    bytes: &[u8],
    reading: Reading<'_>,
) -> Result<(Document, Found), Fault> {
    let Reading::Page {
        context: Some(context),
        charset,
        ..
    } = reading
    else {
        return read_whole(alloc, bytes, charset_in(reading), page_options(reading));
    };
    let page = decode_page(alloc, bytes, charset)?;
    let found = Found {
        encoding: page.encoding,
        confidence: page.confidence,
        replaced: page.text.replaced(),
    };
    let mut parser = PageParser::for_fragment(alloc, context, page_options(reading))?;
    parser.feed(page.text.as_str())?;
    Ok((parser.finish()?, found))
}

/// The page that bytes stand for, or where `is_text`, a text in UTF-8, whatever it declares.
pub fn read_line_page(
    alloc: Global,
    bytes: &[u8],
    is_text: bool,
    reading: Reading<'_>,
) -> Result<(Document, Found), Fault> {
    let charset = if is_text {
        Charset::of_transport(Encoding::Utf8)
    } else {
        charset_in(reading)
    };
    read_whole(alloc, bytes, charset, page_options(reading))
}

/// Returns the page that came with this field `Content-Type` of HTTP, and how it was decoded. The
/// field names the encoding unless the command line does.
pub fn read_received_page(
    alloc: Global,
    bytes: &[u8],
    content_type: Option<&[u8]>,
    reading: Reading<'_>,
) -> Result<(Document, Found), Fault> {
    let mut charset = charset_in(reading);
    if charset.transport.is_none()
        && let Some(value) = content_type
        && let Some(label) = label_in_content(value)
    {
        charset.transport = Encoding::for_label(label);
    }
    read_whole(alloc, bytes, charset, page_options(reading))
}

/// The page that bytes stand for, and how they were decoded.
fn read_whole(
    alloc: Global,
    bytes: &[u8],
    charset: Charset,
    options: PageOptions,
) -> Result<(Document, Found), Fault> {
    let read = read_page(alloc, bytes, charset, options)?;
    let found = Found {
        encoding: read.encoding,
        confidence: read.confidence,
        replaced: read.replaced,
    };
    Ok((read.document, found))
}

/// What is known of the encoding of pages.
fn charset_in(reading: Reading<'_>) -> Charset {
    match reading {
        Reading::Explicit => Charset::of_transport(Encoding::Utf8),
        Reading::Page { charset, .. } => charset,
    }
}

/// Returns the options of the library with which a page is parsed.
pub fn page_options(reading: Reading<'_>) -> PageOptions {
    match reading {
        Reading::Explicit => PageOptions::default(),
        Reading::Page {
            scripting,
            max_depth,
            ..
        } => PageOptions {
            scripting,
            max_depth,
            ..PageOptions::default()
        },
    }
}

/// Reads explicit markup and returns its document.
fn read_explicit(alloc: Global, bytes: &[u8]) -> Result<Document, Fault> {
    let text = match str::from_utf8(bytes) {
        Ok(text) => text,
        Err(fault) => return Err(not_utf8(bytes, fault.valid_up_to())),
    };
    match Document::parse(alloc, text) {
        Ok(document) => Ok(document),
        Err(fault) => Err(refused(text, fault)),
    }
}

/// Returns the fault of explicit markup, with line and column.
fn refused(text: &str, fault: MarkupFault) -> Fault {
    let (line, column) = fault.line_and_column(text);
    match fault.kind {
        MarkupFaultKind::Memory => Fault::Memory,
        MarkupFaultKind::TooManyNodes => Fault::TooManyNodes,
        kind => Fault::Markup {
            kind: Some(kind),
            line,
            column,
        },
    }
}

/// Returns the fault for bytes that aren't UTF-8 from this offset on, with line and column.
fn not_utf8(bytes: &[u8], at: usize) -> Fault {
    let (line, column) = line_and_column(bytes, at);
    Fault::Markup {
        kind: None,
        line,
        column,
    }
}

/// Returns the line and the column of an offset in a text in UTF-8, both counted from 1.
pub fn line_and_column(bytes: &[u8], at: usize) -> (usize, usize) {
    let front = match bytes.get(..at) {
        Some(front) => front,
        None => bytes,
    };
    let mut line: usize = 1;
    let mut column: usize = 1;
    for byte in front {
        if *byte == b'\n' {
            line = line.saturating_add(1);
            column = 1;
        } else if byte & 0xc0 != 0x80 {
            column = column.saturating_add(1);
        }
    }
    (line, column)
}
