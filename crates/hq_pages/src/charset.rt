//! The encodings of pages: what the command line says of them, what is reported, and what is
//! declared in a document that is written.

use crate::faults::{Fault, shown};
use crate::json::add;
use clap::ArgMatches;
use dom_nodes::node_data::Change;
use dom_query::{Charset, Confidence, Document, Encoding, NodeId, NodeRef};
use serde_json::{Map, Value};
use std::alloc::{AllocError, Global};
use strsim::osa_distance;
use text_decoding::label_in_content;

/// The encoding that a page was in, what says so, and how often U+FFFD stands for bytes that could
/// not be decoded.
#[derive(Clone, Copy, Drop)]
pub struct Found {
    pub encoding: Encoding,
    pub confidence: Confidence,
    pub replaced: usize,
}

/// What the command line says of the encoding of all pages.
pub fn charset_of(alloc: Global, matches: &ArgMatches<'_>) -> Result<Charset, Fault> {
    let Some(label) = matches.get_str("charset") else {
        return Ok(Charset::unknown());
    };
    match Encoding::for_label(label.as_bytes()) {
        Some(encoding) => Ok(Charset::of_transport(encoding)),
        None => Err(Fault::Charset {
            label: String::from_str(alloc, label)?,
            nearest: nearest_label(alloc, label)?,
        }),
    }
}

/// How many bytes of an unknown label are compared with the labels that there are.
const COMPARED: usize = 64;

/// The label that becomes a text with the fewest edits: a letter is put in, taken out or replaced,
/// or two neighbours change places.
fn nearest_label(alloc: Global, text: &str) -> Result<&'static str, AllocError> {
    let compared = match text.get(..COMPARED) {
        Some(front) => front,
        None => text,
    };
    let mut lower = String::from_str(alloc, compared)?;
    lower.make_ascii_lowercase();
    let labels = Encoding::labels();
    let mut nearest = 0;
    let mut least = usize::MAX;
    for number in 0..labels.len() {
        let distance = osa_distance(alloc, lower.as_str(), labels[number].0)?;
        if distance < least {
            nearest = number;
            least = distance;
        }
    }
    match labels.get(nearest) {
        Some((label, _)) => Ok(*label),
        None => Ok("utf-8"),
    }
}

/// Reports on standard error what could not be decoded, and where it is asked for (`verbose`) the
/// encoding of the page, as a line of JSON or as a text.
pub fn report_found(
    rt: &HostRuntime,
    name: &str,
    found: Found,
    verbose: bool,
    json: bool,
) -> Result<(), Fault> {
    let Found {
        encoding,
        confidence,
        replaced,
    } = found;
    let name = shown(name);
    let encoding = encoding.name();
    if verbose && json {
        let line = found_json(rt.alloc(), name, found)?;
        let _ = eprintln!(rt; "{line}");
    } else if verbose {
        let why = reason(confidence);
        let _ = eprintln!(rt; "hq: {name}: {encoding}, {why}");
    }
    if replaced > 0 {
        let _ = eprintln!(rt;
            "hq: {name}: errors in {encoding} that were replaced by U+FFFD: {replaced}"
        );
    }
    Ok(())
}

/// What says that a page is in its encoding, for people.
fn reason(confidence: Confidence) -> &'static str {
    match confidence {
        Confidence::Mark => "by its byte order mark",
        Confidence::Transport => "by --charset",
        Confidence::Declared => "as the page declares",
        Confidence::Fallback => "a guess",
    }
}

/// What says that a page is in its encoding, for programs.
fn confidence_name(confidence: Confidence) -> &'static str {
    match confidence {
        Confidence::Mark => "mark",
        Confidence::Transport => "transport",
        Confidence::Declared => "declared",
        Confidence::Fallback => "fallback",
    }
}

/// A page's encoding as a line of JSON.
fn found_json(alloc: Global, name: &str, found: Found) -> Result<String, Fault> {
    let mut members = Map::new(alloc);
    add(
        alloc,
        &mut members,
        "file",
        Value::try_from_str(alloc, name)?,
    )?;
    put_found(alloc, &mut members, found)?;
    Ok(Value::Object(members).to_string(alloc)?)
}

/// Puts a page's encoding into the members of an object.
pub fn put_found(
    alloc: Global,
    members: &mut Map<String, Value>,
    found: Found,
) -> Result<(), Fault> {
    let encoding = Value::try_from_str(alloc, found.encoding.name())?;
    add(alloc, members, "encoding", encoding)?;
    let confidence = Value::try_from_str(alloc, confidence_name(found.confidence))?;
    add(alloc, members, "confidence", confidence)?;
    let replaced = Value::from(found.replaced as u64);
    add(alloc, members, "replaced", replaced)
}

/// Makes each `meta` of a document that declares another encoding declare UTF-8, in which documents
/// are written.
pub fn declare_utf8(document: &mut Document) -> Result<(), Fault> {
    for (id, kind) in declarations(document)?.as_slice() {
        let (name, value) = match kind {
            DeclaredBy::Charset => ("charset", "utf-8"),
            DeclaredBy::Pragma => ("content", "text/html; charset=utf-8"),
        };
        document
            .tree
            .try_change_of(id, Change::SetAttr { name, value })?;
    }
    Ok(())
}

/// How a `meta` declares an encoding.
#[derive(Clone, Copy, Drop)]
enum DeclaredBy {
    /// By the attribute `charset`.
    Charset,
    /// As the header `Content-Type` would, by the attribute `content`.
    Pragma,
}

/// Returns the elements that declare another encoding than UTF-8, and how each does it.
fn declarations(document: &Document) -> Result<Vec<(NodeId, DeclaredBy)>, AllocError> {
    let mut found = Vec::new(document.tree.allocator());
    for node in document.root().descendants_it() {
        if let Some(kind) = declaration(&node) {
            found.push((node.id, kind))?;
        }
    }
    Ok(found)
}

/// Returns how an element declares another encoding than UTF-8, or `None` if it doesn't.
fn declaration(node: &NodeRef<'_>) -> Option<DeclaredBy> {
    if !node.has_name("meta") {
        return None;
    }
    if let Some(label) = node.attr("charset") {
        return if is_utf8(label.as_bytes()) {
            None
        } else {
            Some(DeclaredBy::Charset)
        };
    }
    let pragma = node.attr("http-equiv")?;
    let label = label_in_content(node.attr("content")?.as_bytes())?;
    if !pragma.eq_ignore_ascii_case("content-type") || is_utf8(label) {
        return None;
    }
    Some(DeclaredBy::Pragma)
}

fn is_utf8(label: &[u8]) -> bool {
    Encoding::for_label(label) == Some(Encoding::Utf8)
}
