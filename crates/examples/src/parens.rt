//! A parser of another markup, which fills a document only by the calls of `TreeSink`. An element
//! is written `(name text)`, its attributes after the name as `name@key=value@key=value`; a space
//! ends them. Without a name, the attributes are added to the element around.

use crate::fault::Fault;
use dom_query::{
    Attr, Attrs, Document, ElementFlags, LocalName, NameParts, Namespace, NodeId, NodeMarkup,
    NodeOrText, OutOfMemory, QualName, Text, TreeSink,
};
use std::alloc::Global;
use std::io::Write;

/// Reads a text into a sink, and returns the document that the sink makes.
pub fn read<S: TreeSink + Drop>(alloc: Global, text: &str, mut sink: S) -> Result<Document, Fault> {
    let mut around = Vec::new(alloc);
    let mut here = sink.get_document();
    for (number, piece) in text.split('(').enumerate() {
        let mut rest = piece;
        if number > 0 {
            let (tag, after) = piece.split_once(' ').unwrap_or((piece, ""));
            rest = after;
            around.push(here).map_err(OutOfMemory::from)?;
            here = open(alloc, &mut sink, here, tag)?;
        }
        for (ends, part) in rest.split(')').enumerate() {
            if ends > 0 {
                match around.pop() {
                    Some(outer) => here = outer,
                    None => sink.parse_error("a parenthesis ends nothing")?,
                }
            }
            if !part.is_empty() {
                sink.append(&here, NodeOrText::AppendText(part))?;
            }
        }
    }
    if !around.is_empty() {
        sink.parse_error("an element is open at the end")?;
    }
    Ok(sink.finish())
}

/// Makes the element of a tag, and returns the node whose children its content becomes.
fn open<S: TreeSink>(
    alloc: Global,
    sink: &mut S,
    parent: NodeId,
    tag: &str,
) -> Result<NodeId, Fault> {
    let (name, rest) = tag.split_once('@').unwrap_or((tag, ""));
    let attrs = attributes(alloc, rest)?;
    if name.is_empty() {
        sink.add_attrs_if_missing(&parent, attrs)?;
        return Ok(parent);
    }
    let flags = ElementFlags {
        template: name == "template",
        mathml_annotation_xml_integration_point: false,
    };
    let name = named(alloc, Namespace::Html, name)?;
    let element = sink.create_element(name, attrs, flags)?;
    sink.append(&parent, NodeOrText::AppendNode(element))?;
    Ok(sink.get_template_contents(&element).unwrap_or(element))
}

/// Returns the attributes that are written after a name.
fn attributes(alloc: Global, written: &str) -> Result<Attrs, Fault> {
    let mut attrs = Attrs::new(alloc);
    for attr in written.split('@').filter(|attr| !attr.is_empty()) {
        let (key, value) = attr.split_once('=').unwrap_or((attr, ""));
        attrs.push(Attr {
            name: named(alloc, Namespace::None, key)?,
            value: Text::new(alloc, value)?,
        })?;
    }
    Ok(attrs)
}

/// Returns a name without a prefix.
fn named(alloc: Global, ns: Namespace, name: &str) -> Result<QualName, Fault> {
    let local = LocalName::new(alloc, name)?;
    let prefix = None;
    let name = QualName::new(alloc, NameParts { prefix, ns, local })?;
    Ok(name)
}

/// Prints the document that is read from a text, and what was wrong with the text.
pub fn print_read<W: Write>(alloc: Global, out: &mut W) -> Result<(), Fault> {
    let text = "(ul@id=teas (li Assam)(li@class=hot Mate(@class=cold@lang=es )))) (template (p x";
    let document = read(alloc, text, Document::new(alloc)?)?;
    print_document(&document, out)
}

fn print_document<W: Write>(document: &Document, out: &mut W) -> Result<(), Fault> {
    let html = document.html()?;
    writeln!(out, "{html}")?;
    for error in document.errors.as_slice() {
        writeln!(out, "{error}")?;
    }
    Ok(())
}
