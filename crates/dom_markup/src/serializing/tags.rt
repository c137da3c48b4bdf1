//! What is written when a node is entered, and when it is left.

ghost use Rattle.std.specs.Prelude.{◌≡◌, ◌++◌, codes};
ghost use Rattle.std.specs.List.{list_any};
ghost use Rattle.std.specs.Str.{bytes_eq};
ghost use Rattle.dom_markup.specs.Html.{attr_text, closing, opening, prefix_text, start_tag};
ghost use Rattle.dom_markup.specs.Html.{is_raw, is_void, is_void_node, keeps_texts};
ghost use Rattle.dom_markup.specs.Writing.{Writes};

use crate::escaping::Escaper;
use crate::names::{is_raw_name, is_void_name};
use crate::writing::{PutText, put_parts};
use dom_nodes::name::{Attr, NamespaceRef, QualName};
use dom_nodes::node_data::{Element, NodeData};

/// Writes the start of a node: a start tag, a text, a comment and so on. A text is not escaped if
/// `raw` is true.
pub(super) fn put_opening<P: PutText<W>, W>(
    w: &mut W,
    escaper: &Escaper,
    content: &NodeData,
    raw: bool,
) -> Result<(), P::Fault>
    ensures { Writes (P.written w.old) (P.written w.new) result (opening content.now raw) }
{
    match content {
        NodeData::Document | NodeData::Fragment => Ok(()),
        NodeData::Doctype { name, .. } => {
            put_parts::<P, W>(w, &["<!DOCTYPE ", name.as_str(), ">"])
        }
        NodeData::Text { contents } if raw => P::put(w, contents.as_str()),
        NodeData::Text { contents } => escaper.put_text::<P, W>(w, contents.as_str()),
        NodeData::Comment { contents } => {
            put_parts::<P, W>(w, &["<!--", contents.as_str(), "-->"])
        }
        NodeData::ProcessingInstruction { target, contents } => {
            put_parts::<P, W>(w, &["<?", target.as_str(), " ", contents.as_str(), ">"])
        }
        NodeData::Element(element) => put_start_tag::<P, W>(w, escaper, element),
    }
}

/// Writes the end tag of an element, and nothing for another node.
pub(super) fn put_end_tag<P: PutText<W>, W>(w: &mut W, content: &NodeData) -> Result<(), P::Fault>
    ensures { Writes (P.written w.old) (P.written w.new) result (closing content.now) }
{
    match content {
        NodeData::Element(element) => put_parts::<P, W>(w, &["</", element.node_name(), ">"]),
        _ => Ok(()),
    }
}

fn put_start_tag<P: PutText<W>, W>(
    w: &mut W,
    escaper: &Escaper,
    element: &Element,
) -> Result<(), P::Fault>
    ensures { Writes (P.written w.old) (P.written w.new) result (start_tag element.now) }
{
    put_parts::<P, W>(w, &["<", element.node_name()])?;
    for attr in element.attrs().as_slice() {
        put_attr::<P, W>(w, escaper, attr)?;
    }
    P::put(w, ">")
}

fn put_attr<P: PutText<W>, W>(w: &mut W, escaper: &Escaper, attr: &Attr) -> Result<(), P::Fault>
    ensures { Writes (P.written w.old) (P.written w.new) result (attr_text attr.now) }
{
    let local = attr.name.local().as_str();
    put_parts::<P, W>(w, &[before_local(&attr.name), local, "=\""])?;
    escaper.put_value::<P, W>(w, attr.value.as_str())?;
    P::put(w, "\"")
}

/// Returns what precedes the local name of an attribute: a space, and the prefix of its namespace.
fn before_local(name: &QualName) -> &str
    ensures { result.now ≡ codes " " ++ prefix_text name.now }
{
    match name.ns() {
        NamespaceRef::None => " ",
        NamespaceRef::Xml => " xml:",
        NamespaceRef::XLink => " xlink:",
        NamespaceRef::XmlNs if name.local().as_str() == "xmlns" => " ",
        NamespaceRef::XmlNs => " xmlns:",
        _ => " unknown_namespace:",
    }
}

/// Returns whether the element is void, that is, written as a start tag alone.
pub(super) fn is_void(element: &Element) -> bool
    ensures { result ≡ is_void element.now }
{
    match element.name().ns() {
        NamespaceRef::Html => is_void_name(&element.name().local()),
        _ => false,
    }
}

/// Returns whether the node is a void element, so nothing is written inside it.
pub(super) fn is_void_node(content: &NodeData) -> bool
    ensures { result ≡ is_void_node content.now }
{
    match content {
        NodeData::Element(element) => is_void(element),
        _ => false,
    }
}

/// Returns whether text children of the node are written without escaping.
pub(super) fn keeps_texts(content: &NodeData) -> bool
    ensures { result ≡ keeps_texts content.now }
{
    match content {
        NodeData::Element(element) => is_raw(element),
        _ => false,
    }
}

/// Returns whether the element's text children are written without escaping.
fn is_raw(element: &Element) -> bool
    ensures { result ≡ is_raw element.now }
{
    match element.name().ns() {
        NamespaceRef::Html => is_raw_name(&element.name().local()),
        _ => false,
    }
}
