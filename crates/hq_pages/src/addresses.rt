//! The attributes whose values are addresses, and making these addresses absolute. A call that
//! returns a `Result` fails only when memory runs out.

use crate::faults::Fault;
use crate::options::Options;
use dom_nodes::node_data::Change;
use dom_query::{Document, NodeId, NodeRef};
use std::alloc::Global;
use url::{ParseError, Url};

/// The attributes whose value is an address.
static ADDRESSES: [&str; 11] = [
    "action",
    "background",
    "cite",
    "data",
    "formaction",
    "href",
    "icon",
    "longdesc",
    "manifest",
    "poster",
    "src",
];

/// Makes the addresses of a document absolute: each is resolved against the address of the page's
/// `base` element, which is itself resolved against the base of the options. Nothing changes if the
/// options have no base. An address that can't be resolved stays as it is, and so does the address
/// of the `base` element.
pub fn make_absolute(document: &mut Document, options: &Options<'_>) -> Result<(), Fault> {
    match &options.base {
        Some(given) => make_absolute_by(document, given),
        None => Ok(()),
    }
}

fn make_absolute_by(document: &mut Document, given: &Url) -> Result<(), Fault> {
    let base = base_of(document, given)?;
    for name in &ADDRESSES {
        for (id, absolute) in absolute_values(document, name, &base)?.as_slice() {
            document.tree.try_change_of(
                id,
                Change::SetAttr {
                    name,
                    value: absolute.as_str(),
                },
            )?;
        }
    }
    Ok(())
}

/// Makes the addresses of a document absolute, with the address that it was read from as the base.
/// Nothing changes if that isn't an absolute address.
pub fn make_absolute_at(document: &mut Document, address: &str) -> Result<(), Fault> {
    match Url::parse(document.tree.allocator(), address) {
        Ok(given) => make_absolute_by(document, &given),
        Err(ParseError::OutOfMemory) => Err(Fault::Memory),
        Err(_) => Ok(()),
    }
}

/// Returns the URL against which the page's addresses are resolved.
fn base_of(document: &Document, given: &Url) -> Result<Url, Fault> {
    let own = document.base_uri().unwrap_or("");
    if let Some(base) = joined(given, own)? {
        return Ok(base);
    }
    match joined(given, "")? {
        Some(base) => Ok(base),
        None => Err(Fault::Memory),
    }
}

/// Returns the elements with an attribute of that name whose value can be resolved, each with the
/// absolute address.
fn absolute_values(
    document: &Document,
    name: &str,
    base: &Url,
) -> Result<Vec<(NodeId, String)>, Fault> {
    let alloc = document.tree.allocator();
    let mut found = Vec::new(alloc);
    for node in document.root().descendants_it() {
        if let Some(absolute) = absolute_value(alloc, &node, name, base)? {
            found.push((node.id, absolute))?;
        }
    }
    Ok(found)
}

/// Returns the absolute address of an element's attribute; `None` if the element doesn't have the
/// attribute, or if the value can't be resolved.
fn absolute_value(
    alloc: Global,
    node: &NodeRef<'_>,
    name: &str,
    base: &Url,
) -> Result<Option<String>, Fault> {
    if node.has_name("base") {
        return Ok(None);
    }
    let Some(value) = node.attr(name) else {
        return Ok(None);
    };
    match joined(base, value)? {
        Some(url) => Ok(Some(String::from_str(alloc, url.as_str())?)),
        None => Ok(None),
    }
}

/// Returns an address resolved against a base, or `None` if it can't be resolved.
fn joined(base: &Url, address: &str) -> Result<Option<Url>, Fault> {
    match base.join(address) {
        Ok(url) => Ok(Some(url)),
        Err(ParseError::OutOfMemory) => Err(Fault::Memory),
        Err(_) => Ok(None),
    }
}
