//! Matches as JSON. A call that returns a `Result` fails only when memory runs out.

use crate::faults::Fault;
use dom_query::{Attr, NodeMarkup, NodeRef, QualName};
use serde_json::{Map, Value};
use std::alloc::Global;

/// Returns the text unchanged, or as a JSON string if `json` is true.
pub fn shown_as(alloc: Global, text: String, json: bool) -> Result<String, Fault> {
    if json {
        return string_json(alloc, text.as_str());
    }
    Ok(text)
}

/// Returns a text as a JSON string.
fn string_json(alloc: Global, text: &str) -> Result<String, Fault> {
    Ok(Value::try_from_str(alloc, text)?.to_string(alloc)?)
}

/// Returns a JSON object with an element's name, attributes, text and HTML, and with the name of
/// its file if `file` has one.
pub fn summary_json(
    alloc: Global,
    node: &NodeRef<'_>,
    file: Option<&str>,
) -> Result<String, Fault> {
    Ok(summary_value(alloc, node, file)?.to_string(alloc)?)
}

/// Returns a value with an element's name, attributes, text and HTML, and with the name of its file
/// if `file` has one.
pub fn summary_value(
    alloc: Global,
    node: &NodeRef<'_>,
    file: Option<&str>,
) -> Result<Value, Fault> {
    let mut members = Map::new(alloc);
    add_parts(alloc, node, &mut members)?;
    if let Some(file) = file {
        add(
            alloc,
            &mut members,
            "file",
            Value::try_from_str(alloc, file)?,
        )?;
    }
    Ok(Value::Object(members))
}

fn add_parts(
    alloc: Global,
    node: &NodeRef<'_>,
    members: &mut Map<String, Value>,
) -> Result<(), Fault> {
    let name = node.node_name().unwrap_or("");
    add(alloc, members, "name", Value::try_from_str(alloc, name)?)?;
    add(alloc, members, "attrs", attrs_value(alloc, node.attrs())?)?;
    add(alloc, members, "text", Value::String(node.text()?))?;
    add(alloc, members, "html", Value::String(node.html()?))
}

/// Returns the attributes as a JSON object.
fn attrs_value(alloc: Global, attrs: &[Attr]) -> Result<Value, Fault> {
    let mut members = Map::new(alloc);
    for attr in attrs {
        add_attr(alloc, &mut members, attr)?;
    }
    Ok(Value::Object(members))
}

fn add_attr(alloc: Global, members: &mut Map<String, Value>, attr: &Attr) -> Result<(), Fault> {
    let value = Value::try_from_str(alloc, attr.value.as_str())?;
    members.insert(name_of(alloc, &attr.name)?, value)?;
    Ok(())
}

/// Returns a name as it is written, with its prefix if it has one.
fn name_of(alloc: Global, name: &QualName) -> Result<String, Fault> {
    let mut written = String::new(alloc);
    if let Some(prefix) = name.prefix() {
        written.push_str(prefix)?;
        written.push(':')?;
    }
    written.push_str(name.local().as_str())?;
    Ok(written)
}

pub(crate) fn add(
    alloc: Global,
    members: &mut Map<String, Value>,
    name: &str,
    value: Value,
) -> Result<(), Fault> {
    let name = String::from_str(alloc, name)?;
    members.insert(name, value)?;
    Ok(())
}
