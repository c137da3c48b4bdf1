//! What a page says of its article in JSON-LD: the first script of type `application/ld+json` with
//! an object whose `@type` names a kind of article. A call that returns a `Result` fails only when
//! memory runs out.

use dom_article::Known;
use dom_markup::document::Document;
use dom_nodes::fault::OutOfMemory;
use dom_trees::node_ref::NodeRef;
use serde_json::{Map, Value};
use std::alloc::Global;

/// What JSON-LD says of an article.
#[derive(Drop)]
pub(crate) struct LinkedData {
    title: Option<String>,
    byline: Option<String>,
    published: Option<String>,
    site: Option<String>,
    description: Option<String>,
    image: Option<String>,
}

impl LinkedData {
    /// Returns what is known of the article.
    pub(crate) fn known(&self) -> Known<'_> {
        Known {
            title: text_in(&self.title),
            byline: text_in(&self.byline),
            published: text_in(&self.published),
            site: text_in(&self.site),
            description: text_in(&self.description),
            image: text_in(&self.image),
        }
    }
}

fn text_in(text: &Option<String>) -> Option<&str> {
    match text {
        Some(text) => Some(text.as_str()),
        None => None,
    }
}

/// Returns what the scripts of a page say in JSON-LD.
pub(crate) fn linked_data_of(document: &Document) -> Result<LinkedData, OutOfMemory> {
    let alloc = document.tree.allocator();
    for node in document.root().descendants_it() {
        if !is_linked_data(&node) {
            continue;
        }
        let text = node.text()?;
        if let Some(value) = value_of(alloc, text.as_str())?
            && let Some(object) = article_in(&value)
        {
            return data_of(alloc, object);
        }
    }
    Ok(LinkedData {
        title: None,
        byline: None,
        published: None,
        site: None,
        description: None,
        image: None,
    })
}

/// Returns the value that a text is in JSON, or `None` if it is none.
fn value_of(alloc: Global, text: &str) -> Result<Option<Value>, OutOfMemory> {
    match Value::from_slice(alloc, text.as_bytes()) {
        Ok(value) => Ok(Some(value)),
        Err(fault) => {
            if fault.is_syntax() || fault.is_eof() {
                return Ok(None);
            }
            Err(OutOfMemory)
        }
    }
}

fn is_linked_data(node: &NodeRef<'_>) -> bool {
    if !node.has_name("script") {
        return false;
    }
    match node.attr("type") {
        Some(kind) => is_type_of_linked_data(kind),
        None => false,
    }
}

fn is_type_of_linked_data(kind: &str) -> bool {
    let kind = kind.trim();
    kind.eq_ignore_ascii_case("application/ld+json")
}

/// Returns the object of an article: the value itself, or one in its array or its `@graph`.
fn article_in(value: &Value) -> Option<&Map<String, Value>> {
    match value {
        Value::Array(values) => {
            for value in values {
                if let Value::Object(object) = value
                    && let Some(found) = article_of(object)
                {
                    return Some(found);
                }
            }
            None
        }
        Value::Object(object) => article_of(object),
        _ => None,
    }
}

/// Returns the object if it is an article, or the article in its `@graph`.
fn article_of(object: &Map<String, Value>) -> Option<&Map<String, Value>> {
    if is_article(object) {
        return Some(object);
    }
    let Some(Value::Array(values)) = object.get("@graph") else {
        return None;
    };
    for value in values {
        if let Value::Object(object) = value
            && is_article(object)
        {
            return Some(object);
        }
    }
    None
}

/// Returns whether the `@type` of an object names a kind of article.
fn is_article(object: &Map<String, Value>) -> bool {
    match object.get("@type") {
        Some(Value::String(name)) => names_article(name.as_str()),
        Some(Value::Array(names)) => names_some_article(names),
        _ => false,
    }
}

fn names_some_article(names: &[Value]) -> bool {
    for name in names {
        if let Value::String(name) = name
            && names_article(name.as_str())
        {
            return true;
        }
    }
    false
}

fn names_article(name: &str) -> bool {
    name.ends_with("Article")
        || name.ends_with("Posting")
        || matches!(name, "Report" | "APIReference")
}

fn data_of(alloc: Global, object: &Map<String, Value>) -> Result<LinkedData, OutOfMemory> {
    let mut title = name_of(alloc, object.get("headline"))?;
    if title.is_none() {
        title = name_of(alloc, object.get("name"))?;
    }
    Ok(LinkedData {
        title,
        byline: name_of(alloc, object.get("author"))?,
        published: name_of(alloc, object.get("datePublished"))?,
        site: name_of(alloc, object.get("publisher"))?,
        description: name_of(alloc, object.get("description"))?,
        image: address_in(alloc, object.get("image"))?,
    })
}

/// Returns a text, the name of an object, or the names in an array with commas between them.
fn name_of(alloc: Global, value: Option<&Value>) -> Result<Option<String>, OutOfMemory> {
    let mut names = String::new(alloc);
    match value {
        Some(Value::Array(values)) => {
            for value in values {
                add_name(&mut names, value)?;
            }
        }
        Some(value) => add_name(&mut names, value)?,
        None => {}
    }
    if names.is_empty() {
        return Ok(None);
    }
    Ok(Some(names))
}

fn add_name(names: &mut String, value: &Value) -> Result<(), OutOfMemory> {
    let name = match value {
        Value::Object(object) => object.get("name"),
        other => Some(other),
    };
    if let Some(Value::String(name)) = name {
        if !names.is_empty() {
            names.push_str(", ")?;
        }
        names.push_str(name.as_str())?;
    }
    Ok(())
}

/// Returns an address: a text, the `url` of an object, or the first address in an array.
fn address_in(alloc: Global, value: Option<&Value>) -> Result<Option<String>, OutOfMemory> {
    let value = match value {
        Some(Value::Array(values)) => values.first(),
        other => other,
    };
    let value = match value {
        Some(Value::Object(object)) => object.get("url"),
        other => other,
    };
    match value {
        Some(Value::String(address)) => Ok(Some(String::from_str(alloc, address.as_str())?)),
        _ => Ok(None),
    }
}
