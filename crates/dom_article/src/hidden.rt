//! Nodes that are never shown.

ghost use Rattle.std.specs.Prelude.{◌≡◌, codes, map};
ghost use Rattle.dom_nodes.specs.Words.{is_among};
ghost use Rattle.dom_article.specs.Hidden.{begins_blank, begins_with, frame_names, has_value};
ghost use Rattle.dom_article.specs.Hidden.{hides, is_fallback, is_hidden, is_hidden_element};
ghost use Rattle.dom_article.specs.Hidden.{is_mentioned_first, mentions, never_names, of_length, says_hidden};
ghost use Rattle.dom_article.specs.Hidden.{squeezed};

use crate::tables::{FRAMES, NEVER};
use dom_nodes::node_data::{Element, NodeData};
use dom_nodes::words::is_one_of;

/// Returns whether a node is never shown, with everything below it: it is neither a document, a
/// fragment, a text nor an element; or its name is that of a script, a style, a control of a form
/// or another element that is never part of an article; or its attributes say that it isn't shown:
/// `hidden`, `aria-hidden=true`, `aria-modal=true`, or a `style` with `display: none` or
/// `visibility: hidden`.
pub fn is_hidden(content: &NodeData) -> bool
    ensures { result ≡ is_hidden content.now }
{
    match content {
        NodeData::Document | NodeData::Fragment | NodeData::Text { .. } => false,
        NodeData::Element(element) => is_hidden_element(element),
        _ => true,
    }
}

fn is_hidden_element(element: &Element) -> bool
    ensures { result ≡ is_hidden_element element.now }
{
    let name = element.node_name();
    if is_never(name) {
        return true;
    }
    if !says_hidden(element) {
        return false;
    }
    !is_frame(name)
}

fn is_never(name: &str) -> bool
    ensures { result ≡ is_among name.now never_names }
{
    is_one_of(name, never_of_length(name.len()))
}

/// Returns the names of elements that are never part of an article, and that have this length. (The
/// list is in the order of lengths.)
fn never_of_length(length: usize) -> &'static [&'static str]
    ensures { map (λ name. name.now) result.now ≡ of_length length never_names }
{
    if length < 3 || length > 8 {
        return &[];
    }
    if length == 3 {
        return &NEVER[..3];
    }
    if length == 4 {
        return &NEVER[3..9];
    }
    if length == 5 {
        return &NEVER[9..19];
    }
    if length == 6 {
        return &NEVER[19..30];
    }
    if length == 7 {
        return &NEVER[30..32];
    }
    &NEVER[32..]
}

/// Returns whether the name is `html` or `body`.
pub(crate) fn is_frame(name: &str) -> bool
    ensures { result ≡ is_among name.now frame_names }
{
    is_one_of(name, &FRAMES)
}

/// Returns whether the attributes of an element say that it isn't shown.
fn says_hidden(element: &Element) -> bool
    ensures { result ≡ says_hidden element.now.attrs }
{
    if element.attr("hidden").is_some() {
        return true;
    }
    if has_value(element, "aria-modal", "true") {
        return true;
    }
    if let Some(style) = element.attr("style")
        && hides(style)
    {
        return true;
    }
    if !has_value(element, "aria-hidden", "true") {
        return false;
    }
    !is_fallback(element)
}

/// Returns whether the first attribute of this name has this value.
fn has_value(element: &Element, name: &str, value: &str) -> bool
    ensures { result ≡ has_value element.now.attrs name.now value.now }
{
    match element.attr(name) {
        Some(found) => found == value,
        None => false,
    }
}

/// Returns whether the class of an element is that of an image in place of a formula, which is
/// hidden from screen readers only.
fn is_fallback(element: &Element) -> bool
    ensures { result ≡ is_fallback element.now.attrs }
{
    match element.attr("class") {
        Some(class) => is_fallback_class(class),
        None => false,
    }
}

/// Returns whether a class is that of an image in place of a formula.
pub(crate) fn is_fallback_class(class: &str) -> bool
    ensures { result ≡ mentions (codes "fallback-image") class.now }
{
    mentions(class.as_bytes(), b"fallback-image")
}

/// Returns whether a style says that an element isn't shown.
pub(crate) fn hides(style: &str) -> bool
    ensures { result ≡ hides style.now }
{
    if mentions(style.as_bytes(), b"display:none") {
        return true;
    }
    mentions(style.as_bytes(), b"visibility:hidden")
}

/// Returns whether a text has these characters somewhere. White space and case don't count.
fn mentions(text: &[u8], wanted: &[u8]) -> bool
    ensures { result ≡ mentions wanted.now text.now }
{
    for at in 0..text.len() {
        if is_mentioned_first(&text[at..], wanted) {
            return true;
        }
    }
    wanted.is_empty()
}

/// Returns whether a text begins with these characters, and not with white space. White space after
/// them and case don't count.
fn is_mentioned_first(text: &[u8], wanted: &[u8]) -> bool
    ensures { result ≡ is_mentioned_first wanted.now text.now }
{
    if begins_blank(text) {
        return false;
    }
    begins_squeezed(text, wanted)
}

fn begins_blank(text: &[u8]) -> bool
    ensures { result ≡ begins_blank text.now }
{
    match text.first() {
        Some(byte) => byte.is_ascii_whitespace(),
        None => false,
    }
}

/// Returns whether a text begins with these characters. White space and case don't count.
fn begins_squeezed(text: &[u8], wanted: &[u8]) -> bool
    ensures { result ≡ begins_with wanted.now (squeezed text.now) }
{
    let mut rest = wanted;
    for byte in text {
        if byte.is_ascii_whitespace() {
            continue;
        }
        let Some((first, more)) = rest.split_first() else {
            return true;
        };
        if byte.to_ascii_lowercase() != *first {
            return false;
        }
        rest = more;
    }
    rest.is_empty()
}
