//! The values of `--allow` and `--deny`.

use crate::rule_faults::RuleFault;
use dom_query::Rules;
use std::alloc::Global;

/// The forms of what `--allow` takes.
const ALLOWED: &str = "NAME, NAME[ATTRIBUTE], NAME[ATTRIBUTE=VALUE] or [ATTRIBUTE]";

/// The form of what `--deny` takes.
const DENIED: &str = "the NAME of an element";

/// Adds to the rules what a value of `--allow` allows, a list whose items are separated by commas:
///
/// - `NAME` allows elements of that name,
/// - `NAME[ATTRIBUTE]` allows them, and the attribute on them,
/// - `NAME[ATTRIBUTE=VALUE]` allows them, and the attribute on them if it has that value,
/// - `[ATTRIBUTE]` allows the attribute on every element.
///
/// Several attributes may follow a name, each in brackets. Fails if an item has another form, and
/// if memory runs out.
pub fn allow(alloc: Global, rules: &mut Rules, text: &str) -> Result<(), RuleFault> {
    for item in text.split(',') {
        let item = item.trim();
        if !allow_item(rules, item)? {
            return Err(form_fault(alloc, item, ALLOWED));
        }
    }
    Ok(())
}

/// Adds to the rules what an item allows. Returns whether the item has one of the forms.
fn allow_item(rules: &mut Rules, item: &str) -> Result<bool, RuleFault> {
    let Some((name, rest)) = item.split_once('[') else {
        rules.allow_element(item)?;
        return Ok(is_name(item));
    };
    let Some(inside) = rest.strip_suffix(']') else {
        return Ok(false);
    };
    if !name.is_empty() {
        rules.allow_element(name)?;
        if !is_name(name) {
            return Ok(false);
        }
    }
    for attribute in inside.split("][") {
        if !allow_attribute(rules, name, attribute)? {
            return Ok(false);
        }
    }
    Ok(true)
}

/// Allows an attribute on the elements with this name, or on every element if the name is empty.
/// The text is the name of the attribute, or `attribute=value`, which allows this value alone and
/// only on elements with a name. Returns whether the text has one of these two forms.
fn allow_attribute(rules: &mut Rules, name: &str, text: &str) -> Result<bool, RuleFault> {
    if let Some((attribute, value)) = text.split_once('=') {
        rules.allow_value(name, attribute, value)?;
        return Ok(is_name(attribute) && !name.is_empty());
    }
    if name.is_empty() {
        rules.allow_attribute(text)?;
    } else {
        rules.allow_attribute_of(name, text)?;
    }
    Ok(is_name(text))
}

/// Adds to the rules what `--deny` says: its value is a list of names, separated by commas, and
/// elements of these names are removed with everything in them. Fails if the list has an empty item
/// or one that can't be a name of an element, and if memory runs out.
pub fn deny(alloc: Global, rules: &mut Rules, text: &str) -> Result<(), RuleFault> {
    for item in text.split(',') {
        let name = item.trim();
        if !is_name(name) {
            return Err(form_fault(alloc, name, DENIED));
        }
        rules.drop_element(name)?;
    }
    Ok(())
}

/// Returns whether the text has at least one character, and none that can't be in a name.
fn is_name(text: &str) -> bool {
    if text.is_empty() {
        return false;
    }
    for byte in text.as_bytes() {
        if matches!(
            *byte,
            b'[' | b']' | b'=' | b'"' | b'\'' | b'<' | b'>' | b'/'
        ) {
            return false;
        }
        if byte.is_ascii_whitespace() {
            return false;
        }
    }
    true
}

fn form_fault(alloc: Global, text: &str, wanted: &'static str) -> RuleFault {
    match String::from_str(alloc, text) {
        Ok(text) => RuleFault::Form { text, wanted },
        Err(_) => RuleFault::Memory,
    }
}
