//! Writes the start tag of an element that stays.

ghost use Rattle.std.specs.Prelude.{◌≡◌, ◌++◌, [], IfOk, OnOk, Some, if◌then◌else◌};
ghost use Rattle.std.specs.Prelude.{map, string_bytes};
ghost use Rattle.std.specs.List.{flat_map, list_any};
ghost use Rattle.std.specs.Option.{option_map};
ghost use Rattle.dom_clean.specs.Fates.{allowed_attr, allows_value, attrs_behind};
ghost use Rattle.dom_clean.specs.Fates.{cleaned_attr, cleaned_attrs};
ghost use Rattle.dom_clean.specs.Fates.{cleaned_value, has_attribute, kept_attr};
ghost use Rattle.dom_clean.specs.Fates.{is_data_name, is_named, is_nowhere, is_own};
ghost use Rattle.dom_clean.specs.Fates.{link_rel, with_name};
ghost use Rattle.dom_clean.specs.Policies.{own_of, policy_of};
ghost use Rattle.dom_clean.specs.Policy.{address_names, link_names};
ghost use Rattle.dom_clean.specs.Written.{attribute_text, start_of};
ghost use Rattle.dom_markup.specs.Names.{void_names};
ghost use Rattle.dom_nodes.specs.Words.{is_among};

use crate::addresses::cleaned_address;
use crate::lists::{Lists, OwnAttribute, is_among};
use crate::policy::are_simple_bytes;
use crate::values::{cleaned_classes, prefixed, push_value, spellable};
use dom_nodes::fault::OutOfMemory;
use dom_nodes::name::{Attr, NamespaceRef};
use dom_nodes::node_data::Element;
use dom_nodes::words::is_one_of;
use std::alloc::Global;

const VOID_NAMES: [&str; 18] = [
    "area", "base", "basefont", "bgsound", "br", "col", "embed", "frame", "hr", "img", "input",
    "keygen", "link", "meta", "param", "source", "track", "wbr",
];

const ADDRESS_NAMES: [&str; 17] = [
    "action",
    "background",
    "cite",
    "classid",
    "codebase",
    "data",
    "dynsrc",
    "formaction",
    "href",
    "icon",
    "longdesc",
    "lowsrc",
    "manifest",
    "poster",
    "profile",
    "src",
    "usemap",
];

/// Returns whether elements of that name are void: they have a start tag alone.
#[tactic(auto, unfolding(dom_markup::specs::Names::void_names))]
pub(crate) fn is_void_name(name: &str) -> bool
    ensures { result ≡ is_among name.now void_names }
{
    is_one_of(name, &VOID_NAMES)
}

/// Returns whether the value of an attribute of that name is an address.
#[tactic(auto, unfolding(crate::specs::Policy::address_names))]
pub(crate) fn is_address_name(name: &str) -> bool
    ensures { result ≡ is_among name.now address_names }
{
    is_one_of(name, &ADDRESS_NAMES)
}

/// Returns whether elements of that name are links.
#[tactic(auto, unfolding(crate::specs::Policy::link_names))]
pub(crate) fn is_link_name(name: &str) -> bool
    ensures { result ≡ is_among name.now link_names }
{
    is_one_of(name, &["a", "area"])
}

pub(crate) fn is_nowhere(attr: &Attr) -> bool
    ensures { result ≡ is_nowhere attr.now.name.ns }
{
    matches!(attr.name.ns(), NamespaceRef::None)
}

/// Writes the start tag of an element.
pub(crate) fn push_start(
    alloc: Global,
    lists: &Lists,
    element: &Element,
    text: &mut String,
) -> Result<(), OutOfMemory>
    ensures { OnOk result (string_bytes text.new ≡ string_bytes text.old
        ++ start_of element.now.name.local (cleaned_attrs (policy_of lists.now) element.now)) }
{
    let name = element.node_name();
    text.push_str("<")?;
    text.push_str(name)?;
    push_attrs(alloc, lists, name, element.attrs().as_slice(), text)?;
    push_rel(lists, name, text)?;
    text.push_str(">")?;
    Ok(())
}

/// Writes what is left of the attributes of an element of that name.
fn push_attrs(
    alloc: Global,
    lists: &Lists,
    element: &str,
    attrs: &[Attr],
    text: &mut String,
) -> Result<(), OutOfMemory>
    ensures { OnOk result (string_bytes text.new ≡ string_bytes text.old
        ++ flat_map attribute_text
        (attrs_behind (policy_of lists.now) element.now [] attrs.now)) }
{
    for at in 0..attrs.len() {
        push_attr(alloc, lists, element, (&attrs[..at], &attrs[at]), text)?;
    }
    Ok(())
}

/// Writes the `rel` of a link.
fn push_rel(lists: &Lists, element: &str, text: &mut String) -> Result<(), OutOfMemory>
    ensures { OnOk result (string_bytes text.new ≡ string_bytes text.old
        ++ flat_map attribute_text (link_rel (policy_of lists.now) element.now)) }
{
    if !is_link_name(element) {
        return Ok(());
    }
    match &lists.rel {
        Some(rel) => push_valued(text, "rel", rel.as_str()),
        None => Ok(()),
    }
}

/// Writes what is left of an attribute; `place` is the attributes before it, and it. An attribute
/// that stays is compared with all those before it.
pub(crate) fn push_attr(
    alloc: Global,
    lists: &Lists,
    element: &str,
    place: (&[Attr], &Attr),
    text: &mut String,
) -> Result<(), OutOfMemory>
    ensures { OnOk result (string_bytes text.new ≡ string_bytes text.old
        ++ flat_map attribute_text
        (cleaned_attr (policy_of lists.now) element.now place.entry.0.now place.entry.1.now)) }
{
    let (before, attr) = place;
    if !is_nowhere(attr) {
        return Ok(());
    }
    let local = attr.name.local();
    let name = local.as_str();
    let value = spellable(alloc, attr.value.as_str())?;
    match kept_value(alloc, lists, (element, name), value)? {
        Some(value) => push_first(before, name, value.as_str(), text),
        None => Ok(()),
    }
}

/// Writes an attribute, unless one of those before it has its name.
fn push_first(
    before: &[Attr],
    name: &str,
    value: &str,
    text: &mut String,
) -> Result<(), OutOfMemory>
    ensures { OnOk result (string_bytes text.new ≡ string_bytes text.old
        ++ (if list_any (is_named name.now) before.now then []
        else attribute_text (record { name = name.now; value = value.now }))) }
{
    if has_named(before, name) {
        return Ok(());
    }
    push_valued(text, name, value)
}

/// Returns whether one of the attributes has that name and no namespace.
fn has_named(attrs: &[Attr], name: &str) -> bool
    ensures { result ≡ list_any (is_named name.now) attrs.now }
{
    for attr in attrs {
        if is_named(attr, name) {
            return true;
        }
    }
    false
}

pub(crate) fn is_named(attr: &Attr, name: &str) -> bool
    ensures { result ≡ is_named name.now attr.now }
{
    if !is_nowhere(attr) {
        return false;
    }
    attr.name.local().as_str() == name
}

/// Returns what is left of the value of an attribute, or `None` if the attribute is removed;
/// `names` is the name of its element, and its own.
fn kept_value(
    alloc: Global,
    lists: &Lists,
    names: (&str, &str),
    value: String,
) -> Result<Option<String>, OutOfMemory>
    ensures { IfOk result (λ left. with_name names.entry.1.now (option_map string_bytes left)
        ≡ allowed_attr (policy_of lists.now) names.entry.0.now names.entry.1.now
        (string_bytes value)) }
{
    match cleaned_value(alloc, lists, names.1, value)? {
        Some(value) => Ok(allowed_value(lists, names, value)),
        None => Ok(None),
    }
}

/// Returns the value, if the policy allows it; `names` is the name of its element, and its own.
fn allowed_value(lists: &Lists, names: (&str, &str), value: String) -> Option<String>
    ensures { with_name names.entry.1.now (option_map string_bytes result)
        ≡ kept_attr (policy_of lists.now) names.entry.0.now names.entry.1.now
        (Some (string_bytes value)) }
{
    if has_attribute(lists, names.0, names.1, value.as_str()) {
        return Some(value);
    }
    None
}

/// Returns whether the policy allows an attribute with that value on an element of that name.
fn has_attribute(lists: &Lists, element: &str, name: &str, value: &str) -> bool
    ensures { result ≡ has_attribute (policy_of lists.now) element.now name.now value.now }
{
    if is_among(name, &lists.attributes) {
        return true;
    }
    if lists.data_attributes && is_data_name(name) {
        return true;
    }
    has_own(&lists.own_attributes, element, name, value)
}

fn is_data_name(name: &str) -> bool
    ensures { result ≡ is_data_name name.now }
{
    if !name.as_bytes().starts_with(b"data-") {
        return false;
    }
    are_simple_bytes(name)
}

fn has_own(own: &[OwnAttribute], element: &str, name: &str, value: &str) -> bool
    ensures { result ≡ list_any (is_own element.now name.now value.now) (map own_of own.now) }
{
    for one in own {
        if is_own(one, element, name, value) {
            return true;
        }
    }
    false
}

fn is_own(own: &OwnAttribute, element: &str, name: &str, value: &str) -> bool
    ensures { result ≡ is_own element.now name.now value.now (own_of own.now) }
{
    if own.element.as_str() != element {
        return false;
    }
    if own.attribute.as_str() != name {
        return false;
    }
    allows_value(&own.values, value)
}

fn allows_value(values: &[String], value: &str) -> bool
    ensures { result ≡ allows_value value.now (map string_bytes values.now) }
{
    if values.is_empty() {
        return true;
    }
    is_among(value, values)
}

/// Returns what is left of the value of an attribute of that name, or `None` if the attribute is
/// removed.
fn cleaned_value(
    alloc: Global,
    lists: &Lists,
    name: &str,
    value: String,
) -> Result<Option<String>, OutOfMemory>
    ensures { IfOk result (λ left. option_map string_bytes left
        ≡ cleaned_value (policy_of lists.now) name.now (string_bytes value)) }
{
    if is_address_name(name) {
        return cleaned_address(alloc, lists, value);
    }
    if name == "class" {
        return cleaned_classes(alloc, lists, value);
    }
    if name == "id" {
        return prefixed(lists.id_prefix.as_str(), value);
    }
    Ok(Some(value))
}

/// Writes an attribute.
fn push_valued(text: &mut String, name: &str, value: &str) -> Result<(), OutOfMemory>
    ensures { OnOk result (string_bytes text.new ≡ string_bytes text.old
        ++ attribute_text (record { name = name.now; value = value.now })) }
{
    text.push_str(" ")?;
    text.push_str(name)?;
    text.push_str("=\"")?;
    push_value(text, value)?;
    text.push_str("\"")?;
    Ok(())
}
