//! Element names and attributes of tags, in the form in which the tree stores them.

ghost use Rattle.std.specs.Prelude.{◌≡◌, IfOk, map, string_bytes};
ghost use Rattle.std.specs.Option.{option_copied};
ghost use Rattle.page_trees.specs.Foreign.{adjusted_attr_name, attr_in, attr_name_in};
ghost use Rattle.page_trees.specs.Foreign.{element_name_in, is_hidden_by, is_html_annotation};
ghost use Rattle.page_trees.specs.Foreign.{local_in, local_name_in, namespace_in};
ghost use Rattle.page_trees.specs.Foreign.{namespace_of_prefix};
ghost use Rattle.page_trees.specs.Foreign.{prefix_in, prefix_or_none, qualified_name, value_named};
ghost use Rattle.dom_nodes.specs.Words.{is_among};
ghost use Rattle.standard_trees.specs.NameLists.{foreign_attributes};

use crate::adjusting::{mathml_attr, svg_attr, svg_tag};
use crate::fault::PageFault;
use crate::name::Name;
use crate::stack::ElementNamespace;
use dom_nodes::name::{Attr, LocalName, NameParts, Namespace, QualName};
use dom_nodes::node_data::Attrs;
use dom_nodes::text::{RareText, Text};
use dom_nodes::words::is_one_of;
use page_tokens::token::{Tag, TagAttr};
use std::alloc::Global;

fn namespace(ns: ElementNamespace) -> Namespace
    ensures { result ≡ namespace_in ns }
{
    match ns {
        ElementNamespace::Html => Namespace::Html,
        ElementNamespace::Svg => Namespace::Svg,
        ElementNamespace::MathMl => Namespace::MathMl,
    }
}

/// Returns the local name of the element that a tag makes. An HTML `image` becomes `img`.
fn local_name(ns: ElementNamespace, name: Name, tag: &Tag) -> &str
    ensures { result.now ≡ local_name_in ns name (string_bytes tag.now.name) }
{
    match ns {
        ElementNamespace::Svg => svg_tag(tag.name.as_str()),
        ElementNamespace::Html if name == Name::Img => "img",
        _ => tag.name.as_str(),
    }
}

/// Returns the qualified name of the element that a tag makes. Fails only when memory runs out.
pub fn element_name(
    alloc: Global,
    ns: ElementNamespace,
    name: Name,
    tag: &Tag,
) -> Result<QualName, PageFault>
    ensures { IfOk result (λ made.
        made ≡ element_name_in ns name (string_bytes tag.now.name)) }
{
    let local = LocalName::new(alloc, local_name(ns, name, tag))?;
    let prefix = None;
    let ns = namespace(ns);
    Ok(QualName::new(alloc, NameParts { prefix, ns, local })?)
}

/// The attributes that have a namespace in foreign content, as they are in the source (13.2.6.1,
/// "adjust foreign attributes").
static NAMESPACED: [&str; 11] = [
    "xlink:actuate",
    "xlink:arcrole",
    "xlink:href",
    "xlink:role",
    "xlink:show",
    "xlink:title",
    "xlink:type",
    "xml:lang",
    "xml:space",
    "xmlns",
    "xmlns:xlink",
];

/// Returns whether an attribute with that name has a namespace in foreign content.
fn is_namespaced(name: &str) -> bool
    ensures { result ≡ is_among name.now foreign_attributes }
{
    is_one_of(name, &NAMESPACED)
}

/// Returns a prefix as a name stores it: none, if it is empty. Fails only when memory runs out.
fn prefix_of(alloc: Global, prefix: &str) -> Result<Option<RareText>, PageFault>
    ensures { IfOk result (λ made. made ≡ prefix_or_none prefix.now) }
{
    if prefix.is_empty() {
        return Ok(None);
    }
    let prefix = RareText::new(alloc, prefix)?;
    Ok(Some(prefix))
}

/// Splits a name at its colon. Without a colon the first part is empty.
fn parts_of(name: &str) -> (&str, &str)
    ensures prefix { result.0.now ≡ prefix_in name.now }
    ensures local { result.1.now ≡ local_in name.now }
{
    match name.split_once(':') {
        Some(parts) => parts,
        None => ("", name),
    }
}

/// Returns the namespace of attributes with that prefix; `xmlns` itself has no prefix.
fn namespace_of(prefix: &str) -> Namespace
    ensures { result ≡ namespace_of_prefix prefix.now }
{
    if prefix == "xlink" {
        Namespace::XLink
    } else if prefix == "xml" {
        Namespace::Xml
    } else {
        Namespace::XmlNs
    }
}

/// Returns the qualified name of an attribute in a namespace, from `prefix:local` or `xmlns`. Fails
/// only when memory runs out.
fn qualified(alloc: Global, name: &str) -> Result<QualName, PageFault>
    ensures { IfOk result (λ made. made ≡ qualified_name name.now) }
{
    let (prefix, local) = parts_of(name);
    let ns = namespace_of(prefix);
    let prefix = prefix_of(alloc, prefix)?;
    let local = LocalName::new(alloc, local)?;
    Ok(QualName::new(alloc, NameParts { prefix, ns, local })?)
}

/// Returns the name of an attribute without a namespace, in its proper case in foreign content.
fn adjusted_attr(ns: ElementNamespace, name: &str) -> &str
    ensures { result.now ≡ adjusted_attr_name ns name.now }
{
    match ns {
        ElementNamespace::Html => name,
        ElementNamespace::Svg => svg_attr(name),
        ElementNamespace::MathMl => mathml_attr(name),
    }
}

/// Returns the name of an attribute as the element has it. Fails only when memory runs out.
fn attr_name(alloc: Global, ns: ElementNamespace, name: &str) -> Result<QualName, PageFault>
    ensures { IfOk result (λ made. made ≡ attr_name_in ns name.now) }
{
    if ns != ElementNamespace::Html && is_namespaced(name) {
        return qualified(alloc, name);
    }
    let local = LocalName::new(alloc, adjusted_attr(ns, name))?;
    Ok(QualName::plain(local))
}

/// Returns an attribute of the element that a tag makes. Fails only when memory runs out.
pub fn attr_of(alloc: Global, ns: ElementNamespace, given: &TagAttr) -> Result<Attr, PageFault>
    ensures { IfOk result (λ made. made ≡ attr_in ns given.now) }
{
    let name = attr_name(alloc, ns, given.name.as_str())?;
    let value = Text::new(alloc, given.value.as_str())?;
    Ok(Attr { name, value })
}

/// Returns the attributes of the element that a tag makes. Fails only when memory runs out.
pub fn attrs_of(alloc: Global, ns: ElementNamespace, given: &[TagAttr]) -> Result<Attrs, PageFault>
    ensures { IfOk result (λ made. made ≡ map (attr_in ns) given.now) }
{
    let mut attrs = Attrs::new(alloc);
    attrs.reserve(given.len());
    for attr in given {
        attrs.push(attr_of(alloc, ns, attr)?)?;
    }
    Ok(attrs)
}

/// Returns the value of a tag's attribute, if the tag has it.
pub fn value_of<'a>(tag: &'a Tag, name: &str) -> Option<&'a str>
    ensures { option_copied result ≡ value_named name.now tag.now.attrs.items }
{
    let mut rest = tag.attrs.as_slice();
    while let Some((attr, others)) = rest.split_first() {
        if attr.name.as_str() == name {
            return Some(attr.value.as_str());
        }
        rest = others;
    }
    None
}

/// Returns whether an `input` is hidden, that is, has `type=hidden`.
pub fn is_hidden(tag: &Tag) -> bool
    ensures { result ≡ is_hidden_by tag.now.attrs.items }
{
    match value_of(tag, "type") {
        Some(kind) => kind.eq_ignore_ascii_case("hidden"),
        None => false,
    }
}

/// Returns whether the element is an `annotation-xml` whose encoding is HTML or XHTML, and so an
/// HTML integration point.
pub fn holds_html(ns: ElementNamespace, name: Name, tag: &Tag) -> bool
    ensures { result ≡ is_html_annotation ns name tag.now.attrs.items }
{
    if ns != ElementNamespace::MathMl || name != Name::AnnotationXml {
        return false;
    }
    match value_of(tag, "encoding") {
        Some(value) => {
            value.eq_ignore_ascii_case("text/html")
                || value.eq_ignore_ascii_case("application/xhtml+xml")
        }
        None => false,
    }
}
