//! Tests of simple selectors against one node.

ghost use Rattle.std.specs.Prelude.{◌≡◌, ◌↔◌, Some, slice_get, codes, IsTrue, MatchBool, false};
ghost use Rattle.std.specs.List.{list_any};
ghost use Rattle.std.specs.Str.{bytes_eq};
ghost use Rattle.dom_links.specs.ListMoves.{element_at};
ghost use Rattle.dom_nodes.specs.Names.{namespace_of};
ghost use Rattle.dom_select.specs.Meaning.{PartsHold};
ghost use Rattle.dom_select.specs.Parts.{EachHolds, PartHolds, attr_passes, element_passes};
ghost use Rattle.dom_select.specs.Parts.{is_attr, is_without, name_within, node_passes};
ghost use Rattle.dom_select.specs.Parts.{comparison_passes, data_passes, asks_for_index};
ghost use Rattle.dom_selectors.specs.Spelling.{Decides};

use crate::matcher::caches::SelectorCaches;
use crate::matcher::joined::contains_joined;
use crate::matcher::positions::has_position;
use crate::matcher::texts::{has_text, is_empty, is_only_text};
use dom_nodes::name::{Attr, LocalRef, NamespaceRef};
use dom_nodes::node_data::{Element, NodeData};
use dom_nodes::node_id::NodeId;
use dom_selectors::comparisons::passes;
use dom_selectors::selector_name::SelectorName;
use dom_selectors::syntax::{Attribute, Comparison, Part};
use dom_trees::node_ref::NodeRef;
use dom_trees::tree::Tree;

/// Returns whether the tree has the node and each simple selector matches it.
pub(crate) fn parts_hold(parts: &[Part], caches: &mut SelectorCaches<'_>, id: &NodeId) -> bool
    ensures is { Decides result (PartsHold parts.now caches.old id.now) }
    ensures kept { caches.new ≡ caches.old }
{
    match caches.tree().tree_node(id) {
        Some(found) => each_holds(parts, caches, id, &found.content),
        None => false,
    }
}

/// Returns whether the node is an element of this type.
#[inline(always)]
pub(crate) fn is_named_node(node: &NodeData, name: &SelectorName) -> bool
    ensures { result ≡ node_passes (Part.«Type» name.now) node.now }
{
    match node {
        NodeData::Element(element) => element_has_type(element, name),
        _ => false,
    }
}

pub(crate) fn element_at(tree: &Tree, id: &NodeId) -> bool
    ensures { result ≡ element_at tree.now id.now }
{
    let Some(node) = tree.tree_node(id) else {
        return false;
    };
    node.content.as_element().is_some()
}

/// Returns whether each simple selector matches the node with this id and data.
pub(crate) fn each_holds(
    parts: &[Part],
    caches: &mut SelectorCaches<'_>,
    id: &NodeId,
    node: &NodeData,
) -> bool
    requires { slice_get caches.old.content id.now ≡ Some node.now }
    ensures is { IsTrue result ↔ EachHolds parts.now caches.old id.now }
    ensures kept { caches.new ≡ caches.old }
{
    for part in parts {
        if !part_holds(part, caches, id, node) {
            return false;
        }
    }
    true
}

/// Returns whether the simple selector matches the node with this id and data.
fn part_holds(part: &Part, caches: &mut SelectorCaches<'_>, id: &NodeId, node: &NodeData) -> bool
    requires { slice_get caches.old.content id.now ≡ Some node.now }
    ensures is { IsTrue result ↔ PartHolds part.now caches.old id.now }
    ensures kept { caches.new ≡ caches.old }
{
    match part {
        Part::Position(position) => has_position(*position, caches, id),
        _ => holds_without_index(part, caches.tree(), id, node),
    }
}

/// Returns the answer of `part_holds` for a simple selector that doesn't ask for an index among
/// siblings.
#[inline(always)]
pub(crate) fn holds_without_index(part: &Part, tree: &Tree, id: &NodeId, node: &NodeData) -> bool
    requires { slice_get tree.now.content id.now ≡ Some node.now }
    ensures { asks_for_index part.now ≡ false → IsTrue result ↔ PartHolds part.now tree.now id.now }
{
    match part {
        Part::Type(name) => is_named_node(node, name),
        Part::Position(_) => false,
        Part::Empty => is_empty(tree, id),
        Part::OnlyText => is_only_text(tree, id),
        Part::HasText(text) => has_text(tree, id, text.as_str()),
        Part::Contains(text) => contains_joined(tree, id, text.as_str()),
        Part::Root => NodeRef::new(*id, tree).is_root(),
        _ => node_passes(part, node),
    }
}

/// Returns whether the tree has the node and the simple selector matches its data. Where the node
/// is in the tree isn't tested.
pub(crate) fn data_passes(part: &Part, tree: &Tree, id: &NodeId) -> bool
    ensures { result ≡ data_passes part.now tree.now id.now }
{
    let Some(found) = tree.tree_node(id) else {
        return false;
    };
    node_passes(part, &found.content)
}

fn node_passes(part: &Part, node: &NodeData) -> bool
    ensures { result ≡ node_passes part.now node.now }
{
    match part {
        Part::Universal => true,
        _ => match node {
            NodeData::Element(element) => element_passes(part, element),
            _ => false,
        },
    }
}

fn element_passes(part: &Part, element: &Element) -> bool
    ensures { result ≡ element_passes part.now element.now }
{
    match part {
        Part::Universal => true,
        Part::Type(name) => element_has_type(element, name),
        Part::Id(value) => has_attr(element.attrs().as_slice(), "id", value.as_str()),
        Part::Class(word) => element.has_class(word.as_str()),
        Part::Attribute(asked) => attrs_pass(asked, element),
        Part::Root => false,
        Part::Link => element.is_link(),
        Part::Never => false,
        Part::Empty => false,
        Part::OnlyText => false,
        Part::HasText(_) => false,
        Part::Contains(_) => false,
        Part::Position(_) => false,
    }
}

/// Returns whether the element has this type. Known names in HTML, which are the most frequent, are
/// compared by number.
#[inline(always)]
fn element_has_type(element: &Element, name: &SelectorName) -> bool
    ensures { result ≡ bytes_eq element.now.name.local
        (name_within element.now.name.ns name.now) }
{
    if let Some(number) = element.name().html_number() {
        return match name.folded().number() {
            Some(other) => number == other,
            None => false,
        };
    }
    is_named(element.name().ns(), &element.name().local(), name)
}

/// Returns whether a local name equals the name of a selector: in lower case in HTML, as in the
/// source elsewhere.
fn is_named(ns: NamespaceRef<'_>, local: &LocalRef<'_>, name: &SelectorName) -> bool
    ensures { result ≡ bytes_eq local.now (name_within (namespace_of ns.entry) name.now) }
{
    match ns {
        NamespaceRef::Html => local.is_same(&name.folded().by_ref()),
        _ => is_written(local, name),
    }
}

/// Returns whether a local name equals the name of a selector as in the source.
#[cold]
#[inline(never)]
fn is_written(local: &LocalRef<'_>, name: &SelectorName) -> bool
    ensures { result ≡ bytes_eq local.now name.now }
{
    local.as_str() == name.as_str()
}

fn has_attr(attrs: &[Attr], name: &str, value: &str) -> bool
    ensures { result ≡ list_any (is_attr name.now value.now) attrs.now }
{
    attrs.iter().any(|attr| is_attr(attr, name, value))
}

fn is_attr(attr: &Attr, name: &str, value: &str) -> bool
    ensures { result ≡ is_attr name.now value.now attr.now }
{
    attr.name.local().as_str() == name && attr.value.as_str() == value
}

/// Returns whether one of the element's attributes passes the attribute selector.
fn attrs_pass(asked: &Attribute, element: &Element) -> bool
    ensures { result ≡ list_any (attr_passes element.now.name.ns asked.now) element.now.attrs }
{
    let ns = element.name().ns();
    element
        .attrs()
        .as_slice()
        .iter()
        .any(|attr| attr_passes(ns, asked, attr))
}

fn attr_passes(ns: NamespaceRef<'_>, asked: &Attribute, attr: &Attr) -> bool
    ensures { result ≡ attr_passes (namespace_of ns.entry) asked.now attr.now }
{
    if !is_without(attr.name.ns()) {
        return false;
    }
    if !is_named(ns, &attr.name.local(), &asked.name) {
        return false;
    }
    comparison_passes(&asked.comparison, attr.value.as_str())
}

fn is_without(ns: NamespaceRef<'_>) -> bool
    ensures { result ≡ is_without (namespace_of ns.entry) }
{
    matches!(ns, NamespaceRef::None)
}

fn comparison_passes(comparison: &Option<Comparison>, value: &str) -> bool
    ensures { result ≡ comparison_passes comparison.now value.now }
{
    match comparison {
        Some(comparison) => passes(comparison, value),
        None => true,
    }
}
