//! What becomes of a node at its place.

ghost use Rattle.std.specs.Prelude.{◌≡◌, IfOk};
ghost use Rattle.dom_clean.specs.Cleaned.{in_body};
ghost use Rattle.dom_clean.specs.Fates.{element_fate, fate_of, is_dropped, is_unseen};
ghost use Rattle.dom_clean.specs.Fates.{may_stay, place_below, text_fate};
ghost use Rattle.dom_clean.specs.Policies.{policy_of};
ghost use Rattle.dom_clean.specs.declared.fates.Fate.TheVariants.{Stays};
ghost use Rattle.dom_nodes.specs.declared.node_data.NodeData.TheVariants.{Element as AnElement};
ghost use Rattle.page_trees.specs.ElementKinds.{kind_of};

use crate::lists::{Lists, is_among};
use crate::values::spellable;
use calm_pages::{Scope, TOP, holds_text};
use dom_nodes::fault::OutOfMemory;
use dom_nodes::name::NamespaceRef;
use dom_nodes::node_data::{Element, NodeData};
use page_trees::ElementCategory;
use std::alloc::Global;

/// What becomes of a node.
#[derive(Clone, Copy, Drop)]
pub(crate) enum Fate {
    /// It stays, with what is left of its children.
    Stays,
    /// It is replaced by what is left of its children.
    Unwrapped,
    /// It is removed with everything below it.
    Vanishes,
}

/// Where a node is: the scope by which calm pages are judged, and how many more elements may be
/// nested there.
#[derive(Clone, Copy, Drop)]
pub(crate) struct Place {
    pub(crate) scope: Scope,
    pub(crate) left: usize,
}

/// Returns the place of the children of a body.
pub(crate) fn in_body(lists: &Lists) -> Place
    ensures { result ≡ in_body (policy_of lists.now) }
{
    Place {
        scope: TOP
            .inside(ElementCategory::Html)
            .inside(ElementCategory::Body)
            .behind(),
        left: lists.depth,
    }
}

/// Returns what becomes of a node.
pub(crate) fn fate_of(
    alloc: Global,
    lists: &Lists,
    place: &Place,
    content: &NodeData,
) -> Result<Fate, OutOfMemory>
    ensures { IfOk result (λ fate. fate ≡ fate_of (policy_of lists.now) place.now content.now) }
{
    match content {
        NodeData::Text { contents } => text_fate(alloc, place, contents.as_str()),
        NodeData::Element(element) => Ok(element_fate(lists, place, element)),
        _ => Ok(Fate::Vanishes),
    }
}

fn is_unseen(kind: ElementCategory) -> bool
    ensures { result ≡ is_unseen kind }
{
    matches!(
        kind,
        ElementCategory::Head | ElementCategory::Metadata | ElementCategory::Verbatim
    )
}

/// Returns the category of an element, which its name determines.
pub(crate) fn category(element: &Element) -> ElementCategory
    ensures { result ≡ kind_of element.now.name.local }
{
    ElementCategory::of(&element.name().local())
}

fn is_dropped(lists: &Lists, element: &Element) -> bool
    ensures { result ≡ is_dropped (policy_of lists.now) element.now }
{
    if element.template_contents().is_some() {
        return true;
    }
    if is_unseen(category(element)) {
        return true;
    }
    is_among(element.node_name(), &lists.dropped)
}

fn may_stay(lists: &Lists, place: &Place, element: &Element) -> bool
    ensures { result ≡ may_stay (policy_of lists.now) place.now element.now }
{
    if !matches!(element.name().ns(), NamespaceRef::Html) {
        return false;
    }
    if !is_among(element.node_name(), &lists.elements) {
        return false;
    }
    if !place.scope.admits(category(element)) {
        return false;
    }
    place.left > 0
}

fn text_fate(alloc: Global, place: &Place, contents: &str) -> Result<Fate, OutOfMemory>
    ensures { IfOk result (λ fate. fate ≡ text_fate place.now contents.now) }
{
    let text = spellable(alloc, contents)?;
    if holds_text(place.scope.parent, text.as_str()) {
        return Ok(Fate::Stays);
    }
    Ok(Fate::Vanishes)
}

fn element_fate(lists: &Lists, place: &Place, element: &Element) -> Fate
    ensures { result ≡ element_fate (policy_of lists.now) place.now element.now }
{
    if is_dropped(lists, element) {
        return Fate::Vanishes;
    }
    if may_stay(lists, place, element) {
        return Fate::Stays;
    }
    Fate::Unwrapped
}

/// Returns the place of the children of an element that stays.
pub(crate) fn place_below(place: &Place, element: &Element) -> Place
    ensures { result ≡ place_below Stays place.now (AnElement element.now) }
{
    Place {
        scope: place.scope.inside(category(element)).behind(),
        left: place.left.saturating_sub(1),
    }
}
