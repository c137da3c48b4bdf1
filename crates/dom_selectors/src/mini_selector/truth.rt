//! Matching a mini selector against a node's own data, without allocating memory.

ghost use Rattle.std.specs.Prelude.{◌≡◌};
ghost use Rattle.std.specs.List.{list_all, list_any};
ghost use Rattle.std.specs.Option.{option_copied};
ghost use Rattle.dom_selectors.specs.MiniSyntax.{asked_of};
ghost use Rattle.dom_selectors.specs.MiniTruth.{attr_passes, attrs_hold, is_as_asked};
ghost use Rattle.dom_selectors.specs.MiniTruth.{classes_hold, element_passes, has_class, id_holds};
ghost use Rattle.dom_selectors.specs.MiniTruth.{name_holds, node_passes, test_passes};

use crate::comparisons::compares;
use crate::mini_selector::selector::{MiniAttr, MiniSelector};
use crate::syntax::AttrOperator;
use dom_nodes::case_sensitivity::CaseSensitivity;
use dom_nodes::name::Attr;
use dom_nodes::node_data::{Element, NodeData};

fn name_holds(name: Option<&str>, element: &Element) -> bool
    ensures { result ≡ name_holds (option_copied name.entry) element.now }
{
    match name {
        Some(name) => element.node_name() == name,
        None => true,
    }
}

fn id_holds(id: Option<&str>, element: &Element) -> bool
    ensures { result ≡ id_holds (option_copied id.entry) element.now }
{
    let Some(id) = id else {
        return true;
    };
    match element.id() {
        Some(value) => value == id,
        None => false,
    }
}

fn classes_hold(classes: &[&str], element: &Element) -> bool
    ensures { result ≡ list_all (λ class. has_class element.now class.now) classes.now }
{
    classes.iter().all(|class| element.has_class(class))
}

/// Returns whether the value is not empty and passes the operator.
fn test_passes(operator: AttrOperator, wanted: &str, value: &str) -> bool
    ensures { result ≡ test_passes (operator, wanted.now) value.now }
{
    !value.is_empty() && compares(operator, CaseSensitivity::CaseSensitive, value, wanted)
}

fn attr_passes(key: &str, operator: AttrOperator, wanted: &str, attr: &Attr) -> bool
    ensures { result ≡ attr_passes key.now (operator, wanted.now) attr.now }
{
    attr.name.local().as_str() == key && test_passes(operator, wanted, attr.value.as_str())
}

/// Returns whether one of the attributes has that local name and passes the comparison.
fn any_passes(key: &str, operator: AttrOperator, wanted: &str, attrs: &[Attr]) -> bool
    ensures { result ≡ list_any (attr_passes key.now (operator, wanted.now)) attrs.now }
{
    attrs
        .iter()
        .any(|attr| attr_passes(key, operator, wanted, attr))
}

fn asked_holds(asked: &MiniAttr<'_>, element: &Element) -> bool
    ensures { result ≡ is_as_asked element.now (asked_of asked.now) }
{
    let Some((operator, wanted)) = asked.test else {
        return element.attr(asked.key).is_some();
    };
    any_passes(asked.key, operator, wanted, element.attrs().as_slice())
}

fn attrs_hold(attrs: &[MiniAttr<'_>], element: &Element) -> bool
    ensures { result ≡ list_all (λ asked. is_as_asked element.now (asked_of asked)) attrs.now }
{
    attrs.iter().all(|asked| asked_holds(asked, element))
}

impl<'a> MiniSelector<'a> {
    fn has_classes(&self, element: &Element) -> bool
        ensures { result ≡ classes_hold self.now.classes element.now }
    {
        classes_hold(self.classes.as_slice(), element)
    }

    fn has_attrs(&self, element: &Element) -> bool
        ensures { result ≡ attrs_hold self.now.attrs element.now }
    {
        attrs_hold(self.attrs.as_slice(), element)
    }

    fn passes(&self, element: &Element) -> bool
        ensures { result ≡ element_passes self.now element.now }
    {
        name_holds(self.name, element)
            && id_holds(self.id, element)
            && self.has_classes(element)
            && self.has_attrs(element)
    }

    /// Returns whether a node with this data matches, apart from the combinator: it is an element
    /// with the required name, id, classes and attributes. It allocates no memory.
    pub fn match_data(&self, node: &NodeData) -> bool
        ensures { result ≡ node_passes self.now node.now }
    {
        match node.as_element() {
            Some(element) => self.passes(element),
            None => false,
        }
    }
}
