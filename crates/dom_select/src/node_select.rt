//! Tests of one node: whether a selector matches it, and other tests of the crate dom_query.

ghost use Rattle.std.specs.Prelude.{◌≡◌, ℕ, false, IfOk, MatchBool};
ghost use Rattle.std.specs.List.{list_any};
ghost use Rattle.dom_nodes.specs.declared.name.Namespace.TheVariants.{Html};
ghost use Rattle.dom_links.specs.Forest.{Forest};
ghost use Rattle.dom_links.specs.Indexes.{same_type};
ghost use Rattle.dom_trees.specs.Views.{has_local_name, root_element_at};
ghost use Rattle.dom_selectors.specs.declared.fault.SelectorFault.TheVariants.{Memory};
ghost use Rattle.dom_selectors.specs.declared.syntax.Part.TheVariants.{Link};
ghost use Rattle.dom_select.specs.Descendants.{IsMatch};
ghost use Rattle.dom_select.specs.ByText.{DecidesByText};
ghost use Rattle.dom_select.specs.NodeAnswers.{has_id_at, has_namespace_at, is_id, pseudo_holds_at};
ghost use Rattle.dom_select.specs.Parts.{data_passes};
ghost use Rattle.dom_selectors.specs.Syntax.{SelectorList};
ghost use Rattle.dom_select.specs.Texts.{empty_at, has_text_at, only_text_at};

use crate::matcher::Matcher;
use crate::matcher::descendants::is_selected;
use crate::matcher::joined::contains_joined;
use crate::matcher::parts::data_passes;
use crate::matcher::texts::{has_text, is_empty, is_only_text};
use dom_links::indexes::are_of_one_type;
use dom_nodes::case_sensitivity::CaseSensitivity;
use dom_nodes::fault::OutOfMemory;
use dom_nodes::name::{Attr, Namespace, NamespaceRef};
use dom_nodes::node_id::NodeId;
use dom_selectors::comparisons::same_text;
use dom_selectors::css::CssLocalName;
use dom_selectors::fault::SelectorFault;
use dom_selectors::pseudo_class::NonTSPseudoClass;
use dom_selectors::syntax::Part;
use dom_trees::node_ref::NodeRef;
use dom_trees::tree::Tree;

/// A node against which selectors are matched. For a node that the tree doesn't have, every answer
/// is `false`.
pub trait NodeSelect {
    // The node is an element that one of the selectors matches.
    ghost meant: { Self → SelectorList → Type 0 };

    // The forest of the node's tree.
    ghost forest: { Self → Forest };

    // The node's id.
    ghost number: { Self → ℕ };

    /// Returns whether the node is an element that one of the matcher's selectors matches.
    fn is_match(&self, matcher: &Matcher) -> bool
        ensures { MatchBool result (meant self.now matcher.now) (meant self.now matcher.now → ⊥) };

    /// Returns whether the node is an element that one of the selectors in the text matches;
    /// `false` if the text is no selector list. It parses the text on every call; use `is_match` in
    /// a loop. Fails only when memory runs out.
    fn is(&self, selectors: &str) -> Result<bool, OutOfMemory>
        ensures { IfOk result (DecidesByText selectors.now (meant self.now)) };

    /// Returns whether one of the texts at or below the node contains `text`.
    fn has_text(&self, text: &str) -> bool
        ensures { result ≡ has_text_at (forest self.now) text.now (number self.now) };

    /// Returns whether the node has exactly one child, a text that isn't blank.
    fn has_only_text(&self) -> bool
        ensures { result ≡ only_text_at (forest self.now) (number self.now) };

    /// Returns whether the node is an element without child elements and without a child text that
    /// isn't blank.
    fn is_empty_element(&self) -> bool
        ensures { result ≡ empty_at (forest self.now) (number self.now) };

    /// Returns whether the node matches `:empty`; the result is that of `is_empty_element`.
    fn is_empty(&self) -> bool
        ensures { result ≡ empty_at (forest self.now) (number self.now) };

    /// Returns whether the node is an element `a`, `area` or `link` with an attribute `href`.
    fn is_link(&self) -> bool
        ensures { result ≡ data_passes Link (forest self.now) (number self.now) };

    /// Returns whether the node is an element whose parent is node 0, the root.
    fn is_root(&self) -> bool
        ensures { result ≡ root_element_at (forest self.now) (number self.now) };

    /// Returns whether the node and the node with the id of `other` in the same tree are elements
    /// with equal qualified names.
    fn is_same_type(&self, other: &Self) -> bool
        ensures { result ≡ same_type (forest self.now) (number self.now) (number other.now) };

    /// Returns whether the node is an element with exactly this local name.
    fn has_local_name(&self, name: &CssLocalName) -> bool
        ensures { result ≡ has_local_name (forest self.now) (number self.now) name.now.0 };

    /// Returns whether the node is an element in this namespace.
    fn has_namespace(&self, ns: &Namespace) -> bool
        ensures { result ≡ has_namespace_at (forest self.now) (number self.now) ns.now };

    /// Returns whether the node is an element in the HTML namespace.
    fn is_html_element_in_html_document(&self) -> bool
        ensures { result ≡ has_namespace_at (forest self.now) (number self.now) Html };

    /// Returns whether any attribute with the local name `id` has this value.
    fn has_id(&self, id: &CssLocalName, case_sensitivity: CaseSensitivity) -> bool
        ensures { result
            ≡ has_id_at case_sensitivity (forest self.now) (number self.now) id.now.0 };

    /// Returns whether the node matches the pseudo-class.
    fn match_non_ts_pseudo_class(&self, pseudo: &NonTSPseudoClass) -> bool
        ensures { result ≡ pseudo_holds_at pseudo.now (forest self.now) (number self.now) };
}

impl<'a> NodeSelect for NodeRef<'a> {
    ghost meant = { λ node list. IsMatch list node.tree.now node.id };

    ghost forest = { λ node. node.tree.now };

    ghost number = { λ node. node.id };

    fn is_match(&self, matcher: &Matcher) -> bool {
        is_selected(self.tree, self.id, matcher)
    }

    fn is(&self, selectors: &str) -> Result<bool, OutOfMemory> {
        match Matcher::new(self.tree.allocator(), selectors) {
            Ok(matcher) => Ok(is_selected(self.tree, self.id, &matcher)),
            Err(fault) => means_none(fault),
        }
    }

    fn has_text(&self, text: &str) -> bool {
        has_text(self.tree, &self.id, text)
    }

    fn has_only_text(&self) -> bool {
        is_only_text(self.tree, &self.id)
    }

    fn is_empty_element(&self) -> bool {
        is_empty(self.tree, &self.id)
    }

    fn is_empty(&self) -> bool {
        self.is_empty_element()
    }

    fn is_link(&self) -> bool {
        data_passes(&Part::Link, self.tree, &self.id)
    }

    fn is_root(&self) -> bool {
        self.is_root()
    }

    fn is_same_type(&self, other: &Self) -> bool {
        let (Some(node), Some(other)) = (
            self.tree.tree_node(&self.id),
            self.tree.tree_node(&other.id),
        ) else {
            return false;
        };
        are_of_one_type(&node.content, &other.content)
    }

    fn has_local_name(&self, name: &CssLocalName) -> bool {
        self.has_name(name.0.as_str())
    }

    fn has_namespace(&self, ns: &Namespace) -> bool {
        match self.qual_name_ref() {
            Some(name) => name.ns().is_same(&ns.by_ref()),
            None => false,
        }
    }

    fn is_html_element_in_html_document(&self) -> bool {
        match self.qual_name_ref() {
            Some(name) => name.ns().is_same(&NamespaceRef::Html),
            None => false,
        }
    }

    fn has_id(&self, id: &CssLocalName, case_sensitivity: CaseSensitivity) -> bool {
        has_id(self.attrs(), case_sensitivity, id.0.as_str())
    }

    fn match_non_ts_pseudo_class(&self, pseudo: &NonTSPseudoClass) -> bool {
        pseudo_holds(pseudo, self.tree, &self.id)
    }
}

/// Returns whether one of the attributes is an `id` with this value.
fn has_id(attrs: &[Attr], case: CaseSensitivity, id: &str) -> bool
    ensures { result ≡ list_any (is_id case id.now) attrs.now }
{
    attrs.iter().any(|attr| is_id(attr, case, id))
}

fn is_id(attr: &Attr, case: CaseSensitivity, id: &str) -> bool
    ensures { result ≡ is_id case id.now attr.now }
{
    attr.name.local().as_str() == "id"
        && same_text(case, attr.value.as_str().as_bytes(), id.as_bytes())
}

/// Returns whether the node matches the pseudo-class.
fn pseudo_holds(pseudo: &NonTSPseudoClass, tree: &Tree, id: &NodeId) -> bool
    ensures { result ≡ pseudo_holds_at pseudo.now tree.now id.now }
{
    match pseudo {
        NonTSPseudoClass::AnyLink | NonTSPseudoClass::Link => data_passes(&Part::Link, tree, id),
        NonTSPseudoClass::OnlyText => is_only_text(tree, id),
        NonTSPseudoClass::HasText(text) => has_text(tree, id, text.0.as_str()),
        NonTSPseudoClass::Contains(text) => contains_joined(tree, id, text.0.as_str()),
        _ => false,
    }
}

/// Returns `false` for a text that is no selector list, and an error if memory ran out.
fn means_none(fault: SelectorFault) -> Result<bool, OutOfMemory>
    ensures { IfOk result (λ answer. (answer ≡ false) × (fault ≡ Memory → ⊥)) }
{
    match fault {
        SelectorFault::Memory => Err(OutOfMemory),
        _ => Ok(false),
    }
}
