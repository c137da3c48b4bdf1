//! `Matcher`: a parsed selector list that is matched against nodes, as in the crate dom_query. What
//! selectors match is as in Selectors Level 4.

use crate::matcher::caches::SelectorCaches;
use crate::matcher::matches::{matches_selector, means, sole_type};
use crate::matcher::subjects::subject_types;
use dom_nodes::fault::OutOfMemory;
use dom_selectors::copies::copy_selectors;
use dom_selectors::fault::SelectorFault;
use dom_selectors::mini_selector::selector::MiniSelector;
use dom_selectors::parser::parse_selectors;
use dom_selectors::selector_name::SelectorName;
pub use dom_selectors::syntax;
pub use dom_selectors::syntax::Selector as InnerSelector;
use dom_selectors::syntax::Selector;
use dom_trees::node_ref::NodeRef;
use std::alloc::Global;
use std::marker::Model;

pub mod caches;
pub mod chains;
pub mod compounds;
pub mod descendants;
pub(crate) mod has;
pub(crate) mod joined;
pub mod matcher_iter;
pub(crate) mod matches;
pub(crate) mod parts;
pub(crate) mod positions;
pub(crate) mod roots;
pub mod several;
pub(crate) mod subjects;
pub(crate) mod texts;
pub(crate) mod type_counts;
pub(crate) mod type_indexes;

/// A parsed selector list. A contract sees it as the list of its selectors.
#[derive(Drop)]
pub struct Matcher {
    selectors: Vec<Selector>,
}

impl Model for Matcher {
    ghost use Rattle.std.specs.Prelude.{List};
    ghost use Rattle.std.specs.Coded.{code_by, codes};
    ghost use Rattle.dom_selectors.specs.Syntax.{SelectorList};
    ghost use Rattle.dom_selectors.specs.Tokens.{Token, list_of, read_back, tokens_of};

    ghost Value = { SelectorList };

    ghost coded = { code_by (List Token) (Prim.hlevel codes) tokens_of list_of read_back };

    ghost use Rattle.dom_selectors.specs.ValuesAsTrees.{read_list};

    ghost view = { λ matcher. read_list matcher.selectors.items };
}

impl Matcher {
    ghost use Rattle.std.specs.Prelude.{◌≡◌, chars, IfErr, IfOk, IfSome};
    ghost use Rattle.dom_selectors.specs.Grammar.{Refused, StandsFor};
    ghost use Rattle.dom_select.specs.Meaning.{MatchesNode, MeansType};
    ghost use Rattle.dom_select.specs.Subjects.{SubjectIsAmong};
    ghost use Rattle.dom_selectors.specs.Spelling.{Decides};
    ghost use Rattle.dom_selectors.specs.ValuesAsTrees.{read_list};

    /// Parses a selector list, as in Selectors Level 4 and the crate dom_query.
    ///
    /// The text has to be a selector list as a whole. An error says why it is none:
    ///
    /// - `Syntax`: it does not follow the grammar;
    /// - `UnknownPseudoClass`: a pseudo-class is unknown, or its arguments have the wrong form; the
    ///   text then contains a `:`;
    /// - `Number`: a number is greater than 2147483647;
    /// - `NestedHas`: a `:has` is inside another `:has`;
    /// - `TooDeep`: parentheses are nested more than 64 levels deep; the text then contains 65 `(`.
    ///
    /// The call also fails with `Memory` when memory runs out.
    pub fn new(alloc: Global, text: &str) -> Result<Matcher, SelectorFault>
        ensures ok { IfOk result (λ matcher. StandsFor (chars text.now) matcher) }
        ensures refused { IfErr result (λ fault. Refused (chars text.now) fault) }
    {
        let selectors = parse_selectors(alloc, text)?;
        Ok(Matcher { selectors })
    }

    /// Returns a copy of the matcher. Fails only when memory runs out.
    pub fn try_clone(&self) -> Result<Matcher, OutOfMemory>
        ensures { IfOk result (λ made. made ≡ self.now) }
    {
        let copies = copy_selectors(*self.selectors.allocator(), &self.selectors)?;
        Ok(Matcher { selectors: copies })
    }

    /// Returns the selectors of the list, in order.
    pub fn selectors(&self) -> &[InnerSelector]
        ensures { read_list result.now ≡ self.now }
    {
        &self.selectors
    }

    /// Returns the name, if the list is one type selector and nothing else.
    pub(crate) fn sole_type(&self) -> Option<&SelectorName>
        ensures { IfSome result (λ name. MeansType name.now self.now) }
    {
        sole_type(&self.selectors)
    }

    /// Returns the types of the elements that the selectors can match, if each selector names one.
    pub(crate) fn subject_types(&self) -> Option<[bool; 256]>
        ensures { IfSome result (λ types. SubjectIsAmong types self.now) }
    {
        subject_types(&self.selectors)
    }

    /// Returns whether one of the selectors matches the node; `false` if the tree has no such node.
    /// It allocates no memory.
    pub fn match_element(&self, node: &NodeRef<'_>) -> bool
        ensures { Decides result (MatchesNode self.now node.now.tree.now node.now.id) }
    {
        let mut caches = SelectorCaches::none(node.tree);
        means(&self.selectors, &mut caches, node.id)
    }

    /// Returns whether one of the selectors matches the node with this id in the tree of the
    /// caches. The caches speed up repeated calls and never change an answer; if they can't grow,
    /// they are bypassed.
    pub fn match_element_with_caches(
        &self,
        node: &NodeRef<'_>,
        caches: &mut SelectorCaches<'_>,
    ) -> bool
        ensures is { Decides result (MatchesNode self.now caches.old node.now.id) }
        ensures same { caches.new ≡ caches.old }
    {
        means(&self.selectors, caches, node.id)
    }
}

/// A selector that can be matched against a node.
pub trait MatchNode {
    /// Returns whether the selector matches the node; `false` if the tree has no such node. It
    /// allocates no memory.
    fn match_node(&self, node: &NodeRef<'_>) -> bool;
}

impl MatchNode for MiniSelector<'_> {
    ghost use Rattle.std.specs.Prelude.{◌≡◌};
    ghost use Rattle.dom_select.specs.MiniNodes.{mini_holds};

    fn match_node(&self, node: &NodeRef<'_>) -> bool
        ensures { result ≡ mini_holds self.now node.now.tree.now node.now.id }
    {
        match node.tree.tree_node(&node.id) {
            Some(found) => self.match_data(&found.content),
            None => false,
        }
    }
}

impl MatchNode for InnerSelector {
    ghost use Rattle.std.specs.Prelude.{◌∷◌, []};
    ghost use Rattle.dom_select.specs.Meaning.{MatchesNode};
    ghost use Rattle.dom_selectors.specs.Spelling.{Decides};
    ghost use Rattle.dom_selectors.specs.ValuesAsTrees.{read_list};

    /// Returns whether this selector matches the node.
    fn match_node(&self, node: &NodeRef<'_>) -> bool
        ensures { Decides result (MatchesNode (read_list (self.now ∷ [])) node.now.tree.now node.now.id) }
    {
        let mut caches = SelectorCaches::none(node.tree);
        matches_selector(self, &mut caches, node.id)
    }
}
