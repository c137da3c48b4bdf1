//! Whether nodes of a selection match a selector, and filtering by that.

ghost use Rattle.std.specs.Prelude.{◌≡◌, ◌≢◌, [], None, Ok, Some, chars};
ghost use Rattle.std.specs.Prelude.{IfErr, IfOk};
ghost use Rattle.dom_selectors.specs.Grammar.{IsSelectorOf, Refused};
ghost use Rattle.dom_selectors.specs.declared.fault.SelectorFault.TheVariants.{Memory};
ghost use Rattle.dom_selectors.specs.Spelling.{Decides};
ghost use Rattle.dom_select.specs.ByText.{ByText, DecidesByText};
ghost use Rattle.dom_selection.specs.Selecting.{Keeps, MatchesSomeNode, TriesText};

use crate::selection::{Selection, push_if};
use dom_nodes::fault::OutOfMemory;
use dom_select::matcher::Matcher;
use dom_selectors::fault::SelectorFault;
use dom_trees::node_ref::NodeRef;
use std::alloc::Global;

/// Returns the matcher of a text, or `None` when the text is no selector list. It fails with
/// `OutOfMemory` when memory is refused.
pub(crate) fn matcher_of(alloc: Global, text: &str) -> Result<Option<Matcher>, OutOfMemory>
    ensures { IfOk result (IsSelectorOf (chars text.now)) }
{
    match Matcher::new(alloc, text) {
        Ok(matcher) => Ok(Some(matcher)),
        Err(fault) => no_matcher(fault),
    }
}

/// Returns `None` for a fault of the text, and `OutOfMemory` for a refusal of memory.
fn no_matcher(fault: SelectorFault) -> Result<Option<Matcher>, OutOfMemory>
    ensures { IfOk result (λ found. (found ≡ None) × (fault ≡ Memory → ⊥)) }
{
    match fault {
        SelectorFault::Memory => Err(OutOfMemory),
        _ => Ok(None),
    }
}

impl<'a> Selection<'a> {
    /// Returns whether at least one node, of any kind, matches one of the matcher's selectors. It
    /// allocates no memory.
    pub fn is_matcher(&self, matcher: &Matcher) -> bool
        ensures { Decides result (MatchesSomeNode matcher.now self.now) }
    {
        for node in self.nodes() {
            if matcher.match_element(node) {
                return true;
            }
        }
        false
    }

    /// Returns whether at least one node, of any kind, matches one of the selectors in the text;
    /// false when the text is no selector list. It parses the text on every call; use `is_matcher`
    /// in a loop. It fails with `OutOfMemory` when memory is refused.
    pub fn is(&self, selectors: &str) -> Result<bool, OutOfMemory>
        ensures { IfOk result (DecidesByText selectors.now (λ s. MatchesSomeNode s self.now)) }
    {
        match matcher_of(self.allocator(), selectors)? {
            Some(matcher) => Ok(self.is_matcher(&matcher)),
            None => Ok(false),
        }
    }

    /// Returns the nodes, of any kind, that match one of the matcher's selectors, in their order.
    /// It fails with `OutOfMemory` when memory is refused.
    pub fn filter_matcher(&self, matcher: &Matcher) -> Result<Selection<'a>, OutOfMemory>
        ensures { IfOk result (Keeps matcher.now self.now) }
    {
        let Some(tree) = self.tree() else {
            return Ok(Selection::new(self.allocator()));
        };
        let mut kept = Vec::new(self.allocator());
        for node in self.nodes() {
            let node = NodeRef::new(node.id, tree);
            push_if(&mut kept, &node, matcher.match_element(&node))?;
        }
        Ok(Selection::of_one_tree(kept))
    }

    /// Returns the nodes, of any kind, that match one of the selectors in the text, in their order.
    /// It fails with the fault of `Matcher::new` when the text is no selector list, or when memory
    /// is refused. For an empty selection the text isn't parsed, and the result is empty.
    pub fn filter(&self, selectors: &str) -> Result<Selection<'a>, SelectorFault>
        ensures none { self.now ≡ [] → result ≡ Ok [] }
        ensures ok { IfOk result (λ k. self.now ≢ [] → ByText selectors.now
            (λ s. Keeps s self.now k)) }
        ensures refused { IfErr result (Refused (chars selectors.now)) }
    {
        if self.is_empty() {
            return Ok(Selection::new(self.allocator()));
        }
        let matcher = Matcher::new(self.allocator(), selectors)?;
        Ok(self.filter_matcher(&matcher)?)
    }

    /// Returns what `filter` returns, but `None` when the text is no selector list. It fails with
    /// `OutOfMemory` when memory is refused.
    pub fn try_filter(&self, selectors: &str) -> Result<Option<Selection<'a>>, OutOfMemory>
        ensures none { self.now ≡ [] → result ≡ Ok (Some []) }
        ensures ok { IfOk result (λ k. self.now ≢ [] → TriesText selectors.now
            (λ s. Keeps s self.now) k) }
    {
        if self.is_empty() {
            return Ok(Some(Selection::new(self.allocator())));
        }
        match matcher_of(self.allocator(), selectors)? {
            Some(matcher) => Ok(Some(self.filter_matcher(&matcher)?)),
            None => Ok(None),
        }
    }
}
