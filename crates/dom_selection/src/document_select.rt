//! Selecting elements of a document by CSS selectors.

ghost use Rattle.std.specs.Prelude.{chars, IfErr, IfOk};
ghost use Rattle.dom_links.specs.Forest.{Forest};
ghost use Rattle.dom_selectors.specs.Grammar.{Refused};
ghost use Rattle.dom_selection.specs.Selecting.{SelectsFirstIn, SelectsIn, GivesByText};
ghost use Rattle.dom_selection.specs.Selecting.{SelectsSomeIn};

use crate::selection::Selection;
use dom_markup::document::Document;
use dom_nodes::fault::OutOfMemory;
use dom_select::matcher::Matcher;
use dom_selectors::fault::SelectorFault;

/// Selects elements below the root of a document.
pub trait DocumentSelect {
    // The forest of the document.
    ghost forest: { Self → Forest };

    /// Returns the elements below the root that match one of the matcher's selectors, in document
    /// order. It fails with `OutOfMemory` when memory is refused.
    fn select_matcher(&self, matcher: &Matcher) -> Result<Selection<'_>, OutOfMemory>
        ensures { IfOk result (SelectsIn matcher.now (forest self.now)) };

    /// Returns the elements below the root that match one of the selectors in the text, in document
    /// order. The text is parsed on every call; for repeated use, make a `Matcher` once. It fails
    /// with the fault of `Matcher::new` when the text is no selector list, or when memory is
    /// refused.
    fn select(&self, selectors: &str) -> Result<Selection<'_>, SelectorFault>
        ensures ok { IfOk result (GivesByText selectors.now (λ s. SelectsIn s (forest self.now))) }
        ensures refused { IfErr result (Refused (chars selectors.now)) };

    /// Returns what `select` returns, and fails as it does; it is another name of the same call.
    fn nip(&self, selectors: &str) -> Result<Selection<'_>, SelectorFault>
        ensures ok { IfOk result (GivesByText selectors.now (λ s. SelectsIn s (forest self.now))) }
        ensures refused { IfErr result (Refused (chars selectors.now)) };

    /// Returns what `select` returns, but `None` when nothing is selected or the text is no
    /// selector list. It fails with `OutOfMemory` when memory is refused.
    fn try_select(&self, selectors: &str) -> Result<Option<Selection<'_>>, OutOfMemory>
        ensures { IfOk result (SelectsSomeIn selectors.now (forest self.now)) };

    /// Returns the first of the elements that `select_matcher` returns, or an empty selection when
    /// there is none. It fails with `OutOfMemory` when memory is refused.
    fn select_single_matcher(&self, matcher: &Matcher) -> Result<Selection<'_>, OutOfMemory>
        ensures { IfOk result (SelectsFirstIn matcher.now (forest self.now)) };

    /// Returns the first of the elements that `select` returns, or an empty selection when there is
    /// none. It fails as `select` does.
    fn select_single(&self, selectors: &str) -> Result<Selection<'_>, SelectorFault>
        ensures ok { IfOk result (GivesByText selectors.now
            (λ s. SelectsFirstIn s (forest self.now))) }
        ensures refused { IfErr result (Refused (chars selectors.now)) };
}

impl DocumentSelect for Document {
    ghost forest = { λ document. document.tree };

    fn select_matcher(&self, matcher: &Matcher) -> Result<Selection<'_>, OutOfMemory> {
        Selection::from(self.root()).select_matcher(matcher)
    }

    fn select(&self, selectors: &str) -> Result<Selection<'_>, SelectorFault> {
        Selection::from(self.root()).select(selectors)
    }

    fn nip(&self, selectors: &str) -> Result<Selection<'_>, SelectorFault> {
        Selection::from(self.root()).select(selectors)
    }

    fn try_select(&self, selectors: &str) -> Result<Option<Selection<'_>>, OutOfMemory> {
        Selection::from(self.root()).try_select(selectors)
    }

    fn select_single_matcher(&self, matcher: &Matcher) -> Result<Selection<'_>, OutOfMemory> {
        Selection::from(self.root()).select_single_matcher(matcher)
    }

    fn select_single(&self, selectors: &str) -> Result<Selection<'_>, SelectorFault> {
        Selection::from(self.root()).select_single(selectors)
    }
}
