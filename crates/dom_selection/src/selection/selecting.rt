//! Selecting elements below the nodes of a selection by CSS selectors.

ghost use Rattle.std.specs.Prelude.{◌≡◌, ◌≢◌, [], Ok, Some, chars, IfErr, IfOk, MatchOption};
ghost use Rattle.dom_selectors.specs.Grammar.{Refused};
ghost use Rattle.dom_select.specs.ByText.{ByText};
ghost use Rattle.dom_selection.specs.Selecting.{Adds, Selects, SelectsFirst, GivesByText};
ghost use Rattle.dom_selection.specs.Selecting.{WillSelect, TriesText, SelectsSome};
ghost use Rattle.dom_select.specs.MatcherIters.{matches_of};

use crate::selection::Selection;
use crate::selection::asking::matcher_of;
use dom_index::selecting::select_nodes;
use dom_nodes::fault::OutOfMemory;
use dom_select::matcher::Matcher;
use dom_select::matcher::matcher_iter::MatcherIter;
use dom_selectors::fault::SelectorFault;

impl<'a> Selection<'a> {
    /// Returns the elements below the nodes that match one of the matcher's selectors, each once.
    /// The descendants of the first node come first, in document order, then those of the second,
    /// and so on. Each node is tested by itself, or an index of the tree is built when that is
    /// cheaper. It fails with `OutOfMemory` when memory is refused.
    pub fn select_matcher(&self, matcher: &Matcher) -> Result<Selection<'a>, OutOfMemory>
        ensures { IfOk result (Selects matcher.now self.now) }
    {
        let Some(tree) = self.tree() else {
            return Ok(Selection::new(self.allocator()));
        };
        let roots = self.ids()?;
        let found = select_nodes(tree, &roots, matcher)?;
        Ok(Selection::of_one_tree(found))
    }

    /// Returns an iterator over the elements that `select_matcher` returns, which finds them one by
    /// one; `None` for an empty selection, which has no tree. It borrows the nodes. For two or more
    /// nodes it allocates memory, and fails with `OutOfMemory` when that is refused.
    pub fn select_matcher_iter<'s, 'b>(
        &'s self,
        matcher: &'b Matcher,
    ) -> Result<Option<MatcherIter<'a, 'b, 's>>, OutOfMemory>
        ensures { IfOk result (λ matches. MatchOption matches (self.now ≡ [])
            (λ it. WillSelect matcher.now self.now (matches_of it))) }
    {
        let Some(tree) = self.tree() else {
            return Ok(None);
        };
        let matches = MatcherIter::below_nodes(tree, self.nodes(), matcher)?;
        Ok(Some(matches))
    }

    /// Returns the elements below the nodes that match one of the selectors in the text, each once,
    /// in the order of `select_matcher`. The text is parsed on every call; for repeated use, make a
    /// `Matcher` once. It fails with the fault of `Matcher::new` when the text is no selector list,
    /// or when memory is refused.
    pub fn select(&self, selectors: &str) -> Result<Selection<'a>, SelectorFault>
        ensures ok { IfOk result (GivesByText selectors.now (λ s. Selects s self.now)) }
        ensures refused { IfErr result (Refused (chars selectors.now)) }
    {
        let matcher = Matcher::new(self.allocator(), selectors)?;
        Ok(self.select_matcher(&matcher)?)
    }

    /// Returns what `select` returns, and fails as it does; it is another name of the same call.
    pub fn nip(&self, selectors: &str) -> Result<Selection<'a>, SelectorFault>
        ensures ok { IfOk result (GivesByText selectors.now (λ s. Selects s self.now)) }
        ensures refused { IfErr result (Refused (chars selectors.now)) }
    {
        self.select(selectors)
    }

    /// Returns what `select` returns, but `None` when nothing is selected or the text is no
    /// selector list. It fails with `OutOfMemory` when memory is refused.
    pub fn try_select(&self, selectors: &str) -> Result<Option<Selection<'a>>, OutOfMemory>
        ensures { IfOk result (SelectsSome selectors.now self.now) }
    {
        let Some(matcher) = matcher_of(self.allocator(), selectors)? else {
            return Ok(None);
        };
        let found = self.select_matcher(&matcher)?;
        if found.is_empty() {
            return Ok(None);
        }
        Ok(Some(found))
    }

    /// Returns the first of the elements that `select_matcher` returns, or the empty selection when
    /// there is none. No node after it is tested. It fails with `OutOfMemory` when memory is
    /// refused.
    pub fn select_single_matcher(&self, matcher: &Matcher) -> Result<Selection<'a>, OutOfMemory>
        ensures { IfOk result (SelectsFirst matcher.now self.now) }
    {
        let Some(tree) = self.tree() else {
            return Ok(Selection::new(self.allocator()));
        };
        let mut matches = MatcherIter::below_nodes(tree, self.nodes(), matcher)?;
        match matches.next() {
            Some(node) => Ok(Selection::from(node)),
            None => Ok(Selection::new(self.allocator())),
        }
    }

    /// Returns the first of the elements that `select` returns, or the empty selection when there
    /// is none. It fails as `select` does.
    pub fn select_single(&self, selectors: &str) -> Result<Selection<'a>, SelectorFault>
        ensures ok { IfOk result (GivesByText selectors.now (λ s. SelectsFirst s self.now)) }
        ensures refused { IfErr result (Refused (chars selectors.now)) }
    {
        let matcher = Matcher::new(self.allocator(), selectors)?;
        Ok(self.select_single_matcher(&matcher)?)
    }

    /// Returns the nodes of the selection, then the elements below the root that match the matcher
    /// and aren't among them. For an empty selection, which has no tree, the result is empty. It
    /// fails with `OutOfMemory` when memory is refused.
    pub fn add_matcher(&self, matcher: &Matcher) -> Result<Selection<'a>, OutOfMemory>
        ensures { IfOk result (Adds matcher.now self.now) }
    {
        let Some(tree) = self.tree() else {
            return Ok(Selection::new(self.allocator()));
        };
        let more = Selection::from(tree.root()).select_matcher(matcher)?;
        self.add_selection(&more)
    }

    /// Returns the nodes of the selection, then the elements below the root that match one of the
    /// selectors in the text and aren't among them. It fails with the fault of `Matcher::new` when
    /// the text is no selector list, or when memory is refused. For an empty selection the text
    /// isn't parsed, and the result is empty.
    pub fn add(&self, selectors: &str) -> Result<Selection<'a>, SelectorFault>
        ensures none { self.now ≡ [] → result ≡ Ok [] }
        ensures ok { IfOk result (λ a. self.now ≢ [] → ByText selectors.now
            (λ s. Adds s self.now a)) }
        ensures refused { IfErr result (Refused (chars selectors.now)) }
    {
        let alloc = self.allocator();
        if self.is_empty() {
            return Ok(Selection::new(alloc));
        }
        let matcher = Matcher::new(alloc, selectors)?;
        Ok(self.add_matcher(&matcher)?)
    }

    /// Returns what `add` returns, but `None` when the text is no selector list. It fails with
    /// `OutOfMemory` when memory is refused.
    pub fn try_add(&self, selectors: &str) -> Result<Option<Selection<'a>>, OutOfMemory>
        ensures none { self.now ≡ [] → result ≡ Ok (Some []) }
        ensures ok { IfOk result (λ a. self.now ≢ [] → TriesText selectors.now
            (λ s. Adds s self.now) a) }
    {
        if self.is_empty() {
            return Ok(Some(Selection::new(self.allocator())));
        }
        match matcher_of(self.allocator(), selectors)? {
            Some(matcher) => Ok(Some(self.add_matcher(&matcher)?)),
            None => Ok(None),
        }
    }
}
