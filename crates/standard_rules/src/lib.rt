//! Tree construction of the HTML Standard (13.2.6) as a definition, and a law about it.
//!
//! `specs/TreeRules` contains the rules as data, one for each entry of the standard;
//! `specs/Building` says what they do to a tree under construction: `tree_step` takes one token,
//! `built` the tokens of a page and `built_fragment` those of a fragment. If the standard does
//! something that the rules leave out, the result is `None`.
#![tactic(auto)]

ghost use Rattle.std.specs.Prelude.{◌≡◌, ℕ, List, Some, true};
ghost use Rattle.standard_rules.specs.Building.{built, built_fragment};
ghost use Rattle.standard_rules.specs.PlainTrees.{FlowPlace, IsPlainPage, Page};
ghost use Rattle.standard_rules.specs.PlainTrees.{are_plain, flow_contexts, outermost, page_trees};
ghost use Rattle.standard_rules.specs.TreeTokens.{Trees, is_among, tokens};

/// Plain trees are built as they are written: from the tokens of a page whose head and body contain
/// plain trees, tree construction builds that page, and from the tokens of plain trees it builds
/// these trees, as a fragment in `body`, `div`, `li`, `td` or `blockquote`.
pub fn plain_trees_are_built()
    ensures page { (page : Page) → IsPlainPage page →
        built (tokens (page_trees page)) ≡ Some (page_trees page) }
    ensures fragment { (context : List ℕ) (trees : Trees) → is_among context flow_contexts ≡ true →
        are_plain (outermost FlowPlace) trees ≡ true
        → built_fragment context (tokens trees) ≡ Some trees }
{}
