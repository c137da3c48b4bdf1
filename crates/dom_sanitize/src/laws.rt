//! Facts about every sanitized tree, which the crates above use in their proofs. Each function does
//! nothing at run time: a call of it brings its `ensures` clauses into the caller's proof. The
//! calls in their bodies are calls of such functions.

ghost use Rattle.std.specs.Prelude.{◌≡◌, []};
ghost use Rattle.dom_links.specs.Forest.{Forest};
ghost use Rattle.dom_links.specs.Sound.{IsForest};
ghost use Rattle.dom_markup.specs.Plain.{IsPlain};
ghost use Rattle.dom_sanitize.specs.Clean.{Cleaned, Lists};
ghost use Rattle.dom_sanitize.specs.Laws.{AreAllowed, HasOneClean, HoldsTextsAlone, KeepsText};
ghost use Rattle.dom_sanitize.specs.Laws.{NothingAppears, StaysClean, OnceCleaned};
ghost use Rattle.dom_sanitize.specs.Written.{AllowsNoText, ReadsBackClean};

use dom_links::laws::{lines_of_a_forest, trees_of_a_forest};
use dom_markup::laws::plain::{
    documents_are_forests, documents_stand_for_their_trees, html_of_trees, one_meaning,
    plain_reads_back,
};

/// Below the root of a sanitized tree there are only texts and allowed elements, with allowed
/// attributes.
pub fn what_is_left_is_allowed()
    ensures { (a : Lists) (old new : Forest) → IsForest new → Cleaned a old new → AreAllowed a new }
{
    // Called for its contract, as the calls below are: they do nothing at run time.
    trees_of_a_forest();
}

/// Each node below the root of a sanitized tree was below the root before.
pub fn nothing_new_appears()
    ensures { (allow : Lists) (old new : Forest) → OnceCleaned allow old new
        (NothingAppears old new) }
{
    trees_of_a_forest();
}

/// Sanitizing is idempotent.
pub fn cleaning_twice_is_once()
    ensures { (a : Lists) (old new : Forest) → IsForest new → Cleaned a old new → StaysClean a new }
{
    trees_of_a_forest();
    lines_of_a_forest();
}

/// The result of sanitizing a forest by some lists is determined: the definition allows only one.
pub fn one_clean()
    ensures { (allow : Lists) (forest : Forest) → IsForest forest → HasOneClean allow forest }
{
    trees_of_a_forest();
}

/// The text of a sanitized tree is what it was, without the text of the nodes that were removed
/// with everything below them.
pub fn text_is_kept()
    ensures { (allow : Lists) (old new : Forest) → OnceCleaned allow old new
        (KeepsText allow old new) }
{
    trees_of_a_forest();
}

/// If no element is allowed, only texts are left below the root.
pub fn cleaning_by_nothing_leaves_texts()
    ensures { (allow : Lists) (old new : Forest) → IsForest new → Cleaned allow old new
        → allow.elements ≡ [] → HoldsTextsAlone new }
{
    trees_of_a_forest();
}

/// If a plain document (see `IsPlain` in dom_markup) is sanitized, written and parsed again, the
/// result is the trees that were left, with adjacent texts joined. This needs lists that allow
/// neither a raw text element (such as `script`) nor `title` nor `textarea`.
pub fn what_is_written_reads_back()
    ensures { (allow : Lists) (old new : Forest) → IsForest new → (plain : IsPlain old)
        → Cleaned allow old new → AllowsNoText allow → ReadsBackClean allow old new plain }
{
    html_of_trees();
    plain_reads_back();
    one_meaning();
    documents_stand_for_their_trees();
    documents_are_forests();
}
