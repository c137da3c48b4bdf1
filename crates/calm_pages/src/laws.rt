//! A law about calm pages. The function does nothing; its contract is the theorem.

ghost use Rattle.calm_pages.specs.Calm.{IsCalmForest, SpellsCalmPage};
ghost use Rattle.dom_links.specs.Forest.{Forest};
ghost use Rattle.dom_links.specs.Sound.{IsForest};
ghost use Rattle.dom_markup.specs.Html.{html_of};
ghost use Rattle.dom_markup.specs.Plain.{IsPlain};

use dom_markup::laws::one_reading;
use dom_markup::laws::plain::{
    html_of_trees, one_meaning, plain_documents_are_spelled, plain_reads_back,
};

/// The HTML of a document that is plain (see `IsPlain` in dom_markup) and calm is a calm page with
/// the same tree, so `read_calm` returns this tree for it.
pub fn calm_documents_are_pages()
    ensures { (forest : Forest) → IsForest forest → IsPlain forest → IsCalmForest forest
        → SpellsCalmPage (html_of forest 0) forest }
{
    // Laws of `dom_markup`, called for their contracts alone.
    html_of_trees();
    one_meaning();
    one_reading();
    plain_documents_are_spelled();
    plain_reads_back();
}
