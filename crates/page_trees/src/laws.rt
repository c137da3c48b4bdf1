//! Laws about the documents of pages and fragments. The functions do nothing at run time; their
//! contracts are the theorems.

ghost use Rattle.page_trees.specs.DocumentTrees.{StandsForOneDocument};
ghost use Rattle.page_trees.specs.OrderlyTurns.{OthersAreCovered, TagsAreCovered, TurnsAreOrderly};
ghost use Rattle.page_trees.specs.OrderlyTurns.{TurnsAreCovered};
ghost use Rattle.page_trees.specs.PagesRead.{EveryTextIsRead};
ghost use Rattle.page_trees.specs.ShapeExamples.{PagesAreShaped};
ghost use Rattle.page_trees.specs.StandardDocuments.{TextsAreParsed};

use standard_agreement::texts_are_built_of_tokens;

/// A tree stands for one Document of the HTML Standard at most, if names and texts are compared in
/// UTF-8, and a missing part of a doctype is the same as an empty one.
#[tactic(auto, using(crate::proofs::OneDocument::one_document))]
pub fn trees_stand_for_one_document()
    ensures { StandsForOneDocument }
{}

/// Examples of pages that are parsed as trees with the shape of a page: empty ones, and such with
/// comments at each place, tables, templates and framesets.
#[tactic(auto, using(crate::proofs::ShapesComputed::pages_are_shaped))]
pub fn pages_are_shaped()
    ensures { PagesAreShaped }
{}

/// What tree construction builds of the tokens of a text is the Document as which the HTML Standard
/// parses the page, or the nodes of the fragment.
pub fn texts_are_parsed()
    ensures { TextsAreParsed }
{
    // A law, called for its contract alone.
    texts_are_built_of_tokens();
}

/// Whatever tokens come, each turn of tree construction begins in an orderly state.
#[tactic(auto, using(crate::proofs::OrderlyPages::turns_are_orderly))]
pub fn turns_are_orderly()
    ensures { TurnsAreOrderly }
{}

/// In an orderly state every token is covered but tags: each character, comment and doctype, and
/// the end of the page.
#[tactic(auto, using(crate::proofs::OrderlyTokens::others_are_covered))]
pub fn others_are_covered()
    ensures { OthersAreCovered }
{}

/// In an orderly state in which no element is open before `html`, every tag is covered.
#[tactic(auto, using(crate::proofs::TagsCovered::tags_are_covered))]
pub fn tags_are_covered()
    ensures { TagsAreCovered }
{}

/// So each turn of a page or a fragment is covered.
#[tactic(auto, using(crate::proofs::TurnsCovered::turns_are_covered))]
pub fn turns_are_covered()
    ensures { TurnsAreCovered }
{}

/// Every text of a page or a fragment is read as tokens of which tree construction builds something.
#[tactic(auto, using(crate::proofs::TextsRead::every_text_is_read))]
pub fn every_text_is_read()
    ensures { EveryTextIsRead }
{}
