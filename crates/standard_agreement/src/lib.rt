//! What the HTML Standard's parser, as `standard_trees` defines it whole, makes of plain trees, and
//! of the tokens of any text. The older definition of tree construction, `standard_rules`, which
//! leaves much out, stands in the proofs alone: where it gives a tree from the tokens of plain
//! trees, both go through the same states, step by step. The crate has no code that runs: its
//! functions are laws.
#![tactic(auto)]

ghost use Rattle.standard_agreement.specs.PlainPages.{PlainFragmentsAreBuilt, PlainPagesAreBuilt};
ghost use Rattle.standard_agreement.specs.PlainTexts.{PlainFragmentsAreParsed, PlainPagesAreParsed};
ghost use Rattle.standard_agreement.specs.TokensAndTrees.{DocumentsAreBuiltOfTokens};
ghost use Rattle.standard_agreement.specs.TokensAndTrees.{EveryFragmentIsBuiltOfTokens};
ghost use Rattle.standard_agreement.specs.TokensAndTrees.{EveryTextIsBuiltOfTokens};
ghost use Rattle.standard_agreement.specs.TokensAndTrees.{FragmentsAreBuiltOfTokens};

use standard_tokens::laws::plain_pages;

/// From the tokens of a page whose head and body contain plain trees, tree construction builds that
/// page, in no-quirks mode, with and without scripting.
pub fn plain_pages_are_built()
    ensures { PlainPagesAreBuilt }
{}

/// From the tokens of plain trees, tree construction builds these trees, as a fragment in a `body`,
/// `div`, `li`, `td` or `blockquote`.
pub fn plain_fragments_are_built()
    ensures { PlainFragmentsAreBuilt }
{}

/// Plain markup of such a page is parsed as that page, by the tokenizer and tree construction
/// together, and plain markup of plain trees as these trees, as a fragment in these elements.
pub fn plain_texts_are_parsed()
    ensures page { PlainPagesAreParsed }
    ensures fragment { PlainFragmentsAreParsed }
{
    // A law, called for its contract alone.
    plain_pages();
}

/// What the parser makes of any text, plain or not, is what tree construction builds of the tokens
/// that the tokenizer reads where tree construction gives the answers: if it takes these tokens,
/// the text is parsed as the Document, or as the fragment, that they build.
pub fn texts_are_built_of_tokens()
    ensures document { DocumentsAreBuiltOfTokens }
    ensures fragment { FragmentsAreBuiltOfTokens }
{}

/// Every text is read as tokens so, and tree construction takes them all: what it builds of them is
/// what the text is parsed as, as a page and, in every context, as a fragment.
pub fn every_text_is_built_of_tokens()
    ensures document { EveryTextIsBuiltOfTokens }
    ensures fragment { EveryFragmentIsBuiltOfTokens }
{}
