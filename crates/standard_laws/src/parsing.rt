//! What parsing by the HTML Standard, the tokenizer and tree construction together, makes of calm
//! documents. The crate has no code that runs: its functions are laws.

ghost use Rattle.dom_nodes.specs.Escaping.{value_char};
ghost use Rattle.dom_markup.specs.WrittenTrees.{safe_char};
ghost use Rattle.standard_laws.specs.Examples.{ImpliedTagsAreParsed, TextStatesAreParsed};
ghost use Rattle.standard_laws.specs.ParsingLaws.{CalmDocumentsAreParsed, CalmFragmentsAreParsed};
ghost use Rattle.standard_laws.specs.ParsingLaws.{CalmHtmlIsParsed, CalmPagesAreParsed};
ghost use Rattle.standard_laws.specs.Pages.{CalmHtmlIsWritten, WrittenPagesAreParsed};

use calm_pages::laws::calm_documents_are_pages;
use dom_markup::laws::plain::{
    documents_stand_for_their_trees, html_of_trees, one_meaning, plain_reads_back,
    what_is_read_is_plain,
};
use standard_agreement::plain_texts_are_parsed;
pub use standard_trees::one_parse;

/// The HTML of a calm document is parsed as that document (`html`), and so is every calm page that
/// is written so (`page`) and the HTML of a calm and readable document (`document`). The HTML of
/// calm and readable trees is parsed as these trees where the context element is a `body`, `div`,
/// `li`, `td` or `blockquote` (`fragment`).
pub fn calm_html_is_parsed()
    ensures html { CalmHtmlIsParsed }
    ensures page { CalmPagesAreParsed value_char }
    ensures document { CalmDocumentsAreParsed value_char }
    ensures fragment { CalmFragmentsAreParsed value_char }
{
    // Laws are called for their contracts alone.
    documents_stand_for_their_trees();
    html_of_trees();
    one_meaning();
    plain_texts_are_parsed();
    what_is_read_is_plain();
}

/// The same where `<` and `>` are escaped in values too.
pub fn safe_html_is_parsed()
    ensures page { CalmPagesAreParsed safe_char }
    ensures document { CalmDocumentsAreParsed safe_char }
    ensures fragment { CalmFragmentsAreParsed safe_char }
{
    documents_stand_for_their_trees();
    one_meaning();
    plain_texts_are_parsed();
    what_is_read_is_plain();
}

/// A calm page that is written as `html` writes it, or with `<` and `>` escaped in values too, is
/// parsed as its document and as no other.
pub fn written_pages_are_parsed()
    ensures { WrittenPagesAreParsed }
{
    calm_html_is_parsed();
    safe_html_is_parsed();
    one_parse();
}

/// The HTML of a plain and calm document is such a page.
pub fn calm_html_is_written()
    ensures { CalmHtmlIsWritten }
{
    calm_documents_are_pages();
    html_of_trees();
    one_meaning();
    plain_reads_back();
}

/// Two pages that are parsed as the trees that are given with them: one without most of its tags,
/// and one with elements whose text has states of its own.
pub fn examples()
    ensures implied { ImpliedTagsAreParsed }
    ensures texts { TextStatesAreParsed }
{}
