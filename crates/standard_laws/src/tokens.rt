//! Laws of the HTML Standard's tokenizer, as it is defined in standard_tokens. The functions do
//! nothing at run time; their contracts are the theorems.

ghost use Rattle.standard_laws.specs.HtmlLaws.{HtmlIsRead, HtmlIsReadOneWay};
ghost use Rattle.standard_laws.specs.TokenLaws.{HtmlAnswers, TreesAreReadAnywhere};
ghost use Rattle.standard_laws.specs.TokenLaws.{TreesAreReadAsPages, TreesAreReadOneWay};
ghost use Rattle.dom_nodes.specs.Escaping.{value_char};
ghost use Rattle.dom_markup.specs.WrittenTrees.{safe_char};
ghost use Rattle.standard_laws.specs.Values.{safe_piece, value_piece};

use dom_markup::laws::plain::html_of_trees;
use standard_tokens::laws::{plain_markup, plain_pages};

/// The tokenizer turns the HTML of a plain document (see `IsPlain` in dom_markup), as a page, into
/// the tokens of the document and into no others.
pub fn html_is_read()
    ensures read { HtmlIsRead }
    ensures only { HtmlIsReadOneWay }
{
    // Laws are called for their contracts alone.
    html_of_trees();
    plain_pages();
}

/// The tokenizer turns the HTML of plain trees into their tokens wherever it is in a page, as long
/// as the tokenizer is in the data state there: in any element, after any tags, and whatever
/// follows.
pub fn trees_are_read()
    ensures anywhere { TreesAreReadAnywhere value_char value_piece }
    ensures page { TreesAreReadAsPages value_char value_piece }
    ensures only { TreesAreReadOneWay value_char value_piece }
{
    plain_markup();
    plain_pages();
}

/// States what `trees_are_read` states, for HTML in which `<` and `>` are escaped in the values of
/// attributes, too.
pub fn safe_trees_are_read()
    ensures anywhere { TreesAreReadAnywhere safe_char safe_piece }
    ensures page { TreesAreReadAsPages safe_char safe_piece }
    ensures only { TreesAreReadOneWay safe_char safe_piece }
{
    plain_markup();
    plain_pages();
}

/// Tree construction answers the tokenizer as the laws of trees require, if every element is in the
/// HTML namespace and scripting is disabled.
pub fn html_answers()
    ensures { HtmlAnswers }
{}
