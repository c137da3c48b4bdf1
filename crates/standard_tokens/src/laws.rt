//! What the HTML Standard's tokenizer makes of pages.

ghost use Rattle.standard_tokens.specs.Laws.{AnyFeedbackStays, ExamplesAreRead};
ghost use Rattle.standard_tokens.specs.Laws.{PagesAreReadOneWay, PlainMarkupIsRead};
ghost use Rattle.standard_tokens.specs.Laws.{PlainPagesAreRead, PlainPagesAreReadOneWay};

/// Plain markup is read as the tokens that it represents, wherever it is in a page and whatever
/// follows it. The tokenizer is in the data state before it and after it.
pub fn plain_markup()
    ensures { PlainMarkupIsRead }
{}

/// A page of plain markup is read as the tokens that it represents, and as no others.
pub fn plain_pages()
    ensures read { PlainPagesAreRead }
    ensures only { PlainPagesAreReadOneWay }
{}

/// If no element has a name whose content may be read in a state other than the data state, such as
/// `script`, the laws of plain markup are true of any tree construction.
pub fn any_tree_construction()
    ensures { AnyFeedbackStays }
{}

/// Every page has at most one list of tokens.
pub fn one_reading()
    ensures { PagesAreReadOneWay }
{}

/// Examples: pages, in which together every entry of the table of states is used, have the tokens
/// that are listed with them.
pub fn examples()
    ensures { ExamplesAreRead }
{}
