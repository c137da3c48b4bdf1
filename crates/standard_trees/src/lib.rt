//! The HTML Standard's parser as a definition: the whole of tree construction (13.2.6), joined with
//! the tokenizer of `standard_tokens`. The crate has no code that runs: its functions are laws. How
//! to read the definitions is said in docs/STANDARD.md.
#![tactic(auto)]

ghost use Rattle.standard_trees.specs.Examples.{PagesAreParsed};
ghost use Rattle.standard_trees.specs.Laws.{DocumentsAreParsedOneWay, EveryTextHasADocument};
ghost use Rattle.standard_trees.specs.Laws.{EveryTextHasAFragment, FragmentsAreParsedOneWay};
ghost use Rattle.standard_trees.specs.Laws.{EveryTokenEnds, FunctionsParse};

/// Every text is parsed as a document, and in every context as a fragment: the tokenizer comes to an
/// end, and so do rules that use rules.
pub fn every_text_has_a_document()
    ensures documents { EveryTextHasADocument }
    ensures fragments { EveryTextHasAFragment }
{}

/// The rules come to an end with every token, and how deep they use rules is bounded by how many
/// elements are open or in the list of active formatting elements, and how many templates.
pub fn every_token_ends()
    ensures { EveryTokenEnds }
{}

/// A text is parsed as one document at most, and in one context as one fragment at most, however
/// many steps the tokenizer is given, and however deep rules may use rules.
pub fn one_parse()
    ensures documents { DocumentsAreParsedOneWay }
    ensures fragments { FragmentsAreParsedOneWay }
{}

/// What the functions `parse` and `parse_fragment` of the definition give is that document, and that
/// fragment.
pub fn functions_parse()
    ensures { FunctionsParse }
{}

/// Pages and fragments, in which together nearly every rule is taken, have the trees that are listed
/// with them.
pub fn examples()
    ensures { PagesAreParsed }
{}
