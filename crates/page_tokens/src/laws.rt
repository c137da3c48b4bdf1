//! Laws of the tokenizer. The functions do nothing at run time; their contracts are the theorems.

ghost use Rattle.page_tokens.specs.PageLaws.{CallsReadTexts, CallsReadTokens, CharactersAreTold};
ghost use Rattle.page_tokens.specs.PageLaws.{ErrorsChangeNothing, PagesBegin, PagesEnd};
ghost use Rattle.page_tokens.specs.PageLaws.{PiecesAreOneText, TextsAreRead, TokensAreRead};
ghost use Rattle.page_tokens.specs.PlainNames.{NamesArePlain};
ghost use Rattle.page_tokens.specs.SameNames.{TablesAreTheSame};

/// The tokenizer knows the same named character references as the definition of the HTML Standard's
/// tokenizer.
pub fn same_named_references()
    ensures { TablesAreTheSame }
{}

/// A page may be cut into pieces anywhere: a text in which no token ends, and the text that is read
/// after it, are read as if they were one text, if no characters have to be told between them.
pub fn pieces()
    ensures { PiecesAreOneText }
{}

/// Whole pages: the tokens that are read from the beginning of a page to its end, with the answers
/// of tree construction between them, are those of the definition of the HTML Standard's tokenizer,
/// where the characters for which `wants_characters` asks are told. `HasRead` says how far a page is
/// read and which tokens were told.
pub fn pages()
    ensures begin { PagesBegin }
    ensures texts { TextsAreRead }
    ensures characters { CharactersAreTold }
    ensures tokens { TokensAreRead }
    ensures end { PagesEnd }
{}

/// What `read_kind` says of a call, in a page: the call reads on, or up to the end of a token, after
/// what was read before.
pub fn calls()
    ensures texts { CallsReadTexts }
    ensures tokens { CallsReadTokens }
{}

/// Parse errors may be asked for and taken anywhere in a page: what is read stays as it is.
pub fn errors()
    ensures { ErrorsChangeNothing }
{}

/// The names of tags and of their attributes contain no white space, no `/`, no `>` and no ASCII
/// upper-case letter, whatever page is read, and whatever tree construction answers.
pub fn names()
    ensures { NamesArePlain }
{}
