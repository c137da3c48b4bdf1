//! Laws of the HTML Standard's tokenizer for markup that is spelled in any way: with tags in upper
//! or lower case, with white space in them, and with values in quotes of either kind or in none.
//! The functions do nothing at run time; their contracts are the theorems.

ghost use Rattle.standard_laws.specs.SpelledLaws.{SpelledDoctypesAreRead, SpelledEndsAreRead};
ghost use Rattle.standard_laws.specs.SpelledLaws.{SpelledOwnTextsAreRead, SpelledStartsAreRead};
ghost use Rattle.standard_laws.specs.SpelledLaws.{SpelledTextsAreRead};
ghost use Rattle.standard_laws.specs.SpelledPages.{SpelledExampleIsRead, SpelledItemsAreRead};
ghost use Rattle.standard_laws.specs.SpelledPages.{SpelledPagesAreRead, SpelledPagesAreReadOneWay};
ghost use Rattle.standard_laws.specs.SpelledParsing.{CalmPagesAreDocuments, CalmPagesAreSpelled};
ghost use Rattle.standard_laws.specs.SpelledParsing.{EachCalmPageIsParsed};
ghost use Rattle.standard_laws.specs.SpelledParsing.{SpelledDocumentsAreParsed};

use standard_tokens::laws::one_reading;
use standard_trees::one_parse;

/// The tokenizer reads a start tag (`starts`), an end tag (`ends`), a text (`texts`) or a doctype
/// (`doctypes`) as the token or the characters for which it stands, wherever it is in a page, as
/// long as the tokenizer is in the data state there. So it reads a text in a state of its own, with
/// the end tag behind it (`own`).
pub fn spelled_markup_is_read()
    ensures starts { SpelledStartsAreRead }
    ensures ends { SpelledEndsAreRead }
    ensures texts { SpelledTextsAreRead }
    ensures doctypes { SpelledDoctypesAreRead }
    ensures own { SpelledOwnTextsAreRead }
{}

/// The tokenizer reads such markup as its tokens wherever it is in a page (`items`), and as a whole
/// page (`read`), and as no others (`only`). A page is read so as an example.
pub fn spelled_pages_are_read()
    ensures items { SpelledItemsAreRead }
    ensures read { SpelledPagesAreRead }
    ensures only { SpelledPagesAreReadOneWay }
    ensures example { SpelledExampleIsRead }
{
    // A law, called for its contract alone.
    one_reading();
}

/// A page that is spelled in any way as a calm document, where tags of void elements may end in
/// `/>`, is parsed as that document, in no-quirks mode, and as no other.
pub fn spelled_documents_are_parsed()
    ensures { SpelledDocumentsAreParsed }
{
    // A law, called for its contract alone.
    one_parse();
}

/// Every calm page is spelled so (`spelled`). Therefore it is parsed as its document, in no-quirks
/// mode, and as no other (`parsed`). The document of the trees that are written in it is that
/// Document (`documents`).
pub fn calm_pages_are_parsed()
    ensures spelled { CalmPagesAreSpelled }
    ensures parsed { EachCalmPageIsParsed }
    ensures documents { CalmPagesAreDocuments }
{
    // A law, called for its contract alone.
    one_parse();
}
