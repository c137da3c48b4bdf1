//! Calm documents by the rules of the HTML Standard: tree construction gives the tree that was
//! written. The crate has no code that runs: its functions are laws.

ghost use Rattle.standard_laws.specs.ParsingLaws.{CalmDocumentsAreBuilt, CalmFragmentsAreBuilt};

use standard_agreement::{plain_fragments_are_built, plain_pages_are_built};

/// By the tree construction rules of the HTML Standard, the tokens of a calm document give that
/// document, in no-quirks mode, and the tokens of calm trees give these trees as a fragment in
/// `body`, `div`, `li`, `td` or `blockquote`, if no text contains U+0000.
pub fn calm_trees_are_built()
    ensures document { CalmDocumentsAreBuilt }
    ensures fragment { CalmFragmentsAreBuilt }
{
    // Laws are called for their contracts alone.
    plain_pages_are_built();
    plain_fragments_are_built();
}
