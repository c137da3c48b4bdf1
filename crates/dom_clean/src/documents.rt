//! What a policy leaves of a tree, as a document and in a writer.

ghost use Rattle.std.specs.Prelude.{◌≡◌, IfOk};
ghost use Rattle.dom_clean.specs.Again.{IsDocumentLeftBy};
ghost use Rattle.dom_clean.specs.Cleaned.{body_of};
ghost use Rattle.dom_clean.specs.Laws.{AreAllowed, left_below, page_of};
ghost use Rattle.dom_markup.specs.Numbered.{document_of};

use crate::cleaning::{body_of, page_around};
use crate::laws::what_is_left_is_safe;
use crate::policy::Policy;
use crate::writer::clean_below;
use dom_markup::document::Document;
use dom_trees::tree::Tree;
use page_reading::{Options, PageFault, parse_page};

/// Returns the document of a page with what the policy leaves of the body of a tree, or of the
/// whole tree if it has no body. It is the document that the text of the page is parsed to, and it
/// has texts, allowed elements and allowed attributes in its body, and in its head
/// `<meta charset="utf-8">` alone. The tree of a document that was cleaned by the same policy stays
/// as it is (clause `again`). Fails only if memory is refused or the node ids run out.
pub fn clean_document(tree: &Tree, policy: &Policy) -> Result<Document, PageFault>
    ensures tree { IfOk result (λ document. document.tree
        ≡ document_of (page_of (left_below policy.now tree.now (body_of tree.now)))) }
    ensures allowed { IfOk result (λ _.
        AreAllowed policy.now (left_below policy.now tree.now (body_of tree.now))) }
    ensures again { IsDocumentLeftBy policy.now tree.now
        → IfOk result (λ document. document.tree ≡ tree.now) }
{
    what_is_left_is_safe();
    let alloc = tree.allocator();
    let text = clean_below(tree, &body_of(tree), policy.lists())?;
    let page = page_around(alloc, text.as_str())?;
    let options = Options {
        scripting: false,
        max_depth: None,
        errors: false,
    };
    parse_page(alloc, page.as_str(), options)
}
