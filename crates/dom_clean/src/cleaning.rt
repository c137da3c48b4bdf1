//! Cleans the text of a fragment or of a page.

ghost use Rattle.std.specs.Prelude.{◌≡◌, IfOk, IfSome, MatchOption, false, string_bytes};
ghost use Rattle.std.specs.Str.{chars};
ghost use Rattle.dom_clean.specs.Again.{IsLeftBy, IsPageLeftBy};
ghost use Rattle.dom_clean.specs.Cleaned.{body_of, cleaned_below, cleaned_body};
ghost use Rattle.dom_clean.specs.Laws.{page_around, page_of};
ghost use Rattle.dom_clean.specs.Parsed.{IsCleanedPage, IsCleanedText};
ghost use Rattle.dom_clean.specs.Policies.{policy_of};
ghost use Rattle.dom_clean.specs.Policy.{is_sound};
ghost use Rattle.dom_clean.specs.StandardSources.{IsLeftOfPage, IsLeftOfSource};
ghost use Rattle.dom_clean.specs.StandardSources.{in_div, source_options};
ghost use Rattle.dom_clean.specs.Written.{text_of};
ghost use Rattle.calm_pages.specs.Calm.{IsCalmPage};
ghost use Rattle.dom_markup.specs.Numbered.{document_of};
ghost use Rattle.dom_markup.specs.ValueTrees.{ValueTrees};
ghost use Rattle.page_reading.specs.StandardPages.{IsFragmentInLimit, IsPageInLimit};
ghost use Rattle.page_trees.specs.DocumentTrees.{IsParsedAs, IsParsedAsFragment};

use crate::laws::cleaned_text_is_parsed;
use crate::policy::Policy;
use crate::writer::clean_below;
use calm_pages::read_calm;
use dom_markup::document::Document;
use dom_nodes::fault::OutOfMemory;
use dom_nodes::node_id::NodeId;
use dom_trees::tree::Tree;
use page_reading::{Context, Options, PageFault, parse_page, parse_page_fragment};
use standard_laws::spelled::calm_pages_are_parsed;
use std::alloc::Global;

/// The id of the body of a page that `page_around` returns, if that is a calm page: the root, the
/// doctype, `html`, `head` and `meta` come before it.
const BODY: usize = 5;

/// The id of the element `html` of a fragment, which is the first node below the root.
const TOP: usize = 1;

/// How many elements of a source that isn't calm are nested while it is read, as in browsers.
const SOURCE_DEPTH: usize = 512;

/// Returns the text of what the policy leaves of a fragment, which is read as the contents of a
/// `div`. Fails only if memory is refused or the node ids run out.
///
/// Whatever the source is, the HTML Standard parses the text as exactly the trees that were left:
/// in the body of a page, and as a fragment in a `body`, `div`, `li`, `td` or `blockquote`.
///
/// It is what the policy leaves of the tree as which the HTML Standard parses the source (clause
/// `standard`), if that nests no more than 512 elements, `html` among them. Deeper ones become
/// siblings, as `Options::max_depth` says, unless the source is calm. `clean_tree` cleans a tree of
/// any depth.
///
/// A text that was cleaned by the same policy is returned as it is (clause `again`).
pub fn clean(alloc: Global, source: &str, policy: &Policy) -> Result<String, PageFault>
    ensures cleaned { IfOk result (λ text. IsCleanedText policy.now (string_bytes text)) }
    ensures calm { (body : ValueTrees) → IsCalmPage (page_around source.now) (page_of body)
        → IfOk result (λ text. string_bytes text
        ≡ text_of (cleaned_below policy.now (document_of (page_of body)) 5)) }
    ensures left { IfOk result (λ text. IsLeftBy policy.now (string_bytes text)) }
    ensures again { IsLeftBy policy.now source.now
        → IfOk result (λ text. string_bytes text ≡ source.now) }
    ensures standard { IsFragmentInLimit source_options in_div (chars source.now)
        → IfOk result (λ text. IsLeftOfSource policy.now source.now (string_bytes text)) }
{
    // Every policy is sound.
    let _ = policy.lists();
    match calm_page(alloc, source)? {
        Some(document) => clean_node(&document.tree, calm_body(), policy),
        None => clean_fragment(alloc, source, policy),
    }
}

/// Returns a page with what the policy leaves of the body of a page, or of the whole document if it
/// has no body: `<!DOCTYPE html>`, then `html` with a `head` and a `body`, all without attributes.
/// The head has `<meta charset="utf-8">` and nothing else. Fails only if memory is refused or the
/// node ids run out.
///
/// Whatever the source is, the HTML Standard parses the page as exactly the document with the trees
/// that were left in its body.
///
/// The trees are what the policy leaves of the page as which the HTML Standard parses the source
/// (clause `standard`), if that nests no more than 512 elements.
///
/// A page that was cleaned by the same policy is returned as it is (clause `again`).
pub fn clean_page(alloc: Global, source: &str, policy: &Policy) -> Result<String, PageFault>
    ensures cleaned { IfOk result (λ page. IsCleanedPage policy.now (string_bytes page)) }
    ensures calm { (trees : ValueTrees) → IsCalmPage source.now trees → IfOk result (λ page.
        string_bytes page
        ≡ page_around (text_of (cleaned_body policy.now (document_of trees)))) }
    ensures left { IfOk result (λ page. IsPageLeftBy policy.now (string_bytes page)) }
    ensures again { IsPageLeftBy policy.now source.now
        → IfOk result (λ page. string_bytes page ≡ source.now) }
    ensures standard { IsPageInLimit source_options (chars source.now)
        → IfOk result (λ page. IsLeftOfPage policy.now source.now (string_bytes page)) }
{
    // Every policy is sound.
    let _ = policy.lists();
    let document = read_page(alloc, source)?;
    let text = clean_node(&document.tree, body_of(&document.tree), policy)?;
    Ok(page_around(alloc, text.as_str())?)
}

/// Returns the body of a page, or the root if the page has none.
pub(crate) fn body_of(tree: &Tree) -> NodeId
    ensures { result ≡ body_of tree.now }
{
    match tree.body() {
        Some(body) => body.id,
        None => NodeId::root(),
    }
}

/// Returns the page with the text in its body, in UTF-8, which its head declares.
pub(crate) fn page_around(alloc: Global, text: &str) -> Result<String, OutOfMemory>
    ensures { IfOk result (λ page. string_bytes page ≡ page_around text.now) }
{
    let front = "<!DOCTYPE html><html><head><meta charset=\"utf-8\"></head><body>";
    let mut page = String::from_str(alloc, front)?;
    page.push_str(text)?;
    page.push_str("</body></html>")?;
    Ok(page)
}

/// Returns the text of what the policy leaves of the children of a node.
pub(crate) fn clean_node(tree: &Tree, id: NodeId, policy: &Policy) -> Result<String, PageFault>
    ensures text { IfOk result (λ text. string_bytes text
        ≡ text_of (cleaned_below policy.now tree.now id)) }
    ensures cleaned { IfOk result (λ text. IsCleanedText policy.now (string_bytes text)) }
{
    // A law, called for its contract alone.
    cleaned_text_is_parsed();
    let text = clean_below(tree, &id, policy.lists())?;
    // A text that is read as a `str` is known to be UTF-8.
    let _ = text.as_str();
    Ok(text)
}

/// Returns how a source that isn't calm is read.
fn reading_options() -> Options
    ensures { result ≡ source_options }
{
    Options {
        scripting: false,
        max_depth: Some(SOURCE_DEPTH),
        errors: false,
    }
}

/// Returns the document of a page. A calm page is read as explicit markup, whatever its depth.
fn read_page(alloc: Global, source: &str) -> Result<Document, PageFault>
    ensures calm { (trees : ValueTrees) → IsCalmPage source.now trees
        → IfOk result (λ document. document.tree ≡ document_of trees) }
    ensures standard { IsPageInLimit source_options (chars source.now)
        → IfOk result (λ document.
        IsParsedAs false (chars source.now) document.tree document.quirks_mode) }
{
    // A law, called for its contract alone.
    calm_pages_are_parsed();
    match read_calm(alloc, source)? {
        Some(document) => Ok(document),
        None => parse_page(alloc, source, reading_options()),
    }
}

/// Returns the text of what the policy leaves of a fragment that isn't calm.
fn clean_fragment(alloc: Global, source: &str, policy: &Policy) -> Result<String, PageFault>
    ensures cleaned { IfOk result (λ text. IsCleanedText policy.now (string_bytes text)) }
    ensures left { IfOk result (λ text. IsLeftBy policy.now (string_bytes text)) }
    ensures standard { IsFragmentInLimit source_options in_div (chars source.now)
        → IfOk result (λ text. IsLeftOfSource policy.now source.now (string_bytes text)) }
{
    let document = read_fragment(alloc, source)?;
    clean_node(&document.tree, fragment_top(), policy)
}

/// Returns the document of a fragment that isn't calm, as the contents of a `div`.
pub(crate) fn read_fragment(alloc: Global, source: &str) -> Result<Document, PageFault>
    ensures { IsFragmentInLimit source_options in_div (chars source.now)
        → IfOk result (λ document.
        IsParsedAsFragment false in_div (chars source.now) document.tree) }
{
    parse_page_fragment(alloc, source, Context::Html("div"), reading_options())
}

/// Returns the node below which the fragment stands in such a document: its element `html`.
pub(crate) fn fragment_top() -> NodeId
    ensures { result ≡ 1 }
{
    NodeId::new(TOP).unwrap_or(NodeId::root())
}

/// Returns the body of the page with a fragment in its body, if that is a calm page.
pub(crate) fn calm_body() -> NodeId
    ensures { result ≡ 5 }
{
    NodeId::new(BODY).unwrap_or(NodeId::root())
}

/// Returns the document of the page with the fragment in its body, if that is a calm page. It is
/// read as explicit markup, without tree construction.
pub(crate) fn calm_page(alloc: Global, source: &str) -> Result<Option<Document>, PageFault>
    ensures calm { (body : ValueTrees) → IsCalmPage (page_around source.now) (page_of body)
        → IfOk result (λ found. MatchOption found ⊥
        (λ document. document.tree ≡ document_of (page_of body))) }
    ensures parsed { IfOk result (λ found. IfSome found (λ document.
        IsParsedAs false (chars (page_around source.now)) document.tree document.quirks_mode)) }
{
    // A law, called for its contract alone.
    calm_pages_are_parsed();
    let page = page_around(alloc, source)?;
    read_calm(alloc, page.as_str())
}
