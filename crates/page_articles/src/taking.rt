//! Taking the article out of a page.

ghost use Rattle.std.specs.Prelude.{IfOk, MatchOption};
ghost use Rattle.dom_article.specs.Found.{IsArticle};
ghost use Rattle.dom_article.specs.Texts.{ShowsNoText};

use crate::linked_data::linked_data_of;
use dom_article::{Article, article_of_known};
use dom_markup::document::Document;
use dom_nodes::fault::{EditFault, OutOfMemory};

/// Returns the article of a page, or `None` if no text of the page is shown. What the page says in
/// JSON-LD counts before what it says of the article in other ways. Fails only when memory runs
/// out.
pub fn article_of_page(page: &Document) -> Result<Option<Article>, OutOfMemory>
    ensures { IfOk result (λ found. MatchOption found (ShowsNoText page.now.tree)
        (λ article. IsArticle page.now.tree article.root article.kept.items)) }
{
    let data = linked_data_of(page)?;
    article_of_known(&page.tree, &data.known())
}

/// Returns a document with a copy of the nodes that an article of the page keeps, as
/// `Article::copy` makes it. Fails when memory or node ids run out.
pub fn document_of_article(page: &Document, article: &Article) -> Result<Document, EditFault> {
    Ok(Document {
        tree: article.copy(&page.tree)?,
        errors: Vec::new(page.tree.allocator()),
        quirks_mode: page.quirks_mode,
    })
}
