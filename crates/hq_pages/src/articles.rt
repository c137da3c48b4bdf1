//! The article of a page, for `hq --article`. A call that returns a `Result` fails when memory or
//! node ids run out.

use crate::faults::Fault;
use crate::json::add;
use crate::options::{Options, Printing, Show};
use crate::showing::{crate_markdown_of, markdown_of};
use dom_query::{Document, NodeId, NodeMarkup, NodeMd, NodeRef, clean_document};
use page_articles::{Article, article_of_page, document_of_article};
use serde_json::{Map, Value};
use std::alloc::Global;

/// The article of a page, with a document of its own, which has been sanitised if the options say
/// so.
#[derive(Drop)]
pub struct TakenArticle {
    article: Article,
    document: Document,
    /// The node whose children are the article.
    top: NodeId,
}

/// Returns the article of a page. `None` if there is none, and if it isn't sure that it is one,
/// unless `any` is true.
pub fn take_article(
    document: &Document,
    options: &Options<'_>,
    any: bool,
) -> Result<Option<TakenArticle>, Fault> {
    let Some(article) = article_of_page(document)? else {
        return Ok(None);
    };
    if !article.sure && !any {
        return Ok(None);
    }
    let mut copy = document_of_article(document, &article)?;
    if let Some(policy) = &options.policy {
        copy = clean_document(&copy.tree, policy)?;
    }
    let top = top_of(&copy);
    Ok(Some(TakenArticle {
        article,
        document: copy,
        top,
    }))
}

/// Returns the node whose children are the article: the `body` of a document that was sanitised, and
/// otherwise the root.
fn top_of(document: &Document) -> NodeId {
    match document.body() {
        Some(body) => body.id,
        None => document.root().id,
    }
}

impl TakenArticle {
    fn node(&self) -> NodeRef<'_> {
        self.document.tree.get_unchecked(&self.top)
    }

    /// Returns what is printed of the article, without the byte that ends it.
    pub fn answer(&self, printing: Printing<'_>, file: Option<&str>) -> Result<String, Fault> {
        let alloc = self.document.tree.allocator();
        if printing.json {
            return Ok(self.value(file)?.to_string(alloc)?);
        }
        match printing.show {
            Show::Html => Ok(self.node().inner_html()?),
            Show::Text => Ok(self.node().formatted_text()?),
            Show::CrateMarkdown => crate_markdown_of(alloc, &self.node(), true),
            _ => markdown_of(alloc, &self.node(), true),
        }
    }

    /// Returns a JSON object with all that is known of the article: what the page says of it, and
    /// the article as Markdown, HTML and text. It has the name of its file if `file` has one.
    pub fn value(&self, file: Option<&str>) -> Result<Value, Fault> {
        let alloc = self.document.tree.allocator();
        let mut members = Map::new(alloc);
        let metadata = &self.article.metadata;
        add_text(alloc, &mut members, "title", &metadata.title)?;
        add_text(alloc, &mut members, "byline", &metadata.byline)?;
        add_text(alloc, &mut members, "published", &metadata.published)?;
        add_text(alloc, &mut members, "language", &metadata.language)?;
        add_text(alloc, &mut members, "site", &metadata.site)?;
        add_text(alloc, &mut members, "description", &metadata.description)?;
        add_text(alloc, &mut members, "image", &metadata.image)?;
        let sure = Value::Bool(self.article.sure);
        add(alloc, &mut members, "sure", sure)?;
        let markdown = Value::String(markdown_of(alloc, &self.node(), true)?);
        add(alloc, &mut members, "markdown", markdown)?;
        let html = Value::String(self.node().inner_html()?);
        add(alloc, &mut members, "html", html)?;
        let text = Value::String(self.node().formatted_text()?);
        add(alloc, &mut members, "text", text)?;
        if let Some(file) = file {
            let file = Value::try_from_str(alloc, file)?;
            add(alloc, &mut members, "file", file)?;
        }
        Ok(Value::Object(members))
    }
}

/// Adds a text to the members of an object, or null if there is none.
fn add_text(
    alloc: Global,
    members: &mut Map<String, Value>,
    name: &str,
    text: &Option<String>,
) -> Result<(), Fault> {
    let value = match text {
        Some(text) => Value::try_from_str(alloc, text.as_str())?,
        None => Value::Null,
    };
    add(alloc, members, name, value)
}
