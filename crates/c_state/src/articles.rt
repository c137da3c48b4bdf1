//! The article of a page.

ghost use Rattle.std.specs.Prelude.{◌≡◌, ◌+◌, IfErr, IfOk, OnOk, length};
ghost use Rattle.dom_article.specs.Texts.{ShowsNoText};
ghost use Rattle.c_state.specs.declared.fault.Fault.TheVariants.{Memory, Nothing};

use crate::fault::Fault;
use crate::pieces::Pieces;
use crate::state::State;
use page_articles::{Article, Metadata, article_of_page, document_of_article};
use std::alloc::Global;

/// The article of a page, as a document of its own.
#[derive(Drop)]
pub struct TakenArticle {
    pub state: State,
    /// Whether the page surely has an article.
    pub sure: bool,
}

impl State {
    /// The article of the page. What the page says of it is kept as seven pieces: the title, the
    /// author, the date, the language, the site, the description and the address of an image; what
    /// it doesn't say has no piece. Refused as `Nothing` where no text of the page is shown.
    pub fn take_article(&mut self) -> Result<TakenArticle, Fault>
        ensures document { self.new.document ≡ self.old.document }
        ensures pieces { IfOk result (λ _. length self.new.lengths.items ≡ 7) }
        ensures nothing { IfErr result (λ fault. fault ≡ Nothing
            → ShowsNoText self.old.document.tree) }
    {
        let Some(article) = article_of_page(&self.document)? else {
            return Err(Fault::Nothing);
        };
        let taken = self.taken(&article)?;
        let pieces = pieces_of(self.document.tree.allocator(), &article.metadata)?;
        self.keep_pieces(pieces);
        Ok(taken)
    }

    fn taken(&self, article: &Article) -> Result<TakenArticle, Fault>
        ensures { IfErr result (λ fault. fault ≡ Nothing → ⊥) }
    {
        match document_of_article(&self.document, article) {
            Ok(document) => Ok(TakenArticle {
                state: State::of(self.document.tree.allocator(), document),
                sure: article.sure,
            }),
            Err(fault) => Err(Fault::Edit(fault)),
        }
    }
}

/// What a page says of its article.
fn pieces_of(alloc: Global, metadata: &Metadata) -> Result<Pieces, Fault>
    ensures ok { IfOk result (λ pieces. length pieces.lengths.items ≡ 7) }
    ensures err { IfErr result (λ fault. fault ≡ Memory) }
{
    let mut pieces = Pieces::new(alloc);
    push_text(&mut pieces, &metadata.title)?;
    push_text(&mut pieces, &metadata.byline)?;
    push_text(&mut pieces, &metadata.published)?;
    push_text(&mut pieces, &metadata.language)?;
    push_text(&mut pieces, &metadata.site)?;
    push_text(&mut pieces, &metadata.description)?;
    push_text(&mut pieces, &metadata.image)?;
    Ok(pieces)
}

fn push_text(pieces: &mut Pieces, text: &Option<String>) -> Result<(), Fault>
    ensures ok { OnOk result
        (length pieces.new.lengths.items ≡ length pieces.old.lengths.items + 1) }
    ensures err { IfErr result (λ fault. fault ≡ Memory) }
{
    match text {
        Some(text) => pieces.push(text.as_str()),
        None => pieces.push_some(None),
    }
}
