//! Markup as a sequence of tags, texts, comments and doctypes.

ghost use Rattle.std.specs.Prelude.{◌≡◌, ◌++◌, ◌≢◌, [], List, ℕ, codes, length, MatchResult};
ghost use Rattle.dom_markup.specs.Lexeme.{IsNoComment};
ghost use Rattle.dom_markup.specs.Names.{markup};
ghost use Rattle.dom_markup.specs.Refusals.{StartCause};
ghost use Rattle.dom_markup.specs.Token.{kind_of_text, mode_of};
ghost use Rattle.dom_markup.specs.Tokens.{IsFound, TakesItem};

use crate::document::front::{Lexeme, declared_doctype, front_at};
use crate::document::tags::start_tag_end;
use crate::document::within::{ContentModel, within_element};
use dom_nodes::fault::{MarkupFault, MarkupFaultKind};
use std::marker::Model;

/// The kind of a token. A text is as long as possible. `RawText` is the text inside a raw text
/// element, `title` or `textarea`.
#[derive(Clone, Copy, PartialEq, Eq, Debug, Drop)]
pub enum TokenKind {
    Text,
    RawText,
    StartTag,
    EndTag,
    Comment,
    Doctype,
}

/// The token at the start of a text: its kind, the text after it, and the mode in which that is
/// read.
#[derive(Clone, Copy)]
struct Found<'a> {
    kind: TokenKind,
    rest: &'a str,
    within: ContentModel<'a>,
}

/// Returns a token after which the text is read as markup.
fn then_markup<'a>(kind: TokenKind, rest: &'a str) -> Found<'a>
    ensures kind { result.kind ≡ kind }
    ensures rest { result.rest.now ≡ rest.now }
    ensures mode { mode_of result.within ≡ markup }
{
    Found {
        kind,
        rest,
        within: ContentModel::Markup,
    }
}

/// Returns the kind of a text that is read in this mode.
fn kind_of_text(within: ContentModel) -> TokenKind
    ensures { result ≡ kind_of_text (mode_of within.entry) }
{
    match within {
        ContentModel::Markup => TokenKind::Text,
        ContentModel::Text(_) => TokenKind::RawText,
        ContentModel::RawText(_) => TokenKind::RawText,
    }
}

/// Returns the start tag, whose `<` is already read.
fn start_at(tag: &str) -> Result<Found<'_>, MarkupFaultKind>
    ensures { let t = codes "<" ++ tag.now in MatchResult result (IsFound markup t) (StartCause t) }
{
    let (name, rest) = start_tag_end(tag)?;
    Ok(Found {
        kind: TokenKind::StartTag,
        rest,
        within: within_element(name),
    })
}

/// Returns the declaration, whose `<!` is already read.
fn declaration_at(tag: &str) -> Result<Found<'_>, MarkupFaultKind>
    requires { IsNoComment tag.now }
    ensures { TakesItem markup (codes "<!" ++ tag.now) result }
{
    let (_, rest) = declared_doctype(tag)?;
    Ok(then_markup(TokenKind::Doctype, rest))
}

/// Returns the token at the start of the text.
fn item_at<'a>(text: &'a str, within: ContentModel<'a>) -> Result<Found<'a>, MarkupFaultKind>
    requires { text.now ≢ [] }
    ensures { TakesItem (mode_of within.entry) text.now result }
{
    let (front, rest) = front_at(text, within)?;
    match front {
        Lexeme::StartTag => start_at(rest),
        Lexeme::Text(_) | Lexeme::Plain(_) => Ok(Found {
            kind: kind_of_text(within),
            rest,
            within,
        }),
        Lexeme::EndTag(_) => Ok(then_markup(TokenKind::EndTag, rest)),
        Lexeme::Comment(_) => Ok(then_markup(TokenKind::Comment, rest)),
        Lexeme::Declaration => declaration_at(rest),
    }
}

/// Returns the part of the text before its suffix `rest`.
fn front_of<'a>(text: &'a str, rest: &str) -> &'a str
    requires { (front : List ℕ) × (text.now ≡ front ++ rest.now) }
    ensures { text.now ≡ result.now ++ rest.now }
{
    let (front, _) = text.split_at(text.len() - rest.len());
    front
}

/// A tag, a text, a comment or a doctype: its kind, its slice of the source, and the byte offsets
/// at which that starts and ends.
#[derive(Clone, Copy)]
pub struct Token<'a> {
    pub kind: TokenKind,
    pub text: &'a str,
    pub start: usize,
    pub end: usize,
}

/// An iterator over the tokens of a text, in order and without gaps. It allocates no memory.
///
/// It returns an error where no token starts, and then ends: for a malformed tag (`BadTag`), a
/// start tag that ends in `/>` though its element isn't void (`SlashOnOpen`), a `<!--` without
/// `-->` (`BadComment`), another `<!` that is no doctype (`BadDeclaration`), a `<?`
/// (`Instruction`), or the text of an element whose end tag is missing (`Unclosed`).
#[derive(Drop)]
pub struct Tokens<'a> {
    rest: &'a str,
    at: usize,
    within: ContentModel<'a>,
}

impl<'a> Model for Tokens<'a> {
    ghost use Rattle.std.specs.Prelude.{◌^◌, ◌<◌, ◌+◌, length};
    ghost use Rattle.dom_markup.specs.Token.{Unread, mode_of};

    ghost Value = { Unread };

    ghost view = { λ tokens.
        record { text = tokens.rest.now; at = tokens.at; mode = mode_of tokens.within } };

    ghost invariant = { λ tokens. tokens.at + length tokens.rest.now < 2 ^ 64 };
}

impl<'a> Tokens<'a> {
    /// Returns an iterator over the tokens of the whole text.
    pub fn new(source: &'a str) -> Tokens<'a>
        ensures { result ≡ record { text = source.now; at = 0; mode = markup } }
    {
        Tokens {
            rest: source,
            at: 0,
            within: ContentModel::Markup,
        }
    }
}

impl<'a> Iterator for Tokens<'a> {
    ghost use Rattle.std.specs.Iterator.{at_most};
    ghost use Rattle.dom_markup.specs.Tokens.{next_token};

    type Item = Result<Token<'a>, MarkupFault>;

    ghost next_gives = { next_token };

    ghost remaining = { λ unread. at_most (length unread.text) };

    #[inline(always)]
    fn next(&mut self) -> Option<Result<Token<'a>, MarkupFault>> {
        let source = self.rest;
        if source.is_empty() {
            return None;
        }
        let start = self.at;
        let found = match item_at(source, self.within) {
            Ok(found) => found,
            Err(kind) => {
                let (_, end) = source.split_at(source.len());
                self.rest = end;
                return Some(Err(MarkupFault { kind, at: start }));
            }
        };
        let text = front_of(source, found.rest);
        let end = start + text.len();
        self.rest = found.rest;
        self.at = end;
        self.within = found.within;
        Some(Ok(Token {
            kind: found.kind,
            text,
            start,
            end,
        }))
    }
}
