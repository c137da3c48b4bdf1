//! Tags, doctypes and comments.

ghost use Rattle.std.specs.Prelude.{◌≡◌, ◌<◌, [], None, true, false, IfOk, length, map};
ghost use Rattle.std.specs.Prelude.{string_bytes};
ghost use Rattle.std.specs.Char.{to_ascii_lowercase};
ghost use Rattle.page_tokens.specs.Attributes.{are_distinct};

pub use crate::attribute::TagAttr;
use std::alloc::{AllocError, Global};

/// Whether a tag is a start tag or an end tag.
#[derive(Clone, Copy, PartialEq, Eq, Debug, Drop)]
pub enum TagKind {
    Start,
    End,
}

/// A tag. Its name is not empty and contains no ASCII upper-case letter. No two attributes have the
/// same name: if a name is repeated, the first attribute is kept.
#[derive(Drop)]
pub struct Tag {
    pub kind: TagKind,
    pub name: String,
    pub attrs: Vec<TagAttr>,
    pub self_closing: bool,
    ghost not_empty: { 0 < length (string_bytes name) },
    ghost folded: { map to_ascii_lowercase (string_bytes name) ≡ string_bytes name },
    ghost distinct: { are_distinct attrs.items ≡ true },
}

impl Tag {
    /// Returns a tag without attributes, its name in ASCII lower case. Fails only when memory runs
    /// out.
    pub fn new(alloc: Global, kind: TagKind, name: &str) -> Result<Tag, AllocError>
        requires { 0 < length name.now }
        ensures kind { IfOk result (λ tag. tag.kind ≡ kind) }
        ensures named { IfOk result (λ tag.
            string_bytes tag.name ≡ map to_ascii_lowercase name.now) }
        ensures bare { IfOk result (λ tag. tag.attrs.items ≡ []) }
    {
        let mut folded = String::from_str(alloc, name)?;
        folded.make_ascii_lowercase();
        Ok(Tag {
            kind,
            name: folded,
            attrs: Vec::new(alloc),
            self_closing: false,
        })
    }
}

/// A doctype. A part that is missing in the source is `None`, which differs from an empty string.
#[derive(Drop)]
pub struct Doctype {
    pub name: Option<String>,
    pub public_id: Option<String>,
    pub system_id: Option<String>,
    /// The force-quirks flag of the standard: the document is in quirks mode whatever the name and
    /// the identifiers are.
    pub force_quirks: bool,
}

impl Doctype {
    /// Returns a doctype without a name and identifiers.
    pub fn new() -> Doctype
        ensures name { result.name ≡ None }
        ensures public_id { result.public_id ≡ None }
        ensures system_id { result.system_id ≡ None }
        ensures force_quirks { result.force_quirks ≡ false }
    {
        Doctype {
            name: None,
            public_id: None,
            system_id: None,
            force_quirks: false,
        }
    }
}

/// The kind of a token.
#[derive(Clone, Copy, PartialEq, Eq, Debug, Drop)]
pub enum TokenKind {
    Tag,
    Comment,
    Doctype,
}

/// A token. The characters between tokens are not tokens here; the tokenizer collects them.
#[derive(Drop)]
pub enum Token {
    Tag(Tag),
    Comment(String),
    Doctype(Doctype),
}
