//! The tokenizer: a state machine that reads a page in parts. Start at `Tokenizer::new`, then call
//! `read_kind` or `read_token` until the text is used up, and `end` at the end of the page.

mod attributes;
mod comments;
mod declarations;
mod doctypes;
mod draft;
mod end_of_file;
mod errors;
mod lanes;
mod named;
mod plain;
mod raw_end_tags;
mod references;
mod runs;
mod script_data;
mod state;
mod tags;
mod text;

ghost use Rattle.std.specs.Prelude.{◌≡◌, ◌==◌, ◌&&◌, ◌∷◌, ◌++◌, [], IfOk, OnOk, None, string_bytes};
ghost use Rattle.std.specs.Prelude.{encode_utf8};
ghost use Rattle.page_tokens.specs.Runs.{is_space_of};
ghost use Rattle.page_tokens.specs.StandardPages.{line_end_of};

use crate::parse_error::ErrorAt;
use crate::token::{Doctype, Tag, Token, TokenKind};
use draft::TagDraft;
use references::Reference;
pub use state::State;
use state::{Raw, ScriptState};
use std::alloc::{AllocError, Global};
use std::mem;

/// The state of the tokenizer, and what it has read of the current token.
#[derive(Drop)]
pub struct Tokenizer {
    alloc: Global,
    state: State,
    /// Whether the last character was a carriage return.
    after_return: bool,
    /// Whether `<![CDATA[` starts a CDATA section here.
    in_foreign: bool,
    /// The characters before the next token.
    text: String,
    tag: TagDraft,
    /// The last finished tag. Its memory is reused for later tags.
    ended: Option<Tag>,
    /// The name of the last start tag.
    last_start: String,
    /// The temporary buffer of the script data states.
    letters: String,
    comment: String,
    doctype: Doctype,
    reference: Reference,
    /// A character reference as in the source, and the part of it after the longest name.
    written: String,
    behind: String,
    /// The byte offset of the character that is being read.
    offset: usize,
    /// The parse errors, if they are collected.
    errors: Option<Vec<ErrorAt>>,
    /// Whether memory ran out while the current character was processed.
    refused: bool,
}

/// The token that ends at a character, or `None`. An error means that memory ran out.
pub type Step = Result<Option<Token>, AllocError>;

/// The kind of the token that ends at a character, or `None`; the tokenizer keeps the token itself.
/// An error means that memory ran out.
type Progress = Result<Option<TokenKind>, AllocError>;

/// The replacement character, which takes the place of a null.
const REPLACEMENT: char = '\u{fffd}';

/// Returns whether the character is a tab, line feed, form feed or space. Carriage returns are
/// converted before.
fn is_space(c: char) -> bool
    ensures { result ≡ is_space_of c }
{
    matches!(c, '\t' | '\n' | '\u{c}' | ' ')
}

/// Returns the character as which this one is read: a line feed for a carriage return.
fn line_end(letter: char) -> char
    ensures { result ≡ line_end_of letter }
{
    match letter {
        '\r' => '\n',
        _ => letter,
    }
}

/// The text that is left to read. An error means that memory ran out.
type Rest<'a> = Result<&'a str, AllocError>;

/// Appends a text to another one.
fn append(text: &mut String, more: &str) -> Result<(), AllocError>
    ensures { OnOk result (string_bytes text.new ≡ string_bytes text.old ++ more.now) }
{
    text.push_str(more)?;
    Ok(())
}

/// Appends a character to a text; no token ends there.
fn push(text: &mut String, c: char) -> Progress
    ensures told { IfOk result (λ told. told ≡ None) }
    ensures text { OnOk result (string_bytes text.new ≡ string_bytes text.old ++ encode_utf8 c) }
{
    text.push(c)?;
    Ok(None)
}

impl Tokenizer {
    ghost use Rattle.std.specs.Option.{option_copied};
    ghost use Rattle.page_tokens.specs.Reading.{IsInText, text_of};
    ghost use Rattle.page_tokens.specs.Standard.{Follows, FollowsAsking};
    ghost use Rattle.page_tokens.specs.StandardPages.{BeginsPage, FollowsText, IsTextState};
    ghost use Rattle.page_tokens.specs.StandardPages.{KeepsPlace, ReadsAnywhere, Switches};
    ghost use Rattle.page_tokens.specs.Tags.{TakesTag};
    ghost use Rattle.page_tokens.specs.TakenTokens.{TakesComment, TakesDoctype};
    ghost use Rattle.page_tokens.specs.TextStates.{raw_state_of};

    /// Returns a tokenizer at the start of a page, in the data state.
    pub fn new(alloc: Global) -> Tokenizer
        ensures start { IsInText result }
        ensures empty { text_of result ≡ [] }
        ensures page { BeginsPage result }
    {
        Tokenizer {
            alloc,
            state: State::Data,
            after_return: false,
            in_foreign: false,
            text: String::new(alloc),
            tag: TagDraft::new(alloc),
            ended: None,
            last_start: String::new(alloc),
            letters: String::new(alloc),
            comment: String::new(alloc),
            doctype: Doctype::new(),
            reference: Reference::None,
            written: String::new(alloc),
            behind: String::new(alloc),
            offset: 0,
            errors: None,
            refused: false,
        }
    }

    /// Returns the characters before the next token, as far as they are read.
    pub fn text(&self) -> &str
        ensures { result.now ≡ text_of self.now }
    {
        self.text.as_str()
    }

    /// Takes the characters before the next token, as far as they are read.
    pub fn take_text(&mut self) -> String
        ensures taken { string_bytes result ≡ text_of self.old }
        ensures left { text_of self.new ≡ [] }
        ensures only { self.new ≡ record self.old { text = self.new.text } }
        ensures place { KeepsPlace self.old self.new }
    {
        mem::replace(&mut self.text, String::new(self.alloc))
    }

    /// Drops the characters before the next token, and keeps their memory for later ones.
    pub fn clear_text(&mut self)
        ensures left { text_of self.new ≡ [] }
        ensures only { self.new ≡ record self.old { text = self.new.text } }
        ensures place { KeepsPlace self.old self.new }
    {
        self.text.clear();
    }

    /// Returns the last tag, or `None` before the first one. It is kept until the next tag ends.
    pub fn tag(&self) -> Option<&Tag>
        ensures { option_copied result ≡ self.now.ended }
    {
        self.ended.as_ref()
    }

    /// Returns the last comment. It is kept until the next comment starts.
    pub fn comment(&self) -> &str
        ensures { result.now ≡ string_bytes self.now.comment }
    {
        self.comment.as_str()
    }

    /// Returns the last doctype. It is kept until the next doctype starts.
    pub fn doctype(&self) -> &Doctype
        ensures { result.now ≡ self.now.doctype }
    {
        &self.doctype
    }

    /// Takes the last token of this kind out of the tokenizer, if there is one.
    fn take_token(&mut self, kind: Option<TokenKind>) -> Option<Token>
        ensures none { kind ≡ None → (result ≡ None) × (self.new ≡ self.old) }
        ensures tag { TakesTag kind self.old self.new result }
        ensures comment { TakesComment kind self.old self.new result }
        ensures doctype { TakesDoctype kind self.old self.new result }
    {
        match kind? {
            TokenKind::Tag => Some(Token::Tag(self.ended.take()?)),
            TokenKind::Comment => {
                let comment = mem::replace(&mut self.comment, String::new(self.alloc));
                Some(Token::Comment(comment))
            }
            TokenKind::Doctype => {
                let doctype = mem::replace(&mut self.doctype, Doctype::new());
                Some(Token::Doctype(doctype))
            }
        }
    }

    /// Stores the last token of this kind in `token`; with no kind, nothing changes.
    fn put_token(&mut self, kind: Option<TokenKind>, token: &mut Option<Token>)
        ensures none { kind ≡ None → (token.new ≡ token.old) × (self.new ≡ self.old) }
        ensures tag { TakesTag kind self.old self.new token.new }
        ensures comment { TakesComment kind self.old self.new token.new }
        ensures doctype { TakesDoctype kind self.old self.new token.new }
    {
        if kind.is_none() {
            return;
        }
        let made = self.take_token(kind);
        drop(mem::replace(token, made));
    }

    /// Sets the state in which the text after a start tag is read, as tree construction requires.
    pub fn switch_to(&mut self, state: State)
        ensures only { self.new ≡ record self.old { state = state } }
        ensures place { IsTextState state → Switches state self.old self.new }
    {
        self.state = state;
    }

    /// Sets whether the adjusted current node is an element outside the HTML namespace, in which
    /// `<![CDATA[` starts a CDATA section.
    pub fn set_in_foreign(&mut self, in_foreign: bool)
        ensures only { self.new ≡ record self.old { in_foreign = in_foreign } }
        ensures place { KeepsPlace self.old self.new }
    {
        self.in_foreign = in_foreign;
    }

    /// Processes a character of a page. A carriage return, with or without a line feed after it,
    /// becomes one line feed.
    fn step(&mut self, letter: char) -> Progress
        ensures { FollowsText self.old self.new (letter ∷ []) result }
    {
        if self.ends_line_end(letter) {
            self.after_return = false;
            return Ok(None);
        }
        self.after_return = letter == '\r';
        self.take(line_end(letter))
    }

    /// Returns whether this is the line feed of a line end whose carriage return was read before.
    fn ends_line_end(&self, letter: char) -> bool
        ensures { result ≡ (self.now.after_return && letter == 10) }
    {
        self.after_return && letter == '\n'
    }

    /// Processes a character, in a character reference or outside of one.
    fn take(&mut self, c: char) -> Progress
        ensures { ReadsAnywhere self.old self.new (c ∷ []) result }
    {
        if !self.is_in_reference() {
            return self.read(c);
        }
        if self.reference(c) {
            return Ok(None);
        }
        self.read(c)
    }

    /// Processes a character outside a character reference, by the state.
    fn read(&mut self, c: char) -> Progress
        ensures { FollowsAsking self.old self.new (c ∷ []) result }
    {
        match self.state {
            State::Data => self.in_data(c),
            State::Rcdata => self.in_rcdata(c),
            State::Rawtext => self.in_raw(Raw::Rawtext, c),
            State::Script => self.in_raw(Raw::Script, c),
            State::Plaintext => self.in_plaintext(c),
            State::Cdata(state) => self.in_cdata(state, c),
            State::Tag(state) => self.in_tag(state, c),
            State::EndTag(raw, state) => self.in_end_tag(raw, state, c),
            State::ScriptData(state) => self.in_script(state, c),
            State::Attribute(state) => self.in_attribute(state, c),
            State::Declaration(seen) => self.in_declaration(seen, c),
            State::Comment(state) => self.in_comment(state, c),
            State::Doctype(state) => self.in_doctype(state, c),
        }
    }

    /// Changes to a state; no token ends.
    fn then(&mut self, state: State) -> Progress
        ensures told { IfOk result (λ told. told ≡ None) }
        ensures only { self.new ≡ record self.old { state = state } }
    {
        self.state = state;
        Ok(None)
    }

    /// Changes back to the state for the characters of the element, and processes this character
    /// there.
    fn back_to(&mut self, raw: Raw, c: char) -> Progress
        ensures { Follows (record self.old { state = raw_state_of raw }) self.new
            (c ∷ []) result }
    {
        match raw {
            Raw::Rcdata => {
                self.state = State::Rcdata;
                self.in_rcdata(c)
            }
            Raw::Rawtext => {
                self.state = State::Rawtext;
                self.in_raw(Raw::Rawtext, c)
            }
            Raw::Script => {
                self.state = State::Script;
                self.in_raw(Raw::Script, c)
            }
            Raw::Escaped => {
                self.state = State::ScriptData(ScriptState::Escaped);
                self.in_script(ScriptState::Escaped, c)
            }
        }
    }
}
