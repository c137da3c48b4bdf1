//! The end of the page.

ghost use Rattle.std.specs.Prelude.{◌≡◌, ◌≢◌, [], IfOk, None, Some, false, string_bytes};
ghost use Rattle.page_tokens.specs.declared.tokenizer.state.State.TheVariants.{Data};

use super::state::{CommentState, DoctypeState, Raw, ScriptState, TagState};
use super::text::brackets;
use super::{State, Step, Tokenizer};
use crate::parse_error::ParseError;
use crate::token::TokenKind;
use std::alloc::AllocError;

/// Returns the parse error for the end of the page in this state, if it is one.
fn error_at_end(state: State) -> Option<ParseError>
    ensures { state ≡ Data → result ≡ None }
{
    match state {
        State::Declaration(_) => Some(ParseError::IncorrectlyOpenedComment),
        State::Comment(CommentState::Bogus) | State::Doctype(DoctypeState::Bogus) => None,
        State::Comment(_) => Some(ParseError::EofInComment),
        State::Doctype(DoctypeState::Keyword(_, _)) => {
            Some(ParseError::InvalidCharacterSequenceAfterDoctypeName)
        }
        State::Doctype(_) => Some(ParseError::EofInDoctype),
        State::Cdata(_) => Some(ParseError::EofInCdata),
        State::Tag(TagState::Open | TagState::EndOpen) => Some(ParseError::EofBeforeTagName),
        State::Tag(_) | State::Attribute(_) => Some(ParseError::EofInTag),
        State::ScriptData(ScriptState::EscapeStart | ScriptState::EscapeStartDash) => None,
        State::ScriptData(_) | State::EndTag(Raw::Escaped, _) => {
            Some(ParseError::EofInScriptHtmlCommentLikeText)
        }
        _ => None,
    }
}

impl Tokenizer {
    ghost use Rattle.page_tokens.specs.Reading.{IsInText, ReadsNoToken};
    ghost use Rattle.page_tokens.specs.PageEnds.{EndsAsStandard, EndsMark};
    ghost use Rattle.page_tokens.specs.PageEnds.{ended_doctype_of, left_of};
    ghost use Rattle.page_tokens.specs.TakenTokens.{TakesLast};
    ghost use Rattle.page_tokens.specs.TextStates.{TextGoesOn};

    /// Ends the page and returns the comment or doctype that ends with it, if there is one. An
    /// unfinished tag is dropped; the beginning of other markup becomes text. Fails only when
    /// memory runs out.
    pub fn end(&mut self) -> Step
        ensures text { IsInText self.old → ReadsNoToken self.old self.new [] result }
        ensures standard { IfOk result (λ token. TakesLast self.old self.new token) }
    {
        let kind = self.end_kind()?;
        Ok(self.take_token(kind))
    }

    /// Ends the page like `end`, and returns the kind of the comment or doctype that ends with it;
    /// the tokenizer keeps the token itself, as for `Tokenizer::comment`. Fails only when memory
    /// runs out.
    pub fn end_kind(&mut self) -> Result<Option<TokenKind>, AllocError>
        ensures text { IsInText self.old → ReadsNoToken self.old self.new [] result }
        ensures stops { EndsAsStandard self.old self.new result }
        ensures no_tag { IfOk result (λ kind. kind ≢ Some TokenKind.Tag) }
    {
        self.end_reference();
        self.report(error_at_end(self.state));
        let kind = self.end_of_mark();
        self.settled(kind)
    }

    /// Ends an unfinished comment or doctype; the beginning of other markup becomes text.
    fn end_of_mark(&mut self) -> Option<TokenKind>
        ensures text { self.old.state ≡ Data → (result ≡ None) × (self.new ≡ self.old) }
        ensures stops { self.new.refused ≡ false → EndsMark self.old self.new result }
        ensures no_tag { result ≢ Some TokenKind.Tag }
    {
        match self.state {
            State::Declaration(_) => self.end_comment(),
            State::Comment(_) => self.end_comment(),
            State::Doctype(state) => self.end_doctype(state),
            _ => {
                self.end_text();
                None
            }
        }
    }

    fn end_comment(&mut self) -> Option<TokenKind>
        ensures is { result ≡ Some TokenKind.Comment }
        ensures only { self.new ≡ record self.old { state = Data } }
    {
        self.state = State::Data;
        Some(TokenKind::Comment)
    }

    /// Ends an unfinished doctype. It is one for quirks mode, unless an error in it was found.
    fn end_doctype(&mut self, state: DoctypeState) -> Option<TokenKind>
        ensures is { result ≡ Some TokenKind.Doctype }
        ensures only { self.new ≡ record self.old {
          state = Data;
          doctype = ended_doctype_of state self.old.doctype;
        } }
    {
        self.state = State::Data;
        match state {
            DoctypeState::Bogus => {}
            _ => self.doctype.force_quirks = true,
        }
        Some(TokenKind::Doctype)
    }

    /// Appends the beginning of markup to the text; a tag is dropped.
    fn end_text(&mut self)
        ensures text { self.old.state ≡ Data → self.new ≡ self.old }
        ensures puts { self.new.refused ≡ false → TextGoesOn self.old self.new self.old.state
            (left_of self.old.state (string_bytes self.old.tag.name)) }
    {
        match self.state {
            State::Cdata(state) => self.put_text(brackets(state)),
            State::Tag(TagState::Open) => self.put_text("<"),
            State::Tag(TagState::EndOpen) => self.put_text("</"),
            State::EndTag(_, state) => self.put_end_tag(state),
            _ => {}
        }
    }
}
