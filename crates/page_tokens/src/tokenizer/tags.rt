//! The tag states (13.2.5.6 to 13.2.5.8 and 13.2.5.40), outside attributes.

ghost use Rattle.std.specs.Prelude.{◌≡◌, ◌<◌, ◌∷◌, [], IfOk, OnOk, None, Some, false, length};
ghost use Rattle.std.specs.Prelude.{encode_utf8, string_bytes};

use super::state::{AttrState, CommentState, Place, Seen, TagState};
use super::{Progress, State, Tokenizer, append, is_space, push};
use crate::parse_error::ParseError;
use crate::token::{TagKind, TokenKind};
use std::alloc::AllocError;

impl Tokenizer {
    ghost use Rattle.page_tokens.specs.Changes.{Remembers};
    ghost use Rattle.page_tokens.specs.Drafts.{IsReadyDraft, IsEmitted, NotesStart};
    ghost use Rattle.page_tokens.specs.Standard.{EmitsTag, Follows, Keeps};
    ghost use Rattle.page_tokens.specs.TagStates.{BeginsBogus, BeginsTag};

    pub(super) fn in_tag(&mut self, state: TagState, c: char) -> Progress
        ensures { self.old.state ≡ State.Tag state → Follows self.old self.new (c ∷ []) result }
    {
        match state {
            TagState::Open => self.tag_open(c),
            TagState::EndOpen => self.end_tag_open(c),
            TagState::Name => self.tag_name(c),
            TagState::SelfClosing => self.self_closing(c),
        }
    }

    fn tag_open(&mut self, c: char) -> Progress
        ensures { self.old.state ≡ State.Tag TagState.Open →
            Follows self.old self.new (c ∷ []) result }
    {
        if c == '!' {
            self.comment.clear();
            return self.then(State::Declaration(Seen::Nothing));
        }
        if c == '/' {
            return self.then(State::Tag(TagState::EndOpen));
        }
        if c.is_ascii_alphabetic() {
            return self.begin_tag(TagKind::Start, c);
        }
        if c == '?' {
            self.error(ParseError::UnexpectedQuestionMarkInsteadOfTagName);
            return self.bogus_comment(c);
        }
        self.error(ParseError::InvalidFirstCharacterOfTagName);
        self.put_text("<");
        self.state = State::Data;
        self.in_data(c)
    }

    fn end_tag_open(&mut self, c: char) -> Progress
        ensures { self.old.state ≡ State.Tag TagState.EndOpen →
            Follows self.old self.new (c ∷ []) result }
    {
        if c.is_ascii_alphabetic() {
            return self.begin_tag(TagKind::End, c);
        }
        if c == '>' {
            self.error(ParseError::MissingEndTagName);
            return self.then(State::Data);
        }
        self.error(ParseError::InvalidFirstCharacterOfTagName);
        self.bogus_comment(c)
    }

    /// Starts a bogus comment with this character.
    fn bogus_comment(&mut self, c: char) -> Progress
        ensures { BeginsBogus self.old self.new c result }
    {
        self.comment.clear();
        self.state = State::Comment(CommentState::Bogus);
        self.in_comment(CommentState::Bogus, c)
    }

    /// Starts a tag with the first letter of its name.
    fn begin_tag(&mut self, kind: TagKind, c: char) -> Progress
        ensures told { IfOk result (λ told. told ≡ None) }
        ensures begins { OnOk result (BeginsTag self.old self.new kind (encode_utf8 c)) }
    {
        self.tag.begin(self.alloc, kind);
        self.state = State::Tag(TagState::Name);
        push(&mut self.tag.name, c)
    }

    fn tag_name(&mut self, c: char) -> Progress
        ensures { self.old.state ≡ State.Tag TagState.Name →
            Follows self.old self.new (c ∷ []) result }
    {
        if c == '/' {
            return self.then(State::Tag(TagState::SelfClosing));
        }
        if c == '>' {
            return self.emit_tag();
        }
        if is_space(c) {
            return self.then(State::Attribute(AttrState::BeforeName));
        }
        self.letter(Place::TagName, c)
    }

    fn self_closing(&mut self, c: char) -> Progress
        ensures { self.old.state ≡ State.Tag TagState.SelfClosing →
            Follows self.old self.new (c ∷ []) result }
    {
        if c == '>' {
            self.tag.self_closing = true;
            return self.emit_tag();
        }
        self.error(ParseError::UnexpectedSolidusInTag);
        self.state = State::Attribute(AttrState::BeforeName);
        self.before_attr_name(c)
    }

    /// Ends the tag. The tokenizer is then in the data state until a caller switches it.
    pub(super) fn emit_tag(&mut self) -> Progress
        ensures ready { IsReadyDraft self.old → IfOk result (λ kind.
            (kind ≡ Some TokenKind.Tag) × IsEmitted self.old self.new) }
        ensures keeps { OnOk result (self.new.refused ≡ false → Keeps self.old self.new) }
        ensures emits { 0 < length (string_bytes self.old.tag.name) → IfOk result (λ told.
            self.new.refused ≡ false → EmitsTag self.old self.new told) }
    {
        self.finish_attr()?;
        self.state = State::Data;
        self.check_end_tag();
        if !self.tag.finish(self.alloc, &mut self.ended) {
            return Ok(None);
        }
        self.note_start()?;
        Ok(Some(TokenKind::Tag))
    }

    /// Reports attributes and a trailing slash of an end tag, which are parse errors.
    fn check_end_tag(&mut self)
        ensures none { self.old.errors ≡ None → self.new ≡ self.old }
        ensures only { self.new ≡ record self.old {
          errors = self.new.errors;
          refused = self.new.refused;
        } }
        ensures memory { Remembers self.old self.new }
    {
        if self.tag.kind == TagKind::Start {
            return;
        }
        if !self.tag.attrs.is_empty() {
            self.error(ParseError::EndTagWithAttributes);
        }
        if self.tag.self_closing {
            self.error(ParseError::EndTagWithTrailingSolidus);
        }
    }

    /// Keeps the name of a start tag; raw text ends at an end tag with that name.
    fn note_start(&mut self) -> Result<(), AllocError>
        ensures only { self.new ≡ record self.old { last_start = self.new.last_start } }
        ensures noted { OnOk result (NotesStart self.old.ended self.old self.new) }
    {
        match &self.ended {
            Some(tag) if tag.kind == TagKind::Start => {
                self.last_start.clear();
                append(&mut self.last_start, tag.name.as_str())
            }
            _ => Ok(()),
        }
    }
}
