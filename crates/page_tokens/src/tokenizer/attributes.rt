//! The attribute states (13.2.5.32 to 13.2.5.39).

ghost use Rattle.std.specs.Prelude.{◌≡◌, ◌<◌, ◌∷◌, [], IfOk, OnOk, None, false, length, string_bytes};
ghost use Rattle.std.specs.Prelude.{encode_utf8};
ghost use Rattle.page_tokens.specs.Comments.{shown_of};
ghost use Rattle.page_tokens.specs.TagStates.{ends_name_of, quote_of};

use super::state::{AttrState, Place, Quote, TagState};
use super::{Progress, State, Tokenizer, is_space};
use crate::parse_error::ParseError;
use std::alloc::AllocError;

/// Returns whether the character ends the name of an attribute without a value.
fn ends_name(c: char) -> bool
    ensures { result ≡ ends_name_of c }
{
    is_space(c) || c == '/' || c == '>'
}

/// Returns the parse error for a character in the name of an attribute, if it is one.
fn attr_name_error(c: char) -> Option<ParseError> {
    match c {
        '"' | '\'' | '<' => Some(ParseError::UnexpectedCharacterInAttributeName),
        _ => None,
    }
}

/// Returns the parse error for the first character of an attribute's name, if it is one.
fn first_letter_error(c: char) -> Option<ParseError> {
    match c {
        '=' => Some(ParseError::UnexpectedEqualsSignBeforeAttributeName),
        _ => attr_name_error(c),
    }
}

/// Returns the parse error for a character in an unquoted value, if it is one.
fn unquoted_error(c: char) -> Option<ParseError> {
    match c {
        '"' | '\'' | '<' | '=' | '`' => {
            Some(ParseError::UnexpectedCharacterInUnquotedAttributeValue)
        }
        _ => None,
    }
}

impl Tokenizer {
    ghost use Rattle.page_tokens.specs.Changes.{Remembers};
    ghost use Rattle.page_tokens.specs.Drafts.{FinishesAttr};
    ghost use Rattle.page_tokens.specs.Standard.{Follows};
    ghost use Rattle.page_tokens.specs.TagStates.{BeginsAttr};

    pub(super) fn in_attribute(&mut self, state: AttrState, c: char) -> Progress
        ensures { self.old.state ≡ State.Attribute state →
            Follows self.old self.new (c ∷ []) result }
    {
        match state {
            AttrState::BeforeName => self.before_attr_name(c),
            AttrState::Name => self.attr_name(c),
            AttrState::AfterName => self.after_attr_name(c),
            AttrState::BeforeValue => self.before_attr_value(c),
            AttrState::Quoted(quote) => self.quoted_value(quote, c),
            AttrState::Unquoted => self.unquoted_value(c),
            AttrState::AfterQuoted => self.after_quoted_value(c),
        }
    }

    pub(super) fn before_attr_name(&mut self, c: char) -> Progress
        ensures { self.old.state ≡ State.Attribute AttrState.BeforeName →
            Follows self.old self.new (c ∷ []) result }
    {
        if is_space(c) {
            return Ok(None);
        }
        if c == '/' {
            return self.then(State::Tag(TagState::SelfClosing));
        }
        if c == '>' {
            return self.emit_tag();
        }
        self.begin_attr(c)
    }

    /// Starts an attribute with the first character of its name.
    fn begin_attr(&mut self, c: char) -> Progress
        ensures told { IfOk result (λ told. told ≡ None) }
        ensures begins { OnOk result (self.new.refused ≡ false →
            BeginsAttr self.old self.new (encode_utf8 (shown_of c))) }
    {
        self.finish_attr()?;
        self.report(first_letter_error(c));
        self.state = State::Attribute(AttrState::Name);
        self.letter(Place::AttrName, c)
    }

    fn attr_name(&mut self, c: char) -> Progress
        ensures { self.old.state ≡ State.Attribute AttrState.Name →
            Follows self.old self.new (c ∷ []) result }
    {
        if c == '=' {
            self.note_repeated_name()?;
            return self.then(State::Attribute(AttrState::BeforeValue));
        }
        if ends_name(c) {
            self.note_repeated_name()?;
            self.state = State::Attribute(AttrState::AfterName);
            return self.after_attr_name(c);
        }
        self.report(attr_name_error(c));
        self.letter(Place::AttrName, c)
    }

    /// Reports an attribute whose name an earlier one has, if errors are collected. That is done
    /// at the end of the name, before a value is read.
    fn note_repeated_name(&mut self) -> Result<(), AllocError>
        ensures only { self.new ≡ record self.old {
          errors = self.new.errors;
          refused = self.new.refused;
        } }
        ensures memory { Remembers self.old self.new }
    {
        if self.errors.is_some() && self.tag.repeats_name(self.alloc)? {
            self.error(ParseError::DuplicateAttribute);
        }
        Ok(())
    }

    fn after_attr_name(&mut self, c: char) -> Progress
        ensures { self.old.state ≡ State.Attribute AttrState.AfterName →
            Follows self.old self.new (c ∷ []) result }
    {
        if is_space(c) {
            return Ok(None);
        }
        if c == '/' {
            return self.then(State::Tag(TagState::SelfClosing));
        }
        if c == '=' {
            return self.then(State::Attribute(AttrState::BeforeValue));
        }
        if c == '>' {
            return self.emit_tag();
        }
        self.begin_attr(c)
    }

    fn before_attr_value(&mut self, c: char) -> Progress
        ensures { self.old.state ≡ State.Attribute AttrState.BeforeValue →
            Follows self.old self.new (c ∷ []) result }
    {
        if is_space(c) {
            return Ok(None);
        }
        if c == '"' {
            return self.then(State::Attribute(AttrState::Quoted(Quote::Double)));
        }
        if c == '\'' {
            return self.then(State::Attribute(AttrState::Quoted(Quote::Single)));
        }
        if c == '>' {
            self.error(ParseError::MissingAttributeValue);
            return self.emit_tag();
        }
        self.state = State::Attribute(AttrState::Unquoted);
        self.unquoted_value(c)
    }

    fn quoted_value(&mut self, quote: Quote, c: char) -> Progress
        ensures { self.old.state ≡ State.Attribute (AttrState.Quoted quote) →
            Follows self.old self.new (c ∷ []) result }
    {
        if c == quote.letter() {
            return self.then(State::Attribute(AttrState::AfterQuoted));
        }
        if c == '&' {
            return self.begin_reference();
        }
        self.letter(Place::AttrValue, c)
    }

    fn unquoted_value(&mut self, c: char) -> Progress
        ensures { self.old.state ≡ State.Attribute AttrState.Unquoted →
            Follows self.old self.new (c ∷ []) result }
    {
        if is_space(c) {
            return self.then(State::Attribute(AttrState::BeforeName));
        }
        if c == '&' {
            return self.begin_reference();
        }
        if c == '>' {
            return self.emit_tag();
        }
        self.report(unquoted_error(c));
        self.letter(Place::AttrValue, c)
    }

    fn after_quoted_value(&mut self, c: char) -> Progress
        ensures { self.old.state ≡ State.Attribute AttrState.AfterQuoted →
            Follows self.old self.new (c ∷ []) result }
    {
        if is_space(c) {
            return self.then(State::Attribute(AttrState::BeforeName));
        }
        if c == '/' {
            return self.then(State::Tag(TagState::SelfClosing));
        }
        if c == '>' {
            return self.emit_tag();
        }
        self.error(ParseError::MissingWhitespaceBetweenAttributes);
        self.state = State::Attribute(AttrState::BeforeName);
        self.before_attr_name(c)
    }

    /// Adds the finished attribute to the tag, unless the tag has one with that name.
    pub(super) fn finish_attr(&mut self) -> Result<(), AllocError>
        ensures only_tag { self.new ≡ record self.old { tag = self.new.tag } }
        ensures none { string_bytes self.old.tag.attr_name ≡ [] → self.new ≡ self.old }
        ensures some { 0 < length (string_bytes self.old.tag.attr_name) →
            OnOk result (FinishesAttr self.old.tag self.new.tag) }
    {
        self.tag.finish_attr(self.alloc)
    }
}
