//! Characters outside tags: the data, RCDATA, RAWTEXT, script data, PLAINTEXT and CDATA states.

ghost use Rattle.std.specs.Prelude.{◌≡◌, ◌∷◌, ◌++◌, [], IfOk, OnOk, None, false};
ghost use Rattle.std.specs.Prelude.{encode_utf8};
ghost use Rattle.page_tokens.specs.Comments.{shown_of};
ghost use Rattle.page_tokens.specs.TextStates.{brackets_of, cdata_step_of};

use super::state::{CdataState, EndTagState, Place, Raw, TagState};
use super::{Progress, REPLACEMENT, State, Tokenizer, append, push};
use crate::parse_error::ParseError;

/// What a character in a CDATA section does.
#[derive(Clone, Copy, Drop)]
enum CdataStep {
    /// What was read may be the end of the section, or it is the end.
    Then(State),
    /// One bracket more, the first of which is text.
    Bracket,
    /// The character is text, and so are the brackets before it.
    Text,
}

fn cdata_step(state: CdataState, c: char) -> CdataStep
    ensures { result ≡ cdata_step_of state c }
{
    match (state, c) {
        (CdataState::Section, ']') => CdataStep::Then(State::Cdata(CdataState::Bracket)),
        (CdataState::Bracket, ']') => CdataStep::Then(State::Cdata(CdataState::End)),
        (CdataState::End, ']') => CdataStep::Bracket,
        (CdataState::End, '>') => CdataStep::Then(State::Data),
        _ => CdataStep::Text,
    }
}

/// Returns the part of a CDATA section's end that was read in this state.
pub(super) fn brackets(state: CdataState) -> &'static str
    ensures { result.now ≡ brackets_of state }
{
    match state {
        CdataState::Section => "",
        CdataState::Bracket => "]",
        CdataState::End => "]]",
    }
}

/// Returns the parse error for a character in the data state, if it is one.
fn data_error(c: char) -> Option<ParseError> {
    match c {
        '\0' => Some(ParseError::UnexpectedNullCharacter),
        _ => None,
    }
}

impl Tokenizer {
    ghost use Rattle.page_tokens.specs.Changes.{Gains, Remembers};
    ghost use Rattle.page_tokens.specs.Standard.{Follows};
    ghost use Rattle.page_tokens.specs.TextStates.{IsReadRaw, TextGoesOn, raw_state_of};

    /// Appends the character to the text and changes to a state.
    pub(super) fn text_then(&mut self, c: char, state: State) -> Progress
        ensures told { IfOk result (λ told. told ≡ None) }
        ensures goes_on { OnOk result (self.new.refused ≡ false →
            TextGoesOn self.old self.new state (encode_utf8 c)) }
    {
        self.state = state;
        push(&mut self.text, c)
    }

    /// Appends the character to the text, with a null replaced, and changes to a state.
    pub(super) fn letter_then(&mut self, c: char, state: State) -> Progress
        ensures told { IfOk result (λ told. told ≡ None) }
        ensures goes_on { OnOk result (self.new.refused ≡ false →
            TextGoesOn self.old self.new state (encode_utf8 (shown_of c))) }
    {
        let shown = self.shown(c);
        self.state = state;
        push(&mut self.text, shown)
    }

    /// Appends a text to the characters that were read.
    pub(super) fn put_text(&mut self, text: &str)
        ensures { self.new.refused ≡ false →
            TextGoesOn self.old self.new self.old.state text.now }
    {
        let put = append(&mut self.text, text);
        self.keep(put);
    }

    /// Appends the character at a place; a null is replaced.
    pub(super) fn letter(&mut self, place: Place, c: char) -> Progress
        ensures told { IfOk result (λ told. told ≡ None) }
        ensures gains { OnOk result (Gains place self.old self.new (encode_utf8 (shown_of c))) }
        ensures memory { Remembers self.old self.new }
    {
        let shown = self.shown(c);
        match place {
            Place::Text => push(&mut self.text, shown),
            Place::Comment => push(&mut self.comment, shown),
            Place::TagName => push(&mut self.tag.name, shown),
            Place::AttrName => push(&mut self.tag.attr_name, shown),
            Place::AttrValue => push(&mut self.tag.attr_value, shown),
        }
    }

    /// Returns the character, or the replacement character for a null, which is a parse error.
    pub(super) fn shown(&mut self, c: char) -> char
        ensures is { result ≡ shown_of c }
        ensures only { self.new ≡ record self.old {
          errors = self.new.errors;
          refused = self.new.refused;
        } }
        ensures memory { Remembers self.old self.new }
    {
        if c != '\0' {
            return c;
        }
        self.error(ParseError::UnexpectedNullCharacter);
        REPLACEMENT
    }

    pub(super) fn in_data(&mut self, c: char) -> Progress
        ensures { self.old.state ≡ State.Data → Follows self.old self.new (c ∷ []) result }
    {
        if c == '&' {
            return self.begin_reference();
        }
        if c == '<' {
            return self.then(State::Tag(TagState::Open));
        }
        self.report(data_error(c));
        self.text_then(c, State::Data)
    }

    pub(super) fn in_rcdata(&mut self, c: char) -> Progress
        ensures { self.old.state ≡ State.Rcdata → Follows self.old self.new (c ∷ []) result }
    {
        if c == '&' {
            return self.begin_reference();
        }
        self.in_raw(Raw::Rcdata, c)
    }

    pub(super) fn in_raw(&mut self, raw: Raw, c: char) -> Progress
        ensures { self.old.state ≡ raw_state_of raw → IsReadRaw raw c →
            Follows self.old self.new (c ∷ []) result }
    {
        if c == '<' {
            return self.then(State::EndTag(raw, EndTagState::LessThan));
        }
        self.letter(Place::Text, c)
    }

    /// Processes a character of a text that nothing ends.
    pub(super) fn in_plaintext(&mut self, c: char) -> Progress
        ensures { self.old.state ≡ State.Plaintext →
            Follows self.old self.new (c ∷ []) result }
    {
        self.letter(Place::Text, c)
    }

    pub(super) fn in_cdata(&mut self, state: CdataState, c: char) -> Progress
        ensures { self.old.state ≡ State.Cdata state →
            Follows self.old self.new (c ∷ []) result }
    {
        match cdata_step(state, c) {
            CdataStep::Then(next) => self.then(next),
            CdataStep::Bracket => self.text_then(c, State::Cdata(CdataState::End)),
            CdataStep::Text => {
                self.put_text(brackets(state));
                self.text_then(c, State::Cdata(CdataState::Section))
            }
        }
    }
}
