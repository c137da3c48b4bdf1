//! The comment states (13.2.5.41 and 13.2.5.43 to 13.2.5.52).

ghost use Rattle.std.specs.Prelude.{◌≡◌, ◌∷◌, ◌++◌, [], IfOk, OnOk, None, Some, false};
ghost use Rattle.std.specs.Str.{encode_utf8_all};
ghost use Rattle.page_tokens.specs.Comments.{came, came_of, begun_end_of};
ghost use Rattle.page_tokens.specs.Comments.{state_again, added_again};

use super::state::{CommentState, Place};
use super::{Progress, State, Tokenizer};
use crate::parse_error::ParseError;
use crate::token::TokenKind;

/// What a character in a comment does.
#[derive(Clone, Copy, Drop)]
enum CommentStep {
    Ends,
    /// The character is part of the comment.
    Letter,
    /// The text is part of the comment, and what follows may be its end.
    Then(&'static str, CommentState),
    /// The text read was not the end of the comment, which continues with the character.
    Again(&'static str),
}

fn comment_step(state: CommentState, c: char) -> CommentStep
    ensures { came result ≡ came_of state c }
{
    match (state, c) {
        (CommentState::Bogus | CommentState::Start | CommentState::StartDash, '>') => {
            CommentStep::Ends
        }
        (CommentState::LessThanBangDashDash | CommentState::End | CommentState::EndBang, '>') => {
            CommentStep::Ends
        }
        (CommentState::Bogus, _) => CommentStep::Letter,
        (CommentState::Start, '-') => CommentStep::Then("", CommentState::StartDash),
        (CommentState::StartDash | CommentState::EndDash, '-') => {
            CommentStep::Then("", CommentState::End)
        }
        (CommentState::LessThan, '!') => CommentStep::Then("!", CommentState::LessThanBang),
        (CommentState::LessThan, '<') => CommentStep::Then("<", CommentState::LessThan),
        (CommentState::LessThanBang, '-') => {
            CommentStep::Then("", CommentState::LessThanBangDash)
        }
        (CommentState::LessThanBangDash, '-') => {
            CommentStep::Then("", CommentState::LessThanBangDashDash)
        }
        (CommentState::LessThanBangDashDash | CommentState::End, '!') => {
            CommentStep::Then("", CommentState::EndBang)
        }
        (CommentState::LessThanBangDashDash | CommentState::End, '-') => {
            CommentStep::Then("-", CommentState::End)
        }
        (CommentState::EndBang, '-') => CommentStep::Then("--!", CommentState::EndDash),
        _ => CommentStep::Again(begun_end(state)),
    }
}

/// Returns the part of a comment's end that was read in this state.
fn begun_end(state: CommentState) -> &'static str
    ensures { result.now ≡ begun_end_of state }
{
    match state {
        CommentState::StartDash | CommentState::LessThanBangDash | CommentState::EndDash => "-",
        CommentState::LessThanBangDashDash | CommentState::End => "--",
        CommentState::EndBang => "--!",
        _ => "",
    }
}

/// Returns the parse error for a character in a comment, if it is one.
fn comment_error(state: CommentState, c: char) -> Option<ParseError> {
    match (state, c) {
        (CommentState::Start | CommentState::StartDash, '>') => {
            Some(ParseError::AbruptClosingOfEmptyComment)
        }
        (CommentState::EndBang, '>') => Some(ParseError::IncorrectlyClosedComment),
        (CommentState::LessThanBangDashDash, '>') => None,
        (CommentState::LessThanBangDashDash, _) => Some(ParseError::NestedComment),
        _ => None,
    }
}

impl Tokenizer {
    ghost use Rattle.page_tokens.specs.Changes.{CommentGoesOn};
    ghost use Rattle.page_tokens.specs.Standard.{Follows};

    pub(super) fn in_comment(&mut self, state: CommentState, c: char) -> Progress
        ensures { self.old.state ≡ State.Comment state → Follows self.old self.new (c ∷ []) result }
    {
        self.report(comment_error(state, c));
        match comment_step(state, c) {
            CommentStep::Ends => self.emit_comment(),
            CommentStep::Letter => self.letter(Place::Comment, c),
            CommentStep::Then(text, state) => self.comment_then(text, state),
            CommentStep::Again(text) => self.comment_again(text, c),
        }
    }

    /// Appends a text to the comment and changes to a state.
    fn comment_then(&mut self, text: &str, state: CommentState) -> Progress
        ensures told { IfOk result (λ told. told ≡ None) }
        ensures goes_on { self.new.refused ≡ false →
            CommentGoesOn self.old self.new state text.now }
    {
        let put = self.comment.push_str(text);
        self.keep(put);
        self.then(State::Comment(state))
    }

    /// Appends the text of what was not an end to the comment, and continues with this character.
    fn comment_again(&mut self, text: &str, c: char) -> Progress
        ensures told { IfOk result (λ told. told ≡ None) }
        ensures goes_on { OnOk result (self.new.refused ≡ false → CommentGoesOn self.old self.new
            (state_again c) (text.now ++ encode_utf8_all (added_again c))) }
    {
        let put = self.comment.push_str(text);
        self.keep(put);
        if c == '<' {
            return self.comment_then("<", CommentState::LessThan);
        }
        if c == '-' {
            return self.then(State::Comment(CommentState::EndDash));
        }
        self.state = State::Comment(CommentState::Comment);
        self.letter(Place::Comment, c)
    }

    /// Ends the comment.
    pub(super) fn emit_comment(&mut self) -> Progress
        ensures told { IfOk result (λ told. told ≡ Some TokenKind.Comment) }
        ensures only { self.new ≡ record self.old { state = State.Data } }
    {
        self.state = State::Data;
        Ok(Some(TokenKind::Comment))
    }
}
