//! Parse errors, which are collected only on request.

ghost use Rattle.std.specs.Prelude.{◌≡◌, IfOk, IsOk, None, false};

use super::{Progress, Tokenizer};
use crate::parse_error::{ErrorAt, ParseError};
use crate::token::TokenKind;
use std::alloc::AllocError;
use std::mem;

/// Returns the parse error for a character that may not occur in a page, if it is one (13.2.3.5).
fn input_error(c: char) -> Option<ParseError> {
    if is_noncharacter(u32::from(c)) {
        return Some(ParseError::NoncharacterInInputStream);
    }
    match c {
        '\0' | '\t' | '\n' | '\u{c}' | '\r' => None,
        '\u{1}'..='\u{1f}' | '\u{7f}'..='\u{9f}' => Some(ParseError::ControlCharacterInInputStream),
        _ => None,
    }
}

/// Returns whether the code point is a noncharacter.
pub fn is_noncharacter(number: u32) -> bool {
    (number >= 0xfdd0 && number <= 0xfdef) || number & 0xfffe == 0xfffe
}

impl Tokenizer {
    ghost use Rattle.page_tokens.specs.Changes.{Remembers};
    ghost use Rattle.page_tokens.specs.StandardPages.{KeepsPlace};

    /// Sets whether parse errors are collected from now on. Those collected before are dropped.
    pub fn report_errors(&mut self, wanted: bool)
        ensures none { wanted ≡ false → self.new.errors ≡ None }
        ensures only { self.new ≡ record self.old { errors = self.new.errors } }
        ensures place { KeepsPlace self.old self.new }
    {
        self.errors = if wanted {
            Some(Vec::new(self.alloc))
        } else {
            None
        };
    }

    /// Takes the parse errors that were collected, in the order in which they were found. In each
    /// part of the page, characters that aren't allowed are found before the other errors.
    pub fn take_errors(&mut self) -> Vec<ErrorAt>
        ensures only { self.new ≡ record self.old { errors = self.new.errors } }
        ensures place { KeepsPlace self.old self.new }
    {
        match &mut self.errors {
            Some(errors) => mem::replace(errors, Vec::new(self.alloc)),
            None => Vec::new(self.alloc),
        }
    }

    /// Collects a parse error at the character that is being read. If memory runs out for it, that
    /// is remembered in `refused`.
    pub(super) fn error(&mut self, error: ParseError)
        ensures none { self.old.errors ≡ None → self.new ≡ self.old }
        ensures only { self.new ≡ record self.old {
          errors = self.new.errors;
          refused = self.new.refused;
        } }
        ensures memory { Remembers self.old self.new }
    {
        let offset = self.offset;
        let Some(errors) = &mut self.errors else {
            return;
        };
        if note(errors, offset, error).is_err() {
            self.refused = true;
        }
    }

    /// Collects a parse error, if there is one.
    pub(super) fn report(&mut self, error: Option<ParseError>)
        ensures only { self.new ≡ record self.old {
          errors = self.new.errors;
          refused = self.new.refused;
        } }
        ensures memory { Remembers self.old self.new }
    {
        if let Some(error) = error {
            self.error(error);
        }
    }

    /// Remembers that memory ran out; the call that reads the character then fails.
    pub(super) fn keep(&mut self, done: Result<(), AllocError>)
        ensures only { self.new ≡ record self.old { refused = self.new.refused } }
        ensures memory { self.new.refused ≡ false → (self.old.refused ≡ false) × IsOk done }
    {
        if done.is_err() {
            self.refused = true;
        }
    }

    /// Returns `made`, or an error if memory ran out.
    pub(super) fn settled(&self, made: Option<TokenKind>) -> Progress
        ensures is { IfOk result (λ kind. kind ≡ made) }
        ensures memory { IfOk result (λ kind. self.now.refused ≡ false) }
    {
        if self.refused {
            return Err(AllocError);
        }
        Ok(made)
    }

    /// Collects an error for each character of the text that may not occur in a page.
    pub(super) fn check_input(&mut self, stretch: &str) -> Result<(), AllocError>
        ensures { self.new ≡ record self.old { errors = self.new.errors } }
    {
        let offset = self.offset;
        match &mut self.errors {
            Some(errors) => note_input(errors, offset, stretch),
            None => Ok(()),
        }
    }
}

/// Appends an error at an offset.
fn note(errors: &mut Vec<ErrorAt>, offset: usize, error: ParseError) -> Result<(), AllocError> {
    errors.push(ErrorAt { offset, error })?;
    Ok(())
}

/// Appends an error for each character that may not occur in a page.
fn note_input(errors: &mut Vec<ErrorAt>, offset: usize, text: &str) -> Result<(), AllocError> {
    for (at, c) in text.char_indices() {
        note_char(errors, offset.saturating_add(at), c)?;
    }
    Ok(())
}

/// Appends an error for the character, if it may not occur in a page.
fn note_char(errors: &mut Vec<ErrorAt>, offset: usize, c: char) -> Result<(), AllocError> {
    match input_error(c) {
        Some(error) => note(errors, offset, error),
        None => Ok(()),
    }
}
