//! The doctype states (13.2.5.53 to 13.2.5.68).

ghost use Rattle.std.specs.Prelude.{◌≡◌, ◌∷◌, [], IfOk, OnOk, None, Some};
ghost use Rattle.page_tokens.specs.DoctypeSteps.{AddsTo, after_name_of, before_id_of, broken};
ghost use Rattle.page_tokens.specs.DoctypeSteps.{doctype_step_of, ends_or_of, keyword_step_of};
ghost use Rattle.page_tokens.specs.DoctypeSteps.{quoted_step_of, spaced_of};
ghost use Rattle.page_tokens.specs.FastPaths.{Appends};
ghost use Rattle.page_tokens.specs.Standard.{keyword_of};

use super::declarations::goes_on;
use super::state::{DoctypeState, Id, Quote};
use super::{Progress, State, Tokenizer, append, is_space, push};
use crate::parse_error::ParseError;
use crate::token::TokenKind;
use std::alloc::{AllocError, Global};
use std::mem;

/// What a character in a doctype does.
#[derive(Clone, Copy, Drop)]
enum DoctypeStep {
    /// Another state follows, or the same one.
    Then(DoctypeState),
    /// The first letter of the name.
    NameBegins,
    NameLetter,
    /// The quote before an identifier.
    IdBegins(Id, Quote),
    IdLetter(Id),
    /// A letter of a keyword, and how many letters of it were read.
    Letter(Id, usize),
    /// The doctype ends. The force-quirks flag is set if this is `true`.
    Ends(bool),
    /// The rest of the doctype is ignored. The force-quirks flag is set if this is `true`.
    Malformed(bool),
}

fn doctype_step(state: DoctypeState, c: char) -> DoctypeStep
    ensures { result ≡ doctype_step_of state c }
{
    match state {
        DoctypeState::Begin | DoctypeState::BeforeName => {
            spaced(
                DoctypeState::BeforeName,
                c,
                ends_or(true, c, DoctypeStep::NameBegins),
            )
        }
        DoctypeState::Name => {
            spaced(
                DoctypeState::AfterName,
                c,
                ends_or(false, c, DoctypeStep::NameLetter),
            )
        }
        DoctypeState::AfterName => spaced(DoctypeState::AfterName, c, after_name(c)),
        DoctypeState::Keyword(id, count) => keyword_step(id, count, c),
        DoctypeState::AfterKeyword(id) | DoctypeState::BeforeId(id) => {
            spaced(DoctypeState::BeforeId(id), c, before_id(id, true, c))
        }
        DoctypeState::Quoted(id, quote) => quoted_step(id, quote, c),
        DoctypeState::AfterId(Id::Public) | DoctypeState::BetweenIds => {
            spaced(DoctypeState::BetweenIds, c, before_id(Id::System, false, c))
        }
        DoctypeState::AfterId(Id::System) => {
            let other = ends_or(false, c, DoctypeStep::Malformed(false));
            spaced(DoctypeState::AfterId(Id::System), c, other)
        }
        DoctypeState::Bogus => ends_or(false, c, DoctypeStep::Malformed(false)),
    }
}

/// Returns the step for a character where white space leads to a state.
fn spaced(next: DoctypeState, c: char, other: DoctypeStep) -> DoctypeStep
    ensures { result ≡ spaced_of next c other }
{
    if is_space(c) {
        return DoctypeStep::Then(next);
    }
    other
}

/// Returns the step for a character where `>` ends the doctype.
fn ends_or(breaks: bool, c: char, other: DoctypeStep) -> DoctypeStep
    ensures { result ≡ ends_or_of breaks c other }
{
    match c {
        '>' => DoctypeStep::Ends(breaks),
        _ => other,
    }
}

/// Returns the step for a character where an identifier may begin.
fn before_id(id: Id, breaks: bool, c: char) -> DoctypeStep
    ensures { result ≡ before_id_of id breaks c }
{
    match c {
        '"' => DoctypeStep::IdBegins(id, Quote::Double),
        '\'' => DoctypeStep::IdBegins(id, Quote::Single),
        _ => ends_or(breaks, c, DoctypeStep::Malformed(true)),
    }
}

/// Returns the step for a character after the name that is not white space.
fn after_name(c: char) -> DoctypeStep
    ensures { result ≡ after_name_of c }
{
    match c {
        'p' | 'P' => DoctypeStep::Letter(Id::Public, 1),
        's' | 'S' => DoctypeStep::Letter(Id::System, 1),
        _ => ends_or(false, c, DoctypeStep::Malformed(true)),
    }
}

/// Returns the step for a character in a keyword of which `count` letters were read.
fn keyword_step(id: Id, count: usize, c: char) -> DoctypeStep
    ensures { result ≡ keyword_step_of id count c }
{
    if !goes_on(keyword(id), count, c.to_ascii_lowercase()) {
        return ends_or(true, c, DoctypeStep::Malformed(true));
    }
    match count {
        5 => DoctypeStep::Then(DoctypeState::AfterKeyword(id)),
        _ => DoctypeStep::Letter(id, count + 1),
    }
}

/// Returns the step for a character in an identifier.
fn quoted_step(id: Id, quote: Quote, c: char) -> DoctypeStep
    ensures { result ≡ quoted_step_of id quote c }
{
    match (quote, c) {
        (Quote::Double, '"') | (Quote::Single, '\'') => {
            DoctypeStep::Then(DoctypeState::AfterId(id))
        }
        _ => ends_or(true, c, DoctypeStep::IdLetter(id)),
    }
}

/// The parse errors of a public or a system identifier.
#[derive(Clone, Copy, Drop)]
struct IdErrors {
    /// The doctype ends before the identifier.
    missing: ParseError,
    /// There is no quote before the identifier.
    missing_quote: ParseError,
    /// There is no whitespace between the keyword and the identifier.
    missing_whitespace: ParseError,
    /// The doctype ends inside the identifier.
    abrupt: ParseError,
}

const PUBLIC_ERRORS: IdErrors = IdErrors {
    missing: ParseError::MissingDoctypePublicIdentifier,
    missing_quote: ParseError::MissingQuoteBeforeDoctypePublicIdentifier,
    missing_whitespace: ParseError::MissingWhitespaceAfterDoctypePublicKeyword,
    abrupt: ParseError::AbruptDoctypePublicIdentifier,
};

const SYSTEM_ERRORS: IdErrors = IdErrors {
    missing: ParseError::MissingDoctypeSystemIdentifier,
    missing_quote: ParseError::MissingQuoteBeforeDoctypeSystemIdentifier,
    missing_whitespace: ParseError::MissingWhitespaceAfterDoctypeSystemKeyword,
    abrupt: ParseError::AbruptDoctypeSystemIdentifier,
};

impl Id {
    fn errors(self) -> IdErrors {
        match self {
            Id::Public => PUBLIC_ERRORS,
            Id::System => SYSTEM_ERRORS,
        }
    }
}

/// Returns the parse error for a character in a doctype, if it is one.
fn doctype_error(state: DoctypeState, c: char) -> Option<ParseError> {
    match state {
        DoctypeState::Keyword(id, count) if !goes_on(keyword(id), count, c.to_ascii_lowercase()) =>
            { Some(ParseError::InvalidCharacterSequenceAfterDoctypeName) }
        DoctypeState::Quoted(id, _) if c == '>' => Some(id.errors().abrupt),
        DoctypeState::Keyword(_, _) | DoctypeState::Quoted(_, _) | DoctypeState::Name => None,
        _ if is_space(c) => None,
        _ if c == '>' => error_before_end(state),
        _ => error_outside(state, c),
    }
}

/// Returns the parse error for the end of a doctype in this state, if it is one.
fn error_before_end(state: DoctypeState) -> Option<ParseError> {
    match state {
        DoctypeState::Begin | DoctypeState::BeforeName => Some(ParseError::MissingDoctypeName),
        DoctypeState::AfterKeyword(id) | DoctypeState::BeforeId(id) => Some(id.errors().missing),
        _ => None,
    }
}

/// Returns the parse error for a character between the parts of a doctype that is not whitespace,
/// if it is one.
fn error_outside(state: DoctypeState, c: char) -> Option<ParseError> {
    match state {
        DoctypeState::Begin => Some(ParseError::MissingWhitespaceBeforeDoctypeName),
        DoctypeState::AfterName if !matches!(c, 'p' | 'P' | 's' | 'S') => {
            Some(ParseError::InvalidCharacterSequenceAfterDoctypeName)
        }
        DoctypeState::AfterKeyword(id) if is_quote(c) => Some(id.errors().missing_whitespace),
        DoctypeState::AfterId(Id::Public) if is_quote(c) => {
            Some(ParseError::MissingWhitespaceBetweenDoctypePublicAndSystemIdentifiers)
        }
        DoctypeState::AfterKeyword(id) | DoctypeState::BeforeId(id) if !is_quote(c) => {
            Some(id.errors().missing_quote)
        }
        DoctypeState::AfterId(Id::Public) | DoctypeState::BetweenIds if !is_quote(c) => {
            Some(SYSTEM_ERRORS.missing_quote)
        }
        DoctypeState::AfterId(Id::System) => {
            Some(ParseError::UnexpectedCharacterAfterDoctypeSystemIdentifier)
        }
        _ => None,
    }
}

fn is_quote(c: char) -> bool {
    matches!(c, '"' | '\'')
}

/// Returns the keyword before an identifier.
fn keyword(id: Id) -> &'static [u8]
    ensures { result.now ≡ keyword_of id }
{
    match id {
        Id::Public => b"public",
        Id::System => b"system",
    }
}

/// Appends a character to a text. Where there is none, the character becomes one.
fn push_to(alloc: Global, text: &mut Option<String>, c: char) -> Progress
    ensures told { IfOk result (λ told. told ≡ None) }
    ensures adds { OnOk result (AddsTo text.old text.new c) }
{
    match text {
        Some(text) => push(text, c),
        None => {
            let mut made = String::new(alloc);
            made.push(c)?;
            *text = Some(made);
            Ok(None)
        }
    }
}

/// Appends a run of characters to a text. Where there is none, the run becomes one.
fn append_to(alloc: Global, text: &mut Option<String>, run: &str) -> Result<(), AllocError>
    ensures { OnOk result (Appends text.old text.new run.now) }
{
    match text {
        Some(text) => append(text, run),
        None => {
            *text = Some(String::from_str(alloc, run)?);
            Ok(())
        }
    }
}

impl Tokenizer {
    ghost use Rattle.page_tokens.specs.Changes.{Remembers};
    ghost use Rattle.page_tokens.specs.FastPaths.{AppendsToId};
    ghost use Rattle.page_tokens.specs.DoctypeSteps.{AddsToId, AddsToName, BeginsId, BeginsName};
    ghost use Rattle.page_tokens.specs.Standard.{Follows};

    pub(super) fn in_doctype(&mut self, state: DoctypeState, c: char) -> Progress
        ensures { self.old.state ≡ State.Doctype state →
            Follows self.old self.new (c ∷ []) result }
    {
        self.report(doctype_error(state, c));
        match doctype_step(state, c) {
            DoctypeStep::Then(next) => self.then(State::Doctype(next)),
            DoctypeStep::NameBegins => self.begin_doctype_name(c),
            DoctypeStep::NameLetter => self.doctype_letter(c),
            DoctypeStep::IdBegins(id, quote) => self.begin_id(id, quote),
            DoctypeStep::IdLetter(id) => self.id_letter(id, c),
            DoctypeStep::Letter(id, count) => {
                self.then(State::Doctype(DoctypeState::Keyword(id, count)))
            }
            DoctypeStep::Ends(breaks) => self.emit_doctype(breaks),
            DoctypeStep::Malformed(breaks) => self.bogus_doctype(c, breaks),
        }
    }

    /// Starts the name of the doctype with its first letter.
    fn begin_doctype_name(&mut self, c: char) -> Progress
        ensures told { IfOk result (λ told. told ≡ None) }
        ensures begins { OnOk result (BeginsName self.old self.new c) }
        ensures memory { Remembers self.old self.new }
    {
        let mut name = String::new(self.alloc);
        let shown = self.shown(c.to_ascii_lowercase());
        name.push(shown)?;
        self.doctype.name = Some(name);
        self.then(State::Doctype(DoctypeState::Name))
    }

    fn doctype_letter(&mut self, c: char) -> Progress
        ensures told { IfOk result (λ told. told ≡ None) }
        ensures adds { OnOk result (AddsToName self.old self.new c) }
        ensures memory { Remembers self.old self.new }
    {
        let shown = self.shown(c.to_ascii_lowercase());
        push_to(self.alloc, &mut self.doctype.name, shown)
    }

    /// Starts an identifier at its quote.
    fn begin_id(&mut self, id: Id, quote: Quote) -> Progress
        ensures told { IfOk result (λ told. told ≡ None) }
        ensures begins { BeginsId id quote self.old self.new }
    {
        let empty = Some(String::new(self.alloc));
        match id {
            Id::Public => {
                self.doctype.public_id = empty;
                self.then(State::Doctype(DoctypeState::Quoted(Id::Public, quote)))
            }
            Id::System => {
                self.doctype.system_id = empty;
                self.then(State::Doctype(DoctypeState::Quoted(Id::System, quote)))
            }
        }
    }

    fn id_letter(&mut self, id: Id, c: char) -> Progress
        ensures told { IfOk result (λ told. told ≡ None) }
        ensures adds { OnOk result (AddsToId id self.old self.new c) }
        ensures memory { Remembers self.old self.new }
    {
        let shown = self.shown(c);
        match id {
            Id::Public => push_to(self.alloc, &mut self.doctype.public_id, shown),
            Id::System => push_to(self.alloc, &mut self.doctype.system_id, shown),
        }
    }

    /// Appends a run of characters to an identifier.
    pub(super) fn push_id(&mut self, id: Id, run: &str) -> Result<(), AllocError>
        ensures { OnOk result (AppendsToId id self.old self.new run.now) }
    {
        match id {
            Id::Public => append_to(self.alloc, &mut self.doctype.public_id, run),
            Id::System => append_to(self.alloc, &mut self.doctype.system_id, run),
        }
    }

    /// Ignores the rest of a malformed doctype. `breaks` sets the force-quirks flag.
    fn bogus_doctype(&mut self, c: char, breaks: bool) -> Progress
        ensures told { IfOk result (λ told. told ≡ None) }
        ensures only { self.new ≡ record self.old {
          state = State.Doctype DoctypeState.Bogus;
          doctype = broken breaks self.old.doctype;
          errors = self.new.errors;
          refused = self.new.refused;
        } }
        ensures memory { Remembers self.old self.new }
    {
        self.break_doctype(breaks);
        let _ = self.shown(c);
        self.then(State::Doctype(DoctypeState::Bogus))
    }

    /// Ends the doctype. `breaks` sets the force-quirks flag.
    fn emit_doctype(&mut self, breaks: bool) -> Progress
        ensures told { IfOk result (λ told. told ≡ Some TokenKind.Doctype) }
        ensures only { self.new ≡ record self.old {
          state = State.Data;
          doctype = broken breaks self.old.doctype;
        } }
    {
        self.break_doctype(breaks);
        self.state = State::Data;
        Ok(Some(TokenKind::Doctype))
    }

    /// Sets the force-quirks flag if `breaks` is `true`.
    fn break_doctype(&mut self, breaks: bool)
        ensures { self.new ≡ record self.old { doctype = broken breaks self.old.doctype } }
    {
        if breaks {
            self.doctype.force_quirks = true;
        }
    }
}
