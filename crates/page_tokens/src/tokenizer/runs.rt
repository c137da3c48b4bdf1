//! The calls that read a page, and the runs of characters that a state copies unchanged.

ghost use Rattle.std.specs.Prelude.{◌≡◌, ◌<◌, ◌≤◌, ◌++◌, ℕ, [], true, false, IfOk, IfSome, OnOk};
ghost use Rattle.std.specs.Prelude.{None, encode_utf8, length, slice_index_or};
ghost use Rattle.std.specs.Str.{IsCharBoundary};
ghost use Rattle.page_tokens.specs.Runs.{ends_text, ends_tag_name, tag_name_len_of, IsRun};
ghost use Rattle.page_tokens.specs.RunEnds.{ends_attr_name, ends_value, ends_unquoted_value};
ghost use Rattle.page_tokens.specs.RunEnds.{ends_run, run_in, run_len_of};

use super::lanes::skip;
use super::plain::first_byte;
use super::state::{
    AttrState, CdataState, CommentState, DoctypeState, DoubleState, Id, Quote, ScriptState, Seen,
    TagState,
};
use super::{Rest, State, Tokenizer, append};
use crate::token::{Token, TokenKind};
use std::alloc::AllocError;

/// The places whose characters are copied unchanged.
#[derive(Clone, Copy, Drop)]
pub enum Run {
    Text,
    Raw,
    Plaintext,
    Escaped,
    Comment,
    BogusComment,
    TagName,
    AttrName,
    AttrValue(Quote),
    UnquotedValue,
    DoctypeId(Id, Quote),
    Cdata,
}

/// Returns which characters the state copies unchanged, if it copies any.
fn run_of(state: State) -> Option<Run>
    ensures data { state ≡ State.Data → result ≡ Some Run.Text }
    ensures is { result ≡ run_in state }
{
    match state {
        State::Data | State::Rcdata => Some(Run::Text),
        State::Rawtext | State::Script => Some(Run::Raw),
        State::Plaintext => Some(Run::Plaintext),
        State::ScriptData(ScriptState::Escaped | ScriptState::Double(DoubleState::Escaped)) => {
            Some(Run::Escaped)
        }
        State::Comment(CommentState::Comment) => Some(Run::Comment),
        State::Comment(CommentState::Bogus) => Some(Run::BogusComment),
        State::Tag(TagState::Name) => Some(Run::TagName),
        State::Attribute(AttrState::Name) => Some(Run::AttrName),
        State::Attribute(AttrState::Quoted(quote)) => Some(Run::AttrValue(quote)),
        State::Attribute(AttrState::Unquoted) => Some(Run::UnquotedValue),
        State::Doctype(DoctypeState::Quoted(id, quote)) => Some(Run::DoctypeId(id, quote)),
        State::Cdata(CdataState::Section) => Some(Run::Cdata),
        _ => None,
    }
}

/// Returns whether a byte ends a run of text: null, carriage return, `&` or `<`.
#[inline(always)]
fn ends_text(byte: u8) -> bool
    ensures { result ≡ ends_text byte }
{
    matches!(byte, 0 | b'\r' | b'&' | b'<')
}

/// Returns whether a byte ends a tag name.
#[inline(always)]
fn ends_tag_name(byte: u8) -> bool
    ensures ascii { result ≡ true → byte < 128 }
    ensures value { result ≡ ends_tag_name byte }
{
    byte <= b'>' && matches!(byte, 0 | b'\t' | b'\n' | 0xc | b'\r' | b' ' | b'/' | b'>')
}

/// Returns whether a byte ends an attribute name, or is a parse error in one.
#[inline(always)]
fn ends_attr_name(byte: u8) -> bool
    ensures ascii { result ≡ true → byte < 128 }
    ensures value { result ≡ ends_attr_name byte }
{
    byte <= b'>' && (ends_tag_name(byte) || matches!(byte, b'"' | b'\'' | b'<' | b'='))
}

/// Returns whether a byte ends a run in a double-quoted value.
#[inline(always)]
fn ends_value(byte: u8) -> bool
    ensures ascii { result ≡ true → byte < 128 }
    ensures value { result ≡ ends_value Quote.Double byte }
{
    matches!(byte, 0 | b'\r' | b'&' | b'"')
}

/// Returns whether a byte ends an unquoted value, starts a reference, or is a parse error there.
#[inline(always)]
fn ends_unquoted_value(byte: u8) -> bool
    ensures { result ≡ ends_unquoted_value byte }
{
    byte <= b'`'
        && (matches!(byte, 0 | b'\t' | b'\n' | 0xc | b'\r' | b' ' | b'&' | b'>')
            || matches!(byte, b'"' | b'\'' | b'<' | b'=' | b'`'))
}

impl Run {
    /// Returns whether a byte ends the run. A null and a carriage return end every run.
    #[inline(always)]
    fn ends_at(self, byte: u8) -> bool
        ensures ascii { result ≡ true → byte < 128 }
        ensures value { result ≡ ends_run self byte }
    {
        if byte >= 128 {
            return false;
        }
        match self {
            Run::Text => ends_text(byte),
            Run::Raw => matches!(byte, 0 | b'\r' | b'<'),
            Run::Plaintext => matches!(byte, 0 | b'\r'),
            Run::Escaped | Run::Comment => matches!(byte, 0 | b'\r' | b'-' | b'<'),
            Run::BogusComment => matches!(byte, 0 | b'\r' | b'>'),
            Run::TagName => ends_tag_name(byte),
            Run::AttrName => ends_attr_name(byte),
            Run::AttrValue(Quote::Double) => ends_value(byte),
            Run::AttrValue(Quote::Single) => matches!(byte, 0 | b'\r' | b'&' | b'\''),
            Run::UnquotedValue => ends_unquoted_value(byte),
            Run::DoctypeId(_, Quote::Double) => matches!(byte, 0 | b'\r' | b'>' | b'"'),
            Run::DoctypeId(_, Quote::Single) => matches!(byte, 0 | b'\r' | b'>' | b'\''),
            Run::Cdata => matches!(byte, 0 | b'\r' | b']'),
        }
    }
}

/// Returns how many bytes come before the first that ends a run of text.
fn text_len(text: &str) -> usize
    ensures boundary { IsCharBoundary text.now result }
    ensures len { result ≡ run_len_of Run.Text text.now }
{
    let bytes = text.as_bytes();
    for index in skip(bytes, *b"\0\r&<")..bytes.len() {
        if ends_text(bytes[index]) {
            return index;
        }
    }
    text.len()
}

/// Returns how many bytes come before the first that ends a tag name.
pub fn tag_name_len(text: &str) -> usize
    ensures boundary { IsCharBoundary text.now result }
    ensures len { result ≡ tag_name_len_of text.now }
{
    let bytes = text.as_bytes();
    for index in 0..bytes.len() {
        if ends_tag_name(bytes[index]) {
            return index;
        }
    }
    text.len()
}

/// Returns how many bytes come before the first that ends an attribute name.
pub fn attr_name_len(text: &str) -> usize
    ensures boundary { IsCharBoundary text.now result }
    ensures len { result ≡ run_len_of Run.AttrName text.now }
{
    let bytes = text.as_bytes();
    for index in 0..bytes.len() {
        if ends_attr_name(bytes[index]) {
            return index;
        }
    }
    text.len()
}

/// Returns how many bytes come before the first that ends a run in a double-quoted value.
pub fn value_len(text: &str) -> usize
    ensures boundary { IsCharBoundary text.now result }
    ensures len { result ≡ run_len_of (Run.AttrValue Quote.Double) text.now }
{
    let bytes = text.as_bytes();
    for index in skip(bytes, *b"\0\r&\"")..bytes.len() {
        if ends_value(bytes[index]) {
            return index;
        }
    }
    text.len()
}

/// Returns how many bytes can be skipped on the way to the first that ends the run.
fn skipped_len(run: Run, bytes: &[u8]) -> usize
    ensures within { result ≤ length bytes.now }
    ensures none { (k : ℕ) → k < result →
        ends_run run (slice_index_or bytes.now k 0) ≡ false }
{
    match run {
        Run::Raw => skip(bytes, *b"\0\r<<"),
        Run::Escaped => skip(bytes, *b"\0\r-<"),
        Run::Comment => skip(bytes, *b"\0\r-<"),
        _ => 0,
    }
}

/// Returns how many bytes come before the first that ends the run.
pub fn run_len(run: Run, text: &str) -> usize
    ensures boundary { IsCharBoundary text.now result }
    ensures len { result ≡ run_len_of run text.now }
    ensures text { run ≡ Run.Text → IsRun text.now → result ≡ length text.now }
{
    match run {
        Run::Text => return text_len(text),
        Run::TagName => return tag_name_len(text),
        Run::AttrName => return attr_name_len(text),
        Run::AttrValue(Quote::Double) => return value_len(text),
        _ => {}
    }
    let bytes = text.as_bytes();
    for index in skipped_len(run, bytes)..bytes.len() {
        if run.ends_at(bytes[index]) {
            return index;
        }
    }
    text.len()
}

/// Returns whether a part of the text that is read at once ends with this byte, where parse errors
/// are collected: with `>`, which can end a token, and with `[`, behind which tree construction can
/// have to process characters first.
fn ends_part(byte: u8) -> bool
    ensures { result ≡ true → byte < 128 }
{
    byte == b'>' || byte == b'['
}

/// Returns the length of the part of the text that is read at once where parse errors are
/// collected.
fn part_len(text: &str) -> usize
    ensures boundary { IsCharBoundary text.now result }
    ensures some { 0 < length text.now → 0 < result }
{
    let bytes = text.as_bytes();
    for index in 0..bytes.len() {
        if ends_part(bytes[index]) {
            return index + 1;
        }
    }
    text.len()
}

/// Splits off the first character.
#[inline(always)]
fn split_char(text: &str) -> Option<(char, &str)>
    ensures none { result ≡ None → text.now ≡ [] }
    ensures less { IfSome result (λ found. length found.1.now < length text.now) }
    ensures cut { IfSome result (λ found. text.now ≡ encode_utf8 found.0 ++ found.1.now) }
{
    let mut chars = text.chars();
    let c = chars.next()?;
    Some((c, chars.as_str()))
}

impl Tokenizer {
    ghost use Rattle.page_tokens.specs.FastPaths.{CopiesRun, FollowsRun, IsApart};
    ghost use Rattle.page_tokens.specs.Reading.{IsInText, AddsText};
    ghost use Rattle.page_tokens.specs.Reading.{LeavesLess, ReadsRun, ReadsWhole};
    ghost use Rattle.page_tokens.specs.StandardPages.{ReadsAsStandard, ReadsOnAsStandard, ReadsUpTo};
    ghost use Rattle.page_tokens.specs.Tags.{ReadsPlainTag, TakesPlainTag};
    ghost use Rattle.page_tokens.specs.TakenTokens.{TakesUpTo};
    ghost use Rattle.page_tokens.specs.TextStates.{wants_characters_of};

    /// Reads the text up to the end of its first token, and returns the text after it. The token is
    /// stored in `token`, which keeps its value if no token ends. Fails only when memory runs out.
    pub fn read_token<'a>(&mut self, text: &'a str, token: &mut Option<Token>) -> Rest<'a>
        ensures text { ReadsRun self.old self.new text.now token.old token.new result }
        ensures plain_tag { TakesPlainTag self.old self.new text.now token.new result }
        ensures standard { IfOk result (λ rest.
            TakesUpTo self.old self.new text.now rest.now token.old token.new) }
        ensures less { LeavesLess text.now result }
    {
        let mut kind = None;
        let rest = self.read_kind(text, &mut kind)?;
        self.put_token(kind, token);
        Ok(rest)
    }

    /// Reads the text up to the end of its first token, and returns the text after it. The kind of
    /// the token is stored in `kind`, which keeps its value if no token ends; the tokenizer keeps
    /// the token itself, for [`Tokenizer::tag`] and the like. With no token, the rest is empty,
    /// unless parse errors are collected or [`Tokenizer::wants_characters`]. Fails only when memory
    /// runs out.
    pub fn read_kind<'a>(&mut self, text: &'a str, kind: &mut Option<TokenKind>) -> Rest<'a>
        ensures text { ReadsRun self.old self.new text.now kind.old kind.new result }
        ensures plain_tag { ReadsPlainTag self.old self.new text.now kind.new result }
        ensures standard { IfOk result (λ rest.
            ReadsUpTo self.old self.new text.now rest.now kind.old kind.new) }
        ensures less { LeavesLess text.now result }
    {
        if self.errors.is_some() {
            return self.read_checked(text, kind);
        }
        self.read_settled(text, kind)
    }

    /// Reads a part of the text up to the end of its first token, and returns the text after it. An
    /// error is collected for each character of the part that may not occur in a page. No token ends
    /// before the last character of a part, so that the whole part is read.
    #[inline(never)]
    fn read_checked<'a>(&mut self, text: &'a str, kind: &mut Option<TokenKind>) -> Rest<'a>
        ensures standard { IfOk result (λ rest.
            ReadsUpTo self.old self.new text.now rest.now kind.old kind.new) }
        ensures less { LeavesLess text.now result }
    {
        let (part, _) = text.split_at(part_len(text));
        self.check_input(part)?;
        let left = self.read_settled(part, kind)?;
        let (_, rest) = text.split_at(part.len() - left.len());
        Ok(rest)
    }

    /// Reads the text up to the end of its first token, and returns the text after it. Fails also if
    /// memory ran out for a parse error.
    fn read_settled<'a>(&mut self, text: &'a str, kind: &mut Option<TokenKind>) -> Rest<'a>
        ensures text { ReadsRun self.old self.new text.now kind.old kind.new result }
        ensures plain_tag { ReadsPlainTag self.old self.new text.now kind.new result }
        ensures standard { IfOk result (λ rest.
            ReadsUpTo self.old self.new text.now rest.now kind.old kind.new) }
        ensures less { LeavesLess text.now result }
    {
        let rest = self.read_next(text, kind)?;
        if self.refused {
            return Err(AllocError);
        }
        Ok(rest)
    }

    /// Reads the text up to the end of its first token. That memory ran out for a parse error is
    /// only remembered.
    #[inline(always)]
    fn read_next<'a>(&mut self, text: &'a str, kind: &mut Option<TokenKind>) -> Rest<'a>
        ensures text { ReadsRun self.old self.new text.now kind.old kind.new result }
        ensures plain_tag { ReadsPlainTag self.old self.new text.now kind.new result }
        ensures follows { ReadsAsStandard self.old self.new text.now kind.old kind.new result }
        ensures less { LeavesLess text.now result }
    {
        if first_byte(text) == b'<' {
            return self.read_mark(text, kind);
        }
        let rest = self.read_run(text)?;
        if rest.is_empty() {
            return Ok(rest);
        }
        self.read_mark(rest, kind)
    }

    /// Reads the text up to the end of a token, without looking for a run at its start.
    fn read_mark<'a>(&mut self, text: &'a str, kind: &mut Option<TokenKind>) -> Rest<'a>
        ensures tag { ReadsPlainTag self.old self.new text.now kind.new result }
        ensures follows { ReadsAsStandard self.old self.new text.now kind.old kind.new result }
        ensures less { LeavesLess text.now result }
    {
        let mut made = None;
        let rest = self.read_front(text, &mut made)?;
        if made.is_some() {
            *kind = made;
            return Ok(rest);
        }
        self.read_to_token(rest, kind)
    }

    /// Returns whether `<![` was just read with characters before it. Tree construction has to
    /// process these and [`Tokenizer::set_in_foreign`] has to be called before the next character is
    /// read: whether a CDATA section starts here depends on the element in which they end, which may
    /// be an HTML element that they reopen.
    pub fn wants_characters(&self) -> bool
        ensures data { self.now.state ≡ State.Data → result ≡ false }
        ensures is { result ≡ wants_characters_of self.now }
    {
        match self.state {
            State::Declaration(Seen::Cdata(_)) => !self.text.is_empty(),
            _ => false,
        }
    }

    /// Reads the text up to the end of a token, if one ends in it, or to where tree construction
    /// has to process the characters first.
    fn read_to_token<'a>(&mut self, text: &'a str, kind: &mut Option<TokenKind>) -> Rest<'a>
        ensures follows { ReadsOnAsStandard self.old self.new text.now kind.old kind.new result }
        ensures within { IfOk result (λ rest. length rest.now ≤ length text.now) }
    {
        let mut made = None;
        let mut rest = text;
        for _ in 0..text.len() {
            let left = self.read_run(rest)?;
            if left.is_empty() {
                return Ok(left);
            }
            if self.wants_characters() {
                return Ok(left);
            }
            rest = self.read_front(left, &mut made)?;
            if made.is_some() {
                *kind = made;
                return Ok(rest);
            }
        }
        Ok(rest)
    }

    /// Reads what has the usual form at the start of the text, or else one character.
    fn read_front<'a>(&mut self, text: &'a str, kind: &mut Option<TokenKind>) -> Rest<'a>
        ensures tag { ReadsPlainTag self.old self.new text.now kind.new result }
        ensures follows { kind.old ≡ None →
            ReadsAsStandard self.old self.new text.now kind.old kind.new result }
        ensures less { LeavesLess text.now result }
    {
        let rest = self.read_plain(text, kind)?;
        if rest.len() < text.len() {
            self.offset = self
                .offset
                .saturating_add(text.len().saturating_sub(rest.len()));
            return Ok(rest);
        }
        self.read_char(text, kind)
    }

    /// Reads one character.
    #[inline(never)]
    fn read_char<'a>(&mut self, text: &'a str, kind: &mut Option<TokenKind>) -> Rest<'a>
        ensures follows { kind.old ≡ None →
            ReadsAsStandard self.old self.new text.now kind.old kind.new result }
        ensures less { LeavesLess text.now result }
    {
        let Some((c, after)) = split_char(text) else {
            return Ok(text);
        };
        let made = self.step(c)?;
        *kind = self.settled(made)?;
        self.offset = self.offset.saturating_add(c.len_utf8());
        Ok(after)
    }

    /// Copies the run at the start of the text as one slice, and returns the text after it.
    fn read_run<'a>(&mut self, text: &'a str) -> Result<&'a str, AllocError>
        ensures less { IfOk result (λ rest. length rest.now ≤ length text.now) }
        ensures text { IsInText self.old → IsRun text.now →
            ReadsWhole self.old self.new text.now result }
        ensures follows { FollowsRun self.old self.new text.now result }
        ensures apart { OnOk result (IsApart self.old self.new) }
    {
        if self.after_return || self.is_in_reference() {
            return Ok(text);
        }
        let Some(run) = run_of(self.state) else {
            return Ok(text);
        };
        let (front, rest) = text.split_at(run_len(run, text));
        if front.is_empty() {
            return Ok(text);
        }
        self.push_run(run, front)?;
        self.offset = self.offset.saturating_add(front.len());
        Ok(rest)
    }

    /// Appends a run to what its state collects.
    fn push_run(&mut self, run: Run, front: &str) -> Result<(), AllocError>
        ensures text { run ≡ Run.Text → OnOk result (AddsText self.old self.new front.now) }
        ensures copies { OnOk result (CopiesRun run self.old self.new front.now) }
    {
        match run {
            Run::Text | Run::Raw | Run::Plaintext | Run::Escaped | Run::Cdata => {
                append(&mut self.text, front)
            }
            Run::DoctypeId(id, _) => self.push_id(id, front),
            Run::Comment | Run::BogusComment => append(&mut self.comment, front),
            Run::TagName => append(&mut self.tag.name, front),
            Run::AttrName => append(&mut self.tag.attr_name, front),
            Run::AttrValue(_) | Run::UnquotedValue => append(&mut self.tag.attr_value, front),
        }
    }
}
