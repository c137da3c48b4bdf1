//! The fast path for tags and references in their usual form, which are read in one step: no nulls,
//! no carriage returns, and in a tag no references. Any other form is read character by character.

ghost use Rattle.std.specs.Prelude.{◌≡◌, ◌<◌, ◌∷◌, ◌++◌, List, ℕ, get_or, true};
ghost use Rattle.std.specs.Prelude.{IfOk, IfSome, None, OnOk, false};
ghost use Rattle.std.specs.List.{prefix_len};
ghost use Rattle.std.specs.Option.{IsSomeAnd};
ghost use Rattle.std.specs.Str.{IsCharBoundary};
ghost use Rattle.standard_tokens.specs.Machine.{is_value};
ghost use Rattle.page_tokens.specs.FastPaths.{BeginsFrequent, BeginsWithTag, begins_attr_in};
ghost use Rattle.page_tokens.specs.FastPaths.{is_unquoted_in, spaced_of};
ghost use Rattle.page_tokens.specs.Runs.{is_space_of};
ghost use Rattle.page_tokens.specs.Tags.{IsPlainName, written_before};

use super::references::Reference;
use super::runs::{Run, attr_name_len, run_len, tag_name_len};
use super::state::{AttrState, Quote, TagState};
use super::{State, Tokenizer, append};
use crate::token::{TagKind, TokenKind};
use std::alloc::AllocError;

/// Returns the first byte of a text, or a null if it is empty; no fast path starts with a null.
#[inline(always)]
pub fn first_byte(text: &str) -> u8
    ensures { result ≡ get_or text.now 0 0 }
{
    match text.as_bytes() {
        [first, ..] => *first,
        [] => 0,
    }
}

/// Returns the rest of the text, if it starts with this byte.
#[inline(always)]
fn behind(byte: u8, text: &str) -> Option<&str>
    ensures some { (rest : List ℕ) → byte < 128 → text.now ≡ byte ∷ rest →
        IsSomeAnd result (λ left. left.now ≡ rest) }
    ensures cut { byte < 128 → IfSome result (λ left. text.now ≡ byte ∷ left.now) }
{
    if first_byte(text) == byte {
        text.get(1..)
    } else {
        None
    }
}

/// Returns whether a byte is a tab, line feed, form feed or space.
#[inline(always)]
fn is_space_byte(byte: u8) -> bool
    ensures { result ≡ is_space_of byte }
{
    matches!(byte, b'\t' | b'\n' | 0xc | b' ')
}

/// Returns how many spaces come first.
#[inline(always)]
fn spaces_len(text: &str) -> usize
    ensures boundary { IsCharBoundary text.now result }
    ensures len { result ≡ prefix_len is_space_of text.now }
{
    let bytes = text.as_bytes();
    for index in 0..bytes.len() {
        if !is_space_byte(bytes[index]) {
            return index;
        }
    }
    text.len()
}

/// Returns the state after spaces in a tag, if the state is one in which spaces may come, which are
/// no part of the tag.
#[inline(always)]
fn after_spaces(state: State) -> Option<State>
    ensures { result ≡ spaced_of state }
{
    match state {
        State::Tag(TagState::Name)
        | State::Attribute(AttrState::BeforeName | AttrState::Unquoted | AttrState::AfterQuoted) =>
            { Some(State::Attribute(AttrState::BeforeName)) }
        State::Attribute(AttrState::Name | AttrState::AfterName) => {
            Some(State::Attribute(AttrState::AfterName))
        }
        _ => None,
    }
}

/// Returns whether an attribute's name may begin in this state.
#[inline(always)]
fn begins_attr(state: State) -> bool
    ensures { result ≡ begins_attr_in state }
{
    matches!(
        state,
        State::Attribute(AttrState::BeforeName | AttrState::AfterName | AttrState::AfterQuoted)
    )
}

/// Returns whether the state is that of a value without quotes.
#[inline(always)]
fn is_unquoted(state: State) -> bool
    ensures { result ≡ is_unquoted_in state }
{
    matches!(state, State::Attribute(AttrState::Unquoted))
}

/// Returns the kind of a tag and the text from its name on, if a letter follows `<` or `</`.
#[inline(always)]
fn tag_begins(text: &str) -> Option<(TagKind, &str)>
    ensures plain { (kind : TagKind) (name rest : List ℕ) → IsPlainName name →
        text.now ≡ written_before kind name rest → IsSomeAnd result (λ found.
        (found.0 ≡ kind) × (found.1.now ≡ name ++ 62 ∷ rest)) }
    ensures cut { IfSome result (λ found. BeginsWithTag text.now found.0 found.1.now) }
{
    let after = behind(b'<', text)?;
    if first_byte(after).is_ascii_alphabetic() {
        return Some((TagKind::Start, after));
    }
    let named = behind(b'/', after)?;
    if first_byte(named).is_ascii_alphabetic() {
        Some((TagKind::End, named))
    } else {
        None
    }
}

/// Returns the text after a word, if the text starts with the word.
#[inline(always)]
fn after_word<'a>(word: &str, text: &'a str) -> Option<&'a str>
    ensures { IfSome result (λ rest. text.now ≡ word.now ++ rest.now) }
{
    text.strip_prefix(word)
}

/// Returns what one of the most frequent references means, if the text starts with one, and the
/// text after it.
fn plain_reference(text: &str) -> Option<(&'static str, &str)>
    ensures { IfSome result (λ found. BeginsFrequent text.now found.0.now found.1.now) }
{
    if first_byte(text) != b'&' {
        return None;
    }
    if let Some(rest) = after_word("&amp;", text) {
        return Some(("&", rest));
    }
    if let Some(rest) = after_word("&gt;", text) {
        return Some((">", rest));
    }
    if let Some(rest) = after_word("&lt;", text) {
        return Some(("<", rest));
    }
    if let Some(rest) = after_word("&quot;", text) {
        return Some(("\"", rest));
    }
    let rest = after_word("&nbsp;", text)?;
    Some(("\u{a0}", rest))
}

impl Tokenizer {
    ghost use Rattle.page_tokens.specs.FastPaths.{FollowsRun, IsOutside, PutsMeant, ReadsAny};
    ghost use Rattle.page_tokens.specs.FastPaths.{ReadsPlain, begins_with_letter};
    ghost use Rattle.page_tokens.specs.Standard.{AllowsReference};
    ghost use Rattle.page_tokens.specs.StandardStates.{state_of};
    ghost use Rattle.page_tokens.specs.Reading.{IsInText};
    ghost use Rattle.page_tokens.specs.TagStates.{BeginsAttr};
    ghost use Rattle.page_tokens.specs.Tags.{EndsTag, ReadsPlainTag, opening};

    /// Returns whether the fast path may be taken here.
    #[inline(always)]
    fn is_plain(&self) -> bool
        ensures text { IsInText self.now → self.now.errors ≡ None → result ≡ true }
        ensures outside { result ≡ true → IsOutside self.now }
    {
        self.errors.is_none() && !self.after_return && !self.is_in_reference()
    }

    /// Reads what has the usual form at the start of the text, and returns the text after it. If a
    /// tag ends there, its kind is stored in `read`.
    #[inline(always)]
    pub(super) fn read_plain<'a>(
        &mut self,
        text: &'a str,
        read: &mut Option<TokenKind>,
    ) -> Result<&'a str, AllocError>
        ensures tag { ReadsPlainTag self.old self.new text.now read.new result }
        ensures follows { read.old ≡ None →
            ReadsPlain self.old self.new text.now read.new result }
    {
        if !self.is_plain() {
            return Ok(text);
        }
        match self.state {
            State::Data => match tag_begins(text) {
                Some((kind, named)) => self.read_plain_tag(kind, named, read),
                None => self.read_plain_reference(text),
            },
            State::Rcdata => self.read_plain_reference(text),
            State::Attribute(AttrState::Quoted(_)) => self.read_plain_reference(text),
            State::Attribute(AttrState::BeforeName | AttrState::AfterQuoted) => {
                self.read_plain_attrs(text, read)
            }
            _ => Ok(text),
        }
    }

    /// Reads a frequent reference in a text or a value, if the text starts with one.
    fn read_plain_reference<'a>(&mut self, text: &'a str) -> Result<&'a str, AllocError>
        ensures { AllowsReference self.old.state → self.old.reference ≡ Reference.None →
            self.old.after_return ≡ false → FollowsRun self.old self.new text.now result }
    {
        let Some((meant, rest)) = plain_reference(text) else {
            return Ok(text);
        };
        self.put_meant(meant)?;
        Ok(rest)
    }

    /// Appends what a reference means to the attribute value or the text.
    fn put_meant(&mut self, meant: &str) -> Result<(), AllocError>
        ensures { OnOk result
            (PutsMeant (is_value (state_of self.old.state)) self.old self.new meant.now) }
    {
        if self.is_in_value() {
            append(&mut self.tag.attr_value, meant)
        } else {
            append(&mut self.text, meant)
        }
    }

    /// Reads a tag from its name on, as far as it has the usual form.
    fn read_plain_tag<'a>(
        &mut self,
        kind: TagKind,
        text: &'a str,
        read: &mut Option<TokenKind>,
    ) -> Result<&'a str, AllocError>
        ensures follows { IsInText self.old → read.old ≡ None → begins_with_letter text.now ≡ true →
            ReadsPlain self.old self.new (opening kind ++ text.now) read.new result }
        ensures plain { (name rest : List ℕ) → IsInText self.old → self.old.errors ≡ None →
            IsPlainName name → text.now ≡ name ++ 62 ∷ rest → IfOk result (λ left.
            (left.now ≡ rest) × (read.new ≡ Some TokenKind.Tag)
            × EndsTag kind name self.old self.new) }
    {
        let (name, rest) = text.split_at(tag_name_len(text));
        self.tag.begin(self.alloc, kind);
        self.tag.name.push_str(name)?;
        if let Some(after) = behind(b'>', rest) {
            *read = self.emit_tag()?;
            return Ok(after);
        }
        self.state = State::Tag(TagState::Name);
        self.read_plain_attrs(rest, read)
    }

    /// Reads attributes in their usual form, and the end of their tag.
    fn read_plain_attrs<'a>(
        &mut self,
        text: &'a str,
        read: &mut Option<TokenKind>,
    ) -> Result<&'a str, AllocError>
        ensures { read.old ≡ None → ReadsPlain self.old self.new text.now read.new result }
    {
        let mut rest = text;
        for _ in 0..text.len() {
            let left = self.read_tag_part(rest, read)?;
            if read.is_some() {
                return Ok(left);
            }
            if left.len() >= rest.len() {
                return Ok(left);
            }
            rest = left;
        }
        Ok(rest)
    }

    /// Reads spaces, and then one attribute or the end of the tag.
    #[inline(always)]
    fn read_tag_part<'a>(
        &mut self,
        text: &'a str,
        read: &mut Option<TokenKind>,
    ) -> Result<&'a str, AllocError>
        ensures { read.old ≡ None → ReadsPlain self.old self.new text.now read.new result }
    {
        if !self.is_plain() {
            return Ok(text);
        }
        let rest = self.skip_spaces(text);
        if let Some(after) = behind(b'>', rest) {
            return self.read_greater(rest, after, read);
        }
        if let Some(after) = behind(b'/', rest) {
            return self.read_slash(rest, after, read);
        }
        self.read_plain_attr(rest)
    }

    /// Reads spaces in a tag, outside of values in quotes.
    #[inline(always)]
    fn skip_spaces<'a>(&mut self, text: &'a str) -> &'a str
        ensures only { self.new ≡ record self.old { state = self.new.state } }
        ensures follows { IsOutside self.old →
            ReadsAny self.old self.new text.now result.now None }
    {
        let count = spaces_len(text);
        if count == 0 {
            return text;
        }
        let Some(state) = after_spaces(self.state) else {
            return text;
        };
        self.state = state;
        let (_, rest) = text.split_at(count);
        rest
    }

    /// Reads the `>` at the start of the text as the end of the tag, if it is one in this state.
    #[inline(always)]
    fn read_greater<'a>(
        &mut self,
        text: &'a str,
        after: &'a str,
        read: &mut Option<TokenKind>,
    ) -> Result<&'a str, AllocError>
        ensures { IsOutside self.old → read.old ≡ None → text.now ≡ 62 ∷ after.now →
            ReadsPlain self.old self.new text.now read.new result }
    {
        let Some(_) = after_spaces(self.state) else {
            return Ok(text);
        };
        *read = self.emit_tag()?;
        Ok(after)
    }

    /// Reads the `/` at the start of the text, and a `>` after it, if the tag can end there.
    fn read_slash<'a>(
        &mut self,
        text: &'a str,
        after: &'a str,
        read: &mut Option<TokenKind>,
    ) -> Result<&'a str, AllocError>
        ensures { IsOutside self.old → read.old ≡ None → text.now ≡ 47 ∷ after.now →
            ReadsPlain self.old self.new text.now read.new result }
    {
        let Some(_) = after_spaces(self.state) else {
            return Ok(text);
        };
        if is_unquoted(self.state) {
            return Ok(text);
        }
        self.state = State::Tag(TagState::SelfClosing);
        let Some(rest) = behind(b'>', after) else {
            return Ok(after);
        };
        self.tag.self_closing = true;
        *read = self.emit_tag()?;
        Ok(rest)
    }

    /// Reads an attribute, if one begins here.
    #[inline(always)]
    fn read_plain_attr<'a>(&mut self, text: &'a str) -> Result<&'a str, AllocError>
        ensures { IsOutside self.old → FollowsRun self.old self.new text.now result }
    {
        let (name, rest) = text.split_at(attr_name_len(text));
        if name.is_empty() {
            return Ok(text);
        }
        if !begins_attr(self.state) {
            return Ok(text);
        }
        self.begin_plain_attr(name)?;
        let Some(written) = behind(b'=', rest) else {
            return Ok(rest);
        };
        self.state = State::Attribute(AttrState::BeforeValue);
        self.read_plain_value(written)
    }

    /// Starts an attribute with this name, after the one before it is finished.
    #[inline(always)]
    fn begin_plain_attr(&mut self, name: &str) -> Result<(), AllocError>
        ensures place { self.new ≡ record self.old { state = self.new.state; tag = self.new.tag } }
        ensures state { OnOk result (self.new.state ≡ State.Attribute AttrState.Name) }
        ensures begins { OnOk result (self.new.refused ≡ false →
            BeginsAttr self.old self.new name.now) }
    {
        self.finish_attr()?;
        self.state = State::Attribute(AttrState::Name);
        append(&mut self.tag.attr_name, name)
    }

    /// Reads the value of an attribute, as far as it is a run of characters.
    #[inline(always)]
    fn read_plain_value<'a>(&mut self, text: &'a str) -> Result<&'a str, AllocError>
        ensures { IsOutside self.old → self.old.state ≡ State.Attribute AttrState.BeforeValue →
            FollowsRun self.old self.new text.now result }
    {
        if let Some(inner) = behind(b'"', text) {
            self.state = State::Attribute(AttrState::Quoted(Quote::Double));
            return self.read_plain_quoted(Quote::Double, inner);
        }
        if let Some(inner) = behind(b'\'', text) {
            self.state = State::Attribute(AttrState::Quoted(Quote::Single));
            return self.read_plain_quoted(Quote::Single, inner);
        }
        self.read_plain_unquoted(text)
    }

    /// Reads a value in quotes, whose opening quote is read, up to what needs another state.
    fn read_plain_quoted<'a>(&mut self, quote: Quote, text: &'a str) -> Result<&'a str, AllocError>
        ensures { IsOutside self.old → self.old.state ≡ State.Attribute (AttrState.Quoted quote) →
            FollowsRun self.old self.new text.now result }
    {
        let (value, rest) = text.split_at(run_len(Run::AttrValue(quote), text));
        if value.is_empty() {
            return Ok(self.end_plain_quoted(quote, text));
        }
        append(&mut self.tag.attr_value, value)?;
        Ok(self.end_plain_quoted(quote, rest))
    }

    /// Reads the closing quote of a value, if it comes next.
    #[inline(always)]
    fn end_plain_quoted<'a>(&mut self, quote: Quote, text: &'a str) -> &'a str
        ensures { IsOutside self.old → self.old.state ≡ State.Attribute (AttrState.Quoted quote) →
            ReadsAny self.old self.new text.now result.now None }
    {
        let Some(after) = behind(quote.byte(), text) else {
            return text;
        };
        self.state = State::Attribute(AttrState::AfterQuoted);
        after
    }

    /// Reads a value without quotes, up to what ends it or needs another state.
    fn read_plain_unquoted<'a>(&mut self, text: &'a str) -> Result<&'a str, AllocError>
        ensures { IsOutside self.old → self.old.state ≡ State.Attribute AttrState.BeforeValue →
            FollowsRun self.old self.new text.now result }
    {
        let (value, rest) = text.split_at(run_len(Run::UnquotedValue, text));
        if value.is_empty() {
            return Ok(text);
        }
        self.state = State::Attribute(AttrState::Unquoted);
        append(&mut self.tag.attr_value, value)?;
        Ok(rest)
    }
}
