//! End tags in RCDATA, RAWTEXT and script data (13.2.5.9 to 13.2.5.17 and 13.2.5.23 to 13.2.5.25).
//! Such text ends only at an end tag with the name of the last start tag.

ghost use Rattle.std.specs.Prelude.{◌≡◌, ◌↔◌, ◌∷◌, [], IfOk, IsTrue, OnOk, None, false, map};
ghost use Rattle.std.specs.Prelude.{string_bytes, encode_utf8};
ghost use Rattle.std.specs.Char.{to_ascii_lowercase};
ghost use Rattle.page_tokens.specs.RawEndTags.{end_tag_step_of, less_than_step_of};

use super::state::{AttrState, EndTagState, Raw, ScriptState, TagState};
use super::{Progress, State, Tokenizer, append, is_space, push};
use crate::token::TagKind;

/// What a character after the `<` in such a text does.
#[derive(Clone, Copy, Drop)]
enum LessThanStep {
    /// What follows may be an end tag.
    EndTag,
    /// Script data may be escaped.
    Escape,
    /// Escaped script data may be escaped twice.
    Double,
    /// The `<` is text.
    Text,
}

/// What a character after the name of what may be an end tag does.
#[derive(Clone, Copy, Drop)]
enum EndTagStep {
    SelfClosing,
    Ends,
    Space,
    /// It is no end tag.
    Text,
}

fn less_than_step(raw: Raw, c: char) -> LessThanStep
    ensures { result ≡ less_than_step_of raw c }
{
    if c == '/' {
        return LessThanStep::EndTag;
    }
    match raw {
        Raw::Script if c == '!' => LessThanStep::Escape,
        Raw::Escaped if c.is_ascii_alphabetic() => LessThanStep::Double,
        _ => LessThanStep::Text,
    }
}

/// Returns what the character does. An end tag is `appropriate` if it has the name of the last
/// start tag.
fn end_tag_step(appropriate: bool, c: char) -> EndTagStep
    ensures { result ≡ end_tag_step_of appropriate c }
{
    match c {
        _ if !appropriate => EndTagStep::Text,
        '/' => EndTagStep::SelfClosing,
        '>' => EndTagStep::Ends,
        _ if is_space(c) => EndTagStep::Space,
        _ => EndTagStep::Text,
    }
}

impl Tokenizer {
    ghost use Rattle.page_tokens.specs.PageEnds.{end_tag_left_of};
    ghost use Rattle.page_tokens.specs.RawEndTags.{AddsNameLetter, BeginsEndTag};
    ghost use Rattle.page_tokens.specs.Standard.{Follows};
    ghost use Rattle.page_tokens.specs.TextStates.{TextGoesOn};

    pub(super) fn in_end_tag(&mut self, raw: Raw, state: EndTagState, c: char) -> Progress
        ensures { self.old.state ≡ State.EndTag raw state →
            Follows self.old self.new (c ∷ []) result }
    {
        match state {
            EndTagState::LessThan => self.raw_less_than(raw, c),
            EndTagState::Open => self.raw_end_tag_open(raw, c),
            EndTagState::Name => self.raw_end_tag_name(raw, c),
        }
    }

    fn raw_less_than(&mut self, raw: Raw, c: char) -> Progress
        ensures { self.old.state ≡ State.EndTag raw EndTagState.LessThan →
            Follows self.old self.new (c ∷ []) result }
    {
        match less_than_step(raw, c) {
            LessThanStep::EndTag => self.then(State::EndTag(raw, EndTagState::Open)),
            LessThanStep::Escape => {
                self.put_text("<!");
                self.then(State::ScriptData(ScriptState::EscapeStart))
            }
            LessThanStep::Double => {
                self.letters.clear();
                self.put_text("<");
                self.state = State::ScriptData(ScriptState::DoubleStart);
                self.in_script(ScriptState::DoubleStart, c)
            }
            LessThanStep::Text => {
                self.put_text("<");
                self.back_to(raw, c)
            }
        }
    }

    fn raw_end_tag_open(&mut self, raw: Raw, c: char) -> Progress
        ensures { self.old.state ≡ State.EndTag raw EndTagState.Open →
            Follows self.old self.new (c ∷ []) result }
    {
        if c.is_ascii_alphabetic() {
            return self.begin_end_tag(raw, c);
        }
        self.put_text("</");
        self.back_to(raw, c)
    }

    /// Starts what may be an end tag, with the first letter of its name.
    fn begin_end_tag(&mut self, raw: Raw, c: char) -> Progress
        ensures told { IfOk result (λ told. told ≡ None) }
        ensures begins { OnOk result (BeginsEndTag self.old self.new raw c) }
    {
        self.tag.begin(self.alloc, TagKind::End);
        self.state = State::EndTag(raw, EndTagState::Name);
        push(&mut self.tag.name, c)
    }

    fn raw_end_tag_name(&mut self, raw: Raw, c: char) -> Progress
        ensures { self.old.state ≡ State.EndTag raw EndTagState.Name →
            Follows self.old self.new (c ∷ []) result }
    {
        if c.is_ascii_alphabetic() {
            return self.name_letter(c);
        }
        match end_tag_step(self.is_appropriate(), c) {
            EndTagStep::SelfClosing => self.then(State::Tag(TagState::SelfClosing)),
            EndTagStep::Ends => self.emit_tag(),
            EndTagStep::Space => self.then(State::Attribute(AttrState::BeforeName)),
            EndTagStep::Text => {
                self.put_text("</");
                self.put_name();
                self.back_to(raw, c)
            }
        }
    }

    /// Appends a letter to the name of the tag.
    fn name_letter(&mut self, c: char) -> Progress
        ensures told { IfOk result (λ told. told ≡ None) }
        ensures adds { OnOk result (AddsNameLetter self.old self.new c) }
    {
        push(&mut self.tag.name, c)
    }

    /// Returns whether the tag that is being read has the name of the last start tag.
    fn is_appropriate(&self) -> bool
        ensures { IsTrue result ↔ (map to_ascii_lowercase (string_bytes self.now.tag.name)
            ≡ map to_ascii_lowercase (string_bytes self.now.last_start)) }
    {
        let name = self.tag.name.as_str();
        name.eq_ignore_ascii_case(self.last_start.as_str())
    }

    /// Appends the name of the tag to the text.
    fn put_name(&mut self)
        ensures { self.new.refused ≡ false →
            TextGoesOn self.old self.new self.old.state (string_bytes self.old.tag.name) }
    {
        let put = append(&mut self.text, self.tag.name.as_str());
        self.keep(put);
    }

    /// Appends the beginning of what was no end tag to the text.
    pub(super) fn put_end_tag(&mut self, state: EndTagState)
        ensures { self.new.refused ≡ false → TextGoesOn self.old self.new self.old.state
            (end_tag_left_of state (string_bytes self.old.tag.name)) }
    {
        match state {
            EndTagState::LessThan => self.put_text("<"),
            EndTagState::Open => self.put_text("</"),
            EndTagState::Name => {
                self.put_text("</");
                self.put_name();
            }
        }
    }
}
