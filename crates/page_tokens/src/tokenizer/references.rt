//! The character reference states (13.2.5.72 to 13.2.5.80).

ghost use Rattle.std.specs.Prelude.{◌≡◌, ◌≤◌, ◌+◌, ◌*◌, ◌++◌, ◌==◌, ◌&&◌, IfOk, OnOk, true, false};
ghost use Rattle.std.specs.Prelude.{None, cond, encode_utf8, min, not, string_bytes};
ghost use Rattle.std.specs.Str.{encode_utf8_all};
ghost use Rattle.standard_tokens.specs.Machine.{is_value};
ghost use Rattle.page_tokens.specs.NameTable.{characters_of};
ghost use Rattle.page_tokens.specs.Numbers.{character_of};
ghost use Rattle.page_tokens.specs.StandardStates.{state_of};
ghost use Rattle.page_tokens.specs.References.{base_of, is_of_word, number_of, with_digit_of};

use super::errors::is_noncharacter;
use super::named::Match;
use super::state::AttrState;
use super::{Progress, REPLACEMENT, State, Tokenizer, append, push};
use crate::named_references::Value;
use crate::parse_error::ParseError;
use std::alloc::AllocError;

/// How much of a reference was read.
#[derive(Clone, Copy, Drop)]
pub enum Reference {
    None,
    /// The ampersand.
    Begun,
    /// The beginning of a name.
    Named(Match),
    /// Letters and digits that are no name (the ambiguous ampersand state).
    Ambiguous,
    /// `&#`
    Number,
    /// `&#x`
    HexStart,
    Hex(u32),
    Decimal(u32),
}

/// The characters for the numbers 128 to 159, which are those of windows-1252.
#[rattlefmt::skip]
const WINDOWS: [char; 32] = [
    '\u{20ac}', '\u{81}', '\u{201a}', '\u{192}', '\u{201e}', '\u{2026}', '\u{2020}', '\u{2021}',
    '\u{2c6}', '\u{2030}', '\u{160}', '\u{2039}', '\u{152}', '\u{8d}', '\u{17d}', '\u{8f}',
    '\u{90}', '\u{2018}', '\u{2019}', '\u{201c}', '\u{201d}', '\u{2022}', '\u{2013}', '\u{2014}',
    '\u{2dc}', '\u{2122}', '\u{161}', '\u{203a}', '\u{153}', '\u{9d}', '\u{17e}', '\u{178}',
];

/// Returns the character that a numeric reference means.
fn character(number: u32) -> char
    ensures { result ≡ character_of number }
{
    if number == 0 {
        return REPLACEMENT;
    }
    if number >= 0x80 && number < 0xa0 {
        return WINDOWS[(number - 0x80) as usize];
    }
    char::from_u32(number).unwrap_or(REPLACEMENT)
}

/// Returns the number with one more digit. Numbers above the last code point are all 0x110000.
fn with_digit(number: u32, base: u32, digit: u32) -> u32
    ensures { result ≡ min (number * base + digit) 1114112 }
{
    number
        .saturating_mul(base)
        .saturating_add(digit)
        .min(0x11_0000)
}

/// Returns the base of the digits that may follow.
fn base(reference: Reference) -> u32
    ensures is { result ≡ base_of reference }
    ensures least { 2 ≤ result }
    ensures most { result ≤ 36 }
{
    match reference {
        Reference::HexStart | Reference::Hex(_) => 16,
        _ => 10,
    }
}

/// Returns the number that was read, if there is one.
fn number(reference: Reference) -> Option<u32>
    ensures { result ≡ number_of reference }
{
    match reference {
        Reference::Hex(number) | Reference::Decimal(number) => Some(number),
        _ => None,
    }
}

/// Returns the reference with one more digit of the number, or with its first.
fn number_with(reference: Reference, digit: u32) -> Reference
    ensures { result ≡ with_digit_of reference digit }
{
    match reference {
        Reference::HexStart => Reference::Hex(with_digit(0, 16, digit)),
        Reference::Hex(number) => Reference::Hex(with_digit(number, 16, digit)),
        Reference::Decimal(number) => Reference::Decimal(with_digit(number, 10, digit)),
        _ => Reference::Decimal(with_digit(0, 10, digit)),
    }
}

/// Returns the parse error for a reference by this number, if it is one.
fn number_error(number: u32) -> Option<ParseError> {
    match number {
        0 => Some(ParseError::NullCharacterReference),
        0xd800..=0xdfff => Some(ParseError::SurrogateCharacterReference),
        0x9 | 0xa | 0xc => None,
        1..=0x1f | 0x7f..=0x9f => Some(ParseError::ControlCharacterReference),
        0x11_0000.. => Some(ParseError::CharacterReferenceOutsideUnicodeRange),
        _ if is_noncharacter(number) => Some(ParseError::NoncharacterCharacterReference),
        _ => None,
    }
}

/// Returns the parse error for the character after a number, if it is one.
fn unclosed_error(c: char) -> Option<ParseError> {
    match c {
        ';' => None,
        _ => Some(ParseError::MissingSemicolonAfterCharacterReference),
    }
}

/// Returns the parse error for the character after letters and digits that are no name, if it is
/// one.
fn ambiguous_error(c: char) -> Option<ParseError> {
    match c {
        ';' => Some(ParseError::UnknownNamedCharacterReference),
        _ => None,
    }
}

/// Returns whether the character is `=`, a letter or a digit.
fn is_of_word(c: char) -> bool
    ensures { result ≡ is_of_word c }
{
    c == '=' || c.is_ascii_alphanumeric()
}

/// Replaces the text by what a name means and the characters after the name.
fn put_value(text: &mut String, value: Value, behind: &str) -> Result<(), AllocError>
    ensures { OnOk result
        (string_bytes text.new ≡ encode_utf8_all (characters_of value) ++ behind.now) }
{
    text.clear();
    text.push(value.first)?;
    if let Some(second) = value.second {
        text.push(second)?;
    }
    append(text, behind)
}

impl Tokenizer {
    ghost use Rattle.page_tokens.specs.NamedReferences.{IsSettled, read_of};
    ghost use Rattle.page_tokens.specs.PageEnds.{EndsInReference};
    ghost use Rattle.page_tokens.specs.References.{DigitsFollow, EndsReference};
    ghost use Rattle.page_tokens.specs.References.{FollowsInReference, NameGoesOn, Puts};
    ghost use Rattle.page_tokens.specs.References.{Rewrites, WritesOn, is_part_of_word};
    ghost use Rattle.page_tokens.specs.References.{meant_by, replaced_by};
    ghost use Rattle.page_tokens.specs.TextStates.{BeginsReference};

    pub(super) fn is_in_reference(&self) -> bool
        ensures none { self.now.reference ≡ Reference.None → result ≡ false }
        ensures outside { result ≡ false → self.now.reference ≡ Reference.None }
    {
        !matches!(self.reference, Reference::None)
    }

    pub(super) fn begin_reference(&mut self) -> Progress
        ensures told { IfOk result (λ told. told ≡ None) }
        ensures begins { OnOk result (BeginsReference self.old self.new) }
    {
        self.reference = Reference::Begun;
        self.written.clear();
        push(&mut self.written, '&')
    }

    pub(super) fn is_in_value(&self) -> bool
        ensures { result ≡ is_value (state_of self.now.state) }
    {
        matches!(
            self.state,
            State::Attribute(AttrState::Quoted(_) | AttrState::Unquoted)
        )
    }

    /// Processes a character in a reference, and returns whether it is part of the reference.
    pub(super) fn reference(&mut self, c: char) -> bool
        ensures { FollowsInReference self.old self.new c result }
    {
        match self.reference {
            Reference::None => false,
            Reference::Begun => self.reference_begins(c),
            Reference::Named(found) => self.named(found, c),
            Reference::Ambiguous => self.ambiguous(c),
            Reference::Number => self.number_begins(c),
            Reference::HexStart | Reference::Hex(_) | Reference::Decimal(_) => self.digit(c),
        }
    }

    fn reference_begins(&mut self, c: char) -> bool
        ensures { self.old.reference ≡ Reference.Begun →
            FollowsInReference self.old self.new c result }
    {
        if c.is_ascii_alphanumeric() {
            self.behind.clear();
            return self.named(Match::new(), c);
        }
        if c == '#' {
            return self.go_on(Reference::Number, c);
        }
        self.put_written();
        false
    }

    fn number_begins(&mut self, c: char) -> bool
        ensures { self.old.reference ≡ Reference.Number →
            FollowsInReference self.old self.new c result }
    {
        if c == 'x' || c == 'X' {
            return self.go_on(Reference::HexStart, c);
        }
        self.digit(c)
    }

    /// Processes a digit of a number, or the character after the number.
    fn digit(&mut self, c: char) -> bool
        ensures { DigitsFollow self.old.reference c →
            FollowsInReference self.old self.new c result }
    {
        if let Some(digit) = c.to_digit(base(self.reference)) {
            return self.go_on(number_with(self.reference, digit), c);
        }
        match number(self.reference) {
            Some(number) => self.numbered(number, c),
            None => self.without_digits(),
        }
    }

    fn go_on(&mut self, reference: Reference, c: char) -> bool
        ensures is { result ≡ true }
        ensures on { self.new.refused ≡ false →
            WritesOn self.old self.new reference (encode_utf8 c) }
    {
        let put = self.written.push(c);
        self.keep(put);
        self.reference = reference;
        true
    }

    /// Appends the buffer of the reference to the attribute value or the text, and ends the
    /// reference.
    fn put_written(&mut self)
        ensures none { self.new.reference ≡ Reference.None }
        ensures put { self.new.refused ≡ false →
            EndsReference self.old self.new (string_bytes self.old.written) }
    {
        self.reference = Reference::None;
        let put = if self.is_in_value() {
            append(&mut self.tag.attr_value, self.written.as_str())
        } else {
            append(&mut self.text, self.written.as_str())
        };
        self.keep(put);
    }

    /// Ends a reference by this number.
    fn put_number(&mut self, number: u32)
        ensures { self.new.refused ≡ false →
            EndsReference self.old self.new (encode_utf8 (character_of number)) }
    {
        self.report(number_error(number));
        self.written.clear();
        let put = self.written.push(character(number));
        self.keep(put);
        self.put_written();
    }

    /// Processes the character after a number.
    fn numbered(&mut self, number: u32, c: char) -> bool
        ensures is { result ≡ (c == 59) }
        ensures put { self.new.refused ≡ false →
            EndsReference self.old self.new (encode_utf8 (character_of number)) }
    {
        self.report(unclosed_error(c));
        self.put_number(number);
        c == ';'
    }

    /// Ends a reference without a number.
    fn without_digits(&mut self) -> bool
        ensures is { result ≡ false }
        ensures put { self.new.refused ≡ false →
            EndsReference self.old self.new (string_bytes self.old.written) }
    {
        self.error(ParseError::AbsenceOfDigitsInNumericCharacterReference);
        self.put_written();
        false
    }

    /// Processes a character after those of the match.
    fn named(&mut self, found: Match, c: char) -> bool
        ensures { FollowsInReference (record self.old { reference = Reference.Named found })
            self.new c result }
    {
        match found.with(c) {
            Some(more) => self.name_goes_on(more, c),
            None => self.name_ends(found, c),
        }
    }

    fn name_goes_on(&mut self, found: Match, c: char) -> bool
        ensures is { result ≡ true }
        ensures on { self.new.refused ≡ false → NameGoesOn self.old self.new found c }
    {
        let put = self.written.push(c);
        self.keep(put);
        if found.is_whole {
            self.behind.clear();
        } else {
            let put = self.behind.push(c);
            self.keep(put);
        }
        self.reference = Reference::Named(found);
        true
    }

    fn name_ends(&mut self, found: Match, c: char) -> bool
        ensures { IsSettled (read_of found.names) c →
            FollowsInReference (record self.old { reference = Reference.Named found })
            self.new c result }
    {
        self.put_named(found, Some(c));
        if found.value.is_some() {
            return false;
        }
        self.reference = Reference::Ambiguous;
        self.ambiguous(c)
    }

    /// Processes the characters after an ampersand that begin no name; they are text.
    fn ambiguous(&mut self, c: char) -> bool
        ensures { self.old.reference ≡ Reference.Ambiguous →
            FollowsInReference self.old self.new c result }
    {
        if c.is_ascii_alphanumeric() {
            return self.put_letter(c);
        }
        self.report(ambiguous_error(c));
        self.reference = Reference::None;
        false
    }

    /// Appends a character to the attribute value or the text.
    fn put_letter(&mut self, c: char) -> bool
        ensures is { result ≡ true }
        ensures same { self.new.reference ≡ self.old.reference }
        ensures put { self.new.refused ≡ false → Puts self.old self.new (encode_utf8 c) }
    {
        let put = if self.is_in_value() {
            self.tag.attr_value.push(c)
        } else {
            self.text.push(c)
        };
        self.keep(put);
        true
    }

    /// Returns whether, in an attribute value, a letter, a digit or `=` follows the longest name. A
    /// name without a semicolon is then no reference.
    fn is_part_of_word(&self, next: Option<char>) -> bool
        ensures { result ≡ is_part_of_word self.now next }
    {
        if !self.is_in_value() {
            return false;
        }
        if let Some(byte) = self.behind.as_str().as_bytes().first() {
            return is_of_word(char::from(*byte));
        }
        match next {
            Some(c) => is_of_word(c),
            None => false,
        }
    }

    /// Replaces what was written by what the longest name means and the characters after it.
    fn write_value(&mut self, value: Value)
        ensures { self.new.refused ≡ false →
            Rewrites self.old self.new (meant_by value self.old) }
    {
        let put = put_value(&mut self.written, value, self.behind.as_str());
        self.keep(put);
    }

    /// Replaces what was written likewise, unless it is part of a word.
    fn write_meaning(&mut self, value: Value, closed: bool, next: Option<char>)
        ensures { self.new.refused ≡ false → Rewrites self.old self.new
            (cond (not closed && is_part_of_word self.old next)
            (string_bytes self.old.written) (meant_by value self.old)) }
    {
        if closed {
            self.write_value(value);
            return;
        }
        if self.is_part_of_word(next) {
            return;
        }
        self.error(ParseError::MissingSemicolonAfterCharacterReference);
        self.write_value(value);
    }

    /// Appends what the longest name means, and the characters after it.
    fn put_named(&mut self, found: Match, next: Option<char>)
        ensures none { self.new.reference ≡ Reference.None }
        ensures put { self.new.refused ≡ false →
            EndsReference self.old self.new (replaced_by found next self.old) }
    {
        if let Some(value) = found.value {
            self.write_meaning(value, found.closed, next);
        }
        self.put_written();
    }

    /// Ends a reference at the end of the page.
    pub(super) fn end_reference(&mut self)
        ensures none { self.old.reference ≡ Reference.None → self.new ≡ self.old }
        ensures ends { self.new.refused ≡ false → EndsInReference self.old self.new }
    {
        match self.reference {
            Reference::None => {}
            Reference::Begun => self.put_written(),
            Reference::Named(found) => self.put_named(found, None),
            Reference::Ambiguous => self.reference = Reference::None,
            Reference::Number => {
                self.without_digits();
            }
            Reference::HexStart => {
                self.without_digits();
            }
            Reference::Hex(number) => {
                self.numbered(number, '\0');
            }
            Reference::Decimal(number) => {
                self.numbered(number, '\0');
            }
        }
    }
}
