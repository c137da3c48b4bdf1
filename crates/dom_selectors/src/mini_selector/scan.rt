//! Splitting blanks, words and the like off the start of a text.

ghost use Rattle.std.specs.Prelude.{◌≡◌, ◌<◌, ◌∷◌, false, nat_lt, MatchOption};
ghost use Rattle.std.specs.List.{prefix_len, take_while};
ghost use Rattle.dom_selectors.specs.Attributes.{SpellsOperator};
ghost use Rattle.dom_selectors.specs.Characters.{begins};
ghost use Rattle.dom_selectors.specs.MiniLetters.{after_blanks, after_while, isnt, passes};
ghost use Rattle.dom_selectors.specs.MiniGrammar.{SpellsLead, SpellsMarked, SpellsWord};
ghost use Rattle.dom_selectors.specs.Spelling.{Strips, TakesSlice, TakesSome};

use crate::attributes::operator_of;
use crate::syntax::{AttrOperator, Combinator, combinator_of};

/// A character class of mini selectors.
#[derive(Clone, Copy)]
pub(crate) enum CharKind {
    Blank,
    Word,
}

impl CharKind {
    /// Returns whether a byte belongs to this class.
    fn pass(self, byte: u8) -> bool
        ensures { result ≡ passes self byte }
    {
        match self {
            CharKind::Blank => matches!(byte, b' ' | b'\t' | b'\n' | b'\r'),
            CharKind::Word => byte.is_ascii_alphanumeric() || byte == b'-',
        }
    }
}

/// Returns how many bytes at the start belong to the class.
fn run_len(kind: CharKind, bytes: &[u8]) -> usize
    ensures { result ≡ prefix_len (passes kind) bytes.now }
{
    for (index, byte) in bytes.iter().enumerate() {
        if !kind.pass(*byte) {
            return index;
        }
    }
    bytes.len()
}

/// Splits the longest run of this class off the start of the text.
fn split_run(kind: CharKind, text: &str) -> (&str, &str)
    ensures front { result.0.now ≡ take_while (passes kind) text.now }
    ensures rest { result.1.now ≡ after_while (passes kind) text.now }
{
    text.split_at(run_len(kind, text.as_bytes()))
}

/// Returns how many bytes come before the first `stop`, or all if there is none.
fn len_before(stop: u8, bytes: &[u8]) -> usize
    ensures { result ≡ prefix_len (isnt stop) bytes.now }
{
    for (index, byte) in bytes.iter().enumerate() {
        if *byte == stop {
            return index;
        }
    }
    bytes.len()
}

/// Splits the text before the first `stop`; the second part is empty if there is none.
pub(crate) fn split_before(text: &str, stop: u8) -> (&str, &str)
    requires { stop < 128 }
    ensures front { result.0.now ≡ take_while (isnt stop) text.now }
    ensures rest { result.1.now ≡ after_while (isnt stop) text.now }
{
    text.split_at(len_before(stop, text.as_bytes()))
}

/// Returns the text without leading blanks.
pub(crate) fn after_blanks(text: &str) -> &str
    ensures { result.now ≡ after_blanks text.now }
{
    let (_, rest) = split_run(CharKind::Blank, text);
    rest
}

/// Returns the rest of the text, if it starts with this ASCII character.
pub(crate) fn strip(text: &str, letter: char) -> Option<&str>
    requires { letter < 128 }
    ensures { Strips result letter text.now }
{
    text.strip_prefix(letter)
}

/// Splits off the first character, if it is ASCII.
pub(crate) fn split_ascii(text: &str) -> Option<(u8, &str)>
    ensures { MatchOption result (begins (λ c. nat_lt c 128) text.now ≡ false)
        (λ p. (p.0 < 128) × (text.now ≡ p.0 ∷ p.1.now)) }
{
    let (first, _) = text.as_bytes().split_first()?;
    if *first >= 128 {
        return None;
    }
    Some((*first, &text[1..]))
}

/// Splits off a word, if the text starts with one.
pub(crate) fn take_word(text: &str) -> Option<(&str, &str)>
    ensures { TakesSlice result SpellsWord text.now }
{
    let (word, rest) = split_run(CharKind::Word, text);
    if word.is_empty() {
        return None;
    }
    Some((word, rest))
}

/// Splits off a mark and the word after it, if the text starts with them; returns the word and the
/// rest.
pub(crate) fn take_marked(text: &str, mark: char) -> Option<(&str, &str)>
    requires { mark < 128 }
    ensures { TakesSlice result (SpellsMarked mark) text.now }
{
    let Some(more) = strip(text, mark) else {
        return None;
    };
    take_word(more)
}

/// Splits off a combinator and the blanks around it.
pub(crate) fn take_lead(text: &str) -> Option<(Combinator, &str)>
    ensures { TakesSome result SpellsLead text.now }
{
    let Some((sign, more)) = split_ascii(after_blanks(text)) else {
        return None;
    };
    let Some(combinator) = combinator_of(char::from(sign)) else {
        return None;
    };
    Some((combinator, after_blanks(more)))
}

/// Splits off an operator.
pub(crate) fn take_operator(text: &str) -> Option<(AttrOperator, &str)>
    ensures { TakesSome result SpellsOperator text.now }
{
    let Some((sign, more)) = split_ascii(text) else {
        return None;
    };
    if sign == b'=' {
        return Some((AttrOperator::Equals, more));
    }
    let Some(operator) = operator_of(char::from(sign)) else {
        return None;
    };
    let Some(rest) = strip(more, '=') else {
        return None;
    };
    Some((operator, rest))
}
