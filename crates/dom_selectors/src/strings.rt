//! Parsing of strings in quotes.

ghost use Rattle.std.specs.Prelude.{◌≡◌, ◌∷◌, [], encode_utf8_all};
ghost use Rattle.dom_selectors.specs.Adding.{Adds};
ghost use Rattle.dom_selectors.specs.Spelling.{Takes, TakesSome, no_other, same};
ghost use Rattle.dom_selectors.specs.Strings.{SpellsStringEscape, SpellsPiece, SpellsString};
ghost use Rattle.dom_selectors.specs.Strings.{after_line_end, goes_on_in, is_quote, present};

use crate::fault::SelectorFault;
use crate::names::{is_line_end, take_escape};
use dom_nodes::text::Text;
use std::alloc::{AllocError, Global};

pub(crate) fn is_quote(c: char) -> bool
    ensures { result ≡ is_quote c }
{
    c == '"' || c == '\''
}

/// Returns the text without a leading line end.
fn after_line_end(text: &[char]) -> &[char]
    ensures { result.now ≡ after_line_end text.now }
{
    match text {
        ['\r', '\n', rest @ ..] => rest,
        [_, rest @ ..] => rest,
        [] => text,
    }
}

/// Parses what follows a `\` in a string; returns the character that it means, or `None` for a line
/// end, and the rest.
fn take_string_escape(text: &[char]) -> Option<(Option<char>, &[char])>
    ensures { TakesSome result SpellsStringEscape text.now }
{
    if let [c, ..] = text {
        if is_line_end(*c) {
            return Some((None, after_line_end(text)));
        }
    }
    let Some((c, rest)) = take_escape(text) else {
        return None;
    };
    Some((Some(c), rest))
}

/// Parses one character of a string, or an escape.
fn take_piece(quote: char, text: &[char]) -> Option<(Option<char>, &[char])>
    ensures { TakesSome result (SpellsPiece quote) text.now }
{
    let Some((c, rest)) = text.split_first() else {
        return None;
    };
    if *c == quote {
        return None;
    }
    if *c == '\\' {
        return take_string_escape(rest);
    }
    if is_line_end(*c) {
        return None;
    }
    Some((Some(*c), rest))
}

fn goes_on_in(quote: char, text: &[char]) -> bool
    ensures { result ≡ goes_on_in quote text.now }
{
    match text {
        [] => true,
        [c, ..] => *c != quote,
    }
}

/// Appends the character, if there is one.
fn push_piece(text: &mut String, piece: Option<char>) -> Result<(), AllocError>
    ensures { Adds text.old text.new result (encode_utf8_all (present (piece ∷ []))) }
{
    match piece {
        Some(c) => text.push(c),
        None => Ok(()),
    }
}

/// Parses a string; returns its text and the rest. Fails with `Syntax` or `Memory`.
pub(crate) fn take_string(alloc: Global, text: &[char]) -> Result<(Text, &[char]), SelectorFault>
    ensures { Takes result same SpellsString no_other text.now }
{
    let Some((quote, inside)) = text.split_first() else {
        return Err(SelectorFault::Syntax);
    };
    if !is_quote(*quote) {
        return Err(SelectorFault::Syntax);
    }
    let mut value = String::new(alloc);
    let mut rest = inside;
    while goes_on_in(*quote, rest) {
        let Some((piece, after)) = take_piece(*quote, rest) else {
            return Err(SelectorFault::Syntax);
        };
        push_piece(&mut value, piece)?;
        rest = after;
    }
    Ok((Text::from(value), &rest[1..]))
}
