//! Parsing of identifiers and their escapes.

ghost use Rattle.std.specs.Prelude.{◌≡◌, ◌≤◌, length, take, MatchOption, MatchResult};
ghost use Rattle.std.specs.Str.Parse.{digits_value};
ghost use Rattle.std.specs.Char.{digit_value};
ghost use Rattle.std.specs.List.{prefix_len};
ghost use Rattle.dom_selectors.specs.Spelling.{Takes, TakesSome, no_other, same};
ghost use Rattle.dom_selectors.specs.Characters.{is_line_end, is_name_start, is_name_char};
ghost use Rattle.dom_selectors.specs.Characters.{after_white};
ghost use Rattle.dom_selectors.specs.Names.{is_hex, hex_len, after_space, char_of, SpellsEscape};
ghost use Rattle.dom_selectors.specs.Names.{SpellsNameChar, SpellsName, goes_on, starts};
ghost use Rattle.dom_selectors.specs.Names.{starts_name};

use crate::fault::SelectorFault;
use crate::selector_name::SelectorName;
use dom_nodes::text::Text;
use std::alloc::Global;

pub(crate) fn is_line_end(c: char) -> bool
    ensures { result ≡ is_line_end c }
{
    matches!(c, '\n' | '\u{c}' | '\r')
}

pub(crate) fn is_name_start(c: char) -> bool
    ensures { result ≡ is_name_start c }
{
    c.is_ascii_alphabetic() || c == '_' || c >= '\u{80}'
}

pub(crate) fn is_name_char(c: char) -> bool
    ensures { result ≡ is_name_char c }
{
    is_name_start(c) || c.is_ascii_digit() || c == '-'
}

/// Returns the text without leading whitespace.
pub(crate) fn after_white(text: &[char]) -> &[char]
    ensures { result.now ≡ after_white text.now }
{
    let mut n = 0;
    while n < text.len() && text[n].is_ascii_whitespace() {
        n += 1;
    }
    &text[n..]
}

/// Returns the first six characters, or all if there are fewer.
fn first_six(text: &[char]) -> &[char]
    ensures { result.now ≡ take 6 text.now }
{
    &text[..text.len().min(6)]
}

/// Returns how many hexadecimal digits the text starts with.
fn hex_len(text: &[char]) -> usize
    ensures { result ≡ prefix_len is_hex text.now }
{
    let mut n = 0;
    while n < text.len() && text[n].is_digit(16) {
        n += 1;
    }
    n
}

/// Returns the value of a digit or an ASCII letter, and 36 for any other character.
pub(crate) fn digit_value(c: char) -> u32
    ensures value { result ≡ digit_value c }
    ensures small { result ≤ 36 }
{
    c.to_digit(36).unwrap_or(36)
}

/// Returns the number that at most six hexadecimal digits denote.
fn hex_number(digits: &[char]) -> u32
    requires { length digits.now ≤ 6 }
    ensures { result ≡ digits_value 16 digits.now }
{
    let mut number = 0;
    for c in digits {
        number = number * 16 + digit_value(*c);
    }
    number
}

/// Returns the character with this code point, or U+FFFD if there is none.
fn char_of(number: u32) -> char
    ensures { result ≡ char_of number }
{
    if number == 0 {
        return '\u{fffd}';
    }
    match char::from_u32(number) {
        Some(c) => c,
        None => '\u{fffd}',
    }
}

/// Returns the text without one leading whitespace character.
fn after_space(text: &[char]) -> &[char]
    ensures { result.now ≡ after_space text.now }
{
    match text {
        ['\r', '\n', rest @ ..] => rest,
        [c, rest @ ..] if c.is_ascii_whitespace() => rest,
        _ => text,
    }
}

/// Parses what follows a `\`; returns the character that the escape stands for, and the rest.
pub(crate) fn take_escape(text: &[char]) -> Option<(char, &[char])>
    ensures { TakesSome result SpellsEscape text.now }
{
    let Some((c, rest)) = text.split_first() else {
        return None;
    };
    if c.is_digit(16) {
        let len = hex_len(first_six(text));
        return Some((char_of(hex_number(&text[..len])), after_space(&text[len..])));
    }
    if is_line_end(*c) {
        return None;
    }
    Some((*c, rest))
}

/// Parses one character of an identifier, or an escape.
fn take_name_char(text: &[char]) -> Option<(char, &[char])>
    ensures { TakesSome result SpellsNameChar text.now }
{
    let Some((c, rest)) = text.split_first() else {
        return None;
    };
    if is_name_char(*c) {
        return Some((*c, rest));
    }
    if *c != '\\' {
        return None;
    }
    take_escape(rest)
}

fn goes_on(text: &[char]) -> bool
    ensures { result ≡ goes_on text.now }
{
    match text {
        [] => false,
        [c, ..] => is_name_char(*c) || *c == '\\',
    }
}

fn starts(c: char) -> bool
    ensures { result ≡ starts c }
{
    is_name_start(c) || c == '\\'
}

pub(crate) fn starts_name(text: &[char]) -> bool
    ensures { result ≡ starts_name text.now }
{
    match text {
        [] => false,
        [c] => starts(*c),
        [c, d, ..] => starts(*c) || (*c == '-' && (*d == '-' || starts(*d))),
    }
}

/// Parses an identifier. Fails with `Syntax` or `Memory`.
pub(crate) fn take_name(alloc: Global, text: &[char]) -> Result<(Text, &[char]), SelectorFault>
    ensures { Takes result same SpellsName no_other text.now }
{
    if !starts_name(text) {
        return Err(SelectorFault::Syntax);
    }
    let mut name = String::new(alloc);
    let mut rest = text;
    while goes_on(rest) {
        let Some((c, after)) = take_name_char(rest) else {
            return Err(SelectorFault::Syntax);
        };
        name.push(c)?;
        rest = after;
    }
    Ok((Text::from(name), rest))
}

/// Parses an identifier as a `SelectorName`. Fails with `Syntax` or `Memory`.
pub(crate) fn take_selector_name(
    alloc: Global,
    text: &[char],
) -> Result<(SelectorName, &[char]), SelectorFault>
    ensures { Takes result same SpellsName no_other text.now }
{
    let (name, rest) = take_name(alloc, text)?;
    let name = SelectorName::new(alloc, name)?;
    Ok((name, rest))
}
