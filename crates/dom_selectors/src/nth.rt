//! Parsing of the An+B notation.

ghost use Rattle.std.specs.Prelude.{◌≡◌};
ghost use Rattle.std.specs.Str.Parse.{digits_value};
ghost use Rattle.dom_selectors.specs.Characters.{begins, digits_len};
ghost use Rattle.dom_selectors.specs.Nth.{IsWithinLimit, SpellsAfterNumber, SpellsNth};
ghost use Rattle.dom_selectors.specs.Nth.{SpellsNumber};
ghost use Rattle.dom_selectors.specs.Nth.{SpellsOffset, SpellsUnsigned, after_sign, begins_even};
ghost use Rattle.dom_selectors.specs.Nth.{begins_odd};
ghost use Rattle.dom_selectors.specs.Nth.{every_second, is_minus, is_n, is_sign, signed};
ghost use Rattle.dom_selectors.specs.Spelling.{Takes, large_stands, same};

use crate::fault::SelectorFault;
use crate::names::{after_white, digit_value};
use dom_nodes::indexes::{Nth, Signed};

fn begins_sign(text: &[char]) -> bool
    ensures { result ≡ begins is_sign text.now }
{
    matches!(text, ['+' | '-', ..])
}

fn begins_minus(text: &[char]) -> bool
    ensures { result ≡ begins is_minus text.now }
{
    matches!(text, ['-', ..])
}

fn begins_n(text: &[char]) -> bool
    ensures { result ≡ begins is_n text.now }
{
    matches!(text, ['n' | 'N', ..])
}

fn begins_even(text: &[char]) -> bool
    ensures { result ≡ begins_even text.now }
{
    matches!(text, ['e' | 'E', 'v' | 'V', 'e' | 'E', 'n' | 'N', ..])
}

fn begins_odd(text: &[char]) -> bool
    ensures { result ≡ begins_odd text.now }
{
    matches!(text, ['o' | 'O', 'd' | 'D', 'd' | 'D', ..])
}

/// Returns how many digits the text starts with.
fn digits_len(text: &[char]) -> usize
    ensures { result ≡ digits_len text.now }
{
    let mut n = 0;
    while n < text.len() && text[n].is_ascii_digit() {
        n += 1;
    }
    n
}

/// Returns the number that the digits denote, or `None` if it is past the limit.
fn number_of(digits: &[char]) -> Option<u32>
    ensures { IsWithinLimit result (digits_value 10 digits.now) }
{
    let mut number: u32 = 0;
    for c in digits {
        if number > 214748364 {
            return None;
        }
        number = number * 10 + digit_value(*c);
    }
    if number > 2147483647 {
        return None;
    }
    Some(number)
}

/// Parses a number. Fails with `Number` if it is past the limit.
fn take_number(text: &[char]) -> Result<(u32, &[char]), SelectorFault>
    ensures { Takes result same SpellsNumber (large_stands text.now) text.now }
{
    let len = digits_len(text);
    if len == 0 {
        return Err(SelectorFault::Syntax);
    }
    let Some(number) = number_of(&text[..len]) else {
        return Err(SelectorFault::Number);
    };
    Ok((number, &text[len..]))
}

fn signed(is_negative: bool, magnitude: u32) -> Signed
    ensures { result ≡ signed is_negative magnitude }
{
    Signed {
        is_negative,
        magnitude,
    }
}

fn every_second(first: u32) -> Nth
    ensures { result ≡ every_second first }
{
    Nth {
        a: signed(false, 2),
        b: signed(false, first),
    }
}

/// Returns the text without a leading sign.
fn after_sign(text: &[char]) -> &[char]
    ensures { result.now ≡ after_sign text.now }
{
    match text {
        ['+' | '-', rest @ ..] => rest,
        _ => text,
    }
}

/// Parses the offset after an `n`.
fn take_offset(text: &[char]) -> Result<(Signed, &[char]), SelectorFault>
    ensures { Takes result same SpellsOffset (large_stands text.now) text.now }
{
    let sign = after_white(text);
    if !begins_sign(sign) {
        return Ok((signed(false, 0), text));
    }
    let (number, rest) = take_number(after_white(&sign[1..]))?;
    Ok((signed(begins_minus(sign), number), rest))
}

/// Parses what follows a number, which is either the step before `n` or the offset.
fn take_after_number(number: Signed, text: &[char]) -> Result<(Nth, &[char]), SelectorFault>
    ensures { Takes result same (SpellsAfterNumber number) (large_stands text.now) text.now }
{
    if !begins_n(text) {
        let a = signed(false, 0);
        return Ok((Nth { a, b: number }, text));
    }
    let (b, rest) = take_offset(&text[1..])?;
    Ok((Nth { a: number, b }, rest))
}

/// Parses what follows the sign.
fn take_unsigned(is_negative: bool, text: &[char]) -> Result<(Nth, &[char]), SelectorFault>
    ensures { Takes result same (SpellsUnsigned is_negative) (large_stands text.now) text.now }
{
    if begins_n(text) {
        return take_after_number(signed(is_negative, 1), text);
    }
    let (number, after) = take_number(text)?;
    take_after_number(signed(is_negative, number), after)
}

/// Parses An+B, `even` or `odd`.
pub(crate) fn take_nth(text: &[char]) -> Result<(Nth, &[char]), SelectorFault>
    ensures { Takes result same SpellsNth (large_stands text.now) text.now }
{
    if begins_even(text) {
        return Ok((every_second(0), &text[4..]));
    }
    if begins_odd(text) {
        return Ok((every_second(1), &text[3..]));
    }
    take_unsigned(begins_minus(text), after_sign(text))
}
