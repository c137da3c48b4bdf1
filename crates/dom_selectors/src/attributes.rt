//! Parsing of attribute selectors.

ghost use Rattle.std.specs.Prelude.{◌≡◌};
ghost use Rattle.dom_selectors.specs.Spelling.{Strips, Takes, TakesSome, no_other, same};
ghost use Rattle.dom_selectors.specs.Characters.{after_white};
ghost use Rattle.dom_selectors.specs.Attributes.{operator_of, flag_of, SpellsOperator, SpellsValue};
ghost use Rattle.dom_selectors.specs.Attributes.{SpellsFlag, SpellsCase, SpellsComparison};
ghost use Rattle.dom_selectors.specs.Attributes.{SpellsAsked, SpellsAttribute};

use crate::fault::SelectorFault;
use crate::names::{after_white, take_name, take_selector_name};
use crate::strings::{is_quote, take_string};
use crate::syntax::{AttrOperator, Attribute, Comparison};
use dom_nodes::case_sensitivity::CaseSensitivity;
use dom_nodes::text::Text;
use std::alloc::Global;

/// Returns the operator that a character and `=` denote.
pub(crate) fn operator_of(c: char) -> Option<AttrOperator>
    ensures { result ≡ operator_of c }
{
    match c {
        '~' => Some(AttrOperator::Includes),
        '|' => Some(AttrOperator::DashMatch),
        '^' => Some(AttrOperator::Prefix),
        '$' => Some(AttrOperator::Suffix),
        '*' => Some(AttrOperator::Substring),
        _ => None,
    }
}

/// Parses an operator; returns it and the rest.
fn take_operator(text: &[char]) -> Option<(AttrOperator, &[char])>
    ensures { TakesSome result SpellsOperator text.now }
{
    let Some((c, more)) = text.split_first() else {
        return None;
    };
    if *c == '=' {
        return Some((AttrOperator::Equals, more));
    }
    let Some(operator) = operator_of(*c) else {
        return None;
    };
    let Some((sign, rest)) = more.split_first() else {
        return None;
    };
    if *sign != '=' {
        return None;
    }
    Some((operator, rest))
}

/// Returns the rest of the text, if it starts with this character.
pub(crate) fn after_char(text: &[char], c: char) -> Option<&[char]>
    ensures { Strips result c text.now }
{
    let Some((first, rest)) = text.split_first() else {
        return None;
    };
    if *first != c {
        return None;
    }
    Some(rest)
}

/// Parses a value: an identifier or a string.
fn take_value(alloc: Global, text: &[char]) -> Result<(Text, &[char]), SelectorFault>
    ensures { Takes result same SpellsValue no_other text.now }
{
    if let [c, ..] = text {
        if is_quote(*c) {
            return take_string(alloc, text);
        }
    }
    take_name(alloc, text)
}

/// Returns the flag that an identifier is, if it is one.
fn flag_of(name: &str) -> Option<CaseSensitivity>
    ensures { result ≡ flag_of name.now }
{
    match name.as_bytes() {
        [b'i' | b'I'] => Some(CaseSensitivity::AsciiCaseInsensitive),
        [b's' | b'S'] => Some(CaseSensitivity::CaseSensitive),
        _ => None,
    }
}

/// Parses a flag and the closing bracket.
fn take_flag(alloc: Global, text: &[char]) -> Result<(CaseSensitivity, &[char]), SelectorFault>
    ensures { Takes result same SpellsFlag no_other text.now }
{
    let (name, after) = take_name(alloc, text)?;
    let Some(flag) = flag_of(name.as_str()) else {
        return Err(SelectorFault::Syntax);
    };
    let Some(rest) = after_char(after_white(after), ']') else {
        return Err(SelectorFault::Syntax);
    };
    Ok((flag, rest))
}

/// Parses an optional flag and the closing bracket.
fn take_case(alloc: Global, text: &[char]) -> Result<(CaseSensitivity, &[char]), SelectorFault>
    ensures { Takes result same SpellsCase no_other text.now }
{
    if let Some(rest) = after_char(text, ']') {
        return Ok((CaseSensitivity::CaseSensitive, rest));
    }
    take_flag(alloc, text)
}

/// Parses a comparison and the closing bracket.
fn take_comparison(alloc: Global, text: &[char]) -> Result<(Comparison, &[char]), SelectorFault>
    ensures { Takes result same SpellsComparison no_other text.now }
{
    let Some((operator, after_operator)) = take_operator(text) else {
        return Err(SelectorFault::Syntax);
    };
    let (value, after_value) = take_value(alloc, after_white(after_operator))?;
    let (case_sensitivity, rest) = take_case(alloc, after_white(after_value))?;
    Ok((
        Comparison {
            operator,
            value,
            case_sensitivity,
        },
        rest,
    ))
}

/// Parses an optional comparison and the closing bracket.
fn take_asked(alloc: Global, text: &[char]) -> Result<(Option<Comparison>, &[char]), SelectorFault>
    ensures { Takes result same SpellsAsked no_other text.now }
{
    if let Some(rest) = after_char(text, ']') {
        return Ok((None, rest));
    }
    let (comparison, rest) = take_comparison(alloc, text)?;
    Ok((Some(comparison), rest))
}

/// Parses an attribute selector, whose opening bracket is already read.
pub(crate) fn take_attribute(
    alloc: Global,
    text: &[char],
) -> Result<(Attribute, &[char]), SelectorFault>
    ensures { Takes result same SpellsAttribute no_other text.now }
{
    let (name, after_name) = take_selector_name(alloc, after_white(text))?;
    let (comparison, rest) = take_asked(alloc, after_white(after_name))?;
    Ok((Attribute { name, comparison }, rest))
}
