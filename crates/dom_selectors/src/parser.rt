//! The parser of selectors, by recursive descent over characters. Start at `parse_selectors`.

ghost use Rattle.std.specs.Prelude.{◌≡◌, ◌<◌, ◌++◌, ◌∷◌, [], chars, true};
ghost use Rattle.std.specs.Prelude.{false, cond, map, nat_eq, IfOk, OnOk};
ghost use Rattle.std.specs.Char.{is_ascii_whitespace};
ghost use Rattle.std.specs.List.{list_all};
ghost use Rattle.dom_selectors.specs.Characters.{begins};
ghost use Rattle.dom_selectors.specs.Grammar.{Closes, Opens, Parses, TakesBehind, TakesIn};
ghost use Rattle.dom_selectors.specs.Grammar.{SpellsCombinator, SpellsCompound, SpellsEnclosed};
ghost use Rattle.dom_selectors.specs.Grammar.{SpellsForm, SpellsInside, SpellsItem, SpellsLater};
ghost use Rattle.dom_selectors.specs.Grammar.{SpellsLead, SpellsList, SpellsListed, SpellsPlain};
ghost use Rattle.dom_selectors.specs.Grammar.{SpellsPseudo, SpellsSelector, SpellsStep, SpellsType};
ghost use Rattle.dom_selectors.specs.Grammar.{begins_comma, begins_compound, begins_item};
ghost use Rattle.dom_selectors.specs.Grammar.{begins_open};
ghost use Rattle.dom_selectors.specs.Grammar.{begins_step, inner_context};
ghost use Rattle.dom_selectors.specs.Grammar.{is_combinator};
ghost use Rattle.dom_selectors.specs.Grammar.{is_star, stands_behind, within};
ghost use Rattle.dom_selectors.specs.Nth.{SpellsNth};
ghost use Rattle.dom_selectors.specs.Strings.{SpellsString};
ghost use Rattle.dom_selectors.specs.Spelling.{Skips, TakesSome, Takes, no_other, same};
ghost use Rattle.dom_selectors.specs.ValuesAsTrees.{PushesItem, read_compound};
ghost use Rattle.dom_selectors.specs.ValuesAsTrees.{read_item, read_nested};
ghost use Rattle.dom_selectors.specs.ValuesAsTrees.{read_selector, read_selectors, read_step};

use crate::attributes::{after_char, take_attribute};
use crate::copies::push_list;
use crate::fault::SelectorFault;
use crate::names::{after_white, starts_name, take_name, take_selector_name};
use crate::nth::take_nth;
use crate::pseudos::{bare_item, is_relative, pseudo_of, quantified, text_part};
use crate::strings::take_string;
use crate::syntax::{
    Bare, Combinator, Compound, Item, Nested, ParseContext, Part, Position, Pseudo, Quantifier,
    Selector, Step, TextTest, combinator_of,
};
use dom_nodes::fault::OutOfMemory;
use dom_nodes::indexes::Nth;
use dom_nodes::text::Text;
use std::alloc::{AllocError, Global};

/// What was parsed, and the rest of the text.
type Taken<'a, T> = Result<(T, &'a [char]), SelectorFault>;

fn begins_item(text: &[char]) -> bool
    ensures { result ≡ begins_item text.now }
{
    matches!(text, ['#' | '.' | '[' | ':', ..])
}

fn begins_star(text: &[char]) -> bool
    ensures { result ≡ begins is_star text.now }
{
    matches!(text, ['*', ..])
}

fn begins_compound(text: &[char]) -> bool
    ensures { result ≡ begins_compound text.now }
{
    begins_star(text) || starts_name(text) || begins_item(text)
}

fn begins_open(text: &[char]) -> bool
    ensures { result ≡ begins_open text.now }
{
    matches!(text, ['(', ..])
}

/// Skips an opening parenthesis and whitespace. Fails with `UnknownPseudoClass` if there is none,
/// and with `TooDeep` if no further level is allowed.
fn take_opening(context: ParseContext, text: &[char]) -> Result<&[char], SelectorFault>
    ensures { Skips result (Opens context.depth) (stands_behind context text.now) text.now }
{
    let Some(inside) = after_char(text, '(') else {
        return Err(SelectorFault::UnknownPseudoClass);
    };
    if context.depth == 0 {
        return Err(SelectorFault::TooDeep);
    }
    Ok(after_white(inside))
}

/// Skips whitespace and a closing parenthesis.
fn take_closing(text: &[char]) -> Result<&[char], SelectorFault>
    ensures { Skips result Closes no_other text.now }
{
    match after_char(after_white(text), ')') {
        Some(rest) => Ok(rest),
        None => Err(SelectorFault::Syntax),
    }
}

/// Returns a pseudo-class without parentheses.
fn take_plain(context: ParseContext, bare: Bare, text: &[char]) -> Taken<'_, Item>
    ensures { TakesBehind context result read_item (SpellsPlain bare) text.now }
{
    if begins_open(text) {
        return Err(SelectorFault::UnknownPseudoClass);
    }
    Ok((bare_item(bare), text))
}

/// Parses An+B in parentheses.
fn take_enclosed_nth(context: ParseContext, text: &[char]) -> Taken<'_, Nth>
    ensures { TakesBehind context result same (SpellsEnclosed context.depth SpellsNth) text.now }
{
    let inside = take_opening(context, text)?;
    let (nth, after) = take_nth(inside)?;
    let rest = take_closing(after)?;
    Ok((nth, rest))
}

/// Parses a string in parentheses.
fn take_enclosed_string(alloc: Global, context: ParseContext, text: &[char]) -> Taken<'_, Text>
    ensures { TakesBehind context result same (SpellsEnclosed context.depth SpellsString) text.now }
{
    let inside = take_opening(context, text)?;
    let (string, after) = take_string(alloc, inside)?;
    let rest = take_closing(after)?;
    Ok((string, rest))
}

/// Returns the context inside parentheses that open here.
fn inner_context(context: ParseContext, relative: bool) -> ParseContext
    requires { 0 < context.depth }
    ensures { result ≡ inner_context context relative }
{
    ParseContext {
        depth: context.depth - 1,
        in_has: context.in_has || relative,
        is_relative: relative,
    }
}

/// Parses a selector list in parentheses.
#[cycle(lists)]
fn take_enclosed(
    alloc: Global,
    context: ParseContext,
    relative: bool,
    text: &[char],
) -> Taken<'_, Vec<Selector>>
    ensures { TakesBehind context result read_selectors
        (within context SpellsInside relative) text.now }
{
    let inside = take_opening(context, text)?;
    let (list, after) = take_list(alloc, inner_context(context, relative), inside)?;
    let rest = take_closing(after)?;
    Ok((list, rest))
}

/// Parses the selector list of a pseudo-class. Fails with `NestedHas` for a `:has` inside `:has`.
#[cycle(lists)]
fn take_listed(
    alloc: Global,
    context: ParseContext,
    quantifier: Quantifier,
    text: &[char],
) -> Taken<'_, Item>
    ensures { TakesBehind context result read_item
        (within context SpellsListed quantifier) text.now }
{
    let relative = is_relative(quantifier);
    if relative && context.in_has {
        return Err(SelectorFault::NestedHas);
    }
    let (list, rest) = take_enclosed(alloc, context, relative, text)?;
    Ok((Item::Listed(quantified(quantifier, list)), rest))
}

/// Parses what follows the name of a pseudo-class.
#[cycle(lists)]
fn take_form(alloc: Global, context: ParseContext, pseudo: Pseudo, text: &[char]) -> Taken<'_, Item>
    ensures { TakesBehind context result read_item (within context SpellsForm pseudo) text.now }
{
    match pseudo {
        Pseudo::Plain(bare) => take_plain(context, bare, text),
        Pseudo::Listed(quantifier) => take_listed(alloc, context, quantifier, text),
        Pseudo::Nth(kind) => {
            let (nth, rest) = take_enclosed_nth(context, text)?;
            Ok((Item::Simple(Part::Position(Position { kind, nth })), rest))
        }
        Pseudo::Text(test) => {
            let (string, rest) = take_enclosed_string(alloc, context, text)?;
            Ok((Item::Simple(text_part(test, string)), rest))
        }
    }
}

/// Parses a pseudo-class, whose colon is already read.
#[cycle(lists)]
fn take_pseudo(alloc: Global, context: ParseContext, text: &[char]) -> Taken<'_, Item>
    ensures { TakesBehind context result read_item (within context SpellsPseudo) text.now }
{
    let (name, after) = take_name(alloc, text)?;
    let Some(pseudo) = pseudo_of(name.as_str()) else {
        return Err(SelectorFault::UnknownPseudoClass);
    };
    take_form(alloc, context, pseudo, after)
}

/// Parses a simple selector other than a type selector, or a pseudo-class with a list.
#[cycle(lists)]
fn take_item(alloc: Global, context: ParseContext, text: &[char]) -> Taken<'_, Item>
    ensures { TakesIn context result read_item (within context SpellsItem) text.now }
{
    let Some((sign, more)) = text.split_first() else {
        return Err(SelectorFault::Syntax);
    };
    if *sign == '#' {
        let (name, rest) = take_name(alloc, more)?;
        return Ok((Item::Simple(Part::Id(name)), rest));
    }
    if *sign == '.' {
        let (name, rest) = take_name(alloc, more)?;
        return Ok((Item::Simple(Part::Class(name)), rest));
    }
    if *sign == '[' {
        let (attribute, rest) = take_attribute(alloc, more)?;
        return Ok((Item::Simple(Part::Attribute(attribute)), rest));
    }
    if *sign != ':' {
        return Err(SelectorFault::Syntax);
    }
    take_pseudo(alloc, context, more)
}

/// Parses an optional type selector.
fn take_type(alloc: Global, text: &[char]) -> Taken<'_, Vec<Part>>
    ensures { Takes result (λ v. v.items) SpellsType no_other text.now }
{
    let mut parts = Vec::new(alloc);
    if begins_star(text) {
        parts.push(Part::Universal)?;
        return Ok((parts, &text[1..]));
    }
    if !starts_name(text) {
        return Ok((parts, text));
    }
    let (name, rest) = take_selector_name(alloc, text)?;
    parts.push(Part::Type(name))?;
    Ok((parts, rest))
}

fn push_part(parts: &mut Vec<Part>, part: Part) -> Result<(), OutOfMemory>
    ensures { OnOk result (parts.new.items ≡ parts.old.items ++ part ∷ []) }
{
    parts.push(part)?;
    Ok(())
}

/// Appends a simple selector to the parts, or a list to the lists.
fn push_item(parts: &mut Vec<Part>, nested: &mut Vec<Nested>, item: Item) -> Result<(), OutOfMemory>
    ensures { OnOk result (PushesItem (read_item item)
        parts.old.items (map read_nested nested.old.items)
        parts.new.items (map read_nested nested.new.items)) }
{
    match item {
        Item::Simple(part) => push_part(parts, part),
        Item::Two(part, other) => {
            push_part(parts, part)?;
            push_part(parts, other)
        }
        Item::Listed(list) => push_list(nested, list),
    }
}

/// Parses a compound selector.
#[cycle(lists)]
fn take_compound(alloc: Global, context: ParseContext, text: &[char]) -> Taken<'_, Compound>
    ensures { TakesIn context result read_compound (within context SpellsCompound) text.now }
{
    if !begins_compound(text) {
        return Err(SelectorFault::Syntax);
    }
    let (front, after) = take_type(alloc, text)?;
    let mut parts = front;
    let mut nested = Vec::new(alloc);
    let mut rest = after;
    while begins_item(rest) {
        let (item, more) = take_item(alloc, context, rest)?;
        push_item(&mut parts, &mut nested, item)?;
        rest = more;
    }
    Ok((Compound { parts, nested }, rest))
}

/// Parses a combinator; the whitespace before it is already skipped.
fn take_combinator(text: &[char]) -> Option<(Combinator, &[char])>
    ensures { TakesSome result SpellsCombinator text.now }
{
    let Some((c, more)) = text.split_first() else {
        return None;
    };
    let Some(combinator) = combinator_of(*c) else {
        return Some((Combinator::Descendant, text));
    };
    Some((combinator, after_white(more)))
}

fn begins_sign(text: &[char]) -> bool
    ensures { result ≡ begins is_combinator text.now }
{
    matches!(text, ['>' | '+' | '~', ..])
}

fn begins_white(text: &[char]) -> bool
    ensures { result ≡ begins is_ascii_whitespace text.now }
{
    match text {
        [] => false,
        [c, ..] => c.is_ascii_whitespace(),
    }
}

fn begins_step(text: &[char]) -> bool
    ensures { result ≡ begins_step text.now }
{
    let rest = after_white(text);
    begins_sign(rest) || (begins_white(text) && begins_compound(rest))
}

/// Parses a combinator and a compound selector.
#[cycle(lists)]
fn take_step(alloc: Global, context: ParseContext, text: &[char]) -> Taken<'_, Step>
    ensures { TakesIn context result read_step (within context SpellsStep) text.now }
{
    if !begins_step(text) {
        return Err(SelectorFault::Syntax);
    }
    let Some((combinator, mid)) = take_combinator(after_white(text)) else {
        return Err(SelectorFault::Syntax);
    };
    let (compound, rest) = take_compound(alloc, context, mid)?;
    Ok((
        Step {
            combinator,
            compound,
        },
        rest,
    ))
}

/// Parses the optional combinator at the start of a relative selector.
fn take_lead(relative: bool, text: &[char]) -> (Combinator, &[char])
    ensures { SpellsLead relative result.0 text.now result.1.now }
{
    if !relative {
        return (Combinator::Descendant, text);
    }
    let Some((c, more)) = text.split_first() else {
        return (Combinator::Descendant, text);
    };
    let Some(combinator) = combinator_of(*c) else {
        return (Combinator::Descendant, text);
    };
    (combinator, after_white(more))
}

/// Parses a complex selector.
#[cycle(lists)]
fn take_selector(alloc: Global, context: ParseContext, text: &[char]) -> Taken<'_, Selector>
    ensures { TakesIn context result read_selector (within context SpellsSelector) text.now }
{
    let (lead, begin) = take_lead(context.is_relative, text);
    let (first, after) = take_compound(alloc, context, begin)?;
    let mut steps = Vec::new(alloc);
    let mut rest = after;
    while begins_step(rest) {
        let (step, more) = take_step(alloc, context, rest)?;
        steps.push(step)?;
        rest = more;
    }
    Ok((
        Selector {
            lead,
            first,
            rest: steps,
        },
        rest,
    ))
}

fn begins_comma(text: &[char]) -> bool
    ensures { result ≡ begins_comma text.now }
{
    matches!(after_white(text), [',', ..])
}

/// Parses a comma and a complex selector.
#[cycle(lists)]
fn take_later(alloc: Global, context: ParseContext, text: &[char]) -> Taken<'_, Selector>
    ensures { TakesIn context result read_selector (within context SpellsLater) text.now }
{
    let Some(rest) = after_char(after_white(text), ',') else {
        return Err(SelectorFault::Syntax);
    };
    take_selector(alloc, context, after_white(rest))
}

/// Parses a selector list.
#[cycle(lists)]
fn take_list(alloc: Global, context: ParseContext, text: &[char]) -> Taken<'_, Vec<Selector>>
    ensures { TakesIn context result read_selectors (within context SpellsList) text.now }
{
    let (first, after) = take_selector(alloc, context, text)?;
    let mut list = Vec::new(alloc);
    list.push(first)?;
    let mut rest = after;
    while begins_comma(rest) {
        let (selector, more) = take_later(alloc, context, rest)?;
        list.push(selector)?;
        rest = more;
    }
    Ok((list, rest))
}

fn has_no_zero(text: &[char]) -> bool
    ensures { result ≡ list_all (λ c. cond (nat_eq c 0) false true) text.now }
{
    text.iter().all(|c| *c != '\0')
}

/// Returns the characters of a text. Fails only when memory runs out.
pub(crate) fn letters(alloc: Global, text: &str) -> Result<Vec<char>, AllocError>
    ensures { IfOk result (λ letters. letters.items ≡ chars text.now) }
{
    text.chars().collect(alloc)
}

/// Parses the characters of a whole text as a selector list.
fn parse(alloc: Global, text: &[char]) -> Result<Vec<Selector>, SelectorFault>
    ensures { Parses result text.now }
{
    if !has_no_zero(text) {
        return Err(SelectorFault::Syntax);
    }
    let whole = ParseContext {
        depth: 64,
        in_has: false,
        is_relative: false,
    };
    let (list, after) = take_list(alloc, whole, after_white(text))?;
    if !after_white(after).is_empty() {
        return Err(SelectorFault::Syntax);
    }
    Ok(list)
}

/// Parses a text as a list of selectors separated by commas, and returns them in order.
///
/// The text has to be a selector list as a whole. An error says why it is none:
///
/// - `Syntax`: it does not follow the grammar;
/// - `UnknownPseudoClass`: a pseudo-class is unknown, or its arguments have the wrong form; the
///   text then contains a `:`;
/// - `Number`: a number is greater than 2147483647;
/// - `NestedHas`: a `:has` is inside another `:has`;
/// - `TooDeep`: parentheses are nested more than 64 levels deep; the text then contains 65 `(`.
///
/// The call also fails with `Memory` when memory runs out.
pub fn parse_selectors(alloc: Global, text: &str) -> Result<Vec<Selector>, SelectorFault>
    ensures { Parses result (chars text.now) }
{
    let letters = letters(alloc, text)?;
    parse(alloc, &letters)
}
