//! Parsing of the attributes of a mini selector.

ghost use Rattle.std.specs.Prelude.{◌≡◌, map, nat_eq};
ghost use Rattle.dom_nodes.specs.Ascii.{right_bracket};
ghost use Rattle.dom_selectors.specs.Characters.{begins};
ghost use Rattle.dom_selectors.specs.MiniGrammar.{IsBadAttr, IsBadTest, MeetsBadAttr};
ghost use Rattle.dom_selectors.specs.MiniGrammar.{SpellsAttr, SpellsAttrs, SpellsBare};
ghost use Rattle.dom_selectors.specs.MiniGrammar.{SpellsQuoted, SpellsTest, TakesMany, TakesMaybe};
ghost use Rattle.dom_selectors.specs.MiniSyntax.{asked_of, shown_test};
ghost use Rattle.dom_selectors.specs.Spelling.{TakesSlice};
ghost use Rattle.dom_selectors.specs.Strings.{is_quote};

use crate::mini_selector::fault::MiniFault;
use crate::mini_selector::scan::{
    after_blanks, split_ascii, split_before, strip, take_operator, take_word,
};
use crate::mini_selector::selector::MiniAttr;
use crate::strings::is_quote;
use crate::syntax::AttrOperator;
use std::alloc::Global;

fn begins_quote(text: &str) -> bool
    ensures { result ≡ begins is_quote text.now }
{
    match text.as_bytes() {
        [] => false,
        [first, ..] => is_quote(char::from(*first)),
    }
}

fn begins_bracket(text: &str) -> bool
    ensures { result ≡ begins (λ c. nat_eq c right_bracket) text.now }
{
    matches!(text.as_bytes(), [b']', ..])
}

/// Parses a quoted value; returns it without its quotes, and the rest.
fn take_quoted(text: &str) -> Option<(&str, &str)>
    ensures { TakesSlice result SpellsQuoted text.now }
{
    let Some((quote, inside)) = split_ascii(text) else {
        return None;
    };
    if !is_quote(char::from(quote)) {
        return None;
    }
    let (value, closing) = split_before(inside, quote);
    if value.is_empty() {
        return None;
    }
    let Some(rest) = strip(closing, char::from(quote)) else {
        return None;
    };
    Some((value, rest))
}

/// Parses a value without quotes, up to the next `]`.
fn take_bare(text: &str) -> Option<(&str, &str)>
    ensures { TakesSlice result SpellsBare text.now }
{
    let (value, rest) = split_before(text, b']');
    if value.is_empty() {
        return None;
    }
    Some((value, rest))
}

/// The operator of a comparison, and its value.
type Test<'a> = (AttrOperator, &'a str);

/// Parses an optional comparison. Fails if a quoted value is malformed.
fn take_test(text: &str) -> Result<Option<(Test<'_>, &str)>, MiniFault>
    ensures { TakesMaybe result shown_test SpellsTest IsBadTest text.now }
{
    let Some((operator, after)) = take_operator(after_blanks(text)) else {
        return Ok(None);
    };
    let written = after_blanks(after);
    if begins_quote(written) {
        let Some((value, rest)) = take_quoted(written) else {
            return Err(MiniFault::BadQuotedValue);
        };
        return Ok(Some(((operator, value), rest)));
    }
    let Some((value, rest)) = take_bare(written) else {
        return Ok(None);
    };
    Ok(Some(((operator, value), rest)))
}

/// Parses an optional attribute. Fails if a quoted value is malformed.
fn take_attr(text: &str) -> Result<Option<(MiniAttr<'_>, &str)>, MiniFault>
    ensures { TakesMaybe result asked_of SpellsAttr IsBadAttr text.now }
{
    let Some(inside) = strip(text, '[') else {
        return Ok(None);
    };
    let Some((key, after_key)) = take_word(inside) else {
        return Ok(None);
    };
    let (test, after_test) = match take_test(after_key)? {
        Some((test, after)) => (Some(test), after),
        None => (None, after_key),
    };
    let Some(rest) = strip(after_test, ']') else {
        return Ok(None);
    };
    if begins_bracket(rest) {
        return Ok(None);
    }
    Ok(Some((MiniAttr { key, test }, rest)))
}

/// Parses as many attributes as there are.
pub(crate) fn take_attrs(alloc: Global, text: &str) -> Result<(Vec<MiniAttr<'_>>, &str), MiniFault>
    ensures { TakesMany result (λ attrs. map asked_of attrs.items) SpellsAttrs
        MeetsBadAttr text.now }
{
    let mut attrs = Vec::new(alloc);
    let mut rest = text;
    loop {
        let Some((attr, after)) = take_attr(rest)? else {
            return Ok((attrs, rest));
        };
        attrs.push(attr)?;
        rest = after;
    }
}
