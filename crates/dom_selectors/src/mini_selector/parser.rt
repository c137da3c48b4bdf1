//! Parsing of mini selectors and of sequences of them.

ghost use Rattle.std.specs.Option.{option_copied};
ghost use Rattle.dom_selectors.specs.MiniGrammar.{IsBadStep, Maybe, ParsesFront, RefusesMini};
ghost use Rattle.dom_selectors.specs.MiniGrammar.{RefusesPath, SpellsClasses, SpellsId, SpellsLead};
ghost use Rattle.dom_selectors.specs.MiniGrammar.{SpellsMini, SpellsPath, SpellsStep, SpellsWord};
ghost use Rattle.dom_selectors.specs.MiniGrammar.{TakesMany, TakesMaybe};
ghost use Rattle.dom_selectors.specs.MiniSyntax.{texts_of};
ghost use Rattle.dom_selectors.specs.Spelling.{same};

use crate::mini_selector::attributes::take_attrs;
use crate::mini_selector::fault::MiniFault;
use crate::mini_selector::scan::{after_blanks, take_lead, take_marked, take_word};
use crate::mini_selector::selector::MiniSelector;
use crate::syntax::Combinator;
use std::alloc::{AllocFailed, Global};

/// Parses an optional combinator.
fn maybe_lead(text: &str) -> (Option<Combinator>, &str)
    ensures { Maybe SpellsLead result.0 text.now result.1.now }
{
    match take_lead(text) {
        Some((combinator, rest)) => (Some(combinator), rest),
        None => (None, text),
    }
}

/// Parses an optional name.
fn maybe_name(text: &str) -> (Option<&str>, &str)
    ensures { Maybe SpellsWord (option_copied result.0) text.now result.1.now }
{
    match take_word(text) {
        Some((word, rest)) => (Some(word), rest),
        None => (None, text),
    }
}

/// Parses an optional id.
fn maybe_id(text: &str) -> (Option<&str>, &str)
    ensures { Maybe SpellsId (option_copied result.0) text.now result.1.now }
{
    match take_marked(text, '#') {
        Some((word, rest)) => (Some(word), rest),
        None => (None, text),
    }
}

/// Parses as many classes as there are.
fn take_classes(alloc: Global, text: &str) -> Result<(Vec<&str>, &str), MiniFault>
    ensures { TakesMany result (λ words. texts_of words.items) SpellsClasses (λ _. ⊥) text.now }
{
    let mut classes = Vec::new(alloc);
    let mut rest = text;
    while let Some((class, after)) = take_marked(rest, '.') {
        classes.push(class)?;
        rest = after;
    }
    Ok((classes, rest))
}

/// Parses the mini selector at the start of the text; returns the rest of the text and the
/// selector. Fails with `NoSelector` if the text starts with none, with `BadQuotedValue` if an
/// attribute's quoted value is empty or not closed, and with `Memory`.
pub fn parse_mini_selector(alloc: Global, text: &str) -> Result<(&str, MiniSelector<'_>), MiniFault>
    ensures { ParsesFront result same SpellsMini RefusesMini text.now }
{
    let (lead, after_lead) = maybe_lead(text);
    let (name, after_name) = maybe_name(after_lead);
    let (id, after_id) = maybe_id(after_name);
    let (classes, after_classes) = take_classes(alloc, after_id)?;
    let (attrs, rest) = take_attrs(alloc, after_classes)?;
    let mini = MiniSelector {
        lead,
        name,
        id,
        classes,
        attrs,
    };
    if !mini.has_part() {
        return Err(MiniFault::NoSelector);
    }
    Ok((rest, mini))
}

/// Parses an optional mini selector, with optional blanks around it.
fn take_step(alloc: Global, text: &str) -> Result<Option<(MiniSelector<'_>, &str)>, MiniFault>
    ensures { TakesMaybe result same SpellsStep IsBadStep text.now }
{
    match parse_mini_selector(alloc, after_blanks(text)) {
        Ok((rest, mini)) => Ok(Some((mini, after_blanks(rest)))),
        Err(MiniFault::NoSelector) => Ok(None),
        Err(fault) => Err(fault),
    }
}

/// Parses as many mini selectors as there are, with optional blanks around each; returns the rest
/// of the text and the selectors, which may be none. Fails with `BadQuotedValue` if an attribute's
/// quoted value is empty or not closed, and with `Memory`.
pub fn parse_selector_list(
    alloc: Global,
    text: &str,
) -> Result<(&str, Vec<MiniSelector<'_>>), MiniFault>
    ensures { ParsesFront result (λ minis. minis.items) SpellsPath RefusesPath text.now }
{
    let mut minis = Vec::new(alloc);
    let mut rest = text;
    loop {
        let Some((mini, after)) = take_step(alloc, rest)? else {
            return Ok((rest, minis));
        };
        minis.push(mini)?;
        rest = after;
    }
}
