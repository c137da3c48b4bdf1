//! Mini selectors as values.

use crate::mini_selector::fault::MiniFault;
use crate::mini_selector::parser::parse_mini_selector;
use crate::syntax::{AttrOperator, Combinator};
use std::alloc::Global;
use std::marker::Model;

/// An attribute of a mini selector: its name, and a comparison of its value, if there is one.
#[derive(Clone, Copy, PartialEq, Eq, Debug, Drop)]
pub struct MiniAttr<'a> {
    pub key: &'a str,
    pub test: Option<(AttrOperator, &'a str)>,
}

/// A mini selector: a name, an id, classes and attributes, and a combinator that relates it to the
/// mini selector before it. Its texts are slices of the parsed text.
#[derive(Drop)]
pub struct MiniSelector<'a> {
    pub(crate) lead: Option<Combinator>,
    pub(crate) name: Option<&'a str>,
    pub(crate) id: Option<&'a str>,
    pub(crate) classes: Vec<&'a str>,
    pub(crate) attrs: Vec<MiniAttr<'a>>,
}

impl<'a> Model for MiniSelector<'a> {
    ghost use Rattle.std.specs.Prelude.{map};
    ghost use Rattle.std.specs.Option.{option_copied};
    ghost use Rattle.dom_selectors.specs.MiniSyntax.{Mini, asked_of, texts_of};

    ghost Value = { Mini };

    ghost view = { λ mini. record {
      lead = mini.lead;
      name = option_copied mini.name;
      id = option_copied mini.id;
      classes = texts_of mini.classes.items;
      attrs = map asked_of mini.attrs.items;
    } };
}

impl<'a> MiniSelector<'a> {
    ghost use Rattle.std.specs.Prelude.{◌≡◌, map};
    ghost use Rattle.std.specs.Option.{option_copied};
    ghost use Rattle.std.specs.Prelude.{ℕ, List, MatchResult};
    ghost use Rattle.dom_selectors.specs.MiniGrammar.{RefusesMini, SpellsMini};
    ghost use Rattle.dom_selectors.specs.MiniSyntax.{asked_of, combinator_of, has_part, named};
    ghost use Rattle.dom_selectors.specs.MiniSyntax.{texts_of};

    /// Parses the mini selector at the start of the text; what follows it is ignored. Fails with
    /// `NoSelector` if the text starts with none, with `BadQuotedValue` if an attribute's quoted
    /// value is empty or not closed, and with `Memory`.
    pub fn new(alloc: Global, selector: &'a str) -> Result<MiniSelector<'a>, MiniFault>
        ensures { MatchResult result (λ mini. (rest : List ℕ) × SpellsMini mini selector.now rest)
            (λ fault. RefusesMini fault selector.now) }
    {
        let (_, mini) = parse_mini_selector(alloc, selector)?;
        Ok(mini)
    }

    /// Returns the mini selector with a name alone. It allocates no memory.
    pub fn named(alloc: Global, name: &'a str) -> MiniSelector<'a>
        ensures { result ≡ named name.now }
    {
        MiniSelector {
            lead: None,
            name: Some(name),
            id: None,
            classes: Vec::new(alloc),
            attrs: Vec::new(alloc),
        }
    }

    /// Returns the local name that the selector requires, if any.
    pub fn name(&self) -> Option<&'a str>
        ensures { option_copied result ≡ self.now.name }
    {
        self.name
    }

    /// Returns the value of `id` that the selector requires, if any.
    pub fn id(&self) -> Option<&'a str>
        ensures { option_copied result ≡ self.now.id }
    {
        self.id
    }

    /// Returns the classes that the selector requires, in order.
    pub fn classes(&self) -> &[&'a str]
        ensures { texts_of result.now ≡ self.now.classes }
    {
        self.classes.as_slice()
    }

    /// Returns the attributes that the selector requires, in order.
    pub fn attrs(&self) -> &[MiniAttr<'a>]
        ensures { map asked_of result.now ≡ self.now.attrs }
    {
        self.attrs.as_slice()
    }

    /// Returns the combinator before the selector; if none is written, it is `Descendant`.
    pub fn combinator(&self) -> Combinator
        ensures { result ≡ combinator_of self.now }
    {
        match self.lead {
            Some(combinator) => combinator,
            None => Combinator::Descendant,
        }
    }

    /// Returns whether the selector has any part or a written combinator.
    pub(crate) fn has_part(&self) -> bool
        ensures { result ≡ has_part self.now }
    {
        self.lead.is_some()
            || self.name.is_some()
            || self.id.is_some()
            || !self.classes.is_empty()
            || !self.attrs.is_empty()
    }
}
