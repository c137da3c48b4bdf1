//! Pseudo-classes as values, and pseudo-elements, of which there are none. `:only-text`,
//! `:has-text(..)` and `:contains(..)` come from the crate dom_query; the others are those of
//! Selectors Level 4.

ghost use Rattle.std.specs.Prelude.{◌≡◌, ◌++◌, IfOk, OnOk, string_bytes};
ghost use Rattle.dom_selectors.specs.PseudoTexts.{pseudo_css, pseudo_name, pseudo_rest};

use crate::css::{CssString, ToCss};
use dom_nodes::fault::OutOfMemory;
use std::alloc::Global;

/// A pseudo-class that depends on more than the position of an element.
#[derive(PartialEq, Eq, Debug, Drop)]
pub enum NonTSPseudoClass {
    AnyLink,
    Link,
    Visited,
    Active,
    Focus,
    Hover,
    Enabled,
    Disabled,
    Checked,
    Indeterminate,
    /// `:only-text`: the node has exactly one child, a text that isn't blank.
    OnlyText,
    /// `:has-text(..)`: one of the texts at or below the node contains this text.
    HasText(CssString),
    /// `:contains(..)`: the texts at and below the node, concatenated, contain this text.
    Contains(CssString),
}

impl NonTSPseudoClass {
    /// Returns a copy of the pseudo-class. Fails only when memory runs out.
    pub fn try_clone(&self) -> Result<NonTSPseudoClass, OutOfMemory>
        ensures { IfOk result (λ made. made ≡ self.now) }
    {
        Ok(match self {
            NonTSPseudoClass::AnyLink => NonTSPseudoClass::AnyLink,
            NonTSPseudoClass::Link => NonTSPseudoClass::Link,
            NonTSPseudoClass::Visited => NonTSPseudoClass::Visited,
            NonTSPseudoClass::Active => NonTSPseudoClass::Active,
            NonTSPseudoClass::Focus => NonTSPseudoClass::Focus,
            NonTSPseudoClass::Hover => NonTSPseudoClass::Hover,
            NonTSPseudoClass::Enabled => NonTSPseudoClass::Enabled,
            NonTSPseudoClass::Disabled => NonTSPseudoClass::Disabled,
            NonTSPseudoClass::Checked => NonTSPseudoClass::Checked,
            NonTSPseudoClass::Indeterminate => NonTSPseudoClass::Indeterminate,
            NonTSPseudoClass::OnlyText => NonTSPseudoClass::OnlyText,
            NonTSPseudoClass::HasText(text) => NonTSPseudoClass::HasText(text.try_clone()?),
            NonTSPseudoClass::Contains(text) => NonTSPseudoClass::Contains(text.try_clone()?),
        })
    }
}

impl ToCss for NonTSPseudoClass {
    ghost css = { pseudo_css };

    fn to_css(&self, out: &mut String) -> Result<(), OutOfMemory> {
        let written = written(*out.allocator(), self)?;
        out.push_str(written.as_str())?;
        Ok(())
    }
}

/// Returns the text of the pseudo-class.
fn written(alloc: Global, pseudo: &NonTSPseudoClass) -> Result<String, OutOfMemory>
    ensures { IfOk result (λ text. string_bytes text ≡ pseudo_css pseudo.now) }
{
    let mut written = String::from_str(alloc, name_of(pseudo))?;
    push_rest(&mut written, pseudo)?;
    Ok(written)
}

/// Appends the argument of the pseudo-class and `)`, if it has one.
fn push_rest(out: &mut String, pseudo: &NonTSPseudoClass) -> Result<(), OutOfMemory>
    ensures { OnOk result (string_bytes out.new ≡ string_bytes out.old ++ pseudo_rest pseudo.now) }
{
    match pseudo {
        NonTSPseudoClass::HasText(text) | NonTSPseudoClass::Contains(text) => {
            text.to_css(out)?;
            out.push_str(")")?;
            Ok(())
        }
        _ => Ok(()),
    }
}

/// Returns the text before the argument.
fn name_of(pseudo: &NonTSPseudoClass) -> &'static str
    ensures { result.now ≡ pseudo_name pseudo.now }
{
    match pseudo {
        NonTSPseudoClass::AnyLink => ":any-link",
        NonTSPseudoClass::Link => ":link",
        NonTSPseudoClass::Visited => ":visited",
        NonTSPseudoClass::Active => ":active",
        NonTSPseudoClass::Focus => ":focus",
        NonTSPseudoClass::Hover => ":hover",
        NonTSPseudoClass::Enabled => ":enabled",
        NonTSPseudoClass::Disabled => ":disabled",
        NonTSPseudoClass::Checked => ":checked",
        NonTSPseudoClass::Indeterminate => ":indeterminate",
        NonTSPseudoClass::OnlyText => ":only-text",
        NonTSPseudoClass::HasText(_) => ":has-text(",
        NonTSPseudoClass::Contains(_) => ":contains(",
    }
}

/// A pseudo-element. There are none, so it is written as an empty text.
#[derive(Clone, Copy, PartialEq, Eq, Debug, Drop)]
pub struct PseudoElement;

impl ToCss for PseudoElement {
    ghost use Rattle.std.specs.Prelude.{[]};

    ghost css = { λ _. [] };

    fn to_css(&self, _out: &mut String) -> Result<(), OutOfMemory> {
        Ok(())
    }
}
