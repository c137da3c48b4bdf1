//! Laws about the texts of selectors. The functions do nothing; their contracts are the theorems.

ghost use Rattle.std.specs.Prelude.{◌≡◌, ℕ, List};
ghost use Rattle.dom_selectors.specs.Syntax.{SelectorList};
ghost use Rattle.dom_selectors.specs.Css.{IsReadBack};
ghost use Rattle.dom_selectors.specs.Grammar.{StandsFor};
ghost use Rattle.dom_selectors.specs.MiniGrammar.{Excludes, HasOneReading, IsBadMini, IsBadPath};
ghost use Rattle.dom_selectors.specs.MiniGrammar.{SpellsMini, SpellsPath};

/// The grammar is unambiguous: it reads a text as at most one selector list.
pub fn one_reading()
    ensures { (text : List ℕ) (a b : SelectorList) → StandsFor text a → StandsFor text b → a ≡ b }
{}

/// A text that is written as a CSS string is parsed as that text, with U+FFFD in place of U+0000,
/// whatever follows the string.
pub fn printed_string()
    ensures { (text : List ℕ) → IsReadBack text }
{}

/// The grammar of mini selectors is unambiguous: a text starts with at most one mini selector, and
/// with none if a value is malformed. The same is true of sequences of mini selectors, and the text
/// after them is determined, too.
pub fn one_mini_reading()
    ensures mini { HasOneReading SpellsMini }
    ensures mini_bad { Excludes SpellsMini IsBadMini }
    ensures path { HasOneReading SpellsPath }
    ensures path_bad { Excludes SpellsPath IsBadPath }
{}
