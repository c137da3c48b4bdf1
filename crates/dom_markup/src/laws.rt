//! Laws: facts about the definitions, for the crates above. The functions do nothing; their
//! contracts are the theorems.

ghost use Rattle.std.specs.Prelude.{◌≡◌, ℕ, List};
ghost use Rattle.dom_markup.specs.ValueTrees.{ValueTrees};
ghost use Rattle.dom_markup.specs.Markup.{Spells};

pub mod escaping;
pub mod faults;
pub mod plain;
pub mod texts;

/// The grammar is unambiguous: it reads a text as at most one list of trees.
pub fn one_reading()
    ensures { (text : List ℕ) (a b : ValueTrees) → Spells text a → Spells text b → a ≡ b }
{}
