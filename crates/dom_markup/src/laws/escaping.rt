//! Laws about escaping.

ghost use Rattle.std.specs.Prelude.{◌≡◌, true, ℕ, List};
ghost use Rattle.std.specs.Str.{IsUtf8};
ghost use Rattle.dom_nodes.specs.Ascii.{double_quote, greater_than, less_than};
ghost use Rattle.dom_nodes.specs.Escaping.{escaped_value};
ghost use Rattle.dom_markup.specs.Escaping.{escaped_text, lacks};
ghost use Rattle.dom_markup.specs.References.{decoded};

/// An escaped text contains no `<` and no `>`, so it neither starts nor ends a tag.
pub fn text_is_inert()
    ensures less { (text : List ℕ) → lacks less_than (escaped_text text) ≡ true }
    ensures greater { (text : List ℕ) → lacks greater_than (escaped_text text) ≡ true }
{}

/// An escaped value contains no `"`, so it doesn't end its quotes.
pub fn value_is_inert()
    ensures { (text : List ℕ) → lacks double_quote (escaped_value text) ≡ true }
{}

/// Resolving the character references of an escaped text yields the text again.
pub fn text_reads_back()
    ensures { (text : List ℕ) → IsUtf8 text → decoded (escaped_text text) ≡ text }
{}

/// Resolving the character references of an escaped value yields the value again.
pub fn value_reads_back()
    ensures { (text : List ℕ) → IsUtf8 text → decoded (escaped_value text) ≡ text }
{}
