//! Tests of whether the parser treats an element specially, by the name in its tag.

ghost use Rattle.std.specs.Prelude.{◌≡◌, List, ℕ, MatchBool, true};
ghost use Rattle.std.specs.List.{list_all, list_any};
ghost use Rattle.std.specs.Str.{bytes_eq};
ghost use Rattle.dom_markup.specs.Bytes.{folded, is_letter, is_name_byte};
ghost use Rattle.dom_markup.specs.Markup.{NamesElement};
ghost use Rattle.dom_nodes.specs.Words.{is_among};
ghost use Rattle.dom_markup.specs.Names.{is_template, raw_names, text_names, void_names};

use crate::names::{RAW_NAMES, TEXT_NAMES, VOID_NAMES};

/// Returns whether the name is one of these, in upper or lower case.
fn is_one_of(names: &[&str], name: &str) -> bool
    ensures { result ≡ list_any (λ known. bytes_eq (folded known.now) (folded name.now)) names.now }
{
    names.iter().any(|known| known.eq_ignore_ascii_case(name))
}

/// Returns whether the element is void.
pub fn is_void(name: &str) -> bool
    ensures { result ≡ is_among (folded name.now) void_names }
{
    is_one_of(&VOID_NAMES, name)
}

/// Returns whether the element is a raw text element, in whose text character references aren't
/// resolved.
pub fn is_raw(name: &str) -> bool
    ensures { result ≡ is_among (folded name.now) raw_names }
{
    is_one_of(&RAW_NAMES, name)
}

/// Returns whether the element's content is one text in which character references are resolved.
pub fn holds_text(name: &str) -> bool
    ensures { result ≡ is_among (folded name.now) text_names }
{
    is_one_of(&TEXT_NAMES, name)
}

/// Returns whether the element is a template, which has a contents fragment.
pub fn is_template(name: &str) -> bool
    ensures { result ≡ is_template (folded name.now) }
{
    "template".eq_ignore_ascii_case(name)
}

pub fn is_letter(byte: u8) -> bool
    ensures { result ≡ is_letter byte }
{
    byte.is_ascii_alphabetic()
}

/// Returns whether a run of name bytes is a tag name, that is, starts with a letter.
pub fn names_element(name: &str) -> bool
    requires { list_all is_name_byte name.now ≡ true }
    ensures { MatchBool result (NamesElement name.now (folded name.now))
        ((element : List ℕ) → NamesElement name.now element → ⊥) }
{
    let [first, ..] = name.as_bytes() else {
        return false;
    };
    is_letter(*first)
}
