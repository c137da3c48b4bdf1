//! Parsing of doctypes.

ghost use Rattle.std.specs.Prelude.{◌++◌, codes, IfNone, IfSome};
ghost use Rattle.dom_markup.specs.ByteClasses.{AfterPublic, EndsDoctype, IsWord};
ghost use Rattle.dom_markup.specs.Bytes.{is_name_byte};
ghost use Rattle.dom_markup.specs.Markup.{Begins, BeginsNoDoctype, BeginsNoWord};
ghost use Rattle.dom_markup.specs.Markup.{BeginsQuoted, BeginsWord, Fails};
ghost use Rattle.dom_markup.specs.Names.{markup};
ghost use Rattle.dom_markup.specs.Taking.{Takes, TakesTwo};
ghost use Rattle.dom_markup.specs.Token.{doctype_item};

use crate::document::scan::{ByteClass, close_at, split_front, split_letter, strip};

/// The name and the identifiers of a doctype, as slices of the source.
#[derive(Clone, Copy)]
pub struct Doctype<'a> {
    pub name: &'a str,
    pub public: &'a str,
    pub system: &'a str,
}

/// Splits off whitespace and a quoted value; returns the value and the rest.
fn quoted_at(text: &str) -> Option<(&str, &str)>
    ensures { Takes (BeginsQuoted text.now) result }
{
    let (space, quoted) = split_front(ByteClass::Whitespace, text);
    if space.is_empty() {
        return None;
    }
    if let Some(inner) = strip(quoted, '"') {
        let found = split_letter(inner, b'"')?;
        return Some(found);
    }
    let inner = strip(quoted, '\'')?;
    let found = split_letter(inner, b'\'')?;
    Some(found)
}

/// Splits off whitespace and the word, in upper or lower case, and returns the rest.
fn word_end<'a>(text: &'a str, word: &str) -> Option<&'a str>
    requires { IsWord word.now }
    ensures some { IfSome result (λ rest. BeginsWord word.now text.now rest.now) }
    ensures whole { IfSome result (λ rest. Fails is_name_byte rest.now) }
    ensures none { IfNone result (BeginsNoWord word.now text.now) }
{
    let (space, behind) = split_front(ByteClass::Whitespace, text);
    let (written, rest) = split_front(ByteClass::Name, behind);
    if space.is_empty() {
        return None;
    }
    if !written.eq_ignore_ascii_case(word) {
        return None;
    }
    Some(rest)
}

/// Returns the public and the system identifier after the word `public`, and the text after the
/// doctype.
fn public_at(text: &str) -> Option<(&str, &str, &str)>
    ensures { TakesTwo (AfterPublic text.now) result }
{
    let (public, later) = quoted_at(text)?;
    let Some((system, close)) = quoted_at(later) else {
        let rest = close_at(later, false)?;
        return Some((public, "", rest));
    };
    let rest = close_at(close, false)?;
    Some((public, system, rest))
}

/// Returns the public and the system identifier, and the text after the doctype. A missing
/// identifier is empty.
fn identifiers_at(text: &str) -> Option<(&str, &str, &str)>
    ensures { TakesTwo (EndsDoctype text.now) result }
{
    if let Some(after) = word_end(text, "public") {
        let found = public_at(after)?;
        return Some(found);
    }
    if let Some(after) = word_end(text, "system") {
        let (system, close) = quoted_at(after)?;
        let rest = close_at(close, false)?;
        return Some(("", system, rest));
    }
    let rest = close_at(text, false)?;
    Some(("", "", rest))
}

/// Returns the doctype that starts with `<!` and this text, and what follows it; `None` if the text
/// is no doctype.
pub fn doctype_at(tag: &str) -> Option<(Doctype<'_>, &str)>
    ensures some { IfSome result (λ f.
        Begins markup (codes "<!" ++ tag.now) (doctype_item f.0) f.1.now) }
    ensures none { IfNone result (BeginsNoDoctype (codes "<!" ++ tag.now)) }
{
    let (word, inner) = split_front(ByteClass::Name, tag);
    let (space, gap) = split_front(ByteClass::Whitespace, inner);
    let (name, behind) = split_front(ByteClass::Name, gap);
    if !word.eq_ignore_ascii_case("doctype") {
        return None;
    }
    if space.is_empty() {
        return None;
    }
    if name.is_empty() {
        return None;
    }
    let (public, system, rest) = identifiers_at(behind)?;
    Some((
        Doctype {
            name,
            public,
            system,
        },
        rest,
    ))
}
