//! The attributes of a tag, and what those of a `meta` declare.

ghost use Rattle.std.specs.Prelude.{◌≡◌, ◌==◌, List, MatchOption, bytes_eq, codes, map, option_and_then, option_copied, ℕ};
ghost use Rattle.std.specs.Char.{to_ascii_lowercase};
ghost use Rattle.std.specs.Option.{option_map};
ghost use Rattle.encodings.specs.Attributes.{Meta, at_equals, at_value, attributes, behind_charset, behind_equals, declared_by, get_attribute, label_at, label_in, no_attributes, noted, noted_as};
ghost use Rattle.encodings.specs.Labels.{encoding_of};
ghost use Rattle.encodings.specs.Views.{IsRead, attribute_of};

use crate::encoding::Encoding;
use crate::places::{
    Run, begins_with_quote, begins_with_word, behind, front, in_quotes, is_equals_sign, quoted,
};

/// An attribute as it is written.
#[derive(Clone, Copy, Drop)]
pub(crate) struct Attribute<'a> {
    name: &'a [u8],
    value: &'a [u8],
}

/// What was found so far in the attributes of a `meta`.
#[derive(Clone, Copy, Drop)]
pub(crate) struct Declared {
    has_pragma: bool,
    has_http_equiv: bool,
    has_content: bool,
    has_charset: bool,
    /// Whether the encoding counts only together with `http-equiv`; `None` until an encoding is
    /// found.
    needs_pragma: Option<bool>,
    encoding: Option<Encoding>,
}

/// Reads the attributes of a tag, which come next, and returns what they declare if it is a `meta`,
/// and the bytes from the `>` of the tag on. `None` if the bytes end before it.
pub(crate) fn attributes(bytes: &[u8]) -> Option<(Declared, &[u8])>
    ensures { MatchOption result (attributes no_attributes 0 bytes.now ≡ None) (λ read.
        (meta : Meta) × IsRead read.0 meta
        × (attributes no_attributes 0 bytes.now ≡ Some (meta, read.1.now))) }
{
    let mut declared = NOTHING;
    let mut rest = bytes;
    while !rest.is_empty() {
        let got = next_attribute(rest)?;
        match got.0 {
            Some(attribute) => {
                declared = declared.with(attribute);
                rest = got.1;
            }
            None => return Some((declared, got.1)),
        }
    }
    None
}

/// What no attributes declare.
const NOTHING: Declared = Declared {
    has_pragma: false,
    has_http_equiv: false,
    has_content: false,
    has_charset: false,
    needs_pragma: None,
    encoding: None,
};

impl Declared {
    /// Returns what these and one attribute more declare.
    fn with(self, attribute: Attribute<'_>) -> Declared
        ensures { (meta : Meta) → IsRead self meta
            → IsRead result (noted meta (attribute_of attribute.entry)) }
    {
        if is_word(b"http-equiv", attribute.name) {
            return self.with_http_equiv(attribute.value);
        }
        if is_word(b"content", attribute.name) {
            return self.with_content(attribute.value);
        }
        if is_word(b"charset", attribute.name) {
            return self.with_charset(attribute.value);
        }
        self
    }

    fn with_http_equiv(self, value: &[u8]) -> Declared
        ensures { (meta : Meta) → IsRead self meta
            → IsRead result (noted_as meta (codes "http-equiv") value.now) }
    {
        if self.has_http_equiv {
            return self;
        }
        let is_pragma = value.eq_ignore_ascii_case(b"content-type");
        Declared {
            has_http_equiv: true,
            has_pragma: self.has_pragma || is_pragma,
            ..self
        }
    }

    fn with_content(self, value: &[u8]) -> Declared
        ensures { (meta : Meta) → IsRead self meta
            → IsRead result (noted_as meta (codes "content") value.now) }
    {
        if self.has_content {
            return self;
        }
        let declared = Declared {
            has_content: true,
            ..self
        };
        if self.needs_pragma.is_some() {
            return declared;
        }
        match encoding_in(value) {
            Some(encoding) => Declared {
                encoding: Some(encoding),
                needs_pragma: Some(true),
                ..declared
            },
            None => declared,
        }
    }

    fn with_charset(self, value: &[u8]) -> Declared
        ensures { (meta : Meta) → IsRead self meta
            → IsRead result (noted_as meta (codes "charset") value.now) }
    {
        if self.has_charset {
            return self;
        }
        Declared {
            has_charset: true,
            encoding: Encoding::for_label(value),
            needs_pragma: Some(false),
            ..self
        }
    }

    /// Returns the encoding that the `meta` declares.
    pub(crate) fn found(self) -> Option<Encoding>
        ensures { (meta : Meta) → IsRead self meta → result ≡ declared_by meta }
    {
        if self.needs_pragma? && !self.has_pragma {
            return None;
        }
        Some(self.encoding?.of_markup())
    }
}

/// Returns whether a name is this word, which is in lower case, in letters of any case.
fn is_word(word: &[u8], name: &[u8]) -> bool
    requires { map to_ascii_lowercase word.now ≡ word.now }
    ensures { result ≡ bytes_eq (map to_ascii_lowercase name.now) word.now }
{
    name.eq_ignore_ascii_case(word)
}

/// Returns the next attribute of a tag and the bytes after it. If the tag ends first, there is no
/// attribute, and the bytes are those from its `>` on. Returns `None` if the bytes end first.
fn next_attribute(bytes: &[u8]) -> Option<(Option<Attribute<'_>>, &[u8])>
    ensures { option_map (λ got. (option_map attribute_of got.0, got.1.now)) result
        ≡ get_attribute bytes.now }
{
    let rest = Run::SpacesAndSlashes.skip(bytes);
    let (first, others) = rest.split_first()?;
    if is_tag_end(*first) {
        return Some((None, rest));
    }
    let (inner, from_end) = Run::Name.split(others);
    let name = front(inner.len() + 1, rest);
    match with_value(name, Run::Spaces.skip(from_end)) {
        Some(got) => Some((Some(got.0), got.1)),
        None => None,
    }
}

/// Returns whether the byte ends a tag.
fn is_tag_end(byte: u8) -> bool
    ensures { result ≡ (byte == 0x3E) }
{
    byte == b'>'
}

/// Returns an attribute of this name, whose value follows if the bytes start with `=`, and the
/// bytes after it.
fn with_value<'a>(name: &'a [u8], bytes: &'a [u8]) -> Option<(Attribute<'a>, &'a [u8])>
    ensures { option_map (λ got. (Some (attribute_of got.0), got.1.now)) result
        ≡ at_equals name.now bytes.now }
{
    let (first, others) = bytes.split_first()?;
    if !is_equals_sign(*first) {
        return Some((Attribute { name, value: &[] }, bytes));
    }
    match value(Run::Spaces.skip(others)) {
        Some(got) => Some((Attribute { name, value: got.0 }, got.1)),
        None => None,
    }
}

/// Returns the value of an attribute, which these bytes start with, and the bytes after it.
fn value(bytes: &[u8]) -> Option<(&[u8], &[u8])>
    ensures { (name : List ℕ) → option_map (λ got. (Some (name, got.0.now), got.1.now)) result
        ≡ at_value name bytes.now }
{
    if begins_with_quote(bytes) {
        return in_quotes(bytes);
    }
    let (value, rest) = Run::Value.split(bytes);
    match rest.split_first() {
        Some(_) => Some((value, rest)),
        None => None,
    }
}

/// Returns the encoding whose label is in the attribute `content` of a `meta`.
fn encoding_in(content: &[u8]) -> Option<Encoding>
    ensures { result ≡ option_and_then encoding_of (label_in content.now) }
{
    match label_in_content(content) {
        Some(label) => Encoding::for_label(label),
        None => None,
    }
}

/// The label of an encoding in the attribute `content` of a `meta` or in an HTTP header
/// `Content-Type`: in `text/html; charset=gbk` it is `gbk`. None where there is none.
pub fn label_in_content(content: &[u8]) -> Option<&[u8]>
    ensures { option_copied result ≡ label_in content.now }
{
    for (i, _) in content.iter().enumerate() {
        let rest = behind(i, content);
        if let Some(value) = behind_charset(rest) {
            return label_at(Run::Spaces.skip(value));
        }
    }
    None
}

/// Returns the bytes after `charset`, white space and an equals sign, if they start with these.
fn behind_charset(bytes: &[u8]) -> Option<&[u8]>
    ensures { option_copied result ≡ behind_charset bytes.now }
{
    if !begins_with_word(b"charset", bytes) {
        return None;
    }
    behind_equals(Run::Spaces.skip(behind(7, bytes)))
}

/// Returns the bytes after the equals sign that they start with.
fn behind_equals(bytes: &[u8]) -> Option<&[u8]>
    ensures { option_copied result ≡ behind_equals bytes.now }
{
    match bytes.split_first() {
        Some((first, rest)) if is_equals_sign(*first) => Some(rest),
        _ => None,
    }
}

/// Returns the label that these bytes after `charset=` start with.
fn label_at(bytes: &[u8]) -> Option<&[u8]>
    ensures { option_copied result ≡ label_at bytes.now }
{
    if begins_with_quote(bytes) {
        return quoted(bytes);
    }
    let (label, _) = Run::Label.split(bytes);
    match bytes.split_first() {
        Some(_) => Some(label),
        None => None,
    }
}
