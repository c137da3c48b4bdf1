//! Escaping: characters that markup would interpret are written as named character references.

ghost use Rattle.std.specs.Prelude.{◌≡◌, ◌<◌, ◌∷◌, [], ℕ, List, length, slice_index, true};
ghost use Rattle.memchr.specs.Find.{is_byte2, is_byte3};
ghost use Rattle.dom_markup.specs.Cutting.{Cuts, IsCutAt};
ghost use Rattle.dom_nodes.specs.Escaping.{escaped_value, value_char};
ghost use Rattle.dom_markup.specs.Escaping.{escaped_text, spaced, text_char};
ghost use Rattle.dom_markup.specs.Writing.{Writes};

use crate::find::find_byte;
use crate::writing::PutText;
pub use dom_nodes::escaping::html_escape;
use memchr::memmem::Finder;
use memchr::{memchr2, memchr3};

/// Writes escaped texts. It holds the searcher for a no-break space, which is built once.
#[derive(Drop)]
pub(crate) struct Escaper {
    space: Finder<'static>,
    ghost needle: { space ≡ 194 ∷ 160 ∷ [] },
}

impl Escaper {
    pub(crate) fn new() -> Escaper {
        Escaper {
            space: Finder::new(b"\xC2\xA0"),
        }
    }

    /// Writes a text, escaped as the content of a text node: `&`, `<`, `>` and no-break spaces.
    pub(crate) fn put_text<P: PutText<W>, W>(&self, w: &mut W, text: &str) -> Result<(), P::Fault>
        ensures { Writes (P.written w.old) (P.written w.new) result (escaped_text text.now) }
    {
        self.put_named::<InText, P, W>(w, text)
    }

    /// Writes a text, escaped as an attribute value: `&`, `"` and no-break spaces. Most values
    /// contain none of these, nor the first byte of a no-break space, and are searched once.
    pub(crate) fn put_value<P: PutText<W>, W>(&self, w: &mut W, text: &str) -> Result<(), P::Fault>
        ensures { Writes (P.written w.old) (P.written w.new) result (escaped_value text.now) }
    {
        match memchr3(b'&', b'"', 0xC2, text.as_bytes()) {
            Some(_) => self.put_named::<InValue, P, W>(w, text),
            None => P::put(w, text),
        }
    }

    /// Writes a text in which each character of `C` and each no-break space is escaped.
    fn put_named<C: Cut, P: PutText<W>, W>(&self, w: &mut W, text: &str) -> Result<(), P::Fault>
        ensures { Writes (P.written w.old) (P.written w.new) result (C.escaped text.now) }
    {
        let mut rest = text;
        while let Some(named) = C::cut(rest) {
            self.put_spaced::<P, W>(w, named.before)?;
            P::put(w, named.name)?;
            rest = named.after;
        }
        self.put_spaced::<P, W>(w, rest)
    }

    /// Writes a text in which each no-break space is escaped.
    fn put_spaced<P: PutText<W>, W>(&self, w: &mut W, text: &str) -> Result<(), P::Fault>
        ensures { Writes (P.written w.old) (P.written w.new) result (spaced text.now) }
    {
        let mut rest = text;
        while let Some(named) = self.cut_spaced(rest) {
            P::put(w, named.before)?;
            P::put(w, named.name)?;
            rest = named.after;
        }
        P::put(w, rest)
    }

    /// Splits the text at its first no-break space. Few texts contain the first byte of one, so
    /// that is searched first.
    fn cut_spaced<'a>(&self, text: &'a str) -> Option<Named<'a>>
        ensures { Cuts spaced (λ plain. plain) text.now result }
    {
        let bytes = text.as_bytes();
        find_byte(0xC2, bytes)?;
        let at = self.space.find(bytes)?;
        Some(Named {
            before: &text[..at],
            name: "&nbsp;",
            after: &text[at + 2..],
        })
    }
}

/// A text that is split at a character to escape: the text before it, what is written for it, and
/// the text after it.
#[derive(Clone, Copy)]
struct Named<'a> {
    before: &'a str,
    name: &'a str,
    after: &'a str,
}

/// Splits the text at an ASCII character, for which `name` is written.
fn cut_at<'a>(text: &'a str, at: usize, name: &'a str) -> Named<'a>
    requires within { at < length text.now }
    requires ascii { slice_index text.now at < 128 }
    ensures { IsCutAt text.now at name.now result }
{
    Named {
        before: &text[..at],
        name,
        after: &text[at + 1..],
    }
}

/// Which characters are escaped, besides no-break spaces.
trait Cut {
    // The escaped form of a text.
    ghost escaped: { List ℕ → List ℕ };

    /// Splits the text at the first of these characters.
    fn cut(text: &str) -> Option<Named<'_>>
        ensures { Cuts escaped spaced text.now result };
}

/// The characters that are escaped in a text node.
struct InText;

impl Cut for InText {
    ghost escaped = { escaped_text };

    fn cut(text: &str) -> Option<Named<'_>> {
        cut_text(text)
    }
}

/// The characters that are escaped in an attribute value.
struct InValue;

impl Cut for InValue {
    ghost escaped = { escaped_value };

    fn cut(text: &str) -> Option<Named<'_>> {
        cut_value(text)
    }
}

/// Splits the text at its first `&`, `<` or `>`.
fn cut_text(text: &str) -> Option<Named<'_>>
    ensures { Cuts escaped_text spaced text.now result }
{
    let bytes = text.as_bytes();
    let at = memchr3(b'&', b'<', b'>', bytes)?;
    Some(cut_at(text, at, text_name(bytes[at])))
}

/// Returns the named character reference of `&`, `<` or `>`.
fn text_name(byte: u8) -> &'static str
    requires { is_byte3 38 60 62 byte ≡ true }
    ensures { result.now ≡ text_char byte }
{
    if byte == b'&' {
        "&amp;"
    } else if byte == b'<' {
        "&lt;"
    } else {
        "&gt;"
    }
}

/// Splits the text at its first `&` or `"`.
fn cut_value(text: &str) -> Option<Named<'_>>
    ensures { Cuts escaped_value spaced text.now result }
{
    let bytes = text.as_bytes();
    let at = memchr2(b'&', b'"', bytes)?;
    Some(cut_at(text, at, value_name(bytes[at])))
}

/// Returns the named character reference of `&` or `"`.
fn value_name(byte: u8) -> &'static str
    requires { is_byte2 38 34 byte ≡ true }
    ensures { result.now ≡ value_char byte }
{
    if byte == b'&' { "&amp;" } else { "&quot;" }
}
