//! What counts of a text: its size, its commas, and how it ends.

ghost use Rattle.std.specs.Prelude.{◌≡◌};
ghost use Rattle.dom_article.specs.Contents.{ends_sentence, is_comma, no_text, size_of};
ghost use Rattle.dom_article.specs.Contents.{text_facts, with_char, with_chars};
ghost use Rattle.dom_article.specs.Texts.{is_blank, is_visible};

use crate::sums::one_if;

/// What counts of a text.
#[derive(Clone, Copy, Drop)]
pub(crate) struct TextFacts {
    /// The characters that aren't white space; those of Chinese, Japanese and Korean count two.
    pub(crate) size: u32,
    pub(crate) commas: u32,
    /// Whether it ends with a mark that ends a sentence, such as a full stop.
    pub(crate) ends: bool,
    /// Whether it has the character ©.
    pub(crate) copyright: bool,
}

impl TextFacts {
    /// Nothing counts.
    pub(crate) const NONE: TextFacts = TextFacts {
        size: 0,
        commas: 0,
        ends: true,
        copyright: false,
    };

    /// Returns what counts of a text.
    pub(crate) fn of(text: &str) -> TextFacts
        ensures { result ≡ text_facts text.now }
    {
        if text.is_ascii() {
            return TextFacts::of_ascii(text.as_bytes());
        }
        TextFacts::of_chars(text)
    }

    /// Returns what counts of the characters of a text.
    fn of_chars(text: &str) -> TextFacts
        ensures { result ≡ text_facts text.now }
    {
        let mut facts = TextFacts::NONE;
        for c in text.chars() {
            facts.add(c);
        }
        facts
    }

    /// Returns what counts of a text of which each byte is a character.
    fn of_ascii(text: &[u8]) -> TextFacts
        ensures { result ≡ with_chars no_text text.now }
    {
        let mut facts = TextFacts::NONE;
        for byte in text {
            facts.add(char::from(*byte));
        }
        facts
    }

    /// Adds a character.
    fn add(&mut self, c: char)
        ensures { self.new ≡ with_char self.old c }
    {
        let size = size_of(c);
        self.size = self.size.saturating_add(size);
        self.commas = self.commas.saturating_add(one_if(is_comma(c)));
        if size > 0 {
            self.ends = ends_sentence(c);
        }
        self.copyright = self.copyright || c == '©';
    }
}

/// Returns what a character adds to the size of a text.
fn size_of(c: char) -> u32
    ensures { result ≡ size_of c }
{
    if is_blank(c) {
        return 0;
    }
    let number = c as u32;
    if number >= 0x2e80 && number <= 0xffef {
        return 2;
    }
    1
}

/// Returns whether a text has a character that leaves a mark.
pub(crate) fn is_visible(text: &str) -> bool
    ensures { result ≡ is_visible text.now }
{
    text.chars().any(|c| !is_blank(c))
}

/// Returns whether a character leaves no mark: a control character, white space, or one without
/// width.
fn is_blank(c: char) -> bool
    ensures { result ≡ is_blank c }
{
    let number = c as u32;
    if number <= 0x20 || number == 0x85 || number == 0xa0 || number == 0x1680 {
        return true;
    }
    if number >= 0x2000 && number <= 0x200b {
        return true;
    }
    if number == 0x2028 || number == 0x2029 || number == 0x202f || number == 0x205f {
        return true;
    }
    number == 0x3000 || number == 0xfeff
}

/// Returns whether the character ends a sentence.
fn ends_sentence(c: char) -> bool
    ensures { result ≡ ends_sentence c }
{
    match c {
        '.' | '!' | '?' | ':' | '\u{3002}' | '\u{ff01}' | '\u{ff1f}' | '\u{2026}' => true,
        _ => false,
    }
}

/// Returns whether the character is a comma of some script.
fn is_comma(c: char) -> bool
    ensures { result ≡ is_comma c }
{
    match c {
        ',' | '\u{60c}' | '\u{fe50}' | '\u{fe10}' | '\u{fe11}' | '\u{2e41}' | '\u{2e34}' => true,
        '\u{2e32}' | '\u{ff0c}' | '\u{3001}' => true,
        _ => false,
    }
}
