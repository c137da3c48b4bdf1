//! Texts and values of attributes, as they are written.

ghost use Rattle.std.specs.Prelude.{◌≡◌, ◌++◌, ◌∷◌, [], IfOk, MatchOption, OnOk, Some, false, true};
ghost use Rattle.std.specs.Prelude.{filter, map, string_bytes};
ghost use Rattle.std.specs.Option.{option_map};
ghost use Rattle.dom_clean.specs.Cuts.{SpellsAfter};
ghost use Rattle.dom_clean.specs.Fates.{cleaned_classes, prefixed, spellable};
ghost use Rattle.dom_clean.specs.Fates.{unless_empty, with_words};
ghost use Rattle.calm_pages.specs.Calm.{begins_line};
ghost use Rattle.dom_nodes.specs.Ascii.{line_feed};
ghost use Rattle.dom_nodes.specs.Classes.{with_word};
ghost use Rattle.dom_nodes.specs.Words.{is_among, words_of};
ghost use Rattle.dom_clean.specs.Cleaned.{after_lines};
ghost use Rattle.dom_clean.specs.Policies.{policy_of};
ghost use Rattle.dom_markup.specs.WrittenTrees.{safe_char};
ghost use Rattle.dom_clean.specs.Written.{safe_value};
ghost use Rattle.dom_markup.specs.Escaping.{escaped_text, text_char};

use crate::lists::{Lists, is_among};
use dom_nodes::fault::OutOfMemory;
use memchr::{memchr, memchr2, memchr3};
use std::alloc::{AllocError, Global};

/// Returns the text without U+0000 and carriage returns, which no calm page has.
pub(crate) fn spellable(alloc: Global, text: &str) -> Result<String, OutOfMemory>
    ensures { IfOk result (λ made. string_bytes made ≡ spellable text.now) }
{
    let mut made = String::new(alloc);
    let mut rest = text;
    while let Some((front, later)) = cut_unspelled(rest) {
        made.push_str(front)?;
        rest = later;
    }
    made.push_str(rest)?;
    Ok(made)
}

/// Splits the text at its first U+0000 or carriage return, which neither part has.
fn cut_unspelled(text: &str) -> Option<(&str, &str)>
    ensures { MatchOption result (spellable text.now ≡ text.now)
        (λ parts. SpellsAfter text.now parts.0.now parts.1.now) }
{
    let at = memchr2(b'\0', b'\r', text.as_bytes())?;
    Some((&text[..at], &text[at + 1..]))
}

/// Appends a text, escaped like the text of a text node. Most texts have no character to escape, and
/// are copied at once.
pub(crate) fn push_text(text: &mut String, contents: &str) -> Result<(), OutOfMemory>
    ensures { OnOk result (string_bytes text.new
        ≡ string_bytes text.old ++ escaped_text contents.now) }
{
    if !is_plain(contents) {
        return push_chars(text, contents);
    }
    text.push_str(contents)?;
    Ok(())
}

/// Returns whether the text has no `&`, `<` or `>`, nor the first byte of a no-break space.
fn is_plain(text: &str) -> bool
    ensures { result ≡ true → escaped_text text.now ≡ text.now }
{
    match memchr3(b'&', b'<', b'>', text.as_bytes()) {
        Some(_) => false,
        None => memchr(0xC2, text.as_bytes()).is_none(),
    }
}

/// Appends a text, escaped, character by character.
fn push_chars(text: &mut String, contents: &str) -> Result<(), OutOfMemory>
    ensures { OnOk result (string_bytes text.new
        ≡ string_bytes text.old ++ escaped_text contents.now) }
{
    for c in contents.chars() {
        push_text_char(text, c)?;
    }
    Ok(())
}

fn push_text_char(text: &mut String, c: char) -> Result<(), AllocError>
    ensures { OnOk result (string_bytes text.new ≡ string_bytes text.old ++ text_char c) }
{
    if c == '&' {
        text.push_str("&amp;")
    } else if c == '<' {
        text.push_str("&lt;")
    } else if c == '>' {
        text.push_str("&gt;")
    } else if c == '\u{a0}' {
        text.push_str("&nbsp;")
    } else {
        text.push(c)
    }
}

/// Appends the value of an attribute, escaped for double quotes; `<` and `>` are escaped, too.
pub(crate) fn push_value(text: &mut String, value: &str) -> Result<(), OutOfMemory>
    ensures { OnOk result (string_bytes text.new ≡ string_bytes text.old ++ safe_value value.now) }
{
    for c in value.chars() {
        push_value_char(text, c)?;
    }
    Ok(())
}

fn push_value_char(text: &mut String, c: char) -> Result<(), AllocError>
    ensures { OnOk result (string_bytes text.new ≡ string_bytes text.old ++ safe_char c) }
{
    if c == '"' {
        return text.push_str("&quot;");
    }
    push_text_char(text, c)
}

/// Returns the text without the line feeds at its front.
pub(crate) fn after_lines(text: &str) -> &str
    ensures { result.now ≡ after_lines text.now }
{
    let mut rest = text;
    while let Some(later) = strip_line(rest) {
        rest = later;
    }
    rest
}

/// Returns the text after a line feed, if it begins with one.
fn strip_line(text: &str) -> Option<&str>
    ensures { MatchOption result (begins_line text.now ≡ false)
        (λ rest. text.now ≡ line_feed ∷ rest.now) }
{
    let Some((first, _)) = text.as_bytes().split_first() else {
        return None;
    };
    if *first != b'\n' {
        return None;
    }
    Some(&text[1..])
}

/// Returns the allowed classes of a value, or `None` if there are none.
pub(crate) fn cleaned_classes(
    alloc: Global,
    lists: &Lists,
    value: String,
) -> Result<Option<String>, OutOfMemory>
    ensures { IfOk result (λ left. option_map string_bytes left
        ≡ cleaned_classes (policy_of lists.now).classes (string_bytes value)) }
{
    match &lists.classes {
        None => Ok(Some(value)),
        Some(classes) => kept_words(alloc, classes, value.as_str()),
    }
}

/// Returns the id with the prefix in front, unless it begins with it.
pub(crate) fn prefixed(prefix: &str, value: String) -> Result<Option<String>, OutOfMemory>
    ensures { IfOk result (λ made. option_map string_bytes made
        ≡ Some (prefixed prefix.now (string_bytes value))) }
{
    if value.as_bytes().starts_with(prefix.as_bytes()) {
        return Ok(Some(value));
    }
    let mut made = String::from_str(*value.allocator(), prefix)?;
    made.push_str(value.as_str())?;
    Ok(Some(made))
}

/// Returns the words of a value that are among the classes, or `None` if there are none.
fn kept_words(alloc: Global, classes: &[String], value: &str) -> Result<Option<String>, OutOfMemory>
    ensures { IfOk result (λ left. option_map string_bytes left ≡ unless_empty
        (with_words [] (filter (λ word. is_among word (map string_bytes classes.now))
        (words_of value.now)))) }
{
    let made = joined_words(alloc, classes, value)?;
    if made.is_empty() {
        return Ok(None);
    }
    Ok(Some(made))
}

/// Returns the words of a value that are among the classes, with a space between each two.
fn joined_words(alloc: Global, classes: &[String], value: &str) -> Result<String, OutOfMemory>
    ensures { IfOk result (λ made. string_bytes made ≡ with_words []
        (filter (λ word. is_among word (map string_bytes classes.now)) (words_of value.now))) }
{
    let mut made = String::new(alloc);
    for word in value.split_ascii_whitespace() {
        if !is_among(word, classes) {
            continue;
        }
        push_word(&mut made, word)?;
    }
    Ok(made)
}

/// Appends a word, after a space if the text isn't empty.
fn push_word(text: &mut String, word: &str) -> Result<(), OutOfMemory>
    ensures { OnOk result (string_bytes text.new ≡ with_word (string_bytes text.old) word.now) }
{
    if !text.is_empty() {
        text.push_str(" ")?;
    }
    text.push_str(word)?;
    Ok(())
}
