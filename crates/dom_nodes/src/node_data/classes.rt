//! An element's classes: the words of its first attribute `class`, separated by ASCII whitespace
//! (HTML Standard, 3.2.6, global attributes).

ghost use Rattle.std.specs.Prelude.{◌≡◌, string_bytes, codes, true, IsOk, None, OnErr, OnOk, IfOk};
ghost use Rattle.dom_nodes.specs.Words.{class_words, words_of};
ghost use Rattle.dom_nodes.specs.Classes.{is_among_by, is_blank, with_word, words_joined};
ghost use Rattle.dom_nodes.specs.Classes.{words_with, words_without};

use super::Element;
use crate::case_sensitivity::CaseSensitivity;
use crate::fault::OutOfMemory;
use crate::text::Text;
use crate::words::{has_word, has_word_by, is_blank};
use std::alloc::Global;

impl Element {
    ghost use Rattle.dom_nodes.specs.Attrs.{attr_of};
    ghost use Rattle.dom_nodes.specs.Classes.{with_classes, without_classes};

    /// Returns whether `name` is one of the words of the first attribute `class`, compared with or
    /// without the case of ASCII letters. For an empty name the answer is false.
    pub fn has_class_bytes(&self, name: &[u8], case_sensitivity: CaseSensitivity) -> bool
        ensures { result ≡ is_among_by case_sensitivity name.now (class_words self.now.attrs) }
    {
        has_word_by(self.class_text(), name, case_sensitivity)
    }

    /// Adds the words of `classes` that the element doesn't have yet, each once, behind the words
    /// of the first attribute `class`; when there is no such attribute, one is appended. The words
    /// in the new value are joined by one space. A blank `classes` changes nothing. When memory is
    /// refused, it fails with `OutOfMemory` and the element is unchanged.
    pub fn add_class(&mut self, classes: &str) -> Result<(), OutOfMemory>
        ensures ok { OnOk result (self.new ≡ record self.old {
          attrs = with_classes classes.now self.old.attrs;
        }) }
        ensures err { OnErr result (self.new ≡ self.old) }
        ensures blank { is_blank classes.now ≡ true → IsOk result }
    {
        if is_blank(classes) {
            return Ok(());
        }
        let value = words_with(self.attrs.allocator(), self.class_text(), classes)?;
        self.attrs.set("class", Text::from(value))
    }

    /// Removes the words of `classes` from the first attribute `class`; the words that stay are
    /// joined by one space. Nothing changes when `classes` is blank or the element has no attribute
    /// `class`. When memory is refused, it fails with `OutOfMemory` and the element is unchanged.
    pub fn remove_class(&mut self, classes: &str) -> Result<(), OutOfMemory>
        ensures ok { OnOk result (self.new ≡ record self.old {
          attrs = without_classes classes.now self.old.attrs;
        }) }
        ensures err { OnErr result (self.new ≡ self.old) }
        ensures blank { is_blank classes.now ≡ true → IsOk result }
        ensures no_class { attr_of self.old.attrs (codes "class") ≡ None → IsOk result }
    {
        if is_blank(classes) {
            return Ok(());
        }
        if !self.has_attr("class") {
            return Ok(());
        }
        let value = words_without(self.attrs.allocator(), self.class_text(), classes)?;
        self.attrs.set("class", Text::from(value))
    }

    /// Returns the value of the first attribute `class`, or an empty text when there is none.
    fn class_text(&self) -> &str
        ensures { words_of result.now ≡ class_words self.now.attrs }
    {
        match self.class() {
            Some(classes) => classes,
            None => "",
        }
    }
}

/// Returns the words of `text` that aren't words of `others`, joined by one space.
fn words_without(alloc: Global, text: &str, others: &str) -> Result<String, OutOfMemory>
    ensures joined { IfOk result (λ made.
        string_bytes made ≡ words_joined
        (words_without (words_of text.now) (words_of others.now))) }
    ensures words { IfOk result (λ made.
        words_of (string_bytes made) ≡ words_without (words_of text.now) (words_of others.now)) }
{
    let mut made = String::new(alloc);
    for word in text.split_ascii_whitespace() {
        if has_word(others, word) {
            continue;
        }
        push_word(&mut made, word)?;
    }
    Ok(made)
}

/// Returns the words of `text`, and behind them the words of `added` that aren't among them, each
/// once. All are joined by one space.
fn words_with(alloc: Global, text: &str, added: &str) -> Result<String, OutOfMemory>
    ensures joined { IfOk result (λ made.
        string_bytes made ≡ words_joined (words_with (words_of text.now) (words_of added.now))) }
    ensures words { IfOk result (λ made.
        words_of (string_bytes made) ≡ words_with (words_of text.now) (words_of added.now)) }
{
    let mut made = words_without(alloc, text, "")?;
    for word in added.split_ascii_whitespace() {
        if has_word(made.as_str(), word) {
            continue;
        }
        push_word(&mut made, word)?;
    }
    Ok(made)
}

/// Appends a word, after a space if the text isn't empty.
fn push_word(text: &mut String, word: &str) -> Result<(), OutOfMemory>
    ensures { OnOk result (string_bytes text.new ≡ with_word (string_bytes text.old) word.now) }
{
    if !text.is_empty() {
        text.push(' ')?;
    }
    text.push_str(word)?;
    Ok(())
}
