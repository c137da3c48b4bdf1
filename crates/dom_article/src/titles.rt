//! The title of an article, from the title of its page and its headings.

use crate::kinds::Tag;
use dom_nodes::fault::OutOfMemory;
use std::alloc::Global;

/// A heading: its tag and its text.
#[derive(Drop)]
pub(crate) struct Heading {
    pub(crate) tag: Tag,
    pub(crate) text: String,
}

/// What stands between the parts of a title, with a space on both sides.
static SEPARATORS: [&str; 11] = [
    " | ", " - ", " – ", " — ", " \\ ", " / ", " > ", " » ", " :: ", " · ", " • ",
];

/// How many words of a title are compared.
const COMPARED: usize = 100;

/// Returns the title of the article: the part of the page's title that a heading says; the longest
/// first heading of two words or more that is in it; its longest part, if that has three words; the
/// only first heading, if the title is short; and otherwise the title.
pub(crate) fn title_of<'a>(
    alloc: Global,
    title: &'a str,
    headings: &'a [Heading],
) -> Result<&'a str, OutOfMemory> {
    let parts = parts_of(alloc, title)?;
    if parts.len() > 1 {
        for heading in headings {
            for part in &parts {
                if has_word(part) && are_same_words(part, heading.text.as_str()) {
                    return Ok(part);
                }
            }
        }
    }
    if let Some(inside) = longest_inside(title, headings) {
        return Ok(inside);
    }
    let longest = longest_of(&parts);
    if count_words(longest) >= 3 {
        return Ok(longest);
    }
    Ok(only_heading(title, headings).unwrap_or(title))
}

/// Returns the parts of a title between separators.
fn parts_of(alloc: Global, title: &str) -> Result<Vec<&str>, OutOfMemory> {
    let mut parts = Vec::new(alloc);
    let mut begin = 0;
    for (at, c) in title.char_indices() {
        if c != ' ' || at < begin {
            continue;
        }
        let Some(rest) = title.get(at..) else {
            continue;
        };
        if let Some(length) = separator_length(rest) {
            if let Some(part) = title.get(begin..at) {
                parts.push(part)?;
            }
            begin = at.saturating_add(length);
        }
    }
    if let Some(part) = title.get(begin..) {
        parts.push(part)?;
    }
    Ok(parts)
}

/// Returns the length of the separator that a text begins with.
fn separator_length(text: &str) -> Option<usize> {
    for separator in &SEPARATORS {
        if text.starts_with(*separator) {
            return Some(separator.len());
        }
    }
    None
}

/// Returns the longest first heading of two words or more whose words are in the title.
fn longest_inside<'a>(title: &str, headings: &'a [Heading]) -> Option<&'a str> {
    let mut longest: Option<&'a str> = None;
    for heading in headings {
        let text = heading.text.as_str();
        if heading.tag != Tag::H1 || count_words(text) < 2 || !has_words(title, text) {
            continue;
        }
        let is_longer = match longest {
            Some(other) => text.len() > other.len(),
            None => true,
        };
        if is_longer {
            longest = Some(text);
        }
    }
    longest
}

fn longest_of<'a>(parts: &[&'a str]) -> &'a str {
    let mut longest = "";
    for part in parts {
        if part.len() > longest.len() {
            longest = *part;
        }
    }
    longest
}

/// Returns the only first heading, if the title is short.
fn only_heading<'a>(title: &str, headings: &'a [Heading]) -> Option<&'a str> {
    if title.len() >= 15 {
        return None;
    }
    let mut only: Option<&'a str> = None;
    for heading in headings {
        if heading.tag == Tag::H1 {
            if only.is_some() {
                return None;
            }
            only = Some(heading.text.as_str());
        }
    }
    only.filter(|text| !text.is_empty())
}

/// Returns whether a heading says the title: less than a quarter of its letters are in words that
/// the title doesn't have.
pub(crate) fn says_title(heading: &str, title: &str) -> bool {
    let mut all: usize = 0;
    let mut other: usize = 0;
    for word in heading.split(is_between_words) {
        all = all.saturating_add(word.len());
        let mut title_words = title.split(is_between_words).take(COMPARED);
        if !title_words.any(|known| known.eq_ignore_ascii_case(word)) {
            other = other.saturating_add(word.len());
        }
    }
    all > 0 && other < all.div_ceil(4) && has_word(title)
}

/// Returns whether the character stands between words.
fn is_between_words(c: char) -> bool {
    match c {
        '0'..='9' | 'a'..='z' | 'A'..='Z' | '_' => false,
        '\0'..='\u{a9}' | '\u{ab}'..='\u{b4}' | '\u{b6}'..='\u{b9}' | '\u{bb}'..='\u{bf}' => true,
        '\u{2000}'..='\u{206f}' | '\u{3000}'..='\u{3004}' | '\u{3008}'..='\u{3020}' => true,
        '\u{e000}'..='\u{f8ff}' | '\u{ff00}'..='\u{ff0f}' | '\u{ff1a}'..='\u{ff20}' => true,
        _ => false,
    }
}

fn has_word(text: &str) -> bool {
    text.split(is_between_words).any(|word| !word.is_empty())
}

fn count_words(text: &str) -> usize {
    text.split(is_between_words)
        .filter(|word| !word.is_empty())
        .count()
}

/// Returns whether two texts have the same words.
fn are_same_words(one: &str, other: &str) -> bool {
    let mut words = one.split(is_between_words).filter(|word| !word.is_empty());
    for word in other.split(is_between_words) {
        if word.is_empty() {
            continue;
        }
        match words.next() {
            Some(same) if same.eq_ignore_ascii_case(word) => {}
            _ => return false,
        }
    }
    words.next().is_none()
}

/// Returns whether a text has these words, one after another.
fn has_words(text: &str, words: &str) -> bool {
    for (at, _) in text.char_indices() {
        if let Some(rest) = text.get(at..)
            && begins_word(text, at)
            && begins_with_words(rest, words)
        {
            return true;
        }
    }
    false
}

fn begins_word(text: &str, at: usize) -> bool {
    match text.get(..at) {
        Some(front) => front.chars().next_back().is_none_or(is_between_words),
        None => false,
    }
}

/// Returns whether a text begins with these words.
fn begins_with_words(text: &str, words: &str) -> bool {
    let mut given = text.split(is_between_words).filter(|word| !word.is_empty());
    for word in words.split(is_between_words) {
        if word.is_empty() {
            continue;
        }
        match given.next() {
            Some(same) if same.eq_ignore_ascii_case(word) => {}
            _ => return false,
        }
    }
    true
}
