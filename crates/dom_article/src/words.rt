//! The words of the lists in a class or an id.

ghost use Rattle.std.specs.Prelude.{◌≡◌, ◌≤◌, ◌<◌, ◌+◌, ◌-◌, ◌++◌, ◌∷◌, []};
ghost use Rattle.std.specs.Prelude.{IfOk, drop, false, get_or, if◌then◌else◌, length, map};
ghost use Rattle.std.specs.Prelude.{slice_get, slice_set, take, true};
ghost use Rattle.std.specs.Option.{option_copied, option_map_or};
ghost use Rattle.dom_article.specs.Words.{AreEnough, IsIndex, IsIndexTo, begins, class_length};
ghost use Rattle.dom_article.specs.Words.{ends_word, found_after, has_capital, has_look};
ghost use Rattle.dom_article.specs.Words.{is_capital, is_here, is_in_class, is_letter_or_digit};
ghost use Rattle.dom_article.specs.Words.{is_look, is_small};
ghost use Rattle.dom_article.specs.Words.{is_whole, length_to, letter_number, look_at, look_length};
ghost use Rattle.dom_article.specs.Words.{lowered, may_be_look, no_words, pair_at, pair_of, scan, skip_after};
ghost use Rattle.dom_article.specs.Words.{table, with_list, with_start, with_word, with_words};
ghost use Rattle.dom_article.specs.Words.{without_justify, words_in};

use crate::tables::{CONTENT_LOOKS, List, TEXT_LOOKS, WORDS, Way};
use dom_nodes::fault::OutOfMemory;
use std::alloc::Global;

/// Which lists have a word that is in a text.
#[derive(Clone, Copy, Drop)]
pub(crate) struct Found {
    pub(crate) unlikely: bool,
    pub(crate) maybe: bool,
    pub(crate) strong: bool,
    pub(crate) positive: bool,
    pub(crate) negative: bool,
    pub(crate) byline: bool,
}

impl Found {
    /// No word was found.
    pub(crate) const NONE: Found = Found {
        unlikely: false,
        maybe: false,
        strong: false,
        positive: false,
        negative: false,
        byline: false,
    };

    fn add(&mut self, list: List)
        ensures { self.new ≡ with_list list self.old }
    {
        match list {
            List::Unlikely => self.unlikely = true,
            List::Maybe => self.maybe = true,
            List::Strong => self.strong = true,
            List::Positive => self.positive = true,
            List::Negative => self.negative = true,
            List::Byline => self.byline = true,
        }
    }
}

/// How many numbers of two letters there are.
const PAIRS: usize = 27 * 27;

/// The words of the lists, by their first two letters.
#[derive(Drop)]
pub(crate) struct Words {
    /// Where in the table the first of the words with each two first letters is.
    starts: Vec<usize>,
    /// The place behind the last of them; 0 if there is none.
    ends: Vec<usize>,
    /// A text in lower case; it is kept for the next one.
    low: Vec<u8>,
}

impl Words {
    /// Returns the words of the lists. Fails only when memory runs out.
    pub(crate) fn new(alloc: Global) -> Result<Words, OutOfMemory>
        ensures { IfOk result (λ words. IsIndex words) }
    {
        let mut words = Words {
            starts: vec![in alloc; 0; PAIRS]?,
            ends: vec![in alloc; 0; PAIRS]?,
            low: Vec::new(alloc),
        };
        for at in 0..WORDS.len() {
            words.enter(at, pair_at(at));
        }
        Ok(words)
    }

    /// Enters the word at this place of the table, whose first two letters have this number.
    fn enter(&mut self, at: usize, pair: usize)
        requires pair { pair < 729 }
        requires at { at < 118 }
        requires is { get_or (map pair_at table) at 0 ≡ pair }
        requires index { IsIndexTo (map pair_at table) at
            self.old.starts.items self.old.ends.items }
        ensures { IsIndexTo (map pair_at table) (at + 1)
            self.new.starts.items self.new.ends.items }
    {
        self.begin(at, pair);
        set_number(&mut self.ends, pair, at + 1);
    }

    /// Enters this place as the first one of the words with these first two letters, if there is
    /// none yet.
    fn begin(&mut self, at: usize, pair: usize)
        ensures starts { self.new.starts.items
            ≡ with_start pair at self.old.starts.items self.old.ends.items }
        ensures ends { self.new.ends.items ≡ self.old.ends.items }
    {
        if number_at(&self.ends, pair) == 0 {
            set_number(&mut self.starts, pair, at);
        }
    }

    /// Returns which lists have a word in the text. Letters are compared in lower case; a word ends
    /// between a small letter and a capital, and classes that say how a text looks don't count.
    /// Fails only when memory runs out.
    pub(crate) fn find(&mut self, text: &str) -> Result<Found, OutOfMemory>
        requires { IsIndex self.old }
        ensures index { IsIndex self.new }
        ensures found { IfOk result (λ found. found ≡ words_in text.now) }
    {
        if text.is_empty() {
            return Ok(Found::NONE);
        }
        let bytes = text.as_bytes();
        if !has_capital(bytes) {
            return Ok(self.scan(bytes));
        }
        lower(&mut self.low, bytes)?;
        Ok(self.scan(&self.low))
    }

    /// Returns which lists have a word in a text in lower case.
    fn scan(&self, text: &[u8]) -> Found
        requires { IsIndex self.now }
        ensures { result ≡ scan true 0 text.now no_words }
    {
        let mut found = Found::NONE;
        let mut skip = 0;
        let mut first = true;
        for at in 0..text.len() {
            skip = self.step(&text[at..], first, skip, &mut found);
            first = !is_letter_or_digit(text[at]);
        }
        found
    }

    /// Finds the words at the start of a text, unless it is skipped, and returns how many of the
    /// characters behind its first one are skipped. `first` says that no letter or digit is before
    /// it.
    fn step(&self, text: &[u8], first: bool, skip: usize, found: &mut Found) -> usize
        requires { IsIndex self.now }
        ensures skip { result ≡ skip_after first skip text.now }
        ensures found { found.new ≡ found_after first skip text.now found.old }
    {
        if skip > 0 {
            return skip - 1;
        }
        if ends_word(text) {
            return 0;
        }
        let length = look_at(text, first);
        if length > 0 {
            return length - 1;
        }
        self.find_at(text, first, found);
        0
    }

    /// Finds the words at the start of a text.
    fn find_at(&self, text: &[u8], first: bool, found: &mut Found)
        requires { IsIndex self.now }
        ensures { found.new ≡ with_words table text.now first found.old }
    {
        add_words(self.beginning_with(text), text, first, found);
    }

    /// Returns the words of the table that begin with the first two letters of a text.
    fn beginning_with(&self, text: &[u8]) -> &'static [(&'static str, Way, List)]
        requires { IsIndex self.now }
        ensures { AreEnough text.now (map (λ e. (e.0.now, e.1, e.2)) result.now) }
    {
        let pair = pair_of(text);
        words_between(number_at(&self.starts, pair), number_at(&self.ends, pair))
    }
}

/// Returns the number at a place of a list; 0 if the list ends before it.
fn number_at(numbers: &[usize], at: usize) -> usize
    ensures { result ≡ get_or numbers.now at 0 }
{
    match numbers.get(at) {
        Some(number) => *number,
        None => 0,
    }
}

/// Changes the number at a place of a list.
fn set_number(numbers: &mut Vec<usize>, at: usize, number: usize)
    ensures { numbers.new.items ≡ slice_set numbers.old.items at number }
{
    if let Some(slot) = numbers.get_mut(at) {
        *slot = number;
    }
}

/// Returns the number of the first two letters of the word at this place of the table.
fn pair_at(at: usize) -> usize
    requires { at < 118 }
    ensures is { get_or (map pair_at table) at 0 ≡ result }
    ensures small { result < 729 }
{
    pair_in(&WORDS, at)
}

/// Returns the number of the first two letters of the word at this place of a list.
fn pair_in(words: &[(&str, Way, List)], at: usize) -> usize
    ensures is { get_or (map pair_at (map (λ e. (e.0.now, e.1, e.2)) words.now)) at 0 ≡ result }
    ensures small { result < 729 }
{
    pair_found(words, at)
}

/// Returns the number of the first two letters of the word at this place of a list; 0 if there is
/// none.
fn pair_found(words: &[(&str, Way, List)], at: usize) -> usize
    ensures is { result ≡ option_map_or (λ e. pair_of e.0.now) (slice_get words.now at) 0 }
    ensures small { result < 729 }
{
    match words.get(at) {
        Some(word) => pair_of(word.0.as_bytes()),
        None => 0,
    }
}

/// Returns the words of the table from one place to another.
fn words_between(start: usize, end: usize) -> &'static [(&'static str, Way, List)]
    requires { end ≤ 118 }
    ensures { map (λ e. (e.0.now, e.1, e.2)) result.now ≡ take (end - start) (drop start table) }
{
    if end <= start {
        return &[];
    }
    part(&WORDS, start, end)
}

/// Returns the words of a list from one place to another.
fn part<'a>(
    words: &'a [(&'static str, Way, List)],
    start: usize,
    end: usize,
) -> &'a [(&'static str, Way, List)]
    requires order { start ≤ end }
    requires inside { end ≤ length words.now }
    ensures { result.now ≡ take (end - start) (drop start words.now) }
{
    &words[start..end]
}

/// Adds the lists of those of the words that the text begins with.
fn add_words(words: &[(&str, Way, List)], text: &[u8], first: bool, found: &mut Found)
    ensures { found.new
        ≡ with_words (map (λ e. (e.0.now, e.1, e.2)) words.now) text.now first found.old }
{
    for at in 0..words.len() {
        add_word_at(words, at, text, first, found);
    }
}

/// Adds the list of the word at this place, if the text begins with the word.
fn add_word_at(words: &[(&str, Way, List)], at: usize, text: &[u8], first: bool, found: &mut Found)
    ensures { found.new
        ≡ option_map_or (λ e. with_word (e.0.now, e.1, e.2) text.now first found.old)
        (slice_get words.now at) found.old }
{
    if let Some(word) = words.get(at) {
        add_word(word, text, first, found);
    }
}

/// Adds the list of a word, if the text begins with the word.
fn add_word(word: &(&str, Way, List), text: &[u8], first: bool, found: &mut Found)
    ensures { found.new
        ≡ with_word (word.now.0.now, word.now.1, word.now.2) text.now first found.old }
{
    if is_here(word.0.as_bytes(), word.1, text, first) {
        found.add(word.2);
    }
}

/// Writes a text in lower case, with a hyphen between each small letter and a capital behind it.
fn lower(low: &mut Vec<u8>, text: &[u8]) -> Result<(), OutOfMemory>
    ensures { IfOk result (λ _. low.new.items ≡ lowered false text.now) }
{
    low.clear();
    let mut small = false;
    for byte in text {
        push_lower(low, *byte, small)?;
        small = is_small(*byte);
    }
    Ok(())
}

/// Writes a letter in lower case, with a hyphen before a capital behind a small letter.
fn push_lower(low: &mut Vec<u8>, byte: u8, after_small: bool) -> Result<(), OutOfMemory>
    ensures { IfOk result (λ _. low.new.items ≡ low.old.items
        ++ lowered after_small (byte ∷ [])) }
{
    if after_small && is_capital(byte) {
        low.push(b'-')?;
    }
    low.push(byte.to_ascii_lowercase())?;
    Ok(())
}

fn has_capital(text: &[u8]) -> bool
    ensures { result ≡ has_capital text.now }
{
    text.iter().any(|byte| is_capital(*byte))
}

fn is_capital(byte: u8) -> bool
    ensures { result ≡ is_capital byte }
{
    byte >= b'A' && byte <= b'Z'
}

fn is_small(byte: u8) -> bool
    ensures { result ≡ is_small byte }
{
    byte >= b'a' && byte <= b'z'
}

/// Returns the number of the first two letters of a text, by which the words are found.
fn pair_of(text: &[u8]) -> usize
    ensures is { result ≡ pair_of text.now }
    ensures small { result < 729 }
{
    letter_number(text.first()) * 27 + letter_number(text.get(1))
}

/// Returns the number of a small letter: 1 for `a`; 0 for what is none.
fn letter_number(byte: Option<&u8>) -> usize
    ensures is { result ≡ option_map_or letter_number (option_copied byte.entry) 0 }
    ensures small { result ≤ 26 }
{
    let Some(byte) = byte else {
        return 0;
    };
    if !is_small(*byte) {
        return 0;
    }
    (*byte - b'a') as usize + 1
}

/// Returns whether a text begins with the word, and if that counts as a whole word alone, whether
/// it stands alone. `first` says that no letter or digit is before the text.
fn is_here(word: &[u8], way: Way, text: &[u8], first: bool) -> bool
    ensures { result ≡ is_here word.now way text.now first }
{
    let whole = is_whole(way);
    if whole && !first {
        return false;
    }
    let Some(rest) = text.strip_prefix(word) else {
        return false;
    };
    !whole || ends_word(rest)
}

fn is_whole(way: Way) -> bool
    ensures { result ≡ is_whole way }
{
    matches!(way, Way::Whole)
}

/// Returns whether no letter and no digit is at the start.
fn ends_word(rest: &[u8]) -> bool
    ensures { result ≡ ends_word rest.now }
{
    match rest.first() {
        Some(byte) => !is_letter_or_digit(*byte),
        None => true,
    }
}

fn is_letter_or_digit(byte: u8) -> bool
    ensures { result ≡ is_letter_or_digit byte }
{
    if is_small(byte) {
        return true;
    }
    byte >= b'0' && byte <= b'9'
}

/// Returns the length of a class at the start that only says how something looks; 0 if there is
/// none, or if a letter or a digit is before it.
fn look_at(text: &[u8], first: bool) -> usize
    ensures { result ≡ look_at first text.now }
{
    if first { look_length(text) } else { 0 }
}

/// Returns the length of a class at the start that only says how something looks, such as
/// `text-center` and `justify-content-between`; 0 if there is none.
fn look_length(text: &[u8]) -> usize
    ensures { result ≡ look_length text.now }
{
    if !may_be_look(text) {
        return 0;
    }
    length_of_look(text)
}

/// Returns whether a text begins with the first letter of such a class.
fn may_be_look(text: &[u8]) -> bool
    ensures { result ≡ may_be_look text.now }
{
    match text.first() {
        Some(byte) => *byte == b't' || *byte == b'c' || *byte == b'j',
        None => false,
    }
}

/// Returns the length of such a class at the start, whatever the first letter is.
fn length_of_look(text: &[u8]) -> usize
    ensures { result ≡ look_length text.now }
{
    if let Some(rest) = text.strip_prefix(b"text-") {
        return length_to(text, rest, &TEXT_LOOKS);
    }
    let start = without_justify(text);
    if let Some(rest) = start.strip_prefix(b"content-") {
        return length_to(text, rest, &CONTENT_LOOKS);
    }
    0
}

/// Returns the text without `justify-` at its start.
fn without_justify(text: &[u8]) -> &[u8]
    ensures { result.now ≡ without_justify text.now }
{
    match text.strip_prefix(b"justify-") {
        Some(rest) => rest,
        None => text,
    }
}

/// Returns the length of the class that the text begins with, if `rest`, its end, begins with one
/// of these words; otherwise 0.
fn length_to(text: &[u8], rest: &[u8], looks: &[&str]) -> usize
    ensures { result ≡ length_to text.now rest.now (map (λ look. look.now) looks.now) }
{
    if has_look(rest, looks) {
        class_length(text)
    } else {
        0
    }
}

/// Returns whether a text begins with one of the words, and that ends there.
fn has_look(text: &[u8], looks: &[&str]) -> bool
    ensures { result ≡ has_look (map (λ look. look.now) looks.now) text.now false }
{
    let mut has = false;
    for at in 0..looks.len() {
        has = has_look_at(looks, at, text, has);
    }
    has
}

fn has_look_at(looks: &[&str], at: usize, text: &[u8], other: bool) -> bool
    ensures { result ≡ option_map_or (λ look. if is_look look.now text.now then true else other)
        (slice_get looks.now at) other }
{
    match looks.get(at) {
        Some(look) => is_look_or(look.as_bytes(), text, other),
        None => other,
    }
}

fn is_look_or(look: &[u8], text: &[u8], other: bool) -> bool
    ensures { result ≡ (if is_look look.now text.now then true else other) }
{
    if is_look(look, text) { true } else { other }
}

/// Returns whether a text begins with the word, and that ends there.
fn is_look(look: &[u8], text: &[u8]) -> bool
    ensures { result ≡ is_look look.now text.now }
{
    match text.strip_prefix(look) {
        Some(rest) => ends_word(rest),
        None => false,
    }
}

/// Returns the length of the class that the text begins with.
fn class_length(text: &[u8]) -> usize
    ensures { result ≡ class_length text.now }
{
    for at in 0..text.len() {
        if !is_in_class(text[at]) {
            return at;
        }
    }
    text.len()
}

fn is_in_class(byte: u8) -> bool
    ensures { result ≡ is_in_class byte }
{
    if byte == b'-' || byte == b'_' {
        return true;
    }
    is_capital(byte) || is_letter_or_digit(byte)
}
