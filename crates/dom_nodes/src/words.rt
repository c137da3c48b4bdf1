//! Words of texts, separated by ASCII whitespace, and comparisons of short strings.

ghost use Rattle.std.specs.Int.{w32, to_le_bytes};
ghost use Rattle.std.specs.Prelude.{◌≡◌, ◌+◌, ◌<◌, ◌≤◌, drop, length, map, take};
ghost use Rattle.std.specs.Str.{bytes_eq};
ghost use Rattle.dom_nodes.specs.Classes.{is_among_by, is_blank};
ghost use Rattle.dom_nodes.specs.Words.{is_among, words_of};

use crate::case_sensitivity::CaseSensitivity;

/// Returns whether the text is empty or has only characters of the Unicode property White_Space.
pub fn is_blank(text: &str) -> bool
    ensures { result ≡ is_blank text.now }
{
    text.chars().all(|c| c.is_whitespace())
}

/// Returns whether `word` is one of the words of `text`, which ASCII whitespace separates. The
/// words are compared byte by byte.
pub fn has_word(text: &str, word: &str) -> bool
    ensures { result ≡ is_among word.now (words_of text.now) }
{
    has_word_by(text, word.as_bytes(), CaseSensitivity::CaseSensitive)
}

/// Returns whether `name` is one of the words of `text`, compared with or without the case of ASCII
/// letters.
pub fn has_word_by(text: &str, name: &[u8], case_sensitivity: CaseSensitivity) -> bool
    ensures { result ≡ is_among_by case_sensitivity name.now (words_of text.now) }
{
    for word in text.split_ascii_whitespace() {
        if case_sensitivity.is_same(word.as_bytes(), name) {
            return true;
        }
    }
    false
}

/// Returns whether the text is equal to one of the names, byte by byte.
pub fn is_one_of(text: &str, names: &[&str]) -> bool
    ensures { result ≡ is_among text.now (map (λ name. name.now) names.now) }
{
    for name in names {
        if *name == text {
            return true;
        }
    }
    false
}

/// Returns whether two words are equal. Up to eight bytes are compared in pieces of fixed length
/// that may overlap, without a loop. For names, which are mostly a few letters long, this is faster
/// than a loop or a call of the general comparison.
#[inline(always)]
pub fn is_same_word(word: &[u8], other: &[u8]) -> bool
    ensures { result ≡ bytes_eq word.now other.now }
{
    let length = other.len();
    if word.len() != length {
        return false;
    }
    if length < 4 {
        return length == 0 || is_same_short(word, other);
    }
    if length <= 8 {
        return is_same_four(word, other, 0) & is_same_four(word, other, length - 4);
    }
    is_same_long(word, other)
}

/// Returns whether two words of equal length, one to three bytes, are equal. The first, the middle
/// and the last byte cover all bytes of such words, and may be the same byte.
#[inline(always)]
fn is_same_short(word: &[u8], other: &[u8]) -> bool
    requires same_length { length word.now ≡ length other.now }
    requires some { 0 < length word.now }
    requires few { length word.now ≤ 3 }
    ensures { result ≡ bytes_eq word.now other.now }
{
    let (middle, last) = (other.len() / 2, other.len() - 1);
    (word[0] == other[0]) & (word[middle] == other[middle]) & (word[last] == other[last])
}

/// Returns whether two texts have the same four bytes from index `at` on.
#[inline(always)]
fn is_same_four(word: &[u8], other: &[u8], at: usize) -> bool
    requires word { at + 4 ≤ length word.now }
    requires other { at + 4 ≤ length other.now }
    ensures { result ≡ bytes_eq (take 4 (drop at word.now)) (take 4 (drop at other.now)) }
{
    four_at(word, at) == four_at(other, at)
}

/// Returns the four bytes from index `at` on as one integer.
#[inline(always)]
fn four_at(text: &[u8], at: usize) -> u32
    requires { at + 4 ≤ length text.now }
    ensures { to_le_bytes w32 result ≡ take 4 (drop at text.now) }
{
    u32::from_le_bytes([text[at], text[at + 1], text[at + 2], text[at + 3]])
}

/// Returns whether two words of any length are equal. It is never inlined, so that callers of
/// `is_same_word` stay small.
#[inline(never)]
fn is_same_long(word: &[u8], other: &[u8]) -> bool
    ensures { result ≡ bytes_eq word.now other.now }
{
    word == other
}
