//! Whether an attribute's value passes the comparison of an attribute selector.

ghost use Rattle.std.specs.Prelude.{◌≡◌};
ghost use Rattle.dom_nodes.specs.Words.{words_of};
ghost use Rattle.dom_selectors.specs.Comparisons.{begins_with, begins_with_dash, compares};
ghost use Rattle.dom_selectors.specs.Comparisons.{ends_with, has_within, has_word, passes};
ghost use Rattle.dom_selectors.specs.Comparisons.{same_byte, same_text};

use crate::syntax::{AttrOperator, Comparison};
use dom_nodes::case_sensitivity::CaseSensitivity;

/// Returns whether the attribute value `found` passes the comparison.
pub fn passes(comparison: &Comparison, found: &str) -> bool
    ensures { result ≡ passes comparison.now found.now }
{
    let value = comparison.value.as_str();
    compares(
        comparison.operator,
        comparison.case_sensitivity,
        found,
        value,
    )
}

/// Returns whether the attribute value `found` passes the operator with this value.
pub fn compares(operator: AttrOperator, case: CaseSensitivity, found: &str, value: &str) -> bool
    ensures { result ≡ compares operator case found.now value.now }
{
    let (text, wanted) = (found.as_bytes(), value.as_bytes());
    match operator {
        AttrOperator::Equals => same_text(case, text, wanted),
        AttrOperator::Includes => has_word(case, found, wanted),
        AttrOperator::DashMatch => same_text(case, text, wanted)
            || begins_with_dash(case, text, wanted),
        AttrOperator::Prefix => !wanted.is_empty() && begins_with(case, text, wanted),
        AttrOperator::Suffix => !wanted.is_empty() && ends_with(case, text, wanted),
        AttrOperator::Substring => !wanted.is_empty() && has_within(case, text, wanted),
    }
}

fn same_byte(case: CaseSensitivity, a: u8, b: u8) -> bool
    ensures { result ≡ same_byte case a b }
{
    match case {
        CaseSensitivity::CaseSensitive => a == b,
        CaseSensitivity::AsciiCaseInsensitive => a.to_ascii_lowercase() == b.to_ascii_lowercase(),
    }
}

/// Returns whether both texts are equal.
pub fn same_text(case: CaseSensitivity, text: &[u8], other: &[u8]) -> bool
    ensures { result ≡ same_text case text.now other.now }
{
    if text.len() != other.len() {
        return false;
    }
    begins_with(case, text, other)
}

/// Returns whether one of the whitespace-separated words of the text is the value.
fn has_word(case: CaseSensitivity, text: &str, value: &[u8]) -> bool
    ensures { result ≡ has_word case value.now (words_of text.now) }
{
    for word in text.split_ascii_whitespace() {
        if same_text(case, word.as_bytes(), value) {
            return true;
        }
    }
    false
}

/// Returns whether the text starts with `front`.
pub fn begins_with(case: CaseSensitivity, text: &[u8], front: &[u8]) -> bool
    ensures { result ≡ begins_with case text.now front.now }
{
    if text.len() < front.len() {
        return false;
    }
    let mut n = 0;
    while n < front.len() {
        if !same_byte(case, text[n], front[n]) {
            return false;
        }
        n += 1;
    }
    true
}

/// Returns whether the text starts with the value and then `-`.
fn begins_with_dash(case: CaseSensitivity, text: &[u8], value: &[u8]) -> bool
    ensures { result ≡ begins_with_dash case text.now value.now }
{
    if text.len() <= value.len() {
        return false;
    }
    begins_with(case, text, value) && text[value.len()] == b'-'
}

fn ends_with(case: CaseSensitivity, text: &[u8], end: &[u8]) -> bool
    ensures { result ≡ ends_with case text.now end.now }
{
    same_text(case, &text[text.len().saturating_sub(end.len())..], end)
}

/// Returns whether the text contains `inner`.
pub fn has_within(case: CaseSensitivity, text: &[u8], inner: &[u8]) -> bool
    ensures { result ≡ has_within case text.now inner.now }
{
    let mut n = 0;
    while n < text.len() {
        if begins_with(case, &text[n..], inner) {
            return true;
        }
        n += 1;
    }
    begins_with(case, &text[n..], inner)
}
