//! Finding the place at which a text stops being a valid selector list.

ghost use Rattle.std.specs.Prelude.{◌≤◌, length};

use dom_select::matcher::Matcher;
use std::alloc::Global;

/// The number of bytes at the front of a text that are tried, so that a long text costs little.
const LONGEST: usize = 256;

/// Returns the length in bytes of the longest beginning of `text` that is a selector list by
/// itself, or 0 if none is. A caret under the byte at that place shows a reader where a bad
/// selector goes wrong.
///
/// Only the first 256 bytes are tried. A beginning for which memory is refused doesn't count as a
/// selector list.
///
/// For `a::text` it returns 1, and for `ul > li[` it returns 7.
pub fn valid_selector_prefix(alloc: Global, text: &str) -> usize
    ensures { result ≤ length text.now }
{
    for at in (0..text.len().min(LONGEST)).rev() {
        if is_selector(alloc, text, at) {
            return at;
        }
    }
    0
}

/// Returns whether the first `at` bytes of a text are a selector list.
fn is_selector(alloc: Global, text: &str, at: usize) -> bool {
    match text.get(..at) {
        Some(front) => Matcher::new(alloc, front).is_ok(),
        None => false,
    }
}
