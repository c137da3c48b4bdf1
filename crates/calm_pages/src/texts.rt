//! Tests of a page's bytes: whether the parser of explicit markup and the HTML tokenizer read them
//! alike.

ghost use Rattle.std.specs.Prelude.{◌≡◌, ◌==◌, ◌↔◌, IsTrue, not};
ghost use Rattle.std.specs.List.{list_all};
ghost use Rattle.dom_markup.specs.Bytes.{is_whitespace};
ghost use Rattle.dom_nodes.specs.Ascii.{greater_than};
ghost use Rattle.calm_pages.specs.Calm.{begins_close, begins_line, has_close};
ghost use Rattle.calm_pages.specs.Calm.{is_bare, is_calm_at, is_calm_byte, is_calm_text};
ghost use Rattle.page_trees.specs.Framed.{IsFramed};
ghost use Rattle.calm_pages.specs.Calm.{begins_other_tag, is_plain_reference};

use memchr::memchr;

/// The smallest size in bytes of a page with the start and the end that `is_framed` tests.
const LEAST: usize = 34;

/// Returns whether the page starts with the doctype and `<html`, and ends with `</body></html>`, in
/// upper or lower case.
pub fn is_framed(page: &str) -> bool
    ensures { IsTrue result ↔ IsFramed page.now }
{
    let bytes = page.as_bytes();
    let length = bytes.len();
    if length < LEAST {
        return false;
    }
    if !bytes[..20].eq_ignore_ascii_case(b"<!doctype html><html") {
        return false;
    }
    bytes[length - 14..].eq_ignore_ascii_case(b"</body></html>")
}

/// Returns whether each byte of the page is calm, that is, the parser of explicit markup and the
/// HTML tokenizer read it alike.
pub fn is_calm_text(page: &str) -> bool
    ensures { result ≡ is_calm_text page.now }
{
    let bytes = page.as_bytes();
    if !is_calm_at(0, bytes) {
        return false;
    }
    if !is_calm_at(b'\r', bytes) {
        return false;
    }
    is_calm_at(b'&', bytes) && is_calm_at(b'<', bytes)
}

/// Returns whether each occurrence of this byte is read alike by both parsers.
#[inline(always)]
fn is_calm_at(byte: u8, bytes: &[u8]) -> bool
    ensures { result ≡ is_calm_at byte bytes.now }
{
    let mut rest = bytes;
    while let Some(at) = memchr(byte, rest) {
        let (_, marked) = rest.split_at(at);
        let Some((_, after)) = marked.split_first() else {
            break;
        };
        if !is_calm_byte(byte, after) {
            return false;
        }
        rest = after;
    }
    true
}

/// Returns whether both parsers read a byte before these bytes alike: it isn't a null or a carriage
/// return, an `&` that the two read differently, or the `<` of a tag that calm pages don't have.
#[inline(always)]
fn is_calm_byte(byte: u8, after: &[u8]) -> bool
    ensures { result ≡ is_calm_byte byte after.now }
{
    match byte {
        b'&' => is_plain_reference(after),
        b'<' => !begins_other_tag(after),
        0 | b'\r' => false,
        _ => true,
    }
}

/// Returns whether these bytes follow the `<` of an element that no calm page has. Only the most
/// frequent ones are tested, so that most such pages are not parsed as explicit markup in vain.
fn begins_other_tag(after: &[u8]) -> bool
    ensures { result ≡ begins_other_tag after.now }
{
    match after {
        [b's', ..] => after.starts_with(b"svg") || after.starts_with(b"select"),
        [b'm', ..] => after.starts_with(b"math"),
        [b'n', ..] => after.starts_with(b"noscript"),
        [b't', ..] => after.starts_with(b"template"),
        [b'i', ..] => after.starts_with(b"iframe"),
        _ => false,
    }
}

/// Returns whether these bytes follow an `&` that starts one of the five references, or none.
fn is_plain_reference(after: &[u8]) -> bool
    ensures { result ≡ is_plain_reference after.now }
{
    after.starts_with(b"amp;")
        || after.starts_with(b"lt;")
        || after.starts_with(b"gt;")
        || after.starts_with(b"quot;")
        || after.starts_with(b"nbsp;")
        || is_bare(after)
}

/// Returns whether an `&` before these bytes is plain text.
fn is_bare(after: &[u8]) -> bool
    ensures { result ≡ is_bare after.now }
{
    match after.split_first() {
        Some((first, _)) => !(first.is_ascii_alphanumeric() || *first == b'#'),
        None => true,
    }
}

/// Returns whether the text contains an end tag or a declaration.
pub fn has_close(text: &str) -> bool
    ensures { result ≡ has_close text.now }
{
    let mut rest = text.as_bytes();
    while let Some((first, after)) = rest.split_first() {
        if *first == b'<' && begins_close(after) {
            return true;
        }
        rest = after;
    }
    false
}

/// Returns whether a `<` before these bytes starts an end tag or a declaration.
fn begins_close(after: &[u8]) -> bool
    ensures { result ≡ begins_close after.now }
{
    match after.split_first() {
        Some((first, _)) => *first == b'/' || *first == b'!',
        None => false,
    }
}

/// Returns whether the text starts with a line feed.
pub fn begins_line(text: &str) -> bool
    ensures { result ≡ begins_line text.now }
{
    match text.as_bytes().split_first() {
        Some((first, _)) => *first == b'\n',
        None => false,
    }
}

/// Returns whether the text is whitespace alone.
pub fn is_whitespace(text: &str) -> bool
    ensures { result ≡ list_all is_whitespace text.now }
{
    text.as_bytes().iter().all(|byte| is_space(*byte))
}

/// Returns whether the byte is whitespace.
fn is_space(byte: u8) -> bool
    ensures { result ≡ is_whitespace byte }
{
    matches!(byte, b'\t' | b'\n' | 12 | b'\r' | b' ')
}

/// Returns whether the text contains no `>`.
pub fn lacks_greater_than(text: &str) -> bool
    ensures { result ≡ list_all (λ b. not (b == greater_than)) text.now }
{
    text.as_bytes().iter().all(|byte| *byte != b'>')
}
