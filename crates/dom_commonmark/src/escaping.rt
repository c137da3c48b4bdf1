//! Escaping of text, so that a reader takes it as text. Start at `push_escaped`.

ghost use Rattle.std.specs.Prelude.{◌≡◌, ◌<◌, ◌≤◌, OnOk, length, reverse, slice_index_or};
ghost use Rattle.std.specs.Prelude.{◌||◌, ◌==◌};
ghost use Rattle.std.specs.Char.{is_ascii_alphanumeric};
ghost use Rattle.std.specs.Str.{IsCharBoundary};
ghost use Rattle.dom_nodes.specs.Ascii.{number_sign};
ghost use Rattle.dom_commonmark.specs.Escaping.{AppendsEscaped, Cuts, FindsMark, is_marked};
ghost use Rattle.dom_commonmark.specs.Inline.{begins_address, begins_mail, begins_tag, can_begin};
ghost use Rattle.dom_commonmark.specs.Inline.{is_in_mail, is_in_spaces, is_in_word};
ghost use Rattle.dom_commonmark.specs.Inline.{is_plain, is_reference, is_www};
ghost use Rattle.dom_commonmark.specs.Reading.{ReadsAsText};

use dom_nodes::fault::OutOfMemory;

/// Where a text stands.
#[derive(Clone, Copy, PartialEq, Eq, Debug, Drop)]
pub struct Place {
    /// In the cell of a table, where `|` ends the cell.
    pub cell: bool,
    /// Before a link, whose `[` would make an image of a `!`.
    pub before_link: bool,
}

/// Appends the text with a backslash before each character that begins or ends a construct. A
/// reader takes what was appended as exactly that text, unless a letter or digit is before it, or
/// one of those, `;`, `#` or `/` behind it, or a `[` that `place` doesn't name. A line that begins
/// with what was appended begins no block by a mark of a line's inside, such as a fence, a list of
/// stars or HTML; for other blocks see `line_marks::push_line`. Fails only when memory runs out.
pub fn push_escaped(out: &mut String, text: &str, place: Place) -> Result<(), OutOfMemory>
    ensures value { OnOk result (AppendsEscaped place out.old out.new text.now) }
    ensures reads { OnOk result (ReadsAsText place out.old out.new text.now) }
{
    push_marks(out, text, place)?;
    Ok(())
}

/// Appends the text with a backslash before each mark.
fn push_marks(out: &mut String, text: &str, place: Place) -> Result<(), OutOfMemory>
    ensures { OnOk result (AppendsEscaped place out.old out.new text.now) }
{
    let mut from = 0;
    while let Some(cut) = cut_mark(text, from, place) {
        out.push_str(cut.before)?;
        out.push('\\')?;
        out.push_str(cut.mark)?;
        from = cut.end;
    }
    Ok(out.push_str(&text[from..])?)
}

/// A mark, with the text before it, and the offset behind it.
#[derive(Clone, Copy)]
struct Cut<'a> {
    before: &'a str,
    mark: &'a str,
    end: usize,
}

/// Returns the first mark from an offset on.
fn cut_mark(text: &str, from: usize, place: Place) -> Option<Cut<'_>>
    requires within { from ≤ length text.now }
    requires boundary { IsCharBoundary text.now from }
    ensures { Cuts place text.now from result }
{
    let at = find_mark(text.as_bytes(), from, place)?;
    Some(Cut {
        before: &text[from..at],
        mark: &text[at..at + 1],
        end: at + 1,
    })
}

/// Returns the offset of the first mark from an offset on.
fn find_mark(bytes: &[u8], from: usize, place: Place) -> Option<usize>
    requires { from ≤ length bytes.now }
    ensures { FindsMark place bytes.now from result }
{
    for at in from..bytes.len() {
        if is_marked(&bytes[..at], bytes[at], &bytes[at + 1..], place) {
            return Some(at);
        }
    }
    None
}

/// Returns whether a byte is a letter, a digit or a space, which never need a backslash. Most
/// bytes of a text are.
fn is_plain(byte: u8) -> bool
    ensures { result ≡ is_plain byte }
{
    byte == b' ' || byte.is_ascii_alphanumeric()
}

/// Returns whether a byte needs a backslash, between what is before and after it in the text.
fn is_marked(before: &[u8], byte: u8, after: &[u8], place: Place) -> bool
    ensures { result ≡ is_marked place (reverse before.now) byte after.now }
{
    if is_plain(byte) {
        return false;
    }
    if byte == b'\\' {
        return true;
    }
    if byte == b'<' && begins_mail(after, true) {
        return true;
    }
    if byte == b'!' && after.is_empty() {
        return place.before_link;
    }
    can_begin(before, byte, after, place.cell)
}

/// Returns whether a construct can begin or end at a byte.
fn can_begin(before: &[u8], byte: u8, after: &[u8], cell: bool) -> bool
    ensures { result ≡ can_begin cell (reverse before.now) byte after.now }
{
    if byte == b'`' || byte == b'[' || byte == b']' {
        return true;
    }
    if byte == b'*' || byte == b'~' {
        return !is_in_spaces(before, after);
    }
    if byte == b'_' {
        return !is_in_word(before, after);
    }
    if byte == b'<' {
        if begins_tag(byte_at(after, 0)) {
            return true;
        }
        return begins_mail(after, false);
    }
    if byte == b'&' {
        return is_reference(after);
    }
    if byte == b'!' {
        return byte_at(after, 0) == b'[';
    }
    if byte == b':' {
        return begins_address(after);
    }
    if byte == b'.' {
        return is_www(before);
    }
    byte == b'|' && cell
}

/// Returns whether spaces are on both sides.
fn is_in_spaces(before: &[u8], after: &[u8]) -> bool
    ensures { result ≡ is_in_spaces (reverse before.now) after.now }
{
    byte_back(before, 0) == b' ' && byte_at(after, 0) == b' '
}

/// Returns whether letters or digits are on both sides.
fn is_in_word(before: &[u8], after: &[u8]) -> bool
    ensures { result ≡ is_in_word (reverse before.now) after.now }
{
    byte_back(before, 0).is_ascii_alphanumeric() && byte_at(after, 0).is_ascii_alphanumeric()
}

/// Returns whether a `<` before the byte begins a tag, a comment or an address of the web.
fn begins_tag(byte: u8) -> bool
    ensures { result ≡ begins_tag byte }
{
    byte.is_ascii_alphabetic() || byte == b'/' || byte == b'!' || byte == b'?'
}

/// Returns whether a `<` before the bytes may begin an address of mail; `at_end` is the answer if
/// they end before its `@`.
fn begins_mail(after: &[u8], at_end: bool) -> bool
    ensures { result ≡ begins_mail at_end after.now }
{
    let mut rest = after;
    while let Some((first, behind)) = rest.split_first() {
        if *first == b'@' {
            return true;
        }
        if !is_in_mail(*first) {
            return false;
        }
        rest = behind;
    }
    at_end
}

fn is_in_mail(byte: u8) -> bool
    ensures { result ≡ is_in_mail byte }
{
    if byte == b'<' || byte == b'>' || byte == b'\\' {
        return false;
    }
    byte.is_ascii_graphic()
}

/// Returns whether a `&` before the bytes may begin a character reference: letters, digits and `#`
/// follow, and then a semicolon.
pub(crate) fn is_reference(after: &[u8]) -> bool
    ensures { result ≡ is_reference after.now }
{
    let mut rest = after;
    while let Some((first, behind)) = rest.split_first() {
        if *first == b';' {
            return true;
        }
        if !is_in_reference(*first) {
            return false;
        }
        rest = behind;
    }
    false
}

fn is_in_reference(byte: u8) -> bool
    ensures { result ≡ (is_ascii_alphanumeric byte || byte == number_sign) }
{
    byte.is_ascii_alphanumeric() || byte == b'#'
}

/// Returns whether a `:` before the bytes belongs to an address of the web.
fn begins_address(after: &[u8]) -> bool
    ensures { result ≡ begins_address after.now }
{
    byte_at(after, 0) == b'/' && byte_at(after, 1) == b'/'
}

/// Returns whether `www` is before a byte.
fn is_www(before: &[u8]) -> bool
    ensures { result ≡ is_www (reverse before.now) }
{
    byte_back(before, 0) == b'w' && byte_back(before, 1) == b'w' && byte_back(before, 2) == b'w'
}

/// Returns the byte at an index, and 0 past the end.
fn byte_at(bytes: &[u8], at: usize) -> u8
    ensures { result ≡ slice_index_or bytes.now at 0 }
{
    match bytes.get(at) {
        Some(byte) => *byte,
        None => 0,
    }
}

/// Returns the byte at an index from the end, and 0 past the beginning.
fn byte_back(bytes: &[u8], at: usize) -> u8
    ensures { result ≡ slice_index_or (reverse bytes.now) at 0 }
{
    if at < bytes.len() {
        return bytes[bytes.len() - 1 - at];
    }
    0
}
