//! The beginnings of lines. Start at `push_line`.

ghost use Rattle.std.specs.Prelude.{◌≡◌, OnOk, slice_index_or};
ghost use Rattle.std.specs.Char.{is_ascii_digit};
ghost use Rattle.std.specs.List.{list_all};
ghost use Rattle.dom_commonmark.specs.Lines.{AppendsLine, MarksLine, begins_bullet};
ghost use Rattle.dom_commonmark.specs.Lines.{begins_heading, begins_number, begins_sign, is_blank};
ghost use Rattle.dom_commonmark.specs.Lines.{is_blank_at, is_dash, is_dash_or_blank, is_dashes};
ghost use Rattle.dom_commonmark.specs.Lines.{is_equals_or_blank, is_number_sign, is_stop};
ghost use Rattle.dom_commonmark.specs.Lines.{is_underline, leading};

use dom_nodes::fault::OutOfMemory;

/// Appends a line of a paragraph, with a backslash where its first characters would begin another
/// block: a heading, a quote, an item, a thematic break, or the line below a heading or below the
/// header of a table. A reader takes what was appended as no beginning of a block, if the first
/// character of the line begins no construct within a line, as `push_escaped` leaves it. Fails
/// only when memory runs out.
pub fn push_line(out: &mut String, line: &str) -> Result<(), OutOfMemory>
    ensures { OnOk result (AppendsLine out.old out.new line.now) }
{
    let Some(at) = line_mark(line.as_bytes()) else {
        return Ok(out.push_str(line)?);
    };
    out.push_str(&line[..at])?;
    out.push('\\')?;
    Ok(out.push_str(&line[at..])?)
}

/// Returns the index at which a line needs a backslash, so that it begins no other block.
fn line_mark(bytes: &[u8]) -> Option<usize>
    ensures { MarksLine bytes.now result }
{
    if begins_number(bytes) {
        return Some(leading_digits(bytes));
    }
    if begins_sign(bytes) {
        return Some(0);
    }
    None
}

/// Returns whether the line begins with the number of an item.
fn begins_number(bytes: &[u8]) -> bool
    ensures { result ≡ begins_number bytes.now }
{
    let count = leading_digits(bytes);
    if count == 0 {
        return false;
    }
    if count > 9 {
        return false;
    }
    if is_stop(byte_or(bytes, count, 0)) {
        return is_blank_at(bytes, count + 1);
    }
    false
}

fn is_stop(byte: u8) -> bool
    ensures { result ≡ is_stop byte }
{
    matches!(byte, b'.' | b')')
}

/// Returns whether the line begins a quote, a heading or an item with a bullet, or is a line of
/// signs alone.
fn begins_sign(bytes: &[u8]) -> bool
    ensures { result ≡ begins_sign bytes.now }
{
    if byte_or(bytes, 0, 0) == b'>' {
        return true;
    }
    if begins_heading(bytes) {
        return true;
    }
    if begins_bullet(bytes) {
        return true;
    }
    if is_dashes(bytes) {
        return true;
    }
    is_underline(bytes)
}

/// Returns whether the line begins with one to six `#` and a blank.
fn begins_heading(bytes: &[u8]) -> bool
    ensures { result ≡ begins_heading bytes.now }
{
    let count = leading_number_signs(bytes);
    if count == 0 {
        return false;
    }
    if count > 6 {
        return false;
    }
    is_blank_at(bytes, count)
}

/// Returns whether the line begins with `-` or `+` and a blank.
fn begins_bullet(bytes: &[u8]) -> bool
    ensures { result ≡ begins_bullet bytes.now }
{
    let first = byte_or(bytes, 0, 0);
    if first == b'-' || first == b'+' {
        return is_blank_at(bytes, 1);
    }
    false
}

/// Returns whether the line has only characters of the line below the header of a table, which are
/// also those of the line below a heading, and of a thematic break.
fn is_dashes(bytes: &[u8]) -> bool
    ensures { result ≡ is_dashes bytes.now }
{
    if !is_dash(byte_or(bytes, 0, 0)) {
        return false;
    }
    are_dashes(bytes)
}

fn are_dashes(bytes: &[u8]) -> bool
    ensures { result ≡ list_all is_dash_or_blank bytes.now }
{
    bytes.iter().all(|byte| is_dash_or_blank(*byte))
}

fn is_dash_or_blank(byte: u8) -> bool
    ensures { result ≡ is_dash_or_blank byte }
{
    matches!(byte, b'-' | b':' | b'|' | b' ' | b'\t')
}

fn is_dash(byte: u8) -> bool
    ensures { result ≡ is_dash byte }
{
    matches!(byte, b'-' | b':' | b'|')
}

/// Returns whether the line has only `=` and blanks.
fn is_underline(bytes: &[u8]) -> bool
    ensures { result ≡ is_underline bytes.now }
{
    if byte_or(bytes, 0, 0) != b'=' {
        return false;
    }
    are_equals(bytes)
}

fn are_equals(bytes: &[u8]) -> bool
    ensures { result ≡ list_all is_equals_or_blank bytes.now }
{
    bytes.iter().all(|byte| is_equals_or_blank(*byte))
}

fn is_equals_or_blank(byte: u8) -> bool
    ensures { result ≡ is_equals_or_blank byte }
{
    matches!(byte, b'=' | b' ' | b'\t')
}

/// Returns how many digits are at the start of the line.
fn leading_digits(bytes: &[u8]) -> usize
    ensures { result ≡ leading is_ascii_digit bytes.now }
{
    let mut rest = bytes;
    let mut count = 0;
    while let Some((first, behind)) = rest.split_first() {
        if !first.is_ascii_digit() {
            return count;
        }
        count += 1;
        rest = behind;
    }
    count
}

/// Returns how many `#` are at the start of the line.
fn leading_number_signs(bytes: &[u8]) -> usize
    ensures { result ≡ leading is_number_sign bytes.now }
{
    let mut rest = bytes;
    let mut count = 0;
    while let Some((first, behind)) = rest.split_first() {
        if *first != b'#' {
            return count;
        }
        count += 1;
        rest = behind;
    }
    count
}

/// Returns whether a blank is at the index, or the line ends there.
fn is_blank_at(bytes: &[u8], at: usize) -> bool
    ensures { result ≡ is_blank_at bytes.now at }
{
    is_blank(byte_or(bytes, at, b' '))
}

fn is_blank(byte: u8) -> bool
    ensures { result ≡ is_blank byte }
{
    matches!(byte, b' ' | b'\t')
}

/// Returns the byte at an index; `past` if the line ends before it.
fn byte_or(bytes: &[u8], at: usize, past: u8) -> u8
    ensures { result ≡ slice_index_or bytes.now at past }
{
    match bytes.get(at) {
        Some(byte) => *byte,
        None => past,
    }
}
