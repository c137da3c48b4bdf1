//! Addresses and titles of links and images.
ghost use Rattle.dom_md.specs.Addresses.{with_ampersands};
ghost use Rattle.dom_md.specs.Adding.{Adds};

use crate::context::FormatOpts;
use crate::serializer::texts::push_text;
use dom_nodes::escaping::html_escape;
use dom_nodes::fault::OutOfMemory;
use std::alloc::AllocError;

/// Appends, in parentheses, an address and, if there is one, a title.
pub(super) fn push_target(
    text: &mut String,
    address: &str,
    title: Option<&str>,
) -> Result<(), OutOfMemory> {
    text.push('(')?;
    push_address(text, address)?;
    if let Some(title) = title {
        push_title(text, title)?;
    }
    Ok(text.push(')')?)
}

fn push_address(text: &mut String, address: &str) -> Result<(), OutOfMemory> {
    let kinds = kinds_of(address.as_bytes());
    if kinds == 0 {
        return Ok(text.push_str(address)?);
    }
    if kinds == AMPERSAND {
        return Ok(push_ampersands(text, address)?);
    }
    let address = html_escape(*text.allocator(), address)?;
    if is_plain(address.as_str()) {
        return push_plain(text, address.as_str());
    }
    text.push('<')?;
    for c in address.as_str().chars() {
        push_enclosed(text, c)?;
    }
    Ok(text.push('>')?)
}

/// The bit for `&` in `KINDS`.
const AMPERSAND: u8 = 1;

/// The kind of each byte in an address. It is 0 for a byte that is written unchanged: letters,
/// digits and `#`, `%`, `+`, `,`, `-`, `.`, `/`, `:`, `=`, `?`, `@`, `_`, `~`. It is `AMPERSAND`
/// for `&`, and 2 for all others.
#[rattlefmt::skip]
static KINDS: [u8; 256] = [
    2, 2, 2, 2, 2, 2, 2, 2, 2, 2, 2, 2, 2, 2, 2, 2, 2, 2, 2, 2, 2, 2, 2, 2, 2, 2, 2, 2, 2, 2, 2, 2,
    2, 2, 2, 0, 2, 0, 1, 2, 2, 2, 2, 0, 0, 0, 0, 0, 0, 0, 0, 0, 0, 0, 0, 0, 0, 0, 0, 2, 2, 0, 2, 0,
    0, 0, 0, 0, 0, 0, 0, 0, 0, 0, 0, 0, 0, 0, 0, 0, 0, 0, 0, 0, 0, 0, 0, 0, 0, 0, 0, 2, 2, 2, 2, 0,
    2, 0, 0, 0, 0, 0, 0, 0, 0, 0, 0, 0, 0, 0, 0, 0, 0, 0, 0, 0, 0, 0, 0, 0, 0, 0, 0, 2, 2, 2, 0, 2,
    2, 2, 2, 2, 2, 2, 2, 2, 2, 2, 2, 2, 2, 2, 2, 2, 2, 2, 2, 2, 2, 2, 2, 2, 2, 2, 2, 2, 2, 2, 2, 2,
    2, 2, 2, 2, 2, 2, 2, 2, 2, 2, 2, 2, 2, 2, 2, 2, 2, 2, 2, 2, 2, 2, 2, 2, 2, 2, 2, 2, 2, 2, 2, 2,
    2, 2, 2, 2, 2, 2, 2, 2, 2, 2, 2, 2, 2, 2, 2, 2, 2, 2, 2, 2, 2, 2, 2, 2, 2, 2, 2, 2, 2, 2, 2, 2,
    2, 2, 2, 2, 2, 2, 2, 2, 2, 2, 2, 2, 2, 2, 2, 2, 2, 2, 2, 2, 2, 2, 2, 2, 2, 2, 2, 2, 2, 2, 2, 2,
];

/// Returns the bitwise or of the kinds of all bytes of an address.
fn kinds_of(address: &[u8]) -> u8 {
    let mut kinds = 0;
    for byte in address {
        kinds |= KINDS[*byte as usize];
    }
    kinds
}

/// Appends the address with `&amp;` in place of each `&`.
fn push_ampersands(text: &mut String, address: &str) -> Result<(), AllocError>
    ensures { Adds text.old text.new result (with_ampersands address.now) }
{
    let mut rest = address;
    while let Some((before, after)) = rest.split_once('&') {
        text.push_str(before)?;
        text.push_str("&amp;")?;
        rest = after;
    }
    text.push_str(rest)
}

/// Returns whether the address can be written without angle brackets: its parentheses are balanced,
/// and it has no space, `<` or control character.
fn is_plain(address: &str) -> bool {
    let mut open: usize = 0;
    for byte in address.as_bytes() {
        match *byte {
            b'(' => open = open.saturating_add(1),
            b')' if open == 0 => return false,
            b')' => open = open.saturating_sub(1),
            b' ' | b'<' | 127 => return false,
            control if control < 32 => return false,
            _ => {}
        }
    }
    open == 0
}

fn push_plain(text: &mut String, address: &str) -> Result<(), OutOfMemory> {
    if !address.contains('\\') {
        return Ok(text.push_str(address)?);
    }
    for c in address.chars() {
        if c == '\\' {
            text.push('\\')?;
        }
        text.push(c)?;
    }
    Ok(())
}

/// Appends a character of an address that is in angle brackets.
fn push_enclosed(text: &mut String, c: char) -> Result<(), OutOfMemory> {
    match c {
        '\\' => text.push_str("\\\\")?,
        '<' => text.push_str("\\<")?,
        '>' => text.push_str("\\>")?,
        '\n' => text.push_str("%0A")?,
        '\r' => text.push_str("%0D")?,
        c => text.push(c)?,
    }
    Ok(())
}

fn push_title(text: &mut String, title: &str) -> Result<(), OutOfMemory> {
    text.push_str(" \"")?;
    if title.contains('"') {
        let mut words = String::new(*text.allocator());
        push_text(&mut words, title, FormatOpts::new())?;
        for c in words.as_str().chars() {
            if c == '"' {
                text.push('\\')?;
            }
            text.push(c)?;
        }
    } else {
        push_text(text, title, FormatOpts::new())?;
    }
    Ok(text.push('"')?)
}
