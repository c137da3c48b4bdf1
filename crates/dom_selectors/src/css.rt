//! Writing texts and names as CSS.

ghost use Rattle.std.specs.Prelude.{◌≡◌, ◌<◌, ℕ, List, encode_utf8_all, IfOk, OnErr, string_bytes};
ghost use Rattle.std.specs.Char.{digit_char};
ghost use Rattle.dom_selectors.specs.Adding.{Adds};
ghost use Rattle.dom_selectors.specs.Css.{css_char, css_text, hex_escape, is_control};

use dom_nodes::fault::OutOfMemory;
use dom_nodes::name::LocalName;
use dom_nodes::text::Text;
use std::alloc::{AllocError, Global};

/// A value that can be written as CSS.
pub trait ToCss {
    // The CSS text, as UTF-8.
    ghost css: { Self → List ℕ };

    /// Appends the CSS text to `out`. If memory runs out, it fails and `out` is unchanged.
    fn to_css(&self, out: &mut String) -> Result<(), OutOfMemory>
        ensures ok { Adds out.old out.new result (css self.now) }
        ensures err { OnErr result (string_bytes out.new ≡ string_bytes out.old) };
}

/// A text that is written as a CSS string, as CSSOM serializes one: in `"`; with a `\` before `"`
/// and `\`; U+0001 to U+001F and U+007F as `\`, the code point in lower-case hexadecimal and a
/// space; and U+0000 as U+FFFD.
#[derive(PartialEq, Eq, Debug, Drop)]
pub struct CssString(pub Text);

impl CssString {
    /// Returns the string for this text. Fails only when memory runs out.
    pub fn new(alloc: Global, text: &str) -> Result<CssString, OutOfMemory>
        ensures { IfOk result (λ made. made.0 ≡ text.now) }
    {
        Ok(CssString(Text::new(alloc, text)?))
    }

    /// Returns a copy of the string. Fails only when memory runs out.
    pub fn try_clone(&self) -> Result<CssString, OutOfMemory>
        ensures { IfOk result (λ made. made ≡ self.now) }
    {
        Ok(CssString(self.0.try_clone()?))
    }
}

impl ToCss for CssString {
    ghost css = { λ text. css_text text.0 };

    fn to_css(&self, out: &mut String) -> Result<(), OutOfMemory> {
        let written = in_quotes(*out.allocator(), self.0.as_str())?;
        out.push_str(written.as_str())?;
        Ok(())
    }
}

/// A local name, which is written unchanged.
#[derive(PartialEq, Eq, Debug, Drop)]
pub struct CssLocalName(pub LocalName);

impl CssLocalName {
    /// Returns the name. A known name needs no allocation; otherwise the call fails when memory
    /// runs out.
    pub fn new(alloc: Global, name: &str) -> Result<CssLocalName, OutOfMemory>
        ensures { IfOk result (λ made. made.0 ≡ name.now) }
    {
        Ok(CssLocalName(LocalName::new(alloc, name)?))
    }

    /// Returns a copy of the name. Fails only when memory runs out.
    pub fn try_clone(&self) -> Result<CssLocalName, OutOfMemory>
        ensures { IfOk result (λ made. made ≡ self.now) }
    {
        Ok(CssLocalName(self.0.try_clone()?))
    }
}

impl ToCss for CssLocalName {
    ghost css = { λ name. name.0 };

    fn to_css(&self, out: &mut String) -> Result<(), OutOfMemory> {
        out.push_str(self.0.as_str())?;
        Ok(())
    }
}

/// Returns the text as a CSS string.
fn in_quotes(alloc: Global, text: &str) -> Result<String, AllocError>
    ensures { IfOk result (λ written. string_bytes written ≡ css_text text.now) }
{
    let mut written = String::new(alloc);
    written.push('"')?;
    for c in text.chars() {
        push_css(&mut written, c)?;
    }
    written.push('"')?;
    Ok(written)
}

fn is_control(c: char) -> bool
    ensures { result ≡ is_control c }
{
    c < ' ' || c == '\u{7f}'
}

/// Appends one character of a string.
fn push_css(out: &mut String, c: char) -> Result<(), AllocError>
    ensures { Adds out.old out.new result (encode_utf8_all (css_char c)) }
{
    if c == '\0' {
        return out.push('\u{fffd}');
    }
    if is_control(c) {
        return push_number(out, c);
    }
    if c == '"' || c == '\\' {
        out.push('\\')?;
    }
    out.push(c)
}

/// Appends the text as a CSS string.
pub(crate) fn push_string(out: &mut String, text: &str) -> Result<(), OutOfMemory>
    ensures { Adds out.old out.new result (css_text text.now) }
{
    let written = in_quotes(*out.allocator(), text)?;
    out.push_str(written.as_str())?;
    Ok(())
}

/// Appends an escaped code point: a `\`, its hexadecimal digits, and a space.
pub(crate) fn push_number(out: &mut String, c: char) -> Result<(), AllocError>
    requires { c < 256 }
    ensures { Adds out.old out.new result (encode_utf8_all (hex_escape c)) }
{
    let number = c as u32;
    out.push('\\')?;
    if number >= 16 {
        out.push(hex_digit(number / 16))?;
    }
    out.push(hex_digit(number % 16))?;
    out.push(' ')
}

/// Returns the character of a hexadecimal digit.
fn hex_digit(digit: u32) -> char
    requires { digit < 16 }
    ensures { result ≡ digit_char digit }
{
    char::from_digit(digit, 16).unwrap_or('0')
}
