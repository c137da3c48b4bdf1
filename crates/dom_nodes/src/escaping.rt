//! Escaping of text as the value of a double-quoted attribute. The rule is that of `html_escape` in
//! the crate dom_query. The HTML Standard (13.3, "escaping a string") had the same rule for the
//! values of attributes until 2025; it now escapes `<` and `>` there too.

ghost use Rattle.std.specs.Prelude.{◌≡◌, ◌++◌, IfOk, OnOk, string_bytes};
ghost use Rattle.dom_nodes.specs.Escaping.{escaped_value, value_char};

use crate::fault::OutOfMemory;
use std::alloc::{AllocError, Global};

/// Returns the text with `&`, `"` and the no-break space replaced by `&amp;`, `&quot;` and
/// `&nbsp;`. `<` and `>` stay as they are. It fails with `OutOfMemory` when memory is refused.
pub fn html_escape(alloc: Global, text: &str) -> Result<String, OutOfMemory>
    ensures { IfOk result (λ escaped. string_bytes escaped ≡ escaped_value text.now) }
{
    let mut escaped = String::new(alloc);
    for c in text.chars() {
        push_escaped(&mut escaped, c)?;
    }
    Ok(escaped)
}

/// Appends a character, escaped.
fn push_escaped(text: &mut String, c: char) -> Result<(), AllocError>
    ensures { OnOk result (string_bytes text.new ≡ string_bytes text.old ++ value_char c) }
{
    if c == '&' {
        text.push_str("&amp;")
    } else if c == '"' {
        text.push_str("&quot;")
    } else if c == '\u{a0}' {
        text.push_str("&nbsp;")
    } else {
        text.push(c)
    }
}
