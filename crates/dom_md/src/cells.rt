//! Escaping of texts in the cells of a Markdown table.

ghost use Rattle.std.specs.Prelude.{◌≡◌, IfOk, OnErr, OnOk, string_bytes};
ghost use Rattle.dom_md.specs.Cells.{AddsBackslashes, BarsAreEscaped, in_cell};

use dom_nodes::fault::OutOfMemory;
use std::alloc::{AllocError, Global};

/// Escapes the text in place: puts a backslash before each `|` that does not have one yet. Fails
/// only when memory runs out; the text is then unchanged.
pub fn escape_table_cell_inplace(text: &mut String) -> Result<(), OutOfMemory>
    ensures value { OnOk result (string_bytes text.new ≡ in_cell (string_bytes text.old)) }
    ensures bars { OnOk result (BarsAreEscaped (string_bytes text.new)) }
    ensures added { OnOk result (AddsBackslashes (string_bytes text.old) (string_bytes text.new)) }
    ensures err { OnErr result (string_bytes text.new ≡ string_bytes text.old) }
{
    let escaped = in_cell(*text.allocator(), text.as_str())?;
    *text = escaped;
    Ok(())
}

/// Returns an escaped copy of the text.
fn in_cell(alloc: Global, text: &str) -> Result<String, AllocError>
    ensures { IfOk result (λ escaped. string_bytes escaped ≡ in_cell text.now) }
{
    let mut escaped = String::new(alloc);
    let mut after = false;
    for c in text.chars() {
        if c == '|' && !after {
            escaped.push('\\')?;
        }
        escaped.push(c)?;
        after = c == '\\';
    }
    Ok(escaped)
}
