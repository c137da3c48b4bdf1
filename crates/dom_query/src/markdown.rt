//! Writing the Markdown of markup.

ghost use Rattle.std.specs.Prelude.{IfErr, OnOk};
ghost use Rattle.dom_query.specs.Markdown.{MarkdownCause, WroteMarkdown};

use crate::document_md::DocumentMd;
use crate::runner::{RunFault, read_markup};
use dom_markup::writing::write_bytes;
use std::alloc::Global;
use std::io::Write;

/// Parses the markup, and writes the Markdown of the document and a line feed. It fails with
/// `BadMarkup`, `TooManyNodes`, `Memory` or `Write`; unless the writer failed, nothing was written.
pub fn write_markdown<W: Write>(alloc: Global, markup: &[u8], out: &mut W) -> Result<(), RunFault>
    ensures done { OnOk result (WroteMarkdown markup.now
        (W.contents out.old) (W.contents out.new)) }
    ensures cause { IfErr result (MarkdownCause markup.now
        (W.contents out.old) (W.contents out.new)) }
{
    let document = read_markup(alloc, markup)?;
    let text = document.md(None)?;
    write_bytes(out, text.as_bytes())?;
    Ok(write_bytes(out, b"\n")?)
}
