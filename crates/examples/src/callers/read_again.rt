//! A document that is written and parsed again.

ghost use Rattle.std.specs.Prelude.{IfOk, MatchResult};
ghost use Rattle.dom_markup.specs.FaultKinds.{IsLimitFault};
ghost use Rattle.dom_markup.specs.Plain.{IsPlain};
ghost use Rattle.dom_trees.specs.SameTree.{SameTree};

use dom_markup::document::Document;
use dom_nodes::fault::{MarkupFault, OutOfMemory};
use std::alloc::Global;

/// Writes the document, and returns what `parse` reads of that.
pub fn read_again(
    alloc: Global,
    document: &Document,
) -> Result<Result<Document, MarkupFault>, OutOfMemory>
    ensures { IsPlain document.now.tree → IfOk result (λ read. MatchResult read
        (λ again. SameTree document.now.tree 0 again.tree 0)
        (λ fault. IsLimitFault fault.kind)) }
{
    let html = document.html()?;
    Ok(Document::parse(alloc, html.as_str()))
}
