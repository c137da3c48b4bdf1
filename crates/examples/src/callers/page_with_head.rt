//! The head of a page: every page has one.

ghost use Rattle.std.specs.Prelude.{codes, IfOk};
ghost use Rattle.dom_trees.specs.Views.{page_part};
ghost use Rattle.page_trees.specs.Shape.{IsFound};

use dom_markup::document::Document;
use page_reading::laws::pages_have_parts;
use page_reading::{Options, PageFault, parse_page};
use std::alloc::Global;

/// Reads a page. `head` of the result returns an HTML element with that name.
pub fn page_with_head(alloc: Global, text: &str, options: Options) -> Result<Document, PageFault>
    ensures { IfOk result (λ page.
        IsFound page.tree (codes "head") (page_part page.tree (codes "head"))) }
{
    pages_have_parts();
    parse_page(alloc, text, options)
}
