//! Formatted text and Markdown of documents.

use dom_markup::document::Document;
use dom_md::node_md::NodeMd;
use dom_nodes::fault::OutOfMemory;

/// The formatted text and the Markdown of a document.
pub trait DocumentMd {
    ghost use Rattle.std.specs.Prelude.{◌≡◌, IfOk, string_bytes};
    ghost use Rattle.dom_links.specs.Forest.{Forest};
    ghost use Rattle.dom_md.specs.Formatted.{formatted_below};
    ghost use Rattle.dom_md.specs.Solid.{KeepsWords};
    ghost use Rattle.dom_md.specs.Words.{ReadsAsWords};

    // The forest of the document.
    ghost forest: { Self → Forest };

    /// Returns the text below the root, laid out in lines and paragraphs by the kinds of its
    /// elements, without white space at its end. It differs from the text of the document in white
    /// space only. Fails only when memory runs out.
    fn formatted_text(&self) -> Result<String, OutOfMemory>
        ensures text { IfOk result (λ text. string_bytes text
            ≡ formatted_below (forest self.now) 0) }
        ensures words { IfOk result (λ text. KeepsWords (forest self.now) 0 (string_bytes text)) };

    /// Returns the Markdown of what is below the root, without the elements whose local names are
    /// in `skip_tags`; `None` leaves out `script`, `style`, `meta` and `head`. When there are only
    /// texts below the root, the Markdown, with its escapes resolved, is their words joined by one
    /// space. Fails only when memory runs out.
    fn md(&self, skip_tags: Option<&[&str]>) -> Result<String, OutOfMemory>
        ensures { IfOk result (ReadsAsWords (forest self.now) 0) };
}

impl DocumentMd for Document {
    ghost forest = { λ document. document.tree };

    fn formatted_text(&self) -> Result<String, OutOfMemory> {
        self.root().formatted_text()
    }

    fn md(&self, skip_tags: Option<&[&str]>) -> Result<String, OutOfMemory> {
        self.root().md(skip_tags)
    }
}
