//! Documents, and the parser of explicit markup. Start at `Document::parse`; `fragments` parses
//! fragments, `tokens` lists the tokens of a text, and `sink` lets another parser fill a document.

ghost use Rattle.std.specs.Prelude.{◌≡◌, IfErr, IfOk, map, string_bytes};
ghost use Rattle.dom_links.specs.Growth.{lone};
ghost use Rattle.dom_trees.specs.Edits.{Edits, normalizing};
ghost use Rattle.dom_markup.specs.Documents.{IsDocumentOf, IsFaultOf, IsHtml, IsNodeAt};
ghost use Rattle.dom_markup.specs.Documents.{NotesNothing, SuitsText, ReadsSpelled};
ghost use Rattle.dom_markup.specs.Plain.{IsPlain};
ghost use Rattle.dom_markup.specs.ReadingBack.{LacksIdentifiers};
ghost use Rattle.dom_markup.specs.Refusals.{IsFaultAt, Refused};
ghost use Rattle.dom_markup.specs.Sinks.{errors_of};

mod attributes;
mod doctypes;
pub mod fragments;
mod front;
mod growing;
mod id_list;
mod late_texts;
mod names;
mod raw;
mod reader;
mod scan;
pub mod sink;
pub mod snippet;
mod tags;
pub mod tokens;
mod within;

use crate::document::reader::Reader;
use crate::document::scan::estimate_nodes;
pub use crate::document::tokens::{Token, TokenKind, Tokens};
use crate::document::within::ContentModel;
use crate::laws::faults::kinds_of_faults;
use crate::laws::plain::{documents_without_identifiers_are_plain, spelled_documents_are_the_same};
use crate::serializing::NodeMarkup;
use dom_nodes::fault::{EditFault, MarkupFault, MarkupFaultKind, OutOfMemory};
use dom_nodes::node_data::NodeData;
use dom_nodes::node_id::NodeId;
use dom_trees::node_ref::NodeRef;
pub use dom_trees::quirks::QuirksMode;
use dom_trees::tree::Tree;
use std::alloc::Global;

/// A document: its tree, and what a parser reported about its source. `errors` holds the messages
/// of a parser that fills the document through `TreeSink`; `Document::parse` leaves it empty.
#[derive(Drop)]
pub struct Document {
    pub tree: Tree,
    pub errors: Vec<String>,
    pub quirks_mode: QuirksMode,
}

impl Document {
    /// Returns an empty document: a root without children, no errors, and no-quirks mode. Fails
    /// only when memory runs out.
    pub fn new(alloc: Global) -> Result<Document, OutOfMemory>
        ensures empty { IfOk result (λ document. document.tree ≡ lone NodeData.Document) }
        ensures notes { IfOk result NotesNothing }
    {
        lone(alloc, NodeData::Document)
    }

    /// Parses explicit markup, in which every element has its end tag unless it is void, and
    /// returns the document. Node ids follow the order in which the nodes start in the text; the
    /// contents of a template come right after the template.
    ///
    /// The text must follow the grammar of explicit markup. Nothing is repaired, as a browser would
    /// do it: a text that doesn't follow the grammar is an error. `fault.at` is the byte offset of
    /// the error, and `fault.kind` says what is wrong there:
    ///
    /// - `BadTag`: a tag is malformed;
    /// - `SlashOnOpen`: a start tag ends in `/>`, and its element is not void;
    /// - `BadComment`: a comment has no `-->`;
    /// - `BadDeclaration`: a `<!` starts neither a comment nor a doctype;
    /// - `Instruction`: a `<?` starts a processing instruction;
    /// - `MisplacedDoctype`: a doctype is inside an element;
    /// - `MismatchedEnd`: an end tag does not match the innermost open element;
    /// - `StrayEnd`: an end tag comes when no element is open;
    /// - `Unclosed`: the text ends while an element is open, or the text of an element such as
    ///   `script` starts here and has no end tag;
    /// - `TooManyNodes` and `Memory`: the token that starts here needs a node id or memory that is
    ///   not available. `Memory` can also be reported at the end of the text.
    pub fn parse(alloc: Global, source: &str) -> Result<Document, MarkupFault>
        ensures ok { IfOk result (IsDocumentOf source.now) }
        ensures fault { IfErr result (IsFaultOf source.now Refused IsFaultAt) }
        ensures kind { IfErr result (λ fault. SuitsText source.now fault.kind) }
        ensures plain { IfOk result (λ document.
            LacksIdentifiers document.tree → IsPlain document.tree) }
        ensures same { ReadsSpelled source.now result }
    {
        // Calls of laws: they do nothing, and their contracts prove the clauses `kind`, `plain` and
        // `same`.
        kinds_of_faults();
        documents_without_identifiers_are_plain();
        spelled_documents_are_the_same();
        let document = Document::read(alloc, source)?;
        Ok(document)
    }

    /// Parses the text; `parse` adds the clauses that follow from the laws.
    fn read(alloc: Global, source: &str) -> Result<Document, MarkupFault>
        ensures ok { IfOk result (IsDocumentOf source.now) }
        ensures fault { IfErr result (IsFaultOf source.now Refused IsFaultAt) }
    {
        let Ok(mut reader) = Reader::new(alloc) else {
            return Err(MarkupFault {
                kind: MarkupFaultKind::Memory,
                at: 0,
            });
        };
        reader.tree.reserve(estimate_nodes(source));
        let mut left = source;
        let mut within = ContentModel::Markup;
        while !left.is_empty() {
            match reader.read(alloc, left, within) {
                Ok(behind) => {
                    left = behind.rest;
                    within = behind.within;
                }
                Err(kind) => {
                    return Err(MarkupFault {
                        kind,
                        at: source.len() - left.len(),
                    });
                }
            }
        }
        match reader.finish() {
            Ok(tree) => Ok(whole(alloc, tree)),
            Err(kind) => Err(MarkupFault {
                kind,
                at: source.len(),
            }),
        }
    }

    /// Returns a copy of the document: the same tree with the same node ids, the same errors and
    /// the same quirks mode. Fails only when memory runs out.
    pub fn try_clone(&self) -> Result<Document, OutOfMemory>
        ensures tree { IfOk result (λ copy. copy.tree ≡ self.now.tree) }
        ensures errors { IfOk result (λ copy. errors_of copy ≡ errors_of self.now) }
        ensures quirks { IfOk result (λ copy. copy.quirks_mode ≡ self.now.quirks_mode) }
    {
        let tree = self.tree.try_clone()?;
        let errors = cloned(&self.errors)?;
        Ok(Document {
            tree,
            errors,
            quirks_mode: self.quirks_mode,
        })
    }

    /// Joins adjacent texts below the root into one text each, as `Tree::normalize_of` does. Fails
    /// only with `Memory`.
    pub fn normalize(&mut self) -> Result<(), EditFault>
        ensures tree { Edits result self.old.tree self.new.tree (normalizing 0) }
        ensures errors { self.new.errors ≡ self.old.errors }
        ensures quirks { self.new.quirks_mode ≡ self.old.quirks_mode }
    {
        self.tree.normalize_of(&NodeId::root())
    }
}

/// Access to the parts of a document.
impl Document {
    ghost use Rattle.std.specs.Option.{option_copied};
    ghost use Rattle.std.specs.Prelude.{codes, find, IfSome};
    ghost use Rattle.dom_links.specs.Forest.{children_of};
    ghost use Rattle.dom_links.specs.ListMoves.{element_at};
    ghost use Rattle.dom_links.specs.Texts.{text_of};
    ghost use Rattle.dom_trees.specs.Views.{base_uri, page_part};
    ghost use Rattle.dom_markup.specs.Html.{html_of, inner_html_of};

    /// Returns the root of the tree, whose node id is 0.
    pub fn root(&self) -> NodeRef<'_>
        ensures number { result.id ≡ 0 }
        ensures tree { result.tree.now ≡ self.now.tree }
    {
        NodeRef::new(NodeId::root(), &self.tree)
    }

    /// Returns the first child of the root that is an element, or `None` if there is none.
    pub fn html_root(&self) -> Option<NodeRef<'_>>
        ensures { let tree = self.now.tree in
            IsNodeAt tree (find (element_at tree) (children_of tree 0)) result }
    {
        self.tree.html_root()
    }

    /// Returns the first `head` child of the root's first `html` child, or `None` if there is none.
    pub fn head(&self) -> Option<NodeRef<'_>>
        ensures { IsNodeAt self.now.tree (page_part self.now.tree (codes "head")) result }
    {
        self.tree.head()
    }

    /// Returns the first `body` child of the root's first `html` child, or `None` if there is none.
    pub fn body(&self) -> Option<NodeRef<'_>>
        ensures { IsNodeAt self.now.tree (page_part self.now.tree (codes "body")) result }
    {
        self.tree.body()
    }

    /// Returns the `href` of the head's first `base` child, or `None` if there is none.
    pub fn base_uri(&self) -> Option<&str>
        ensures { option_copied result ≡ base_uri self.now.tree }
    {
        self.tree.base_uri()
    }

    /// Returns the document as HTML. If the document is plain, `parse` turns the HTML into the same
    /// tree again. A document is plain if, among other things, no text is empty or next to another
    /// text, names are in lower case, and no doctype has an identifier (`IsPlain` has the whole
    /// list). Fails only when memory runs out.
    pub fn html(&self) -> Result<String, OutOfMemory>
        ensures { IfOk result (IsHtml self.now.tree (html_of self.now.tree 0)) }
    {
        self.root().html()
    }

    /// Returns the HTML of the root's children, which is also that of the document. Fails only when
    /// memory runs out.
    pub fn inner_html(&self) -> Result<String, OutOfMemory>
        ensures { IfOk result (IsHtml self.now.tree (inner_html_of self.now.tree 0)) }
    {
        self.root().inner_html()
    }

    /// Returns the document as HTML, like `html`, or `None` if memory runs out.
    pub fn try_html(&self) -> Option<String>
        ensures { IfSome result (IsHtml self.now.tree (html_of self.now.tree 0)) }
    {
        self.root().try_html()
    }

    /// Returns the HTML of the root's children, like `inner_html`, or `None` if memory runs out.
    pub fn try_inner_html(&self) -> Option<String>
        ensures { IfSome result (IsHtml self.now.tree (inner_html_of self.now.tree 0)) }
    {
        self.root().try_inner_html()
    }

    /// Returns the contents of all texts, concatenated in document order. The contents of templates
    /// are left out. Fails only when memory runs out.
    pub fn text(&self) -> Result<String, OutOfMemory>
        ensures { IfOk result (λ text. string_bytes text ≡ text_of self.now.tree 0) }
    {
        self.root().text()
    }
}

/// Returns a document whose tree is one node. Fails only when memory runs out.
fn lone(alloc: Global, content: NodeData) -> Result<Document, OutOfMemory>
    ensures node { IfOk result (λ document. document.tree ≡ lone content) }
    ensures notes { IfOk result NotesNothing }
{
    match Tree::new(alloc, content) {
        Ok(tree) => Ok(whole(alloc, tree)),
        Err(_) => Err(OutOfMemory),
    }
}

/// Returns a document with this tree, no errors and no-quirks mode.
fn whole(alloc: Global, tree: Tree) -> Document
    ensures tree { result.tree ≡ tree }
    ensures notes { NotesNothing result }
{
    Document {
        tree,
        errors: Vec::new(alloc),
        quirks_mode: QuirksMode::NoQuirks,
    }
}

/// Returns a copy of the list. Fails only when memory runs out.
fn cloned(texts: &Vec<String>) -> Result<Vec<String>, OutOfMemory>
    ensures { IfOk result (λ made. map string_bytes made.items ≡ map string_bytes texts.now.items) }
{
    let mut made = Vec::new(*texts.allocator());
    for text in texts.as_slice() {
        made.push(text.clone()?)?;
    }
    Ok(made)
}
