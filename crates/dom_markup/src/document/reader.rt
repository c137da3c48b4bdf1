//! The parser's state, and its steps: each reads one token into the tree.

ghost use Rattle.std.specs.Prelude.{◌≡◌, ◌≢◌, ◌<◌, ◌+◌, ◌++◌, [], None, Some, codes};
ghost use Rattle.std.specs.Prelude.{IfOk, length};
ghost use Rattle.dom_trees.specs.NewNodes.{element_with, text_node};
ghost use Rattle.dom_markup.specs.Bytes.{folded};
ghost use Rattle.dom_markup.specs.Limits.{IsPlainData};
ghost use Rattle.dom_markup.specs.Names.{markup};
ghost use Rattle.dom_markup.specs.Reader.{TakesStarted, doctype_data};
ghost use Rattle.dom_markup.specs.Token.{contents_in, doctype_item, mode_of};

use crate::document::attributes::{attrs_of, folded_name};
use crate::document::doctypes::Doctype;
use crate::document::front::{Lexeme, declared_doctype, front_at};
use crate::document::growing::TreeUnderConstruction;
use crate::document::names::{is_template, names_element};
use crate::document::scan::{ByteClass, split_front};
use crate::document::tags::close_tag;
use crate::document::within::{ContentModel, within_named};
use crate::names::is_void_name;
use crate::references::decode;
use dom_nodes::fault::{MarkupFaultKind, OutOfMemory};
use dom_nodes::name::{Attr, LocalName, QualName};
use dom_nodes::node_data::NodeData;
use dom_nodes::node_id::NodeId;
use dom_nodes::text::{RareText, Text};
use dom_nodes::words::is_same_word;
use dom_trees::tree::Tree;
use std::alloc::Global;

/// What a start tag contains besides attributes: the name as in the source, the element's local
/// name, and whether the element is void.
#[derive(Drop)]
struct Started<'a> {
    written: &'a str,
    local: LocalName,
    void: bool,
}

/// Empties a list. Most are already empty.
#[inline(always)]
fn empty(attrs: &mut Vec<Attr>)
    ensures { attrs.new.items ≡ [] }
{
    if !attrs.is_empty() {
        attrs.clear();
    }
}

/// Reads a start tag, whose `<` is already read: returns its name and the text after the tag, and
/// puts its attributes into `attrs`, which must be empty.
fn start_tag_of<'a>(
    alloc: Global,
    tag: &'a str,
    attrs: &mut Vec<Attr>,
) -> Result<(Started<'a>, &'a str), MarkupFaultKind>
    requires { attrs.old.items ≡ [] }
    ensures { TakesStarted (codes "<" ++ tag.now) attrs.new.items result }
{
    let (written, behind) = split_front(ByteClass::Name, tag);
    if !names_element(written) {
        return Err(MarkupFaultKind::BadTag);
    }
    let Ok(local) = LocalName::folded(alloc, written) else {
        return Err(MarkupFaultKind::Memory);
    };
    let Ok(close) = attrs_of(alloc, behind, attrs) else {
        return Err(MarkupFaultKind::Memory);
    };
    let void = is_void_name(&local.by_ref());
    let rest = close_tag(close, void)?;
    Ok((
        Started {
            written,
            local,
            void,
        },
        rest,
    ))
}

/// Returns the node of a doctype. Fails only when memory runs out.
fn doctype_of(alloc: Global, written: Doctype) -> Result<NodeData, OutOfMemory>
    ensures doctype { IfOk result (λ content. content ≡ doctype_data written.entry) }
    ensures plain { IfOk result (λ content. IsPlainData content) }
{
    let name = folded_name(alloc, written.name)?;
    let public_id = RareText::new(alloc, written.public)?;
    let system_id = RareText::new(alloc, written.system)?;
    Ok(NodeData::Doctype {
        name,
        public_id,
        system_id,
    })
}

/// Returns the contents of a text node: raw text unchanged, any other text with its character
/// references resolved.
fn contents_of(alloc: Global, text: &str, within: ContentModel) -> Result<Text, OutOfMemory>
    ensures { IfOk result (λ contents. contents ≡ contents_in (mode_of within.entry) text.now) }
{
    match within {
        ContentModel::Markup => decode(alloc, text),
        ContentModel::Text(_) => decode(alloc, text),
        ContentModel::RawText(_) => Text::new(alloc, text),
    }
}

/// An open element: the id of the node that gets its children, and its name as in the source.
#[derive(Clone, Copy)]
struct Open<'a> {
    number: NodeId,
    name: &'a str,
}

/// The text after a token, and the mode in which it is read.
#[derive(Clone, Copy)]
pub struct Behind<'a> {
    pub rest: &'a str,
    pub within: ContentModel<'a>,
}

/// Returns this text, to be read as markup.
fn markup_behind(rest: &str) -> Behind<'_>
    ensures rest { result.rest.now ≡ rest.now }
    ensures mode { mode_of result.within ≡ markup }
{
    Behind {
        rest,
        within: ContentModel::Markup,
    }
}

/// The state of the parser: the tree so far, the stack of open elements, and a vector for the
/// attributes of the current tag.
#[derive(Drop)]
pub struct Reader<'a> {
    pub tree: TreeUnderConstruction<'a>,
    stack: Vec<Open<'a>>,
    spare: Vec<Attr>,
}

impl<'a> Reader<'a> {
    ghost use Rattle.dom_links.specs.Growth.{with_child, with_template};
    ghost use Rattle.dom_markup.specs.Frames.{children_place};
    ghost use Rattle.dom_markup.specs.Lexeme.{BeginsLetter, IsNoComment};
    ghost use Rattle.dom_markup.specs.TreeUnderConstruction.{plain_element};
    ghost use Rattle.dom_markup.specs.Markup.{Item};
    ghost use Rattle.dom_markup.specs.Reader.{AfterItems, EndsReading, Grows, IsReading};
    ghost use Rattle.dom_markup.specs.Reader.{ReadsFront, ReadsItem, leaf_item, parent_number};
    ghost use Rattle.dom_markup.specs.Reader.{with_started};

    /// Returns a parser that has read nothing. Fails only when memory runs out.
    pub fn new(alloc: Global) -> Result<Reader<'a>, OutOfMemory>
        ensures { IfOk result (λ reader. AfterItems [] reader) }
    {
        let tree = TreeUnderConstruction::new(alloc)?;
        Ok(Reader {
            tree,
            stack: Vec::new(alloc),
            spare: Vec::new(alloc),
        })
    }

    /// Returns the id of the node that gets the next child: the innermost open element (its
    /// contents, if it is a template), or the document.
    fn parent(&self) -> NodeId
        ensures { result ≡ parent_number self.now }
    {
        match self.stack.last() {
            Some(innermost) => innermost.number,
            None => NodeId::root(),
        }
    }

    /// Makes a node as the last child of the innermost open element, and returns its id.
    #[inline(always)]
    fn append(&mut self, content: NodeData) -> Result<NodeId, MarkupFaultKind>
        requires reading { IsReading self.old }
        requires plain { IsPlainData content }
        ensures { Grows self.old self.new result (length self.old.tree.content)
            (with_child (parent_number self.old) content self.old.tree) }
    {
        let parent = self.parent();
        self.tree.append(&parent, content)
    }

    /// Makes a text as the last child of the innermost open element, and returns its id.
    fn append_text(&mut self, text: &'a str) -> Result<NodeId, MarkupFaultKind>
        requires { IsReading self.old }
        ensures { Grows self.old self.new result (length self.old.tree.content)
            (with_child (parent_number self.old) (text_node text.now) self.old.tree) }
    {
        let parent = self.parent();
        self.tree.append_text(&parent, text)
    }

    /// Makes an element that is no template as the last child of the innermost open element, with
    /// the attributes of the current tag, and returns its id.
    fn append_plain(&mut self, name: QualName) -> Result<NodeId, MarkupFaultKind>
        requires { IsReading self.old }
        ensures { let element = plain_element name self.old.spare.items in
            Grows self.old self.new result (length self.old.tree.content)
            (with_child (parent_number self.old) element self.old.tree) }
    {
        let parent = self.parent();
        self.tree.append_element(&parent, name, &mut self.spare)
    }

    /// Makes a template as the last child of the innermost open element, with the attributes of the
    /// current tag, and returns the id of its contents fragment.
    fn append_template(&mut self, name: QualName) -> Result<NodeId, MarkupFaultKind>
        requires { IsReading self.old }
        ensures { let contents = length self.old.tree.content + 1 in
            let element = element_with name self.old.spare.items contents in
            Grows self.old self.new result contents
            (with_template (parent_number self.old) element self.old.tree) }
    {
        let parent = self.parent();
        self.tree.append_template(&parent, name, &mut self.spare)
    }

    /// Makes the element of a start tag as the last child of the innermost open element, and
    /// returns the id of the node that gets its children: the contents fragment, if it is a
    /// template.
    fn append_element(&mut self, started: Started) -> Result<NodeId, MarkupFaultKind>
        requires { IsReading self.old }
        ensures { Grows self.old self.new result
            (children_place (folded started.entry.written.now) self.old.tree)
            (with_started (parent_number self.old) started.entry self.old.spare.items
            self.old.tree) }
    {
        let name = QualName::html(started.local);
        if !is_template(started.written) {
            return self.append_plain(name);
        }
        self.append_template(name)
    }

    /// Appends a text node or a comment node.
    #[inline(always)]
    fn read_leaf(&mut self, content: NodeData) -> Result<(), MarkupFaultKind>
        requires reading { IsReading self.old }
        requires plain { IsPlainData content }
        ensures { (item : Item) → leaf_item content ≡ Some item
            → ReadsItem item self.old self.new result }
    {
        self.append(content)?;
        Ok(())
    }

    /// Appends a text node.
    fn read_text(
        &mut self,
        alloc: Global,
        text: &str,
        within: ContentModel,
    ) -> Result<(), MarkupFaultKind>
        requires { IsReading self.old }
        ensures { let contents = contents_in (mode_of within.entry) text.now in
            ReadsItem (Item.characters contents) self.old self.new result }
    {
        let Ok(contents) = contents_of(alloc, text, within) else {
            return Err(MarkupFaultKind::Memory);
        };
        self.read_leaf(NodeData::Text { contents })
    }

    /// Appends the node of a text that contains no character reference.
    fn read_plain(&mut self, text: &'a str) -> Result<(), MarkupFaultKind>
        requires { IsReading self.old }
        ensures { ReadsItem (Item.characters text.now) self.old self.new result }
    {
        self.append_text(text)?;
        Ok(())
    }

    /// Appends a comment node.
    fn read_comment(&mut self, alloc: Global, written: &str) -> Result<(), MarkupFaultKind>
        requires { IsReading self.old }
        ensures { ReadsItem (Item.comment written.now) self.old self.new result }
    {
        let Ok(contents) = Text::new(alloc, written) else {
            return Err(MarkupFaultKind::Memory);
        };
        self.read_leaf(NodeData::Comment { contents })
    }

    /// Appends a doctype node. Fails with `MisplacedDoctype` if an element is open.
    fn read_doctype(&mut self, alloc: Global, written: Doctype) -> Result<(), MarkupFaultKind>
        requires { IsReading self.old }
        ensures { ReadsItem (doctype_item written.entry) self.old self.new result }
    {
        if !self.stack.is_empty() {
            return Err(MarkupFaultKind::MisplacedDoctype);
        }
        let Ok(doctype) = doctype_of(alloc, written) else {
            return Err(MarkupFaultKind::Memory);
        };
        self.append(doctype)?;
        Ok(())
    }

    /// Reads a declaration, whose `<!` is already read. Only a doctype is allowed.
    #[inline(never)]
    fn read_declaration(
        &mut self,
        alloc: Global,
        tag: &'a str,
    ) -> Result<Behind<'a>, MarkupFaultKind>
        requires reading { IsReading self.old }
        requires declaration { IsNoComment tag.now }
        ensures { ReadsFront markup (codes "<!" ++ tag.now) self.old self.new result }
    {
        let (written, rest) = declared_doctype(tag)?;
        self.read_doctype(alloc, written)?;
        Ok(markup_behind(rest))
    }

    /// Calls `read_declaration`. The result of that call needs a place in memory, which is set up
    /// here, so that other tokens don't pay for it.
    #[inline(always)]
    fn read_declared(&mut self, alloc: Global, tag: &'a str) -> Result<Behind<'a>, MarkupFaultKind>
        requires reading { IsReading self.old }
        requires declaration { IsNoComment tag.now }
        ensures { ReadsFront markup (codes "<!" ++ tag.now) self.old self.new result }
    {
        let behind = self.read_declaration(alloc, tag)?;
        Ok(behind)
    }

    /// Closes the innermost open element at an end tag of this name. Fails with `StrayEnd` if no
    /// element is open, and with `MismatchedEnd` if the innermost has another name.
    fn read_end(&mut self, name: &str) -> Result<(), MarkupFaultKind>
        ensures { ReadsItem (Item.end_tag (folded name.now)) self.old self.new result }
    {
        let Some(innermost) = self.stack.pop() else {
            return Err(MarkupFaultKind::StrayEnd);
        };
        if is_same_word(innermost.name.as_bytes(), name.as_bytes()) {
            return Ok(());
        }
        if !innermost.name.eq_ignore_ascii_case(name) {
            return Err(MarkupFaultKind::MismatchedEnd);
        }
        Ok(())
    }

    /// Reads a start tag, whose `<` is already read.
    #[inline(always)]
    fn read_start(&mut self, alloc: Global, tag: &'a str) -> Result<Behind<'a>, MarkupFaultKind>
        requires reading { IsReading self.old }
        requires letter { BeginsLetter tag.now }
        ensures { ReadsFront markup (codes "<" ++ tag.now) self.old self.new result }
    {
        empty(&mut self.spare);
        let (started, rest) = start_tag_of(alloc, tag, &mut self.spare)?;
        let name = started.written;
        let void = started.void;
        let within = within_named(name, &started.local.by_ref());
        let number = self.append_element(started)?;
        let behind = Behind { rest, within };
        if void {
            return Ok(behind);
        }
        match self.stack.push(Open { number, name }) {
            Ok(()) => Ok(behind),
            Err(_) => Err(MarkupFaultKind::Memory),
        }
    }

    /// Reads the token at the start of the text, and returns what follows it. Fails if no token
    /// starts there or if the token is out of place, and with `TooManyNodes` or `Memory`.
    #[inline(always)]
    pub fn read(
        &mut self,
        alloc: Global,
        left: &'a str,
        within: ContentModel<'a>,
    ) -> Result<Behind<'a>, MarkupFaultKind>
        requires reading { IsReading self.old }
        requires some { left.now ≢ [] }
        ensures { ReadsFront (mode_of within.entry) left.now self.old self.new result }
    {
        let (front, rest) = front_at(left, within)?;
        match front {
            Lexeme::StartTag => self.read_start(alloc, rest),
            Lexeme::Text(text) => {
                self.read_text(alloc, text, within)?;
                Ok(Behind { rest, within })
            }
            Lexeme::Plain(text) => {
                self.read_plain(text)?;
                Ok(Behind { rest, within })
            }
            Lexeme::EndTag(name) => {
                self.read_end(name)?;
                Ok(markup_behind(rest))
            }
            Lexeme::Comment(contents) => {
                self.read_comment(alloc, contents)?;
                Ok(markup_behind(rest))
            }
            Lexeme::Declaration => { self.read_declared(alloc, rest) }
        }
    }

    /// Returns the tree after the last token. Fails with `Unclosed` if an element is open, and with
    /// `Memory` if memory runs out.
    pub fn finish(self) -> Result<Tree, MarkupFaultKind>
        ensures { EndsReading self.entry result }
    {
        if !self.stack.is_empty() {
            return Err(MarkupFaultKind::Unclosed);
        }
        match self.tree.finish() {
            Ok(tree) => Ok(tree),
            Err(_) => Err(MarkupFaultKind::Memory),
        }
    }
}
