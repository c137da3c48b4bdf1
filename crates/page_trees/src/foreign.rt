//! Foreign content: SVG and MathML (13.2.6.5).

ghost use Rattle.std.specs.Prelude.{◌≡◌, ◌&&◌, false, not, true};
ghost use Rattle.standard_trees.specs.GrowingTree.{GrowingTree as StandardTree};
ghost use Rattle.standard_trees.specs.GrowingTree.{adjusted_current, in_foreign};
ghost use Rattle.standard_trees.specs.TreeStore.{space_in};
ghost use Rattle.page_trees.specs.CoveredTurns.{LeavesForeign, ProcessesForeign};
ghost use Rattle.page_trees.specs.Foreign.{ends_foreign, is_foreign_to, is_glyph_name};
ghost use Rattle.page_trees.specs.Foreign.{names_annotation, names_svg, takes_start};
ghost use Rattle.page_trees.specs.ForeignSteps.{leaves_foreign_name};
ghost use Rattle.page_trees.specs.Sets.{has_foreign_content, is_a_text_point, is_an_html_point};
ghost use Rattle.page_trees.specs.Modes.{is_start_kind};
ghost use Rattle.page_trees.specs.Sets.{is_in_html, space_of};
ghost use Rattle.page_trees.specs.Stands.{Builds, Tells};
ghost use Rattle.page_trees.specs.TagSteps.{DispatchesTag};

use crate::attributes::value_of;
use crate::builder::{Next, TreeBuilder};
use crate::growing::ForeignEnd;
use crate::name::Name;
use crate::sets::breaks_out;
use crate::stack::{ElementNamespace, Open};
use page_tokens::token::{Tag, TagKind};

impl Open {
    /// Returns whether the element is a MathML text integration point.
    pub fn is_text_point(&self) -> bool
        ensures { result ≡ is_a_text_point self.now }
    {
        self.ns == ElementNamespace::MathMl
            && matches!(
                self.name,
                Name::Mi | Name::Mo | Name::Mn | Name::Ms | Name::Mtext
            )
    }

    /// Returns whether the element is an HTML integration point.
    pub fn is_html_point(&self) -> bool
        ensures { result ≡ is_an_html_point self.now }
    {
        match self.ns {
            ElementNamespace::Svg => matches!(
                self.name,
                Name::Foreignobject | Name::Desc | Name::Title
            ),
            ElementNamespace::MathMl => self.holds_html,
            ElementNamespace::Html => false,
        }
    }
}

impl Open {
    /// Returns whether the element is one of SVG or MathML.
    pub fn is_foreign(&self) -> bool
        ensures { result ≡ not (is_in_html self.now.ns) }
    {
        self.ns != ElementNamespace::Html
    }

    /// Returns whether the content of the element is parsed by the rules for foreign content, apart
    /// from some tags.
    pub fn holds_foreign(&self) -> bool
        ensures { result ≡ has_foreign_content self.now }
    {
        self.ns != ElementNamespace::Html && !self.is_text_point() && !self.is_html_point()
    }
}

/// Returns whether a tag is processed by the rules for foreign content, where that element is the
/// adjusted current node (13.2.6).
fn is_foreign_to(element: &Open, kind: TagKind, name: Name) -> bool
    ensures { result ≡ is_foreign_to element.now kind name }
{
    if element.ns == ElementNamespace::Html {
        return false;
    }
    match kind {
        TagKind::End => true,
        TagKind::Start => !takes_start(element, name),
    }
}

/// Returns whether a start tag is processed by the rules for HTML content, where that element of
/// SVG or MathML is the adjusted current node.
fn takes_start(element: &Open, name: Name) -> bool
    ensures { result ≡ takes_start element.now name }
{
    if element.is_text_point() && !is_glyph(name) {
        return true;
    }
    if element.ns == ElementNamespace::MathMl && takes_svg(element.name, name) {
        return true;
    }
    element.is_html_point()
}

/// Returns whether the name is of one of the start tags that stay MathML in a text integration
/// point.
fn is_glyph(name: Name) -> bool
    ensures { result ≡ is_glyph_name name }
{
    matches!(name, Name::Mglyph | Name::Malignmark)
}

/// Returns whether these are the names of an `annotation-xml` and of an `svg` in it.
fn takes_svg(outer: Name, name: Name) -> bool
    ensures { result ≡ (names_annotation outer && names_svg name) }
{
    if !matches!(outer, Name::AnnotationXml) {
        return false;
    }
    matches!(name, Name::Svg)
}

/// Returns whether a start tag ends foreign content: it has one of certain names, or it is a `font`
/// with an attribute `color`, `face` or `size`.
fn ends_foreign(name: Name, tag: &Tag) -> bool
    ensures { result ≡ ends_foreign name tag.now.attrs.items }
{
    if breaks_out(name) {
        return true;
    }
    if !matches!(name, Name::Font) {
        return false;
    }
    if value_of(tag, "color").is_some() {
        return true;
    }
    if value_of(tag, "face").is_some() {
        return true;
    }
    value_of(tag, "size").is_some()
}

impl TreeBuilder {
    /// Returns whether a tag is processed by the rules for foreign content.
    pub fn is_tag_foreign(&self, kind: TagKind, name: Name) -> bool
        ensures { DispatchesTag kind name self.now.tree result }
    {
        match self.tree.adjusted_current() {
            Some(open) => is_foreign_to(&open, kind, name),
            None => false,
        }
    }

    /// Returns whether the adjusted current node is an SVG or MathML element. A comment is then
    /// inserted there, and a CDATA section may start.
    pub fn is_current_foreign(&self) -> bool
        ensures { Tells in_foreign self.now.tree result }
    {
        match self.tree.adjusted_current() {
            Some(open) => open.is_foreign(),
            None => false,
        }
    }

    /// Processes a tag by the rules for foreign content.
    pub fn foreign_tag(&mut self, name: Name, tag: &Tag) -> Next
        ensures rule { ProcessesForeign name tag.now self.old self.new result }
    {
        match tag.kind {
            TagKind::Start => self.foreign_start(name, tag),
            TagKind::End => self.foreign_end(name, tag),
        }
    }

    fn foreign_start(&mut self, name: Name, tag: &Tag) -> Next
        ensures rule { is_start_kind tag.now.kind ≡ true →
            ProcessesForeign name tag.now self.old self.new result }
    {
        if ends_foreign(name, tag) {
            return self.leave_foreign(name, tag);
        }
        let ns = self.current_namespace();
        self.insert_foreign(ns, name, tag)
    }

    /// Leaves foreign content, and processes the tag by the rules for the current insertion mode.
    fn leave_foreign(&mut self, name: Name, tag: &Tag) -> Next
        ensures rule { LeavesForeign name tag.now self.old self.new result }
    {
        self.tree.pop_foreign();
        self.html_tag(name, tag)
    }

    /// Returns the namespace of the adjusted current node.
    fn current_namespace(&self) -> ElementNamespace
        ensures { (t : StandardTree) → Builds self.now.tree t →
            space_of result ≡ space_in (adjusted_current t) }
    {
        match self.tree.adjusted_current() {
            Some(open) => open.ns,
            None => ElementNamespace::Html,
        }
    }

    fn foreign_end(&mut self, name: Name, tag: &Tag) -> Next
        ensures rule { is_start_kind tag.now.kind ≡ false →
            ProcessesForeign name tag.now self.old self.new result }
    {
        if is_foreign_break(name) {
            return self.leave_foreign(name, tag);
        }
        match self.tree.foreign_end(name, tag.name.as_str()) {
            ForeignEnd::At(place) => {
                self.tree.truncate(place);
                Next::Done
            }
            ForeignEnd::Html => self.html_tag(name, tag),
            ForeignEnd::Nowhere => Next::Done,
        }
    }
}

/// Returns whether the name is of one of the end tags that leave foreign content.
fn is_foreign_break(name: Name) -> bool
    ensures { result ≡ leaves_foreign_name name }
{
    matches!(name, Name::Br | Name::P)
}
