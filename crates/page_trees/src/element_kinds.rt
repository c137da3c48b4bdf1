//! Categories of elements, as the rules on calm pages need them. A calm page is explicit markup
//! that tree construction leaves as it is.

ghost use Rattle.std.specs.Prelude.{◌≡◌, map};
ghost use Rattle.page_trees.specs.ElementKinds.{holds_comments, holds_doctype, holds_flow};
ghost use Rattle.page_trees.specs.ElementKinds.{holds_parts, is_flow, kind_among, kind_of};
ghost use Rattle.page_trees.specs.ElementKinds.{may_hold, names_of, role_of};
ghost use Rattle.dom_nodes.specs.Words.{is_among};

use crate::name::KNOWN;
use dom_nodes::name::LocalRef;
use dom_nodes::words::is_one_of;

/// The category of an element, by its name.
#[derive(Clone, Copy, Drop)]
pub enum ElementCategory {
    /// The document itself; no element name is in this category.
    Document,
    Html,
    Head,
    Body,
    /// `base`, `link`, `meta`.
    Metadata,
    /// `script`, `style`, `title`: their content is text.
    Verbatim,
    /// Phrasing content, which may occur anywhere in the content of a body.
    Phrase,
    /// `a`, which may not be inside another.
    Anchor,
    /// `button`, which may not be inside another.
    Button,
    /// `p`.
    Paragraph,
    /// Block elements, whose start tag closes an open `p`.
    Block,
    /// `h1` to `h6`.
    Heading,
    /// `form`, which may not be inside another.
    Form,
    /// `pre`, after whose start tag a line feed is ignored.
    Pre,
    /// `dir`, `menu`, `ol`, `ul`.
    ItemList,
    /// `li`.
    Item,
    /// `dl`.
    DescriptionList,
    /// `dd`, `dt`.
    Description,
    Ruby,
    /// `rp`, `rt`.
    RubyText,
    Table,
    Caption,
    ColumnGroup,
    Column,
    /// `tbody`, `tfoot`, `thead`.
    RowGroup,
    TableRow,
    /// `td`, `th`.
    Cell,
    /// Elements that no calm page has.
    Other,
}

/// Whether an element occurs in the content of a body, and what its own content is.
#[derive(Clone, Copy, Drop)]
pub enum Role {
    /// It occurs in the content of a body, and may have the same content as a body.
    Flow,
    /// It may have the same content as a body, but occurs elsewhere.
    FlowHolder,
    /// It occurs in the content of a body, and contains text alone.
    FlowLeaf,
    /// It occurs in the content of a body, and contains certain elements, whitespace and comments.
    FlowTable,
    /// It contains certain elements, whitespace and comments, and occurs elsewhere.
    Parts,
    /// None of these.
    Apart,
}

/// The categories that have names.
const NAMED: [ElementCategory; 26] = [
    ElementCategory::Html,
    ElementCategory::Head,
    ElementCategory::Body,
    ElementCategory::Metadata,
    ElementCategory::Verbatim,
    ElementCategory::Phrase,
    ElementCategory::Anchor,
    ElementCategory::Button,
    ElementCategory::Paragraph,
    ElementCategory::Block,
    ElementCategory::Heading,
    ElementCategory::Form,
    ElementCategory::Pre,
    ElementCategory::ItemList,
    ElementCategory::Item,
    ElementCategory::DescriptionList,
    ElementCategory::Description,
    ElementCategory::Ruby,
    ElementCategory::RubyText,
    ElementCategory::Table,
    ElementCategory::Caption,
    ElementCategory::ColumnGroup,
    ElementCategory::Column,
    ElementCategory::RowGroup,
    ElementCategory::TableRow,
    ElementCategory::Cell,
];

impl ElementCategory {
    /// Returns the category of elements with that name.
    pub fn of(name: &LocalRef<'_>) -> ElementCategory
        ensures { result ≡ kind_of name.now }
    {
        match name.number() {
            Some(number) => KNOWN[number as usize].1,
            None => ElementCategory::of_text(name.as_str()),
        }
    }

    /// Returns the category of elements with a name that has no number in the tree.
    #[tactic(auto, unfolding(crate::specs::ElementKinds::kind_of))]
    fn of_text(name: &str) -> ElementCategory
        ensures { result ≡ kind_of name.now }
    {
        ElementCategory::among(name, &NAMED)
    }

    /// Returns the first category of the list that has the name.
    fn among(name: &str, kinds: &[ElementCategory]) -> ElementCategory
        ensures { result ≡ kind_among name.now kinds.now }
    {
        let mut rest = kinds;
        while let Some((kind, others)) = rest.split_first() {
            if kind.is_named(name) {
                return *kind;
            }
            rest = others;
        }
        ElementCategory::Other
    }

    /// Returns whether elements with that name are in this category.
    fn is_named(self, name: &str) -> bool
        ensures { result ≡ is_among name.now (names_of self) }
    {
        is_one_of(name, self.names())
    }

    /// Returns the element names in this category.
    #[tactic(auto, unfolding(crate::specs::ElementKinds::names_of))]
    fn names(self) -> &'static [&'static str]
        ensures { map (λ name. name.now) result.now ≡ names_of self }
    {
        match self {
            ElementCategory::Html => &["html"],
            ElementCategory::Head => &["head"],
            ElementCategory::Body => &["body"],
            ElementCategory::Metadata => &["base", "link", "meta"],
            ElementCategory::Verbatim => &["script", "style", "title"],
            ElementCategory::Phrase => &[
                "abbr", "acronym", "area", "audio", "b", "bdi", "bdo", "big", "br", "canvas",
                "cite", "code", "data", "datalist", "del", "dfn", "em", "embed", "font", "i",
                "img", "input", "ins", "kbd", "label", "legend", "map", "mark", "meter", "output",
                "picture", "progress", "q", "s", "samp", "slot", "small", "source", "span",
                "strike", "strong", "sub", "sup", "time", "track", "tt", "u", "var", "video",
                "wbr",
            ],
            ElementCategory::Anchor => &["a"],
            ElementCategory::Button => &["button"],
            ElementCategory::Paragraph => &["p"],
            ElementCategory::Block => &[
                "address",
                "article",
                "aside",
                "blockquote",
                "center",
                "details",
                "dialog",
                "div",
                "fieldset",
                "figcaption",
                "figure",
                "footer",
                "header",
                "hgroup",
                "hr",
                "main",
                "nav",
                "search",
                "section",
                "summary",
            ],
            ElementCategory::Heading => &["h1", "h2", "h3", "h4", "h5", "h6"],
            ElementCategory::Form => &["form"],
            ElementCategory::Pre => &["pre"],
            ElementCategory::ItemList => &["dir", "menu", "ol", "ul"],
            ElementCategory::Item => &["li"],
            ElementCategory::DescriptionList => &["dl"],
            ElementCategory::Description => &["dd", "dt"],
            ElementCategory::Ruby => &["ruby"],
            ElementCategory::RubyText => &["rp", "rt"],
            ElementCategory::Table => &["table"],
            ElementCategory::Caption => &["caption"],
            ElementCategory::ColumnGroup => &["colgroup"],
            ElementCategory::Column => &["col"],
            ElementCategory::RowGroup => &["tbody", "tfoot", "thead"],
            ElementCategory::TableRow => &["tr"],
            ElementCategory::Cell => &["td", "th"],
            ElementCategory::Document | ElementCategory::Other => &[],
        }
    }

    /// Returns the role of elements in this category.
    fn role(self) -> Role
        ensures { result ≡ role_of self }
    {
        match self {
            ElementCategory::Phrase
            | ElementCategory::Anchor
            | ElementCategory::Button
            | ElementCategory::Paragraph
            | ElementCategory::Block
            | ElementCategory::Heading
            | ElementCategory::Form
            | ElementCategory::Pre
            | ElementCategory::ItemList
            | ElementCategory::DescriptionList
            | ElementCategory::Ruby => Role::Flow,
            ElementCategory::Body
            | ElementCategory::Item
            | ElementCategory::Description
            | ElementCategory::RubyText
            | ElementCategory::Caption
            | ElementCategory::Cell => { Role::FlowHolder }
            ElementCategory::Verbatim => Role::FlowLeaf,
            ElementCategory::Table => Role::FlowTable,
            ElementCategory::Head
            | ElementCategory::ColumnGroup
            | ElementCategory::RowGroup
            | ElementCategory::TableRow => Role::Parts,
            _ => Role::Apart,
        }
    }

    /// Returns whether such elements may have the same content as a body.
    pub fn holds_flow(self) -> bool
        ensures { result ≡ holds_flow self }
    {
        matches!(self.role(), Role::Flow | Role::FlowHolder)
    }

    /// Returns whether such elements may occur in the content of a body.
    pub fn is_flow(self) -> bool
        ensures { result ≡ is_flow self }
    {
        matches!(self.role(), Role::Flow | Role::FlowLeaf | Role::FlowTable)
    }

    /// Returns whether such elements contain only certain elements, whitespace and comments.
    pub fn holds_parts(self) -> bool
        ensures { result ≡ holds_parts self }
    {
        matches!(self.role(), Role::FlowTable | Role::Parts)
    }

    /// Returns whether an element of the other category may be a child of one of this category.
    pub fn may_hold(self, kind: ElementCategory) -> bool
        ensures { result ≡ may_hold self kind }
    {
        match (self, kind) {
            (ElementCategory::Document, ElementCategory::Html)
            | (ElementCategory::Html, ElementCategory::Head | ElementCategory::Body)
            | (ElementCategory::Head, ElementCategory::Metadata | ElementCategory::Verbatim)
            | (ElementCategory::ItemList, ElementCategory::Item)
            | (ElementCategory::DescriptionList, ElementCategory::Description)
            | (ElementCategory::Ruby, ElementCategory::RubyText)
            | (
                ElementCategory::Table,
                ElementCategory::Caption | ElementCategory::ColumnGroup | ElementCategory::RowGroup,
            )
            | (ElementCategory::ColumnGroup, ElementCategory::Column)
            | (ElementCategory::RowGroup, ElementCategory::TableRow)
            | (ElementCategory::TableRow, ElementCategory::Cell) => true,
            (ElementCategory::Heading, ElementCategory::Heading) => false,
            _ => self.holds_flow() && kind.is_flow(),
        }
    }

    /// Returns whether comments may be children of such elements.
    pub fn holds_comments(self) -> bool
        ensures { result ≡ holds_comments self }
    {
        self.holds_parts() || self.holds_flow()
    }

    /// Returns whether a doctype may be a child: only the document may have one.
    pub fn holds_doctype(self) -> bool
        ensures { result ≡ holds_doctype self }
    {
        matches!(self, ElementCategory::Document)
    }
}
