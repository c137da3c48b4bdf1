//! The kinds of elements that Markdown distinguishes, by their names.

ghost use Rattle.std.specs.Prelude.{◌≡◌, ◌≢◌, codes};
ghost use Rattle.std.specs.Str.{bytes_eq};
ghost use Rattle.dom_nodes.specs.Words.{is_among};
ghost use Rattle.dom_md.specs.declared.serializer.names.Tag.TheVariants.{Other};
ghost use Rattle.dom_md.specs.Names.{is_skipped_number, skipped_names};
ghost use Rattle.dom_md.specs.Tags.{inner_numbered, tag_named, tag_numbered};

use dom_nodes::name::LocalRef;

// The numbers of some known names, which are stored as a number in place of text. The proofs show
// that each belongs to its name.
const HREF: u8 = 71;

const TITLE: u8 = 123;

const SCRIPT: u8 = 154;

const STYLE: u8 = 118;

const META: u8 = 79;

const HEAD: u8 = 70;

const P: u8 = 5;

const DIV: u8 = 39;

const SECTION: u8 = 189;

const ARTICLE: u8 = 168;

const DL: u8 = 11;

const A: u8 = 1;

const LI: u8 = 22;

const UL: u8 = 30;

const OL: u8 = 23;

const STRONG: u8 = 162;

const B: u8 = 2;

const EM: u8 = 13;

const I: u8 = 4;

const CODE: u8 = 64;

const PRE: u8 = 49;

const BR: u8 = 9;

const IMG: u8 = 41;

const TD: u8 = 26;

const TH: u8 = 27;

const TR: u8 = 28;

const TABLE: u8 = 119;

const BLOCKQUOTE: u8 = 229;

const HR: u8 = 20;

const H1: u8 = 14;

const H6: u8 = 19;

/// Returns whether the name is `href`.
pub(super) fn is_href(name: &LocalRef<'_>) -> bool
    ensures { result ≡ bytes_eq name.now (codes "href") }
{
    match name.number() {
        Some(number) => number == HREF,
        None => name.as_str() == "href",
    }
}

/// Returns whether the name is `title`.
pub(super) fn is_title(name: &LocalRef<'_>) -> bool
    ensures { result ≡ bytes_eq name.now (codes "title") }
{
    match name.number() {
        Some(number) => number == TITLE,
        None => name.as_str() == "title",
    }
}

/// Returns whether elements with this name are left out by default: `script`, `style`, `meta`,
/// `head`.
pub(super) fn is_default_skipped(name: &LocalRef<'_>) -> bool
    ensures { result ≡ is_among name.now skipped_names }
{
    match name.number() {
        Some(number) => is_skipped_number(number),
        None => is_skipped_text(name.as_str()),
    }
}

fn is_skipped_number(number: u8) -> bool
    ensures { result ≡ is_skipped_number number }
{
    number == SCRIPT || number == STYLE || number == META || number == HEAD
}

#[tactic(auto, unfolding(crate::specs::Names::skipped_names))]
fn is_skipped_text(name: &str) -> bool
    ensures { result ≡ is_among name.now skipped_names }
{
    matches!(name, "script" | "style" | "meta" | "head")
}

/// The kind of an element for Markdown.
#[derive(Clone, Copy, PartialEq, Eq, Drop)]
pub(super) enum Tag {
    /// A heading of this level, from 1 to 6.
    Heading(u8),
    /// A block without further meaning, such as a paragraph.
    Block,
    Quote,
    Table,
    Rule,
    UnorderedList,
    OrderedList,
    Item,
    TableRow,
    TableCell,
    Break,
    Link,
    Image,
    Preformatted,
    Code,
    Strong,
    Emphasis,
    Other,
}

/// Returns the kind of an element with that name. All names with a kind other than `Other` are in
/// the table of known names, so a name outside the table is `Other`.
pub(super) fn tag_of(name: &LocalRef<'_>) -> Tag
    ensures { result ≢ Other → result ≡ tag_named name.now }
{
    match name.number() {
        Some(number) => tag_numbered(number),
        None => Tag::Other,
    }
}

/// Returns the kind of an element by the index of its name in the table of known names.
fn tag_numbered(number: u8) -> Tag
    ensures { result ≡ tag_numbered number }
{
    if number == P || number == DIV || number == SECTION || number == ARTICLE || number == DL {
        return Tag::Block;
    }
    if H1 <= number && number <= H6 {
        return Tag::Heading(number - H1 + 1);
    }
    if number == BLOCKQUOTE {
        return Tag::Quote;
    }
    if number == TABLE {
        return Tag::Table;
    }
    if number == HR {
        return Tag::Rule;
    }
    if number == UL {
        return Tag::UnorderedList;
    }
    if number == OL {
        return Tag::OrderedList;
    }
    inner_numbered(number)
}

/// Returns the kind of an element that is not a block, by the index of its name in the table of
/// known names.
fn inner_numbered(number: u8) -> Tag
    ensures { result ≡ inner_numbered number }
{
    if number == LI {
        return Tag::Item;
    }
    if number == TR {
        return Tag::TableRow;
    }
    if number == TD || number == TH {
        return Tag::TableCell;
    }
    if number == BR {
        return Tag::Break;
    }
    if number == A {
        return Tag::Link;
    }
    if number == IMG {
        return Tag::Image;
    }
    if number == PRE {
        return Tag::Preformatted;
    }
    if number == CODE {
        return Tag::Code;
    }
    if number == STRONG || number == B {
        return Tag::Strong;
    }
    if number == EM || number == I {
        return Tag::Emphasis;
    }
    Tag::Other
}

impl Tag {
    /// Returns whether the element is a block, on lines of its own.
    pub(super) fn is_block(self) -> bool {
        match self {
            Tag::Heading(_) | Tag::Block | Tag::Quote | Tag::Table | Tag::Rule => true,
            Tag::UnorderedList | Tag::OrderedList => true,
            _ => false,
        }
    }

    /// Returns whether spaces separate the element from what is around it in the text of a link.
    pub(super) fn is_link_block(self) -> bool {
        match self {
            Tag::Item | Tag::TableRow | Tag::TableCell => true,
            _ => self.is_block(),
        }
    }

    /// Returns whether text may be written at the end of the element.
    pub(super) fn has_end(self) -> bool {
        self.is_link_block() || matches!(self, Tag::Break)
    }

    pub(super) fn is_list(self) -> bool {
        matches!(self, Tag::UnorderedList | Tag::OrderedList)
    }

    pub(super) fn is_heading(self) -> bool {
        matches!(self, Tag::Heading(_))
    }

    /// Returns the prefix that is written before the element's content.
    pub(super) fn prefix(self) -> &'static str {
        match self {
            Tag::Heading(level) => heading_prefix(level),
            Tag::Rule => "---",
            _ => "",
        }
    }
}

fn heading_prefix(level: u8) -> &'static str {
    match level {
        1 => "# ",
        2 => "## ",
        3 => "### ",
        4 => "#### ",
        5 => "##### ",
        _ => "###### ",
    }
}
