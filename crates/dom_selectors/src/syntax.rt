//! Selectors as values. The terms are those of Selectors Level 4.

ghost use Rattle.std.specs.Prelude.{◌≡◌};
ghost use Rattle.dom_selectors.specs.Grammar.{combinator_of};

use crate::selector_name::SelectorName;
use dom_nodes::case_sensitivity::CaseSensitivity;
use dom_nodes::indexes::{IndexKind, Nth};
use dom_nodes::text::Text;

/// The operator of an attribute selector.
#[derive(Clone, Copy, PartialEq, Eq, Debug, Drop)]
pub enum AttrOperator {
    /// `=`: the attribute is the value.
    Equals,
    /// `~=`: the value is one of the attribute's words.
    Includes,
    /// `|=`: the attribute is the value, or starts with the value and `-`.
    DashMatch,
    /// `^=`: the attribute starts with the value.
    Prefix,
    /// `$=`: the attribute ends with the value.
    Suffix,
    /// `*=`: the attribute contains the value.
    Substring,
}

/// The comparison of an attribute selector.
#[derive(PartialEq, Eq, Debug, Drop)]
pub struct Comparison {
    pub operator: AttrOperator,
    pub value: Text,
    pub case_sensitivity: CaseSensitivity,
}

/// An attribute selector: the name, and a comparison of the value, if there is one.
#[derive(PartialEq, Eq, Debug, Drop)]
pub struct Attribute {
    pub name: SelectorName,
    pub comparison: Option<Comparison>,
}

/// A combinator: the relation of the node on the left to the node on the right.
#[derive(Clone, Copy, PartialEq, Eq, Debug, Drop)]
pub enum Combinator {
    /// Whitespace: the left node is an ancestor.
    Descendant,
    /// `>`: the left node is the parent.
    Child,
    /// `+`: the left node is a previous sibling, with no element between the two.
    Adjacent,
    /// `~`: the left node is a previous sibling.
    Sibling,
}

/// Returns the combinator for a sign.
pub(crate) fn combinator_of(c: char) -> Option<Combinator>
    ensures { result ≡ combinator_of c }
{
    match c {
        '>' => Some(Combinator::Child),
        '+' => Some(Combinator::Adjacent),
        '~' => Some(Combinator::Sibling),
        _ => None,
    }
}

/// The positions that a node may have among its siblings.
#[derive(Clone, Copy, PartialEq, Eq, Debug, Drop)]
pub struct Position {
    pub kind: IndexKind,
    pub nth: Nth,
}

/// A simple selector, apart from those with nested selectors.
#[derive(PartialEq, Eq, Debug, Drop)]
pub enum Part {
    /// `*`: every node matches.
    Universal,
    /// A type selector: the name of an element.
    Type(SelectorName),
    /// `#` and the value of the attribute `id`.
    Id(Text),
    /// `.` and a word of the attribute `class`.
    Class(Text),
    /// An attribute selector in brackets.
    Attribute(Attribute),
    /// `:root` and `:scope`: an element whose parent is the root of the tree.
    Root,
    /// `:link` and `:any-link`: an element that is a hyperlink.
    Link,
    /// `:hover` and other states that no node of a tree has; it matches nothing.
    Never,
    /// `:empty`: an element without child elements and without a text that isn't blank.
    Empty,
    /// `:only-text`: the node has exactly one child, a text that isn't blank.
    OnlyText,
    /// `:has-text(..)`: one of the texts at or below the node contains this text.
    HasText(Text),
    /// `:contains(..)`: the texts at and below the node, concatenated, contain this text.
    Contains(Text),
    /// `:nth-child(..)` and the like: a position among the siblings.
    Position(Position),
}

/// A pseudo-class with a nested selector list.
#[cycle(selectors)]
#[derive(PartialEq, Eq, Debug, Drop)]
pub enum Nested {
    /// `:is` and `:where`: one of the selectors matches the node.
    Is(Vec<Selector>),
    /// `:not`: none of the selectors matches the node.
    Not(Vec<Selector>),
    /// `:has`: one of the selectors, taken relative to the node, matches an element.
    Has(Vec<Selector>),
}

/// A compound selector: all its parts and nested lists have to match one node.
#[cycle(selectors)]
#[derive(PartialEq, Eq, Debug, Drop)]
pub struct Compound {
    pub parts: Vec<Part>,
    pub nested: Vec<Nested>,
}

/// A compound selector and the combinator before it.
#[cycle(selectors)]
#[derive(PartialEq, Eq, Debug, Drop)]
pub struct Step {
    pub combinator: Combinator,
    pub compound: Compound,
}

/// A complex selector: compound selectors with combinators between them. In `:has`, `lead` is the
/// combinator before the first; elsewhere it has no meaning.
#[cycle(selectors)]
#[derive(PartialEq, Eq, Debug, Drop)]
pub struct Selector {
    pub lead: Combinator,
    pub first: Compound,
    pub rest: Vec<Step>,
}

/// What a compound selector may have after its type selector.
#[derive(Drop)]
pub(crate) enum Item {
    Simple(Part),
    Two(Part, Part),
    Listed(Nested),
}

/// A pseudo-class without parentheses.
#[derive(Clone, Copy, Drop)]
pub(crate) enum Bare {
    Root,
    Link,
    Never,
    Empty,
    OnlyText,
    /// The node has index 1.
    First(IndexKind),
    /// The node has index 1 of both kinds.
    Only(IndexKind, IndexKind),
}

/// Which pseudo-class a selector list belongs to: `:is`, `:not` or `:has`.
#[derive(Clone, Copy, Drop)]
pub(crate) enum Quantifier {
    SomeOf,
    NoneOf,
    RelativeOf,
}

/// Which texts of a node are searched for a string.
#[derive(Clone, Copy, Drop)]
pub(crate) enum TextTest {
    /// Each text at or below the node by itself.
    InOne,
    /// All of these texts, concatenated.
    InAll,
}

/// The kind of a pseudo-class, which says what follows its name.
#[derive(Clone, Copy, Drop)]
pub(crate) enum Pseudo {
    Plain(Bare),
    Listed(Quantifier),
    Nth(IndexKind),
    Text(TextTest),
}

/// The context of what is parsed.
#[derive(Clone, Copy, Drop)]
pub(crate) struct ParseContext {
    /// How many levels of parentheses may still open.
    pub depth: usize,
    /// Whether a `:has` is around it.
    pub in_has: bool,
    /// Whether a selector may start with a combinator.
    pub is_relative: bool,
}
