//! The kinds of elements that Markdown distinguishes, by their names.

use dom_trees::node_ref::NodeRef;

/// The kind of an element for Markdown.
#[derive(Clone, Copy, PartialEq, Eq, Drop)]
pub(crate) enum Tag {
    /// An element within a line for which nothing is written but its contents.
    Inline,
    /// An element that is left out with its contents.
    Skipped,
    /// A block without further meaning, such as a paragraph.
    Block,
    /// A heading of this level, from 1 to 6.
    Heading(u8),
    Quote,
    UnorderedList,
    OrderedList,
    Item,
    Preformatted,
    Rule,
    Table,
    Row,
    Cell,
    Caption,
    /// The term of a description list.
    Term,
    Strong,
    Emphasis,
    Strike,
    Code,
    Link,
    Image,
    Break,
    Input,
}

// The names of elements that are not `Tag::Inline`, by their first letter.

#[rattlefmt::skip]
static A: [(&str, Tag); 5] = [
    ("a", Tag::Link), ("address", Tag::Block), ("article", Tag::Block), ("aside", Tag::Block),
    ("audio", Tag::Skipped),
];

#[rattlefmt::skip]
static B: [(&str, Tag); 5] = [
    ("b", Tag::Strong), ("br", Tag::Break), ("base", Tag::Skipped), ("blockquote", Tag::Quote),
    ("body", Tag::Block),
];

#[rattlefmt::skip]
static C: [(&str, Tag); 5] = [
    ("code", Tag::Code), ("canvas", Tag::Skipped), ("caption", Tag::Caption),
    ("center", Tag::Block), ("colgroup", Tag::Skipped),
];

#[rattlefmt::skip]
static D: [(&str, Tag); 9] = [
    ("div", Tag::Block), ("dd", Tag::Block), ("dt", Tag::Term), ("datalist", Tag::Skipped),
    ("del", Tag::Strike), ("details", Tag::Block), ("dialog", Tag::Block),
    ("dir", Tag::UnorderedList), ("dl", Tag::Block),
];

#[rattlefmt::skip]
static E: [(&str, Tag); 1] = [
    ("em", Tag::Emphasis),
];

#[rattlefmt::skip]
static F: [(&str, Tag); 6] = [
    ("fieldset", Tag::Block), ("figcaption", Tag::Block), ("figure", Tag::Block),
    ("footer", Tag::Block), ("form", Tag::Block), ("frameset", Tag::Block),
];

#[rattlefmt::skip]
static H: [(&str, Tag); 11] = [
    ("h1", Tag::Heading(1)), ("h2", Tag::Heading(2)), ("h3", Tag::Heading(3)),
    ("h4", Tag::Heading(4)), ("h5", Tag::Heading(5)), ("h6", Tag::Heading(6)),
    ("head", Tag::Skipped), ("header", Tag::Block), ("hgroup", Tag::Block), ("hr", Tag::Rule),
    ("html", Tag::Block),
];

#[rattlefmt::skip]
static I: [(&str, Tag); 4] = [
    ("i", Tag::Emphasis), ("iframe", Tag::Skipped), ("img", Tag::Image), ("input", Tag::Input),
];

#[rattlefmt::skip]
static L: [(&str, Tag); 4] = [
    ("li", Tag::Item), ("legend", Tag::Block), ("link", Tag::Skipped),
    ("listing", Tag::Preformatted),
];

#[rattlefmt::skip]
static M: [(&str, Tag); 3] = [
    ("main", Tag::Block), ("menu", Tag::UnorderedList), ("meta", Tag::Skipped),
];

#[rattlefmt::skip]
static N: [(&str, Tag); 4] = [
    ("nav", Tag::Block), ("noembed", Tag::Skipped), ("noframes", Tag::Skipped),
    ("noscript", Tag::Block),
];

#[rattlefmt::skip]
static O: [(&str, Tag); 3] = [
    ("ol", Tag::OrderedList), ("optgroup", Tag::Block), ("option", Tag::Block),
];

#[rattlefmt::skip]
static P: [(&str, Tag); 3] = [
    ("p", Tag::Block), ("pre", Tag::Preformatted), ("plaintext", Tag::Preformatted),
];

#[rattlefmt::skip]
static S: [(&str, Tag); 9] = [
    ("strong", Tag::Strong), ("section", Tag::Block), ("s", Tag::Strike), ("samp", Tag::Code),
    ("script", Tag::Skipped), ("search", Tag::Block), ("strike", Tag::Strike),
    ("style", Tag::Skipped), ("summary", Tag::Block),
];

#[rattlefmt::skip]
static T: [(&str, Tag); 8] = [
    ("td", Tag::Cell), ("tr", Tag::Row), ("tt", Tag::Code), ("th", Tag::Cell),
    ("table", Tag::Table), ("template", Tag::Skipped), ("textarea", Tag::Preformatted),
    ("title", Tag::Skipped),
];

#[rattlefmt::skip]
static U: [(&str, Tag); 1] = [
    ("ul", Tag::UnorderedList),
];

#[rattlefmt::skip]
static V: [(&str, Tag); 1] = [
    ("video", Tag::Skipped),
];

#[rattlefmt::skip]
static X: [(&str, Tag); 1] = [
    ("xmp", Tag::Preformatted),
];

/// Returns the kind of the elements with this name.
pub(crate) fn tag_named(name: &str) -> Tag {
    let Some(first) = name.as_bytes().first() else {
        return Tag::Inline;
    };
    match *first {
        b'a' => tag_in(A.as_slice(), name),
        b'b' => tag_in(B.as_slice(), name),
        b'c' => tag_in(C.as_slice(), name),
        b'd' => tag_in(D.as_slice(), name),
        b'e' => tag_in(E.as_slice(), name),
        b'f' => tag_in(F.as_slice(), name),
        b'h' => tag_in(H.as_slice(), name),
        b'i' => tag_in(I.as_slice(), name),
        b'l' => tag_in(L.as_slice(), name),
        b'm' => tag_in(M.as_slice(), name),
        b'n' => tag_in(N.as_slice(), name),
        b'o' => tag_in(O.as_slice(), name),
        b'p' => tag_in(P.as_slice(), name),
        b's' => tag_in(S.as_slice(), name),
        b't' => tag_in(T.as_slice(), name),
        b'u' => tag_in(U.as_slice(), name),
        b'v' => tag_in(V.as_slice(), name),
        b'x' => tag_in(X.as_slice(), name),
        _ => Tag::Inline,
    }
}

fn tag_in(tags: &[(&str, Tag)], name: &str) -> Tag {
    for (known, tag) in tags {
        if known.len() == name.len() && *known == name {
            return *tag;
        }
    }
    Tag::Inline
}

/// Returns the kind of a node; `Inline` if it is not an element.
pub(crate) fn tag_of(node: &NodeRef<'_>) -> Tag {
    match node.node_name() {
        Some(name) => tag_named(name),
        None => Tag::Inline,
    }
}

/// Returns whether the elements of this kind stand on lines of their own.
pub(crate) fn is_block_tag(tag: Tag) -> bool {
    match tag {
        Tag::Inline | Tag::Skipped | Tag::Strong | Tag::Emphasis | Tag::Strike | Tag::Code => false,
        Tag::Link | Tag::Image | Tag::Break | Tag::Input => false,
        _ => true,
    }
}
