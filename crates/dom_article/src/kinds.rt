//! The kinds of elements, by their names.

ghost use Rattle.std.specs.Prelude.{◌≡◌, ◌||◌, IfOk, None, Some, map, pos, slice_index_or};
ghost use Rattle.std.specs.Prelude.{false, slice_get, slice_set};
ghost use Rattle.std.specs.Str.{bytes_eq};
ghost use Rattle.std.specs.Option.{option_map_or};
ghost use Rattle.dom_article.specs.declared.kinds.Tag.TheVariants.{Other};
ghost use Rattle.dom_nodes.specs.Words.{is_among};
ghost use Rattle.dom_article.specs.Hidden.{never_names};
ghost use Rattle.dom_article.specs.Names.{AreKinds, base_in, base_of, block_names};
ghost use Rattle.dom_article.specs.Names.{heading_names, tag_by};
ghost use Rattle.dom_article.specs.Names.{kind_of, kind_with, named_bases, named_tags};
ghost use Rattle.dom_article.specs.Names.{never_bad_names, place_names, row_names, staying_names};
ghost use Rattle.dom_article.specs.Names.{tag_in, tag_of};

use crate::tables::{BASES, BLOCKS, HEADINGS, NEVER, NEVER_BAD, NOT_BY_WORDS, PLACES, ROWS};
use dom_nodes::fault::OutOfMemory;
use dom_nodes::name::LocalRef;
use dom_nodes::words::is_one_of;
use std::alloc::Global;

/// The nodes that rules name one by one.
#[derive(Clone, Copy, PartialEq, Eq, Drop)]
pub(crate) enum Tag {
    Document,
    Text,
    /// An element that no rule names.
    Other,
    A,
    Article,
    Aside,
    Blockquote,
    Body,
    Br,
    Div,
    Figure,
    Footer,
    H1,
    H2,
    H3,
    Html,
    Image,
    Input,
    List,
    Main,
    Meta,
    Paragraph,
    Preformatted,
    Script,
    Section,
    Style,
    Table,
    Cell,
    Textarea,
    Time,
    Title,
}

/// The elements that rules name one by one.
static TAGS: [(&str, Tag); 30] = [
    ("a", Tag::A),
    ("article", Tag::Article),
    ("aside", Tag::Aside),
    ("blockquote", Tag::Blockquote),
    ("body", Tag::Body),
    ("br", Tag::Br),
    ("div", Tag::Div),
    ("figure", Tag::Figure),
    ("footer", Tag::Footer),
    ("h1", Tag::H1),
    ("h2", Tag::H2),
    ("h3", Tag::H3),
    ("html", Tag::Html),
    ("img", Tag::Image),
    ("input", Tag::Input),
    ("dl", Tag::List),
    ("ol", Tag::List),
    ("ul", Tag::List),
    ("main", Tag::Main),
    ("meta", Tag::Meta),
    ("p", Tag::Paragraph),
    ("pre", Tag::Preformatted),
    ("script", Tag::Script),
    ("section", Tag::Section),
    ("style", Tag::Style),
    ("table", Tag::Table),
    ("td", Tag::Cell),
    ("textarea", Tag::Textarea),
    ("time", Tag::Time),
    ("title", Tag::Title),
];

/// What is known of a node by its name.
#[derive(Clone, Copy, Drop)]
pub(crate) struct Kind {
    pub(crate) tag: Tag,
    pub(crate) is_block: bool,
    pub(crate) is_heading: bool,
    /// It is never part of an article.
    pub(crate) is_never: bool,
    /// Its id names a place of the text, and is no hint.
    pub(crate) is_place: bool,
    /// It isn't left out because of the words in its class and id.
    pub(crate) stays: bool,
    /// It isn't left out as a bad block.
    pub(crate) is_never_bad: bool,
    /// The points that it begins with.
    pub(crate) base: i8,
}

impl Kind {
    /// A node of this tag, and nothing more.
    pub(crate) fn of(tag: Tag) -> Kind
        ensures { result ≡ kind_with tag }
    {
        Kind {
            tag,
            is_block: false,
            is_heading: false,
            is_never: false,
            is_place: false,
            stays: false,
            is_never_bad: false,
            base: 0,
        }
    }
}

/// The kinds of elements, which are kept by the numbers of the names of those that were asked for.
#[derive(Drop)]
pub(crate) struct Kinds {
    known: Vec<Option<Kind>>,
}

impl Kinds {
    /// Returns the table before it was asked for any. Fails only when memory runs out.
    pub(crate) fn new(alloc: Global) -> Result<Kinds, OutOfMemory>
        ensures { IfOk result (λ kinds. AreKinds kinds) }
    {
        Ok(Kinds {
            known: vec![in alloc; None; 256]?,
        })
    }

    /// Returns the kind of the elements with this name.
    pub(crate) fn kind_of(&mut self, name: &LocalRef<'_>) -> Kind
        requires { AreKinds self.old }
        ensures is { result ≡ kind_of name.now }
        ensures kept { AreKinds self.new }
    {
        let Some(number) = name.number() else {
            return kind_named(name.as_str());
        };
        if let Some(kind) = self.known_at(number) {
            return kind;
        }
        let kind = kind_named(name.as_str());
        self.keep(number, kind);
        kind
    }

    /// Returns the kind of the elements whose name has this number, if it was asked for before.
    fn known_at(&self, number: u8) -> Option<Kind>
        ensures { result ≡ slice_index_or self.now.known.items number None }
    {
        match self.known.get(number as usize) {
            Some(known) => *known,
            None => None,
        }
    }

    /// Keeps the kind of the elements whose name has this number.
    fn keep(&mut self, number: u8, kind: Kind)
        ensures { self.new.known.items ≡ slice_set self.old.known.items number (Some kind) }
    {
        if let Some(slot) = self.known.get_mut(number as usize) {
            *slot = Some(kind);
        }
    }
}

/// Returns what is known of the elements with this name.
fn kind_named(name: &str) -> Kind
    ensures { result ≡ kind_of name.now }
{
    Kind {
        tag: tag_of(name),
        is_block: is_block_name(name),
        is_heading: is_heading_name(name),
        is_never: is_never_name(name),
        is_place: is_place_name(name),
        stays: is_staying_name(name),
        is_never_bad: is_never_bad_name(name),
        base: base_of(name),
    }
}

fn is_block_name(name: &str) -> bool
    ensures { result ≡ (is_among name.now block_names || is_among name.now row_names) }
{
    if is_plain_block_name(name) {
        return true;
    }
    is_row_name(name)
}

#[tactic(auto, unfolding(crate::specs::Names::block_names))]
fn is_plain_block_name(name: &str) -> bool
    ensures { result ≡ is_among name.now block_names }
{
    is_one_of(name, &BLOCKS)
}

#[tactic(auto, unfolding(crate::specs::Names::row_names))]
fn is_row_name(name: &str) -> bool
    ensures { result ≡ is_among name.now row_names }
{
    is_one_of(name, &ROWS)
}

#[tactic(auto, unfolding(crate::specs::Names::heading_names))]
fn is_heading_name(name: &str) -> bool
    ensures { result ≡ is_among name.now heading_names }
{
    is_one_of(name, &HEADINGS)
}

#[tactic(auto, unfolding(crate::specs::Hidden::never_names))]
fn is_never_name(name: &str) -> bool
    ensures { result ≡ is_among name.now never_names }
{
    is_one_of(name, &NEVER)
}

fn is_place_name(name: &str) -> bool
    ensures { result ≡ (is_among name.now heading_names || is_among name.now place_names) }
{
    if is_heading_name(name) {
        return true;
    }
    is_named_place(name)
}

#[tactic(auto, unfolding(crate::specs::Names::place_names))]
fn is_named_place(name: &str) -> bool
    ensures { result ≡ is_among name.now place_names }
{
    is_one_of(name, &PLACES)
}

#[tactic(auto, unfolding(crate::specs::Names::staying_names))]
fn is_staying_name(name: &str) -> bool
    ensures { result ≡ is_among name.now staying_names }
{
    is_one_of(name, &NOT_BY_WORDS)
}

#[tactic(auto, unfolding(crate::specs::Names::never_bad_names))]
fn is_never_bad_name(name: &str) -> bool
    ensures { result ≡ is_among name.now never_bad_names }
{
    is_one_of(name, &NEVER_BAD)
}

/// Returns the tag of the elements with this name.
#[tactic(auto, unfolding(crate::specs::Names::named_tags))]
fn tag_of(name: &str) -> Tag
    ensures { result ≡ tag_of name.now }
{
    tag_in(name, &TAGS)
}

/// Returns the tag of the pair with this name.
fn tag_in(name: &str, tags: &[(&str, Tag)]) -> Tag
    ensures { result ≡ tag_in (map (λ e. (e.0.now, e.1)) tags.now) name.now Other }
{
    let mut tag = Tag::Other;
    for at in 0..tags.len() {
        tag = tag_at(tags, at, name, tag);
    }
    tag
}

fn tag_at(tags: &[(&str, Tag)], at: usize, name: &str, other: Tag) -> Tag
    ensures { result ≡ option_map_or (λ e. tag_by (e.0.now, e.1) name.now other)
        (slice_get tags.now at) other }
{
    match tags.get(at) {
        Some(pair) => tag_by(pair, name, other),
        None => other,
    }
}

fn tag_by(pair: &(&str, Tag), name: &str, other: Tag) -> Tag
    ensures { result ≡ tag_by (pair.now.0.now, pair.now.1) name.now other }
{
    if pair.0 == name { pair.1 } else { other }
}

/// Returns the points that the elements with this name begin with.
#[tactic(auto, unfolding(crate::specs::Names::named_bases))]
fn base_of(name: &str) -> i8
    ensures { result ≡ base_of name.now }
{
    base_in(name, &BASES)
}

/// Returns the points of the first pair with this name; 0 if there is none.
fn base_in(name: &str, bases: &[(&str, i8)]) -> i8
    ensures { result ≡ base_in (map (λ e. (e.0.now, e.1)) bases.now) name.now }
{
    points_at(bases, place_of(name, bases))
}

/// Returns the place of the first pair with this name; that behind the last one if there is none.
fn place_of(name: &str, bases: &[(&str, i8)]) -> usize
    ensures { option_map_or (λ e. e.1) (slice_get bases.now result) (pos 0)
        ≡ base_in (map (λ e. (e.0.now, e.1)) bases.now) name.now }
{
    for at in 0..bases.len() {
        if is_named_at(bases, at, name) {
            return at;
        }
    }
    bases.len()
}

fn is_named_at(bases: &[(&str, i8)], at: usize, name: &str) -> bool
    ensures { result ≡ option_map_or (λ e. bytes_eq e.0.now name.now)
        (slice_get bases.now at) false }
{
    match bases.get(at) {
        Some(pair) => pair.0 == name,
        None => false,
    }
}

fn points_at(bases: &[(&str, i8)], at: usize) -> i8
    ensures { result ≡ option_map_or (λ e. e.1) (slice_get bases.now at) (pos 0) }
{
    match bases.get(at) {
        Some(pair) => pair.1,
        None => 0,
    }
}
