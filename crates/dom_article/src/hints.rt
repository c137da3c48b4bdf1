//! What the name, the attributes and the words of an element say of it.

ghost use Rattle.std.specs.Prelude.{◌≡◌, ◌&&◌, ◌||◌, List, codes, not};
ghost use Rattle.dom_nodes.specs.declared.name.Attr.{Attr};
ghost use Rattle.dom_nodes.specs.Words.{is_among};
ghost use Rattle.std.specs.Str.{bytes_eq};
ghost use Rattle.dom_article.specs.Attributes.{AreAttributes};
ghost use Rattle.dom_article.specs.Facts.{has_letters, in_either, is_input_tag, is_link_tag};
ghost use Rattle.dom_article.specs.Facts.{is_main_tag, is_outer_tag, is_unlikely, points_of_words};
ghost use Rattle.dom_article.specs.Facts.{role_names, says_main, word_points};
ghost use Rattle.dom_article.specs.Hidden.{begins_with, says_hidden};

use crate::attributes::Attributes;
use crate::kinds::{Kind, Tag};
use crate::tables::{HINT, ROLES};
use crate::words::Found;
use dom_nodes::words::is_one_of;

/// Returns whether `role` or `itemprop` say that the element is the article.
pub(crate) fn says_main(attributes: &Attributes<'_>) -> bool
    ensures { result ≡ (bytes_eq attributes.now.role.now (codes "main")
        || bytes_eq attributes.now.itemprop.now (codes "articleBody")) }
{
    if attributes.role == "main" {
        return true;
    }
    attributes.itemprop == "articleBody"
}

/// Returns whether the name or the attributes say that the element is the article.
pub(crate) fn is_main(tag: Tag, attributes: &Attributes<'_>) -> bool
    ensures { result ≡ (is_main_tag tag || (bytes_eq attributes.now.role.now (codes "main")
        || bytes_eq attributes.now.itemprop.now (codes "articleBody"))) }
{
    if is_main_tag(tag) {
        return true;
    }
    says_main(attributes)
}

pub(crate) fn is_main_tag(tag: Tag) -> bool
    ensures { result ≡ is_main_tag tag }
{
    matches!(tag, Tag::Main | Tag::Article)
}

fn is_outer_tag(tag: Tag) -> bool
    ensures { result ≡ is_outer_tag tag }
{
    matches!(tag, Tag::Html | Tag::Body)
}

/// Returns whether the element is never shown.
pub(crate) fn is_hidden(kind: &Kind, attributes: &Attributes<'_>) -> bool
    ensures { (attrs : List Attr) → AreAttributes attrs attributes.now
        → result ≡ (kind.now.is_never || (not (is_outer_tag kind.now.tag) && says_hidden attrs)) }
{
    if kind.is_never {
        return true;
    }
    if is_outer_tag(kind.tag) {
        return false;
    }
    attributes.hide()
}

/// Returns whether the role of the element says that it isn't the article.
pub(crate) fn has_role(tag: Tag, attributes: &Attributes<'_>) -> bool
    ensures { result ≡ (not (is_outer_tag tag) && is_among attributes.now.role.now role_names) }
{
    if is_outer_tag(tag) {
        return false;
    }
    is_role(attributes.role)
}

/// Returns whether it is a role of elements that are left out.
#[tactic(auto, unfolding(crate::specs::Facts::role_names))]
fn is_role(role: &str) -> bool
    ensures { result ≡ is_among role.now role_names }
{
    is_one_of(role, &ROLES)
}

/// Returns whether a text has a character that isn't white space.
pub(crate) fn has_letters(text: &str) -> bool
    ensures { result ≡ has_letters text.now }
{
    text.as_bytes()
        .iter()
        .any(|byte| !byte.is_ascii_whitespace())
}

/// Returns whether the element is a link to somewhere else than a place of this page.
pub(crate) fn is_link(tag: Tag, attributes: &Attributes<'_>) -> bool
    ensures { result ≡ (is_link_tag tag && not (begins_with (codes "#") attributes.now.href.now)) }
{
    if !is_link_tag(tag) {
        return false;
    }
    !begins_number_sign(attributes.href.as_bytes())
}

fn is_link_tag(tag: Tag) -> bool
    ensures { result ≡ is_link_tag tag }
{
    matches!(tag, Tag::A)
}

fn begins_number_sign(text: &[u8]) -> bool
    ensures { result ≡ begins_with (codes "#") text.now }
{
    match text.first() {
        Some(byte) => *byte == b'#',
        None => false,
    }
}

/// Returns whether the element is a control of a form into which text is written.
pub(crate) fn is_input(tag: Tag, attributes: &Attributes<'_>) -> bool
    ensures { result ≡ (is_input_tag tag
        && not (bytes_eq attributes.now.input.now (codes "hidden"))) }
{
    if !is_input_tag(tag) {
        return false;
    }
    attributes.input != "hidden"
}

pub(crate) fn is_input_tag(tag: Tag) -> bool
    ensures { result ≡ is_input_tag tag }
{
    matches!(tag, Tag::Input | Tag::Textarea)
}

/// Returns whether the words in a class and an id say that the element isn't the article.
pub(crate) fn is_unlikely(kind: &Kind, class: &Found, id: &Found) -> bool
    ensures { result ≡ is_unlikely kind.now class.now id.now }
{
    if kind.stays || !in_either(kind, class.unlikely, id.unlikely) {
        return false;
    }
    if !in_either(kind, class.maybe, id.maybe) {
        return true;
    }
    in_either(kind, class.strong, id.strong)
}

/// Returns whether something is so of a class, or of an id that doesn't name a place.
fn in_either(kind: &Kind, class: bool, id: bool) -> bool
    ensures { result ≡ in_either kind.now class id }
{
    if class {
        return true;
    }
    if kind.is_place {
        return false;
    }
    id
}

/// Returns what the words in a class and an id add to the score.
pub(crate) fn points_of_words(kind: &Kind, class: &Found, id: &Found) -> i32
    ensures { result ≡ points_of_words kind.now class.now id.now }
{
    let points = word_points(class);
    if kind.is_place {
        return points;
    }
    points.saturating_add(word_points(id))
}

/// Returns what a class or an id adds to the score.
fn word_points(found: &Found) -> i32
    ensures { result ≡ word_points found.now }
{
    if found.positive == found.negative {
        return 0;
    }
    if found.positive { HINT } else { -HINT }
}

/// Returns whether the attributes say that the element is the name of the author.
pub(crate) fn is_byline(attributes: &Attributes<'_>, class: &Found, id: &Found) -> bool {
    class.byline
        || id.byline
        || attributes.rel == "author"
        || attributes.itemprop.contains("author")
}

/// Returns whether the attributes say that the element is the date.
pub(crate) fn is_date(tag: Tag, attributes: &Attributes<'_>) -> bool {
    if attributes.itemprop == "datePublished" {
        return true;
    }
    matches!(tag, Tag::Time) && attributes.has_datetime
}
