//! Which blocks are bad, and left out of the article.

ghost use Rattle.std.specs.Prelude.{◌≡◌};
ghost use Rattle.dom_article.specs.Badness.{exceeds, has_few_commas, has_many_images, is_aside};
ghost use Rattle.dom_article.specs.Badness.{is_bad, is_bad_kind, is_bad_table, is_bad_text};
ghost use Rattle.dom_article.specs.Badness.{is_document, is_figure, is_of_links, is_section};
ghost use Rattle.dom_article.specs.Badness.{is_short, weight_of};

use crate::kinds::Tag;
use crate::page::Facts;
use crate::rounds::Rules;
use crate::sums::Sums;
use crate::tables::{HINT, MANY_COMMAS, SHORTEST_BLOCK};

/// Returns whether a block is bad.
pub(crate) fn is_bad(facts: &Facts, sums: &Sums, rules: Rules) -> bool
    ensures { result ≡ is_bad rules facts.now sums.now }
{
    let weight = weight_of(facts, rules);
    let tag = facts.kind.tag;
    if facts.kind.is_never_bad || is_document(tag) {
        return false;
    }
    if facts.kind.is_heading {
        return weight < 0 || sums.size == 0;
    }
    if sums.size == 0 {
        return sums.images == 0;
    }
    if is_aside(tag) && rules.hints {
        return true;
    }
    if !rules.cleans {
        return false;
    }
    is_bad_kind(tag, sums, weight)
}

/// Returns what the words in a class and an id say, where they count.
fn weight_of(facts: &Facts, rules: Rules) -> i32
    ensures { result ≡ weight_of rules facts.now }
{
    if rules.hints { facts.weight } else { 0 }
}

/// Returns whether a node is a document.
pub(crate) fn is_document(tag: Tag) -> bool
    ensures { result ≡ is_document tag }
{
    matches!(tag, Tag::Document)
}

fn is_aside(tag: Tag) -> bool
    ensures { result ≡ is_aside tag }
{
    matches!(tag, Tag::Aside | Tag::Footer)
}

fn is_section(tag: Tag) -> bool
    ensures { result ≡ is_section tag }
{
    matches!(tag, Tag::Section)
}

fn is_figure(tag: Tag) -> bool
    ensures { result ≡ is_figure tag }
{
    matches!(tag, Tag::Figure)
}

/// Returns whether a block with a text is bad in a round that leaves bad blocks out.
fn is_bad_kind(tag: Tag, sums: &Sums, weight: i32) -> bool
    ensures { result ≡ is_bad_kind tag weight sums.now }
{
    match tag {
        Tag::List => weight < 0,
        Tag::Table => is_bad_table(sums, weight),
        _ => is_bad_text(tag, sums, weight),
    }
}

fn is_bad_table(sums: &Sums, weight: i32) -> bool
    ensures { result ≡ is_bad_table weight sums.now }
{
    if weight < 0 {
        return true;
    }
    exceeds(sums.link, 1, 2, sums.size) && has_few_commas(sums)
}

fn has_few_commas(sums: &Sums) -> bool
    ensures { result ≡ has_few_commas sums.now }
{
    sums.commas < MANY_COMMAS
}

/// Returns whether `part` is more than `share` of `among` parts of the whole.
fn exceeds(part: u32, share: u64, among: u64, whole: u32) -> bool
    ensures { result ≡ exceeds part share among whole }
{
    (whole as u64).saturating_mul(share) < (part as u64).saturating_mul(among)
}

/// Returns whether a block that is neither a list nor a table is bad, by what is in it.
fn is_bad_text(tag: Tag, sums: &Sums, weight: i32) -> bool
    ensures { result ≡ is_bad_text tag weight sums.now }
{
    if weight < 0 && !is_section(tag) {
        return true;
    }
    if !has_few_commas(sums) {
        return false;
    }
    if has_many_images(tag, sums) || sums.inputs > sums.paragraphs / 3 {
        return true;
    }
    if exceeds(sums.in_lists, 9, 10, sums.size) {
        return exceeds(sums.link, 4, 5, sums.size);
    }
    if is_of_links(sums, weight) {
        return true;
    }
    is_short(sums)
}

/// Returns whether too many of the characters of a block are in links.
fn is_of_links(sums: &Sums, weight: i32) -> bool
    ensures { result ≡ is_of_links weight sums.now }
{
    if exceeds(sums.link, 1, 2, sums.size) {
        return true;
    }
    exceeds(sums.link, 2, 5, sums.size) && weight < HINT
}

/// Returns whether a block has more than one image, and not half as many paragraphs.
fn has_many_images(tag: Tag, sums: &Sums) -> bool
    ensures { result ≡ has_many_images tag sums.now }
{
    if sums.images <= 1 || is_figure(tag) {
        return false;
    }
    (sums.paragraphs as u64) * 2 < sums.images as u64
}

/// Returns whether a block is short, has a link and no image, and isn't a heading.
fn is_short(sums: &Sums) -> bool
    ensures { result ≡ is_short sums.now }
{
    if sums.size >= SHORTEST_BLOCK || sums.link == 0 || sums.images > 0 {
        return false;
    }
    (sums.in_headings as u64) * 10 < (sums.size as u64) * 9
}
