//! The score of a block.

ghost use Rattle.std.specs.Prelude.{◌≡◌, ◌≤◌, ◌<◌, ◌-◌, ◌*◌, ◌^◌, min, neg_ℤ, pos};
ghost use Rattle.std.specs.Int.RustNames.{unsigned_abs};
ghost use Rattle.dom_article.specs.Scores.{has_none, holds_articles, may_be_leaf, of_whole};
ghost use Rattle.dom_article.specs.Scores.{points, raised_points, score, text_part};

use crate::kinds::Tag;
use crate::page::Facts;
use crate::rounds::Rules;
use crate::sums::{Sums, share};
use crate::tables::{MAIN, POINT};

/// Returns the score of a block, in sixtieths of a point.
pub(crate) fn score_of(facts: &Facts, sums: &Sums, rules: Rules) -> i64
    ensures { result ≡ score rules facts.now sums.now }
{
    if has_none(facts, sums, rules) {
        return 0;
    }
    let points = points_of(facts, rules.hints);
    let begun = begun_with(points);
    if points >= 0 {
        return raised(sums, rules.cleans, sums.raw.saturating_add(begun));
    }
    if begun <= sums.raw {
        return raised(sums, rules.cleans, sums.raw - begun);
    }
    lowered(sums, rules.cleans, begun - sums.raw)
}

/// Returns whether a block has no score: one without text, and most single paragraphs.
fn has_none(facts: &Facts, sums: &Sums, rules: Rules) -> bool
    ensures { result ≡ has_none rules facts.now sums.now }
{
    if sums.raw == 0 || sums.size == 0 {
        return true;
    }
    sums.is_leaf && !may_be_leaf(facts, rules.hints)
}

/// Returns whether a leaf has a score: an element for whole articles with a good word in its class
/// or id.
fn may_be_leaf(facts: &Facts, hints: bool) -> bool
    ensures { result ≡ may_be_leaf hints facts.now }
{
    if !hints || facts.weight <= 0 {
        return false;
    }
    holds_articles(facts.kind.tag)
}

/// Returns whether elements of this kind hold whole articles.
fn holds_articles(tag: Tag) -> bool
    ensures { result ≡ holds_articles tag }
{
    match tag {
        Tag::Div | Tag::Section | Tag::Article | Tag::Main | Tag::Cell => true,
        _ => false,
    }
}

/// Returns the points that a block begins with.
fn points_of(facts: &Facts, hints: bool) -> i32
    ensures { result ≡ points hints facts.now }
{
    let raised = raised_points(facts);
    if hints {
        raised.saturating_add(facts.weight)
    } else {
        raised
    }
}

/// Returns the points of the name of a block, with those of a role that says that it is the
/// article.
fn raised_points(facts: &Facts) -> i32
    ensures { result ≡ raised_points facts.now }
{
    let base = facts.kind.base as i32;
    if facts.is_raised {
        base.saturating_add(MAIN)
    } else {
        base
    }
}

/// Returns how far the points are from none, in sixtieths.
fn begun_with(points: i32) -> u64
    ensures { result ≡ unsigned_abs points * 60 }
{
    points.unsigned_abs() as u64 * POINT
}

/// Returns the score of a block whose texts and points are so far above nothing.
fn raised(sums: &Sums, cleans: bool, whole: u64) -> i64
    ensures { result ≡ of_whole cleans sums.now (pos whole) }
{
    let score = text_share(sums, cleans, whole);
    if !cleans {
        return signed(score);
    }
    let texts = sums.paragraphs.saturating_add(1);
    signed(share(score, texts, texts.saturating_add(sums.link_runs)))
}

/// Returns the score of a block whose texts and points are so far below nothing.
fn lowered(sums: &Sums, cleans: bool, below: u64) -> i64
    requires { below < 2 ^ 63 }
    ensures { result ≡ neg_ℤ (pos (text_part cleans sums.now below)) }
{
    let score = text_share(sums, cleans, below);
    0i64.saturating_sub(signed(score))
}

/// Returns the part of the texts that aren't links, which count in rounds that leave out bad blocks.
fn text_share(sums: &Sums, cleans: bool, whole: u64) -> u64
    ensures is { result ≡ text_part cleans sums.now whole }
    ensures small { result ≤ whole }
{
    let link = if cleans { sums.link } else { 0 };
    share(whole, sums.size.saturating_sub(link), sums.size)
}

/// Returns the number as a signed one, at most the greatest.
fn signed(number: u64) -> i64
    ensures { result ≡ pos (min number (2 ^ 63 - 1)) }
{
    match i64::try_from(number) {
        Ok(number) => number,
        Err(_) => i64::MAX,
    }
}
