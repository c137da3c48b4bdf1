//! The choice of a round: the best block, the root of the article, and what joins it.

ghost use Rattle.std.specs.Prelude.{◌≡◌, IfOk, MatchOption, None};
ghost use Rattle.dom_article.specs.Best.{IsBestOf, beats, is_candidate, may_be_best, score_at};
ghost use Rattle.dom_article.specs.Chosen.{IsLargeMain, Starts, has_two_thirds};
ghost use Rattle.dom_article.specs.Chosen.{is_frame_at, is_main_at, promoted, size_at};
ghost use Rattle.dom_article.specs.Found.{IsAtOrAbove, IsChosen};

use crate::kinds::Tag;
use crate::page::{Facts, Page};
use crate::rounds::Round;
use crate::sums::Sums;
use crate::tables::{ENOUGH, JOIN, POINT, SHORTEST_RUN};
use dom_nodes::fault::OutOfMemory;
use dom_nodes::node_id::NodeId;

/// What was chosen in a round.
#[derive(Drop)]
pub(crate) struct Choice {
    /// The node that holds the article.
    pub(crate) root: NodeId,
    best: NodeId,
    ways: Ways,
}

/// Chooses the article of a round. The result is `None` if there is no block at all. Fails only
/// when memory runs out.
pub(crate) fn choose(page: &Page<'_>, round: &Round) -> Result<Option<Choice>, OutOfMemory>
    ensures { IfOk result (λ found. MatchOption found (Starts page.now round.now None)
        (λ choice. IsChosen page.now round.now choice.root)) }
{
    let main = large_main(page, round);
    if let Some(main) = main {
        return Ok(Some(Choice::new(page, main)?));
    }
    let Some(first) = first_greatest(page, round) else {
        return Ok(None);
    };
    let best = promoted(page, round, first);
    let mut choice = Choice::new(page, best)?;
    choice.root = choice.ways.climb(page, round, best);
    choice.ways.join_headings(page, round, best, choice.root);
    Ok(Some(choice))
}

/// Returns the first of the largest elements that say that they are the article, if it is large and
/// the round leaves no bad blocks out.
fn large_main(page: &Page<'_>, round: &Round) -> Option<NodeId>
    ensures { IsLargeMain page.now round.now result }
{
    if round.rules.cleans {
        return None;
    }
    let Some(main) = largest_main(page, round) else {
        return None;
    };
    if round.at(main).size < ENOUGH {
        return None;
    }
    Some(main)
}

/// Returns the first of the largest elements that say that they are the article.
fn largest_main(page: &Page<'_>, round: &Round) -> Option<NodeId>
    ensures { IsBestOf (is_main_at page.now round.now) (size_at round.now)
        page.now.order.items result }
{
    let mut largest: Option<NodeId> = None;
    for id in &page.order {
        if is_larger(page, round, &largest, *id) {
            largest = Some(*id);
        }
    }
    largest
}

/// Returns whether an element says that it is the article, and is larger than the largest so far.
fn is_larger(page: &Page<'_>, round: &Round, largest: &Option<NodeId>, id: NodeId) -> bool
    ensures { result ≡ beats (is_main_at page.now round.now) (size_at round.now)
        largest.now id }
{
    if !is_main(page, round, id) {
        return false;
    }
    match largest {
        Some(other) => round.at(*other).size < round.at(id).size,
        None => true,
    }
}

/// Returns whether an element isn't gone and says that it is the article.
fn is_main(page: &Page<'_>, round: &Round, id: NodeId) -> bool
    ensures { result ≡ is_main_at page.now round.now id }
{
    if round.is_gone(id) {
        return false;
    }
    page.at(id).is_main
}

/// Returns whether a node may be the best block.
fn is_candidate(page: &Page<'_>, round: &Round, id: NodeId) -> bool
    ensures { result ≡ is_candidate page.now round.now id }
{
    if round.is_gone(id) {
        return false;
    }
    may_be_best(page.at(id), round.at(id))
}

/// Returns whether a node that isn't gone may be the best block: any block but the document, `html`
/// and leaves without a score; `body` always.
fn may_be_best(facts: &Facts, sums: &Sums) -> bool
    ensures { result ≡ may_be_best facts.now sums.now }
{
    if sums.is_inline {
        return false;
    }
    match facts.kind.tag {
        Tag::Body => true,
        Tag::Document | Tag::Html | Tag::Text => false,
        _ => !sums.is_leaf || sums.score != 0,
    }
}

/// Returns the first of the candidates with the greatest score.
fn first_greatest(page: &Page<'_>, round: &Round) -> Option<NodeId>
    ensures { IsBestOf (is_candidate page.now round.now) (score_at round.now)
        page.now.order.items result }
{
    let mut greatest: Option<NodeId> = None;
    for id in &page.order {
        if beats(page, round, &greatest, *id) {
            greatest = Some(*id);
        }
    }
    greatest
}

/// Returns whether a node is a candidate with a greater score than the greatest one so far.
fn beats(page: &Page<'_>, round: &Round, greatest: &Option<NodeId>, id: NodeId) -> bool
    ensures { result ≡ beats (is_candidate page.now round.now) (score_at round.now)
        greatest.now id }
{
    if !is_candidate(page, round, id) {
        return false;
    }
    match greatest {
        Some(best) => round.at(*best).score < round.at(id).score,
        None => true,
    }
}

/// Returns the outermost one of a block and its ancestors below `body` that has two thirds of its
/// score.
fn promoted(page: &Page<'_>, round: &Round, first: NodeId) -> NodeId
    ensures { result ≡ promoted page.now round.now first }
{
    let top = round.at(first).score;
    let mut best = first;
    for above in page.tree.ancestor_ids_of_it(&first, None) {
        if is_frame(page, above) {
            return best;
        }
        if has_two_thirds(top, round.at(above).score) {
            best = above;
        }
    }
    best
}

/// Returns whether a score is at least two thirds of another.
fn has_two_thirds(top: i64, score: i64) -> bool
    ensures { result ≡ has_two_thirds top score }
{
    top.saturating_mul(2) <= score.saturating_mul(3)
}

/// Returns whether the node is the document, `html` or `body`.
fn is_frame(page: &Page<'_>, id: NodeId) -> bool
    ensures { result ≡ is_frame_at page.now id }
{
    match page.at(id).kind.tag {
        Tag::Document | Tag::Html | Tag::Body => true,
        _ => false,
    }
}

impl Choice {
    fn new(page: &Page<'_>, best: NodeId) -> Result<Choice, OutOfMemory>
        ensures { IfOk result (λ choice. choice.root ≡ best) }
    {
        Ok(Choice {
            root: best,
            best,
            ways: Ways::new(page, best)?,
        })
    }

    /// Returns whether a node belongs to the article if its parent does.
    pub(crate) fn keeps(&self, page: &Page<'_>, round: &Round, id: NodeId) -> bool {
        if round.is_gone(id) {
            return false;
        }
        if id == self.root || self.ways.is_on_path(id) {
            return true;
        }
        let sums = round.at(id);
        let beside_path = match page.parent(id) {
            Some(parent) => parent != self.best && self.ways.is_on_path(parent),
            None => false,
        };
        if beside_path {
            return self.ways.has_joined(id) || sums.is_inline && sums.size == 0;
        }
        sums.is_inline || !sums.is_bad
    }
}

/// By node id: what joins on the way from the best block to the root, and that way itself.
#[derive(Drop)]
struct Ways {
    joined: Vec<bool>,
    path: Vec<bool>,
}

impl Ways {
    fn new(page: &Page<'_>, best: NodeId) -> Result<Ways, OutOfMemory> {
        let alloc = page.tree.allocator();
        let mut ways = Ways {
            joined: vec![in alloc; false; page.tree.len()]?,
            path: vec![in alloc; false; page.tree.len()]?,
        };
        ways.put_on_path(best);
        Ok(ways)
    }

    fn has_joined(&self, id: NodeId) -> bool {
        self.joined.get(id.value()).copied().unwrap_or(false)
    }

    fn join(&mut self, id: NodeId) {
        if let Some(slot) = self.joined.get_mut(id.value()) {
            *slot = true;
        }
    }

    fn is_on_path(&self, id: NodeId) -> bool {
        self.path.get(id.value()).copied().unwrap_or(false)
    }

    fn put_on_path(&mut self, id: NodeId) {
        if let Some(slot) = self.path.get_mut(id.value()) {
            *slot = true;
        }
    }

    /// Climbs from the best block to `body` or to a node that says that it is the article. What
    /// joins on the way is marked; the result, the root, is the last node at which a text joins.
    fn climb(&mut self, page: &Page<'_>, round: &Round, best: NodeId) -> NodeId
        ensures { IsAtOrAbove page.now.tree.now best result }
    {
        let top = round.at(best).score;
        let mut on = best;
        let mut root = best;
        let mut level: usize = 0;
        for above in page.tree.ancestor_ids_of_it(&best, None) {
            if ends_climb(page, on, above) {
                break;
            }
            if has_several(page, round, above) {
                level = level.saturating_add(1);
            }
            let step = Step { on, level, top };
            if self.join_children(page, round, above, &step) {
                root = above;
            }
            on = above;
        }
        root
    }

    /// Marks the children of a node that join, and returns whether one of them is inline or has a
    /// paragraph.
    fn join_children(
        &mut self,
        page: &Page<'_>,
        round: &Round,
        above: NodeId,
        step: &Step,
    ) -> bool {
        let mut has_text = false;
        for child in page.tree.child_ids_of_it(&above, false) {
            if child == step.on || !counts(round, child) || !joins(page, round, child, step) {
                continue;
            }
            self.join(child);
            let sums = round.at(child);
            has_text = has_text || sums.is_inline || sums.in_paragraphs > 0;
        }
        has_text
    }

    /// Puts the way from the best block to the root on the path, and lets headings join whose
    /// followers are kept.
    fn join_headings(&mut self, page: &Page<'_>, round: &Round, best: NodeId, root: NodeId) {
        let mut on = best;
        for above in page.tree.ancestor_ids_of_it(&best, None) {
            if on == root {
                return;
            }
            self.join_headings_of(page, round, above, on);
            self.put_on_path(above);
            on = above;
        }
    }

    /// Lets the headings of a node join if what follows them joins or is on the path.
    fn join_headings_of(&mut self, page: &Page<'_>, round: &Round, above: NodeId, on: NodeId) {
        let mut follows = false;
        for child in page.tree.child_ids_of_it(&above, true) {
            if !counts(round, child) {
                continue;
            }
            let sums = round.at(child);
            if child == on || self.has_joined(child) {
                follows = true;
            } else if page.at(child).kind.is_heading {
                if follows && !sums.is_bad {
                    self.join(child);
                }
            } else if !sums.is_inline {
                follows = false;
            }
        }
    }
}

/// A step of a climb: the node that is left, how many levels it is above the best block, and the
/// score of that.
#[derive(Clone, Copy, Drop)]
struct Step {
    on: NodeId,
    level: usize,
    top: i64,
}

/// Returns whether a climb that has come to `on` ends there, below `above`.
fn ends_climb(page: &Page<'_>, on: NodeId, above: NodeId) -> bool {
    if page.tag(on) == Tag::Body || page.at(on).is_main {
        return true;
    }
    matches!(page.tag(above), Tag::Document | Tag::Html)
}

/// Returns whether a node isn't gone and has a text.
fn counts(round: &Round, id: NodeId) -> bool {
    !round.is_gone(id) && round.at(id).size > 0
}

/// Returns whether a node has more than one child with a text.
fn has_several(page: &Page<'_>, round: &Round, id: NodeId) -> bool {
    let mut seen = false;
    for child in page.tree.child_ids_of_it(&id, false) {
        if counts(round, child) {
            if seen {
                return true;
            }
            seen = true;
        }
    }
    false
}

/// Returns whether a child with a text joins at a step of the climb.
fn joins(page: &Page<'_>, round: &Round, child: NodeId, step: &Step) -> bool {
    let sums = round.at(child);
    if sums.is_inline {
        return step.level == 1 && round.runs.is_in_paragraph(child);
    }
    if sums.is_bad || page.at(child).kind.is_heading {
        return false;
    }
    if sums.is_leaf {
        return leaf_joins(page.tag(child), sums, step);
    }
    if is_like(page, round, child, step) {
        return true;
    }
    let tenths = tenths_at(step.level);
    let least = (step.top / 10).saturating_mul(tenths);
    let exact = (step.top % 10).saturating_mul(tenths) / 10;
    let ten_points = 10 * POINT as i64;
    sums.score >= least.saturating_add(exact).max(ten_points)
}

/// Returns the tenths of the best score that a block must have to join at a level.
fn tenths_at(level: usize) -> i64 {
    let number = level.saturating_sub(1);
    match JOIN.get(number) {
        Some(tenths) => *tenths,
        None => 10,
    }
}

/// Returns whether a leaf joins.
fn leaf_joins(tag: Tag, sums: &Sums, step: &Step) -> bool {
    if sums.in_paragraphs > 0 {
        return step.level == 1
            || matches!(tag, Tag::Paragraph | Tag::Preformatted | Tag::Blockquote);
    }
    step.level == 1 && sums.link == 0 && tag == Tag::Paragraph && sums.ends
}

/// Returns whether a child is a block of the same kind as the node that is left, with few links.
fn is_like(page: &Page<'_>, round: &Round, child: NodeId, step: &Step) -> bool {
    let sums = round.at(child);
    if sums.size < SHORTEST_RUN || sums.link > (sums.size - 1) / 3 {
        return false;
    }
    if sums.score.saturating_mul(20) < step.top {
        return false;
    }
    let (Some(like), Some(other)) = (node_of(sums.like), node_of(round.at(step.on).like)) else {
        return false;
    };
    page.tag(like) != Tag::Article
        && have_one_name(page, child, step.on)
        && have_one_name(page, like, other)
        && have_one_class(page, like, other)
}

/// Returns the node with this number.
fn node_of(number: Option<u32>) -> Option<NodeId> {
    NodeId::new(number? as usize)
}

/// Returns whether two elements have the same name.
fn have_one_name(page: &Page<'_>, one: NodeId, other: NodeId) -> bool {
    let one = page.tree.get_unchecked(&one).node_name().unwrap_or("");
    let other = page.tree.get_unchecked(&other).node_name().unwrap_or("");
    one == other
}

/// Returns whether two elements have the same classes, as they are written.
fn have_one_class(page: &Page<'_>, one: NodeId, other: NodeId) -> bool {
    let one = page.tree.get_unchecked(&one).class().unwrap_or("").trim();
    let other = page.tree.get_unchecked(&other).class().unwrap_or("").trim();
    one == other
}
