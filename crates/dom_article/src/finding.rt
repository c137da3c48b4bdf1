//! The search for the article of a page.

ghost use Rattle.std.specs.Prelude.{◌≡◌, IfOk, IfSome, MatchOption};
ghost use Rattle.dom_article.specs.Found.{AreRounds, FindsNothing, IsArticle, IsFoundBy, IsStep};
ghost use Rattle.dom_article.specs.Found.{IsTaken, better, is_enough, is_more};
ghost use Rattle.dom_article.specs.Nodes.{IsOrdered};
ghost use Rattle.dom_article.specs.Pruned.{marked};
ghost use Rattle.dom_article.specs.Texts.{ShowsNoText};

use crate::choosing::{Choice, choose};
use crate::copies::copy_kept;
use crate::kinds::Tag;
use crate::marking::{all_shown, extract, is_marked, keeps_text};
use crate::metadata::{Known, Metadata, collapsed, metadata_of};
use crate::page::Page;
use crate::rounds::{Round, Rules};
use crate::tables::{ENOUGH, SHORT};
use crate::titles::says_title;
use dom_nodes::fault::{EditFault, OutOfMemory};
use dom_nodes::node_id::NodeId;
use dom_trees::tree::Tree;

/// The article of a page: which nodes it keeps, and what the page says of it.
#[derive(Drop)]
pub struct Article {
    /// What the page says of the article.
    pub metadata: Metadata,
    /// The node that holds the article.
    pub root: NodeId,
    /// Whether the first round, by all that the page says, found enough. For most pages that have
    /// no article, such as home pages, it didn't.
    pub sure: bool,
    /// By node id, whether the article keeps the node.
    pub kept: Vec<bool>,
}

/// Returns the article of a page, or `None` if no text of the page is shown. Fails only when memory
/// runs out.
pub fn article_of(tree: &Tree) -> Result<Option<Article>, OutOfMemory>
    ensures { IfOk result (λ found. MatchOption found (ShowsNoText tree.now)
        (λ article. IsArticle tree.now article.root article.kept.items)) }
{
    article_of_known(tree, &Known::NOTHING)
}

/// Returns the article of a page of which the caller knows more, or `None` if no text of the page
/// is shown. Fails only when memory runs out.
pub fn article_of_known(tree: &Tree, known: &Known<'_>) -> Result<Option<Article>, OutOfMemory>
    ensures { IfOk result (λ found. MatchOption found (ShowsNoText tree.now)
        (λ article. IsArticle tree.now article.root article.kept.items)) }
{
    let page = Page::new(tree)?;
    let metadata = metadata_of(&page, known)?;
    if let Some(found) = found_for(&page, &metadata)? {
        let kept = extract(tree, found.root, &found.around, &found.wanted)?;
        if keeps_text(tree, &kept) {
            return Ok(Some(Article {
                metadata,
                root: found.root,
                sure: found.sure,
                kept,
            }));
        }
    }
    let Some(kept) = whole(tree)? else {
        return Ok(None);
    };
    Ok(Some(Article {
        metadata,
        root: tree.root_id(),
        sure: false,
        kept,
    }))
}

/// Returns the marks of all that is shown of a page, or `None` if no text of it is shown.
fn whole(tree: &Tree) -> Result<Option<Vec<bool>>, OutOfMemory>
    ensures { IfOk result (λ found. MatchOption found (ShowsNoText tree.now)
        (λ kept. IsArticle tree.now 0 kept.items)) }
{
    let kept = all_shown(tree)?;
    if !keeps_text(tree, &kept) {
        return Ok(None);
    }
    Ok(Some(kept))
}

/// Returns what the rounds find, without the heading that says the title again.
fn found_for(page: &Page<'_>, metadata: &Metadata) -> Result<Option<Found>, OutOfMemory>
    requires { IsOrdered page.now }
    ensures { IfOk result (λ taken. IfSome taken (λ found. IsTaken page.now found.root)) }
{
    let Some(mut found) = found_in(page)? else {
        return Ok(None);
    };
    found.leave_out_title(page, metadata)?;
    Ok(Some(found))
}

/// What a round found.
#[derive(Drop)]
struct Found {
    root: NodeId,
    sure: bool,
    /// Whether it is so much that no later round is asked.
    is_enough: bool,
    /// By node id, which nodes are wanted.
    wanted: Vec<bool>,
    /// By node id, the wanted nodes and the ancestors of the root.
    around: Vec<bool>,
    /// The size of the texts that are kept.
    total: u64,
}

/// What is taken after a round.
#[derive(Drop)]
struct Taking {
    taken: Option<Found>,
    /// Whether the round found enough, so that no later one is asked.
    is_last: bool,
}

/// The first round looks at all that the page says.
const FIRST: Rules = Rules {
    hints: true,
    cleans: true,
};

/// The second one doesn't leave out bad blocks.
const SECOND: Rules = Rules {
    hints: true,
    cleans: false,
};

/// The third one doesn't look at roles and words either.
const THIRD: Rules = Rules {
    hints: false,
    cleans: false,
};

/// Returns what the rounds find. `None` if none of them keeps a text.
fn found_in(page: &Page<'_>) -> Result<Option<Found>, OutOfMemory>
    requires { IsOrdered page.now }
    ensures { IfOk result (λ taken. AreRounds page.now taken) }
{
    let first = after_round(page, FIRST, None)?;
    if first.is_last {
        return Ok(first.taken);
    }
    let second = after_round(page, SECOND, first.taken)?;
    if second.is_last {
        return Ok(second.taken);
    }
    let third = after_round(page, THIRD, second.taken)?;
    Ok(third.taken)
}

/// Asks one more round, and returns what is taken then. What a round finds is taken if it is the
/// first that keeps a text, or keeps more than twice as much as what was taken before.
fn after_round(page: &Page<'_>, rules: Rules, taken: Option<Found>) -> Result<Taking, OutOfMemory>
    requires { IsOrdered page.now }
    ensures { IfOk result (λ now. IsStep page.now rules taken now) }
{
    let Some(found) = found_by(page, rules)? else {
        return Ok(Taking {
            taken,
            is_last: false,
        });
    };
    let is_last = found.is_enough;
    Ok(Taking {
        taken: better(taken, found),
        is_last,
    })
}

/// Returns what a round found, if it takes the place of what was taken; otherwise that.
fn better(taken: Option<Found>, found: Found) -> Option<Found>
    ensures { result ≡ better taken found }
{
    if is_more(&taken, &found) {
        return Some(found);
    }
    taken
}

fn is_more(taken: &Option<Found>, found: &Found) -> bool
    ensures { result ≡ is_more taken.now found.now }
{
    match taken {
        Some(other) => other.total < found.total / 2,
        None => found.total > 0,
    }
}

/// Returns what a round finds. `None` if it has no block at all.
fn found_by(page: &Page<'_>, rules: Rules) -> Result<Option<Found>, OutOfMemory>
    requires { IsOrdered page.now }
    ensures { IfOk result (λ found. MatchOption found (FindsNothing page.now rules)
        (λ found. IsFoundBy page.now rules found)) }
{
    let round = Round::new(page, rules)?;
    let Some(choice) = choose(page, &round)? else {
        return Ok(None);
    };
    let mut found = Found::of(page, &round, &choice)?;
    let is_last = is_enough(&round, &found);
    found.is_enough = is_last;
    found.sure = is_last && rules.cleans;
    Ok(Some(found))
}

/// Returns whether a round found enough, so that it is the last one.
fn is_enough(round: &Round, found: &Found) -> bool
    ensures { result ≡ is_enough round.now found.now.root found.now.total }
{
    if found.total >= ENOUGH as u64 {
        return true;
    }
    if round.at(found.root).in_paragraphs < SHORT {
        return false;
    }
    round.visible <= found.total.saturating_mul(6)
}

impl Found {
    /// Finds the nodes that the choice of a round wants.
    fn of(page: &Page<'_>, round: &Round, choice: &Choice) -> Result<Found, OutOfMemory>
        ensures { IfOk result (λ found. found.root ≡ choice.now.root) }
    {
        let alloc = page.tree.allocator();
        let mut found = Found {
            root: choice.root,
            sure: false,
            is_enough: false,
            wanted: vec![in alloc; false; page.tree.len()]?,
            around: vec![in alloc; false; page.tree.len()]?,
            total: 0,
        };
        for id in page.tree.ancestor_ids_of_it(&choice.root, None) {
            if let Some(slot) = found.around.get_mut(id.value()) {
                *slot = true;
            }
        }
        if let Some(slot) = found.wanted.get_mut(choice.root.value()) {
            *slot = true;
        }
        if let Some(slot) = found.around.get_mut(choice.root.value()) {
            *slot = true;
        }
        for id in page.tree.descendant_ids_of_it(&choice.root) {
            found.want(page, round, choice, id);
        }
        Ok(found)
    }

    /// Wants a node if its parent is wanted and the choice keeps it.
    fn want(&mut self, page: &Page<'_>, round: &Round, choice: &Choice, id: NodeId)
        ensures { self.new.root ≡ self.old.root }
    {
        let Some(parent) = page.parent(id) else {
            return;
        };
        if !is_marked(&self.wanted, parent) || !choice.keeps(page, round, id) {
            return;
        }
        if let Some(slot) = self.wanted.get_mut(id.value()) {
            *slot = true;
        }
        if let Some(slot) = self.around.get_mut(id.value()) {
            *slot = true;
        }
        self.total = self.total.saturating_add(page.at(id).text.size as u64);
    }

    /// Leaves out the first heading of the article that says its title. Only the first headings are
    /// looked at.
    fn leave_out_title(&mut self, page: &Page<'_>, metadata: &Metadata) -> Result<(), OutOfMemory>
        ensures { self.new.root ≡ self.old.root }
    {
        let Some(title) = &metadata.title else {
            return Ok(());
        };
        let mut seen: u32 = 0;
        for id in page.tree.descendant_ids_of_it(&self.root) {
            if !matches!(page.tag(id), Tag::H1 | Tag::H2) || !is_marked(&self.wanted, id) {
                continue;
            }
            seen = seen.saturating_add(1);
            if seen > 16 {
                return Ok(());
            }
            if page.length(id) > 400 {
                continue;
            }
            let text = page.tree.get_unchecked(&id).text()?;
            let text = collapsed(page.tree.allocator(), text.as_str())?;
            if says_title(text.as_str(), title.as_str()) {
                if let Some(slot) = self.wanted.get_mut(id.value()) {
                    *slot = false;
                }
                return Ok(());
            }
        }
        Ok(())
    }
}

impl Article {
    /// Returns whether the article keeps a node.
    pub fn keeps(&self, id: &NodeId) -> bool
        ensures { result ≡ marked self.now.kept.items id.now }
    {
        is_marked(&self.kept, *id)
    }

    /// Returns a document with a copy of the kept nodes. Documents, `html` and `body` have no copy:
    /// what is copied of their children stands in their place. So the HTML of the document is that
    /// of the article. `tree` is the tree of the page. Fails when memory or node ids run out.
    pub fn copy(&self, tree: &Tree) -> Result<Tree, EditFault> {
        copy_kept(tree, self.root, &self.kept)
    }
}
