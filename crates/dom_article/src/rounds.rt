//! A round: which nodes are gone, and what is added up of the others.

ghost use Rattle.std.specs.Prelude.{◌≡◌, ◌&&◌, ◌||◌, ◌^◌, ◌-◌, not, min, IfOk, length, slice_set};
ghost use Rattle.std.specs.List.{list_any};
ghost use Rattle.dom_links.specs.Forest.{children_of};
ghost use Rattle.dom_article.specs.Badness.{is_document, is_gone_by};
ghost use Rattle.dom_article.specs.Best.{facts_at, is_gone, sums_at};
ghost use Rattle.dom_article.specs.Blocks.{ended, with_images, with_line_break};
ghost use Rattle.dom_article.specs.Nodes.{AreGone, AreSummed, IsOrdered, IsRound, begun_inline};
ghost use Rattle.dom_article.specs.Nodes.{block_sums, finished};
ghost use Rattle.dom_article.specs.Nodes.{has_gone_parent, inline_sums, is_block, is_block_itself};
ghost use Rattle.dom_article.specs.Nodes.{is_break, is_image, is_kind_of_its_own, is_list};
ghost use Rattle.dom_article.specs.Nodes.{is_part, is_text, node_sums, shown_sums, text_sums};
ghost use Rattle.dom_article.specs.Nodes.{with_child, with_gone, with_inline_child, with_inline_in};
ghost use Rattle.dom_article.specs.Nodes.{with_kind};
ghost use Rattle.dom_article.specs.Texts.{page_nodes};

use crate::badness::is_document;
use crate::blocks::Block;
use crate::kinds::Tag;
use crate::marking::forest_laws;
use crate::page::{Facts, Page};
use crate::sums::{Run, Sums};
use crate::{badness, scores};
use dom_nodes::fault::OutOfMemory;
use dom_nodes::node_id::NodeId;
use std::alloc::Global;

/// What a round looks at.
#[derive(Clone, Copy, PartialEq, Eq, Drop)]
pub(crate) struct Rules {
    /// Whether roles and the words in classes and ids count.
    pub(crate) hints: bool,
    /// Whether bad blocks are left out.
    pub(crate) cleans: bool,
}

/// What a round found of each node, by node id.
#[derive(Drop)]
pub(crate) struct Round {
    pub(crate) rules: Rules,
    pub(crate) gone: Vec<bool>,
    pub(crate) sums: Vec<Sums>,
    pub(crate) runs: Runs,
    /// The size of the texts that aren't gone.
    pub(crate) visible: u64,
}

/// The runs of a round, and by node id the number of the run that an inline child of a block is
/// part of.
#[derive(Drop)]
pub(crate) struct Runs {
    ended: Vec<Run>,
    of: Vec<u32>,
}

impl Runs {
    fn empty(alloc: Global) -> Runs {
        Runs {
            ended: Vec::new(alloc),
            of: Vec::new(alloc),
        }
    }

    /// Returns whether the run of an inline child of a block is a paragraph.
    pub(crate) fn is_in_paragraph(&self, id: NodeId) -> bool {
        let number = match self.of.get(id.value()) {
            Some(number) => *number,
            None => return false,
        };
        match self.ended.get(number as usize) {
            Some(run) => run.is_paragraph(),
            None => false,
        }
    }

    /// Notes that an inline child is part of the run that has begun.
    fn note(&mut self, id: NodeId) {
        let number = number_of(self.ended.len());
        if let Some(slot) = self.of.get_mut(id.value()) {
            *slot = number;
        }
    }

    /// Keeps a run that ends, if it has a text. Fails only when memory runs out.
    fn keep(&mut self, run: Run) -> Result<(), OutOfMemory> {
        if run.size > 0 {
            self.ended.push(run)?;
        }
        Ok(())
    }
}

impl Round {
    /// Looks at the nodes of a page by these rules. Fails only when memory runs out.
    pub(crate) fn new(page: &Page<'_>, rules: Rules) -> Result<Round, OutOfMemory>
        requires { IsOrdered page.now }
        ensures { IfOk result (λ round. IsRound page.now rules round) }
    {
        let alloc = page.tree.allocator();
        let gone = Gone::of(page, rules)?;
        let mut runs = Runs {
            ended: Vec::new(alloc),
            of: vec![in alloc; u32::MAX; page.tree.len()]?,
        };
        let mut round = Round {
            rules,
            gone: gone.gone,
            sums: vec![in alloc; Sums::NONE; page.tree.len()]?,
            runs: Runs::empty(alloc),
            visible: gone.visible,
        };
        round.add_up_all(page, &mut runs)?;
        round.runs = runs;
        Ok(round)
    }

    /// Adds up what is below each node, from the last node to the first.
    fn add_up_all(&mut self, page: &Page<'_>, runs: &mut Runs) -> Result<(), OutOfMemory>
        requires ordered { IsOrdered page.now }
        requires long { length self.old.sums.items ≡ length page.now.tree.now.content }
        ensures rules { self.new.rules ≡ self.old.rules }
        ensures gone { self.new.gone.items ≡ self.old.gone.items }
        ensures sums { IfOk result (λ _. AreSummed page.now self.old.rules (is_gone self.old)
            self.new.sums.items (page_nodes page.now.tree.now)) }
    {
        forest_laws(page.tree);
        for id in page.order.iter().rev() {
            self.add_up(page, *id, runs)?;
        }
        self.add_up(page, page.tree.root_id(), runs)?;
        Ok(())
    }

    /// Returns whether a node is gone.
    pub(crate) fn is_gone(&self, id: NodeId) -> bool
        ensures { result ≡ is_gone self.now id }
    {
        match self.gone.get(id.value()) {
            Some(gone) => *gone,
            None => true,
        }
    }

    /// Returns what was added up of a node.
    pub(crate) fn at(&self, id: NodeId) -> &Sums
        ensures { result.now ≡ sums_at self.now.sums.items id }
    {
        match self.sums.get(id.value()) {
            Some(sums) => sums,
            None => &NOTHING,
        }
    }

    /// Adds up what is below a node, when that is done for each of its children.
    fn add_up(&mut self, page: &Page<'_>, id: NodeId, runs: &mut Runs) -> Result<(), OutOfMemory>
        ensures rules { self.new.rules ≡ self.old.rules }
        ensures gone { self.new.gone.items ≡ self.old.gone.items }
        ensures sums { IfOk result (λ _. self.new.sums.items ≡ slice_set self.old.sums.items id
            (node_sums page.now self.old.rules (is_gone self.old)
            (sums_at self.old.sums.items) id)) }
    {
        let sums = self.sums_of(page, id, runs)?;
        if let Some(slot) = self.sums.get_mut(id.value()) {
            *slot = sums;
        }
        Ok(())
    }

    /// Returns what is added up of a node; of a node that is gone, nothing.
    fn sums_of(&self, page: &Page<'_>, id: NodeId, runs: &mut Runs) -> Result<Sums, OutOfMemory>
        ensures { IfOk result (λ sums. sums ≡ node_sums page.now self.now.rules
            (is_gone self.now) (sums_at self.now.sums.items) id) }
    {
        if self.is_gone(id) {
            return Ok(Sums::NONE);
        }
        if is_text(page.tag(id)) {
            return Ok(of_text(page.at(id)));
        }
        if self.is_shown_block(page, id) {
            return self.of_block(page, id, runs);
        }
        Ok(self.of_inline(page, id))
    }

    /// Returns whether an element that isn't gone is a block: by itself, or because a child is one.
    fn is_shown_block(&self, page: &Page<'_>, id: NodeId) -> bool
        ensures { result ≡ (is_block_itself (facts_at page.now.facts.items id)
            || list_any (is_block (is_gone self.now) (sums_at self.now.sums.items))
            (children_of page.now.tree.now id)) }
    {
        if is_block_itself(page.at(id)) {
            return true;
        }
        self.has_block(page, id)
    }

    /// Returns whether a child that isn't gone is a block.
    fn has_block(&self, page: &Page<'_>, id: NodeId) -> bool
        ensures { result ≡ list_any (is_block (is_gone self.now) (sums_at self.now.sums.items))
            (children_of page.now.tree.now id) }
    {
        for child in page.tree.child_ids_of_it(&id, false) {
            if self.is_block(child) {
                return true;
            }
        }
        false
    }

    /// Returns whether a node isn't gone and is a block.
    fn is_block(&self, id: NodeId) -> bool
        ensures { result ≡ is_block (is_gone self.now) (sums_at self.now.sums.items) id }
    {
        if self.is_gone(id) {
            return false;
        }
        !self.at(id).is_inline
    }

    /// Adds up an inline element.
    fn of_inline(&self, page: &Page<'_>, id: NodeId) -> Sums
        ensures { result ≡ inline_sums (facts_at page.now.facts.items id) (is_gone self.now)
            (sums_at self.now.sums.items) (children_of page.now.tree.now id) }
    {
        let facts = page.at(id);
        let mut sums = begun_inline(facts);
        for child in page.tree.child_ids_of_it(&id, false) {
            self.add_to_inline(&mut sums, child);
        }
        if facts.is_link {
            sums.link = sums.size;
        }
        sums
    }

    /// Adds a child of an inline element, if it isn't gone.
    fn add_to_inline(&self, sums: &mut Sums, child: NodeId)
        ensures { sums.new ≡ with_inline_child (is_gone self.now)
            (sums_at self.now.sums.items) sums.old child }
    {
        if self.is_gone(child) {
            return;
        }
        sums.add_inline(self.at(child));
    }

    /// Adds up a block.
    fn of_block(&self, page: &Page<'_>, id: NodeId, runs: &mut Runs) -> Result<Sums, OutOfMemory>
        ensures { IfOk result (λ sums. sums ≡ block_sums page.now self.now.rules
            (is_gone self.now) (sums_at self.now.sums.items) id
            (children_of page.now.tree.now id)) }
    {
        let facts = page.at(id);
        let mut block = Block::begun(!facts.kind.is_heading, self.rules.cleans);
        for child in page.tree.child_ids_of_it(&id, false) {
            self.add_child(page, &mut block, child, runs)?;
        }
        end_run(&mut block, runs)?;
        Ok(finished(facts, id, block.all(), self.rules))
    }

    /// Adds a child of a block.
    fn add_child(
        &self,
        page: &Page<'_>,
        block: &mut Block,
        child: NodeId,
        runs: &mut Runs,
    ) -> Result<(), OutOfMemory>
        ensures { IfOk result (λ _. block.new ≡ with_child page.now.facts.items
            (is_gone self.now) (sums_at self.now.sums.items) block.old child) }
    {
        let facts = page.at(child);
        if self.is_gone(child) {
            if facts.is_input {
                block.add_inputs(1);
            }
            return Ok(());
        }
        let below = self.at(child);
        if below.is_inline {
            return add_inline(block, runs, child, facts, below);
        }
        end_run(block, runs)?;
        block.add_block(below);
        Ok(())
    }
}

/// Adds an inline child to a block.
fn add_inline(
    block: &mut Block,
    runs: &mut Runs,
    child: NodeId,
    facts: &Facts,
    below: &Sums,
) -> Result<(), OutOfMemory>
    ensures { IfOk result (λ _. block.new ≡ with_inline_in facts.now below.now
        (with_images below.now.images block.old)) }
{
    block.add_images(below.images);
    if is_break(facts.kind.tag) {
        return add_break(block, runs);
    }
    if below.size > 0 {
        block.add_text(below);
        runs.note(child);
    }
    Ok(())
}

/// Adds a line break to a block. The second one in a row ends the run.
fn add_break(block: &mut Block, runs: &mut Runs) -> Result<(), OutOfMemory>
    ensures { IfOk result (λ _. block.new ≡ with_line_break block.old) }
{
    if block.add_break() {
        return end_run(block, runs);
    }
    Ok(())
}

/// Ends the run of a block, if it has a text.
fn end_run(block: &mut Block, runs: &mut Runs) -> Result<(), OutOfMemory>
    ensures { IfOk result (λ _. block.new ≡ ended block.old) }
{
    runs.keep(block.run)?;
    block.end_run();
    Ok(())
}

/// Returns the sums of an inline element without children.
fn begun_inline(facts: &Facts) -> Sums
    ensures { result ≡ begun_inline facts.now }
{
    let mut sums = Sums::NONE;
    if is_image(facts.kind.tag) {
        sums.images = 1;
    }
    sums
}

/// Returns the sums of a block of whose children these are the sums: with what the block itself
/// says, with its score, and with whether it is bad.
fn finished(facts: &Facts, id: NodeId, all: Sums, rules: Rules) -> Sums
    ensures { result ≡ finished rules facts.now id all }
{
    let mut sums = with_kind(facts, id, all);
    sums.score = scores::score_of(facts, &sums, rules);
    sums.is_bad = badness::is_bad(facts, &sums, rules);
    sums
}

/// Returns the sums of a block with what its name, its class and its address say.
fn with_kind(facts: &Facts, id: NodeId, all: Sums) -> Sums
    ensures { result ≡ with_kind facts.now id all }
{
    let mut sums = all;
    if is_kind_of_its_own(facts) {
        sums.like = Some(number_of(id.value()));
    }
    if facts.is_link {
        sums.link = sums.size;
        sums.raw = 0;
        sums.in_paragraphs = 0;
        sums.paragraphs = 0;
    }
    if facts.kind.is_heading {
        sums.in_headings = sums.size;
    }
    if is_list(facts.kind.tag) {
        sums.in_lists = sums.size;
    }
    sums
}

/// The nodes of a page that are gone, by node id.
#[derive(Drop)]
struct Gone {
    gone: Vec<bool>,
    /// The size of the texts that aren't gone.
    visible: u64,
}

impl Gone {
    /// Finds the nodes that are gone, from the first node to the last.
    fn of(page: &Page<'_>, rules: Rules) -> Result<Gone, OutOfMemory>
        requires { IsOrdered page.now }
        ensures { IfOk result (λ gone. AreGone page.now rules gone.gone.items) }
    {
        forest_laws(page.tree);
        let mut found = Gone {
            gone: vec![in page.tree.allocator(); false; page.tree.len()]?,
            visible: 0,
        };
        for id in &page.order {
            found.look_at(page, rules, *id);
        }
        Ok(found)
    }

    /// Looks at a node after its parent.
    fn look_at(&mut self, page: &Page<'_>, rules: Rules, id: NodeId)
        ensures { self.new.gone.items ≡ with_gone page.now rules id self.old.gone.items }
    {
        let facts = page.at(id);
        if is_gone_by(facts, rules) || self.has_gone_parent(page, id) {
            if let Some(slot) = self.gone.get_mut(id.value()) {
                *slot = true;
            }
        } else {
            self.visible = self.visible.saturating_add(facts.text.size as u64);
        }
    }

    /// Returns whether the parent of a node is gone.
    fn has_gone_parent(&self, page: &Page<'_>, id: NodeId) -> bool
        ensures { result ≡ has_gone_parent page.now self.now.gone.items id }
    {
        let Some(parent) = page.parent(id) else {
            return false;
        };
        match self.gone.get(parent.value()) {
            Some(gone) => *gone,
            None => true,
        }
    }
}

/// What is added up of a node that there isn't.
static NOTHING: Sums = Sums {
    size: 0,
    link: 0,
    commas: 0,
    images: 0,
    inputs: 0,
    in_paragraphs: 0,
    paragraphs: 0,
    in_headings: 0,
    in_lists: 0,
    link_runs: 0,
    raw: 0,
    score: 0,
    like: None,
    is_inline: true,
    is_leaf: true,
    is_bad: false,
    ends: true,
    copyright: false,
};

/// Returns whether a node is gone by itself.
fn is_gone_by(facts: &Facts, rules: Rules) -> bool
    ensures { result ≡ is_gone_by rules facts.now }
{
    if facts.is_hidden {
        return true;
    }
    if !rules.hints {
        return false;
    }
    facts.has_role || (facts.is_unlikely && !facts.holds)
}

/// Returns what is added up of a text.
fn of_text(facts: &Facts) -> Sums
    ensures { result ≡ text_sums facts.now }
{
    let mut sums = Sums::NONE;
    sums.size = facts.text.size;
    if sums.size > 0 {
        sums.commas = facts.text.commas;
        sums.ends = facts.text.ends;
        sums.copyright = facts.text.copyright;
    }
    sums
}

/// Returns whether a block is of a kind that its own name and class say.
fn is_kind_of_its_own(facts: &Facts) -> bool
    ensures { result ≡ is_kind_of_its_own facts.now }
{
    if facts.has_class {
        return true;
    }
    is_part(facts.kind.tag)
}

/// Returns whether a node is a block by itself.
fn is_block_itself(facts: &Facts) -> bool
    ensures { result ≡ is_block_itself facts.now }
{
    if is_document(facts.kind.tag) {
        return true;
    }
    facts.kind.is_block
}

fn is_text(tag: Tag) -> bool
    ensures { result ≡ is_text tag }
{
    matches!(tag, Tag::Text)
}

fn is_image(tag: Tag) -> bool
    ensures { result ≡ is_image tag }
{
    matches!(tag, Tag::Image)
}

fn is_break(tag: Tag) -> bool
    ensures { result ≡ is_break tag }
{
    matches!(tag, Tag::Br)
}

fn is_list(tag: Tag) -> bool
    ensures { result ≡ is_list tag }
{
    matches!(tag, Tag::List)
}

/// Returns whether an element is an article or a section.
fn is_part(tag: Tag) -> bool
    ensures { result ≡ is_part tag }
{
    matches!(tag, Tag::Article | Tag::Section)
}

/// Returns a number as one of 32 bits, at most the greatest.
fn number_of(number: usize) -> u32
    ensures { result ≡ min number (2 ^ 32 - 1) }
{
    match u32::try_from(number) {
        Ok(number) => number,
        Err(_) => u32::MAX,
    }
}
