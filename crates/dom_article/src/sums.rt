//! What is added up of a node, and of a run of texts.

ghost use Rattle.std.specs.Prelude.{◌≡◌, ◌≤◌, ◌*◌, ◌/◌, ◌&&◌};
ghost use Rattle.dom_article.specs.Sums.{is_of_links, is_paragraph, one_if, run_with, weight};
ghost use Rattle.dom_article.specs.Sums.{weight_if, with_block, with_inline, with_run};

use crate::tables::{LINK_RUN, PARAGRAPH, POINT, SHORTEST_RUN};

/// A longest sequence of inline children of a block, without a block between them and without two
/// line breaks in a row.
#[derive(Clone, Copy, Drop)]
pub(crate) struct Run {
    pub(crate) size: u32,
    pub(crate) link: u32,
    pub(crate) commas: u32,
    /// Whether it ends with a mark that ends a sentence.
    pub(crate) ends: bool,
    /// Whether it has the character ©.
    pub(crate) copyright: bool,
}

impl Run {
    /// A run without text.
    pub(crate) const EMPTY: Run = Run {
        size: 0,
        link: 0,
        commas: 0,
        ends: true,
        copyright: false,
    };

    /// Adds what an inline node has.
    pub(crate) fn add(&mut self, sums: &Sums)
        ensures { self.new ≡ run_with self.old sums.now }
    {
        self.size = self.size.saturating_add(sums.size);
        self.link = self.link.saturating_add(sums.link);
        self.commas = self.commas.saturating_add(sums.commas);
        self.copyright = self.copyright || sums.copyright;
        if sums.size > 0 {
            self.ends = sums.ends;
        }
    }

    /// Returns whether it is a paragraph: long, with few links, and no notice of a copyright.
    pub(crate) fn is_paragraph(&self) -> bool
        ensures { result ≡ is_paragraph self.now }
    {
        if self.copyright || self.size < PARAGRAPH {
            return false;
        }
        (self.link as u64) * 4 < self.size as u64
    }

    /// Returns how many paragraphs it is, where runs count: one or none.
    fn paragraphs(&self, counts: bool) -> u32
        ensures { result ≡ one_if (counts && is_paragraph self.now) }
    {
        if !counts {
            return 0;
        }
        one_if(self.is_paragraph())
    }

    /// Returns whether it is a run of links.
    pub(crate) fn is_of_links(&self) -> bool
        ensures { result ≡ is_of_links self.now }
    {
        if self.size < LINK_RUN {
            return false;
        }
        (self.size as u64) * 4 <= (self.link as u64) * 5
    }

    /// Returns what it adds to the score of its block, in rounds that leave out bad blocks and in
    /// rounds that don't.
    pub(crate) fn weight(&self, cleans: bool) -> u64
        ensures { result ≡ weight cleans self.now }
    {
        if self.copyright {
            return 0;
        }
        let size = self.size as u64;
        let commas = self.commas as u64;
        let length = POINT * size / 80;
        if !cleans {
            return (commas + 1) * POINT + length;
        }
        if self.size < SHORTEST_RUN {
            return 0;
        }
        let whole = (commas + 2) * POINT + length.min(3 * POINT);
        share(whole, self.size.saturating_sub(self.link), self.size)
    }

    /// Returns its weight, where runs weigh; otherwise 0.
    fn weight_if(&self, weighs: bool, cleans: bool) -> u64
        ensures { result ≡ weight_if weighs cleans self.now }
    {
        if weighs { self.weight(cleans) } else { 0 }
    }
}

/// Returns one if it is so, otherwise 0.
pub(crate) fn one_if(is_so: bool) -> u32
    ensures { result ≡ one_if is_so }
{
    if is_so { 1 } else { 0 }
}

/// Returns `whole * part / all`, rounded down; 0 if `all` is 0.
pub(crate) fn share(whole: u64, part: u32, all: u32) -> u64
    requires { part ≤ all }
    ensures is { result ≡ whole * part / all }
    ensures small { result ≤ whole }
{
    if all == 0 {
        return 0;
    }
    let (part, all) = (part as u64, all as u64);
    (whole / all) * part + (whole % all) * part / all
}

/// What is added up of a node and what is below it.
#[derive(Clone, Copy, Drop)]
pub(crate) struct Sums {
    pub(crate) size: u32,
    pub(crate) link: u32,
    pub(crate) commas: u32,
    pub(crate) images: u32,
    pub(crate) inputs: u32,
    /// The size of the paragraphs, and how many there are.
    pub(crate) in_paragraphs: u32,
    pub(crate) paragraphs: u32,
    pub(crate) in_headings: u32,
    pub(crate) in_lists: u32,
    pub(crate) link_runs: u32,
    pub(crate) raw: u64,
    pub(crate) score: i64,
    /// The id of the node whose name and class say of what kind this one is.
    pub(crate) like: Option<u32>,
    pub(crate) is_inline: bool,
    pub(crate) is_leaf: bool,
    pub(crate) is_bad: bool,
    pub(crate) ends: bool,
    pub(crate) copyright: bool,
}

impl Sums {
    /// An inline node without text.
    pub(crate) const NONE: Sums = Sums {
        size: 0,
        link: 0,
        commas: 0,
        images: 0,
        inputs: 0,
        in_paragraphs: 0,
        paragraphs: 0,
        in_headings: 0,
        in_lists: 0,
        link_runs: 0,
        raw: 0,
        score: 0,
        like: None,
        is_inline: true,
        is_leaf: true,
        is_bad: false,
        ends: true,
        copyright: false,
    };

    /// Adds what an inline child of an inline node has.
    pub(crate) fn add_inline(&mut self, below: &Sums)
        ensures { self.new ≡ with_inline self.old below.now }
    {
        self.size = self.size.saturating_add(below.size);
        self.link = self.link.saturating_add(below.link);
        self.commas = self.commas.saturating_add(below.commas);
        self.images = self.images.saturating_add(below.images);
        self.copyright = self.copyright || below.copyright;
        if below.size > 0 {
            self.ends = below.ends;
        }
    }

    /// Adds what a child has that is a block and isn't bad.
    pub(crate) fn add_block(&mut self, below: &Sums)
        ensures { self.new ≡ with_block self.old below.now }
    {
        self.size = self.size.saturating_add(below.size);
        self.link = self.link.saturating_add(below.link);
        self.commas = self.commas.saturating_add(below.commas);
        self.images = self.images.saturating_add(below.images);
        self.in_paragraphs = self.in_paragraphs.saturating_add(below.in_paragraphs);
        self.paragraphs = self.paragraphs.saturating_add(below.paragraphs);
        self.in_headings = self.in_headings.saturating_add(below.in_headings);
        self.in_lists = self.in_lists.saturating_add(below.in_lists);
        let raw = if below.is_leaf {
            below.raw
        } else {
            below.raw / 2
        };
        self.raw = self.raw.saturating_add(raw);
        if below.size > 0 {
            self.ends = below.ends;
        }
    }

    /// Adds a run of the block. `weighs` says that its text counts, as it does outside of headings.
    pub(crate) fn add_run(&mut self, run: &Run, weighs: bool, cleans: bool)
        ensures { self.new ≡ with_run weighs cleans self.old run.now }
    {
        self.size = self.size.saturating_add(run.size);
        self.link = self.link.saturating_add(run.link);
        self.commas = self.commas.saturating_add(run.commas);
        self.ends = run.ends;
        self.link_runs = self.link_runs.saturating_add(one_if(run.is_of_links()));
        let paragraphs = run.paragraphs(weighs);
        self.paragraphs = self.paragraphs.saturating_add(paragraphs);
        let in_paragraphs = if paragraphs == 0 { 0 } else { run.size };
        self.in_paragraphs = self.in_paragraphs.saturating_add(in_paragraphs);
        self.raw = self.raw.saturating_add(run.weight_if(weighs, cleans));
    }
}
