//! A block whose children are being added.

ghost use Rattle.std.specs.Prelude.{◌≡◌};
ghost use Rattle.dom_article.specs.Blocks.{all_of, begun, counted, ended, is_second_break};
ghost use Rattle.dom_article.specs.Blocks.{with_block_child, with_break, with_images, with_inputs};
ghost use Rattle.dom_article.specs.Blocks.{with_text};

use crate::sums::{Run, Sums};

/// A block whose children are being added.
#[derive(Clone, Copy, Drop)]
pub(crate) struct Block {
    pub(crate) sums: Sums,
    /// The run that has begun.
    pub(crate) run: Run,
    /// How many runs have ended.
    runs: u32,
    /// How many line breaks there are in a row.
    breaks: u32,
    /// How many children are blocks that count.
    counted: u32,
    /// What is known of the last of them.
    inner: Inner,
    /// Whether its texts weigh, as they do outside of headings.
    weighs: bool,
    /// Whether the round leaves out bad blocks.
    cleans: bool,
}

/// What a block takes over from a block that is all that it has.
#[derive(Clone, Copy, Drop)]
struct Inner {
    raw: u64,
    like: Option<u32>,
    is_leaf: bool,
}

impl Inner {
    /// That of a block without text.
    const NONE: Inner = Inner {
        raw: 0,
        like: None,
        is_leaf: true,
    };
}

impl Block {
    /// Returns a block without children.
    pub(crate) fn begun(weighs: bool, cleans: bool) -> Block
        ensures { result ≡ begun weighs cleans }
    {
        let mut sums = Sums::NONE;
        sums.is_inline = false;
        Block {
            sums,
            run: Run::EMPTY,
            runs: 0,
            breaks: 0,
            counted: 0,
            inner: Inner::NONE,
            weighs,
            cleans,
        }
    }

    /// Adds inputs.
    pub(crate) fn add_inputs(&mut self, inputs: u32)
        ensures { self.new ≡ with_inputs inputs self.old }
    {
        self.sums.inputs = self.sums.inputs.saturating_add(inputs);
    }

    /// Adds images.
    pub(crate) fn add_images(&mut self, images: u32)
        ensures { self.new ≡ with_images images self.old }
    {
        self.sums.images = self.sums.images.saturating_add(images);
    }

    /// Adds a line break, and returns whether it ends the run: the second one in a row does.
    pub(crate) fn add_break(&mut self) -> bool
        ensures is { result ≡ is_second_break self.old }
        ensures more { self.new ≡ with_break self.old }
    {
        self.breaks = self.breaks.saturating_add(1);
        self.breaks == 2
    }

    /// Adds an inline child that is no line break and has a text.
    pub(crate) fn add_text(&mut self, below: &Sums)
        ensures { self.new ≡ with_text below.now self.old }
    {
        self.breaks = 0;
        self.run.add(below);
    }

    /// Ends the run, if it has a text.
    pub(crate) fn end_run(&mut self)
        ensures { self.new ≡ ended self.old }
    {
        if self.run.size > 0 {
            self.sums.add_run(&self.run, self.weighs, self.cleans);
            self.runs = self.runs.saturating_add(1);
        }
        self.run = Run::EMPTY;
    }

    /// Adds a child that is a block itself, after the end of the run.
    pub(crate) fn add_block(&mut self, below: &Sums)
        ensures { self.new ≡ with_block_child below.now self.old }
    {
        self.breaks = 0;
        self.sums.inputs = self.sums.inputs.saturating_add(below.inputs);
        self.sums.link_runs = self.sums.link_runs.saturating_add(below.link_runs);
        if below.is_bad {
            return;
        }
        self.count(below);
        self.sums.add_block(below);
    }

    /// Counts a child that is a block and isn't bad, if it has a text.
    fn count(&mut self, below: &Sums)
        ensures { self.new ≡ counted below.now self.old }
    {
        if below.size > 0 {
            self.counted = self.counted.saturating_add(1);
            self.inner = Inner {
                raw: below.raw,
                like: below.like,
                is_leaf: below.is_leaf,
            };
        }
    }

    /// Returns the sums of a block whose children were added. A block that has but one block takes
    /// over what that is.
    pub(crate) fn all(&self) -> Sums
        ensures { result ≡ all_of self.now }
    {
        let mut sums = self.sums;
        if self.counted == 1 && self.runs == 0 {
            sums.like = self.inner.like;
            sums.is_leaf = self.inner.is_leaf;
            sums.raw = self.inner.raw;
        } else {
            sums.is_leaf = self.counted == 0 && self.runs <= 1;
        }
        sums
    }
}
