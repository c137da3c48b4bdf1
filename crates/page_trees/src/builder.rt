//! The state of tree construction (13.2.4), besides the tree and the stack.

ghost use Rattle.std.specs.Prelude.{◌≡◌, ◌||◌, None, OnOk, length, nat_lt, true};
ghost use Rattle.std.specs.Option.{option_or};
ghost use Rattle.standard_trees.specs.Building.{empty_tree, start};
ghost use Rattle.page_trees.specs.Constructs.{WithinLimits, first_fault};
ghost use Rattle.page_trees.specs.CoveredTurns.{AreEnoughTurns};
ghost use Rattle.page_trees.specs.declared.builder.Next.TheVariants.{Again, Done as IsDone};

use crate::fault::PageFault;
use crate::growing::{GrowingTree, Placing};
use crate::reading::Options;
use dom_trees::quirks::QuirksMode;
use page_tokens::tokenizer::State;
use std::alloc::Global;

/// The insertion mode (13.2.4.1), which chooses the rules for a token.
#[derive(Clone, Copy, PartialEq, Eq, Drop)]
pub enum Mode {
    Initial,
    BeforeHtml,
    BeforeHead,
    InHead,
    InHeadNoscript,
    AfterHead,
    InBody,
    Text,
    InTable,
    InTableText,
    InCaption,
    InColumnGroup,
    InTableBody,
    InRow,
    InCell,
    InTemplate,
    AfterBody,
    InFrameset,
    AfterFrameset,
    AfterAfterBody,
    AfterAfterFrameset,
}

/// Whether a token is processed, or has to be reprocessed in the current insertion mode.
#[derive(Clone, Copy, PartialEq, Eq, Drop)]
pub enum Next {
    Done,
    Again,
}

/// Which limits were met: the first fault, and whether more elements were open than may be nested.
#[derive(Clone, Copy, Drop)]
pub struct Met {
    fault: Option<PageFault>,
    too_deep: bool,
}

/// The state of tree construction: the tree, the insertion mode and the flags of the standard.
#[derive(Drop)]
pub struct TreeBuilder {
    pub alloc: Global,
    pub tree: GrowingTree,
    pub placing: Placing,
    pub mode: Mode,
    /// The original insertion mode, to which the text and table text modes return.
    pub original: Mode,
    pub template_modes: Vec<Mode>,
    pub frameset_ok: bool,
    /// Whether the next character is ignored if it is a line feed.
    pub skip_line_feed: bool,
    pub scripting: bool,
    /// The quirks mode of the document.
    pub quirks: QuirksMode,
    /// The pending table character tokens.
    pub table_text: String,
    pub table_text_has_letters: bool,
    /// The state to which the tokenizer has to switch, if any.
    pub switch: Option<State>,
    /// The first fault. The current token is processed to its end; then nothing more is read.
    pub fault: Option<PageFault>,
    /// Whether an element was opened where as many were open as the limit on depth allows.
    pub too_deep: bool,
}

impl TreeBuilder {
    ghost use Rattle.page_trees.specs.Constructs.{Constructs};
    ghost use Rattle.page_trees.specs.Stands.{Builds};

    pub fn new(alloc: Global, tree: GrowingTree, options: Options) -> TreeBuilder
        ensures switch { result.switch ≡ None }
        ensures stands { Builds tree empty_tree → Constructs result (start options.scripting) }
    {
        TreeBuilder {
            alloc,
            tree,
            placing: Placing {
                foster: false,
                in_head: false,
                max_depth: usize::MAX,
            },
            mode: Mode::Initial,
            original: Mode::InBody,
            template_modes: Vec::new(alloc),
            frameset_ok: true,
            skip_line_feed: false,
            scripting: options.scripting,
            quirks: QuirksMode::NoQuirks,
            table_text: String::new(alloc),
            table_text_has_letters: false,
            switch: None,
            fault: None,
            too_deep: false,
        }
    }

    /// Stores the fault of an edit, if it is the first one.
    pub fn keep(&mut self, done: Result<(), PageFault>)
        ensures { self.new ≡ record self.old { fault = first_fault self.old.fault done } }
    {
        if let Err(fault) = done
            && self.fault.is_none()
        {
            self.fault = Some(fault);
        }
    }

    /// Notes if more elements are open than the limit on depth allows.
    pub fn note_depth(&mut self)
        ensures { let deep = nat_lt self.old.placing.max_depth (length self.old.tree.stack) in
            self.new ≡ record self.old { too_deep = self.old.too_deep || deep } }
    {
        if self.tree.open().len() > self.placing.max_depth {
            self.too_deep = true;
        }
    }

    /// Returns which limits were met so far.
    pub fn met(&self) -> Met
        ensures { result ≡ record { fault = self.now.fault; too_deep = self.now.too_deep } }
    {
        Met {
            fault: self.fault,
            too_deep: self.too_deep,
        }
    }

    /// Notes that limits were met before, too.
    pub fn note_met(&mut self, met: Met)
        ensures { let fault = option_or met.fault self.old.fault in
            let deep = self.old.too_deep || met.too_deep in
            self.new ≡ record self.old { fault = fault; too_deep = deep } }
    {
        self.fault = met.fault.or(self.fault);
        self.too_deep |= met.too_deep;
    }

    /// Returns the first fault as an error, if there is one.
    pub fn settled(&self) -> Result<(), PageFault>
        ensures { OnOk result (self.now.fault ≡ None) }
    {
        match self.fault {
            Some(fault) => Err(fault),
            None => Ok(()),
        }
    }

    pub fn done_in(&mut self, mode: Mode) -> Next
        ensures next { result ≡ IsDone }
        ensures mode { self.new ≡ record self.old { mode = mode } }
    {
        self.mode = mode;
        Next::Done
    }

    pub fn again_in(&mut self, mode: Mode) -> Next
        ensures next { result ≡ Again }
        ensures mode { self.new ≡ record self.old { mode = mode } }
    {
        self.mode = mode;
        Next::Again
    }

    /// Returns whether a limit was met: a fault, or more open elements than may be nested.
    pub fn is_past_limits(&self) -> bool
        ensures { result ≡ true → WithinLimits self.now → ⊥ }
    {
        self.fault.is_some() || self.too_deep
    }

    /// Returns how often the rules reprocess a token at most, whatever the token.
    pub fn most_turns(&self) -> u128
        ensures { AreEnoughTurns self.now result }
    {
        let open = self.tree.open().len() as u128;
        let listed = self.tree.formatting_len() as u128;
        let modes = self.template_modes.as_slice().len() as u128;
        96 + 32 * (open + listed + modes)
    }

    /// Returns how often a token may be reprocessed past a limit.
    pub fn turns(&self) -> usize {
        self.tree.open().len().saturating_mul(4).saturating_add(64)
    }
}
