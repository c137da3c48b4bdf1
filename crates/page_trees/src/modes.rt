//! The insertion modes: which rules process a token (13.2.6.4).

ghost use Rattle.std.specs.Prelude.{IfOk, [], false, string_bytes, true, ◌∷◌, ◌≡◌};
ghost use Rattle.standard_tokens.specs.Machine.{Tag as StandardTag, token_of};
ghost use Rattle.standard_trees.specs.RuleWords.{InsertElement, Text, TextState};
ghost use Rattle.page_tokens.specs.PlainNames.{has_plain_names};
ghost use Rattle.page_tokens.specs.Standard.{IsTag};
ghost use Rattle.page_trees.specs.Constructs.{Performs, PerformsFor, ProcessesTag, RemembersLimits};
ghost use Rattle.page_trees.specs.Constructs.{state_for};
ghost use Rattle.page_trees.specs.CoveredTurns.{DispatchesCovered, ProcessesCovered, ProcessesOnce};
ghost use Rattle.page_trees.specs.CoveredTurns.{ProcessesToken, TakesTokens};
ghost use Rattle.page_trees.specs.HeadSteps.{reading_text};
ghost use Rattle.page_trees.specs.Modes.{is_start_kind, mode_of, next_of};
ghost use Rattle.page_trees.specs.Names.{name_of};
ghost use Rattle.page_trees.specs.TagSteps.{is_outer};
ghost use Rattle.page_trees.specs.TokenSteps.{ReturnsPlainly};
ghost use Rattle.page_trees.specs.declared.builder.Mode.TheVariants.{Text as IsText};
ghost use Rattle.page_trees.specs.declared.modes.Token.TheVariants.{Tag as TheTag};
ghost use Rattle.page_trees.specs.declared.builder.Next.TheVariants.{Done as IsDone};
ghost use Rattle.page_trees.specs.declared.name.Name.{Name as TheName};

mod after;
mod body;
mod body_ends;
pub mod groups;
mod head;
mod other_tokens;
mod resetting;
mod select_tags;
mod tables;
mod template;

use crate::builder::{Mode, Next, TreeBuilder};
use crate::chars::Run;
use crate::fault::PageFault;
use crate::name::Name;
use dom_nodes::name::LocalName;
use page_tokens::token::{Tag, TagKind};
use page_tokens::tokenizer::State;
use std::alloc::Global;

/// A token as the insertion modes process it.
#[derive(Clone, Copy, Drop)]
pub enum Token<'a> {
    Tag(Name, &'a Tag),
    Run(Run, &'a str),
    /// The end of the page.
    End,
}

impl TreeBuilder {
    /// Processes a tag.
    pub fn tag(&mut self, tag: &Tag)
        ensures limits { RemembersLimits self.old self.new }
        ensures rule { (standard : StandardTag) → IsTag standard tag.now →
            has_plain_names (token_of standard) ≡ true →
            TakesTokens (token_of standard ∷ []) self.old self.new }
    {
        self.skip_line_feed = false;
        self.process_tag(tag);
    }

    /// Processes a tag after its name is looked up.
    fn process_tag(&mut self, tag: &Tag)
        ensures limits { RemembersLimits self.old self.new }
        ensures rule { let name = name_of (string_bytes tag.now.name) in
            ProcessesToken (TheTag name tag.entry) self.old self.new }
    {
        match name_in(self.alloc, tag) {
            Ok(name) => self.process(Token::Tag(name, tag)),
            Err(fault) => self.keep(Err(fault)),
        }
    }

    /// Processes a token, and reprocesses it as often as the rules ask for. Within the limits the
    /// rules are done with each token at some time.
    pub fn process(&mut self, token: Token<'_>)
        ensures limits { RemembersLimits self.old self.new }
        ensures rule { ProcessesToken token.entry self.old self.new }
    {
        match self.step(token) {
            Next::Done => {}
            Next::Again => self.reprocess(token),
        }
    }

    /// Processes a token again, as often as the rules ask for.
    fn reprocess(&mut self, token: Token<'_>)
        ensures limits { RemembersLimits self.old self.new }
        ensures rule { ProcessesToken token.entry self.old self.new }
    {
        for turn in 0..self.most_turns() {
            match self.step(token) {
                Next::Done => return,
                Next::Again => {
                    if self.is_past_limits() {
                        return self.process_past_limits(token);
                    }
                }
            }
        }
    }

    /// Processes a token past a limit, where the state may be one to which no rules lead. It is
    /// reprocessed so often at most; after that the rules for "in body" process it.
    fn process_past_limits(&mut self, token: Token<'_>)
        ensures { RemembersLimits self.old self.new }
    {
        for turn in 0..self.turns() {
            if let Next::Done = self.step(token) {
                return;
            }
        }
        self.mode = Mode::InBody;
        self.step(token);
    }

    /// Processes a token once by the rules of the current insertion mode. Limits that were met stay
    /// noted.
    fn step(&mut self, token: Token<'_>) -> Next
        ensures limits { RemembersLimits self.old self.new }
        ensures rule { ProcessesOnce token.entry self.old self.new result }
    {
        let before = self.met();
        let next = self.turn(token);
        self.note_met(before);
        next
    }

    /// Processes a token once by the rules of the current insertion mode.
    fn turn(&mut self, token: Token<'_>) -> Next
        ensures rule { ProcessesOnce token.entry self.old self.new result }
    {
        match token {
            Token::Tag(name, tag) => self.tag_step(name, tag),
            Token::Run(kind, text) => self.run_step(kind, text),
            Token::End => self.end_step(),
        }
    }

    fn tag_step(&mut self, name: Name, tag: &Tag) -> Next
        ensures rule { DispatchesCovered name tag.now self.old self.new result }
    {
        if self.is_tag_foreign(tag.kind, name) {
            self.foreign_tag(name, tag)
        } else {
            self.html_tag(name, tag)
        }
    }

    /// Processes a tag by the rules for the current insertion mode.
    pub fn html_tag(&mut self, name: Name, tag: &Tag) -> Next
        ensures rule { ProcessesCovered (mode_of self.old.mode) name tag.now self.old self.new result }
    {
        match self.mode {
            Mode::InBody => self.body_tag(name, tag),
            Mode::Text => self.text_tag(tag),
            Mode::InTable => self.table_tag(name, tag),
            Mode::InTableText => self.leave_table_text(),
            Mode::InCaption => self.caption_tag(name, tag),
            Mode::InColumnGroup => self.column_group_tag(name, tag),
            Mode::InTableBody => self.table_body_tag(name, tag),
            Mode::InRow => self.row_tag(name, tag),
            Mode::InCell => self.cell_tag(name, tag),
            Mode::InTemplate => self.template_tag(name, tag),
            _ => self.outer_tag(name, tag),
        }
    }

    /// Processes a tag in a mode before or after the body.
    fn outer_tag(&mut self, name: Name, tag: &Tag) -> Next
        ensures rule { is_outer self.old.mode ≡ true →
            ProcessesCovered (mode_of self.old.mode) name tag.now self.old self.new result }
    {
        match self.mode {
            Mode::BeforeHtml => self.before_html_tag(name, tag),
            Mode::BeforeHead => self.before_head_tag(name, tag),
            Mode::InHead => self.head_tag(name, tag),
            Mode::InHeadNoscript => self.noscript_tag(name, tag),
            Mode::AfterHead => self.after_head_tag(name, tag),
            Mode::AfterBody => self.after_body_tag(name, tag),
            Mode::InFrameset => self.frameset_tag(name, tag),
            Mode::AfterFrameset => self.after_frameset_tag(name, tag),
            Mode::AfterAfterBody => self.after_after_body_tag(name, tag),
            Mode::AfterAfterFrameset => self.after_after_frameset_tag(name, tag),
            _ => self.leave_initial(),
        }
    }

    /// Processes a tag where the text of an element is read; its end tag closes it.
    fn text_tag(&mut self, tag: &Tag) -> Next
        ensures limits { RemembersLimits self.old self.new }
        ensures rule { (name : TheName) → self.old.mode ≡ IsText → ReturnsPlainly self.old →
            ProcessesTag Text name tag.now self.old self.new result }
    {
        if is_start(tag) {
            return Next::Done;
        }
        self.end_in_mode(self.original)
    }

    /// Inserts an element whose content is text up to its end tag (13.2.6.2).
    pub fn insert_text_element(&mut self, name: Name, tag: &Tag, state: State) -> Next
        ensures next { result ≡ IsDone }
        ensures limits { RemembersLimits self.old self.new }
        ensures rule { (s : TextState) → state ≡ state_for s →
            PerformsFor name tag.now (InsertElement ∷ reading_text s) self.old self.new }
    {
        self.insert(name, tag);
        self.read_text(state)
    }

    /// Switches the tokenizer, and the mode, for the text of an element.
    pub fn read_text(&mut self, state: State) -> Next
        ensures next { result ≡ IsDone }
        ensures limits { RemembersLimits self.old self.new }
        ensures rule { (s : TextState) → state ≡ state_for s →
            Performs (reading_text s) self.old self.new }
    {
        self.switch = Some(state);
        self.original = self.mode;
        self.done_in(Mode::Text)
    }
}

/// Returns the name of a tag. Fails only when memory runs out.
fn name_in(alloc: Global, tag: &Tag) -> Result<Name, PageFault>
    ensures { IfOk result (λ name. name ≡ name_of (string_bytes tag.now.name)) }
{
    match LocalName::new(alloc, tag.name.as_str()) {
        Ok(local) => Ok(Name::of(&local.by_ref())),
        Err(_) => Err(PageFault::Memory),
    }
}

/// Returns that the token is to be reprocessed, or is done.
fn next_if(again: bool) -> Next
    ensures { result ≡ next_of again }
{
    if again { Next::Again } else { Next::Done }
}

/// Returns whether the tag is a start tag.
pub fn is_start(tag: &Tag) -> bool
    ensures { result ≡ is_start_kind tag.now.kind }
{
    tag.kind == TagKind::Start
}
