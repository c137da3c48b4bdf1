//! The modes before the body.

ghost use Rattle.std.specs.Prelude.{◌≡◌, [], ◌∷◌, codes, false, true};
ghost use Rattle.standard_trees.specs.Building.{Building};
ghost use Rattle.standard_trees.specs.RuleWords.{AfterHead, BeforeHead, BeforeHtml, InBody, InHead};
ghost use Rattle.standard_trees.specs.RuleWords.{InHeadNoscript};
ghost use Rattle.standard_trees.specs.RuleWords.{InsertElement, InsertNamed, InsertRootNamed};
ghost use Rattle.standard_trees.specs.RuleWords.{Pop, PopTemplateMode, PushTemplateMode};
ghost use Rattle.standard_trees.specs.RuleWords.{SetHeadPointer, SetQuirks, SwitchTo};
ghost use Rattle.page_tokens.specs.declared.token.Tag.{Tag as TheTag};
ghost use Rattle.page_trees.specs.Constructs.{Constructs, Performs, PerformsFor, ProcessesTag};
ghost use Rattle.page_trees.specs.Constructs.{RemembersLimits, is_entered_plainly};
ghost use Rattle.page_trees.specs.Groups.{is_metadata_name};
ghost use Rattle.page_trees.specs.HeadSteps.{after_element, before_element};
ghost use Rattle.page_trees.specs.HeadSteps.{ProcessesTagBehindHead, closing_template};
ghost use Rattle.page_trees.specs.HeadSteps.{is_noscript_name, is_outer_name};
ghost use Rattle.page_trees.specs.HeadSteps.{starting_template};
ghost use Rattle.page_trees.specs.LateMerges.{ProcessesHtmlTag, ProcessesTagInHtml, is_open};
ghost use Rattle.page_trees.specs.Modes.{is_early_end_name, is_start_kind, mode_of};
ghost use Rattle.page_trees.specs.declared.builder.Next.TheVariants.{Again, Done as IsDone};
ghost use Rattle.page_trees.specs.declared.name.Name.TheVariants.{Body as BodyName};
ghost use Rattle.page_trees.specs.declared.name.Name.TheVariants.{Head as HeadName};
ghost use Rattle.page_trees.specs.declared.name.Name.TheVariants.{Noscript as NoscriptName};
ghost use Rattle.page_trees.specs.declared.name.Name.TheVariants.{Template as TemplateName};

use super::groups::is_metadata;
use super::is_start;
use crate::builder::{Mode, Next, TreeBuilder};
use crate::fault::PageFault;
use crate::name::Name;
use dom_trees::quirks::QuirksMode;
use page_tokens::token::Tag;
use page_tokens::tokenizer::State;

/// Returns whether an end tag with that name is processed like anything else before the body.
fn is_early_end(name: Name) -> bool
    ensures { result ≡ is_early_end_name name }
{
    matches!(name, Name::Head | Name::Body | Name::Html | Name::Br)
}

/// Returns whether the end tag with that name closes the head, which is left then.
fn is_outer(name: Name) -> bool
    ensures { result ≡ is_outer_name name }
{
    match name {
        Name::Body | Name::Html | Name::Br => true,
        _ => false,
    }
}

/// Returns whether "in head noscript" uses the rules for "in head" for a start tag with that name.
fn is_in_noscript(name: Name) -> bool
    ensures { result ≡ is_noscript_name name }
{
    match name {
        Name::Basefont | Name::Bgsound | Name::Link => true,
        Name::Meta | Name::Noframes | Name::Style => true,
        _ => false,
    }
}

impl TreeBuilder {
    pub fn leave_initial(&mut self) -> Next
        ensures next { result ≡ Again }
        ensures limits { RemembersLimits self.old self.new }
        ensures rule { Performs (SetQuirks ∷ SwitchTo BeforeHtml ∷ []) self.old self.new }
    {
        self.quirks = QuirksMode::Quirks;
        self.again_in(Mode::BeforeHtml)
    }

    pub fn imply_html(&mut self) -> Next
        ensures next { result ≡ Again }
        ensures limits { RemembersLimits self.old self.new }
        ensures rule { let insert = InsertRootNamed (codes "html") in
            Performs (insert ∷ SwitchTo BeforeHead ∷ []) self.old self.new }
    {
        self.imply(Name::Html, "html", Mode::BeforeHead)
    }

    pub fn before_html_tag(&mut self, name: Name, tag: &Tag) -> Next
        ensures limits { RemembersLimits self.old self.new }
        ensures rule { ProcessesTag BeforeHtml name tag.now self.old self.new result }
    {
        if is_start(tag) {
            if name == Name::Html {
                self.insert_html(tag);
                return self.done_in(Mode::BeforeHead);
            }
            return self.imply_html();
        }
        if is_early_end(name) {
            return self.imply_html();
        }
        Next::Done
    }

    pub fn imply_head(&mut self) -> Next
        ensures next { result ≡ Again }
        ensures limits { RemembersLimits self.old self.new }
        ensures rule { let insert = InsertNamed (codes "head") in
            Performs (insert ∷ SetHeadPointer ∷ SwitchTo InHead ∷ []) self.old self.new }
    {
        self.insert_implied(Name::Head, "head");
        self.tree.set_head();
        self.again_in(Mode::InHead)
    }

    pub fn before_head_tag(&mut self, name: Name, tag: &Tag) -> Next
        ensures limits { RemembersLimits self.old self.new }
        ensures rule { ProcessesTagInHtml BeforeHead name tag.now self.old self.new result }
    {
        if is_start(tag) {
            if name == Name::Html {
                return self.add_html_attrs(tag);
            }
            if name == Name::Head {
                return self.start_head(tag);
            }
            return self.imply_head();
        }
        if is_early_end(name) {
            return self.imply_head();
        }
        Next::Done
    }

    fn start_head(&mut self, tag: &Tag) -> Next
        ensures next { result ≡ IsDone }
        ensures limits { RemembersLimits self.old self.new }
        ensures rule { let rest = SetHeadPointer ∷ SwitchTo InHead ∷ [] in
            PerformsFor HeadName tag.now (InsertElement ∷ rest) self.old self.new }
    {
        self.insert(Name::Head, tag);
        self.tree.set_head();
        self.done_in(Mode::InHead)
    }

    /// Adds the attributes of a later start tag `html` to the element.
    pub fn add_html_attrs(&mut self, tag: &Tag) -> Next
        ensures next { result ≡ IsDone }
        ensures limits { RemembersLimits self.old self.new }
        ensures rule { ProcessesHtmlTag tag.now self.old self.new result }
    {
        if self.tree.open().has(Name::Template) {
            return Next::Done;
        }
        self.add_attrs(0, tag);
        Next::Done
    }

    /// Pops the current node, and reprocesses the token in that mode.
    pub fn leave_for(&mut self, mode: Mode) -> Next
        ensures next { result ≡ Again }
        ensures limits { RemembersLimits self.old self.new }
        ensures rule { is_entered_plainly mode ≡ true →
            Performs (Pop ∷ SwitchTo (mode_of mode) ∷ []) self.old self.new }
    {
        self.tree.pop();
        self.again_in(mode)
    }

    /// Pops the current node at its end tag, and switches to that mode.
    pub fn end_in_mode(&mut self, mode: Mode) -> Next
        ensures next { result ≡ IsDone }
        ensures limits { RemembersLimits self.old self.new }
        ensures rule { is_entered_plainly mode ≡ true →
            Performs (Pop ∷ SwitchTo (mode_of mode) ∷ []) self.old self.new }
    {
        self.tree.pop();
        self.done_in(mode)
    }

    /// Processes the start tag of an element of the head, wherever it is.
    pub fn head_element(&mut self, name: Name, tag: &Tag) -> Next
        ensures next { result ≡ IsDone }
        ensures limits { RemembersLimits self.old self.new }
        ensures rule { is_metadata_name name ≡ true → is_start_kind tag.now.kind ≡ true →
            ProcessesTag InHead name tag.now self.old self.new result }
    {
        self.before_head_element(name);
        self.insert(name, tag);
        self.after_head_element(name)
    }

    /// Does what comes before an element of the head is inserted.
    fn before_head_element(&mut self, name: Name)
        ensures limits { RemembersLimits self.old self.new }
        ensures rule { Performs (before_element name) self.old self.new }
    {
        if name == Name::Template {
            return self.start_template();
        }
    }

    fn start_template(&mut self)
        ensures limits { RemembersLimits self.old self.new }
        ensures rule { Performs starting_template self.old self.new }
    {
        self.push_marker();
        self.frameset_ok = false;
        self.push_template_mode(Mode::InTemplate);
        self.mode = Mode::InTemplate;
    }

    /// Does what comes after an element of the head is inserted.
    fn after_head_element(&mut self, name: Name) -> Next
        ensures next { result ≡ IsDone }
        ensures limits { RemembersLimits self.old self.new }
        ensures rule { Performs (after_element name) self.old self.new }
    {
        match name {
            Name::Title => self.read_text(State::Rcdata),
            Name::Noframes | Name::Style => self.read_text(State::Rawtext),
            Name::Noscript => self.read_text(State::Rawtext),
            Name::Script => self.read_text(State::Script),
            Name::Template => Next::Done,
            _ => self.close_element(),
        }
    }

    fn close_element(&mut self) -> Next
        ensures next { result ≡ IsDone }
        ensures limits { RemembersLimits self.old self.new }
        ensures rule { Performs (Pop ∷ []) self.old self.new }
    {
        self.tree.pop();
        Next::Done
    }

    pub fn push_template_mode(&mut self, mode: Mode)
        ensures limits { RemembersLimits self.old self.new }
        ensures rule { is_entered_plainly mode ≡ true →
            Performs (PushTemplateMode (mode_of mode) ∷ []) self.old self.new }
    {
        match self.template_modes.push(mode) {
            Ok(_) => {}
            Err(_) => self.keep(Err(PageFault::Memory)),
        }
    }

    pub fn pop_template_mode(&mut self)
        ensures limits { RemembersLimits self.old self.new }
        ensures rule { Performs (PopTemplateMode ∷ []) self.old self.new }
    {
        let _ = self.template_modes.pop();
    }

    /// Closes a template, if one is open, and returns whether one was.
    pub fn close_template(&mut self) -> bool
        ensures limits { RemembersLimits self.old self.new }
        ensures found { (b : Building) → Constructs self.old b →
            result ≡ is_open (codes "template") b.tree }
        ensures kept { result ≡ false → self.new ≡ self.old }
        ensures rule { result ≡ true → Performs closing_template self.old self.new }
    {
        if !self.tree.open().has(Name::Template) {
            return false;
        }
        self.leave_template();
        true
    }

    fn leave_template(&mut self)
        ensures limits { RemembersLimits self.old self.new }
        ensures rule { Performs closing_template self.old self.new }
    {
        self.tree.pop_to(Name::Template);
        self.tree.clear_to_marker();
        self.pop_template_mode();
        self.reset_mode();
    }

    pub fn end_template(&mut self) -> Next
        ensures next { result ≡ IsDone }
        ensures limits { RemembersLimits self.old self.new }
        ensures rule { (tag : TheTag) → is_start_kind tag.kind ≡ false →
            ProcessesTag InHead TemplateName tag self.old self.new result }
    {
        self.close_template();
        Next::Done
    }

    pub fn head_tag(&mut self, name: Name, tag: &Tag) -> Next
        ensures limits { RemembersLimits self.old self.new }
        ensures rule { ProcessesTagInHtml InHead name tag.now self.old self.new result }
    {
        if is_start(tag) {
            return self.start_in_head(name, tag);
        }
        if is_outer(name) {
            return self.leave_for(Mode::AfterHead);
        }
        match name {
            Name::Head => self.end_in_mode(Mode::AfterHead),
            Name::Template => self.end_template(),
            _ => Next::Done,
        }
    }

    fn start_in_head(&mut self, name: Name, tag: &Tag) -> Next
        ensures limits { RemembersLimits self.old self.new }
        ensures rule { is_start_kind tag.now.kind ≡ true →
            ProcessesTagInHtml InHead name tag.now self.old self.new result }
    {
        if is_metadata(name) {
            return self.head_element(name, tag);
        }
        match name {
            Name::Html => self.add_html_attrs(tag),
            Name::Noscript => self.start_head_noscript(tag),
            Name::Head => Next::Done,
            _ => self.leave_for(Mode::AfterHead),
        }
    }

    fn start_head_noscript(&mut self, tag: &Tag) -> Next
        ensures limits { RemembersLimits self.old self.new }
        ensures rule { is_start_kind tag.now.kind ≡ true →
            ProcessesTag InHead NoscriptName tag.now self.old self.new result }
    {
        if self.scripting {
            return self.insert_text_element(Name::Noscript, tag, State::Rawtext);
        }
        self.insert_then(Name::Noscript, tag, Mode::InHeadNoscript)
    }

    pub fn noscript_tag(&mut self, name: Name, tag: &Tag) -> Next
        ensures limits { RemembersLimits self.old self.new }
        ensures rule { ProcessesTagInHtml InHeadNoscript name tag.now self.old self.new result }
    {
        if is_start(tag) {
            return self.start_in_noscript(name, tag);
        }
        match name {
            Name::Noscript => self.end_in_mode(Mode::InHead),
            Name::Br => self.leave_for(Mode::InHead),
            _ => Next::Done,
        }
    }

    fn start_in_noscript(&mut self, name: Name, tag: &Tag) -> Next
        ensures limits { RemembersLimits self.old self.new }
        ensures rule { is_start_kind tag.now.kind ≡ true →
            ProcessesTagInHtml InHeadNoscript name tag.now self.old self.new result }
    {
        if is_in_noscript(name) {
            return self.head_element(name, tag);
        }
        match name {
            Name::Html => self.add_html_attrs(tag),
            Name::Head | Name::Noscript => Next::Done,
            _ => self.leave_for(Mode::InHead),
        }
    }

    pub fn imply_body(&mut self) -> Next
        ensures next { result ≡ Again }
        ensures limits { RemembersLimits self.old self.new }
        ensures rule { let insert = InsertNamed (codes "body") in
            Performs (insert ∷ SwitchTo InBody ∷ []) self.old self.new }
    {
        self.imply(Name::Body, "body", Mode::InBody)
    }

    pub fn after_head_tag(&mut self, name: Name, tag: &Tag) -> Next
        ensures limits { RemembersLimits self.old self.new }
        ensures rule { ProcessesTagBehindHead AfterHead name tag.now self.old self.new result }
    {
        if is_start(tag) {
            return self.start_after_head(name, tag);
        }
        if is_outer(name) {
            return self.imply_body();
        }
        if name == Name::Template {
            return self.end_template();
        }
        Next::Done
    }

    fn start_after_head(&mut self, name: Name, tag: &Tag) -> Next
        ensures limits { RemembersLimits self.old self.new }
        ensures rule { is_start_kind tag.now.kind ≡ true →
            ProcessesTagBehindHead AfterHead name tag.now self.old self.new result }
    {
        if is_metadata(name) {
            return self.in_head_again(name, tag);
        }
        match name {
            Name::Html => self.add_html_attrs(tag),
            Name::Body => self.start_body_after_head(tag),
            Name::Frameset => self.insert_then(name, tag, Mode::InFrameset),
            Name::Head => Next::Done,
            _ => self.imply_body(),
        }
    }

    fn start_body_after_head(&mut self, tag: &Tag) -> Next
        ensures next { result ≡ IsDone }
        ensures limits { RemembersLimits self.old self.new }
        ensures rule { is_start_kind tag.now.kind ≡ true →
            ProcessesTag AfterHead BodyName tag.now self.old self.new result }
    {
        self.frameset_ok = false;
        self.insert_then(Name::Body, tag, Mode::InBody)
    }

    /// Processes the start tag of an element of the head after the head is closed; the element is
    /// inserted into the head.
    fn in_head_again(&mut self, name: Name, tag: &Tag) -> Next
        ensures next { result ≡ IsDone }
        ensures limits { RemembersLimits self.old self.new }
        ensures rule { is_metadata_name name ≡ true → is_start_kind tag.now.kind ≡ true →
            ProcessesTagBehindHead AfterHead name tag.now self.old self.new result }
    {
        self.before_head_element(name);
        self.insert_into_head(name, tag);
        self.after_head_element(name)
    }
}
