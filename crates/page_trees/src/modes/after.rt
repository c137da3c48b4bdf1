//! The modes after the body, and those of framesets.

ghost use Rattle.std.specs.Prelude.{◌≡◌, true};
ghost use Rattle.standard_trees.specs.Building.{Building};
ghost use Rattle.standard_trees.specs.RuleWords.{AfterAfterBody, AfterAfterFrameset, AfterBody};
ghost use Rattle.standard_trees.specs.RuleWords.{AfterFrameset, InFrameset};
ghost use Rattle.standard_trees.specs.RuleWords.{Mode as StandardMode};
ghost use Rattle.page_trees.specs.Constructs.{Constructs, RemembersLimits, WithinLimits};
ghost use Rattle.page_trees.specs.Framesets.{frameset_ended, framesets_left};
ghost use Rattle.page_trees.specs.Framesets.{is_behind_framesets};
ghost use Rattle.page_trees.specs.LateMerges.{HasHtml, ProcessesTagInHtml};
ghost use Rattle.page_trees.specs.Modes.{is_start_kind};
ghost use Rattle.page_trees.specs.declared.builder.Next.TheVariants.{Done as IsDone};
ghost use Rattle.page_trees.specs.declared.name.Name.TheVariants.{Html as HtmlName};

use super::is_start;
use crate::builder::{Mode, Next, TreeBuilder};
use crate::name::Name;
use page_tokens::token::Tag;

impl TreeBuilder {
    pub fn after_body_tag(&mut self, name: Name, tag: &Tag) -> Next
        ensures limits { RemembersLimits self.old self.new }
        ensures rule { ProcessesTagInHtml AfterBody name tag.now self.old self.new result }
    {
        if name == Name::Html {
            return self.html_after_body(tag);
        }
        self.again_in(Mode::InBody)
    }

    /// Processes a tag `html` after the body.
    fn html_after_body(&mut self, tag: &Tag) -> Next
        ensures limits { RemembersLimits self.old self.new }
        ensures rule { ProcessesTagInHtml AfterBody HtmlName tag.now self.old self.new result }
    {
        if is_start(tag) {
            return self.add_html_attrs(tag);
        }
        if self.tree.is_fragment() {
            return Next::Done;
        }
        self.done_in(Mode::AfterAfterBody)
    }

    pub fn after_after_body_tag(&mut self, name: Name, tag: &Tag) -> Next
        ensures limits { RemembersLimits self.old self.new }
        ensures rule { ProcessesTagInHtml AfterAfterBody name tag.now self.old self.new result }
    {
        if is_start(tag) {
            return self.start_after_after_body(name, tag);
        }
        self.again_in(Mode::InBody)
    }

    fn start_after_after_body(&mut self, name: Name, tag: &Tag) -> Next
        ensures limits { RemembersLimits self.old self.new }
        ensures rule { is_start_kind tag.now.kind ≡ true →
            ProcessesTagInHtml AfterAfterBody name tag.now self.old self.new result }
    {
        if name == Name::Html {
            return self.add_html_attrs(tag);
        }
        self.again_in(Mode::InBody)
    }

    pub fn frameset_tag(&mut self, name: Name, tag: &Tag) -> Next
        ensures limits { RemembersLimits self.old self.new }
        ensures rule { ProcessesTagInHtml InFrameset name tag.now self.old self.new result }
    {
        if is_start(tag) {
            return self.start_in_frameset(name, tag);
        }
        if name == Name::Frameset {
            return self.end_frameset();
        }
        Next::Done
    }

    fn start_in_frameset(&mut self, name: Name, tag: &Tag) -> Next
        ensures limits { RemembersLimits self.old self.new }
        ensures rule { is_start_kind tag.now.kind ≡ true →
            ProcessesTagInHtml InFrameset name tag.now self.old self.new result }
    {
        match name {
            Name::Html => self.add_html_attrs(tag),
            Name::Frameset => self.insert_done(name, tag),
            Name::Frame => self.insert_void(name, tag),
            Name::Noframes => self.head_element(name, tag),
            _ => Next::Done,
        }
    }

    /// Pops a frameset at its end tag, but the outermost element stays.
    fn end_frameset(&mut self) -> Next
        ensures next { result ≡ IsDone }
        ensures limits { RemembersLimits self.old self.new }
        ensures rule { WithinLimits self.new → (b : Building) → HasHtml b →
            Constructs self.old b → Constructs self.new (frameset_ended b) }
    {
        if self.tree.open().len() <= 1 {
            return Next::Done;
        }
        self.tree.pop();
        self.leave_framesets()
    }

    /// Switches the mode if no frameset is left, unless a fragment is parsed.
    fn leave_framesets(&mut self) -> Next
        ensures next { result ≡ IsDone }
        ensures limits { RemembersLimits self.old self.new }
        ensures rule { (b : Building) → Constructs self.old b →
            Constructs self.new (framesets_left b) }
    {
        if self.tree.is_fragment() {
            return Next::Done;
        }
        if self.tree.open().current_is(Name::Frameset) {
            return Next::Done;
        }
        self.done_in(Mode::AfterFrameset)
    }

    pub fn after_frameset_tag(&mut self, name: Name, tag: &Tag) -> Next
        ensures limits { RemembersLimits self.old self.new }
        ensures rule { ProcessesTagInHtml AfterFrameset name tag.now self.old self.new result }
    {
        if is_start(tag) {
            return self.start_after_framesets(name, tag);
        }
        if name == Name::Html {
            return self.done_in(Mode::AfterAfterFrameset);
        }
        Next::Done
    }

    pub fn after_after_frameset_tag(&mut self, name: Name, tag: &Tag) -> Next
        ensures limits { RemembersLimits self.old self.new }
        ensures rule { ProcessesTagInHtml AfterAfterFrameset name tag.now
            self.old self.new result }
    {
        if is_start(tag) {
            return self.start_after_framesets(name, tag);
        }
        Next::Done
    }

    /// Processes a start tag after the framesets.
    fn start_after_framesets(&mut self, name: Name, tag: &Tag) -> Next
        ensures limits { RemembersLimits self.old self.new }
        ensures rule { (mode : StandardMode) → is_behind_framesets mode ≡ true →
            is_start_kind tag.now.kind ≡ true →
            ProcessesTagInHtml mode name tag.now self.old self.new result }
    {
        match name {
            Name::Html => self.add_html_attrs(tag),
            Name::Noframes => self.head_element(name, tag),
            _ => Next::Done,
        }
    }
}
