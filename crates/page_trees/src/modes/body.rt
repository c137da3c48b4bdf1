//! Start tags by the rules for "in body" (13.2.6.4.7).

ghost use Rattle.std.specs.Prelude.{◌≡◌, [], ◌∷◌, IfSome, codes, false, true};
ghost use Rattle.standard_trees.specs.NameLists.{headings};
ghost use Rattle.standard_trees.specs.RuleWords.{CloseItems, CloseP, CurrentNode, FramesetNotOk};
ghost use Rattle.standard_trees.specs.RuleWords.{InBody, InTable, InsertElement, ListElement};
ghost use Rattle.standard_trees.specs.RuleWords.{PlainText, Pop, Quirks, RcdataText};
ghost use Rattle.standard_trees.specs.RuleWords.{ReconstructFormatting, SetFormPointer};
ghost use Rattle.standard_trees.specs.RuleWords.{SkipNextLineFeed, SwitchTo, TemplateOpen, These};
ghost use Rattle.standard_trees.specs.RuleWords.{TokenizerTo, does, is, isnt};
ghost use Rattle.page_trees.specs.BodyTags.{Acts, ActsFor, Begins, ChangesThen, Continues};
ghost use Rattle.page_trees.specs.BodyTags.{ActsWhere};
ghost use Rattle.page_trees.specs.BodyTags.{ProcessesInBody, implied_in, is_inline, is_phrase};
ghost use Rattle.page_trees.specs.BodyTags.{is_texty, only_if};
ghost use Rattle.page_trees.specs.Closing.{item_texts};
ghost use Rattle.page_trees.specs.Constructs.{Performs, PerformsFor, RemembersLimits};
ghost use Rattle.page_trees.specs.Groups.{closes_p, group_named, reconstructs, spoils_frameset};
ghost use Rattle.page_trees.specs.HeadSteps.{reading_text};
ghost use Rattle.page_trees.specs.Images.{FostersImage, StartsImage};
ghost use Rattle.page_trees.specs.Listing.{ProcessesStart, ProcessesStartWhere, StaysWhere};
ghost use Rattle.page_trees.specs.Listing.{closes_nobr, closing_nobr, dropping_a, drops_a};
ghost use Rattle.page_trees.specs.Listing.{is_formatting_name, lists_no_a, starts_a};
ghost use Rattle.page_trees.specs.Listing.{starts_nobr};
ghost use Rattle.page_trees.specs.Modes.{is_start_kind};
ghost use Rattle.page_trees.specs.Scopes.{is_name};
ghost use Rattle.page_trees.specs.Stands.{text_list};
ghost use Rattle.page_trees.specs.declared.builder.Next.TheVariants.{Done as IsDone};
ghost use Rattle.page_trees.specs.declared.name.Name.TheVariants.{A as TheA, Form as TheForm, Other};
ghost use Rattle.page_trees.specs.declared.name.Name.TheVariants.{Nobr as TheNobr};
ghost use Rattle.page_trees.specs.declared.name.Name.TheVariants.{Image as TheImage};
ghost use Rattle.page_trees.specs.declared.name.Name.TheVariants.{Table as TheTable};
ghost use Rattle.page_trees.specs.declared.modes.groups.Group.TheVariants.{Formatting as Plain};

use super::groups::{Group, group_of};
use super::is_start;
use crate::builder::{Mode, Next, TreeBuilder};
use crate::name::Name;
use crate::sets::Scope;
use crate::stack::ElementNamespace;
use dom_trees::quirks::QuirksMode;
use page_tokens::token::Tag;
use page_tokens::tokenizer::State;

impl TreeBuilder {
    pub fn body_tag(&mut self, name: Name, tag: &Tag) -> Next
        ensures rule { ProcessesInBody name tag.now self.old self.new result }
    {
        if is_start(tag) {
            self.body_start(name, tag)
        } else {
            self.body_end(name, tag)
        }
    }

    fn body_start(&mut self, name: Name, tag: &Tag) -> Next
        ensures rule { is_start_kind tag.now.kind ≡ true →
            ProcessesInBody name tag.now self.old self.new result }
    {
        let group = group_of(name);
        self.before_start(group);
        self.start_block(group, name, tag)
    }

    /// Does what comes before the element is made, for each start tag of a group.
    fn before_start(&mut self, group: Group)
        ensures limits { RemembersLimits self.old self.new }
        ensures rule { Begins group self.old self.new }
    {
        self.end_paragraph_for(group);
        self.reconstruct_for(group);
        self.fill_body_for(group);
    }

    fn end_paragraph_for(&mut self, group: Group)
        ensures limits { RemembersLimits self.old self.new }
        ensures rule { Performs (only_if (closes_p group) CloseP) self.old self.new }
    {
        if group.ends_paragraph() {
            self.end_paragraph();
        }
    }

    /// Closes a `p` in button scope, if there is one.
    pub fn end_paragraph(&mut self)
        ensures limits { RemembersLimits self.old self.new }
        ensures rule { Performs (CloseP ∷ []) self.old self.new }
    {
        self.tree.close(Name::P, Scope::Button);
    }

    fn reconstruct_for(&mut self, group: Group)
        ensures limits { RemembersLimits self.old self.new }
        ensures rule { let action = ReconstructFormatting in
            Performs (only_if (reconstructs group) action) self.old self.new }
    {
        if group.continues_formatting() {
            self.reconstruct();
        }
    }

    fn fill_body_for(&mut self, group: Group)
        ensures limits { RemembersLimits self.old self.new }
        ensures rule { Performs (only_if (spoils_frameset group) FramesetNotOk) self.old self.new }
    {
        if group.fills_body() {
            self.frameset_ok = false;
        }
    }

    /// Processes the start tag of an element of that group, after `before_start`.
    fn start_block(&mut self, group: Group, name: Name, tag: &Tag) -> Next
        ensures rule { Continues group name tag.now self.old self.new result }
    {
        match group {
            Group::Block | Group::P => self.insert_done(name, tag),
            Group::Html => self.add_html_attrs(tag),
            Group::Body => self.start_body(tag),
            Group::Frameset => self.start_frameset(tag),
            Group::Heading => self.start_heading(name, tag),
            Group::Pre => self.start_pre(name, tag),
            Group::Form => self.start_form(tag),
            Group::Li | Group::Description => self.start_item(name, tag),
            Group::Button => self.start_button(tag),
            _ => self.start_phrase(group, name, tag),
        }
    }

    /// Processes the start tag of an element of the head, or of a formatting element, or another.
    fn start_phrase(&mut self, group: Group, name: Name, tag: &Tag) -> Next
        ensures rule { is_phrase group ≡ true →
            Continues group name tag.now self.old self.new result }
    {
        match group {
            Group::Metadata | Group::Template => self.head_element(name, tag),
            Group::A => self.start_a(tag),
            Group::Formatting => self.start_formatting(name, tag),
            Group::Nobr => self.start_nobr(tag),
            Group::Math => self.insert_foreign(ElementNamespace::MathMl, name, tag),
            Group::Svg => self.insert_foreign(ElementNamespace::Svg, name, tag),
            _ => self.start_inline(group, name, tag),
        }
    }

    fn start_inline(&mut self, group: Group, name: Name, tag: &Tag) -> Next
        ensures rule { is_inline group ≡ true →
            Continues group name tag.now self.old self.new result }
    {
        match group {
            Group::Stray => Next::Done,
            Group::Object => self.insert_marked(name, tag),
            Group::Table => self.start_table(tag),
            Group::Void | Group::Param => self.insert_void(name, tag),
            Group::Hr => self.start_hr(tag),
            Group::Image => self.start_image(tag),
            Group::Input => self.start_input(tag),
            Group::Select => self.start_select(tag),
            Group::Optgroup => self.start_option(name, tag, None),
            Group::Option => self.start_option(name, tag, Some(Name::Optgroup)),
            Group::RubyBase => self.start_ruby(name, tag, None),
            Group::RubyText => self.start_ruby(name, tag, Some(Name::Rtc)),
            _ => self.start_text(group, name, tag),
        }
    }

    /// Inserts an `img` for the start tag of an `image`.
    fn start_image(&mut self, tag: &Tag) -> Next
        ensures limits { RemembersLimits self.old self.new }
        ensures rule { Continues Group.Image TheImage tag.now self.old self.new result }
        ensures image { StartsImage tag.now self.old self.new }
    {
        self.insert(Name::Img, tag);
        self.tree.pop();
        Next::Done
    }

    /// Inserts an `img` in front of the table for the start tag of an `image` (foster parenting).
    pub fn fostered_image(&mut self, tag: &Tag) -> Next
        ensures next { result ≡ IsDone }
        ensures rule { FostersImage tag.now self.old self.new }
    {
        self.placing.foster = true;
        self.before_start(Group::Image);
        self.start_image(tag);
        self.placing.foster = false;
        Next::Done
    }

    /// Processes start tags of elements whose content is text, and those that no rule names.
    fn start_text(&mut self, group: Group, name: Name, tag: &Tag) -> Next
        ensures rule { is_texty group ≡ true →
            Continues group name tag.now self.old self.new result }
    {
        match group {
            Group::Plaintext => self.start_plaintext(name, tag),
            Group::Textarea => self.start_textarea(name, tag),
            Group::Xmp | Group::Iframe | Group::Noembed => {
                self.insert_text_element(name, tag, State::Rawtext)
            }
            Group::Noscript => self.start_noscript(name, tag),
            _ => self.insert_inline(name, tag),
        }
    }

    fn start_plaintext(&mut self, name: Name, tag: &Tag) -> Next
        ensures next { result ≡ IsDone }
        ensures limits { RemembersLimits self.old self.new }
        ensures rule { let insert = TokenizerTo PlainText ∷ InsertElement ∷ [] in
            PerformsFor name tag.now insert self.old self.new }
    {
        self.switch = Some(State::Plaintext);
        self.insert_done(name, tag)
    }

    fn start_textarea(&mut self, name: Name, tag: &Tag) -> Next
        ensures next { result ≡ IsDone }
        ensures limits { RemembersLimits self.old self.new }
        ensures rule { let insert = SkipNextLineFeed ∷ InsertElement ∷ reading_text RcdataText in
            PerformsFor name tag.now insert self.old self.new }
    {
        self.skip_line_feed = true;
        self.insert_text_element(name, tag, State::Rcdata)
    }

    fn start_noscript(&mut self, name: Name, tag: &Tag) -> Next
        ensures limits { RemembersLimits self.old self.new }
        ensures rule { Continues Group.Noscript name tag.now self.old self.new result }
    {
        if self.scripting {
            return self.insert_text_element(name, tag, State::Rawtext);
        }
        self.insert_inline(name, tag)
    }

    fn start_pre(&mut self, name: Name, tag: &Tag) -> Next
        ensures next { result ≡ IsDone }
        ensures limits { RemembersLimits self.old self.new }
        ensures rule { let insert = SkipNextLineFeed ∷ InsertElement ∷ [] in
            PerformsFor name tag.now insert self.old self.new }
    {
        self.skip_line_feed = true;
        self.insert_done(name, tag)
    }

    /// Adds the attributes of a later start tag `body` to the element.
    fn start_body(&mut self, tag: &Tag) -> Next
        ensures rule { Continues Group.Body Name.Body tag.now self.old self.new result }
    {
        if !self.tree.open().has_body() {
            return Next::Done;
        }
        if self.tree.open().has(Name::Template) {
            return Next::Done;
        }
        self.frameset_ok = false;
        self.add_attrs(1, tag);
        Next::Done
    }

    /// Inserts a frameset in place of the body.
    fn start_frameset(&mut self, tag: &Tag) -> Next
        ensures rule { Continues Group.Frameset Name.Frameset tag.now self.old self.new result }
    {
        if !self.tree.open().has_body() {
            return Next::Done;
        }
        if !self.frameset_ok {
            return Next::Done;
        }
        self.tree.cut_out(1);
        self.tree.truncate(1);
        self.insert_then(Name::Frameset, tag, Mode::InFrameset)
    }

    fn start_heading(&mut self, name: Name, tag: &Tag) -> Next
        ensures next { result ≡ IsDone }
        ensures limits { RemembersLimits self.old self.new }
        ensures rule { let pop = does Pop (is (CurrentNode (These headings)) ∷ []) in
            ActsFor name tag.now (pop ∷ does InsertElement [] ∷ []) self.old self.new }
    {
        self.tree.pop_heading();
        self.insert_done(name, tag)
    }

    fn start_form(&mut self, tag: &Tag) -> Next
        ensures limits { RemembersLimits self.old self.new }
        ensures rule { Continues Group.Form TheForm tag.now self.old self.new result }
    {
        if self.tree.is_in_form() {
            return Next::Done;
        }
        self.end_paragraph();
        self.insert_form(tag)
    }

    /// Inserts a form, and sets the form element pointer to it, unless a template is open.
    fn insert_form(&mut self, tag: &Tag) -> Next
        ensures next { result ≡ IsDone }
        ensures limits { RemembersLimits self.old self.new }
        ensures rule { let set = does SetFormPointer (isnt TemplateOpen ∷ []) in
            ActsFor TheForm tag.now (does InsertElement [] ∷ set ∷ []) self.old self.new }
    {
        self.insert(Name::Form, tag);
        if !self.tree.open().has(Name::Template) {
            self.tree.set_form();
        }
        Next::Done
    }

    /// Inserts a list item, and closes the item before it.
    fn start_item(&mut self, name: Name, tag: &Tag) -> Next
        ensures next { result ≡ IsDone }
        ensures limits { RemembersLimits self.old self.new }
        ensures rule { let rest = CloseP ∷ InsertElement ∷ [] in
            PerformsFor name tag.now (CloseItems (item_texts name) ∷ rest) self.old self.new }
    {
        self.tree.close_item(name);
        self.end_paragraph();
        self.insert_done(name, tag)
    }

    fn start_button(&mut self, tag: &Tag) -> Next
        ensures limits { RemembersLimits self.old self.new }
        ensures rule { Continues Group.Button Name.Button tag.now self.old self.new result }
    {
        self.tree.close(Name::Button, Scope::Default);
        self.insert_inline(Name::Button, tag)
    }

    fn start_a(&mut self, tag: &Tag) -> Next
        ensures next { result ≡ IsDone }
        ensures limits { RemembersLimits self.old self.new }
        ensures rule { ProcessesStartWhere starts_a InBody TheA tag.now self.old self.new result }
    {
        self.drop_a(tag);
        self.start_listed(Name::A, tag)
    }

    /// Closes an `a` that is in the list of active formatting elements.
    fn drop_a(&mut self, tag: &Tag)
        ensures limits { RemembersLimits self.old self.new }
        ensures none { StaysWhere lists_no_a self.old self.new }
        ensures rule { ActsWhere drops_a TheA tag.now dropping_a self.old self.new }
    {
        if let Some(open) = self.tree.formatting_named(Name::A) {
            self.adopt(Name::A, tag);
            self.tree.remove_formatting(open.id);
            self.tree.remove(&open);
        }
    }

    fn start_nobr(&mut self, tag: &Tag) -> Next
        ensures next { result ≡ IsDone }
        ensures limits { RemembersLimits self.old self.new }
        ensures rule { let test = starts_nobr in
            ProcessesStartWhere test InBody TheNobr tag.now self.old self.new result }
    {
        self.reconstruct();
        self.close_nobr(tag);
        self.start_listed(Name::Nobr, tag)
    }

    /// Closes a `nobr` that is in scope.
    fn close_nobr(&mut self, tag: &Tag)
        ensures limits { RemembersLimits self.old self.new }
        ensures rule { ActsWhere closes_nobr TheNobr tag.now closing_nobr self.old self.new }
    {
        if self.tree.open().in_scope(Name::Nobr, Scope::Default) {
            self.adopt(Name::Nobr, tag);
        }
    }

    /// Reconstructs the active formatting elements, and then inserts an element and appends it to
    /// their list.
    fn start_listed(&mut self, name: Name, tag: &Tag) -> Next
        ensures next { result ≡ IsDone }
        ensures limits { RemembersLimits self.old self.new }
        ensures rule { let list = ReconstructFormatting ∷ InsertElement ∷ ListElement ∷ [] in
            is_formatting_name name ≡ true →
            PerformsFor name tag.now list self.old self.new }
    {
        self.insert_inline(name, tag);
        let pushed = self.tree.push_formatting();
        self.keep(pushed);
        Next::Done
    }

    fn start_formatting(&mut self, name: Name, tag: &Tag) -> Next
        ensures next { result ≡ IsDone }
        ensures limits { RemembersLimits self.old self.new }
        ensures rule { group_named name ≡ Plain →
            ProcessesStart InBody name tag.now self.old self.new result }
    {
        self.start_listed(name, tag)
    }

    fn start_table(&mut self, tag: &Tag) -> Next
        ensures next { result ≡ IsDone }
        ensures limits { RemembersLimits self.old self.new }
        ensures rule { let close = does CloseP (isnt Quirks ∷ []) in
            let rest = does InsertElement [] ∷ does (SwitchTo InTable) [] ∷ [] in
            ActsFor TheTable tag.now (close ∷ rest) self.old self.new }
    {
        self.end_paragraph_before_table();
        self.insert_then(Name::Table, tag, Mode::InTable)
    }

    /// Closes a `p` in button scope, unless the document is in quirks mode.
    fn end_paragraph_before_table(&mut self)
        ensures limits { RemembersLimits self.old self.new }
        ensures rule { Acts (does CloseP (isnt Quirks ∷ []) ∷ []) self.old self.new }
    {
        match self.quirks {
            QuirksMode::Quirks => {}
            _ => self.end_paragraph(),
        }
    }

    fn start_ruby(&mut self, name: Name, tag: &Tag, except: Option<Name>) -> Next
        ensures next { result ≡ IsDone }
        ensures limits { RemembersLimits self.old self.new }
        ensures rule { let imply = implied_in (codes "ruby" ∷ []) (text_list except) in
            IfSome except (λ one. is_name one Other ≡ false) →
            ChangesThen imply (InsertElement ∷ []) name tag.now self.old self.new }
    {
        self.imply_ends_in(Name::Ruby, except);
        self.insert_done(name, tag)
    }
}
