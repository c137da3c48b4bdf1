//! Start tags of `select` and of what closes elements in it, by the rules for "in body"
//! (13.2.6.4.7).

ghost use Rattle.std.specs.Prelude.{◌≡◌, [], ◌∷◌, IfSome, codes, false};
ghost use Rattle.standard_trees.specs.GrowingTree.{has_in_scope};
ghost use Rattle.standard_trees.specs.RuleWords.{AttributeTypeHidden, FramesetNotOk};
ghost use Rattle.standard_trees.specs.RuleWords.{InsertElement, Pop, ReconstructFormatting};
ghost use Rattle.standard_trees.specs.RuleWords.{Scope as DefaultScope, does, isnt};
ghost use Rattle.page_trees.specs.BodyTags.{ActsFor, ChangesThen, ChangesTree, Continues};
ghost use Rattle.page_trees.specs.BodyTags.{implied_in, option_ended};
ghost use Rattle.page_trees.specs.Constructs.{PerformsFor, RemembersLimits};
ghost use Rattle.page_trees.specs.Names.{text_of};
ghost use Rattle.page_trees.specs.Scopes.{is_name};
ghost use Rattle.page_trees.specs.Stands.{Tells, closed_in, text_list};
ghost use Rattle.page_trees.specs.declared.builder.Next.TheVariants.{Done as IsDone};
ghost use Rattle.page_trees.specs.declared.modes.groups.Group.{Group};
ghost use Rattle.page_trees.specs.declared.name.Name.TheVariants.{Hr as TheHr, Input as TheInput};
ghost use Rattle.page_trees.specs.declared.name.Name.TheVariants.{Other, Select as TheSelect};

use crate::attributes::is_hidden;
use crate::builder::{Next, TreeBuilder};
use crate::name::Name;
use crate::sets::Scope;
use page_tokens::token::Tag;

impl TreeBuilder {
    /// Inserts a `select`; where one is in scope, closes that one and ignores the tag.
    pub fn start_select(&mut self, tag: &Tag) -> Next
        ensures limits { RemembersLimits self.old self.new }
        ensures rule { Continues Group.Select TheSelect tag.now self.old self.new result }
    {
        if self.tree.is_context(Name::Select) {
            return Next::Done;
        }
        if self.close_select() {
            return Next::Done;
        }
        self.frameset_ok = false;
        self.insert_inline(Name::Select, tag)
    }

    /// Inserts an `input`, and closes the `select` in scope before it.
    pub fn start_input(&mut self, tag: &Tag) -> Next
        ensures limits { RemembersLimits self.old self.new }
        ensures rule { Continues Group.Input TheInput tag.now self.old self.new result }
    {
        if self.tree.is_context(Name::Select) {
            return Next::Done;
        }
        self.close_select();
        self.fill_body_with_input(tag);
        self.insert_input(tag)
    }

    /// Sets the frameset-ok flag to "not ok", unless the `input` is hidden.
    fn fill_body_with_input(&mut self, tag: &Tag)
        ensures limits { RemembersLimits self.old self.new }
        ensures rule { let set = does FramesetNotOk (isnt AttributeTypeHidden ∷ []) in
            ActsFor TheInput tag.now (set ∷ []) self.old self.new }
    {
        if !is_hidden(tag) {
            self.frameset_ok = false;
        }
    }

    /// Reconstructs the active formatting elements, and then inserts an `input`, which is closed at
    /// once.
    fn insert_input(&mut self, tag: &Tag) -> Next
        ensures next { result ≡ IsDone }
        ensures limits { RemembersLimits self.old self.new }
        ensures rule { let insert = ReconstructFormatting ∷ InsertElement ∷ Pop ∷ [] in
            PerformsFor TheInput tag.now insert self.old self.new }
    {
        self.reconstruct();
        self.insert_void(Name::Input, tag)
    }

    /// Inserts an `option` or an `optgroup`, and closes the `option` before it.
    pub fn start_option(&mut self, name: Name, tag: &Tag, except: Option<Name>) -> Next
        ensures next { result ≡ IsDone }
        ensures limits { RemembersLimits self.old self.new }
        ensures rule { let end = option_ended (text_list except) in
            let insert = ReconstructFormatting ∷ InsertElement ∷ [] in
            IfSome except (λ one. is_name one Other ≡ false) →
            ChangesThen end insert name tag.now self.old self.new }
    {
        self.end_option(except);
        self.insert_inline(name, tag)
    }

    fn end_option(&mut self, except: Option<Name>)
        ensures limits { RemembersLimits self.old self.new }
        ensures rule { IfSome except (λ one. is_name one Other ≡ false) →
            ChangesTree (option_ended (text_list except)) self.old self.new }
    {
        if !self.imply_ends_in(Name::Select, except) {
            self.tree.pop_if(Name::Option);
        }
    }

    pub fn start_hr(&mut self, tag: &Tag) -> Next
        ensures next { result ≡ IsDone }
        ensures limits { RemembersLimits self.old self.new }
        ensures rule { let imply = implied_in (codes "select" ∷ []) [] in
            let insert = InsertElement ∷ Pop ∷ [] in
            ChangesThen imply insert TheHr tag.now self.old self.new }
    {
        self.imply_ends_in(Name::Select, None);
        self.insert_void(Name::Hr, tag)
    }

    /// If a `select` is in scope, pops elements up to and including it. Returns whether one was.
    fn close_select(&mut self) -> bool
        ensures limits { RemembersLimits self.old self.new }
        ensures found { let select = codes "select" ∷ [] in
            Tells (has_in_scope DefaultScope select) self.old.tree result }
        ensures rule { let select = codes "select" ∷ [] in
            ChangesTree (closed_in DefaultScope select) self.old self.new }
    {
        self.tree.close(Name::Select, Scope::Default)
    }

    /// If an element with that name is in scope, generates implied end tags, except for elements
    /// with the other name. Returns whether one is.
    pub fn imply_ends_in(&mut self, outer: Name, except: Option<Name>) -> bool
        ensures limits { RemembersLimits self.old self.new }
        ensures found { is_name outer Other ≡ false →
            Tells (has_in_scope DefaultScope (text_of outer ∷ [])) self.old.tree result }
        ensures kept { result ≡ false → self.new ≡ self.old }
        ensures rule { let imply = implied_in (text_of outer ∷ []) (text_list except) in
            is_name outer Other ≡ false → IfSome except (λ one. is_name one Other ≡ false) →
            ChangesTree imply self.old self.new }
    {
        if !self.tree.open().in_scope(outer, Scope::Default) {
            return false;
        }
        self.tree.generate_implied_end_tags(except);
        true
    }
}
