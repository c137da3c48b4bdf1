//! End tags by the rules for "in body" (13.2.6.4.7).

ghost use Rattle.std.specs.Prelude.{◌≡◌, [], ◌∷◌, codes, false, true};
ghost use Rattle.standard_trees.specs.NameLists.{headings};
ghost use Rattle.standard_trees.specs.RuleWords.{CloseP, FramesetNotOk, InBody, InsertNamed, Pop};
ghost use Rattle.standard_trees.specs.RuleWords.{ReconstructFormatting, Scope as DefaultScope};
ghost use Rattle.standard_trees.specs.RuleWords.{does};
ghost use Rattle.page_tokens.specs.declared.token.Tag.{Tag as TheTag};
ghost use Rattle.page_trees.specs.BodyTags.{Acts, ChangesTree, EndsInBody, ends_otherwise};
ghost use Rattle.page_trees.specs.BodyTags.{closed_to_marker, implying_p};
ghost use Rattle.page_trees.specs.Constructs.{Performs, RemembersLimits};
ghost use Rattle.page_trees.specs.Groups.{group_named};
ghost use Rattle.page_trees.specs.Listing.{ProcessesEndWhere, allows_agency, formats};
ghost use Rattle.page_trees.specs.Names.{text_of};
ghost use Rattle.page_trees.specs.Scopes.{is_name};
ghost use Rattle.page_trees.specs.Stands.{closed_in, scope_kind};
ghost use Rattle.page_trees.specs.declared.builder.Next.TheVariants.{Done as IsDone};
ghost use Rattle.page_trees.specs.declared.name.Name.TheVariants.{Body as BodyName};
ghost use Rattle.page_trees.specs.declared.name.Name.TheVariants.{Form as FormName};
ghost use Rattle.page_trees.specs.declared.name.Name.TheVariants.{Html as HtmlName, Other};

use super::groups::{Group, group_of};
use crate::builder::{Mode, Next, TreeBuilder};
use crate::name::Name;
use crate::sets::Scope;
use page_tokens::token::Tag;

impl TreeBuilder {
    pub fn body_end(&mut self, name: Name, tag: &Tag) -> Next
        ensures rule { EndsInBody name tag.now self.old self.new result }
    {
        match group_of(name) {
            Group::Template => self.end_template(),
            Group::Body => self.end_body(),
            Group::Html => self.end_html(),
            Group::Block | Group::Button | Group::Pre | Group::Select => self.end_in(
                Scope::Default,
                name,
            ),
            Group::Description => self.end_in(Scope::Default, name),
            Group::Form => self.end_form(),
            Group::P => self.end_p(),
            Group::Li => self.end_in(Scope::ListItem, name),
            Group::Heading => self.end_heading(),
            Group::A | Group::Formatting | Group::Nobr => self.end_formatting(name, tag),
            Group::Object => self.end_object(name),
            _ => self.end_other(name, tag),
        }
    }

    fn end_body(&mut self) -> Next
        ensures limits { RemembersLimits self.old self.new }
        ensures rule { (tag : TheTag) → EndsInBody BodyName tag self.old self.new result }
    {
        if self.tree.open().in_scope(Name::Body, Scope::Default) {
            return self.done_in(Mode::AfterBody);
        }
        Next::Done
    }

    fn end_formatting(&mut self, name: Name, tag: &Tag) -> Next
        ensures next { result ≡ IsDone }
        ensures limits { RemembersLimits self.old self.new }
        ensures rule { formats (group_named name) ≡ true →
            ProcessesEndWhere allows_agency InBody name tag.now self.old self.new result }
    {
        self.adopt(name, tag);
        Next::Done
    }

    fn end_html(&mut self) -> Next
        ensures limits { RemembersLimits self.old self.new }
        ensures rule { (tag : TheTag) → EndsInBody HtmlName tag self.old self.new result }
    {
        if self.tree.open().in_scope(Name::Body, Scope::Default) {
            return self.again_in(Mode::AfterBody);
        }
        Next::Done
    }

    fn end_in(&mut self, scope: Scope, name: Name) -> Next
        ensures next { result ≡ IsDone }
        ensures limits { RemembersLimits self.old self.new }
        ensures rule { let close = closed_in (scope_kind scope) (text_of name ∷ []) in
            is_name name Other ≡ false → ChangesTree close self.old self.new }
    {
        self.tree.close(name, scope);
        Next::Done
    }

    fn end_p(&mut self) -> Next
        ensures next { result ≡ IsDone }
        ensures limits { RemembersLimits self.old self.new }
        ensures rule { Acts (implying_p ∷ does CloseP [] ∷ []) self.old self.new }
    {
        self.imply_paragraph();
        self.end_paragraph();
        Next::Done
    }

    /// Inserts a `p` that has no start tag, if none is in button scope.
    fn imply_paragraph(&mut self)
        ensures limits { RemembersLimits self.old self.new }
        ensures rule { Acts (implying_p ∷ []) self.old self.new }
    {
        if !self.tree.open().in_scope(Name::P, Scope::Button) {
            self.insert_implied(Name::P, "p");
        }
    }

    fn end_heading(&mut self) -> Next
        ensures next { result ≡ IsDone }
        ensures limits { RemembersLimits self.old self.new }
        ensures rule { ChangesTree (closed_in DefaultScope headings) self.old self.new }
    {
        self.tree.close_heading();
        Next::Done
    }

    fn end_object(&mut self, name: Name) -> Next
        ensures next { result ≡ IsDone }
        ensures limits { RemembersLimits self.old self.new }
        ensures rule { let close = closed_to_marker (text_of name ∷ []) in
            is_name name Other ≡ false → ChangesTree close self.old self.new }
    {
        if self.tree.close(name, Scope::Default) {
            self.tree.clear_to_marker();
        }
        Next::Done
    }

    fn end_br(&mut self) -> Next
        ensures next { result ≡ IsDone }
        ensures limits { RemembersLimits self.old self.new }
        ensures rule { let made = InsertNamed (codes "br") ∷ Pop ∷ FramesetNotOk ∷ [] in
            Performs (ReconstructFormatting ∷ made) self.old self.new }
    {
        self.reconstruct();
        self.insert_implied(Name::Br, "br");
        self.tree.pop();
        self.frameset_ok = false;
        Next::Done
    }

    /// Processes any other end tag. `</br>` is treated as `<br>` without attributes.
    fn end_other(&mut self, name: Name, tag: &Tag) -> Next
        ensures limits { RemembersLimits self.old self.new }
        ensures rule { ends_otherwise (group_named name) ≡ true →
            EndsInBody name tag.now self.old self.new result }
    {
        if name == Name::Br {
            return self.end_br();
        }
        self.tree.close_named(name, tag.name.as_str());
        Next::Done
    }

    fn end_form(&mut self) -> Next
        ensures next { result ≡ IsDone }
        ensures limits { RemembersLimits self.old self.new }
        ensures rule { (tag : TheTag) → EndsInBody FormName tag self.old self.new result }
    {
        if self.tree.open().has(Name::Template) {
            return self.end_in(Scope::Default, Name::Form);
        }
        self.tree.end_form();
        Next::Done
    }
}
