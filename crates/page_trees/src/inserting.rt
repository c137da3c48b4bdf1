//! Inserting nodes at the appropriate place. A failed edit is stored as the builder's fault.

ghost use Rattle.std.specs.Prelude.{◌≡◌, ◌<◌, [], ◌∷◌, List, encode_utf8_all, false, length};
ghost use Rattle.std.specs.Prelude.{true, ℕ};
ghost use Rattle.standard_tokens.specs.Tokens.{AComment};
ghost use Rattle.standard_trees.specs.RuleWords.{InsertComment, InsertCommentInDocument};
ghost use Rattle.standard_trees.specs.RuleWords.{InsertElement, InsertRootElement, ListMarker};
ghost use Rattle.standard_trees.specs.RuleWords.{Pop, ReconstructFormatting, SwitchTo};
ghost use Rattle.standard_trees.specs.TreeStore.{EndOf};
ghost use Rattle.page_trees.specs.CharacterSteps.{Inserts};
ghost use Rattle.page_trees.specs.Constructs.{Performs, PerformsFor};
ghost use Rattle.page_trees.specs.Constructs.{RemembersLimits, implying, is_entered_plainly};
ghost use Rattle.page_trees.specs.ForeignSteps.{InsertsForeign};
ghost use Rattle.page_trees.specs.HeadSteps.{place_in_head};
ghost use Rattle.page_trees.specs.LateMerges.{MergesTagInto, id_at};
ghost use Rattle.page_trees.specs.Listing.{AdoptsFor};
ghost use Rattle.page_trees.specs.Modes.{mode_of};
ghost use Rattle.page_trees.specs.Names.{text_of};
ghost use Rattle.page_trees.specs.Scopes.{is_name};
ghost use Rattle.page_trees.specs.TagInsertions.{InsertsTag, InsertsTagAt};
ghost use Rattle.page_trees.specs.TokenSteps.{PerformsOn, PutsInHtml};
ghost use Rattle.page_trees.specs.declared.builder.Next.TheVariants.{Again, Done as IsDone};
ghost use Rattle.page_trees.specs.declared.name.Name.TheVariants.{Html as HtmlName, Other};
ghost use Rattle.page_trees.specs.declared.stack.ElementNamespace.TheVariants.{Html as HtmlSpace};

use crate::builder::{Mode, Next, TreeBuilder};
use crate::fault::PageFault;
use crate::growing::Placing;
use crate::name::Name;
use crate::stack::ElementNamespace;
use page_tokens::token::{Tag, TagKind};

impl TreeBuilder {
    /// Inserts an HTML element for a tag: makes it, inserts it at the appropriate place, and pushes
    /// it onto the stack of open elements.
    pub fn insert(&mut self, name: Name, tag: &Tag)
        ensures limits { RemembersLimits self.old self.new }
        ensures element { InsertsTag HtmlSpace name tag.now self.old self.new }
        ensures rule { PerformsFor name tag.now (InsertElement ∷ []) self.old self.new }
    {
        self.insert_in(ElementNamespace::Html, name, tag);
    }

    /// Inserts an element of any namespace for a tag, like `insert`.
    fn insert_in(&mut self, ns: ElementNamespace, name: Name, tag: &Tag)
        ensures limits { RemembersLimits self.old self.new }
        ensures rule { InsertsTag ns name tag.now self.old self.new }
    {
        let inserted = self.tree.insert(self.placing, ns, name, tag);
        self.keep(inserted);
        self.note_depth();
    }

    /// Inserts an HTML element for a tag into the head, which is closed already, and pushes it onto
    /// the stack of open elements. Where no head was opened, its place is the appropriate one.
    pub fn insert_into_head(&mut self, name: Name, tag: &Tag)
        ensures limits { RemembersLimits self.old self.new }
        ensures rule { InsertsTagAt place_in_head HtmlSpace name tag.now self.old self.new }
    {
        let placing = Placing {
            in_head: true,
            ..self.placing
        };
        let inserted = self.tree.insert(placing, ElementNamespace::Html, name, tag);
        self.keep(inserted);
        self.note_depth();
    }

    /// Inserts the element `html` below the root, and pushes it onto the stack of open elements.
    pub fn insert_html(&mut self, tag: &Tag)
        ensures limits { RemembersLimits self.old self.new }
        ensures element { InsertsTagAt (λ t. EndOf 0) HtmlSpace HtmlName tag.now self.old self.new }
        ensures rule { PerformsFor HtmlName tag.now (InsertRootElement ∷ []) self.old self.new }
    {
        let inserted = self.tree.insert_html(tag);
        self.keep(inserted);
        self.note_depth();
    }

    /// Inserts an element that has no tag in the source.
    pub fn insert_implied(&mut self, name: Name, written: &str)
        requires { 0 < length written.now }
        ensures limits { RemembersLimits self.old self.new }
        ensures rule { written.now ≡ text_of name →
            Performs (implying name ∷ []) self.old self.new }
    {
        match Tag::new(self.alloc, TagKind::Start, written) {
            Ok(tag) if name == Name::Html => self.insert_html(&tag),
            Ok(tag) => self.insert(name, &tag),
            Err(_) => self.keep(Err(PageFault::Memory)),
        }
    }

    /// Inserts an element; the tag is then processed.
    pub fn insert_done(&mut self, name: Name, tag: &Tag) -> Next
        ensures next { result ≡ IsDone }
        ensures limits { RemembersLimits self.old self.new }
        ensures rule { PerformsFor name tag.now (InsertElement ∷ []) self.old self.new }
    {
        self.insert(name, tag);
        Next::Done
    }

    /// Inserts an element and switches to the mode for its content.
    pub fn insert_then(&mut self, name: Name, tag: &Tag, mode: Mode) -> Next
        ensures next { result ≡ IsDone }
        ensures limits { RemembersLimits self.old self.new }
        ensures rule { let switch = SwitchTo (mode_of mode) in
            is_entered_plainly mode ≡ true →
            PerformsFor name tag.now (InsertElement ∷ switch ∷ []) self.old self.new }
    {
        self.insert(name, tag);
        self.done_in(mode)
    }

    /// Inserts an element that has no tag in the source, and reprocesses the token in that mode.
    pub fn imply(&mut self, name: Name, written: &str, mode: Mode) -> Next
        requires { 0 < length written.now }
        ensures next { result ≡ Again }
        ensures limits { RemembersLimits self.old self.new }
        ensures rule { let switch = SwitchTo (mode_of mode) in
            is_entered_plainly mode ≡ true → written.now ≡ text_of name →
            Performs (implying name ∷ switch ∷ []) self.old self.new }
    {
        self.insert_implied(name, written);
        self.again_in(mode)
    }

    /// Inserts a void element, which is closed at once.
    pub fn insert_void(&mut self, name: Name, tag: &Tag) -> Next
        ensures next { result ≡ IsDone }
        ensures limits { RemembersLimits self.old self.new }
        ensures rule { PerformsFor name tag.now (InsertElement ∷ Pop ∷ []) self.old self.new }
    {
        self.insert(name, tag);
        self.tree.pop();
        Next::Done
    }

    /// Inserts a foreign element, which is closed at once if its tag is self-closing.
    pub fn insert_foreign(&mut self, ns: ElementNamespace, name: Name, tag: &Tag) -> Next
        ensures next { result ≡ IsDone }
        ensures limits { RemembersLimits self.old self.new }
        ensures rule { InsertsForeign ns name tag.now self.old self.new }
    {
        self.insert_in(ns, name, tag);
        if tag.self_closing {
            self.tree.pop();
        }
        Next::Done
    }

    /// Reconstructs the active formatting elements, and then inserts an element.
    pub fn insert_inline(&mut self, name: Name, tag: &Tag) -> Next
        ensures next { result ≡ IsDone }
        ensures limits { RemembersLimits self.old self.new }
        ensures rule { let insert = ReconstructFormatting ∷ InsertElement ∷ [] in
            PerformsFor name tag.now insert self.old self.new }
    {
        self.reconstruct();
        self.insert_done(name, tag)
    }

    /// Inserts an element, and appends a marker to the list of active formatting elements.
    pub fn insert_marked(&mut self, name: Name, tag: &Tag) -> Next
        ensures next { result ≡ IsDone }
        ensures limits { RemembersLimits self.old self.new }
        ensures rule { PerformsFor name tag.now (InsertElement ∷ ListMarker ∷ []) self.old self.new }
    {
        self.insert(name, tag);
        self.push_marker();
        Next::Done
    }

    /// Inserts characters.
    pub fn put_text(&mut self, text: &str)
        ensures limits { RemembersLimits self.old self.new }
        ensures rule { (c : ℕ) (cs : List ℕ) → text.now ≡ encode_utf8_all (c ∷ cs) →
            Inserts (c ∷ cs) self.old self.new }
    {
        let put = self.tree.put_text(self.placing, text);
        self.keep(put);
    }

    /// Inserts a comment at the appropriate place.
    pub fn put_comment(&mut self, text: &str)
        ensures limits { RemembersLimits self.old self.new }
        ensures rule { (cs : List ℕ) → text.now ≡ encode_utf8_all cs →
            PerformsOn (AComment cs) (InsertComment ∷ []) self.old self.new }
    {
        let put = self.tree.put_comment(self.placing, text);
        self.keep(put);
    }

    /// Inserts a comment as the last child of the document.
    pub fn put_comment_at_top(&mut self, text: &str)
        ensures limits { RemembersLimits self.old self.new }
        ensures rule { (cs : List ℕ) → text.now ≡ encode_utf8_all cs →
            PerformsOn (AComment cs) (InsertCommentInDocument ∷ []) self.old self.new }
    {
        let put = self.tree.put_comment_at_top(text);
        self.keep(put);
    }

    /// Inserts a comment as the last child of the outermost element.
    pub fn put_comment_in_html(&mut self, text: &str)
        ensures limits { RemembersLimits self.old self.new }
        ensures rule { (cs : List ℕ) → text.now ≡ encode_utf8_all cs →
            PutsInHtml cs self.old self.new }
    {
        let put = self.tree.put_comment_in_html(text);
        self.keep(put);
    }

    /// Adds to the element at an index of the stack those of a tag's attributes whose names it
    /// doesn't have yet.
    pub fn add_attrs(&mut self, place: usize, tag: &Tag)
        ensures limits { RemembersLimits self.old self.new }
        ensures rule { let element = id_at self.old.tree.stack place in
            MergesTagInto element tag.now self.old self.new }
    {
        let added = self.tree.add_attrs(place, tag);
        self.keep(added);
    }

    /// Appends a marker to the list of active formatting elements.
    pub fn push_marker(&mut self)
        ensures limits { RemembersLimits self.old self.new }
        ensures rule { Performs (ListMarker ∷ []) self.old self.new }
    {
        let pushed = self.tree.push_marker();
        self.keep(pushed);
    }

    /// Reconstructs the active formatting elements: inserts copies of those that are not open.
    pub fn reconstruct(&mut self)
        ensures limits { RemembersLimits self.old self.new }
        ensures rule { Performs (ReconstructFormatting ∷ []) self.old self.new }
    {
        let opened = self.tree.reconstruct(self.placing);
        self.keep(opened);
        self.note_depth();
    }

    /// Runs the adoption agency algorithm for a tag. If no element with its name is in the list,
    /// the tag, even a start tag, is processed like any other end tag.
    pub fn adopt(&mut self, name: Name, tag: &Tag)
        ensures limits { RemembersLimits self.old self.new }
        ensures rule { is_name name Other ≡ false → AdoptsFor name self.old self.new }
    {
        match self.tree.adopt(name, self.placing.foster) {
            Ok(true) => {}
            Ok(false) => self.tree.close_named(name, tag.name.as_str()),
            Err(fault) => self.keep(Err(fault)),
        }
    }
}
