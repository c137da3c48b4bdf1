//! The tree under construction, and the elements that tree construction keeps: the stack of open
//! elements, the list of active formatting elements, and the head and form element pointers. A call
//! that returns a `Result` fails only when memory or node ids run out.

ghost use Rattle.std.specs.Prelude.{◌≡◌, ◌<◌, ◌≤◌, ◌&&◌, ◌||◌, [], ◌∷◌, IfErr, IfOk, IfSome};
ghost use Rattle.std.specs.Prelude.{List, OnOk};
ghost use Rattle.std.specs.Prelude.{codes, encode_utf8_all, false, length, not, slice_get, true, ℕ};
ghost use Rattle.std.specs.Option.{is_some, option_and_then, option_map, option_map_or};
ghost use Rattle.dom_links.specs.Forest.{parent};
ghost use Rattle.dom_links.specs.Growth.{lone};
ghost use Rattle.dom_links.specs.Sound.{IsOpenGap};
ghost use Rattle.dom_nodes.specs.declared.node_data.NodeData.TheVariants.{Document as TheDocument};
ghost use Rattle.dom_nodes.specs.declared.node_data.NodeData.TheVariants.{Fragment as TheFragment};
ghost use Rattle.page_trees.specs.Contexts.{context_for, with_context, with_own_form};
ghost use Rattle.page_trees.specs.DocumentTrees.{IsTreeOf};
ghost use Rattle.page_trees.specs.Elements.{IsElement, IsRooted};
ghost use Rattle.page_trees.specs.FormEnds.{without_form};
ghost use Rattle.page_trees.specs.Formatting.{element_in};
ghost use Rattle.page_trees.specs.LateMerges.{CommentsInHtml, MergesInto, id_at, is_open};
ghost use Rattle.page_trees.specs.Listing.{FindsEntry, FindsListed};
ghost use Rattle.page_trees.specs.Modes.{points_nowhere};
ghost use Rattle.page_trees.specs.NameNumbers.{IsNumberFor};
ghost use Rattle.page_trees.specs.Names.{text_of};
ghost use Rattle.page_trees.specs.TextPlaces.{is_in_root, is_zero};
ghost use Rattle.page_trees.specs.Placing.{is_at_top};
ghost use Rattle.page_trees.specs.Quirks.{mode_of};
ghost use Rattle.page_trees.specs.Reopening.{Reopens};
ghost use Rattle.page_trees.specs.Scopes.{is_name};
ghost use Rattle.page_trees.specs.SearchIndex.{IsIndexed};
ghost use Rattle.page_trees.specs.SameNodes.{IsPointOf};
ghost use Rattle.page_trees.specs.Sets.{local_for, space_of};
ghost use Rattle.page_trees.specs.Stands.{AreParts, Builds, Does, DoesAtAnyDepth};
ghost use Rattle.page_trees.specs.Stands.{DoesIn};
ghost use Rattle.page_trees.specs.Stands.{IsCurrent, IsOfKind, IsTagOf, Tells, cut};
ghost use Rattle.page_trees.specs.Stands.{inserted_in, is_fragment, place_for, with_form};
ghost use Rattle.page_trees.specs.Stands.{with_form_of_context, with_head};
ghost use Rattle.page_trees.specs.TreeState.{adjusted_at, completed, fresh_state};
ghost use Rattle.page_trees.specs.declared.fault.PageFault.TheVariants.{Memory as NoMemory};
ghost use Rattle.page_trees.specs.declared.name.Name.TheVariants.{Other};
ghost use Rattle.standard_tokens.specs.Tokens.{Doctype};
ghost use Rattle.standard_trees.specs.Building.{Building, empty_tree, is_empty, is_present};
ghost use Rattle.standard_trees.specs.Building.{is_set};
ghost use Rattle.standard_trees.specs.Formatting.{form_ended};
ghost use Rattle.standard_trees.specs.GrowingTree.{FormAt, GrowingTree as StandardTree};
ghost use Rattle.standard_trees.specs.GrowingTree.{adjusted_current, created_at, current};
ghost use Rattle.standard_trees.specs.GrowingTree.{inserted_at, is_named, is_one};
ghost use Rattle.standard_trees.specs.GrowingTree.{with_chars, with_comment};
ghost use Rattle.standard_trees.specs.TreeStore.{EndOf as AtEnd, Html as HtmlSpace};
ghost use Rattle.standard_trees.specs.TreeStore.{DoctypeNode, Kind, NodeAttr};

mod adopting;
mod edits;
mod late;
mod others;
mod placing;
mod popping;

use crate::fault::PageFault;
use crate::formatting::ActiveFormatting;
use crate::name::Name;
use crate::pointers::FormPointer;
use crate::stack::{ElementNamespace, Open, OpenElements};
use dom_links::gap::InsertionPoint;
use dom_nodes::node_data::NodeData;
use dom_nodes::node_id::NodeId;
use dom_trees::quirks::QuirksMode;
use dom_trees::tree::Tree;
use edits::{cut_out, is_forest, put_comment, put_copy, put_doctype, put_element, put_text};
use late::LateTags;
use others::OtherNames;
use page_tokens::token::Tag;
use placing::{gap, gap_in};
pub use placing::{Placing, is_foster_target, is_template};
pub use popping::ForeignEnd;
use std::alloc::Global;
use std::marker::Model;

/// A finished tree, the parse errors of its text, and its quirks mode.
#[derive(Drop)]
pub struct BuiltTree {
    pub tree: Tree,
    pub errors: Vec<String>,
    pub quirks_mode: QuirksMode,
}

/// A tree under construction. A contract sees it as a `TreeState`: the forest, the stack of open
/// elements, the list of active formatting elements, the pointers and the quirks mode. Each node id
/// that it keeps is the id of an element; no id comes from outside.
#[derive(Drop)]
pub struct GrowingTree {
    tree: Tree,
    errors: Vec<String>,
    quirks_mode: QuirksMode,
    stack: OpenElements,
    /// The numbers of the open elements' names that are not in `Name`.
    others: OtherNames,
    formatting: ActiveFormatting,
    head: Option<NodeId>,
    form: FormPointer,
    /// The context element of a fragment, with the id of the root that represents it.
    context: Option<Open>,
    /// The attributes that later tags add to `html` and to `body`.
    late: LateTags,
}

impl Model for GrowingTree {
    ghost use Rattle.page_trees.specs.Elements.{AreElements};
    ghost use Rattle.page_trees.specs.NameNumbers.{numbers_of};
    ghost use Rattle.page_trees.specs.SearchIndex.{IsIndexed};
    ghost use Rattle.page_trees.specs.TreeState.{TreeState, late_of};

    ghost Value = { TreeState };

    ghost view = { λ t. record {
      forest = t.tree;
      stack = t.stack.elements.items;
      numbers = numbers_of t.others.numbers.entries;
      formatting = t.formatting.entries;
      head = t.head;
      form = t.form;
      context = t.context;
      late = late_of t.late.elements.items;
      quirks = t.quirks_mode;
    } };

    ghost invariant = { λ t. AreElements t.tree t.stack.elements.items
        t.formatting t.head t.form t.context × IsIndexed t.stack };
}

impl GrowingTree {
    /// Returns an empty page. Fails only when memory runs out.
    #[tactic(auto, using(crate::proofs::BuiltStart::page_built))]
    pub fn page(alloc: Global) -> Result<GrowingTree, PageFault>
        ensures made { IfOk result (λ made. made ≡ fresh_state (lone TheDocument)) }
        ensures rule { IfOk result (λ made. Builds made empty_tree) }
    {
        Ok(GrowingTree::over(alloc, lone(alloc, NodeData::Document)?))
    }

    /// Returns an empty fragment. Fails only when memory runs out.
    #[tactic(auto, using(crate::proofs::BuiltStart::fragment_built))]
    pub fn fragment(alloc: Global) -> Result<GrowingTree, PageFault>
        ensures made { IfOk result (λ made. made ≡ fresh_state (lone TheFragment)) }
        ensures rule { IfOk result (λ made. Builds made empty_tree) }
    {
        Ok(GrowingTree::over(alloc, lone(alloc, NodeData::Fragment)?))
    }

    /// Returns the state for a tree, with no open elements.
    fn over(alloc: Global, tree: Tree) -> GrowingTree
        requires { IsRooted tree }
        ensures { result ≡ fresh_state tree }
    {
        GrowingTree {
            tree,
            errors: Vec::new(alloc),
            quirks_mode: QuirksMode::NoQuirks,
            stack: OpenElements::new(alloc),
            others: OtherNames::new(alloc),
            formatting: ActiveFormatting::new(alloc),
            head: None,
            form: FormPointer::None,
            context: None,
            late: LateTags::new(alloc),
        }
    }

    /// Returns the finished tree. Fails only when memory runs out.
    pub fn into_built(self) -> Result<BuiltTree, PageFault>
        ensures tree { IfOk result (λ built. built.tree ≡ completed self.late self.forest) }
        ensures quirks { IfOk result (λ built. built.quirks_mode ≡ self.quirks) }
        ensures rule { IfOk result (λ built. (b : Building) → Builds self b.tree →
            mode_of b.quirks ≡ self.quirks → IsTreeOf b built.tree built.quirks_mode) }
        ensures err { IfErr result (λ fault. fault ≡ NoMemory) }
    {
        let mut tree = self.tree;
        self.late.put_into(&mut tree)?;
        is_forest(&tree);
        Ok(BuiltTree {
            tree,
            errors: self.errors,
            quirks_mode: self.quirks_mode,
        })
    }

    /// Returns the stack of open elements.
    pub fn open(&self) -> &OpenElements
        ensures elements { result.now.elements.items ≡ self.now.stack }
        ensures index { IsIndexed result.now }
    {
        &self.stack
    }

    pub fn has_head(&self) -> bool
        ensures value { result ≡ is_some self.now.head }
        ensures rule { Tells (λ t. is_present t.head) self.now result }
    {
        self.head.is_some()
    }

    pub fn has_form(&self) -> bool
        ensures value { result ≡ not (points_nowhere self.now.form) }
        ensures rule { Tells (λ t. is_set t.form) self.now result }
    {
        !self.form.is_none()
    }

    /// Returns whether a fragment is parsed.
    pub fn is_fragment(&self) -> bool
        ensures value { result ≡ is_some self.now.context }
        ensures rule { Tells is_fragment self.now result }
    {
        self.context.is_some()
    }

    /// Returns whether a `form` in a table is ignored, because a form or a template is open.
    pub fn ignores_form(&self) -> bool
        ensures { Tells (λ t. is_set t.form || is_open (codes "template") t) self.now result }
    {
        if self.has_form() {
            return true;
        }
        self.stack.has(Name::Template)
    }

    /// Returns whether a `form` outside tables is ignored, because a form is open and no template.
    pub fn is_in_form(&self) -> bool
        ensures { Tells (λ t. is_set t.form && not (is_open (codes "template") t)) self.now result }
    {
        if !self.has_form() {
            return false;
        }
        !self.stack.has(Name::Template)
    }

    pub fn context(&self) -> Option<Open>
        ensures { result ≡ self.now.context }
    {
        self.context
    }

    /// Returns whether the context element of a fragment is an HTML element with that name.
    pub fn is_context(&self, name: Name) -> bool
        ensures { is_name name Other ≡ false → Tells
            (λ t. option_map_or (is_named (text_of name ∷ [])) t.context false) self.now result }
    {
        match self.context {
            Some(context) => context.is_html(name),
            None => false,
        }
    }

    /// Returns the element at an index of the stack; in a fragment, the context element replaces
    /// the outermost one.
    pub fn adjusted_current_node(&self, place: usize) -> Option<Open>
        ensures { result ≡ adjusted_at self.now place }
    {
        match self.context {
            Some(context) if place == 0 => Some(context),
            _ => self.stack.get(place),
        }
    }

    /// Returns the adjusted current node.
    pub fn adjusted_current(&self) -> Option<Open>
        ensures { (t : StandardTree) → Builds self.now t →
            IsCurrent result (adjusted_current t) }
    {
        let count = self.stack.len();
        if count == 0 {
            return None;
        }
        self.adjusted_current_node(count - 1)
    }

    /// Returns the last active formatting element with that name after the last marker.
    pub fn formatting_named(&self, name: Name) -> Option<Open>
        ensures rule { is_name name Other ≡ false → FindsListed name self.now result }
        ensures entry { FindsEntry self.now result }
    {
        self.formatting.named(name)
    }

    pub fn set_quirks_mode(&mut self, mode: QuirksMode)
        ensures value { self.new ≡ record self.old { quirks = mode } }
        ensures rule { Does (λ t. t) self.old self.new }
    {
        self.quirks_mode = mode;
    }

    /// Adds a message to the parse errors. Fails only when memory runs out.
    pub fn note_error(&mut self, message: &str) -> Result<(), PageFault>
        ensures { self.new ≡ self.old }
    {
        let text = String::from_str(*self.errors.allocator(), message)?;
        self.errors.push(text)?;
        Ok(())
    }

    /// Returns the insertion point for a node: the appropriate place for inserting a node.
    fn gap(&self, placing: Placing) -> InsertionPoint
        ensures open { IsOpenGap result self.now.forest }
        ensures rule { length self.now.stack < placing.max_depth → (t : StandardTree) →
            t.fostering ≡ placing.foster → Builds self.now t →
            IsPointOf t.nodes result (place_for placing t) }
    {
        is_forest(&self.tree);
        match self.head {
            Some(head) if placing.in_head => InsertionPoint::EndOf(head),
            _ => gap(&self.tree, &self.stack, placing),
        }
    }

    /// Returns the insertion point for a text or a comment, which hold nothing: the appropriate
    /// place, however deep it is.
    fn gap_at_any_depth(&self, placing: Placing) -> InsertionPoint
        ensures open { IsOpenGap result self.now.forest }
        ensures rule { (t : StandardTree) → t.fostering ≡ placing.foster → Builds self.now t →
            IsPointOf t.nodes result (place_for placing t) }
    {
        is_forest(&self.tree);
        match self.head {
            Some(head) if placing.in_head => InsertionPoint::EndOf(head),
            _ => gap_in(&self.tree, self.stack.as_slice(), placing.foster),
        }
    }

    /// Returns the number for a name that is not in `Name`, and 0 for any other.
    fn number_of(&mut self, name: Name, written: &str) -> Result<u32, PageFault>
        ensures rest { self.new ≡ record self.old { numbers = self.new.numbers } }
        ensures number { IfOk result (λ number.
            IsNumberFor name written.now number self.old.numbers self.new.numbers) }
    {
        if name != Name::Other {
            return Ok(0);
        }
        self.others.number_of(self.tree.allocator(), written)
    }

    /// Inserts the element of a tag, and pushes it onto the stack of open elements.
    pub fn insert(
        &mut self,
        placing: Placing,
        ns: ElementNamespace,
        name: Name,
        tag: &Tag,
    ) -> Result<(), PageFault>
        ensures rule { (written : List ℕ) (attrs : List NodeAttr) →
            IsTagOf ns name tag.now written attrs → OnOk result (DoesIn placing
            (inserted_in placing (space_of ns) (local_for ns written) attrs) self.old self.new) }
        ensures quirks { self.new.quirks ≡ self.old.quirks }
    {
        let number = self.number_of(name, tag.name.as_str())?;
        let gap = self.gap(placing);
        is_forest(&self.tree);
        let open = put_element(&mut self.tree, gap, ns, name, tag)?;
        self.stack.push(&Open { number, ..open })?;
        Ok(())
    }

    /// Inserts the element `html` below the root, and pushes it onto the stack of open elements.
    pub fn insert_html(&mut self, tag: &Tag) -> Result<(), PageFault>
        ensures rule { (written : List ℕ) (attrs : List NodeAttr) →
            IsTagOf ElementNamespace.Html Name.Html tag.now written attrs → OnOk result (Does
            (inserted_at (AtEnd 0) HtmlSpace written attrs) self.old self.new) }
        ensures quirks { self.new.quirks ≡ self.old.quirks }
    {
        is_forest(&self.tree);
        let gap = InsertionPoint::EndOf(self.tree.root_id());
        let open = put_element(&mut self.tree, gap, ElementNamespace::Html, Name::Html, tag)?;
        self.stack.push(&open)?;
        Ok(())
    }

    /// Sets the context element, which the current node represents.
    pub fn set_context(&mut self, ns: ElementNamespace, name: Name)
        ensures { (t : StandardTree) → is_empty t.stack ≡ false → (kind : Kind) →
            IsOfKind (context_for ns name) kind → Builds self.old t →
            Builds self.new (with_context kind t) }
    {
        if let Some(root) = self.stack.current() {
            self.context = Some(Open {
                id: root.id,
                ns,
                name,
                number: 0,
                holds_html: false,
            });
        }
    }

    /// Sets the form element pointer to the context element, if that is a form.
    pub fn set_own_form(&mut self)
        ensures { Does with_own_form self.old self.new }
    {
        if self.is_context(Name::Form) {
            self.set_context_form();
        }
    }

    /// Sets the head element pointer to the current node.
    pub fn set_head(&mut self)
        ensures { (t : StandardTree) → is_one t (codes "head" ∷ []) (current t) ≡ true →
            Builds self.old t → Builds self.new (with_head t) }
    {
        if let Some(head) = self.stack.current() {
            self.head = Some(head.id);
        }
    }

    /// Sets the form element pointer to the current node.
    pub fn set_form(&mut self)
        ensures { (t : StandardTree) → is_one t (codes "form" ∷ []) (current t) ≡ true →
            Builds self.old t → Builds self.new (with_form t) }
    {
        if let Some(form) = self.stack.current() {
            self.form = FormPointer::Element(form.id);
        }
    }

    /// Sets the form element pointer to the context element.
    fn set_context_form(&mut self)
        ensures { Does with_form_of_context self.old self.new }
    {
        self.form = FormPointer::Context;
    }

    /// Resets the form element pointer, and removes the form that it pointed to from the stack, if
    /// the form is in scope.
    pub fn end_form(&mut self)
        ensures { Does without_form self.old self.new }
    {
        let form = self.form;
        self.form = FormPointer::None;
        if let FormPointer::Element(id) = form {
            self.close_form(id);
        }
    }

    /// Generates implied end tags and removes a form from the stack, if the form is in scope.
    fn close_form(&mut self, id: NodeId)
        ensures { (t : StandardTree) → is_one t (codes "form" ∷ []) id ≡ true →
            Builds self.old t → Builds self.new (form_ended (FormAt id) t) }
    {
        let Some(place) = self.stack.place_among(Name::Form, id) else {
            return;
        };
        if !self.stack.is_in_scope(place) {
            return;
        }
        let count = self.stack.depth_of_implied(None);
        self.truncate(count);
        self.remove_at(place);
        self.mark();
    }

    /// Inserts characters. The document itself can't have text, so characters there are ignored.
    pub fn put_text(&mut self, placing: Placing, text: &str) -> Result<(), PageFault>
        ensures rule { (c : ℕ) (cs : List ℕ) → placing.in_head ≡ false →
            text.now ≡ encode_utf8_all (c ∷ cs) →
            OnOk result (DoesAtAnyDepth placing (with_chars (c ∷ cs)) self.old self.new) }
        ensures quirks { self.new.quirks ≡ self.old.quirks }
    {
        let gap = self.gap_at_any_depth(placing);
        is_forest(&self.tree);
        if is_in_root(&self.tree, &gap) {
            return Ok(());
        }
        is_forest(&self.tree);
        put_text(&mut self.tree, gap, text)?;
        Ok(())
    }

    /// Inserts a comment at the appropriate place.
    pub fn put_comment(&mut self, placing: Placing, text: &str) -> Result<(), PageFault>
        ensures rule { (cs : List ℕ) → text.now ≡ encode_utf8_all cs →
            OnOk result (DoesAtAnyDepth placing
            (λ t. with_comment cs (place_for placing t) t) self.old self.new) }
        ensures quirks { self.new.quirks ≡ self.old.quirks }
    {
        let gap = self.gap_at_any_depth(placing);
        is_forest(&self.tree);
        put_comment(&mut self.tree, gap, text)?;
        Ok(())
    }

    /// Inserts a comment as the last child of the root.
    pub fn put_comment_at_top(&mut self, text: &str) -> Result<(), PageFault>
        ensures rule { (cs : List ℕ) → text.now ≡ encode_utf8_all cs →
            OnOk result (Does (with_comment cs (AtEnd 0)) self.old self.new) }
        ensures quirks { self.new.quirks ≡ self.old.quirks }
    {
        is_forest(&self.tree);
        let gap = InsertionPoint::EndOf(self.tree.root_id());
        put_comment(&mut self.tree, gap, text)?;
        Ok(())
    }

    /// Inserts a comment as the last child of the outermost element.
    pub fn put_comment_in_html(&mut self, text: &str) -> Result<(), PageFault>
        ensures rule { (cs : List ℕ) → text.now ≡ encode_utf8_all cs → OnOk result
            (CommentsInHtml cs self.old self.new) }
        ensures quirks { self.new.quirks ≡ self.old.quirks }
    {
        let Some(html) = self.stack.get(0) else {
            return Ok(());
        };
        is_forest(&self.tree);
        put_comment(&mut self.tree, InsertionPoint::EndOf(html.id), text)?;
        Ok(())
    }

    /// Inserts a doctype as the last child of the root: name, public identifier and system
    /// identifier.
    pub fn put_doctype(&mut self, parts: [&str; 3]) -> Result<(), PageFault>
        ensures rule { (d : Doctype) → AreParts d parts.entry → OnOk result
            (Does (created_at (AtEnd 0) (DoctypeNode d)) self.old self.new) }
        ensures quirks { self.new.quirks ≡ self.old.quirks }
    {
        is_forest(&self.tree);
        let [name, public_id, system_id] = parts;
        put_doctype(&mut self.tree, name, public_id, system_id)?;
        Ok(())
    }

    /// Adds to the element at an index of the stack those of a tag's attributes whose names it
    /// doesn't have yet. They are in the tree once all is read.
    pub fn add_attrs(&mut self, place: usize, tag: &Tag) -> Result<(), PageFault>
        ensures rule { OnOk result
            (MergesInto (id_at self.old.stack place) tag.now self.old self.new) }
        ensures quirks { self.new.quirks ≡ self.old.quirks }
    {
        if let Some(open) = self.stack.get(place) {
            self.late.add(&self.tree, open.id, tag)?;
        }
        Ok(())
    }

    /// Detaches the element at an index of the stack.
    pub fn cut_out(&mut self, place: usize)
        ensures { let element = slice_get self.old.stack place in
            Does (cut (option_map (λ o. o.id) element)) self.old self.new }
    {
        if let Some(open) = self.stack.get(place) {
            cut_out(&mut self.tree, open.id);
        }
    }

    /// Returns how many entries the list of active formatting elements has.
    pub fn formatting_len(&self) -> usize
        ensures { result ≡ length self.now.formatting }
    {
        self.formatting.len()
    }

    /// Returns the element of the entry at an index of the list, if it is no marker.
    fn entry_element(&self, index: usize) -> Option<Open>
        ensures value { let entries = self.now.formatting in
            result ≡ option_and_then element_in (slice_get entries index) }
        ensures element { IfSome result (λ o. IsElement self.now.forest o.id) }
    {
        self.formatting.element_at(index)
    }

    /// Inserts a copy of a formatting element, pushes it onto the stack, and replaces the element
    /// in the list of active formatting elements.
    pub fn reconstruct_formatting(
        &mut self,
        index: usize,
        placing: Placing,
    ) -> Result<(), PageFault>
        ensures rule { OnOk result (Reopens placing index self.old self.new) }
        ensures grows { OnOk result (length self.old.stack ≤ length self.new.stack) }
    {
        let Some(open) = self.entry_element(index) else {
            return Ok(());
        };
        let gap = self.gap(placing);
        is_forest(&self.tree);
        let copy = put_copy(&mut self.tree, gap, open)?;
        self.stack.push(&copy)?;
        self.formatting.replace(&self.tree, index, &copy);
        Ok(())
    }
}

/// Returns a tree of one node. Fails only when memory runs out.
fn lone(alloc: Global, content: NodeData) -> Result<Tree, PageFault>
    ensures { IfOk result (λ tree. tree ≡ lone content) }
{
    match Tree::new(alloc, content) {
        Ok(tree) => Ok(tree),
        Err(_) => Err(PageFault::Memory),
    }
}

/// Returns whether an insertion point of the appropriate place is among the root's children.
fn is_in_root(tree: &Tree, gap: &InsertionPoint) -> bool
    ensures { result ≡ is_in_root tree.now gap.now }
{
    match gap {
        InsertionPoint::EndOf(parent) => *parent == NodeId::root(),
        InsertionPoint::Before(next) => is_child_of_root(tree, *next),
        _ => false,
    }
}

fn is_child_of_root(tree: &Tree, id: NodeId) -> bool
    ensures { result ≡ option_map_or is_zero (parent tree.now id) false }
{
    match tree.parent_of(&id) {
        Some(parent) => parent.id == NodeId::root(),
        None => false,
    }
}
