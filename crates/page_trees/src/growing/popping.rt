//! Removing elements from the stack of open elements and from the list of active formatting
//! elements. A call that returns a `Result` fails only when memory runs out.

ghost use Rattle.std.specs.Prelude.{IfNone, IfSome, IsSome, List, OnOk, [], codes, false};
ghost use Rattle.std.specs.Prelude.{remove, take, ◌++◌, ◌∷◌, ◌≡◌, ℕ};
ghost use Rattle.std.specs.Option.{option_to_list};
ghost use Rattle.standard_trees.specs.GrowingTree.{GrowingTree as StandardTree, has_in_scope};
ghost use Rattle.standard_trees.specs.GrowingTree.{implied_of};
ghost use Rattle.standard_trees.specs.GrowingTree.{popped_until, popped_up_to};
ghost use Rattle.standard_trees.specs.NameLists.{headings, implied};
ghost use Rattle.page_trees.specs.Listing.{Enlists, Unlists, Unstacks};
ghost use Rattle.standard_trees.specs.RuleWords.{Scope as DefaultScope};
ghost use Rattle.page_trees.specs.Closing.{closed_before, ends_items_node, is_special_node};
ghost use Rattle.page_trees.specs.Closing.{item_texts};
ghost use Rattle.page_trees.specs.ForeignSteps.{EndsForeign, IsTagNamed, is_foreign_called};
ghost use Rattle.page_trees.specs.NameNumbers.{number_in};
ghost use Rattle.page_trees.specs.Names.{text_of};
ghost use Rattle.page_trees.specs.Popping.{before_last, is_a_marker};
ghost use Rattle.page_trees.specs.Scopes.{has_name, is_name, last_place};
ghost use Rattle.page_trees.specs.Sets.{context_names};
ghost use Rattle.page_trees.specs.Stands.{Builds, Does, IsOtherName, Tells, closed_in, popped};
ghost use Rattle.page_trees.specs.Stands.{popped_if};
ghost use Rattle.page_trees.specs.Stands.{scope_kind, text_list, with_marker, without_foreign};
ghost use Rattle.page_trees.specs.Stands.{without_marker};
ghost use Rattle.page_trees.specs.TableSteps.{is_a_cell};
ghost use Rattle.page_trees.specs.declared.name.Name.TheVariants.{Other};

use super::GrowingTree;
use crate::fault::PageFault;
use crate::name::Name;
use crate::sets::{Scope, TableContext, is_cell_element};
use crate::stack::Open;
use dom_nodes::node_id::NodeId;

/// What an end tag in foreign content does.
#[derive(Clone, Copy, Drop)]
pub enum ForeignEnd {
    /// It closes the element at an index of the stack.
    At(usize),
    /// An HTML element comes first, so the rules for HTML content process the tag.
    Html,
    Nowhere,
}

impl GrowingTree {
    /// Pops the current node off the stack of open elements, and returns it.
    fn take(&mut self) -> Option<Open>
        ensures stack { self.old.stack ≡ self.new.stack ++ option_to_list result }
        ensures none { IfNone result (self.old.stack ≡ []) }
        ensures rest { self.new ≡ record self.old { stack = self.new.stack } }
    {
        self.stack.take()
    }

    /// Pops the current node off the stack of open elements.
    pub fn pop(&mut self)
        ensures { Does popped self.old self.new }
    {
        let _ = self.take();
    }

    /// Pops the current node, if it is an HTML element with that name.
    pub fn pop_if(&mut self, name: Name)
        ensures { is_name name Other ≡ false →
            Does (popped_if (text_of name ∷ [])) self.old self.new }
    {
        if self.stack.current_is(name) {
            self.pop();
        }
    }

    /// Returns the number of a name that is not in `Name`, if an element had it, and 0 for any other
    /// name.
    fn number_for(&self, name: Name, written: &str) -> Option<u32>
        ensures known { is_name name Other ≡ false → IsSome result }
        ensures other { name ≡ Other → result ≡ number_in self.now.numbers written.now }
    {
        if name != Name::Other {
            return Some(0);
        }
        self.others.get(written)
    }

    /// Returns which element an end tag in foreign content closes.
    pub fn foreign_end(&self, name: Name, written: &str) -> ForeignEnd
        ensures { (text : List ℕ) → IsTagNamed name written.now text →
            EndsForeign text self.now result }
    {
        let html = self.stack.top_html();
        let top = self.top_foreign(name, written);
        if top > html {
            return ForeignEnd::At(top - 1);
        }
        if html < self.stack.len() {
            return ForeignEnd::Html;
        }
        ForeignEnd::Nowhere
    }

    /// Returns one more than the index of the last foreign element with that name, or 0.
    fn top_foreign(&self, name: Name, written: &str) -> usize
        ensures { (text : List ℕ) → IsTagNamed name written.now text → (t : StandardTree) →
            Builds self.now t → result ≡ last_place (is_foreign_called text t) self.now.stack }
    {
        match self.number_for(name, written) {
            Some(number) => self.stack.top_foreign(name, number),
            None => 0,
        }
    }

    /// Pops elements until only the first `count` are open.
    pub fn truncate(&mut self, count: usize)
        ensures { self.new ≡ record self.old { stack = take count self.old.stack } }
    {
        self.stack.truncate(count);
    }

    /// Brings the search index of the stack up to date.
    pub fn mark(&mut self)
        ensures { self.new ≡ self.old }
    {
        self.stack.mark();
    }

    /// Removes the element at an index of the stack. The caller calls `mark` afterwards.
    pub fn remove_at(&mut self, place: usize)
        ensures { self.new ≡ record self.old { stack = remove self.old.stack place } }
    {
        self.stack.remove_at(place);
    }

    /// Removes an element from the stack.
    pub fn remove(&mut self, element: &Open)
        ensures rule { Unstacks element.now self.old self.new }
        ensures rest { self.new ≡ record self.old { stack = self.new.stack } }
    {
        if let Some(place) = self.stack.place_of(element) {
            self.remove_at(place);
            self.mark();
        }
    }

    /// Pops elements until one with that name has been popped.
    pub fn pop_to(&mut self, name: Name)
        ensures { is_name name Other ≡ false →
            Does (popped_until (text_of name ∷ [])) self.old self.new }
    {
        self.take_to(name);
    }

    /// Pops elements up to and including the last with that name.
    fn take_to(&mut self, name: Name)
        ensures { let kept = before_last (has_name name) self.old.stack in
            self.new ≡ record self.old { stack = kept } }
    {
        while let Some(open) = self.take() {
            if open.is_html(name) {
                return;
            }
        }
    }

    /// Pops elements until a cell of a table has been popped.
    pub fn pop_to_cell(&mut self)
        ensures { Does (popped_until (codes "td" ∷ codes "th" ∷ [])) self.old self.new }
    {
        self.take_to_cell();
    }

    /// Pops elements up to and including the last cell of a table.
    fn take_to_cell(&mut self)
        ensures { let kept = before_last is_a_cell self.old.stack in
            self.new ≡ record self.old { stack = kept } }
    {
        while let Some(open) = self.take() {
            if is_cell_element(&open) {
                return;
            }
        }
    }

    /// If an element with that name is in scope, pops elements up to and including it. Returns
    /// whether one was.
    pub fn close(&mut self, name: Name, scope: Scope) -> bool
        ensures rule { let kind = scope_kind scope in is_name name Other ≡ false →
            Does (closed_in kind (text_of name ∷ [])) self.old self.new }
        ensures found { let kind = scope_kind scope in is_name name Other ≡ false →
            Tells (has_in_scope kind (text_of name ∷ [])) self.old result }
    {
        if !self.stack.in_scope(name, scope) {
            return false;
        }
        self.pop_to(name);
        true
    }

    /// Processes any other end tag: pops elements up to and including the last with that name,
    /// unless a special element comes first.
    pub fn close_named(&mut self, name: Name, written: &str)
        ensures rule { is_name name Other ≡ false →
            Does (closed_before is_special_node (text_of name ∷ [])) self.old self.new }
        ensures other { (text : List ℕ) → IsOtherName name written.now text →
            Does (closed_before is_special_node (text ∷ [])) self.old self.new }
    {
        let Some(number) = self.number_for(name, written) else {
            return;
        };
        if let Some(place) = self.stack.last_named(name, number) {
            self.truncate(place);
        }
    }

    /// Pops the current node, if it is a heading.
    pub fn pop_heading(&mut self)
        ensures { Does (popped_if headings) self.old self.new }
    {
        if self.stack.current_is_heading() {
            self.pop();
        }
    }

    /// If a heading is in scope, pops elements up to and including the last one.
    pub fn close_heading(&mut self)
        ensures { Does (closed_in DefaultScope headings) self.old self.new }
    {
        if let Some(place) = self.stack.heading_in_scope() {
            self.truncate(place);
        }
    }

    /// Pops elements up to and including the open list item that a new one with that name closes.
    pub fn close_item(&mut self, name: Name)
        ensures { let names = item_texts name in
            Does (closed_before ends_items_node names) self.old self.new }
    {
        if let Some(place) = self.stack.item_before(name) {
            self.truncate(place);
        }
    }

    /// Leaves foreign content: pops elements up to one whose content is HTML, which stays.
    pub fn pop_foreign(&mut self)
        ensures { Does without_foreign self.old self.new }
    {
        let count = self.stack.depth_of_html();
        self.truncate(count);
    }

    /// Generates implied end tags, except for elements with that name.
    pub fn generate_implied_end_tags(&mut self, except: Option<Name>)
        ensures { IfSome except (λ name. is_name name Other ≡ false) →
            Does (implied_of implied (text_list except)) self.old self.new }
    {
        let count = self.stack.depth_of_implied(except);
        self.truncate(count);
    }

    /// Pops elements up to one of the table context, which stays ("clear the stack back to").
    pub fn clear_to(&mut self, context: TableContext)
        ensures { Does (popped_up_to (context_names context)) self.old self.new }
    {
        let count = self.stack.depth_of_context(context);
        self.truncate(count);
    }

    /// Appends the current node to the list of active formatting elements. If three with the same
    /// name and attributes follow the last marker, the earliest is removed.
    pub fn push_formatting(&mut self) -> Result<(), PageFault>
        ensures { OnOk result (Enlists self.old self.new) }
    {
        let Some(open) = self.stack.current() else {
            return Ok(());
        };
        self.formatting.enlist(&self.tree, &open)?;
        Ok(())
    }

    pub fn push_marker(&mut self) -> Result<(), PageFault>
        ensures rule { OnOk result (Does with_marker self.old self.new) }
        ensures quirks { self.new.quirks ≡ self.old.quirks }
    {
        self.formatting.push_marker()?;
        Ok(())
    }

    /// Clears the list of active formatting elements up to the last marker.
    pub fn clear_to_marker(&mut self)
        ensures kept { let kept = before_last is_a_marker self.old.formatting in
            self.new ≡ record self.old { formatting = kept } }
        ensures rule { Does without_marker self.old self.new }
    {
        self.formatting.clear_to_marker();
    }

    /// Removes the entry at an index of the list.
    pub fn remove_entry(&mut self, index: usize)
        ensures { let kept = remove self.old.formatting index in
            self.new ≡ record self.old { formatting = kept } }
    {
        self.formatting.remove_at(index);
    }

    /// Removes an element's entry from the list.
    pub fn remove_formatting(&mut self, id: NodeId)
        ensures rule { Unlists id self.old self.new }
        ensures rest { self.new ≡ record self.old { formatting = self.new.formatting } }
    {
        if let Some(index) = self.formatting.index_of(id) {
            self.remove_entry(index);
        }
    }
}
