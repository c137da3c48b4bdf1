//! The stack of open elements (13.2.4.2). A call that returns a `Result` fails only when memory runs
//! out.

ghost use Rattle.std.specs.Prelude.{◌≡◌, [], ◌∷◌, ◌++◌, Contains, IfNone, IfSome, OnErr, OnOk};
ghost use Rattle.std.specs.Prelude.{◌+◌, ◌-◌, ◌<◌, ◌≤◌, ◌↔◌, ◌⊎◌, IsTrue, List, drop, false, insert};
ghost use Rattle.std.specs.Prelude.{◌&&◌, eqb, length, not, remove, reverse, slice_get, slice_set};
ghost use Rattle.std.specs.Prelude.{take};
ghost use Rattle.std.specs.Option.{option_map_or, option_to_list};
ghost use Rattle.std.specs.Prelude.{true};
ghost use Rattle.page_trees.specs.Closing.{IsFoundAt, IsPlaceFrom, item_names};
ghost use Rattle.page_trees.specs.Popping.{first_from, up_to_last};
ghost use Rattle.standard_trees.specs.GrowingTree.{GrowingTree as StandardTree};
ghost use Rattle.standard_trees.specs.GrowingTree.{beyond, has_in_scope, in_scope, is_foreign};
ghost use Rattle.standard_trees.specs.GrowingTree.{implied_of, popped_up_to, with_stack};
ghost use Rattle.standard_trees.specs.NameLists.{implied};
ghost use Rattle.page_trees.specs.Names.{text_of};
ghost use Rattle.page_trees.specs.Reopening.{index_at, is_this};
ghost use Rattle.page_trees.specs.Scopes.{ends_in, ends_items, has_name, is_among, is_name};
ghost use Rattle.page_trees.specs.Scopes.{is_named};
ghost use Rattle.page_trees.specs.Scopes.{is_implied_but, is_named_like, last_place};
ghost use Rattle.page_trees.specs.SearchIndex.{IsIndex, IsIndexed, has_key, is_sought};
ghost use Rattle.page_trees.specs.Sets.{context_names, ends_context, ends_scope};
ghost use Rattle.page_trees.specs.Sets.{has_html_content, is_a_heading};
ghost use Rattle.page_trees.specs.Sets.{is_in_html, is_special_element};
ghost use Rattle.page_trees.specs.LateMerges.{is_open};
ghost use Rattle.page_trees.specs.Stands.{IsStackOf, scope_kind, text_list};
ghost use Rattle.page_trees.specs.declared.name.Name.TheVariants.{Other};
ghost use Rattle.page_trees.specs.declared.stack.Open.{Open as AnOpen};

mod links;
mod marks;

use crate::fault::PageFault;
use crate::name::Name;
use crate::sets::{Scope, TableContext, has_implied_end_but, is_heading, is_special};
use dom_nodes::node_id::NodeId;
use marks::{Marks, Sought, key_for, key_of};
use std::alloc::Global;

/// The namespace of an element.
#[derive(Clone, Copy, PartialEq, Eq, Drop)]
pub enum ElementNamespace {
    Html,
    Svg,
    MathMl,
}

/// An element of the stack.
#[derive(Clone, Copy, Drop)]
pub struct Open {
    pub id: NodeId,
    pub ns: ElementNamespace,
    pub name: Name,
    /// The number that `OtherNames` gave to a name that is not in `Name`, and otherwise 0.
    pub number: u32,
    /// Whether it is an `annotation-xml` whose encoding is HTML.
    pub holds_html: bool,
}

impl Open {
    /// Returns whether the two elements have the same name and namespace.
    pub fn is_named_like(&self, other: &Open) -> bool
        ensures { result ≡ is_named_like self.now other.now }
    {
        self.ns == other.ns && self.name == other.name && self.number == other.number
    }

    /// Returns whether it is an HTML element with that name.
    pub fn is_html(&self, name: Name) -> bool
        ensures { result ≡ has_name name self.now }
    {
        self.ns == ElementNamespace::Html && self.name == name
    }

    /// Returns whether it is the HTML element with that name and id.
    fn is_this(&self, name: Name, id: NodeId) -> bool
        ensures { result ≡ (has_name name self.now && eqb self.now.id id) }
    {
        self.is_html(name) && self.id == id
    }
}

const HEADINGS: [Name; 6] = [Name::H1, Name::H2, Name::H3, Name::H4, Name::H5, Name::H6];

/// The stack of open elements, the outermost first, with an index (`marks`) that answers searches
/// without a loop over the stack.
#[derive(Drop)]
pub struct OpenElements {
    elements: Vec<Open>,
    marks: Marks,
}

impl OpenElements {
    pub fn new(alloc: Global) -> OpenElements
        ensures items { result.elements.items ≡ [] }
        ensures index { IsIndexed result }
    {
        OpenElements {
            elements: Vec::new(alloc),
            marks: Marks::new(alloc),
        }
    }

    pub fn len(&self) -> usize
        ensures { result ≡ length self.now.elements.items }
    {
        self.elements.as_slice().len()
    }

    pub fn as_slice(&self) -> &[Open]
        ensures { result.now ≡ self.now.elements.items }
    {
        self.elements.as_slice()
    }

    /// Returns the elements before an index of the stack.
    pub fn before(&self, place: usize) -> &[Open]
        ensures { result.now ≡ take place self.now.elements.items }
    {
        if place >= self.elements.len() {
            return self.elements.as_slice();
        }
        &self.elements.as_slice()[..place]
    }

    pub fn get(&self, place: usize) -> Option<Open>
        ensures found { IfSome result (Contains self.now.elements.items) }
        ensures value { result ≡ slice_get self.now.elements.items place }
    {
        self.elements.get(place).copied()
    }

    /// Returns the element after an index of the stack.
    pub fn behind(&self, place: usize) -> Option<Open>
        ensures { result ≡ slice_get self.now.elements.items (place + 1) }
    {
        if place >= self.elements.len() {
            return None;
        }
        self.elements.get(place + 1).copied()
    }

    /// Returns the current node.
    pub fn current(&self) -> Option<Open>
        ensures found { IfSome result (Contains self.now.elements.items) }
        ensures value { let elements = self.now.elements.items in
            result ≡ slice_get elements (length elements - 1) }
    {
        self.elements.last().copied()
    }

    /// Returns whether the current node is an HTML element with that name.
    pub fn current_is(&self, name: Name) -> bool
        ensures { let elements = self.now.elements.items in
            result ≡ option_map_or (has_name name) (slice_get elements (length elements - 1)) false }
    {
        match self.current() {
            Some(open) => open.is_html(name),
            None => false,
        }
    }

    /// Returns whether the current node is a heading.
    pub fn current_is_heading(&self) -> bool
        ensures { let elements = self.now.elements.items in
            result ≡ option_map_or is_a_heading (slice_get elements (length elements - 1)) false }
    {
        match self.current() {
            Some(open) => is_heading(&open),
            None => false,
        }
    }

    /// Returns whether the second element of the stack is the body.
    pub fn has_body(&self) -> bool
        ensures { result ≡
            option_map_or (has_name Name.Body) (slice_get self.now.elements.items 1) false }
    {
        match self.get(1) {
            Some(open) => open.is_html(Name::Body),
            None => false,
        }
    }

    /// Brings the search index up to date. It is called after elements inside the stack were
    /// changed.
    pub fn mark(&mut self)
        ensures items { self.new.elements ≡ self.old.elements }
        ensures index { IsIndexed self.old → IsIndexed self.new }
    {
        self.marks.fill(self.elements.as_slice());
    }

    /// Appends an element, which becomes the current node.
    pub fn push(&mut self, element: &Open) -> Result<(), PageFault>
        ensures ok { let old = self.old.elements.items in
            OnOk result (self.new.elements.items ≡ old ++ element.now ∷ []) }
        ensures err { OnErr result (self.new.elements.items ≡ self.old.elements.items) }
        ensures index { IsIndexed self.old → IsIndexed self.new }
    {
        let count = self.elements.len().saturating_add(1);
        self.marks.reserve(count, key_of(element))?;
        self.elements.push(*element)?;
        self.mark();
        Ok(())
    }

    /// Pops the current node off the stack and returns it.
    pub fn take(&mut self) -> Option<Open>
        ensures items { self.old.elements.items ≡ self.new.elements.items ++ option_to_list result }
        ensures none { IfNone result (self.old.elements.items ≡ []) }
        ensures index { IsIndexed self.old → IsIndexed self.new }
    {
        let place = self.elements.len().saturating_sub(1);
        self.marks.cut(place, self.elements.as_slice());
        self.elements.pop()
    }

    /// Pops elements until only the first `count` are open.
    pub fn truncate(&mut self, count: usize)
        ensures items { self.new.elements.items ≡ take count self.old.elements.items }
        ensures index { IsIndexed self.old → IsIndexed self.new }
    {
        while self.elements.len() > count {
            let _ = self.take();
        }
    }

    /// Returns how many elements stay when the stack is cleared back to a table context.
    pub fn depth_of_context(&self, context: TableContext) -> usize
        ensures { let all = self.now.elements.items in (tree : StandardTree) →
            IsStackOf tree all →
            IsStackOf (popped_up_to (context_names context) tree) (take result all) }
    {
        self.up_to_context(context)
    }

    /// Returns one more than the index of the last element that ends a table context, or 0.
    fn up_to_context(&self, context: TableContext) -> usize
        ensures { let all = self.now.elements.items in
            take result all ≡ up_to_last (ends_context context) all }
    {
        let mut rest = self.elements.as_slice();
        while let Some((open, below)) = rest.split_last() {
            if context.ends_at(open) {
                return rest.len();
            }
            rest = below;
        }
        0
    }

    /// Returns how many elements stay when foreign content is left: the last of them is the current
    /// node then, and its content is HTML.
    pub fn depth_of_html(&self) -> usize
        ensures { let all = self.now.elements.items in (tree : StandardTree) →
            IsStackOf tree all →
            IsStackOf (with_stack tree (beyond (is_foreign tree) tree.stack)) (take result all) }
    {
        self.up_to_html()
    }

    /// Returns one more than the index of the last element whose content is HTML, or 0.
    fn up_to_html(&self) -> usize
        ensures { let all = self.now.elements.items in
            take result all ≡ up_to_last has_html_content all }
    {
        let mut rest = self.elements.as_slice();
        while let Some((open, below)) = rest.split_last() {
            if !open.holds_foreign() {
                return rest.len();
            }
            rest = below;
        }
        0
    }

    /// Returns how many elements stay when implied end tags are generated, except for elements with
    /// that name.
    pub fn depth_of_implied(&self, except: Option<Name>) -> usize
        ensures { let all = self.now.elements.items in (tree : StandardTree) →
            IfSome except (λ name. is_name name Other ≡ false) → IsStackOf tree all →
            IsStackOf (implied_of implied (text_list except) tree) (take result all) }
    {
        self.up_to_explicit(except)
    }

    /// Returns one more than the index of the last element whose end tag can't be implied, or 0.
    fn up_to_explicit(&self, except: Option<Name>) -> usize
        ensures { let all = self.now.elements.items in
            take result all ≡ up_to_last (λ o. not (is_implied_but except o)) all }
    {
        let mut rest = self.elements.as_slice();
        while let Some((open, below)) = rest.split_last() {
            if !has_implied_end_but(open, except) {
                return rest.len();
            }
            rest = below;
        }
        0
    }

    /// Removes the element at an index of the stack. The caller calls `mark` afterwards.
    pub fn remove_at(&mut self, place: usize)
        ensures items { self.new.elements.items ≡ remove self.old.elements.items place }
        ensures index { IsIndexed self.old → IsIndexed self.new }
    {
        if place < self.elements.len() {
            self.marks.cut(place, self.elements.as_slice());
            let _ = self.elements.remove(place);
        }
    }

    /// Replaces the element at an index of the stack by a copy of it. The caller calls `mark`
    /// afterwards.
    pub fn replace(&mut self, place: usize, copy: &Open)
        ensures items { self.new.elements.items ≡
            slice_set self.old.elements.items place copy.now }
        ensures index { IsIndexed self.old → IsIndexed self.new }
    {
        self.forget(place, copy);
        self.put(place, copy);
    }

    /// Removes the entries of the search index that are wrong after a copy replaces the element at
    /// an index of the stack.
    fn forget(&mut self, place: usize, copy: &Open)
        ensures elements { self.new.elements ≡ self.old.elements }
        ensures index { let elements = slice_set self.old.elements.items place copy.now in
            IsIndexed self.old → IsIndex elements self.new.marks }
    {
        if let Some(old) = self.get(place)
            && old.is_named_like(copy)
        {
            return;
        }
        self.marks.cut(place, self.elements.as_slice());
    }

    /// Removes the element at an index of the stack, and inserts a copy of it after the element at
    /// the index `last`.
    pub fn carry(&mut self, place: usize, last: usize, copy: &Open)
        requires order { place ≤ last }
        requires within { last < length self.old.elements.items }
        ensures items { let others = remove self.old.elements.items place in
            self.new.elements.items ≡ insert others last copy.now }
        ensures index { IsIndexed self.old → IsIndexed self.new }
    {
        self.replace(place, copy);
        self.mark();
        let mut index = place;
        while index < last {
            self.exchange(index);
            index += 1;
        }
    }

    /// Exchanges the elements at an index of the stack and at the next one.
    fn exchange(&mut self, place: usize)
        requires { place + 1 < length self.old.elements.items }
        ensures items { (others : List AnOpen) (element : AnOpen) →
            self.old.elements.items ≡ insert others place element → place < length others →
            self.new.elements.items ≡ insert others (place + 1) element }
        ensures index { IsIndexed self.old → IsIndexed self.new }
    {
        let (Some(lower), Some(upper)) = (self.get(place), self.behind(place)) else {
            return;
        };
        self.reach(place);
        self.put(place, &upper);
        self.put(place + 1, &lower);
        self.marks.exchange(place, self.elements.as_slice());
    }

    /// Removes the entries of the search index from an index on, unless the next element has one.
    fn reach(&mut self, place: usize)
        requires { place + 1 < length self.old.elements.items }
        ensures elements { self.new.elements ≡ self.old.elements }
        ensures index { IsIndexed self.old → IsIndexed self.new }
        ensures rows { let count = length self.new.marks.rows.items in
            (place + 1 < count) ⊎ (count ≤ place) }
    {
        if self.marks.len() > place + 1 {
            return;
        }
        self.marks.cut(place, self.elements.as_slice());
    }

    /// Writes an element at an index of the stack. The caller brings the search index up to date.
    fn put(&mut self, place: usize, element: &Open)
        ensures items { self.new.elements.items ≡
            slice_set self.old.elements.items place element.now }
        ensures marks { self.new.marks ≡ self.old.marks }
    {
        if let Some(entry) = self.elements.get_mut(place) {
            *entry = *element;
        }
    }

    /// Returns one more than the index of the last element that a search looks for; 0 if there is
    /// none. The elements that have no entry in the search index, which are the last ones, are
    /// looked at one by one.
    fn last(&self, sought: Sought) -> usize
        ensures { IsIndexed self.now →
            result ≡ last_place (is_sought sought) self.now.elements.items }
    {
        let mut rest = self.elements.as_slice();
        while rest.len() > self.marks.len() {
            let Some((element, below)) = rest.split_last() else {
                return 0;
            };
            if sought.is(element) {
                return rest.len();
            }
            rest = below;
        }
        self.marks.last(sought)
    }

    /// Returns one more than the index of the last HTML element with that name; 0 if there is none,
    /// or for `Other`.
    fn top(&self, name: Name) -> usize
        ensures { IsIndexed self.now →
            result ≡ last_place (is_named name) self.now.elements.items }
    {
        if name == Name::Other {
            return 0;
        }
        self.last(Sought::Key(key_for(true, name, 0)))
    }

    /// Returns one more than the index of the last HTML element with one of these names, or 0.
    fn top_among(&self, names: &[Name]) -> usize
        ensures { IsIndexed self.now →
            result ≡ last_place (is_among names.now) self.now.elements.items }
    {
        let mut rest = names;
        let mut top = 0;
        while let Some((name, others)) = rest.split_first() {
            top = self.top(*name).max(top);
            rest = others;
        }
        top
    }

    /// Returns the index of an element on the stack.
    pub fn place_of(&self, element: &Open) -> Option<usize>
        ensures { let elements = self.now.elements.items in
            let this = is_this element.now.name element.now.id in
            IsIndexed self.now → is_in_html element.now.ns ≡ true →
            result ≡ index_at (last_place this elements) }
    {
        if element.ns == ElementNamespace::Html {
            return self.place_among(element.name, element.id);
        }
        self.place_by_id(element.id)
    }

    /// Returns the index of the last element with that id on the stack, by a walk over it.
    fn place_by_id(&self, id: NodeId) -> Option<usize> {
        for place in (0..self.elements.len()).rev() {
            if let Some(open) = self.get(place)
                && open.id == id
            {
                return Some(place);
            }
        }
        None
    }

    /// Returns the index of the HTML element with that name and id on the stack. The elements that
    /// have no entry in the search index, which are the last ones, are looked at one by one.
    pub fn place_among(&self, name: Name, id: NodeId) -> Option<usize>
        ensures { let elements = self.now.elements.items in IsIndexed self.now →
            result ≡ index_at (last_place (is_this name id) elements) }
    {
        if name == Name::Other {
            return None;
        }
        let mut rest = self.elements.as_slice();
        while rest.len() > self.marks.len() {
            let Some((element, below)) = rest.split_last() else {
                return None;
            };
            if element.is_this(name, id) {
                return Some(below.len());
            }
            rest = below;
        }
        self.marked_place(name, id)
    }

    /// Returns this among the elements that have entries in the search index.
    fn marked_place(&self, name: Name, id: NodeId) -> Option<usize>
        ensures { let marked = take (length self.now.marks.rows.items) self.now.elements.items in
            is_name name Other ≡ false → IsIndexed self.now →
            result ≡ index_at (last_place (is_this name id) marked) }
    {
        let mut top = self.marks.last(Sought::Key(key_for(true, name, 0)));
        while let Some(place) = top.checked_sub(1) {
            let Some(element) = self.get(place) else {
                return None;
            };
            if element.id == id {
                return Some(place);
            }
            top = self.marks.same(place).min(place);
        }
        None
    }

    /// Returns whether an HTML element with that name is open.
    pub fn has(&self, name: Name) -> bool
        ensures searched { IsIndexed self.now → IsTrue result ↔
            (0 < last_place (is_named name) self.now.elements.items) }
        ensures rule { let elements = self.now.elements.items in (tree : StandardTree) →
            is_name name Other ≡ false → IsStackOf tree elements → IsIndexed self.now →
            result ≡ is_open (text_of name) tree }
    {
        self.top(name) > 0
    }

    /// Returns the index of the last HTML element with one of these names.
    pub fn topmost(&self, names: &[Name]) -> Option<usize>
        ensures { IsIndexed self.now →
            result ≡ index_at (last_place (is_among names.now) self.now.elements.items) }
    {
        self.top_among(names).checked_sub(1)
    }

    /// Returns whether an HTML element with that name is in scope.
    pub fn in_scope(&self, name: Name, scope: Scope) -> bool
        ensures rule { let elements = self.now.elements.items in (tree : StandardTree) →
            is_name name Other ≡ false → IsStackOf tree elements → IsIndexed self.now →
            result ≡ has_in_scope (scope_kind scope) (text_of name ∷ []) tree }
        ensures searched { let outwards = reverse self.now.elements.items in IsIndexed self.now →
            result ≡ in_scope (is_named name) (ends_in scope) outwards }
    {
        self.comes_first(name, scope)
    }

    /// Returns whether an HTML element with that name is open, and none after it ends the scope.
    fn comes_first(&self, name: Name, scope: Scope) -> bool
        ensures { let outwards = reverse self.now.elements.items in IsIndexed self.now →
            result ≡ in_scope (is_named name) (ends_in scope) outwards }
    {
        let top = self.top(name);
        if top == 0 {
            return false;
        }
        if top < self.scope_end(scope) {
            return false;
        }
        true
    }

    /// Returns one more than the index of the last element that ends a scope, or 0.
    fn scope_end(&self, scope: Scope) -> usize
        ensures { IsIndexed self.now →
            result ≡ last_place (ends_in scope) self.now.elements.items }
    {
        match scope {
            Scope::Default => self.last(Sought::ScopeEnd),
            Scope::ListItem => {
                let ends = self.last(Sought::ScopeEnd);
                ends.max(self.top(Name::Ol)).max(self.top(Name::Ul))
            }
            Scope::Button => self.last(Sought::ScopeEnd).max(self.top(Name::Button)),
            Scope::Table => {
                let top = self.top(Name::Html);
                top.max(self.top(Name::Table)).max(self.top(Name::Template))
            }
        }
    }

    /// Returns whether the element at an index is in scope.
    pub fn is_in_scope(&self, place: usize) -> bool
        ensures { IsIndexed self.now → IsTrue result ↔
            (last_place ends_scope self.now.elements.items ≤ place + 1) }
    {
        self.last(Sought::ScopeEnd) <= place.saturating_add(1)
    }

    /// Returns the index of the last heading, if it is in scope.
    pub fn heading_in_scope(&self) -> Option<usize>
        ensures { IsIndexed self.now →
            IsFoundAt is_a_heading ends_scope self.now.elements.items result }
    {
        place_from(self.last(Sought::ScopeEnd), self.top_among(&HEADINGS))
    }

    /// Returns the index of the open list item that a new one with that name closes.
    pub fn item_before(&self, name: Name) -> Option<usize>
        ensures { let wanted = is_among (item_names name) in IsIndexed self.now →
            IsFoundAt wanted ends_items self.now.elements.items result }
    {
        place_from(self.last(Sought::ItemEnd), self.top_item(name))
    }

    /// Returns one more than the index of the last list item that a new one with that name closes,
    /// or 0.
    fn top_item(&self, name: Name) -> usize
        ensures { IsIndexed self.now →
            result ≡ last_place (is_among (item_names name)) self.now.elements.items }
    {
        match name {
            Name::Li => self.top_among(&[Name::Li]),
            _ => self.top_among(&[Name::Dd, Name::Dt]),
        }
    }

    /// Returns one more than the index of the last HTML element with that name, or 0. `number` is
    /// that of a name that is not in `Name`.
    fn top_numbered(&self, name: Name, number: u32) -> usize
        ensures known { is_name name Other ≡ false → IsIndexed self.now →
            result ≡ last_place (is_named name) self.now.elements.items }
        ensures other { IsIndexed self.now →
            result ≡ last_place (has_key true name number) self.now.elements.items }
    {
        self.last(Sought::Key(key_for(true, name, number)))
    }

    /// Returns the index of the last HTML element with that name, unless a special element comes
    /// after it. `number` is that of a name that is not in `Name`.
    pub fn last_named(&self, name: Name, number: u32) -> Option<usize>
        ensures known { is_name name Other ≡ false → IsIndexed self.now →
            IsFoundAt (is_named name) is_special_element self.now.elements.items result }
        ensures other { let elements = self.now.elements.items in IsIndexed self.now →
            IsFoundAt (has_key true name number) is_special_element elements result }
    {
        place_from(self.last(Sought::Special), self.top_numbered(name, number))
    }

    /// Returns one more than the index of the last foreign element with that name, or 0. `number`
    /// is that of a name that is not in `Name`.
    pub fn top_foreign(&self, name: Name, number: u32) -> usize
        ensures { IsIndexed self.now →
            result ≡ last_place (has_key false name number) self.now.elements.items }
    {
        self.last(Sought::Key(key_for(false, name, number)))
    }

    /// Returns one more than the index of the last HTML element, or 0.
    pub fn top_html(&self) -> usize
        ensures { IsIndexed self.now →
            result ≡ last_place (λ o. is_in_html o.ns) self.now.elements.items }
    {
        self.last(Sought::Html)
    }

    /// Returns the index of the first special element after an index of the stack: the furthest
    /// block.
    pub fn furthest_block(&self, place: usize) -> Option<usize>
        ensures { let after = drop (place + 1) self.now.elements.items in
            result ≡ first_from is_special_element (place + 1) after }
    {
        if place >= self.elements.len() {
            return None;
        }
        let mut index = place + 1;
        let mut rest = &self.elements.as_slice()[place + 1..];
        while let Some((open, others)) = rest.split_first() {
            if is_special(open) {
                return Some(index);
            }
            index += 1;
            rest = others;
        }
        None
    }
}

/// Returns `top` - 1, unless `top` is 0 or comes before the end of a search.
fn place_from(end: usize, top: usize) -> Option<usize>
    ensures { IsPlaceFrom end top result }
{
    if top < end {
        return None;
    }
    top.checked_sub(1)
}
