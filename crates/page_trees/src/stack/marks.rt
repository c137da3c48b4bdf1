//! A search index over the stack of open elements: each search takes constant time. A call that
//! returns a `Result` fails only when memory runs out.

ghost use Rattle.std.specs.Prelude.{◌≡◌, ◌+◌, ◌<◌, ◌≤◌, [], ◌∷◌, ◌++◌, List, Some, false};
ghost use Rattle.std.specs.Prelude.{if◌then◌else◌, length, slice_get, slice_index, slice_set, take, true};
ghost use Rattle.page_trees.specs.Scopes.{last_place};
ghost use Rattle.page_trees.specs.SearchIndex.{AreExchanged, AreRows, IsIndex, is_sought, key_for};
ghost use Rattle.page_trees.specs.SearchIndex.{key_of as the_key, mark_of};
ghost use Rattle.page_trees.specs.declared.stack.Open.{Open as AnOpen};

use super::links::Links;
use super::{ElementNamespace, Open};
use crate::fault::PageFault;
use crate::name::{COUNT, Name};
use crate::sets::{ends_default_scope, is_crossed_by_items, is_special};
use std::alloc::Global;

/// The answers for an element and those before it on the stack. Each is one more than an index of
/// the stack, and 0 means that there is none.
#[derive(Clone, Copy, Drop)]
pub struct Mark {
    /// The last HTML element up to here.
    html: usize,
    /// The last special element up to here.
    special: usize,
    /// The last element up to here that ends the default scope.
    ends: usize,
    /// The last special element up to here that ends the search for an open list item.
    item_ends: usize,
}

/// The answers for an empty stack.
const NOTHING: Mark = Mark {
    html: 0,
    special: 0,
    ends: 0,
    item_ends: 0,
};

impl Mark {
    fn is_same(&self, other: &Mark) -> bool
        ensures { result ≡ true → self.now ≡ other.now }
    {
        self.html == other.html
            && self.special == other.special
            && self.ends == other.ends
            && self.item_ends == other.item_ends
    }
}

/// Returns this position if the element qualifies, and otherwise the one found before.
fn topmost_of(is_one: bool, top: usize, below: usize) -> usize
    ensures { result ≡ (if is_one then top else below) }
{
    if is_one { top } else { below }
}

/// Returns the answers for an element at index `top` - 1; `below` has those for the element before
/// it.
fn found(element: &Open, top: usize, below: &Mark) -> Mark
    ensures { (elements : List AnOpen) → below.now ≡ mark_of elements →
        top ≡ length elements + 1 → result ≡ mark_of (elements ++ element.now ∷ []) }
{
    Mark {
        html: topmost_of(Sought::Html.is(element), top, below.html),
        special: topmost_of(Sought::Special.is(element), top, below.special),
        ends: topmost_of(Sought::ScopeEnd.is(element), top, below.ends),
        item_ends: topmost_of(Sought::ItemEnd.is(element), top, below.item_ends),
    }
}

/// Returns a number that elements with the same name share, if both are HTML elements or neither
/// is. `number` is that of a name that is not in `Name`.
pub fn key_for(is_html: bool, name: Name, number: u32) -> usize
    ensures { result ≡ key_for is_html name number }
{
    let name_number = if name == Name::Other {
        COUNT + number as usize
    } else {
        name as usize
    };
    if is_html {
        name_number * 2
    } else {
        name_number * 2 + 1
    }
}

pub fn key_of(element: &Open) -> usize
    ensures { result ≡ the_key element.now }
{
    key_for(
        element.ns == ElementNamespace::Html,
        element.name,
        element.number,
    )
}

/// What a search looks for.
#[derive(Clone, Copy, Drop)]
pub enum Sought {
    /// An HTML element.
    Html,
    /// A special element.
    Special,
    /// An element that ends the default scope.
    ScopeEnd,
    /// A special element that ends the search for an open list item.
    ItemEnd,
    /// An element with this key.
    Key(usize),
}

impl Sought {
    /// Returns whether the search ends at an element.
    pub fn is(self, element: &Open) -> bool
        ensures { result ≡ is_sought self element.now }
    {
        match self {
            Sought::Html => element.ns == ElementNamespace::Html,
            Sought::Special => is_special(element),
            Sought::ScopeEnd => ends_default_scope(element),
            Sought::ItemEnd => is_special(element) && !is_crossed_by_items(element),
            Sought::Key(key) => key_of(element) == key,
        }
    }
}

/// The index over the stack, with one entry for each element. The entries from some position on may
/// be missing while elements there change.
#[derive(Drop)]
pub struct Marks {
    rows: Vec<Mark>,
    links: Links,
}

impl Marks {
    pub fn new(alloc: Global) -> Marks
        ensures { IsIndex [] result }
    {
        Marks {
            rows: Vec::new(alloc),
            links: Links::new(alloc),
        }
    }

    /// Returns how many elements have entries.
    pub fn len(&self) -> usize
        ensures { result ≡ length self.now.rows.items }
    {
        self.rows.as_slice().len()
    }

    /// Returns the entry of the last element that has one.
    fn last_row(&self) -> Mark
        ensures { (elements : List AnOpen) → IsIndex elements self.now →
            result ≡ mark_of (take (length self.now.rows.items) elements) }
    {
        match self.rows.as_slice().last() {
            Some(mark) => *mark,
            None => NOTHING,
        }
    }

    /// Returns one more than the index of the last element that the search looks for, among those
    /// that have entries; 0 if there is none.
    pub fn last(&self, sought: Sought) -> usize
        ensures { (elements : List AnOpen) → IsIndex elements self.now →
            result ≡ last_place (is_sought sought) (take (length self.now.rows.items) elements) }
    {
        match sought {
            Sought::Html => self.last_row().html,
            Sought::Special => self.last_row().special,
            Sought::ScopeEnd => self.last_row().ends,
            Sought::ItemEnd => self.last_row().item_ends,
            Sought::Key(key) => self.links.top(key),
        }
    }

    /// Returns one more than the index of the previous element with the key of the one at an index.
    pub fn same(&self, place: usize) -> usize
        ensures { result ≡ slice_index self.now.links.same.items place }
    {
        self.links.same(place)
    }

    /// Reserves memory for the entry of one more element, which has that key.
    pub fn reserve(&mut self, count: usize, key: usize) -> Result<(), PageFault>
        ensures { (elements : List AnOpen) →
            IsIndex elements self.old → IsIndex elements self.new }
    {
        let more = count.saturating_sub(self.rows.len());
        self.rows.reserve(more)?;
        self.links.reserve(more)?;
        self.links.make_room(key)
    }

    /// Removes the entry of the last element that has one.
    fn pop(&mut self, elements: &[Open])
        requires { 0 < length self.old.rows.items }
        ensures index { IsIndex elements.now self.old → IsIndex elements.now self.new }
        ensures short { length self.new.rows.items + 1 ≡ length self.old.rows.items }
    {
        let _ = self.rows.pop();
        if let Some(element) = elements.get(self.rows.as_slice().len()) {
            self.links.pop(key_of(element));
        }
    }

    /// Removes the entries from an index on.
    pub fn cut(&mut self, place: usize, elements: &[Open])
        ensures index { IsIndex elements.now self.old → IsIndex elements.now self.new }
        ensures short { length self.new.rows.items ≤ place }
    {
        while self.rows.as_slice().len() > place {
            self.pop(elements);
        }
    }

    /// Adds the missing entries, as far as memory is reserved for them.
    pub fn fill(&mut self, elements: &[Open])
        ensures { IsIndex elements.now self.old → IsIndex elements.now self.new }
    {
        for _ in self.rows.as_slice().len()..elements.len() {
            self.add_next(elements);
        }
    }

    /// Adds an entry for the first element that has none, if there is one.
    fn add_next(&mut self, elements: &[Open])
        ensures { IsIndex elements.now self.old → IsIndex elements.now self.new }
    {
        if let Some(element) = elements.get(self.rows.as_slice().len()) {
            let _ = self.add(element);
        }
    }

    /// Adds an entry for an element. Returns whether memory was reserved for it; otherwise nothing
    /// is added.
    fn add(&mut self, element: &Open) -> bool
        ensures { (elements : List AnOpen) →
            slice_get elements (length self.old.rows.items) ≡ Some element.now →
            IsIndex elements self.old → IsIndex elements self.new }
    {
        let count = self.rows.as_slice().len();
        if count < self.rows.capacity() {
            let mark = found(element, count + 1, &self.last_row());
            if self.links.add(key_of(element)) {
                self.rows.push_reserved(mark);
                return true;
            }
        }
        false
    }

    /// Updates the entries after the elements at an index of the stack and at the next one changed
    /// places. Both have entries, or neither has. It takes as many steps as there are elements up to the
    /// next one for which all answers stay the same.
    pub fn exchange(&mut self, place: usize, elements: &[Open])
        ensures index { (former : List AnOpen) → place + 1 < length self.old.rows.items →
            AreExchanged former elements.now place →
            IsIndex former self.old → IsIndex elements.now self.new }
        ensures kept { length self.old.rows.items ≤ place → self.new ≡ self.old }
    {
        if place >= self.rows.len() {
            return;
        }
        let Some(upper) = elements.get(place) else {
            return;
        };
        let Some(lower) = elements.get(place + 1) else {
            return;
        };
        self.links.exchange(place, key_of(lower), key_of(upper));
        self.refresh(place, elements);
    }

    /// Returns the entry of the element before an index.
    fn row_before(&self, place: usize) -> Mark
        ensures { (elements : List AnOpen) → AreRows elements self.now.rows.items →
            place ≤ length self.now.rows.items → result ≡ mark_of (take place elements) }
    {
        if place == 0 {
            return NOTHING;
        }
        match self.rows.get(place - 1) {
            Some(mark) => *mark,
            None => NOTHING,
        }
    }

    /// Updates the entries from an index on, up to the first one that is right already and whose
    /// element did not change.
    fn refresh(&mut self, place: usize, elements: &[Open])
        ensures links { self.new.links ≡ self.old.links }
        ensures long { length self.new.rows.items ≡ length self.old.rows.items }
        ensures rows { (former : List AnOpen) → place + 1 < length self.old.rows.items →
            AreExchanged former elements.now place → AreRows former self.old.rows.items →
            length self.old.rows.items ≤ length former →
            AreRows elements.now self.new.rows.items }
    {
        let mut below = self.row_before(place);
        for index in place..self.rows.as_slice().len() {
            let Some(element) = elements.get(index) else {
                return;
            };
            let mark = found(element, index + 1, &below);
            if index - place > 1 && self.has_row(index, &mark) {
                return;
            }
            self.put_row(index, mark);
            below = mark;
        }
    }

    /// Returns whether the entry at an index is this one.
    fn has_row(&self, index: usize, mark: &Mark) -> bool
        ensures { result ≡ true → slice_get self.now.rows.items index ≡ Some mark.now }
    {
        match self.rows.get(index) {
            Some(row) => row.is_same(mark),
            None => false,
        }
    }

    fn put_row(&mut self, index: usize, mark: Mark)
        ensures rows { self.new.rows.items ≡ slice_set self.old.rows.items index mark }
        ensures links { self.new.links ≡ self.old.links }
    {
        if let Some(entry) = self.rows.get_mut(index) {
            *entry = mark;
        }
    }
}
