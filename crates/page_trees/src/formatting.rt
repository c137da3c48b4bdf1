//! The list of active formatting elements (13.2.4.3).

ghost use Rattle.std.specs.Prelude.{◌≡◌, ◌<◌, ◌≤◌, ◌^◌, [], ◌∷◌, ◌++◌, Contains, IfNone, IfSome};
ghost use Rattle.std.specs.Prelude.{List, MatchOption, None, OnErr, OnOk, length, ℕ};
ghost use Rattle.std.specs.Prelude.{insert, remove, slice_get, slice_set};
ghost use Rattle.std.specs.List.{list_all};
ghost use Rattle.std.specs.Option.{option_and_then, option_copied, option_to_list};
ghost use Rattle.dom_links.specs.Forest.{Forest};
ghost use Rattle.dom_trees.specs.Views.{node_element};
ghost use Rattle.page_trees.specs.Formatting.{IsFirst, IsNamed, NoneHas, after_marker};
ghost use Rattle.page_trees.specs.Formatting.{are_alike, element_in, has_attr, is_of};
ghost use Rattle.page_trees.specs.Formatting.{last_place, same_attr, same_element, third_alike};
ghost use Rattle.page_trees.specs.Formatting.{with_room};
ghost use Rattle.page_trees.specs.Likeness.{AreLikesOf, HasLikeness, IsLikeness, KnowsLikes};
ghost use Rattle.page_trees.specs.ListIndex.{FindsLikes, IsEntryIn, IsIndexOf, IsPlaceIn};
ghost use Rattle.page_trees.specs.ListIndex.{likes_of};
ghost use Rattle.page_trees.specs.Popping.{before_last, is_a_marker};
ghost use Rattle.page_trees.specs.declared.formatting.Entry.{Entry as AnyEntry};
ghost use Rattle.page_trees.specs.declared.formatting.Entry.TheVariants.{Element as AnEntry};
ghost use Rattle.page_trees.specs.declared.formatting.Entry.TheVariants.{Marker as AMarker};

mod index;
mod places;

use crate::fault::PageFault;
use crate::name::Name;
use crate::stack::Open;
use dom_nodes::name::Attr;
use dom_nodes::node_data::Element;
use dom_nodes::node_id::NodeId;
use dom_trees::node_ref::NodeRef;
use dom_trees::tree::Tree;
use index::FormattingIndex;
use std::alloc::Global;
use std::marker::Model;

/// A list of this many entries gets an index, by which it is searched; a list of half as many loses
/// it. In a shorter list, each search looks at every entry.
const MANY: usize = 16;

/// An entry of the list of active formatting elements.
#[derive(Clone, Copy, Drop)]
pub enum Entry {
    Marker,
    Element(Open),
}

impl Entry {
    fn is_marker(&self) -> bool
        ensures { result ≡ is_a_marker self.now }
    {
        match self {
            Entry::Marker => true,
            Entry::Element(_) => false,
        }
    }

    /// Returns whether the entry is of the element with that id.
    fn is_of(&self, id: NodeId) -> bool
        ensures { result ≡ is_of id self.now }
    {
        match self {
            Entry::Marker => false,
            Entry::Element(open) => open.id == id,
        }
    }

    /// Returns the element of an entry that is no marker.
    fn element(&self) -> Option<Open>
        ensures { result ≡ element_in self.now }
    {
        match self {
            Entry::Marker => None,
            Entry::Element(open) => Some(*open),
        }
    }
}

/// The list of active formatting elements, the oldest first.
#[derive(Drop)]
pub struct ActiveFormatting {
    entries: Vec<Entry>,
    /// The index of a long list. A long list has none after memory was refused for it.
    index: Option<FormattingIndex>,
}

/// Returns whether the element has an attribute with that name and value.
fn has_attr(element: &Element, attr: &Attr) -> bool
    ensures { result ≡ has_attr element.now.attrs attr.now }
{
    let mut rest = element.attrs().as_slice();
    while let Some((also, others)) = rest.split_first() {
        if is_same_attr(attr, also) {
            return true;
        }
        rest = others;
    }
    false
}

fn is_same_attr(one: &Attr, other: &Attr) -> bool
    ensures { result ≡ same_attr one.now other.now }
{
    if !one.name.is_same(&other.name) {
        return false;
    }
    one.value.as_str() == other.value.as_str()
}

/// Returns whether each attribute of an element is one of the other, too.
fn has_attrs(one: &Element, other: &Element) -> bool
    ensures { result ≡ list_all (has_attr other.now.attrs) one.now.attrs }
{
    let mut rest = one.attrs().as_slice();
    while let Some((attr, others)) = rest.split_first() {
        if !has_attr(other, attr) {
            return false;
        }
        rest = others;
    }
    true
}

/// Returns whether two elements have the same name and the same attributes, in any order.
fn is_same_element(one: &Element, other: &Element) -> bool
    ensures { result ≡ same_element one.now other.now }
{
    if !one.name().is_same(&other.name()) {
        return false;
    }
    if !has_attrs(one, other) {
        return false;
    }
    has_attrs(other, one)
}

/// Returns the element with that id.
fn element_of(tree: &Tree, id: NodeId) -> Option<&Element>
    ensures { option_copied result ≡ node_element tree.now id }
{
    NodeRef::new(id, tree).element_ref()
}

/// Returns whether two ids are of elements with the same name and the same attributes.
fn are_same(tree: &Tree, one: NodeId, other: NodeId) -> bool
    ensures { result ≡ are_alike tree.now one other }
{
    match (element_of(tree, one), element_of(tree, other)) {
        (Some(one), Some(other)) => is_same_element(one, other),
        _ => false,
    }
}

/// Returns the last element with that name after the last marker, by a walk over the entries.
fn last_named(entries: &[Entry], name: Name) -> Option<Open>
    ensures { let elements = after_marker entries.now in
        MatchOption result (NoneHas (IsNamed name) elements) (IsFirst (IsNamed name) elements) }
{
    let mut rest = entries;
    while let Some((entry, before)) = rest.split_last() {
        let Entry::Element(open) = entry else {
            return None;
        };
        if open.name == name {
            return Some(*open);
        }
        rest = before;
    }
    None
}

/// Returns the index of an element's last entry, by a walk over the entries.
fn last_entry_of(entries: &[Entry], id: NodeId) -> Option<usize>
    ensures { result ≡ last_place (is_of id) entries.now }
{
    let mut rest = entries;
    while let Some((entry, before)) = rest.split_last() {
        if entry.is_of(id) {
            return Some(before.len());
        }
        rest = before;
    }
    None
}

/// Returns the index of the third entry, from the end and after the last marker, whose element is
/// like that one, by a walk over the entries.
fn third_like(entries: &[Entry], tree: &Tree, id: NodeId) -> Option<usize>
    ensures { result ≡ third_alike tree.now id entries.now }
{
    let mut more: usize = 2;
    let mut rest = entries;
    while let Some((entry, before)) = rest.split_last() {
        let Entry::Element(other) = entry else {
            return None;
        };
        if are_same(tree, other.id, id) {
            let Some(fewer) = more.checked_sub(1) else {
                return Some(before.len());
            };
            more = fewer;
        }
        rest = before;
    }
    None
}

/// Returns the element of the entry at a place, if it is no marker.
fn element_among(entries: &[Entry], place: usize) -> Option<Open>
    ensures { result ≡ option_and_then element_in (slice_get entries.now place) }
{
    entries.get(place)?.element()
}

/// Returns the index of the third entry, from the end and after the last marker, whose element is
/// like that one, by the index of the list.
fn third_found(
    index: &FormattingIndex,
    entries: &[Entry],
    tree: &Tree,
    id: NodeId,
    likeness: u32,
) -> Option<usize>
    requires { FindsLikes tree.now id likeness entries.now index.now }
    ensures { result ≡ third_alike tree.now id entries.now }
{
    let mut to_pass: usize = 2;
    let mut rest = entries;
    while let Some(place) = index.last_like(likeness, rest.len()) {
        let Some(other) = element_among(rest, place) else {
            return None;
        };
        if are_same(tree, other.id, id) {
            let Some(fewer) = to_pass.checked_sub(1) else {
                return Some(place);
            };
            to_pass = fewer;
        }
        rest = &rest[..place];
    }
    None
}

/// Returns an index of a list, if memory suffices.
fn made_index(entries: &[Entry], tree: &Tree) -> Option<FormattingIndex>
    ensures indexed { IsIndexOf entries.now result }
    ensures likes { AreLikesOf tree.now entries.now (likes_of result) }
{
    let mut index = FormattingIndex::new(tree.allocator());
    for place in 0..entries.len() {
        let Some(entry) = entries.get(place) else {
            unreachable!();
        };
        let likeness = index.likeness_in(tree, entry)?;
        let Ok(()) = index.add(place, entry, likeness) else {
            return None;
        };
    }
    Some(index)
}

/// Returns the index of a list into which an entry of that likeness was inserted at a place, if
/// there is one and memory suffices.
fn with_entry(
    index: Option<FormattingIndex>,
    place: usize,
    entry: &Entry,
    likeness: u32,
) -> Option<FormattingIndex>
    requires { IfSome index (λ index. IsPlaceIn index place) }
    ensures indexed { (entries : List AnyEntry) → place ≤ length entries →
        IsIndexOf entries index → IsIndexOf (insert entries place entry.now) result }
    ensures likes { (forest : Forest) (entries : List AnyEntry) → place ≤ length entries →
        IsLikeness forest entry.now likeness (likes_of index) →
        AreLikesOf forest entries (likes_of index) →
        AreLikesOf forest (insert entries place entry.now) (likes_of result) }
{
    let mut known = index?;
    match known.add(place, entry, likeness) {
        Ok(()) => Some(known),
        Err(_) => None,
    }
}

/// Returns the index of a list from a place of which an entry was removed, if there is one and
/// enough entries are left.
fn without_entry(
    index: Option<FormattingIndex>,
    place: usize,
    left: usize,
) -> Option<FormattingIndex>
    requires { IfSome index (λ index. IsEntryIn index place) }
    ensures indexed { (entries : List AnyEntry) → place < length entries →
        IsIndexOf entries index → IsIndexOf (remove entries place) result }
    ensures likes { (forest : Forest) (entries : List AnyEntry) → place < length entries →
        AreLikesOf forest entries (likes_of index) →
        AreLikesOf forest (remove entries place) (likes_of result) }
    ensures kept { (forest : Forest) (id likeness : ℕ) →
        HasLikeness forest id likeness (likes_of index) →
        HasLikeness forest id likeness (likes_of result) }
{
    let mut known = index?;
    if left < MANY / 2 {
        return None;
    }
    known.remove(place);
    Some(known)
}

/// Returns the index of a list in which an entry of that likeness replaced the one at a place, if
/// there is one and memory suffices.
fn with_copy(
    index: Option<FormattingIndex>,
    place: usize,
    entry: &Entry,
    likeness: u32,
) -> Option<FormattingIndex>
    ensures indexed { (entries : List AnyEntry) →
        IsIndexOf entries index → IsIndexOf (slice_set entries place entry.now) result }
    ensures likes { (forest : Forest) (entries : List AnyEntry) →
        IsLikeness forest entry.now likeness (likes_of index) →
        AreLikesOf forest entries (likes_of index) →
        AreLikesOf forest (slice_set entries place entry.now) (likes_of result) }
{
    let mut known = index?;
    match known.replace(place, entry, likeness) {
        Ok(()) => Some(known),
        Err(_) => None,
    }
}

/// A contract sees the list as its entries, with what its index knows of their likeness.
impl Model for ActiveFormatting {
    ghost use Rattle.page_trees.specs.Likeness.{Listed};
    ghost use Rattle.page_trees.specs.ListIndex.{IsIndexOf, likes_of};

    ghost Value = { Listed };

    ghost view = { λ list. record { entries = list.entries.items; likes = likes_of list.index } };

    ghost invariant = { λ list. IsIndexOf list.entries.items list.index };
}

impl ActiveFormatting {
    pub fn new(alloc: Global) -> ActiveFormatting
        ensures { result ≡ record { entries = []; likes = None } }
    {
        ActiveFormatting {
            entries: Vec::new(alloc),
            index: None,
        }
    }

    pub fn len(&self) -> usize
        ensures { result ≡ length self.now.entries }
    {
        self.entries.len()
    }

    /// Returns whether the list has fewer entries than are searched by an index.
    fn is_short(&self) -> bool {
        self.entries.len() < MANY
    }

    pub fn as_slice(&self) -> &[Entry]
        ensures { result.now ≡ self.now.entries }
    {
        self.entries.as_slice()
    }

    pub fn get(&self, index: usize) -> Option<Entry>
        ensures found { IfSome result (Contains self.now.entries) }
        ensures value { result ≡ slice_get self.now.entries index }
    {
        self.entries.get(index).copied()
    }

    /// Appends an element. If three elements after the last marker have its name and attributes,
    /// the earliest is removed (the Noah's Ark clause). Fails only when memory runs out.
    pub fn enlist(&mut self, tree: &Tree, element: &Open) -> Result<(), PageFault>
        requires { KnowsLikes tree.now self.old }
        ensures ok { let roomy = with_room tree.now element.now.id self.old.entries in
            OnOk result (self.new.entries ≡ roomy ++ AnEntry element.now ∷ []) }
        ensures err { let roomy = with_room tree.now element.now.id self.old.entries in
            OnErr result (self.new.entries ≡ roomy) }
        ensures likes { KnowsLikes tree.now self.new }
    {
        let entry = Entry::Element(*element);
        let likeness = self.likeness_of(tree, element.id);
        self.make_room(tree, element.id, likeness);
        self.push(entry, likeness)
    }

    /// Appends a marker. Fails only when memory runs out.
    pub fn push_marker(&mut self) -> Result<(), PageFault>
        ensures ok { OnOk result (self.new.entries ≡ self.old.entries ++ AMarker ∷ []) }
        ensures err { OnErr result (self.new ≡ self.old) }
        ensures likes { (forest : Forest) → KnowsLikes forest self.old →
            KnowsLikes forest self.new }
    {
        self.push(Entry::Marker, 0)
    }

    /// Appends an entry of that likeness. Fails only when memory runs out.
    fn push(&mut self, entry: Entry, likeness: u32) -> Result<(), PageFault>
        ensures ok { OnOk result (self.new.entries ≡ self.old.entries ++ entry ∷ []) }
        ensures err { OnErr result (self.new ≡ self.old) }
        ensures likes { (forest : Forest) → IsLikeness forest entry likeness self.old.likes →
            KnowsLikes forest self.old → KnowsLikes forest self.new }
    {
        let place = self.entries.len();
        self.entries.push(entry)?;
        self.index = with_entry(self.index.take(), place, &entry, likeness);
        Ok(())
    }

    /// Returns the likeness of an element that is to be added: elements with the same name and the
    /// same attributes have the same. A list that grew long is indexed first. Without an index it
    /// returns 0, and `third_same` compares the elements themselves.
    fn likeness_of(&mut self, tree: &Tree, id: NodeId) -> u32
        ensures entries { self.new.entries ≡ self.old.entries }
        ensures likes { KnowsLikes tree.now self.old → KnowsLikes tree.now self.new }
        ensures element { HasLikeness tree.now id result self.new.likes }
    {
        self.index_if_long(tree);
        let Some(mut known) = self.index.take() else {
            return 0;
        };
        let Some(likeness) = known.likeness_of(tree, id) else {
            return 0;
        };
        self.index = Some(known);
        likeness
    }

    /// Makes the index of a list that grew long, if memory suffices.
    fn index_if_long(&mut self, tree: &Tree)
        ensures entries { self.new.entries ≡ self.old.entries }
        ensures likes { KnowsLikes tree.now self.old → KnowsLikes tree.now self.new }
    {
        if self.index.is_some() {
            return;
        }
        if self.is_short() {
            return;
        }
        self.index = made_index(self.entries.as_slice(), tree);
    }

    /// Returns the index of the third entry, from the end and after the last marker, with the same
    /// name and attributes (the Noah's Ark clause). `likeness` is that of the element.
    fn third_same(&self, tree: &Tree, id: NodeId, likeness: u32) -> Option<usize>
        requires list { KnowsLikes tree.now self.now }
        requires element { HasLikeness tree.now id likeness self.now.likes }
        ensures { result ≡ third_alike tree.now id self.now.entries }
    {
        if self.is_short() {
            return third_like(self.entries.as_slice(), tree, id);
        }
        match &self.index {
            Some(index) => third_found(index, self.entries.as_slice(), tree, id, likeness),
            None => third_like(self.entries.as_slice(), tree, id),
        }
    }

    /// Makes room for an element of that likeness: if three elements after the last marker have its
    /// name and attributes, the earliest is removed (the Noah's Ark clause).
    fn make_room(&mut self, tree: &Tree, id: NodeId, likeness: u32)
        requires list { KnowsLikes tree.now self.old }
        requires element { HasLikeness tree.now id likeness self.old.likes }
        ensures ark { self.new.entries ≡ with_room tree.now id self.old.entries }
        ensures likes { KnowsLikes tree.now self.new }
        ensures element { HasLikeness tree.now id likeness self.new.likes }
    {
        if let Some(place) = self.third_same(tree, id, likeness) {
            self.remove_at(place);
        }
    }

    /// Removes the last entry and returns it.
    pub fn take(&mut self) -> Option<Entry>
        ensures items { self.old.entries ≡ self.new.entries ++ option_to_list result }
        ensures none { IfNone result (self.old.entries ≡ []) }
        ensures likes { (forest : Forest) → KnowsLikes forest self.old →
            KnowsLikes forest self.new }
    {
        let last = self.entries.pop()?;
        let left = self.entries.as_slice().len();
        self.index = without_entry(self.index.take(), left, left);
        Some(last)
    }

    /// Clears the list up to the last marker: removes the entries after it, and the marker. A list
    /// without a marker is empty afterwards.
    pub fn clear_to_marker(&mut self)
        ensures entries { self.new.entries ≡ before_last is_a_marker self.old.entries }
        ensures likes { (forest : Forest) → KnowsLikes forest self.old →
            KnowsLikes forest self.new }
    {
        while let Some(entry) = self.take() {
            if entry.is_marker() {
                return;
            }
        }
    }

    /// Replaces the element at an index of the list.
    pub fn replace(&mut self, tree: &Tree, index: usize, element: &Open)
        ensures entries { let copy = AnEntry element.now in
            self.new.entries ≡ slice_set self.old.entries index copy }
        ensures likes { KnowsLikes tree.now self.old → KnowsLikes tree.now self.new }
    {
        let likeness = self.likeness_of(tree, element.id);
        if let Some(entry) = self.entries.get_mut(index) {
            *entry = Entry::Element(*element);
            let copy = Entry::Element(*element);
            self.index = with_copy(self.index.take(), index, &copy, likeness);
        }
    }

    /// Inserts an element at an index of the list. Fails only when memory runs out.
    pub fn insert(&mut self, tree: &Tree, index: usize, element: &Open) -> Result<(), PageFault>
        ensures ok { let entry = AnEntry element.now in
            OnOk result (self.new.entries ≡ insert self.old.entries index entry) }
        ensures err { OnErr result (self.new.entries ≡ self.old.entries) }
        ensures likes { KnowsLikes tree.now self.old → KnowsLikes tree.now self.new }
    {
        let likeness = self.likeness_of(tree, element.id);
        let place = index.min(self.entries.len());
        let entry = Entry::Element(*element);
        self.entries.insert(place, entry)?;
        self.index = with_entry(self.index.take(), place, &entry, likeness);
        Ok(())
    }

    pub fn remove_at(&mut self, index: usize)
        ensures entries { self.new.entries ≡ remove self.old.entries index }
        ensures likes { (forest : Forest) → KnowsLikes forest self.old →
            KnowsLikes forest self.new }
        ensures kept { (forest : Forest) (id likeness : ℕ) →
            HasLikeness forest id likeness self.old.likes →
            HasLikeness forest id likeness self.new.likes }
    {
        if index < self.entries.len() {
            let _ = self.entries.remove(index);
            let left = self.entries.len();
            self.index = without_entry(self.index.take(), index, left);
        }
    }

    /// Returns the index of an element's entry: the last one, if it had several.
    pub fn index_of(&self, id: NodeId) -> Option<usize>
        ensures place { result ≡ last_place (is_of id) self.now.entries }
        ensures room { length self.now.entries < 2 ^ 64 }
    {
        match &self.index {
            Some(index) => index.position_of(id),
            None => last_entry_of(self.entries.as_slice(), id),
        }
    }

    /// Returns the last element with that name after the last marker.
    pub fn named(&self, name: Name) -> Option<Open>
        ensures { let elements = after_marker self.now.entries in
            MatchOption result (NoneHas (IsNamed name) elements) (IsFirst (IsNamed name) elements) }
    {
        let Some(index) = &self.index else {
            return last_named(self.entries.as_slice(), name);
        };
        self.element_at(index.last_named(name)?)
    }

    /// Returns the element of the entry at an index, if it is no marker.
    pub fn element_at(&self, index: usize) -> Option<Open>
        ensures { result ≡ option_and_then element_in (slice_get self.now.entries index) }
    {
        self.get(index)?.element()
    }
}
