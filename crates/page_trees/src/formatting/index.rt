//! An index of the list of active formatting elements, for a list that is long.

ghost use Rattle.std.specs.Prelude.{◌≡◌, ◌<◌, ◌≤◌, [], IfOk, IfSome, OnOk, Some};
ghost use Rattle.std.specs.Prelude.{insert, length, map, remove, slice_set, string_bytes, take};
ghost use Rattle.std.specs.Option.{OnSome};
ghost use denote.Enum.Declared.{tag_of};
ghost use Rattle.page_trees.specs.KeyPlaces.{last_key};
ghost use Rattle.page_trees.specs.Likeness.{HasNumber, IsKeyOf, KeepsNumbers, attr_text};
ghost use Rattle.page_trees.specs.Likeness.{element_text, texts_with};
ghost use Rattle.page_trees.specs.ListIndex.{AreIndexed, IsEntryIn, IsPlaceIn};
ghost use Rattle.page_trees.specs.ListIndex.{after_marker, id_key, last_after_marker, last_like};
ghost use Rattle.page_trees.specs.ListIndex.{marker_key, name_key};
ghost use Rattle.page_trees.specs.NameNumbers.{number_in, numbers_of};
ghost use Rattle.page_trees.specs.contracts.name.Name.{the_type};

use super::places::KeyPlaces;
use super::{Entry, element_of};
use crate::fault::PageFault;
use crate::name::Name;
use dom_nodes::name::Attr;
use dom_nodes::node_data::Element;
use dom_nodes::node_id::NodeId;
use dom_trees::tree::Tree;
use std::alloc::Global;
use std::collections::{BTreeMap, BTreeSet};

/// The key of a marker, which is neither an id nor the number of a name.
const MARKER: u32 = 0xffff_ffff;

/// Finds entries by their element, their name or their likeness without a walk over the list.
/// Elements with the same name and the same attributes, in whatever order, have the same likeness.
#[derive(Drop)]
pub struct FormattingIndex {
    ids: KeyPlaces,
    names: KeyPlaces,
    likes: KeyPlaces,
    /// The likeness of each name with attributes that an element had.
    numbers: BTreeMap<String, u32>,
}

fn id_key(entry: &Entry) -> u32
    ensures { result ≡ id_key entry.now }
{
    match entry {
        Entry::Marker => MARKER,
        Entry::Element(open) => open.id.value() as u32,
    }
}

fn name_key(entry: &Entry) -> u32
    ensures { result ≡ name_key entry.now }
{
    match entry {
        Entry::Marker => MARKER,
        Entry::Element(open) => open.name as u32,
    }
}

/// Returns a place, unless a marker comes after it.
fn after_marker(place: usize, marker: Option<usize>) -> Option<usize>
    ensures { result ≡ after_marker place marker }
{
    let Some(marker) = marker else {
        return Some(place);
    };
    if place < marker {
        return None;
    }
    Some(place)
}

impl FormattingIndex {
    pub fn new(alloc: Global) -> FormattingIndex
        ensures indexed { AreIndexed [] result }
        ensures likes { result.likes ≡ [] }
    {
        FormattingIndex {
            ids: KeyPlaces::new(alloc),
            names: KeyPlaces::new(alloc),
            likes: KeyPlaces::new(alloc),
            numbers: BTreeMap::new(alloc),
        }
    }

    /// Returns the likeness of an element, if memory suffices.
    pub fn likeness_of(&mut self, tree: &Tree, id: NodeId) -> Option<u32>
        ensures ids { self.new.ids ≡ self.old.ids }
        ensures names { self.new.names ≡ self.old.names }
        ensures likes { self.new.likes ≡ self.old.likes }
        ensures number { let numbers = numbers_of self.new.numbers.entries in
            IfSome result (HasNumber tree.now numbers id) }
        ensures kept { let numbers = numbers_of self.new.numbers.entries in
            OnSome result (KeepsNumbers (numbers_of self.old.numbers.entries) numbers) }
    {
        let element = element_of(tree, id)?;
        let Ok(text) = written(tree.allocator(), element) else {
            return None;
        };
        let Ok(number) = self.number_of(text) else {
            return None;
        };
        Some(number)
    }

    /// Returns the likeness of an entry's element, and 0 for a marker, if memory suffices.
    pub fn likeness_in(&mut self, tree: &Tree, entry: &Entry) -> Option<u32>
        ensures ids { self.new.ids ≡ self.old.ids }
        ensures names { self.new.names ≡ self.old.names }
        ensures likes { self.new.likes ≡ self.old.likes }
        ensures number { let numbers = numbers_of self.new.numbers.entries in
            IfSome result (IsKeyOf tree.now numbers entry.now) }
        ensures kept { let numbers = numbers_of self.new.numbers.entries in
            OnSome result (KeepsNumbers (numbers_of self.old.numbers.entries) numbers) }
    {
        match entry {
            Entry::Marker => Some(0),
            Entry::Element(open) => self.likeness_of(tree, open.id),
        }
    }

    /// Returns the number of a name with attributes, if an element had them.
    fn known_number(&self, written: &str) -> Option<u32>
        ensures { result ≡ number_in (numbers_of self.now.numbers.entries) written.now }
    {
        self.numbers.get(written).copied()
    }

    /// Returns the number of a name with attributes: the next number, if no element had them yet.
    /// Fails when memory or the numbers run out.
    fn number_of(&mut self, written: String) -> Result<u32, PageFault>
        ensures ids { self.new.ids ≡ self.old.ids }
        ensures names { self.new.names ≡ self.old.names }
        ensures likes { self.new.likes ≡ self.old.likes }
        ensures number { let numbers = numbers_of self.new.numbers.entries in
            IfOk result (λ n. number_in numbers (string_bytes written) ≡ Some n) }
        ensures kept { let numbers = numbers_of self.new.numbers.entries in
            OnOk result (KeepsNumbers (numbers_of self.old.numbers.entries) numbers) }
    {
        if let Some(number) = self.known_number(written.as_str()) {
            return Ok(number);
        }
        let Ok(number) = u32::try_from(self.numbers.len()) else {
            return Err(PageFault::TooManyNodes);
        };
        self.numbers.insert(written, number)?;
        Ok(number)
    }

    /// Adds an entry that is inserted at a place of the list. Fails when memory runs out.
    pub fn add(&mut self, place: usize, entry: &Entry, likeness: u32) -> Result<(), PageFault>
        requires { IsPlaceIn self.old place }
        ensures ids { OnOk result (self.new.ids ≡ insert self.old.ids place (id_key entry.now)) }
        ensures names { let key = name_key entry.now in
            OnOk result (self.new.names ≡ insert self.old.names place key) }
        ensures likes { OnOk result (self.new.likes ≡ insert self.old.likes place likeness) }
        ensures numbers { self.new.numbers ≡ self.old.numbers }
    {
        self.ids.insert(place, id_key(entry))?;
        self.names.insert(place, name_key(entry))?;
        self.likes.insert(place, likeness)?;
        Ok(())
    }

    /// Removes the entry at a place of the list.
    pub fn remove(&mut self, place: usize)
        requires { IsEntryIn self.old place }
        ensures ids { self.new.ids ≡ remove self.old.ids place }
        ensures names { self.new.names ≡ remove self.old.names place }
        ensures likes { self.new.likes ≡ remove self.old.likes place }
        ensures numbers { self.new.numbers ≡ self.old.numbers }
    {
        self.ids.remove(place);
        self.names.remove(place);
        self.likes.remove(place);
    }

    /// Replaces the entry at a place of the list. Fails when memory runs out.
    pub fn replace(&mut self, place: usize, entry: &Entry, likeness: u32) -> Result<(), PageFault>
        ensures ids { let key = id_key entry.now in
            OnOk result (self.new.ids ≡ slice_set self.old.ids place key) }
        ensures names { let key = name_key entry.now in
            OnOk result (self.new.names ≡ slice_set self.old.names place key) }
        ensures likes { OnOk result (self.new.likes ≡ slice_set self.old.likes place likeness) }
        ensures numbers { self.new.numbers ≡ self.old.numbers }
    {
        self.ids.set(place, id_key(entry))?;
        self.names.set(place, name_key(entry))?;
        self.likes.set(place, likeness)?;
        Ok(())
    }

    /// Returns the place of an element's last entry.
    pub fn position_of(&self, id: NodeId) -> Option<usize>
        ensures place { result ≡ last_key id self.now.ids }
        ensures bound { id < marker_key }
    {
        self.ids.last(id.value() as u32)
    }

    /// Returns the place of the last element with that name, if it is after the last marker.
    pub fn last_named(&self, name: Name) -> Option<usize>
        ensures { result ≡ last_after_marker (tag_of the_type name) self.now.names }
    {
        let place = self.names.last(name as u32)?;
        after_marker(place, self.names.last(MARKER))
    }

    /// Returns the place of the last entry of that likeness among the first entries, if no marker
    /// comes after it there.
    pub fn last_like(&self, likeness: u32, among: usize) -> Option<usize>
        requires likes { among ≤ length self.now.likes }
        requires names { among ≤ length self.now.names }
        ensures { let keys = take among self.now.likes in
            result ≡ last_like likeness keys (take among self.now.names) }
    {
        let place = self.likes.last_before(likeness, among)?;
        after_marker(place, self.names.last_before(MARKER, among))
    }
}

/// Returns the name and the value of an attribute, with NUL characters before them, which none of
/// them contains.
fn attr_text(alloc: Global, attr: &Attr) -> Result<String, PageFault>
    ensures { IfOk result (λ text. string_bytes text ≡ attr_text attr.now) }
{
    let mut text = String::from_str(alloc, "\0")?;
    text.push_str(attr.name.local().as_str())?;
    text.push_str("\0")?;
    text.push_str(attr.value.as_str())?;
    Ok(text)
}

/// Returns these texts of the attributes, in order and each once.
fn attr_texts(alloc: Global, attrs: &[Attr]) -> Result<BTreeSet<String>, PageFault>
    ensures { IfOk result (λ texts. map string_bytes texts.keys ≡ texts_with [] attrs.now) }
{
    let mut texts = BTreeSet::new(alloc);
    let mut rest = attrs;
    while let Some((attr, others)) = rest.split_first() {
        texts.insert(attr_text(alloc, attr)?)?;
        rest = others;
    }
    Ok(texts)
}

/// Returns the element's name and its attributes, in an order that depends on them alone.
fn written(alloc: Global, element: &Element) -> Result<String, PageFault>
    ensures { IfOk result (λ text. string_bytes text ≡ element_text element.now) }
{
    let attrs = attr_texts(alloc, element.attrs().as_slice())?;
    let mut text = String::from_str(alloc, element.name().local().as_str())?;
    for attr in attrs.iter() {
        text.push_str(attr.as_str())?;
    }
    Ok(text)
}
