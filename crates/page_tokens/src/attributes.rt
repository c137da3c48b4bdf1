//! The attributes of the tag that is being read. A call that returns a `Result` fails only when
//! memory runs out.

ghost use Rattle.std.specs.Prelude.{◌≡◌, ◌<◌, ◌≤◌, ◌∷◌, ◌++◌, ◌↔◌, [], ℕ, List, true};
ghost use Rattle.std.specs.Prelude.{length, map, take, string_bytes, OnErr, OnOk};
ghost use Rattle.std.specs.Char.{to_ascii_lowercase};
ghost use Rattle.std.specs.List.{list_any};
ghost use Rattle.std.specs.BTreeSet.{contains_text, IsUnchanged};
ghost use Rattle.page_tokens.specs.Attributes.{are_distinct, is_named, AddsAttr, Gains};

use crate::attribute::TagAttr;
use std::alloc::{AllocError, Global};
use std::collections::BTreeSet;
use std::mem;

/// How many of the latest attributes a new name is compared with one by one; the names before them
/// are looked up in a set.
const RECENT: usize = 16;

/// Returns whether one of the attributes has the name.
fn has_attr(attrs: &[TagAttr], name: &str) -> bool
    ensures { result ≡ list_any (is_named name.now) attrs.now }
{
    attrs.iter().any(|attr| attr.name.as_str() == name)
}

/// Adds a name to the set.
fn insert(names: &mut BTreeSet<String>, name: String) -> Result<(), AllocError>
    ensures ok { OnOk result (Gains (string_bytes name) names.old names.new) }
    ensures err { OnErr result (IsUnchanged names.old names.new) }
{
    names.insert(name)?;
    Ok(())
}

/// Appends an attribute.
fn push(attrs: &mut Vec<TagAttr>, attr: TagAttr) -> Result<(), AllocError>
    ensures ok { OnOk result (attrs.new.items ≡ attrs.old.items ++ attr ∷ []) }
    ensures err { OnErr result (attrs.new.items ≡ attrs.old.items) }
{
    attrs.push(attr)?;
    Ok(())
}

/// Moves all attributes to the list whose memory is reused; what does not fit is dropped.
fn spare_all(spare: &mut Vec<TagAttr>, attrs: &mut Vec<TagAttr>)
    ensures { attrs.new.items ≡ [] }
{
    for _ in 0..attrs.len() {
        if let Some(attr) = attrs.pop() {
            let _ = spare.push(attr);
        }
    }
    attrs.clear();
}

/// The attributes of a tag so far, no two with the same name. The names of all but the latest few
/// are also in a set, so that a tag with many attributes is read in little time, whatever their
/// names are.
#[derive(Drop)]
pub struct Attributes {
    kept: Vec<TagAttr>,
    noted: usize,
    older: BTreeSet<String>,
    /// Attributes of earlier tags, whose memory is reused.
    spare: Vec<TagAttr>,
    ghost distinct: { are_distinct kept.items ≡ true },
    ghost within: { noted ≤ length kept.items },
    ghost names: { (name : List ℕ)
        → contains_text older name ≡ list_any (is_named name) (take noted kept.items) },
}

impl Attributes {
    /// Returns an empty list of attributes.
    pub fn new(alloc: Global) -> Attributes
        ensures { result.kept.items ≡ [] }
    {
        Attributes {
            kept: Vec::new(alloc),
            noted: 0,
            older: BTreeSet::new(alloc),
            spare: Vec::new(alloc),
        }
    }

    /// Returns whether there are no attributes.
    pub fn is_empty(&self) -> bool
        ensures { result ≡ true ↔ self.now.kept.items ≡ [] }
    {
        self.kept.is_empty()
    }

    /// Returns whether one of the attributes has the name.
    pub fn has(&self, name: &str) -> bool
        ensures { result ≡ list_any (is_named name.now) self.now.kept.items }
    {
        if self.noted == 0 {
            return has_attr(self.kept.as_slice(), name);
        }
        let (_, recent) = self.kept.as_slice().split_at(self.noted);
        self.older.contains(name) || has_attr(recent, name)
    }

    /// Adds the oldest name that isn't in the set yet, if `RECENT` names or more are not in it.
    fn note(&mut self, alloc: Global) -> Result<(), AllocError>
        ensures { self.new.kept.items ≡ self.old.kept.items }
    {
        if self.kept.len() - self.noted < RECENT {
            return Ok(());
        }
        let name = String::from_str(alloc, self.kept[self.noted].name.as_str())?;
        insert(&mut self.older, name)?;
        self.noted += 1;
        Ok(())
    }

    /// Appends an attribute, its name in ASCII lower case, unless an attribute has that name
    /// already.
    pub fn add(&mut self, alloc: Global, name: String, value: String) -> Result<(), AllocError>
        requires { 0 < length (string_bytes name) }
        ensures { OnOk result (AddsAttr self.old.kept.items self.new.kept.items
            (map to_ascii_lowercase (string_bytes name)) (string_bytes value)) }
    {
        let mut name = name;
        name.make_ascii_lowercase();
        if self.has(name.as_str()) {
            return Ok(());
        }
        push(&mut self.kept, TagAttr { name, value })?;
        self.note(alloc)
    }

    /// Returns two empty strings, with memory of an earlier attribute if there is any.
    pub fn at_hand(&mut self, alloc: Global) -> (String, String)
        ensures kept { self.new.kept ≡ self.old.kept }
        ensures name { string_bytes result.0 ≡ [] }
        ensures value { string_bytes result.1 ≡ [] }
    {
        match self.spare.pop() {
            Some(
                TagAttr {
                    mut name,
                    mut value,
                },
            ) => {
                name.clear();
                value.clear();
                (name, value)
            }
            None => (String::new(alloc), String::new(alloc)),
        }
    }

    /// Takes all attributes out; the list is then empty.
    pub fn take(&mut self, alloc: Global) -> Vec<TagAttr>
        ensures distinct { are_distinct result.items ≡ true }
        ensures all { result.items ≡ self.old.kept.items }
    {
        let taken = mem::replace(self, Attributes::new(alloc));
        taken.kept
    }

    /// Puts all attributes into `attrs`, in place of those of an earlier tag, whose memory is kept.
    pub fn exchange(&mut self, alloc: Global, attrs: &mut Vec<TagAttr>)
        ensures distinct { are_distinct attrs.new.items ≡ true }
        ensures all { attrs.new.items ≡ self.old.kept.items }
    {
        if self.noted > 0 {
            self.older = BTreeSet::new(alloc);
            self.noted = 0;
        }
        spare_all(&mut self.spare, attrs);
        mem::swap(&mut self.kept, attrs);
    }
}
