//! The attributes of a start tag. If a name occurs more than once, the first attribute is kept.

ghost use Rattle.std.specs.Prelude.{◌≡◌, [], IfOk, OnOk, string_bytes};
ghost use Rattle.std.specs.List.{list_any};
ghost use Rattle.dom_nodes.specs.Changes.{is_attr_named};
ghost use Rattle.dom_markup.specs.Attributes.{Gains, IsNoted, Keeps, AreKept};
ghost use Rattle.dom_markup.specs.Bytes.{folded};
ghost use Rattle.dom_markup.specs.ByteClasses.{MarksPlain, PastAttributes, attribute_in};
ghost use Rattle.dom_markup.specs.References.{decoded};

use crate::document::scan::{Written, attribute_at, begins_space};
use crate::references::decode;
use dom_nodes::fault::OutOfMemory;
use dom_nodes::name::{Attr, LocalName, QualName};
use dom_nodes::text::{RareText, Text};
use std::alloc::Global;
use std::collections::BTreeSet;

/// How many of the latest attributes a new name is compared with one by one; the names before them
/// are looked up in a set.
const RECENT: usize = 16;

/// Returns the name with A to Z in lower case. Fails only when memory runs out.
pub fn folded_name(alloc: Global, name: &str) -> Result<RareText, OutOfMemory>
    ensures { IfOk result (λ text. text ≡ folded name.now) }
{
    let mut letters = String::from_str(alloc, name)?;
    letters.make_ascii_lowercase();
    RareText::new(alloc, letters.as_str())
}

/// Returns the attribute value with its character references resolved.
#[inline(always)]
fn value_of(alloc: Global, written: Written) -> Result<Text, OutOfMemory>
    requires { MarksPlain written }
    ensures { IfOk result (λ value. value ≡ decoded written.entry.value.now) }
{
    if written.is_plain {
        return Text::new(alloc, written.value);
    }
    decode(alloc, written.value)
}

/// Returns whether one of the attributes has the local name.
fn has_attr(attrs: &[Attr], name: &LocalName) -> bool
    ensures { result ≡ list_any (is_attr_named name.now) attrs.now }
{
    attrs
        .iter()
        .any(|attr| attr.name.local().is_same(&name.by_ref()))
}

/// A set of the names of a tag's first `count` attributes, that is, all but the latest few. With
/// it, a tag with many attributes is read in little time, whatever their names are.
#[derive(Drop)]
struct Noted {
    count: usize,
    names: BTreeSet<String>,
}

impl Noted {
    /// Returns an empty set.
    fn new(alloc: Global) -> Noted
        ensures { IsNoted result [] }
    {
        Noted {
            count: 0,
            names: BTreeSet::new(alloc),
        }
    }

    /// Returns whether one of the attributes has the local name.
    fn has(&self, attrs: &[Attr], name: &LocalName) -> bool
        requires { IsNoted self.now attrs.now }
        ensures { result ≡ list_any (is_attr_named name.now) attrs.now }
    {
        let (_, recent) = attrs.split_at(self.count);
        self.names.contains(name.as_str()) || has_attr(recent, name)
    }

    /// Adds a name to the set. `count` stays as it is.
    fn insert(&mut self, name: String) -> Result<(), OutOfMemory>
        ensures count { self.new.count ≡ self.old.count }
        ensures names { OnOk result (Gains (string_bytes name) self.old.names self.new.names) }
    {
        self.names.insert(name)?;
        Ok(())
    }

    /// Adds the oldest name that isn't in the set yet, if `RECENT` names or more are not in it.
    fn note(&mut self, alloc: Global, attrs: &[Attr]) -> Result<(), OutOfMemory>
        requires { IsNoted self.old attrs.now }
        ensures { OnOk result (IsNoted self.new attrs.now) }
    {
        if attrs.len() - self.count < RECENT {
            return Ok(());
        }
        let name = String::from_str(alloc, attrs[self.count].name.local().as_str())?;
        self.insert(name)?;
        self.count += 1;
        Ok(())
    }

    /// Appends an attribute to those of the tag, unless the tag already has one with that name.
    #[inline(always)]
    fn add(
        &mut self,
        alloc: Global,
        attrs: &mut Vec<Attr>,
        written: Written,
    ) -> Result<(), OutOfMemory>
        requires noted { IsNoted self.old attrs.old.items }
        requires plain { MarksPlain written }
        ensures noted { OnOk result (IsNoted self.new attrs.new.items) }
        ensures added { OnOk result (Keeps (attribute_in written.entry) attrs.old.items
            attrs.new.items) }
    {
        let local = LocalName::folded(alloc, written.name)?;
        if self.has(attrs.as_slice(), &local) {
            return Ok(());
        }
        let value = value_of(alloc, written)?;
        let name = QualName::plain(local);
        attrs.push(Attr { name, value })?;
        self.note(alloc, attrs.as_slice())
    }
}

/// Reads the attributes of a start tag from the text after the tag's name into `attrs`, which must
/// be empty, and returns the text after them. If a name occurs more than once, the first attribute
/// is kept. Fails only when memory runs out.
#[inline(always)]
pub fn attrs_of<'a>(
    alloc: Global,
    text: &'a str,
    attrs: &mut Vec<Attr>,
) -> Result<&'a str, OutOfMemory>
    requires { attrs.old.items ≡ [] }
    ensures past { IfOk result (λ rest. PastAttributes text.now rest.now) }
    ensures attrs { OnOk result (AreKept text.now attrs.new.items) }
{
    if !begins_space(text) {
        return Ok(text);
    }
    let mut noted = Noted::new(alloc);
    let mut rest = text;
    while let Some((written, after)) = attribute_at(rest) {
        noted.add(alloc, attrs, written)?;
        rest = after;
    }
    Ok(rest)
}
