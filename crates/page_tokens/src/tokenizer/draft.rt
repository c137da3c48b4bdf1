//! The tag that is being read. A call that returns a `Result` fails only when memory runs out.

ghost use Rattle.std.specs.Prelude.{◌≡◌, ◌<◌, [], true, false, OnOk, length, map, string_bytes};
ghost use Rattle.std.specs.Option.{IsSomeAnd};
ghost use Rattle.std.specs.Char.{to_ascii_lowercase};

use crate::attributes::Attributes;
use crate::token::{Tag, TagKind};
use std::alloc::{AllocError, Global};
use std::mem;

/// A tag as far as it is read, with names as in the source. An attribute is being read if
/// `attr_name` is not empty.
#[derive(Drop)]
pub struct TagDraft {
    pub kind: TagKind,
    pub name: String,
    pub self_closing: bool,
    pub attrs: Attributes,
    pub attr_name: String,
    pub attr_value: String,
}

impl TagDraft {
    ghost use Rattle.page_tokens.specs.Drafts.{FinishesAttr, IsTagOf};

    /// Returns a draft without a tag.
    pub fn new(alloc: Global) -> TagDraft
        ensures name { string_bytes result.name ≡ [] }
        ensures attrs { result.attrs.kept.items ≡ [] }
        ensures attr_name { string_bytes result.attr_name ≡ [] }
        ensures attr_value { string_bytes result.attr_value ≡ [] }
        ensures self_closing { result.self_closing ≡ false }
    {
        TagDraft {
            kind: TagKind::Start,
            name: String::new(alloc),
            self_closing: false,
            attrs: Attributes::new(alloc),
            attr_name: String::new(alloc),
            attr_value: String::new(alloc),
        }
    }

    /// Starts a tag of this kind, without a name and attributes.
    pub fn begin(&mut self, alloc: Global, kind: TagKind)
        ensures kind { self.new.kind ≡ kind }
        ensures self_closing { self.new.self_closing ≡ false }
        ensures name { string_bytes self.new.name ≡ [] }
        ensures attrs { self.new.attrs.kept.items ≡ [] }
        ensures attr_name { string_bytes self.new.attr_name ≡ [] }
        ensures attr_value { string_bytes self.new.attr_value ≡ [] }
    {
        self.kind = kind;
        self.name.clear();
        self.self_closing = false;
        if !self.attrs.is_empty() {
            self.attrs = Attributes::new(alloc);
        }
        self.attr_name.clear();
        self.attr_value.clear();
    }

    /// Returns whether an earlier attribute has the name of the one that is being read.
    pub fn repeats_name(&self, alloc: Global) -> Result<bool, AllocError> {
        let mut name = String::from_str(alloc, self.attr_name.as_str())?;
        name.make_ascii_lowercase();
        Ok(self.attrs.has(name.as_str()))
    }

    /// Finishes the attribute that is being read; it is dropped if an earlier one has its name.
    pub fn finish_attr(&mut self, alloc: Global) -> Result<(), AllocError>
        ensures none { string_bytes self.old.attr_name ≡ [] → self.new ≡ self.old }
        ensures some { 0 < length (string_bytes self.old.attr_name) →
            OnOk result (FinishesAttr self.old self.new) }
    {
        if self.attr_name.is_empty() {
            return Ok(());
        }
        let (name, value) = self.attrs.at_hand(alloc);
        let name = mem::replace(&mut self.attr_name, name);
        let value = mem::replace(&mut self.attr_value, value);
        self.attrs.add(alloc, name, value)
    }

    /// Finishes the tag, stores it in `ended`, and returns `true`; returns `false` if no tag was
    /// started. The memory of the earlier tag in `ended` is reused.
    pub fn finish(&mut self, alloc: Global, ended: &mut Option<Tag>) -> bool
        ensures { 0 < length (string_bytes self.old.name) →
            (result ≡ true) × IsSomeAnd ended.new (IsTagOf self.old) }
    {
        if self.name.is_empty() {
            return false;
        }
        self.name.make_ascii_lowercase();
        match ended {
            Some(tag) => self.finish_in(alloc, tag),
            None => *ended = Some(self.finish_anew(alloc)),
        }
        true
    }

    /// Stores the tag in place of an earlier one.
    fn finish_in(&mut self, alloc: Global, tag: &mut Tag)
        requires some { 0 < length (string_bytes self.old.name) }
        requires folded { map to_ascii_lowercase (string_bytes self.old.name)
            ≡ string_bytes self.old.name }
        ensures { IsTagOf self.old tag.new }
    {
        mem::swap(&mut self.name, &mut tag.name);
        self.name.clear();
        self.attrs.exchange(alloc, &mut tag.attrs);
        tag.kind = self.kind;
        tag.self_closing = self.self_closing;
    }

    /// Returns the tag in new memory.
    fn finish_anew(&mut self, alloc: Global) -> Tag
        requires some { 0 < length (string_bytes self.old.name) }
        requires folded { map to_ascii_lowercase (string_bytes self.old.name)
            ≡ string_bytes self.old.name }
        ensures { IsTagOf self.old result }
    {
        Tag {
            kind: self.kind,
            name: mem::replace(&mut self.name, String::new(alloc)),
            attrs: self.attrs.take(alloc),
            self_closing: self.self_closing,
        }
    }
}
