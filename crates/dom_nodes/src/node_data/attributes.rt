//! Reading, setting and removing attributes by local name.
//!
//! Names are compared byte by byte, and the prefix and the namespace of an attribute are ignored.
//! Calls that read or set look at the first attribute with the name; removals take every one.

ghost use Rattle.std.specs.Prelude.{◌≡◌, map, is_some, position, OnErr, OnOk, IfOk};
ghost use Rattle.dom_nodes.specs.Changes.{is_attr_named, is_link_name, plain_attr, with_attr};

use super::attrs_form::{AttrsForm, Kept};
use super::{Attrs, Element, push_doubling};
use crate::fault::OutOfMemory;
use crate::name::{Attr, LocalName, QualName, set_local};
use crate::text::Text;
use std::alloc::Global;
use std::mem;

impl Attrs {
    ghost use Rattle.std.specs.Prelude.{[], filter};
    ghost use Rattle.dom_nodes.specs.Kept.{keeps};
    ghost use Rattle.dom_nodes.specs.Changes.{without_name, without_names, only_names};

    /// Returns the allocator of the list.
    pub(crate) fn allocator(&self) -> Global {
        self.alloc
    }

    /// Sets the value of the first attribute with this local name. When there is none, it appends
    /// an attribute without prefix and namespace. When memory is refused, it fails with
    /// `OutOfMemory` and the list is unchanged.
    pub fn set(&mut self, name: &str, value: Text) -> Result<(), OutOfMemory>
        ensures ok { OnOk result (self.new ≡ with_attr name.now value self.old) }
        ensures err { OnErr result (self.new ≡ self.old) }
    {
        if let AttrsForm::Own(items) = &mut self.form {
            return set_in(items, self.alloc, name, value);
        }
        let Some(value) = self.form.set_few(name, value) else {
            return Ok(());
        };
        let form = AttrsForm::with_attr(self.alloc, self.form.as_slice(), name, value)?;
        self.form = form;
        Ok(())
    }

    /// Removes every attribute that `kept` doesn't keep. It allocates no memory.
    pub(super) fn retain(&mut self, kept: Kept)
        ensures { self.new ≡ filter (keeps kept.entry) self.old }
    {
        let form = mem::replace(&mut self.form, AttrsForm::None);
        self.form = form.retained(kept);
    }

    /// Removes every attribute with this local name. It allocates no memory.
    pub fn remove(&mut self, name: &str)
        ensures { self.new ≡ without_name name.now self.old }
    {
        self.retain(Kept::AllBut(name));
    }

    /// Removes every attribute whose local name is in `names`. It allocates no memory.
    pub fn remove_all_of(&mut self, names: &[&str])
        ensures { self.new ≡ without_names (map (λ name. name.now) names.now) self.old }
    {
        self.retain(Kept::NoneOf(names));
    }

    /// Removes every attribute whose local name isn't in `names`. It allocates no memory.
    pub fn retain_all_of(&mut self, names: &[&str])
        ensures { self.new ≡ only_names (map (λ name. name.now) names.now) self.old }
    {
        self.retain(Kept::OneOf(names));
    }

    /// Removes every attribute. It allocates no memory.
    pub fn clear(&mut self)
        ensures { self.new ≡ [] }
    {
        self.form = AttrsForm::None;
    }
}

impl Element {
    ghost use Rattle.std.specs.Prelude.{[]};
    ghost use Rattle.std.specs.Option.{option_copied};
    ghost use Rattle.dom_nodes.specs.Attrs.{attr_of};
    ghost use Rattle.dom_nodes.specs.Changes.{with_attr, without_name, without_names, only_names};
    ghost use Rattle.dom_nodes.specs.Changes.{is_link, renamed};

    /// Returns the value of the first attribute with this local name, or `None` when there is none.
    pub fn attr_ref(&self, name: &str) -> Option<&str>
        ensures { option_copied result ≡ attr_of self.now.attrs name.now }
    {
        self.attr(name)
    }

    /// Returns whether an attribute has this local name.
    pub fn has_attr(&self, name: &str) -> bool
        ensures { result ≡ is_some (attr_of self.now.attrs name.now) }
    {
        self.attr_ref(name).is_some()
    }

    /// Returns whether the element is a link: an `a`, `area` or `link` element with an attribute
    /// `href`.
    pub fn is_link(&self) -> bool
        ensures { result ≡ is_link self.now }
    {
        is_link_name(self.node_name()) && self.has_attr("href")
    }

    /// Sets the value of the first attribute with this local name. When there is none, it appends
    /// an attribute without prefix and namespace. When memory is refused, it fails with
    /// `OutOfMemory` and the element is unchanged.
    pub fn set_attr(&mut self, name: &str, value: &str) -> Result<(), OutOfMemory>
        ensures ok { OnOk result (self.new ≡ record self.old {
          attrs = with_attr name.now value.now self.old.attrs;
        }) }
        ensures err { OnErr result (self.new ≡ self.old) }
    {
        let value = Text::new(self.attrs.allocator(), value)?;
        self.attrs.set(name, value)
    }

    /// Removes every attribute with this local name. It allocates no memory.
    pub fn remove_attr(&mut self, name: &str)
        ensures { self.new ≡ record self.old { attrs = without_name name.now self.old.attrs } }
    {
        self.attrs.remove(name);
    }

    /// Removes every attribute whose local name is in `names`. It allocates no memory.
    pub fn remove_attrs(&mut self, names: &[&str])
        ensures { self.new ≡ record self.old {
          attrs = without_names (map (λ name. name.now) names.now) self.old.attrs;
        } }
    {
        self.attrs.remove_all_of(names);
    }

    /// Removes every attribute whose local name isn't in `names`. It allocates no memory.
    pub fn retain_attrs(&mut self, names: &[&str])
        ensures { self.new ≡ record self.old {
          attrs = only_names (map (λ name. name.now) names.now) self.old.attrs;
        } }
    {
        self.attrs.retain_all_of(names);
    }

    /// Removes every attribute. It allocates no memory.
    pub fn remove_all_attrs(&mut self)
        ensures { self.new ≡ record self.old { attrs = [] } }
    {
        self.attrs.clear();
    }

    /// Changes the element's local name; its prefix and its namespace stay. When memory is refused,
    /// it fails with `OutOfMemory` and the element is unchanged.
    pub fn rename(&mut self, name: &str) -> Result<(), OutOfMemory>
        ensures ok { OnOk result (self.new ≡ renamed name.now self.old) }
        ensures err { OnErr result (self.new ≡ self.old) }
    {
        let local = LocalName::new(self.attrs.allocator(), name)?;
        set_local(&mut self.form, local);
        Ok(())
    }
}

/// Sets the value of the first attribute with this local name, or appends a new attribute. On a
/// refusal the vector is unchanged.
fn set_in(items: &mut Vec<Attr>, alloc: Global, name: &str, value: Text) -> Result<(), OutOfMemory>
    ensures ok { OnOk result (items.new.items ≡ with_attr name.now value items.old.items) }
    ensures err { OnErr result (items.new.items ≡ items.old.items) }
{
    match attr_position(items.as_slice(), name) {
        Some(place) => {
            items[place].value = value;
            Ok(())
        }
        None => {
            let attr = plain_attr(alloc, name, value)?;
            push_doubling(items, attr)
        }
    }
}

/// Returns the index of the first attribute with this local name, or `None` when there is none.
pub(super) fn attr_position(attrs: &[Attr], name: &str) -> Option<usize>
    ensures { result ≡ position (is_attr_named name.now) attrs.now }
{
    attrs
        .iter()
        .position(|attr| attr.name.local().as_str() == name)
}

/// Returns an attribute with this local name and value, without prefix and namespace.
pub(super) fn plain_attr(alloc: Global, name: &str, value: Text) -> Result<Attr, OutOfMemory>
    ensures { IfOk result (λ made. made ≡ plain_attr name.now value) }
{
    let local = LocalName::new(alloc, name)?;
    Ok(Attr {
        name: QualName::plain(local),
        value,
    })
}

/// Returns whether elements of this local name are links when they have an attribute `href`.
fn is_link_name(name: &str) -> bool
    ensures { result ≡ is_link_name name.now }
{
    name == "a" || name == "area" || name == "link"
}
