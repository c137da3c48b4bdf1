//! Adding the attributes that an element doesn't have yet, as the HTML Standard asks for a second
//! `html` or `body` start tag (13.2.6.4.7).

ghost use Rattle.std.specs.Prelude.{◌≡◌, ◌++◌, OnErr, OnOk, false, IsOk};
ghost use Rattle.dom_nodes.specs.Changes.{has_attr_named, with_attrs, with_missing};
ghost use Rattle.dom_nodes.specs.Kinds.{is_element};

use super::attrs_form::Kept;
use super::{Attrs, Element, NodeData, TreeNode};
use crate::fault::OutOfMemory;
use crate::name::{Attr, QualName};

impl Attrs {
    /// Appends the attributes of `added` whose names this list doesn't have, in order. Two names
    /// are equal when prefix, namespace and local name are. When memory is refused, it fails with
    /// `OutOfMemory` and the list is unchanged.
    #[inline(always)]
    pub fn add_missing(&mut self, added: Attrs) -> Result<(), OutOfMemory>
        ensures ok { OnOk result (self.new ≡ with_missing added self.old) }
        ensures err { OnErr result (self.new ≡ self.old) }
    {
        if self.as_slice().is_empty() {
            *self = added;
            return Ok(());
        }
        self.add_missing_behind(added)
    }

    /// Does the work of `add_missing` for a list that isn't empty.
    #[inline(never)]
    fn add_missing_behind(&mut self, mut added: Attrs) -> Result<(), OutOfMemory>
        ensures ok { OnOk result (self.new ≡ with_missing added self.old) }
        ensures err { OnErr result (self.new ≡ self.old) }
    {
        added.retain(Kept::MissingIn(self.as_slice()));
        self.append(added.as_slice())
    }

    /// Appends copies of the attributes. On a refusal the list is unchanged.
    fn append(&mut self, attrs: &[Attr]) -> Result<(), OutOfMemory>
        ensures ok { OnOk result (self.new ≡ self.old ++ attrs.now) }
        ensures err { OnErr result (self.new ≡ self.old) }
    {
        if attrs.is_empty() {
            return Ok(());
        }
        let mut made = self.try_clone()?;
        for attr in attrs {
            made.push(attr.try_clone()?)?;
        }
        *self = made;
        Ok(())
    }
}

/// Returns whether one of the attributes has this name (prefix, namespace and local name).
pub(super) fn has_attr_named(attrs: &[Attr], name: &QualName) -> bool
    ensures { result ≡ has_attr_named attrs.now name.now }
{
    attrs.iter().any(|attr| attr.name.is_same(name))
}

impl Element {
    /// Appends the attributes of `attrs` whose names the element doesn't have, in order. Two names
    /// are equal when prefix, namespace and local name are. When memory is refused, it fails with
    /// `OutOfMemory` and the element is unchanged.
    pub fn add_attrs_if_missing(&mut self, attrs: Attrs) -> Result<(), OutOfMemory>
        ensures ok { OnOk result (self.new ≡ record self.old {
          attrs = with_missing attrs self.old.attrs;
        }) }
        ensures err { OnErr result (self.new ≡ self.old) }
    {
        self.attrs.add_missing(attrs)
    }
}

impl NodeData {
    /// Adds missing attributes to an element, as `Element::add_attrs_if_missing` does. A node of
    /// another kind is unchanged, and the result is `Ok`. When memory is refused, it fails with
    /// `OutOfMemory` and the node is unchanged.
    pub fn add_attrs_if_missing(&mut self, attrs: Attrs) -> Result<(), OutOfMemory>
        ensures ok { OnOk result (self.new ≡ with_attrs (with_missing attrs) self.old) }
        ensures err { OnErr result (self.new ≡ self.old) }
        ensures no_element { is_element self.old ≡ false → IsOk result }
    {
        match self {
            NodeData::Element(element) => element.add_attrs_if_missing(attrs),
            _ => Ok(()),
        }
    }
}

impl TreeNode {
    /// Adds missing attributes to an element, as `Element::add_attrs_if_missing` does; the id and
    /// the links stay. A node of another kind is unchanged, and the result is `Ok`. When memory is
    /// refused, it fails with `OutOfMemory` and the node is unchanged.
    pub fn add_attrs_if_missing(&mut self, attrs: Attrs) -> Result<(), OutOfMemory>
        ensures ok { OnOk result (self.new
            ≡ record self.old { content = with_attrs (with_missing attrs) self.old.content }) }
        ensures err { OnErr result (self.new ≡ self.old) }
        ensures no_element { is_element self.old.content ≡ false → IsOk result }
    {
        self.content.add_attrs_if_missing(attrs)
    }
}
