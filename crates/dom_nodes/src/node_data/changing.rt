//! One change of an element as a value, and the methods that apply it.

ghost use Rattle.std.specs.Prelude.{◌≡◌, ◌&&◌, false, true, IsOk, OnErr, OnOk, map, []};

use super::{Element, NodeData, TreeNode};
use crate::fault::OutOfMemory;

/// A change of an element's local name, attributes or classes. Each variant does what the method of
/// `Element` with the same name in snake case does: `Change::SetAttr` is `Element::set_attr`, and
/// so on.
#[derive(Clone, Copy)]
pub enum Change<'a> {
    SetAttr { name: &'a str, value: &'a str },
    RemoveAttr(&'a str),
    RemoveAttrs(&'a [&'a str]),
    RetainAttrs(&'a [&'a str]),
    RemoveAllAttrs,
    Rename(&'a str),
    AddClass(&'a str),
    RemoveClass(&'a str),
}

impl Element {
    ghost use Rattle.dom_nodes.specs.Change.{Tried, may_allocate_of, changed};

    /// Applies the change. Removals of attributes allocate no memory and never fail. When memory is
    /// refused for another change, it fails with `OutOfMemory` and the element is unchanged.
    pub fn change(&mut self, change: Change) -> Result<(), OutOfMemory>
        ensures { Tried result (NodeData.Element self.old) (NodeData.Element self.new)
            (changed change.entry (NodeData.Element self.old))
            (may_allocate_of change.entry (NodeData.Element self.old)) }
    {
        match change {
            Change::SetAttr { name, value } => return self.set_attr(name, value),
            Change::RemoveAttr(name) => self.remove_attr(name),
            Change::RemoveAttrs(names) => self.remove_attrs(names),
            Change::RetainAttrs(names) => self.retain_attrs(names),
            Change::RemoveAllAttrs => self.remove_all_attrs(),
            Change::Rename(name) => return self.rename(name),
            Change::AddClass(classes) => return self.add_class(classes),
            Change::RemoveClass(classes) => return self.remove_class(classes),
        }
        Ok(())
    }
}

impl NodeData {
    ghost use Rattle.dom_nodes.specs.Change.{Tried, may_allocate_of, changed};

    /// Applies the change to an element. A node of another kind is unchanged, no memory is
    /// allocated, and the result is `Ok`. When memory is refused, it fails with `OutOfMemory` and
    /// the node is unchanged.
    pub fn change(&mut self, change: Change) -> Result<(), OutOfMemory>
        ensures { Tried result self.old self.new (changed change.entry self.old)
            (may_allocate_of change.entry self.old) }
    {
        match self {
            NodeData::Element(element) => element.change(change),
            _ => Ok(()),
        }
    }
}

impl TreeNode {
    ghost use Rattle.std.specs.Prelude.{None, codes};
    ghost use Rattle.dom_nodes.specs.Attrs.{attr_of, attrs_in};
    ghost use Rattle.dom_nodes.specs.Kinds.{is_element};
    ghost use Rattle.dom_nodes.specs.Change.{Tried, may_allocate_of, changed};
    ghost use Rattle.dom_nodes.specs.Changes.{on_element, only_names, renamed, with_attr};
    ghost use Rattle.dom_nodes.specs.Changes.{with_attrs, without_name, without_names};
    ghost use Rattle.dom_nodes.specs.Classes.{is_blank, with_classes, without_classes};

    /// Applies the change to an element; the id and the links stay. A node of another kind is
    /// unchanged, and the result is `Ok`. When memory is refused, it fails with `OutOfMemory` and
    /// the node is unchanged.
    pub fn change(&mut self, change: Change) -> Result<(), OutOfMemory>
        ensures { Tried result self.old self.new
            (record self.old { content = changed change.entry self.old.content })
            (may_allocate_of change.entry self.old.content) }
    {
        self.content.change(change)
    }

    /// Sets an attribute of an element, as `Element::set_attr` does. A node of another kind is
    /// unchanged, and the result is `Ok`. When memory is refused, it fails with `OutOfMemory` and
    /// the node is unchanged.
    pub fn set_attr(&mut self, name: &str, value: &str) -> Result<(), OutOfMemory>
        ensures ok { OnOk result
            (self.new ≡ record self.old {
              content = with_attrs (with_attr name.now value.now)
                  self.old.content;
            }) }
        ensures err { OnErr result (self.new ≡ self.old) }
        ensures no_element { is_element self.old.content ≡ false → IsOk result }
    {
        self.change(Change::SetAttr { name, value })
    }

    /// Removes every attribute with this local name from an element. A node of another kind is
    /// unchanged. It allocates no memory.
    pub fn remove_attr(&mut self, name: &str)
        ensures { self.new
            ≡ record self.old { content = with_attrs (without_name name.now) self.old.content } }
    {
        let _ = self.change(Change::RemoveAttr(name));
    }

    /// Removes every attribute of an element whose local name is in `names`. A node of another kind
    /// is unchanged. It allocates no memory.
    pub fn remove_attrs(&mut self, names: &[&str])
        ensures { self.new ≡ record
            self.old {
              content = with_attrs (without_names (map (λ name. name.now) names.now))
                  self.old.content;
            } }
    {
        let _ = self.change(Change::RemoveAttrs(names));
    }

    /// Removes every attribute of an element whose local name isn't in `names`. A node of another
    /// kind is unchanged. It allocates no memory.
    pub fn retain_attrs(&mut self, names: &[&str])
        ensures { self.new ≡ record
            self.old {
              content = with_attrs (only_names (map (λ name. name.now) names.now))
                  self.old.content;
            } }
    {
        let _ = self.change(Change::RetainAttrs(names));
    }

    /// Removes every attribute of an element. A node of another kind is unchanged. It allocates no
    /// memory.
    pub fn remove_all_attrs(&mut self)
        ensures { self.new ≡ record self.old { content = with_attrs (λ _. []) self.old.content } }
    {
        let _ = self.change(Change::RemoveAllAttrs);
    }

    /// Adds classes to an element, as `Element::add_class` does. The result is `Ok` and nothing
    /// changes when the node is no element or `classes` is blank. When memory is refused, it fails
    /// with `OutOfMemory` and the node is unchanged.
    pub fn add_class(&mut self, classes: &str) -> Result<(), OutOfMemory>
        ensures ok { OnOk result
            (self.new ≡ record self.old {
              content = with_attrs (with_classes classes.now)
                  self.old.content;
            }) }
        ensures err { OnErr result (self.new ≡ self.old) }
        ensures no_element { is_element self.old.content ≡ false → IsOk result }
        ensures blank { is_blank classes.now ≡ true → IsOk result }
    {
        self.change(Change::AddClass(classes))
    }

    /// Removes classes from an element, as `Element::remove_class` does. The result is `Ok` and
    /// nothing changes when the node is no element, has no attribute `class`, or `classes` is
    /// blank. When memory is refused, it fails with `OutOfMemory` and the node is unchanged.
    pub fn remove_class(&mut self, classes: &str) -> Result<(), OutOfMemory>
        ensures ok { OnOk result
            (self.new ≡ record self.old {
              content = with_attrs (without_classes classes.now)
                  self.old.content;
            }) }
        ensures err { OnErr result (self.new ≡ self.old) }
        ensures no_element { is_element self.old.content ≡ false → IsOk result }
        ensures blank { is_blank classes.now ≡ true → IsOk result }
        ensures no_class { attr_of (attrs_in self.old.content) (codes "class") ≡ None
            → IsOk result }
    {
        self.change(Change::RemoveClass(classes))
    }

    /// Changes the local name of an element; its prefix and its namespace stay. A node of another
    /// kind is unchanged, and the result is `Ok`. When memory is refused, it fails with
    /// `OutOfMemory` and the node is unchanged.
    pub fn rename(&mut self, name: &str) -> Result<(), OutOfMemory>
        ensures ok { OnOk result
            (self.new ≡ record self.old {
              content = on_element (renamed name.now) self.old.content;
            }) }
        ensures err { OnErr result (self.new ≡ self.old) }
        ensures no_element { is_element self.old.content ≡ false → IsOk result }
    {
        self.change(Change::Rename(name))
    }
}
