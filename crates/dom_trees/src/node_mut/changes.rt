//! Changes of the node's own data. Its kind, its template contents and all links stay. A node that
//! is no element has no name, attributes and classes: these calls leave it unchanged and succeed.

ghost use Rattle.std.specs.Prelude.{◌≡◌};
ghost use Rattle.std.specs.Fn.{FnOnceReturnsAtMut};
ghost use Rattle.dom_links.specs.Contents.{IsUpdatedAt};
ghost use Rattle.dom_trees.specs.Edits.{AddClass, RemoveAllAttrs, RemoveAttr, RemoveAttrs};
ghost use Rattle.dom_trees.specs.Edits.{RemoveClass, Rename, RetainAttrs, SetAttr, changing};
ghost use Rattle.dom_trees.specs.Lending.{ChangesAt, EditsAt, IsSameLoan};

use crate::node_mut::NodeMut;
use dom_nodes::fault::EditFault;
use dom_nodes::node_data::{Change, NodeEdit};

impl<'a> NodeMut<'a> {
    /// Calls the closure with the name and the attributes of an element, or with the contents of a
    /// text or a comment, and stores what it leaves. For other kinds of nodes, and for an unknown
    /// id, nothing changes.
    pub fn update<F: FnOnce(&mut NodeEdit) + Drop>(&mut self, change: F)
        requires { F.IsAlwaysCallable change }
        ensures updated { IsUpdatedAt (λ edit left. FnOnceReturnsAtMut F.FnOnce change edit tt left)
            self.old.id self.old.tree.now self.new.tree.now }
        ensures loan { IsSameLoan self.old self.new }
    {
        self.tree.change_node(&self.id, change);
    }

    /// Sets the value of the first attribute with this local name. When there is none, it appends
    /// an attribute without prefix and namespace. It fails with `UnknownNode`, or with `Memory` for
    /// an element.
    pub fn set_attr(&mut self, name: &str, value: &str) -> Result<(), EditFault>
        ensures { EditsAt result self.old self.new
            (changing self.old.id (SetAttr name.entry value.entry)) }
    {
        self.tree
            .try_change_of(&self.id, Change::SetAttr { name, value })
    }

    /// Changes the local name of an element; its prefix and its namespace stay. It fails with
    /// `UnknownNode`, or with `Memory` for an element.
    pub fn rename(&mut self, name: &str) -> Result<(), EditFault>
        ensures { EditsAt result self.old self.new (changing self.old.id (Rename name.entry)) }
    {
        self.tree.try_change_of(&self.id, Change::Rename(name))
    }

    /// Adds the words of `classes` that the element doesn't have yet to its first attribute
    /// `class`; when there is no such attribute, one is appended. A blank `classes` changes
    /// nothing. It fails with `UnknownNode`, or with `Memory` for an element.
    pub fn add_class(&mut self, classes: &str) -> Result<(), EditFault>
        ensures { EditsAt result self.old self.new
            (changing self.old.id (AddClass classes.entry)) }
    {
        self.tree.try_change_of(&self.id, Change::AddClass(classes))
    }

    /// Removes the words of `classes` from the element's first attribute `class`. A blank `classes`
    /// changes nothing. It fails with `UnknownNode`, or with `Memory` for an element with an
    /// attribute `class`.
    pub fn remove_class(&mut self, classes: &str) -> Result<(), EditFault>
        ensures { EditsAt result self.old self.new
            (changing self.old.id (RemoveClass classes.entry)) }
    {
        self.tree
            .try_change_of(&self.id, Change::RemoveClass(classes))
    }

    /// Removes every attribute with this local name. For an unknown id nothing changes.
    pub fn remove_attr(&mut self, name: &str)
        ensures { ChangesAt self.old self.new (RemoveAttr name.entry) }
    {
        self.tree.change_of(&self.id, Change::RemoveAttr(name));
    }

    /// Removes every attribute whose local name is in `names`. For an unknown id nothing changes.
    pub fn remove_attrs(&mut self, names: &[&str])
        ensures { ChangesAt self.old self.new (RemoveAttrs names.entry) }
    {
        self.tree.change_of(&self.id, Change::RemoveAttrs(names));
    }

    /// Removes every attribute whose local name isn't in `names`. For an unknown id nothing
    /// changes.
    pub fn retain_attrs(&mut self, names: &[&str])
        ensures { ChangesAt self.old self.new (RetainAttrs names.entry) }
    {
        self.tree.change_of(&self.id, Change::RetainAttrs(names));
    }

    /// Removes every attribute. For an unknown id nothing changes.
    pub fn remove_all_attrs(&mut self)
        ensures { ChangesAt self.old self.new RemoveAllAttrs }
    {
        self.tree.change_of(&self.id, Change::RemoveAllAttrs);
    }
}
