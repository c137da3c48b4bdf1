//! `SelectionMut`: nodes of one tree that are edited together.

ghost use Rattle.std.specs.Prelude.{◌≡◌};
ghost use Rattle.dom_nodes.specs.declared.node_data.changing.Change.TheVariants.{
  AddClass,
  RemoveAllAttrs,
  RemoveAttr,
  RemoveAttrs,
  RemoveClass,
  Rename,
  RetainAttrs,
  SetAttr,
};
ghost use Rattle.dom_edits.specs.Edits.{edit_at};
ghost use Rattle.dom_edits.specs.Loans.{EditsSelected};

use crate::edit::{Edit, SelectionFault, edit_each};
use dom_nodes::node_data::Change;
use dom_nodes::node_id::NodeId;
use dom_trees::tree::Tree;

/// A list of node ids with a mutable borrow of their tree. Each edit is made at every node, in
/// order. At the first error it stops: the `SelectionFault` says at how many nodes the edit was
/// made, and the other nodes are unchanged. An id that the tree doesn't have fails with
/// `UnknownNode`.
#[derive(Drop)]
pub struct SelectionMut<'a> {
    pub tree: &'a mut Tree,
    pub nodes: Vec<NodeId>,
}

impl<'a> SelectionMut<'a> {
    /// Returns these nodes of the tree, in this order. A node may occur more than once.
    pub fn new(tree: &'a mut Tree, nodes: Vec<NodeId>) -> SelectionMut<'a>
        ensures tree { result.tree ≡ tree.entry }
        ensures nodes { result.nodes ≡ nodes }
    {
        SelectionMut { tree, nodes }
    }

    /// Detaches each of the nodes. It allocates no memory. It fails with `UnknownNode` only.
    pub fn remove(&mut self) -> Result<(), SelectionFault>
        ensures { EditsSelected result self.old self.new (edit_at Edit.Remove) }
    {
        edit_each(self.tree, &self.nodes, Edit::Remove)
    }

    /// Replaces the children of each element by one text node, and the contents of each text node.
    /// Other nodes are left alone. It fails with `UnknownNode`; at an element also with
    /// `TooManyNodes`; at an element or a text also with `Memory`.
    pub fn set_text(&mut self, text: &str) -> Result<(), SelectionFault>
        ensures { EditsSelected result self.old self.new (edit_at (Edit.SetText text.entry)) }
    {
        edit_each(self.tree, &self.nodes, Edit::SetText(text))
    }

    /// Replaces each element below the nodes whose local name is in `names` by its children. It
    /// allocates no memory. It fails with `UnknownNode` only.
    pub fn strip_elements(&mut self, names: &[&str]) -> Result<(), SelectionFault>
        ensures { EditsSelected result self.old self.new (edit_at (Edit.Strip names.entry)) }
    {
        edit_each(self.tree, &self.nodes, Edit::Strip(names))
    }

    /// Applies the change to each node.
    fn change(&mut self, change: Change) -> Result<(), SelectionFault>
        ensures { EditsSelected result self.old self.new (edit_at (Edit.Change change.entry)) }
    {
        edit_each(self.tree, &self.nodes, Edit::Change(change))
    }

    /// Sets the value of the first attribute with this local name of each element. When there is
    /// none, it appends an attribute without prefix and namespace. It fails with `UnknownNode`, or
    /// with `Memory` at an element.
    pub fn set_attr(&mut self, name: &str, value: &str) -> Result<(), SelectionFault>
        ensures { EditsSelected result self.old self.new
            (edit_at (Edit.Change (SetAttr name.entry value.entry))) }
    {
        self.change(Change::SetAttr { name, value })
    }

    /// Changes the local name of each element; prefix and namespace stay. It fails with
    /// `UnknownNode`, or with `Memory` at an element.
    pub fn rename(&mut self, name: &str) -> Result<(), SelectionFault>
        ensures { EditsSelected result self.old self.new
            (edit_at (Edit.Change (Rename name.entry))) }
    {
        self.change(Change::Rename(name))
    }

    /// Adds the words of `classes` that an element doesn't have yet to its first attribute `class`;
    /// when there is no such attribute, one is appended. A blank `classes` changes nothing. It
    /// fails with `UnknownNode`, or with `Memory` at an element.
    pub fn add_class(&mut self, classes: &str) -> Result<(), SelectionFault>
        ensures { EditsSelected result self.old self.new
            (edit_at (Edit.Change (AddClass classes.entry))) }
    {
        self.change(Change::AddClass(classes))
    }

    /// Removes the words of `classes` from the first attribute `class` of each element. A blank
    /// `classes` changes nothing. It fails with `UnknownNode`, or with `Memory` at an element with
    /// an attribute `class`.
    pub fn remove_class(&mut self, classes: &str) -> Result<(), SelectionFault>
        ensures { EditsSelected result self.old self.new
            (edit_at (Edit.Change (RemoveClass classes.entry))) }
    {
        self.change(Change::RemoveClass(classes))
    }

    /// Removes every attribute with this local name. It allocates no memory. It fails with
    /// `UnknownNode` only.
    pub fn remove_attr(&mut self, name: &str) -> Result<(), SelectionFault>
        ensures { EditsSelected result self.old self.new
            (edit_at (Edit.Change (RemoveAttr name.entry))) }
    {
        self.change(Change::RemoveAttr(name))
    }

    /// Removes every attribute whose local name is in `names`. It allocates no memory. It fails
    /// with `UnknownNode` only.
    pub fn remove_attrs(&mut self, names: &[&str]) -> Result<(), SelectionFault>
        ensures { EditsSelected result self.old self.new
            (edit_at (Edit.Change (RemoveAttrs names.entry))) }
    {
        self.change(Change::RemoveAttrs(names))
    }

    /// Removes every attribute whose local name isn't in `names`. It allocates no memory. It fails
    /// with `UnknownNode` only.
    pub fn retain_attrs(&mut self, names: &[&str]) -> Result<(), SelectionFault>
        ensures { EditsSelected result self.old self.new
            (edit_at (Edit.Change (RetainAttrs names.entry))) }
    {
        self.change(Change::RetainAttrs(names))
    }

    /// Removes every attribute. It allocates no memory. It fails with `UnknownNode` only.
    pub fn remove_all_attrs(&mut self) -> Result<(), SelectionFault>
        ensures { EditsSelected result self.old self.new (edit_at (Edit.Change RemoveAllAttrs)) }
    {
        self.change(Change::RemoveAllAttrs)
    }
}
