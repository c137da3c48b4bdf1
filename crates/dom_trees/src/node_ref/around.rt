//! The nodes around a node: parent, siblings, children, ancestors and descendants. Around an
//! unknown id there are none.

ghost use Rattle.std.specs.Prelude.{◌≡◌, false, filter, find, true};
ghost use Rattle.dom_links.specs.Forest.{children_of, parent, siblings};
ghost use Rattle.dom_links.specs.ListMoves.{element_at};
ghost use Rattle.dom_links.specs.Lists.{after, before, first, last};
ghost use Rattle.dom_links.specs.Trees.{ancestors, limited, descendants_in_order};
ghost use Rattle.dom_links.specs.Walk.{later};
ghost use Rattle.dom_trees.specs.Views.{ListsNodes, child_named, ref_to};

use crate::node_ref::NodeRef;
use dom_links::iters::{
    first_child_id, last_child_id, next_sibling_id, parent_id, prev_sibling_id,
};
use dom_links::ops::TreeNodeOps;
use dom_nodes::fault::OutOfMemory;
use dom_nodes::node_id::NodeId;

impl<'a> NodeRef<'a> {
    /// Returns the node with this id in the same tree.
    fn node_of(&self, id: Option<NodeId>) -> Option<NodeRef<'a>>
        ensures { result ≡ ref_to self.now.tree id }
    {
        Some(NodeRef::new(id?, self.tree))
    }

    /// Returns the parent, or `None` when there is none.
    pub fn parent(&self) -> Option<NodeRef<'a>>
        ensures { result ≡ ref_to self.now.tree (parent self.now.tree.now self.now.id) }
    {
        self.node_of(parent_id(self.tree.nodes(), &self.id))
    }

    /// Returns the parent, whatever kind of node it is, or `None` when there is none. It is another
    /// name of `parent`, since the Rust crate dom_query has both.
    pub fn parent_element(&self) -> Option<NodeRef<'a>>
        ensures { result ≡ ref_to self.now.tree (parent self.now.tree.now self.now.id) }
    {
        self.parent()
    }

    /// Returns the first child, or `None` when there is none.
    pub fn first_child(&self) -> Option<NodeRef<'a>>
        ensures { let all = children_of self.now.tree.now self.now.id
            in result ≡ ref_to self.now.tree (first all) }
    {
        self.node_of(first_child_id(self.tree.nodes(), &self.id))
    }

    /// Returns the last child, or `None` when there is none.
    pub fn last_child(&self) -> Option<NodeRef<'a>>
        ensures { let all = children_of self.now.tree.now self.now.id
            in result ≡ ref_to self.now.tree (last all) }
    {
        self.node_of(last_child_id(self.tree.nodes(), &self.id))
    }

    /// Returns the next sibling, or `None` when there is none.
    pub fn next_sibling(&self) -> Option<NodeRef<'a>>
        ensures { let row = siblings self.now.tree.now self.now.id
            in result ≡ ref_to self.now.tree (after row self.now.id) }
    {
        self.node_of(next_sibling_id(self.tree.nodes(), &self.id))
    }

    /// Returns the previous sibling, or `None` when there is none.
    pub fn prev_sibling(&self) -> Option<NodeRef<'a>>
        ensures { let row = siblings self.now.tree.now self.now.id
            in result ≡ ref_to self.now.tree (before row self.now.id) }
    {
        self.node_of(prev_sibling_id(self.tree.nodes(), &self.id))
    }

    /// Returns the last one of the siblings after this node, or `None` when there is none after it.
    pub fn last_sibling(&self) -> Option<NodeRef<'a>>
        ensures { result ≡ ref_to self.now.tree (last (later self.now.tree.now false self.now.id)) }
    {
        self.node_of(TreeNodeOps::last_sibling_of(self.tree.nodes(), &self.id))
    }

    /// Returns the nearest element among the siblings after this node, or `None` when there is
    /// none.
    pub fn next_element_sibling(&self) -> Option<NodeRef<'a>>
        ensures { let row = later self.now.tree.now false self.now.id
            in result ≡ ref_to self.now.tree (find (element_at self.now.tree.now) row) }
    {
        self.node_of(TreeNodeOps::next_element_sibling_of(self.tree.nodes(), &self.id))
    }

    /// Returns the nearest element among the siblings after this node, or `None` when there is
    /// none. It is another name of `next_element_sibling`.
    pub fn next_sibling_element(&self) -> Option<NodeRef<'a>>
        ensures { let row = later self.now.tree.now false self.now.id
            in result ≡ ref_to self.now.tree (find (element_at self.now.tree.now) row) }
    {
        self.next_element_sibling()
    }

    /// Returns the nearest element among the siblings before this node, or `None` when there is
    /// none.
    pub fn prev_element_sibling(&self) -> Option<NodeRef<'a>>
        ensures { let row = later self.now.tree.now true self.now.id
            in result ≡ ref_to self.now.tree (find (element_at self.now.tree.now) row) }
    {
        self.node_of(TreeNodeOps::prev_element_sibling_of(self.tree.nodes(), &self.id))
    }

    /// Returns the nearest element among the siblings before this node, or `None` when there is
    /// none. It is another name of `prev_element_sibling`.
    pub fn prev_sibling_element(&self) -> Option<NodeRef<'a>>
        ensures { let row = later self.now.tree.now true self.now.id
            in result ≡ ref_to self.now.tree (find (element_at self.now.tree.now) row) }
    {
        self.prev_element_sibling()
    }

    /// Returns the first child that is an element, or `None` when there is none.
    pub fn first_element_child(&self) -> Option<NodeRef<'a>>
        ensures { let row = children_of self.now.tree.now self.now.id
            in result ≡ ref_to self.now.tree (find (element_at self.now.tree.now) row) }
    {
        self.node_of(TreeNodeOps::first_element_child_of(self.tree.nodes(), &self.id))
    }

    /// Returns the first child that is an element with this local name, or `None` when there is
    /// none.
    pub(crate) fn child_named(&self, name: &str) -> Option<NodeRef<'a>>
        ensures { let child = child_named self.now.tree.now self.now.id name.now
            in result ≡ ref_to self.now.tree child }
    {
        for id in self.tree.child_ids_of_it(&self.id, false) {
            let child = NodeRef::new(id, self.tree);
            if child.has_name(name) {
                return Some(child);
            }
        }
        None
    }

    /// Returns the children, in order. It fails with `OutOfMemory` when memory is refused.
    pub fn children(&self) -> Result<Vec<NodeRef<'a>>, OutOfMemory>
        ensures { ListsNodes result self.now.tree (children_of self.now.tree.now self.now.id) }
    {
        Ok(self.children_it(false).collect(self.tree.allocator())?)
    }

    /// Returns the ancestors, from the parent up, at most `max_depth` of them; `None` or 0 means no
    /// limit. It fails with `OutOfMemory` when memory is refused.
    pub fn ancestors(&self, max_depth: Option<usize>) -> Result<Vec<NodeRef<'a>>, OutOfMemory>
        ensures { let above = limited max_depth (ancestors self.now.tree.now self.now.id)
            in ListsNodes result self.now.tree above }
    {
        Ok(self.ancestors_it(max_depth).collect(self.tree.allocator())?)
    }

    /// Returns the descendants in document order. Template contents aren't visited. It fails with
    /// `OutOfMemory` when memory is refused.
    pub fn descendants(&self) -> Result<Vec<NodeRef<'a>>, OutOfMemory>
        ensures { ListsNodes result self.now.tree (descendants_in_order self.now.tree.now self.now.id) }
    {
        Ok(self.descendants_it().collect(self.tree.allocator())?)
    }

    /// Returns the children that are elements, in order. It fails with `OutOfMemory` when memory is
    /// refused.
    pub fn element_children(&self) -> Result<Vec<NodeRef<'a>>, OutOfMemory>
        ensures { let all = children_of self.now.tree.now self.now.id
            in ListsNodes result self.now.tree (filter (element_at self.now.tree.now) all) }
    {
        let children = self.children_it(false);
        let elements = children.filter(|child| child.is_element());
        Ok(elements.collect(self.tree.allocator())?)
    }
}
