//! Methods of `Tree` that return references: a node by its id, the nodes around it, and the parts
//! of a page.

ghost use Rattle.std.specs.Prelude.{◌≡◌, ◌≤◌, MatchOption, codes, false, find, length};
ghost use Rattle.std.specs.Option.{option_copied};
ghost use Rattle.dom_links.specs.Forest.{children_of, parent, siblings};
ghost use Rattle.dom_links.specs.ListMoves.{element_at};
ghost use Rattle.dom_links.specs.Lists.{after, before, first, last};
ghost use Rattle.dom_links.specs.Trees.{ancestors, limited};
ghost use Rattle.dom_links.specs.Walk.{later};
ghost use Rattle.dom_trees.specs.Views.{ListsNodes, base_uri, page_part, ref_to};

use crate::node_ref::NodeRef;
use crate::tree::Tree;
use dom_nodes::fault::OutOfMemory;
use dom_nodes::node_id::NodeId;

impl Tree {
    /// Returns the node with this id, or `None` for an unknown id.
    pub fn get(&self, id: &NodeId) -> Option<NodeRef<'_>>
        ensures { MatchOption result (length self.now.content ≤ id.now)
            (λ node. node ≡ record { id = id.now; tree = self.entry }) }
    {
        if id.value() >= self.len() {
            return None;
        }
        Some(self.get_unchecked(id))
    }

    /// Returns a reference to the node with this id. It isn't checked that the node exists.
    pub fn get_unchecked(&self, id: &NodeId) -> NodeRef<'_>
        ensures { result ≡ record { id = id.now; tree = self.entry } }
    {
        NodeRef::new(*id, self)
    }

    /// Returns the root.
    pub fn root(&self) -> NodeRef<'_>
        ensures { result ≡ record { id = 0; tree = self.entry } }
    {
        self.get_unchecked(&NodeId::root())
    }

    /// Returns the first child of the root that is an element, or `None` when there is none.
    pub fn html_root(&self) -> Option<NodeRef<'_>>
        ensures { result ≡ ref_to self.entry (find (element_at self.now) (children_of self.now 0)) }
    {
        self.root().first_element_child()
    }

    /// Returns the `head` of the page: the first child `head` of the root's first child `html`, or
    /// `None` when one is missing.
    pub fn head(&self) -> Option<NodeRef<'_>>
        ensures { result ≡ ref_to self.entry (page_part self.now (codes "head")) }
    {
        self.page_part("head")
    }

    /// Returns the `body` of the page: the first child `body` of the root's first child `html`, or
    /// `None` when one is missing.
    pub fn body(&self) -> Option<NodeRef<'_>>
        ensures { result ≡ ref_to self.entry (page_part self.now (codes "body")) }
    {
        self.page_part("body")
    }

    /// Returns the first child with this local name of the root's first child `html`.
    fn page_part(&self, name: &str) -> Option<NodeRef<'_>>
        ensures { result ≡ ref_to self.entry (page_part self.now name.now) }
    {
        let Some(html) = self.root().child_named("html") else {
            return None;
        };
        html.child_named(name)
    }

    /// Returns the value of the first attribute `href` of the first child `base` of `head`, or
    /// `None` when one is missing.
    pub fn base_uri(&self) -> Option<&str>
        ensures { option_copied result ≡ base_uri self.now }
    {
        let Some(head) = self.head() else {
            return None;
        };
        let Some(base) = head.child_named("base") else {
            return None;
        };
        base.attr("href")
    }

    /// Returns the parent of a node, or `None` when there is none.
    pub fn parent_of(&self, id: &NodeId) -> Option<NodeRef<'_>>
        ensures { result ≡ ref_to self.entry (parent self.now id.now) }
    {
        self.get_unchecked(id).parent()
    }

    /// Returns the first child of a node, or `None` when there is none.
    pub fn first_child_of(&self, id: &NodeId) -> Option<NodeRef<'_>>
        ensures { result ≡ ref_to self.entry (first (children_of self.now id.now)) }
    {
        self.get_unchecked(id).first_child()
    }

    /// Returns the last child of a node, or `None` when there is none.
    pub fn last_child_of(&self, id: &NodeId) -> Option<NodeRef<'_>>
        ensures { result ≡ ref_to self.entry (last (children_of self.now id.now)) }
    {
        self.get_unchecked(id).last_child()
    }

    /// Returns the previous sibling of a node, or `None` when there is none.
    pub fn prev_sibling_of(&self, id: &NodeId) -> Option<NodeRef<'_>>
        ensures { result ≡ ref_to self.entry (before (siblings self.now id.now) id.now) }
    {
        self.get_unchecked(id).prev_sibling()
    }

    /// Returns the next sibling of a node, or `None` when there is none.
    pub fn next_sibling_of(&self, id: &NodeId) -> Option<NodeRef<'_>>
        ensures { result ≡ ref_to self.entry (after (siblings self.now id.now) id.now) }
    {
        self.get_unchecked(id).next_sibling()
    }

    /// Returns the last one of the siblings after a node, or `None` when there is none after it.
    pub fn last_sibling_of(&self, id: &NodeId) -> Option<NodeRef<'_>>
        ensures { result ≡ ref_to self.entry (last (later self.now false id.now)) }
    {
        self.get_unchecked(id).last_sibling()
    }

    /// Returns the children of a node, in order. It fails with `OutOfMemory` when memory is
    /// refused.
    pub fn children_of(&self, id: &NodeId) -> Result<Vec<NodeRef<'_>>, OutOfMemory>
        ensures { ListsNodes result self.entry (children_of self.now id.now) }
    {
        self.get_unchecked(id).children()
    }

    /// Returns the ancestors of a node, from its parent up, at most `max_depth` of them; `None` or
    /// 0 means no limit. It fails with `OutOfMemory` when memory is refused.
    pub fn ancestors_of(
        &self,
        id: &NodeId,
        max_depth: Option<usize>,
    ) -> Result<Vec<NodeRef<'_>>, OutOfMemory>
        ensures { ListsNodes result self.entry (limited max_depth (ancestors self.now id.now)) }
    {
        self.get_unchecked(id).ancestors(max_depth)
    }
}
