//! The parents, children, ancestors and siblings of a selection's nodes, each once, in the order in
//! which they are found.

ghost use Rattle.std.specs.Prelude.{◌≡◌, ◌∷◌, [], None, not, filter, OnOk};
ghost use Rattle.std.specs.Option.{option_to_list};
ghost use Rattle.dom_links.specs.ListMoves.{element_at};
ghost use Rattle.dom_links.specs.Trees.{ancestors, limited};
ghost use Rattle.dom_selection.specs.Gathering.{HasGathered, IsClosed, IsClosedFor, Gathers};
ghost use Rattle.dom_selection.specs.Selections.{Lists, child_elements, element_after};
ghost use Rattle.dom_selection.specs.Selections.{element_before, elements_above, gathered};
ghost use Rattle.dom_selection.specs.Selections.{parent_node};
ghost use Rattle.dom_selection.specs.Steps.{related_by};

use crate::selection::seen::Seen;
use crate::selection::{Selection, push_node};
use dom_links::iters::parent_id;
use dom_links::ops::TreeNodeOps;
use dom_nodes::fault::OutOfMemory;
use dom_nodes::node_id::NodeId;
use dom_trees::node_ref::NodeRef;
use dom_trees::tree::Tree;

/// Which nodes related to a node are meant. `Above` is `Ancestors` without a limit.
#[derive(Clone, Copy, Drop)]
enum Relation {
    Parent,
    Children,
    Ancestors(Option<usize>),
    Above,
    Next,
    Prev,
}

/// Nodes of a tree, each once, in the order in which they were found.
#[derive(Drop)]
pub(crate) struct Gathered<'a> {
    tree: &'a Tree,
    nodes: Vec<NodeRef<'a>>,
    seen: Seen,
}

impl<'a> Gathered<'a> {
    /// Returns the empty list. It allocates no memory.
    fn new(tree: &'a Tree) -> Gathered<'a>
        ensures tree { result.tree ≡ tree.entry }
        ensures met { HasGathered result [] }
    {
        let alloc = tree.allocator();
        Gathered {
            tree,
            nodes: Vec::new(alloc),
            seen: Seen::new(alloc),
        }
    }

    /// Adds a node if it wasn't found before.
    fn gather_node(&mut self, id: NodeId) -> Result<(), OutOfMemory>
        ensures { OnOk result (Gathers self.old self.new (id ∷ [])) }
    {
        if self.seen.note(id)? {
            push_node(&mut self.nodes, &NodeRef::new(id, self.tree))?;
        }
        Ok(())
    }

    /// Adds a node if it is an element and wasn't found before.
    fn gather_element(&mut self, id: NodeId) -> Result<(), OutOfMemory>
        ensures { OnOk result
            (Gathers self.old self.new (filter (element_at self.old.tree.now) (id ∷ []))) }
    {
        if NodeRef::new(id, self.tree).is_element() {
            return self.gather_node(id);
        }
        Ok(())
    }

    /// Adds a node, if there is one.
    fn gather_some(&mut self, id: Option<NodeId>) -> Result<(), OutOfMemory>
        ensures { OnOk result (Gathers self.old self.new (option_to_list id)) }
    {
        match id {
            Some(id) => self.gather_node(id),
            None => Ok(()),
        }
    }

    /// Adds the children of a node that are elements.
    fn gather_children(&mut self, id: NodeId) -> Result<(), OutOfMemory>
        ensures { OnOk result (Gathers self.old self.new (child_elements self.old.tree.now id)) }
    {
        let tree = self.tree;
        for child in tree.child_ids_of_it(&id, false) {
            self.gather_element(child)?;
        }
        Ok(())
    }

    /// Adds the ancestors of a node that are elements, looking at no more than `most` ancestors.
    fn gather_ancestors(&mut self, id: NodeId, most: Option<usize>) -> Result<(), OutOfMemory>
        ensures { OnOk result
            (Gathers self.old self.new (elements_above most self.old.tree.now id)) }
    {
        let tree = self.tree;
        for above in tree.ancestor_ids_of_it(&id, most) {
            self.gather_element(above)?;
        }
        Ok(())
    }

    /// Adds all ancestors of a node that are elements. It stops at the first one that was found
    /// before, since all ancestors of that one were added with it.
    fn gather_all_ancestors(&mut self, id: NodeId) -> Result<(), OutOfMemory>
        requires { IsClosed self.old.tree.now self.old.seen }
        ensures { OnOk result
            (Gathers self.old self.new (elements_above None self.old.tree.now id)) }
    {
        let tree = self.tree;
        // Called for its contract, which says that the nodes are a sound arena; it only borrows
        // them.
        let _nodes = tree.nodes();
        for above in tree.ancestor_ids_of_it(&id, None) {
            if self.seen.has(above) {
                return Ok(());
            }
            self.gather_element(above)?;
        }
        Ok(())
    }

    /// Adds the nodes that are related to a node.
    fn gather_related(&mut self, step: Relation, id: NodeId) -> Result<(), OutOfMemory>
        requires { IsClosedFor step self.old }
        ensures { OnOk result (Gathers self.old self.new (related_by step self.old.tree.now id)) }
    {
        let nodes = self.tree.nodes();
        match step {
            Relation::Parent => self.gather_some(parent_id(nodes, &id)),
            Relation::Children => self.gather_children(id),
            Relation::Ancestors(most) => self.gather_ancestors(id, most),
            Relation::Above => self.gather_all_ancestors(id),
            Relation::Next => self.gather_some(TreeNodeOps::next_element_sibling_of(nodes, &id)),
            Relation::Prev => self.gather_some(TreeNodeOps::prev_element_sibling_of(nodes, &id)),
        }
    }
}

impl<'a> Selection<'a> {
    /// Returns the nodes that are related to the nodes of the selection, each once.
    fn gather(&self, step: Relation) -> Result<Selection<'a>, OutOfMemory>
        ensures { Lists result (gathered (related_by step) self.now) }
    {
        let Some(tree) = self.tree() else {
            return Ok(Selection::new(self.allocator()));
        };
        // Called for its contract, which says that the nodes are a sound arena; it only borrows
        // them.
        let _nodes = tree.nodes();
        let mut gathered = Gathered::new(tree);
        for node in self.nodes() {
            gathered.gather_related(step, node.id)?;
        }
        Ok(Selection::of_one_tree(gathered.nodes))
    }

    /// Returns the parents of the nodes, of any kind, each once. It fails with `OutOfMemory` when
    /// memory is refused.
    pub fn parent(&self) -> Result<Selection<'a>, OutOfMemory>
        ensures { Lists result (gathered parent_node self.now) }
    {
        self.gather(Relation::Parent)
    }

    /// Returns the children of the nodes that are elements, each once. It fails with `OutOfMemory`
    /// when memory is refused.
    pub fn children(&self) -> Result<Selection<'a>, OutOfMemory>
        ensures { Lists result (gathered child_elements self.now) }
    {
        self.gather(Relation::Children)
    }

    /// Returns the ancestors of the nodes that are elements, each once. For each node only its
    /// `max_depth` nearest ancestors are looked at; `None` or 0 means no limit. It fails with
    /// `OutOfMemory` when memory is refused.
    pub fn ancestors(&self, max_depth: Option<usize>) -> Result<Selection<'a>, OutOfMemory>
        ensures { Lists result (gathered (elements_above max_depth) self.now) }
    {
        match max_depth {
            None | Some(0) => self.gather(Relation::Above),
            Some(_) => self.gather(Relation::Ancestors(max_depth)),
        }
    }

    /// Returns, for each node, the nearest element among the siblings after it, each once. It fails
    /// with `OutOfMemory` when memory is refused.
    pub fn next_sibling(&self) -> Result<Selection<'a>, OutOfMemory>
        ensures { Lists result (gathered element_after self.now) }
    {
        self.gather(Relation::Next)
    }

    /// Returns, for each node, the nearest element among the siblings before it, each once. It
    /// fails with `OutOfMemory` when memory is refused.
    pub fn prev_sibling(&self) -> Result<Selection<'a>, OutOfMemory>
        ensures { Lists result (gathered element_before self.now) }
    {
        self.gather(Relation::Prev)
    }
}
