//! `Tree`: a tree that owns its nodes.
//!
//! The methods are in the modules below: `creation` and `templates` (new nodes), `moves`,
//! `insertions` and `copies` (edits of the links), `changes` and `texts` (edits of nodes),
//! `growing` (the calls that a parser uses) and `reading`. More queries are in `node_ref`.

ghost use Rattle.std.specs.Prelude.{◌≡◌, ◌≤◌, [], length, IfErr, IfOk, IsErrAnd, MatchOption};
ghost use Rattle.dom_links.specs.Forest.{forest_of, children_of};
ghost use Rattle.dom_links.specs.Growth.{lone};
ghost use Rattle.dom_links.specs.Lists.{IsDistinct};
ghost use Rattle.dom_links.specs.Sound.{IsSoundArena};
ghost use Rattle.dom_links.specs.Trees.{ancestors, in_order, limited, descendants_in_order};
ghost use Rattle.dom_links.specs.Walk.{IsNodeOf, leaves_among};
ghost use Rattle.dom_links.specs.declared.validation.ValidateFault.TheVariants.{Memory, NoRoot};
ghost use Rattle.dom_trees.specs.Refusals.{ComeBack, RootCause};
ghost use Rattle.dom_trees.specs.Views.{ListsNumbers};

use dom_links::iters::{AncestorNodes, ChildNodes, DescendantNodes, find_node};
use dom_links::ops::{TreeNodeOps, create};
use dom_links::validation::ValidateFault;
use dom_nodes::fault::{EditFault, OutOfMemory};
use dom_nodes::node_data::{NodeData, TreeNode};
use dom_nodes::node_id::NodeId;
pub use growing::ElementFlags;
use std::alloc::Global;
use std::fmt;
use std::marker::Model;

mod changes;
mod copies;
mod creation;
mod growing;
mod insertions;
mod moves;
mod reading;
mod templates;
mod texts;

/// A tree of nodes. Node 0 is its root; nodes that aren't below the root are detached but still
/// exist. In a contract a `Tree` is a `Forest`: the nodes, the children of each node, and the lists
/// of detached siblings.
#[derive(Drop)]
pub struct Tree {
    nodes: Vec<TreeNode>,
}

impl Model for Tree {
    ghost use Rattle.dom_links.specs.Forest.{Forest, forest_of};
    ghost use Rattle.dom_links.specs.Sound.{IsSoundArena};

    ghost Value = { Forest };

    ghost view = { λ tree. forest_of tree.nodes.items };

    ghost invariant = { λ tree. IsSoundArena tree.nodes.items };
}

/// Prints the word `Tree` and nothing of the nodes.
impl fmt::Debug for Tree {
    fn fmt<W: fmt::Write>(&self, f: &mut fmt::Formatter<W>) -> fmt::Result {
        f.write_str("Tree")
    }
}

impl Tree {
    /// Returns a tree of one node, the root. It fails with `BadContents` when the data is an
    /// element with template contents, and with `Memory` when memory is refused.
    pub fn new(alloc: Global, content: NodeData) -> Result<Tree, EditFault>
        ensures ok { IfOk result (λ tree. tree ≡ lone content) }
        ensures cause { IfErr result (λ fault. RootCause content fault) }
    {
        let None = content.template_contents() else {
            return Err(EditFault::BadContents);
        };
        Ok(Tree {
            nodes: create::create_root(alloc, content)?,
        })
    }

    /// Returns the id of the root, 0.
    pub fn root_id(&self) -> NodeId
        ensures { result ≡ 0 }
    {
        NodeId::root()
    }

    /// Returns the tree with these nodes, if they are linked as a forest and each node's id is its
    /// index. It fails when they aren't, or when memory for the check is refused; the error holds
    /// the unchanged vector and the fault that was found first.
    pub fn from_nodes(nodes: Vec<TreeNode>) -> Result<Tree, (Vec<TreeNode>, ValidateFault)>
        ensures sound { IfOk result (λ _. IsSoundArena nodes.items) }
        ensures ok { IfOk result (λ tree. tree ≡ forest_of nodes.items) }
        ensures back { IfErr result (λ refused. ComeBack nodes refused.0 refused.1) }
        ensures empty { nodes.items ≡ [] → IsErrAnd result (λ refused. refused.1 ≡ NoRoot) }
    {
        match TreeNodeOps::validate(*nodes.allocator(), &nodes) {
            Ok(()) => Ok(Tree { nodes }),
            Err(fault) => Err((nodes, fault)),
        }
    }

    /// Checks the links of the tree again. It can fail only with `Memory`, since the links of a
    /// tree are always those of a forest.
    pub fn validate(&self) -> Result<(), ValidateFault>
        ensures { IfErr result (λ fault. fault ≡ Memory) }
    {
        TreeNodeOps::validate(self.allocator(), self.nodes())
    }

    /// Returns the number of nodes, detached ones included.
    pub fn len(&self) -> usize
        ensures { result ≡ length self.now.content }
    {
        self.nodes.len()
    }

    /// Returns the nodes; the index of a node is its id.
    pub fn nodes(&self) -> &[TreeNode]
        ensures value { forest_of result.now ≡ self.now }
        ensures sound { IsSoundArena result.now }
    {
        self.nodes.as_slice()
    }

    /// Returns the allocator of the tree. There is no `ensures` clause, because a contract sees the
    /// tree as a forest, which has no allocator.
    pub fn allocator(&self) -> Global {
        *self.nodes.allocator()
    }

    /// Returns the node with this id, with its links and its data, or `None` for an unknown id.
    pub fn tree_node(&self, id: &NodeId) -> Option<&TreeNode>
        ensures { MatchOption result (length self.now.content ≤ id.now)
            (λ node. IsNodeOf self.now id.now node.now) }
    {
        find_node(self.nodes(), *id)
    }

    /// Returns an iterator over the ids of a node's children, from the last to the first if `rev`
    /// is true.
    pub fn child_ids_of_it(&self, id: &NodeId, rev: bool) -> ChildNodes<'_>
        ensures { result ≡ in_order rev (children_of self.now id.now) }
    {
        ChildNodes::new(self.nodes(), id, rev)
    }

    /// Returns the ids of a node's children, in order. It fails with `OutOfMemory` when memory is
    /// refused.
    pub fn child_ids_of(&self, id: &NodeId) -> Result<Vec<NodeId>, OutOfMemory>
        ensures { ListsNumbers result (children_of self.now id.now) }
    {
        Ok(self.child_ids_of_it(id, false).collect(self.allocator())?)
    }

    /// Returns an iterator over the ids of a node's ancestors, from its parent up. It ends after
    /// `max_depth` of them; `None` or 0 means no limit.
    pub fn ancestor_ids_of_it(&self, id: &NodeId, max_depth: Option<usize>) -> AncestorNodes<'_>
        ensures { result ≡ limited max_depth (ancestors self.now id.now) }
    {
        AncestorNodes::new(self.nodes(), id, max_depth)
    }

    /// Returns the ids of a node's ancestors, from its parent up, at most `max_depth` of them;
    /// `None` or 0 means no limit. It fails with `OutOfMemory` when memory is refused.
    pub fn ancestor_ids_of(
        &self,
        id: &NodeId,
        max_depth: Option<usize>,
    ) -> Result<Vec<NodeId>, OutOfMemory>
        ensures { ListsNumbers result (limited max_depth (ancestors self.now id.now)) }
    {
        Ok(
            self.ancestor_ids_of_it(id, max_depth)
                .collect(self.allocator())?,
        )
    }

    /// Returns an iterator over the ids of a node's descendants in document order. Template
    /// contents aren't visited.
    pub fn descendant_ids_of_it(&self, id: &NodeId) -> DescendantNodes<'_>
        ensures all { result.left ≡ descendants_in_order self.now id.now }
        ensures whole { result.whole ≡ descendants_in_order self.now id.now }
        ensures leaves { result.leaves ≡ leaves_among self.now (descendants_in_order self.now id.now) }
        ensures once { IsDistinct result.left }
        ensures few { length result.left ≤ 4294967295 }
    {
        DescendantNodes::new(self.nodes(), id)
    }

    /// Returns the ids of a node's descendants in document order. Template contents aren't visited.
    /// It fails with `OutOfMemory` when memory is refused.
    pub fn descendant_ids_of(&self, id: &NodeId) -> Result<Vec<NodeId>, OutOfMemory>
        ensures { ListsNumbers result (descendants_in_order self.now id.now) }
    {
        Ok(self.descendant_ids_of_it(id).collect(self.allocator())?)
    }
}
