//! Tests of a compound selector at one node.

ghost use Rattle.std.specs.Prelude.{◌≡◌, ◌<◌, length, slice_get, true, IfSome};
ghost use Rattle.std.specs.Prelude.{Some};
ghost use Rattle.dom_nodes.specs.declared.node_data.NodeData.{NodeData};
ghost use Rattle.dom_links.specs.ListMoves.{element_at};
ghost use Rattle.dom_selectors.specs.Spelling.{Decides};
ghost use Rattle.dom_selectors.specs.ValuesAsTrees.{read_compound};
ghost use Rattle.dom_select.specs.Meaning.{Holds};
ghost use Rattle.dom_index.specs.NodeTests.{IsReady};
ghost use Rattle.dom_index.specs.TypeBytes.{IsDecidedByType, is_type_byte};

use crate::type_filter::{NO_ELEMENT, TypeFilter, decided, type_byte, type_filter_of};
use dom_links::iters::node_at;
use dom_nodes::node_id::NodeId;
use dom_select::matcher::caches::SelectorCaches;
use dom_select::matcher::compounds::compound_matches;
use dom_selectors::syntax::Compound;
use dom_trees::node_ref::NodeRef;
use dom_trees::tree::Tree;

/// A node of a tree, with its type byte.
#[derive(Drop)]
pub(crate) struct Visited<'t> {
    pub(crate) tree: &'t Tree,
    pub(crate) id: NodeId,
    pub(crate) byte: u8,
    ghost known: { id < length tree.now.content },
    ghost named: { (node : NodeData) → slice_get tree.now.content id ≡ Some node
        → is_type_byte node byte ≡ true },
}

impl<'t> Visited<'t> {
    /// Returns the node with this id.
    #[inline(always)]
    pub(crate) fn new(tree: &'t Tree, id: NodeId) -> Visited<'t>
        requires { id < length tree.now.content }
        ensures tree { result.tree ≡ tree.entry }
        ensures id { result.id ≡ id }
    {
        let byte = type_byte(&node_at(tree.nodes(), id).content);
        Visited { tree, id, byte }
    }

    /// Returns whether the node is an element.
    #[inline(always)]
    pub(crate) fn is_element(&self) -> bool
        ensures { result ≡ element_at self.now.tree.now self.now.id }
    {
        self.byte != NO_ELEMENT
    }
}

/// A compound selector, and its type filter if it has one.
#[derive(Drop)]
pub(crate) struct NodeTest<'c> {
    pub(crate) compound: &'c Compound,
    name: Option<TypeFilter>,
}

impl<'c> NodeTest<'c> {
    /// Returns the test of a compound selector.
    pub(crate) fn new(compound: &'c Compound) -> NodeTest<'c>
        ensures ready { IsReady result }
        ensures compound { result.compound ≡ compound.entry }
    {
        NodeTest {
            compound,
            name: type_filter_of(compound),
        }
    }

    /// Returns whether the compound selector matches the node. The caches have to be those of the
    /// node's tree.
    #[inline(always)]
    pub(crate) fn matches(&self, visited: &Visited<'_>, caches: &mut SelectorCaches<'_>) -> bool
        requires ready { IsReady self.now }
        requires caches { caches.old ≡ visited.now.tree.now }
        ensures is { Decides result (Holds (read_compound self.now.compound.now)
            visited.now.tree.now visited.now.id) }
        ensures kept { caches.new ≡ caches.old }
    {
        if let Some(answer) = decided_at(visited, self.name) {
            return answer;
        }
        let node = NodeRef::new(visited.id, visited.tree);
        compound_matches(self.compound, &node, caches)
    }
}

/// Returns whether a compound selector with this type filter matches the node, if the type byte
/// decides that.
#[inline(always)]
fn decided_at(visited: &Visited<'_>, wanted: Option<TypeFilter>) -> Option<bool>
    ensures { IfSome result (IsDecidedByType visited.now.tree.now visited.now.id wanted) }
{
    decided(visited.byte, wanted)
}
