//! Queries by node id. For an unknown id the answer is nothing or the default.

ghost use Rattle.std.specs.Prelude.{◌≡◌, ◌<◌, ◌≤◌, ◌⊎◌, MatchOption, length, slice_get};
ghost use Rattle.std.specs.Fn.{FnOnceReturnsAt, FnOnceReturnsAtPair};
ghost use Rattle.std.specs.Option.{option_copied};
ghost use Rattle.dom_trees.specs.Views.{IsAnswerOf, IsAnswerOfTwo, is_integration_point};
ghost use Rattle.dom_trees.specs.Views.{node_element, node_qual_name};

use crate::tree::Tree;
use dom_nodes::name::NameRef;
use dom_nodes::node_data::{Element, NodeData, TreeNode};
use dom_nodes::node_id::NodeId;

impl Tree {
    /// Calls the closure with the node and returns its result, or `None` for an unknown id.
    pub fn query_node<T, F: FnOnce(&TreeNode) -> T + Drop>(&self, id: &NodeId, f: F) -> Option<T>
        requires { F.IsAlwaysCallable f }
        ensures { MatchOption result (length self.now.content ≤ id.now)
            (IsAnswerOf (FnOnceReturnsAt F.FnOnce f) self.now id.now) }
    {
        let node = self.tree_node(id)?;
        Some(f(node))
    }

    /// Calls the closure with the node and returns its result, or `default` for an unknown id.
    pub fn query_node_or<T: Drop, F: FnOnce(&TreeNode) -> T + Drop>(
        &self,
        id: &NodeId,
        default: T,
        f: F,
    ) -> T
        requires { F.IsAlwaysCallable f }
        ensures unknown { length self.now.content ≤ id.now → result ≡ default }
        ensures known { id.now < length self.now.content →
            IsAnswerOf (FnOnceReturnsAt F.FnOnce f) self.now id.now result }
    {
        match self.tree_node(id) {
            Some(node) => f(node),
            None => default,
        }
    }

    /// Calls the closure with two nodes and returns its result, or `None` when an id is unknown.
    pub fn compare_node<T, F: FnOnce(&TreeNode, &TreeNode) -> T + Drop>(
        &self,
        a: &NodeId,
        b: &NodeId,
        f: F,
    ) -> Option<T>
        requires { F.IsAlwaysCallable f }
        ensures { MatchOption result
            ((length self.now.content ≤ a.now) ⊎ (length self.now.content ≤ b.now))
            (IsAnswerOfTwo (FnOnceReturnsAtPair F.FnOnce f) self.now a.now b.now) }
    {
        let first = self.tree_node(a)?;
        let second = self.tree_node(b)?;
        Some(f(first, second))
    }

    /// Returns the element's name with its prefix and namespace, or `None` when the node is no
    /// element.
    pub fn get_name(&self, id: &NodeId) -> Option<NameRef<'_>>
        ensures { result ≡ node_qual_name self.now id.now }
    {
        Some(self.element(id)?.name())
    }

    /// Returns whether the node is an element with the flag that a MathML `annotation-xml` element
    /// is an HTML integration point.
    pub fn is_mathml_annotation_xml_integration_point(&self, node_id: &NodeId) -> bool
        ensures { result ≡ is_integration_point self.now node_id.now }
    {
        self.element(node_id).is_some_and(
            |element| element.mathml_annotation_xml_integration_point(),
        )
    }

    /// Returns the node's data, or `None` for an unknown id.
    pub(crate) fn content(&self, id: &NodeId) -> Option<&NodeData>
        ensures { option_copied result ≡ slice_get self.now.content id.now }
    {
        Some(&self.tree_node(id)?.content)
    }

    /// Returns the element's data, or `None` when the node is no element.
    pub(crate) fn element(&self, id: &NodeId) -> Option<&Element>
        ensures { option_copied result ≡ node_element self.now id.now }
    {
        self.content(id)?.as_element()
    }
}
