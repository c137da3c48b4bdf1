//! Mutable access to the element in a node.

ghost use Rattle.std.specs.Prelude.{◌≡◌};
ghost use Rattle.std.specs.Borrow.{sem};
ghost use Rattle.std.specs.Option.{option_copied_mut};

use super::{Element, NodeData, TreeNode};

impl NodeData {
    ghost use Rattle.dom_nodes.specs.Attrs.{element_of};
    ghost use Rattle.dom_nodes.specs.Lending.{LendsElement};

    /// Returns mutable access to the element's data, or `None` when the node is no element.
    pub fn as_element_mut(&mut self) -> Option<&mut Element>
        ensures* lends { sem 𝓛 (LendsElement self.entry result) }
        ensures value { option_copied_mut result ≡ element_of self.old }
    {
        match self {
            NodeData::Element(element) => Some(element),
            _ => None,
        }
    }
}

impl TreeNode {
    ghost use Rattle.dom_nodes.specs.Attrs.{element_of};
    ghost use Rattle.dom_nodes.specs.Lending.{LendsElementOf};

    /// Returns mutable access to the element's data, or `None` when the node is no element. The id
    /// and the links stay.
    pub fn as_element_mut(&mut self) -> Option<&mut Element>
        ensures* lends { sem 𝓛 (LendsElementOf self.entry result) }
        ensures value { option_copied_mut result ≡ element_of self.old.content }
    {
        self.content.as_element_mut()
    }
}
