//! Making elements with template contents.

ghost use Rattle.std.specs.Prelude.{◌≡◌, ◌+◌, IfOk, length};
ghost use Rattle.dom_trees.specs.Edits.{Edits, appending_template};

use crate::checks::{check_known, check_open};
use crate::tree::Tree;
use dom_links::gap::InsertionPoint;
use dom_links::ops::templates;
use dom_nodes::fault::EditFault;
use dom_nodes::name::QualName;
use dom_nodes::node_data::{Attrs, Element, NodeData};
use dom_nodes::node_id::NodeId;

impl Tree {
    /// Makes an element with template contents as the last child of a node, and returns the ids of
    /// the element and of the contents. The contents are a new fragment with the id after that of
    /// the element; either both are made or neither. It fails with `UnknownNode`, with
    /// `NoChildrenHere` when the node can't have children, with `TooManyNodes` when there are no
    /// two ids left, and with `Memory`.
    pub fn append_template_of(
        &mut self,
        id: &NodeId,
        name: QualName,
        attrs: Attrs,
    ) -> Result<(NodeId, NodeId), EditFault>
        ensures edits { Edits result self.old self.new (appending_template id.now name attrs) }
        ensures number { IfOk result (λ made. made.0 ≡ length self.old.content) }
        ensures contents { IfOk result (λ made. made.1 ≡ length self.old.content + 1) }
    {
        check_known(&self.nodes, *id)?;
        check_open(&self.nodes, &InsertionPoint::EndOf(*id))?;
        let Some(contents) = NodeId::new(self.nodes.len() + 1) else {
            return Err(EditFault::TooManyNodes);
        };
        let element = Element::new(name, attrs, Some(contents), false);
        let made = templates::append_template_of(&mut self.nodes, *id, NodeData::Element(element))?;
        Ok((made, contents))
    }
}
