//! Making new nodes.

ghost use Rattle.std.specs.Prelude.{◌≡◌, MatchResult};
ghost use Rattle.dom_nodes.specs.declared.fault.EditFault.TheVariants.{Memory};
ghost use Rattle.dom_trees.specs.Edits.{Makes, appending, making};
ghost use Rattle.dom_trees.specs.NewNodes.{bare_element, html_name, text_node};

use crate::checks::check_room;
use crate::tree::Tree;
use dom_links::ops::TreeNodeOps;
use dom_nodes::fault::EditFault;
use dom_nodes::name::{LocalName, QualName};
use dom_nodes::node_data::{Attrs, Element, NodeData};
use dom_nodes::node_id::NodeId;
use dom_nodes::text::{RareText, Text};
use std::alloc::Global;

impl Tree {
    /// Makes room for `additional` more nodes. A refusal of memory is ignored: the tree also grows
    /// without it, but with it a tree of known size is allocated only once.
    pub fn reserve(&mut self, additional: usize)
        ensures { self.new ≡ self.old }
    {
        let _ = self.nodes.reserve(additional);
    }

    /// Makes a detached node and returns its id. If the data has template contents, these become
    /// the element's contents. It fails with `BadContents` when they aren't free (a fragment other
    /// than the root that is no element's contents), and with `TooManyNodes` or `Memory`.
    pub fn create_node(&mut self, content: NodeData) -> Result<NodeId, EditFault>
        ensures { Makes result self.old self.new (making content) }
    {
        TreeNodeOps::create_node(&mut self.nodes, content)
    }

    /// Makes a node as the last child of the node `id` and returns the id of the new one. It fails
    /// with `UnknownNode` when `id` is unknown; with `NoChildrenHere` when that node can't have
    /// children; with `RootOrFragment` when the data is a document or a fragment; with
    /// `BadContents` when its template contents aren't free; with `Cycle` when the node `id` is
    /// inside these contents; with `TooManyNodes` or `Memory`.
    #[inline(always)]
    pub fn append_child_data_of(
        &mut self,
        id: &NodeId,
        content: NodeData,
    ) -> Result<NodeId, EditFault>
        ensures { Makes result self.old self.new (appending id.now content) }
    {
        TreeNodeOps::append_child_data_of(&mut self.nodes, *id, content)
    }

    /// Makes a detached HTML element with this local name, without prefix and attributes, and
    /// returns its id. The name is taken as it is and isn't checked. It fails with `TooManyNodes`
    /// or `Memory`.
    pub fn new_element(&mut self, name: &str) -> Result<NodeId, EditFault>
        ensures { Makes result self.old self.new (making (bare_element (html_name name.now))) }
    {
        check_room(&self.nodes)?;
        let local = local_name(self.allocator(), name)?;
        self.new_element_qualname(QualName::html(local))
    }

    /// Makes a detached element with this name, without attributes, and returns its id. It fails
    /// with `TooManyNodes` or `Memory`.
    pub fn new_element_qualname(&mut self, name: QualName) -> Result<NodeId, EditFault>
        ensures { Makes result self.old self.new (making (bare_element name)) }
    {
        let attrs = Attrs::new(self.allocator());
        self.create_node(NodeData::Element(Element::new(name, attrs, None, false)))
    }

    /// Makes a detached text node and returns its id. It fails with `TooManyNodes` or `Memory`.
    pub fn new_text(&mut self, text: &str) -> Result<NodeId, EditFault>
        ensures { Makes result self.old self.new (making (text_node text.now)) }
    {
        check_room(&self.nodes)?;
        let contents = owned_text(self.allocator(), text)?;
        self.create_node(NodeData::Text { contents })
    }
}

/// Returns a copy of the text. It fails with `Memory`.
pub(crate) fn owned_text(alloc: Global, text: &str) -> Result<Text, EditFault>
    ensures { MatchResult result (λ made. made ≡ text.now) (λ fault. fault ≡ Memory) }
{
    match Text::new(alloc, text) {
        Ok(made) => Ok(made),
        Err(_) => Err(EditFault::Memory),
    }
}

/// Returns a copy of the text behind a pointer. It fails with `Memory`.
pub(crate) fn rare_text(alloc: Global, text: &str) -> Result<RareText, EditFault>
    ensures { MatchResult result (λ made. made ≡ text.now) (λ fault. fault ≡ Memory) }
{
    match RareText::new(alloc, text) {
        Ok(made) => Ok(made),
        Err(_) => Err(EditFault::Memory),
    }
}

/// Returns the local name. It fails with `Memory`.
fn local_name(alloc: Global, name: &str) -> Result<LocalName, EditFault>
    ensures { MatchResult result (λ made. made ≡ name.now) (λ fault. fault ≡ Memory) }
{
    match LocalName::new(alloc, name) {
        Ok(made) => Ok(made),
        Err(_) => Err(EditFault::Memory),
    }
}
