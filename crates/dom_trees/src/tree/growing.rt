//! The calls with which a parser builds a tree: elements with flags, comments, doctypes, text that
//! joins the text before it, and missing attributes.

ghost use Rattle.dom_trees.specs.Edits.{Edits, Makes, appending, making};
ghost use Rattle.dom_trees.specs.TreeUnderConstruction.{adding_attrs, adding_text, making_element};
ghost use Rattle.dom_trees.specs.NewNodes.{comment_node, doctype_node, instruction_node};

use crate::checks::{check_known, check_open, check_room, target_of};
use crate::tree::Tree;
use crate::tree::creation::{owned_text, rare_text};
use dom_links::gap::InsertionPoint;
use dom_links::ops::{add_text, changes, templates};
use dom_nodes::fault::EditFault;
use dom_nodes::name::QualName;
use dom_nodes::node_data::{Attrs, Element, NodeData};
use dom_nodes::node_id::NodeId;

/// What a new element gets besides name and attributes: whether it gets template contents, and the
/// flag that a MathML `annotation-xml` element is an HTML integration point (HTML Standard,
/// 13.2.6).
#[derive(Clone, Copy, PartialEq, Eq, Debug, Drop)]
pub struct ElementFlags {
    pub template: bool,
    pub mathml_annotation_xml_integration_point: bool,
}

impl Tree {
    /// Makes a detached element and returns its id. With the flag `template` it also makes a
    /// fragment for its template contents, with the next id; either both are made or neither. It
    /// fails with `TooManyNodes` when there are no ids left for them, and with `Memory`.
    pub fn create_element(
        &mut self,
        name: QualName,
        attrs: Attrs,
        flags: ElementFlags,
    ) -> Result<NodeId, EditFault>
        ensures { Makes result self.old self.new (making_element name attrs flags) }
    {
        let mathml = flags.mathml_annotation_xml_integration_point;
        if !flags.template {
            let element = Element::new(name, attrs, None, mathml);
            return self.create_node(NodeData::Element(element));
        }
        let Some(contents) = NodeId::new(self.nodes.len() + 1) else {
            return Err(EditFault::TooManyNodes);
        };
        let element = Element::new(name, attrs, Some(contents), mathml);
        templates::create_template(&mut self.nodes, NodeData::Element(element))
    }

    /// Makes a detached comment and returns its id. It fails with `TooManyNodes` or `Memory`.
    pub fn new_comment(&mut self, text: &str) -> Result<NodeId, EditFault>
        ensures { Makes result self.old self.new (making (comment_node text.now)) }
    {
        check_room(&self.nodes)?;
        let contents = owned_text(self.allocator(), text)?;
        self.create_node(NodeData::Comment { contents })
    }

    /// Makes a detached processing instruction and returns its id. It fails with `TooManyNodes` or
    /// `Memory`.
    pub fn new_instruction(&mut self, target: &str, contents: &str) -> Result<NodeId, EditFault>
        ensures { Makes result self.old self.new
            (making (instruction_node target.now contents.now)) }
    {
        check_room(&self.nodes)?;
        let target = rare_text(self.allocator(), target)?;
        let contents = rare_text(self.allocator(), contents)?;
        self.create_node(NodeData::ProcessingInstruction { target, contents })
    }

    /// Makes a doctype as the last child of a node and returns its id. It fails with `UnknownNode`,
    /// with `NoChildrenHere` when the node can't have children, and with `TooManyNodes` or
    /// `Memory`.
    pub fn append_doctype_of(
        &mut self,
        id: &NodeId,
        name: &str,
        public_id: &str,
        system_id: &str,
    ) -> Result<NodeId, EditFault>
        ensures { Makes result self.old self.new
            (appending id.now (doctype_node name.now public_id.now system_id.now)) }
    {
        check_room(&self.nodes)?;
        let name = rare_text(self.allocator(), name)?;
        let public_id = rare_text(self.allocator(), public_id)?;
        let system_id = rare_text(self.allocator(), system_id)?;
        self.append_child_data_of(
            id,
            NodeData::Doctype {
                name,
                public_id,
                system_id,
            },
        )
    }

    /// Adds text at an insertion point: the text node immediately before it grows; if there is
    /// none, a new text node is made there (HTML Standard, 13.2.6.1, "insert a character"). It
    /// fails with `UnknownNode`; with `NoChildrenHere` or `RootOrFragment` when nodes can't be put
    /// there; with `TooManyNodes` when a new text node is needed; and with `Memory`.
    pub fn add_text_at(&mut self, gap: InsertionPoint, text: &str) -> Result<(), EditFault>
        ensures { Edits result self.old self.new (adding_text gap text.now) }
    {
        check_known(&self.nodes, target_of(&gap))?;
        check_open(&self.nodes, &gap)?;
        add_text::add_text(&mut self.nodes, gap, text)
    }

    /// Appends the attributes whose names an element doesn't have. Two names are equal when prefix,
    /// namespace and local name are. A node of another kind is unchanged. It fails with
    /// `UnknownNode`, or with `Memory` for an element.
    pub fn add_missing_attrs_of(&mut self, id: &NodeId, attrs: Attrs) -> Result<(), EditFault>
        ensures { Edits result self.old self.new (adding_attrs id.now attrs) }
    {
        check_known(&self.nodes, *id)?;
        match changes::add_attrs(&mut self.nodes, *id, attrs) {
            Ok(()) => Ok(()),
            Err(_) => Err(EditFault::Memory),
        }
    }
}
