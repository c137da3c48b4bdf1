//! `TreeSink`: the calls by which a parser of the caller's own fills a document. They are named as
//! in html5ever's trait, which the crate dom_query implements.

ghost use Rattle.std.specs.Prelude.{◌≡◌};
ghost use Rattle.dom_markup.specs.Sinks.{gap_by_parent};

use crate::document::{Document, QuirksMode};
use dom_links::gap::{InsertionPoint, MovedNodes};
use dom_nodes::fault::{EditFault, OutOfMemory};
use dom_nodes::name::{NameRef, QualName};
use dom_nodes::node_data::Attrs;
use dom_nodes::node_id::NodeId;
pub use dom_trees::tree::ElementFlags;
use dom_trees::tree::Tree;

/// What a parser inserts: a node that it made, or a text.
#[derive(Drop)]
pub enum NodeOrText<'a> {
    AppendNode(NodeId),
    AppendText(&'a str),
}

/// A document that a parser fills. Nodes are passed by id; for an id that the tree doesn't have,
/// the queries return `None` or `false`. After an error the tree is as it was.
pub trait TreeSink {
    ghost use Rattle.std.specs.Prelude.{◌≡◌, ◌==◌, Some};
    ghost use Rattle.dom_links.specs.Sound.{contents_at};
    ghost use Rattle.dom_links.specs.declared.gap.InsertionPoint.TheVariants.{Before, EndOf};
    ghost use Rattle.dom_trees.specs.Edits.{appending, making, removing, reparenting};
    ghost use Rattle.dom_trees.specs.TreeUnderConstruction.{adding_attrs, making_element};
    ghost use Rattle.dom_trees.specs.NewNodes.{comment_node, doctype_node, instruction_node};
    ghost use Rattle.dom_trees.specs.Views.{is_integration_point, node_qual_name};
    ghost use Rattle.dom_markup.specs.declared.document.Document.{Document};
    ghost use Rattle.dom_markup.specs.Sinks.{EditsIn, MakesIn, Notes, PutsIn, gap_by_parent};

    // The document that is filled.
    ghost document: { Self → Document };

    /// Returns the document. A parser calls this at its end.
    fn finish(self) -> Document
        ensures { result ≡ document self };

    /// Appends a message to the document's parse errors. Fails only when memory runs out.
    fn parse_error(&mut self, message: &str) -> Result<(), OutOfMemory>
        ensures { Notes result (document self.old) (document self.new) message.now };

    /// Returns the id of the root.
    fn get_document(&self) -> NodeId
        ensures { result ≡ 0 };

    /// Returns the id of the fragment with a template's contents, or `None` if the node has none.
    fn get_template_contents(&self, target: &NodeId) -> Option<NodeId>
        ensures { result ≡ contents_at (document self.now).tree target.now };

    /// Sets the document's quirks mode.
    fn set_quirks_mode(&mut self, mode: QuirksMode)
        ensures { document self.new ≡ record (document self.old) { quirks_mode = mode } };

    /// Returns whether both ids are the same.
    fn same_node(&self, x: &NodeId, y: &NodeId) -> bool
        ensures { result ≡ (x.now == y.now) };

    /// Returns the name of an element, or `None` if the node is no element.
    fn elem_name(&self, target: &NodeId) -> Option<NameRef<'_>>
        ensures { result ≡ node_qual_name (document self.now).tree target.now };

    /// Makes a detached element and returns its id. With the flag `template` it gets contents: a
    /// new fragment with the next id. Fails with `TooManyNodes` or `Memory`, and then makes
    /// neither.
    fn create_element(
        &mut self,
        name: QualName,
        attrs: Attrs,
        flags: ElementFlags,
    ) -> Result<NodeId, EditFault>
        ensures { MakesIn result (document self.old) (document self.new)
            (making_element name attrs flags) };

    /// Makes a detached comment and returns its id. Fails with `TooManyNodes` or `Memory`.
    fn create_comment(&mut self, text: &str) -> Result<NodeId, EditFault>
        ensures { MakesIn result (document self.old) (document self.new)
            (making (comment_node text.now)) };

    /// Makes a detached processing instruction and returns its id. Fails with `TooManyNodes` or
    /// `Memory`.
    fn create_pi(&mut self, target: &str, contents: &str) -> Result<NodeId, EditFault>
        ensures { MakesIn result (document self.old) (document self.new)
            (making (instruction_node target.now contents.now)) };

    /// Inserts a node or a text at the end of a node's children. A text is joined to a last child
    /// that is a text. Fails as `Tree::append_child_of` and `Tree::add_text_at` do.
    fn append(&mut self, parent: &NodeId, child: NodeOrText<'_>) -> Result<(), EditFault>
        ensures { PutsIn (EndOf parent.now) child.entry (document self.old) (document self.new)
            result };

    /// Inserts a node or a text right before a node. A text is joined to a previous sibling that is
    /// a text. Fails as `Tree::insert_before_of` and `Tree::add_text_at` do.
    fn append_before_sibling(
        &mut self,
        sibling: &NodeId,
        child: NodeOrText<'_>,
    ) -> Result<(), EditFault>
        ensures { PutsIn (Before sibling.now) child.entry (document self.old) (document self.new)
            result };

    /// Inserts a node or a text right before `element` if that has a parent, like
    /// `append_before_sibling`; and otherwise at the end of the children of `prev_element`, like
    /// `append`.
    fn append_based_on_parent_node(
        &mut self,
        element: &NodeId,
        prev_element: &NodeId,
        child: NodeOrText<'_>,
    ) -> Result<(), EditFault>
        ensures { let gap = gap_by_parent (document self.old).tree element.now prev_element.now in
            PutsIn gap child.entry (document self.old) (document self.new) result };

    /// Makes a doctype as the last child of the root. Fails with `NoChildrenHere` if the root can't
    /// have children, and with `TooManyNodes` or `Memory`.
    fn append_doctype_to_document(
        &mut self,
        name: &str,
        public_id: &str,
        system_id: &str,
    ) -> Result<(), EditFault>
        ensures { EditsIn result (document self.old) (document self.new)
            (appending 0 (doctype_node name.now public_id.now system_id.now)) };

    /// Adds to the element those of the attributes whose names, with prefix and namespace, it
    /// doesn't have yet. A node that is no element is unchanged. Fails with `UnknownNode`, and for
    /// an element also with `Memory`.
    fn add_attrs_if_missing(&mut self, target: &NodeId, attrs: Attrs) -> Result<(), EditFault>
        ensures { EditsIn result (document self.old) (document self.new)
            (adding_attrs target.now attrs) };

    /// Detaches a node from its siblings and parent. Fails only with `UnknownNode`.
    fn remove_from_parent(&mut self, target: &NodeId) -> Result<(), EditFault>
        ensures { EditsIn result (document self.old) (document self.new) (removing target.now) };

    /// Moves the children of a node to the end of another node's children. Fails as
    /// `Tree::reparent_children_of` does.
    fn reparent_children(&mut self, node: &NodeId, new_parent: &NodeId) -> Result<(), EditFault>
        ensures { EditsIn result (document self.old) (document self.new)
            (reparenting node.now (Some new_parent.now)) };

    /// Returns whether the node is an element that is marked as a MathML `annotation-xml`
    /// integration point, whose content is HTML.
    fn is_mathml_annotation_xml_integration_point(&self, handle: &NodeId) -> bool
        ensures { result ≡ is_integration_point (document self.now).tree handle.now };
}

impl TreeSink for Document {
    ghost document = { λ filled. filled };

    fn finish(self) -> Document {
        self
    }

    fn parse_error(&mut self, message: &str) -> Result<(), OutOfMemory> {
        let text = String::from_str(*self.errors.allocator(), message)?;
        self.errors.push(text)?;
        Ok(())
    }

    fn get_document(&self) -> NodeId {
        self.tree.root_id()
    }

    fn get_template_contents(&self, target: &NodeId) -> Option<NodeId> {
        self.tree.tree_node(target)?.content.template_contents()
    }

    fn set_quirks_mode(&mut self, mode: QuirksMode) {
        self.quirks_mode = mode;
    }

    fn same_node(&self, x: &NodeId, y: &NodeId) -> bool {
        x == y
    }

    fn elem_name(&self, target: &NodeId) -> Option<NameRef<'_>> {
        self.tree.get_name(target)
    }

    fn create_element(
        &mut self,
        name: QualName,
        attrs: Attrs,
        flags: ElementFlags,
    ) -> Result<NodeId, EditFault> {
        self.tree.create_element(name, attrs, flags)
    }

    fn create_comment(&mut self, text: &str) -> Result<NodeId, EditFault> {
        self.tree.new_comment(text)
    }

    fn create_pi(&mut self, target: &str, contents: &str) -> Result<NodeId, EditFault> {
        self.tree.new_instruction(target, contents)
    }

    fn append(&mut self, parent: &NodeId, child: NodeOrText<'_>) -> Result<(), EditFault> {
        let gap = InsertionPoint::EndOf(*parent);
        match child {
            NodeOrText::AppendNode(id) => self.tree.move_to(gap, MovedNodes::Node(id)),
            NodeOrText::AppendText(text) => self.tree.add_text_at(gap, text),
        }
    }

    fn append_before_sibling(
        &mut self,
        sibling: &NodeId,
        child: NodeOrText<'_>,
    ) -> Result<(), EditFault> {
        let gap = InsertionPoint::Before(*sibling);
        match child {
            NodeOrText::AppendNode(id) => self.tree.move_to(gap, MovedNodes::Node(id)),
            NodeOrText::AppendText(text) => self.tree.add_text_at(gap, text),
        }
    }

    fn append_based_on_parent_node(
        &mut self,
        element: &NodeId,
        prev_element: &NodeId,
        child: NodeOrText<'_>,
    ) -> Result<(), EditFault> {
        let gap = gap_by_parent(&self.tree, *element, *prev_element);
        match child {
            NodeOrText::AppendNode(id) => self.tree.move_to(gap, MovedNodes::Node(id)),
            NodeOrText::AppendText(text) => self.tree.add_text_at(gap, text),
        }
    }

    fn append_doctype_to_document(
        &mut self,
        name: &str,
        public_id: &str,
        system_id: &str,
    ) -> Result<(), EditFault> {
        self.tree
            .append_doctype_of(&NodeId::root(), name, public_id, system_id)?;
        Ok(())
    }

    fn add_attrs_if_missing(&mut self, target: &NodeId, attrs: Attrs) -> Result<(), EditFault> {
        self.tree.add_missing_attrs_of(target, attrs)
    }

    fn remove_from_parent(&mut self, target: &NodeId) -> Result<(), EditFault> {
        self.tree.remove_from_parent(target)
    }

    fn reparent_children(&mut self, node: &NodeId, new_parent: &NodeId) -> Result<(), EditFault> {
        self.tree.reparent_children_of(node, Some(*new_parent))
    }

    fn is_mathml_annotation_xml_integration_point(&self, handle: &NodeId) -> bool {
        self.tree.is_mathml_annotation_xml_integration_point(handle)
    }
}

/// Returns the insertion point right before a node that has a parent, and otherwise at the end of
/// the other node's children.
fn gap_by_parent(tree: &Tree, node: NodeId, other: NodeId) -> InsertionPoint
    ensures { result ≡ gap_by_parent tree.now node other }
{
    match tree.parent_of(&node) {
        Some(_) => InsertionPoint::Before(node),
        None => InsertionPoint::EndOf(other),
    }
}
