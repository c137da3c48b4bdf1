//! Queries on nodes of any kind.

ghost use Rattle.std.specs.Prelude.{◌≡◌, false};
ghost use Rattle.std.specs.Option.{option_copied, option_map_or};

use super::{Element, NodeData, TreeNode};

impl NodeData {
    ghost use Rattle.dom_nodes.specs.Attrs.{element_of};
    ghost use Rattle.dom_nodes.specs.Kinds.{is_document, is_element, is_text, is_comment};
    ghost use Rattle.dom_nodes.specs.Kinds.{is_doctype};
    ghost use Rattle.dom_nodes.specs.Changes.{is_link};

    /// Returns whether the node is a document.
    pub fn is_document(&self) -> bool
        ensures { result ≡ is_document self.now }
    {
        matches!(self, NodeData::Document)
    }

    /// Returns whether the node is an element.
    pub fn is_element(&self) -> bool
        ensures { result ≡ is_element self.now }
    {
        matches!(self, NodeData::Element(_))
    }

    /// Returns whether the node is a text.
    pub fn is_text(&self) -> bool
        ensures { result ≡ is_text self.now }
    {
        matches!(self, NodeData::Text { .. })
    }

    /// Returns whether the node is a comment.
    pub fn is_comment(&self) -> bool
        ensures { result ≡ is_comment self.now }
    {
        matches!(self, NodeData::Comment { .. })
    }

    /// Returns whether the node is a doctype.
    pub fn is_doctype(&self) -> bool
        ensures { result ≡ is_doctype self.now }
    {
        matches!(self, NodeData::Doctype { .. })
    }

    /// Returns whether the node is a link: an `a`, `area` or `link` element with an attribute
    /// `href`.
    pub fn is_link(&self) -> bool
        ensures { result ≡ option_map_or is_link (element_of self.now) false }
    {
        match self {
            NodeData::Element(element) => element.is_link(),
            _ => false,
        }
    }
}

impl TreeNode {
    ghost use Rattle.dom_nodes.specs.Attrs.{element_of};
    ghost use Rattle.dom_nodes.specs.Kinds.{is_document, is_element, is_text, is_comment};
    ghost use Rattle.dom_nodes.specs.Kinds.{is_doctype, is_fragment, children_allowed};
    ghost use Rattle.dom_nodes.specs.Changes.{is_link};

    /// Returns whether the node is a document.
    pub fn is_document(&self) -> bool
        ensures { result ≡ is_document self.now.content }
    {
        self.content.is_document()
    }

    /// Returns whether the node is an element.
    pub fn is_element(&self) -> bool
        ensures { result ≡ is_element self.now.content }
    {
        self.content.is_element()
    }

    /// Returns whether the node is a text.
    pub fn is_text(&self) -> bool
        ensures { result ≡ is_text self.now.content }
    {
        self.content.is_text()
    }

    /// Returns whether the node is a comment.
    pub fn is_comment(&self) -> bool
        ensures { result ≡ is_comment self.now.content }
    {
        self.content.is_comment()
    }

    /// Returns whether the node is a doctype.
    pub fn is_doctype(&self) -> bool
        ensures { result ≡ is_doctype self.now.content }
    {
        self.content.is_doctype()
    }

    /// Returns whether the node is a fragment.
    pub fn is_fragment(&self) -> bool
        ensures { result ≡ is_fragment self.now.content }
    {
        self.content.is_fragment()
    }

    /// Returns whether the node is of a kind that may have children: a document, a fragment or an
    /// element.
    pub fn may_have_children(&self) -> bool
        ensures { result ≡ children_allowed self.now.content }
    {
        self.content.may_have_children()
    }

    /// Returns the element's data, or `None` when the node is no element.
    pub fn as_element(&self) -> Option<&Element>
        ensures { option_copied result ≡ element_of self.now.content }
    {
        self.content.as_element()
    }

    /// Returns whether the node is a link: an `a`, `area` or `link` element with an attribute
    /// `href`.
    pub fn is_link(&self) -> bool
        ensures { result ≡ option_map_or is_link (element_of self.now.content) false }
    {
        self.content.is_link()
    }
}
