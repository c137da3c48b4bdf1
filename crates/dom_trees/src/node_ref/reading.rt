//! Reading a node: its kind, its name, its attributes and its text. For an unknown id the answer is
//! nothing, false or the default.

ghost use Rattle.std.specs.Prelude.{◌≡◌, ◌<◌, ◌≤◌, IfOk, MatchOption, codes, is_some, length};
ghost use Rattle.std.specs.Prelude.{slice_get, string_bytes, unwrap_or};
ghost use Rattle.std.specs.Fn.{FnOnceReturnsAt};
ghost use Rattle.std.specs.Option.{option_copied};
ghost use Rattle.dom_nodes.specs.Kinds.{is_comment, is_doctype, is_document, is_element};
ghost use Rattle.dom_nodes.specs.Kinds.{is_fragment, is_text, children_allowed};
ghost use Rattle.dom_nodes.specs.Words.{class_words, is_among};
ghost use Rattle.dom_links.specs.Texts.{collapsed, immediate_text_of, text_of, saturated};
ghost use Rattle.dom_trees.specs.Views.{IsAnswerOf, base_uri, has_local_name, is_filled_text};
ghost use Rattle.dom_trees.specs.Views.{is_link_at, node_attr, node_attrs, node_element, node_is};
ghost use Rattle.dom_trees.specs.Views.{node_name, node_qual_name, root_element_at};

use crate::node_ref::NodeRef;
use dom_links::iters::parent_id;
use dom_links::ops::TreeNodeOps;
use dom_nodes::fault::OutOfMemory;
use dom_nodes::name::{Attr, NameRef};
use dom_nodes::node_data::{Element, NodeData, TreeNode};
use dom_nodes::words::is_blank;

impl<'a> NodeRef<'a> {
    /// Calls the closure with the node and returns its result, or `None` for an unknown id.
    pub fn query<T, F: FnOnce(&TreeNode) -> T + Drop>(&self, f: F) -> Option<T>
        requires { F.IsAlwaysCallable f }
        ensures { MatchOption result (length self.now.tree.now.content ≤ self.now.id)
            (IsAnswerOf (FnOnceReturnsAt F.FnOnce f) self.now.tree.now self.now.id) }
    {
        self.tree.query_node(&self.id, f)
    }

    /// Calls the closure with the node and returns its result, or `default` for an unknown id.
    pub fn query_or<T: Drop, F: FnOnce(&TreeNode) -> T + Drop>(&self, default: T, f: F) -> T
        requires { F.IsAlwaysCallable f }
        ensures unknown { length self.now.tree.now.content ≤ self.now.id → result ≡ default }
        ensures known { self.now.id < length self.now.tree.now.content →
            IsAnswerOf (FnOnceReturnsAt F.FnOnce f) self.now.tree.now self.now.id result }
    {
        self.tree.query_node_or(&self.id, default, f)
    }

    /// Returns the node's data, or `None` for an unknown id.
    fn content(&self) -> Option<&'a NodeData>
        ensures { option_copied result ≡ slice_get self.now.tree.now.content self.now.id }
    {
        self.tree.content(&self.id)
    }

    /// Returns whether the node is a document; false for an unknown id.
    pub fn is_document(&self) -> bool
        ensures { result ≡ node_is is_document self.now.tree.now self.now.id }
    {
        self.content().is_some_and(|content| content.is_document())
    }

    /// Returns whether the node is a fragment; false for an unknown id.
    pub fn is_fragment(&self) -> bool
        ensures { result ≡ node_is is_fragment self.now.tree.now self.now.id }
    {
        self.content().is_some_and(|content| content.is_fragment())
    }

    /// Returns whether the node is an element; false for an unknown id.
    pub fn is_element(&self) -> bool
        ensures { result ≡ node_is is_element self.now.tree.now self.now.id }
    {
        self.content().is_some_and(|content| content.is_element())
    }

    /// Returns whether the node is a text; false for an unknown id.
    pub fn is_text(&self) -> bool
        ensures { result ≡ node_is is_text self.now.tree.now self.now.id }
    {
        self.content().is_some_and(|content| content.is_text())
    }

    /// Returns whether the node is a comment; false for an unknown id.
    pub fn is_comment(&self) -> bool
        ensures { result ≡ node_is is_comment self.now.tree.now self.now.id }
    {
        self.content().is_some_and(|content| content.is_comment())
    }

    /// Returns whether the node is a doctype; false for an unknown id.
    pub fn is_doctype(&self) -> bool
        ensures { result ≡ node_is is_doctype self.now.tree.now self.now.id }
    {
        self.content().is_some_and(|content| content.is_doctype())
    }

    /// Returns whether the node is an element whose parent is the root of the tree (id 0), which is
    /// what the selector `:root` matches: the `html` element of a document. For an unknown id the
    /// answer is false.
    pub fn is_root(&self) -> bool
        ensures { result ≡ root_element_at self.now.tree.now self.now.id }
    {
        let Some(parent) = parent_id(self.tree.nodes(), &self.id) else {
            return false;
        };
        parent.value() == 0 && self.is_element()
    }

    /// Returns whether the node is of a kind that may have children: a document, a fragment or an
    /// element. For an unknown id the answer is false.
    pub fn may_have_children(&self) -> bool
        ensures { result ≡ node_is children_allowed self.now.tree.now self.now.id }
    {
        self.content()
            .is_some_and(|content| content.may_have_children())
    }

    /// Returns whether the node is a text with at least one character that isn't white space.
    pub fn is_nonempty_text(&self) -> bool
        ensures { result ≡ node_is is_filled_text self.now.tree.now self.now.id }
    {
        self.content()
            .is_some_and(|content| is_filled_text(content))
    }

    /// Returns the element's data, or `None` when the node is no element.
    pub fn element_ref(&self) -> Option<&'a Element>
        ensures { option_copied result ≡ node_element self.now.tree.now self.now.id }
    {
        self.tree.element(&self.id)
    }

    /// Returns the element's name with its prefix and namespace, or `None` when the node is no
    /// element.
    pub fn qual_name_ref(&self) -> Option<NameRef<'a>>
        ensures { result ≡ node_qual_name self.now.tree.now self.now.id }
    {
        self.tree.get_name(&self.id)
    }

    /// Returns the element's local name, or `None` when the node is no element.
    pub fn node_name(&self) -> Option<&'a str>
        ensures { option_copied result ≡ node_name self.now.tree.now self.now.id }
    {
        Some(self.element_ref()?.node_name())
    }

    /// Returns whether the node is an element with this local name.
    pub fn has_name(&self, name: &str) -> bool
        ensures { result ≡ has_local_name self.now.tree.now self.now.id name.now }
    {
        self.node_name().is_some_and(|local| local == name)
    }

    /// Returns whether the node is a link: an `a`, `area` or `link` element with an attribute
    /// `href`.
    pub fn is_link(&self) -> bool
        ensures { result ≡ is_link_at self.now.tree.now self.now.id }
    {
        self.element_ref().is_some_and(|element| element.is_link())
    }

    /// Returns the element's attributes, in order. The result is empty when the node is no element
    /// or the id is unknown.
    pub fn attrs(&self) -> &'a [Attr]
        ensures { result.now ≡ node_attrs self.now.tree.now self.now.id }
    {
        match self.element_ref() {
            Some(element) => element.attrs().as_slice(),
            None => &[],
        }
    }

    /// Returns the value of the first attribute with this local name, or `None` when there is none.
    pub fn attr(&self, name: &str) -> Option<&'a str>
        ensures { option_copied result ≡ node_attr self.now.tree.now self.now.id name.now }
    {
        self.element_ref()?.attr(name)
    }

    /// Returns the value of the first attribute with this local name, or `default` when there is
    /// none.
    pub fn attr_or(&self, name: &str, default: &'a str) -> &'a str
        ensures { let value = node_attr self.now.tree.now self.now.id name.now
            in result.now ≡ unwrap_or value default.now }
    {
        self.attr(name).unwrap_or(default)
    }

    /// Returns whether the element has an attribute with this local name.
    pub fn has_attr(&self, name: &str) -> bool
        ensures { result ≡ is_some (node_attr self.now.tree.now self.now.id name.now) }
    {
        self.attr(name).is_some()
    }

    /// Returns the value of the first attribute `class`, or `None` when there is none.
    pub fn class(&self) -> Option<&'a str>
        ensures { option_copied result ≡ node_attr self.now.tree.now self.now.id (codes "class") }
    {
        self.attr("class")
    }

    /// Returns whether `name` is one of the words of the first attribute `class`, compared byte by
    /// byte. For an empty name the answer is false.
    pub fn has_class(&self, name: &str) -> bool
        ensures { let words = class_words (node_attrs self.now.tree.now self.now.id)
            in result ≡ is_among name.now words }
    {
        self.element_ref()
            .is_some_and(|element| element.has_class(name))
    }

    /// Returns the value of the first attribute `id`, or `None` when there is none.
    pub fn id_attr(&self) -> Option<&'a str>
        ensures { option_copied result ≡ node_attr self.now.tree.now self.now.id (codes "id") }
    {
        self.attr("id")
    }

    /// Returns the base URL of the page, as `Tree::base_uri` finds it: the `href` of the first
    /// child `base` of `head`.
    pub fn base_uri(&self) -> Option<&'a str>
        ensures { option_copied result ≡ base_uri self.now.tree.now }
    {
        self.tree.base_uri()
    }

    /// Returns the text of the node: the contents of all text nodes in its subtree, in document
    /// order, joined. Template contents aren't visited. For an unknown id the result is empty. It
    /// fails with `OutOfMemory` when memory is refused.
    pub fn text(&self) -> Result<String, OutOfMemory>
        ensures { IfOk result (λ text. string_bytes text ≡ text_of self.now.tree.now self.now.id) }
    {
        TreeNodeOps::text_of(self.tree.allocator(), self.tree.nodes(), &self.id)
    }

    /// Returns the contents of the text nodes among the node and its children, joined. For an
    /// unknown id the result is empty. It fails with `OutOfMemory` when memory is refused.
    pub fn immediate_text(&self) -> Result<String, OutOfMemory>
        ensures { IfOk result
            (λ text. string_bytes text ≡ immediate_text_of self.now.tree.now self.now.id) }
    {
        TreeNodeOps::immediate_text_of(self.tree.allocator(), self.tree.nodes(), &self.id)
    }

    /// Returns the number of characters in the node's text, where each sequence of white space
    /// counts as one character and white space at the ends counts as none. It allocates no memory.
    /// A count larger than `usize::MAX` is returned as `usize::MAX`.
    pub fn normalized_char_count(&self) -> usize
        ensures { result ≡ saturated (length (collapsed (text_of self.now.tree.now self.now.id))) }
    {
        TreeNodeOps::normalized_char_count(self.tree.nodes(), &self.id)
    }
}

/// Returns whether the node is a text with at least one character that isn't white space.
fn is_filled_text(content: &NodeData) -> bool
    ensures { result ≡ is_filled_text content.now }
{
    match content {
        NodeData::Text { contents } => !is_blank(contents.as_str()),
        _ => false,
    }
}
