//! Copies of names, attributes and nodes. A copy is equal to its original. Copies of elements share
//! lists of one or two attributes, and `TreeNode::push_copies` also shares the blocks that long
//! texts lie in; everything else is in memory of its own. Each call fails with `OutOfMemory` when
//! memory is refused.

ghost use Rattle.std.specs.Prelude.{◌≡◌, ◌∷◌, ◌++◌, [], IfOk, IfSome, OnOk};

use crate::fault::OutOfMemory;
use crate::name::{Attr, NameParts, Namespace};
use crate::node_data::{Attrs, Element, NodeData, TreeNode};
use crate::text::{RareText, Text};

impl Namespace {
    /// Returns a copy of the namespace, or `OutOfMemory`.
    pub fn try_clone(&self) -> Result<Namespace, OutOfMemory>
        ensures { IfOk result (λ made. made ≡ self.now) }
    {
        Ok(match self {
            Namespace::None => Namespace::None,
            Namespace::Html => Namespace::Html,
            Namespace::Svg => Namespace::Svg,
            Namespace::MathMl => Namespace::MathMl,
            Namespace::XLink => Namespace::XLink,
            Namespace::Xml => Namespace::Xml,
            Namespace::XmlNs => Namespace::XmlNs,
            Namespace::Other(url) => Namespace::Other(url.try_clone()?),
        })
    }
}

impl NameParts {
    /// Returns a copy of prefix, namespace and local name, or `OutOfMemory`.
    pub fn try_clone(&self) -> Result<NameParts, OutOfMemory>
        ensures { IfOk result (λ made. made ≡ self.now) }
    {
        let prefix = copied(&self.prefix)?;
        let ns = self.ns.try_clone()?;
        let local = self.local.try_clone()?;
        Ok(NameParts { prefix, ns, local })
    }
}

impl Attr {
    /// Returns a copy of the attribute, or `OutOfMemory`.
    pub fn try_clone(&self) -> Result<Attr, OutOfMemory>
        ensures { IfOk result (λ made. made ≡ self.now) }
    {
        let name = self.name.try_clone()?;
        let value = self.value.try_clone()?;
        Ok(Attr { name, value })
    }
}

impl Element {
    /// Returns a copy of the element, or `OutOfMemory`. The copy has the same template contents by
    /// id; the fragment itself isn't copied.
    pub fn try_clone(&self) -> Result<Element, OutOfMemory>
        ensures { IfOk result (λ made. made ≡ self.now) }
    {
        let form = self.form.try_clone()?;
        let attrs = self.attrs.try_clone()?;
        Ok(Element { form, attrs })
    }
}

impl NodeData {
    ghost use Rattle.std.specs.Prelude.{None};
    ghost use Rattle.dom_nodes.specs.Kinds.{contents_named};

    /// Returns a copy if the data is a text that is short enough to need no memory of its own (at
    /// most 30 bytes), and `None` otherwise. It is the quick way before `try_clone`.
    #[inline(always)]
    pub fn short_text(&self) -> Option<NodeData>
        ensures same { IfSome result (λ made. made ≡ self.now) }
        ensures plain { IfSome result (λ _. contents_named self.now ≡ None) }
    {
        let NodeData::Text { contents } = self else {
            return None;
        };
        let contents = contents.short_copy()?;
        Some(NodeData::Text { contents })
    }

    /// Returns a copy if the data is an element with a known name (one that needs no memory),
    /// without attributes and template contents, and `None` otherwise. It is the quick way before
    /// `try_clone`.
    #[inline(always)]
    pub fn bare_element(&self) -> Option<NodeData>
        ensures same { IfSome result (λ made. made ≡ self.now) }
        ensures plain { IfSome result (λ _. contents_named self.now ≡ None) }
    {
        let NodeData::Element(element) = self else {
            return None;
        };
        let None = element.template_contents() else {
            return None;
        };
        if !element.attrs.as_slice().is_empty() {
            return None;
        }
        let form = element.form.known_copy()?;
        let attrs = Attrs::new(element.attrs.allocator());
        Some(NodeData::Element(Element { form, attrs }))
    }

    /// Returns a copy of the data, or `OutOfMemory`.
    pub fn try_clone(&self) -> Result<NodeData, OutOfMemory>
        ensures { IfOk result (λ made. made ≡ self.now) }
    {
        Ok(match self {
            NodeData::Document => NodeData::Document,
            NodeData::Fragment => NodeData::Fragment,
            NodeData::Doctype {
                name,
                public_id,
                system_id,
            } => doctype(name, public_id, system_id)?,
            NodeData::Text { contents } => NodeData::Text {
                contents: contents.try_clone()?,
            },
            NodeData::Comment { contents } => NodeData::Comment {
                contents: contents.try_clone()?,
            },
            NodeData::Element(element) => NodeData::Element(element.try_clone()?),
            NodeData::ProcessingInstruction { target, contents } => instruction(target, contents)?,
        })
    }
}

impl TreeNode {
    /// Returns a copy of the node with the same id, links and data, or `OutOfMemory`.
    pub fn try_clone(&self) -> Result<TreeNode, OutOfMemory>
        ensures { IfOk result (λ made. made ≡ self.now) }
    {
        let content = self.content.try_clone()?;
        Ok(TreeNode {
            id: self.id,
            parent: self.parent,
            prev_sibling: self.prev_sibling,
            next_sibling: self.next_sibling,
            first_child: self.first_child,
            last_child: self.last_child,
            content,
        })
    }

    /// Appends copies of the nodes, in order, each equal to its original. On `OutOfMemory` some of
    /// them may have been appended.
    pub fn push_copies(made: &mut Vec<TreeNode>, nodes: &[TreeNode]) -> Result<(), OutOfMemory>
        ensures { OnOk result (made.new.items ≡ made.old.items ++ nodes.now) }
    {
        for node in nodes {
            push_copy(made, node)?;
        }
        Ok(())
    }
}

/// Appends a copy of one node. Most nodes are texts and elements, so these have a quick way of
/// their own.
#[inline(always)]
fn push_copy(made: &mut Vec<TreeNode>, node: &TreeNode) -> Result<(), OutOfMemory>
    ensures { OnOk result (made.new.items ≡ made.old.items ++ node.now ∷ []) }
{
    match &node.content {
        NodeData::Text { contents } => push_text(made, node, contents),
        NodeData::Element(element) => push_element(made, node, element),
        _ => push_with(made, node, node.content.try_clone()?),
    }
}

#[inline(always)]
fn push_text(made: &mut Vec<TreeNode>, node: &TreeNode, contents: &Text) -> Result<(), OutOfMemory>
    requires { node.now.content ≡ NodeData.Text contents.now }
    ensures { OnOk result (made.new.items ≡ made.old.items ++ node.now ∷ []) }
{
    if let Some(contents) = contents.short_copy() {
        return push_with(made, node, NodeData::Text { contents });
    }
    let contents = contents.shared_copy()?;
    push_with(made, node, NodeData::Text { contents })
}

#[inline(always)]
fn push_element(
    made: &mut Vec<TreeNode>,
    node: &TreeNode,
    element: &Element,
) -> Result<(), OutOfMemory>
    requires { node.now.content ≡ NodeData.Element element.now }
    ensures { OnOk result (made.new.items ≡ made.old.items ++ node.now ∷ []) }
{
    let Some(form) = element.form.known_copy() else {
        let element = element.try_clone()?;
        return push_with(made, node, NodeData::Element(element));
    };
    let attrs = element.attrs.try_clone()?;
    push_with(made, node, NodeData::Element(Element { form, attrs }))
}

/// Appends a node with the id and the links of `node` and with this content.
#[inline(always)]
fn push_with(
    made: &mut Vec<TreeNode>,
    node: &TreeNode,
    content: NodeData,
) -> Result<(), OutOfMemory>
    requires { node.now.content ≡ content }
    ensures { OnOk result (made.new.items ≡ made.old.items ++ node.now ∷ []) }
{
    made.push(TreeNode {
        id: node.id,
        parent: node.parent,
        prev_sibling: node.prev_sibling,
        next_sibling: node.next_sibling,
        first_child: node.first_child,
        last_child: node.last_child,
        content,
    })?;
    Ok(())
}

/// Appends a copy of an attribute.
#[inline(always)]
pub(crate) fn push_attr(made: &mut Vec<Attr>, attr: &Attr) -> Result<(), OutOfMemory>
    ensures { OnOk result (made.new.items ≡ made.old.items ++ attr.now ∷ []) }
{
    made.push(attr_copy(attr)?)?;
    Ok(())
}

/// Returns a copy of an attribute, with quick ways for known names and short values.
#[inline(always)]
pub(crate) fn attr_copy(attr: &Attr) -> Result<Attr, OutOfMemory>
    ensures { IfOk result (λ made. made ≡ attr.now) }
{
    let Some(name) = attr.name.known_copy() else {
        return attr.try_clone();
    };
    if let Some(value) = attr.value.short_copy() {
        return Ok(Attr { name, value });
    }
    let value = attr.value.try_clone()?;
    Ok(Attr { name, value })
}

fn copied(text: &Option<RareText>) -> Result<Option<RareText>, OutOfMemory>
    ensures { IfOk result (λ made. made ≡ text.now) }
{
    match text {
        Some(text) => Ok(Some(text.try_clone()?)),
        None => Ok(None),
    }
}

fn doctype(
    name: &RareText,
    public_id: &RareText,
    system_id: &RareText,
) -> Result<NodeData, OutOfMemory>
    ensures { IfOk result (λ made. made ≡ NodeData.Doctype name.now public_id.now system_id.now) }
{
    let name = name.try_clone()?;
    let public_id = public_id.try_clone()?;
    let system_id = system_id.try_clone()?;
    Ok(NodeData::Doctype {
        name,
        public_id,
        system_id,
    })
}

fn instruction(target: &RareText, contents: &RareText) -> Result<NodeData, OutOfMemory>
    ensures { IfOk result (λ made. made ≡ NodeData.ProcessingInstruction target.now contents.now) }
{
    let target = target.try_clone()?;
    let contents = contents.try_clone()?;
    Ok(NodeData::ProcessingInstruction { target, contents })
}
