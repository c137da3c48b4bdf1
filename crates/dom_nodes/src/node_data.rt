//! What a node is: its kind, an element's name and attributes, and the links to other nodes.
//!
//! `NodeData` is the enum of kinds. The modules below add the methods: `any_node` (queries on any
//! node), `attributes` and `classes` (reading and writing an element), `changing` (one change as a
//! value), `node_edit` (updates by a closure), `lending` (mutable access to an element) and
//! `missing` (adding absent attributes). `attrs_form` is the storage of attribute lists.

ghost use Rattle.std.specs.Prelude.{◌≡◌, ◌∷◌, ◌++◌, [], IfOk, OnErr, OnOk};

mod any_node;
mod attributes;
mod attrs_form;
mod changing;
mod classes;
mod lending;
mod missing;
mod node_edit;

use crate::fault::OutOfMemory;
use crate::link::Link;
use crate::name::{Attr, NameForm, NameRef, QualName};
use crate::node_id::NodeId;
use crate::text::{RareText, Text};
use crate::words::{has_word, is_same_word};
use attrs_form::AttrsForm;
pub use changing::Change;
pub use node_edit::NodeEdit;
use std::alloc::Global;
use std::marker::Model;
use std::rc::Rc;
use std::{fmt, mem};

/// The attributes of an element, in source order. In a contract an `Attrs` is the list of its
/// attributes.
pub struct Attrs {
    form: AttrsForm,
    alloc: Global,
}

/// Destructures by hand, so that code that drops an element needs no case for each storage form.
impl Drop for Attrs {
    #[inline(always)]
    fn drop(self) {
        let Attrs { form, alloc: _ } = self;
        drop(form);
    }
}

impl Model for Attrs {
    ghost use Rattle.std.specs.Prelude.{List};
    ghost use Rattle.dom_nodes.specs.declared.name.Attr.{Attr};
    ghost use Rattle.dom_nodes.specs.AttrForms.{form_attrs};

    ghost Value = { List Attr };

    ghost view = { λ attrs. form_attrs attrs.form };
}

/// Prints the attributes as a list.
impl fmt::Debug for Attrs {
    fn fmt<W: fmt::Write>(&self, f: &mut fmt::Formatter<W>) -> fmt::Result {
        f.debug_struct("Attrs")
            .field("items", &self.as_slice())
            .finish()
    }
}

impl Attrs {
    ghost use Rattle.std.specs.Prelude.{◌≡◌, ◌∷◌, ◌++◌, [], IfOk, OnErr, OnOk};
    ghost use Rattle.std.specs.Prelude.{◌-◌, drop, take};
    ghost use Rattle.std.specs.Rc.{rc_value};

    /// Returns an empty list of attributes. It allocates no memory.
    pub fn new(alloc: Global) -> Attrs
        ensures { result ≡ [] }
    {
        Attrs {
            form: AttrsForm::None,
            alloc,
        }
    }

    /// Returns the attributes of the vector, in order. It fails with `OutOfMemory` when memory for
    /// their storage is refused.
    pub fn from_items(alloc: Global, mut items: Vec<Attr>) -> Result<Attrs, OutOfMemory>
        ensures { IfOk result (λ made. made ≡ items.items) }
    {
        if items.is_empty() {
            return Ok(Attrs::new(alloc));
        }
        take_all(alloc, &mut items)
    }

    /// Returns a copy of the attributes of `list` from index `from` up to, but not including, index
    /// `to`; indexes past the end are ignored. One or two attributes are shared with `list` through
    /// its reference count (as long as `from` isn't too large for that), and more are copied. It
    /// fails with `OutOfMemory` when memory is refused or the reference count is full.
    pub fn part(
        alloc: Global,
        list: &Rc<Vec<Attr>>,
        from: usize,
        to: usize,
    ) -> Result<Attrs, OutOfMemory>
        ensures { IfOk result (λ made.
            made ≡ take (to - from) (drop from (rc_value list.now).items)) }
    {
        let form = AttrsForm::part_of(alloc, list, from, to)?;
        Ok(Attrs { form, alloc })
    }

    /// Returns the attributes as a slice, in order.
    #[inline(always)]
    pub fn as_slice(&self) -> &[Attr]
        ensures { result.now ≡ self.now }
    {
        self.form.as_slice()
    }

    /// Returns a copy of the list. A list of one or two attributes is shared through its reference
    /// count, and a longer one is copied. It fails with `OutOfMemory` when memory is refused.
    #[inline(always)]
    pub fn try_clone(&self) -> Result<Attrs, OutOfMemory>
        ensures { IfOk result (λ made. made ≡ self.now) }
    {
        let form = self.form.try_clone(self.alloc)?;
        Ok(Attrs {
            form,
            alloc: self.alloc,
        })
    }

    /// Makes room for `additional` more attributes. A refusal of memory is ignored: the list is the
    /// same, and a later `push` requests memory again.
    pub fn reserve(&mut self, additional: usize)
        ensures { self.new ≡ self.old }
    {
        if additional == 0 {
            return;
        }
        if let AttrsForm::Own(items) = &mut self.form {
            let _ = items.reserve_exact(additional);
            return;
        }
        let attrs = self.form.as_slice();
        let form = match attrs.len().saturating_add(additional) {
            0 | 1 => return,
            2 if attrs.is_empty() => AttrsForm::room(self.alloc),
            2 => return,
            _ => AttrsForm::with_room(self.alloc, attrs, additional),
        };
        if let Ok(form) = form {
            self.form = form;
        }
    }

    /// Releases unused memory behind the last attribute, if the way in which the list is stored
    /// allows it. The list stays the same.
    pub fn shrink_to_fit(&mut self)
        ensures { self.new ≡ self.old }
    {
        self.form.shrink_to_fit();
    }

    /// Appends an attribute. When memory is refused, it fails with `OutOfMemory` and the list is
    /// unchanged. Beyond two attributes the capacity doubles, so appending n attributes takes time
    /// linear in n.
    pub fn push(&mut self, attr: Attr) -> Result<(), OutOfMemory>
        ensures ok { OnOk result (self.new ≡ self.old ++ attr ∷ []) }
        ensures err { OnErr result (self.new ≡ self.old) }
    {
        if let AttrsForm::Own(items) = &mut self.form {
            return push_doubling(items, attr);
        }
        let Some(attr) = self.form.fill(attr) else {
            return Ok(());
        };
        let form = AttrsForm::lengthened(self.alloc, self.form.as_slice(), attr)?;
        self.form = form;
        Ok(())
    }
}

/// Moves all attributes out of the vector, which is then empty, and returns them. The vector keeps
/// its memory when it had at most three. When memory is refused, it fails with `OutOfMemory` and
/// the attributes are dropped.
pub fn take_all(alloc: Global, items: &mut Vec<Attr>) -> Result<Attrs, OutOfMemory>
    ensures taken { IfOk result (λ made. made ≡ items.old.items) }
    ensures emptied { items.new.items ≡ [] }
{
    let form = if items.as_slice().len() <= 3 {
        AttrsForm::popped(alloc, items)?
    } else {
        let mut list = mem::replace(items, Vec::new(alloc));
        list.shrink_to_fit();
        AttrsForm::own(alloc, list)?
    };
    Ok(Attrs { form, alloc })
}

/// Appends an attribute and doubles the capacity when the vector is full. On a refusal the vector
/// is unchanged.
fn push_doubling(items: &mut Vec<Attr>, attr: Attr) -> Result<(), OutOfMemory>
    ensures ok { OnOk result (items.new.items ≡ items.old.items ++ attr ∷ []) }
    ensures err { OnErr result (items.new.items ≡ items.old.items) }
{
    let count = items.len();
    if count == items.capacity() {
        items.reserve_exact(if count == 0 { 1 } else { count })?;
    }
    items.push(attr)?;
    Ok(())
}

/// The data of an element: its name, its attributes, the id of its template contents and the MathML
/// flag. In a contract an `Element` is the record of these four.
///
/// The template contents are the fragment that holds what is inside a `template` element (HTML
/// Standard, 4.12.3). The flag says that a MathML `annotation-xml` element is an HTML integration
/// point (HTML Standard, 13.2.6).
pub struct Element {
    pub(crate) form: NameForm,
    pub(crate) attrs: Attrs,
}

/// Destructures by hand, so that code that drops a node needs no case for each storage form.
impl Drop for Element {
    #[inline(always)]
    fn drop(self) {
        let Element { form, attrs } = self;
        drop(form);
        drop(attrs);
    }
}

impl Model for Element {
    ghost use Rattle.dom_nodes.specs.Elements.{Element};
    ghost use Rattle.dom_nodes.specs.ElementForms.{element_of_form};
    ghost use Rattle.dom_nodes.specs.QualForms.{IsCanonicalName};

    ghost Value = { Element };

    ghost view = { λ element. element_of_form element.form element.attrs };

    ghost invariant = { λ element. IsCanonicalName element.form };
}

/// Prints name, attributes, template contents and flag.
impl fmt::Debug for Element {
    fn fmt<W: fmt::Write>(&self, f: &mut fmt::Formatter<W>) -> fmt::Result {
        let flag = self.mathml_annotation_xml_integration_point();
        f.debug_struct("Element")
            .field("name", &self.name())
            .field("attrs", &self.attrs)
            .field("template_contents", &self.template_contents())
            .field("mathml_annotation_xml_integration_point", &flag)
            .finish()
    }
}

impl Element {
    ghost use Rattle.std.specs.Prelude.{◌≡◌, codes};
    ghost use Rattle.std.specs.Option.{option_copied};
    ghost use Rattle.dom_nodes.specs.Attrs.{attr_of};
    ghost use Rattle.dom_nodes.specs.Words.{class_words, is_among};

    /// Returns an element with this name, these attributes, template contents and flag.
    pub fn new(
        name: QualName,
        attrs: Attrs,
        template_contents: Option<NodeId>,
        mathml_annotation_xml_integration_point: bool,
    ) -> Element
        ensures { result ≡ record {
          name = name;
          attrs = attrs;
          template_contents = template_contents;
          mathml_annotation_xml_integration_point = mathml_annotation_xml_integration_point;
        } }
    {
        let contents = Link::new(template_contents);
        let form = name
            .into_form()
            .beside(mathml_annotation_xml_integration_point, contents);
        Element { form, attrs }
    }

    /// Returns the element's name with its prefix and namespace.
    #[inline(always)]
    pub fn name(&self) -> NameRef<'_>
        ensures { result ≡ self.now.name }
    {
        NameRef::of_form(&self.form)
    }

    /// Returns the element's attributes.
    #[inline(always)]
    pub fn attrs(&self) -> &Attrs
        ensures { result.now ≡ self.now.attrs }
    {
        &self.attrs
    }

    /// Returns the flag that an `annotation-xml` element of MathML is an HTML integration point.
    #[inline(always)]
    pub fn mathml_annotation_xml_integration_point(&self) -> bool
        ensures { result ≡ self.now.mathml_annotation_xml_integration_point }
    {
        self.form.flag()
    }

    /// Returns the element with its template contents replaced. Name, attributes and flag stay.
    pub fn with_template_contents(self, contents: Option<NodeId>) -> Element
        ensures { result ≡ record self { template_contents = contents } }
    {
        let Element { form, attrs } = self;
        let flag = form.flag();
        Element {
            form: form.beside(flag, Link::new(contents)),
            attrs,
        }
    }

    /// Replaces the element's name. Attributes, template contents and flag stay.
    pub fn set_name(&mut self, name: QualName)
        ensures { self.new ≡ record self.old { name = name } }
    {
        drop(self.replace_name(name));
    }

    /// Replaces the element's attributes. Name, template contents and flag stay.
    pub fn set_attrs(&mut self, attrs: Attrs)
        ensures { self.new ≡ record self.old { attrs = attrs } }
    {
        self.attrs = attrs;
    }

    /// Returns the element's local name.
    pub fn node_name(&self) -> &str
        ensures { result.now ≡ self.now.name.local }
    {
        self.name().local().as_str()
    }

    /// Returns the value of the first attribute with this local name, or `None` when there is none.
    /// The names are compared byte by byte.
    pub fn attr(&self, name: &str) -> Option<&str>
        ensures { option_copied result ≡ attr_of self.now.attrs name.now }
    {
        self.attrs
            .as_slice()
            .iter()
            .find(|attr| is_same_word(attr.name.local().as_str().as_bytes(), name.as_bytes()))
            .map(|attr| attr.value.as_str())
    }

    /// Returns the value of the first attribute `id`, or `None` when there is none.
    pub fn id(&self) -> Option<&str>
        ensures { option_copied result ≡ attr_of self.now.attrs (codes "id") }
    {
        self.attr("id")
    }

    /// Returns the value of the first attribute `class`, or `None` when there is none.
    pub fn class(&self) -> Option<&str>
        ensures { option_copied result ≡ attr_of self.now.attrs (codes "class") }
    {
        self.attr("class")
    }

    /// Returns whether `name` is one of the words of the first attribute `class`, compared byte by
    /// byte. For an empty name the answer is false.
    pub fn has_class(&self, name: &str) -> bool
        ensures { result ≡ is_among name.now (class_words self.now.attrs) }
    {
        match self.class() {
            Some(classes) => has_word(classes, name),
            None => false,
        }
    }

    /// Returns the id of the fragment that holds the element's template contents, or `None` when it
    /// has none.
    #[inline(always)]
    pub fn template_contents(&self) -> Option<NodeId>
        ensures { result ≡ self.now.template_contents }
    {
        self.form.contents().get()
    }
}

/// What a node is. Every node of a tree is of one of these kinds.
#[derive(Debug, Drop)]
pub enum NodeData {
    Document,
    Fragment,
    Doctype {
        name: RareText,
        public_id: RareText,
        system_id: RareText,
    },
    Text {
        contents: Text,
    },
    Comment {
        contents: Text,
    },
    Element(Element),
    ProcessingInstruction {
        target: RareText,
        contents: RareText,
    },
}

/// A node in the vector of a tree: its id, its links to other nodes, and what it is.
#[derive(Debug, Drop)]
pub struct TreeNode {
    pub id: NodeId,
    pub parent: Link,
    pub prev_sibling: Link,
    pub next_sibling: Link,
    pub first_child: Link,
    pub last_child: Link,
    pub content: NodeData,
}

impl NodeData {
    ghost use Rattle.std.specs.Prelude.{◌≡◌};
    ghost use Rattle.std.specs.Option.{option_copied};
    ghost use Rattle.dom_nodes.specs.Attrs.{element_of};
    ghost use Rattle.dom_nodes.specs.Kinds.{contents_named, is_fragment, is_top, children_allowed};

    /// Returns the element's data, or `None` when the node is no element.
    pub fn as_element(&self) -> Option<&Element>
        ensures { option_copied result ≡ element_of self.now }
    {
        match self {
            NodeData::Element(element) => Some(element),
            _ => None,
        }
    }

    /// Returns whether the node is a fragment.
    pub fn is_fragment(&self) -> bool
        ensures { result ≡ is_fragment self.now }
    {
        matches!(self, NodeData::Fragment)
    }

    /// Returns whether the node is a document or a fragment. Such a node never has a parent or
    /// siblings.
    pub fn is_top(&self) -> bool
        ensures { result ≡ is_top self.now }
    {
        matches!(self, NodeData::Document | NodeData::Fragment)
    }

    /// Returns whether the node is of a kind that may have children: a document, a fragment or an
    /// element.
    pub fn may_have_children(&self) -> bool
        ensures { result ≡ children_allowed self.now }
    {
        matches!(
            self,
            NodeData::Document | NodeData::Fragment | NodeData::Element(_)
        )
    }

    /// Returns the id of the fragment that holds the element's template contents. The answer is
    /// `None` when the node is no element or has no template contents.
    pub fn template_contents(&self) -> Option<NodeId>
        ensures { result ≡ contents_named self.now }
    {
        match self {
            NodeData::Element(element) => element.template_contents(),
            _ => None,
        }
    }
}
