//! Attributes that later tags add to `html` and to `body`.

ghost use Rattle.std.specs.Prelude.{◌≡◌, ◌==◌, [], ◌∷◌, ◌++◌, IfErr, IfOk, List, OnOk, Some};
ghost use Rattle.std.specs.Prelude.{position, slice_get};
ghost use Rattle.std.specs.List.{list_any};
ghost use Rattle.dom_nodes.specs.Changes.{with_attrs as with_changed, with_missing};
ghost use Rattle.dom_links.specs.Contents.{with_content};
ghost use Rattle.dom_trees.specs.Views.{node_attrs};
ghost use Rattle.page_tokens.specs.Attributes.{Gains};
ghost use Rattle.page_trees.specs.LateAttrs.{AddsAbsent, HasNames, Knows};
ghost use Rattle.page_trees.specs.LateMerges.{AddsAt, AddsTo, KnowsAt};
ghost use Rattle.page_trees.specs.TreeState.{completed, late_of, with_attrs};
ghost use Rattle.page_trees.specs.declared.fault.PageFault.TheVariants.{Memory as NoMemory};
ghost use Rattle.page_trees.specs.declared.growing.late.LateAttrs.{LateAttrs as AnElement};

use crate::attributes::attr_of;
use crate::fault::PageFault;
use crate::stack::ElementNamespace;
use dom_nodes::name::Attr;
use dom_nodes::node_data::{Attrs, Change};
use dom_nodes::node_id::NodeId;
use dom_trees::node_ref::NodeRef;
use dom_trees::tree::Tree;
use page_tokens::token::{Tag, TagAttr};
use std::alloc::Global;
use std::collections::BTreeSet;

/// The attributes that tags add to an element that is in the tree already. They are collected, and
/// added to the element at once when the tree is complete, so that each costs one look-up in a set.
#[derive(Drop)]
pub struct LateAttrs {
    id: NodeId,
    /// The names of the element's attributes and of those that are to be added.
    names: BTreeSet<String>,
    added: Vec<Attr>,
}

impl LateAttrs {
    /// Returns the state for an element to which nothing is to be added yet. Fails only when memory
    /// runs out.
    pub fn new(tree: &Tree, id: NodeId) -> Result<LateAttrs, PageFault>
        ensures id { IfOk result (λ late. late.id ≡ id) }
        ensures added { IfOk result (λ late. late.added.items ≡ []) }
        ensures known { IfOk result (λ late. Knows (node_attrs tree.now id) late) }
    {
        let alloc = tree.allocator();
        Ok(LateAttrs {
            id,
            names: names_in(alloc, own_attrs(tree, id))?,
            added: Vec::new(alloc),
        })
    }

    /// Returns whether they are the attributes of the element with that id.
    pub fn is_of(&self, id: NodeId) -> bool
        ensures { result ≡ (self.now.id == id) }
    {
        self.id == id
    }

    /// Collects those of a tag's attributes whose names the element doesn't have yet. Fails only
    /// when memory runs out.
    pub fn add(&mut self, alloc: Global, tag: &Tag) -> Result<(), PageFault>
        ensures { (own : List Attr) → Knows own self.old →
            OnOk result (AddsAbsent own tag.now.attrs.items self.old self.new) }
    {
        let mut rest = tag.attrs.as_slice();
        while let Some((attr, others)) = rest.split_first() {
            self.add_one(alloc, attr)?;
            rest = others;
        }
        Ok(())
    }

    /// Collects an attribute if the element doesn't have its name yet. Fails only when memory runs
    /// out.
    fn add_one(&mut self, alloc: Global, attr: &TagAttr) -> Result<(), PageFault>
        ensures { (own : List Attr) → Knows own self.old →
            OnOk result (AddsAbsent own (attr.now ∷ []) self.old self.new) }
    {
        if self.names.contains(attr.name.as_str()) {
            return Ok(());
        }
        add_name(&mut self.names, alloc, attr.name.as_str())?;
        let attr = attr_of(alloc, ElementNamespace::Html, attr)?;
        push(&mut self.added, attr)
    }

    /// Adds the collected attributes to the element, after its own. Fails only when memory runs
    /// out.
    pub fn put_into(self, tree: &mut Tree) -> Result<(), PageFault>
        ensures ok { OnOk result
            (tree.new ≡ with_content self.id (with_attrs self.added.items) tree.old) }
        ensures err { IfErr result (λ fault. fault ≡ NoMemory) }
    {
        let id = self.id;
        let mut attrs = attrs_at(tree, id)?;
        append(&mut attrs, self.added)?;
        remove_attrs(tree, id)?;
        add_attrs(tree, id, attrs)?;
        Ok(())
    }
}

/// The attributes that later tags add to elements of a tree.
#[derive(Drop)]
pub struct LateTags {
    elements: Vec<LateAttrs>,
}

impl LateTags {
    /// Returns the state in which no element has later tags yet.
    pub fn new(alloc: Global) -> LateTags
        ensures { result.elements.items ≡ [] }
    {
        LateTags {
            elements: Vec::new(alloc),
        }
    }

    /// Collects the attributes of a later tag of an element. Fails only when memory runs out.
    pub fn add(&mut self, tree: &Tree, id: NodeId, tag: &Tag) -> Result<(), PageFault>
        ensures { let own = node_attrs tree.now id in
            KnowsAt own id (late_of self.old.elements.items) → OnOk result
            (AddsTo own id tag.now.attrs.items (late_of self.old.elements.items)
            (late_of self.new.elements.items)) }
    {
        if let Some(place) = self.find(id) {
            self.add_at(place, tree.allocator(), tag)?;
            return Ok(());
        }
        let mut late = LateAttrs::new(tree, id)?;
        late.add(tree.allocator(), tag)?;
        self.push(late)?;
        Ok(())
    }

    /// Collects the attributes of a later tag of the element at an index of the list.
    fn add_at(&mut self, place: usize, alloc: Global, tag: &Tag) -> Result<(), PageFault>
        ensures { (own : List Attr) (late : AnElement) → Knows own late →
            slice_get self.old.elements.items place ≡ Some late → OnOk result
            (AddsAt own place tag.now.attrs.items late self.old.elements.items
            self.new.elements.items) }
    {
        if let Some(late) = self.elements.get_mut(place) {
            late.add(alloc, tag)?;
        }
        Ok(())
    }

    /// Appends an element.
    fn push(&mut self, late: LateAttrs) -> Result<(), PageFault>
        ensures { OnOk result (self.new.elements.items ≡ self.old.elements.items ++ late ∷ []) }
    {
        self.elements.push(late)?;
        Ok(())
    }

    /// Returns where an element is in the list.
    fn find(&self, id: NodeId) -> Option<usize>
        ensures { result ≡ position (λ late. late.id == id) self.now.elements.items }
    {
        self.elements
            .as_slice()
            .iter()
            .position(|late| late.is_of(id))
    }

    /// Returns whether the list has attributes for an element.
    fn has(&self, id: NodeId) -> bool
        ensures { result ≡ list_any (λ late. late.id == id) self.now.elements.items }
    {
        self.elements.as_slice().iter().any(|late| late.is_of(id))
    }

    /// Adds the collected attributes to their elements, after those that the elements have. If an
    /// element stood in the list twice, the first of them would count. Fails only when memory runs
    /// out.
    pub fn put_into(self, tree: &mut Tree) -> Result<(), PageFault>
        ensures ok { OnOk result (tree.new ≡ completed (late_of self.elements.items) tree.old) }
        ensures err { IfErr result (λ fault. fault ≡ NoMemory) }
    {
        let mut left = self;
        while let Some(late) = left.elements.pop() {
            if !left.has(late.id) {
                late.put_into(tree)?;
            }
        }
        Ok(())
    }
}

/// Removes the attributes of an element. Fails only when memory runs out.
fn remove_attrs(tree: &mut Tree, id: NodeId) -> Result<(), PageFault>
    ensures ok { OnOk result (tree.new ≡ with_content id (with_changed (λ _. [])) tree.old) }
    ensures err { IfErr result (λ fault. fault ≡ NoMemory) }
{
    match tree.try_change_of(&id, Change::RemoveAllAttrs) {
        Ok(()) => Ok(()),
        Err(_) => Err(PageFault::Memory),
    }
}

/// Gives an element those of the attributes whose names it doesn't have. Fails only when memory
/// runs out.
fn add_attrs(tree: &mut Tree, id: NodeId, attrs: Attrs) -> Result<(), PageFault>
    ensures ok { OnOk result
        (tree.new ≡ with_content id (with_changed (with_missing attrs)) tree.old) }
    ensures err { IfErr result (λ fault. fault ≡ NoMemory) }
{
    match tree.add_missing_attrs_of(&id, attrs) {
        Ok(()) => Ok(()),
        Err(_) => Err(PageFault::Memory),
    }
}

/// Appends attributes. Fails only when memory runs out.
fn append(attrs: &mut Attrs, added: Vec<Attr>) -> Result<(), PageFault>
    ensures ok { OnOk result (attrs.new ≡ attrs.old ++ added.items) }
    ensures err { IfErr result (λ fault. fault ≡ NoMemory) }
{
    for attr in added {
        attrs.push(attr)?;
    }
    Ok(())
}

/// Returns a copy of the attributes of an element.
fn attrs_at(tree: &Tree, id: NodeId) -> Result<Attrs, PageFault>
    ensures ok { IfOk result (λ attrs. attrs ≡ node_attrs tree.now id) }
    ensures err { IfErr result (λ fault. fault ≡ NoMemory) }
{
    match NodeRef::new(id, tree).element_ref() {
        Some(element) => Ok(element.attrs().try_clone()?),
        None => Ok(Attrs::new(tree.allocator())),
    }
}

/// Returns the attributes of an element.
fn own_attrs(tree: &Tree, id: NodeId) -> &[Attr]
    ensures { result.now ≡ node_attrs tree.now id }
{
    match NodeRef::new(id, tree).element_ref() {
        Some(element) => element.attrs().as_slice(),
        None => &[],
    }
}

/// Returns the names of attributes. Fails only when memory runs out.
fn names_in(alloc: Global, attrs: &[Attr]) -> Result<BTreeSet<String>, PageFault>
    ensures { IfOk result (λ names. HasNames names attrs.now) }
{
    let mut names = BTreeSet::new(alloc);
    let mut rest = attrs;
    while let Some((attr, others)) = rest.split_first() {
        add_name(&mut names, alloc, attr.name.local().as_str())?;
        rest = others;
    }
    Ok(names)
}

/// Adds a name to the set. Fails only when memory runs out.
fn add_name(names: &mut BTreeSet<String>, alloc: Global, name: &str) -> Result<(), PageFault>
    ensures { OnOk result (Gains name.now names.old names.new) }
{
    names.insert(String::from_str(alloc, name)?)?;
    Ok(())
}

/// Appends an attribute. Fails only when memory runs out.
fn push(attrs: &mut Vec<Attr>, attr: Attr) -> Result<(), PageFault>
    ensures { OnOk result (attrs.new.items ≡ attrs.old.items ++ attr ∷ []) }
{
    attrs.push(attr)?;
    Ok(())
}
