//! The edits of the tree that tree construction makes. They fail only when memory or node ids run
//! out, and an element never becomes a node of another kind.

ghost use Rattle.std.specs.Prelude.{◌≡◌, ◌∷◌, [], IfOk, None, OnErr, OnOk, Some, false};
ghost use Rattle.std.specs.Prelude.{chars};
ghost use Rattle.standard_trees.specs.TreeStore.{CommentNode, EndOf as AtEnd, Kind, removed};
ghost use Rattle.dom_nodes.specs.declared.node_data.NodeData.TheVariants.{Element as AnElement};
ghost use Rattle.dom_links.specs.AddedTexts.{with_node_at, with_text_at};
ghost use Rattle.dom_links.specs.Growth.{with_node};
ghost use Rattle.dom_links.specs.ListMoves.{reparented};
ghost use Rattle.dom_links.specs.Moves.{detach, moved_to};
ghost use Rattle.dom_links.specs.Sound.{IsForest, IsOpenGap, contents_at};
ghost use Rattle.dom_links.specs.declared.gap.InsertionPoint.TheVariants.{EndOf};
ghost use Rattle.dom_links.specs.declared.gap.MovedNodes.TheVariants.{Node};
ghost use Rattle.dom_trees.specs.Edits.{MayMove, MayReparentOf};
ghost use Rattle.dom_trees.specs.NewNodes.{comment_node, doctype_node};
ghost use Rattle.dom_trees.specs.TreeUnderConstruction.{with_new_element};
ghost use Rattle.page_trees.specs.Elements.{Grows, IsAround, IsCopy, IsElement, IsFresh, IsInside};
ghost use Rattle.page_trees.specs.Elements.{IsMade, IsNew, IsRooted};
ghost use Rattle.page_trees.specs.Foreign.{is_html_annotation};
ghost use Rattle.page_trees.specs.Insertions.{MakesNext, element_for_tag, open_for_tag, with_copy};
ghost use Rattle.page_trees.specs.Insertions.{with_copy_around, with_copy_at};
ghost use Rattle.page_trees.specs.Insertions.{with_copy_inside, with_element_at};
ghost use Rattle.page_trees.specs.Insertions.{with_tag_at};
ghost use Rattle.page_trees.specs.Placing.{is_template_named};
ghost use Rattle.page_trees.specs.Reopening.{copy_open};
ghost use Rattle.page_trees.specs.SameNodes.{Changes, ChangesAt, IsKind, with_kind_at};
ghost use Rattle.page_trees.specs.SameNodes.{with_copy_around as copied_around};
ghost use Rattle.page_trees.specs.SameNodes.{with_copy_at as copied_at};
ghost use Rattle.page_trees.specs.SameNodes.{with_copy_inside as copied_inside};
ghost use Rattle.page_trees.specs.SameNodes.{with_text_at as with_text};
ghost use Rattle.dom_trees.specs.Views.{node_attrs, node_qual_name};

use crate::attributes::{attrs_of, element_name, holds_html};
use crate::fault::{PageFault, made, settled};
use crate::name::Name;
use crate::stack::{ElementNamespace, Open};
use dom_links::gap::{InsertionPoint, MovedNodes};
use dom_nodes::name::QualName;
use dom_nodes::node_data::{Attrs, Element, NodeData};
use dom_nodes::node_id::NodeId;
use dom_trees::tree::{ElementFlags, Tree};
use page_tokens::token::Tag;

/// Every tree is a well-formed forest. The function does nothing at run time; a call of it brings
/// its `ensures` clauses into the caller's proof.
pub fn is_forest(tree: &Tree)
    ensures { IsForest tree.now }
{
    let _ = tree.nodes();
}

/// Moves a node to an insertion point at which it is allowed.
pub fn move_to(tree: &mut Tree, gap: InsertionPoint, id: NodeId)
    requires { MayMove gap (Node id) tree.old }
    ensures { tree.new ≡ moved_to (id ∷ []) gap tree.old }
{
    tree.move_allowed(gap, MovedNodes::Node(id));
}

/// Moves the children of an element to another, where they are allowed.
pub fn reparent(tree: &mut Tree, id: NodeId, parent: NodeId)
    requires { MayReparentOf id (Some parent) tree.old }
    ensures { tree.new ≡ reparented id (Some parent) tree.old }
{
    let Ok(()) = tree.reparent_children_of(&id, Some(parent)) else {
        unreachable!();
    };
}

/// Detaches an element.
pub fn cut_out(tree: &mut Tree, id: NodeId)
    requires { IsElement tree.old id }
    ensures grows { Grows tree.old tree.new }
    ensures made { tree.new ≡ detach (id ∷ []) tree.old }
    ensures rule { Changes tree.old tree.new (removed id) }
{
    let Ok(()) = tree.remove_from_parent(&id) else {
        unreachable!();
    };
}

/// Inserts a text at an insertion point.
pub fn put_text(tree: &mut Tree, gap: InsertionPoint, text: &str) -> Result<(), PageFault>
    requires { IsOpenGap gap tree.old }
    ensures grows { Grows tree.old tree.new }
    ensures made { OnOk result (tree.new ≡ with_text_at gap text.now tree.old) }
    ensures rule { let text = chars text.now in
        OnOk result (ChangesAt gap tree.old tree.new (with_text text)) }
{
    is_forest(tree);
    settled(tree.add_text_at(gap, text))
}

/// Makes a detached comment and returns its id.
fn create_comment(tree: &mut Tree, text: &str) -> Result<NodeId, PageFault>
    ensures ok { IfOk result (IsNew tree.old tree.new) }
    ensures made { OnOk result (tree.new ≡ with_node (comment_node text.now) tree.old) }
    ensures err { OnErr result (tree.new ≡ tree.old) }
{
    made(tree.new_comment(text))
}

/// Inserts a new comment at an insertion point.
pub fn put_comment(tree: &mut Tree, gap: InsertionPoint, text: &str) -> Result<(), PageFault>
    requires { IsOpenGap gap tree.old }
    ensures grows { Grows tree.old tree.new }
    ensures made { let comment = comment_node text.now in
        OnOk result (tree.new ≡ with_node_at gap comment tree.old) }
    ensures rule { let comment = CommentNode (chars text.now) in
        OnOk result (ChangesAt gap tree.old tree.new (with_kind_at comment)) }
{
    is_forest(tree);
    let comment = create_comment(tree, text)?;
    is_forest(tree);
    move_to(tree, gap, comment);
    Ok(())
}

/// Inserts a doctype as the last child of the root: its name, public identifier and system
/// identifier.
pub fn put_doctype(
    tree: &mut Tree,
    name: &str,
    public_id: &str,
    system_id: &str,
) -> Result<(), PageFault>
    requires { IsRooted tree.old }
    ensures grows { Grows tree.old tree.new }
    ensures made { let doctype = doctype_node name.now public_id.now system_id.now in
        OnOk result (tree.new ≡ with_node_at (EndOf 0) doctype tree.old) }
    ensures rule { let doctype = doctype_node name.now public_id.now system_id.now in
        (kind : Kind) → IsKind kind doctype →
        OnOk result (Changes tree.old tree.new (with_kind_at kind (AtEnd 0))) }
{
    is_forest(tree);
    made(tree.append_doctype_of(&NodeId::root(), name, public_id, system_id))?;
    Ok(())
}

/// Makes a detached element and returns its id.
fn create(
    tree: &mut Tree,
    name: QualName,
    attrs: Attrs,
    flags: ElementFlags,
) -> Result<NodeId, PageFault>
    ensures ok { IfOk result (IsMade tree.old tree.new) }
    ensures plain { flags.template ≡ false → IfOk result (IsCopy tree.old tree.new) }
    ensures made { OnOk result (tree.new ≡ with_new_element name attrs flags tree.old) }
    ensures err { OnErr result (tree.new ≡ tree.old) }
{
    made(tree.create_element(name, attrs, flags))
}

fn is_template_named(ns: ElementNamespace, name: Name) -> bool
    ensures { result ≡ is_template_named ns name }
{
    match ns {
        ElementNamespace::Html => matches!(name, Name::Template),
        _ => false,
    }
}

/// Returns the flags of a tag's element: whether it is a template, or an `annotation-xml` whose
/// encoding is HTML.
fn flags_of(ns: ElementNamespace, name: Name, tag: &Tag) -> ElementFlags
    ensures template { result.template ≡ is_template_named ns name }
    ensures annotation { let attrs = tag.now.attrs.items in
        result.mathml_annotation_xml_integration_point ≡ is_html_annotation ns name attrs }
{
    ElementFlags {
        template: is_template_named(ns, name),
        mathml_annotation_xml_integration_point: holds_html(ns, name, tag),
    }
}

/// Inserts the element of a tag at an insertion point.
pub fn put_element(
    tree: &mut Tree,
    gap: InsertionPoint,
    ns: ElementNamespace,
    name: Name,
    tag: &Tag,
) -> Result<Open, PageFault>
    requires { IsOpenGap gap tree.old }
    ensures grows { Grows tree.old tree.new }
    ensures element { IfOk result (λ made. IsFresh tree.old tree.new made.id) }
    ensures shape { IfOk result (λ made. made ≡ open_for_tag ns name tag.now made.id) }
    ensures made { let after = with_tag_at gap ns name tag.now tree.old in
        IfOk result (λ made. MakesNext made.id tree.old tree.new after) }
    ensures rule { (kind : Kind) → IsKind kind (element_for_tag ns name tag.now tree.old) →
        OnOk result (ChangesAt gap tree.old tree.new (with_kind_at kind)) }
{
    is_forest(tree);
    let alloc = tree.allocator();
    let flags = flags_of(ns, name, tag);
    let attrs = attrs_of(alloc, ns, tag.attrs.as_slice())?;
    let written = element_name(alloc, ns, name, tag)?;
    let id = put_new(tree, gap, written, attrs, flags)?;
    Ok(Open {
        id,
        ns,
        name,
        number: 0,
        holds_html: flags.mathml_annotation_xml_integration_point,
    })
}

/// Inserts a new element at an insertion point and returns its id.
fn put_new(
    tree: &mut Tree,
    gap: InsertionPoint,
    name: QualName,
    attrs: Attrs,
    flags: ElementFlags,
) -> Result<NodeId, PageFault>
    requires { IsOpenGap gap tree.old }
    ensures grows { Grows tree.old tree.new }
    ensures element { IfOk result (IsFresh tree.old tree.new) }
    ensures made { let after = with_element_at gap name attrs flags tree.old in
        IfOk result (λ id. MakesNext id tree.old tree.new after) }
{
    if flags.template {
        return put_made(tree, gap, name, attrs, flags);
    }
    let InsertionPoint::EndOf(parent) = gap else {
        return put_made(tree, gap, name, attrs, flags);
    };
    let mathml = flags.mathml_annotation_xml_integration_point;
    append(tree, parent, Element::new(name, attrs, None, mathml))
}

/// Makes a detached element and then moves it to an insertion point.
fn put_made(
    tree: &mut Tree,
    gap: InsertionPoint,
    name: QualName,
    attrs: Attrs,
    flags: ElementFlags,
) -> Result<NodeId, PageFault>
    requires { IsOpenGap gap tree.old }
    ensures grows { Grows tree.old tree.new }
    ensures element { IfOk result (IsFresh tree.old tree.new) }
    ensures made { let after = with_element_at gap name attrs flags tree.old in
        IfOk result (λ id. MakesNext id tree.old tree.new after) }
{
    is_forest(tree);
    let made = create(tree, name, attrs, flags)?;
    is_forest(tree);
    move_to(tree, gap, made);
    Ok(made)
}

/// Makes an element without template contents as the last child of a node.
fn append(tree: &mut Tree, parent: NodeId, element: Element) -> Result<NodeId, PageFault>
    requires open { IsOpenGap (EndOf parent) tree.old }
    requires plain { element.template_contents ≡ None }
    ensures grows { Grows tree.old tree.new }
    ensures element { IfOk result (IsFresh tree.old tree.new) }
    ensures made { let after = with_node_at (EndOf parent) (AnElement element) tree.old in
        IfOk result (λ id. MakesNext id tree.old tree.new after) }
{
    is_forest(tree);
    made(tree.append_child_data_of(&parent, NodeData::Element(element)))
}

/// Returns copies of an element's name and attributes.
fn copied(tree: &Tree, id: NodeId) -> Result<(QualName, Attrs), PageFault>
    requires { IsElement tree.now id }
    ensures name { IfOk result (λ made. Some made.0 ≡ node_qual_name tree.now id) }
    ensures attrs { IfOk result (λ made. made.1 ≡ node_attrs tree.now id) }
{
    let Some(node) = tree.tree_node(&id) else {
        unreachable!();
    };
    let Some(element) = node.content.as_element() else {
        unreachable!();
    };
    Ok((element.name().try_clone()?, element.attrs().try_clone()?))
}

/// Makes a detached copy of an element, with its name and attributes and without children.
fn copy_of(tree: &mut Tree, element: Open) -> Result<Open, PageFault>
    requires { IsElement tree.old element.id }
    ensures forest { IsForest tree.old }
    ensures ok { IfOk result (λ copy. IsCopy tree.old tree.new copy.id) }
    ensures shape { IfOk result (λ copy. copy ≡ copy_open element copy.id) }
    ensures made { OnOk result (tree.new ≡ with_copy element.id tree.old) }
    ensures err { OnErr result (tree.new ≡ tree.old) }
{
    is_forest(tree);
    let (name, attrs) = copied(tree, element.id)?;
    let flags = ElementFlags {
        template: false,
        mathml_annotation_xml_integration_point: false,
    };
    let id = create(tree, name, attrs, flags)?;
    Ok(Open {
        id,
        ns: element.ns,
        name: element.name,
        number: element.number,
        holds_html: false,
    })
}

/// Inserts a copy of an element at an insertion point.
pub fn put_copy(tree: &mut Tree, gap: InsertionPoint, element: Open) -> Result<Open, PageFault>
    requires gap { IsOpenGap gap tree.old }
    requires element { IsElement tree.old element.id }
    ensures grows { Grows tree.old tree.new }
    ensures element { IfOk result (λ copy. IsFresh tree.old tree.new copy.id) }
    ensures shape { IfOk result (λ copy. copy ≡ copy_open element copy.id) }
    ensures made { let after = with_copy_at gap element.id tree.old in
        IfOk result (λ copy. MakesNext copy.id tree.old tree.new after) }
    ensures rule { OnOk result (ChangesAt gap tree.old tree.new (copied_at element.id)) }
{
    let copy = copy_of(tree, element)?;
    move_to(tree, gap, copy.id);
    Ok(copy)
}

/// Makes a detached copy of an element, and moves the node `id` into the copy.
pub fn put_into_copy(tree: &mut Tree, element: Open, id: NodeId) -> Result<Open, PageFault>
    requires rooted { IsRooted tree.old }
    requires element { IsElement tree.old element.id }
    requires moved { IsElement tree.old id }
    ensures grows { Grows tree.old tree.new }
    ensures element { IfOk result (λ copy. IsAround tree.old tree.new copy.id id) }
    ensures shape { IfOk result (λ copy. copy ≡ copy_open element copy.id) }
    ensures made { let after = with_copy_around element.id id tree.old in
        IfOk result (λ copy. MakesNext copy.id tree.old tree.new after) }
    ensures rule { OnOk result (Changes tree.old tree.new (copied_around element.id id)) }
{
    let copy = copy_of(tree, element)?;
    move_to(tree, InsertionPoint::EndOf(copy.id), id);
    Ok(copy)
}

/// Moves the children of `parent` into a copy of `element`, and the copy into `parent`.
pub fn put_children_into_copy(
    tree: &mut Tree,
    element: Open,
    parent: NodeId,
) -> Result<Open, PageFault>
    requires element { IsElement tree.old element.id }
    requires parent { IsElement tree.old parent }
    ensures grows { Grows tree.old tree.new }
    ensures element { IfOk result (λ copy. IsInside tree.old tree.new copy.id parent) }
    ensures shape { IfOk result (λ copy. copy ≡ copy_open element copy.id) }
    ensures made { let after = with_copy_inside element.id parent tree.old in
        IfOk result (λ copy. MakesNext copy.id tree.old tree.new after) }
    ensures rule { contents_at tree.old parent ≡ None →
        OnOk result (Changes tree.old tree.new (copied_inside element.id parent)) }
{
    let copy = copy_of(tree, element)?;
    reparent(tree, parent, copy.id);
    is_forest(tree);
    move_to(tree, InsertionPoint::EndOf(parent), copy.id);
    Ok(copy)
}
