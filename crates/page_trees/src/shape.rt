//! The shape of a page: below the root at most one doctype, comments, and one element `html` that
//! has a head and a body, or a head and a frameset that other elements may follow.

ghost use Rattle.std.specs.Prelude.{◌≡◌, IfErr, IfOk, MatchResult, OnOk};
ghost use Rattle.dom_links.specs.Sound.{IsForest};
ghost use Rattle.page_trees.specs.Shape.{IsPage, are_parts, besides_comments, elements_of};
ghost use Rattle.page_trees.specs.Shape.{has_parts, is_contents, is_html, is_page, is_top};
ghost use Rattle.page_trees.specs.declared.fault.PageFault.TheVariants.{Memory as NoMemory};

use crate::fault::PageFault;
use dom_nodes::fault::EditFault;
use dom_nodes::name::NamespaceRef;
use dom_nodes::node_id::NodeId;
use dom_trees::node_ref::NodeRef;
use dom_trees::tree::Tree;

/// Returns whether a node is an HTML element with that name.
fn is_html(tree: &Tree, id: NodeId, name: &str) -> bool
    ensures { result ≡ is_html tree.now id name.now }
{
    match tree.get_name(&id) {
        Some(known) => {
            if !known.ns().is_same(&NamespaceRef::Html) {
                return false;
            }
            known.local().as_str() == name
        }
        None => false,
    }
}

/// Returns the children that are not comments.
fn besides_comments(tree: &Tree, id: NodeId) -> Result<Vec<NodeId>, PageFault>
    ensures ok { IfOk result (λ ids. ids.items ≡ besides_comments tree.now id) }
    ensures err { IfErr result (λ fault. fault ≡ NoMemory) }
{
    let children = tree.child_ids_of_it(&id, false);
    let others = children.filter(|child| !NodeRef::new(*child, tree).is_comment());
    Ok(others.collect(tree.allocator())?)
}

/// Returns the children that are elements.
fn elements_of(tree: &Tree, id: NodeId) -> Result<Vec<NodeId>, PageFault>
    ensures ok { IfOk result (λ ids. ids.items ≡ elements_of tree.now id) }
    ensures err { IfErr result (λ fault. fault ≡ NoMemory) }
{
    let children = tree.child_ids_of_it(&id, false);
    let elements = children.filter(|child| NodeRef::new(*child, tree).is_element());
    Ok(elements.collect(tree.allocator())?)
}

/// Returns whether these are a body alone, or a frameset. After a frameset, `noframes` and
/// reconstructed formatting elements may follow.
fn is_contents(tree: &Tree, id: NodeId, others: &[NodeId]) -> bool
    ensures { result ≡ is_contents tree.now id others.now }
{
    if is_html(tree, id, "body") && others.is_empty() {
        return true;
    }
    is_html(tree, id, "frameset")
}

/// Returns whether these are a head, and then a body or a frameset.
fn are_parts(tree: &Tree, parts: &[NodeId]) -> bool
    ensures { result ≡ are_parts tree.now parts.now }
{
    let Some((head, rest)) = parts.split_first() else {
        return false;
    };
    let Some((contents, others)) = rest.split_first() else {
        return false;
    };
    if !is_html(tree, *head, "head") {
        return false;
    }
    is_contents(tree, *contents, others)
}

/// Returns whether a node is an element `html` with a head and a body or frameset.
fn has_parts(tree: &Tree, id: NodeId) -> Result<bool, PageFault>
    ensures ok { IfOk result (λ has. has ≡ has_parts tree.now id) }
    ensures err { IfErr result (λ fault. fault ≡ NoMemory) }
{
    if !is_html(tree, id, "html") {
        return Ok(false);
    }
    let parts = elements_of(tree, id)?;
    Ok(are_parts(tree, &parts))
}

/// Returns whether these are an element `html` with its parts, with or without a doctype before it.
fn is_top(tree: &Tree, tops: &[NodeId]) -> Result<bool, PageFault>
    ensures ok { IfOk result (λ is. is ≡ is_top tree.now tops.now) }
    ensures err { IfErr result (λ fault. fault ≡ NoMemory) }
{
    let Some((first, rest)) = tops.split_first() else {
        return Ok(false);
    };
    let Some((html, others)) = rest.split_first() else {
        return has_parts(tree, *first);
    };
    if !others.is_empty() {
        return Ok(false);
    }
    if !NodeRef::new(*first, tree).is_doctype() {
        return Ok(false);
    }
    has_parts(tree, *html)
}

/// Returns whether the tree has the shape of a page. Fails only when memory runs out.
pub fn is_page(tree: &Tree) -> Result<bool, PageFault>
    ensures { MatchResult result (λ is. is ≡ is_page tree.now) (λ fault. fault ≡ NoMemory) }
{
    let tops = besides_comments(tree, tree.root_id())?;
    is_top(tree, &tops)
}

/// Every tree is a well-formed forest. The function does nothing at run time; a call of it brings
/// its `ensures` clauses into the caller's proof.
pub(crate) fn is_forest(tree: &Tree)
    ensures { IsForest tree.now }
{
    let _ = tree.nodes();
}

/// Turns a tree into a page: all children of the root move into the body of a new page.
fn enclose(tree: &mut Tree) -> Result<(), EditFault>
    ensures { OnOk result (IsPage tree.new) }
{
    is_forest(tree);
    let root = tree.root_id();
    let body = tree.new_element("body")?;
    tree.reparent_children_of(&root, Some(body))?;
    let html = tree.new_element("html")?;
    let head = tree.new_element("head")?;
    tree.append_child_of(&root, &html)?;
    tree.append_child_of(&html, &head)?;
    tree.append_child_of(&html, &body)
}

/// Makes sure that a tree has the shape of a page. A tree that has it is unchanged; otherwise all
/// children of the root move into the body of a new page. Fails only with `Memory` or
/// `TooManyNodes`.
pub fn make_page(tree: &mut Tree) -> Result<(), PageFault>
    ensures page { OnOk result (IsPage tree.new) }
    ensures same { OnOk result (IsPage tree.old → tree.new ≡ tree.old) }
{
    if is_page(tree)? {
        return Ok(());
    }
    match enclose(tree) {
        Ok(()) => Ok(()),
        Err(EditFault::TooManyNodes) => Err(PageFault::TooManyNodes),
        Err(_) => Err(PageFault::Memory),
    }
}
