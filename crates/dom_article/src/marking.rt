//! The marking of the nodes that an article keeps.

ghost use Rattle.std.specs.Prelude.{◌≡◌, ◌≤◌, ◌&&◌, ◌∷◌, [], true, IfOk, length, slice_set};
ghost use Rattle.dom_links.specs.Laws.{AreLines};
ghost use Rattle.dom_links.specs.Sound.{IsForest};
ghost use Rattle.dom_article.specs.Hidden.{hidden_at};
ghost use Rattle.dom_article.specs.Pruned.{Gains, HasNone, IsExtract, NothingHidden};
ghost use Rattle.dom_article.specs.Pruned.{is_below_marked, marked, with_shown};
ghost use Rattle.dom_article.specs.Texts.{AreShown, is_kept_text_at, is_visible_at};
ghost use Rattle.dom_article.specs.Texts.{is_visible_text, keeps_text, page_nodes};

use crate::hidden::is_hidden;
use crate::texts::is_visible;
use dom_links::laws::lines_of_a_forest;
use dom_nodes::fault::OutOfMemory;
use dom_nodes::node_data::NodeData;
use dom_nodes::node_id::NodeId;
use dom_trees::tree::Tree;

/// States that a tree is a well-formed forest. It does nothing at run time; a call of it brings its
/// `ensures` clauses into the caller's proof.
pub(crate) fn forest_laws(tree: &Tree)
    ensures forest { IsForest tree.now }
    ensures lines { AreLines tree.now }
{
    let _nodes = tree.nodes();
    lines_of_a_forest();
}

/// Returns marks for the nodes of a tree of which none is marked. Fails only when memory runs out.
fn no_marks(tree: &Tree) -> Result<Vec<bool>, OutOfMemory>
    ensures none { IfOk result (λ marks. HasNone marks.items) }
    ensures long { IfOk result (λ marks. length marks.items ≡ length tree.now.content) }
{
    Ok(vec![in tree.allocator(); false; tree.len()]?)
}

/// Returns whether a node is marked.
pub(crate) fn is_marked(marks: &[bool], id: NodeId) -> bool
    ensures { result ≡ marked marks.now id }
{
    let n = id.value();
    if n >= marks.len() {
        return false;
    }
    marks[n]
}

/// Marks a node.
fn mark(marks: &mut Vec<bool>, id: NodeId)
    ensures gains { Gains id marks.old.items marks.new.items }
    ensures is { marks.new.items ≡ slice_set marks.old.items id true }
{
    let n = id.value();
    if n < marks.len() {
        marks[n] = true;
    }
}

/// Returns whether a node is never shown by itself.
fn is_hidden_at(tree: &Tree, id: NodeId) -> bool
    ensures { result ≡ hidden_at tree.now id }
{
    match tree.tree_node(&id) {
        Some(node) => is_hidden(&node.content),
        None => true,
    }
}

/// Returns whether a node has a marked parent.
fn is_below_marked(tree: &Tree, id: NodeId, marks: &[bool]) -> bool
    ensures { result ≡ is_below_marked tree.now id marks.now }
{
    forest_laws(tree);
    let Some(node) = tree.tree_node(&id) else {
        return false;
    };
    match node.parent.get() {
        Some(parent) => is_marked(marks, parent),
        None => false,
    }
}

/// Returns the marks of an article: its root, if it is shown, and each node below it that is wanted
/// and shown, and whose parent is marked. `around` has the wanted nodes and the ancestors of the
/// root. Fails only when memory runs out.
pub(crate) fn extract(
    tree: &Tree,
    root: NodeId,
    around: &[bool],
    wanted: &[bool],
) -> Result<Vec<bool>, OutOfMemory>
    ensures { IfOk result (λ kept. IsExtract tree.now root kept.items) }
{
    let shown = mark_shown(tree, around)?;
    mark_kept(tree, root, &shown, wanted)
}

/// Marks the root of a tree, and each node below it that is wanted and not hidden, and whose parent
/// is marked.
fn mark_shown(tree: &Tree, wanted: &[bool]) -> Result<Vec<bool>, OutOfMemory>
    ensures { IfOk result (λ shown. NothingHidden tree.now shown.items) }
{
    forest_laws(tree);
    let mut shown = no_marks(tree)?;
    let root = tree.root_id();
    if is_hidden_at(tree, root) {
        return Ok(shown);
    }
    mark(&mut shown, root);
    for id in tree.descendant_ids_of_it(&root) {
        if !is_marked(wanted, id) || is_hidden_at(tree, id) {
            continue;
        }
        if is_below_marked(tree, id, &shown) {
            mark(&mut shown, id);
        }
    }
    Ok(shown)
}

/// Marks the root of an article, if it is shown, and each node below it that is wanted and shown,
/// and whose parent is marked.
fn mark_kept(
    tree: &Tree,
    root: NodeId,
    shown: &[bool],
    wanted: &[bool],
) -> Result<Vec<bool>, OutOfMemory>
    requires { NothingHidden tree.now shown.now }
    ensures { IfOk result (λ kept. IsExtract tree.now root kept.items) }
{
    forest_laws(tree);
    let mut kept = no_marks(tree)?;
    if !is_marked(shown, root) {
        return Ok(kept);
    }
    mark(&mut kept, root);
    for id in tree.descendant_ids_of_it(&root) {
        if !is_marked(wanted, id) || !is_marked(shown, id) {
            continue;
        }
        if is_below_marked(tree, id, &kept) {
            mark(&mut kept, id);
        }
    }
    Ok(kept)
}

/// Marks the nodes of a tree that are shown: the root, if it isn't hidden itself, and each node
/// below it that isn't hidden itself and whose parent is shown. Fails only when memory runs out.
pub(crate) fn all_shown(tree: &Tree) -> Result<Vec<bool>, OutOfMemory>
    ensures { IfOk result (λ shown. AreShown tree.now (page_nodes tree.now) shown.items) }
{
    forest_laws(tree);
    let mut shown = shown_root(tree)?;
    for id in tree.descendant_ids_of_it(&tree.root_id()) {
        mark_if_shown(tree, id, &mut shown);
    }
    Ok(shown)
}

/// Marks the root of a tree, if it isn't hidden itself. Fails only when memory runs out.
fn shown_root(tree: &Tree) -> Result<Vec<bool>, OutOfMemory>
    ensures { IfOk result (λ shown. AreShown tree.now (0 ∷ []) shown.items) }
{
    forest_laws(tree);
    let mut shown = no_marks(tree)?;
    let root = tree.root_id();
    if is_hidden_at(tree, root) {
        return Ok(shown);
    }
    mark(&mut shown, root);
    Ok(shown)
}

/// Marks a node if it isn't hidden itself and its parent is marked.
fn mark_if_shown(tree: &Tree, id: NodeId, shown: &mut Vec<bool>)
    ensures { shown.new.items ≡ with_shown tree.now id shown.old.items }
{
    if is_hidden_at(tree, id) {
        return;
    }
    if is_below_marked(tree, id, shown) {
        mark(shown, id);
    }
}

/// Returns whether a marked node of the tree is a text with a character that leaves a mark.
pub(crate) fn keeps_text(tree: &Tree, marks: &[bool]) -> bool
    ensures { result ≡ keeps_text tree.now marks.now }
{
    let root = tree.root_id();
    if is_kept_text(tree, marks, root) {
        return true;
    }
    for id in tree.descendant_ids_of_it(&root) {
        if is_kept_text(tree, marks, id) {
            return true;
        }
    }
    false
}

/// Returns whether a node is marked and is a text with a character that leaves a mark.
fn is_kept_text(tree: &Tree, marks: &[bool], id: NodeId) -> bool
    ensures { result ≡ is_kept_text_at tree.now marks.now id }
{
    if !is_marked(marks, id) {
        return false;
    }
    is_visible_at(tree, id)
}

/// Returns whether a node is a text with a character that leaves a mark.
fn is_visible_at(tree: &Tree, id: NodeId) -> bool
    ensures { result ≡ is_visible_at tree.now id }
{
    match tree.tree_node(&id) {
        Some(node) => is_visible_text(&node.content),
        None => false,
    }
}

fn is_visible_text(content: &NodeData) -> bool
    ensures { result ≡ is_visible_text content.now }
{
    match content {
        NodeData::Text { contents } => is_visible(contents.as_str()),
        _ => false,
    }
}
