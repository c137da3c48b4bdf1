//! The test of `:contains`: whether the concatenated texts at and below a node contain a text. The
//! texts are compared in place, without allocating memory; an occurrence may start in one text and
//! continue in others.

ghost use Rattle.std.specs.Prelude.{◌≡◌, ◌++◌};
ghost use Rattle.dom_links.specs.Texts.{text_at, text_in};
ghost use Rattle.dom_nodes.specs.declared.case_sensitivity.CaseSensitivity.TheVariants.{CaseSensitive as with_case};
ghost use Rattle.dom_selectors.specs.Comparisons.{begins_with};
ghost use Rattle.dom_select.specs.Texts.{IsLeftBehind, begins_among, joined_contains_at};
ghost use Rattle.dom_select.specs.Texts.{texts_at};

use dom_links::iters::DescendantNodes;
use dom_nodes::case_sensitivity::CaseSensitivity;
use dom_nodes::node_data::NodeData;
use dom_nodes::node_id::NodeId;
use dom_selectors::comparisons::begins_with;
use dom_trees::tree::Tree;

/// Returns the text of the node itself, or an empty one.
fn text_at<'a>(tree: &'a Tree, id: &NodeId) -> &'a [u8]
    ensures { result.now ≡ text_at tree.now id.now }
{
    match tree.tree_node(id) {
        Some(found) => text_in(&found.content),
        None => &[],
    }
}

fn text_in(node: &NodeData) -> &[u8]
    ensures { result.now ≡ text_in node.now }
{
    match node {
        NodeData::Text { contents } => contents.as_str().as_bytes(),
        _ => &[],
    }
}

/// Returns what is left of `inner` after these bytes, if the two agree as far as both go.
fn left_behind<'a>(text: &[u8], inner: &'a [u8]) -> Option<&'a [u8]>
    ensures { IsLeftBehind text.now inner.now result }
{
    let near = inner.len().min(text.len());
    if !begins_with(CaseSensitivity::CaseSensitive, text, &inner[..near]) {
        return None;
    }
    Some(&inner[near..])
}

/// Returns whether the texts of the nodes that `rest` still visits, concatenated, start with
/// `inner`.
fn goes_on(tree: &Tree, rest: DescendantNodes<'_>, inner: &[u8]) -> bool
    ensures { result ≡ begins_with with_case (texts_at tree.now rest.entry.left) inner.now }
{
    let mut left = inner;
    for id in rest {
        let Some(behind) = left_behind(text_at(tree, &id), left) else {
            return false;
        };
        if behind.is_empty() {
            return true;
        }
        left = behind;
    }
    left.is_empty()
}

/// Returns whether this text and the texts of the nodes in `rest`, concatenated, start with
/// `inner`.
fn begins_here(tree: &Tree, text: &[u8], rest: &DescendantNodes<'_>, inner: &[u8]) -> bool
    ensures { result
        ≡ begins_with with_case (text.now ++ texts_at tree.now rest.now.left) inner.now }
{
    let Some(behind) = left_behind(text, inner) else {
        return false;
    };
    if behind.is_empty() {
        return true;
    }
    goes_on(tree, rest.again(), behind)
}

/// Returns whether an occurrence of `inner` starts in this text; it may continue in the texts of
/// the nodes in `rest`.
fn begins_among(tree: &Tree, text: &[u8], rest: &DescendantNodes<'_>, inner: &[u8]) -> bool
    ensures { result ≡ begins_among text.now (texts_at tree.now rest.now.left) inner.now }
{
    let mut n = 0;
    while n < text.len() {
        if begins_here(tree, &text[n..], rest, inner) {
            return true;
        }
        n += 1;
    }
    false
}

/// Returns whether the texts at and below the node, concatenated, contain `inner`.
#[inline(never)]
pub(crate) fn contains_joined(tree: &Tree, id: &NodeId, inner: &str) -> bool
    ensures { result ≡ joined_contains_at tree.now inner.now id.now }
{
    let wanted = inner.as_bytes();
    let mut rest = tree.descendant_ids_of_it(id);
    if begins_among(tree, text_at(tree, id), &rest, wanted) {
        return true;
    }
    while let Some(next) = rest.next() {
        if begins_among(tree, text_at(tree, &next), &rest, wanted) {
            return true;
        }
    }
    wanted.is_empty()
}
