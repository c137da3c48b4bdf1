//! The script lines that select nodes.

ghost use Rattle.std.specs.Prelude.{◌≡◌, IfOk};
ghost use Rattle.dom_query.specs.Queries.{Added, QueryResult, navigated};
ghost use Rattle.dom_select.specs.Meaning.{MatchesNode};
ghost use Rattle.dom_select.specs.Selected.{FiltersTo};
ghost use Rattle.dom_selection.specs.Selections.{ids_of};

use dom_index::selecting::select_ids;
use dom_nodes::fault::OutOfMemory;
use dom_nodes::node_id::NodeId;
use dom_script::script::{Navigation, QueryKind};
use dom_select::matcher::Matcher;
use dom_selection::selection::Selection;
use dom_trees::tree::Tree;

/// Returns the nodes that a selector selects, depending on the kind of the line and on the
/// selection before it. Fails only when memory runs out.
pub fn query(
    tree: &Tree,
    selection: &[NodeId],
    kind: QueryKind,
    matcher: &Matcher,
) -> Result<Vec<NodeId>, OutOfMemory>
    ensures { IfOk result (λ found.
        QueryResult tree.now selection.now kind matcher.now found.items) }
{
    match kind {
        QueryKind::Select => select_ids(tree, &[NodeId::root()], matcher),
        QueryKind::Find => select_ids(tree, selection, matcher),
        QueryKind::Filter => filter(tree, selection, matcher),
        QueryKind::Add => add(tree, selection, matcher),
    }
}

/// Returns those nodes of the selection that match the selector.
fn filter(tree: &Tree, selection: &[NodeId], matcher: &Matcher) -> Result<Vec<NodeId>, OutOfMemory>
    ensures { IfOk result (λ found.
        FiltersTo (MatchesNode matcher.now tree.now) selection.now found.items) }
{
    let from = Selection::from_ids(tree, selection)?;
    let kept = from.filter_matcher(matcher)?;
    kept.ids()
}

/// Returns the selection, then the matches below the root that aren't in it.
fn add(tree: &Tree, selection: &[NodeId], matcher: &Matcher) -> Result<Vec<NodeId>, OutOfMemory>
    ensures { IfOk result (λ found. Added tree.now selection.now matcher.now found.items) }
{
    let from = Selection::from_ids(tree, selection)?;
    let all = from.add_matcher(matcher)?;
    all.ids()
}

/// Returns the nodes in this direction from the selection.
fn traverse<'a>(
    tree: &'a Tree,
    selection: &[NodeId],
    navigation: Navigation,
) -> Result<Selection<'a>, OutOfMemory>
    ensures { IfOk result (λ found.
        ids_of found ≡ navigated navigation tree.entry.now selection.now) }
{
    let from = Selection::from_ids(tree, selection)?;
    match navigation {
        Navigation::Parent => from.parent(),
        Navigation::Children => from.children(),
        Navigation::Ancestors => from.ancestors(None),
        Navigation::Next => from.next_sibling(),
        Navigation::Prev => from.prev_sibling(),
        Navigation::First => Ok(from.first()),
        Navigation::Last => Ok(from.last()),
    }
}

/// Returns the ids of the nodes in this direction from the selection. Fails only when memory runs
/// out.
pub fn navigate(
    tree: &Tree,
    selection: &[NodeId],
    navigation: Navigation,
) -> Result<Vec<NodeId>, OutOfMemory>
    ensures { IfOk result (λ found. found.items ≡ navigated navigation tree.now selection.now) }
{
    let traversed = traverse(tree, selection, navigation)?;
    traversed.ids()
}
