//! The script line `sanitize`.

ghost use Rattle.std.specs.Prelude.{◌≡◌, [], map, slice_index_or, IfOk, OnErr, OnOk};
ghost use Rattle.dom_query.specs.Cleaning.{IsCleaned, allow_of};
ghost use Rattle.dom_sanitize.specs.Clean.{lists_of};
ghost use Rattle.dom_script.specs.NameLists.{listed_in};

use dom_nodes::fault::OutOfMemory;
use dom_sanitize::sanitize::{Allow, sanitize_tree};
use dom_script::script::lists::{listed_in, lists_of};
use dom_trees::tree::Tree;
use std::alloc::Global;

/// Returns the names of the list at this index; none if there is no such list.
fn names_at<'a>(alloc: Global, lists: &[&'a str], place: usize) -> Result<Vec<&'a str>, OutOfMemory>
    ensures { IfOk result (λ names. map (λ name. name.now) names.items
        ≡ listed_in (slice_index_or (map (λ list. list.now) lists.now) place [])) }
{
    match lists.get(place) {
        Some(list) => listed_in(alloc, list),
        None => Ok(Vec::new(alloc)),
    }
}

/// Sanitizes the tree.
fn clean_by(tree: &mut Tree, allow: &Allow<'_>) -> Result<(), OutOfMemory>
    ensures ok { OnOk result (IsCleaned (lists_of allow.now) tree.old tree.new) }
    ensures err { OnErr result (tree.new ≡ tree.old) }
{
    // Called for its contract, which says that the nodes are a sound arena; it only borrows them.
    let _ = tree.nodes();
    sanitize_tree(tree, allow)?;
    // For its contract again, now of the edited tree.
    let _ = tree.nodes();
    Ok(())
}

/// Sanitizes the tree by three lists of names, separated by semicolons: the elements and the
/// attributes that stay, and the elements that are dropped. It fails with `OutOfMemory`, and the
/// tree is then unchanged.
pub fn clean(tree: &mut Tree, lists: &str) -> Result<(), OutOfMemory>
    ensures ok { OnOk result (IsCleaned (allow_of lists.now) tree.old tree.new) }
    ensures err { OnErr result (tree.new ≡ tree.old) }
{
    let lists = lists_of(tree.allocator(), lists)?;
    let elements = names_at(tree.allocator(), &lists, 0)?;
    let attrs = names_at(tree.allocator(), &lists, 1)?;
    let dropped = names_at(tree.allocator(), &lists, 2)?;
    let allow = Allow {
        elements: &elements,
        attrs: &attrs,
        drop: &dropped,
    };
    clean_by(tree, &allow)
}
