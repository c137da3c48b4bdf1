//! The lists of allowed names, and the call that sanitizes a document.

ghost use Rattle.std.specs.Prelude.{◌≡◌, IfOk, OnErr, OnOk};
ghost use Rattle.dom_links.specs.Sound.{IsForest};
ghost use Rattle.dom_sanitize.specs.Clean.{Cleaned, lists_of};

use crate::attrs::clear_attrs;
use crate::moves::{cut_out, put_back};
use crate::plan::plan;
use dom_links::laws::{changes_of_data, lines_of_a_forest, trees_of_a_forest};
use dom_markup::document::Document;
use dom_nodes::fault::OutOfMemory;
use dom_trees::tree::Tree;

/// The lists of a sanitizer: local names of elements that stay, of attributes that stay, and of
/// elements that are dropped with everything below them. Names are compared byte by byte and
/// without namespaces. An element that is in both lists of elements is dropped.
#[derive(Clone, Copy, Debug, Drop)]
pub struct Allow<'a> {
    pub elements: &'a [&'a str],
    pub attrs: &'a [&'a str],
    pub drop: &'a [&'a str],
}

/// Sanitizes the document below its root. Texts stay. Allowed elements stay, with their allowed
/// attributes only. Comments, doctypes, processing instructions, dropped elements and templates are
/// detached with everything below them. Any other element is detached, and those of its children
/// that are left take its place. Attribute values aren't looked at.
///
/// Nodes that are detached still exist in the tree. The call is idempotent. It fails with
/// `OutOfMemory` when memory is refused, and then nothing has changed.
pub fn sanitize(document: &mut Document, allow: &Allow<'_>) -> Result<(), OutOfMemory>
    ensures ok { OnOk result (Cleaned (lists_of allow.now) document.old.tree document.new.tree) }
    ensures err { OnErr result (document.new.tree ≡ document.old.tree) }
    ensures errors { document.new.errors ≡ document.old.errors }
    ensures quirks { document.new.quirks_mode ≡ document.old.quirks_mode }
{
    sanitize_tree(&mut document.tree, allow)
}

/// Sanitizes a tree below its root, as `sanitize` does for a document. It fails with `OutOfMemory`
/// when memory is refused, and then nothing has changed.
pub fn sanitize_tree(tree: &mut Tree, allow: &Allow<'_>) -> Result<(), OutOfMemory>
    ensures ok { OnOk result (Cleaned (lists_of allow.now) tree.old tree.new) }
    ensures err { OnErr result (tree.new ≡ tree.old) }
{
    // Called for their contracts: the laws have empty bodies and cost nothing; `nodes` only borrows
    // the nodes, and its contract says that they are a sound arena.
    trees_of_a_forest();
    lines_of_a_forest();
    changes_of_data();
    let _ = tree.nodes();
    let steps = plan(tree, allow)?;
    cut_out(tree, &steps);
    put_back(tree, &steps);
    clear_attrs(tree, &steps, allow.attrs);
    // For its contract again, now of the edited tree.
    let _ = tree.nodes();
    Ok(())
}
