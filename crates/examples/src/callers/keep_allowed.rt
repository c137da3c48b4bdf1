//! A document with nothing but what lists allow.

ghost use Rattle.std.specs.Prelude.{◌≡◌, OnErr, OnOk};
ghost use Rattle.dom_links.specs.Sound.{IsForest};
ghost use Rattle.dom_sanitize.specs.Clean.{lists_of};
ghost use Rattle.dom_sanitize.specs.Laws.{AreAllowed};

use dom_markup::document::Document;
use dom_nodes::fault::OutOfMemory;
use dom_sanitize::laws::what_is_left_is_allowed;
use dom_sanitize::sanitize::{Allow, sanitize};
use dom_trees::tree::Tree;

/// Leaves only what the lists allow. If memory runs out, the tree is as it was.
pub fn keep_allowed(document: &mut Document, allow: &Allow<'_>) -> Result<(), OutOfMemory>
    ensures ok { OnOk result (AreAllowed (lists_of allow.now) document.new.tree) }
    ensures err { OnErr result (document.new.tree ≡ document.old.tree) }
{
    what_is_left_is_allowed();
    sanitize(document, allow)?;
    is_forest(&document.tree);
    Ok(())
}

/// Every tree is a well-formed forest. The function does nothing at run time.
fn is_forest(tree: &Tree)
    ensures { IsForest tree.now }
{
    let _ = tree.nodes();
}
