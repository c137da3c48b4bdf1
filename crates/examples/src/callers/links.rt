//! The links below a node: the result is exactly what the selector selects.

ghost use Rattle.std.specs.Prelude.{◌∷◌, [], IfOk};
ghost use Rattle.dom_select.specs.Selected.{Selected};

use dom_nodes::fault::OutOfMemory;
use dom_nodes::node_id::NodeId;
use dom_select::matcher::Matcher;
use dom_select::matcher::descendants::select_below;
use dom_trees::tree::Tree;

/// Returns the links below a node.
pub fn links(tree: &Tree, root: &NodeId, link: &Matcher) -> Result<Vec<NodeId>, OutOfMemory>
    ensures { IfOk result (λ ids. Selected tree.now (root.now ∷ []) link.now ids.items) }
{
    select_below(tree, root, link)
}
