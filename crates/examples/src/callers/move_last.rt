//! A move that may be refused.

ghost use Rattle.std.specs.Prelude.{◌≡◌, ◌∷◌, [], MatchBool};
ghost use Rattle.dom_links.specs.Moves.{moved_to};
ghost use Rattle.dom_links.specs.declared.gap.InsertionPoint.TheVariants.{EndOf};

use dom_nodes::node_id::NodeId;
use dom_trees::tree::Tree;

/// Moves a node to the end of the children of another one, if that is allowed, and returns whether
/// it was.
pub fn move_last(tree: &mut Tree, parent: &NodeId, node: &NodeId) -> bool
    ensures { MatchBool result
        (tree.new ≡ moved_to (node.now ∷ []) (EndOf parent.now) tree.old)
        (tree.new ≡ tree.old) }
{
    match tree.append_child_of(parent, node) {
        Ok(()) => true,
        Err(_) => false,
    }
}
