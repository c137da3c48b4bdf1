//! The moves: all nodes are detached first, then those that stay are put back.

ghost use Rattle.std.specs.Prelude.{◌≡◌};
ghost use Rattle.dom_sanitize.specs.Plan.{EachStep, IsKnown, MayPut, MayPutAll};
ghost use Rattle.dom_sanitize.specs.Plan.{all_done, cut_one, put_one};

use crate::plan::Step;
use dom_trees::tree::Tree;

/// Detaches the node of each step.
pub(crate) fn cut_out(tree: &mut Tree, steps: &[Step])
    requires { EachStep (IsKnown tree.old) steps.now }
    ensures { tree.new ≡ all_done cut_one steps.now tree.old }
{
    let mut rest = steps;
    while let Some((last, front)) = rest.split_last() {
        cut_one(tree, *last);
        rest = front;
    }
}

/// Detaches the node of a step.
fn cut_one(tree: &mut Tree, step: Step)
    requires { IsKnown tree.old step }
    ensures { tree.new ≡ cut_one step tree.old }
{
    let _ = tree.remove_from_parent(&step.id);
}

/// Puts back the nodes that stay, from the last one to the first, so that a node has its children
/// before it is put below another node.
pub(crate) fn put_back(tree: &mut Tree, steps: &[Step])
    requires { MayPutAll tree.old steps.now }
    ensures { tree.new ≡ all_done put_one steps.now tree.old }
{
    let mut rest = steps;
    while let Some((last, front)) = rest.split_last() {
        put_one(tree, *last);
        rest = front;
    }
}

/// Puts a node that stays before the other children of its new parent.
fn put_one(tree: &mut Tree, step: Step)
    requires { MayPut tree.old step }
    ensures { tree.new ≡ put_one step tree.old }
{
    if let Some(home) = step.home {
        let _ = tree.prepend_child_of(&home, &step.id);
    }
}
