//! The removal of attributes that aren't allowed.

ghost use Rattle.std.specs.Prelude.{◌≡◌};
ghost use Rattle.dom_sanitize.specs.Clean.{listed};
ghost use Rattle.dom_sanitize.specs.Plan.{EachStep, IsKnown, all_done, clear_one};

use crate::plan::Step;
use dom_nodes::node_data::Change;
use dom_trees::tree::Tree;

/// Removes the attributes that aren't allowed from each element that stays.
pub(crate) fn clear_attrs(tree: &mut Tree, steps: &[Step], names: &[&str])
    requires { EachStep (IsKnown tree.old) steps.now }
    ensures { tree.new ≡ all_done (clear_one (listed names.entry)) steps.now tree.old }
{
    let mut rest = steps;
    while let Some((last, front)) = rest.split_last() {
        clear_one(tree, *last, names);
        rest = front;
    }
}

/// Removes the attributes that aren't allowed from the element of this step, if it stays.
fn clear_one(tree: &mut Tree, step: Step, names: &[&str])
    requires { IsKnown tree.old step }
    ensures { tree.new ≡ clear_one (listed names.entry) step tree.old }
{
    if step.home.is_some() {
        let _ = tree.try_change_of(&step.id, Change::RetainAttrs(names));
    }
}
