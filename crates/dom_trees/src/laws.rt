//! Facts about every tree, which the crates above use in their proofs. Each function does nothing
//! at run time: a call of it brings its `ensures` clauses into the caller's proof.

ghost use Rattle.std.specs.Prelude.{ℕ, List};
ghost use Rattle.dom_links.specs.Copies.{MayCopy, copied, copy_numbers};
ghost use Rattle.dom_links.specs.Forest.{Forest};
ghost use Rattle.dom_links.specs.Sound.{IsForest};
ghost use Rattle.dom_trees.specs.SameTree.{SameTrees};

use dom_links::laws::copies_of_a_forest;

/// Copies are the same trees as the nodes that were copied: equal in everything but ids, attribute
/// prefixes and the MathML flag.
pub fn copies_are_the_same_trees()
    ensures { (source : Forest) (ns : List ℕ) (forest : Forest) → IsForest source → IsForest forest
        → MayCopy source ns
        → SameTrees source ns (copied source ns forest) (copy_numbers source ns forest) }
{
    // Called for its contract; the function has an empty body, so the call costs nothing.
    copies_of_a_forest();
}
