//! A law about paths. The function does nothing; its contract is the theorem.

ghost use Rattle.std.specs.Prelude.{◌<◌, ℕ, List, length};
ghost use Rattle.dom_links.specs.Forest.{Forest};
ghost use Rattle.dom_links.specs.Sound.{IsForest};
ghost use Rattle.dom_mini.specs.MiniPaths.{AreLedTo, IsFound};
ghost use Rattle.dom_selectors.specs.MiniSyntax.{Mini};

use dom_links::laws::{lines_of_a_forest, trees_of_a_forest};

/// A path finds exactly the nodes that it reaches from the node, each once.
pub fn found_exactly()
    ensures { (minis : List Mini) (forest : Forest) (x : ℕ) (found : List ℕ) → IsForest forest
        → x < length forest.content → IsFound minis forest x found
        → AreLedTo minis forest x found }
{
    lines_of_a_forest();
    trees_of_a_forest();
}
