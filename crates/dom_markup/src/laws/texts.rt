//! A law about joining adjacent texts.

ghost use Rattle.std.specs.Prelude.{◌<◌, ℕ, length};
ghost use Rattle.dom_links.specs.Forest.{Forest};
ghost use Rattle.dom_links.specs.Normalized.{normalized};
ghost use Rattle.dom_links.specs.Sound.{IsForest};
ghost use Rattle.dom_markup.specs.Joining.{HasUtf8Texts, WritesAlike};

use dom_links::laws::joining_keeps_readings;

/// Joining adjacent texts below a node changes neither its outer nor its inner HTML.
pub fn joining_keeps_the_html()
    ensures { (x : ℕ) (forest : Forest) → IsForest forest → x < length forest.content
        → HasUtf8Texts forest → WritesAlike x (normalized x forest) forest }
{
    joining_keeps_readings();
}
