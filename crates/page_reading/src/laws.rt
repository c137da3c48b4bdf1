//! A law about pages. The function does nothing; its contract is the theorem.

ghost use Rattle.std.specs.Prelude.{◌⊎◌, codes, find};
ghost use Rattle.page_trees.specs.Shape.{IsFound, IsPage};
ghost use Rattle.dom_links.specs.Forest.{Forest, children_of};
ghost use Rattle.dom_links.specs.ListMoves.{element_at};
ghost use Rattle.dom_trees.specs.Views.{page_part};

/// For a page, `html_root` and `head` return elements with these names. `body` does so too, unless
/// the page has a `frameset` in its place.
pub fn pages_have_parts()
    ensures html_root { (page : Forest) → IsPage page
        → IsFound page (codes "html") (find (element_at page) (children_of page 0)) }
    ensures head { (page : Forest) → IsPage page
        → IsFound page (codes "head") (page_part page (codes "head")) }
    ensures body { (page : Forest) → IsPage page
        → IsFound page (codes "body") (page_part page (codes "body"))
        ⊎ IsFound page (codes "frameset") (page_part page (codes "frameset")) }
{}
