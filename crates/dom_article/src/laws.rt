//! What follows from the definition of an article. A call of such a function does nothing at run
//! time; it brings its `ensures` clauses into the caller's proof.

ghost use Rattle.std.specs.Prelude.{◌≡◌, ℕ, Bool, List, true};
ghost use Rattle.dom_article.specs.Pruned.{IsExtract, marked};
ghost use Rattle.dom_article.specs.Texts.{IsSubsequence, kept_nodes, kept_text};
ghost use Rattle.dom_links.specs.Forest.{Forest};
ghost use Rattle.dom_links.specs.Lists.{is_member};
ghost use Rattle.dom_links.specs.Texts.{text_of};

/// The text of an article is the text at and below its root with parts left out: no character is
/// added, and their order is kept. All nodes that an article marks are nodes of it.
pub fn text_of_an_article()
    ensures text { (forest : Forest) (root : ℕ) (marks : List Bool)
        → IsSubsequence (kept_text forest root marks) (text_of forest root) }
    ensures nodes { (forest : Forest) (root : ℕ) (marks : List Bool) → IsExtract forest root marks
        → (n : ℕ) → marked marks n ≡ true → is_member n (kept_nodes forest root marks) ≡ true }
{}
