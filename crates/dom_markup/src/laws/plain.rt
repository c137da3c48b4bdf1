//! Laws about plain documents, whose HTML is parsed as the same document again.

ghost use Rattle.std.specs.Prelude.{◌≡◌, ℕ, List};
ghost use Rattle.std.specs.Str.{IsUtf8};
ghost use Rattle.dom_links.specs.Forest.{Forest, children_of};
ghost use Rattle.dom_links.specs.Sound.{IsForest};
ghost use Rattle.dom_links.specs.Trees.{trees};
ghost use Rattle.dom_markup.specs.ReadingBack.{LacksIdentifiers, SpellsDocument, SpellsItsTrees};
ghost use Rattle.dom_markup.specs.ReadingBack.{NodesAreWrittenAsTrees, DocumentIsWrittenAsTrees};
ghost use Rattle.dom_markup.specs.ReadingBack.{AreSameByTrees};
ghost use Rattle.dom_markup.specs.Plain.{HaveNoIdentifiers, IsPlain, Represents};
ghost use Rattle.dom_markup.specs.Html.{html_of, inner_html_of};
ghost use Rattle.dom_markup.specs.Markup.{Spells};
ghost use Rattle.dom_markup.specs.Numbered.{document_of};
ghost use Rattle.dom_markup.specs.ValueTrees.{ValueTrees};
ghost use Rattle.dom_trees.specs.SameTree.{SameTree};

use crate::laws::one_reading;
use dom_links::laws::trees_of_a_forest;
use dom_nodes::node_data::NodeData;

/// The HTML of nodes is the HTML of the value trees that they represent. The same is true of a
/// whole document.
pub fn html_of_trees()
    ensures nodes { (forest : Forest) → IsForest forest → NodesAreWrittenAsTrees forest }
    ensures document { (forest : Forest) → IsForest forest → DocumentIsWrittenAsTrees forest }
{
    // Laws are called for their contracts alone; they do nothing.
    trees_of_a_forest();
}

/// The HTML of a plain document is markup for the value trees below its root.
pub fn plain_reads_back()
    ensures { (forest : Forest) → IsForest forest → IsPlain forest → SpellsItsTrees forest }
{
    trees_of_a_forest();
}

/// A parsed document is plain, if no doctype has an identifier.
pub fn what_is_read_is_plain()
    ensures { (text : List ℕ) (trees : ValueTrees) → IsUtf8 text → Spells text trees
        → HaveNoIdentifiers trees → IsPlain (document_of trees) }
{}

/// The nodes below the root of a document that is made from value trees represent these value
/// trees.
pub fn documents_stand_for_their_trees()
    ensures { (t : ValueTrees) → Represents (document_of t) (children_of (document_of t) 0) t }
{}

/// A list of nodes represents at most one list of value trees.
pub fn one_meaning()
    ensures { (f : Forest) (ns : List ℕ) (a b : ValueTrees) → Represents f ns a → Represents f ns b
        → a ≡ b }
{}

/// Two documents whose nodes below the root represent the same value trees are the same tree, apart
/// from node ids and the like (`SameTree`).
pub fn documents_of_the_same_trees()
    ensures { (one other : Forest) → IsForest one → IsForest other → AreSameByTrees one other }
{
    trees_of_a_forest();
}

/// The HTML of a plain document's root, and that of its children, is markup whose tree is the same.
pub fn plain_documents_are_spelled()
    ensures root { (f : Forest) → IsForest f → IsPlain f → SpellsDocument (html_of f 0) f }
    ensures children { (f : Forest) → IsForest f → IsPlain f
        → SpellsDocument (inner_html_of f 0) f }
{
    trees_of_a_forest();
}

/// A parsed document is plain, if it has no doctype with an identifier.
pub fn documents_without_identifiers_are_plain()
    ensures { (text : List ℕ) (trees : ValueTrees) → IsUtf8 text → Spells text trees
        → LacksIdentifiers (document_of trees) → IsPlain (document_of trees) }
{
    what_is_read_is_plain();
}

/// If a text is markup for a document, it is markup for no other tree.
pub fn spelled_documents_are_the_same()
    ensures { (text : List ℕ) (forest : Forest) (trees : ValueTrees) → SpellsDocument text forest
        → Spells text trees → SameTree forest 0 (document_of trees) 0 }
{
    one_reading();
}

/// The document made from any value trees is a well-formed forest.
pub fn documents_are_forests()
    ensures { (trees : ValueTrees) → IsForest (document_of trees) }
{}
