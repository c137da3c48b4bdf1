//! Laws about selectors. The functions do nothing; their contracts are the theorems.

ghost use Rattle.dom_select.specs.Parts.{ContainsWhatItHas};
ghost use Rattle.dom_select.specs.Selected.{SelectsExactly, SelectsOneList};

pub use dom_selectors::laws::{one_mini_reading, one_reading, printed_string};

/// What a selector selects is determined: the definition allows one list of nodes only.
pub fn one_selection()
    ensures { SelectsOneList }
{}

/// A selector selects exactly the elements below the roots that it matches, each once.
pub fn selected_exactly()
    ensures { SelectsExactly }
{}

/// If one text at or below a node contains a text, then so do the concatenated texts: what
/// `:has-text` matches, `:contains` matches too.
pub fn contains_what_it_has()
    ensures { ContainsWhatItHas }
{}
