//! The types of the elements that selectors can match, by the indexes of their names in the table
//! of known names.

ghost use Rattle.std.specs.Prelude.{◌≡◌, false, true, IfSome, MatchBool};
ghost use Rattle.dom_nodes.specs.Kinds.{is_element};
ghost use Rattle.dom_selectors.specs.ValuesAsTrees.{read_list};
ghost use Rattle.dom_select.specs.Subjects.{MayBeSubject, MayBear, SubjectIsAmong};

use crate::matcher::matches::subject_type;
use dom_nodes::node_data::NodeData;
use dom_selectors::syntax::Selector;

/// Returns a flag for each index of a known name: an HTML element that the selectors match has a
/// name whose flag is set. Returns `None` if some selector doesn't end in a type selector, or in
/// one whose name isn't in the table.
pub(crate) fn subject_types(selectors: &[Selector]) -> Option<[bool; 256]>
    ensures { IfSome result (λ types. SubjectIsAmong types (read_list selectors.now)) }
{
    let mut types = [false; 256];
    for selector in selectors {
        let name = subject_type(&selector.first, &selector.rest)?;
        let number = name.folded().number()?;
        types[number as usize] = true;
    }
    Some(types)
}

/// Returns whether the node is an element that can have one of the types, if any are known: the
/// flag of its name is set, or its name isn't in the table, or it is not in the HTML namespace.
#[inline(always)]
pub(crate) fn may_be_subject(types: &Option<[bool; 256]>, node: &NodeData) -> bool
    ensures { MatchBool result (is_element node.now ≡ true) (MayBeSubject types.now node.now → ⊥) }
{
    if !node.is_element() {
        return false;
    }
    match types {
        Some(types) => may_bear(types, node),
        None => true,
    }
}

#[inline(always)]
fn may_bear(types: &[bool; 256], node: &NodeData) -> bool
    ensures { result ≡ false → MayBear types.now node.now → ⊥ }
{
    let NodeData::Element(element) = node else {
        return false;
    };
    match element.name().html_number() {
        Some(number) => types[number as usize],
        None => true,
    }
}
