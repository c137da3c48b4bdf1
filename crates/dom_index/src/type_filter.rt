//! A byte for the type of each node, and filters by it.

ghost use Rattle.std.specs.Prelude.{◌≡◌, ◌<◌, length, true, IfSome};
ghost use Rattle.dom_links.specs.ListMoves.{element_at};
ghost use Rattle.dom_selectors.specs.ValuesAsTrees.{read_compound};
ghost use Rattle.dom_index.specs.TypeBytes.{HaveKnownTypes, IsDecidedByByte, IsDecidedByType};
ghost use Rattle.dom_index.specs.TypeBytes.{IsFilteredByType, IsNumberOf, IsOnePart};
ghost use Rattle.dom_index.specs.TypeBytes.{IsTypeFilterOf, is_type_byte};

use crate::preorder::Preorder;
use dom_nodes::node_data::NodeData;
use dom_selectors::selector_name::SelectorName;
use dom_selectors::syntax::{Compound, Part};

/// The byte of an element whose name isn't in the table of known names.
pub(crate) const UNKNOWN: u8 = 254;

/// The byte of a node that is no element.
pub(crate) const NO_ELEMENT: u8 = 255;

/// Returns the type byte of a node: the index of its name in the table of known names, if it is
/// there, and otherwise `UNKNOWN` or `NO_ELEMENT`.
pub(crate) fn type_byte(node: &NodeData) -> u8
    ensures { is_type_byte node.now result ≡ true }
{
    let NodeData::Element(element) = node else {
        return NO_ELEMENT;
    };
    match element.name().local().number() {
        Some(number) => number,
        None => UNKNOWN,
    }
}

/// Returns whether the node with this id is an element.
pub(crate) fn is_element_at(preorder: &Preorder<'_>, n: usize) -> bool
    requires { n < length preorder.now.tree.now.content }
    ensures { result ≡ element_at preorder.now.tree.now n }
{
    preorder.type_bytes[n] != NO_ELEMENT
}

/// The index of the name in a compound selector's type selector, and whether the compound selector
/// has no other part.
#[derive(Clone, Copy)]
pub(crate) struct TypeFilter {
    pub(crate) number: u8,
    pub(crate) is_all: bool,
}

/// Returns the number of the name that elements of every namespace need to match a type selector
/// with this name.
fn type_number(name: &SelectorName) -> Option<u8>
    ensures { IfSome result (IsNumberOf name.now) }
{
    let folded = name.folded();
    if folded.as_str() != name.as_str() {
        return None;
    }
    folded.number()
}

/// Returns the filter for the type selector with which the compound selector starts, if its name is
/// in the table of known names.
pub(crate) fn type_filter_of(compound: &Compound) -> Option<TypeFilter>
    ensures { IfSome result (IsTypeFilterOf (read_compound compound.now)) }
{
    let Some(Part::Type(name)) = compound.parts.first() else {
        return None;
    };
    let number = type_number(name)?;
    let is_all = is_one_part(compound);
    Some(TypeFilter { number, is_all })
}

/// Returns whether the compound selector is one simple selector and nothing else.
fn is_one_part(compound: &Compound) -> bool
    ensures { result ≡ true → IsOnePart compound.now }
{
    if !compound.nested.is_empty() {
        return false;
    }
    compound.parts.len() == 1
}

/// Removes the nodes whose byte is neither this index nor `UNKNOWN`.
pub(crate) fn intersect_type(table: &mut Vec<bool>, bytes: &[u8], number: u8)
    requires { length bytes.now ≡ length table.old.items }
    ensures { IsFilteredByType bytes.now number table.new.items table.old.items }
{
    let cells = table.as_mut_slice();
    for n in 0..cells.len() {
        let byte = bytes[n];
        cells[n] = cells[n] & ((byte == number) | (byte == UNKNOWN));
    }
}

/// Returns whether the names of all nodes in the set are in the table of known names.
pub(crate) fn have_known_types(table: &[bool], bytes: &[u8]) -> bool
    requires { length bytes.now ≡ length table.now }
    ensures { result ≡ true → HaveKnownTypes bytes.now table.now (length table.now) }
{
    let mut unknown = false;
    for n in 0..table.len() {
        unknown = unknown | (table[n] & (bytes[n] == UNKNOWN));
    }
    !unknown
}

/// Returns whether a compound selector with this type filter matches a node, if the node's type
/// byte decides that.
#[inline(always)]
pub(crate) fn decided(byte: u8, wanted: Option<TypeFilter>) -> Option<bool>
    ensures { IfSome result (IsDecidedByByte byte wanted) }
{
    let wanted = wanted?;
    if byte == UNKNOWN {
        return None;
    }
    if byte != wanted.number {
        return Some(false);
    }
    if !wanted.is_all {
        return None;
    }
    Some(true)
}

/// Returns the answer of `decided` for the node with this id.
pub(crate) fn decided_by_type(
    preorder: &Preorder<'_>,
    n: usize,
    wanted: Option<TypeFilter>,
) -> Option<bool>
    requires { n < length preorder.now.tree.now.content }
    ensures { IfSome result (IsDecidedByType preorder.now.tree.now n wanted) }
{
    decided(preorder.type_bytes[n], wanted)
}
