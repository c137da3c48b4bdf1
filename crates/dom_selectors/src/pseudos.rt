//! The pseudo-classes by name, and the simple selectors that they stand for.

ghost use Rattle.std.specs.Prelude.{◌≡◌, ◌||◌};
ghost use Rattle.dom_selectors.specs.Pseudos.{bare_item, bare_of, first_of, index_kind_of};
ghost use Rattle.dom_selectors.specs.Pseudos.{is_relative, is_state, is_word, place_of, pseudo_of};
ghost use Rattle.dom_selectors.specs.Pseudos.{quantified, quantifier_of, text_part, text_test_of};
ghost use Rattle.dom_selectors.specs.ValuesAsTrees.{read_item, read_list, read_nested};

use crate::syntax::{Bare, Item, Nested, Part, Position, Pseudo, Quantifier, Selector, TextTest};
use dom_nodes::indexes::{IndexKind, Nth, Signed};
use dom_nodes::text::Text;

fn is_word(name: &str, word: &str) -> bool
    ensures { result ≡ is_word name.now word.now }
{
    name.eq_ignore_ascii_case(word)
}

fn is_one_of(name: &str, one: &str, other: &str) -> bool
    ensures { result ≡ (is_word name.now one.now || is_word name.now other.now) }
{
    is_word(name, one) || is_word(name, other)
}

/// Returns whether the name is that of a state that no node of a tree has, such as `:hover`.
fn is_state(name: &str) -> bool
    ensures { result ≡ is_state name.now }
{
    is_word(name, "visited")
        || is_word(name, "active")
        || is_word(name, "focus")
        || is_word(name, "hover")
        || is_word(name, "enabled")
        || is_word(name, "disabled")
        || is_word(name, "checked")
        || is_word(name, "indeterminate")
}

fn place_of(name: &str) -> Option<Bare>
    ensures { result ≡ place_of name.now }
{
    if is_word(name, "first-child") {
        return Some(Bare::First(IndexKind::Child));
    }
    if is_word(name, "last-child") {
        return Some(Bare::First(IndexKind::LastChild));
    }
    if is_word(name, "only-child") {
        return Some(Bare::Only(IndexKind::Child, IndexKind::LastChild));
    }
    if is_word(name, "first-of-type") {
        return Some(Bare::First(IndexKind::OfType));
    }
    if is_word(name, "last-of-type") {
        return Some(Bare::First(IndexKind::LastOfType));
    }
    if is_word(name, "only-of-type") {
        return Some(Bare::Only(IndexKind::OfType, IndexKind::LastOfType));
    }
    None
}

fn bare_of(name: &str) -> Option<Bare>
    ensures { result ≡ bare_of name.now }
{
    if is_one_of(name, "root", "scope") {
        return Some(Bare::Root);
    }
    if is_one_of(name, "link", "any-link") {
        return Some(Bare::Link);
    }
    if is_word(name, "empty") {
        return Some(Bare::Empty);
    }
    if is_word(name, "only-text") {
        return Some(Bare::OnlyText);
    }
    if is_state(name) {
        return Some(Bare::Never);
    }
    place_of(name)
}

fn quantifier_of(name: &str) -> Option<Quantifier>
    ensures { result ≡ quantifier_of name.now }
{
    if is_one_of(name, "is", "where") {
        return Some(Quantifier::SomeOf);
    }
    if is_word(name, "not") {
        return Some(Quantifier::NoneOf);
    }
    if is_word(name, "has") {
        return Some(Quantifier::RelativeOf);
    }
    None
}

fn index_kind_of(name: &str) -> Option<IndexKind>
    ensures { result ≡ index_kind_of name.now }
{
    if is_word(name, "nth-child") {
        return Some(IndexKind::Child);
    }
    if is_word(name, "nth-last-child") {
        return Some(IndexKind::LastChild);
    }
    if is_word(name, "nth-of-type") {
        return Some(IndexKind::OfType);
    }
    if is_word(name, "nth-last-of-type") {
        return Some(IndexKind::LastOfType);
    }
    None
}

fn text_test_of(name: &str) -> Option<TextTest>
    ensures { result ≡ text_test_of name.now }
{
    if is_word(name, "has-text") {
        return Some(TextTest::InOne);
    }
    if is_word(name, "contains") {
        return Some(TextTest::InAll);
    }
    None
}

/// Returns the pseudo-class with this name.
pub(crate) fn pseudo_of(name: &str) -> Option<Pseudo>
    ensures { result ≡ pseudo_of name.now }
{
    if let Some(bare) = bare_of(name) {
        return Some(Pseudo::Plain(bare));
    }
    if let Some(quantifier) = quantifier_of(name) {
        return Some(Pseudo::Listed(quantifier));
    }
    if let Some(kind) = index_kind_of(name) {
        return Some(Pseudo::Nth(kind));
    }
    if let Some(test) = text_test_of(name) {
        return Some(Pseudo::Text(test));
    }
    None
}

/// Returns the simple selector for index 1.
fn first_of(kind: IndexKind) -> Part
    ensures { result ≡ first_of kind }
{
    let a = Signed {
        is_negative: false,
        magnitude: 0,
    };
    let b = Signed {
        is_negative: false,
        magnitude: 1,
    };
    let nth = Nth { a, b };
    Part::Position(Position { kind, nth })
}

/// Returns the simple selector that a pseudo-class without parentheses stands for.
pub(crate) fn bare_item(bare: Bare) -> Item
    ensures { read_item result ≡ bare_item bare }
{
    match bare {
        Bare::Root => Item::Simple(Part::Root),
        Bare::Link => Item::Simple(Part::Link),
        Bare::Never => Item::Simple(Part::Never),
        Bare::Empty => Item::Simple(Part::Empty),
        Bare::OnlyText => Item::Simple(Part::OnlyText),
        Bare::First(kind) => Item::Simple(first_of(kind)),
        Bare::Only(kind, other) => Item::Two(first_of(kind), first_of(other)),
    }
}

/// Returns whether the selectors in its list may start with a combinator.
pub(crate) fn is_relative(quantifier: Quantifier) -> bool
    ensures { result ≡ is_relative quantifier }
{
    match quantifier {
        Quantifier::SomeOf | Quantifier::NoneOf => false,
        Quantifier::RelativeOf => true,
    }
}

/// Returns the nested list of this pseudo-class.
pub(crate) fn quantified(quantifier: Quantifier, list: Vec<Selector>) -> Nested
    ensures { read_nested result ≡ quantified quantifier (read_list list.items) }
{
    match quantifier {
        Quantifier::SomeOf => Nested::Is(list),
        Quantifier::NoneOf => Nested::Not(list),
        Quantifier::RelativeOf => Nested::Has(list),
    }
}

/// Returns the simple selector for this string.
pub(crate) fn text_part(test: TextTest, text: Text) -> Part
    ensures { result ≡ text_part test text }
{
    match test {
        TextTest::InOne => Part::HasText(text),
        TextTest::InAll => Part::Contains(text),
    }
}
