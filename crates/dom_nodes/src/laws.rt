//! Facts about node ids, names, attributes and classes, which the crates above use in their proofs.
//! Each function has an empty body: a call of it costs nothing and brings its `ensures` clauses
//! into the caller's proof.

ghost use Rattle.std.specs.Prelude.{◌≡◌, ◌==◌, ◌&&◌, ℕ, List, false, None, Some};
ghost use Rattle.std.specs.Hash.{u32 as hashed_u32};
ghost use Rattle.std.specs.Ordering.{nat_cmp};
ghost use Rattle.std.specs.Str.{bytes_eq};
ghost use Rattle.dom_nodes.specs.declared.name.Attr.{Attr};
ghost use Rattle.dom_nodes.specs.Attrs.{attr_of};
ghost use Rattle.dom_nodes.specs.Changes.{with_attr, without_name};
ghost use Rattle.dom_nodes.specs.Classes.{is_blank, with_classes, without_classes, words_with};
ghost use Rattle.dom_nodes.specs.Classes.{words_without};
ghost use Rattle.dom_nodes.specs.Names.{same_name};
ghost use Rattle.dom_nodes.specs.Words.{class_words, words_of};

use crate::name::{Attr, QualName};
use crate::node_id::NodeId;
use std::hash::Hash;

/// Comparing, ordering and hashing node ids is comparing, ordering and hashing their numbers.
pub fn comparisons_of_numbers(id: NodeId, other: NodeId)
    ensures eq { ⟦<NodeId as PartialEq>⟧.eq id other ≡ (id == other) }
    ensures cmp { ⟦<NodeId as Ord>⟧.cmp id other ≡ nat_cmp id other }
    ensures partial_cmp { ⟦<NodeId as PartialOrd>⟧.partial_cmp id other ≡ Some (nat_cmp id other) }
    ensures hash { ⟦<NodeId as Hash>⟧.hash_input id ≡ hashed_u32 id }
{}

/// Two names are `==` exactly when prefix, namespace and local name are equal.
pub fn comparisons_of_names(name: &QualName, other: &QualName)
    ensures { ⟦<QualName as PartialEq>⟧.eq name.now other.now ≡ same_name name.now other.now }
{}

/// Two attributes are `==` exactly when their names and their values are equal.
pub fn comparisons_of_attributes(attr: &Attr, other: &Attr)
    ensures { ⟦<Attr as PartialEq>⟧.eq attr.now other.now
        ≡ (same_name attr.now.name other.now.name && bytes_eq attr.now.value other.now.value) }
{}

/// An attribute that was set has the new value; attributes of other names keep theirs; an attribute
/// that was removed is absent.
pub fn values_after_changes()
    ensures set { (name value : List ℕ) (attrs : List Attr)
        → attr_of (with_attr name value attrs) name ≡ Some value }
    ensures kept { (name other value : List ℕ) (attrs : List Attr) → bytes_eq name other ≡ false
        → attr_of (with_attr name value attrs) other ≡ attr_of attrs other }
    ensures removed { (name : List ℕ) (attrs : List Attr)
        → attr_of (without_name name attrs) name ≡ None }
{}

/// Which classes an element has after words are added to its classes or removed from them, if the
/// text with these words isn't blank.
pub fn classes_after_changes()
    ensures added { (text : List ℕ) (attrs : List Attr) → is_blank text ≡ false
        → class_words (with_classes text attrs) ≡ words_with (class_words attrs) (words_of text) }
    ensures removed { (text : List ℕ) (attrs : List Attr) → is_blank text ≡ false
        → class_words (without_classes text attrs)
        ≡ words_without (class_words attrs) (words_of text) }
{}
