//! Counts of the elements of each type.

ghost use Rattle.std.specs.Prelude.{◌≡◌};
ghost use Rattle.dom_nodes.specs.Names.{namespace_of};
ghost use Rattle.dom_select.specs.TypeCounts.{CountsOne, name_of, namespace_in};

use dom_nodes::name::{NameRef, NamespaceRef};
use std::collections::BTreeMap;

/// How many elements of each type were counted.
pub(crate) type TypeCounts<'t> = BTreeMap<TypeName<'t>, u32>;

/// A borrowed type name as a key. Two keys are equal exactly if `QualName::is_same` says so. The
/// local names are compared first, since they differ most often.
#[derive(Clone, Copy, PartialEq, Eq, PartialOrd, Ord)]
pub(crate) struct TypeName<'t> {
    local: &'t str,
    namespace: TypeNamespace<'t>,
    prefix: Option<&'t str>,
}

/// A `NamespaceRef` with an order.
#[derive(Clone, Copy, PartialEq, Eq, PartialOrd, Ord)]
enum TypeNamespace<'t> {
    None,
    Html,
    Svg,
    MathMl,
    XLink,
    Xml,
    XmlNs,
    Other(&'t str),
}

impl<'t> TypeName<'t> {
    /// Returns the name as a key.
    pub(crate) fn of(name: &NameRef<'t>) -> TypeName<'t>
        ensures { name_of result ≡ name.now }
    {
        TypeName {
            local: name.local().as_str(),
            namespace: namespace_in(name.ns()),
            prefix: name.prefix(),
        }
    }
}

fn namespace_in(namespace: NamespaceRef<'_>) -> TypeNamespace<'_>
    ensures { namespace_in result ≡ namespace_of namespace.entry }
{
    match namespace {
        NamespaceRef::None => TypeNamespace::None,
        NamespaceRef::Html => TypeNamespace::Html,
        NamespaceRef::Svg => TypeNamespace::Svg,
        NamespaceRef::MathMl => TypeNamespace::MathMl,
        NamespaceRef::XLink => TypeNamespace::XLink,
        NamespaceRef::Xml => TypeNamespace::Xml,
        NamespaceRef::XmlNs => TypeNamespace::XmlNs,
        NamespaceRef::Other(name) => TypeNamespace::Other(name),
    }
}

/// Counts one more element of the type, and returns how many there are. Returns `None` if memory
/// runs out, or if a `u32` can't hold the number.
pub(crate) fn count_one<'t>(counts: &mut TypeCounts<'t>, name: TypeName<'t>) -> Option<u32>
    ensures { CountsOne counts.old counts.new name.entry result }
{
    let before = counts.get(&name).copied().unwrap_or(0);
    let count = before.checked_add(1)?;
    match counts.insert(name, count) {
        Ok(_) => Some(count),
        Err(_) => None,
    }
}
