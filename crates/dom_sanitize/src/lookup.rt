//! Looking up names of an allow-list. The names of elements are put into sets, since a list may be
//! long and each element is looked up.

ghost use Rattle.std.specs.Prelude.{◌≡◌, IfOk, OnOk};
ghost use Rattle.dom_nodes.specs.Words.{is_among};
ghost use Rattle.dom_sanitize.specs.Clean.{listed, lists_of};
ghost use Rattle.dom_sanitize.specs.Sets.{Gains, IsSetOf};

use crate::sanitize::Allow;
use dom_nodes::fault::OutOfMemory;
use std::alloc::Global;
use std::collections::BTreeSet;
use std::marker::Model;

/// An allow-list, with sets of the names of elements. In a contract it is the three lists.
#[derive(Drop)]
pub(crate) struct Lookup<'a> {
    allow: Allow<'a>,
    elements: BTreeSet<String>,
    dropped: BTreeSet<String>,
}

impl<'a> Model for Lookup<'a> {
    ghost use Rattle.dom_sanitize.specs.Clean.{Lists, lists_of};
    ghost use Rattle.dom_sanitize.specs.Sets.{HasSets};

    ghost Value = { Lists };

    ghost view = { λ lookup. lists_of lookup.allow };

    ghost invariant = { λ lookup. HasSets (lists_of lookup.allow) lookup.elements lookup.dropped };
}

impl<'a> Lookup<'a> {
    /// Returns the lookup of an allow-list. It fails with `OutOfMemory` when memory is refused.
    pub(crate) fn new(alloc: Global, allow: Allow<'a>) -> Result<Lookup<'a>, OutOfMemory>
        ensures { IfOk result (λ lookup. lookup ≡ lists_of allow.entry) }
    {
        let elements = set_of(alloc, allow.elements)?;
        let dropped = set_of(alloc, allow.drop)?;
        Ok(Lookup {
            allow,
            elements,
            dropped,
        })
    }

    /// Returns whether elements with this local name are allowed.
    pub(crate) fn allows(&self, name: &str) -> bool
        ensures { result ≡ is_among name.now self.now.elements }
    {
        self.elements.contains(name)
    }

    /// Returns whether elements with this local name are dropped.
    pub(crate) fn drops(&self, name: &str) -> bool
        ensures { result ≡ is_among name.now self.now.drop }
    {
        self.dropped.contains(name)
    }
}

/// Returns the set of these names.
fn set_of(alloc: Global, names: &[&str]) -> Result<BTreeSet<String>, OutOfMemory>
    ensures { IfOk result (λ set. IsSetOf set (listed names.entry)) }
{
    let mut set = BTreeSet::new(alloc);
    for name in names {
        add(alloc, &mut set, name)?;
    }
    Ok(set)
}

/// Inserts a name into a set.
fn add(alloc: Global, set: &mut BTreeSet<String>, name: &str) -> Result<(), OutOfMemory>
    ensures { OnOk result (Gains name.now set.old set.new) }
{
    let name = String::from_str(alloc, name)?;
    set.insert(name)?;
    Ok(())
}
