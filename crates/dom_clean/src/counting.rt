//! Counts of what a policy takes out, by name.

ghost use Rattle.std.specs.Prelude.{◌≡◌, ◌++◌, ◌∷◌, [], IfOk, OnOk, codes, map, string_bytes};
ghost use Rattle.dom_clean.specs.Counts.{AddsOne, Counts, CountsOne, line_of, lines_by, lines_of};
ghost use Rattle.dom_clean.specs.Removals.{removal_of};

use crate::removals::Removed;
use dom_nodes::fault::OutOfMemory;
use std::alloc::Global;
use std::collections::BTreeMap;

/// How often each name was taken out. A name that wasn't isn't in the map.
#[derive(Drop)]
pub struct RemovedCounts {
    /// Elements that were unwrapped, or that are gone with everything in them.
    pub elements: BTreeMap<String, usize>,
    /// Attributes of elements that stay.
    pub attributes: BTreeMap<String, usize>,
    /// Attributes of elements that stay, whose addresses are refused.
    pub addresses: BTreeMap<String, usize>,
}

/// Counts what was taken out, by name. Fails only if memory is refused.
pub fn count_removed(alloc: Global, removed: &[Removed]) -> Result<RemovedCounts, OutOfMemory>
    ensures { IfOk result (λ counts. Counts (map removal_of removed.now) counts) }
{
    let mut counts = RemovedCounts {
        elements: BTreeMap::new(alloc),
        attributes: BTreeMap::new(alloc),
        addresses: BTreeMap::new(alloc),
    };
    for at in 0..removed.len() {
        count_one(alloc, &mut counts, &removed[at])?;
    }
    Ok(counts)
}

/// Counts one thing that was taken out.
fn count_one(alloc: Global, counts: &mut RemovedCounts, one: &Removed) -> Result<(), OutOfMemory>
    ensures { OnOk result (CountsOne (removal_of one.now) counts.old counts.new) }
{
    match one {
        Removed::Element(name) => add_one(alloc, &mut counts.elements, name.as_str()),
        Removed::Attribute(name) => add_one(alloc, &mut counts.attributes, name.as_str()),
        Removed::Address(name) => add_one(alloc, &mut counts.addresses, name.as_str()),
    }
}

/// Adds one to the number of a name. The numbers are at most that of what was taken out, for which
/// there was memory, so each is less than the greatest `usize`.
fn add_one(
    alloc: Global,
    counts: &mut BTreeMap<String, usize>,
    name: &str,
) -> Result<(), OutOfMemory>
    ensures { OnOk result (AddsOne name.now counts.old counts.new) }
{
    let before = counts.get(name).copied().unwrap_or(0);
    let Some(count) = before.checked_add(1) else {
        return Err(OutOfMemory);
    };
    let Ok(name) = String::from_str(alloc, name) else {
        return Err(OutOfMemory);
    };
    match counts.insert(name, count) {
        Ok(_) => Ok(()),
        Err(_) => Err(OutOfMemory),
    }
}

/// Returns a line for each name that was taken out: `element`, `attribute` or `address`, a space, the
/// name, a space, and how often. The elements come first, then the attributes, then the addresses,
/// and the names of each kind in the order of their bytes. Fails only if memory is refused.
pub fn removed_lines(alloc: Global, counts: &RemovedCounts) -> Result<String, OutOfMemory>
    ensures { IfOk result (λ text. string_bytes text ≡ lines_of counts.now) }
{
    let mut text = String::new(alloc);
    push_lines(&mut text, "element", &counts.elements)?;
    push_lines(&mut text, "attribute", &counts.attributes)?;
    push_lines(&mut text, "address", &counts.addresses)?;
    Ok(text)
}

/// Pushes the lines of one kind.
fn push_lines(
    text: &mut String,
    kind: &str,
    counts: &BTreeMap<String, usize>,
) -> Result<(), OutOfMemory>
    ensures { OnOk result (string_bytes text.new
        ≡ string_bytes text.old ++ lines_by kind.now counts.now.entries) }
{
    for (name, count) in counts.iter() {
        push_line(text, kind, name.as_str(), *count)?;
    }
    Ok(())
}

fn push_line(text: &mut String, kind: &str, name: &str, count: usize) -> Result<(), OutOfMemory>
    ensures { OnOk result (string_bytes text.new
        ≡ string_bytes text.old ++ line_of kind.now name.now count) }
{
    let line = format!(in *text.allocator(); "{kind} {name} {count}\n")?;
    text.push_str(line.as_str())?;
    Ok(())
}
