//! Names, schemes and classes that rules list.

ghost use Rattle.std.specs.Prelude.{◌≡◌, ◌&&◌, ◌++◌, ◌∷◌, [], OnOk, map, option_copied};
ghost use Rattle.std.specs.Prelude.{string_bytes};
ghost use Rattle.std.specs.Str.{bytes_eq};
ghost use Rattle.dom_clean.specs.Policies.{own_of};
ghost use Rattle.dom_clean.specs.Policy.{own_attribute, without, without_own};
ghost use Rattle.dom_nodes.specs.Words.{is_among};

use dom_nodes::fault::OutOfMemory;
use std::alloc::Global;
use url::Url;

/// An attribute of one element, and its values; any value where none are listed.
#[derive(Drop)]
pub(crate) struct OwnAttribute {
    pub(crate) element: String,
    pub(crate) attribute: String,
    pub(crate) values: Vec<String>,
}

/// What becomes of an address without a scheme.
#[derive(Drop)]
pub(crate) enum Relative {
    Kept,
    Dropped,
    /// It is joined to this base.
    Resolved(Url),
}

/// All that a policy says.
#[derive(Drop)]
pub(crate) struct Lists {
    pub(crate) elements: Vec<String>,
    pub(crate) dropped: Vec<String>,
    pub(crate) attributes: Vec<String>,
    pub(crate) own_attributes: Vec<OwnAttribute>,
    pub(crate) data_attributes: bool,
    pub(crate) schemes: Vec<String>,
    pub(crate) relative: Relative,
    pub(crate) rel: Option<String>,
    pub(crate) id_prefix: String,
    pub(crate) classes: Option<Vec<String>>,
    pub(crate) depth: usize,
}

/// Returns whether the text is one of the names.
pub(crate) fn is_among(text: &str, names: &[String]) -> bool
    ensures { result ≡ is_among text.now (map string_bytes names.now) }
{
    for name in names {
        if name.as_str() == text {
            return true;
        }
    }
    false
}

/// Appends a name. Fails if memory is refused.
pub(crate) fn push_name(
    alloc: Global,
    names: &mut Vec<String>,
    name: &str,
) -> Result<(), OutOfMemory>
    ensures { OnOk result (map string_bytes names.new.items
        ≡ map string_bytes names.old.items ++ name.now ∷ []) }
{
    let name = String::from_str(alloc, name)?;
    push_string(names, name)
}

fn push_string(names: &mut Vec<String>, name: String) -> Result<(), OutOfMemory>
    ensures { OnOk result (names.new.items ≡ names.old.items ++ name ∷ []) }
{
    match names.push(name) {
        Ok(()) => Ok(()),
        Err(_) => Err(OutOfMemory),
    }
}

/// Appends an attribute of an element, with the value that it may have, or for any value.
pub(crate) fn push_own(
    alloc: Global,
    own: &mut Vec<OwnAttribute>,
    names: (&str, &str),
    value: Option<&str>,
) -> Result<(), OutOfMemory>
    ensures { OnOk result (map own_of own.new.items ≡ map own_of own.old.items
        ++ own_attribute names.entry.0.now names.entry.1.now (option_copied value.entry) ∷ []) }
{
    let mut made = OwnAttribute {
        element: String::from_str(alloc, names.0)?,
        attribute: String::from_str(alloc, names.1)?,
        values: Vec::new(alloc),
    };
    if let Some(value) = value {
        push_name(alloc, &mut made.values, value)?;
    }
    match own.push(made) {
        Ok(()) => Ok(()),
        Err(_) => Err(OutOfMemory),
    }
}

/// Removes a name, wherever it is listed.
pub(crate) fn remove_name(names: &mut Vec<String>, name: &str)
    ensures { map string_bytes names.new.items
        ≡ without name.now (map string_bytes names.old.items) }
{
    names.retain(|one| one.as_str() != name);
}

/// Removes an attribute of an element, with all values that it may have.
pub(crate) fn remove_own(own: &mut Vec<OwnAttribute>, element: &str, name: &str)
    ensures { map own_of own.new.items
        ≡ without_own element.now name.now (map own_of own.old.items) }
{
    own.retain(|one| !is_own(one, element, name));
}

fn is_own(own: &OwnAttribute, element: &str, name: &str) -> bool
    ensures { result ≡ (bytes_eq (own_of own.now).element element.now
        && bytes_eq (own_of own.now).attribute name.now) }
{
    own.element.as_str() == element && own.attribute.as_str() == name
}
