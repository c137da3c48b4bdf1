//! Rules of a policy, by their numbers. Each function takes rules that may be missing, and gives
//! the fault that says why they are.

ghost use Rattle.std.specs.Prelude.{◌≡◌, None, OnOk, Some};
ghost use Rattle.dom_clean.specs.Policy.{own_attribute};
ghost use Rattle.c_state.specs.Rules.{IsChangedTo, IsResolvedBy, relative_by};
ghost use Rattle.c_state.specs.Rules.{rule_numbered, setting_numbered, with_own};
ghost use Rattle.c_state.specs.Rules.{without_attribute_of};

use crate::bytes::as_text;
use crate::fault::Fault;
use dom_query::Rules;
use std::alloc::Global;
use url::{ParseError, Url};

/// The rules with a change that has a text: elements of that name stay (0), elements of that name
/// vanish with everything in them (1), every element may have that attribute (2), addresses may
/// have that scheme (3), that class stays (4), links get that `rel` (5), each `id` gets that prefix
/// (6); and what takes back 0 (7), 1 (8), 2 (9), 3 (10) and 4 (11). Refused as `Argument` for any
/// other number.
pub fn with_rule(rules: Result<Rules, Fault>, rule: u32, text: &[u8]) -> Result<Rules, Fault>
    ensures { IsChangedTo rules result (λ old new. rule_numbered rule text.now old ≡ Some new) }
{
    let mut rules = rules?;
    let text = as_text(text)?;
    add_rule(&mut rules, rule, text)?;
    Ok(rules)
}

fn add_rule(rules: &mut Rules, rule: u32, text: &str) -> Result<(), Fault>
    ensures { OnOk result (rule_numbered rule text.now rules.old ≡ Some rules.new) }
{
    if rule > 6 {
        return take_back(rules, rule, text);
    }
    match rule {
        0 => Ok(rules.allow_element(text)?),
        1 => Ok(rules.drop_element(text)?),
        2 => Ok(rules.allow_attribute(text)?),
        3 => Ok(rules.allow_scheme(text)?),
        4 => Ok(rules.allow_class(text)?),
        5 => Ok(rules.set_rel(text)?),
        6 => Ok(rules.set_id_prefix(text)?),
        _ => Err(Fault::Argument),
    }
}

fn take_back(rules: &mut Rules, rule: u32, text: &str) -> Result<(), Fault>
    ensures { OnOk result (rule_numbered rule text.now rules.old ≡ Some rules.new) }
{
    match rule {
        7 => Ok(rules.disallow_element(text)),
        8 => Ok(rules.undrop_element(text)),
        9 => Ok(rules.disallow_attribute(text)),
        10 => Ok(rules.disallow_scheme(text)),
        11 => Ok(rules.disallow_class(text)),
        _ => Err(Fault::Argument),
    }
}

/// The rules by which elements of that name may have that attribute, too.
pub fn with_attribute_of(
    rules: Result<Rules, Fault>,
    element: &[u8],
    name: &[u8],
) -> Result<Rules, Fault>
    ensures { IsChangedTo rules result (λ old new.
        new ≡ with_own (own_attribute element.now name.now None) old) }
{
    let mut rules = rules?;
    rules.allow_attribute_of(as_text(element)?, as_text(name)?)?;
    Ok(rules)
}

/// The rules without what they say of that attribute of elements of that name, whatever its values
/// are.
pub fn disallow_attribute_of(
    rules: Result<Rules, Fault>,
    element: &[u8],
    name: &[u8],
) -> Result<Rules, Fault>
    ensures { IsChangedTo rules result (λ old new.
        new ≡ without_attribute_of element.now name.now old) }
{
    let mut rules = rules?;
    rules.disallow_attribute_of(as_text(element)?, as_text(name)?);
    Ok(rules)
}

/// The rules by which elements of that name may have that attribute with that value, too.
pub fn with_value(
    rules: Result<Rules, Fault>,
    element: &[u8],
    name: &[u8],
    value: &[u8],
) -> Result<Rules, Fault>
    ensures { IsChangedTo rules result (λ old new.
        new ≡ with_own (own_attribute element.now name.now (Some value.now)) old) }
{
    let mut rules = rules?;
    rules.allow_value(as_text(element)?, as_text(name)?, as_text(value)?)?;
    Ok(rules)
}

/// The rules by which addresses without a scheme are resolved against that base. Refused as
/// `BadBase` where the text isn't an absolute URL.
pub fn with_base(alloc: Global, rules: Result<Rules, Fault>, base: &[u8]) -> Result<Rules, Fault>
    ensures { IsChangedTo rules result (IsResolvedBy base.now) }
{
    let mut rules = rules?;
    match Url::parse(alloc, as_text(base)?) {
        Ok(base) => {
            rules.resolve_relative(base);
            Ok(rules)
        }
        Err(ParseError::OutOfMemory) => Err(Fault::Memory),
        Err(_) => Err(Fault::BadBase),
    }
}

/// The rules with a setting: how many elements may be nested (0), whether attributes whose names
/// begin with `data-` are allowed (1), whether addresses without a scheme are kept or else dropped
/// (2), and links without a `rel` of the policy (3), for which the number doesn't matter. Refused
/// as `Argument` for any other setting.
pub fn with_setting(
    rules: Result<Rules, Fault>,
    setting: u32,
    number: usize,
) -> Result<Rules, Fault>
    ensures { IsChangedTo rules result (λ old new. setting_numbered setting number old ≡ Some new) }
{
    let mut rules = rules?;
    set(&mut rules, setting, number)?;
    Ok(rules)
}

fn set(rules: &mut Rules, setting: u32, number: usize) -> Result<(), Fault>
    ensures { OnOk result (setting_numbered setting number rules.old ≡ Some rules.new) }
{
    match setting {
        0 => Ok(rules.set_depth(number)),
        1 => Ok(rules.set_data_attributes(number != 0)),
        2 => Ok(set_relative(rules, number != 0)),
        3 => Ok(rules.clear_rel()),
        _ => Err(Fault::Argument),
    }
}

fn set_relative(rules: &mut Rules, are_kept: bool)
    ensures { rules.new ≡ record rules.old { relative = relative_by are_kept } }
{
    if are_kept {
        rules.keep_relative();
    } else {
        rules.drop_relative();
    }
}
