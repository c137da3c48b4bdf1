//! Policies, and which rules are accepted as one.

ghost use Rattle.std.specs.Prelude.{◌≡◌, ◌&&◌, ◌||◌, ◌==◌, IfSome, MatchResult, codes, find, map};
ghost use Rattle.std.specs.Prelude.{not, option_copied, string_bytes, true, false};
ghost use Rattle.std.specs.List.{list_all};
ghost use Rattle.std.specs.Option.{option_and_then, option_map};
ghost use Rattle.std.specs.Result.{result_err};
ghost use Rattle.dom_nodes.specs.Words.{is_among};
ghost use Rattle.dom_clean.specs.Faults.{IsReported, Tells, fault_of_limits, fault_of_names};
ghost use Rattle.dom_clean.specs.Faults.{fault_of_rel, first_failing, first_fault, missing_part};
ghost use Rattle.dom_clean.specs.Faults.Fault.{bad_attribute, bad_class, bad_element, bad_scheme};
ghost use Rattle.dom_clean.specs.Faults.Fault.{no_part};
ghost use Rattle.dom_clean.specs.Policies.{policy_of, relative_of};
ghost use Rattle.dom_clean.specs.Policy.{attribute_names, is_class, is_class_byte, is_simple};
ghost use Rattle.dom_clean.specs.Policy.{is_simple_byte, is_sound, is_word_byte, is_worded};
ghost use Rattle.dom_clean.specs.Policy.{joins_well, may_have, may_keep, may_lead};
ghost use Rattle.dom_clean.specs.Policy.{refused_attributes, refused_schemes, table_parts};

use crate::laws::sound_rules_have_no_fault;
use crate::lists::{Lists, OwnAttribute, Relative, is_among};
use crate::rules::Rules;
use dom_nodes::words::is_one_of;
use std::error::Error;
use std::fmt;
use std::marker::Model;

/// The rules by which a page is cleaned. `Policy::new` accepts only rules whose result is safe. A
/// contract sees a policy as the lists of its rules.
#[derive(Drop)]
pub struct Policy {
    lists: Lists,
}

impl Model for Policy {
    ghost use Rattle.std.specs.Prelude.{◌≡◌, true};
    ghost use Rattle.dom_clean.specs.Policies.{policy_of};
    ghost use Rattle.dom_clean.specs.Policy.{Policy, is_sound};

    ghost Value = { Policy };

    ghost view = { λ policy. policy_of policy.lists };

    ghost invariant = { λ policy. is_sound (policy_of policy.lists) ≡ true };
}

/// The first reason why rules can't be a policy.
#[derive(Debug, Drop)]
pub enum PolicyFault {
    /// An element that can't be allowed, such as `svg` or `script`: its content is not read as
    /// markup, it runs scripts or brings in another document, or it can't be in a calm page.
    Element(String),
    /// `table` is allowed without this part of tables: texts of the table would be lost.
    Table(&'static str),
    /// An attribute that can't be allowed, such as `onclick` or `srcdoc`: it holds a script, a
    /// style, markup or several addresses, or its name has other characters than `a` to `z`,
    /// digits, `-` and `_`.
    Attribute(String),
    /// A scheme that can't be allowed: `javascript`, `vbscript` or `data`.
    Scheme(String),
    /// Addresses are resolved against a base whose scheme isn't allowed.
    Base,
    /// The `rel` of links has other characters than `a` to `z`, digits, `-`, `_` and spaces.
    Rel,
    /// Links get a `rel`, and `rel` is allowed as an attribute, too.
    RelTwice,
    /// A class that is empty, or has a control character, a space or a character that isn't ASCII.
    Class(String),
    /// The prefix of ids has other characters than `a` to `z`, digits, `-` and `_`.
    Prefix,
    /// More than 256 elements may be nested.
    Depth,
    /// Memory for the name of one of the other faults was refused.
    Memory,
}

impl fmt::Display for PolicyFault {
    fn fmt<W: fmt::Write>(&self, f: &mut fmt::Formatter<W>) -> fmt::Result {
        match self {
            PolicyFault::Element(name) => write!(f, "element `{name}` can't be kept safely"),
            PolicyFault::Table(part) => write!(f, "`table` is allowed without `{part}`"),
            PolicyFault::Attribute(name) => write!(f, "attribute `{name}` can't be kept safely"),
            PolicyFault::Scheme(name) => write!(f, "scheme `{name}` can't be kept safely"),
            PolicyFault::Base => f.write_str("the scheme of the base isn't allowed"),
            PolicyFault::Rel => f.write_str("the `rel` of links can't be written"),
            PolicyFault::RelTwice => {
                f.write_str("links get a `rel`, but attribute `rel` is allowed, too")
            }
            PolicyFault::Class(name) => write!(f, "class `{name}` can't be written"),
            PolicyFault::Prefix => f.write_str("the prefix of ids can't be written"),
            PolicyFault::Depth => f.write_str("the depth is above 256"),
            PolicyFault::Memory => f.write_str("out of memory"),
        }
    }
}

impl Error for PolicyFault {}

impl Policy {
    /// Returns the policy of these rules. It succeeds exactly if the rules are sound, that is, if
    /// the result is safe. Fails with the first fault in the rules, in the order of `PolicyFault`, or
    /// with `Memory` if memory for the name in that fault is refused.
    pub fn new(rules: Rules) -> Result<Policy, PolicyFault>
        ensures sound { MatchResult result (λ policy. (policy ≡ rules) × (is_sound rules ≡ true))
            (λ _. is_sound rules ≡ false) }
        ensures fault { IsReported (first_fault rules) (result_err result) }
    {
        // A law, called for its contract alone.
        sound_rules_have_no_fault();
        let lists = rules.into_lists();
        match fault_of(&lists) {
            Some(fault) => Err(fault),
            None => Ok(Policy { lists }),
        }
    }

    /// Returns the lists of the rules.
    pub(crate) fn lists(&self) -> &Lists
        ensures value { policy_of result.now ≡ self.now }
        ensures sound { is_sound self.now ≡ true }
    {
        &self.lists
    }
}

/// Returns the first fault of rules.
fn fault_of(lists: &Lists) -> Option<PolicyFault>
    ensures { IsReported (first_fault (policy_of lists.now)) result }
{
    if let Some(fault) = fault_of_names(lists) {
        return Some(fault);
    }
    if let Some(fault) = fault_of_schemes(&lists.schemes) {
        return Some(fault);
    }
    if !joins_well(lists) {
        return Some(PolicyFault::Base);
    }
    if let Some(fault) = fault_of_rel(lists) {
        return Some(fault);
    }
    if let Some(fault) = fault_of_classes(lists) {
        return Some(fault);
    }
    fault_of_limits(lists)
}

/// Returns the first fault of the names of elements and attributes.
fn fault_of_names(lists: &Lists) -> Option<PolicyFault>
    ensures { IsReported (fault_of_names (policy_of lists.now)) result }
{
    if let Some(fault) = fault_of_elements(&lists.elements) {
        return Some(fault);
    }
    if let Some(fault) = fault_of_tables(&lists.elements) {
        return Some(fault);
    }
    fault_of_attributes(lists)
}

fn fault_of_elements(names: &[String]) -> Option<PolicyFault>
    ensures { IsReported
        (option_map bad_element (first_failing may_keep (map string_bytes names.now))) result }
{
    let name = refused_element(names)?;
    Some(element_fault(name))
}

fn fault_of_tables(elements: &[String]) -> Option<PolicyFault>
    ensures { IsReported
        (option_map no_part (missing_part (map string_bytes elements.now))) result }
{
    let part = missing_part(elements)?;
    Some(PolicyFault::Table(part))
}

fn fault_of_attributes(lists: &Lists) -> Option<PolicyFault>
    ensures { IsReported (option_map bad_attribute
        (first_failing may_have (attribute_names (policy_of lists.now)))) result }
{
    let name = refused_attribute(lists)?;
    Some(attribute_fault(name))
}

fn fault_of_schemes(schemes: &[String]) -> Option<PolicyFault>
    ensures { IsReported
        (option_map bad_scheme (first_failing may_lead (map string_bytes schemes.now))) result }
{
    let scheme = refused_scheme(schemes)?;
    Some(scheme_fault(scheme))
}

fn fault_of_classes(lists: &Lists) -> Option<PolicyFault>
    ensures { IsReported (option_map bad_class
        (option_and_then (first_failing is_class) (policy_of lists.now).classes)) result }
{
    let class = refused_class(lists)?;
    Some(class_fault(class))
}

/// Returns the fault of the prefix of ids, or of the depth.
fn fault_of_limits(lists: &Lists) -> Option<PolicyFault>
    ensures { IsReported (fault_of_limits (policy_of lists.now)) result }
{
    if !are_simple_bytes(lists.id_prefix.as_str()) {
        return Some(PolicyFault::Prefix);
    }
    if lists.depth > 256 {
        return Some(PolicyFault::Depth);
    }
    None
}

fn copied(name: &String) -> Option<String>
    ensures { IfSome result (λ copy. string_bytes copy ≡ string_bytes name.now) }
{
    String::from_str(*name.allocator(), name.as_str()).ok()
}

fn element_fault(name: &String) -> PolicyFault
    ensures { Tells result (bad_element (string_bytes name.now)) }
{
    match copied(name) {
        Some(name) => PolicyFault::Element(name),
        None => PolicyFault::Memory,
    }
}

fn attribute_fault(name: &String) -> PolicyFault
    ensures { Tells result (bad_attribute (string_bytes name.now)) }
{
    match copied(name) {
        Some(name) => PolicyFault::Attribute(name),
        None => PolicyFault::Memory,
    }
}

fn scheme_fault(name: &String) -> PolicyFault
    ensures { Tells result (bad_scheme (string_bytes name.now)) }
{
    match copied(name) {
        Some(name) => PolicyFault::Scheme(name),
        None => PolicyFault::Memory,
    }
}

fn class_fault(name: &String) -> PolicyFault
    ensures { Tells result (bad_class (string_bytes name.now)) }
{
    match copied(name) {
        Some(name) => PolicyFault::Class(name),
        None => PolicyFault::Memory,
    }
}

/// Returns the first element that can't be allowed.
fn refused_element(names: &[String]) -> Option<&String>
    ensures { option_copied result ≡ find (λ name. not (may_keep (string_bytes name))) names.now }
{
    names.iter().find(|name| !may_keep(name.as_str()))
}

/// The elements that can be allowed.
const KEEPABLE: [&str; 101] = [
    "a",
    "abbr",
    "acronym",
    "address",
    "area",
    "article",
    "aside",
    "audio",
    "b",
    "bdi",
    "bdo",
    "big",
    "blockquote",
    "br",
    "button",
    "canvas",
    "caption",
    "center",
    "cite",
    "code",
    "col",
    "colgroup",
    "data",
    "datalist",
    "dd",
    "del",
    "details",
    "dfn",
    "dialog",
    "dir",
    "div",
    "dl",
    "dt",
    "em",
    "fieldset",
    "figcaption",
    "figure",
    "font",
    "footer",
    "form",
    "h1",
    "h2",
    "h3",
    "h4",
    "h5",
    "h6",
    "header",
    "hgroup",
    "hr",
    "i",
    "img",
    "input",
    "ins",
    "kbd",
    "label",
    "legend",
    "li",
    "main",
    "map",
    "mark",
    "menu",
    "meter",
    "nav",
    "ol",
    "output",
    "p",
    "picture",
    "pre",
    "progress",
    "q",
    "rp",
    "rt",
    "ruby",
    "s",
    "samp",
    "search",
    "section",
    "slot",
    "small",
    "source",
    "span",
    "strike",
    "strong",
    "sub",
    "summary",
    "sup",
    "table",
    "tbody",
    "td",
    "tfoot",
    "th",
    "thead",
    "time",
    "tr",
    "track",
    "tt",
    "u",
    "ul",
    "var",
    "video",
    "wbr",
];

/// Returns whether elements of that name can be allowed: they may be in a body, their content is
/// read as markup, and they bring in no other document.
#[tactic(auto, unfolding(crate::specs::Policy::keepable_names))]
fn may_keep(name: &str) -> bool
    ensures { result ≡ may_keep name.now }
{
    is_one_of(name, &KEEPABLE)
}

/// Returns the first part of tables that isn't allowed although `table` is.
fn missing_part(elements: &[String]) -> Option<&'static str>
    ensures { option_copied result ≡ missing_part (map string_bytes elements.now) }
{
    if !is_among("table", elements) {
        return None;
    }
    missing_of_parts(elements)
}

#[tactic(auto, unfolding(crate::specs::Policy::table_parts))]
fn missing_of_parts(elements: &[String]) -> Option<&'static str>
    ensures { option_copied result ≡ first_failing
        (λ part. is_among part (map string_bytes elements.now)) table_parts }
{
    if !is_among("tbody", elements) {
        return Some("tbody");
    }
    if !is_among("tr", elements) {
        return Some("tr");
    }
    if !is_among("td", elements) {
        return Some("td");
    }
    if !is_among("th", elements) {
        return Some("th");
    }
    if !is_among("thead", elements) {
        return Some("thead");
    }
    if !is_among("tfoot", elements) {
        return Some("tfoot");
    }
    if !is_among("caption", elements) {
        return Some("caption");
    }
    None
}

/// Returns the first attribute that can't be allowed.
fn refused_attribute(lists: &Lists) -> Option<&String>
    ensures { option_map string_bytes (option_copied result)
        ≡ first_failing may_have (attribute_names (policy_of lists.now)) }
{
    if let Some(name) = refused_among(&lists.attributes) {
        return Some(name);
    }
    refused_own(&lists.own_attributes)
}

fn refused_among(names: &[String]) -> Option<&String>
    ensures { option_copied result ≡ find (λ name. not (may_have (string_bytes name))) names.now }
{
    names.iter().find(|name| !may_have(name.as_str()))
}

fn refused_own(names: &[OwnAttribute]) -> Option<&String>
    ensures { option_copied result ≡ option_map (λ own. own.attribute)
        (find (λ own. not (may_have (string_bytes own.attribute))) names.now) }
{
    names
        .iter()
        .find(|own| !may_have(own.attribute.as_str()))
        .map(|own| &own.attribute)
}

/// Returns whether an attribute of that name can be allowed.
fn may_have(name: &str) -> bool
    ensures { result ≡ may_have name.now }
{
    if !is_simple(name) {
        return false;
    }
    if name.as_bytes().starts_with(b"on") {
        return false;
    }
    !is_refused_attribute(name)
}

#[tactic(auto, unfolding(crate::specs::Policy::refused_attributes))]
fn is_refused_attribute(name: &str) -> bool
    ensures { result ≡ is_among name.now refused_attributes }
{
    is_one_of(
        name,
        &[
            "archive",
            "attributionsrc",
            "http-equiv",
            "imagesrcset",
            "is",
            "nonce",
            "ping",
            "srcdoc",
            "srcset",
            "style",
            "xmlns",
        ],
    )
}

/// Returns whether the name has at least one character, and only `a` to `z`, digits, `-` and `_`.
fn is_simple(name: &str) -> bool
    ensures { result ≡ is_simple name.now }
{
    if name.is_empty() {
        return false;
    }
    are_simple_bytes(name)
}

pub(crate) fn are_simple_bytes(text: &str) -> bool
    ensures { result ≡ list_all is_simple_byte text.now }
{
    are_simple(text.as_bytes())
}

fn are_simple(bytes: &[u8]) -> bool
    ensures { result ≡ list_all is_simple_byte bytes.now }
{
    bytes.iter().all(|byte| is_simple_byte(*byte))
}

fn is_simple_byte(byte: u8) -> bool
    ensures { result ≡ is_simple_byte byte }
{
    matches!(byte, b'a'..=b'z' | b'0'..=b'9' | b'-' | b'_')
}

/// Returns the first scheme that can't be allowed.
fn refused_scheme(schemes: &[String]) -> Option<&String>
    ensures { option_copied result ≡ find (λ name. not (may_lead (string_bytes name))) schemes.now }
{
    schemes.iter().find(|scheme| !may_lead(scheme.as_str()))
}

#[tactic(auto, unfolding(crate::specs::Policy::refused_schemes))]
fn may_lead(scheme: &str) -> bool
    ensures { result ≡ may_lead scheme.now }
{
    !is_one_of(scheme, &["data", "javascript", "vbscript"])
}

/// Returns whether addresses are resolved against no base, or against one with an allowed scheme.
fn joins_well(lists: &Lists) -> bool
    ensures { result
        ≡ joins_well (policy_of lists.now).schemes (relative_of lists.now.relative) }
{
    match &lists.relative {
        Relative::Resolved(base) => is_among(base.scheme(), &lists.schemes),
        _ => true,
    }
}

/// Returns the fault of the `rel` of links.
fn fault_of_rel(lists: &Lists) -> Option<PolicyFault>
    ensures { IsReported
        (option_and_then (fault_of_rel (policy_of lists.now)) (policy_of lists.now).rel) result }
{
    let rel = lists.rel.as_ref()?;
    if !is_worded(rel.as_str()) {
        return Some(PolicyFault::Rel);
    }
    if has_rel(lists) {
        return Some(PolicyFault::RelTwice);
    }
    None
}

/// Returns whether `rel` is an allowed attribute.
fn has_rel(lists: &Lists) -> bool
    ensures { result ≡ is_among (codes "rel") (attribute_names (policy_of lists.now)) }
{
    if is_among("rel", &lists.attributes) {
        return true;
    }
    has_own("rel", &lists.own_attributes)
}

fn has_own(name: &str, names: &[OwnAttribute]) -> bool
    ensures { result ≡ is_among name.now (map (λ own. string_bytes own.attribute) names.now) }
{
    for own in names {
        if own.attribute.as_str() == name {
            return true;
        }
    }
    false
}

/// Returns whether the text has only the characters of plain names, and spaces.
fn is_worded(text: &str) -> bool
    ensures { result ≡ is_worded text.now }
{
    are_word_bytes(text.as_bytes())
}

fn are_word_bytes(bytes: &[u8]) -> bool
    ensures { result ≡ list_all is_word_byte bytes.now }
{
    bytes.iter().all(|byte| is_word_byte(*byte))
}

fn is_word_byte(byte: u8) -> bool
    ensures { result ≡ is_word_byte byte }
{
    is_simple_byte(byte) || byte == b' '
}

/// Returns the first class that can't be allowed.
fn refused_class(lists: &Lists) -> Option<&String>
    ensures { option_map string_bytes (option_copied result)
        ≡ option_and_then (first_failing is_class) (policy_of lists.now).classes }
{
    match &lists.classes {
        Some(classes) => refused_among_classes(classes),
        None => None,
    }
}

fn refused_among_classes(classes: &[String]) -> Option<&String>
    ensures { option_copied result ≡ find (λ name. not (is_class (string_bytes name))) classes.now }
{
    classes.iter().find(|class| !is_class(class.as_str()))
}

/// Returns whether the class can be allowed.
fn is_class(name: &str) -> bool
    ensures { result ≡ is_class name.now }
{
    if name.is_empty() {
        return false;
    }
    are_class_bytes(name.as_bytes())
}

fn are_class_bytes(bytes: &[u8]) -> bool
    ensures { result ≡ list_all is_class_byte bytes.now }
{
    bytes.iter().all(|byte| is_class_byte(*byte))
}

fn is_class_byte(byte: u8) -> bool
    ensures { result ≡ is_class_byte byte }
{
    32 < byte && byte < 127
}
