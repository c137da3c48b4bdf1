//! Why a call gives no answer.

ghost use Rattle.std.specs.Prelude.{◌≡◌, ◌≤ℤ◌, negsuc, pos};
ghost use Rattle.c_state.specs.declared.fault.Fault.TheVariants.{Closed, Memory, Nothing};

use dom_query::{
    EditFault, MarkupFault, MarkupFaultKind, OutOfMemory, PageFault, PolicyFault, SelectorFault,
};
use std::alloc::{AllocError, AllocFailed};

/// Why a call gives no answer.
#[derive(Clone, Copy, Debug, Drop)]
pub enum Fault {
    /// What was asked for isn't there: an attribute, a name, a neighbour, a match.
    Nothing,
    /// The handle holds no document.
    Closed,
    /// Memory was refused.
    Memory,
    /// A text isn't UTF-8.
    NotUtf8,
    /// A number of a place, a direction, an axis, a rule or a setting isn't one of those that there
    /// are.
    Argument,
    /// No node of the document has that number.
    NoNode,
    /// A document has 4,294,967,295 nodes at most.
    TooManyNodes,
    /// No encoding has the label.
    UnknownLabel,
    /// The base of addresses isn't an absolute URL.
    BadBase,
    /// The policy isn't finished yet.
    Unfinished,
    /// The policy is finished, so that its rules stay as they are.
    Finished,
    /// The rules can't be a policy.
    Policy(Refusal),
    /// The edit is refused.
    Edit(EditFault),
    /// The tokenizer of the HTML Standard couldn't read the name.
    Name,
    /// The node isn't of a kind that the edit changes.
    Kind,
    /// The text isn't a selector.
    Selector(SelectorFault),
    /// The text isn't explicit markup.
    Markup(MarkupFault),
}

/// Why rules can't be a policy, as `PolicyFault` says it with names.
#[derive(Clone, Copy, Debug, Drop)]
pub enum Refusal {
    /// An element that can't be allowed.
    Element,
    /// `table` is allowed without a part of tables.
    Table,
    /// An attribute that can't be allowed.
    Attribute,
    /// A scheme that can't be allowed.
    Scheme,
    /// Addresses are resolved against a base whose scheme isn't allowed.
    Base,
    /// The `rel` of links can't be written, or `rel` is allowed as an attribute, too.
    Rel,
    /// A class can't be written.
    Class,
    /// The prefix of ids can't be written.
    Prefix,
    /// More than 256 elements may be nested.
    Depth,
}

impl Fault {
    /// The number by which C knows it, which is below 0.
    pub fn code(self) -> i64
        ensures below { pos 0 ≤ℤ result → ⊥ }
        ensures closed { self ≡ Closed → result ≡ negsuc 1 }
    {
        match self {
            Fault::Nothing => -1,
            Fault::Closed => -2,
            Fault::Memory => -3,
            Fault::NotUtf8 => -4,
            Fault::Argument => -5,
            Fault::NoNode => -6,
            Fault::TooManyNodes => -7,
            Fault::UnknownLabel => -40,
            Fault::BadBase => -41,
            Fault::Unfinished => -42,
            Fault::Finished => -43,
            Fault::Policy(refusal) => refusal_code(refusal),
            Fault::Edit(fault) => edit_code(fault),
            Fault::Name => -14,
            Fault::Kind => -15,
            Fault::Selector(fault) => selector_code(fault),
            Fault::Markup(fault) => markup_code(fault.kind),
        }
    }

    /// The byte of the markup at which it was met; 0 for any other fault.
    pub fn byte(self) -> usize {
        match self {
            Fault::Markup(fault) => fault.at,
            Fault::Edit(EditFault::Markup(fault)) => fault.at,
            _ => 0,
        }
    }
}

fn refusal_code(refusal: Refusal) -> i64
    ensures { pos 0 ≤ℤ result → ⊥ }
{
    match refusal {
        Refusal::Element => -50,
        Refusal::Table => -51,
        Refusal::Attribute => -52,
        Refusal::Scheme => -53,
        Refusal::Base => -54,
        Refusal::Rel => -55,
        Refusal::Class => -56,
        Refusal::Prefix => -57,
        Refusal::Depth => -58,
    }
}

fn edit_code(fault: EditFault) -> i64
    ensures { pos 0 ≤ℤ result → ⊥ }
{
    match fault {
        EditFault::Memory => -3,
        EditFault::UnknownNode => -6,
        EditFault::TooManyNodes => -7,
        EditFault::NoChildrenHere => -10,
        EditFault::RootOrFragment => -11,
        EditFault::Cycle => -12,
        EditFault::BadContents => -13,
        EditFault::Markup(fault) => markup_code(fault.kind),
    }
}

fn selector_code(fault: SelectorFault) -> i64
    ensures { pos 0 ≤ℤ result → ⊥ }
{
    match fault {
        SelectorFault::Memory => -3,
        SelectorFault::Syntax => -20,
        SelectorFault::UnknownPseudoClass => -21,
        SelectorFault::Number => -22,
        SelectorFault::NestedHas => -23,
        SelectorFault::TooDeep => -24,
    }
}

fn markup_code(kind: MarkupFaultKind) -> i64
    ensures { pos 0 ≤ℤ result → ⊥ }
{
    match kind {
        MarkupFaultKind::Memory => -3,
        MarkupFaultKind::TooManyNodes => -7,
        MarkupFaultKind::BadTag => -30,
        MarkupFaultKind::Unclosed => -31,
        MarkupFaultKind::MismatchedEnd => -32,
        MarkupFaultKind::StrayEnd => -33,
        MarkupFaultKind::SlashOnOpen => -34,
        MarkupFaultKind::BadComment => -35,
        MarkupFaultKind::BadDeclaration => -36,
        MarkupFaultKind::MisplacedDoctype => -37,
        MarkupFaultKind::Instruction => -38,
    }
}

/// What a number of a fault means, in English; None for any other number.
pub fn fault_text(code: i64) -> Option<&'static str> {
    match code {
        -1 => Some("there is none"),
        -2 => Some("the document or the policy is closed"),
        -3 => Some("out of memory"),
        -4 => Some("the text is not UTF-8"),
        -5 => Some(
            "a number of a place, a direction, an axis, a rule or a setting is out of range",
        ),
        -6 => Some("no node of the document has that number"),
        -7 => Some("too many nodes"),
        -8 => Some("a pointer is null, or a length is too large"),
        -10 => Some("the node cannot have children"),
        -11 => Some("the root, a document or a fragment cannot be moved or get siblings"),
        -12 => Some("a node cannot be moved into itself or below itself"),
        -13 => Some("the contents of a template have to be a fragment of their own"),
        -14 => Some("the name could not be read again"),
        -15 => Some("the node is not an element, or for a text not an element or a text"),
        -20 => Some("the selector is malformed"),
        -21 => Some("unknown pseudo-class, or a pseudo-class in the wrong form"),
        -22 => Some("a number in the selector is too large"),
        -23 => Some(":has inside :has"),
        -24 => Some("the selector is nested too deep"),
        _ => markup_text(code),
    }
}

fn markup_text(code: i64) -> Option<&'static str> {
    match code {
        -30 => Some("malformed tag"),
        -31 => Some("an element is not closed"),
        -32 => Some("an end tag does not match the open element"),
        -33 => Some("an end tag where no element is open"),
        -34 => Some("a slash ends the tag of an element that is not void"),
        -35 => Some("malformed comment"),
        -36 => Some("malformed declaration"),
        -37 => Some("a doctype inside an element"),
        -38 => Some("a processing instruction"),
        _ => policy_text(code),
    }
}

fn policy_text(code: i64) -> Option<&'static str> {
    match code {
        -40 => Some("no encoding has that label"),
        -41 => Some("the base is not an absolute URL"),
        -42 => Some("the policy is not finished"),
        -43 => Some("the policy is finished"),
        -50 => Some("an element cannot be kept safely"),
        -51 => Some("tables are allowed without one of their parts"),
        -52 => Some("an attribute cannot be kept safely"),
        -53 => Some("a scheme cannot be kept safely"),
        -54 => Some("the scheme of the base is not allowed"),
        -55 => Some("the rel of links cannot be written, or is allowed as an attribute, too"),
        -56 => Some("a class cannot be written"),
        -57 => Some("the prefix of ids cannot be written"),
        -58 => Some("the depth is above 256"),
        _ => None,
    }
}

impl From<OutOfMemory> for Fault {
    ghost from_gives = { λ _ fault. fault ≡ Memory };

    fn from(_refused: OutOfMemory) -> Fault {
        Fault::Memory
    }
}

impl From<AllocError> for Fault {
    ghost from_gives = { λ _ fault. fault ≡ Memory };

    fn from(_refused: AllocError) -> Fault {
        Fault::Memory
    }
}

impl<T: Drop> From<AllocFailed<T>> for Fault {
    ghost from_gives = { λ _ fault. fault ≡ Memory };

    fn from(_refused: AllocFailed<T>) -> Fault {
        Fault::Memory
    }
}

impl From<SelectorFault> for Fault {
    fn from(fault: SelectorFault) -> Fault {
        Fault::Selector(fault)
    }
}

impl From<PageFault> for Fault {
    fn from(fault: PageFault) -> Fault {
        match fault {
            PageFault::Memory => Fault::Memory,
            PageFault::TooManyNodes => Fault::TooManyNodes,
        }
    }
}

impl From<MarkupFault> for Fault {
    fn from(fault: MarkupFault) -> Fault {
        Fault::Markup(fault)
    }
}

impl From<EditFault> for Fault {
    fn from(fault: EditFault) -> Fault {
        Fault::Edit(fault)
    }
}

/// The fault of rules that can't be a policy.
pub fn fault_of_policy(fault: &PolicyFault) -> Fault {
    match fault {
        PolicyFault::Element(_) => Fault::Policy(Refusal::Element),
        PolicyFault::Table(_) => Fault::Policy(Refusal::Table),
        PolicyFault::Attribute(_) => Fault::Policy(Refusal::Attribute),
        PolicyFault::Scheme(_) => Fault::Policy(Refusal::Scheme),
        PolicyFault::Base => Fault::Policy(Refusal::Base),
        PolicyFault::Rel | PolicyFault::RelTwice => Fault::Policy(Refusal::Rel),
        PolicyFault::Class(_) => Fault::Policy(Refusal::Class),
        PolicyFault::Prefix => Fault::Policy(Refusal::Prefix),
        PolicyFault::Depth => Fault::Policy(Refusal::Depth),
        PolicyFault::Memory => Fault::Memory,
    }
}
