//! What can be wrong with the rules of `--sanitize`, and how it is reported.

use dom_query::{OutOfMemory, PolicyFault};
use std::alloc::{AllocError, AllocFailed};
use std::{fmt, io};

/// What is wrong with the rules of `--sanitize`.
#[derive(Drop)]
pub enum RuleFault {
    Memory,
    /// The file of a policy can't be read.
    File(io::Error),
    /// The file isn't TOML, from this line and column on.
    Toml {
        line: usize,
        column: usize,
        why: String,
    },
    /// The file has a key that no rule has.
    Key(String),
    /// The value of this key isn't what the rule takes.
    Value {
        key: String,
        wanted: &'static str,
    },
    /// A value of `--allow` or `--deny` has another form than those that the option takes.
    Form {
        text: String,
        wanted: &'static str,
    },
    /// The rules can't be kept safely. In a file it is this key that says so.
    Unsafe {
        key: Option<&'static str>,
        fault: PolicyFault,
    },
}

impl fmt::Display for RuleFault {
    fn fmt<W: fmt::Write>(&self, f: &mut fmt::Formatter<W>) -> fmt::Result {
        match self {
            RuleFault::Memory => f.write_str("out of memory"),
            RuleFault::File(fault) => write!(f, "{fault}"),
            RuleFault::Toml { line, column, why } => write!(f, "{line}:{column}: {why}"),
            RuleFault::Key(key) => write!(f, "{key}: a policy has no such key"),
            RuleFault::Value { key, wanted } => write!(f, "{key}: {wanted}"),
            RuleFault::Form { text, wanted } => write!(f, "\"{text}\" isn't {wanted}"),
            RuleFault::Unsafe {
                key: Some(key),
                fault,
            } => write!(f, "{key}: {fault}"),
            RuleFault::Unsafe { key: None, fault } => write!(f, "{fault}"),
        }
    }
}

impl From<AllocError> for RuleFault {
    fn from(_refused: AllocError) -> RuleFault {
        RuleFault::Memory
    }
}

impl<T: Drop> From<AllocFailed<T>> for RuleFault {
    fn from(_refused: AllocFailed<T>) -> RuleFault {
        RuleFault::Memory
    }
}

impl From<OutOfMemory> for RuleFault {
    fn from(_refused: OutOfMemory) -> RuleFault {
        RuleFault::Memory
    }
}

/// Returns the key of the file of a policy whose value is at fault.
pub fn key_of(fault: &PolicyFault) -> &'static str {
    match fault {
        PolicyFault::Element(_) | PolicyFault::Table(_) => "elements",
        PolicyFault::Attribute(_) => "attributes",
        PolicyFault::Scheme(_) => "schemes",
        PolicyFault::Base => "relative",
        PolicyFault::Rel | PolicyFault::RelTwice => "rel",
        PolicyFault::Class(_) => "classes",
        PolicyFault::Prefix => "id-prefix",
        PolicyFault::Depth | PolicyFault::Memory => "depth",
    }
}
