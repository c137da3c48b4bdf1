//! What can go wrong, and how it is reported.

use crate::hints::hint_of;
use crate::rule_faults::RuleFault;
use crate::words::unmarked;
use dom_query::{
    EditFault, MarkupFaultKind, OutOfMemory, PageFault, RunFault, SelectorFault,
    valid_selector_prefix,
};
use std::alloc::{AllocError, AllocFailed};
use std::fmt;
use std::io::{self, ErrorKind};
use url::ParseError;

/// What can go wrong.
#[derive(Drop)]
pub enum Fault {
    Memory,
    TooManyNodes,
    /// A word of the command line that isn't UTF-8 is no name of a file.
    Argument,
    /// Options of the command line can't be combined, or a value isn't one of those that its option
    /// takes.
    Usage(&'static str),
    /// No encoding has this label; another label is the nearest.
    Charset {
        label: String,
        nearest: &'static str,
    },
    /// The text of this argument isn't a selector.
    Selector {
        place: &'static str,
        fault: SelectorFault,
        text: String,
    },
    /// This line of the script, counted from 1, isn't a valid command.
    Script(usize),
    /// An edit of the script was refused on the page, at this line.
    Edit {
        line: usize,
        fault: EditFault,
    },
    /// A file is compressed; this command decompresses it.
    Compressed(&'static str),
    /// The base isn't a URL.
    Base(ParseError),
    /// The rules of `--sanitize` are at fault: the option or the file that says so, and why.
    Rules {
        place: String,
        fault: RuleFault,
    },
    /// A file can't be read.
    File(io::Error),
    /// A file isn't written in place, for this reason.
    InPlace(&'static str),
    /// Explicit markup is refused at this line and column. Without a kind, the bytes from there on
    /// aren't UTF-8.
    Markup {
        kind: Option<MarkupFaultKind>,
        line: usize,
        column: usize,
    },
    Output(io::Error),
}

impl fmt::Display for Fault {
    fn fmt<W: fmt::Write>(&self, f: &mut fmt::Formatter<W>) -> fmt::Result {
        match self {
            Fault::Memory => f.write_str("out of memory"),
            Fault::TooManyNodes => f.write_str("too many nodes"),
            Fault::Argument => f.write_str("an argument isn't UTF-8"),
            Fault::Usage(why) => f.write_str(why),
            Fault::Charset { label, nearest } => write!(
                f,
                "--charset: no encoding has the label \"{label}\"; the nearest is \"{nearest}\""
            ),
            Fault::Selector { place, fault, .. } => write!(f, "{place}: {fault}"),
            Fault::Script(line) => write!(f, "--script: line {line} isn't a line of a script"),
            Fault::Edit { line, fault } => write!(f, "--script: line {line}: {fault}"),
            Fault::Compressed(command) => write!(f, "compressed; decompress it first: {command}"),
            Fault::Base(fault) => write!(f, "--base: {fault}"),
            Fault::Rules { place, fault } => write!(f, "{place}: {fault}"),
            Fault::File(fault) => write!(f, "{fault}"),
            Fault::InPlace(why) => write!(f, "not written: {why}"),
            Fault::Markup {
                kind: Some(kind),
                ..
            } => write!(f, "{kind}"),
            Fault::Markup { kind: None, .. } => f.write_str("not UTF-8"),
            Fault::Output(fault) => write!(f, "write failed: {fault}"),
        }
    }
}

impl Fault {
    /// Returns whether the fault concerns one file only, so that other files can still be read.
    pub fn is_of_a_file(&self) -> bool {
        matches!(
            self,
            Fault::File(_)
                | Fault::InPlace(_)
                | Fault::Markup { .. }
                | Fault::TooManyNodes
                | Fault::Edit { .. }
                | Fault::Compressed(_)
        )
    }

    /// Returns whether the fault is that the reader of the output has closed it.
    pub fn is_broken_pipe(&self) -> bool {
        match self {
            Fault::Output(fault) => fault.kind() == ErrorKind::BrokenPipe,
            _ => false,
        }
    }
}

impl From<io::Error> for Fault {
    fn from(fault: io::Error) -> Fault {
        Fault::Output(fault)
    }
}

impl From<AllocError> for Fault {
    fn from(_refused: AllocError) -> Fault {
        Fault::Memory
    }
}

impl<T: Drop> From<AllocFailed<T>> for Fault {
    fn from(_refused: AllocFailed<T>) -> Fault {
        Fault::Memory
    }
}

impl From<OutOfMemory> for Fault {
    fn from(_refused: OutOfMemory) -> Fault {
        Fault::Memory
    }
}

impl From<PageFault> for Fault {
    fn from(fault: PageFault) -> Fault {
        match fault {
            PageFault::Memory => Fault::Memory,
            PageFault::TooManyNodes => Fault::TooManyNodes,
        }
    }
}

impl From<EditFault> for Fault {
    fn from(refused: EditFault) -> Fault {
        match refused {
            EditFault::TooManyNodes => Fault::TooManyNodes,
            // The nodes are those of the tree, so nothing else is left.
            _ => Fault::Memory,
        }
    }
}

impl From<csv::Error> for Fault {
    /// CSV is written into memory, so the only possible fault is that memory runs out.
    fn from(_refused: csv::Error) -> Fault {
        Fault::Memory
    }
}

impl From<RunFault> for Fault {
    fn from(fault: RunFault) -> Fault {
        match fault {
            RunFault::Edit(line, fault) => Fault::Edit { line, fault },
            RunFault::BadScript(line) => Fault::Script(line),
            RunFault::TooManyNodes => Fault::TooManyNodes,
            RunFault::Memory => Fault::Memory,
            // A script runs on a page that was parsed already, so no markup can be at fault here:
            // the result couldn't be written.
            RunFault::Write | RunFault::BadMarkup => Fault::Output(io::Error::from(
                ErrorKind::Other,
            )),
        }
    }
}

/// Reports a fault. For a bad selector, a caret below it shows where the error begins, and for a
/// common mistake a hint says what to write instead.
pub fn report(rt: &HostRuntime, fault: &Fault) {
    let _ = eprintln!(rt; "hq: {fault}");
    if let Fault::Selector { text, .. } = fault {
        show_place(rt, text.as_str());
    }
}

/// Returns how many characters a text has.
fn characters(text: &str) -> usize {
    let mut count: usize = 0;
    for _ in text.chars() {
        count = count.saturating_add(1);
    }
    count
}

/// Prints a caret below the place where a text stops being a selector.
fn show_place(rt: &HostRuntime, text: &str) {
    let at = valid_selector_prefix(rt.alloc(), text);
    let column = match text.get(..at) {
        Some(front) => characters(front),
        None => 0,
    };
    if !text.contains('\n') {
        let _ = eprintln!(rt; "  {text}\n  {:>1$}", '^', column.saturating_add(1));
    }
    if let Some(hint) = hint_of(text) {
        let _ = eprintln!(rt; "hint: {hint}");
    }
}

/// Reports a fault of a file.
pub fn report_in(rt: &HostRuntime, name: &str, fault: &Fault) {
    let name = shown(name);
    let _ = match fault {
        Fault::Markup { line, column, .. } => eprintln!(rt; "hq: {name}:{line}:{column}: {fault}"),
        _ => eprintln!(rt; "hq: {name}: {fault}"),
    };
}

/// Returns the name of a file as it is printed.
pub fn shown(name: &str) -> &str {
    if name == "-" {
        "(standard input)"
    } else {
        unmarked(name)
    }
}
