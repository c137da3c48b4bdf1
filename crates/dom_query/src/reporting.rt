//! The exit status and the error line of the program `dq`.

ghost use Rattle.std.specs.Prelude.{◌≡◌};
ghost use Rattle.dom_markup.specs.Writing.{Writes};
ghost use Rattle.dom_query.specs.Reporting.{name_text, reason_of, report_of, status_of};

use crate::numbers::write_number;
use crate::runner::RunFault;
use dom_markup::serializing::WriteFault;
use dom_markup::writing::write_bytes;
use dom_nodes::fault::EditFault;
use std::io::Write;

/// Why the program ends with a status other than 0.
#[derive(Clone, Copy, Drop)]
pub enum DriveFault {
    /// There isn't exactly one argument.
    Usage,
    /// The reader failed.
    Read,
    /// Running the script failed, or memory ran out before that.
    Run(RunFault),
}

impl From<RunFault> for DriveFault {
    ghost use Rattle.dom_query.specs.declared.reporting.DriveFault.TheVariants.{Run};

    ghost from_gives = { λ fault drive. drive ≡ Run fault };

    fn from(fault: RunFault) -> DriveFault {
        DriveFault::Run(fault)
    }
}

/// Returns the exit status for the fault.
pub fn status_of_fault(fault: DriveFault) -> u8
    ensures { result ≡ status_of fault }
{
    match fault {
        DriveFault::Usage => 64,
        DriveFault::Read => 5,
        DriveFault::Run(RunFault::BadScript(_)) => 2,
        DriveFault::Run(RunFault::BadMarkup) => 3,
        DriveFault::Run(RunFault::Edit(_, _) | RunFault::TooManyNodes) => 4,
        DriveFault::Run(RunFault::Memory | RunFault::Write) => 5,
    }
}

/// Writes the line that reports the fault. It fails when the writer does.
pub fn report<W: Write>(err: &mut W, fault: DriveFault) -> Result<(), WriteFault>
    ensures { Writes (W.contents err.old) (W.contents err.new) result (report_of fault) }
{
    match fault {
        DriveFault::Usage => write_bytes(err, b"usage: dq SCRIPT | dq --md\n"),
        DriveFault::Read => write_bytes(err, b"dq: read failed\n"),
        DriveFault::Run(fault) => {
            write_bytes(err, b"dq: ")?;
            report_reason(err, fault)?;
            write_bytes(err, b"\n")
        }
    }
}

/// Writes why running the script failed.
fn report_reason<W: Write>(err: &mut W, fault: RunFault) -> Result<(), WriteFault>
    ensures { Writes (W.contents err.old) (W.contents err.new) result (reason_of fault) }
{
    match fault {
        RunFault::BadScript(line) => {
            write_bytes(err, b"script: line ")?;
            write_number(err, line)
        }
        RunFault::BadMarkup => write_bytes(err, b"markup: refused"),
        RunFault::Edit(line, fault) => {
            write_bytes(err, b"edit: line ")?;
            write_number(err, line)?;
            write_bytes(err, b": ")?;
            write_bytes(err, name_of(fault).as_bytes())
        }
        RunFault::TooManyNodes => write_bytes(err, b"too many nodes"),
        RunFault::Memory => write_bytes(err, b"out of memory"),
        RunFault::Write => write_bytes(err, b"write failed"),
    }
}

/// Returns the name of an edit's fault.
fn name_of(fault: EditFault) -> &'static str
    ensures { result.now ≡ name_text fault }
{
    match fault {
        EditFault::UnknownNode => "UnknownNode",
        EditFault::NoChildrenHere => "NoChildrenHere",
        EditFault::RootOrFragment => "RootOrFragment",
        EditFault::Cycle => "Cycle",
        EditFault::TooManyNodes => "TooManyNodes",
        EditFault::Memory => "Memory",
        EditFault::BadContents => "BadContents",
        EditFault::Markup(_) => "Markup",
    }
}
