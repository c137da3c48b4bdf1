//! The work of the program `dq`, with any readers and writers.

ghost use Rattle.std.specs.Prelude.{◌≡◌, ◌⊎◌, None, Some, IfOk, IfErr, IfSome, MatchOption, OnOk};
ghost use Rattle.dom_query.specs.Drive.{AsksFor, AsksForNothing, words_of};
ghost use Rattle.dom_query.specs.Drive.{BeganOver, Drove, Stopped};

use crate::laws::one_output;
use crate::markdown::write_markdown;
use crate::reporting::{DriveFault, report, status_of_fault};
use crate::runner::{RunFault, run};
use std::alloc::Global;
use std::io::{ErrorKind, Read, Write};

/// What the program's arguments ask for.
#[derive(Clone, Copy, Drop)]
pub enum Job<'a> {
    /// Run this script over the markup.
    Script(&'a str),
    /// Write the Markdown of the markup.
    Markdown,
}

/// Returns what the arguments ask for, or `None` if there isn't exactly one.
fn job_of(words: &[String]) -> Option<Job<'_>>
    ensures { MatchOption result (AsksForNothing (words_of words.now))
        (AsksFor (words_of words.now)) }
{
    let [word] = words else {
        return None;
    };
    let script = word.as_str();
    if script == "--md" {
        return Some(Job::Markdown);
    }
    Some(Job::Script(script))
}

/// Reads everything from the reader. It fails with `DriveFault::Read` when the reader fails, and
/// with `RunFault::Memory` when memory runs out.
fn read_whole<R: Read>(alloc: Global, input: &mut R) -> Result<Vec<u8>, DriveFault>
    ensures ok { IfOk result (λ bytes.
        IfSome (R.remaining input.old) (λ known. bytes.items ≡ known)) }
    ensures err { IfErr result (λ f. (f ≡ DriveFault.Read) ⊎ (f ≡ DriveFault.Run RunFault.Memory)) }
{
    let mut bytes = Vec::new(alloc);
    match input.read_to_end(&mut bytes) {
        Ok(_) => Ok(bytes),
        Err(fault) => {
            if fault.kind() == ErrorKind::OutOfMemory {
                return Err(DriveFault::Run(RunFault::Memory));
            }
            Err(DriveFault::Read)
        }
    }
}

/// Does what the arguments ask for, with everything from the reader as the markup.
fn run_words<R: Read, W: Write>(
    alloc: Global,
    args: &[String],
    input: &mut R,
    out: &mut W,
) -> Result<(), DriveFault>
    ensures done { OnOk result (Stopped (words_of args.now) (R.remaining input.old)
        (W.contents out.old) (W.contents out.new) None) }
    ensures cause { IfErr result (λ fault. Stopped (words_of args.now) (R.remaining input.old)
        (W.contents out.old) (W.contents out.new) (Some fault)) }
    ensures begun { BeganOver (words_of args.now) (R.remaining input.old)
        (W.contents out.old) (W.contents out.new) }
    ensures untouched { IfErr result (λ fault. fault ≡ DriveFault.Usage
        → (input.new ≡ input.old) × (out.new ≡ out.old)) }
{
    // Called for its contract; the law does nothing at run time.
    one_output();
    let Some(job) = job_of(args) else {
        return Err(DriveFault::Usage);
    };
    let markup = read_whole(alloc, input)?;
    match job {
        Job::Script(script) => Ok(run(alloc, &markup, script.as_bytes(), out)?),
        Job::Markdown => Ok(write_markdown(alloc, &markup, out)?),
    }
}

/// Does the work of the program `dq`. Its one argument is a script, which is run over the markup
/// from `input` and writes to `out`; or it is `--md`, and then the Markdown of the markup and a
/// line feed are written to `out`. Returns the exit status: 0 when everything was done; 64 when
/// there isn't exactly one argument; 2 for a bad script; 3 for bad markup; 4 when an edit failed or
/// no node id was left; 5 when memory ran out, or the reader or the writer failed. When it isn't
/// 0, one line on `err` says why.
pub fn drive<R: Read, W: Write, E: Write>(
    alloc: Global,
    args: &[String],
    input: &mut R,
    out: &mut W,
    err: &mut E,
) -> u8
    // The status is that of the cause, and the line of that cause is written to `err`.
    ensures drove { Drove (words_of args.now) (R.remaining input.old) (W.contents out.old)
        (W.contents out.new) (E.contents err.old) (E.contents err.new) result }
    // The arguments are tested before anything is read or written.
    ensures untouched { result ≡ 64 → (input.new ≡ input.old) × (out.new ≡ out.old) }
    ensures quiet { result ≡ 0 → err.new ≡ err.old }
{
    match run_words(alloc, args, input, out) {
        Ok(()) => 0,
        Err(fault) => {
            // The status doesn't depend on whether this line could be written.
            let _ = report(err, fault);
            status_of_fault(fault)
        }
    }
}
