//! `hq SELECTOR [FILE ..]` prints what a selector matches in pages. `hq --help` lists the options.
#![tactic(auto)]

mod archive;
mod keeping;
mod output;
mod pages;
mod rewriting;
mod stream;

use clap::Error;
use hq_pages::command::command;
use hq_pages::faults::{Fault, report, report_in};
use hq_pages::options::Options;
use hq_pages::words::{count_marked, count_marked_names, words_of};
use pages::do_file;
use std::io::{BufWriter, IsTerminal, Write};
use std::process::ExitCode;
use stream::answer_files;

/// The status where something matched.
const MATCHED: u8 = 0;

/// The status where nothing matched.
const UNMATCHED: u8 = 1;

/// The status where something failed.
const FAULTY: u8 = 2;

fn main(rt: HostRuntime) -> ExitCode {
    match run_command_line(&rt) {
        Ok(status) => ExitCode::from(status),
        Err(fault) => ExitCode::from(failed(&rt, &fault)),
    }
}

/// Does what the command line asks for, and returns the exit status.
fn run_command_line(rt: &HostRuntime) -> Result<u8, Fault> {
    let words = words_of(rt)?;
    let marked = count_marked(&words);
    match command(rt.alloc())?.try_get_matches_from(words.as_slice()) {
        Ok(matches) => {
            let terminal = rt.stdout().is_terminal();
            match Options::new(rt, &matches, terminal) {
                Ok(options) => do_named(rt, &options, marked),
                Err(_) if marked > 0 => Err(Fault::Argument),
                Err(fault) => Err(fault),
            }
        }
        Err(_) if marked > 0 => Err(Fault::Argument),
        Err(refused) => Ok(show(rt, &refused)),
    }
}

/// Prints what is asked for of each file, and returns the exit status. Fails if one of the `marked`
/// words, which aren't UTF-8, isn't the name of a file.
fn do_named(rt: &HostRuntime, options: &Options<'_>, marked: usize) -> Result<u8, Fault> {
    if marked > 0 && count_marked_names(&options.files) != marked {
        return Err(Fault::Argument);
    }
    do_files(rt, options)
}

/// Prints what is wrong with the command line, or the text of --help or --version, and returns the
/// exit status.
fn show(rt: &HostRuntime, refused: &Error) -> u8 {
    if refused.print(rt).is_err() || refused.use_stderr() {
        return FAULTY;
    }
    MATCHED
}

/// Prints what is asked for of each file, and returns the exit status.
fn do_files(rt: &HostRuntime, options: &Options<'_>) -> Result<u8, Fault> {
    let mut out = BufWriter::new(rt.alloc(), rt.stdout())?;
    let mut status = UNMATCHED;
    if options.stream.is_one() {
        let outcome = answer_files(rt, options, &mut out)?;
        status = status_of(outcome.matched, outcome.all_read);
    } else {
        for name in options.files.as_slice() {
            status = joined_status(status, do_or_report(rt, name, options, &mut out)?);
        }
    }
    out.flush()?;
    Ok(status)
}

/// Returns the exit status of a stream of pages.
fn status_of(matched: bool, all_read: bool) -> u8 {
    match (all_read, matched) {
        (false, _) => FAULTY,
        (true, true) => MATCHED,
        (true, false) => UNMATCHED,
    }
}

/// Returns the exit status for two files from that of each.
fn joined_status(status: u8, another: u8) -> u8 {
    if status == FAULTY || another == FAULTY {
        return FAULTY;
    }
    status.min(another)
}

/// Prints what is asked for of a file, and returns its status. If the file can't be read or parsed,
/// that is reported, and the next file can be read.
fn do_or_report<W: Write>(
    rt: &HostRuntime,
    name: &str,
    options: &Options<'_>,
    out: &mut W,
) -> Result<u8, Fault> {
    match do_file(rt, name, options, out) {
        Ok(true) => Ok(MATCHED),
        Ok(false) => Ok(UNMATCHED),
        Err(fault) => {
            if !fault.is_of_a_file() {
                return Err(fault);
            }
            // The output so far is written first, so that it comes before the report.
            out.flush()?;
            report_in(rt, name, &fault);
            Ok(FAULTY)
        }
    }
}

/// Reports a fault that ends the program, and returns the exit status. If the reader of the output
/// has closed it, nothing is reported.
fn failed(rt: &HostRuntime, fault: &Fault) -> u8 {
    if fault.is_broken_pipe() {
        return MATCHED;
    }
    report(rt, fault);
    FAULTY
}
