//! `dq SCRIPT` runs a script over the markup on standard input, `dq --md` writes its Markdown.
#![tactic(auto)]

use dom_query::drive;
use std::alloc::AllocError;
use std::env;
use std::io::{BufWriter, ErrorKind, Write};
use std::process::ExitCode;

fn main(rt: HostRuntime) -> ExitCode {
    let alloc = rt.alloc();
    let mut err = rt.stderr();
    let args = match env::args(&rt) {
        Ok(all) => all.skip(1).collect(alloc),
        Err(fault) if fault.kind() == ErrorKind::OutOfMemory => Err(AllocError),
        // An argument isn't UTF-8. No argument is passed on, so that wrong usage is reported.
        Err(_) => Ok(Vec::new(alloc)),
    };
    let (Ok(args), Ok(mut out)) = (args, BufWriter::new(alloc, rt.stdout())) else {
        let _ = err.write_all(b"dq: out of memory\n");
        return ExitCode::from(5);
    };
    let status = drive(alloc, &args, &mut rt.stdin(), &mut out, &mut err);
    // What was written before a fault is passed on too.
    let flushed = out.flush();
    if status == 0 && flushed.is_err() {
        let _ = err.write_all(b"dq: write failed\n");
        return ExitCode::from(5);
    }
    ExitCode::from(status)
}
