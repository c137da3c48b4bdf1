//! A whole program: how many links the page in each of several files has.

use crate::fault::Fault;
use dom_query::prelude::*;
use std::io::Write;
use std::{env, fs};

/// Prints, for each file that the command line names, how many links its page has.
pub fn print_counts<W: Write>(rt: &HostRuntime, out: &mut W) -> Result<(), Fault> {
    let links = Matcher::new(rt.alloc(), "a[href]")?;
    // The first argument is the program's name.
    for name in env::args(rt)?.skip(1) {
        let bytes = fs::read(rt, name.as_str())?;
        let document = parse_page_bytes(rt.alloc(), &bytes, Options::default())?;
        let count = document.select_matcher(&links)?.length();
        writeln!(out, "{name}: {count}")?;
    }
    Ok(())
}
