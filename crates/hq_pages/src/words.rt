//! The words of the command line.
//!
//! The library's paths are UTF-8, so a file whose name isn't can't be opened. This is reported when
//! the file's turn comes, as it is for other files that can't be read.

use crate::faults::Fault;
use std::alloc::Global;
use std::env::{self, Env, FillError};
use std::fs::{self, File};
use std::io::{self, ErrorKind};

/// An argument takes at most this many bytes, by Linux.
const MOST: usize = 131_072;

/// What is put after a word that isn't UTF-8. No argument holds it.
const MARK: char = '\0';

/// Returns the words of the command line; the first is the program's name. In a word that isn't
/// UTF-8, U+FFFD stands for each part that isn't, and the word is marked. Fails only when memory
/// runs out.
pub fn words_of(rt: &HostRuntime) -> Result<Vec<String>, Fault> {
    match env::args(rt) {
        Ok(words) => Ok(words.collect(rt.alloc())?),
        Err(fault) if fault.kind() == ErrorKind::OutOfMemory => Err(Fault::Memory),
        Err(_) => marked_words(rt),
    }
}

/// Returns the words of a command line of which some aren't UTF-8.
fn marked_words(rt: &HostRuntime) -> Result<Vec<String>, Fault> {
    let alloc = rt.alloc();
    let mut buffer = Vec::new(alloc);
    buffer.resize(MOST, 0u8)?;
    let mut words = Vec::new(alloc);
    for at in 0..usize::MAX {
        match rt.arg(at, &mut buffer) {
            Ok(length) => match buffer.get(..length) {
                Some(bytes) => words.push(word_of(alloc, bytes)?)?,
                None => return Err(Fault::Argument),
            },
            Err(FillError::NotPresent) => break,
            Err(FillError::TooLong) => return Err(Fault::Argument),
        }
    }
    Ok(words)
}

/// Returns the word of these bytes, marked if they aren't UTF-8.
fn word_of(alloc: Global, bytes: &[u8]) -> Result<String, Fault> {
    let mut word = String::from_utf8_lossy(alloc, bytes)?;
    if word.as_bytes() != bytes {
        word.push(MARK)?;
    }
    Ok(word)
}

/// Returns how many of the words are marked.
pub fn count_marked(words: &[String]) -> usize {
    let mut count: usize = 0;
    for word in words {
        if word.as_str().ends_with(MARK) {
            count = count.saturating_add(1);
        }
    }
    count
}

/// Returns how many of the names are marked.
pub fn count_marked_names(names: &[&str]) -> usize {
    let mut count: usize = 0;
    for name in names {
        if name.ends_with(MARK) {
            count = count.saturating_add(1);
        }
    }
    count
}

/// Returns a word without its mark.
pub fn unmarked(word: &str) -> &str {
    match word.strip_suffix(MARK) {
        Some(rest) => rest,
        None => word,
    }
}

/// Fails if the name of a file isn't UTF-8.
pub fn check_name(name: &str) -> Result<(), Fault> {
    if name.ends_with(MARK) {
        return Err(Fault::File(io::Error::new(
            ErrorKind::InvalidInput,
            "the name isn't UTF-8; read the file from standard input",
        )));
    }
    Ok(())
}

/// Opens a file. Fails if its name isn't UTF-8, and if the system doesn't let it be read.
pub fn open_file(rt: &HostRuntime, name: &str) -> Result<File, Fault> {
    check_name(name)?;
    match fs::open(rt, name) {
        Ok(file) => Ok(file),
        Err(fault) => Err(Fault::File(fault)),
    }
}
