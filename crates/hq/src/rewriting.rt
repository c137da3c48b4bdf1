//! Whole documents, printed or written back to their files.

use crate::keeping::ErrorKeeper;
use crate::pages::Page;
use dom_query::{Document, NodeMarkup, TraversalScope, WriteFault};
use hq_pages::faults::Fault;
use hq_pages::words::check_name;
use std::fs::{self, File, Metadata, OpenOptions};
use std::io::{BufWriter, ErrorKind, Write};
use std::os::unix::fs::{MetadataExt, OpenOptionsExt, chown};

/// How many names are tried for the file that is written beside the old one.
const NAMES: usize = 100;

/// Only its owner may read or write the new file until it has the mode of the old one.
const PRIVATE: u32 = 0o600;

/// Prints a whole document, doctype included, and a line feed.
pub fn print_document<W: Write>(document: &Document, out: &mut W) -> Result<(), Fault> {
    write_document(document, out)?;
    out.write_all(b"\n")?;
    Ok(())
}

/// Writes a whole document, doctype included.
fn write_document<W: Write>(document: &Document, out: &mut W) -> Result<(), Fault> {
    let mut keeper = ErrorKeeper::new(out);
    match document
        .root()
        .write_html(TraversalScope::ChildrenOnly, &mut keeper)
    {
        Ok(()) => Ok(()),
        Err(WriteFault::Memory) => Err(Fault::Memory),
        Err(WriteFault::Write) => Err(keeper.into_fault()),
    }
}

/// Writes a document back to its file, of which the mode and the owner stay. If the name is a
/// symbolic link, the file that it leads to is written, and the link stays.
///
/// The document is written to a new file in the same folder, which then replaces the old one, so
/// the old contents stay until the new ones are complete. A file with several names (hard links) is
/// refused, because its other names would keep the old contents, and so is one that isn't as it was
/// before it was read (`old`), because what was written to it since would be lost. No line feed is
/// added: when the file is read again, it would be part of the body.
pub fn write_back(rt: &HostRuntime, page: &Page<'_>, old: &Metadata) -> Result<(), Fault> {
    if !old.is_file() {
        return Err(Fault::InPlace("it isn't a regular file"));
    }
    if old.nlink() > 1 {
        return Err(Fault::InPlace(
            "it has other names (hard links), which would keep the old contents",
        ));
    }
    let path = path_of(rt, page.name)?;
    replace(rt, page, path.as_str(), old)
}

/// Returns the owner, the mode, the length and the times of a file. Fails if there is no such file
/// or its name isn't UTF-8.
pub fn state_of(rt: &HostRuntime, name: &str) -> Result<Metadata, Fault> {
    check_name(name)?;
    match fs::metadata(rt, name) {
        Ok(state) => Ok(state),
        Err(fault) => Err(Fault::File(fault)),
    }
}

/// Returns whether a file is still the same, and as it was, as far as its length and the time of
/// its last change say.
fn is_as_it_was(old: &Metadata, now: &Metadata) -> bool {
    let same_file = old.ino() == now.ino() && old.dev() == now.dev();
    let same_time = old.ctime() == now.ctime() && old.ctime_nsec() == now.ctime_nsec();
    same_file && same_time && old.len() == now.len()
}

/// Returns the path of the file with that name, or of the one that a symbolic link leads to.
fn path_of(rt: &HostRuntime, name: &str) -> Result<String, Fault> {
    match fs::symlink_metadata(rt, name) {
        Ok(state) if state.is_symlink() => target_of(rt, name),
        Ok(_) => Ok(String::from_str(rt.alloc(), name)?),
        Err(fault) => Err(Fault::File(fault)),
    }
}

/// Returns the path of the file that a symbolic link leads to.
fn target_of(rt: &HostRuntime, link: &str) -> Result<String, Fault> {
    match fs::canonicalize(rt, link) {
        Ok(path) => Ok(String::from_str(rt.alloc(), path.as_str())?),
        Err(fault) => Err(Fault::File(fault)),
    }
}

/// Replaces the file at that path by the document.
fn replace(rt: &HostRuntime, page: &Page<'_>, path: &str, old: &Metadata) -> Result<(), Fault> {
    let (file, beside) = new_file(rt, path)?;
    match fill_and_rename(rt, page, file, beside.as_str(), (path, old)) {
        Ok(()) => Ok(()),
        Err(fault) => {
            let _ = fs::remove_file(rt, beside.as_str());
            Err(fault)
        }
    }
}

/// Makes a new file beside the one at that path, and returns it with its path.
fn new_file(rt: &HostRuntime, path: &str) -> Result<(File, String), Fault> {
    for number in 1..=NAMES {
        let beside = format!(in rt.alloc(); "{path}.hq-new{number}")?;
        match OpenOptions::new()
            .write(true)
            .create_new(true)
            .mode(PRIVATE)
            .open(rt, beside.as_str())
        {
            Ok(file) => return Ok((file, beside)),
            Err(fault) => {
                if fault.kind() != ErrorKind::AlreadyExists {
                    return Err(Fault::File(fault));
                }
            }
        }
    }
    Err(Fault::InPlace("no new file can be made beside it: .hq-new1 to .hq-new100 are there"))
}

/// Writes the document to the new file, gives that file the owner and the mode of the old one, and
/// puts it in the place of the old one, unless that changed meanwhile.
fn fill_and_rename(
    rt: &HostRuntime,
    page: &Page<'_>,
    file: File,
    beside: &str,
    old: (&str, &Metadata),
) -> Result<(), Fault> {
    let mut out = BufWriter::new(rt.alloc(), file)?;
    write_document(&page.document, &mut out)?;
    out.flush()?;
    keep_owner(rt, beside, old.1)?;
    match fs::set_permissions(rt, beside, old.1.permissions()) {
        Ok(()) => {}
        Err(fault) => return Err(Fault::File(fault)),
    }
    if !is_as_it_was(old.1, &state_of(rt, old.0)?) {
        return Err(Fault::InPlace("it changed meanwhile"));
    }
    match fs::rename(rt, beside, old.0) {
        Ok(()) => Ok(()),
        Err(fault) => Err(Fault::File(fault)),
    }
}

/// Gives the new file the owner and the group of the old one, where they differ.
fn keep_owner(rt: &HostRuntime, beside: &str, old: &Metadata) -> Result<(), Fault> {
    let new = state_of(rt, beside)?;
    if new.uid() == old.uid() && new.gid() == old.gid() {
        return Ok(());
    }
    match chown(rt, beside, Some(old.uid()), Some(old.gid())) {
        Ok(()) => Ok(()),
        Err(_) => Err(Fault::InPlace("its owner and its group can't be kept")),
    }
}
