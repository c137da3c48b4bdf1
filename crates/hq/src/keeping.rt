//! A writer that keeps why writing failed, since the libraries tell only that it did.

use hq_pages::faults::Fault;
use std::io::{self, ErrorKind, Write};

/// Writes to another writer, and keeps the last error of that writer.
#[derive(Drop)]
pub struct ErrorKeeper<'w, W: Write> {
    out: &'w mut W,
    error: Option<io::Error>,
}

impl<'w, W: Write> ErrorKeeper<'w, W> {
    pub fn new(out: &'w mut W) -> ErrorKeeper<'w, W> {
        ErrorKeeper { out, error: None }
    }

    /// Returns why writing failed, in the words of the system.
    pub fn into_fault(self) -> Fault {
        match self.error {
            Some(error) => Fault::Output(error),
            // A writer that takes no byte and gives no error.
            None => Fault::Output(io::Error::from(ErrorKind::WriteZero)),
        }
    }
}

impl<W: Write> Write for ErrorKeeper<'_, W> {
    fn write(&mut self, buf: &[u8]) -> io::Result<usize> {
        match self.out.write(buf) {
            Ok(count) => Ok(count),
            Err(error) => {
                let kind = error.kind();
                self.error = Some(error);
                Err(io::Error::from(kind))
            }
        }
    }

    fn flush(&mut self) -> io::Result<()> {
        self.out.flush()
    }
}
