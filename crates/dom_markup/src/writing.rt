//! Where text is written to: a writer, or the end of a string.

ghost use Rattle.std.specs.Prelude.{◌≡◌, ℕ, List, Option, Some, IfErr, string_bytes};
ghost use Rattle.std.specs.List.{flat_map};
ghost use Rattle.dom_markup.specs.Writing.{Writes};

use dom_nodes::fault::OutOfMemory;
use std::io::Write;

/// Why a text wasn't written completely.
#[derive(Clone, Copy, PartialEq, Eq, Debug, Drop, thiserror::Error)]
pub enum WriteFault {
    /// The writer failed, or accepted no bytes.
    #[error("write failed")]
    Write,
    /// Memory ran out.
    #[error("out of memory")]
    Memory,
}

impl From<OutOfMemory> for WriteFault {
    ghost use Rattle.dom_markup.specs.declared.writing.WriteFault.{WriteFault};

    ghost from_gives = { λ _ fault. fault ≡ WriteFault.Memory };

    fn from(_refused: OutOfMemory) -> WriteFault {
        WriteFault::Memory
    }
}

/// A way to write texts to a `W`.
pub(crate) trait PutText<W> {
    // The bytes that were written, if they are known.
    ghost written: { W → Option (List ℕ) };

    /// The error of a write, which also covers memory that runs out in the caller.
    type Fault: From<OutOfMemory>;

    /// Writes the text. After an error, a beginning of it is written.
    fn put(w: &mut W, text: &str) -> Result<(), Self::Fault>
        ensures { Writes (written w.old) (written w.new) result text.now };
}

/// Writes texts to a writer.
pub(crate) struct ToWriter;

impl<W: Write> PutText<W> for ToWriter {
    ghost written = { λ w. W.contents w };

    type Fault = WriteFault;

    fn put(w: &mut W, text: &str) -> Result<(), WriteFault> {
        write_bytes(w, text.as_bytes())
    }
}

/// Appends texts to a string.
pub(crate) struct ToText;

impl PutText<String> for ToText {
    ghost written = { λ text. Some (string_bytes text) };

    type Fault = OutOfMemory;

    fn put(w: &mut String, text: &str) -> Result<(), OutOfMemory> {
        Ok(w.push_str(text)?)
    }
}

/// Writes all the bytes. Fails with `WriteFault::Write` if the writer fails or accepts no bytes; a
/// beginning is then written. The writer's own `write_all` doesn't say what a failed call has
/// written.
pub fn write_bytes<W: Write>(w: &mut W, bytes: &[u8]) -> Result<(), WriteFault>
    ensures written { Writes (W.contents w.old) (W.contents w.new) result bytes.now }
    ensures fault { IfErr result (λ fault. fault ≡ WriteFault.Write) }
{
    let mut rest = bytes;
    while !rest.is_empty() {
        match w.write(rest) {
            Ok(0) => return Err(WriteFault::Write),
            Ok(taken) => rest = &rest[taken..],
            Err(_) => return Err(WriteFault::Write),
        }
    }
    Ok(())
}

/// Writes the parts, one after the other.
pub(crate) fn put_parts<P: PutText<W>, W>(w: &mut W, parts: &[&str]) -> Result<(), P::Fault>
    ensures { Writes (P.written w.old) (P.written w.new) result (flat_map (λ p. p.now) parts.now) }
{
    for part in parts {
        P::put(w, part)?;
    }
    Ok(())
}
