//! Writing numbers without allocating memory.

ghost use Rattle.std.specs.Prelude.{decimal};
ghost use Rattle.dom_markup.specs.Writing.{Writes};

use dom_markup::serializing::WriteFault;
use dom_markup::writing::write_bytes;
use std::io::Write;

/// Writes the number in decimal. It fails when the writer does.
pub fn write_number<W: Write>(out: &mut W, number: usize) -> Result<(), WriteFault>
    ensures { Writes (W.contents out.old) (W.contents out.new) result (decimal number) }
{
    if number < 10 {
        return write_bytes(out, &[b'0' + number as u8]);
    }
    write_number(out, number / 10)?;
    write_bytes(out, &[b'0' + (number % 10) as u8])
}
