//! Writing to standard output.
ghost use Rattle.std.specs.Prelude.{◌≡◌, ◌++◌, codes, decimal, IfErr, IfOk, OnErr, OnOk};
ghost use Rattle.std.specs.Io.KnownBytes.{Appends};
ghost use Rattle.run_parts.specs.ProgramFault.{of_program};
ghost use Rattle.transfer.specs.Transfer.{AppendsFront};

use crate::fault::ProgramFault;
use faults::AnyFault;
use itoa::Buffer;
use std::alloc::Global;
use std::io::Write;
use transfer::{RETRIES, write_whole};

/// Writes a whole text.
///
/// # Errors
///
/// The output can't be written. The writer has a front part of the text then.
pub fn write_text<W: Write>(writer: &mut W, text: &[u8]) -> Result<(), ProgramFault>
    ensures ok { OnOk result (Appends (W.contents writer.old) (W.contents writer.new) text.now) }
    ensures fault { IfErr result (λ fault. fault ≡ ProgramFault.NotWritten) }
    ensures err { OnErr result (AppendsFront (W.contents writer.old) (W.contents writer.new) text.now) }
{
    match write_whole(writer, text, &mut { RETRIES }) {
        Ok(()) => Ok(()),
        Err(_) => Err(ProgramFault::NotWritten),
    }
}

/// Prints a whole line.
///
/// # Errors
///
/// The output can't be written. The writer has a front part of the line then.
pub fn printed<W: Write>(writer: &mut W, line: &[u8]) -> Result<(), AnyFault>
    ensures ok { OnOk result (Appends (W.contents writer.old) (W.contents writer.new) line.now) }
    ensures fault { IfErr result (λ fault. fault ≡ of_program ProgramFault.NotWritten) }
    ensures err { OnErr result (AppendsFront (W.contents writer.old) (W.contents writer.new) line.now) }
{
    Ok(write_text(writer, line)?)
}

/// Makes a line of a text and a number in decimal digits.
///
/// # Errors
///
/// Memory ran out.
pub fn numbered_line(alloc: Global, text: &[u8], number: u64) -> Result<Vec<u8>, ProgramFault>
    ensures text { IfOk result (λ line. line.items ≡ text.now ++ decimal number ++ codes "\n") }
    ensures fault { IfErr result (λ fault. fault ≡ ProgramFault.Memory) }
{
    let mut line = Vec::new(alloc);
    line.extend_from_slice(text)?;
    line.extend_from_slice(Buffer::new().format(number).as_bytes())?;
    line.extend_from_slice(b"\n")?;
    Ok(line)
}
