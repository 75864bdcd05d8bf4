//! Bytes to a writer.
ghost use Rattle.std.specs.Prelude.{◌≡◌, ◌<◌, ◌≤◌, take, IfOk, IfErr, OnOk, OnErr};
ghost use Rattle.std.specs.Io.{WritesAtMost};
ghost use Rattle.std.specs.Io.KnownBytes.{Keeps, Appends};
ghost use Rattle.std.specs.IoError.{error_kind};
ghost use Rattle.transfer.specs.Transfer.{AppendsFront, SpendsRetries};

use crate::retrying::spend_retry;
use std::io::{self, ErrorKind, Write};

/// Writes the whole text, and flushes the writer.
///
/// # Errors
///
/// The writer's own error, also that of a flush; an interruption when no retry is left; `WriteZero` if a
/// write takes no byte. A front part of the text was written then.
pub fn write_whole<W: Write>(writer: &mut W, text: &[u8], retries: &mut u32) -> io::Result<()>
    ensures ok { OnOk result (Appends (W.contents writer.old) (W.contents writer.new) text.now) }
    ensures err { OnErr result (AppendsFront (W.contents writer.old) (W.contents writer.new) text.now) }
    ensures given_up { IfErr result (λ error. error_kind error ≡ ErrorKind.Interrupted → retries.new ≡ 0) }
    ensures counted { retries.new ≤ retries.old }
{
    let mut written = 0;
    while written < text.len() {
        let count = write_some(writer, &text[written..], retries)?;
        if count == 0 {
            return Err(io::Error::new(ErrorKind::WriteZero, "the writer takes no byte"));
        }
        written += count;
    }
    flush(writer, retries)
}

// Writes once. A write that is interrupted is made again. It fails if one fails in another way, or no
// retry is left.
fn write_some<W: Write>(writer: &mut W, text: &[u8], retries: &mut u32) -> io::Result<usize>
    ensures bound { WritesAtMost result text.now }
    ensures bytes { IfOk result (λ n.
        Appends (W.contents writer.old) (W.contents writer.new) (take n text.now)) }
    ensures err { OnErr result (Keeps (W.contents writer.old) (W.contents writer.new)) }
    ensures retries { SpendsRetries result retries.old retries.new }
{
    loop {
        match writer.write(text) {
            Ok(count) => return Ok(count),
            Err(error) => spend_retry(error, retries)?,
        }
    }
}

// Flushes once. A flush that is interrupted is made again. It fails if one fails in another way, or no
// retry is left.
fn flush<W: Write>(writer: &mut W, retries: &mut u32) -> io::Result<()>
    ensures bytes { Keeps (W.contents writer.old) (W.contents writer.new) }
    ensures retries { SpendsRetries result retries.old retries.new }
{
    loop {
        match writer.flush() {
            Ok(()) => return Ok(()),
            Err(error) => spend_retry(error, retries)?,
        }
    }
}
