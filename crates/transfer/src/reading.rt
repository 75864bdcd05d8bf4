//! Bytes from a reader.
ghost use Rattle.std.specs.Prelude.{◌≡◌, ◌<◌, ◌≤◌, length, take, IfOk, IfErr, IfSome, OnErr};
ghost use Rattle.std.specs.Io.{ReadsAtMost};
ghost use Rattle.std.specs.Io.KnownBytes.{Keeps, Consumes, IsAtEnd};
ghost use Rattle.std.specs.IoError.{error_kind};
ghost use Rattle.transfer.specs.Transfer.{IsGivenUp, ConsumesUpTo};

use crate::retrying::spend_retry;
use crate::{Intake, TransferFault};
use std::alloc::Global;
use std::io::{self, ErrorKind, Read};

/// The number of times that one transfer makes interrupted calls again.
pub const RETRIES: u32 = 64;

/// Reads `limit` bytes, or all if there are fewer, and never asks for more.
///
/// # Errors
///
/// [`TransferFault::Read`] if a read fails, or is interrupted when no retry is left, and
/// [`TransferFault::Memory`]. What was read until then is lost.
pub fn read_source<R: Read>(
    alloc: Global,
    reader: &mut R,
    limit: usize,
    retries: &mut u32,
) -> Result<Vec<u8>, TransferFault>
    ensures bytes { IfOk result (λ source.
        Consumes (R.remaining reader.old) (R.remaining reader.new) source.items) }
    ensures within { IfOk result (λ source. length source.items ≤ limit) }
    ensures whole { IfOk result (λ source. length source.items < limit → IsAtEnd (R.remaining reader.new)) }
    ensures front { IfOk result (λ source.
        IfSome (R.remaining reader.old) (λ input. source.items ≡ take limit input)) }
    ensures err { OnErr result (ConsumesUpTo limit (R.remaining reader.old) (R.remaining reader.new)) }
    ensures given_up { IfErr result (λ fault. IsGivenUp fault retries.new) }
    ensures counted { retries.new ≤ retries.old }
{
    let mut source = Intake::new(alloc);
    while source.len() < limit {
        let wanted = limit - source.len();
        if source.read_more(reader, wanted, retries)? == 0 {
            break;
        }
    }
    Ok(source.into_vec())
}

/// Reads once. A read that is interrupted is made again.
///
/// # Errors
///
/// The reader's own error, and an interruption when no retry is left. Nothing was read then.
pub fn read_some<R: Read>(reader: &mut R, buf: &mut [u8], retries: &mut u32) -> io::Result<usize>
    ensures bound { ReadsAtMost result buf.new }
    ensures bytes { IfOk result (λ n.
        Consumes (R.remaining reader.old) (R.remaining reader.new) (take n buf.new)) }
    ensures end { IfOk result (λ n. n ≡ 0 → 0 < length buf.old → IsAtEnd (R.remaining reader.new)) }
    ensures err { OnErr result (Keeps (R.remaining reader.old) (R.remaining reader.new)) }
    ensures given_up { IfErr result (λ error. error_kind error ≡ ErrorKind.Interrupted → retries.new ≡ 0) }
    ensures counted { retries.new ≤ retries.old }
{
    loop {
        match reader.read(buf) {
            Ok(count) => return Ok(count),
            Err(error) => spend_retry(error, retries)?,
        }
    }
}
