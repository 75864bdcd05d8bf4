//! The calls that are made again.
ghost use Rattle.std.specs.Prelude.{◌≡◌, ◌+◌, IfErr, OnOk};
ghost use Rattle.std.specs.IoError.{error_kind};

use std::io::{self, ErrorKind};

/// Spends a retry on a call that was interrupted, so that it is made again.
///
/// # Errors
///
/// The call's own error, if it failed in another way or no retry is left. No retry is spent then.
pub fn spend_retry(error: io::Error, retries: &mut u32) -> io::Result<()>
    ensures interrupted { OnOk result (error_kind error ≡ ErrorKind.Interrupted) }
    ensures spent { OnOk result (retries.new + 1 ≡ retries.old) }
    ensures given_up { IfErr result (λ error. error_kind error ≡ ErrorKind.Interrupted → retries.new ≡ 0) }
    ensures err { IfErr result (λ refused. (refused ≡ error) × (retries.new ≡ retries.old)) }
{
    if error.kind() != ErrorKind::Interrupted || *retries == 0 {
        return Err(error);
    }
    *retries -= 1;
    Ok(())
}
