//! Bytes in memory that are read and written at an offset.
ghost use Rattle.std.specs.Bool.{OnFalse, OnTrue};
ghost use Rattle.std.specs.Prelude.{◌≡◌, ◌+◌, ◌-◌, ◌≤◌, ◌++◌, ◌↔◌, length, replicate, take, IsTrue, OnErr, OnOk};
ghost use Rattle.sqlite_disk.specs.Disk.{Cut, Holds, Torn};

use std::alloc::AllocError;

/// Fills a buffer with the bytes from an offset on, if there are as many. Returns whether there are; else the
/// buffer stays as it was.
pub fn read(bytes: &[u8], at: usize, buf: &mut [u8]) -> bool
    ensures read { OnTrue result (Holds bytes.now at buf.new) }
    ensures within { IsTrue result ↔ (at + length buf.old ≤ length bytes.now) }
    ensures left { OnFalse result (buf.new ≡ buf.old) }
{
    if at > bytes.len() || buf.len() > bytes.len() - at {
        return false;
    }
    buf.copy_from_slice(&bytes[at..at + buf.len()]);
    true
}

/// Replaces the bytes from an offset on by a part. The bytes between the old end and the offset become 0.
///
/// # Errors
///
/// Memory ran out. The bytes are as they were.
pub fn write(bytes: &mut Vec<u8>, at: usize, part: &[u8]) -> Result<(), AllocError>
    ensures written { OnOk result (Holds bytes.new.items at part.now) }
    ensures others { Torn at (length part.now) bytes.old.items bytes.new.items }
    ensures err { OnErr result (bytes.new.items ≡ bytes.old.items) }
{
    let end = at.checked_add(part.len()).ok_or(AllocError)?;
    if end > bytes.len() {
        set_len(bytes, end)?;
    }
    bytes[at..end].copy_from_slice(part);
    Ok(())
}

/// Cuts the bytes to a length, or fills them up with 0.
///
/// # Errors
///
/// Memory ran out. The bytes are as they were.
pub fn set_len(bytes: &mut Vec<u8>, len: usize) -> Result<(), AllocError>
    ensures ok { OnOk result (bytes.new.items
        ≡ take len bytes.old.items ++ replicate (len - length bytes.old.items) 0) }
    ensures len { OnOk result (length bytes.new.items ≡ len) }
    ensures others { Cut len bytes.old.items bytes.new.items }
    ensures err { OnErr result (bytes.new.items ≡ bytes.old.items) }
{
    bytes.resize(len, 0)
}
