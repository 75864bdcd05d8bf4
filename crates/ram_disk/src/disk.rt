//! The file, as a `Disk` of `sqlite_disk`.
ghost use Rattle.std.specs.Prelude.{◌≡◌, false, is_ok, refl, true};
ghost use Rattle.sqlite_disk.specs.Disk.{CountsFault};
ghost use Rattle.sqlite_disk.specs.Refusal.{finds_no_room};

use crate::bytes;
use sqlite_disk::{Disk, Tally};
use std::alloc::{AllocError, Global};
use std::io;

/// A file in memory. Each write is kept at once: a stop of the database at any moment leaves exactly what was written.
///
/// A call fails only if memory runs out or a read goes past the end.
#[derive(Drop)]
pub struct RamDisk {
    bytes: Vec<u8>,
    faults: u64,
}

impl RamDisk {
    ghost use Rattle.ram_disk.specs.RamDisk.{IsFresh};

    /// An empty file.
    pub fn new(alloc: Global) -> RamDisk
        ensures { IsFresh result }
    {
        RamDisk {
            bytes: Vec::new(alloc),
            faults: 0,
        }
    }
}

impl Disk for RamDisk {
    ghost use Rattle.ram_disk.specs.RamDisk.{bytes_of};

    ghost seen = { λ disk. bytes_of disk };

    ghost may_leave = { λ disk left. left ≡ bytes_of disk };

    ghost is_usable = { λ _. true };

    ghost faults = { λ disk. disk.faults };

    ghost is_clean = { λ _. true };

    ghost tally_of = { λ _. record { caught = 0; refused = 0 } };

    ghost key_of = { λ _. 0 };

    ghost is_fair = { λ _ _. true };

    ghost fair_if_clean = { λ _ _ _. refl };

    ghost seen_may_stay = { λ _. refl };

    fn mixes(&self) -> bool {
        false
    }

    // Memory returns the bytes that were written, so there is nothing to test and no secret.
    fn key(&self) -> u64 {
        0
    }

    fn tally(&self) -> Tally {
        Tally {
            caught: 0,
            refused: 0,
        }
    }

    fn may_be_used(&self) -> bool {
        true
    }

    fn len(&mut self) -> io::Result<usize> {
        Ok(self.bytes.len())
    }

    fn read_at(&mut self, at: usize, buf: &mut [u8]) -> io::Result<()> {
        if !bytes::read(&self.bytes, at, buf) {
            return Err(io::ErrorKind::UnexpectedEof.into());
        }
        Ok(())
    }

    fn read_checked(&mut self, _key: u64, _want: u64, at: usize, buf: &mut [u8]) -> io::Result<()> {
        self.read_at(at, buf)
    }

    fn write_at(&mut self, at: usize, bytes: &[u8]) -> io::Result<()> {
        counted(bytes::write(&mut self.bytes, at, bytes), &mut self.faults)
    }

    fn set_len(&mut self, len: usize) -> io::Result<()> {
        counted(bytes::set_len(&mut self.bytes, len), &mut self.faults)
    }

    // Each write is in its place already.
    fn sync(&mut self) -> io::Result<()> {
        Ok(())
    }
}

// Counts a call that was refused for want of memory.
fn counted(outcome: Result<(), AllocError>, faults: &mut u64) -> io::Result<()>
    ensures variant { is_ok result ≡ is_ok outcome }
    ensures kind { finds_no_room result ≡ false }
    ensures faults { CountsFault result faults.old faults.new }
{
    if outcome.is_err() {
        *faults = faults.saturating_add(1);
        return Err(io::Error::from(io::ErrorKind::OutOfMemory));
    }
    Ok(())
}
