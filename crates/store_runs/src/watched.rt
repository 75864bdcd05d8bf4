//! A file of a store that fails once another file, or none, stands in its place.
ghost use Rattle.std.specs.Prelude.{◌≡◌, ℕ, Bool, List, Option, true, false, not, is_ok, IsErr, IsTrue, OnOk};
ghost use Rattle.sqlite_disk.specs.Disk.{CountsFault, Only};
ghost use Rattle.sqlite_disk.specs.Refusal.{finds_no_room};
ghost use Rattle.sqlite_disk.specs.Tally.{CountsRefusal};
ghost use Rattle.store_runs.specs.Watched.{IsStill, SeesNext, faults, file_of, is_lost, is_usable, place_of};

use sqlite_disk::{Disk, Tally};
use std::io;

/// The names by which the files of a store were opened.
///
/// A system's names don't tell what was seen there. A proof about every `Place` says when a look is taken.
pub trait Place {
    /// What each look found, the newest first, as far as that is known.
    ghost sights: { Self → Option (List Bool) };

    /// Whether the files that were opened still stand there.
    fn stands(&mut self) -> bool
        ensures { SeesNext result (sights self.old) (sights self.new) };
}

/// A file of a store, and its place. Behind each sync it looks there. If the files are gone or replaced, the sync has
/// failed, and the file is used no more: what is written into it would be found by nobody.
#[derive(Drop)]
pub struct Watched<D: Disk, P: Place> {
    file: D,
    place: P,
    is_lost: bool,
}

impl<D: Disk, P: Place> Watched<D, P> {
    /// Watches a file.
    pub fn new(file: D, place: P) -> Watched<D, P>
        ensures file { file_of result ≡ file }
        ensures place { place_of result ≡ place }
        ensures stands { is_lost result ≡ false }
    {
        Watched {
            file,
            place,
            is_lost: false,
        }
    }
}

// Looks whether the files still stand in their place.
fn look<P: Place>(place: &mut P, is_lost: &mut bool) -> io::Result<()>
    ensures seen { SeesNext (is_ok result) (P.sights place.old) (P.sights place.new) }
    ensures lost { is_lost.new ≡ not (is_ok result) }
    ensures kind { finds_no_room result ≡ false }
{
    *is_lost = !place.stands();
    if *is_lost {
        return Err(io::Error::other("another file has the name of the store"));
    }
    Ok(())
}

impl<D: Disk, P: Place> Disk for Watched<D, P> {
    ghost seen = { λ w. D.Disk.seen w.file };

    ghost may_leave = { λ w. D.Disk.may_leave w.file };

    ghost is_usable = { is_usable D.Disk };

    ghost faults = { faults D.Disk };

    ghost tally_of = { λ w. D.Disk.tally_of w.file };

    ghost is_rotten = { λ w. D.Disk.is_rotten w.file };

    ghost key_of = { λ w. D.Disk.key_of w.file };

    ghost is_frozen = { λ w. D.Disk.is_frozen w.file };

    ghost is_clean = { λ w. D.Disk.is_clean w.file };

    ghost is_fair = { λ w. D.Disk.is_fair w.file };

    ghost fair_if_clean = { λ w. D.Disk.fair_if_clean w.file };

    ghost seen_may_stay = { λ w. D.Disk.seen_may_stay w.file };

    ghost is_mixing = { λ w. D.Disk.is_mixing w.file };

    fn mixes(&self) -> bool {
        self.file.mixes()
    }

    fn key(&self) -> u64 {
        self.file.key()
    }

    fn tally(&self) -> Tally {
        self.file.tally()
    }

    fn may_be_used(&self) -> bool {
        self.file.may_be_used() && !self.is_lost
    }

    fn len(&mut self) -> io::Result<usize> {
        self.file.len()
    }

    fn read_at(&mut self, at: usize, buf: &mut [u8]) -> io::Result<()> {
        self.file.read_at(at, buf)
    }

    fn read_checked(&mut self, key: u64, want: u64, at: usize, buf: &mut [u8]) -> io::Result<()> {
        self.file.read_checked(key, want, at, buf)
    }

    fn write_at(&mut self, at: usize, bytes: &[u8]) -> io::Result<()> {
        self.file.write_at(at, bytes)
    }

    fn set_len(&mut self, len: usize) -> io::Result<()> {
        self.file.set_len(len)
    }

    // The clauses of `Disk`, and that it looks.
    fn sync(&mut self) -> io::Result<()>
        requires { IsTrue (is_usable D.Disk self.old) }
        ensures looked { OnOk result (SeesNext true
            (P.sights (place_of self.old)) (P.sights (place_of self.new))) }
        ensures durable { OnOk result (Only (D.Disk.seen (file_of self.old))
            (D.Disk.may_leave (file_of self.new))) }
        ensures faults { CountsFault result (faults D.Disk self.old) (faults D.Disk self.new) }
        ensures clean { IsTrue (D.Disk.is_clean (file_of self.new))
            → IsTrue (D.Disk.is_clean (file_of self.old)) }
        ensures calm { D.Disk.is_clean (file_of self.new) ≡ D.Disk.is_clean (file_of self.old) }
        ensures fair { D.Disk.is_fair (file_of self.new) ≡ D.Disk.is_fair (file_of self.old) }
        ensures frozen { IsTrue (D.Disk.is_frozen (file_of self.old))
            → IsErr result × IsStill D.Disk self.old self.new }
        ensures seen { D.Disk.seen (file_of self.new) ≡ D.Disk.seen (file_of self.old) }
        ensures tally { CountsRefusal result (D.Disk.tally_of (file_of self.old))
            (D.Disk.tally_of (file_of self.new)) }
        ensures key { D.Disk.key_of (file_of self.new) ≡ D.Disk.key_of (file_of self.old) }
        ensures rot { D.Disk.is_rotten (file_of self.new) ≡ D.Disk.is_rotten (file_of self.old) }
        ensures usable { is_usable D.Disk self.new ≡ is_ok result }
        ensures crash { (c : List ℕ) → D.Disk.may_leave (file_of self.new) c
            → D.Disk.may_leave (file_of self.old) c }
    {
        self.file.sync()?;
        look(&mut self.place, &mut self.is_lost)
    }
}
