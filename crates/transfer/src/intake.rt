//! Bytes that come in piece by piece.
ghost use Rattle.std.specs.Prelude.{◌≡◌, ℕ, ◌+◌, ◌-◌, ◌<◌, ◌≤◌, [], length, take, drop, IfOk, IfErr, OnErr, OnOk};
ghost use Rattle.std.specs.Io.KnownBytes.{Keeps, Consumes, IsAtEnd};
ghost use Rattle.std.specs.IoError.{error_kind};
ghost use Rattle.transfer.specs.Transfer.{IsGivenUp, TakesIn};

use crate::{TransferFault, read_some};
use faults::NoMemory;
use std::alloc::Global;
use std::io::{self, ErrorKind, Read};
use std::marker::Model;

// The most bytes of room that are made at a time.
const CHUNK: usize = 65536;

/// Bytes that came from a reader and were not yet taken off, with room for more after them.
///
/// A contract sees it as the list of these bytes. A read goes straight into the room.
#[derive(Drop)]
pub struct Intake {
    room: Vec<u8>,
    start: usize,
    end: usize,
}

impl Model for Intake {
    ghost use Rattle.std.specs.Prelude.{List, ℕ};

    ghost Value = { List ℕ };

    ghost use Rattle.transfer.specs.Intake.{bytes_in, LiesInRoom};

    ghost view = { bytes_in };

    ghost invariant = { LiesInRoom };
}

impl Intake {
    /// No bytes, and no room yet.
    pub fn new(alloc: Global) -> Intake
        ensures { result ≡ [] }
    {
        Intake {
            room: Vec::new(alloc),
            start: 0,
            end: 0,
        }
    }

    /// The bytes.
    pub fn bytes(&self) -> &[u8]
        ensures { result.now ≡ self.now }
    {
        &self.room[self.start..self.end]
    }

    /// The number of bytes.
    pub fn len(&self) -> usize
        ensures { result ≡ length self.now }
    {
        self.end - self.start
    }

    /// Takes the first bytes off.
    pub fn take_off(&mut self, count: usize)
        requires { count ≤ length self.old }
        ensures { self.new ≡ drop count self.old }
    {
        self.start += count;
        // Moves what is left to the front once it is less than what was taken off. So the room stays small, and
        // no byte is moved often.
        if self.end - self.start <= self.start {
            self.room.copy_within(self.start..self.end, 0);
            self.end -= self.start;
            self.start = 0;
        }
    }

    /// The bytes as a vector.
    pub fn into_vec(self) -> Vec<u8>
        ensures { result.items ≡ self }
    {
        let Intake {
            mut room,
            start,
            end,
        } = self;
        room.truncate(end);
        if start > 0 {
            room.copy_within(start.., 0);
            room.truncate(end - start);
        }
        room
    }
}

impl Intake {
    /// Reads up to `most` bytes, once, and appends them. It reads none only at the reader's end.
    ///
    /// # Errors
    ///
    /// [`TransferFault::Read`] if the read fails, or is interrupted when no retry is left, and
    /// [`TransferFault::Memory`]. Nothing was read then, and the bytes are as they were.
    pub fn read_more<R: Read>(
        &mut self,
        reader: &mut R,
        most: usize,
        retries: &mut u32,
    ) -> Result<usize, TransferFault>
        requires { 0 < most }
        ensures bound { IfOk result (λ n. n ≤ most) }
        ensures bytes { IfOk result
            (TakesIn self.old self.new (R.remaining reader.old) (R.remaining reader.new)) }
        ensures end { IfOk result (λ n. n ≡ 0 → IsAtEnd (R.remaining reader.new)) }
        ensures err { OnErr result (self.new ≡ self.old) }
        ensures unread { OnErr result (Keeps (R.remaining reader.old) (R.remaining reader.new)) }
        ensures given_up { IfErr result (λ fault. IsGivenUp fault retries.new) }
        ensures counted { retries.new ≤ retries.old }
    {
        let count = read_into_room(reader, &mut self.room, self.end, most, retries)?;
        self.end += count;
        Ok(count)
    }
}

// Reads once into the room, after the bytes that end there.
fn read_into_room<R: Read>(
    reader: &mut R,
    room: &mut Vec<u8>,
    end: usize,
    most: usize,
    retries: &mut u32,
) -> Result<usize, TransferFault>
    requires within { end ≤ length room.old.items }
    requires wanted { 0 < most }
    ensures kept { take end room.new.items ≡ take end room.old.items }
    ensures room { end ≤ length room.new.items }
    ensures bound { IfOk result (λ n. n ≤ most) }
    ensures fits { IfOk result (λ n. end + n ≤ length room.new.items) }
    ensures bytes { IfOk result (λ n.
        Consumes (R.remaining reader.old) (R.remaining reader.new) (take n (drop end room.new.items))) }
    ensures end { IfOk result (λ n. n ≡ 0 → IsAtEnd (R.remaining reader.new)) }
    ensures err { OnErr result (Keeps (R.remaining reader.old) (R.remaining reader.new)) }
    ensures given_up { IfErr result (λ fault. IsGivenUp fault retries.new) }
    ensures counted { retries.new ≤ retries.old }
{
    make_room(room, end, most)?;
    let until = end + (room.len() - end).min(most);
    Ok(read_at(reader, room.as_mut_slice(), end, until, retries)?)
}

// Makes room after the bytes that are there, if there is none: for as many as are wanted, up to a chunk.
fn make_room(room: &mut Vec<u8>, end: usize, most: usize) -> Result<(), NoMemory>
    requires within { end ≤ length room.old.items }
    requires wanted { 0 < most }
    ensures kept { take end room.new.items ≡ take end room.old.items }
    ensures within { end ≤ length room.new.items }
    ensures ok { OnOk result (end < length room.new.items) }
{
    if end == room.len() {
        room.resize(end.checked_add(most.min(CHUNK)).ok_or(NoMemory)?, 0)?;
    }
    Ok(())
}

// Reads once into the room, between two positions.
fn read_at<R: Read>(
    reader: &mut R,
    room: &mut [u8],
    at: usize,
    until: usize,
    retries: &mut u32,
) -> io::Result<usize>
    requires some { at < until }
    requires within { until ≤ length room.old }
    ensures front { take at room.new ≡ take at room.old }
    ensures fits { IfOk result (λ n. at + n ≤ until) }
    ensures bytes { IfOk result (λ n.
        Consumes (R.remaining reader.old) (R.remaining reader.new) (take n (drop at room.new))) }
    ensures end { IfOk result (λ n. n ≡ 0 → IsAtEnd (R.remaining reader.new)) }
    ensures err { OnErr result (Keeps (R.remaining reader.old) (R.remaining reader.new)) }
    ensures given_up { IfErr result (λ error. error_kind error ≡ ErrorKind.Interrupted → retries.new ≡ 0) }
    ensures counted { retries.new ≤ retries.old }
{
    read_some(reader, &mut room[at..until], retries)
}
