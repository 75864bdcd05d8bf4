//! The lines that a round has for the log.
ghost use Rattle.std.specs.Prelude.{◌≡◌, ◌+◌, ◌<◌, [], IsTrue};
ghost use Rattle.bureau_http.specs.ConnFault.{conn_told};
ghost use Rattle.log_lines.specs.Lines.{fault_text, request_text};
ghost use Rattle.socket_desk.specs.Logged.{IsPut, counted};

use bureau_http::ConnFault;
use faults::{AnyFault, NoMemory};
use log_lines::{Line, Note, Word, fault_line, request_line, time_word};
use std::alloc::Global;
use std::time::{Clock, Duration, SystemTime};

// How many bytes the lines of a round may have, for the requests that it answers, and for each slot, whose
// connection may fail.
const ROOM: usize = 32_768;

const ROOM_OF_SLOT: usize = 64;

/// The lines that a round has for the log, if one is kept. A line for which there is no room is left out, and counted.
#[derive(Drop)]
pub(crate) struct Lines {
    text: Vec<u8>,
    // How many bytes they may have.
    room: usize,
    // How many lines had no room.
    lost: u64,
    // When the round was: what each of its lines begins with.
    stamp: Word,
}

impl Lines {
    /// Those of a desk that keeps no log.
    pub(crate) fn none(alloc: Global) -> Lines {
        Lines {
            text: Vec::new(alloc),
            room: 0,
            lost: 0,
            stamp: Word::none(),
        }
    }

    /// Those of a desk with so many slots. All memory is taken here.
    pub(crate) fn new(alloc: Global, slots: usize) -> Result<Lines, NoMemory> {
        let room = slots.saturating_mul(ROOM_OF_SLOT).saturating_add(ROOM);
        Ok(Lines {
            text: Vec::with_capacity(alloc, room)?,
            room,
            lost: 0,
            stamp: Word::none(),
        })
    }

    /// A round begins, of which nothing is told yet.
    pub(crate) fn begin<C: Clock>(&mut self, clock: &C)
        ensures text { self.new.text.items ≡ [] }
        ensures lost { self.new.lost ≡ 0 }
    {
        self.text.clear();
        self.lost = 0;
        if self.room > 0 {
            self.stamp = now(clock);
        }
    }

    /// The lines so far.
    pub(crate) fn text(&self) -> &[u8]
        ensures { result.now ≡ self.now.text.items }
    {
        self.text.as_slice()
    }

    /// How many lines had no room among them.
    pub(crate) fn lost(&self) -> u64
        ensures { result ≡ self.now.lost }
    {
        self.lost
    }

    /// When the round was.
    pub(crate) fn stamp(&self) -> &Word
        ensures { result.now ≡ self.now.stamp }
    {
        &self.stamp
    }

    /// Whether there is none, and none had no room.
    pub(crate) fn are_none(&self) -> bool
        ensures text { IsTrue result → self.now.text.items ≡ [] }
        ensures lost { IsTrue result → self.now.lost ≡ 0 }
    {
        self.text.is_empty() && self.lost == 0
    }

    /// The reply to a request went out whole, so long after the request began.
    pub(crate) fn request(&mut self, note: &Note, took: Duration)
        ensures { 0 < self.old.room → (millis : _) × IsPut self.old.text.items self.old.lost
            (request_text self.old.stamp note.now millis) self.new.text.items self.new.lost }
    {
        if self.room > 0 {
            let line = request_line(&self.stamp, note, millis(took));
            self.put(&line);
        }
    }

    /// A connection failed.
    pub(crate) fn fault(&mut self, fault: ConnFault)
        ensures { 0 < self.old.room → IsPut self.old.text.items self.old.lost
            (fault_text self.old.stamp (conn_told fault).number) self.new.text.items self.new.lost }
    {
        if self.room > 0 {
            let line = fault_line(&self.stamp, u16::from(AnyFault::from(fault).number));
            self.put(&line);
        }
    }

    // A line is put behind the others, or left out if there is no room.
    fn put(&mut self, line: &Line)
        ensures { IsPut self.old.text.items self.old.lost line.now self.new.text.items self.new.lost }
    {
        let line = line.as_slice();
        if self.text.len().saturating_add(line.len()) > self.room {
            return self.leave_out();
        }
        if self.text.extend_from_slice(line).is_err() {
            self.leave_out();
        }
    }

    // A line is left out.
    fn leave_out(&mut self)
        ensures lost { self.new.lost ≡ counted (self.old.lost + 1) }
        ensures text { self.new.text ≡ self.old.text }
    {
        self.lost = self.lost.saturating_add(1);
    }
}

// The word of the time that it is, or none if the system doesn't tell it.
fn now<C: Clock>(clock: &C) -> Word {
    let Ok(time) = SystemTime::now(clock) else {
        return Word::none();
    };
    match time.duration_since(SystemTime::UNIX_EPOCH) {
        Ok(since) => time_word(since),
        Err(_) => Word::none(),
    }
}

// How many milliseconds a time has.
fn millis(time: Duration) -> u64 {
    time.as_secs()
        .saturating_mul(1000)
        .saturating_add(u64::from(time.subsec_millis()))
}
