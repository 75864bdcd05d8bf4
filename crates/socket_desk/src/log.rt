//! The log: whole lines, in pieces that a pipe takes whole or not at all, and a count of those that it doesn't take.
ghost use Rattle.std.specs.Prelude.{◌≡◌, ◌+◌, ◌<◌, ◌≤◌, ◌-◌, [], IsTrue, length, slice_get, take, Some};
ghost use Rattle.std.specs.Io.KnownBytes.{Appends, Keeps};
ghost use Rattle.socket_desk.specs.Logged.{AreLines, AreSent, GoesOut, IsLogged, IsSent, IsToldLost, counted, lines_in};

use faults::NoMemory;
use log_lines::{Word, lost_line};
use memchr::memrchr;
use std::alloc::Global;
use std::io::{ErrorKind, Write};

// The most bytes of one write: so many a pipe takes whole or not at all (pipe(7), PIPE_BUF).
const PIECE: usize = 4096;

/// A log, and what has not gone out to it.
#[derive(Drop)]
pub(crate) struct Log<W> {
    pub(crate) writer: W,
    // The rest of a piece of which a part went out. It goes out before anything else.
    rest: Vec<u8>,
    // How many lines were left out since the log told of such.
    lost: u64,
}

impl<W: Write> Log<W> {
    /// A log to which nothing was written yet. All memory is taken here.
    pub(crate) fn new(alloc: Global, writer: W) -> Result<Log<W>, NoMemory>
    where
        W: Drop,
    {
        Ok(Log {
            writer,
            rest: Vec::with_capacity(alloc, PIECE)?,
            lost: 0,
        })
    }

    /// Writes lines, after so many that were left out. The lines that don't go out are left out too, and counted. The
    /// next lines that go out begin with one that tells the count.
    pub(crate) fn write(&mut self, lines: &[u8], lost: u64, stamp: &Word)
        ensures { IsLogged (W.contents self.old.writer) self.old.rest.items
            (counted (self.old.lost + lost)) stamp.now lines.now
            (W.contents self.new.writer) self.new.rest.items self.new.lost }
    {
        self.lost = self.lost.saturating_add(lost);
        if !self.write_rest() {
            self.lost = with_lines(self.lost, lines);
            return;
        }
        if !self.tell_lost(stamp) {
            self.lost = with_lines(self.lost, lines);
            return;
        }
        let left = self.write_pieces(lines);
        self.lost = with_lines(self.lost, left);
    }

    // Writes what is left of a piece. Whether nothing of it is left.
    fn write_rest(&mut self) -> bool
        ensures out { GoesOut (W.contents self.old.writer) self.old.rest.items []
            (W.contents self.new.writer) self.new.rest.items }
        ensures whole { IsTrue result → self.new.rest.items ≡ [] }
        ensures lost { self.new.lost ≡ self.old.lost }
    {
        if !self.rest.is_empty() {
            self.write_front();
        }
        self.rest.is_empty()
    }

    // One write of what is left. How many bytes went out.
    fn write_front(&mut self) -> usize
        ensures out { GoesOut (W.contents self.old.writer) self.old.rest.items []
            (W.contents self.new.writer) self.new.rest.items }
        ensures none { result ≡ 0 → Keeps (W.contents self.old.writer) (W.contents self.new.writer) }
        ensures lost { self.new.lost ≡ self.old.lost }
    {
        let count = write_some(&mut self.writer, self.rest.as_slice());
        self.rest.drain(..count);
        count
    }

    // Writes how many lines were left out, if any were. Whether that went out.
    fn tell_lost(&mut self, stamp: &Word) -> bool
        requires { self.old.rest.items ≡ [] }
        ensures { IsToldLost result (W.contents self.old.writer) self.old.lost stamp.now
            (W.contents self.new.writer) self.new.rest.items self.new.lost }
    {
        if self.lost == 0 {
            return true;
        }
        let line = lost_line(stamp, self.lost);
        if !self.send(line.as_slice()) {
            return false;
        }
        self.lost = 0;
        self.rest.is_empty()
    }

    // Writes lines, piece by piece, until one doesn't go out whole. The lines that are left.
    fn write_pieces<'a>(&mut self, lines: &'a [u8]) -> &'a [u8]
        requires { self.old.rest.items ≡ [] }
        ensures sent { AreSent (W.contents self.old.writer) lines.now
            (W.contents self.new.writer) self.new.rest.items result.now }
        ensures lost { self.new.lost ≡ self.old.lost }
    {
        let mut left = lines;
        for _ in 0..lines.len() {
            let (piece, others) = left.split_at(piece_len(left));
            if piece.is_empty() {
                return left;
            }
            if !self.send(piece) {
                return left;
            }
            left = others;
            if !self.rest.is_empty() {
                return left;
            }
        }
        left
    }

    // Writes a piece, behind nothing. If a part of it goes out, the rest goes out later. Whether a part did.
    fn send(&mut self, piece: &[u8]) -> bool
        requires { self.old.rest.items ≡ [] }
        ensures sent { IsSent result (W.contents self.old.writer) piece.now
            (W.contents self.new.writer) self.new.rest.items }
        ensures lost { self.new.lost ≡ self.old.lost }
    {
        if self.rest.extend_from_slice(piece).is_err() {
            return false;
        }
        if self.write_front() == 0 {
            self.rest.clear();
            return false;
        }
        true
    }
}

// How many lines are left out, with these.
fn with_lines(lost: u64, lines: &[u8]) -> u64
    ensures { result ≡ counted (lost + lines_in lines.now) }
{
    let mut all = lost;
    for byte in lines {
        if *byte == b'\n' {
            all = all.saturating_add(1);
        }
    }
    all
}

// The length of the next piece of a text: whole lines, as many as fit one write. It is 0 if none does.
fn piece_len(text: &[u8]) -> usize
    ensures most { result ≤ 4096 }
    ensures within { result ≤ length text.now }
    ensures line { AreLines (take result text.now) }
{
    let (front, _) = text.split_at(text.len().min(PIECE));
    match memrchr(b'\n', front) {
        Some(at) => at + 1,
        None => 0,
    }
}

// One write, made once more if it is interrupted. How many bytes went out: none if it fails.
fn write_some<W: Write>(writer: &mut W, text: &[u8]) -> usize
    ensures most { result ≤ length text.now }
    ensures front { Appends (W.contents writer.old) (W.contents writer.new) (take result text.now) }
{
    match writer.write(text) {
        Ok(count) => count,
        Err(error) if error.kind() == ErrorKind::Interrupted => writer.write(text).unwrap_or(0),
        Err(_) => 0,
    }
}
