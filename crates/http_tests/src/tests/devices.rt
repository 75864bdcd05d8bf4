//! Readers and writers that fail or are interrupted in mid-stream, and when they are called.
use super::echo::{counts, echoed, repeated_counts, served};
use bureau_http::ConnFault;
use std::alloc::Global;
use std::cell::Cell;
use std::io::{self, ErrorKind, Read, Write};
use std::test::Fail;
use testing::{Failures, Pieces, Slow, assert_equal_at};

// The requests that the client has sent and the replies that it has got so far.
#[derive(Drop)]
struct Waiting {
    sent: Cell<u32>,
    got: Cell<u32>,
}

// A client that sends each request whole, and the next one only when the reply to it is there: a read before that
// fails. Each request comes after so many interruptions.
#[derive(Drop)]
struct Patient<'a> {
    request: &'a [u8],
    left: u32,
    interruptions: u32,
    due: u32,
    seen: &'a Waiting,
}

impl Read for Patient<'_> {
    fn read(&mut self, buf: &mut [u8]) -> io::Result<usize> {
        if self.seen.sent.get() != self.seen.got.get() {
            return Err(io::Error::from(ErrorKind::TimedOut));
        }
        if self.left == 0 {
            return Ok(0);
        }
        if self.due > 0 {
            self.due -= 1;
            return Err(io::Error::from(ErrorKind::Interrupted));
        }
        let count = self.request.len().min(buf.len());
        buf[..count].copy_from_slice(&self.request[..count]);
        self.left -= 1;
        self.due = self.interruptions;
        self.seen.sent.set(self.seen.sent.get().saturating_add(1));
        Ok(count)
    }
}

// Takes each reply in one write.
#[derive(Drop)]
struct Taking<'a> {
    taken: Vec<u8>,
    seen: &'a Waiting,
}

impl Write for Taking<'_> {
    fn write(&mut self, buf: &[u8]) -> io::Result<usize> {
        self.taken.extend_from_slice(buf)?;
        self.seen.got.set(self.seen.got.get().saturating_add(1));
        Ok(buf.len())
    }

    fn flush(&mut self) -> io::Result<()> {
        Ok(())
    }
}

// How a connection of so many requests ends, each after so many interruptions, and the bytes that it gets.
fn asked_patiently(
    alloc: Global,
    text: &[u8],
    times: u32,
    interruptions: u32,
) -> (Vec<u8>, Result<u64, ConnFault>) {
    let seen = Waiting {
        sent: Cell::new(0),
        got: Cell::new(0),
    };
    let mut reader = Patient {
        request: text,
        left: times,
        interruptions,
        due: interruptions,
        seen: &seen,
    };
    let mut writer = Taking {
        taken: Vec::new(alloc),
        seen: &seen,
    };
    let ended = echoed(alloc, &mut reader, &mut writer);
    (writer.taken, ended)
}

// So many requests, each after so many interruptions: the number of those that are answered, and how the
// connection ends.
static ASKED: [(u32, u32, usize, Result<u64, ConnFault>); 4] = [
    (3, 0, 3, Ok(3)),
    // Interruptions are counted over the connection.
    (2, 32, 2, Ok(2)),
    (3, 32, 2, Err(ConnFault::Read)),
    (2, 33, 1, Err(ConnFault::Read)),
];

#[test]
fn a_reply_goes_out_before_the_next_read(rt: HostRuntime) -> Result<(), Fail> {
    let text = counts(rt.alloc())?;
    for &(times, interruptions, replies, wanted) in &ASKED {
        let (written, ended) = asked_patiently(rt.alloc(), text.as_slice(), times, interruptions);
        assert_equal_at(
            (times, interruptions),
            (written.len(), ended),
            (replies * 93, wanted),
        )?;
    }
    Ok(())
}

// Requests, and the replies to them.
type Exchanged = (Vec<u8>, Vec<u8>);

fn two_exchanges(alloc: Global) -> Result<Exchanged, Fail> {
    let text = repeated_counts(alloc, 2)?;
    let (whole, _) = served(alloc, false, text.as_slice())?;
    Ok((text, whole))
}

// Checks that all reads after so many fail, and that each request that came whole has its reply.
fn assert_read_failed(alloc: Global, both: &Exchanged, until_failure: u32) -> Result<(), Fail> {
    let (text, whole) = both;
    let failures = Failures::after(until_failure, ErrorKind::ConnectionReset);
    let mut reader = Pieces::new(text.as_slice(), 7, failures);
    let mut writer = Vec::new(alloc);
    let ended = echoed(alloc, &mut reader, &mut writer);
    assert_equal_at(until_failure, ended, Err(ConnFault::Read))?;
    assert_equal_at(until_failure, whole.starts_with(writer.as_slice()), true)?;
    let came = text.len().saturating_sub(reader.rest.len());
    let replies = if came < text.len() / 2 {
        0
    } else if came < text.len() {
        1
    } else {
        2
    };
    assert_equal_at(until_failure, writer.len(), replies * 93)
}

#[test]
fn a_read_fails_at_each_place(rt: HostRuntime) -> Result<(), Fail> {
    let both = two_exchanges(rt.alloc())?;
    for until_failure in 0..=u32::try_from(both.0.len().div_ceil(7))? {
        assert_read_failed(rt.alloc(), &both, until_failure)?;
    }
    Ok(())
}

// Checks that all writes after so many fail, and that as many bytes are written as those take.
fn assert_write_failed(alloc: Global, both: &Exchanged, until_failure: u32) -> Result<(), Fail> {
    let (text, whole) = both;
    let mut reader = text.as_slice();
    let failures = Failures::after(until_failure, ErrorKind::BrokenPipe);
    let mut writer = Slow::new(alloc, 7, usize::MAX, failures);
    let ended = echoed(alloc, &mut reader, &mut writer);
    assert_equal_at(until_failure, ended, Err(ConnFault::Write))?;
    let taken = writer.taken.as_slice();
    assert_equal_at(until_failure, whole.starts_with(taken), true)?;
    // a reply of 93 bytes takes 14 writes
    let count = until_failure as usize;
    assert_equal_at(until_failure, taken.len(), count / 14 * 93 + count % 14 * 7)
}

#[test]
fn a_write_fails_at_each_place(rt: HostRuntime) -> Result<(), Fail> {
    let both = two_exchanges(rt.alloc())?;
    for until_failure in 0..28u32 {
        assert_write_failed(rt.alloc(), &both, until_failure)?;
    }
    Ok(())
}
