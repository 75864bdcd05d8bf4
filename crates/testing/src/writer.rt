//! A writer that takes a piece at a time.
use crate::Failures;
use std::alloc::Global;
use std::io::{self, ErrorKind, Write};

/// A writer that takes a piece at a time while it has room.
#[derive(Drop)]
pub struct Slow {
    pub taken: Vec<u8>,
    /// The most bytes that it takes in one write.
    pub piece: usize,
    /// The number of bytes that it still takes in all.
    pub room: usize,
    /// The error with which it fails if it has no room. If it is `None`, it takes no byte then.
    pub full: Option<ErrorKind>,
    pub failures: Failures,
    /// The way in which its flushes fail.
    pub flushes: Failures,
}

impl Slow {
    /// A writer that has taken nothing. It takes no byte if it has no room, and its flushes pass.
    pub fn new(alloc: Global, piece: usize, room: usize, failures: Failures) -> Slow {
        Slow {
            taken: Vec::new(alloc),
            piece,
            room,
            full: None,
            failures,
            flushes: Failures::none(),
        }
    }
}

impl Write for Slow {
    fn write(&mut self, buf: &[u8]) -> io::Result<usize> {
        self.failures.pass()?;
        if let (0, Some(kind)) = (self.room, self.full) {
            return Err(io::Error::from(kind));
        }
        let count = self.piece.min(self.room).min(buf.len());
        self.taken.extend_from_slice(&buf[..count])?;
        self.room -= count;
        Ok(count)
    }

    fn flush(&mut self) -> io::Result<()> {
        self.flushes.pass()
    }
}
