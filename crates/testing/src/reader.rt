//! A reader that gives a piece at a time.
use crate::Failures;
use std::io::{self, ErrorKind, Read};

/// A reader of bytes that gives a piece at a time.
#[derive(Drop)]
pub struct Pieces<'a> {
    /// The bytes that it has not given yet.
    pub rest: &'a [u8],
    /// The most bytes that it gives in one read.
    pub piece: usize,
    pub failures: Failures,
    /// The error with which it fails once it has given all. If it is `None`, it tells its end.
    pub end: Option<ErrorKind>,
}

impl<'a> Pieces<'a> {
    /// A reader that tells its end.
    pub fn new(rest: &'a [u8], piece: usize, failures: Failures) -> Pieces<'a> {
        let end = None;
        Pieces {
            rest,
            piece,
            failures,
            end,
        }
    }
}

impl Read for Pieces<'_> {
    fn read(&mut self, buf: &mut [u8]) -> io::Result<usize> {
        self.failures.pass()?;
        if let (true, Some(kind)) = (self.rest.is_empty(), self.end) {
            return Err(io::Error::from(kind));
        }
        let count = self.piece.min(self.rest.len()).min(buf.len());
        let (front, rest) = self.rest.split_at(count);
        buf[..count].copy_from_slice(front);
        self.rest = rest;
        Ok(count)
    }
}
