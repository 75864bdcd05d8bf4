//! The ways in which calls of a device fail.
use std::io::{self, ErrorKind};

/// The way in which calls of a device fail: the first so many pass, each of the next `count` fails in this way, and
/// all after them pass.
#[derive(Clone, Copy, Debug)]
pub struct Failures {
    pub passed: u32,
    pub count: u32,
    pub kind: ErrorKind,
}

impl Failures {
    /// The first so many calls fail in this way.
    pub fn first(count: u32, kind: ErrorKind) -> Failures {
        let passed = 0;
        Failures {
            passed,
            count,
            kind,
        }
    }

    /// The first so many calls are interrupted.
    pub fn interruptions(count: u32) -> Failures {
        Failures::first(count, ErrorKind::Interrupted)
    }

    /// No call fails.
    pub fn none() -> Failures {
        Failures::interruptions(0)
    }

    /// All calls after so many fail in this way.
    pub fn after(passed: u32, kind: ErrorKind) -> Failures {
        let count = u32::MAX;
        Failures {
            passed,
            count,
            kind,
        }
    }

    /// Makes the next call, which passes or fails.
    pub(crate) fn pass(&mut self) -> io::Result<()> {
        if self.passed > 0 {
            self.passed -= 1;
            return Ok(());
        }
        if self.count > 0 {
            self.count -= 1;
            return Err(io::Error::from(self.kind));
        }
        Ok(())
    }
}
