//! A clock that a test sets.
use std::cell::Cell;
use std::io;
use std::time::{Clock, Duration};

/// A clock by which so many seconds pass before each look, and none in a pause.
#[derive(Drop)]
pub struct Ticking {
    seconds: u64,
    looks: Cell<u64>,
    paused: Cell<u128>,
}

impl Ticking {
    /// A clock that nobody has looked at yet, by which so many seconds pass before each look.
    pub fn new(seconds: u64) -> Ticking {
        Ticking {
            seconds,
            looks: Cell::new(0),
            paused: Cell::new(0),
        }
    }

    /// The number of looks at it.
    pub fn looks(&self) -> u64 {
        self.looks.get()
    }

    /// The milliseconds that all pauses were to take.
    pub fn paused(&self) -> u128 {
        self.paused.get()
    }
}

impl Clock for Ticking {
    fn monotonic(&self) -> io::Result<Duration> {
        let looks = self.looks.get().saturating_add(1);
        self.looks.set(looks);
        Ok(Duration::from_secs(looks.saturating_mul(self.seconds)))
    }

    fn since_1970(&self) -> io::Result<Duration> {
        self.monotonic()
    }

    fn sleep(&self, duration: Duration) {
        let paused = self.paused.get().saturating_add(duration.as_millis());
        self.paused.set(paused);
    }
}
