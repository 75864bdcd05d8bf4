//! The bytes that have to go out over a connection.
ghost use Rattle.std.specs.Prelude.{◌≡◌, ◌==◌, ◌≤◌, [], length, drop};

use std::alloc::Global;
use std::marker::Model;

/// The bytes that have to go out over a connection, and were not yet written.
///
/// A contract sees it as the list of these bytes.
#[derive(Drop)]
pub struct Outgoing {
    text: Vec<u8>,
    written: usize,
}

impl Model for Outgoing {
    ghost use Rattle.std.specs.Prelude.{List, ℕ};

    ghost Value = { List ℕ };

    ghost use Rattle.connections.specs.Outgoing.{bytes_out, LiesInText};

    ghost view = { bytes_out };

    ghost invariant = { LiesInText };
}

impl Outgoing {
    /// Nothing.
    pub fn new(alloc: Global) -> Outgoing
        ensures { result ≡ [] }
    {
        Outgoing {
            text: Vec::new(alloc),
            written: 0,
        }
    }

    /// A text of which nothing was written.
    pub fn of(text: Vec<u8>) -> Outgoing
        ensures { result ≡ text.items }
    {
        Outgoing { text, written: 0 }
    }

    /// The bytes.
    pub fn bytes(&self) -> &[u8]
        ensures { result.now ≡ self.now }
    {
        &self.text[self.written..]
    }

    /// The number of bytes.
    pub fn len(&self) -> usize
        ensures { result ≡ length self.now }
    {
        self.text.len() - self.written
    }

    /// Whether there are none.
    pub fn is_empty(&self) -> bool
        ensures { result ≡ (length self.now == 0) }
    {
        self.len() == 0
    }

    /// Removes the first bytes, which were written. Once all were, they take no memory.
    pub fn wrote(&mut self, alloc: Global, count: usize)
        requires { count ≤ length self.old }
        ensures { self.new ≡ drop count self.old }
    {
        if count == self.len() {
            *self = Outgoing::new(alloc);
        } else {
            self.written += count;
        }
    }
}
