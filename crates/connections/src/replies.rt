//! The room that replies take until they went out.
ghost use Rattle.std.specs.Prelude.{◌≡◌, ◌+◌, ◌<◌, [], true, false, get_or, length, replicate, slice_set, sum, IfOk};

use std::alloc::{AllocError, Global};
use std::marker::Model;

/// The bytes of the replies that wait in their slots until they went out.
///
/// A contract sees them as the list of these numbers.
#[derive(Drop)]
pub struct Replies {
    all: usize,
    kept: Vec<usize>,
}

impl Model for Replies {
    ghost use Rattle.std.specs.Prelude.{List, ℕ};
    ghost use Rattle.connections.specs.Replies.{AddsUp};

    ghost Value = { List ℕ };

    ghost view = { λ replies. replies.kept.items };

    ghost invariant = { AddsUp };
}

impl Replies {
    // So many slots, in which no reply waits.
    pub(crate) fn new(alloc: Global, count: usize) -> Result<Replies, AllocError>
        ensures { IfOk result (λ replies. replies ≡ replicate count 0) }
    {
        Ok(Replies {
            all: 0,
            kept: Vec::from_elem(alloc, 0usize, count)?,
        })
    }

    /// All of them together.
    pub fn all(&self) -> usize
        ensures { result ≡ sum self.now }
    {
        self.all
    }

    /// Those of a slot.
    pub fn of(&self, slot: usize) -> usize
        ensures { result ≡ get_or self.now slot 0 }
    {
        match self.kept.get(slot) {
            Some(count) => *count,
            None => 0,
        }
    }

    // So many wait in a slot from now on. Returns whether that can be counted.
    pub(crate) fn note(&mut self, slot: usize, count: usize) -> bool
        ensures noted { result ≡ true → self.new ≡ slice_set self.old slot count }
        ensures same { result ≡ false → self.new ≡ self.old }
        ensures too_many { result ≡ false → slot < length self.old →
            18446744073709551615 + get_or self.old slot 0 < sum self.old + count }
    {
        if slot >= self.kept.len() {
            return false;
        }
        let others = self.all - self.kept[slot];
        let Some(all) = others.checked_add(count) else {
            return false;
        };
        self.kept[slot] = count;
        self.all = all;
        true
    }
}
