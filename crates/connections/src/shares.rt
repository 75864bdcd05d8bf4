//! A limit on what all connections hold together.
ghost use Rattle.std.specs.Prelude.{◌≡◌, ◌+◌, ◌<◌, ◌≤◌, true, false, get_or, length, replicate, slice_set, sum, IfOk};

use std::alloc::{AllocError, Global};
use std::marker::Model;

/// A limit on what all connections hold together, beyond the room for a head that each has. The slots share it.
///
/// A contract sees the limit, and the share of each slot.
#[derive(Drop)]
pub struct Shares {
    limit: usize,
    left: usize,
    given: Vec<usize>,
}

impl Model for Shares {
    ghost use Rattle.connections.specs.Shares.{AddsUp, Shared, shared_as};

    ghost Value = { Shared };

    ghost view = { shared_as };

    ghost invariant = { AddsUp };
}

impl Shares {
    // So many slots, none of which has a share.
    pub(crate) fn new(alloc: Global, count: usize, limit: usize) -> Result<Shares, AllocError>
        ensures { IfOk result (λ shares.
            shares ≡ record { limit = limit; given = replicate count 0 }) }
    {
        Ok(Shares {
            limit,
            left: limit,
            given: Vec::from_elem(alloc, 0usize, count)?,
        })
    }

    // That all shares together are within the limit.
    pub(crate) fn add_up(&self)
        ensures { sum self.now.given ≤ self.now.limit }
    {
        let _ = &self.limit;
    }

    /// The limit.
    pub fn limit(&self) -> usize
        ensures { result ≡ self.now.limit }
    {
        self.limit
    }

    /// What is left of it.
    pub fn left(&self) -> usize
        ensures { result + sum self.now.given ≡ self.now.limit }
    {
        self.left
    }

    /// The share of a slot.
    pub fn of(&self, slot: usize) -> usize
        ensures { result ≡ get_or self.now.given slot 0 }
    {
        match self.given.get(slot) {
            Some(share) => *share,
            None => 0,
        }
    }

    // Gives a slot this share in place of the one that it has, if so much is left. Returns whether it did.
    pub(crate) fn give(&mut self, slot: usize, share: usize) -> bool
        ensures given { result ≡ true →
            self.new ≡ record { limit = self.old.limit; given = slice_set self.old.given slot share } }
        ensures share { result ≡ true → get_or self.new.given slot 0 ≡ share }
        ensures sum { result ≡ true →
            sum self.new.given + get_or self.old.given slot 0 ≡ sum self.old.given + share }
        ensures kept { result ≡ false → self.new ≡ self.old }
        ensures fits { result ≡ false → slot < length self.old.given →
            self.old.limit + get_or self.old.given slot 0 < sum self.old.given + share }
    {
        if slot >= self.given.len() {
            return false;
        }
        let before = self.given[slot];
        let free = self.left + before;
        if free < share {
            return false;
        }
        self.given[slot] = share;
        self.left = free - share;
        true
    }
}
