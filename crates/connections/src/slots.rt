//! Connections, each in its slot.
ghost use Rattle.std.specs.Prelude.{◌≡◌, ◌+◌, ◌/◌, ◌<◌, ◌≤◌, ◌↔◌, true, IsTrue, get_or, length, None, Some, IfNone, IfOk, IfSome, replicate, slice_get, slice_set, sum};
ghost use Rattle.connections.specs.Items.{AreFree, NoneIs, bytes, came, ended, event_of, failed, wrote};
ghost use Rattle.connections.specs.Memory.{AreBeside, HasRoom, IsReplyCounted, IsWithin, Needs, ReadsOn, StaysWithin};
ghost use Rattle.connections.specs.Replies.{kept_of};
ghost use Rattle.connections.specs.Turns.{AreSettled, IsToldOf, out_at};

use crate::connection::{Connection, Phase};
use crate::event::{Event, Told};
use crate::replies::Replies;
use crate::shares::Shares;
use std::alloc::{AllocError, Global};

// One part in so many of the limit is for replies alone.
const OF_REPLIES: usize = 8;

// The bytes that came over a connection and that each may hold: as many as a head may have.
const HEAD_ROOM: usize = 16_384;

/// Connections, each in its slot.
///
/// Each may hold as many bytes as a head may have. To hold more, it needs a share of a limit for all. The replies that
/// wait count against the same limit.
#[derive(Drop)]
pub struct Connections {
    /// The connection in each slot.
    pub slots: Vec<Option<Connection>>,
    /// The bytes that each may hold beyond that.
    pub shares: Shares,
    /// The bytes of the reply in each slot, until all of it went out.
    pub replies: Replies,
}

impl Connections {
    /// So many slots, all free, and this limit.
    ///
    /// # Errors
    ///
    /// Memory ran out.
    pub fn new(alloc: Global, count: usize, limit: usize) -> Result<Connections, AllocError>
        ensures free { IfOk result (λ connections. connections.slots.items ≡ replicate count None) }
        ensures settled { IfOk result (λ connections. AreSettled connections.slots.items) }
        ensures limit { IfOk result (λ connections. connections.shares.limit ≡ limit) }
        ensures replies { IfOk result (λ connections. connections.replies ≡ replicate count 0) }
        ensures within { IfOk result IsWithin }
    {
        let mut slots = Vec::new(alloc);
        for _ in 0..count {
            slots.push(None)?;
        }
        Ok(Connections {
            slots,
            shares: Shares::new(alloc, count, limit)?,
            replies: Replies::new(alloc, count)?,
        })
    }

    /// Whether a slot is there and free.
    pub fn is_free(&self, slot: usize) -> bool
        ensures { IsTrue result ↔ slice_get self.now.slots.items slot ≡ Some None }
    {
        match self.slots.get(slot) {
            Some(connection) => connection.is_none(),
            None => false,
        }
    }

    /// Whether all slots are free.
    pub fn are_free(&self) -> bool
        ensures { IsTrue result ↔ AreFree self.now.slots.items }
    {
        for slot in &self.slots {
            if slot.is_some() {
                return false;
            }
        }
        true
    }

    /// Whether bodies and replies together take more than the limit: then a reply more has to wait.
    pub fn are_full(&self) -> bool
        ensures { IsTrue result ↔
            self.now.shares.limit < sum self.now.shares.given + sum self.now.replies }
    {
        self.shares.left() < self.replies.all()
    }

    /// Whether replies take more than an eighth of the limit. So much is theirs alone: a body never waits for that.
    pub fn are_crowding(&self) -> bool
        ensures { IsTrue result ↔ self.now.shares.limit / 8 < sum self.now.replies }
    {
        self.shares.limit() / OF_REPLIES < self.replies.all()
    }

    /// The bytes that have to go out over the connection in a slot, and were not yet written.
    pub fn outgoing(&self, slot: usize) -> &[u8]
        ensures { result.now ≡ out_at (slice_get self.now.slots.items slot) }
    {
        match self.slots.get(slot) {
            Some(Some(connection)) => connection.out.bytes(),
            _ => &[],
        }
    }

    // Takes the connection out of a slot, if there is one.
    pub(crate) fn take(&mut self, slot: usize) -> Option<Connection>
        ensures some { IfSome result (λ taken. slice_get self.old.slots.items slot ≡ Some (Some taken)) }
        ensures new { IfSome result (λ taken.
            self.new.slots.items ≡ slice_set self.old.slots.items slot None) }
        ensures none { IfNone result (NoneIs self.old.slots.items slot (λ before. Unit {0})
            × (self.new.slots.items ≡ self.old.slots.items)) }
        ensures shares { self.new.shares ≡ self.old.shares }
        ensures replies { self.new.replies ≡ self.old.replies }
    {
        if slot < self.slots.len() {
            self.slots[slot].take()
        } else {
            None
        }
    }

    // Puts a connection into a slot.
    pub(crate) fn put(&mut self, slot: usize, connection: Connection)
        requires { slot < length self.old.slots.items }
        ensures into { self.new.slots.items ≡ slice_set self.old.slots.items slot (Some connection) }
        ensures shares { self.new.shares ≡ self.old.shares }
        ensures replies { self.new.replies ≡ self.old.replies }
    {
        self.slots[slot] = Some(connection);
    }

    // Whether a slot has room for so many bytes more than these.
    fn fits(&self, slot: usize, held: usize, more: usize) -> bool
        ensures { result ≡ true → held + more ≤ 16384 + get_or self.now.shares.given slot 0 }
    {
        match held.checked_add(more) {
            Some(all) => all <= HEAD_ROOM.saturating_add(self.shares.of(slot)),
            None => false,
        }
    }

    // Puts a new connection into a slot.
    fn come(&mut self, alloc: Global, slot: usize) -> Told
        ensures told { IsToldOf result self.old.slots.items (came slot) self.new.slots.items }
        ensures shares { self.new.shares ≡ self.old.shares }
        ensures replies { self.new.replies ≡ self.old.replies }
    {
        if !self.is_free(slot) {
            return Told::Stray;
        }
        self.put(slot, Connection::new(alloc));
        Told::Done
    }

    // Takes bytes in that came to a slot. If they don't fit it, that is want of memory.
    fn take_in(&mut self, slot: usize, text: &[u8]) -> Told
        ensures told { IsToldOf result self.old.slots.items (bytes slot text.now) self.new.slots.items }
        ensures within { StaysWithin self.old self.new }
        ensures replies { self.new.replies ≡ self.old.replies }
    {
        let Some(mut connection) = self.take(slot) else {
            return Told::Stray;
        };
        if connection.phase != Phase::Open {
            self.put(slot, connection);
            return Told::Stray;
        }
        if !self.fits(slot, connection.held.len(), text.len()) {
            return Told::Missed;
        }
        if connection.take_in(text).is_err() {
            return Told::Missed;
        }
        self.put(slot, connection);
        Told::Done
    }

    // Notes that so many bytes of a slot were written.
    fn sent(&mut self, alloc: Global, slot: usize, count: usize) -> Told
        ensures told { IsToldOf result self.old.slots.items (wrote slot count) self.new.slots.items }
        ensures shares { self.new.shares ≡ self.old.shares }
        ensures replies { self.new.replies ≡ self.old.replies }
    {
        let Some(mut connection) = self.take(slot) else {
            return Told::Stray;
        };
        if connection.out.len() < count {
            self.put(slot, connection);
            return Told::Stray;
        }
        connection.wrote(alloc, count);
        self.put(slot, connection);
        Told::Done
    }

    // Notes that the peer of a slot ended its side.
    fn end(&mut self, slot: usize) -> Told
        ensures told { IsToldOf result self.old.slots.items (ended slot) self.new.slots.items }
        ensures shares { self.new.shares ≡ self.old.shares }
        ensures replies { self.new.replies ≡ self.old.replies }
    {
        let Some(mut connection) = self.take(slot) else {
            return Told::Stray;
        };
        if connection.phase != Phase::Open {
            self.put(slot, connection);
            return Told::Stray;
        }
        connection.end();
        self.put(slot, connection);
        Told::Done
    }

    // Gives up the connection in a slot.
    fn give_up(&mut self, slot: usize) -> Told
        ensures told { IsToldOf result self.old.slots.items (failed slot) self.new.slots.items }
        ensures shares { self.new.shares ≡ self.old.shares }
        ensures replies { self.new.replies ≡ self.old.replies }
    {
        match self.take(slot) {
            Some(_) => Told::Done,
            None => Told::Stray,
        }
    }

    // Lets an event happen, and returns its outcome.
    pub(crate) fn happens(&mut self, alloc: Global, event: &Event) -> Told
        ensures told { IsToldOf result self.old.slots.items (event_of event.now) self.new.slots.items }
        ensures within { StaysWithin self.old self.new }
        ensures replies { self.new.replies ≡ self.old.replies }
    {
        match event {
            Event::Came(slot) => self.come(alloc, *slot),
            Event::Bytes(slot, text) => self.take_in(*slot, text),
            Event::Wrote(slot, count) => self.sent(alloc, *slot, *count),
            Event::Ended(slot) => self.end(*slot),
            Event::Failed(slot) => self.give_up(*slot),
            Event::Late(slot) => self.give_up(*slot),
        }
    }

    /// The number of bytes that may be read next over the connection in a slot.
    ///
    /// It is 0 if a reply has to go out first, or the peer ended its side. A request may have more bytes than a head.
    /// It is read on only if all of it fits what is left of the limit beside the replies that wait, and then it gets its
    /// share of that. Until it fits, no more of it is read.
    pub fn room(&mut self, slot: usize) -> usize
        ensures slots { self.new.slots.items ≡ self.old.slots.items }
        ensures within { StaysWithin self.old self.new }
        ensures beside { AreBeside self.old self.new }
        ensures fits { HasRoom result self.new.shares.given slot (slice_get self.new.slots.items slot) }
    {
        let Some((held, wanted)) = self.reads_on(slot) else {
            return 0;
        };
        if wanted <= HEAD_ROOM {
            return HEAD_ROOM.saturating_sub(held);
        }
        if !self.admit(slot, wanted - HEAD_ROOM) {
            return 0;
        }
        wanted.saturating_sub(held)
    }

    // The bytes that the connection in a slot holds, and those that its next request is known to have, if it reads on.
    fn reads_on(&self, slot: usize) -> Option<(usize, usize)>
        ensures { IfSome result (λ reads. ReadsOn reads.0 (slice_get self.now.slots.items slot)) }
    {
        match self.slots.get(slot) {
            Some(Some(connection))
                if connection.out.is_empty() && connection.phase == Phase::Open => {
                Some((connection.held.len(), connection.held.wanted()))
            }
            _ => None,
        }
    }

    // Whether a slot has at least this share. It gets the share, if so much is left beside the replies that wait.
    fn admit(&mut self, slot: usize, share: usize) -> bool
        ensures slots { self.new.slots.items ≡ self.old.slots.items }
        ensures within { StaysWithin self.old self.new }
        ensures beside { AreBeside self.old self.new }
        ensures has { result ≡ true → share ≤ get_or self.new.shares.given slot 0 }
    {
        let has = self.shares.of(slot);
        if share <= has {
            return true;
        }
        if !self.has_left(share - has) {
            return false;
        }
        self.shares.give(slot, share)
    }

    // Whether so much is left of the limit beside the replies that wait, and beside the part that is theirs alone.
    fn has_left(&self, more: usize) -> bool
        ensures { result ≡ true →
            sum self.now.shares.given + sum self.now.replies + more ≤ self.now.shares.limit }
    {
        let own = self.shares.limit() / OF_REPLIES;
        let replies = self.replies.all();
        let beside = if replies < own { own } else { replies };
        match beside.checked_add(more) {
            Some(taken) => taken <= self.shares.left(),
            None => false,
        }
    }

    // Gives back what a slot doesn't need of its share any more: all of it if no connection is there, and what its
    // connection doesn't hold if that was answered. Counts its reply.
    pub(crate) fn give_back(&mut self, slot: usize)
        ensures slots { self.new.slots.items ≡ self.old.slots.items }
        ensures within { StaysWithin self.old self.new }
        ensures replies { IsReplyCounted slot self.old self.new }
    {
        self.count_reply(slot);
        if let Some(needed) = self.needed(slot) {
            self.shares.give(slot, needed);
        }
    }

    // Counts the reply in a slot.
    fn count_reply(&mut self, slot: usize)
        ensures slots { self.new.slots.items ≡ self.old.slots.items }
        ensures shares { self.new.shares ≡ self.old.shares }
        ensures replies { IsReplyCounted slot self.old self.new }
    {
        let kept = self.kept(slot);
        self.replies.note(slot, kept);
    }

    // The bytes that the reply in a slot takes.
    fn kept(&self, slot: usize) -> usize
        ensures { result ≡ kept_of (get_or self.now.replies slot 0)
            (out_at (slice_get self.now.slots.items slot)) }
    {
        let left = self.outgoing(slot).len();
        if left == 0 {
            0
        } else {
            self.replies.of(slot).max(left)
        }
    }

    // The part of its share that a slot needs, if that is no more than its connection holds.
    fn needed(&self, slot: usize) -> Option<usize>
        ensures { IfSome result (λ needed. Needs needed (slice_get self.now.slots.items slot)) }
    {
        match self.slots.get(slot) {
            Some(Some(connection)) if connection.out.is_empty() => None,
            Some(Some(connection)) => Some(connection.held.len().saturating_sub(HEAD_ROOM)),
            _ => Some(0),
        }
    }
}
