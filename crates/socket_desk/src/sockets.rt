//! Sockets that don't block, each in its slot.
ghost use Rattle.std.specs.Prelude.{◌≡◌, ◌<◌, [], ◌∷◌, ◌++◌, length, map, None, Some, IfNone, IfSome, OnErr, OnOk, slice_get, slice_set};
ghost use Rattle.connections.specs.Items.{event_of};
ghost use Rattle.socket_desk.specs.Traffic.{IsNoted, Tells, TellsBut, socket_of, sockets_of};

use crate::fault::LoopFault;
use crate::known::Known;
use crate::lines::Lines;
use crate::moment::Moment;
use crate::patience::{Patience, Stage};
use crate::port::{Door, slot_of};
use crate::side::{Listed, Side};
use crate::stream::Stream;
use crate::visits::ROOM;
use connections::{Connections, Event, Turns};
use mio::Events;
use std::alloc::Global;
use std::collections::VecDeque;
use std::time::Duration;

// How many are visited in a round at most, of which there is something to tell: so what was read and not yet told
// stays small. And how many are accepted.
pub(crate) const MOST: usize = 64;

/// Sockets, each in its slot.
#[derive(Drop)]
pub(crate) struct Sockets<T> {
    pub(crate) alloc: Global,
    pub(crate) sides: Vec<Option<Side<T>>>,
    // The slots without a socket.
    pub(crate) free: Vec<usize>,
    // Those that may have something to do, in the order of their turns.
    pub(crate) ready: VecDeque<usize>,
    // Those whose body doesn't fit the limit yet, in the order in which they get what is left of it.
    pub(crate) short: VecDeque<usize>,
    // Those whose next request lies there whole: each caller has its turn.
    pub(crate) turns: Turns,
    // The callers that have turns of their own. The others have theirs as one.
    pub(crate) known: Known,
    // How many of those that are ready are visited before the next turn.
    pub(crate) before_turn: usize,
    // The next turn waited for a round, in which connections were accepted.
    pub(crate) has_waited: bool,
    // Connections may wait to be accepted, of which the system won't tell.
    pub(crate) more_wait: bool,
    // How many are to be accepted yet.
    pub(crate) left: u32,
    // When it was looked for connections whose time is up, by the desk's own time.
    pub(crate) swept: Option<Duration>,
    pub(crate) room: Vec<u8>,
    pub(crate) patience: Patience,
    // What the log is to tell of this round.
    pub(crate) lines: Lines,
}

impl<T: Stream> Sockets<T> {
    /// So many slots, all free.
    pub(crate) fn new(
        alloc: Global,
        slots: usize,
        patience: Patience,
        lines: Lines,
    ) -> Result<Sockets<T>, LoopFault> {
        let mut sides = Vec::with_capacity(alloc, slots)?;
        let mut free = Vec::with_capacity(alloc, slots)?;
        for slot in 0..slots {
            sides.push(None)?;
            free.push(slot)?;
        }
        Ok(Sockets {
            alloc,
            sides,
            free,
            ready: VecDeque::with_capacity(alloc, slots)?,
            short: VecDeque::with_capacity(alloc, slots)?,
            turns: Turns::new(alloc),
            known: Known::new(alloc),
            before_turn: 0,
            has_waited: false,
            more_wait: true,
            left: 0,
            swept: None,
            room: Vec::from_elem(alloc, 0u8, ROOM)?,
            patience,
            lines,
        })
    }

    /// A round begins, and so many connections are to be accepted yet. Bodies for which there is room by now are
    /// read on.
    pub(crate) fn begin(&mut self, left: u32) -> Result<(), LoopFault>
        ensures { sockets_of T.left T.written self.new.sides.items
            ≡ sockets_of T.left T.written self.old.sides.items }
    {
        self.more_wait |= left > self.left;
        self.left = left;
        self.retry_short()
    }

    /// Whether no socket is open.
    pub(crate) fn are_closed(&self) -> bool {
        self.free.len() == self.sides.len()
    }

    /// The most events of a round: those of visits and of a turn, and for each that is accepted that it came, and that
    /// another one gave way; and each connection's time may be up.
    pub(crate) fn most_told(&self) -> usize {
        self.sides.len().saturating_add(3 * MOST + 1)
    }

    /// Whether there is nothing to do unless the system tells of it.
    pub(crate) fn rests(&self, connections: &Connections) -> bool {
        self.ready.is_empty()
            && !self.more_wait
            && (self.turns.len() == 0 || self.holds_back(connections))
    }

    /// Whether the replies that wait leave no room for one more, or for a body.
    pub(crate) fn holds_back(&self, connections: &Connections) -> bool {
        connections.are_full() || (!self.short.is_empty() && connections.are_crowding())
    }

    /// Whether others wait for the memory of replies that nobody reads.
    pub(crate) fn is_pressed(&self, connections: &Connections) -> bool {
        (!self.short.is_empty() || self.turns.len() > 0) && self.holds_back(connections)
    }

    /// One read or write of each socket that is ready, beside connections as they stand. What came of it is to be told.
    pub(crate) fn round<D: Door<T>>(
        &mut self,
        door: &mut D,
        connections: &Connections,
        now: Moment,
        told: &mut Vec<Event>,
    ) -> Result<(), LoopFault>
        ensures told { OnOk result (Tells T.left T.written connections.now.slots.items
            self.old.sides.items told.old.items self.new.sides.items told.new.items) }
        ensures stopped { OnErr result (TellsBut T.left T.written connections.now.slots.items
            self.old.sides.items told.old.items self.new.sides.items told.new.items) }
    {
        self.hear_of(door.events())?;
        self.visit_due(connections, now, told)?;
        self.sweep_if_due(connections, door, now, told)?;
        if self.more_wait {
            self.accept(door, connections, now, told)?;
        }
        Ok(())
    }

    // Those of which the system tells get their turns after those that wait for theirs.
    pub(crate) fn hear_of(&mut self, events: &Events) -> Result<(), LoopFault>
        ensures { sockets_of T.left T.written self.new.sides.items
            ≡ sockets_of T.left T.written self.old.sides.items }
    {
        for event in events.iter() {
            match slot_of(event.token()) {
                Some(slot) => self.list(slot, Listed::Ready)?,
                None => self.more_wait = true,
            }
        }
        Ok(())
    }

    // A socket that was taken out of its slot is put back, and waits among these for a visit.
    pub(crate) fn put_in(
        &mut self,
        slot: usize,
        side: Side<T>,
        list: Listed,
    ) -> Result<(), LoopFault>
        ensures { sockets_of T.left T.written self.new.sides.items
            ≡ slice_set (sockets_of T.left T.written self.old.sides.items) slot
            (Some (socket_of T.left T.written side)) }
    {
        self.put_back(slot, side);
        self.list(slot, list)
    }

    // A slot waits for a visit, unless it does already.
    fn list(&mut self, slot: usize, list: Listed) -> Result<(), LoopFault>
        ensures { sockets_of T.left T.written self.new.sides.items
            ≡ sockets_of T.left T.written self.old.sides.items }
    {
        let Some(mut side) = self.take_out(slot) else {
            return Ok(());
        };
        if side.list != Listed::Nowhere {
            self.put_back(slot, side);
            return Ok(());
        }
        side.list = list;
        self.put_back(slot, side);
        self.wait_among(slot, list)
    }

    // A slot waits for a visit among these.
    fn wait_among(&mut self, slot: usize, list: Listed) -> Result<(), LoopFault>
        ensures { self.new.sides.items ≡ self.old.sides.items }
    {
        match list {
            Listed::Nowhere => {}
            Listed::Ready => self.ready.push_back(slot)?,
            Listed::Short => self.short.push_back(slot)?,
            // It has joined those already.
            Listed::Turn => {}
        }
        Ok(())
    }

    /// Ends the connection in a slot at once.
    pub(crate) fn end(&mut self, slot: usize, told: &mut Vec<Event>) -> Result<(), LoopFault>
        ensures told { (shown : _) → OnOk result (Tells T.left T.written shown
            self.old.sides.items told.old.items self.new.sides.items told.new.items) }
        ensures stopped { (shown : _) → OnErr result (TellsBut T.left T.written shown
            self.old.sides.items told.old.items self.new.sides.items told.new.items) }
        ensures free { slot < length self.old.sides.items → slice_get self.new.sides.items slot ≡ Some None }
        ensures slots { length self.new.sides.items ≡ length self.old.sides.items }
    {
        let Some(side) = self.take_out(slot) else {
            return Ok(());
        };
        if side.is_closing {
            return self.leave(slot, side.list);
        }
        tell(told, Event::Late(slot))?;
        self.leave(slot, side.list)
    }

    /// An event of a slot was told, and so many bytes may be read next.
    pub(crate) fn let_read(&mut self, slot: usize, room: usize)
        ensures { IsNoted slot (sockets_of T.left T.written self.old.sides.items)
            (sockets_of T.left T.written self.new.sides.items) }
    {
        if let Some(mut side) = self.take_out(slot) {
            side.let_read(room);
            self.put_back(slot, side);
        }
    }

    /// The slot of one of those that have a body that doesn't fit the limit yet.
    pub(crate) fn short_at(&self, index: usize) -> Option<usize> {
        self.short.get(index).copied()
    }

    // Those of them for which there is room by now are ready.
    fn retry_short(&mut self) -> Result<(), LoopFault>
        ensures { sockets_of T.left T.written self.new.sides.items
            ≡ sockets_of T.left T.written self.old.sides.items }
    {
        for _ in 0..self.short.len() {
            if let Some(slot) = self.short.pop_front() {
                self.retry(slot)?;
            }
        }
        Ok(())
    }

    // One of them; it stays among them if there is still no room.
    fn retry(&mut self, slot: usize) -> Result<(), LoopFault>
        ensures { sockets_of T.left T.written self.new.sides.items
            ≡ sockets_of T.left T.written self.old.sides.items }
    {
        let Some(mut side) = self.take_out(slot) else {
            return Ok(());
        };
        side.list = Listed::Nowhere;
        let list = if side.room > 0 {
            Listed::Ready
        } else {
            Listed::Short
        };
        self.put_in(slot, side, list)
    }

    // Takes the socket out of a slot, if there is one.
    pub(crate) fn take_out(&mut self, slot: usize) -> Option<Side<T>>
        ensures some { IfSome result (λ taken. slice_get self.old.sides.items slot ≡ Some (Some taken)) }
        ensures new { IfSome result (λ taken.
            self.new.sides.items ≡ slice_set self.old.sides.items slot None) }
        ensures none { IfNone result (self.new.sides.items ≡ self.old.sides.items) }
        ensures free { IfNone result (slot < length self.old.sides.items
            → slice_get self.old.sides.items slot ≡ Some None) }
    {
        if slot < self.sides.len() {
            self.sides[slot].take()
        } else {
            None
        }
    }

    // Puts a socket into a slot.
    pub(crate) fn put_back(&mut self, slot: usize, side: Side<T>)
        ensures { self.new.sides.items ≡ slice_set self.old.sides.items slot (Some side) }
    {
        if slot < self.sides.len() {
            self.sides[slot] = Some(side);
        }
    }

    // A slot gets free. It was listed there.
    pub(crate) fn leave(&mut self, slot: usize, listed: Listed) -> Result<(), LoopFault>
        ensures { self.new.sides.items ≡ self.old.sides.items }
    {
        match listed {
            Listed::Nowhere => {}
            Listed::Ready => self.ready.retain(|other| *other != slot),
            Listed::Short => self.short.retain(|other| *other != slot),
            // Only a visit ends one of these, and it has left them then.
            Listed::Turn => {}
        }
        self.free.push(slot)?;
        self.more_wait = true;
        Ok(())
    }
}

/// Tells an event, after those that were told.
pub(crate) fn tell(told: &mut Vec<Event>, event: Event) -> Result<(), LoopFault>
    ensures told { OnOk result
        (map event_of told.new.items ≡ map event_of told.old.items ++ event_of event ∷ []) }
    ensures same { OnErr result (map event_of told.new.items ≡ map event_of told.old.items) }
{
    told.push(event)?;
    Ok(())
}

/// At which stage the connection in a slot is.
pub(crate) fn stage<T: Stream>(connections: &Connections, slot: usize, side: &Side<T>) -> Stage {
    if side.is_closing {
        return Stage::Closing;
    }
    match connections.slots.get(slot) {
        Some(Some(connection)) if !connection.out.is_empty() => Stage::Reply,
        Some(Some(connection)) if connection.held.len() == 0 => Stage::Idle,
        Some(Some(connection)) if connection.held.wanted() == 0 => Stage::Head,
        Some(Some(_)) => Stage::Body,
        _ => Stage::Closing,
    }
}
