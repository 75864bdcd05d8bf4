//! New connections: each is accepted if there is a place, or an idle one gives way to it.
ghost use Rattle.std.specs.Prelude.{OnErr, OnOk};
ghost use Rattle.socket_desk.specs.Traffic.{Tells, TellsBut};

use crate::fault::LoopFault;
use crate::moment::Moment;
use crate::patience::Stage;
use crate::port::Door;
use crate::side::{Listed, Side};
use crate::sockets::{MOST, Sockets, stage, tell};
use crate::stream::Stream;
use connections::{Connections, Event};
use std::io::{self, ErrorKind};
use std::time::Duration;

// How long, in seconds, a connection is idle before it may give way to another: a request may be on its way.
const GRACE: u64 = 1;

impl<T: Stream> Sockets<T> {
    /// Accepts what waits, as long as there is a place.
    pub(crate) fn accept<D: Door<T>>(
        &mut self,
        door: &D,
        connections: &Connections,
        now: Moment,
        told: &mut Vec<Event>,
    ) -> Result<(), LoopFault>
        ensures told { OnOk result (Tells T.left T.written connections.now.slots.items
            self.old.sides.items told.old.items self.new.sides.items told.new.items) }
        ensures stopped { OnErr result (TellsBut T.left T.written connections.now.slots.items
            self.old.sides.items told.old.items self.new.sides.items told.new.items) }
    {
        for _ in 0..MOST {
            let more = self.accept_one(door, connections, now, told)?;
            if !more {
                self.more_wait = false;
                return Ok(());
            }
        }
        Ok(())
    }

    // Accepts one, if one waits and there is a place. Whether more may wait.
    fn accept_one<D: Door<T>>(
        &mut self,
        door: &D,
        connections: &Connections,
        now: Moment,
        told: &mut Vec<Event>,
    ) -> Result<bool, LoopFault>
        ensures told { OnOk result (Tells T.left T.written connections.now.slots.items
            self.old.sides.items told.old.items self.new.sides.items told.new.items) }
        ensures stopped { OnErr result (TellsBut T.left T.written connections.now.slots.items
            self.old.sides.items told.old.items self.new.sides.items told.new.items) }
    {
        if self.left == 0 {
            return Ok(false);
        }
        let Some(slot) = self.place(connections, now) else {
            return Ok(false);
        };
        match door.accept() {
            Ok(stream) => self.take_in(door, slot, stream, now, told),
            Err(error) if lacks_descriptor(&error) => self.accept_for_idlest(
                door,
                connections,
                now,
                told,
            ),
            Err(error) => Ok(is_gone(&error)),
        }
    }

    // There is no descriptor for one that waits. The connection that has been idle longest gives its own, if one may give
    // way. Whether more may wait.
    fn accept_for_idlest<D: Door<T>>(
        &mut self,
        door: &D,
        connections: &Connections,
        now: Moment,
        told: &mut Vec<Event>,
    ) -> Result<bool, LoopFault>
        ensures told { OnOk result (Tells T.left T.written connections.now.slots.items
            self.old.sides.items told.old.items self.new.sides.items told.new.items) }
        ensures stopped { OnErr result (TellsBut T.left T.written connections.now.slots.items
            self.old.sides.items told.old.items self.new.sides.items told.new.items) }
    {
        let Some(slot) = self.idlest(connections, now) else {
            return Ok(false);
        };
        self.end(slot, told)?;
        match door.accept() {
            Ok(stream) => self.take_in(door, slot, stream, now, told),
            Err(error) => Ok(is_gone(&error)),
        }
    }

    // A connection that was accepted takes a slot, unless the system can't tell of it. Whether more may wait: they may.
    fn take_in<D: Door<T>>(
        &mut self,
        door: &D,
        slot: usize,
        stream: T,
        now: Moment,
        told: &mut Vec<Event>,
    ) -> Result<bool, LoopFault>
        ensures told { (shown : _) → OnOk result (Tells T.left T.written shown
            self.old.sides.items told.old.items self.new.sides.items told.new.items) }
        ensures stopped { (shown : _) → OnErr result (TellsBut T.left T.written shown
            self.old.sides.items told.old.items self.new.sides.items told.new.items) }
    {
        let mut stream = stream;
        if door.register(slot, &mut stream).is_ok() {
            self.take_place(slot, stream, now, told)?;
        }
        Ok(true)
    }

    // The slot of the next connection: a free one, or that of the connection that is to give way.
    fn place(&self, connections: &Connections, now: Moment) -> Option<usize> {
        match self.free.last() {
            Some(slot) => Some(*slot),
            None => self.idlest(connections, now),
        }
    }

    // A socket takes a slot. A connection that stands there gives way, so the slot is the last of the free ones.
    fn take_place(
        &mut self,
        slot: usize,
        stream: T,
        now: Moment,
        told: &mut Vec<Event>,
    ) -> Result<(), LoopFault>
        ensures told { (shown : _) → OnOk result (Tells T.left T.written shown
            self.old.sides.items told.old.items self.new.sides.items told.new.items) }
        ensures stopped { (shown : _) → OnErr result (TellsBut T.left T.written shown
            self.old.sides.items told.old.items self.new.sides.items told.new.items) }
    {
        self.end(slot, told)?;
        if slot >= self.sides.len() {
            return Ok(());
        }
        self.free.pop();
        self.put_back(slot, Side::new(stream, now));
        self.left = self.left.saturating_sub(1);
        tell(told, Event::Came(slot))
    }

    // The slot of the connection that has been idle longest, if one may give way.
    fn idlest(&self, connections: &Connections, now: Moment) -> Option<usize> {
        let mut idlest: Option<(usize, Duration)> = None;
        for (slot, side) in self.sides.iter().enumerate() {
            if let Some(side) = side {
                if may_give_way(connections, slot, side, now) && is_before(side.heard.own, idlest) {
                    idlest = Some((slot, side.heard.own));
                }
            }
        }
        match idlest {
            Some((slot, _)) => Some(slot),
            None => None,
        }
    }
}

// Whether only the connection that was to be accepted is gone, or the call was interrupted: then the next one is tried.
fn is_gone(error: &io::Error) -> bool {
    match error.kind() {
        ErrorKind::ConnectionAborted => true,
        ErrorKind::Interrupted => true,
        _ => false,
    }
}

// Whether there is no descriptor, or no memory of the system's, for the connection that was to be accepted: EMFILE, ENFILE,
// ENOBUFS and ENOMEM of accept(2).
fn lacks_descriptor(error: &io::Error) -> bool {
    matches!(error.raw_os_error(), Some(12 | 23 | 24 | 105))
}

// Whether a connection is idle, and not only since its request is on its way.
fn may_give_way<T: Stream>(
    connections: &Connections,
    slot: usize,
    side: &Side<T>,
    now: Moment,
) -> bool {
    side.list == Listed::Nowhere
        && stage(connections, slot, side) == Stage::Idle
        && now.waited(&side.heard) >= Duration::from_secs(GRACE)
}

// Whether one was heard of before another, if there is another.
fn is_before(heard: Duration, other: Option<(usize, Duration)>) -> bool {
    match other {
        Some((_, earlier)) => heard < earlier,
        None => true,
    }
}
