//! Connections whose time is up: each ends, once the system has nothing more to tell of it.
ghost use Rattle.std.specs.Prelude.{◌≡◌, OnErr, OnOk};
ghost use Rattle.socket_desk.specs.Traffic.{Tells, TellsBut, sockets_of};

use crate::fault::LoopFault;
use crate::moment::Moment;
use crate::patience::Stage;
use crate::port::{Door, EVENTS, are_all};
use crate::sockets::{Sockets, stage};
use crate::stream::Stream;
use bureau_http::ConnFault;
use connections::{Connections, Event};
use std::time::Duration;

// How often, in seconds, the loop looks for connections whose time is up, and tries again what the system may refuse
// for a while: to accept a connection if no descriptor was left.
pub(crate) const TICK: u64 = 1;

impl<T: Stream> Sockets<T> {
    /// Looks for connections whose time is up, if that is due and the system has told all that lies there: after a pause
    /// of the desk one wait may tell of a part of them, or of none.
    pub(crate) fn sweep_if_due<D: Door<T>>(
        &mut self,
        connections: &Connections,
        door: &mut D,
        now: Moment,
        told: &mut Vec<Event>,
    ) -> Result<(), LoopFault>
        ensures told { OnOk result (Tells T.left T.written connections.now.slots.items
            self.old.sides.items told.old.items self.new.sides.items told.new.items) }
        ensures stopped { OnErr result (TellsBut T.left T.written connections.now.slots.items
            self.old.sides.items told.old.items self.new.sides.items told.new.items) }
    {
        if !self.is_due(now) {
            return Ok(());
        }
        let has_heard = self.hear_all(door)?;
        if !has_heard {
            return Ok(());
        }
        self.swept = Some(now.own);
        self.more_wait = true;
        self.sweep(connections, now, told)
    }

    // Whether it is time to look for connections whose time is up.
    fn is_due(&self, now: Moment) -> bool {
        match self.swept {
            Some(swept) => now.own.saturating_sub(swept) >= Duration::from_secs(TICK),
            None => true,
        }
    }

    // Hears all that the system has to tell at once: a wait that tells fewer events than it could has told them all.
    // False if there may be more.
    fn hear_all<D: Door<T>>(&mut self, door: &mut D) -> Result<bool, LoopFault>
        ensures { sockets_of T.left T.written self.new.sides.items
            ≡ sockets_of T.left T.written self.old.sides.items }
    {
        for _ in 0..self.sides.len() / EVENTS + 2 {
            door.wait(Duration::ZERO)?;
            self.hear_of(door.events())?;
            if are_all(door.events()) {
                return Ok(true);
            }
        }
        Ok(false)
    }

    // Ends each connection whose time is up.
    fn sweep(
        &mut self,
        connections: &Connections,
        now: Moment,
        told: &mut Vec<Event>,
    ) -> Result<(), LoopFault>
        ensures told { OnOk result (Tells T.left T.written connections.now.slots.items
            self.old.sides.items told.old.items self.new.sides.items told.new.items) }
        ensures stopped { OnErr result (TellsBut T.left T.written connections.now.slots.items
            self.old.sides.items told.old.items self.new.sides.items told.new.items) }
    {
        for slot in 0..self.sides.len() {
            self.sweep_one(connections, slot, now, told)?;
        }
        Ok(())
    }

    // Ends the connection in a slot if its time is up.
    fn sweep_one(
        &mut self,
        connections: &Connections,
        slot: usize,
        now: Moment,
        told: &mut Vec<Event>,
    ) -> Result<(), LoopFault>
        ensures told { OnOk result (Tells T.left T.written connections.now.slots.items
            self.old.sides.items told.old.items self.new.sides.items told.new.items) }
        ensures stopped { OnErr result (TellsBut T.left T.written connections.now.slots.items
            self.old.sides.items told.old.items self.new.sides.items told.new.items) }
    {
        if !self.is_late(connections, slot, now) {
            return Ok(());
        }
        self.tell_late(connections, slot);
        self.end(slot, told)
    }

    // Whether the time of the connection in a slot is up. A reply that isn't read has less while others wait for its room.
    fn is_late(&self, connections: &Connections, slot: usize, now: Moment) -> bool {
        let Some(Some(side)) = self.sides.get(slot) else {
            return false;
        };
        let stage = stage(connections, slot, side);
        if stage == Stage::Reply && self.is_pressed(connections) {
            return side.is_late(&self.patience.pressed(), stage, now);
        }
        side.is_late(&self.patience, stage, now)
    }

    // The time of a connection is up. That it can't be read, or written, is told of one with a request alone.
    fn tell_late(&mut self, connections: &Connections, slot: usize)
        ensures { self.new.sides.items ≡ self.old.sides.items }
    {
        let Some(Some(side)) = self.sides.get(slot) else {
            return;
        };
        match stage(connections, slot, side) {
            Stage::Idle => {}
            Stage::Head => self.lines.fault(ConnFault::Read),
            Stage::Body => self.lines.fault(ConnFault::Read),
            Stage::Reply => self.lines.fault(ConnFault::Write),
            Stage::Closing => {}
        }
    }
}
