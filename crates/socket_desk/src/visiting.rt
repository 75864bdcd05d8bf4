//! Whose turn it is: sockets that may have something to do, and callers whose requests lie there whole.
ghost use Rattle.std.specs.Prelude.{OnErr, OnOk};
ghost use Rattle.socket_desk.specs.Traffic.{Tells, TellsBut};

use crate::fault::LoopFault;
use crate::moment::Moment;
use crate::side::Listed;
use crate::sockets::{MOST, Sockets, tell};
use crate::stream::Stream;
use crate::visits::Visit;
use connections::{Connections, Event};

impl<T: Stream> Sockets<T> {
    /// Those that may have something to do are visited. Once all were that had at the last turn, the next caller has its
    /// own, unless replies that nobody reads leave no room for one more, or for a body.
    pub(crate) fn visit_due(
        &mut self,
        connections: &Connections,
        now: Moment,
        told: &mut Vec<Event>,
    ) -> Result<(), LoopFault>
        ensures told { OnOk result (Tells T.left T.written connections.now.slots.items
            self.old.sides.items told.old.items self.new.sides.items told.new.items) }
        ensures stopped { OnErr result (TellsBut T.left T.written connections.now.slots.items
            self.old.sides.items told.old.items self.new.sides.items told.new.items) }
    {
        self.visit_ready(connections, now, told)?;
        self.take_turn(connections, now, told)
    }

    // Whether the next caller may have its turn.
    fn may_turn(&self, connections: &Connections) -> bool {
        (self.before_turn == 0 || self.ready.is_empty()) && !self.holds_back(connections)
    }

    // Each that is ready is visited, as long as more may be told. The others keep their places before those that were.
    fn visit_ready(
        &mut self,
        connections: &Connections,
        now: Moment,
        told: &mut Vec<Event>,
    ) -> Result<(), LoopFault>
        ensures told { OnOk result (Tells T.left T.written connections.now.slots.items
            self.old.sides.items told.old.items self.new.sides.items told.new.items) }
        ensures stopped { OnErr result (TellsBut T.left T.written connections.now.slots.items
            self.old.sides.items told.old.items self.new.sides.items told.new.items) }
    {
        for _ in 0..self.ready.len() {
            if told.len() >= MOST {
                return Ok(());
            }
            self.visit_next(connections, now, told)?;
        }
        Ok(())
    }

    // The next one is visited, if there is one.
    fn visit_next(
        &mut self,
        connections: &Connections,
        now: Moment,
        told: &mut Vec<Event>,
    ) -> Result<(), LoopFault>
        ensures told { OnOk result (Tells T.left T.written connections.now.slots.items
            self.old.sides.items told.old.items self.new.sides.items told.new.items) }
        ensures stopped { OnErr result (TellsBut T.left T.written connections.now.slots.items
            self.old.sides.items told.old.items self.new.sides.items told.new.items) }
    {
        let Some(slot) = self.ready.pop_front() else {
            return Ok(());
        };
        self.before_turn = self.before_turn.saturating_sub(1);
        self.visit(connections, slot, now, told)
    }

    // The turn of the next caller, if one waits and may have it.
    fn take_turn(
        &mut self,
        connections: &Connections,
        now: Moment,
        told: &mut Vec<Event>,
    ) -> Result<(), LoopFault>
        ensures told { OnOk result (Tells T.left T.written connections.now.slots.items
            self.old.sides.items told.old.items self.new.sides.items told.new.items) }
        ensures stopped { OnErr result (TellsBut T.left T.written connections.now.slots.items
            self.old.sides.items told.old.items self.new.sides.items told.new.items) }
    {
        if !self.may_turn(connections) {
            return Ok(());
        }
        // Who waits to be accepted is heard of first, and this one has its turn in the next round.
        if self.more_wait && !self.has_waited {
            self.has_waited = true;
            return Ok(());
        }
        self.has_waited = false;
        let Some(slot) = self.turns.next() else {
            return Ok(());
        };
        // Its own reply goes out before the next turn too.
        self.before_turn = self.ready.len().saturating_add(1);
        self.visit(connections, slot, now, told)
    }

    // One read or write of the socket in a slot, which is listed no more.
    fn visit(
        &mut self,
        connections: &Connections,
        slot: usize,
        now: Moment,
        told: &mut Vec<Event>,
    ) -> Result<(), LoopFault>
        ensures told { OnOk result (Tells T.left T.written connections.now.slots.items
            self.old.sides.items told.old.items self.new.sides.items told.new.items) }
        ensures stopped { OnErr result (TellsBut T.left T.written connections.now.slots.items
            self.old.sides.items told.old.items self.new.sides.items told.new.items) }
    {
        let Some(mut side) = self.take_out(slot) else {
            return Ok(());
        };
        let has_turn = side.list == Listed::Turn;
        side.list = Listed::Nowhere;
        match self.transfer(connections, slot, &mut side, has_turn, now) {
            Visit::Told(event) => {
                self.put_in(slot, side, Listed::Ready)?;
                tell(told, event)
            }
            Visit::Goes => self.put_in(slot, side, Listed::Ready),
            Visit::Waits => self.put_in(slot, side, Listed::Nowhere),
            Visit::Short => self.put_in(slot, side, Listed::Short),
            Visit::Turn => self.put_in(slot, side, Listed::Turn),
            Visit::Failed => {
                tell(told, Event::Failed(slot))?;
                self.leave(slot, Listed::Nowhere)
            }
            Visit::Over => self.leave(slot, Listed::Nowhere),
        }
    }
}
