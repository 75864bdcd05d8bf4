//! The turn of a socket: one read or write, and its outcome.
ghost use Rattle.std.specs.Prelude.{◌≡◌, true, false, slice_get};
ghost use Rattle.socket_desk.specs.Traffic.{IsLast, IsVisit, socket_of};

use crate::moment::Moment;
use crate::patience::Stage;
use crate::side::{Parting, Side};
use crate::sockets::{Sockets, stage};
use crate::stream::Stream;
use crate::transfers::{Transfer, read_once, write_once};
use bureau_http::ConnFault;
use connections::{Connections, Event, Phase, Preview};
use std::alloc::Global;
use std::io::{self, ErrorKind};

// So many callers may wait before their tokens are looked at: invented ones cost a known caller no more.
const FEW: usize = 8;

// The most bytes of a read.
pub(crate) const ROOM: usize = 65_536;

// The outcome of a visit.
#[derive(Drop)]
pub(crate) enum Visit {
    // This came or went, and there may be more to do.
    Told(Event),
    // There may be more to do.
    Goes,
    // The system would make it wait.
    Waits,
    // There is no room yet for what comes.
    Short,
    // Its next request lies there whole, and waits for its turn.
    Turn,
    // A read or a write failed, so its connection is over.
    Failed,
    // It is over, and its connection was before.
    Over,
}

impl<T: Stream> Sockets<T> {
    /// Makes one read or write of the socket in a slot, from which it was taken out. What the desk has not noted yet comes
    /// first: until then nothing is done. A request that lies there whole is read once its caller has its turn.
    pub(crate) fn transfer(
        &mut self,
        connections: &Connections,
        slot: usize,
        side: &mut Side<T>,
        has_turn: bool,
        now: Moment,
    ) -> Visit
        ensures sides { self.new.sides.items ≡ self.old.sides.items }
        ensures visit { IsVisit slot (slice_get connections.now.slots.items slot) result
            (socket_of T.left T.written side.old) (socket_of T.left T.written side.new) }
    {
        if side.is_closing {
            return self.read_out(side);
        }
        if side.is_ahead {
            return Visit::Goes;
        }
        if connections.is_free(slot) {
            self.part(side);
            side.close(now);
            return Visit::Goes;
        }
        if connections.outgoing(slot).is_empty() {
            self.read(connections, slot, side, has_turn, now)
        } else {
            self.write(connections, slot, side, now)
        }
    }

    // Reads what ends no request, and one that has its turn. Others wait for theirs.
    fn read(
        &mut self,
        connections: &Connections,
        slot: usize,
        side: &mut Side<T>,
        has_turn: bool,
        now: Moment,
    ) -> Visit
        requires { side.old.is_closing ≡ false }
        ensures sides { self.new.sides.items ≡ self.old.sides.items }
        ensures visit { IsVisit slot (slice_get connections.now.slots.items slot) result
            (socket_of T.left T.written side.old) (socket_of T.left T.written side.new) }
    {
        if has_turn {
            if self.joins_its_own(slot, side) {
                return Visit::Turn;
            }
            return self.read_some(connections, slot, side, side.due, now);
        }
        match self.look(connections, slot, side) {
            Look::Read(count) => self.read_some(connections, slot, side, count, now),
            Look::Turn(count, token, is_strange) => {
                side.due = count;
                side.token = Some(token);
                side.is_strange = is_strange;
                Visit::Turn
            }
            Look::Waits => Visit::Waits,
            Look::Interrupted => Visit::Goes,
            Look::Failed => self.failed(ConnFault::Read),
        }
    }

    // By which token a caller has its turns. Where few wait each token is a caller's, and else those that are known.
    fn caller_by<'a>(&self, token: &'a [u8]) -> &'a [u8] {
        if self.turns.len() < FEW {
            return token;
        }
        self.known.token(token)
    }

    // A request that lay there before its caller was known stands behind that caller's others from now on.
    fn joins_its_own(&mut self, slot: usize, side: &mut Side<T>) -> bool
        ensures sides { self.new.sides.items ≡ self.old.sides.items }
        ensures socket { socket_of T.left T.written side.new ≡ socket_of T.left T.written side.old }
    {
        if !side.is_strange {
            return false;
        }
        side.is_strange = false;
        match &side.token {
            Some(token) if !self.known.token(token.as_slice()).is_empty() => {
                self.turns.join(token.as_slice(), slot).is_ok()
            }
            _ => false,
        }
    }

    // Looks at what lies there over the connection in a slot. If a request ends in it, it joins those that wait for their
    // turns, unless there is no memory for that.
    fn look(&mut self, connections: &Connections, slot: usize, side: &Side<T>) -> Look
        ensures sides { self.new.sides.items ≡ self.old.sides.items }
    {
        let most = side.room.min(self.room.len());
        if is_short_of(connections, slot, most) {
            return Look::Read(most);
        }
        let (room, _) = self.room.split_at_mut(most);
        let count = match side.stream.look(room) {
            Ok(0) => return Look::Read(most),
            Ok(count) => count,
            Err(error) => return Look::stopped(&error),
        };
        match preview(self.alloc, connections, slot, &room[..count]) {
            Some(Preview::Whole(due, token)) => {
                let caller = self.caller_by(token.as_slice());
                let is_strange = caller.is_empty();
                match self.turns.join(caller, slot) {
                    Ok(()) => Look::Turn(due, token, is_strange),
                    Err(_) => Look::Read(count),
                }
            }
            _ => Look::Read(count),
        }
    }

    // Reads once, so many bytes at most.
    fn read_some(
        &mut self,
        connections: &Connections,
        slot: usize,
        side: &mut Side<T>,
        count: usize,
        now: Moment,
    ) -> Visit
        requires { side.old.is_closing ≡ false }
        ensures sides { self.new.sides.items ≡ self.old.sides.items }
        ensures visit { IsVisit slot (slice_get connections.now.slots.items slot) result
            (socket_of T.left T.written side.old) (socket_of T.left T.written side.new) }
    {
        let begins = stage(connections, slot, side) == Stage::Idle;
        let most = count.min(side.room).min(self.room.len());
        if most == 0 {
            return Visit::Short;
        }
        let (room, _) = self.room.split_at_mut(most);
        match read_once(self.alloc, &mut side.stream, slot, room) {
            Transfer::Done(event) => {
                if let Event::Ended(_) = &event {
                    ended(connections, slot, side);
                }
                side.hear(now, begins);
                Visit::Told(event)
            }
            Transfer::Waits => Visit::Waits,
            Transfer::Interrupted => Visit::Goes,
            Transfer::Failed => self.failed(ConnFault::Read),
        }
    }

    // Writes once.
    fn write(
        &mut self,
        connections: &Connections,
        slot: usize,
        side: &mut Side<T>,
        now: Moment,
    ) -> Visit
        requires open { side.old.is_closing ≡ false }
        requires noted { side.old.is_ahead ≡ false }
        ensures sides { self.new.sides.items ≡ self.old.sides.items }
        ensures visit { IsVisit slot (slice_get connections.now.slots.items slot) result
            (socket_of T.left T.written side.old) (socket_of T.left T.written side.new) }
    {
        let text = connections.outgoing(slot);
        match write_once(&mut side.stream, slot, text) {
            Transfer::Done(event) => {
                // After a whole reply the next request begins.
                let begins = is_whole(&event, text);
                if begins {
                    self.replied(connections, slot, side, now);
                }
                side.hear(now, begins);
                side.is_ahead = true;
                Visit::Told(event)
            }
            Transfer::Waits => Visit::Waits,
            Transfer::Interrupted => Visit::Goes,
            Transfer::Failed => self.failed(ConnFault::Write),
        }
    }

    /// Writes once for the last time, if there is something to write. Without the time the log has no line of it.
    pub(crate) fn write_last(
        &mut self,
        connections: &Connections,
        slot: usize,
        side: &mut Side<T>,
        now: Option<Moment>,
    )
        requires open { side.old.is_closing ≡ false }
        requires noted { side.old.is_ahead ≡ false }
        ensures sides { self.new.sides.items ≡ self.old.sides.items }
        ensures last { IsLast slot (slice_get connections.now.slots.items slot)
            (socket_of T.left T.written side.old) (socket_of T.left T.written side.new) }
    {
        let text = connections.outgoing(slot);
        if text.is_empty() {
            return;
        }
        if let Transfer::Done(event) = write_once(&mut side.stream, slot, text) {
            side.is_ahead = true;
            if let Some(now) = now {
                if is_whole(&event, text) {
                    self.replied(connections, slot, side, now);
                }
            }
        }
    }

    // Gives the log its line: the reply that was shown went out whole.
    fn replied(&mut self, connections: &Connections, slot: usize, side: &mut Side<T>, now: Moment)
        ensures sides { self.new.sides.items ≡ self.old.sides.items }
        ensures socket { socket_of T.left T.written side.new ≡ socket_of T.left T.written side.old }
    {
        if let Some(Some(connection)) = connections.slots.get(slot) {
            side.parting = Parting::of(connection, connection.phase);
            if let Some(note) = &connection.note {
                self.known.learn(side.token.take(), note);
                self.lines.request(note, side.taken(now));
            }
        }
    }

    // Notes that the desk has let a connection go.
    fn part(&mut self, side: &Side<T>)
        ensures { self.new.sides.items ≡ self.old.sides.items }
    {
        if let Some(fault) = side.parting.fault() {
            self.lines.fault(fault);
        }
    }

    // A read or a write of a connection failed.
    fn failed(&mut self, fault: ConnFault) -> Visit
        ensures sides { self.new.sides.items ≡ self.old.sides.items }
        ensures visit { result ≡ Visit.Failed }
    {
        self.lines.fault(fault);
        Visit::Failed
    }

    // Reads once over a connection that the desk has ended on its side: bytes that nobody needs.
    fn read_out(&mut self, side: &mut Side<T>) -> Visit
        requires { side.old.is_closing ≡ true }
        ensures sides { self.new.sides.items ≡ self.old.sides.items }
        ensures visit { (slot : _) (shown : _) → IsVisit slot shown result
            (socket_of T.left T.written side.old) (socket_of T.left T.written side.new) }
    {
        match side.stream.receive(self.room.as_mut_slice()) {
            Ok(0) => Visit::Over,
            Ok(_) => Visit::Goes,
            Err(error) => match Transfer::stopped(&error) {
                Transfer::Waits => Visit::Waits,
                Transfer::Interrupted => Visit::Goes,
                _ => Visit::Over,
            },
        }
    }
}

// What lies there over a connection.
#[derive(Drop)]
enum Look {
    // So many bytes may be read at once: no request ends in them.
    Read(usize),
    // So many end a request with this token, which waits for its turn; and whether nobody is known by the token.
    Turn(usize, Vec<u8>, bool),
    // Nothing yet.
    Waits,
    // It was interrupted, and is to be made again.
    Interrupted,
    // It failed.
    Failed,
}

impl Look {
    // That of one that ended with this error.
    fn stopped(error: &io::Error) -> Look {
        match error.kind() {
            ErrorKind::WouldBlock => Look::Waits,
            ErrorKind::Interrupted => Look::Interrupted,
            _ => Look::Failed,
        }
    }
}

// Whether the next request over the connection in a slot is known to have more bytes than came and so many more.
fn is_short_of(connections: &Connections, slot: usize, more: usize) -> bool {
    match connections.slots.get(slot) {
        Some(Some(connection)) => connection.held.is_short_of(more),
        _ => false,
    }
}

// What bytes that lie unread would bring over the connection in a slot. None if there is no connection, or no memory.
fn preview(
    alloc: Global,
    connections: &Connections,
    slot: usize,
    unread: &[u8],
) -> Option<Preview> {
    match connections.slots.get(slot) {
        Some(Some(connection)) => connection.held.preview(alloc, unread).ok(),
        _ => None,
    }
}

// Whether all of a text was written.
fn is_whole(event: &Event, text: &[u8]) -> bool {
    matches!(event, Event::Wrote(_, count) if *count == text.len())
}

// Notes that the peer of a connection has ended its side.
fn ended<T: Stream>(connections: &Connections, slot: usize, side: &mut Side<T>)
    ensures { socket_of T.left T.written side.new ≡ socket_of T.left T.written side.old }
{
    if let Some(Some(connection)) = connections.slots.get(slot) {
        side.parting = Parting::of(connection, Phase::Ended);
    }
}
