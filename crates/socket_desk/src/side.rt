//! The socket of a connection, and when it was heard of.
ghost use Rattle.std.specs.Prelude.{◌≡◌, ◌-◌, IsTrue, true, false};
ghost use Rattle.std.specs.Duration.{as_nanos};
ghost use Rattle.std.specs.Io.KnownBytes.{Keeps};
ghost use Rattle.socket_desk.specs.Patience.{is_late, judged_at, unless_turn};
ghost use Rattle.socket_desk.specs.Traffic.{socket_of};

use crate::moment::Moment;
use crate::patience::{Patience, Stage};
use crate::stream::Stream;
use bureau_http::ConnFault;
use connections::{Connection, Phase};
use std::time::Duration;

/// Among which a connection waits for a visit.
#[derive(Clone, Copy, Debug, PartialEq, Eq)]
pub(crate) enum Listed {
    /// None: the system will tell of it.
    Nowhere,
    /// Those that may have something to do.
    Ready,
    /// Those whose body doesn't fit the limit yet.
    Short,
    /// Those whose next request lies there whole, until their caller has its turn.
    Turn,
}

/// Why the desk lets a connection go, should it do so next.
#[derive(Clone, Copy, Debug, PartialEq, Eq)]
pub(crate) enum Parting {
    /// There is no memory for it: neither side has ended it.
    NoMemory,
    /// Its peer ended its side, inside a request.
    EndInside,
    /// Its peer ended its side, or its last reply went out.
    Done,
}

impl Parting {
    // That of a connection in this phase, all of whose replies went out.
    pub(crate) fn of(connection: &Connection, phase: Phase) -> Parting {
        match phase {
            Phase::Open => Parting::NoMemory,
            Phase::Ended if connection.held.has_begun() => Parting::EndInside,
            Phase::Ended => Parting::Done,
            Phase::Last => Parting::Done,
        }
    }

    // What the log tells of it.
    pub(crate) fn fault(self) -> Option<ConnFault> {
        match self {
            Parting::NoMemory => Some(ConnFault::Memory),
            Parting::EndInside => Some(ConnFault::EndInside),
            Parting::Done => None,
        }
    }
}

/// The socket of a connection, and when it was heard of.
#[derive(Drop)]
pub(crate) struct Side<T> {
    pub(crate) stream: T,
    // when its request began, or its end
    pub(crate) since: Moment,
    // when bytes came or went last
    pub(crate) heard: Moment,
    // when the last of them that was told to the desk came or went
    pub(crate) told: Moment,
    // how many bytes may be read next
    pub(crate) room: usize,
    // how many of those that lie there end its next request, once it waits for its turn
    pub(crate) due: usize,
    // the token of that request, until it is answered
    pub(crate) token: Option<Vec<u8>>,
    // as that request came to lie there, nobody was known by its token
    pub(crate) is_strange: bool,
    // the desk has ended its side
    pub(crate) is_closing: bool,
    // it came, or bytes were written to it, and the desk has not noted that yet
    pub(crate) is_ahead: bool,
    // among which it waits for a visit
    pub(crate) list: Listed,
    // why the desk lets it go, should it do so next
    pub(crate) parting: Parting,
}

impl<T: Stream> Side<T> {
    // That of a stream that has just come.
    pub(crate) fn new(stream: T, now: Moment) -> Side<T>
        ensures stream { result.stream ≡ stream }
        ensures open { result.is_closing ≡ false }
        ensures ahead { result.is_ahead ≡ true }
    {
        Side {
            stream,
            since: now,
            heard: now,
            told: now,
            room: 0,
            due: 0,
            token: None,
            is_strange: false,
            is_closing: false,
            is_ahead: true,
            list: Listed::Nowhere,
            parting: Parting::NoMemory,
        }
    }

    // The desk has nothing more to write. What the client still sends is read for a while, since a socket that is
    // closed while bytes lie unread in it may lose its last reply (RFC 9112, section 9.6).
    pub(crate) fn close(&mut self, now: Moment)
        ensures left { Keeps (T.left self.old.stream) (T.left self.new.stream) }
        ensures written { Keeps (T.written self.old.stream) (T.written self.new.stream) }
        ensures closing { self.new.is_closing ≡ true }
        ensures ahead { self.new.is_ahead ≡ self.old.is_ahead }
    {
        self.stream.end();
        self.is_closing = true;
        self.since = now;
    }

    // Whether something may be written: the desk has not ended its side, and has noted what happened to it.
    pub(crate) fn takes_more(&self) -> bool
        ensures unclosed { IsTrue result → self.now.is_closing ≡ false }
        ensures noted { IsTrue result → self.now.is_ahead ≡ false }
    {
        !self.is_closing && !self.is_ahead
    }

    // Bytes came or went. A request may begin with them, or after them.
    pub(crate) fn hear(&mut self, now: Moment, begins: bool)
        ensures { socket_of T.left T.written self.new ≡ socket_of T.left T.written self.old }
    {
        self.heard = now;
        if begins {
            self.since = now;
        }
    }

    // How long its request has taken, by the clock.
    pub(crate) fn taken(&self, now: Moment) -> Duration {
        now.lasted(&self.since)
    }

    // What came or went was told to the desk, and so many bytes may be read next.
    pub(crate) fn let_read(&mut self, room: usize)
        ensures stream { self.new.stream ≡ self.old.stream }
        ensures closing { self.new.is_closing ≡ self.old.is_closing }
        ensures noted { self.new.is_ahead ≡ false }
    {
        self.is_ahead = false;
        self.told = self.heard;
        self.room = room;
    }

    // Whether its time is up at this stage, by the desk's own time. While it waits for its turn it waits for the desk.
    pub(crate) fn is_late(&self, patience: &Patience, stage: Stage, now: Moment) -> bool
        ensures { result ≡ unless_turn self.now.list (is_late patience.now stage
            (judged_at self.now.list self.now.is_closing (as_nanos self.now.told.own) (as_nanos now.own)
            - as_nanos self.now.heard.own)
            (judged_at self.now.list self.now.is_closing (as_nanos self.now.told.own) (as_nanos now.own)
            - as_nanos self.now.since.own)) }
    {
        let judged = match self.list {
            Listed::Turn => return false,
            Listed::Ready if !self.is_closing => self.told,
            _ => now,
        };
        patience.is_over(
            stage,
            judged.waited(&self.heard),
            judged.waited(&self.since),
        )
    }
}
