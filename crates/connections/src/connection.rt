//! One connection: the bytes of its request that came, the bytes of its reply that have still to go out, and
//! how it ends.
ghost use Rattle.std.specs.Prelude.{◌≡◌, ◌+◌, ◌<◌, ◌≤◌, [], length, take, OnOk};
ghost use Rattle.bureau.specs.Kept.{IsKeptRun};
ghost use Rattle.catalogue.specs.View.{Goes, Tells};
ghost use Rattle.connections.specs.Items.{Grows, IsEnded, IsReady, Sends, fresh};
ghost use Rattle.connections.specs.Turns.{Turns, rest_of, stays};

use crate::incoming::Incoming;
use crate::outgoing::Outgoing;
use bureau_http::{ConnFault, Desk, Retries, Step, serve_next};
use faults::NoMemory;
use log_lines::Note;
use requests::Routes;
use std::alloc::Global;
use std::io;
use transfer::RETRIES;

/// The phase of a connection.
#[derive(Clone, Copy, Debug, PartialEq, Eq)]
pub enum Phase {
    /// Its peer may send more.
    Open,
    /// Its peer ended its side. Requests that came whole are still answered.
    Ended,
    /// Its last reply has to go out. Bytes that come after that aren't looked at.
    Last,
}

// The turn of a connection: what was done about its next request.
#[derive(Clone, Copy, Debug, PartialEq, Eq)]
pub(crate) enum Turn {
    // Nothing: a reply has still to go out, or no whole request has come.
    Waits,
    // It was answered, and its reply has to go out.
    Answered,
    // It was answered, and there was no memory for the reply.
    Lost,
    // There was no memory to look at what came.
    Starved,
    // Nothing is left to do: all replies went out, and the connection ends.
    Finished,
}

impl Turn {
    // Whether the connection stays in its slot.
    pub(crate) fn stays(self) -> bool
        ensures { result ≡ stays self }
    {
        match self {
            Turn::Waits => true,
            Turn::Answered => true,
            Turn::Lost => false,
            Turn::Starved => false,
            Turn::Finished => false,
        }
    }
}

/// One connection, as a value.
#[derive(Drop)]
pub struct Connection {
    /// The bytes that came over it, and were not yet taken off as a request.
    pub held: Incoming,
    /// The bytes that have to go out, and were not yet written.
    pub out: Outgoing,
    /// The log's note of the request whose reply has to go out, or went out last. `None` before the first.
    pub note: Option<Note>,
    /// The ordinal of its next request, counted from 1.
    pub ordinal: u64,
    /// Its phase.
    pub phase: Phase,
}

impl Connection {
    /// A connection that has just come.
    pub fn new(alloc: Global) -> Connection
        ensures { result ≡ fresh }
    {
        Connection {
            held: Incoming::new(alloc),
            out: Outgoing::new(alloc),
            note: None,
            ordinal: 1,
            phase: Phase::Open,
        }
    }

    // Takes these bytes, which came, in. If there is no memory for them, the connection is of no use any more.
    pub(crate) fn take_in(&mut self, text: &[u8]) -> Result<(), NoMemory>
        requires { self.old.phase ≡ Phase.Open }
        ensures { OnOk result (Grows text.now self.old self.new) }
    {
        self.held.take_in(text)
    }

    // Notes that so many of the bytes that have to go out were written.
    pub(crate) fn wrote(&mut self, alloc: Global, count: usize)
        requires { count ≤ length self.old.out }
        ensures { Sends (take count self.old.out) self.old self.new }
    {
        self.out.wrote(alloc, count);
    }

    // Notes that its peer ended its side.
    pub(crate) fn end(&mut self)
        requires { self.old.phase ≡ Phase.Open }
        ensures { IsEnded self.old self.new }
    {
        self.phase = Phase::Ended;
    }

    // Answers its next request once its last reply went out.
    pub(crate) fn take_turn<D: Desk>(
        &mut self,
        alloc: Global,
        desk: &mut D,
        routes: &Routes,
    ) -> Turn
        ensures goes { Goes D.tables_view desk.old desk.new }
        ensures turn { Tells D.tables_view desk.old desk.new (λ this.
            Turns (IsKeptRun D.tables_view desk.old desk.new) this result self.old self.new) }
        ensures fewer { length self.new.held ≤ length self.old.held }
    {
        if !self.out.is_empty() {
            return Turn::Waits;
        }
        if self.phase == Phase::Last {
            return Turn::Finished;
        }
        self.look_on(alloc, desk, routes)
    }

    // Answers its next request, unless the bytes that came are known to hold no whole one.
    fn look_on<D: Desk>(&mut self, alloc: Global, desk: &mut D, routes: &Routes) -> Turn
        requires { IsReady self.old }
        ensures goes { Goes D.tables_view desk.old desk.new }
        ensures turn { Tells D.tables_view desk.old desk.new (λ this.
            Turns (IsKeptRun D.tables_view desk.old desk.new) this result self.old self.new) }
        ensures fewer { length self.new.held ≤ length self.old.held }
    {
        if self.held.is_short() {
            return self.rests();
        }
        self.answer_next(alloc, desk, routes)
    }

    // Answers its next request, if that has come whole.
    fn answer_next<D: Desk>(&mut self, alloc: Global, desk: &mut D, routes: &Routes) -> Turn
        requires { IsReady self.old }
        ensures goes { Goes D.tables_view desk.old desk.new }
        ensures turn { Tells D.tables_view desk.old desk.new (λ this.
            Turns (IsKeptRun D.tables_view desk.old desk.new) this result self.old self.new) }
        ensures fewer { length self.new.held ≤ length self.old.held }
    {
        let mut text = Vec::new(alloc);
        let mut retries = Retries {
            reads: RETRIES,
            writes: RETRIES,
        };
        let mut held = self.held.take(alloc);
        let step = serve_next(
            desk,
            routes,
            self.ordinal,
            &mut held,
            &mut io::empty(),
            &mut text,
            &mut retries,
        );
        self.held = Incoming::of(held);
        match step {
            Ok(Step::CleanEnd) => self.rests(),
            Ok(Step::Stays(note)) => {
                self.put(alloc, text, note);
                Turn::Answered
            }
            Ok(Step::Ends(note)) => {
                self.put_last(alloc, text, note);
                Turn::Answered
            }
            Err(ConnFault::EndInside) => self.rests(),
            Err(ConnFault::Write) => Turn::Lost,
            Err(ConnFault::Read) => Turn::Starved,
            Err(ConnFault::Memory) => Turn::Starved,
        }
    }

    // The turn of a connection in which no whole request has come.
    fn rests(&self) -> Turn
        ensures { result ≡ rest_of self.now.phase }
    {
        if self.phase == Phase::Ended {
            Turn::Finished
        } else {
            Turn::Waits
        }
    }

    // Puts a reply that has to go out. A connection over which nothing else came keeps no room for what comes.
    fn put(&mut self, alloc: Global, text: Vec<u8>, note: Note)
        requires { self.old.ordinal < 10000 }
        ensures { self.new ≡ record {
          held = self.old.held;
          out = text.items;
          note = Some note;
          ordinal = self.old.ordinal + 1;
          phase = self.old.phase;
        } }
    {
        if self.held.len() == 0 {
            self.held = Incoming::new(alloc);
        }
        self.out = Outgoing::of(text);
        self.note = Some(note);
        self.ordinal += 1;
    }

    // Puts the last reply, and keeps no bytes that came after its request.
    fn put_last(&mut self, alloc: Global, text: Vec<u8>, note: Note)
        ensures { self.new ≡ record {
          held = [];
          out = text.items;
          note = Some note;
          ordinal = self.old.ordinal;
          phase = Phase.Last;
        } }
    {
        self.held = Incoming::new(alloc);
        self.out = Outgoing::of(text);
        self.note = Some(note);
        self.phase = Phase::Last;
    }
}
