//! The surroundings of a run of a test, and stores that can't be opened.
use super::desk_tests::CALLERS;
use bureau_program::Surroundings;
use bureau_store::StoreFault;
use command_line::LineFault;
use connections::{Connections, Event, Round, RoundFault, Rounds};
use run_parts::Files;
use socket_desk::SocketRounds;
use sqlite::{Connection, FileStore, Start};
use std::alloc::Global;
use std::hash::RandomState;
use std::io::{self, ErrorKind};
use store_runs::{Ended, IfMissing, Pages, Place, Refusal, StoreFile, Stores};
use testing::{Failures, Pieces, Ticking};

/// The name of a store, whose blanks count.
pub(crate) const STORE: &str = " a store ";

/// What a port has.
#[derive(Drop)]
pub(crate) enum PortHas<'a> {
    /// It can't be listened on.
    Nothing,
    /// Nothing is told of connections, for this cause.
    Fault(RoundFault),
    /// Sockets, by a clock that a test sets.
    Sockets(SocketRounds<'a, Ticking, Vec<u8>>),
    /// Connections that come and end at once. So many did.
    Passers(u64),
}

/// Words, files that are interrupted so often, and the connections of each port.
#[derive(Drop)]
pub(crate) struct Around<'a> {
    words: &'static [&'static str],
    interruptions: u32,
    /// What each port has.
    pub(crate) port_has: PortHas<'a>,
    /// The port that was asked for, the most connections that were to be open at once, and whether a log was
    /// to be kept.
    pub(crate) asked: (u16, u32, bool),
    keys: RandomState,
}

impl<'a> Around<'a> {
    /// These words, and files that are interrupted so often. No port can be listened on.
    pub(crate) fn reading(
        words: &'static [&'static str],
        interruptions: u32,
        keys: RandomState,
    ) -> Around<'a> {
        Around {
            words,
            interruptions,
            port_has: PortHas::Nothing,
            asked: (0, 0, false),
            keys,
        }
    }

    /// No words. Each port has this.
    pub(crate) fn listening(port_has: PortHas<'a>, keys: RandomState) -> Around<'a> {
        Around {
            words: &[],
            interruptions: 0,
            port_has,
            asked: (0, 0, false),
            keys,
        }
    }
}

impl Rounds for Around<'_> {
    ghost use Rattle.std.specs.Prelude.{None};

    ghost log = { λ _. None };

    ghost is_over = { λ _ _. Unit {0} };

    fn round(
        &mut self,
        connections: &Connections,
        left: u32,
        told: &mut Vec<Event>,
    ) -> Result<Round, RoundFault> {
        match &mut self.port_has {
            PortHas::Nothing => Err(RoundFault::System),
            PortHas::Fault(fault) => Err(*fault),
            PortHas::Sockets(sockets) => sockets.round(connections, left, told),
            PortHas::Passers(passed) => {
                *passed = passed.saturating_add(u64::from(pass(left, told)?));
                Ok(Round::Idle)
            }
        }
    }

    fn let_read(&mut self, slot: usize, room: usize) {
        if let PortHas::Sockets(sockets) = &mut self.port_has {
            sockets.let_read(slot, room);
        }
    }

    fn short_at(&self, index: usize) -> Option<usize> {
        match &self.port_has {
            PortHas::Sockets(sockets) => sockets.short_at(index),
            _ => None,
        }
    }

    fn show_last(&mut self, connections: &Connections) {
        if let PortHas::Sockets(sockets) = &mut self.port_has {
            sockets.show_last(connections);
        }
    }
}

// Lets connections come and end, as many as are to come, but at most so many at a time. Returns the number of
// them.
fn pass(left: u32, told: &mut Vec<Event>) -> Result<u32, RoundFault> {
    let count = left.min(1000);
    for _ in 0..count {
        told.push(Event::Came(0)).or(Err(RoundFault::Memory))?;
        told.push(Event::Ended(0)).or(Err(RoundFault::Memory))?;
    }
    Ok(count)
}

impl Files for Around<'_> {
    ghost use Rattle.run_parts.specs.Files.{Unknown};

    type File = Pieces<'static>;

    ghost known_file = { λ _ _. Unknown };

    fn open(&self, name: &str) -> io::Result<Pieces<'static>> {
        let rest: &'static [u8] = match name {
            "callers" => CALLERS,
            "empty" => b"",
            _ => return Err(io::Error::from(ErrorKind::NotFound)),
        };
        let failures = Failures::interruptions(self.interruptions);
        Ok(Pieces::new(rest, usize::MAX, failures))
    }
}

/// Memory runs out if a store may be made, and there is none if it may not. A store of another name than
/// [`STORE`] is open elsewhere.
#[derive(Drop)]
pub(crate) struct NoStores;

/// The place of no file.
#[derive(Drop)]
pub(crate) struct Nowhere;

impl Place for Nowhere {
    ghost use Rattle.std.specs.Prelude.{None};

    ghost sights = { λ _. None };

    fn stands(&mut self) -> bool {
        false
    }
}

impl Stores for NoStores {
    ghost use Rattle.std.specs.Prelude.{None};

    ghost asked = { λ _. None };

    type Place = Nowhere;

    fn connect<D: Start>(
        &mut self,
        name: &str,
        missing: IfMissing,
        _start: D,
    ) -> Result<
        Connection<FileStore<StoreFile<D, Nowhere>>>,
        (StoreFault, Ended<StoreFile<D, Nowhere>>),
    > {
        let fault = match (name == STORE, missing.makes()) {
            (true, true) => StoreFault::Memory,
            (true, false) => StoreFault::Shape,
            (false, _) => StoreFault::Device,
        };
        Err((fault, Ended::Nothing))
    }

    fn refusal(&self) -> Refusal {
        Refusal::InUse
    }

    fn pages(&self) -> Pages {
        Pages::Unknown
    }
}

impl Surroundings for Around<'_> {
    ghost use Rattle.std.specs.Prelude.{None};

    ghost known_words = { λ _. None };

    ghost known_watched = { λ _. None };

    ghost known_port = { λ _ _ _ _. Unit {0} };

    fn words(&self, alloc: Global) -> Result<Vec<String>, LineFault> {
        let mut words = Vec::new(alloc);
        for word in self.words {
            let word = String::from_str(alloc, *word)?;
            words.push(word).ok().ok_or(LineFault::Memory)?;
        }
        Ok(words)
    }

    fn is_watched(&self) -> bool {
        false
    }

    fn listen(&mut self, _alloc: Global, port: u16, most_open: u32, log: bool) -> io::Result<()> {
        self.asked = (port, most_open, log);
        match self.port_has {
            PortHas::Nothing => Err(io::Error::from(ErrorKind::AddrInUse)),
            _ => Ok(()),
        }
    }

    fn random_keys(&self) -> io::Result<RandomState> {
        Ok(self.keys)
    }
}
