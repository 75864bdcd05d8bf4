//! The system's words, files, connections to a port, random keys and clocks, for a run.
use crate::log_writer::LogWriter;
use bureau_program::Surroundings;
use command_line::LineFault;
use connections::{Connections, Event, Round, RoundFault, Rounds};
use run_parts::Files;
use socket_desk::{LoopFault, Patience, SocketRounds};
use std::alloc::Global;
use std::env;
use std::fs::File;
use std::hash::RandomState;
use std::io::{self, IsTerminal};
use std::net::{Ipv4Addr, SocketAddr};

/// The system's own words, files, ports and clocks.
#[derive(Drop)]
pub(crate) struct System<'a> {
    rt: &'a HostRuntime,
    // Standard error, for a log. `None` if it is closed.
    log: Option<LogWriter>,
    // The sockets of the port on which it listens.
    sockets: Option<SocketRounds<'a, HostRuntime, LogWriter>>,
}

impl<'a> System<'a> {
    // Has to be called before any file is opened: if standard error is closed, the first file gets its
    // descriptor.
    pub(crate) fn new(rt: &'a HostRuntime) -> System<'a> {
        System {
            rt,
            log: LogWriter::of_stderr(rt),
            sockets: None,
        }
    }
}

impl Rounds for System<'_> {
    ghost use Rattle.std.specs.Prelude.{None};

    ghost log = { λ _. None };

    ghost is_over = { λ _ _. Unit {0} };

    fn round(
        &mut self,
        connections: &Connections,
        left: u32,
        told: &mut Vec<Event>,
    ) -> Result<Round, RoundFault> {
        match &mut self.sockets {
            Some(sockets) => sockets.round(connections, left, told),
            None => Err(RoundFault::System),
        }
    }

    fn let_read(&mut self, slot: usize, room: usize) {
        if let Some(sockets) = &mut self.sockets {
            sockets.let_read(slot, room);
        }
    }

    fn short_at(&self, index: usize) -> Option<usize> {
        match &self.sockets {
            Some(sockets) => sockets.short_at(index),
            None => None,
        }
    }

    fn show_last(&mut self, connections: &Connections) {
        if let Some(sockets) = &mut self.sockets {
            sockets.show_last(connections);
        }
    }
}

impl Files for System<'_> {
    ghost use Rattle.run_parts.specs.Files.{Unknown};

    type File = File;

    ghost known_file = { λ _ _. Unknown };

    fn open(&self, name: &str) -> io::Result<File> {
        File::open(self.rt, name)
    }
}

impl Surroundings for System<'_> {
    ghost use Rattle.std.specs.Prelude.{None};

    ghost known_words = { λ _. None };

    ghost known_watched = { λ _. None };

    ghost known_port = { λ _ _ _ _. Unit {0} };

    fn words(&self, alloc: Global) -> Result<Vec<String>, LineFault> {
        match env::args(self.rt) {
            Ok(words) => Ok(words.skip(1).collect(alloc)?),
            Err(error) if error.kind() == io::ErrorKind::OutOfMemory => Err(LineFault::Memory),
            Err(_) => {
                let text = "error: a word of the command line is no text\n";
                Err(LineFault::Words(String::from_str(alloc, text)?))
            }
        }
    }

    fn is_watched(&self) -> bool {
        self.rt.stderr().is_terminal()
    }

    fn listen(&mut self, alloc: Global, port: u16, most_open: u32, log: bool) -> io::Result<()> {
        let address = SocketAddr::from((Ipv4Addr::LOCALHOST, port));
        let (rt, slots) = (self.rt, most_open as usize);
        let log = if log { self.log.take() } else { None };
        match SocketRounds::new(rt, alloc, rt, address, slots, Patience::usual(), log) {
            Ok(sockets) => {
                self.sockets = Some(sockets);
                Ok(())
            }
            Err(LoopFault::System(error)) => Err(error),
            Err(LoopFault::Memory) => Err(io::Error::from(io::ErrorKind::OutOfMemory)),
        }
    }

    fn random_keys(&self) -> io::Result<RandomState> {
        RandomState::new(self.rt)
    }
}
