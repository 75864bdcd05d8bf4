//! Rounds of reads and writes over the sockets of one port, with the lines of the log.
ghost use Rattle.socket_desk.specs.Logged.{AreLogged};

use crate::fault::LoopFault;
use crate::lines::Lines;
use crate::log::Log;
use crate::moment::Moment;
use crate::patience::Patience;
use crate::port::{Door, Port};
use crate::sockets::Sockets;
use crate::sweeping::TICK;
use connections::{Connections, Event, Round, RoundFault, Rounds};
use mio::net::TcpStream;
use std::alloc::Global;
use std::io::{self, Write};
use std::net::{Net, SocketAddr};
use std::time::{Clock, Duration, Instant};

/// The sockets of a port.
///
/// In each round one read or one write is made of each socket that is ready. A request that lies there whole waits for
/// the turn of its caller, and a round has one turn at most: once all were visited that were ready at the last one, and
/// as long as bodies and replies together are within the limit. So a caller with many connections adds one request to
/// what another one waits for.
///
/// If a log is kept, it gets a line for each reply that went out whole, and for each connection that failed, at
/// the end of the round. What can't be written to it is left out, and nothing else depends on it.
#[derive(Drop)]
pub struct SocketRounds<'c, C, W> {
    sockets: Sockets<TcpStream>,
    port: Port,
    clock: &'c C,
    // When the desk looked last.
    last: Option<Moment>,
    log: Option<Log<W>>,
    // Some of what was read may not have been told, or not served: then nothing more is read.
    has_stopped: bool,
}

impl<'c, C: Clock, W: Write> SocketRounds<'c, C, W> {
    /// Listens on an address. It has so many slots, and time goes by this clock. A log is kept if there is a
    /// writer for it.
    ///
    /// # Errors
    ///
    /// The system's own; or memory ran out.
    pub fn new<N: Net>(
        net: &N,
        alloc: Global,
        clock: &'c C,
        address: SocketAddr,
        slots: usize,
        patience: Patience,
        log: Option<W>,
    ) -> Result<Self, LoopFault>
    where
        W: Drop,
    {
        let (lines, log) = match log {
            Some(writer) => (Lines::new(alloc, slots)?, Some(Log::new(alloc, writer)?)),
            None => (Lines::none(alloc), None),
        };
        Ok(SocketRounds {
            sockets: Sockets::new(alloc, slots, patience, lines)?,
            port: Port::new(net, alloc, address)?,
            clock,
            last: None,
            log,
            has_stopped: false,
        })
    }

    /// The address that it listens on.
    ///
    /// # Errors
    ///
    /// The system's own.
    pub fn address(&self) -> io::Result<SocketAddr> {
        self.port.address()
    }

    /// What the log is written to, if one is kept.
    pub fn log(&self) -> Option<&W> {
        match &self.log {
            Some(log) => Some(&log.writer),
            None => None,
        }
    }

    // Waits for the sockets, and reads and writes them. What came of it is told.
    fn go_round(
        &mut self,
        connections: &Connections,
        left: u32,
        told: &mut Vec<Event>,
    ) -> Result<Round, LoopFault> {
        if told.reserve(self.sockets.most_told()).is_err() {
            self.rest()?;
            return Ok(Round::Busy);
        }
        self.sockets.begin(left)?;
        let wait = self.patience(connections);
        self.port.wait(wait)?;
        let now = self.look()?;
        self.sockets.lines.begin(self.clock);
        let round = self.sockets.round(&mut self.port, connections, now, told);
        self.write_lines();
        round?;
        Ok(if self.sockets.are_closed() {
            Round::Idle
        } else {
            Round::Busy
        })
    }

    // There is no memory to tell of anything, so nothing is read or written. Waits for a while; what the system
    // tells of sockets counts.
    fn rest(&mut self) -> Result<(), LoopFault> {
        self.port.wait(Duration::from_secs(TICK))?;
        self.sockets.hear_of(self.port.events())
    }

    // How long it waits for the system to tell of sockets: not at all if there is more to do.
    fn patience(&self, connections: &Connections) -> Duration {
        if self.sockets.rests(connections) {
            Duration::from_secs(TICK)
        } else {
            Duration::ZERO
        }
    }

    // The moment that it is.
    fn look(&mut self) -> io::Result<Moment> {
        let clock = Instant::now(self.clock)?;
        let now = match &self.last {
            Some(last) => last.next(clock, self.sockets.patience.step),
            None => Moment::first(clock),
        };
        self.last = Some(now);
        Ok(now)
    }

    // Writes the lines of the round. Those that can't be written are left out.
    fn write_lines(&mut self)
        ensures { AreLogged W.contents self.old.log self.old.sockets.lines self.new.log }
    {
        let lines = &self.sockets.lines;
        if lines.are_none() {
            return;
        }
        if let Some(log) = &mut self.log {
            log.write(lines.text(), lines.lost(), lines.stamp());
        }
    }
}

impl<C: Clock, W: Write> Rounds for SocketRounds<'_, C, W> {
    ghost use Rattle.std.specs.Prelude.{None};

    ghost log = { λ _. None };

    ghost is_over = { λ _ _. Unit {0} };

    fn round(
        &mut self,
        connections: &Connections,
        left: u32,
        told: &mut Vec<Event>,
    ) -> Result<Round, RoundFault> {
        if self.has_stopped {
            return Err(RoundFault::System);
        }
        match self.go_round(connections, left, told) {
            Ok(round) => Ok(round),
            Err(fault) => {
                self.has_stopped = true;
                Err(fault.in_round())
            }
        }
    }

    fn let_read(&mut self, slot: usize, room: usize) {
        self.sockets.let_read(slot, room);
    }

    fn short_at(&self, index: usize) -> Option<usize> {
        self.sockets.short_at(index)
    }

    fn show_last(&mut self, connections: &Connections) {
        self.has_stopped = true;
        self.sockets.lines.begin(self.clock);
        let now = self.look().ok();
        self.sockets.show_last(connections, now);
        self.write_lines();
    }
}
