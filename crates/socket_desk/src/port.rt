//! The port of a desk: what comes to it, and what the system tells of sockets.
use crate::fault::LoopFault;
use mio::net::{TcpListener, TcpStream};
use mio::{Events, Interest, Poll, Token};
use std::alloc::Global;
use std::io::{self, ErrorKind};
use std::net::{Net, SocketAddr};
use std::time::Duration;

// The token of the listener. Those of sockets are their slots.
const LISTENER: usize = usize::MAX;

/// How many events of sockets one wait tells at most.
pub(crate) const EVENTS: usize = 1024;

/// Where streams come from, and what tells which of them may be read or written.
pub(crate) trait Door<T> {
    /// The stream that waits longest.
    fn accept(&self) -> io::Result<T>;

    /// The system is to tell of a stream by its slot.
    fn register(&self, slot: usize, stream: &mut T) -> io::Result<()>;

    /// Waits so long for the system to tell of streams.
    fn wait(&mut self, wait: Duration) -> io::Result<()>;

    /// What it told.
    fn events(&self) -> &Events;
}

/// The port of a desk, and what the system told last.
#[derive(Drop)]
pub(crate) struct Port {
    listener: TcpListener,
    poll: Poll,
    events: Events,
}

impl Port {
    /// Listens on an address.
    pub(crate) fn new<N: Net>(
        net: &N,
        alloc: Global,
        address: SocketAddr,
    ) -> Result<Port, LoopFault> {
        let poll = Poll::new(net)?;
        let mut listener = TcpListener::bind(net, address)?;
        poll.registry()
            .register(&mut listener, Token(LISTENER), Interest::READABLE)?;
        Ok(Port {
            listener,
            poll,
            events: Events::with_capacity(alloc, EVENTS)?,
        })
    }

    pub(crate) fn address(&self) -> io::Result<SocketAddr> {
        self.listener.local_addr()
    }
}

impl Door<TcpStream> for Port {
    fn accept(&self) -> io::Result<TcpStream> {
        let (stream, _) = self.listener.accept()?;
        Ok(stream)
    }

    fn register(&self, slot: usize, stream: &mut TcpStream) -> io::Result<()> {
        stream.set_nodelay(true)?;
        self.poll.registry().register(stream, Token(slot), Interest::READABLE | Interest::WRITABLE)
    }

    fn wait(&mut self, wait: Duration) -> io::Result<()> {
        match self.poll.poll(&mut self.events, Some(wait)) {
            Err(error) if error.kind() != ErrorKind::Interrupted => Err(error),
            _ => Ok(()),
        }
    }

    fn events(&self) -> &Events {
        &self.events
    }
}

/// The slot of which an event of the system tells, or none if it tells of the port.
pub(crate) fn slot_of(token: Token) -> Option<usize> {
    if token.0 == LISTENER {
        None
    } else {
        Some(token.0)
    }
}

/// Whether the system told all that it had to tell: fewer events than it could.
pub(crate) fn are_all(events: &Events) -> bool {
    events.iter().count() < EVENTS
}
