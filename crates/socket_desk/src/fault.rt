//! Why the sockets can't go on.
use connections::RoundFault;
use faults::NoMemory;
use std::alloc::AllocFailed;
use std::io;
use thiserror::Error;

/// Why the sockets can't go on, or there are none.
#[derive(Debug, Drop, Error)]
pub enum LoopFault {
    /// The system tells no more of sockets, or of the time; or a port can't be listened on.
    #[error("the system: {0}")]
    System(io::Error),
    /// There was no memory for the sockets.
    #[error("memory ran out")]
    Memory,
}

impl LoopFault {
    // The same as a fault of rounds.
    pub(crate) fn in_round(self) -> RoundFault {
        match self {
            LoopFault::System(_) => RoundFault::System,
            LoopFault::Memory => RoundFault::Memory,
        }
    }
}

impl From<io::Error> for LoopFault {
    fn from(error: io::Error) -> LoopFault {
        LoopFault::System(error)
    }
}

impl From<NoMemory> for LoopFault {
    fn from(_: NoMemory) -> LoopFault {
        LoopFault::Memory
    }
}

impl<T: Drop> From<AllocFailed<T>> for LoopFault {
    fn from(_: AllocFailed<T>) -> LoopFault {
        LoopFault::Memory
    }
}
