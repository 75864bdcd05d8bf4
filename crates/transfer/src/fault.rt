//! Why no bytes were read.
ghost use Rattle.std.specs.Prelude.{◌≡◌};
ghost use Rattle.transfer.specs.declared.fault.TransferFault.TheVariants.{Read, Memory};

use faults::NoMemory;
use std::io;
use thiserror::Error;

/// Why no bytes were read.
#[derive(Debug, Drop, Error)]
pub enum TransferFault {
    /// A read failed, or was interrupted when no retry was left.
    #[error("the bytes can't be read: {0}")]
    Read(io::Error),
    /// Memory ran out.
    #[error("memory ran out")]
    Memory,
}

impl From<io::Error> for TransferFault {
    ghost from_gives = { λ error fault. fault ≡ Read error };

    fn from(error: io::Error) -> TransferFault {
        TransferFault::Read(error)
    }
}

impl From<NoMemory> for TransferFault {
    ghost from_gives = { λ _ fault. fault ≡ Memory };

    fn from(_: NoMemory) -> TransferFault {
        TransferFault::Memory
    }
}
