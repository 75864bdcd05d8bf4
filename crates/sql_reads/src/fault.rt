//! Why a read is refused.
use faults::NoMemory;
use sqlite::{Error, ErrorCode};
use std::alloc::AllocFailed;

/// Why a read is refused.
#[derive(Clone, Copy, Debug, PartialEq, Eq, thiserror::Error)]
pub enum ReadFault {
    /// Memory ran out.
    #[error("memory ran out")]
    Memory,
    /// The device failed, or the rows are not as the bureau writes them.
    #[error("the device failed")]
    Device,
}

impl From<NoMemory> for ReadFault {
    ghost from_gives = { λ error fault. fault ≡ Memory };

    ghost use Rattle.std.specs.Prelude.{◌≡◌};
    ghost use Rattle.sql_reads.specs.declared.fault.ReadFault.TheVariants.{Memory};

    fn from(_error: NoMemory) -> ReadFault {
        ReadFault::Memory
    }
}

impl<T: Drop> From<AllocFailed<T>> for ReadFault {
    ghost use Rattle.std.specs.Prelude.{◌≡◌};
    ghost use Rattle.sql_reads.specs.declared.fault.ReadFault.TheVariants.{Memory};

    ghost from_gives = { λ _ fault. fault ≡ Memory };

    fn from(_: AllocFailed<T>) -> ReadFault {
        ReadFault::Memory
    }
}

impl From<Error> for ReadFault {
    ghost use Rattle.std.specs.Prelude.{◌≡◌};
    ghost use Rattle.sqlite.specs.declared.error.Error.TheVariants.{SqliteFailure};
    ghost use Rattle.sqlite.specs.declared.error.ErrorCode.TheVariants.{OutOfMemory};
    ghost use Rattle.sql_reads.specs.declared.fault.ReadFault.TheVariants.{Device};

    ghost from_gives = { λ error fault. fault ≡ Device → error ≡ SqliteFailure OutOfMemory → ⊥ };

    fn from(error: Error) -> ReadFault {
        match error {
            Error::SqliteFailure(ErrorCode::OutOfMemory) => ReadFault::Memory,
            _ => ReadFault::Device,
        }
    }
}
