//! The faults of a list.
ghost use Rattle.zone_lists.specs.ListFault as list;

use faults::{AnyFault, Fault, NoMemory};
use std::alloc::AllocFailed;
use thiserror::Error;

/// The first fault of a list. A number is that of the record, counted from 1 after the header.
#[derive(Clone, Copy, Debug, PartialEq, Eq, Hash, Error)]
pub enum ListFault {
    /// The first record is not the list's header, or there is no record at all.
    #[error("the header is missing or another one")]
    Header,
    /// The record has too few or too many fields.
    #[error("record {0}: wrong number of fields")]
    BadRecord(u32),
    /// The first field is no id.
    #[error("record {0}: no id of a SYSMOD")]
    BadId(u32),
    /// The state is none of `APPLIED`, `ACCEPTED` and `SUPERSEDED`.
    #[error("record {0}: no state")]
    BadState(u32),
    /// The field is no category and no beginning of one with a final `*`, or has over 64 bytes.
    #[error("record {0}: no category or pattern")]
    BadPattern(u32),
    /// The SYSMOD came before with another state.
    #[error("record {0}: the SYSMOD came before with another state")]
    Repeated(u32),
    /// The list has more records than it may have.
    #[error("too many records")]
    TooMany,
    /// There was no memory to read the list.
    #[error("out of memory")]
    Memory,
}

impl Fault for ListFault {
    ghost told = { list.told };

    /// Its number is from 31 to 38, and its place is the number of the record with the fault. A header, a list that is
    /// too long and want of memory have none.
    fn told(self) -> AnyFault {
        match self {
            ListFault::Header => AnyFault::of_input(31),
            ListFault::BadRecord(n) => AnyFault::at_place(32, n),
            ListFault::BadId(n) => AnyFault::at_place(33, n),
            ListFault::BadState(n) => AnyFault::at_place(34, n),
            ListFault::BadPattern(n) => AnyFault::at_place(35, n),
            ListFault::Repeated(n) => AnyFault::at_place(36, n),
            ListFault::TooMany => AnyFault::of_input(37),
            ListFault::Memory => AnyFault::of_machine(38),
        }
    }
}

// Reading bytes that lie in memory can fail only for want of memory.
impl From<csv::Error> for ListFault {
    ghost use Rattle.std.specs.Prelude.{◌≡◌};
    ghost use Rattle.zone_lists.specs.declared.fault.ListFault.TheVariants.{Memory};

    ghost from_gives = { λ _ fault. fault ≡ Memory };

    fn from(_error: csv::Error) -> ListFault {
        ListFault::Memory
    }
}

impl From<NoMemory> for ListFault {
    ghost use Rattle.std.specs.Prelude.{◌≡◌};
    ghost use Rattle.zone_lists.specs.declared.fault.ListFault.TheVariants.{Memory};

    ghost from_gives = { λ _ fault. fault ≡ Memory };

    fn from(_error: NoMemory) -> ListFault {
        ListFault::Memory
    }
}

impl<T: Drop> From<AllocFailed<T>> for ListFault {
    ghost use Rattle.std.specs.Prelude.{◌≡◌};
    ghost use Rattle.zone_lists.specs.declared.fault.ListFault.TheVariants.{Memory};

    ghost from_gives = { λ _ fault. fault ≡ Memory };

    fn from(_error: AllocFailed<T>) -> ListFault {
        ListFault::Memory
    }
}
