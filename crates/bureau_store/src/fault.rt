//! Why calls are refused.
ghost use Rattle.bureau_store.specs.CallerFault as callers;
ghost use Rattle.bureau_store.specs.StoreFault as store;

use faults::{AnyFault, Fault, NoMemory};
use std::alloc::AllocFailed;
use thiserror::Error;
use zone_lists::ListFault;

/// Why a store refuses a call.
#[derive(Clone, Copy, Debug, PartialEq, Eq, Error)]
pub enum StoreFault {
    /// Memory ran out.
    #[error("memory ran out")]
    Memory,
    /// The device below failed, or has rows that no change makes. From then on every call is refused so.
    #[error("the device of the store failed")]
    Device,
    /// The device has no room for more.
    #[error("the store is full")]
    Size,
    /// The file has no tables of a store, or has some although there are to be none.
    #[error("the file isn't a store as it is wanted")]
    Shape,
    /// The store was made by another version of this product.
    #[error("the store is of another version")]
    Version,
}

impl Fault for StoreFault {
    ghost told = { store.told };

    /// Its number is from 41 to 45. It has no place.
    fn told(self) -> AnyFault {
        match self {
            StoreFault::Memory => AnyFault::of_machine(41),
            StoreFault::Device => AnyFault::of_machine(42),
            StoreFault::Size => AnyFault::of_machine(43),
            StoreFault::Shape => AnyFault::of_input(44),
            StoreFault::Version => AnyFault::of_input(45),
        }
    }
}

impl From<NoMemory> for StoreFault {
    ghost use Rattle.std.specs.Prelude.{◌≡◌};
    ghost use Rattle.bureau_store.specs.declared.fault.StoreFault.TheVariants.{Memory};

    ghost from_gives = { λ _ fault. fault ≡ Memory };

    fn from(_: NoMemory) -> StoreFault {
        StoreFault::Memory
    }
}

impl<T: Drop> From<AllocFailed<T>> for StoreFault {
    ghost use Rattle.std.specs.Prelude.{◌≡◌};
    ghost use Rattle.bureau_store.specs.declared.fault.StoreFault.TheVariants.{Memory};

    ghost from_gives = { λ _ fault. fault ≡ Memory };

    fn from(_: AllocFailed<T>) -> StoreFault {
        StoreFault::Memory
    }
}

/// The first fault of a callers file. A number is that of the record, counted from 1 after the header.
#[derive(Clone, Copy, Debug, PartialEq, Eq, Error)]
pub enum CallerFault {
    /// The first record isn't `NAME,TOKEN`, or there is no record at all.
    #[error("the header of the callers file is missing or another one")]
    CallerHeader,
    /// The record hasn't two fields, a name and a token; or one of them came before; or it is one too many.
    #[error("record {0}: no caller with a name and a token of its own")]
    BadCaller(u32),
    /// None of the callers is `PUBLISH`.
    #[error("no caller is the publisher")]
    NoPublisher,
    /// There was no memory to read the file.
    #[error("out of memory")]
    Memory,
}

impl Fault for CallerFault {
    ghost told = { callers.told };

    /// Its number is from 46 to 49, and its place is the number of the record that is no caller.
    fn told(self) -> AnyFault {
        match self {
            CallerFault::CallerHeader => AnyFault::of_input(46),
            CallerFault::BadCaller(n) => AnyFault::at_place(47, n),
            CallerFault::NoPublisher => AnyFault::of_input(48),
            CallerFault::Memory => AnyFault::of_machine(49),
        }
    }
}

impl From<NoMemory> for CallerFault {
    ghost use Rattle.std.specs.Prelude.{◌≡◌};
    ghost use Rattle.bureau_store.specs.declared.fault.CallerFault.TheVariants.{Memory};

    ghost from_gives = { λ _ fault. fault ≡ Memory };

    fn from(_: NoMemory) -> CallerFault {
        CallerFault::Memory
    }
}

// Whatever is wrong with a record, the record is a bad caller.
impl From<ListFault> for CallerFault {
    ghost use Rattle.std.specs.Prelude.{◌≡◌};
    ghost use Rattle.bureau_store.specs.Callers.{caller_fault};

    ghost from_gives = { λ list fault. fault ≡ caller_fault list };

    fn from(fault: ListFault) -> CallerFault {
        match fault {
            ListFault::Header => CallerFault::CallerHeader,
            ListFault::BadRecord(n)
            | ListFault::BadId(n)
            | ListFault::BadState(n)
            | ListFault::BadPattern(n)
            | ListFault::Repeated(n) => CallerFault::BadCaller(n),
            ListFault::TooMany => CallerFault::BadCaller(crate::callers_file::CALLER_RECORDS + 1),
            ListFault::Memory => CallerFault::Memory,
        }
    }
}
