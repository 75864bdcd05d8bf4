//! Why calls are refused.
ghost use Rattle.std.specs.Prelude.{◌≡◌};
ghost use Rattle.catalogue.specs.CatFault.{cat_fault_of};
ghost use Rattle.catalogue.specs.declared.fault.CatFault.TheVariants as cat;
ghost use Rattle.catalogue.specs.declared.fault.SourceFault.TheVariants as source;
ghost use Rattle.catalogue.specs.CatFault as cat_fault;
ghost use Rattle.catalogue.specs.SourceFault as source_fault;

use faults::{AnyFault, Fault, NoMemory};
use holddata::HoldFault;
use std::alloc::AllocFailed;
use thiserror::Error;

/// Why statements publish nothing. Lines are numbered from 1. Each line here is the one on which the statement with the
/// fault begins.
#[derive(Clone, Copy, Debug, PartialEq, Eq, Error)]
pub enum CatFault {
    /// A `++VER` stands before every header.
    #[error("line {0}: no header stands before the VER")]
    VerOutside(u32),
    /// A value of FMID, PRE, REQ or SUP is no id.
    #[error("line {0}: a name is not an id")]
    BadId(u32),
    /// An `++IF` stands before every header.
    #[error("line {0}: no header stands before the IF")]
    IfOutside(u32),
    /// An `++IF` has no FMID, or not just one value of it.
    #[error("line {0}: the IF does not name one function")]
    IfFmid(u32),
    /// A hold or a release has this fault, which is never want of memory.
    #[error("{0}")]
    Held(HoldFault),
    /// Memory ran out.
    #[error("memory ran out")]
    Memory,
}

impl Fault for CatFault {
    ghost told = { cat_fault.told };

    /// Its number is 21, 22, 24, 27 or 28, and its place is the line on which the statement with the fault begins. A
    /// hold's fault is told as its own. Want of memory has no line.
    fn told(self) -> AnyFault {
        match self {
            CatFault::VerOutside(line) => AnyFault::at_place(21, line),
            CatFault::BadId(line) => AnyFault::at_place(22, line),
            CatFault::IfOutside(line) => AnyFault::at_place(27, line),
            CatFault::IfFmid(line) => AnyFault::at_place(28, line),
            CatFault::Held(fault) => fault.told(),
            CatFault::Memory => AnyFault::of_machine(24),
        }
    }
}

impl From<HoldFault> for CatFault {
    ghost from_gives = { λ fault e. e ≡ cat_fault_of fault };

    fn from(fault: HoldFault) -> CatFault {
        match fault {
            HoldFault::Memory => CatFault::Memory,
            fault => CatFault::Held(fault),
        }
    }
}

impl From<NoMemory> for CatFault {
    ghost from_gives = { λ _ e. e ≡ cat.Memory };

    fn from(_: NoMemory) -> CatFault {
        CatFault::Memory
    }
}

impl<T: Drop> From<AllocFailed<T>> for CatFault {
    ghost from_gives = { λ _ e. e ≡ cat.Memory };

    fn from(_: AllocFailed<T>) -> CatFault {
        CatFault::Memory
    }
}

/// Why a source of the published content doesn't answer.
#[derive(Clone, Copy, Debug, PartialEq, Eq, Error)]
pub enum SourceFault {
    /// Memory ran out.
    #[error("memory ran out")]
    Memory,
    /// What lies below failed, or has rows that no publication makes.
    #[error("the source of the published content failed")]
    Device,
}

impl Fault for SourceFault {
    ghost told = { source_fault.told };

    /// Its number is 25 or 26. It has no place.
    fn told(self) -> AnyFault {
        match self {
            SourceFault::Memory => AnyFault::of_machine(25),
            SourceFault::Device => AnyFault::of_machine(26),
        }
    }
}

impl From<NoMemory> for SourceFault {
    ghost from_gives = { λ _ e. e ≡ source.Memory };

    fn from(_: NoMemory) -> SourceFault {
        SourceFault::Memory
    }
}

impl<T: Drop> From<AllocFailed<T>> for SourceFault {
    ghost from_gives = { λ _ e. e ≡ source.Memory };

    fn from(_: AllocFailed<T>) -> SourceFault {
        SourceFault::Memory
    }
}
