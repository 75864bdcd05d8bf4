//! Why statements give no changes.
ghost use Rattle.std.specs.Prelude.{◌≡◌};
ghost use Rattle.holddata.specs.declared.fault.HoldFault.TheVariants.{Memory};
ghost use Rattle.holddata.specs.HoldFault as hold;

use faults::{AnyFault, Fault, NoMemory};
use std::alloc::AllocFailed;
use thiserror::Error;

/// Why statements give no hold changes. Lines are numbered from 1. Each line here is the one on which the statement
/// with the fault begins.
#[derive(Clone, Copy, Debug, PartialEq, Eq, Error)]
pub enum HoldFault {
    /// No operand names a kind of hold.
    #[error("line {0}: the hold has no kind")]
    NoKind(u32),
    /// Operands name more than one kind of hold.
    #[error("line {0}: the hold has two kinds")]
    TwoKinds(u32),
    /// The operand REASON is missing or has no value.
    #[error("line {0}: the hold has no reason")]
    NoReason(u32),
    /// An operand that takes an id has another value, or more than one.
    #[error("line {0}: a name is not one id")]
    BadId(u32),
    /// The operand DATE has a value that is no date, or more than one.
    #[error("line {0}: the date is not one of five digits, the last three 001 to 366")]
    BadDate(u32),
    /// The operand CATEGORY has a value that is no fix category.
    #[error("line {0}: a category is not one of 1 to 64 printable characters without ' ( ) and ,")]
    BadCategory(u32),
    /// Memory ran out.
    #[error("memory ran out")]
    Memory,
}

impl Fault for HoldFault {
    ghost told = { hold.told };

    /// Its number is from 11 to 17, and its place is the line on which the statement with the fault begins. Want of
    /// memory has none.
    fn told(self) -> AnyFault {
        match self {
            HoldFault::NoKind(line) => AnyFault::at_place(11, line),
            HoldFault::TwoKinds(line) => AnyFault::at_place(12, line),
            HoldFault::NoReason(line) => AnyFault::at_place(13, line),
            HoldFault::BadId(line) => AnyFault::at_place(14, line),
            HoldFault::BadDate(line) => AnyFault::at_place(15, line),
            HoldFault::BadCategory(line) => AnyFault::at_place(16, line),
            HoldFault::Memory => AnyFault::of_machine(17),
        }
    }
}

impl From<NoMemory> for HoldFault {
    ghost from_gives = { λ _ e. e ≡ Memory };

    fn from(_: NoMemory) -> HoldFault {
        HoldFault::Memory
    }
}

impl<T: Drop> From<AllocFailed<T>> for HoldFault {
    ghost from_gives = { λ _ e. e ≡ Memory };

    fn from(_: AllocFailed<T>) -> HoldFault {
        HoldFault::Memory
    }
}
