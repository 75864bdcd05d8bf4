ghost use Rattle.std.specs.Prelude.{◌≡◌};
ghost use Rattle.mcs_reader.specs.declared.fault.McsFault.TheVariants.{Memory};
ghost use Rattle.mcs_reader.specs.McsFault as mcs;

pub use faults::NoMemory;
use faults::{AnyFault, Fault};
use std::alloc::{AllocError, AllocFailed};
use thiserror::Error;

/// Why a source isn't read. Lines are numbered from 1, and each line here is the one on which the
/// statement with the fault begins.
#[derive(Clone, Copy, Debug, PartialEq, Eq, Error)]
pub enum McsFault {
    /// Outside lists and comments the text ends before the statement's period, or a line begins with
    /// `++`.
    #[error("line {0}: no period ends the statement")]
    NoPeriod(u32),
    /// No list follows the verb, unless it is IF; or a list follows IF; or the list of any verb but VER holds anything
    /// but one value, an [`Id`](crate::Id).
    #[error("line {0}: the list after the verb is not one id")]
    BadVerbSubject(u32),
    /// The text ends inside parentheses or a comment, or `)` stands outside them.
    #[error("line {0}: the parentheses do not match")]
    Unbalanced(u32),
    /// Outside lists and comments there is a byte that can't be there, or a `(` without a name before it, gaps and
    /// comments aside.
    #[error("line {0}: a character stands where it cannot")]
    BadByte(u32),
    /// The source has over 67,108,864 bytes.
    #[error("the source has over 67,108,864 bytes")]
    TooLong,
    /// Memory ran out.
    #[error("memory ran out")]
    Memory,
}

impl Fault for McsFault {
    ghost told = { mcs.told };

    /// Its number is from 1 to 6, and its place the line on which the statement with the fault begins. A source that is
    /// too long and want of memory have none.
    fn told(self) -> AnyFault {
        match self {
            McsFault::NoPeriod(line) => AnyFault::at_place(1, line),
            McsFault::BadVerbSubject(line) => AnyFault::at_place(2, line),
            McsFault::Unbalanced(line) => AnyFault::at_place(3, line),
            McsFault::BadByte(line) => AnyFault::at_place(4, line),
            McsFault::TooLong => AnyFault::of_input(5),
            McsFault::Memory => AnyFault::of_machine(6),
        }
    }
}

impl From<AllocError> for McsFault {
    ghost from_gives = { λ _ e. e ≡ Memory };

    fn from(_: AllocError) -> McsFault {
        McsFault::Memory
    }
}

impl<T: Drop> From<AllocFailed<T>> for McsFault {
    ghost from_gives = { λ _ e. e ≡ Memory };

    fn from(_: AllocFailed<T>) -> McsFault {
        McsFault::Memory
    }
}
