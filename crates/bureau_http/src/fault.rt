//! Why a connection isn't served to its end.
ghost use Rattle.std.specs.Prelude.{◌≡◌};
ghost use Rattle.bureau_http.specs.ConnFault.{conn_told, of_transfer, run_told};

use faults::{AnyFault, Fault, NoMemory};
use std::io;
use thiserror::Error;
use transfer::TransferFault;

/// Why a connection isn't served to its end.
#[derive(Clone, Copy, Debug, PartialEq, Eq, Error)]
pub enum ConnFault {
    /// A read failed, or was interrupted when no retry was left.
    #[error("the connection can't be read")]
    Read,
    /// A write failed, took no byte, or was interrupted when no retry was left. A front part of the reply in
    /// hand was written, and the replies before it whole.
    #[error("the connection can't be written")]
    Write,
    /// The input ended inside a request.
    #[error("the connection ended inside a request")]
    EndInside,
    /// Memory ran out before the request in hand had come whole. It wasn't given to the bureau.
    #[error("memory ran out")]
    Memory,
}

impl Fault for ConnFault {
    ghost told = { conn_told };

    /// Its number is from 51 to 54. It has no place.
    fn told(self) -> AnyFault {
        match self {
            ConnFault::Read => AnyFault::of_machine(51),
            ConnFault::Write => AnyFault::of_machine(52),
            ConnFault::EndInside => AnyFault::of_input(53),
            ConnFault::Memory => AnyFault::of_machine(54),
        }
    }
}

impl From<TransferFault> for ConnFault {
    ghost from_gives = { λ inner fault. fault ≡ of_transfer inner };

    fn from(fault: TransferFault) -> ConnFault {
        match fault {
            TransferFault::Read(_) => ConnFault::Read,
            TransferFault::Memory => ConnFault::Memory,
        }
    }
}

impl From<NoMemory> for ConnFault {
    ghost use Rattle.bureau_http.specs.declared.fault.ConnFault.TheVariants.{Memory};

    ghost from_gives = { λ _ fault. fault ≡ Memory };

    fn from(_: NoMemory) -> ConnFault {
        ConnFault::Memory
    }
}

/// Why a list of connections isn't served to its end.
#[derive(Clone, Copy, Debug, PartialEq, Eq, Error)]
pub enum RunFault {
    /// Memory ran out.
    #[error("memory ran out")]
    Memory,
}

impl Fault for RunFault {
    ghost told = { run_told };

    /// Its number is 54. It has no place.
    fn told(self) -> AnyFault {
        AnyFault::of_machine(54)
    }
}

impl From<NoMemory> for RunFault {
    ghost use Rattle.bureau_http.specs.declared.fault.RunFault.TheVariants.{Memory};

    ghost from_gives = { λ _ fault. fault ≡ Memory };

    fn from(_: NoMemory) -> RunFault {
        RunFault::Memory
    }
}
