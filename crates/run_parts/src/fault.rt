//! Why the program can't do what it should, and the writing of any fault.
ghost use Rattle.std.specs.Prelude.{◌≡◌, OnOk};
ghost use Rattle.std.specs.Io.KnownBytes.{Appends};
ghost use Rattle.faults.specs.FaultText.{text_of};
ghost use Rattle.run_parts.specs.ProgramFault.{of_program, status_of};
ghost use Rattle.transfer.specs.Transfer.{AppendsFront};

use faults::{AnyFault, Cause, Fault, NoMemory};
use std::alloc::AllocFailed;
use std::io::{self, Write};
use thiserror::Error;
use transfer::{RETRIES, TransferFault, write_whole};

/// Why the program itself can't do what it should.
#[derive(Clone, Copy, Debug, PartialEq, Eq, Error)]
pub enum ProgramFault {
    /// A source can't be read from its file.
    #[error("the file can't be read")]
    NotRead,
    /// The output can't be written.
    #[error("the output can't be written")]
    NotWritten,
    /// The port can't be listened on.
    #[error("the port can't be listened on")]
    NotListening,
    /// Memory ran out.
    #[error("memory ran out")]
    Memory,
}

impl Fault for ProgramFault {
    ghost told = { of_program };

    /// Its number is from 71 to 74. It has no place.
    fn told(self) -> AnyFault {
        match self {
            ProgramFault::NotRead => AnyFault::of_machine(71),
            ProgramFault::NotWritten => AnyFault::of_machine(72),
            ProgramFault::NotListening => AnyFault::of_machine(73),
            ProgramFault::Memory => AnyFault::of_machine(74),
        }
    }
}

impl From<NoMemory> for ProgramFault {
    ghost use Rattle.run_parts.specs.declared.fault.ProgramFault.TheVariants.{Memory};

    ghost from_gives = { λ _ fault. fault ≡ Memory };

    fn from(_: NoMemory) -> ProgramFault {
        ProgramFault::Memory
    }
}

impl<T: Drop> From<AllocFailed<T>> for ProgramFault {
    ghost use Rattle.run_parts.specs.declared.fault.ProgramFault.TheVariants.{Memory};

    ghost from_gives = { λ _ fault. fault ≡ Memory };

    fn from(_: AllocFailed<T>) -> ProgramFault {
        ProgramFault::Memory
    }
}

impl From<TransferFault> for ProgramFault {
    ghost use Rattle.run_parts.specs.ProgramFault.{of_transfer};

    ghost from_gives = { λ inner fault. fault ≡ of_transfer inner };

    fn from(fault: TransferFault) -> ProgramFault {
        match fault {
            TransferFault::Read(_) => ProgramFault::NotRead,
            TransferFault::Memory => ProgramFault::Memory,
        }
    }
}

/// The exit status of a run that ends with a fault: 1 if the input is at fault, and 3 if the machine is.
pub fn exit_status(fault: AnyFault) -> u8
    ensures { result ≡ status_of fault.cause }
{
    match fault.cause {
        Cause::Input => 1,
        Cause::Machine => 3,
    }
}

/// Writes the whole line of the fault.
///
/// # Errors
///
/// The writer's own error. The writer has a front part of the line then.
pub fn report<E: Write>(errors: &mut E, fault: AnyFault) -> io::Result<()>
    ensures whole { OnOk result (Appends (E.contents errors.old) (E.contents errors.new)
        (text_of fault)) }
    ensures front { AppendsFront (E.contents errors.old) (E.contents errors.new)
        (text_of fault) }
{
    tell(errors, fault.text().as_str().as_bytes())
}

/// Writes a whole text for people.
///
/// # Errors
///
/// The writer's own error. The writer has a front part of the text then.
#[tactic(auto, using(crate::proofs::OutputFacts::front_of_all))]
pub fn tell<E: Write>(errors: &mut E, text: &[u8]) -> io::Result<()>
    ensures whole { OnOk result (Appends (E.contents errors.old) (E.contents errors.new) text.now) }
    ensures front { AppendsFront (E.contents errors.old) (E.contents errors.new) text.now }
{
    match write_whole(errors, text, &mut { RETRIES }) {
        Ok(()) => Ok(()),
        Err(error) => Err(error),
    }
}
