//! The first fault of the inputs, and its input.
ghost use Rattle.std.specs.Prelude.{◌≡◌};
ghost use Rattle.faults.specs.Told.{of_input};
ghost use Rattle.file_reports.specs.Inputs.{told_in};

use catalogue::SourceFault;
use faults::{AnyFault, Cause};

/// An input of a report.
#[derive(Clone, Copy, Debug, PartialEq, Eq)]
pub enum Input {
    /// The SYSMODs of the zone.
    Zone,
    /// The fix categories that are asked for.
    Categories,
    /// The SYSMODs that are received.
    Received,
    /// The publication with this index, from 0.
    Publication(usize),
}

// A file has no statement. A packed file or one in EBCDIC has none.
pub(crate) fn no_statement() -> AnyFault
    ensures { result ≡ of_input 75 }
{
    AnyFault::of_input(75)
}

/// Why there is no report.
#[derive(Clone, Copy, Debug, PartialEq, Eq)]
pub struct InputFault {
    /// The input that has the fault. Want of memory is in none.
    pub input: Option<Input>,
    /// The fault, with its number and place as a desk tells it.
    pub fault: AnyFault,
}

impl InputFault {
    // A fault of an input. One of the machine is in none.
    pub(crate) fn of(fault: AnyFault, input: Input) -> InputFault
        ensures { result ≡ told_in input fault }
    {
        let input = match fault.cause {
            Cause::Input => Some(input),
            Cause::Machine => None,
        };
        InputFault { input, fault }
    }
}

impl From<SourceFault> for InputFault {
    ghost use Rattle.std.specs.Prelude.{None};
    ghost use Rattle.catalogue.specs.SourceFault as source;

    ghost from_gives = { λ fault told. told ≡ record { input = None; fault = source.told fault } };

    fn from(fault: SourceFault) -> InputFault {
        InputFault {
            input: None,
            fault: AnyFault::from(fault),
        }
    }
}
