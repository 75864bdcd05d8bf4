//! Faults of any kind.
ghost use Rattle.std.specs.Prelude.{◌≡◌};
ghost use Rattle.faults.specs.FaultText.{text_of};
ghost use Rattle.faults.specs.Told as told;

use crate::{Cause, Fault};
use arrayvec::ArrayString;
use itoa::Buffer;

/// A fault of any kind: its number, place and cause. `?` makes one from each [`Fault`].
#[derive(Clone, Copy, Debug, PartialEq, Eq)]
pub struct AnyFault {
    /// The number in print, from 1 to 99 for each [`Fault`].
    pub number: u8,
    /// The line of a source on which the statement begins, or the number of a list's record, counted from 1. A
    /// fault of the whole input has none, and neither has one of the machine.
    pub place: Option<u32>,
    /// The input or the machine.
    pub cause: Cause,
}

impl<F: Fault> From<F> for AnyFault {
    ghost from_gives = { λ fault any. any ≡ F.told fault };

    fn from(fault: F) -> AnyFault {
        fault.told()
    }
}

impl AnyFault {
    /// A fault of the input, at this line or record.
    pub fn at_place(number: u8, place: u32) -> AnyFault
        ensures { result ≡ told.at_place number place }
    {
        AnyFault {
            number,
            place: Some(place),
            cause: Cause::Input,
        }
    }

    /// A fault of the whole input.
    pub fn of_input(number: u8) -> AnyFault
        ensures { result ≡ told.of_input number }
    {
        AnyFault {
            number,
            place: None,
            cause: Cause::Input,
        }
    }

    /// A fault of the machine.
    pub fn of_machine(number: u8) -> AnyFault
        ensures { result ≡ told.of_machine number }
    {
        AnyFault {
            number,
            place: None,
            cause: Cause::Machine,
        }
    }

    /// The line that tells the fault: `FAULT`, the number and the place, if there is one, with blanks between and a
    /// line feed at the end.
    pub fn text(self) -> ArrayString<32>
        ensures { result.bytes ≡ text_of self }
    {
        let mut text = ArrayString::<32>::new();
        text.push_str("FAULT ");
        text.push_str(Buffer::new().format(self.number));
        if let Some(place) = self.place {
            text.push_str(" ");
            text.push_str(Buffer::new().format(place));
        }
        text.push_str("\n");
        text
    }
}
