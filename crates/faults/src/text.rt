//! The line that tells a fault.
ghost use Rattle.std.specs.Prelude.{◌≡◌};
ghost use Rattle.faults.specs.FaultText.{text_of};

use crate::Fault;
use arrayvec::ArrayString;

/// The line that tells the fault, as [`AnyFault::text`](crate::AnyFault::text) makes it.
pub fn fault_text<F: Fault>(fault: F) -> ArrayString<32>
    ensures { result.bytes ≡ text_of (F.told fault) }
{
    fault.told().text()
}
