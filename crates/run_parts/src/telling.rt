//! Writing to standard error how a run ended, and the exit status.
ghost use Rattle.std.specs.Prelude.{◌≡◌, ◌-◌, Some, length, take};
ghost use Rattle.run_parts.specs.Outputs.{IsMeant, IsTold, fault_in, line_in, run_status};
ghost use Rattle.run_parts.specs.ProgramFault.{of_program};
ghost use Rattle.transfer.specs.Transfer.{AppendsFront};

use crate::fault::{ProgramFault, exit_status, report, tell};
use crate::meanings::meaning;
use faults::AnyFault;
use std::io::{self, Write};

// The exit status if the command line is wrong.
const NOT_UNDERSTOOD: u8 = 2;

/// Writes how a run ended, if it ended with a fault, and returns the exit status.
pub fn told<E: Write>(errors: &mut E, outcome: Result<(), AnyFault>) -> u8
    ensures told { IsTold (fault_in outcome) (E.contents errors.old) (E.contents errors.new) }
    ensures status { result ≡ run_status (fault_in outcome) }
{
    match outcome {
        Ok(()) => 0,
        Err(fault) => {
            let _ = report(errors, fault);
            exit_status(fault)
        }
    }
}

/// Writes a fault of the program itself to standard error, and returns the exit status.
pub fn refuse<E: Write>(errors: &mut E, fault: ProgramFault) -> u8
    ensures told { IsTold (Some (of_program fault)) (E.contents errors.old) (E.contents errors.new) }
    ensures status { result ≡ 3 }
{
    let fault = AnyFault::from(fault);
    let _ = report(errors, fault);
    exit_status(fault)
}

/// Writes why the words of the command line name no command that could be done, and returns the exit
/// status.
pub fn explain<E: Write>(errors: &mut E, text: &str) -> u8
    ensures told { AppendsFront (E.contents errors.old) (E.contents errors.new) text.now }
    ensures status { result ≡ 2 }
{
    let _ = tell(errors, text.as_bytes());
    NOT_UNDERSTOOD
}

/// Writes what a fault means and what to do, if that is asked for.
pub fn explain_fault<E: Write>(errors: &mut E, asked: bool, fault: AnyFault)
    ensures { IsMeant asked (E.contents errors.old) (E.contents errors.new) }
{
    if asked {
        let _ = tell(errors, meaning(fault.number).as_bytes());
    }
}

/// Writes a fault with a name after it, that of its file or of the table.
///
/// # Errors
///
/// The writer's own error. The writer has a front part of the line then.
pub fn tell_in<E: Write>(errors: &mut E, fault: AnyFault, name: &str) -> io::Result<()>
    ensures { AppendsFront (E.contents errors.old) (E.contents errors.new) (line_in fault name.now) }
{
    let line = fault.text();
    tell(errors, without_end(line.as_str().as_bytes()))?;
    tell(errors, b" ")?;
    tell(errors, name.as_bytes())?;
    tell(errors, b"\n")
}

// A line without its last byte.
fn without_end(line: &[u8]) -> &[u8]
    ensures { result.now ≡ take (length line.now - 1) line.now }
{
    &line[..line.len().saturating_sub(1)]
}
