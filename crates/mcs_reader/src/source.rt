//! A source, read whole.
ghost use Rattle.std.specs.Prelude.{◌≡◌, Ok, Err, IfOk, IfErr, IsErrAnd, MatchResult, List};
ghost use Rattle.faults.specs.Refusal.{IsRefusal};
ghost use Rattle.mcs_reader.specs.Reading.{HasOneOutcome, IsFirstFault, IsReading};
ghost use Rattle.mcs_reader.specs.ReadingOf.{reading_of};
ghost use Rattle.mcs_reader.specs.Unread.{IsRead};
ghost use Rattle.mcs_reader.specs.declared.fault.McsFault.{McsFault};
ghost use Rattle.mcs_reader.specs.declared.fault.McsFault.TheVariants.{Memory};
ghost use Rattle.mcs_reader.specs.declared.statement.Statement.{Statement};

use crate::{McsFault, Statement, Statements};
use std::alloc::Global;

/// The most bytes that a source may have: 64 MiB.
pub const MOST_BYTES: usize = 67_108_864;

/// The statements of a source, in order, or its first fault.
///
/// Lines are cut at LF, a carriage return before it is taken off, and only columns 1 to 72 are read. A
/// line with `++` in columns 1 and 2 begins a statement, which ends with a period. Lines between
/// statements are skipped, and so is a statement whose verb isn't a [`Verb`](crate::Verb), up to the
/// next line that begins with `++`. Comments are passed over, and so is the list of an operand COMMENT, in
/// which only parentheses count. Names and values are slices of the source (SMP/E Reference, "MCS coding rules").
///
/// # Errors
///
/// [`McsFault::TooLong`] if the source has more than [`MOST_BYTES`] bytes. Else the fault of the first statement that
/// has one: at the first position at which its text can't go on, or else that of its subject. The other statements are
/// not returned. [`McsFault::Memory`] if memory runs out.
pub fn read(alloc: Global, source: &[u8]) -> Result<Vec<Statement<'_>>, McsFault>
    // The answer is the source's reading, or its first fault.
    ensures reading { IfOk result (λ statements. IsReading source.now statements.items) }
    ensures fault { IfErr result (IsRefusal Memory (λ fault. IsFirstFault source.now fault)) }

    // A source that has a reading is read, and one that has a first fault is refused for it, unless memory runs out.
    ensures read { (statements : List Statement) → IsReading source.now statements
        → MatchResult result (λ found. found.items ≡ statements) (λ fault. fault ≡ Memory) }
    ensures refused { (first : McsFault) → IsFirstFault source.now first
        → IsErrAnd result (IsRefusal Memory (λ fault. fault ≡ first)) }
    ensures one_outcome { HasOneOutcome source.now }

    // Each source has an outcome, and it is what is returned.
    ensures outcome { IsRead source.now (reading_of source.now) }
    ensures ok { IfOk result (λ statements. reading_of source.now ≡ Ok statements.items) }
    ensures refusal { IfErr result (IsRefusal Memory (λ fault. reading_of source.now ≡ Err fault)) }
{
    collect(alloc, Statements::new(alloc, source)?)
}

// The statements that are left, in order.
fn collect<'a>(alloc: Global, left: Statements<'a>) -> Result<Vec<Statement<'a>>, McsFault>
    ensures ok { IfOk result (λ statements. left.entry.reading ≡ Ok statements.items) }
    ensures fault { IfErr result (IsRefusal Memory (λ fault. left.entry.reading ≡ Err fault)) }
{
    let mut left = left;
    let mut statements = Vec::new(alloc);
    'left: while let Some(statement) = left.next()? {
        statements.push(statement)?;
    }
    Ok(statements)
}
