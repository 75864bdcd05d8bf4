//! `holds`: from the bytes of HOLDDATA, or the name of its file, to the hold book in print.
ghost use Rattle.std.specs.Prelude.{◌≡◌, ◌⊎◌, ◌++◌, take, Ok, Err, IfOk, IfErr, IfSome, OnOk};
ghost use Rattle.std.specs.Option.{option_to_list};
ghost use Rattle.faults.specs.Refusal.{IsRefusal};
ghost use Rattle.holddata.specs.HoldBook.{book_of, IsLeft};
ghost use Rattle.mcs_reader.specs.ReadingOf.{reading_of};
ghost use Rattle.mcs_reader.specs.Unread.{IsRead};
ghost use Rattle.run_parts.specs.Outputs.{fault_in, outputs_of};
ghost use Rattle.report_runs.specs.Holds.{most_read, print_left, print_of, print_of_read, IsBookLeft, IsHolds, IsHoldsRun, IsMemory, IsPrinted};
ghost use Rattle.transfer.specs.Transfer.{ConsumesUpTo};

use faults::AnyFault;
use holddata::{HoldChange, book_text_left, change, hold_operands};
use mcs_reader::Statements;
use run_parts::{Files, ProgramFault, is_standard_input, refuse, told, write_text};
use std::alloc::Global;
use std::io::{Read, Write};
use transfer::{RETRIES, read_source};

/// The most bytes that are read of a source: one more than it may have.
pub const MOST_READ: usize = mcs_reader::MOST_BYTES + 1;

/// Reads HOLDDATA and prints the hold book that its statements leave. Returns the exit status.
///
/// The text is whole before its first byte is written. A fault goes to `errors` alone, as `FAULT`, its number and its
/// line. Only if a write fails does `writer` have the front of the text. No more than [`MOST_READ`] bytes are read.
pub fn run_holds<R: Read, W: Write, E: Write>(
    alloc: Global,
    reader: &mut R,
    writer: &mut W,
    errors: &mut E,
) -> u8
    ensures { IsHoldsRun (R.remaining reader.old) (R.remaining reader.new)
        (W.contents writer.old) (W.contents writer.new)
        (E.contents errors.old) (E.contents errors.new) result }
{
    let printed = print_holds(alloc, reader, writer);
    told(errors, printed)
}

/// Prints the hold book of a FILE by its name, or of standard input if that is `-`. Returns the exit status.
///
/// Standard input is read only if FILE is `-`. For a file that can't be opened the fault is 71.
pub fn do_holds<S: Files, I: Read, O: Write, E: Write>(
    surroundings: &S,
    alloc: Global,
    file: &str,
    input: &mut I,
    output: &mut O,
    errors: &mut E,
) -> u8
    ensures { IsHolds (S.known_file surroundings.now) file.now
        (I.remaining input.old) (I.remaining input.new)
        (outputs_of O.contents E.contents output.old output.new errors.old errors.new) result }
{
    if is_standard_input(file) {
        return run_holds(alloc, input, output, errors);
    }
    match surroundings.open(file) {
        Ok(mut source) => run_holds(alloc, &mut source, output, errors),
        Err(_) => refuse(errors, ProgramFault::NotRead),
    }
}

// Prints the hold book of the bytes of a reader.
fn print_holds<R: Read, W: Write>(
    alloc: Global,
    reader: &mut R,
    writer: &mut W,
) -> Result<(), AnyFault>
    ensures printed { IsPrinted (R.remaining reader.old) (W.contents writer.old) (W.contents writer.new)
        (fault_in result) }
    ensures taken { ConsumesUpTo most_read (R.remaining reader.old) (R.remaining reader.new) }
{
    let source = read_input(alloc, reader, &mut { RETRIES })?;
    let text = hold_book_text(alloc, source)?;
    Ok(write_text(writer, text.as_slice())?)
}

/// Reads the bytes of a reader, up to one byte more than a source may have, in room of their own size.
pub fn read_input<R: Read>(
    alloc: Global,
    reader: &mut R,
    retries: &mut u32,
) -> Result<Vec<u8>, ProgramFault>
    ensures ok { IfOk result (λ source. IfSome (R.remaining reader.old)
        (λ bytes. source.items ≡ take most_read bytes)) }
    ensures fault { IfErr result (IsRefusal ProgramFault.Memory (λ fault. fault ≡ ProgramFault.NotRead)) }
    ensures taken { ConsumesUpTo most_read (R.remaining reader.old) (R.remaining reader.new) }
{
    let mut source = read_source(alloc, reader, MOST_READ, retries)?;
    source.shrink_to_fit();
    Ok(source)
}

/// Prints the hold book that the statements of a source leave.
///
/// # Errors
///
/// The fault of the source, or of the first statement that has one as a hold; or memory ran out.
pub fn hold_book_text(alloc: Global, source: Vec<u8>) -> Result<Vec<u8>, AnyFault>
    ensures text { IfOk result (λ text. print_of source.items ≡ Ok text.items) }
    ensures left { IfOk result (λ text. IsBookLeft source.items text.items) }
    ensures fault { IfErr result (λ fault. IsMemory fault ⊎ (print_of source.items ≡ Err fault)) }

    // The reading of the source, in the words of the field.
    ensures reading { IsRead source.items (reading_of source.items) }
{
    let changes = changes_in(alloc, source.as_slice())?;
    drop(source); // The text takes its room.
    Ok(text_left(changes)?)
}

// Prints the book that changes leave.
fn text_left(changes: Vec<HoldChange>) -> Result<Vec<u8>, ProgramFault>
    ensures text { IfOk result (λ text. text.items ≡ print_left changes.items) }
    ensures left { IsLeft changes.items (book_of changes.items) }
    ensures fault { IfErr result (λ fault. fault ≡ ProgramFault.Memory) }
{
    Ok(book_text_left(changes)?)
}

// The changes that the statements of a source make of the holds, in their order. It asks only for the operands that say
// something of a hold.
fn changes_in(alloc: Global, source: &[u8]) -> Result<Vec<HoldChange>, AnyFault>
    ensures changes { IfOk result
        (λ changes. print_of source.now ≡ Ok (print_left changes.items)) }
    ensures fault { IfErr result (λ fault. IsMemory fault ⊎ (print_of source.now ≡ Err fault)) }
    ensures reading { IsRead source.now (reading_of source.now) }
{
    let statements = Statements::asking(alloc, source, hold_operands())?;
    changes_by(alloc, statements)
}

// The changes that statements make of the holds, in their order. It keeps no statement. It also reads what comes after
// the first statement with a fault as a hold, since a fault of the text itself comes before that.
fn changes_by(alloc: Global, statements: Statements) -> Result<Vec<HoldChange>, AnyFault>
    ensures changes { IfOk result
        (λ changes. print_of_read statements.entry.reading ≡ Ok (print_left changes.items)) }
    ensures fault { IfErr result
        (λ fault. IsMemory fault ⊎ (print_of_read statements.entry.reading ≡ Err fault)) }
{
    let mut statements = statements;
    let mut changes = Vec::new(alloc);
    'statements: while let Some(statement) = statements.next()? {
        match change(alloc, &statement) {
            Ok(change) => push_change(&mut changes, change)?,
            Err(fault) => {
                statements.finish()?;
                return Err(AnyFault::from(fault));
            }
        }
    }
    Ok(changes)
}

// Adds the change, if there is one.
fn push_change(
    changes: &mut Vec<HoldChange>,
    change: Option<HoldChange>,
) -> Result<(), ProgramFault>
    ensures ok { OnOk result (changes.new.items ≡ changes.old.items ++ option_to_list change) }
    ensures fault { IfErr result (λ fault. fault ≡ ProgramFault.Memory) }
{
    if let Some(change) = change {
        changes.push(change)?;
    }
    Ok(())
}
