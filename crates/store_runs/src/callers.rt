//! `callers`: giving a store the callers of a callers file.
ghost use Rattle.std.specs.Prelude.{◌≡◌, ◌++◌, decimal, false, IfErr, IfOk, OnOk};
ghost use Rattle.std.specs.Io.KnownBytes.{Appends};
ghost use Rattle.run_parts.specs.Outputs.{fault_in, outputs_of};
ghost use Rattle.run_parts.specs.declared.fault.ProgramFault.TheVariants.{Memory};
ghost use Rattle.store_runs.specs.Callers.{IsCallersOutput, IsCallersRun, IsLineLost, callers_text, connection_set, store_set};
ghost use Rattle.store_runs.specs.NamedStore.{HasRows, IsCallers, IsNotBegun};
ghost use Rattle.sqlite_wal.specs.Files.{image_at};

use crate::desk::{callers_in, of_store, open};
use crate::ended::{Ended, end};
use crate::missing::IfMissing;
use crate::stores::{StoreFile, Stores};
use bureau_sql::SqlStore;
use bureau_store::{CallerCounts, CallerRow};
use faults::AnyFault;
use itoa::Buffer;
use run_parts::{Files, ProgramFault, printed, read_file, told};
use sqlite::{Alter, Connection, Start};
use std::alloc::Global;
use std::io::Write;
use transfer::RETRIES;

/// Gives the store in the database of a connection these callers, and no others, and prints how many there are and
/// how many came and went. Returns the exit status, and the connection.
///
/// A fault goes to `errors` alone. If the line can't be written (72), or memory runs out for it (74), the store has the
/// callers.
pub fn run_callers<S: Alter + Drop, W: Write, E: Write>(
    alloc: Global,
    conn: Connection<S>,
    callers: &[CallerRow],
    writer: &mut W,
    errors: &mut E,
) -> (u8, Connection<S>)
    requires rest { conn.in_transaction ≡ false }
    ensures { IsCallersRun (connection_set S.Store callers.now conn result.1)
        (W.contents writer.old) (W.contents writer.new)
        (E.contents errors.old) (E.contents errors.new) result.0 }
{
    let (outcome, conn) = open_and_set(alloc, conn, callers, writer);
    (told(errors, outcome), conn)
}

// Opens the store of a connection, gives it the callers, and prints how many came and went.
fn open_and_set<S: Alter + Drop, W: Write>(
    alloc: Global,
    conn: Connection<S>,
    callers: &[CallerRow],
    writer: &mut W,
) -> (Result<(), AnyFault>, Connection<S>)
    requires rest { conn.in_transaction ≡ false }
    ensures { IsCallersOutput (connection_set S.Store callers.now conn result.1) (fault_in result.0)
        (W.contents writer.old) (W.contents writer.new) }
{
    match open(alloc, conn) {
        Ok(mut store) => {
            let outcome = set_and_print(alloc, &mut store, callers, writer);
            (outcome, store.into_connection())
        }
        Err((fault, conn)) => (Err(of_store(fault)), conn),
    }
}

// Gives a store the callers, and prints how many came and went.
fn set_and_print<S: Alter, W: Write>(
    alloc: Global,
    store: &mut SqlStore<S>,
    callers: &[CallerRow],
    writer: &mut W,
) -> Result<(), AnyFault>
    ensures { IsCallersOutput (store_set S.Store callers.now store.old store.new) (fault_in result)
        (W.contents writer.old) (W.contents writer.new) }
{
    match store.set_callers(callers) {
        Ok(counts) => print_counts(alloc, &counts, writer),
        Err(fault) => Err(of_store(fault)),
    }
}

// Prints how many callers there are, and how many came and went.
fn print_counts<W: Write>(
    alloc: Global,
    counts: &CallerCounts,
    writer: &mut W,
) -> Result<(), AnyFault>
    ensures ok { OnOk result (Appends (W.contents writer.old) (W.contents writer.new)
        (callers_text counts.now)) }
    ensures fault { IfErr result (λ fault. IsLineLost fault counts.now
        (W.contents writer.old) (W.contents writer.new)) }
{
    let line = callers_line(alloc, counts)?;
    printed(writer, line.as_slice())
}

// The line with the numbers of callers, and of those that came and went.
fn callers_line(alloc: Global, counts: &CallerCounts) -> Result<Vec<u8>, ProgramFault>
    ensures text { IfOk result (λ line. line.items ≡ callers_text counts.now) }
    ensures fault { IfErr result (λ fault. fault ≡ Memory) }
{
    let mut line = Vec::new(alloc);
    push_count(&mut line, b"CALLERS ", counts.callers)?;
    push_count(&mut line, b" ADDED ", counts.added)?;
    push_count(&mut line, b" REMOVED ", counts.removed)?;
    push_count(&mut line, b" TOKENS ", counts.tokens)?;
    line.extend_from_slice(b"\n")?;
    Ok(line)
}

// Appends a word with a number after it.
fn push_count(line: &mut Vec<u8>, word: &[u8], number: u64) -> Result<(), ProgramFault>
    ensures text { OnOk result (line.new.items ≡ line.old.items ++ word.now ++ decimal number) }
    ensures fault { IfErr result (λ fault. fault ≡ Memory) }
{
    line.extend_from_slice(word)?;
    line.extend_from_slice(Buffer::new().format(number).as_bytes())?;
    Ok(())
}

/// Gives the store in the file `store` the callers in the file `callers`. It makes no file that isn't there. Returns
/// the exit status, and what is left of the store's files.
///
/// A fault of the callers file is told before the store is asked for.
pub fn callers_file<F: Files, S: Stores, D: Start, O: Write, E: Write>(
    files: &F,
    stores: &mut S,
    alloc: Global,
    store: &str,
    callers: &str,
    start: D,
    output: &mut O,
    errors: &mut E,
) -> (u8, Ended<StoreFile<D, S::Place>>)
    ensures { IsCallers (F.known_file files.now) (S.asked stores.old) (S.asked stores.new)
        (image_at D.Start) store.now callers.now
        (outputs_of O.contents E.contents output.old output.new errors.old errors.new)
        result.0 result.1 }
{
    let callers = match callers_of_file(files, alloc, callers) {
        Ok(callers) => callers,
        Err(fault) => return (told(errors, Err(fault)), Ended::Nothing),
    };
    match stores.connect(store, IfMissing::Refuse, start) {
        Ok(conn) => {
            let (status, conn) = run_callers(alloc, conn, callers.as_slice(), output, errors);
            (status, end(conn))
        }
        Err((fault, ended)) => (told(errors, Err(of_store(fault))), ended),
    }
}

// Reads the callers of a file.
fn callers_of_file<F: Files>(
    files: &F,
    alloc: Global,
    name: &str,
) -> Result<Vec<CallerRow>, AnyFault>
    ensures rows { IfOk result (λ rows. HasRows (F.known_file files.now name.now) rows.items) }
    ensures fault { IfErr result (IsNotBegun (F.known_file files.now name.now)) }
{
    let source = read_file(files, alloc, name, &mut { RETRIES })?;
    callers_in(alloc, source.as_slice())
}
