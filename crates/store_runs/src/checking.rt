//! `check`: looking through a store.
ghost use Rattle.std.specs.Prelude.{◌≡◌, ◌≢◌, false, IfErr, IfOk, OnErr, OnOk, Some};
ghost use Rattle.std.specs.Io.KnownBytes.{Appends};
ghost use Rattle.bureau_sql.specs.SqlView.{IsAtRest};
ghost use Rattle.sqlite.specs.Held.{state};
ghost use Rattle.sqlite.specs.State.{HasCleanDisk};
ghost use Rattle.sqlite_wal.specs.Files.{image_at};
ghost use Rattle.run_parts.specs.Outputs.{IsMeant, outputs_of};
ghost use Rattle.run_parts.specs.ProgramFault.{of_program};
ghost use Rattle.sql_checks.specs.Checked.{Looks};
ghost use Rattle.sql_checks.specs.Refused.{IsCausedBy};
ghost use Rattle.sql_checks.specs.Tally.{tally_text};
ghost use Rattle.sql_checks.specs.declared.checking.Finding.TheVariants as finding;
ghost use Rattle.sql_tables.specs.Ours.{IsOurs, held_by};
ghost use Rattle.sql_tables.specs.Reading.{OnlyReads};
ghost use Rattle.sql_tables.specs.Stored.{tables_of};
ghost use Rattle.store_runs.specs.Desk.{of_store};
ghost use Rattle.store_runs.specs.Checking.{IsCheck, IsCheckOutput, IsCheckRun, IsCheckTold, IsSeenWhole, IsSeenWrong, IsTextOf, IsToldAs, IsToldOfRead, IsUntold, check_fault_in, check_line, check_status, in_no_table, place_name, wrong_in};
ghost use Rattle.transfer.specs.Transfer.{AppendsFront};

use crate::desk::of_store;
use crate::ended::{Ended, end};
use crate::missing::IfMissing;
use crate::pages::Pages;
use crate::refusal::Refusal;
use crate::stores::{StoreFile, Stores};
use bureau_sql::find_store;
use bureau_store::StoreFault;
use faults::AnyFault;
use run_parts::{ProgramFault, exit_status, explain_fault, printed, report, tell, tell_in};
use sql_checks::{Finding, StoreTable, StoreTally, check, every_caller, store_tally, tally_text};
use sql_reads::ReadFault;
use sqlite::{Alter, Connection, Start};
use std::alloc::Global;
use std::io::{self, Write};

/// Where in a store something is wrong.
#[derive(Clone, Copy, Debug)]
pub enum CheckPlace {
    /// In this table.
    Table(StoreTable),
    /// In the list of tables and indexes.
    Listing,
}

impl CheckPlace {
    /// The name of the table in the database.
    fn name(self) -> &'static str
        ensures { result.now ≡ place_name self }
    {
        match self {
            CheckPlace::Table(table) => table.name(),
            CheckPlace::Listing => "sqlite_schema",
        }
    }
}

/// Why a check ends with a fault, and where the store is wrong, if that is why.
#[derive(Clone, Copy, Debug)]
pub struct CheckFault {
    pub fault: AnyFault,
    pub place: Option<CheckPlace>,
}

/// Looks through the store in the database of a connection, and prints how much it has. Returns the exit status.
///
/// It writes nothing to the database. A fault goes to `errors` alone, with the name of the table that is wrong. If
/// `explain` asks for that, what it means stands below it. If there is none, `errors` gets what is known of the pages
/// then.
pub fn run_check<S: Alter, W: Write, E: Write>(
    alloc: Global,
    conn: &mut Connection<S>,
    explain: bool,
    pages: Pages,
    writer: &mut W,
    errors: &mut E,
) -> u8
    requires rest { conn.old.in_transaction ≡ false }
    ensures run { IsCheckRun explain
        (λ outcome. IsCheckOutput outcome (state S.Store conn.old) (state S.Store conn.new)
        (W.contents writer.old) (W.contents writer.new))
        (E.contents errors.old) (E.contents errors.new) result }
    ensures reads { OnlyReads (state S.Store conn.old) (state S.Store conn.new) }
    ensures rested { IsAtRest (state S.Store conn.old) }
    ensures rest { conn.new.in_transaction ≡ false }
{
    let _rested = conn.is_autocommit();
    let outcome = check_and_print(alloc, conn, writer);
    told_in(errors, explain, pages, outcome)
}

/// The same for the store that a file has. It makes no file that isn't there. Returns the exit status, and what is left
/// of the files.
pub fn check_file<S: Stores, D: Start, W: Write, E: Write>(
    stores: &mut S,
    alloc: Global,
    store: &str,
    explain: bool,
    start: D,
    writer: &mut W,
    errors: &mut E,
) -> (u8, Ended<StoreFile<D, S::Place>>)
    ensures { IsCheck explain (S.asked stores.old) (S.asked stores.new) (image_at D.Start) store.now
        (outputs_of W.contents E.contents writer.old writer.new errors.old errors.new)
        result.0 result.1 }
{
    match stores.connect(store, IfMissing::Refuse, start) {
        Ok(conn) => {
            let mut conn = conn;
            let status = run_check(alloc, &mut conn, explain, stores.pages(), writer, errors);
            (status, end(conn))
        }
        Err((fault, ended)) => (
            told_unopened(errors, explain, fault, stores.refusal()),
            ended,
        ),
    }
}

// Looks through the store, if a desk would serve it, and prints how much it has.
fn check_and_print<S: Alter, W: Write>(
    alloc: Global,
    conn: &mut Connection<S>,
    writer: &mut W,
) -> Result<(), CheckFault>
    requires rest { conn.old.in_transaction ≡ false }
    ensures output { IsCheckOutput (check_fault_in result) (state S.Store conn.old) (state S.Store conn.new)
        (W.contents writer.old) (W.contents writer.new) }
    ensures reads { OnlyReads (state S.Store conn.old) (state S.Store conn.new) }
    ensures rest { conn.new.in_transaction ≡ false }
{
    match find_store(conn) {
        Ok(()) => match look(alloc, conn) {
            Ok(text) => print(writer, text.as_slice()),
            Err(told) => Err(told),
        },
        Err(fault) => Err(in_no_table(of_store(fault))),
    }
}

// The text of how much a store has, if it is whole.
fn look<S: Alter>(alloc: Global, conn: &mut Connection<S>) -> Result<Vec<u8>, CheckFault>
    requires rest { conn.old.in_transaction ≡ false }
    ensures mode { conn.new.in_transaction ≡ false }
    ensures reads { OnlyReads (state S.Store conn.old) (state S.Store conn.new) }
    ensures whole { IfOk result (λ text.
        IsSeenWhole (state S.Store conn.old) (state S.Store conn.new) text.items) }
    ensures wrong { IfErr result (IsSeenWrong (state S.Store conn.old) (state S.Store conn.new)) }
{
    match check(alloc, conn) {
        Ok(Finding::Whole) => match tally(alloc, conn) {
            Ok(text) => Ok(text),
            Err(fault) => Err(unread(fault)),
        },
        Ok(found) => Err(wrong(found)),
        Err(fault) => Err(unread(fault)),
    }
}

// The fault for a store that isn't whole.
fn wrong(found: Finding) -> CheckFault
    requires { found ≢ finding.Whole }
    ensures { IsToldAs found result }
{
    match found {
        Finding::WrongRow(table) => wrong_in(CheckPlace::Table(table)),
        Finding::NoPublisher => wrong_in(CheckPlace::Table(StoreTable::Caller)),
        Finding::OtherOrder => wrong_in(CheckPlace::Listing),
        Finding::OtherVersion => in_no_table(of_store(StoreFault::Version)),
        Finding::OtherTables | Finding::Whole => in_no_table(of_store(StoreFault::Shape)),
    }
}

// The fault for a store that is wrong at this place.
fn wrong_in(place: CheckPlace) -> CheckFault
    ensures { result ≡ wrong_in place }
{
    CheckFault {
        fault: of_store(StoreFault::Shape),
        place: Some(place),
    }
}

// The fault for a read that is refused.
fn unread(fault: ReadFault) -> CheckFault
    ensures { IsToldOfRead fault result }
{
    match fault {
        ReadFault::Memory => in_no_table(of_store(StoreFault::Memory)),
        ReadFault::Device => in_no_table(of_store(StoreFault::Device)),
    }
}

// The text of how much a store has.
fn tally<S: Alter>(alloc: Global, conn: &mut Connection<S>) -> Result<Vec<u8>, ReadFault>
    requires rest { conn.old.in_transaction ≡ false }
    ensures mode { conn.new.in_transaction ≡ false }
    ensures looks { Looks (state S.Store conn.old) (state S.Store conn.new) result
        (λ database text. IsOurs database → IsTextOf (tables_of (held_by database)) text.items) }
    ensures cause { IfErr result (λ fault. fault ≡ ReadFault.Device → HasCleanDisk (state S.Store conn.new)
        → IsCausedBy IsUntold (state S.Store conn.old) (state S.Store conn.new)) }
{
    let callers = every_caller(alloc, conn)?;
    match store_tally(alloc, conn, callers.as_slice()) {
        Ok(tally) => text_of(alloc, &tally),
        Err(fault) => Err(fault),
    }
}

fn text_of(alloc: Global, tally: &StoreTally) -> Result<Vec<u8>, ReadFault>
    ensures text { IfOk result (λ text. text.items ≡ tally_text tally.now) }
    ensures memory { IfErr result (λ fault. fault ≡ ReadFault.Memory) }
{
    Ok(tally_text(alloc, tally)?)
}

// Prints a whole text.
fn print<W: Write>(writer: &mut W, text: &[u8]) -> Result<(), CheckFault>
    ensures ok { OnOk result (Appends (W.contents writer.old) (W.contents writer.new) text.now) }
    ensures fault { IfErr result (λ told. told ≡ in_no_table (of_program ProgramFault.NotWritten)) }
    ensures err { OnErr result (AppendsFront (W.contents writer.old) (W.contents writer.new) text.now) }
{
    match printed(writer, text) {
        Ok(()) => Ok(()),
        Err(fault) => Err(in_no_table(fault)),
    }
}

// A fault that is in no table.
fn in_no_table(fault: AnyFault) -> CheckFault
    ensures { result ≡ in_no_table fault }
{
    CheckFault { fault, place: None }
}

// Writes how a check ended, if it ended with a fault, and else what is known of the pages, if that is asked for. Returns
// the exit status.
fn told_in<E: Write>(
    errors: &mut E,
    explain: bool,
    pages: Pages,
    outcome: Result<(), CheckFault>,
) -> u8
    ensures told { IsCheckTold explain (check_fault_in outcome)
        (E.contents errors.old) (E.contents errors.new) }
    ensures status { result ≡ check_status (check_fault_in outcome) }
{
    match outcome {
        Ok(()) => {
            explain_pages(errors, explain, pages);
            0
        }
        Err(told) => {
            let _ = tell_check(errors, told);
            explain_fault(errors, explain, told.fault);
            exit_status(told.fault)
        }
    }
}

// Writes whether the pages of a store end in sums, as far as that is known.
fn explain_pages<E: Write>(errors: &mut E, explain: bool, pages: Pages)
    ensures { IsMeant explain (E.contents errors.old) (E.contents errors.new) }
{
    if let (true, Some(words)) = (explain, pages.words()) {
        let _ = tell(errors, words.as_bytes());
    }
}

// Writes why a store can't be opened, and returns the exit status.
fn told_unopened<E: Write>(errors: &mut E, explain: bool, fault: StoreFault, why: Refusal) -> u8
    ensures told { IsCheckTold explain (Some (in_no_table (of_store fault)))
        (E.contents errors.old) (E.contents errors.new) }
    ensures status { result ≡ check_status (Some (in_no_table (of_store fault))) }
{
    let told = in_no_table(of_store(fault));
    let _ = tell_check(errors, told);
    explain_refusal(errors, explain, fault, why);
    exit_status(told.fault)
}

// Writes why a store can't be opened, as far as that is known, and what to do.
fn explain_refusal<E: Write>(errors: &mut E, explain: bool, fault: StoreFault, why: Refusal)
    ensures { IsMeant explain (E.contents errors.old) (E.contents errors.new) }
{
    match (fault, why.words()) {
        (StoreFault::Device, Some(words)) => {
            if explain {
                let _ = tell(errors, words.as_bytes());
            }
        }
        _ => explain_fault(errors, explain, of_store(fault)),
    }
}

// Writes a fault, with the name of its place.
fn tell_check<E: Write>(errors: &mut E, told: CheckFault) -> io::Result<()>
    ensures { AppendsFront (E.contents errors.old) (E.contents errors.new) (check_line told told.place) }
{
    match told.place {
        Some(place) => tell_in(errors, told.fault, place.name()),
        None => report(errors, told.fault),
    }
}
