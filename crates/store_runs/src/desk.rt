//! Making a store in a database, or opening one there.
ghost use Rattle.std.specs.Prelude.{◌≡◌, false, IfErr, IfOk, OnOk};
ghost use Rattle.run_parts.specs.Outputs.{fault_in, outputs_of};
ghost use Rattle.store_runs.specs.Desk.{AreRowsOf, HasOpened, InitSurvives, IsCallersFault, IsInitLeft, IsInitOutput, IsInitRun, IsNotOpened, MayHaveFault, init_text, of_store, of_unopened};
ghost use Rattle.store_runs.specs.NamedStore.{IsInit};
ghost use Rattle.sqlite.specs.Held.{state};
ghost use Rattle.sqlite.specs.State.{HasCleanDisk};
ghost use Rattle.sqlite_wal.specs.Files.{image_at};
ghost use Rattle.bureau_sql.specs.Opening.{IsNoStore};
ghost use Rattle.bureau_sql.specs.SqlView.{IsAtRest};
ghost use Rattle.sql_tables.specs.Reading.{OnlyReads};

use crate::ended::{Ended, end};
use crate::missing::if_missing;
use crate::stores::{StoreFile, Stores};
use bureau_sql::{SqlStore, find_store, init};
use bureau_store::{CallerRow, StoreFault, callers};
use faults::AnyFault;
use run_parts::{Files, numbered_line, printed, read_file, refuse, told};
use sqlite::{Alter, Connection, Start};
use std::alloc::Global;
use std::io::Write;
use transfer::RETRIES;

/// Makes the tables of a store that has the callers of a callers file and nothing else, and prints how many there are.
/// Returns the exit status.
///
/// It makes the line before the tables, so that they are there if it can't be written (72). A fault goes to `errors`
/// alone.
pub fn run_init<S: Alter, W: Write, E: Write>(
    alloc: Global,
    conn: &mut Connection<S>,
    callers: &[u8],
    writer: &mut W,
    errors: &mut E,
) -> u8
    requires rest { conn.old.in_transaction ≡ false }
    ensures run { IsInitRun
        (λ outcome. IsInitLeft outcome callers.now (state S.Store conn.old) (state S.Store conn.new))
        callers.now (W.contents writer.old) (W.contents writer.new)
        (E.contents errors.old) (E.contents errors.new) result }
    ensures stopped { InitSurvives callers.now (state S.Store conn.old) (state S.Store conn.new) }
    ensures rested { IsAtRest (state S.Store conn.old) }
    ensures rest { conn.new.in_transaction ≡ false }
{
    let _rested = conn.is_autocommit();
    let made = make_and_print(alloc, conn, callers, writer);
    told(errors, made)
}

// Makes the tables, and prints how many callers they have.
#[tactic(auto, using(crate::proofs::DeskFacts::nothing_committed, crate::proofs::DeskFacts::stays_alive, crate::proofs::DeskFacts::founded))]
fn make_and_print<S: Alter, W: Write>(
    alloc: Global,
    conn: &mut Connection<S>,
    source: &[u8],
    writer: &mut W,
) -> Result<(), AnyFault>
    requires rest { conn.old.in_transaction ≡ false }
    ensures output { IsInitOutput (fault_in result) source.now
        (W.contents writer.old) (W.contents writer.new) }
    ensures left { IsInitLeft (fault_in result) source.now (state S.Store conn.old) (state S.Store conn.new) }
    ensures stopped { InitSurvives source.now (state S.Store conn.old) (state S.Store conn.new) }
    ensures rest { conn.new.in_transaction ≡ false }
{
    let (rows, line) = match callers_and_line(alloc, source) {
        Ok(both) => both,
        Err(fault) => return Err(fault),
    };
    match init(conn, rows.as_slice()) {
        Ok(()) => printed(writer, line.as_slice()),
        Err(fault) => Err(of_store(fault)),
    }
}

// The callers of a file, and the line with their number.
fn callers_and_line(alloc: Global, source: &[u8]) -> Result<(Vec<CallerRow>, Vec<u8>), AnyFault>
    ensures rows { IfOk result (λ both. AreRowsOf source.now both.0.items) }
    ensures line { IfOk result (λ both. both.1.items ≡ init_text both.0.items) }
    ensures fault { IfErr result (IsCallersFault source.now) }
{
    let rows = callers_in(alloc, source)?;
    let line = numbered_line(alloc, b"CALLERS ", rows.len() as u64)?;
    Ok((rows, line))
}

/// The callers of a callers file.
///
/// # Errors
///
/// The fault of the callers file, or memory ran out.
pub fn callers_in(alloc: Global, source: &[u8]) -> Result<Vec<CallerRow>, AnyFault>
    ensures rows { IfOk result (λ rows. AreRowsOf source.now rows.items) }
    ensures fault { IfErr result (IsCallersFault source.now) }
{
    Ok(callers(alloc, source)?)
}

/// The fault of a run for that of the store.
pub fn of_store(fault: StoreFault) -> AnyFault
    ensures { result ≡ of_store fault }
{
    AnyFault::from(fault)
}

/// Makes a store in the file `store`, with the callers in the file `callers`. Returns the exit status, and what is left
/// of the store's files.
///
/// A store that can't be opened is told before a fault of the callers file. A file that isn't there is made for callers
/// without a fault alone. Each of its pages ends in a sum if `sums` asks for that.
pub fn do_init<F: Files, S: Stores, D: Start, O: Write, E: Write>(
    files: &F,
    stores: &mut S,
    alloc: Global,
    store: &str,
    callers: &str,
    sums: bool,
    start: D,
    output: &mut O,
    errors: &mut E,
) -> (u8, Ended<StoreFile<D, S::Place>>)
    ensures { IsInit (F.known_file files.now) (S.asked stores.old) (S.asked stores.new)
        (image_at D.Start) sums store.now callers.now
        (outputs_of O.contents E.contents output.old output.new errors.old errors.new)
        result.0 result.1 }
{
    let callers = match read_file(files, alloc, callers, &mut { RETRIES }) {
        Ok(callers) => callers,
        Err(fault) => return (refuse(errors, fault), Ended::Nothing),
    };
    let source = callers.as_slice();
    let fault = fault_of(alloc, source);
    match stores.connect(store, if_missing(fault, sums), start) {
        Ok(conn) => {
            let mut conn = conn;
            let status = run_init(alloc, &mut conn, source, output, errors);
            (status, end(conn))
        }
        Err((refused, ended)) => (told(errors, Err(of_unopened(fault, refused))), ended),
    }
}

// The fault of a callers file, if there is one.
fn fault_of(alloc: Global, source: &[u8]) -> Option<AnyFault>
    ensures { MayHaveFault source.now result }
{
    match callers_in(alloc, source) {
        Ok(_rows) => None,
        Err(fault) => Some(fault),
    }
}

// The fault of a run whose store can't be opened: that of the store. If a file isn't there, and none is made since the
// callers have a fault, it is theirs.
fn of_unopened(callers: Option<AnyFault>, store: StoreFault) -> AnyFault
    ensures { result ≡ of_unopened callers store }
{
    match (callers, store) {
        (Some(fault), StoreFault::Shape) => fault,
        (_, store) => of_store(store),
    }
}

/// The store that a connection holds; or why it holds none, and the connection, at rest.
pub(crate) fn open<S: Alter>(
    alloc: Global,
    conn: Connection<S>,
) -> Result<SqlStore<S>, (StoreFault, Connection<S>)>
    requires rest { conn.in_transaction ≡ false }
    ensures opened { IfOk result (HasOpened S.Store (state S.Store conn)) }
    ensures rested { IsAtRest (state S.Store conn) }
    ensures reads { IfErr result (λ refused. OnlyReads (state S.Store conn) (state S.Store refused.1)) }
    ensures cause { IfErr result (λ refused. HasCleanDisk (state S.Store refused.1)
        → IsNoStore (state S.Store conn) (state S.Store refused.1) refused.0) }
    ensures rest { IfErr result (λ refused. refused.1.in_transaction ≡ false) }
{
    let mut conn = conn;
    match find_store(&mut conn) {
        Ok(()) => Ok(SqlStore::over(alloc, conn)),
        Err(fault) => Err((fault, conn)),
    }
}

/// The store in the database of a connection; or the exit status, if a fault was told, and the connection, at rest.
#[tactic(auto, using(crate::proofs::DeskFacts::open_refused))]
pub fn run_open<S: Alter + Drop, E: Write>(
    alloc: Global,
    conn: Connection<S>,
    errors: &mut E,
) -> Result<SqlStore<S>, (u8, Connection<S>)>
    requires rest { conn.in_transaction ≡ false }
    ensures opened { IfOk result (HasOpened S.Store (state S.Store conn)) }
    ensures silent { OnOk result (errors.new ≡ errors.old) }
    ensures rested { IsAtRest (state S.Store conn) }
    ensures refused { IfErr result (λ refused. IsNotOpened (state S.Store conn) (state S.Store refused.1)
        (E.contents errors.old) (E.contents errors.new) refused.0) }
    ensures rest { IfErr result (λ refused. refused.1.in_transaction ≡ false) }
{
    match open(alloc, conn) {
        Ok(store) => Ok(store),
        Err((fault, conn)) => Err((told(errors, Err(of_store(fault))), conn)),
    }
}
