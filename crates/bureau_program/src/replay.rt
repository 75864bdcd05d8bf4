//! `replay`: from the callers and the bytes of connections to the bytes of their replies.
ghost use Rattle.std.specs.Prelude.{◌≡◌, false, map, IfErr, IfOk, OnOk, OnErr};
ghost use Rattle.std.specs.Io.KnownBytes.{Appends};
ghost use Rattle.bureau.specs.Answering.{bureau_view};
ghost use Rattle.bureau.specs.Joint.{IsRun};
ghost use Rattle.bureau_http.specs.List.{AreServed};
ghost use Rattle.bureau_http.specs.Replay.{IsReplayed};
ghost use Rattle.run_parts.specs.Outputs.{fault_in};
ghost use Rattle.bureau_program.specs.Replay.{IsAlwaysClean, IsNewDatabase, IsNotReplayed, IsNotServed, IsReplayOutput, IsReplayRun, joined};
ghost use Rattle.bureau_store.specs.Tables.{opened};
ghost use Rattle.catalogue.specs.Content.{Content};
ghost use Rattle.catalogue.specs.View.{Tells};
ghost use Rattle.sqlite.specs.Files.{file_state};
ghost use Rattle.sqlite.specs.Held.{state};
ghost use Rattle.transfer.specs.Transfer.{AppendsFront};

use crate::cache::cache_of;
use bureau::Bureau;
use bureau_http::serve_list;
use bureau_sql::{SqlStore, init};
use bureau_store::{CallerRow, Store, StoreFault};
use faults::AnyFault;
use ram_disk::RamDisk;
use run_parts::{ProgramFault, told};
use sqlite::{Alter, Connection, FileStore, Files, Options};
use sqlite_disk::Disk;
use std::alloc::Global;
use std::hash::RandomState;
use std::io::Write;
use store_runs::{callers_in, of_store};
use transfer::{RETRIES, write_whole};
use verdicts::Judge;

// The pages that are kept besides those in the files, which are in memory too: one mebibyte of them.
const PAGES: usize = 256;

// The pages of a change that are kept before they go to the log: four gibibytes of them, more than a change writes. The
// log is in memory too, so a page that goes there early and is written again is there twice.
const CHANGED_PAGES: usize = 1 << 20;

/// Serves connections one after the other over a store in memory that has these callers and nothing else, and
/// prints what is written to each. Returns the exit status.
///
/// A fault goes to `errors` alone, as `FAULT`, its number and its place. Only if a write fails does `writer` have a
/// front part of the replies. `cache` is the number of frames that are kept, and `keys` those by which they are looked
/// up; no reply shows either.
pub fn run_replay<W: Write, E: Write>(
    alloc: Global,
    callers: &[u8],
    files: Vec<Vec<u8>>,
    cache: u32,
    keys: RandomState,
    writer: &mut W,
    errors: &mut E,
) -> u8
    ensures { IsReplayRun callers.now (map (λ file. file.items) files.items)
        (W.contents writer.old) (W.contents writer.new)
        (E.contents errors.old) (E.contents errors.new) result }
{
    let printed = print_replies(alloc, callers, files, cache, keys, writer);
    told(errors, printed)
}

// Prints the replies to connections.
fn print_replies<W: Write>(
    alloc: Global,
    callers: &[u8],
    files: Vec<Vec<u8>>,
    cache: u32,
    keys: RandomState,
    writer: &mut W,
) -> Result<(), AnyFault>
    ensures { IsReplayOutput (fault_in result) callers.now (map (λ file. file.items) files.items)
        (W.contents writer.old) (W.contents writer.new) }
{
    match replies(alloc, callers, files, cache, keys) {
        Ok(written) => Ok(write_texts(writer, written.as_slice())?),
        Err(fault) => Err(fault),
    }
}

// Serves connections with the callers of a file, and returns the replies.
fn replies(
    alloc: Global,
    callers: &[u8],
    files: Vec<Vec<u8>>,
    cache: u32,
    keys: RandomState,
) -> Result<Vec<Vec<u8>>, AnyFault>
    ensures replayed { IfOk result (λ written.
        IsReplayed callers.now (map (λ file. file.items) files.items)
        (map (λ text. text.items) written.items)) }
    ensures fault { IfErr result (IsNotReplayed callers.now) }
{
    let rows = callers_in(alloc, callers)?;
    serve_rows(alloc, rows.as_slice(), files, cache, keys)
}

// Serves connections with these callers, and returns the replies.
fn serve_rows(
    alloc: Global,
    rows: &[CallerRow],
    files: Vec<Vec<u8>>,
    cache: u32,
    keys: RandomState,
) -> Result<Vec<Vec<u8>>, AnyFault>
    ensures served { IfOk result (λ written. AreServed IsRun (opened rows.now)
        (map (λ file. file.items) files.items) (map (λ text. text.items) written.items)) }
    ensures fault { IfErr result IsNotServed }
{
    let conn = database_in_memory(alloc)?;
    match cache_of(alloc, cache, keys) {
        Ok(judge) => serve_over(alloc, conn, judge, rows, files),
        Err(_) => {
            // Drops it by a call, which is proved once. At the end of the scope each list in it would be dropped here.
            drop(conn);
            Err(AnyFault::from(ProgramFault::Memory))
        }
    }
}

// The same over an empty database, if its files return what was written to them, and by any judge.
fn serve_over<S: Alter + Drop, J: Judge<SqlStore<S>> + Drop>(
    alloc: Global,
    conn: Connection<S>,
    judge: J,
    rows: &[CallerRow],
    files: Vec<Vec<u8>>,
) -> Result<Vec<Vec<u8>>, AnyFault>
    requires rest { conn.in_transaction ≡ false }
    ensures served { IsAlwaysClean S.Store → ((content : Content) → J.is_right judge content)
        → IfOk result (λ written. AreServed IsRun (opened rows.now)
        (map (λ file. file.items) files.items) (map (λ text. text.items) written.items)) }
    ensures fault { IsAlwaysClean S.Store → IsNewDatabase (state S.Store conn)
        → IfErr result IsNotServed }
{
    let mut conn = conn;
    match init(&mut conn, rows) {
        Ok(()) => {}
        Err(fault) => return Err(of_store(fault)),
    }
    let mut bureau = Bureau::new(alloc, SqlStore::over(alloc, conn), judge);
    serve_files(alloc, &mut bureau, files)
}

// Serves connections by a bureau, one after the other, and returns the replies.
fn serve_files<T: Store, J: Judge<T>>(
    alloc: Global,
    bureau: &mut Bureau<T, J>,
    files: Vec<Vec<u8>>,
) -> Result<Vec<Vec<u8>>, AnyFault>
    ensures served { IfOk result (λ written.
        Tells (bureau_view T.tables_view J.is_right) bureau.old bureau.new (λ this. AreServed IsRun this
        (map (λ file. file.items) files.items) (map (λ text. text.items) written.items))) }
    ensures fault { IfErr result IsNotServed }
{
    let served = serve_list(alloc, bureau, files);
    if bureau.store().device_failed() {
        return Err(of_store(StoreFault::Device));
    }
    match served {
        Ok(written) => Ok(written),
        Err((fault, _)) => Err(AnyFault::from(fault)),
    }
}

// A database in memory, made of the same pages as one in a file.
fn database_in_memory(alloc: Global) -> Result<Connection<FileStore<RamDisk>>, StoreFault>
    ensures rest { IfOk result (λ conn. conn.in_transaction ≡ false) }
    ensures new { IfOk result (λ conn. IsNewDatabase (file_state {g = ⟦<RamDisk as Disk>⟧} conn)) }
    ensures fault { IfErr result (λ fault. fault ≡ StoreFault.Memory) }
{
    let log = RamDisk::new(alloc);
    let db = RamDisk::new(alloc);
    let mut options = Options::new(1);
    options.cache_pages = PAGES;
    options.spill_pages = CHANGED_PAGES;
    match Connection::open_files(alloc, Files { log, db }, options) {
        Ok(conn) => Ok(conn),
        Err(_) => Err(StoreFault::Memory),
    }
}

// Writes whole texts, one after the other.
fn write_texts<W: Write>(writer: &mut W, texts: &[Vec<u8>]) -> Result<(), ProgramFault>
    ensures ok { OnOk result (Appends (W.contents writer.old) (W.contents writer.new)
        (joined (map (λ text. text.items) texts.now))) }
    ensures fault { IfErr result (λ fault. fault ≡ ProgramFault.NotWritten) }
    ensures err { OnErr result (AppendsFront (W.contents writer.old) (W.contents writer.new)
        (joined (map (λ text. text.items) texts.now))) }
{
    let mut retries = RETRIES;
    for text in texts {
        match write_whole(writer, text.as_slice(), &mut retries) {
            Ok(()) => {}
            Err(_) => return Err(ProgramFault::NotWritten),
        }
    }
    Ok(())
}
