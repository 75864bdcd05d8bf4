//! `migrate`: making a store of version 1 in a file one of version 2.
ghost use Rattle.std.specs.Prelude.{◌≡◌, false};
ghost use Rattle.run_parts.specs.Outputs.{fault_in, outputs_of};
ghost use Rattle.store_runs.specs.Migrating.{IsMigrateLeft, IsMigrateOutput, IsMigrateRun};
ghost use Rattle.store_runs.specs.NamedStore.{IsMigrate};
ghost use Rattle.bureau_sql.specs.Migrated.{AreMigrated};
ghost use Rattle.bureau_sql.specs.SqlView.{IsAtRest};
ghost use Rattle.sqlite.specs.Held.{state};
ghost use Rattle.sqlite.specs.State.{Survives};
ghost use Rattle.sqlite_wal.specs.Files.{image_at};

use crate::desk::of_store;
use crate::ended::{Ended, end};
use crate::missing::IfMissing;
use crate::stores::{StoreFile, Stores};
use bureau_sql::migrate;
use faults::AnyFault;
use run_parts::{printed, told};
use sqlite::{Alter, Connection, Start};
use std::alloc::Global;
use std::io::Write;

/// Makes a store of version 1 in the database of a connection one of version 2, with all that it has, and prints that
/// this is done. Returns the exit status.
///
/// A fault goes to `errors` alone. If the line can't be written (72), the store is of version 2.
pub fn run_migrate<S: Alter, W: Write, E: Write>(
    conn: &mut Connection<S>,
    writer: &mut W,
    errors: &mut E,
) -> u8
    requires rest { conn.old.in_transaction ≡ false }
    ensures run { IsMigrateRun
        (λ outcome. IsMigrateLeft outcome (state S.Store conn.old) (state S.Store conn.new))
        (W.contents writer.old) (W.contents writer.new)
        (E.contents errors.old) (E.contents errors.new) result }
    ensures stopped { Survives (state S.Store conn.old) (state S.Store conn.new)
        (AreMigrated (state S.Store conn.old)) }
    ensures rested { IsAtRest (state S.Store conn.old) }
    ensures rest { conn.new.in_transaction ≡ false }
{
    let _rested = conn.is_autocommit();
    let outcome = migrate_and_print(conn, writer);
    told(errors, outcome)
}

// Makes the store one of version 2, and prints that this is done.
#[tactic(auto, using(crate::proofs::MigratingFacts::not_migrated))]
fn migrate_and_print<S: Alter, W: Write>(
    conn: &mut Connection<S>,
    writer: &mut W,
) -> Result<(), AnyFault>
    requires rest { conn.old.in_transaction ≡ false }
    ensures output { IsMigrateOutput (fault_in result) (W.contents writer.old) (W.contents writer.new) }
    ensures left { IsMigrateLeft (fault_in result) (state S.Store conn.old) (state S.Store conn.new) }
    ensures stopped { Survives (state S.Store conn.old) (state S.Store conn.new)
        (AreMigrated (state S.Store conn.old)) }
    ensures rest { conn.new.in_transaction ≡ false }
{
    match migrate(conn) {
        Ok(()) => printed(writer, b"MIGRATED VERSION 2\n"),
        Err(fault) => Err(of_store(fault)),
    }
}

/// The same for the store that a file has. It makes no file that isn't there. Returns the exit status, and what is
/// left of the files.
pub fn migrate_file<S: Stores, D: Start, W: Write, E: Write>(
    stores: &mut S,
    alloc: Global,
    store: &str,
    start: D,
    writer: &mut W,
    errors: &mut E,
) -> (u8, Ended<StoreFile<D, S::Place>>)
    ensures { IsMigrate (S.asked stores.old) (S.asked stores.new) (image_at D.Start) store.now
        (outputs_of W.contents E.contents writer.old writer.new errors.old errors.new)
        result.0 result.1 }
{
    match stores.connect(store, IfMissing::Refuse, start) {
        Ok(conn) => {
            let mut conn = conn;
            let status = run_migrate(&mut conn, writer, errors);
            (status, end(conn))
        }
        Err((fault, ended)) => (told(errors, Err(of_store(fault))), ended),
    }
}
