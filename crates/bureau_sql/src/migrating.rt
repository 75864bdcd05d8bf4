//! Making a file of version 1 one of version 2.
ghost use Rattle.std.specs.Prelude.{◌≡◌, ◌≢◌, ◌⊎◌, IfErr, IsTrue, OnErr, OnOk, Some, false};
ghost use Rattle.bureau_store.specs.Store.{IsOfCall};
ghost use Rattle.bureau_store.specs.declared.fault.StoreFault.TheVariants.{Device, Memory};
ghost use Rattle.sqlite.specs.Held.{state};
ghost use Rattle.sqlite.specs.State.{HasCleanDisk, KeepsCommit, Survives, store_error};
ghost use Rattle.sqlite_trees.specs.declared.error.StoreError.TheVariants.{OutOfMemory};
ghost use Rattle.sql_reads.specs.Version.{HasVersion};
ghost use Rattle.sql_tables.specs.Earlier.{IsOfVersion1, held_by_version_1};
ghost use Rattle.sql_tables.specs.Ours.{IsOurs, held_by};
ghost use Rattle.sql_tables.specs.Reading.{HasFailed, OnlyReads};
ghost use Rattle.sql_tables.specs.Stored.{tables_of};
ghost use Rattle.bureau_sql.specs.Failing.{RefusesExcused};
ghost use Rattle.bureau_sql.specs.Migrated.{AreMigrated, IsMigrated, LeadsToMigration, LeavesUntouched};
ghost use Rattle.bureau_sql.specs.Opening.{CanMakeConditions, HasTables, IsNotEarlier};
ghost use Rattle.bureau_sql.specs.SqlView.{IsAtRest};

use crate::commit::{begin, end};
use crate::finding::holds;
use crate::probe::look;
use crate::store::refusal_of;
use bureau_store::StoreFault;
use sql_texts::create;
use sqlite::{Connection, Error};
use sqlite_trees::store::Alter;

// Makes the tables of version 1 those of version 2, in one transaction.
fn migrated<S: Alter>(conn: &mut Connection<S>) -> Result<(), Error>
    requires rest { conn.old.in_transaction ≡ false }
    ensures mode { conn.new.in_transaction ≡ false }
    ensures migrated { IsMigrated (state S.Store conn.old) (state S.Store conn.new) result }
    ensures done { LeadsToMigration (state S.Store conn.old) (state S.Store conn.new) result }
    ensures excused { RefusesExcused (state S.Store conn.old) (state S.Store conn.new) result IsOfVersion1 }
{
    let mut tx = begin(conn);
    let written = sql_writes::migrate(&mut tx);
    end(tx, written)
}

// Why the transaction was refused. `Size` is told only if the connection is open. If memory is too short to see that,
// `Memory` is told.
fn refusal<S: Alter>(conn: &mut Connection<S>, error: Error) -> StoreFault
    requires rest { conn.old.in_transaction ≡ false }
    ensures reads { OnlyReads (state S.Store conn.old) (state S.Store conn.new) }
    ensures mode { conn.new.in_transaction ≡ false }
    ensures call { IsOfCall result }
    ensures failed { result ≢ Memory → HasCleanDisk (state S.Store conn.new)
        → (error ≢ store_error OutOfMemory) ⊎ HasFailed (state S.Store conn.old) (state S.Store conn.new) }
    ensures is_open { result ≢ Device → result ≢ Memory → HasCleanDisk (state S.Store conn.new)
        → IsTrue (state S.Store conn.new).is_open }
    ensures rests { IsAtRest (state S.Store conn.new) }
{
    let fault = refusal_of(error);
    let seen = if matches!(fault, StoreFault::Device) {
        Ok(())
    } else {
        look(conn)
    };
    let _settled = conn.is_autocommit();
    match seen {
        Ok(()) => fault,
        Err(told) => told,
    }
}

/// Makes a store of version 1 one of version 2, in one transaction: a stop leaves the file as it was, or that of version 2
/// with the same tables. All rows stay, and no record has requisites under a condition until it is published again. The
/// connection isn't in a transaction.
///
/// # Errors
///
/// [`StoreFault::Version`] if the tables are of another version than 1. [`StoreFault::Shape`] if one of them or of
/// their columns is missing, or if there is a table of requisites under a condition already. `Memory` or `Size` if
/// memory or room ran out. Each of these leaves the file as it was, unless the device failed too and memory was too
/// short to see it. `Device` if the device failed, or if the tables are somebody else's and their own rules refuse the
/// change: then a stop may have left either.
#[tactic(auto, using(crate::proofs::OpenFacts::conditions_to_make))]
pub fn migrate<S: Alter>(conn: &mut Connection<S>) -> Result<(), StoreFault>
    requires rest { conn.old.in_transaction ≡ false }
    ensures is_open { OnOk result (HasCleanDisk (state S.Store conn.new)
        → IsTrue (state S.Store conn.new).is_open) }
    ensures version { OnOk result (HasCleanDisk (state S.Store conn.new)
        → HasVersion (Some 1) (state S.Store conn.old).committed) }
    ensures found { OnOk result (HasCleanDisk (state S.Store conn.new)
        → HasTables (state S.Store conn.old).committed.schema
        × CanMakeConditions (state S.Store conn.old).committed.schema) }
    ensures ours { OnOk result (HasCleanDisk (state S.Store conn.new)
        → IsOfVersion1 (state S.Store conn.old).committed → IsOurs (state S.Store conn.new).committed) }
    ensures tables { OnOk result (HasCleanDisk (state S.Store conn.new)
        → IsOfVersion1 (state S.Store conn.old).committed
        → tables_of (held_by (state S.Store conn.new).committed)
        ≡ tables_of (held_by_version_1 (state S.Store conn.old).committed)) }
    ensures cause { IfErr result (λ fault. HasCleanDisk (state S.Store conn.new)
        → IsNotEarlier (state S.Store conn.old) (state S.Store conn.new) fault) }
    ensures refused { OnErr result (HasCleanDisk (state S.Store conn.new)
        → KeepsCommit (state S.Store conn.old) (state S.Store conn.new)) }
    ensures untouched { IfErr result (λ fault.
        LeavesUntouched (state S.Store conn.old) (state S.Store conn.new) fault) }
    ensures survives { Survives (state S.Store conn.old) (state S.Store conn.new)
        (AreMigrated (state S.Store conn.old)) }
    ensures mode { conn.new.in_transaction ≡ false }
    ensures rests { IsAtRest (state S.Store conn.new) }
{
    holds(conn, 1, create::sysmod_cond())?;
    match migrated(conn) {
        Ok(()) => Ok(()),
        Err(error) => Err(refusal(conn, error)),
    }
}
