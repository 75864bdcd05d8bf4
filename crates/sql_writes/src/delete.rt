//! Deleting rows, by one statement each. Rows that aren't there are no fault.
ghost use Rattle.std.specs.Prelude.{◌≡◌, [], IfOk, fold};
ghost use Rattle.catalogue.specs.declared.change.Change.TheVariants.{Whole};
ghost use Rattle.sql_tables.specs.Changes.{going, is_under};
ghost use Rattle.sql_tables.specs.Stored.{caller_table, hold_table, is_of, of_table, sup_table, sysmod_table};
ghost use Rattle.sql_writes.specs.Altering.{Alters, TakesRoom};
ghost use Rattle.sql_writes.specs.Asking.{Asks, FindsAny};
ghost use Rattle.sql_writes.specs.Records.{record_gone};

use crate::run::run;
use crate::table::{self, Asked, Deletes};
use catalogue::{Change, Sysmod};
use holddata::HoldKey;
use mcs_reader::Id;
use sql_rows::{Key, Sups, Sysmods, id_of};
use sql_tables::hold_kind_value;
use sqlite::{Alter, Error, Transaction};

/// Whether a key has rows.
pub(crate) fn has_rows_of<K: Key, T: Asked<K>, S: Alter>(
    tx: &mut Transaction<'_, S>,
    key: &K,
) -> Result<bool, Error>
    ensures same { tx.new.conn.ghost_name ≡ tx.old.conn.ghost_name }
    ensures asks { Asks S.Store tx.old.conn.now tx.new.conn.now result }
    ensures found { IfOk result (FindsAny S.Store tx.old.conn.now tx.new.conn.now T.rows (K.has key.now)) }
{
    let params = key.params();
    let rows = tx.query_all(<T as Asked<K>>::question(), &params[..K::count()])?;
    let found = rows.as_slice();
    Ok(!found.is_empty())
}

/// Deletes the rows of a key, by the statement that deletes.
pub(crate) fn any_of<K: Key, T: Deletes<K>, S: Alter>(
    tx: &mut Transaction<'_, S>,
    key: &K,
) -> Result<(), Error>
    ensures same { tx.new.conn.ghost_name ≡ tx.old.conn.ghost_name }
    ensures changes { Alters S.Store tx.old.conn.now tx.new.conn.now result
        (going (of_table T.rows T.with_rows) (K.has key.now)) }
    ensures takes { TakesRoom S.Store tx.old.conn.now tx.new.conn.now result 0 (λ stored. Unit {0}) }
{
    let params = key.params();
    run(tx, <T as Deletes<K>>::deletion(), &params[..K::count()])
}

/// Deletes the rows of a key, if a read finds any. If there mostly are none, the read is faster than a
/// statement that deletes.
pub(crate) fn rows_of<K: Key, T: Asked<K>, S: Alter>(
    tx: &mut Transaction<'_, S>,
    key: &K,
) -> Result<(), Error>
    ensures same { tx.new.conn.ghost_name ≡ tx.old.conn.ghost_name }
    ensures changes { Alters S.Store tx.old.conn.now tx.new.conn.now result
        (going (of_table T.rows T.with_rows) (K.has key.now)) }
    ensures takes { TakesRoom S.Store tx.old.conn.now tx.new.conn.now result 0 (λ stored. Unit {0}) }
{
    if has_rows_of::<K, T, S>(tx, key)? {
        return any_of::<K, T, S>(tx, key);
    }
    Ok(())
}

/// Deletes the row of a record, and those of the ids that it supersedes.
fn record<S: Alter>(tx: &mut Transaction<'_, S>, id: &Id) -> Result<(), Error>
    ensures same { tx.new.conn.ghost_name ≡ tx.old.conn.ghost_name }
    ensures changes { Alters S.Store tx.old.conn.now tx.new.conn.now result
        (λ stored. going sup_table (is_of id.now) (going sysmod_table (is_of id.now) stored)) }
    ensures takes { TakesRoom S.Store tx.old.conn.now tx.new.conn.now result 0 (λ stored. Unit {0}) }
{
    rows_of::<Id, Sysmods, S>(tx, id)?;
    rows_of::<Id, Sups, S>(tx, id)
}

/// Deletes the rows of this record and of those that come with it, and those of the ids that they supersede.
pub(crate) fn records<S: Alter>(
    tx: &mut Transaction<'_, S>,
    first: &Sysmod,
    changes: &[Change],
) -> Result<(), Error>
    ensures same { tx.new.conn.ghost_name ≡ tx.old.conn.ghost_name }
    ensures changes { Alters S.Store tx.old.conn.now tx.new.conn.now result
        (λ stored. fold record_gone (record_gone stored (Whole first.now)) changes.now) }
    ensures takes { TakesRoom S.Store tx.old.conn.now tx.new.conn.now result 0 (λ stored. Unit {0}) }
{
    record(tx, &first.id)?;
    for change in changes {
        match change {
            Change::Whole(sysmod) => record(tx, &sysmod.id)?,
            Change::OfHold(_) => {}
        }
    }
    Ok(())
}

/// Deletes all callers.
pub(crate) fn callers<S: Alter>(tx: &mut Transaction<'_, S>) -> Result<(), Error>
    ensures same { tx.new.conn.ghost_name ≡ tx.old.conn.ghost_name }
    ensures changes { Alters S.Store tx.old.conn.now tx.new.conn.now result (caller_table.with_rows []) }
{
    run(tx, table::caller::deletion(), &[])
}

/// Deletes the hold with this key.
pub(crate) fn hold<S: Alter>(tx: &mut Transaction<'_, S>, key: &HoldKey) -> Result<(), Error>
    ensures same { tx.new.conn.ghost_name ≡ tx.old.conn.ghost_name }
    ensures changes { Alters S.Store tx.old.conn.now tx.new.conn.now result
        (going hold_table (is_under key.now)) }
    ensures takes { TakesRoom S.Store tx.old.conn.now tx.new.conn.now result 0 (λ stored. Unit {0}) }
{
    let params = [
        id_of(&key.sysmod),
        hold_kind_value(key.kind),
        id_of(&key.reason),
    ];
    run(tx, table::hold_row::deletion(), &params)
}
