//! Giving a store other callers.
ghost use Rattle.std.specs.Prelude.{◌≡◌, [], fold};
ghost use Rattle.sql_tables.specs.Changes.{with_callers, without_caller};
ghost use Rattle.sql_tables.specs.Stored.{caller_table};
ghost use Rattle.sql_writes.specs.Altering.{Alters};

use crate::{delete, insert};
use bureau_store::CallerRow;
use mcs_reader::Id;
use sql_rows::{Heads, LastChanges, Received, ZoneRows};
use sqlite::{Alter, Error, Transaction};

/// Deletes all that the caller of this name has: its last change, its zones and its received list.
fn leave_nothing<S: Alter>(tx: &mut Transaction<'_, S>, name: &Id) -> Result<(), Error>
    ensures same { tx.new.conn.ghost_name ≡ tx.old.conn.ghost_name }
    ensures changes { Alters S.Store tx.old.conn.now tx.new.conn.now result
        (λ stored. without_caller stored name.now) }
{
    delete::rows_of::<Id, LastChanges, S>(tx, name)?;
    delete::any_of::<Id, Heads, S>(tx, name)?;
    delete::any_of::<Id, ZoneRows, S>(tx, name)?;
    delete::rows_of::<Id, Received, S>(tx, name)
}

/// Deletes all callers, and all that the callers of these names have.
fn remove_callers<S: Alter>(tx: &mut Transaction<'_, S>, names: &[Id]) -> Result<(), Error>
    ensures same { tx.new.conn.ghost_name ≡ tx.old.conn.ghost_name }
    ensures changes { Alters S.Store tx.old.conn.now tx.new.conn.now result
        (λ stored. caller_table.with_rows [] (fold without_caller stored names.now)) }
{
    delete::callers(tx)?;
    for name in names {
        leave_nothing(tx, name)?;
    }
    Ok(())
}

/// Deletes all that the callers of these names have. Then makes these the callers, and no others.
pub fn set_callers<S: Alter>(
    tx: &mut Transaction<'_, S>,
    names: &[Id],
    callers: &[CallerRow],
) -> Result<(), Error>
    ensures same { tx.new.conn.ghost_name ≡ tx.old.conn.ghost_name }
    ensures changes { Alters S.Store tx.old.conn.now tx.new.conn.now result
        (with_callers names.now callers.now) }
{
    remove_callers(tx, names)?;
    for caller in callers {
        insert::caller(tx, caller)?;
    }
    Ok(())
}
