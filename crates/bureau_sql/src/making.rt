//! Making a store on a connection.
ghost use Rattle.std.specs.Prelude.{◌≡◌, ◌↔◌, IfErr, IsTrue, OnErr, OnOk, false, true};
ghost use Rattle.bureau_store.specs.Tables.{opened};
ghost use Rattle.sqlite.specs.Held.{state};
ghost use Rattle.sqlite.specs.State.{HasCleanDisk, KeepsCommit, Survives};
ghost use Rattle.sql_tables.specs.Ours.{IsOurs, held_by};
ghost use Rattle.sql_tables.specs.Stored.{tables_of};
ghost use Rattle.sql_writes.specs.Making.{AreFit, IsEmpty, IsOpened};
ghost use Rattle.bureau_sql.specs.Failing.{RefusesExcused};
ghost use Rattle.bureau_sql.specs.Founded.{AreFounded, FailsToFound, IsLed, IsNotMade};
ghost use Rattle.bureau_sql.specs.SqlView.{IsAtRest};

use crate::commit::{begin, end};
use crate::fit;
use crate::store::refusal_of;
use bureau_store::{CallerRow, StoreFault};
use sqlite::{Connection, Error};
use sqlite_trees::store::Alter;

// Whether the database has no table, no index and no view.
fn is_empty<S: Alter>(conn: &Connection<S>) -> bool
    requires rest { conn.now.in_transaction ≡ false }
    ensures { IsTrue (state S.Store conn.now).is_open
        → (result ≡ true) ↔ IsEmpty (state S.Store conn.now).committed }
{
    let _settled = conn.is_autocommit();
    let schema = conn.schema();
    schema.tables.is_empty() && schema.indexes.is_empty() && schema.views.is_empty()
}

// Makes the tables with the callers' rows, in one transaction.
fn found<S: Alter>(conn: &mut Connection<S>, callers: &[CallerRow]) -> Result<(), Error>
    requires rest { conn.old.in_transaction ≡ false }
    ensures mode { conn.new.in_transaction ≡ false }
    ensures led { IsLed (state S.Store conn.old) (state S.Store conn.new) result IsEmpty
        (IsOpened callers.now) }
    ensures excused { AreFit callers.now
        → RefusesExcused (state S.Store conn.old) (state S.Store conn.new) result IsEmpty }
{
    let mut tx = begin(conn);
    let written = sql_writes::create(&mut tx, callers);
    end(tx, written)
}

/// Makes a store with these callers, and empty otherwise, in an empty database. All is made in one transaction: a stop
/// leaves what was there, or the store. The connection isn't in a transaction.
///
/// # Errors
///
/// [`StoreFault::Shape`] if a table, an index or a view is there already; `Memory`, `Size` or `Device` if memory or
/// room ran out or the device failed. `Device` also if two callers have one name or one token. Nothing is committed
/// then.
pub fn init<S: Alter>(conn: &mut Connection<S>, callers: &[CallerRow]) -> Result<(), StoreFault>
    requires rest { conn.old.in_transaction ≡ false }
    ensures opened { OnOk result (HasCleanDisk (state S.Store conn.new)
        → IsTrue (state S.Store conn.new).is_open
        × IsEmpty (state S.Store conn.old).committed
        × IsOpened callers.now (state S.Store conn.new).committed) }
    ensures ours { OnOk result (HasCleanDisk (state S.Store conn.new)
        → IsOurs (state S.Store conn.new).committed) }
    ensures tables { OnOk result (HasCleanDisk (state S.Store conn.new)
        → tables_of (held_by (state S.Store conn.new).committed) ≡ opened callers.now) }
    ensures cause { IfErr result (IsNotMade (state S.Store conn.old)) }
    ensures failed { IfErr result (λ fault. HasCleanDisk (state S.Store conn.new)
        → FailsToFound (state S.Store conn.old) (state S.Store conn.new) callers.now fault) }
    ensures refused { OnErr result (HasCleanDisk (state S.Store conn.new)
        → KeepsCommit (state S.Store conn.old) (state S.Store conn.new)) }
    ensures survives { Survives (state S.Store conn.old) (state S.Store conn.new)
        (AreFounded (state S.Store conn.old) callers.now) }
    ensures mode { conn.new.in_transaction ≡ false }
    ensures rests { IsAtRest (state S.Store conn.new) }
{
    if !is_empty(conn) {
        return Err(StoreFault::Shape);
    }
    // It does nothing. Its contract tells the proof that the types of the callers make them fit to be written.
    fit::callers(callers);
    let made = found(conn, callers);
    let _settled = conn.is_autocommit();
    match made {
        Ok(()) => Ok(()),
        Err(error) => Err(refusal_of(error)),
    }
}
