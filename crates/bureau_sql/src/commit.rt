//! The beginning and the end of each change. Only here is a change committed.
ghost use Rattle.std.specs.Prelude.{◌≡◌, IfErr, IsOk, IsTrue, OnErr, OnOk, false, true};
ghost use Rattle.sqlite.specs.Held.{state};
ghost use Rattle.sqlite.specs.State.{HasCleanDisk, KeepsCommit, Shows, Survives};
ghost use Rattle.bureau_sql.specs.Failing.{FailsToEnd};

use sqlite::{Connection, Error, Transaction};
use sqlite_trees::store::Alter;

/// Begins a transaction, which sees what is committed.
pub(crate) fn begin<S: Alter>(conn: &mut Connection<S>) -> Transaction<'_, S>
    requires { conn.old.in_transaction ≡ false }
    ensures same_reference { result.conn.ghost_name ≡ conn.entry.ghost_name }
    ensures begun { result.conn.now ≡ record conn.old { in_transaction = true } }
    ensures settled { IsTrue (state S.Store conn.old).is_open
        → (state S.Store conn.old).now ≡ (state S.Store conn.old).committed }
{
    let _settled = conn.is_autocommit();
    conn.transaction()
}

/// Commits what was written. If some of it wasn't, nothing is committed.
pub(crate) fn end<S: Alter>(tx: Transaction<'_, S>, written: Result<(), Error>) -> Result<(), Error>
    ensures ended { tx.exit.0.now.in_transaction ≡ false }
    ensures written { OnOk result (IsOk written × (HasCleanDisk (state S.Store tx.exit.0.now)
        → Shows (state S.Store tx.entry.conn.now) (state S.Store tx.exit.0.now)
        (state S.Store tx.entry.conn.now).now (state S.Store tx.entry.conn.now).now false)) }
    ensures refused { OnErr result (HasCleanDisk (state S.Store tx.exit.0.now)
        → KeepsCommit (state S.Store tx.entry.conn.now) (state S.Store tx.exit.0.now)) }
    ensures fails { IfErr result (λ error. HasCleanDisk (state S.Store tx.exit.0.now)
        → FailsToEnd written (state S.Store tx.entry.conn.now) (state S.Store tx.exit.0.now) error) }
    ensures survives { Survives (state S.Store tx.entry.conn.now) (state S.Store tx.exit.0.now)
        (λ trees. IsOk written × (trees ≡ (state S.Store tx.entry.conn.now).now.trees)) }
{
    written?;
    tx.commit()
}
