//! Whether a connection is open after it refused a call.
ghost use Rattle.std.specs.Prelude.{◌≡◌, ◌≢◌, IfErr, IsTrue, OnOk, false};
ghost use Rattle.sqlite.specs.State.{HasCleanDisk, store_error};
ghost use Rattle.sqlite.specs.declared.error.Error.TheVariants.{InvalidQuery};
ghost use Rattle.sqlite_trees.specs.declared.error.StoreError.TheVariants.{OutOfMemory};
ghost use Rattle.sqlite.specs.Held.{state};
ghost use Rattle.sql_tables.specs.Reading.{HasFailed, OnlyReads};
ghost use Rattle.bureau_store.specs.declared.fault.StoreFault.TheVariants.{Device};
ghost use Rattle.bureau_store.specs.Store.{IsOfRead};

use bureau_store::StoreFault;
use sql_texts::write::rollback;
use sqlite::{Connection, Error, ErrorCode};
use sqlite_trees::store::Alter;

/// Looks whether the connection is open: `Memory` if memory ran out, so that nothing is known, and `Device` if it
/// isn't. Outside a transaction an open one refuses ROLLBACK as a query, and nothing changes.
pub(crate) fn look<S: Alter>(conn: &mut Connection<S>) -> Result<(), StoreFault>
    requires { conn.old.in_transaction ≡ false }
    ensures reads { OnlyReads (state S.Store conn.old) (state S.Store conn.new) }
    ensures open { OnOk result (HasCleanDisk (state S.Store conn.new)
        → IsTrue (state S.Store conn.new).is_open) }
    ensures mode { conn.new.in_transaction ≡ false }
    ensures cause { IfErr result IsOfRead }
    ensures failed { IfErr result (λ fault. HasCleanDisk (state S.Store conn.new) → fault ≡ Device
        → HasFailed (state S.Store conn.old) (state S.Store conn.new)) }
{
    match conn.query_all(rollback(), &[]) {
        Ok(_) => Err(StoreFault::Device),
        Err(error) => heard(error),
    }
}

// The meaning of the refusal of ROLLBACK.
fn heard(error: Error) -> Result<(), StoreFault>
    ensures open { OnOk result (error ≡ InvalidQuery) }
    ensures cause { IfErr result IsOfRead }
    ensures failed { IfErr result (λ fault. fault ≡ Device
        → (error ≢ InvalidQuery) × (error ≢ store_error OutOfMemory)) }
{
    match error {
        Error::InvalidQuery => Ok(()),
        Error::SqliteFailure(ErrorCode::OutOfMemory) => Err(StoreFault::Memory),
        _ => Err(StoreFault::Device),
    }
}
