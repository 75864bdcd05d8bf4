//! The rows that a text finds.
ghost use Rattle.std.specs.Prelude.{◌≡◌, false, IfErr};
ghost use Rattle.sqlite.specs.Held.{state};
ghost use Rattle.sqlite.specs.Values.{bound};
ghost use Rattle.sqlite.specs.State.{HasCleanDisk};
ghost use Rattle.sql_reads.specs.Answering.{Answers, IsRead, IsRefusedFor};

use crate::ReadFault;
use sqlite::types::ValueRef;
use sqlite::{Alter, Connection, Row};

/// Reads all rows that a text of the bureau's tables finds, with these parameters.
///
/// # Errors
///
/// Those of [`ReadFault`].
pub fn rows_of<S: Alter>(
    conn: &mut Connection<S>,
    text: &str,
    params: &[ValueRef<'_>],
) -> Result<Vec<Row>, ReadFault>
    requires rest { conn.old.in_transaction ≡ false }
    requires read { IsRead text.now }
    ensures mode { conn.new.in_transaction ≡ false }
    ensures answers { Answers text.now (bound params.now)
        (state S.Store conn.old) (state S.Store conn.new) result }
    ensures cause { IfErr result (λ fault. HasCleanDisk (state S.Store conn.new)
        → IsRefusedFor text.now (bound params.now) (state S.Store conn.old) (state S.Store conn.new) fault) }
{
    let _at_rest = conn.is_autocommit();
    match conn.query_all(text, params) {
        Ok(rows) => Ok(rows),
        Err(error) => Err(ReadFault::from(error)),
    }
}
