//! Checking the rows of a table.
ghost use Rattle.std.specs.Prelude.{◌≡◌, ◌↔◌, false, IfErr, IfOk, IsTrue};
ghost use Rattle.std.specs.List.{AllByRecursion};
ghost use Rattle.sqlite.specs.Held.{state};
ghost use Rattle.sql_checks.specs.Known.{known_by};
ghost use Rattle.sql_checks.specs.Looked.{IsLooked};

use crate::checked::Checked;
use sql_reads::{ReadFault, rows_of};
use sqlite::{Alter, Connection, Row};
use std::alloc::Global;

/// Whether the bureau writes such rows as all rows of a table are.
///
/// # Errors
///
/// Those of [`ReadFault`].
pub(crate) fn rows_keep<T: Checked, S: Alter>(
    alloc: Global,
    conn: &mut Connection<S>,
) -> Result<bool, ReadFault>
    requires rest { conn.old.in_transaction ≡ false }
    ensures mode { conn.new.in_transaction ≡ false }
    ensures looked { IsLooked (known_by T.table T.rows T.keeps_to)
        (state S.Store conn.old) (state S.Store conn.new) result }
{
    match rows_of(conn, T::all_columns(), &[]) {
        Ok(rows) => all_keep::<T>(alloc, rows.as_slice()),
        Err(fault) => Err(fault),
    }
}

// Whether all of these rows are such.
fn all_keep<T: Checked>(alloc: Global, rows: &[Row]) -> Result<bool, ReadFault>
    ensures keep { IfOk result (λ keep. IsTrue keep ↔ AllByRecursion T.keeps_to rows.now) }
    ensures memory { IfErr result (λ fault. fault ≡ ReadFault.Memory) }
{
    for row in rows {
        if !T::keeps(alloc, row)? {
            return Ok(false);
        }
    }
    Ok(true)
}
