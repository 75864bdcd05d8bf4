//! Checking the rows of all tables.
ghost use Rattle.std.specs.Prelude.{◌≡◌, ◌↔◌, IfErr, IsTrue, Some, false};
ghost use Rattle.sqlite.specs.Held.{state};
ghost use Rattle.sqlite.specs.State.{HasCleanDisk};
ghost use Rattle.sql_checks.specs.Checked.{Looks, TellsVersion2, WrongIn};
ghost use Rattle.sql_checks.specs.Refused.{AreUnseen, IsCausedBy, IsUnshown, of_version};
ghost use Rattle.sql_tables.specs.Ours.{held_by};
ghost use Rattle.sql_reads.specs.Version.{version_in};

use crate::table::StoreTable;
use sql_reads::{ReadFault, rows_of};
use sql_tables::count_in;
use sql_texts::read;
use sqlite::{Alter, Connection, Row};
use std::alloc::Global;

// Whether the one row of the version has 2.
pub(crate) fn is_version_2<S: Alter>(conn: &mut Connection<S>) -> Result<bool, ReadFault>
    requires rest { conn.old.in_transaction ≡ false }
    ensures mode { conn.new.in_transaction ≡ false }
    ensures looks { Looks (state S.Store conn.old) (state S.Store conn.new) result
        (λ database is. IsTrue is ↔ TellsVersion2 database) }
    ensures cause { IfErr result (λ fault. fault ≡ ReadFault.Device → HasCleanDisk (state S.Store conn.new)
        → IsCausedBy (IsUnshown of_version) (state S.Store conn.old) (state S.Store conn.new)) }
{
    match rows_of(conn, read::version(), &[]) {
        Ok(rows) => Ok(is_2(rows.as_slice())),
        Err(fault) => Err(fault),
    }
}

fn is_2(rows: &[Row]) -> bool
    ensures { IsTrue result ↔ (version_in rows.now ≡ Some 2) }
{
    match rows {
        [row] => count_in(row) == Some(2),
        _ => false,
    }
}

/// The first of these tables with a row that the bureau doesn't write, if there is one.
///
/// # Errors
///
/// Those of [`ReadFault`].
pub(crate) fn wrong_among<S: Alter>(
    alloc: Global,
    conn: &mut Connection<S>,
    tables: &[StoreTable],
) -> Result<Option<StoreTable>, ReadFault>
    requires rest { conn.old.in_transaction ≡ false }
    ensures mode { conn.new.in_transaction ≡ false }
    ensures looks { Looks (state S.Store conn.old) (state S.Store conn.new) result
        (λ database found. WrongIn tables.now (held_by database) found) }
    ensures cause { IfErr result (λ fault. fault ≡ ReadFault.Device → HasCleanDisk (state S.Store conn.new)
        → IsCausedBy AreUnseen (state S.Store conn.old) (state S.Store conn.new)) }
{
    match tables.split_first() {
        None => Ok(None),
        Some((table, tables)) => match table.rows_keep(alloc, conn) {
            Ok(true) => wrong_among(alloc, conn, tables),
            Ok(false) => Ok(Some(*table)),
            Err(fault) => Err(fault),
        },
    }
}
