//! Laws on the rows that the bureau writes, and on every connection, whatever its rows are.
ghost use Rattle.std.specs.Prelude.{◌≡◌, IsTrue, false};
ghost use Rattle.sqlite.specs.Effect.{IsDatabase};
ghost use Rattle.sqlite.specs.Held.{state};
ghost use Rattle.sqlite_value.specs.Order.{Row};
ghost use Rattle.sql_checks.specs.Kept.{KeepTo, KeepsTo};
ghost use Rattle.sql_checks.specs.Written.{IsWritten};
ghost use Rattle.sql_checks.specs.declared.table.StoreTable.{StoreTable};
ghost use Rattle.sql_checks.specs.declared.table.StoreTable.TheVariants.{SysmodSup, SysmodCond, HoldRow, ZoneRow};
ghost use Rattle.sql_tables.specs.Stored.{Stored};
ghost use Rattle.sql_tables.specs.Whole.{IsWhole};

use sqlite::{Alter, Connection};

/// The committed rows obey the rules of their own tables.
pub fn sound<S: Alter>(conn: &Connection<S>)
    requires { conn.now.in_transaction ≡ false }
    ensures { IsTrue (state S.Store conn.now).is_open → IsDatabase (state S.Store conn.now).committed }
{
    let _settled = conn.is_autocommit();
    let _schema = conn.schema();
}

/// A check takes each row that the bureau writes.
#[tactic(auto, using(crate::proofs::WrittenFacts::written_keep))]
pub fn written_keep()
    ensures { (table : StoreTable) (row : Row) → IsWritten table row → KeepsTo table row }
{}

/// A check takes all rows of these tables of the bureau's own store.
pub fn ours_keep()
    ensures { (stored : Stored) → IsWhole stored
        → KeepTo SysmodSup stored × KeepTo SysmodCond stored × KeepTo HoldRow stored × KeepTo ZoneRow stored }
{}
