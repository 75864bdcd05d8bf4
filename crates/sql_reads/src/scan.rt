//! The rows of many SYSMODs, read at once from a table.
ghost use Rattle.std.specs.Prelude.{◌≡◌, ℕ, List, false, IfOk};
ghost use Rattle.sqlite.specs.Held.{state};
ghost use Rattle.sqlite_value.specs.Order.{Row as Values, column};
ghost use Rattle.sql_tables.specs.Reading.{Finds};
ghost use Rattle.sql_tables.specs.Stored.{shown as show};
ghost use Rattle.sql_texts.specs.Meaning.{Reads};
ghost use Rattle.sql_texts.specs.Schema.{bureau};
ghost use Rattle.sql_reads.specs.Runs.{IsRun};
ghost use Rattle.sql_reads.specs.Scans.{HaveEach, KeysRise, scan_of};

use crate::ReadFault;
use crate::cut::keys_rise;
use crate::rows::rows_of;
use mcs_reader::Id;
use sql_rows::{Table, id_of};
use sqlite::{Alter, Connection, Row};

/// A table whose rows each belong to a SYSMOD, and the text that reads the rows of many SYSMODs at once, in the order
/// of these. The text begins with the columns that a read of one SYSMOD shows.
pub(crate) trait Scanned: Table {
    /// The columns that it shows, from 0 on.
    ghost scan_shown: { List ℕ };

    /// Their names.
    ghost scan_names: { List (List ℕ) };

    /// The columns by which it is ordered, from 1 on.
    ghost scan_order: { List ℕ };

    /// The index of the SYSMOD among the columns that are shown.
    ghost at: { ℕ };

    /// The text that reads the rows of the SYSMODs from ?1 to ?2.
    fn scan_text() -> &'static str
        ensures { Reads bureau result.now (scan_of Self.table.tree scan_shown scan_order) scan_names 2 };

    /// The index of the SYSMOD among the columns that are shown.
    fn place() -> usize
        ensures { result ≡ at };

    /// The SYSMOD is the first column of the table.
    ghost placed: { (row : Values) → column (show scan_shown row) at ≡ column row 0 };
}

/// Reads the rows of some SYSMODs that ascend, in the order of these. The rows of the SYSMODs between them are there
/// too.
pub(crate) fn scan<T: Scanned, S: Alter>(
    conn: &mut Connection<S>,
    ids: &[Id],
) -> Result<Vec<Row>, ReadFault>
    requires rest { conn.old.in_transaction ≡ false }
    requires run { IsRun ids.now }
    ensures mode { conn.new.in_transaction ≡ false }
    ensures finds { Finds (state S.Store conn.old) (state S.Store conn.new) result (λ stored rows.
        HaveEach T.scan_shown T.at (T.rows stored) ids.now rows.items) }
{
    let params = [id_of(&ids[0]), id_of(&ids[ids.len() - 1])];
    let rows = rows_of(conn, T::scan_text(), &params)?;
    in_order(rows, T::place())
}

// The same rows, if no key is above the next one.
fn in_order(rows: Vec<Row>, place: usize) -> Result<Vec<Row>, ReadFault>
    ensures rows { IfOk result (λ same. same.items ≡ rows.items) }
    ensures rise { IfOk result (λ same. KeysRise place same.items) }
{
    if !keys_rise(rows.as_slice(), place) {
        return Err(ReadFault::Device);
    }
    Ok(rows)
}
