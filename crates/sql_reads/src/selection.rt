//! The read of a table by a key.
ghost use Rattle.std.specs.Prelude.{◌≡◌, ℕ, List, false, filter, map, suc};
ghost use Rattle.std.specs.List.Sorted.{IsPermutation};
ghost use Rattle.sqlite.specs.Held.{state};
ghost use Rattle.sql_tables.specs.Reading.{Finds};
ghost use Rattle.sql_tables.specs.Stored.{shown as show};
ghost use Rattle.sql_texts.specs.Meaning.{Reads};
ghost use Rattle.sql_texts.specs.Reads.{from_table};
ghost use Rattle.sql_texts.specs.Schema.{bureau};

use crate::ReadFault;
use crate::rows::rows_of;
use sql_rows::{Key, Table};
use sqlite::{Alter, Connection, Row};

/// A table whose rows are read by a key: the text, and what it shows.
pub(crate) trait Selection<K: Key>: Table {
    /// The columns that it shows, from 0 on.
    ghost shown: { List ℕ };

    /// Their names.
    ghost names: { List (List ℕ) };

    /// The columns by which it is ordered, from 1 on.
    ghost order: { List ℕ };

    /// The text.
    fn text() -> &'static str
        ensures { Reads bureau result.now
            (from_table Self.table.tree K.tests (map suc shown) order) names K.parameters };
}

/// Reads the rows of a key, with the columns that are shown.
///
/// # Errors
///
/// Those of [`ReadFault`].
pub(crate) fn select<K: Key, T: Selection<K>, S: Alter>(
    conn: &mut Connection<S>,
    key: &K,
) -> Result<Vec<Row>, ReadFault>
    requires rest { conn.old.in_transaction ≡ false }
    ensures mode { conn.new.in_transaction ≡ false }
    ensures finds { Finds (state S.Store conn.old) (state S.Store conn.new) result (λ stored rows.
        IsPermutation (map (show T.shown) (filter (K.has key.now) (T.rows stored))) rows.items) }
{
    let params = key.params();
    rows_of(conn, <T as Selection<K>>::text(), &params[..K::count()])
}
