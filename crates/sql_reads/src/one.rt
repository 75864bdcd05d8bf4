//! The read of a single row, or of none.
ghost use Rattle.std.specs.Prelude.{◌≡◌, [], List, Option, Some, false, filter, is_some, option_and_then, option_map, unwrap_or, IfOk};
ghost use Rattle.sqlite.specs.Held.{state};
ghost use Rattle.sqlite_value.specs.Order.{Row as Values};
ghost use Rattle.sql_reads.specs.Answering.{one_of};
ghost use Rattle.sql_tables.specs.Reading.{Finds};
ghost use Rattle.sql_tables.specs.Stored.{Stored, first, shown as show};
ghost use Rattle.sql_tables.specs.Whole.{IsWhole};

use crate::ReadFault;
use crate::entry::{Ordered, ascending};
use crate::selection::{Selection, select};
use sql_rows::Key;
use sql_tables::NoMemory;
use sqlite::{Alter, Connection, Row};
use std::alloc::Global;

/// A selection that finds at most one row of a key, which has a list. If there is no row, the list is empty.
pub(crate) trait One<K: Key>: Selection<K> {
    /// An entry of the list.
    type Item: Ordered + Drop;

    /// The list, by the columns that are shown.
    ghost found: { Values → Option (List Self.Item) };

    /// The list that the store has of a key.
    ghost tells: { K → Stored → List Self.Item → Type 0 };

    /// The list of a row, or `None` if the row has none.
    fn in_row(alloc: Global, row: &Row) -> Result<Option<Vec<Self::Item>>, NoMemory>
        ensures { IfOk result (λ list. option_map (λ items. items.items) list ≡ found row.now) };

    /// The list of a key's row is the list that the store has of the key.
    ghost told: { (key : K) (stored : Stored) → IsWhole stored → (items : List Self.Item)
        → items ≡ unwrap_or (option_and_then found
        (option_map (show Self.shown) (first (filter (K.has key) (Self.rows stored))))) []
        → tells key stored items };
}

/// The one row, if there is one. More are a fault.
pub(crate) fn only(rows: &[Row]) -> Result<Option<&Row>, ReadFault>
    ensures { IfOk result (λ found. one_of Some rows.now ≡ Some (option_map (λ row. row.now) found)) }
{
    match rows {
        [] => Ok(None),
        [row] => Ok(Some(row)),
        _ => Err(ReadFault::Device),
    }
}

/// Whether there is a row.
pub(crate) fn any(rows: &[Row]) -> bool
    ensures { result ≡ is_some (first rows.now) }
{
    !rows.is_empty()
}

// The list of the row; an empty one if there is no row.
fn said<K: Key, T: One<K>>(alloc: Global, row: Option<&Row>) -> Result<Vec<T::Item>, ReadFault>
    ensures { IfOk result (λ list. list.items
        ≡ unwrap_or (option_and_then T.found (option_map (λ row. row.now) row.entry)) []) }
{
    match row {
        Some(row) => <T as One<K>>::in_row(alloc, row)?.ok_or(ReadFault::Device),
        None => Ok(Vec::new(alloc)),
    }
}

// The same, in ascending order.
fn item<K: Key, T: One<K>>(alloc: Global, row: Option<&Row>) -> Result<Vec<T::Item>, ReadFault>
    ensures says { IfOk result (λ list. list.items
        ≡ unwrap_or (option_and_then T.found (option_map (λ row. row.now) row.entry)) []) }
    ensures ascend { IfOk result (λ list. T.Item.ascend list.items) }
{
    let list = said::<K, T>(alloc, row)?;
    ascending(list).ok_or(ReadFault::Device)
}

// The list of the one of these rows.
fn item_of<K: Key, T: One<K>>(alloc: Global, rows: &[Row]) -> Result<Vec<T::Item>, ReadFault>
    ensures said { IfOk result (λ list. (row : Option Values) × (one_of Some rows.now ≡ Some row)
        × (list.items ≡ unwrap_or (option_and_then T.found row) [])) }
    ensures ascend { IfOk result (λ list. T.Item.ascend list.items) }
{
    let row = only(rows)?;
    item::<K, T>(alloc, row)
}

/// Reads the list of the one row of a key, in ascending order.
///
/// # Errors
///
/// Those of [`ReadFault`].
pub(crate) fn read_one<K: Key, T: One<K>, S: Alter>(
    alloc: Global,
    conn: &mut Connection<S>,
    key: &K,
) -> Result<Vec<T::Item>, ReadFault>
    requires rest { conn.old.in_transaction ≡ false }
    ensures mode { conn.new.in_transaction ≡ false }
    ensures finds { Finds (state S.Store conn.old) (state S.Store conn.new) result
        (λ stored list. T.tells key.now stored list.items) }
    ensures ascend { IfOk result (λ list. T.Item.ascend list.items) }
{
    let rows = select::<K, T, S>(conn, key)?;
    item_of::<K, T>(alloc, rows.as_slice())
}
