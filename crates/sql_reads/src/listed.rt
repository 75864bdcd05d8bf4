//! The read of a list: all rows of a key, in ascending order.
ghost use Rattle.std.specs.Prelude.{◌≡◌, List, Some, false, filter, map, IfOk, IfSome};
ghost use Rattle.std.specs.List.{filter_map};
ghost use Rattle.std.specs.List.Sorted.{IsPermutation};
ghost use Rattle.sqlite.specs.Held.{state};
ghost use Rattle.sql_tables.specs.Reading.{Finds};
ghost use Rattle.sql_tables.specs.Stored.{Stored, shown as show};
ghost use Rattle.sql_tables.specs.Whole.{IsWhole};

use crate::ReadFault;
use crate::entry::{Entry, each};
use crate::selection::{Selection, select};
use sql_rows::Key;
use sqlite::{Alter, Connection, Row};
use std::alloc::Global;

/// A selection whose rows each have a meaning.
pub(crate) trait Listed<K: Key>: Selection<K> {
    /// The meaning of a row.
    type Item: Entry + Drop;

    /// A list of these.
    type List: Drop;

    /// The entries of a list.
    ghost items: { Self.List → List Self.Item };

    /// The list that the store has of a key.
    ghost tells: { K → Stored → List Self.Item → Type 0 };

    /// The list of these, if they ascend, each once.
    fn in_order(all: Vec<Self::Item>) -> Option<Self::List>
        ensures same { IfSome result (λ list. Self.items list ≡ all.items) }
        ensures ascend { IfSome result (λ list. Self.Item.ascend (Self.items list)) };

    /// The meaning of a key's rows, in ascending order, is the list that the store has of the key.
    ghost told: { (key : K) (stored : Stored) → IsWhole stored
        → (items : List Self.Item) → Self.Item.ascend items
        → IsPermutation (filter_map (λ row. Self.Item.found (show Self.shown row))
        (filter (K.has key) (Self.rows stored))) items
        → tells key stored items };
}

/// The list of the meaning of rows.
pub(crate) fn list_of<K: Key, T: Listed<K>>(
    alloc: Global,
    rows: &[Row],
) -> Result<T::List, ReadFault>
    ensures items { IfOk result (λ list. map Some (T.items list) ≡ map T.Item.found rows.now) }
    ensures ascend { IfOk result (λ list. T.Item.ascend (T.items list)) }
{
    let items = each::<T::Item>(alloc, rows)?;
    <T as Listed<K>>::in_order(items).ok_or(ReadFault::Device)
}

/// Reads the list of a key.
///
/// # Errors
///
/// Those of [`ReadFault`].
pub(crate) fn read_list<K: Key, T: Listed<K>, S: Alter>(
    alloc: Global,
    conn: &mut Connection<S>,
    key: &K,
) -> Result<T::List, ReadFault>
    requires rest { conn.old.in_transaction ≡ false }
    ensures mode { conn.new.in_transaction ≡ false }
    ensures finds { Finds (state S.Store conn.old) (state S.Store conn.new) result
        (λ stored list. T.tells key.now stored (T.items list)) }
    ensures ascend { IfOk result (λ list. T.Item.ascend (T.items list)) }
{
    let rows = select::<K, T, S>(conn, key)?;
    list_of::<K, T>(alloc, rows.as_slice())
}
