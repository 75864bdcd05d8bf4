//! The read of a client's zones, each with the number of its rows.
ghost use Rattle.std.specs.Prelude.{◌≡◌, ◌↔◌, ℕ, List, false, length, map, Some, IfOk, IsErrOf, IsTrue};
ghost use Rattle.bureau_store.specs.Tables.{NamesAscend};
ghost use Rattle.sqlite.specs.Held.{state};
ghost use Rattle.sqlite_value.specs.Order as order;
ghost use Rattle.sql_reads.specs.ZoneCounts.{zone_counted};
ghost use Rattle.sql_tables.specs.Reading.{Finds};
ghost use Rattle.sql_tables.specs.Stored.{tables_of};
ghost use Rattle.sql_tables.specs.Values as value;

use crate::ReadFault;
use crate::entry::{Entry, Ordered, are_ascending, each, entries};
use crate::rows::rows_of;
use mcs_reader::Id;
use sql_rows::id_of;
use sql_tables::{NoMemory, id_row_in};
use sql_texts::read;
use sqlite::types::ValueRef;
use sqlite::{Alter, Connection, Row};
use std::alloc::Global;

/// Reads the names of a client's zones, in order, each with the number of its rows. It goes through all
/// of these rows.
///
/// # Errors
///
/// Those of [`ReadFault`].
pub fn zones<S: Alter>(
    alloc: Global,
    conn: &mut Connection<S>,
    client: &Id,
) -> Result<Vec<(Id, u64)>, ReadFault>
    requires rest { conn.old.in_transaction ≡ false }
    ensures mode { conn.new.in_transaction ≡ false }
    ensures finds { Finds (state S.Store conn.old) (state S.Store conn.new) result
        (λ stored zones. zones.items
        ≡ map (λ zone. (zone.0, length zone.1.rows)) ((tables_of stored).zones client.now)) }
    ensures ascend { IfOk result (λ zones. NamesAscend (map (λ zone. zone.0) zones.items)) }
{
    let params = [id_of(client)];
    let rows = rows_of(conn, read::zones(), &params)?;
    entries(alloc, rows.as_slice())
}

impl Ordered for (Id, u64) {
    ghost use Rattle.catalogue.specs.Ids.{id_cmp};
    ghost use Rattle.catalogue.proofs.IdFacts.{ids_total};
    ghost use Rattle.std.proofs.lemmas.Cmp.{on_total};
    ghost use Rattle.sql_reads.specs.Orders.{ascends_by};

    ghost cmp = { λ zone next. id_cmp zone.0 next.0 };

    ghost ascend = { λ zones. NamesAscend (map (λ zone. zone.0) zones) };

    fn is_below(&self, next: &(Id, u64)) -> bool {
        self.0.cmp(&next.0).is_lt()
    }

    ghost total = { on_total (λ zone. zone.0) ids_total };

    ghost ascends = { ascends_by id_cmp (λ zone. zone.0) };
}

impl Entry for (Id, u64) {
    ghost found = { zone_counted };

    fn in_row(_alloc: Global, row: &Row) -> Result<Option<(Id, u64)>, NoMemory> {
        Ok(zone_in(row))
    }
}

/// Reads the zone of each row, with the number of its rows.
///
/// # Errors
///
/// `Device` if a row has no zone; `Memory` if memory ran out.
pub fn each_zone(alloc: Global, rows: &[Row]) -> Result<Vec<(Id, u64)>, ReadFault>
    ensures said { IfOk result (λ zones. map Some zones.items ≡ map zone_counted rows.now) }
    ensures unsaid { IsErrOf result ReadFault.Device → (zones : List (List ℕ × ℕ))
        → map Some zones ≡ map zone_counted rows.now → ⊥ }
{
    each(alloc, rows)
}

// A zone with the number of its rows. The greatest number that the database can count is none, since
// there may be more.
fn zone_in(row: &Row) -> Option<(Id, u64)>
    ensures { result ≡ zone_counted row.now }
{
    let name = id_row_in(row)?;
    let count = second_number(row)?;
    if count >= 9_223_372_036_854_775_807 {
        return None;
    }
    Some((name, count))
}

// The number in the second column.
fn second_number(row: &Row) -> Option<u64>
    ensures { result ≡ value.number_in (order.column row.now 1) }
{
    match row.get_ref(1).unwrap_or(ValueRef::Null) {
        ValueRef::Int(number) => u64::try_from(number).ok(),
        _ => None,
    }
}

/// Whether the names of zones ascend, each once.
pub fn names_ascend(zones: &[(Id, u64)]) -> bool
    ensures { IsTrue result ↔ NamesAscend (map (λ zone. zone.0) zones.now) }
{
    are_ascending(zones)
}
