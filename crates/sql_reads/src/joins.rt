//! Reads over two tables: superseders that are catalogued, rows of a zone that is there, holds on installed SYSMODs.
ghost use Rattle.std.specs.Prelude.{◌≡◌, false, option_map, IfOk, IfSome};
ghost use Rattle.bureau_store.specs.Held.{held_in};
ghost use Rattle.bureau_store.specs.Tables as tables;
ghost use Rattle.bureau_store.specs.Tables.{zone_named};
ghost use Rattle.catalogue.specs.Content.{superseders};
ghost use Rattle.catalogue.specs.Ids.{Ascend};
ghost use Rattle.holddata.specs.HoldBook.{IsInKeyOrder};
ghost use Rattle.sqlite.specs.Held.{state};
ghost use Rattle.sql_tables.specs.Reading.{Finds};
ghost use Rattle.sql_tables.specs.Stored.{tables_of, zone_rows_of};
ghost use Rattle.zone_lists.specs.ZoneList.{RowsAscend};

use crate::ReadFault;
use crate::entry::entries;
use crate::rows::rows_of;
use crate::table::zone_head::has_zone;
use crate::table::zone_row::zone_rows;
use holddata::{Hold, Kind};
use mcs_reader::Id;
use sql_rows::id_of;
use sql_tables::hold_kind_value;
use sql_texts::read;
use sqlite::{Alter, Connection};
use std::alloc::Global;
use zone_lists::ZoneRow;

/// Reads the catalogued SYSMODs whose SUP names this one, ascending.
///
/// # Errors
///
/// Those of [`ReadFault`].
pub fn superseders<S: Alter>(
    alloc: Global,
    conn: &mut Connection<S>,
    id: &Id,
) -> Result<Vec<Id>, ReadFault>
    requires rest { conn.old.in_transaction ≡ false }
    ensures mode { conn.new.in_transaction ≡ false }
    ensures finds { Finds (state S.Store conn.old) (state S.Store conn.new) result
        (λ stored ids. ids.items ≡ superseders (tables_of stored).content id.now) }
    ensures ascend { IfOk result (λ ids. Ascend ids.items) }
{
    let params = [id_of(id)];
    let rows = rows_of(conn, read::superseders(), &params)?;
    entries(alloc, rows.as_slice())
}

/// Reads the holds of a kind on SYSMODs that are installed in a zone, in the order of their keys.
///
/// # Errors
///
/// Those of [`ReadFault`].
pub fn held_in<S: Alter>(
    alloc: Global,
    conn: &mut Connection<S>,
    client: &Id,
    zone: &Id,
    kind: Kind,
) -> Result<Vec<Hold>, ReadFault>
    requires rest { conn.old.in_transaction ≡ false }
    ensures mode { conn.new.in_transaction ≡ false }
    ensures finds { Finds (state S.Store conn.old) (state S.Store conn.new) result
        (λ stored holds. holds.items
        ≡ held_in (tables_of stored).content
        (tables.rows_of (zone_named zone.now ((tables_of stored).zones client.now))) kind) }
    ensures in_key_order { IfOk result (λ holds. IsInKeyOrder holds.items) }
{
    if !has_zone(conn, client, zone)? {
        return Ok(Vec::new(alloc));
    }
    held_among(alloc, conn, client, zone, kind)
}

// The same by the rows of the zone, whether or not it is there.
fn held_among<S: Alter>(
    alloc: Global,
    conn: &mut Connection<S>,
    client: &Id,
    zone: &Id,
    kind: Kind,
) -> Result<Vec<Hold>, ReadFault>
    requires rest { conn.old.in_transaction ≡ false }
    ensures mode { conn.new.in_transaction ≡ false }
    ensures finds { Finds (state S.Store conn.old) (state S.Store conn.new) result
        (λ stored holds. holds.items
        ≡ held_in (tables_of stored).content (zone_rows_of stored.rows client.now zone.now) kind) }
    ensures in_key_order { IfOk result (λ holds. IsInKeyOrder holds.items) }
{
    let params = [id_of(client), id_of(zone), hold_kind_value(kind)];
    let rows = rows_of(conn, read::held_in(), &params)?;
    entries(alloc, rows.as_slice())
}

/// Reads the rows of a zone, ascending, or `None` if the client has no such zone.
///
/// # Errors
///
/// Those of [`ReadFault`].
pub fn zone<S: Alter>(
    alloc: Global,
    conn: &mut Connection<S>,
    client: &Id,
    zone: &Id,
) -> Result<Option<Vec<ZoneRow>>, ReadFault>
    requires rest { conn.old.in_transaction ≡ false }
    ensures mode { conn.new.in_transaction ≡ false }
    ensures finds { Finds (state S.Store conn.old) (state S.Store conn.new) result
        (λ stored found. option_map (λ rows. rows.items) found
        ≡ option_map (λ table. table.rows) (zone_named zone.now ((tables_of stored).zones client.now))) }
    ensures ascend { IfOk result (λ found. IfSome found (λ rows. RowsAscend rows.items)) }
{
    if !has_zone(conn, client, zone)? {
        return Ok(None);
    }
    let rows = zone_rows(alloc, conn, client, zone)?;
    Ok(Some(rows))
}
