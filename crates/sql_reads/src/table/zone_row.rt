//! The table `zone_row`: the SYSMODs of a client's zone.
ghost use Rattle.std.specs.Prelude.{◌≡◌, false, IfOk, IfSome};
ghost use Rattle.sqlite.specs.Held.{state};
ghost use Rattle.sql_tables.specs.Reading.{Finds};
ghost use Rattle.sql_tables.specs.Stored.{zone_rows_of};
ghost use Rattle.zone_lists.specs.ZoneList.{RowsAscend};
ghost use Rattle.sql_reads.specs.Columns.{ShowsAll};
ghost use Rattle.sql_texts.specs.Schema as schema;

use crate::ReadFault;
use crate::all_columns::AllColumns;
use crate::entry::{Entry, Ordered, ascending};
use crate::listed::{Listed, read_list};
use crate::selection::Selection;
use mcs_reader::Id;
use sql_rows::{Zone, ZoneRows};
use sql_tables::{NoMemory, zone_row_in};
use sqlite::{Alter, Connection, Row};
use std::alloc::Global;
use zone_lists::ZoneRow;

impl Ordered for ZoneRow {
    ghost use Rattle.catalogue.specs.Ids.{id_cmp};
    ghost use Rattle.catalogue.proofs.IdFacts.{ids_total};
    ghost use Rattle.std.proofs.lemmas.Cmp.{on_total};
    ghost use Rattle.sql_reads.specs.Orders.{ascends_by};

    ghost cmp = { λ row next. id_cmp row.sysmod next.sysmod };

    ghost ascend = { RowsAscend };

    fn is_below(&self, next: &ZoneRow) -> bool {
        self.sysmod.cmp(&next.sysmod).is_lt()
    }

    ghost total = { on_total (λ row. row.sysmod) ids_total };

    ghost ascends = { ascends_by id_cmp (λ row. row.sysmod) };
}

impl Entry for ZoneRow {
    ghost use Rattle.sql_tables.specs.Rows.{zone_row_found};

    ghost found = { zone_row_found };

    fn in_row(_alloc: Global, row: &Row) -> Result<Option<ZoneRow>, NoMemory> {
        Ok(zone_row_in(row))
    }
}

impl Selection<Zone> for ZoneRows {
    ghost use Rattle.std.specs.Prelude.{◌∷◌, [], codes};

    ghost shown = { 2 ∷ 3 ∷ [] };

    ghost names = { codes "sysmod" ∷ codes "state" ∷ [] };

    ghost order = { 3 ∷ [] };

    #[tactic(auto, unfolding(sqlite::specs::Listing::understood, sqlite_tied::specs::Compute::everything))]
    fn text() -> &'static str {
        "SELECT sysmod, state FROM zone_row WHERE client = ?1 AND zone = ?2 ORDER BY sysmod"
    }
}

impl Listed<Zone> for ZoneRows {
    ghost use Rattle.sql_tables.proofs.ReadFacts.{zone_rows_read};

    type Item = ZoneRow;

    type List = Vec<ZoneRow>;

    ghost items = { λ rows. rows.items };

    ghost tells = { λ key stored rows. rows ≡ zone_rows_of stored.rows key.client key.zone };

    fn in_order(rows: Vec<ZoneRow>) -> Option<Vec<ZoneRow>>
        ensures same { IfSome result (λ list. list.items ≡ rows.items) }
        ensures ascend { IfSome result (λ list. RowsAscend list.items) }
    {
        ascending(rows)
    }

    ghost told = { λ key stored whole. zone_rows_read stored.rows key.client key.zone };
}

/// Reads the SYSMODs of a client's zone with their states, ascending; none if it has no such zone.
///
/// # Errors
///
/// Those of [`ReadFault`].
pub fn zone_rows<S: Alter>(
    alloc: Global,
    conn: &mut Connection<S>,
    client: &Id,
    zone: &Id,
) -> Result<Vec<ZoneRow>, ReadFault>
    requires rest { conn.old.in_transaction ≡ false }
    ensures mode { conn.new.in_transaction ≡ false }
    ensures finds { Finds (state S.Store conn.old) (state S.Store conn.new) result
        (λ stored rows. rows.items ≡ zone_rows_of stored.rows client.now zone.now) }
    ensures ascend { IfOk result (λ rows. RowsAscend rows.items) }
{
    let key = Zone {
        client: *client,
        zone: *zone,
    };
    read_list::<Zone, ZoneRows, S>(alloc, conn, &key)
}

impl AllColumns for ZoneRows {
    #[tactic(auto, unfolding(sqlite::specs::Listing::understood, sqlite_tied::specs::Compute::everything))]
    fn all_columns() -> &'static str
        ensures here { ShowsAll schema.bureau schema.zone_row result.now }
        ensures version_1 { ShowsAll schema.bureau_1 schema.zone_row result.now }
    {
        "SELECT client, zone, sysmod, state FROM zone_row"
    }
}
