//! The table `zone_head`: the zones of a client, each with its patterns.
ghost use Rattle.std.specs.Prelude.{◌≡◌, false, is_some, IfOk};
ghost use Rattle.bureau_store.specs.Tables as tables;
ghost use Rattle.bureau_store.specs.Tables.{PatternsAscend, zone_named};
ghost use Rattle.sqlite.specs.Held.{state};
ghost use Rattle.sql_tables.specs.Reading.{Finds};
ghost use Rattle.sql_tables.specs.Stored.{tables_of};
ghost use Rattle.sql_reads.specs.Columns.{ShowsAll};
ghost use Rattle.sql_texts.specs.Schema as schema;

use crate::ReadFault;
use crate::all_columns::AllColumns;
use crate::entry::Ordered;
use crate::one::{One, any, read_one};
use crate::selection::{Selection, select};
use mcs_reader::Id;
use sql_rows::{Heads, Zone};
use sql_tables::{NoMemory, patterns_row_in};
use sqlite::{Alter, Connection, Row};
use std::alloc::Global;
use zone_lists::Pattern;

impl Ordered for Pattern {
    ghost use Rattle.catalogue.specs.Ids.{id_cmp};
    ghost use Rattle.catalogue.proofs.IdFacts.{ids_total};

    ghost cmp = { id_cmp };

    ghost ascend = { PatternsAscend };

    fn is_below(&self, next: &Pattern) -> bool {
        self.cmp(next).is_lt()
    }

    ghost total = { ids_total };

    ghost ascends = { λ items. (λ ascend. ascend, λ ascend. ascend) };
}

impl Selection<Zone> for Heads {
    ghost use Rattle.std.specs.Prelude.{◌∷◌, [], codes};

    ghost shown = { 2 ∷ [] };

    ghost names = { codes "patterns" ∷ [] };

    ghost order = { 2 ∷ [] };

    #[tactic(auto, unfolding(sqlite::specs::Listing::understood, sqlite_tied::specs::Compute::everything))]
    fn text() -> &'static str {
        "SELECT patterns FROM zone_head WHERE client = ?1 AND zone = ?2 ORDER BY zone"
    }
}

impl One<Zone> for Heads {
    ghost use Rattle.std.specs.Prelude.{◌∷◌, [], filter};
    ghost use Rattle.sqlite_value.specs.Order.{column};
    ghost use Rattle.sql_tables.specs.Stored.{first, is_of_both, shown};
    ghost use Rattle.sql_tables.specs.Values.{patterns_in};
    ghost use Rattle.sql_reads.specs.Rows.{patterns_said, said_of_shown};

    type Item = Pattern;

    ghost found = { λ row. patterns_in (column row 0) };

    ghost tells = { λ key stored patterns. patterns
        ≡ tables.patterns_of (zone_named key.zone ((tables_of stored).zones key.client)) };

    fn in_row(alloc: Global, row: &Row) -> Result<Option<Vec<Pattern>>, NoMemory> {
        patterns_row_in(alloc, row)
    }

    ghost told = { λ key stored whole patterns says. patterns_said stored key.client key.zone patterns
        (said_of_shown (λ row. patterns_in (column row 0)) (shown (2 ∷ [])) []
        (first (filter (is_of_both key.client key.zone) stored.heads)) patterns says) };
}

/// Reads the patterns of the fix categories that a client asks for in a zone, ascending; none if it has no such
/// zone.
///
/// # Errors
///
/// Those of [`ReadFault`].
pub fn patterns<S: Alter>(
    alloc: Global,
    conn: &mut Connection<S>,
    client: &Id,
    zone: &Id,
) -> Result<Vec<Pattern>, ReadFault>
    requires rest { conn.old.in_transaction ≡ false }
    ensures mode { conn.new.in_transaction ≡ false }
    ensures finds { Finds (state S.Store conn.old) (state S.Store conn.new) result
        (λ stored patterns. patterns.items
        ≡ tables.patterns_of (zone_named zone.now ((tables_of stored).zones client.now))) }
    ensures ascend { IfOk result (λ patterns. PatternsAscend patterns.items) }
{
    let key = Zone {
        client: *client,
        zone: *zone,
    };
    read_one::<Zone, Heads, S>(alloc, conn, &key)
}

/// Reads whether a client has a zone of this name.
///
/// # Errors
///
/// Those of [`ReadFault`].
pub fn has_zone<S: Alter>(
    conn: &mut Connection<S>,
    client: &Id,
    zone: &Id,
) -> Result<bool, ReadFault>
    requires rest { conn.old.in_transaction ≡ false }
    ensures mode { conn.new.in_transaction ≡ false }
    ensures finds { Finds (state S.Store conn.old) (state S.Store conn.new) result
        (λ stored found. found ≡ is_some (zone_named zone.now ((tables_of stored).zones client.now))) }
{
    let key = Zone {
        client: *client,
        zone: *zone,
    };
    let rows = select::<Zone, Heads, S>(conn, &key)?;
    Ok(any(rows.as_slice()))
}

impl AllColumns for Heads {
    #[tactic(auto, unfolding(sqlite::specs::Listing::understood, sqlite_tied::specs::Compute::everything))]
    fn all_columns() -> &'static str
        ensures here { ShowsAll schema.bureau schema.zone_head result.now }
        ensures version_1 { ShowsAll schema.bureau_1 schema.zone_head result.now }
    {
        "SELECT client, zone, patterns FROM zone_head"
    }
}
