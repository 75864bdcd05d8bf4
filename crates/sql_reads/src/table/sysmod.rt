//! The table `sysmod`: the records, which have parts in other tables.
ghost use Rattle.std.specs.Prelude.{◌≡◌, false, IfOk, Some};
ghost use Rattle.sqlite.specs.Held.{state};
ghost use Rattle.catalogue.specs.Content.{ids_of, record_of};
ghost use Rattle.catalogue.specs.Ids.{Ascend};
ghost use Rattle.sql_tables.specs.Reading.{Finds};
ghost use Rattle.sql_reads.specs.Answering.{one_of};
ghost use Rattle.sql_tables.specs.Rows.{sysmod_found};
ghost use Rattle.sql_tables.specs.Stored.{beside_of, tables_of};
ghost use Rattle.sql_reads.specs.Columns.{ShowsAll, indices_of};
ghost use Rattle.sql_texts.specs.Schema as schema;

use crate::ReadFault;
use crate::all_columns::AllColumns;
use crate::entry::entries;
use crate::listed::read_list;
use crate::one::{any, only};
use crate::scan::Scanned;
use crate::selection::{Selection, select};
use catalogue::{CondNeeds, Ids, Sysmod};
use mcs_reader::Id;
use sql_rows::{All, Conds, Sups, Sysmods};
use sql_tables::sysmod_in;
use sqlite::{Alter, Connection, Row};
use std::alloc::Global;

// The ids of all records, ascending.
impl Selection<All> for Sysmods {
    ghost use Rattle.std.specs.Prelude.{◌∷◌, [], codes};

    ghost shown = { 0 ∷ [] };

    ghost names = { codes "id" ∷ [] };

    ghost order = { 1 ∷ [] };

    #[tactic(auto, unfolding(sqlite::specs::Listing::understood, sqlite_tied::specs::Compute::everything))]
    fn text() -> &'static str {
        "SELECT id FROM sysmod ORDER BY id"
    }
}

// The record of a SYSMOD, in one row, without its parts in other tables.
impl Selection<Id> for Sysmods {
    ghost use Rattle.std.specs.Prelude.{◌∷◌, []};
    ghost use Rattle.sql_texts.specs.Schema.{sysmod_columns};

    ghost shown = { indices_of schema.sysmod };

    ghost names = { sysmod_columns };

    ghost order = { 1 ∷ [] };

    #[tactic(auto, unfolding(sqlite::specs::Listing::understood, sqlite_tied::specs::Compute::everything))]
    fn text() -> &'static str {
        "SELECT id, kind, fmids, pre, req FROM sysmod WHERE id = ?1 ORDER BY id"
    }
}

impl Scanned for Sysmods {
    ghost use Rattle.std.specs.Prelude.{◌∷◌, [], refl};
    ghost use Rattle.sql_texts.specs.Schema.{sysmod_columns};

    ghost scan_shown = { indices_of schema.sysmod };

    ghost scan_names = { sysmod_columns };

    ghost scan_order = { 1 ∷ [] };

    ghost at = { 0 };

    #[tactic(auto, unfolding(sqlite::specs::Listing::understood, sqlite_tied::specs::Compute::everything))]
    fn scan_text() -> &'static str {
        "SELECT id, kind, fmids, pre, req FROM sysmod WHERE id >= ?1 AND id <= ?2 ORDER BY id"
    }

    fn place() -> usize {
        0
    }

    ghost placed = { λ row. refl };
}

/// Reads the ids of all SYSMODs that are catalogued, ascending.
///
/// # Errors
///
/// Those of [`ReadFault`].
pub fn ids<S: Alter>(alloc: Global, conn: &mut Connection<S>) -> Result<Vec<Id>, ReadFault>
    requires rest { conn.old.in_transaction ≡ false }
    ensures mode { conn.new.in_transaction ≡ false }
    ensures finds { Finds (state S.Store conn.old) (state S.Store conn.new) result
        (λ stored ids. ids.items ≡ ids_of (tables_of stored).content) }
    ensures ascend { IfOk result (λ ids. Ascend ids.items) }
{
    let rows = select::<All, Sysmods, S>(conn, &All)?;
    entries(alloc, rows.as_slice())
}

/// Reads the record of a SYSMOD, or `None` if it isn't catalogued.
///
/// # Errors
///
/// Those of [`ReadFault`].
pub fn sysmod<S: Alter>(
    alloc: Global,
    conn: &mut Connection<S>,
    id: &Id,
) -> Result<Option<Sysmod>, ReadFault>
    requires rest { conn.old.in_transaction ≡ false }
    ensures mode { conn.new.in_transaction ≡ false }
    ensures finds { Finds (state S.Store conn.old) (state S.Store conn.new) result
        (λ stored found. found ≡ record_of (tables_of stored).content id.now) }
{
    let rows = select::<Id, Sysmods, S>(conn, id)?;
    if !any(rows.as_slice()) {
        return Ok(None);
    }
    let (conds, sup) = beside(alloc, conn, id)?;
    record_in(alloc, rows.as_slice(), conds, sup)
}

// The requisites of a SYSMOD under a condition, and the ids that it supersedes.
fn beside<S: Alter>(
    alloc: Global,
    conn: &mut Connection<S>,
    id: &Id,
) -> Result<(CondNeeds, Ids), ReadFault>
    requires rest { conn.old.in_transaction ≡ false }
    ensures mode { conn.new.in_transaction ≡ false }
    ensures finds { Finds (state S.Store conn.old) (state S.Store conn.new) result (λ stored lists.
        beside_of stored id.now ≡ record { conds = lists.0; sup = lists.1 }) }
{
    let conds = read_list::<Id, Conds, S>(alloc, conn, id)?;
    match read_list::<Id, Sups, S>(alloc, conn, id) {
        Ok(sup) => Ok((conds, sup)),
        Err(fault) => Err(fault),
    }
}

/// The record in the one row of a SYSMOD, with these requisites under a condition and these superseded
/// ids.
pub(crate) fn record_in(
    alloc: Global,
    rows: &[Row],
    conds: CondNeeds,
    sup: Ids,
) -> Result<Option<Sysmod>, ReadFault>
    ensures { IfOk result (λ found.
        one_of (sysmod_found (record { conds = conds; sup = sup })) rows.now ≡ Some found) }
{
    let Some(row) = only(rows)? else {
        return Ok(None);
    };
    let sysmod = sysmod_in(alloc, row, conds, sup)?.ok_or(ReadFault::Device)?;
    Ok(Some(sysmod))
}

impl AllColumns for Sysmods {
    #[tactic(auto, unfolding(sqlite::specs::Listing::understood, sqlite_tied::specs::Compute::everything))]
    fn all_columns() -> &'static str
        ensures here { ShowsAll schema.bureau schema.sysmod result.now }
        ensures version_1 { ShowsAll schema.bureau_1 schema.sysmod result.now }
    {
        "SELECT id, kind, fmids, pre, req FROM sysmod"
    }
}
