//! The table `last_change`: the last change of each caller, with the reply that is kept for it.
ghost use Rattle.std.specs.Prelude.{◌≡◌, false, option_map, unwrap_or, IfOk, Some};
ghost use Rattle.bureau_store.specs.Caller.{IsProper};
ghost use Rattle.bureau_store.specs.Tables.{no_change};
ghost use Rattle.sqlite.specs.Held.{state};
ghost use Rattle.sqlite_value.specs.Value.{owned};
ghost use Rattle.sql_reads.specs.Answering.{IsNameOf, one_of};
ghost use Rattle.sql_tables.specs.Reading.{Finds};
ghost use Rattle.sql_tables.specs.Rows.{change_found};
ghost use Rattle.sql_tables.specs.Stored.{tables_of};
ghost use Rattle.sql_reads.specs.Columns.{ShowsAll};
ghost use Rattle.sql_texts.specs.Schema as schema;

use crate::ReadFault;
use crate::all_columns::AllColumns;
use crate::one::only;
use crate::rows::rows_of;
use bureau_store::Caller;
use sql_rows::{LastChanges, id_of};
use sql_tables::change_in;
use sql_texts::read;
use sqlite::types::ValueRef;
use sqlite::{Alter, Connection, Row};
use std::alloc::Global;

/// Reads the number of the caller's last change and the reply that is kept for it: 0 and an empty reply
/// before the first.
///
/// # Errors
///
/// Those of [`ReadFault`].
pub fn last<S: Alter>(
    alloc: Global,
    conn: &mut Connection<S>,
    caller: &Caller,
) -> Result<(u64, Vec<u8>), ReadFault>
    requires rest { conn.old.in_transaction ≡ false }
    requires proper { IsProper caller.now }
    ensures mode { conn.new.in_transaction ≡ false }
    ensures finds { Finds (state S.Store conn.old) (state S.Store conn.new) result
        (λ stored last. record { number = last.0; reply = last.1.items }
        ≡ (tables_of stored).last caller.now) }
{
    let params = [name(caller)];
    let rows = rows_of(conn, read::last_change(), &params)?;
    change_or_none(alloc, rows.as_slice())
}

// The name under which a caller's last change is kept.
fn name(caller: &Caller) -> ValueRef<'_>
    requires { IsProper caller.now }
    ensures { IsNameOf caller.now (owned result) }
{
    match caller {
        Caller::Publisher => ValueRef::Text(caller.name()),
        Caller::Client(name) => id_of(name),
    }
}

// The number and the reply in the one row; 0 and an empty reply if there is no row.
fn change_or_none(alloc: Global, rows: &[Row]) -> Result<(u64, Vec<u8>), ReadFault>
    ensures { IfOk result (λ last. option_map (λ found. unwrap_or found no_change)
        (one_of change_found rows.now)
        ≡ Some (record { number = last.0; reply = last.1.items })) }
{
    let change = change(alloc, rows)?;
    Ok(change.unwrap_or((0, Vec::new(alloc))))
}

fn change(alloc: Global, rows: &[Row]) -> Result<Option<(u64, Vec<u8>)>, ReadFault>
    ensures { IfOk result (λ found. one_of change_found rows.now
        ≡ Some (option_map (λ change. record { number = change.0; reply = change.1.items }) found)) }
{
    let Some(row) = only(rows)? else {
        return Ok(None);
    };
    let change = change_in(alloc, row)?.ok_or(ReadFault::Device)?;
    Ok(Some(change))
}

impl AllColumns for LastChanges {
    #[tactic(auto, unfolding(sqlite::specs::Listing::understood, sqlite_tied::specs::Compute::everything))]
    fn all_columns() -> &'static str
        ensures here { ShowsAll schema.bureau schema.last_change result.now }
        ensures version_1 { ShowsAll schema.bureau_1 schema.last_change result.now }
    {
        "SELECT caller, number, body FROM last_change"
    }
}
