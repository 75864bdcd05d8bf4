//! Whether a store has a publisher.
ghost use Rattle.std.specs.Prelude.{◌≡◌, ◌↔◌, false, IfErr, IsTrue};
ghost use Rattle.std.specs.List.{list_any};
ghost use Rattle.bureau_store.specs.Caller.{publisher_name};
ghost use Rattle.sqlite.specs.Held.{state};
ghost use Rattle.sqlite.specs.State.{HasCleanDisk};
ghost use Rattle.sql_checks.specs.Checked.{HasPublisher, Looks};
ghost use Rattle.sql_checks.specs.Refused.{AreUnseen, IsCausedBy};
ghost use Rattle.sql_tables.specs.Stored.{is_of};

use crate::values::column;
use bureau_store::Caller;
use mcs_reader::Id;
use sql_reads::{AllColumns, ReadFault, rows_of};
use sql_rows::Callers;
use sql_tables::id_in;
use sqlite::{Alter, Connection, Row};

/// Whether one of the callers is the publisher.
///
/// # Errors
///
/// Those of [`ReadFault`].
pub(crate) fn has_publisher<S: Alter>(conn: &mut Connection<S>) -> Result<bool, ReadFault>
    requires rest { conn.old.in_transaction ≡ false }
    ensures mode { conn.new.in_transaction ≡ false }
    ensures looks { Looks (state S.Store conn.old) (state S.Store conn.new) result
        (λ database has. IsTrue has ↔ HasPublisher database) }
    ensures cause { IfErr result (λ fault. fault ≡ ReadFault.Device → HasCleanDisk (state S.Store conn.new)
        → IsCausedBy AreUnseen (state S.Store conn.old) (state S.Store conn.new)) }
{
    match rows_of(conn, Callers::all_columns(), &[]) {
        Ok(rows) => Ok(is_among(rows.as_slice())),
        Err(fault) => Err(fault),
    }
}

// Whether one of these rows of callers is the publisher's.
fn is_among(rows: &[Row]) -> bool
    ensures { result ≡ list_any (is_of publisher_name) rows.now }
{
    rows.iter().any(is_publisher)
}

fn is_publisher(row: &Row) -> bool
    ensures { result ≡ is_of publisher_name row.now }
{
    match (id_in(column(row, 0)), Id::new(Caller::Publisher.name())) {
        (Some(name), Some(publisher)) => name == publisher,
        _ => false,
    }
}
