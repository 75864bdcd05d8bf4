//! The table `received_list`: the SYSMODs that clients have received.
ghost use Rattle.std.specs.Prelude.{◌≡◌, false, IfOk};
ghost use Rattle.catalogue.specs.Ids.{Ascend};
ghost use Rattle.sqlite.specs.Held.{state};
ghost use Rattle.sql_tables.specs.Reading.{Finds};
ghost use Rattle.sql_tables.specs.Stored.{tables_of};
ghost use Rattle.sql_reads.specs.Columns.{ShowsAll};
ghost use Rattle.sql_texts.specs.Schema as schema;

use crate::ReadFault;
use crate::all_columns::AllColumns;
use crate::one::{One, read_one};
use crate::selection::Selection;
use mcs_reader::Id;
use sql_rows::Received;
use sql_tables::{NoMemory, ids_row_in};
use sqlite::{Alter, Connection, Row};
use std::alloc::Global;

impl Selection<Id> for Received {
    ghost use Rattle.std.specs.Prelude.{◌∷◌, [], codes};

    ghost shown = { 1 ∷ [] };

    ghost names = { codes "ids" ∷ [] };

    ghost order = { 1 ∷ [] };

    #[tactic(auto, unfolding(sqlite::specs::Listing::understood, sqlite_tied::specs::Compute::everything))]
    fn text() -> &'static str {
        "SELECT ids FROM received_list WHERE client = ?1 ORDER BY client"
    }
}

impl One<Id> for Received {
    ghost use Rattle.std.specs.Prelude.{◌∷◌, [], filter};
    ghost use Rattle.sqlite_value.specs.Order.{column};
    ghost use Rattle.sql_tables.specs.Stored.{first, is_of, shown};
    ghost use Rattle.sql_tables.specs.Values.{ids_in};
    ghost use Rattle.sql_reads.specs.Rows.{said_of_shown};

    type Item = Id;

    ghost found = { λ row. ids_in (column row 0) };

    ghost tells = { λ client stored ids. ids ≡ (tables_of stored).received client };

    fn in_row(alloc: Global, row: &Row) -> Result<Option<Vec<Id>>, NoMemory> {
        ids_row_in(alloc, row)
    }

    ghost told = { λ client stored whole ids says.
        said_of_shown (λ row. ids_in (column row 0)) (shown (1 ∷ [])) []
        (first (filter (is_of client) stored.received)) ids says };
}

/// Reads the SYSMODs that a client has received, ascending.
///
/// # Errors
///
/// Those of [`ReadFault`].
pub fn received<S: Alter>(
    alloc: Global,
    conn: &mut Connection<S>,
    client: &Id,
) -> Result<Vec<Id>, ReadFault>
    requires rest { conn.old.in_transaction ≡ false }
    ensures mode { conn.new.in_transaction ≡ false }
    ensures finds { Finds (state S.Store conn.old) (state S.Store conn.new) result
        (λ stored ids. ids.items ≡ (tables_of stored).received client.now) }
    ensures ascend { IfOk result (λ ids. Ascend ids.items) }
{
    read_one::<Id, Received, S>(alloc, conn, client)
}

impl AllColumns for Received {
    #[tactic(auto, unfolding(sqlite::specs::Listing::understood, sqlite_tied::specs::Compute::everything))]
    fn all_columns() -> &'static str
        ensures here { ShowsAll schema.bureau schema.received_list result.now }
        ensures version_1 { ShowsAll schema.bureau_1 schema.received_list result.now }
    {
        "SELECT client, ids FROM received_list"
    }
}
