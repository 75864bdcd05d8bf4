//! The table `caller`: the callers with their tokens.
ghost use Rattle.std.specs.Prelude.{◌≡◌, ◌∷◌, [], codes, false, map, option_map, IfOk, IfSome, Some};
ghost use Rattle.std.specs.List.Sorted.{IsPermutation};
ghost use Rattle.bureau_store.specs.Caller.{IsProper, caller_named, caller_with, is_publisher};
ghost use Rattle.bureau_store.specs.Tables.{NamesAscend};
ghost use Rattle.sqlite.specs.Held.{state};
ghost use Rattle.sqlite_value.specs.Order as order;
ghost use Rattle.sql_reads.specs.Answering.{one_of};
ghost use Rattle.sql_tables.specs.Reading.{Finds};
ghost use Rattle.sql_tables.specs.Stored.{tables_of};
ghost use Rattle.sql_tables.specs.Values as value;
ghost use Rattle.sql_reads.specs.Columns.{ShowsAll};
ghost use Rattle.sql_texts.specs.Meaning.{Reads};
ghost use Rattle.sql_texts.specs.Reads.{from_table, is_given};
ghost use Rattle.sql_texts.specs.Schema as schema;

use crate::ReadFault;
use crate::all_columns::AllColumns;
use crate::entry::{Entry, Ordered, ascending};
use crate::listed::{Listed, read_list};
use crate::one::only;
use crate::rows::rows_of;
use crate::selection::Selection;
use bureau_store::{Caller, CallerRow};
use mcs_reader::Id;
use sql_rows::{All, Callers};
use sql_tables::{NoMemory, caller_in, id_row_in};
use sql_texts::read;
use sqlite::types::ValueRef;
use sqlite::{Alter, Connection, Row};
use std::alloc::Global;

impl Ordered for CallerRow {
    ghost use Rattle.catalogue.specs.Ids.{id_cmp};
    ghost use Rattle.catalogue.proofs.IdFacts.{ids_total};
    ghost use Rattle.std.proofs.lemmas.Cmp.{on_total};
    ghost use Rattle.sql_reads.specs.Orders.{ascends_by};

    ghost cmp = { λ caller next. id_cmp caller.name next.name };

    ghost ascend = { λ callers. NamesAscend (map (λ row. row.name) callers) };

    fn is_below(&self, next: &CallerRow) -> bool {
        self.name.cmp(&next.name).is_lt()
    }

    ghost total = { on_total (λ caller. caller.name) ids_total };

    ghost ascends = { ascends_by id_cmp (λ caller. caller.name) };
}

impl Entry for CallerRow {
    ghost use Rattle.sql_tables.specs.Rows.{caller_found};

    ghost found = { caller_found };

    fn in_row(alloc: Global, row: &Row) -> Result<Option<CallerRow>, NoMemory> {
        caller_in(alloc, row)
    }
}

impl Selection<All> for Callers {
    ghost use Rattle.std.specs.Prelude.{◌∷◌, [], codes};

    ghost shown = { 0 ∷ 1 ∷ [] };

    ghost names = { codes "name" ∷ codes "token" ∷ [] };

    ghost order = { 1 ∷ [] };

    fn text() -> &'static str {
        read::callers()
    }
}

impl Listed<All> for Callers {
    ghost use Rattle.sql_tables.specs.Rows.{caller_found};
    ghost use Rattle.sql_reads.specs.Rows.{said_of_all};

    type Item = CallerRow;

    type List = Vec<CallerRow>;

    ghost items = { λ callers. callers.items };

    ghost tells = { λ all stored callers. IsPermutation (tables_of stored).callers callers };

    fn in_order(callers: Vec<CallerRow>) -> Option<Vec<CallerRow>>
        ensures same { IfSome result (λ list. list.items ≡ callers.items) }
        ensures ascend { IfSome result (λ list. NamesAscend (map (λ row. row.name) list.items)) }
    {
        ascending(callers)
    }

    ghost told = { λ all stored whole callers ascend. said_of_all caller_found stored.callers callers };
}

/// Reads all callers, ascending by name, each with its token.
///
/// # Errors
///
/// Those of [`ReadFault`].
pub fn all_callers<S: Alter>(
    alloc: Global,
    conn: &mut Connection<S>,
) -> Result<Vec<CallerRow>, ReadFault>
    requires rest { conn.old.in_transaction ≡ false }
    ensures mode { conn.new.in_transaction ≡ false }
    ensures finds { Finds (state S.Store conn.old) (state S.Store conn.new) result
        (λ stored callers. IsPermutation (tables_of stored).callers callers.items) }
    ensures ascend { IfOk result (λ callers. NamesAscend (map (λ row. row.name) callers.items)) }
{
    read_list::<All, Callers, S>(alloc, conn, &All)
}

/// Reads whose token this is, or `None` if no caller has it.
///
/// # Errors
///
/// Those of [`ReadFault`].
pub fn caller_of<S: Alter>(
    conn: &mut Connection<S>,
    token: &[u8],
) -> Result<Option<Caller>, ReadFault>
    requires rest { conn.old.in_transaction ≡ false }
    ensures mode { conn.new.in_transaction ≡ false }
    ensures finds { Finds (state S.Store conn.old) (state S.Store conn.new) result
        (λ stored found. found ≡ caller_with (tables_of stored).callers token.now) }
    ensures proper { IfOk result (λ found. IfSome found IsProper) }
{
    let params = [ValueRef::Text(token)];
    let rows = rows_of(conn, name_by_token(), &params)?;
    caller_in_rows(rows.as_slice())
}

// The text that shows the name of the caller with the token ?1.
#[tactic(auto, unfolding(sqlite::specs::Listing::understood, sqlite_tied::specs::Compute::everything))]
fn name_by_token() -> &'static str
    ensures { Reads schema.bureau result.now (from_table 1 (is_given 2 0 ∷ []) (1 ∷ []) (1 ∷ []))
        (codes "name" ∷ []) 1 }
{
    "SELECT name FROM caller WHERE token = ?1 ORDER BY name"
}

// The caller with the name in the one row.
fn caller_in_rows(rows: &[Row]) -> Result<Option<Caller>, ReadFault>
    ensures caller { IfOk result (λ found.
        one_of (λ row. option_map caller_named (value.id_in (order.column row 0))) rows.now ≡ Some found) }
    ensures proper { IfOk result (λ found. IfSome found IsProper) }
{
    let Some(row) = only(rows)? else {
        return Ok(None);
    };
    let name = id_row_in(row).ok_or(ReadFault::Device)?;
    Ok(Some(named(name)))
}

// The caller of a name.
#[tactic(auto, using(crate::proofs::ProperFacts::other_name))]
fn named(name: Id) -> Caller
    ensures caller { result ≡ caller_named name }
    ensures proper { IsProper result }
{
    if is_publisher(&name) {
        Caller::Publisher
    } else {
        Caller::Client(name)
    }
}

// Whether a name is the publisher's.
fn is_publisher(name: &Id) -> bool
    ensures { result ≡ is_publisher name.now }
{
    match Id::new(Caller::Publisher.name()) {
        Some(publisher) => *name == publisher,
        None => false,
    }
}

impl AllColumns for Callers {
    #[tactic(auto, unfolding(sqlite::specs::Listing::understood, sqlite_tied::specs::Compute::everything))]
    fn all_columns() -> &'static str
        ensures here { ShowsAll schema.bureau schema.caller result.now }
        ensures version_1 { ShowsAll schema.bureau_1 schema.caller result.now }
    {
        "SELECT name, token FROM caller"
    }
}
