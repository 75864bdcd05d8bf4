//! Reads that count rows.
ghost use Rattle.std.specs.Prelude.{◌≡◌, ◌<◌, ◌∷◌, [], ℕ, codes, false, length, IfOk, Some};
ghost use Rattle.sqlite.specs.Held.{state};
ghost use Rattle.sqlite.specs.Query.{Query};
ghost use Rattle.sqlite.specs.Values.{bound};
ghost use Rattle.sqlite_value.specs.Order as order;
ghost use Rattle.sql_reads.specs.Answering.{IsRead, one_of};
ghost use Rattle.sql_reads.specs.Counts.{Counts};
ghost use Rattle.sql_tables.specs.Reading.{Finds};
ghost use Rattle.sql_tables.specs.Stored.{Stored, tables_of};
ghost use Rattle.sql_tables.specs.Values as value;
ghost use Rattle.sql_texts.specs.Meaning.{Reads};
ghost use Rattle.sql_texts.specs.Schema.{bureau};

use crate::ReadFault;
use crate::one::only;
use crate::rows::rows_of;
use mcs_reader::Id;
use sql_rows::id_of;
use sql_tables::count_in;
use sql_texts::read;
use sqlite::types::ValueRef;
use sqlite::{Alter, Connection, Row};

/// Counts the SYSMODs that are catalogued and the holds of the book. It goes through all of them.
///
/// # Errors
///
/// Those of [`ReadFault`].
pub fn counts<S: Alter>(conn: &mut Connection<S>) -> Result<(u64, u64), ReadFault>
    requires rest { conn.old.in_transaction ≡ false }
    ensures mode { conn.new.in_transaction ≡ false }
    ensures finds { Finds (state S.Store conn.old) (state S.Store conn.new) result
        (λ stored counts. (counts.0 ≡ length (tables_of stored).content.sysmods)
        × (counts.1 ≡ length (tables_of stored).content.holds)) }
{
    let sysmods = count(conn, read::sysmod_count(), &[])?;
    match hold_count(conn) {
        Ok(holds) => Ok((sysmods, holds)),
        Err(fault) => Err(fault),
    }
}

/// Counts the holds of the book. It goes through all of them, and through nothing else.
///
/// # Errors
///
/// Those of [`ReadFault`].
pub fn hold_count<S: Alter>(conn: &mut Connection<S>) -> Result<u64, ReadFault>
    requires rest { conn.old.in_transaction ≡ false }
    ensures mode { conn.new.in_transaction ≡ false }
    ensures finds { Finds (state S.Store conn.old) (state S.Store conn.new) result
        (λ stored count. count ≡ length (tables_of stored).content.holds) }
{
    count(conn, read::hold_count(), &[])
}

/// Counts the zones of a client.
///
/// # Errors
///
/// Those of [`ReadFault`].
pub fn zone_count<S: Alter>(conn: &mut Connection<S>, client: &Id) -> Result<u64, ReadFault>
    requires rest { conn.old.in_transaction ≡ false }
    ensures mode { conn.new.in_transaction ≡ false }
    ensures finds { Finds (state S.Store conn.old) (state S.Store conn.new) result
        (λ stored count. count ≡ length ((tables_of stored).zones client.now)) }
{
    let params = [id_of(client)];
    count(conn, read::zone_count(), &params)
}

// The count that a text answers, with these parameters.
fn count<S: Alter>(
    conn: &mut Connection<S>,
    text: &str,
    params: &[ValueRef<'_>],
) -> Result<u64, ReadFault>
    requires rest { conn.old.in_transaction ≡ false }
    requires read { IsRead text.now }
    ensures mode { conn.new.in_transaction ≡ false }
    ensures finds { (query : Query) (parameters : ℕ) (given : order.Row) (many : Stored → ℕ)
        → Reads bureau text.now query (codes "count(*)" ∷ []) parameters
        → bound params.now ≡ given → Counts query given many
        → Finds (state S.Store conn.old) (state S.Store conn.new) result
        (λ stored count. count ≡ many stored) }
{
    let rows = rows_of(conn, text, params)?;
    number(rows.as_slice())
}

// The number in the one row of a query that counts. The greatest number that the database can count is a fault,
// since there may be more.
fn number(rows: &[Row]) -> Result<u64, ReadFault>
    ensures count { IfOk result (λ count.
        one_of (λ row. value.number_in (order.column row 0)) rows.now ≡ Some (Some count)) }
    ensures below { IfOk result (λ count. count < 9223372036854775807) }
{
    let row = only(rows)?.ok_or(ReadFault::Device)?;
    let count = count_in(row).ok_or(ReadFault::Device)?;
    if count >= 9_223_372_036_854_775_807 {
        return Err(ReadFault::Device);
    }
    Ok(count)
}
