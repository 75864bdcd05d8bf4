//! The reads for a tally.
ghost use Rattle.std.specs.Prelude.{◌≡◌, [], ℕ, false, length, map, sum_by, IfErr, IfOk};
ghost use Rattle.std.specs.List.Sorted.{IsPermutation};
ghost use Rattle.bureau_store.specs.Caller.{caller_named};
ghost use Rattle.bureau_store.specs.Tables.{NamesAscend};
ghost use Rattle.sqlite.specs.Held.{state};
ghost use Rattle.sqlite.specs.Query.{Query};
ghost use Rattle.sqlite.specs.State.{HasCleanDisk};
ghost use Rattle.sql_checks.specs.Tally.{tally_of};
ghost use Rattle.sql_reads.specs.Answering.{IsRead};
ghost use Rattle.sql_reads.specs.Counts.{Counts};
ghost use Rattle.sql_tables.specs.Reading.{Finds};
ghost use Rattle.sql_tables.specs.Stored.{Stored, tables_of};
ghost use Rattle.sql_checks.specs.Refused.{AreUncounted, IsAskedBy, IsCausedBy, IsUncounted, IsUnsaid, SaysCallers, SaysCount, SaysLast, SaysZones, of_callers, of_count, of_last, of_zones};

use crate::{CallerTally, said};
use bureau_store::CallerRow;
use mcs_reader::Id;
use sql_reads::{ReadFault, rows_of};
use sql_rows::id_of;
use sql_texts::read;
use sqlite::{Alter, Connection};
use std::alloc::Global;

/// Reads all callers, ascending by name, each with its token.
///
/// # Errors
///
/// Those of [`ReadFault`]. `Device` comes only if the device failed, the connection was closed, or the database has no
/// rows that answer.
pub fn every_caller<S: Alter>(
    alloc: Global,
    conn: &mut Connection<S>,
) -> Result<Vec<CallerRow>, ReadFault>
    requires rest { conn.old.in_transaction ≡ false }
    ensures mode { conn.new.in_transaction ≡ false }
    ensures finds { Finds (state S.Store conn.old) (state S.Store conn.new) result
        (λ stored callers. IsPermutation (tables_of stored).callers callers.items) }
    ensures ascend { IfOk result (λ callers. NamesAscend (map (λ row. row.name) callers.items)) }
    ensures cause { IfErr result (λ fault. fault ≡ ReadFault.Device → HasCleanDisk (state S.Store conn.new)
        → IsCausedBy (IsUnsaid of_callers SaysCallers) (state S.Store conn.old) (state S.Store conn.new)) }
{
    match rows_of(conn, read::callers(), &[]) {
        Ok(rows) => said::callers(alloc, rows.as_slice()),
        Err(fault) => Err(fault),
    }
}

/// Counts the SYSMODs that are catalogued and the holds. It goes through all of them.
///
/// # Errors
///
/// Those of [`ReadFault`]. `Device` comes only if the device failed, the connection was closed, or the database has no
/// rows that answer.
pub(crate) fn counts<S: Alter>(conn: &mut Connection<S>) -> Result<(u64, u64), ReadFault>
    requires rest { conn.old.in_transaction ≡ false }
    ensures mode { conn.new.in_transaction ≡ false }
    ensures finds { Finds (state S.Store conn.old) (state S.Store conn.new) result
        (λ stored counts. (counts.0 ≡ length (tables_of stored).content.sysmods)
        × (counts.1 ≡ length (tables_of stored).content.holds)) }
    ensures cause { IfErr result (λ fault. fault ≡ ReadFault.Device → HasCleanDisk (state S.Store conn.new)
        → IsCausedBy AreUncounted (state S.Store conn.old) (state S.Store conn.new)) }
{
    let sysmods = count(conn, read::sysmod_count())?;
    match count(conn, read::hold_count()) {
        Ok(holds) => Ok((sysmods, holds)),
        Err(fault) => Err(fault),
    }
}

// The count that a text answers.
fn count<S: Alter>(conn: &mut Connection<S>, text: &str) -> Result<u64, ReadFault>
    requires rest { conn.old.in_transaction ≡ false }
    requires read { IsRead text.now }
    ensures mode { conn.new.in_transaction ≡ false }
    ensures finds { (query : Query) (many : Stored → ℕ) → IsAskedBy (of_count query) text.now
        → Counts query [] many → Finds (state S.Store conn.old) (state S.Store conn.new) result
        (λ stored count. count ≡ many stored) }
    ensures cause { (query : Query) → IsAskedBy (of_count query) text.now
        → IfErr result (λ fault. fault ≡ ReadFault.Device → HasCleanDisk (state S.Store conn.new)
        → IsCausedBy (IsUnsaid (of_count query) SaysCount)
        (state S.Store conn.old) (state S.Store conn.new)) }
{
    match rows_of(conn, text, &[]) {
        Ok(rows) => said::count(rows.as_slice()),
        Err(fault) => Err(fault),
    }
}

/// Counts what the caller of this name has. It goes through all rows of its zones.
///
/// # Errors
///
/// Those of [`ReadFault`]. `Device` comes only if the device failed, the connection was closed, or the database has no
/// rows that answer.
pub(crate) fn caller_tally<S: Alter>(
    alloc: Global,
    conn: &mut Connection<S>,
    name: &Id,
) -> Result<CallerTally, ReadFault>
    requires rest { conn.old.in_transaction ≡ false }
    ensures mode { conn.new.in_transaction ≡ false }
    ensures finds { Finds (state S.Store conn.old) (state S.Store conn.new) result
        (λ stored tally. tally ≡ tally_of (tables_of stored) name.now) }
    ensures cause { IfErr result (λ fault. fault ≡ ReadFault.Device → HasCleanDisk (state S.Store conn.new)
        → IsCausedBy (IsUncounted name.now) (state S.Store conn.old) (state S.Store conn.new)) }
{
    match last(alloc, conn, name) {
        Ok(last) => match zones(alloc, conn, name) {
            Ok(counts) => Ok(CallerTally {
                zones: counts.0,
                rows: counts.1,
                last,
            }),
            Err(fault) => Err(fault),
        },
        Err(fault) => Err(fault),
    }
}

// The number of a caller's last change.
fn last<S: Alter>(alloc: Global, conn: &mut Connection<S>, name: &Id) -> Result<u64, ReadFault>
    requires rest { conn.old.in_transaction ≡ false }
    ensures mode { conn.new.in_transaction ≡ false }
    ensures finds { Finds (state S.Store conn.old) (state S.Store conn.new) result
        (λ stored last. last ≡ ((tables_of stored).last (caller_named name.now)).number) }
    ensures cause { IfErr result (λ fault. fault ≡ ReadFault.Device → HasCleanDisk (state S.Store conn.new)
        → IsCausedBy (IsUnsaid (of_last name.now) SaysLast)
        (state S.Store conn.old) (state S.Store conn.new)) }
{
    let params = [id_of(name)];
    match rows_of(conn, read::last_change(), &params) {
        Ok(rows) => said::last(alloc, rows.as_slice()),
        Err(fault) => Err(fault),
    }
}

// The number of a caller's zones, and that of all their rows.
fn zones<S: Alter>(
    alloc: Global,
    conn: &mut Connection<S>,
    name: &Id,
) -> Result<(u64, u64), ReadFault>
    requires rest { conn.old.in_transaction ≡ false }
    ensures mode { conn.new.in_transaction ≡ false }
    ensures finds { Finds (state S.Store conn.old) (state S.Store conn.new) result (λ stored counts.
        (counts.0 ≡ length ((tables_of stored).zones name.now))
        × (counts.1 ≡ sum_by (λ zone. length zone.1.rows) ((tables_of stored).zones name.now))) }
    ensures cause { IfErr result (λ fault. fault ≡ ReadFault.Device → HasCleanDisk (state S.Store conn.new)
        → IsCausedBy (IsUnsaid (of_zones name.now) SaysZones)
        (state S.Store conn.old) (state S.Store conn.new)) }
{
    let params = [id_of(name)];
    match rows_of(conn, read::zones(), &params) {
        Ok(rows) => said::zones(alloc, rows.as_slice()),
        Err(fault) => Err(fault),
    }
}
