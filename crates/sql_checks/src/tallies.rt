//! How much a store has.
ghost use Rattle.std.specs.Prelude.{◌≡◌, false, IfErr};
ghost use Rattle.sqlite.specs.Held.{state};
ghost use Rattle.sqlite.specs.State.{HasCleanDisk};
ghost use Rattle.sql_checks.specs.Checked.{Looks};
ghost use Rattle.sql_checks.specs.Refused.{AreUntallied, IsCausedBy, IsUntallied};
ghost use Rattle.sql_checks.specs.Tally.{HasTallied, IsTallyOf};
ghost use Rattle.sql_tables.specs.Ours.{IsOurs, held_by};
ghost use Rattle.sql_tables.specs.Stored.{tables_of};

use crate::asked::{caller_tally, counts};
use bureau_store::CallerRow;
use mcs_reader::Id;
use sql_reads::ReadFault;
use sqlite::{Alter, Connection};
use std::alloc::Global;

/// The amounts of a caller.
#[derive(Clone, Copy, Debug, PartialEq, Eq)]
pub struct CallerTally {
    /// The number of its zones.
    pub zones: u64,
    /// The number of all their rows.
    pub rows: u64,
    /// The number of the last change, 0 before the first.
    pub last: u64,
}

/// A caller with its amounts.
#[derive(Clone, Copy, Debug, PartialEq, Eq)]
pub struct CallerLine {
    pub name: Id,
    pub has: CallerTally,
}

/// How much a store has.
#[derive(Debug, Drop)]
pub struct StoreTally {
    /// The number of SYSMODs that are catalogued.
    pub sysmods: u64,
    /// The number of holds.
    pub holds: u64,
    /// The amounts of some callers.
    pub callers: Vec<CallerLine>,
}

/// Counts what a store has, and what each of these callers has in it.
///
/// # Errors
///
/// Those of [`ReadFault`]. `Device` comes only if the device failed, the connection was closed, or the
/// database has no rows that answer.
pub fn store_tally<S: Alter>(
    alloc: Global,
    conn: &mut Connection<S>,
    callers: &[CallerRow],
) -> Result<StoreTally, ReadFault>
    requires rest { conn.old.in_transaction ≡ false }
    ensures mode { conn.new.in_transaction ≡ false }
    ensures looks { Looks (state S.Store conn.old) (state S.Store conn.new) result
        (λ database tally. IsOurs database
        → IsTallyOf (tables_of (held_by database)) callers.now tally) }
    ensures cause { IfErr result (λ fault. fault ≡ ReadFault.Device → HasCleanDisk (state S.Store conn.new)
        → IsCausedBy (IsUntallied callers.now) (state S.Store conn.old) (state S.Store conn.new)) }
{
    let counts = counts(conn)?;
    match lines(alloc, conn, callers) {
        Ok(callers) => Ok(StoreTally {
            sysmods: counts.0,
            holds: counts.1,
            callers,
        }),
        Err(fault) => Err(fault),
    }
}

// The amounts of each of these callers.
fn lines<S: Alter>(
    alloc: Global,
    conn: &mut Connection<S>,
    callers: &[CallerRow],
) -> Result<Vec<CallerLine>, ReadFault>
    requires rest { conn.old.in_transaction ≡ false }
    ensures mode { conn.new.in_transaction ≡ false }
    ensures looks { Looks (state S.Store conn.old) (state S.Store conn.new) result
        (λ database lines. HasTallied callers.now database lines.items) }
    ensures cause { IfErr result (λ fault. fault ≡ ReadFault.Device → HasCleanDisk (state S.Store conn.new)
        → IsCausedBy (AreUntallied callers.now) (state S.Store conn.old) (state S.Store conn.new)) }
{
    let mut lines = Vec::with_capacity(alloc, callers.len())?;
    for caller in callers {
        let has = caller_tally(alloc, conn, &caller.name)?;
        lines.push(CallerLine {
            name: caller.name,
            has,
        })?;
    }
    Ok(lines)
}
