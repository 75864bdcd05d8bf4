//! The read of many SYSMODs at once: it reads each table in their order, and takes the rows of one SYSMOD after the
//! other.
ghost use Rattle.std.specs.Prelude.{◌≡◌, ◌∷◌, ◌↔◌, ℕ, List, false, map, IfOk, IsTrue};
ghost use Rattle.sqlite.specs.Held.{state};
ghost use Rattle.catalogue.specs.Seen.{seen_in};
ghost use Rattle.sql_tables.specs.Reading.{Finds};
ghost use Rattle.sql_reads.specs.Runs.{IsRun, TextsAscend};
ghost use Rattle.sql_reads.specs.Scans.{AreLeft};
ghost use Rattle.sql_tables.specs.Stored.{Stored, tables_of};

use crate::ReadFault;
use crate::entry::entries;
use crate::listed::list_of;
use crate::queue::Queue;
use crate::scan::scan;
use crate::table::sysmod::record_in;
use catalogue::Seen;
use mcs_reader::Id;
use sql_rows::{Conds, Holds, Sups, Sysmods};
use sqlite::{Alter, Connection};
use std::alloc::Global;

// The rows of each table that are left.
#[derive(Drop)]
struct Queues<'a> {
    records: Queue<'a, Sysmods>,
    sups: Queue<'a, Sups>,
    conds: Queue<'a, Conds>,
    holds: Queue<'a, Holds>,
}

/// Whether [`seen`] reads these SYSMODs: their texts ascend, each once, and there is one at least.
pub fn is_run(ids: &[Id]) -> bool
    ensures { IsTrue result ↔ IsRun ids.now }
{
    !ids.is_empty() && texts_ascend(ids)
}

// Whether the texts of ids ascend, each once.
fn texts_ascend(ids: &[Id]) -> bool
    ensures { IsTrue result ↔ TextsAscend ids.now }
{
    ids.is_sorted_by(|id, next| id.as_bytes().cmp(next.as_bytes()).is_lt())
}

/// Reads for each of some SYSMODs that ascend its record, or `None` if it isn't catalogued, and the holds on it. It
/// goes through all rows from the first SYSMOD to the last.
///
/// # Errors
///
/// Those of [`ReadFault`].
pub fn seen<S: Alter>(
    alloc: Global,
    conn: &mut Connection<S>,
    ids: &[Id],
) -> Result<Vec<Seen>, ReadFault>
    requires rest { conn.old.in_transaction ≡ false }
    requires run { IsRun ids.now }
    ensures mode { conn.new.in_transaction ≡ false }
    ensures finds { Finds (state S.Store conn.old) (state S.Store conn.new) result
        (λ stored seen. seen.items ≡ map (seen_in (tables_of stored).content) ids.now) }
{
    let records = scan::<Sysmods, S>(conn, ids)?;
    let sups = scan::<Sups, S>(conn, ids)?;
    let conds = scan::<Conds, S>(conn, ids)?;
    let holds = scan::<Holds, S>(conn, ids)?;
    let mut queues = Queues {
        records: Queue::new(records.as_slice()),
        sups: Queue::new(sups.as_slice()),
        conds: Queue::new(conds.as_slice()),
        holds: Queue::new(holds.as_slice()),
    };
    each_seen(alloc, &mut queues, ids)
}

// The record and the holds of each of some SYSMODs, by the rows.
fn each_seen(alloc: Global, queues: &mut Queues<'_>, ids: &[Id]) -> Result<Vec<Seen>, ReadFault>
    ensures { IfOk result (λ seen. (stored : Stored) → AreLeft stored ids.now queues.old
        → seen.items ≡ map (seen_in (tables_of stored).content) ids.now) }
{
    let mut seen = Vec::with_capacity(alloc, ids.len())?;
    for id in ids {
        seen.push(queues.take(alloc, id)?)?;
    }
    Ok(seen)
}

impl Queues<'_> {
    // The record and the holds of a SYSMOD, by its rows, which are taken.
    fn take(&mut self, alloc: Global, id: &Id) -> Result<Seen, ReadFault>
        ensures { IfOk result (λ seen. (stored : Stored) (later : List (List ℕ))
            → AreLeft stored (id.now ∷ later) self.old
            → (seen ≡ seen_in (tables_of stored).content id.now) × AreLeft stored later self.new) }
    {
        let conds = list_of::<Id, Conds>(alloc, self.conds.take(id))?;
        let sup = list_of::<Id, Sups>(alloc, self.sups.take(id))?;
        let holds = entries(alloc, self.holds.take(id))?;
        let sysmod = record_in(alloc, self.records.take(id), conds, sup)?;
        Ok(Seen { sysmod, holds })
    }
}
