//! Records whose ids have no rows: nothing has to be looked for and deleted before their rows come.
ghost use Rattle.std.specs.Prelude.{◌≡◌, ◌++◌, IfOk, IsTrue, OnOk, flat_map};
ghost use Rattle.std.specs.List.{AllByRecursion};
ghost use Rattle.std.specs.List.Sorted.{IsPermutation};
ghost use Rattle.catalogue.specs.Ids.{Ascend};
ghost use Rattle.mcs_reader.specs.Id.{IsId};
ghost use Rattle.sql_writes.specs.Asking.{Asks, FindsBare, FindsFree, FindsRows};
ghost use Rattle.sql_writes.specs.Records.{AreApart, ids_in};

use crate::table::Bare;
use catalogue::{Change, NoMemory};
use mcs_reader::Id;
use sql_rows::{Conds, Sups, Sysmods};
use sqlite::{Alter, Error, Transaction};
use std::alloc::Global;

/// Whether a table has rows.
fn has_rows<T: Bare, S: Alter>(tx: &mut Transaction<'_, S>) -> Result<bool, Error>
    ensures same { tx.new.conn.ghost_name ≡ tx.old.conn.ghost_name }
    ensures asks { Asks S.Store tx.old.conn.now tx.new.conn.now result }
    ensures found { IfOk result (FindsRows S.Store tx.old.conn.now tx.new.conn.now T.rows) }
{
    let rows = tx.query_all(T::first(), &[])?;
    let found = rows.as_slice();
    Ok(!found.is_empty())
}

/// Whether no record is catalogued, and no record has rows of superseded ids or of requisites under a
/// condition.
fn is_bare<S: Alter>(tx: &mut Transaction<'_, S>) -> Result<bool, Error>
    ensures same { tx.new.conn.ghost_name ≡ tx.old.conn.ghost_name }
    ensures asks { Asks S.Store tx.old.conn.now tx.new.conn.now result }
    ensures bare { IfOk result (FindsBare S.Store tx.old.conn.now tx.new.conn.now) }
{
    if has_rows::<Sysmods, S>(tx)? {
        return Ok(false);
    }
    if has_rows::<Sups, S>(tx)? {
        return Ok(false);
    }
    let conds = has_rows::<Conds, S>(tx)?;
    Ok(!conds)
}

fn add_id(ids: &mut Vec<Id>, change: &Change) -> Result<(), NoMemory>
    ensures more { OnOk result (ids.new.items ≡ ids.old.items ++ ids_in change.now) }
    ensures is_id { AllByRecursion IsId (ids_in change.now) }
{
    match change {
        Change::Whole(sysmod) => {
            let _text = sysmod.id.as_bytes();
            ids.push(sysmod.id)?;
        }
        Change::OfHold(_) => {}
    }
    Ok(())
}

/// The ids of the records.
fn ids_of(alloc: Global, changes: &[Change]) -> Result<Vec<Id>, NoMemory>
    ensures ids { IfOk result (λ ids. ids.items ≡ flat_map ids_in changes.now) }
    ensures are_ids { IfOk result (λ ids. AllByRecursion IsId (flat_map ids_in changes.now)) }
{
    let mut ids = Vec::with_capacity(alloc, changes.len())?;
    for change in changes {
        add_id(&mut ids, change)?;
    }
    Ok(ids)
}

/// Whether ids ascend, each once.
fn do_ascend(ids: &[Id]) -> bool
    ensures { IsTrue result → Ascend ids.now }
{
    ids.is_sorted_by(|id, next| id.cmp(next).is_lt())
}

/// The ids of the records, in ascending order.
fn sorted_ids(alloc: Global, changes: &[Change]) -> Result<Vec<Id>, NoMemory>
    ensures same { IfOk result (λ ids. IsPermutation (flat_map ids_in changes.now) ids.items) }
    ensures are_ids { IfOk result (λ ids. AllByRecursion IsId (flat_map ids_in changes.now)) }
{
    let mut ids = ids_of(alloc, changes)?;
    ids.sort()?;
    Ok(ids)
}

/// Whether no two of the changes are records of one id, however many they are. It answers no if memory runs
/// out.
fn are_all_apart(alloc: Global, changes: &[Change]) -> bool
    ensures { IsTrue result → AreApart changes.now }
{
    match sorted_ids(alloc, changes) {
        Ok(ids) => do_ascend(ids.as_slice()),
        Err(_) => false,
    }
}

/// Whether the ids of these records have no rows, and no two have one id. It answers yes only if nothing is
/// catalogued: then three reads answer for all records.
pub(crate) fn are_free<S: Alter>(
    alloc: Global,
    tx: &mut Transaction<'_, S>,
    changes: &[Change],
) -> Result<bool, Error>
    ensures same { tx.new.conn.ghost_name ≡ tx.old.conn.ghost_name }
    ensures asks { Asks S.Store tx.old.conn.now tx.new.conn.now result }
    ensures free { IfOk result (FindsFree S.Store tx.old.conn.now tx.new.conn.now changes.now) }
{
    if is_bare(tx)? {
        return Ok(are_all_apart(alloc, changes));
    }
    Ok(false)
}
