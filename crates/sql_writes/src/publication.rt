//! A publication: eight records at once with the holds between them, or one change after the other.
ghost use Rattle.std.specs.Prelude.{◌≡◌, ◌⊎◌, ◌≢◌, ◌<◌, ◌≤◌, ◌+◌, ◌∷◌, [], IsTrue, flat_map, fold, length, map, sum_by, take, true};
ghost use Rattle.std.specs.List.{AllByRecursion, list_all};
ghost use Rattle.mcs_reader.specs.Id.{IsId};
ghost use Rattle.holddata.specs.declared.hold.HoldChange.TheVariants.{Put};
ghost use Rattle.sql_tables.specs.Changes.{holds_changed, published};
ghost use Rattle.sql_tables.specs.Fit.{IsFitChange, IsHold};
ghost use Rattle.sql_writes.specs.Altering.{Alters, AltersWhere, TakesRoom};
ghost use Rattle.sql_writes.specs.Records.{AreApart, Begins, FreeIf, HasNoRest, IsApart, IsTogether, record_gone, record_rows, records_in, rest_count, rest_put, sups_of, values_of, with_members, with_sysmods};
ghost use Rattle.sql_writes.specs.Room.{are_short, is_short_change, rows_of_change};

use crate::free::are_free;
use crate::records::{SupRow, SysmodRow, sup_rows, sysmod_rows};
use crate::{delete, insert, load};
use catalogue::{Change, Sysmod};
use holddata::{Hold, HoldChange};
use mcs_reader::Id;
use sql_rows::Conds;
use sqlite::{Alter, Error, Transaction};
use std::alloc::Global;

/// Puts a hold in place of one with its key.
fn put_hold<S: Alter>(tx: &mut Transaction<'_, S>, hold: &Hold) -> Result<(), Error>
    ensures same { tx.new.conn.ghost_name ≡ tx.old.conn.ghost_name }
    ensures changes { Alters S.Store tx.old.conn.now tx.new.conn.now result
        (λ stored. record stored { holds = holds_changed (Put hold.now) stored.holds }) }
    ensures takes { IsHold hold.now → are_short hold.now.categories ≡ true
        → TakesRoom S.Store tx.old.conn.now tx.new.conn.now result 1 (λ stored. Unit {0}) }
{
    delete::hold(tx, &hold.key)?;
    insert::hold(tx, hold)
}

/// Puts what a change publishes, but for the row of a record and those of the ids that it supersedes.
fn put_rest<S: Alter>(tx: &mut Transaction<'_, S>, change: &Change) -> Result<(), Error>
    ensures same { tx.new.conn.ghost_name ≡ tx.old.conn.ghost_name }
    ensures changes { Alters S.Store tx.old.conn.now tx.new.conn.now result
        (λ stored. rest_put stored change.now) }
    ensures takes { IsFitChange change.now → is_short_change change.now ≡ true
        → TakesRoom S.Store tx.old.conn.now tx.new.conn.now result
        (rest_count change.now) (λ stored. Unit {0}) }
{
    match change {
        Change::Whole(sysmod) => {
            load::replace::<Id, Conds, S>(tx, &sysmod.id, sysmod.conds.as_slice())
        }
        Change::OfHold(HoldChange::Put(hold)) => put_hold(tx, hold),
        Change::OfHold(HoldChange::Release(key)) => delete::hold(tx, key),
    }
}

/// Whether nothing of a change is left to put but the row of a record and those of the ids that it supersedes. `free`
/// says that the record's id has no rows.
fn is_put(change: &Change, free: bool) -> bool
    ensures free { IsTrue result → IsTrue free }
    ensures none { IsTrue result → HasNoRest change.now }
{
    match change {
        Change::Whole(sysmod) => free && sysmod.conds.as_slice().is_empty(),
        Change::OfHold(_) => false,
    }
}

/// Puts the rows of records, and those of the ids that they supersede, in place of those that are there. `first` is the
/// first of the changes, and `free` says that their ids have no rows.
fn put_rows<S: Alter>(
    tx: &mut Transaction<'_, S>,
    first: &Sysmod,
    changes: &[Change],
    rows: &[SysmodRow],
    sups: &[SupRow],
    free: bool,
) -> Result<(), Error>
    requires first { Begins first.now changes.now }
    requires count { (records_in changes.now ≡ 1) ⊎ (records_in changes.now ≡ 8) }
    requires apart { AreApart changes.now }
    requires rows { map values_of rows.now ≡ flat_map record_rows changes.now }
    requires sups { sups.now ≡ flat_map sups_of changes.now }
    ensures same { tx.new.conn.ghost_name ≡ tx.old.conn.ghost_name }
    ensures changes { AltersWhere S.Store tx.old.conn.now tx.new.conn.now result (FreeIf free changes.now)
        (λ stored. with_members sups.now (with_sysmods rows.now (fold record_gone stored changes.now))) }
    ensures takes { AllByRecursion IsFitChange changes.now → list_all is_short_change changes.now ≡ true
        → TakesRoom S.Store tx.old.conn.now tx.new.conn.now result
        (length rows.now + length sups.now) (FreeIf free changes.now) }
{
    if free {
        return load::records(tx, rows, sups);
    }
    delete::records(tx, first, &changes[1..])?;
    load::records(tx, rows, sups)
}

/// Puts a record in place of the one that is there, or eight of them with the holds between them. `free` says that
/// their ids have no rows.
fn put_records<S: Alter>(
    alloc: Global,
    tx: &mut Transaction<'_, S>,
    first: &Sysmod,
    changes: &[Change],
    free: bool,
) -> Result<(), Error>
    requires first { Begins first.now changes.now }
    requires count { (records_in changes.now ≡ 1) ⊎ (records_in changes.now ≡ 8) }
    requires apart { AreApart changes.now }
    ensures same { tx.new.conn.ghost_name ≡ tx.old.conn.ghost_name }
    ensures changes { AltersWhere S.Store tx.old.conn.now tx.new.conn.now result (FreeIf free changes.now)
        (λ stored. fold published stored changes.now) }
    ensures takes { AllByRecursion IsFitChange changes.now → list_all is_short_change changes.now ≡ true
        → TakesRoom S.Store tx.old.conn.now tx.new.conn.now result
        (sum_by rows_of_change changes.now) (FreeIf free changes.now) }
{
    let rows = sysmod_rows(alloc, changes)?;
    let sups = sup_rows(alloc, changes)?;
    put_rows(tx, first, changes, rows.as_slice(), sups.as_slice(), free)?;
    for change in changes {
        if is_put(change, free) {
            continue;
        }
        put_rest(tx, change)?;
    }
    Ok(())
}

/// Makes one change, or puts eight records at once with the holds between them. `free` says that the records' ids have
/// no rows.
fn put_together<S: Alter>(
    alloc: Global,
    tx: &mut Transaction<'_, S>,
    changes: &[Change],
    free: bool,
) -> Result<(), Error>
    requires together { IsTogether changes.now }
    ensures same { tx.new.conn.ghost_name ≡ tx.old.conn.ghost_name }
    ensures changes { AltersWhere S.Store tx.old.conn.now tx.new.conn.now result (FreeIf free changes.now)
        (λ stored. fold published stored changes.now) }
    ensures takes { AllByRecursion IsFitChange changes.now → list_all is_short_change changes.now ≡ true
        → TakesRoom S.Store tx.old.conn.now tx.new.conn.now result
        (sum_by rows_of_change changes.now) (FreeIf free changes.now) }
{
    match &changes[0] {
        Change::Whole(first) => put_records(alloc, tx, first, changes, free),
        Change::OfHold(_) => put_rest(tx, &changes[0]),
    }
}

// Compares them by their texts: `as_bytes` says of each that it is an id's.
fn differ(one: &Id, other: &Id) -> bool
    ensures differ { IsTrue result → one.now ≢ other.now }
    ensures is_id { IsId one.now }
{
    one.as_bytes() != other.as_bytes()
}

/// Whether a change is no record of this id.
fn is_apart(id: &Id, change: &Change) -> bool
    ensures { IsTrue result → IsApart id.now change.now }
{
    match change {
        Change::Whole(sysmod) => differ(id, &sysmod.id),
        Change::OfHold(_) => true,
    }
}

/// Whether no change is a record of this id.
fn are_others(id: &Id, changes: &[Change]) -> bool
    ensures { IsTrue result → AllByRecursion (IsApart id.now) changes.now }
{
    for change in changes {
        if !is_apart(id, change) {
            return false;
        }
    }
    true
}

/// Whether the changes after this one are no records of its id. A change of a hold has none.
fn is_first_apart(first: &Change, changes: &[Change]) -> bool
    ensures { IsTrue result → AreApart changes.now → AreApart (first.now ∷ changes.now) }
{
    match first {
        Change::Whole(sysmod) => are_others(&sysmod.id, changes),
        Change::OfHold(_) => true,
    }
}

/// Whether no two are records of one id.
fn are_apart(changes: &[Change]) -> bool
    ensures { IsTrue result → AreApart changes.now }
{
    let mut at = changes.len();
    while at > 0 {
        if !is_first_apart(&changes[at - 1], &changes[at..]) {
            return false;
        }
        at -= 1;
    }
    true
}

/// 1 for a record, and 0 for a hold that is put or released.
fn records_of(change: &Change) -> usize
    ensures counted { result ≡ records_in (change.now ∷ []) }
    ensures most { result ≤ 1 }
{
    match change {
        Change::Whole(_) => 1,
        Change::OfHold(_) => 0,
    }
}

/// The number of changes up to the eighth record; none if fewer records are among the first 64.
fn to_eighth(changes: &[Change]) -> usize
    ensures within { result ≤ length changes.now }
    ensures eight { 0 < result → records_in (take result changes.now) ≡ 8 }
{
    let mut records = 0;
    for at in 0..changes.len().min(64) {
        records += records_of(&changes[at]);
        if records == 8 {
            return at + 1;
        }
    }
    0
}

/// The number of changes that are made at once: those up to the eighth record, if the first is a record and no two of
/// them have one id; or the first alone.
fn together(changes: &[Change]) -> usize
    requires { 0 < length changes.now }
    ensures some { 0 < result }
    ensures within { result ≤ length changes.now }
    ensures together { IsTogether (take result changes.now) }
{
    let count = to_eighth(changes);
    if count > 0 && records_of(&changes[0]) == 1 && are_apart(&changes[..count]) {
        return count;
    }
    1
}

/// Makes all changes of a publication in turn.
pub(crate) fn put_changes<S: Alter>(
    alloc: Global,
    tx: &mut Transaction<'_, S>,
    changes: &[Change],
) -> Result<(), Error>
    ensures same { tx.new.conn.ghost_name ≡ tx.old.conn.ghost_name }
    ensures changes { Alters S.Store tx.old.conn.now tx.new.conn.now result
        (λ stored. fold published stored changes.now) }
    ensures takes { AllByRecursion IsFitChange changes.now → list_all is_short_change changes.now ≡ true
        → TakesRoom S.Store tx.old.conn.now tx.new.conn.now result
        (sum_by rows_of_change changes.now) (λ stored. Unit {0}) }
{
    let free = are_free(alloc, tx, changes)?;
    let mut at = 0;
    while at < changes.len() {
        let count = together(&changes[at..]);
        put_together(alloc, tx, &changes[at..at + count], free)?;
        at += count;
    }
    Ok(())
}
