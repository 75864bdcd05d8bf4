//! Replacing rows, list by list.
ghost use Rattle.std.specs.Prelude.{◌≡◌, ◌⊎◌, ◌+◌, ◌∷◌, [], List, flat_map, length, map, true};
ghost use Rattle.std.specs.List.{AllByRecursion, list_all};
ghost use Rattle.catalogue.specs.declared.change.Change.{Change};
ghost use Rattle.sql_tables.specs.Changes.{instead};
ghost use Rattle.sql_tables.specs.Fit.{IsFitChange};
ghost use Rattle.sql_tables.specs.Stored.{of_table};
ghost use Rattle.sql_writes.specs.Altering.{Alters, TakesRoom};
ghost use Rattle.sql_writes.specs.Many.{AreNewInPlace};
ghost use Rattle.sql_writes.specs.Records.{AreNewMembers, AreNewRecords, record_rows, values_of, with_members, with_sysmods};
ghost use Rattle.sql_writes.specs.Room.{is_short, is_short_change};

use crate::insert;
use crate::records::{SupRow, SysmodRow};
use crate::table::{InParts, Joined, Leaves};
use sql_rows::{All, Key, Sups};
use sqlite::{Alter, Error, Transaction};
use std::alloc::Global;

/// Replaces the rows of a key by those of these things, as many by one statement as it may have.
pub(crate) fn replace<K: Key, T: InParts<K> + Leaves<K>, S: Alter>(
    tx: &mut Transaction<'_, S>,
    key: &K,
    items: &[T::Item],
) -> Result<(), Error>
    ensures same { tx.new.conn.ghost_name ≡ tx.old.conn.ghost_name }
    ensures changes { Alters S.Store tx.old.conn.now tx.new.conn.now result
        (instead (of_table T.rows T.with_rows) (K.has key.now) (map (T.row_of key.now) items.now)) }
    ensures takes { AllByRecursion T.is_short items.now
        → AreNewInPlace (T.is_same key.now) (T.row_of key.now) items.now (K.has key.now) T.rows
        → TakesRoom S.Store tx.old.conn.now tx.new.conn.now result
        (length items.now) (λ stored. Unit {0}) }
{
    <T as Leaves<K>>::leave(tx, key)?;
    let mut at = 0;
    while at < items.len() {
        let count = (items.len() - at).min(<T as InParts<K>>::most());
        let text = <T as InParts<K>>::insertion(count);
        insert::rows::<K, T, S>(tx, text, key, &items[at..at + count])?;
        at += count;
    }
    Ok(())
}

/// Replaces the row of a key, with a list that is written as one text.
pub(crate) fn replace_joined<K: Key, T: Joined<K> + Leaves<K>, S: Alter>(
    alloc: Global,
    tx: &mut Transaction<'_, S>,
    key: &K,
    list: &[T::Part],
) -> Result<(), Error>
    ensures same { tx.new.conn.ghost_name ≡ tx.old.conn.ghost_name }
    ensures changes { Alters S.Store tx.old.conn.now tx.new.conn.now result
        (instead (of_table T.rows T.with_rows) (K.has key.now) (T.row_with key.now list.now ∷ [])) }
    ensures takes { is_short (T.text list.now) ≡ true
        → TakesRoom S.Store tx.old.conn.now tx.new.conn.now result 1 (λ stored. Unit {0}) }
{
    <T as Leaves<K>>::leave(tx, key)?;
    insert::joined::<K, T, S>(alloc, tx, key, list)
}

/// Inserts records: the row of one or those of eight, and then those of the ids that they supersede, eight rows by one
/// statement.
pub(crate) fn records<S: Alter>(
    tx: &mut Transaction<'_, S>,
    rows: &[SysmodRow],
    sups: &[SupRow],
) -> Result<(), Error>
    requires count { (length rows.now ≡ 1) ⊎ (length rows.now ≡ 8) }
    ensures same { tx.new.conn.ghost_name ≡ tx.old.conn.ghost_name }
    ensures changes { Alters S.Store tx.old.conn.now tx.new.conn.now result
        (λ stored. with_members sups.now (with_sysmods rows.now stored)) }
    ensures takes { (records : List Change) → map values_of rows.now ≡ flat_map record_rows records
        → AllByRecursion IsFitChange records → list_all is_short_change records ≡ true
        → TakesRoom S.Store tx.old.conn.now tx.new.conn.now result (length rows.now + length sups.now)
        (λ stored. AreNewRecords records stored.sysmods × AreNewMembers sups.now stored.sups) }
{
    insert::sysmods(tx, rows)?;
    let mut at = 0;
    while at < sups.len() {
        let count = (sups.len() - at).min(8);
        let text = <Sups as InParts<All>>::insertion(count);
        insert::rows::<All, Sups, S>(tx, text, &All, &sups[at..at + count])?;
        at += count;
    }
    Ok(())
}
