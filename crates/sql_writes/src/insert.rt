//! Inserting rows by one statement, after those of their table.
ghost use Rattle.std.specs.Prelude.{◌≡◌, ◌⊎◌, ◌<◌, ◌≤◌, ◌+◌, ◌*◌, ◌++◌, List, ◌∷◌, [], false, flat_map, length, map, true};
ghost use Rattle.std.specs.List.{AllByRecursion, list_all, list_any};
ghost use Rattle.catalogue.specs.declared.change.Change.{Change};
ghost use Rattle.bureau_store.specs.Store.{greatest_number};
ghost use Rattle.sql_texts.specs.Schema.{bureau};
ghost use Rattle.sql_tables.specs.Changes.{coming, is_under};
ghost use Rattle.sql_tables.specs.Fit.{IsFitChange, IsHold};
ghost use Rattle.sql_tables.specs.Rows.{caller_row, change_row, hold_row};
ghost use Rattle.sql_tables.specs.Stored.{caller_table, change_table, hold_table, is_of, of_table};
ghost use Rattle.sql_writes.specs.Altering.{Alters, RefusesExcused, TakesRoom, Turns};
ghost use Rattle.sql_writes.specs.Making.{AreFit, IsOpened};
ghost use Rattle.sql_writes.specs.Many.{AreNew, MeansBy, insert_alike, parameters_to};
ghost use Rattle.sql_writes.specs.Records.{AreNewRecords, record_rows, values_of, with_sysmods};
ghost use Rattle.bureau_store.specs.declared.caller.CallerRow.{CallerRow};
ghost use Rattle.sql_writes.specs.Room.{are_short, is_short, is_short_change};

use crate::params::{count_of, params_of};
use crate::records::SysmodRow;
use crate::run::run;
use crate::table::{self, Joined, Several};
use crate::texts;
use crate::values::number_of;
use bureau_store::CallerRow;
use holddata::Hold;
use mcs_reader::Id;
use sql_rows::{All, Key, Sysmods, id_of};
use sql_tables::{categories_value, date_value, hold_kind_value, optional_id_value};
use sqlite::types::ValueRef;
use sqlite::{Alter, Error, Transaction};
use std::alloc::Global;

/// Inserts the rows of things that belong to a key, all by one statement.
pub(crate) fn rows<'a, K: Key, T: Several<K>, S: Alter>(
    tx: &mut Transaction<'_, S>,
    text: &str,
    key: &'a K,
    items: &'a [T::Item],
) -> Result<(), Error>
    requires count { T.counts (length items.now) }
    requires means { MeansBy bureau text.now (insert_alike T.index K.parameters T.own (length items.now))
        (parameters_to (K.parameters + T.own * length items.now)) }
    ensures same { tx.new.conn.ghost_name ≡ tx.old.conn.ghost_name }
    ensures changes { Alters S.Store tx.old.conn.now tx.new.conn.now result
        (coming (of_table T.rows T.with_rows) (map (T.row_of key.now) items.now)) }
    ensures takes { AllByRecursion T.is_short items.now
        → TakesRoom S.Store tx.old.conn.now tx.new.conn.now result (length items.now)
        (λ stored. AreNew (T.is_same key.now) (T.row_of key.now) items.now (T.rows stored)) }
{
    let params = params_of::<K, T>(key, items);
    let count = count_of::<K, T>(items);
    run(tx, text, &params[..count])
}

/// Inserts a caller with its token. `opened` and `excused` speak of tables that were made with the callers before it.
pub(crate) fn caller<S: Alter>(tx: &mut Transaction<'_, S>, row: &CallerRow) -> Result<(), Error>
    ensures same { tx.new.conn.ghost_name ≡ tx.old.conn.ghost_name }
    ensures changes { Alters S.Store tx.old.conn.now tx.new.conn.now result
        (coming caller_table (caller_row row.now ∷ [])) }
    ensures opened { (before : List CallerRow)
        → Turns S.Store tx.old.conn.now tx.new.conn.now result
        (IsOpened before) (IsOpened (before ++ row.now ∷ [])) }
    ensures excused { (before : List CallerRow) → AreFit (before ++ row.now ∷ [])
        → RefusesExcused S.Store tx.old.conn.now tx.new.conn.now result (IsOpened before) }
{
    let params = [id_of(&row.name), ValueRef::Text(row.token.as_bytes())];
    run(tx, table::caller::insertion(), &params)
}

/// Inserts the last change of the caller of this name: its number and the reply that is kept.
pub(crate) fn last_change<S: Alter>(
    tx: &mut Transaction<'_, S>,
    name: &Id,
    number: u64,
    reply: &[u8],
) -> Result<(), Error>
    requires { number ≤ greatest_number }
    ensures same { tx.new.conn.ghost_name ≡ tx.old.conn.ghost_name }
    ensures changes { Alters S.Store tx.old.conn.now tx.new.conn.now result
        (coming change_table (change_row name.now (record { number = number; reply = reply.now }) ∷ [])) }
    ensures takes { 0 < number → is_short reply.now ≡ true
        → TakesRoom S.Store tx.old.conn.now tx.new.conn.now result 1
        (λ stored. list_any (is_of name.now) stored.changes ≡ false) }
{
    let params = [id_of(name), number_of(number), ValueRef::Blob(reply)];
    run(tx, table::last_change::insertion(), &params)
}

/// Inserts the row of a record of the catalogue, or those of eight.
pub(crate) fn sysmods<'a, S: Alter>(
    tx: &mut Transaction<'_, S>,
    rows: &'a [SysmodRow],
) -> Result<(), Error>
    requires count { (length rows.now ≡ 1) ⊎ (length rows.now ≡ 8) }
    ensures same { tx.new.conn.ghost_name ≡ tx.old.conn.ghost_name }
    ensures changes { Alters S.Store tx.old.conn.now tx.new.conn.now result (with_sysmods rows.now) }
    ensures takes { (records : List Change) → map values_of rows.now ≡ flat_map record_rows records
        → AllByRecursion IsFitChange records → list_all is_short_change records ≡ true
        → TakesRoom S.Store tx.old.conn.now tx.new.conn.now result (length rows.now)
        (λ stored. AreNewRecords records stored.sysmods) }
{
    let text = texts::sysmods(rows.len());
    self::rows::<All, Sysmods, S>(tx, text, &All, rows)
}

/// Inserts a hold.
pub(crate) fn hold<S: Alter>(tx: &mut Transaction<'_, S>, hold: &Hold) -> Result<(), Error>
    ensures same { tx.new.conn.ghost_name ≡ tx.old.conn.ghost_name }
    ensures changes { Alters S.Store tx.old.conn.now tx.new.conn.now result
        (coming hold_table (hold_row hold.now ∷ [])) }
    ensures takes { IsHold hold.now → are_short hold.now.categories ≡ true
        → TakesRoom S.Store tx.old.conn.now tx.new.conn.now result 1
        (λ stored. list_any (is_under hold.now.key) stored.holds ≡ false) }
{
    let params = [
        id_of(&hold.key.sysmod),
        hold_kind_value(hold.key.kind),
        id_of(&hold.key.reason),
        optional_id_value(&hold.fmid),
        optional_id_value(&hold.class),
        date_value(hold.dated),
        optional_id_value(&hold.resolver),
        categories_value(&hold.categories),
    ];
    run(tx, table::hold_row::insertion(), &params)
}

/// Inserts the row of a key, with a list that is written as one text.
pub(crate) fn joined<K: Key, T: Joined<K>, S: Alter>(
    alloc: Global,
    tx: &mut Transaction<'_, S>,
    key: &K,
    list: &[T::Part],
) -> Result<(), Error>
    ensures same { tx.new.conn.ghost_name ≡ tx.old.conn.ghost_name }
    ensures changes { Alters S.Store tx.old.conn.now tx.new.conn.now result
        (coming (of_table T.rows T.with_rows) (T.row_with key.now list.now ∷ [])) }
    ensures takes { is_short (T.text list.now) ≡ true
        → TakesRoom S.Store tx.old.conn.now tx.new.conn.now result 1
        (λ stored. list_any (K.has key.now) (T.rows stored) ≡ false) }
{
    let item = [<T as Joined<K>>::joined(alloc, list)?];
    rows::<K, T, S>(tx, <T as Joined<K>>::insertion(), key, &item)
}
