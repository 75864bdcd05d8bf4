//! The writes of each table, one file a table: their texts and what these mean, and how a thing becomes a row.
ghost use Rattle.std.specs.Prelude.{◌≡◌, ◌≤◌, ◌<◌, ◌+◌, ◌*◌, ◌∷◌, [], ℕ, Bool, IfOk, List, codes, false, length, take, true};
ghost use Rattle.std.specs.List.{list_any};
ghost use Rattle.sqlite.specs.Cast.{cast_row};
ghost use Rattle.sqlite.specs.Tree.{Trees, put_row};
ghost use Rattle.sqlite.specs.Values.{bound};
ghost use Rattle.sqlite.specs.declared.types.Value.TheVariants.{Null};
ghost use Rattle.sqlite_rules.specs.Keys.{are_unique};
ghost use Rattle.sqlite_trees.specs.Tree.{with_tree};
ghost use Rattle.sqlite_typing.specs.Types.{accepts_program};
ghost use Rattle.sqlite_value.specs.Order.{Row as Values};
ghost use Rattle.sql_texts.specs.Meaning.{Means, Reads};
ghost use Rattle.sql_texts.specs.Reads.{from_table};
ghost use Rattle.sql_texts.specs.Schema.{bureau};
ghost use Rattle.sql_texts.specs.Writes.{delete_of};
ghost use Rattle.sql_tables.specs.Changes.{going};
ghost use Rattle.sql_tables.specs.InTrees.{columns_of};
ghost use Rattle.sql_tables.specs.Stored.{of_table};
ghost use Rattle.sql_rows.specs.Fitting.{IsFitting};
ghost use Rattle.sql_writes.specs.Altering.{Alters, TakesRoom};
ghost use Rattle.sql_writes.specs.Asking.{first_in};
ghost use Rattle.sql_writes.specs.Many.{AreGiven, MeansBy, insert_alike, parameters_to, with_next};
ghost use Rattle.sql_writes.specs.Room.{is_short};

pub(crate) mod caller;
pub(crate) mod hold_row;
pub(crate) mod last_change;
mod received_list;
mod sysmod;
mod sysmod_cond;
mod sysmod_sup;
mod zone_head;
mod zone_row;

use crate::delete;
use sql_rows::{Key, Table};
use sql_tables::NoMemory;
use sqlite::types::ValueRef;
use sqlite::{Alter, Error, Transaction};
use std::alloc::Global;

/// A table from which the rows of a key are deleted.
pub trait Deletes<K: Key>: Table {
    /// The text that deletes them.
    fn deletion() -> &'static str
        ensures { Means bureau result.now (delete_of Self.index Self.table.tree K.tests) K.parameters };

    /// The database takes each key in its tests.
    ghost accepts: { (key : K)
        → accepts_program bureau [] (from_table Self.table.tree K.tests (0 ∷ []) []) (K.values key) ≡ true };
}

/// A table that is asked whether it has rows of a key.
pub trait Asked<K: Key>: Deletes<K> {
    /// The text that shows the rowids of the rows of a key.
    fn question() -> &'static str
        ensures { Reads bureau result.now (from_table Self.table.tree K.tests (0 ∷ []) [])
            (codes "rowid" ∷ []) K.parameters };
}

/// A table that is asked whether it has rows at all.
pub trait Bare: Table {
    /// The text that shows the rowid of one row, if there is any.
    fn first() -> &'static str
        ensures { Reads bureau result.now (first_in Self.table.tree) (codes "rowid" ∷ []) 0 };
}

/// A table from which the rows of a key are deleted before others come in their place, in the way that is fast for it.
pub trait Leaves<K: Key>: Deletes<K> {
    /// Deletes them, whether there are any or not.
    fn leave<S: Alter>(tx: &mut Transaction<'_, S>, key: &K) -> Result<(), Error>
        ensures same { tx.new.conn.ghost_name ≡ tx.old.conn.ghost_name }
        ensures changes { Alters S.Store tx.old.conn.now tx.new.conn.now result
            (going (of_table Self.rows Self.with_rows) (K.has key.now)) }
        ensures takes { TakesRoom S.Store tx.old.conn.now tx.new.conn.now result 0 (λ stored. Unit {0}) }
    {
        delete::any_of::<K, Self, S>(tx, key)
    }
}

/// A table into which things of a key are inserted, several by one statement.
pub trait Several<K: Key>: Table {
    /// The thing that comes.
    type Item;

    /// The number of columns that are of the thing alone, after those of the key.
    ghost own: { ℕ };

    /// The values of those columns.
    ghost values_of: { Self.Item → Values };

    /// The row of a thing.
    ghost row_of: { K → Self.Item → Values };

    /// The law of each thing.
    ghost is_fit: { Self.Item → Type 0 };

    /// The condition under which a database can store a thing.
    ghost is_short: { Self.Item → Type 0 };

    /// Whether a row has the key of the table that the row of a thing has.
    ghost is_same: { K → Self.Item → Values → Bool };

    /// Whether one statement may insert so many.
    ghost counts: { ℕ → Type 0 };

    /// A thing as the first of some parameters.
    fn columns<'a>(item: &'a Self::Item) -> [ValueRef<'a>; 5]
        ensures long { length result ≡ 5 }
        ensures bound { bound (take own result) ≡ values_of item.now }
        ensures fit { is_fit item.now };

    /// The number of columns that are of the thing alone.
    fn width() -> usize
        ensures width { result ≡ own }
        ensures few { result ≤ 5 };

    /// Forty parameters are enough.
    ghost room: { (count : ℕ) → counts count → K.parameters + own * count ≤ 40 };

    /// The parameters of the text make the rows of the things.
    ghost given: { (key : K) (items : List Self.Item) → counts (length items)
        → AreGiven Self.table K.parameters own (K.values key) values_of (row_of key) items };

    /// The values are of their columns' types.
    ghost cast: { (key : K) (item : Self.Item)
        → cast_row Self.table (Null ∷ row_of key item) ≡ Null ∷ row_of key item };

    /// They break no rule that speaks of one row.
    ghost fits: { (key : K) (item : Self.Item) → K.is_fit key → is_fit item → is_short item
        → IsFitting Self.table (row_of key item) };

    /// The test tells the keys of the table apart.
    ghost unique: { (db : Trees) (others : List Values) (key : K) (item : Self.Item) → K.is_fit key → is_fit item
        → list_any (is_same key item) (columns_of others) ≡ false
        → are_unique bureau.indexes
        (with_tree db Self.table.tree (put_row (with_next others (row_of key item)) others)) Self.table
        (with_next others (row_of key item) ∷ []) ≡ true };
}

/// A table into which a list of things is inserted, so many by one statement.
pub trait InParts<K: Key>: Several<K> {
    /// The most that one statement may have.
    ghost most: { ℕ };

    /// The most that one statement may have.
    fn most() -> usize
        ensures most { result ≡ most }
        ensures some { 0 < result };

    /// The text that inserts so many: the key, and then each of them.
    fn insertion(count: usize) -> &'static str
        requires some { 0 < count }
        requires few { count ≤ most }
        ensures { MeansBy bureau result.now (insert_alike Self.index K.parameters Self.own count)
            (parameters_to (K.parameters + Self.own * count)) };

    /// One statement may insert so many.
    ghost may_come: { (count : ℕ) → 0 < count → count ≤ most → Self.counts count };
}

/// A table with one row for a key, with a list that is written as one text.
pub trait Joined<K: Key>: Several<K, Item = Vec<u8>> {
    /// An entry of the list.
    type Part;

    /// The text of a list.
    ghost text: { List Self.Part → List ℕ };

    /// The row of a key with a list.
    ghost row_with: { K → List Self.Part → Values };

    /// The text that inserts the row: the key, and then the list.
    fn insertion() -> &'static str
        ensures { MeansBy bureau result.now (insert_alike Self.index K.parameters Self.own 1)
            (parameters_to (K.parameters + Self.own * 1)) };

    /// A list as it is written.
    fn joined(alloc: Global, list: &[Self::Part]) -> Result<Vec<u8>, NoMemory>
        ensures row { IfOk result (λ made. (key : K) → Self.row_of key made ≡ row_with key list.now) }
        ensures short { IfOk result (λ made. is_short (text list.now) ≡ true → Self.is_short made) };

    /// One statement may insert one.
    ghost one: { Self.counts 1 };

    /// A row has the key of the table if it has this key.
    ghost alone: { (key : K) (made : _) → Self.is_same key made ≡ K.has key };
}
