//! The keys by which rows are found: an id, a client's zone, or none if all rows are asked for.
ghost use Rattle.std.specs.Prelude.{◌≡◌, ◌≤◌, ℕ, Bool, drop, length, List, map, take};
ghost use Rattle.std.specs.List.{range_with_len};
ghost use Rattle.mcs_reader.specs.Id.{IsId};
ghost use Rattle.sqlite.specs.Term.{Term};
ghost use Rattle.sqlite.specs.Values.{bound};
ghost use Rattle.sqlite_value.specs.Order.{Row as Values};
ghost use Rattle.sqlite_value.specs.Value.{owned};
ghost use Rattle.sql_tables.specs.Values as spec;
ghost use Rattle.sql_texts.specs.Found.{passes};
ghost use Rattle.sql_texts.specs.Meaning.{parameter};

use mcs_reader::Id;
use sqlite::types::ValueRef;

/// The first columns of rows, by which they are found.
pub trait Key {
    /// The values of those columns.
    ghost values: { Self → Values };

    /// The law of each key.
    ghost is_fit: { Self → Type 0 };

    /// Whether a row's first columns are this key.
    ghost has: { Self → Values → Bool };

    /// The tests by which a text finds the rows of a key, which are its parameters.
    ghost tests: { List Term };

    /// The number of these parameters.
    ghost parameters: { ℕ };

    /// The key as it is bound to the first parameters of a text.
    fn params<'a>(&'a self) -> [ValueRef<'a>; 3]
        ensures long { length result ≡ 3 }
        ensures bound { bound (take parameters result) ≡ values self.now }
        ensures fit { is_fit self.now };

    /// The number of these parameters.
    fn count() -> usize
        ensures count { result ≡ parameters }
        ensures few { result ≤ 3 };

    /// The tests find the rows of the key, each after its rowid.
    ghost given: { (key : Self) → is_fit key
        → (row : Values) → passes (values key) tests row ≡ has key (drop 1 row) };

    /// Each parameter has a value.
    ghost counted: { (key : Self) → length (values key) ≡ length (map parameter (range_with_len 1 parameters)) };
}

/// An id by its text.
pub fn id_of(id: &Id) -> ValueRef<'_>
    ensures value { owned result ≡ spec.id_value id.now }
    ensures is_id { IsId id.now }
{
    ValueRef::Text(id.as_bytes())
}

impl Key for Id {
    ghost use Rattle.std.specs.Prelude.{◌∷◌, [], refl};
    ghost use Rattle.mcs_reader.specs.Id.{IsId};
    ghost use Rattle.sql_texts.specs.Reads.{is_given};
    ghost use Rattle.sql_tables.specs.Stored.{is_of};
    ghost use Rattle.sql_tables.specs.Values.{id_value};
    ghost use Rattle.sql_tables.proofs.TextFacts.{of_given};

    ghost values = { λ id. id_value id ∷ [] };

    ghost is_fit = { IsId };

    ghost has = { is_of };

    ghost tests = { is_given 1 0 ∷ [] };

    ghost parameters = { 1 };

    fn params<'a>(&'a self) -> [ValueRef<'a>; 3] {
        [id_of(self), ValueRef::Null, ValueRef::Null]
    }

    fn count() -> usize {
        1
    }

    ghost given = { of_given };

    ghost counted = { λ id. refl };
}

/// A zone of a client.
#[derive(Clone, Copy)]
pub struct Zone {
    /// The client.
    pub client: Id,
    /// The name of the zone.
    pub zone: Id,
}

impl Key for Zone {
    ghost use Rattle.std.specs.Prelude.{◌∷◌, [], refl};
    ghost use Rattle.mcs_reader.specs.Id.{IsId};
    ghost use Rattle.sql_texts.specs.Reads.{is_given};
    ghost use Rattle.sql_tables.specs.Stored.{is_of_both};
    ghost use Rattle.sql_tables.specs.Values.{id_value};
    ghost use Rattle.sql_tables.proofs.TextFacts.{both_given};

    ghost values = { λ key. id_value key.client ∷ id_value key.zone ∷ [] };

    ghost is_fit = { λ key. IsId key.client × IsId key.zone };

    ghost has = { λ key. is_of_both key.client key.zone };

    ghost tests = { is_given 1 0 ∷ is_given 2 1 ∷ [] };

    ghost parameters = { 2 };

    fn params<'a>(&'a self) -> [ValueRef<'a>; 3] {
        [id_of(&self.client), id_of(&self.zone), ValueRef::Null]
    }

    fn count() -> usize {
        2
    }

    ghost given = { λ key fit. both_given key.client key.zone fit.0 fit.1 };

    ghost counted = { λ key. refl };
}

/// All rows of a table, whatever their columns.
#[derive(Clone, Copy)]
pub struct All;

impl Key for All {
    ghost use Rattle.std.specs.Prelude.{[], refl, true};

    ghost values = { λ key. [] };

    ghost is_fit = { λ key. Unit {0} };

    ghost has = { λ key row. true };

    ghost tests = { [] };

    ghost parameters = { 0 };

    fn params<'a>(&'a self) -> [ValueRef<'a>; 3] {
        [ValueRef::Null; 3]
    }

    fn count() -> usize {
        0
    }

    ghost given = { λ key fit row. refl };

    ghost counted = { λ key. refl };
}
