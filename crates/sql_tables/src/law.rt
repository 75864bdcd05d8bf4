//! Laws on the tables that rows stand for, and on a change of both.
ghost use Rattle.std.specs.Prelude.{◌≡◌, ℕ, suc, Bool, true, List, [], ◌∷◌, drop, map, filter, Some, None, if◌then◌else◌};
ghost use Rattle.std.specs.List.{AllByRecursion, Contains, filter_map, list_any};
ghost use Rattle.std.specs.List.Sorted.{IsPermutation};
ghost use Rattle.mcs_reader.specs.Id.{IsId};
ghost use Rattle.holddata.specs.HoldBook.{IsInKeyOrder};
ghost use Rattle.holddata.specs.declared.hold.Hold.{Hold as SomeHold};
ghost use Rattle.holddata.specs.declared.key.HoldKey.{HoldKey};
ghost use Rattle.zone_lists.specs.ZoneList.{RowsAscend};
ghost use Rattle.zone_lists.specs.declared.zones.ZoneRow.{ZoneRow as SomeZoneRow};
ghost use Rattle.catalogue.specs.Content.{ids_in, ids_of, record_of};
ghost use Rattle.catalogue.specs.Ids.{Ascend};
ghost use Rattle.catalogue.specs.declared.sysmod.Sysmod.{Sysmod as SomeSysmod};
ghost use Rattle.bureau_store.specs.Caller.{caller_named, caller_with};
ghost use Rattle.bureau_store.specs.Effect.{Effect, tables_after};
ghost use Rattle.bureau_store.specs.SetCallers as set;
ghost use Rattle.bureau_store.specs.SetCallers.{counts_of, names_that_change};
ghost use Rattle.bureau_store.specs.Tables as tables;
ghost use Rattle.bureau_store.specs.Tables.{AreInOrder, LastChange, NamesAscend, zone_named};
ghost use Rattle.bureau_store.specs.declared.caller.Caller.{Caller as SomeCaller};
ghost use Rattle.bureau_store.specs.declared.caller.CallerRow.{CallerRow as SomeCallerRow};
ghost use Rattle.sqlite_value.specs.Order.{Row, column};
ghost use Rattle.sql_tables.specs.Changes.{stored_after, with_callers};
ghost use Rattle.sql_tables.specs.Fit.{CanBeMade, CanBeWritten};
ghost use Rattle.sql_tables.specs.Rows.{caller_found, caller_row, hold_found, sysmod_found};
ghost use Rattle.sql_tables.specs.Stored.{Stored, beside_of, content_of, has_token, is_of, is_of_both, opened, rows_as_stored, shown, sysmods_of, tables_of, zone_of, zone_rows_of, zones_of};
ghost use Rattle.sql_tables.specs.Values.{id_in};
ghost use Rattle.sql_tables.specs.Whole.{IsWhole};

/// The tables that rows stand for are in order, whatever rows there are.
#[tactic(auto, using(crate::proofs::ChangeFacts::tables_in_order))]
pub fn order()
    ensures { (stored : Stored) → AreInOrder (tables_of stored) }
{}

/// The rows of the callers alone stand for the tables of a store that is new.
#[tactic(auto, using(crate::proofs::ChangeFacts::opened_tables))]
pub fn opening()
    ensures { (rows : List SomeCallerRow) → AllByRecursion (λ row. IsId row.name) rows
        → tables_of (opened (map caller_row rows)) ≡ tables.opened rows }
{}

/// The rows after a change stand for the tables after it.
#[tactic(auto, using(crate::proofs::ChangeFacts::change_made))]
pub fn change()
    ensures { (caller : SomeCaller) (effect : Effect) (last : LastChange) (stored : Stored)
        → CanBeMade caller effect (tables_of stored)
        → tables_of (stored_after caller effect last stored)
        ≡ tables_after caller effect last (tables_of stored) }
{}

/// The rows with other callers stand for the tables with other callers, if the callers before were read in the order of
/// their names: `found` are those of the tables. The same numbers of callers come and go.
pub fn other_callers()
    ensures tables { (found rows : List SomeCallerRow) (stored : Stored)
        → AllByRecursion (λ row. IsId row.name) rows
        → NamesAscend (map (λ row. row.name) found) → IsPermutation (tables_of stored).callers found
        → tables_of (with_callers (names_that_change found rows) rows stored)
        ≡ set.with_callers rows (tables_of stored) }
    ensures counts { (found rows these : List SomeCallerRow)
        → NamesAscend (map (λ row. row.name) found) → IsPermutation these found
        → counts_of found rows ≡ counts_of these rows }
{}

/// Rows with other callers are whole if those before were.
pub fn whole_with_callers()
    ensures { (names : List (List ℕ)) (rows : List SomeCallerRow) (stored : Stored)
        → AllByRecursion (λ row. IsId row.name) rows → IsWhole stored
        → IsWhole (with_callers names rows stored) }
{}

/// The rows of the callers alone are whole.
#[tactic(auto, using(crate::proofs::WholeFacts::whole_opened))]
pub fn whole_opened()
    ensures { (rows : List SomeCallerRow) → AllByRecursion (λ row. IsId row.name) rows
        → IsWhole (opened (map caller_row rows)) }
{}

/// Each change that writes fit values leaves rows whole.
pub fn whole_after()
    ensures { (caller : SomeCaller) (effect : Effect) (last : LastChange) (stored : Stored)
        → CanBeWritten caller effect → IsWhole stored
        → IsWhole (stored_after caller effect last stored) }
{}

/// A read of a zone's rows that ascend finds the zone's rows.
#[tactic(auto, using(crate::proofs::ReadFacts::zone_rows_read))]
pub fn zone_rows()
    ensures { (rows : List Row) (client zone : List ℕ) (found : List SomeZoneRow) → RowsAscend found
        → IsPermutation (rows_as_stored rows client zone) found → found ≡ zone_rows_of rows client zone }
{}

/// A zone is there under its name if the client's heads have a row for it, with its rows and its patterns.
#[tactic(auto, using(crate::proofs::ClientFacts::zone_found))]
pub fn zone()
    ensures { (stored : Stored) (client zone : List ℕ) → zone_named zone (zones_of stored client)
        ≡ (if list_any (is_of_both client zone) stored.heads then Some (zone_of stored client zone)
        else None) }
{}

/// A read of holds in the order of their keys finds those of the book, if it finds exactly the holds of the rows whose
/// keys are asked for.
pub fn holds()
    ensures { (stored : Stored) (found : List SomeHold) (asked : HoldKey → Bool) → IsInKeyOrder found
        → ((hold : SomeHold) → Contains found hold
        → Contains (filter_map hold_found stored.holds) hold × (asked hold.key ≡ true))
        → ((hold : SomeHold) → Contains (filter_map hold_found stored.holds) hold → asked hold.key ≡ true
        → Contains found hold)
        → found ≡ filter (λ hold. asked hold.key) (content_of stored).holds }
{}

/// A token that no row of a caller has is no caller's.
#[tactic(auto, using(crate::proofs::CallerFacts::no_caller))]
pub fn no_caller()
    ensures { (rows : List Row) (token : List ℕ) → filter (has_token token) rows ≡ []
        → caller_with (filter_map caller_found rows) token ≡ None }
{}

/// A token that one row of a caller has is that caller's.
pub fn caller()
    ensures { (rows : List Row) (token : List ℕ) (row : Row) (name : List ℕ)
        → filter (has_token token) rows ≡ row ∷ [] → has_token token row ≡ true
        → id_in (column row 0) ≡ Some name
        → caller_with (filter_map caller_found rows) token ≡ Some (caller_named name) }
{}

/// An id that no row of a record has is not catalogued.
#[tactic(auto, using(crate::proofs::RecordFacts::no_record))]
pub fn no_record()
    ensures { (stored : Stored) (id : List ℕ) → filter (is_of id) stored.sysmods ≡ []
        → record_of (content_of stored) id ≡ None }
{}

/// The one row of an id says its record, together with the rows of other tables.
pub fn record_of_row()
    ensures { (stored : Stored) (id : List ℕ) (row : Row) (sysmod : SomeSysmod)
        → filter (is_of id) stored.sysmods ≡ row ∷ [] → is_of id row ≡ true
        → sysmod_found (beside_of stored id) row ≡ Some sysmod
        → record_of (content_of stored) id ≡ Some sysmod }
{}

/// A read in order of exactly the ids of the records finds the ids that are catalogued.
pub fn ids()
    ensures { (stored : Stored) (found : List (List ℕ)) → Ascend found
        → ((id : List ℕ) → Contains (ids_in (sysmods_of (beside_of stored) stored.sysmods)) id
        → Contains found id)
        → ((id : List ℕ) → Contains found id
        → Contains (ids_in (sysmods_of (beside_of stored) stored.sysmods)) id)
        → found ≡ ids_of (content_of stored) }
{}

/// A read shows the same columns of a row in its tree, after the rowid, as of the row alone.
#[tactic(auto, using(crate::proofs::TreeFacts::shown_after))]
pub fn columns()
    ensures { (indices : List ℕ) (row : Row) → shown indices (drop 1 row) ≡ shown (map suc indices) row }
{}
