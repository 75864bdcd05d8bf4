//! The holds on installed SYSMODs.
ghost use Rattle.std.specs.Prelude.{◌≡◌, ◌==◌, ◌&&◌, ◌||◌, ℕ, List, filter, IfOk, OnOk};
ghost use Rattle.std.specs.BTreeMap.{is_at};
ghost use Rattle.std.specs.Cmp.Lexicographic.{slice_cmp};
ghost use Rattle.std.specs.List.{list_any};
ghost use Rattle.std.specs.Ordering.{nat_cmp};
ghost use Rattle.holddata.specs.HoldBook.{IsInKeyOrder};
ghost use Rattle.holddata.specs.HoldKey.{kind_order};
ghost use Rattle.zone_lists.specs.Installed.{is_installed, is_installed_state};
ghost use Rattle.catalogue.specs.Ids.{same_id};

use faults::NoMemory;
use holddata::{Hold, HoldBook, Kind};
use mcs_reader::Id;
use std::alloc::Global;
use std::collections::BTreeSet;
use zone_lists::{ZoneRow, ZoneState};

/// The holds of a kind on SYSMODs that rows have as installed.
pub(crate) fn held_among(
    alloc: Global,
    book: &HoldBook,
    rows: &[ZoneRow],
    kind: Kind,
) -> Result<Vec<Hold>, NoMemory>
    ensures holds { IfOk result (λ held. held.items
        ≡ filter (λ hold. is_installed rows.now hold.key.sysmod
        && (kind_order hold.key.kind == kind_order kind)) book.now) }
    ensures in_key_order { IfOk result (λ held. IsInKeyOrder held.items) }
{
    let installed = installed_in(alloc, rows)?;
    let mut held = Vec::new(alloc);
    for hold in book.iter() {
        if installed.contains(&hold.key.sysmod) && is_kind(hold.key.kind, kind) {
            held.push(hold.copy()?)?;
        }
    }
    Ok(held)
}

// The SYSMODs that rows have as installed.
fn installed_in(alloc: Global, rows: &[ZoneRow]) -> Result<BTreeSet<Id>, NoMemory>
    ensures { IfOk result (λ ids. (id : List ℕ) → list_any (is_at (slice_cmp nat_cmp id)) ids.keys
        ≡ is_installed rows.now id) }
{
    let mut ids = BTreeSet::new(alloc);
    for row in rows {
        put_installed(&mut ids, row)?;
    }
    Ok(ids)
}

fn put_installed(ids: &mut BTreeSet<Id>, row: &ZoneRow) -> Result<(), NoMemory>
    ensures { OnOk result ((id : List ℕ) → list_any (is_at (slice_cmp nat_cmp id)) ids.new.keys
        ≡ (list_any (is_at (slice_cmp nat_cmp id)) ids.old.keys
        || (same_id row.now.sysmod id && is_installed_state row.now.state))) }
{
    if is_installed(row.state) {
        ids.insert(row.sysmod)?;
    }
    Ok(())
}

fn is_installed(state: ZoneState) -> bool
    ensures { result ≡ is_installed_state state }
{
    match state {
        ZoneState::Applied | ZoneState::Accepted => true,
        ZoneState::Superseded => false,
    }
}

fn is_kind(kind: Kind, wanted: Kind) -> bool
    ensures { result ≡ (kind_order kind == kind_order wanted) }
{
    kind == wanted
}
