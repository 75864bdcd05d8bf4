//! All that is catalogued and all that it needs, as a list.
ghost use Rattle.std.specs.Prelude.{◌≡◌, ◌++◌, ℕ, List, Contains, IfOk, OnOk};
ghost use Rattle.std.specs.List.{flat_map};
ghost use Rattle.catalogue.specs.Ids.{Ascend};
ghost use Rattle.listings.specs.Sights.{all_needs};

use crate::conditional::push_each_need;
use crate::listing::Entry;
use mcs_reader::{Id, NoMemory};
use std::alloc::Global;
use verdicts::sort_each_once;

/// The catalogued ids and all that they need, whatever the zone, ascending, each once.
pub(crate) fn members_of(alloc: Global, ids: &[Id], entries: &[Entry]) -> Result<Vec<Id>, NoMemory>
    ensures ascend { IfOk result (λ members. Ascend members.items) }
    ensures ids { IfOk result (λ members. (id : List ℕ) → Contains ids.now id → Contains members.items id) }
    ensures needs { IfOk result (λ members. (id : List ℕ) →
        Contains (flat_map all_needs entries.now) id → Contains members.items id) }
{
    let mut members = listed_with_needs(alloc, ids, entries)?;
    sort_each_once(&mut members)?;
    Ok(members)
}

fn listed_with_needs(alloc: Global, ids: &[Id], entries: &[Entry]) -> Result<Vec<Id>, NoMemory>
    ensures { IfOk result (λ all. all.items ≡ ids.now ++ flat_map all_needs entries.now) }
{
    let mut all = Vec::from_slice(alloc, ids)?;
    push_needs(&mut all, entries)?;
    Ok(all)
}

/// Adds all ids that are named as a need, whatever the zone.
pub(crate) fn push_needs(all: &mut Vec<Id>, entries: &[Entry]) -> Result<(), NoMemory>
    ensures { OnOk result (all.new.items ≡ all.old.items ++ flat_map all_needs entries.now) }
{
    for entry in entries {
        all.extend_from_slice(entry.needs())?;
        push_each_need(all, entry.conds().as_slice())?;
    }
    Ok(())
}
