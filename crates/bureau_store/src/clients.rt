//! The clients' tables by name.
ghost use Rattle.std.specs.Prelude.{◌≡◌, ℕ, List, length, map, option_copied, unwrap_or, IfOk, OnOk, OnErr, if◌then◌else◌};
ghost use Rattle.std.specs.Map.{keys_of};
ghost use Rattle.std.specs.Str.{bytes_eq};
ghost use Rattle.bureau_store.specs.Effects.{IsAscending, effect_as};
ghost use Rattle.bureau_store.specs.Lists.{client_after, client_in, nothing_sent};
ghost use Rattle.bureau_store.specs.Tables.{NamesAscend};

use crate::Effect;
use crate::kept::{Client, Last, Zone};
use faults::NoMemory;
use mcs_reader::Id;
use std::alloc::Global;
use std::collections::BTreeMap;

/// The tables of the client of this name, if it has any.
pub(crate) fn client_of<'a>(clients: &'a BTreeMap<Id, Client>, name: &Id) -> Option<&'a Client>
    ensures { unwrap_or (option_copied result) nothing_sent ≡ client_in clients.now.entries name.now }
{
    clients.get(name)
}

/// Makes a change for one client. If memory runs out, all clients have what they had.
pub(crate) fn make_for(
    alloc: Global,
    clients: &mut BTreeMap<Id, Client>,
    client: &Id,
    effect: &Effect<'_>,
    last: Last,
) -> Result<(), NoMemory>
    requires { IsAscending effect.now }
    ensures done { OnOk result ((name : List ℕ) → client_in clients.new.entries name
        ≡ (if bytes_eq client.now name
        then client_after (effect_as effect.now) last (client_in clients.old.entries name)
        else client_in clients.old.entries name)) }
    ensures err { OnErr result ((name : List ℕ)
        → client_in clients.new.entries name ≡ client_in clients.old.entries name) }
    ensures ordered { (name : List ℕ)
        → NamesAscend (keys_of (client_in clients.old.entries name).zones)
        → NamesAscend (keys_of (client_in clients.new.entries name).zones) }
{
    if let Some(kept) = clients.get_mut(client) {
        return kept.make(effect, last);
    }
    let mut kept = Client::new(alloc);
    kept.make(effect, last)?;
    clients.insert(*client, kept)?;
    Ok(())
}

/// Zones with the counts of their rows, ascending by name.
pub(crate) fn zone_counts(
    alloc: Global,
    zones: &BTreeMap<Id, Zone>,
) -> Result<Vec<(Id, u64)>, NoMemory>
    ensures zones { IfOk result (λ counts. counts.items
        ≡ map (λ zone. (zone.0, length zone.1.rows)) zones.now.entries) }
    ensures ascend { IfOk result
        (λ counts. NamesAscend (map (λ zone. zone.0) counts.items)) }
{
    let counts = count_rows(alloc, zones)?;
    Ok(counts)
}

// Zones with the counts of their rows.
fn count_rows(alloc: Global, zones: &BTreeMap<Id, Zone>) -> Result<Vec<(Id, u64)>, NoMemory>
    ensures zones { IfOk result (λ counts. counts.items
        ≡ map (λ zone. (zone.0, length zone.1.rows)) zones.now.entries) }
    ensures ascend { OnOk result (NamesAscend (keys_of zones.now.entries)) }
{
    let mut counts = Vec::with_capacity(alloc, zones.len())?;
    for (name, zone) in zones {
        counts.push((*name, zone.row_count()))?;
    }
    Ok(counts)
}
