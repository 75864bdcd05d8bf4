//! The ids that were read, each once.
ghost use Rattle.std.specs.Prelude.{◌≡◌, ◌≤◌, IfOk};
ghost use Rattle.std.specs.BTreeMap.{keys};
ghost use Rattle.catalogue.specs.Ids.{Ascend};
ghost use Rattle.listings.specs.Gathered.{AreRead};

use mcs_reader::{Id, NoMemory};
use std::alloc::Global;
use std::collections::BTreeMap;

/// The ids that were read, ascending.
///
/// # Errors
///
/// `NoMemory` if memory ran out.
pub fn ids_found<T>(alloc: Global, found: &BTreeMap<Id, T>) -> Result<Vec<Id>, NoMemory>
    ensures ids { IfOk result (λ ids. ids.items ≡ keys found.now) }
    ensures ascend { IfOk result (λ ids. Ascend ids.items) }
{
    let mut ids = Vec::with_capacity(alloc, found.len())?;
    for id in found.keys() {
        ids.push(*id)?;
    }
    Ok(ids)
}

/// The index of the next id of an order that wasn't read yet, from an index on; the order's length if there is
/// none.
pub fn next_unread<T>(found: &BTreeMap<Id, T>, order: &[Id], from: usize) -> usize
    ensures after { from ≤ result }
    ensures read { AreRead (keys found.now) order.now from → AreRead (keys found.now) order.now result }
{
    let mut at = from;
    while at < order.len() {
        let id = order[at];
        if !found.contains_key(&id) {
            return at;
        }
        at += 1;
    }
    at
}
