//! The places of one list's ids in another list. Both lists ascend, and each is gone through once.
ghost use Rattle.std.specs.Prelude.{◌≡◌, ◌<◌, IfOk, OnOk, filter_map, length};
ghost use Rattle.std.specs.declared.cmp.Ordering.TheVariants.{Less};
ghost use Rattle.catalogue.specs.Ids.{Ascend, id_cmp};
ghost use Rattle.verdicts.specs.Indices.{id_at};
ghost use Rattle.listings.specs.Places as Places;
ghost use Rattle.listings.specs.Places.{AreLesser, ArePlaces, IsPlace};

use mcs_reader::{Id, NoMemory};
use std::alloc::Global;

/// Finds for each id of one list its index in another, if it is there.
pub(crate) fn places(alloc: Global, from: &[Id], to: &[Id]) -> Result<Vec<Option<usize>>, NoMemory>
    requires from { Ascend from.now }
    requires to { Ascend to.now }
    ensures { IfOk result (λ places. ArePlaces from.now to.now (length from.now) places.items) }
{
    let mut places = Vec::with_capacity(alloc, from.len())?;
    let mut next = 0;
    for id in from {
        next = past_lesser(to, next, id);
        places.push(place_here(to, next, id))?;
    }
    Ok(places)
}

// The first index at which no lesser id stands. All ids below `known` are known to be lesser.
fn past_lesser(ids: &[Id], known: usize, id: &Id) -> usize
    requires { AreLesser ids.now known id.now }
    ensures lesser { AreLesser ids.now result id.now }
    ensures next { result < length ids.now → id_cmp (id_at ids.now result) id.now ≡ Less → ⊥ }
{
    for index in known..ids.len() {
        if !ids[index].cmp(id).is_lt() {
            return index;
        }
    }
    ids.len()
}

// The index of an id that can stand only there, if it does.
fn place_here(ids: &[Id], index: usize, id: &Id) -> Option<usize>
    requires ascend { Ascend ids.now }
    requires lesser { AreLesser ids.now index id.now }
    requires next { index < length ids.now → id_cmp (id_at ids.now index) id.now ≡ Less → ⊥ }
    ensures { IsPlace ids.now id.now result }
{
    if index < ids.len() && ids[index] == *id {
        return Some(index);
    }
    None
}

/// Turns a list into that of the places of its indices, those without one left out.
pub(crate) fn put_moved(
    indices: &mut Vec<usize>,
    places: &[Option<usize>],
    row: &[usize],
) -> Result<(), NoMemory>
    ensures { OnOk result (indices.new.items ≡ filter_map (Places.place_at places.now) row.now) }
{
    indices.clear();
    for index in row {
        if let Some(place) = place_at(places, *index) {
            indices.push(place)?;
        }
    }
    Ok(())
}

fn place_at(places: &[Option<usize>], index: usize) -> Option<usize>
    ensures { result ≡ Places.place_at places.now index }
{
    places.get(index).copied().flatten()
}
