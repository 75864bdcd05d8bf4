//! The ids that each member supersedes, by the indices of members.
ghost use Rattle.std.specs.Prelude.{◌≡◌, ℕ, List, IfOk, length, map};
ghost use Rattle.catalogue.specs.Ids.{Ascend};
ghost use Rattle.listings.specs.SeenIndices.{IsSupSeen};
ghost use Rattle.listings.specs.ListedRows.{sight_placed};
ghost use Rattle.listings.specs.Places as Places;
ghost use Rattle.listings.specs.Places.{ArePlaces, IsPlace};
ghost use Rattle.listings.specs.Sights as Sights;
ghost use Rattle.listings.specs.Sights.{IsSeen, Sight};
ghost use Rattle.listings.specs.Superseders.{AreSuperseders};

use crate::listing::Entry;
use crate::places::{places, put_moved};
use crate::superseders::Superseders;
use mcs_reader::{Id, NoMemory};
use requisites::Rows;
use std::alloc::Global;

/// Turns the SUP of a listing, which has indices of its own, into indices of members. `listed` has the index of each
/// member among the listed ids.
pub(crate) fn moved_supersedes(
    alloc: Global,
    members: &[Id],
    listed: &[Option<usize>],
    superseders: &Superseders,
) -> Result<Rows, NoMemory>
    requires members { Ascend members.now }
    requires superseded { Ascend superseders.now.superseded.items }
    ensures { IfOk result (λ rows. (f : List ℕ → Sight) (ids : List (List ℕ))
        → AreSuperseders (map f ids) superseders.now.superseded.items
        superseders.now.below superseders.now.above
        → ArePlaces members.now ids (length members.now) listed.now
        → IsSupSeen f ids members.now (length members.now) rows) }
{
    let moved = places(alloc, superseders.superseded(), members)?;
    let mut rows = Rows::new(alloc);
    let mut indices = Vec::new(alloc);
    for place in listed {
        put_moved(&mut indices, &moved, row_at(superseders.below(), *place))?;
        rows.push_row(&indices)?;
    }
    Ok(rows)
}

// The row at a place; an empty one if there is no place.
fn row_at(rows: &Rows, place: Option<usize>) -> &[usize]
    ensures { result.now ≡ Places.row_at rows.now place }
{
    match place {
        Some(index) => rows.row(index),
        None => &[],
    }
}

/// The entry of an id, by its index among all that are listed; unseen if it has none.
pub(crate) fn entry_at<'a>(
    entries: &'a [Entry],
    unseen: &'a Entry,
    place: Option<usize>,
) -> &'a Entry
    requires { unseen.now ≡ Sights.unseen }
    ensures value { result.now ≡ sight_placed entries.now place }
    ensures seen { (f : List ℕ → Sight) (ids : List (List ℕ)) (id : List ℕ) → entries.now ≡ map f ids
        → IsPlace ids id place → IsSeen f ids id result.now }
{
    let Some(index) = place else {
        return unseen;
    };
    if index < entries.len() {
        return &entries[index];
    }
    unseen
}
