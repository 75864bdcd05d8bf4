//! The rows of a listing by the indices of its members, whatever the zone.
ghost use Rattle.std.specs.Prelude.{IfOk};
ghost use Rattle.catalogue.specs.Ids.{Ascend};
ghost use Rattle.listings.specs.ListedRows.{AreAlwaysNeeds, AreListedRows};
ghost use Rattle.listings.specs.Superseders.{AreSuperseders};

use crate::listing::Entry;
use crate::members::members_of;
use crate::places::places;
use crate::superseders::Superseders;
use crate::supersedes::{entry_at, moved_supersedes};
use mcs_reader::{Id, NoMemory};
use requisites::Rows;
use std::alloc::Global;
use verdicts::put_indices;

/// All that is listed and all that it needs, in order, with the ids that each always needs and supersedes, by index.
#[derive(Debug, Drop)]
pub(crate) struct ListedRows {
    pub(crate) members: Vec<Id>,
    // The index of each among the listed ids.
    pub(crate) listed: Vec<Option<usize>>,
    pub(crate) needs: Rows,
    pub(crate) supersedes: Rows,
}

impl ListedRows {
    /// Makes the rows by the listed ids, the entry of each, and the SUP of all of them.
    pub(crate) fn of(
        alloc: Global,
        ids: &[Id],
        entries: &[Entry],
        superseders: &Superseders,
    ) -> Result<ListedRows, NoMemory>
        requires ids { Ascend ids.now }
        requires superseders { AreSuperseders entries.now superseders.now.superseded.items
            superseders.now.below superseders.now.above }
        ensures { IfOk result (λ rows. AreListedRows ids.now entries.now
            rows.members.items rows.listed.items rows.needs rows.supersedes) }
    {
        let members = members_of(alloc, ids, entries)?;
        let listed = places(alloc, &members, ids)?;
        let needs = always_needs(alloc, &members, &listed, entries)?;
        let supersedes = moved_supersedes(alloc, &members, &listed, superseders)?;
        Ok(ListedRows {
            members,
            listed,
            needs,
            supersedes,
        })
    }
}

// The needs of each member in every zone.
fn always_needs(
    alloc: Global,
    members: &[Id],
    listed: &[Option<usize>],
    entries: &[Entry],
) -> Result<Rows, NoMemory>
    requires { Ascend members.now }
    ensures { IfOk result (λ needs. AreAlwaysNeeds entries.now members.now listed.now needs) }
{
    let unseen = Entry::unseen(alloc);
    let mut needs = Rows::new(alloc);
    let mut indices = Vec::new(alloc);
    for (index, place) in listed.iter().enumerate() {
        let entry = entry_at(entries, &unseen, *place);
        put_indices(&mut indices, members, index + 1, entry.needs())?;
        needs.push_row(&indices)?;
    }
    Ok(needs)
}
