//! What a zone and the catalogue say of members by their indices, one member after the other.
ghost use Rattle.std.specs.Prelude.{◌≡◌, ◌++◌, ◌∷◌, [], List, IfOk, OnOk};
ghost use Rattle.catalogue.specs.Ids.{Ascend};
ghost use Rattle.verdicts.specs.Indices.{AreIndicesOf};
ghost use Rattle.listings.specs.MemberRows.{AreRowsOf};
ghost use Rattle.listings.specs.Sights.{Sight, needs_seen};

use crate::conditional::push_indices_where;
use crate::listing::Entry;
use mcs_reader::{Id, NoMemory};
use requisites::Rows;
use std::alloc::Global;
use supersede::Zone;
use verdicts::put_indices;

/// Each of the first members: whether it may be installed in a zone, its needs there, and the ids that it
/// supersedes.
#[derive(Debug, Drop)]
pub(crate) struct MemberRows {
    pub(crate) candidates: Vec<bool>,
    pub(crate) needs: Rows,
    pub(crate) supersedes: Rows,
    // The row that is being made.
    indices: Vec<usize>,
}

/// The most entries that the rows of members may have. It decides only how much room is made at once, so no contract
/// speaks of it.
#[derive(Clone, Copy, Debug)]
pub(crate) struct Room {
    needs: usize,
    supersedes: usize,
}

impl Room {
    /// The room of no member.
    pub(crate) fn none() -> Room {
        Room {
            needs: 0,
            supersedes: 0,
        }
    }

    /// Adds the room of more members, by their entries.
    pub(crate) fn with(self, entries: &[Entry]) -> Room {
        let mut room = self;
        for entry in entries {
            room.needs = room.needs.saturating_add(entry.needs().len());
            room.supersedes = room.supersedes.saturating_add(entry.superseded().len());
        }
        room
    }
}

impl MemberRows {
    /// The rows of no member, with room for so many.
    pub(crate) fn with_room(alloc: Global, members: usize, room: Room) -> Result<Self, NoMemory>
        ensures candidates { IfOk result (λ rows. rows.candidates.items ≡ []) }
        ensures needs { IfOk result (λ rows. rows.needs ≡ []) }
        ensures supersedes { IfOk result (λ rows. rows.supersedes ≡ []) }
    {
        Ok(MemberRows {
            candidates: Vec::with_capacity(alloc, members)?,
            needs: Rows::with_room(alloc, members, room.needs)?,
            supersedes: Rows::with_room(alloc, members, room.supersedes)?,
            indices: Vec::new(alloc),
        })
    }

    /// Adds the rows of the next members, by their entries.
    pub(crate) fn push_all(
        &mut self,
        zone: &Zone,
        members: &[Id],
        entries: &[Entry],
    ) -> Result<(), NoMemory>
        requires { Ascend members.now }
        ensures { OnOk result ((before : List Sight)
            → AreRowsOf zone.now members.now before
            self.old.candidates.items self.old.needs self.old.supersedes
            → AreRowsOf zone.now members.now (before ++ entries.now)
            self.new.candidates.items self.new.needs self.new.supersedes) }
    {
        for entry in entries {
            self.push(zone, members, entry)?;
        }
        Ok(())
    }

    /// Gives back the room that they don't need.
    pub(crate) fn shrink_to_fit(&mut self)
        ensures { self.new ≡ self.old }
    {
        self.needs.shrink_to_fit();
        self.supersedes.shrink_to_fit();
    }

    fn push(&mut self, zone: &Zone, members: &[Id], entry: &Entry) -> Result<(), NoMemory>
        requires { Ascend members.now }
        ensures { OnOk result ((before : List Sight)
            → AreRowsOf zone.now members.now before
            self.old.candidates.items self.old.needs self.old.supersedes
            → AreRowsOf zone.now members.now (before ++ entry.now ∷ [])
            self.new.candidates.items self.new.needs self.new.supersedes) }
    {
        self.candidates.push(entry.is_candidate(zone))?;
        let next = self.candidates.len();
        put_needs(&mut self.indices, members, next, zone, entry)?;
        self.needs.push_row(&self.indices)?;
        put_indices(&mut self.indices, members, next, entry.superseded())?;
        self.supersedes.push_row(&self.indices)?;
        Ok(())
    }
}

/// Turns a list into that of the indices of the needs in a zone. It looks for the first at a given index first.
pub(crate) fn put_needs(
    indices: &mut Vec<usize>,
    members: &[Id],
    first: usize,
    zone: &Zone,
    entry: &Entry,
) -> Result<(), NoMemory>
    requires { Ascend members.now }
    ensures { OnOk result (AreIndicesOf members.now (needs_seen zone.now entry.now) indices.new.items) }
{
    put_indices(indices, members, first, entry.needs())?;
    push_indices_where(indices, members, zone, entry.conds().as_slice())?;
    Ok(())
}
