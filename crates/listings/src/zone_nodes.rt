//! All that is catalogued and all that it needs, as nodes by their indices.
ghost use Rattle.std.specs.Prelude.{◌≡◌, ◌↔◌, ◌⊎◌, ℕ, List, true, Contains, IfOk, length, map};
ghost use Rattle.std.specs.Global.{Vec};
ghost use Rattle.zone_lists.specs.Installed.{is_installed, is_listed};
ghost use Rattle.catalogue.specs.Content.{Content};
ghost use Rattle.catalogue.specs.Ids.{Ascend};
ghost use Rattle.requisites.specs.Nodes.{world};
ghost use Rattle.requisites.specs.Sources.{HasSource};
ghost use Rattle.verdicts.specs.Indices.{id_at, MarksAre};
ghost use Rattle.listings.specs.Cuts.{IsCut};
ghost use Rattle.listings.specs.SeenIndices.{AreNodesWithin, AreSeen, AreThere, IsThereAt};
ghost use Rattle.listings.specs.ListedRows.{AreAlwaysNeeds};
ghost use Rattle.listings.specs.MemberRows.{AreRowsWithin};
ghost use Rattle.listings.specs.Places.{ArePlaces};
ghost use Rattle.listings.specs.Sights.{IsListing, Sight};
ghost use Rattle.verdicts.specs.Worlds.{world_of};

use crate::conditional::put_needs_where;
use crate::listed_rows::ListedRows;
use crate::listing::{Entry, Listing};
use crate::supersedes::entry_at;
use mcs_reader::{Id, NoMemory};
use requisites::{Nodes, Rows, has_source, least_sources};
use std::alloc::Global;
use supersede::Zone;

/// Ids in ascending order, and what a zone and the catalogue say of each, by index.
#[derive(Debug, Drop)]
pub struct ZoneNodes {
    /// The ids.
    pub members: Vec<Id>,
    /// What a zone and the catalogue say of each.
    pub nodes: Nodes,
}

impl ZoneNodes {
    /// Makes nodes of all that is catalogued, and all that it needs, whatever the zone. It uses a listing, which
    /// keeps what needs no zone.
    ///
    /// # Errors
    ///
    /// `NoMemory` if memory ran out.
    pub fn of_listing(alloc: Global, zone: &Zone, listing: &Listing) -> Result<ZoneNodes, NoMemory>
        ensures ascend { IfOk result (λ cut. Ascend cut.members.items) }
        ensures cut { IfOk result (λ cut. (content : Content) → IsListing content listing.now
            → IsCut (world_of content zone.now) cut.members.items (world cut.nodes)) }
        ensures within { IfOk result (λ cut. AreNodesWithin cut.members.items cut.nodes) }
        ensures ids { IfOk result
            (λ cut. (id : List ℕ) → Contains listing.now.ids id → Contains cut.members.items id) }
    {
        let rows = listing.rows();
        let members = Vec::from_slice(alloc, &rows.members)?;
        let nodes = nodes_by_rows(alloc, zone, rows, listing.entries())?;
        Ok(ZoneNodes { members, nodes })
    }
}

// The nodes of the members of a listing, by its rows.
fn nodes_by_rows(
    alloc: Global,
    zone: &Zone,
    rows: &ListedRows,
    entries: &[Entry],
) -> Result<Nodes, NoMemory>
    requires members { Ascend rows.now.members.items }
    requires listed { length rows.now.listed.items ≡ length rows.now.members.items }
    requires needs { AreAlwaysNeeds entries.now rows.now.members.items rows.now.listed.items rows.now.needs }
    ensures seen { IfOk result (λ nodes. (f : List ℕ → Sight) (ids : List (List ℕ)) → entries.now ≡ map f ids
        → ArePlaces rows.now.members.items ids (length rows.now.members.items) rows.now.listed.items
        → AreSeen zone.now f ids rows.now.members.items (length rows.now.members.items)
        nodes.candidates.items nodes.needs) }
    ensures supersedes { IfOk result (λ nodes. nodes.supersedes ≡ rows.now.supersedes) }
    ensures within { IfOk result (λ nodes. AreNodesWithin rows.now.members.items nodes) }
    ensures there { IfOk result
        (λ nodes. AreThere zone.now rows.now.members.items nodes.supersedes nodes.there.items) }
{
    let marked = marks_and_needs(
        alloc,
        zone,
        &rows.members,
        &rows.listed,
        &rows.needs,
        entries,
    )?;
    let there = there_marks(alloc, zone, &rows.members, &rows.supersedes)?;
    Ok(Nodes {
        candidates: marked.candidates,
        there,
        needs: marked.needs,
        supersedes: rows.supersedes.copy()?,
    })
}

// For each member whether it may be installed in a zone, and its needs there.
#[derive(Drop)]
struct Marked {
    candidates: Vec<bool>,
    needs: Rows,
}

fn marks_and_needs(
    alloc: Global,
    zone: &Zone,
    members: &[Id],
    listed: &[Option<usize>],
    always: &Rows,
    entries: &[Entry],
) -> Result<Marked, NoMemory>
    requires members { Ascend members.now }
    requires listed { length listed.now ≡ length members.now }
    requires needs { AreAlwaysNeeds entries.now members.now listed.now always.now }
    ensures seen { IfOk result (λ marked. (f : List ℕ → Sight) (ids : List (List ℕ))
        → entries.now ≡ map f ids → ArePlaces members.now ids (length members.now) listed.now
        → AreSeen zone.now f ids members.now (length members.now)
        marked.candidates.items marked.needs) }
    ensures within { IfOk result
        (λ marked. AreRowsWithin members.now marked.candidates.items marked.needs) }
{
    let unseen = Entry::unseen(alloc);
    let mut candidates = Vec::with_capacity(alloc, members.len())?;
    let mut needs = Rows::new(alloc);
    let mut indices = Vec::new(alloc);
    for (index, place) in listed.iter().enumerate() {
        let entry = entry_at(entries, &unseen, *place);
        candidates.push(entry.is_candidate(zone))?;
        let always = always.row(index);
        put_needs_where(
            &mut indices,
            always,
            members,
            zone,
            entry.conds().as_slice(),
        )?;
        needs.push_row(&indices)?;
    }
    Ok(Marked { candidates, needs })
}

/// Marks the members that are there: those that the zone lists, and those that the installed ones supersede,
/// themselves or through others.
///
/// # Errors
///
/// `NoMemory` if memory ran out.
pub fn there_marks(
    alloc: Global,
    zone: &Zone,
    members: &[Id],
    supersedes: &Rows,
) -> Result<Vec<bool>, NoMemory>
    ensures { IfOk result (λ marks. AreThere zone.now members.now supersedes.now marks.items) }
{
    let installed = installed_marks(alloc, zone, members)?;
    let sources = least_sources(alloc, supersedes, &installed)?;
    listed_or_given(alloc, zone, members, &sources)
}

fn installed_marks(alloc: Global, zone: &Zone, members: &[Id]) -> Result<Vec<bool>, NoMemory>
    ensures { IfOk result (λ marks. MarksAre (λ p mark. mark ≡ is_installed zone.now (id_at members.now p))
        (length members.now) marks.items) }
{
    let mut marks = Vec::with_capacity(alloc, members.len())?;
    for member in members {
        marks.push(zone.installed(member))?;
    }
    Ok(marks)
}

fn listed_or_given(
    alloc: Global,
    zone: &Zone,
    members: &[Id],
    sources: &[Option<usize>],
) -> Result<Vec<bool>, NoMemory>
    ensures { IfOk result (λ marks. MarksAre (IsThereAt zone.now members.now (HasSource sources.now))
        (length members.now) marks.items) }
{
    let mut marks = Vec::with_capacity(alloc, members.len())?;
    for (index, member) in members.iter().enumerate() {
        marks.push(is_there(zone, member, sources, index))?;
    }
    Ok(marks)
}

// Whether a member at an index is listed or has a source.
fn is_there(zone: &Zone, member: &Id, sources: &[Option<usize>], index: usize) -> bool
    ensures { (result ≡ true) ↔ ((is_listed zone.now member.now ≡ true) ⊎ HasSource sources.now index) }
{
    zone.listed(member) || has_source(sources, index)
}
