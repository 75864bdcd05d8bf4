//! The nodes of a zone, read from a source. What is read for them is dropped run by run.
ghost use Rattle.std.specs.Prelude.{◌≡◌, IfOk, map};
ghost use Rattle.catalogue.specs.Ids.{Ascend};
ghost use Rattle.catalogue.specs.View.{MayAsk, Tells};
ghost use Rattle.catalogue.specs.declared.fault.SourceFault.TheVariants.{Device};
ghost use Rattle.listings.specs.SeenIndices.{AreNodesWithin};
ghost use Rattle.listings.specs.MemberRows.{AreRowsOf, AreRowsWithin, members_of};
ghost use Rattle.listings.specs.Sights.{sight_of};
ghost use Rattle.listings.specs.ZoneNodes.{IsSurvey};

use crate::listing::entries_of;
use crate::member_rows::{MemberRows, Room};
use crate::members::push_needs;
use crate::zone_nodes::{ZoneNodes, there_marks};
use catalogue::{Published, SourceFault};
use mcs_reader::Id;
use requisites::Nodes;
use std::alloc::Global;
use supersede::Zone;
use verdicts::sort_each_once;

// The number of SYSMODs that are read at once. What is read is kept only for the run, and a source that is a list wins
// nothing by longer runs.
const RUN: usize = 512;

/// Reads all that is catalogued, and all that it needs, whatever the zone, as nodes. It goes through the source twice:
/// for the members, and for what each of them has.
///
/// # Errors
///
/// `Memory` if memory ran out, `Device` if the source failed.
pub fn zone_nodes_of<P: Published>(
    alloc: Global,
    source: &mut P,
    zone: &Zone,
) -> Result<ZoneNodes, SourceFault>
    ensures asks { MayAsk P.content_view Device source.old source.new result }
    ensures ascend { IfOk result (λ cut. Ascend cut.members.items) }
    ensures within { IfOk result (λ cut. AreNodesWithin cut.members.items cut.nodes) }
    ensures survey { IfOk result (λ cut. Tells P.content_view source.old source.new
        (λ content. IsSurvey content zone.now
        (record { members = cut.members.items; nodes = cut.nodes }))) }
{
    let read = read_members(alloc, source)?;
    let rows = read_rows(alloc, source, zone, &read.members, read.room)?;
    let there = there_marks(alloc, zone, &read.members, &rows.supersedes)?;
    let nodes = Nodes {
        candidates: rows.candidates,
        there,
        needs: rows.needs,
        supersedes: rows.supersedes,
    };
    Ok(ZoneNodes {
        members: read.members,
        nodes,
    })
}

// All members, and the room that their rows take.
#[derive(Drop)]
struct ReadMembers {
    members: Vec<Id>,
    room: Room,
}

// Reads all that is catalogued, and all that it needs, ascending, each once.
fn read_members<P: Published>(alloc: Global, source: &mut P) -> Result<ReadMembers, SourceFault>
    ensures asks { MayAsk P.content_view Device source.old source.new result }
    ensures ascend { IfOk result (λ read. Ascend read.members.items) }
    ensures members { IfOk result (λ read. Tells P.content_view source.old source.new
        (λ content. read.members.items ≡ members_of content)) }
{
    let ids = source.ids()?;
    let mut members = Vec::from_slice(alloc, &ids)?;
    let mut room = Room::none();
    for run in ids.chunks(RUN) {
        let entries = entries_of(alloc, source, run)?;
        push_needs(&mut members, &entries)?;
        room = room.with(&entries);
    }
    sort_each_once(&mut members)?;
    members.shrink_to_fit();
    Ok(ReadMembers { members, room })
}

// Reads the rows of each member.
fn read_rows<P: Published>(
    alloc: Global,
    source: &mut P,
    zone: &Zone,
    members: &[Id],
    room: Room,
) -> Result<MemberRows, SourceFault>
    requires { Ascend members.now }
    ensures asks { MayAsk P.content_view Device source.old source.new result }
    ensures within { IfOk result (λ rows. AreRowsWithin members.now rows.candidates.items rows.needs) }
    ensures rows { IfOk result (λ rows. Tells P.content_view source.old source.new
        (λ content. AreRowsOf zone.now members.now (map (sight_of content) members.now)
        rows.candidates.items rows.needs rows.supersedes)) }
{
    let mut rows = MemberRows::with_room(alloc, members.len(), room)?;
    for run in members.chunks(RUN) {
        let entries = entries_of(alloc, source, run)?;
        rows.push_all(zone, members, &entries)?;
    }
    rows.shrink_to_fit();
    Ok(rows)
}
