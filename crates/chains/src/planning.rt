//! Verdicts from a frame alone.
ghost use Rattle.std.specs.Prelude.{◌≡◌, ◌<◌, ℕ, Bool, List, Contains, IfOk, filter, length, map};
ghost use Rattle.std.specs.List.{list_any};
ghost use Rattle.zone_lists.specs.Installed.{is_installed};
ghost use Rattle.catalogue.specs.Content.{Content};
ghost use Rattle.requisites.specs.Nodes.{mark_of};
ghost use Rattle.verdicts.specs.Indices.{id_at, AreIndexed};
ghost use Rattle.listings.specs.SeenIndices.{AreThere};
ghost use Rattle.chains.specs.FrameIndices.{node_needs};
ghost use Rattle.chains.specs.Frames.{IsFrame, ids_in};
ghost use Rattle.verdicts.specs.Judge as judge;
ghost use Rattle.verdicts.specs.Verdicts.{is_good, verdict_of};

use crate::frames::{Frame, FrameNode};
use crate::node_verdicts::by_ids;
use listings::{is_any_installed, put_needs_where, there_marks};
use mcs_reader::{Id, NoMemory};
use requisites::{Nodes, Rows, is_marked, resolve, verdict_of_node};
use std::alloc::Global;
use supersede::Zone;
use verdicts::{Verdict, index_of};

/// Gives the verdict on a SYSMOD of a frame in a zone, from the frame alone. It is the verdict of the whole
/// catalogue.
///
/// # Errors
///
/// `NoMemory` if memory ran out.
pub fn plan(alloc: Global, frame: &Frame, zone: &Zone, id: &Id) -> Result<Verdict, NoMemory>
    ensures verdict { IfOk result (λ verdict. (content : Content) (start : List ℕ)
        → IsFrame content start frame.now
        → Contains (ids_in frame.now.nodes) id.now
        → judge.judged_by verdict ≡ verdict_of content zone.now id.now) }
{
    let Some(index) = index_of(frame.ids(), id) else {
        return Ok(Verdict::Lack);
    };
    let nodes = seen_from(alloc, frame, zone)?;
    let resolution = resolve(alloc, &nodes)?;
    let verdict = verdict_of_node(alloc, &nodes, &resolution, index)?;
    by_ids(alloc, frame.ids(), verdict)
}

// The nodes of a frame by their indices, as a zone sees them.
fn seen_from(alloc: Global, frame: &Frame, zone: &Zone) -> Result<Nodes, NoMemory>
    ensures candidates { IfOk result (λ nodes. nodes.candidates.items
        ≡ map (λ node. list_any (λ fmid. is_installed zone.now fmid) node.fmids) frame.now.nodes) }
    ensures needs { IfOk result (λ nodes.
        AreIndexed (ids_in frame.now.nodes) (map (node_needs zone.now) frame.now.nodes) nodes.needs) }
    ensures supersedes { IfOk result (λ nodes. nodes.supersedes ≡ frame.now.supersedes) }
    ensures there { IfOk result
        (λ nodes. AreThere zone.now (ids_in frame.now.nodes) nodes.supersedes nodes.there.items) }
{
    let candidates = candidate_marks(alloc, frame.nodes(), zone)?;
    let there = there_marks(alloc, zone, frame.ids(), frame.supersedes())?;
    Ok(Nodes {
        candidates,
        there,
        needs: zone_needs(alloc, frame, zone)?,
        supersedes: frame.supersedes().copy()?,
    })
}

// By index, the needs of each node in the zone.
fn zone_needs(alloc: Global, frame: &Frame, zone: &Zone) -> Result<Rows, NoMemory>
    ensures { IfOk result (λ rows.
        AreIndexed (ids_in frame.now.nodes) (map (node_needs zone.now) frame.now.nodes) rows) }
{
    if !frame.is_conditional() {
        return frame.needs().copy();
    }
    let mut needs = Rows::new(alloc);
    let mut indices = Vec::new(alloc);
    for (index, node) in frame.nodes().iter().enumerate() {
        let always = frame.needs().row(index);
        put_needs_where(
            &mut indices,
            always,
            frame.ids(),
            zone,
            node.conds.as_slice(),
        )?;
        needs.push_row(&indices)?;
    }
    Ok(needs)
}

// Marks the nodes that may be installed.
fn candidate_marks(alloc: Global, nodes: &[FrameNode], zone: &Zone) -> Result<Vec<bool>, NoMemory>
    ensures { IfOk result (λ marks. marks.items
        ≡ map (λ node. list_any (λ fmid. is_installed zone.now fmid) node.fmids) nodes.now) }
{
    let mut marks = Vec::with_capacity(alloc, nodes.len())?;
    for node in nodes {
        marks.push(is_any_installed(zone, &node.fmids))?;
    }
    Ok(marks)
}

/// Finds the SYSMODs of a frame that can be installed in a zone, ascending, from the frame alone. They are
/// those of the whole catalogue.
///
/// # Errors
///
/// `NoMemory` if memory ran out.
pub fn good(alloc: Global, frame: &Frame, zone: &Zone) -> Result<Vec<Id>, NoMemory>
    ensures good { IfOk result (λ ids. (content : Content) (start : List ℕ) → IsFrame content start frame.now
        → ids.items ≡ filter (is_good content zone.now) (ids_in frame.now.nodes)) }
{
    let nodes = seen_from(alloc, frame, zone)?;
    let resolution = resolve(alloc, &nodes)?;
    marked_ids(alloc, frame.ids(), &resolution.good)
}

// The ids at the indices that are marked.
fn marked_ids(alloc: Global, ids: &[Id], marks: &[bool]) -> Result<Vec<Id>, NoMemory>
    ensures { IfOk result (λ those. (f : List ℕ → Bool)
        → ((p : ℕ) → p < length ids.now → mark_of marks.now p ≡ f (id_at ids.now p))
        → those.items ≡ filter f ids.now) }
{
    let mut those = Vec::new(alloc);
    for (index, id) in ids.iter().enumerate() {
        if is_marked(marks, index) {
            those.push(*id)?;
        }
    }
    Ok(those)
}
