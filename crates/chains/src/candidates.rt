//! The candidates that give each of several SYSMODs.
ghost use Rattle.std.specs.Prelude.{◌≡◌, ◌<◌, ◌≤◌, ℕ, List, Option, true, false, Contains, IfNone, IfOk, IfSome, OnOk, filter, length, map, option_map, slice_index};
ghost use Rattle.std.specs.List.{list_any};
ghost use Rattle.zone_lists.specs.Installed.{is_installed};
ghost use Rattle.zone_lists.specs.declared.zones.ZoneRow.{ZoneRow};
ghost use Rattle.catalogue.specs.Content.{Content};
ghost use Rattle.catalogue.specs.Ids.{Ascend, in_order};
ghost use Rattle.catalogue.specs.View.{MayAsk, Tells};
ghost use Rattle.catalogue.specs.declared.fault.SourceFault.TheVariants.{Device};
ghost use Rattle.requisites.specs.Nodes.{AreReversed, mark_of, row};
ghost use Rattle.requisites.specs.Sources.{HasSource};
ghost use Rattle.supersede.specs.Giving.{fmids_of, is_candidate};
ghost use Rattle.verdicts.specs.Candidates.{candidates_unless_there};
ghost use Rattle.chains.specs.Climbs.{AreFrom, IsAnswer, IsFound, with_source};
ghost use Rattle.verdicts.specs.Indices.{id_at, IsAt, MarksAre, RowsAre};
ghost use Rattle.listings.specs.Marks.{IsAtHand};

use crate::climbing::{Climb, climb_from, that_says};
use crate::walks::Walks;
use catalogue::{Published, SourceFault, Sysmod};
use listings::{Listing, is_any_installed, there_marks};
use mcs_reader::{Id, NoMemory};
use requisites::{Rows, has_source, is_marked, least_sources, source_at};
use std::alloc::Global;
use supersede::Zone;
use verdicts::{do_ascend, ids_at, index_of, sort_each_once};

/// Finds for each of some SYSMODs the candidates that give it, ascending, or `None` if it is there: the zone lists it,
/// or an installed SYSMOD gives it (IBM z/OS SMP/E Reference, `++VER`, operands SUP and FMID).
///
/// If a listing is at hand, it answers in the source's place, and the source is asked only for ids that are marked.
/// Without a listing, the source is asked once for what supersedes each SYSMOD, and for the record of each that gives
/// one that isn't there. The ids that are there are found in time in proportion to what was read.
///
/// # Errors
///
/// `Memory` if memory ran out, `Device` if the source failed.
pub fn candidates_for<P: Published>(
    alloc: Global,
    source: &mut P,
    listing: Option<&Listing>,
    marks: &[Id],
    zone: &Zone,
    ids: &[Id],
) -> Result<Vec<Option<Vec<Id>>>, SourceFault>
    ensures asks { MayAsk P.content_view Device source.old source.new result }
    ensures candidates { IfOk result (λ found. Tells P.content_view source.old source.new
        (λ content. IsAtHand content listing.entry marks.now
        → map (option_map (λ ids. ids.items)) found.items
        ≡ map (candidates_unless_there content zone.now) ids.now)) }
{
    // Marks are looked up by halves, so they have to ascend.
    if !do_ascend(marks) {
        return candidates_by(alloc, source, None, &[], zone, ids);
    }
    candidates_by(alloc, source, listing, marks, zone, ids)
}

fn candidates_by<P: Published>(
    alloc: Global,
    source: &mut P,
    listing: Option<&Listing>,
    marks: &[Id],
    zone: &Zone,
    ids: &[Id],
) -> Result<Vec<Option<Vec<Id>>>, SourceFault>
    requires { Ascend marks.now }
    ensures asks { MayAsk P.content_view Device source.old source.new result }
    ensures candidates { IfOk result (λ found. Tells P.content_view source.old source.new
        (λ content. IsAtHand content listing.entry marks.now
        → map (option_map (λ ids. ids.items)) found.items
        ≡ map (candidates_unless_there content zone.now) ids.now)) }
{
    if ids.is_empty() {
        return Ok(Vec::new(alloc));
    }
    let climb = climb_from(alloc, source, listing, marks, ids)?;
    let there = there_marks(alloc, zone, &climb.ids, &climb.below)?;
    let absent = absent_marks(alloc, &climb.ids, &there, ids)?;
    let wanted = least_sources(alloc, &climb.above, &absent)?;
    let candidates = wanted_candidates(alloc, source, listing, marks, zone, &climb.ids, &wanted)?;
    Ok(found_among(alloc, ids, &climb, &there, &candidates)?)
}

// Marks those of the ids asked for that aren't there, among all.
fn absent_marks(
    alloc: Global,
    ids: &[Id],
    there: &[bool],
    asked: &[Id],
) -> Result<Vec<bool>, NoMemory>
    requires { Ascend ids.now }
    ensures len { IfOk result (λ marks. length marks.items ≡ length ids.now) }
    ensures marked { IfOk result (λ marks. (p : ℕ) → p < length ids.now → Contains asked.now (id_at ids.now p)
        → mark_of there.now p ≡ false → mark_of marks.items p ≡ true) }
{
    let mut marks = vec![in alloc; false; ids.len()]?;
    for id in asked {
        if let Some(index) = absent_at(ids, there, id) {
            marks[index] = true;
        }
    }
    Ok(marks)
}

// Marks the candidates among the ids that have a source. It doesn't ask for the others.
fn wanted_candidates<P: Published>(
    alloc: Global,
    source: &mut P,
    listing: Option<&Listing>,
    marks: &[Id],
    zone: &Zone,
    ids: &[Id],
    wanted: &[Option<usize>],
) -> Result<Vec<bool>, SourceFault>
    requires { Ascend marks.now }
    ensures asks { MayAsk P.content_view Device source.old source.new result }
    ensures len { IfOk result (λ are. length are.items ≡ length ids.now) }
    ensures are { IfOk result (λ are. Tells P.content_view source.old source.new
        (λ content. IsAtHand content listing.entry marks.now → MarksAre
        (λ p mark. HasSource wanted.now p → mark ≡ is_candidate content zone.now (id_at ids.now p))
        (length ids.now) are.items)) }
{
    let mut are = Vec::with_capacity(alloc, ids.len())?;
    for (index, id) in ids.iter().enumerate() {
        let is_wanted = has_source(wanted, index);
        are.push(is_wanted_candidate(source, listing, marks, zone, id, is_wanted)?)?;
    }
    Ok(are)
}

fn is_wanted_candidate<P: Published>(
    source: &mut P,
    listing: Option<&Listing>,
    marks: &[Id],
    zone: &Zone,
    id: &Id,
    wanted: bool,
) -> Result<bool, SourceFault>
    requires { Ascend marks.now }
    ensures asks { MayAsk P.content_view Device source.old source.new result }
    ensures candidate { IfOk result (λ mark. Tells P.content_view source.old source.new
        (λ content. IsAtHand content listing.entry marks.now
        → wanted ≡ true → mark ≡ is_candidate content zone.now id.now)) }
{
    if !wanted {
        return Ok(false);
    }
    match that_says(listing, marks, id) {
        Some(listing) => Ok(listing.is_candidate(zone, id)),
        None => Ok(applies(zone, &source.sysmod(id)?)),
    }
}

// Whether one of the functions to which a record applies is installed.
fn applies(zone: &Zone, sysmod: &Option<Sysmod>) -> bool
    ensures { result ≡ list_any (λ fmid. is_installed zone.now fmid) (fmids_of sysmod.now) }
{
    match sysmod {
        Some(sysmod) => is_any_installed(zone, &sysmod.fmids),
        None => false,
    }
}

// The answer for each of the ids asked for. The walks go by ids that a candidate gives, so they come only to candidates
// and to what leads there.
fn found_among(
    alloc: Global,
    asked: &[Id],
    climb: &Climb,
    there: &[bool],
    candidates: &[bool],
) -> Result<Vec<Option<Vec<Id>>>, NoMemory>
    requires ascend { Ascend climb.now.ids.items }
    requires rows { length climb.now.above ≡ length climb.now.ids.items }
    requires turned { AreReversed climb.now.above (length climb.now.ids.items) climb.now.below }
    requires marks { length candidates.now ≡ length climb.now.ids.items }
    ensures { IfOk result (λ found. (content : Content) (rows : List ZoneRow)
        → IsFound content rows asked.now climb.now.ids.items climb.now.above there.now candidates.now
        → map (option_map (λ ids. ids.items)) found.items
        ≡ map (candidates_unless_there content rows) asked.now) }
{
    let given = least_sources(alloc, &climb.below, candidates)?;
    let above = rows_with_source(alloc, &climb.above, &given)?;
    found_for_each(alloc, asked, &climb.ids, &above, there, candidates)
}

// Each row without the indices that have no source.
fn rows_with_source(alloc: Global, rows: &Rows, sources: &[Option<usize>]) -> Result<Rows, NoMemory>
    ensures { IfOk result (λ kept. RowsAre (λ p indices. indices ≡ with_source sources.now (row rows.now p))
        (length rows.now) kept) }
{
    let mut kept = Rows::new(alloc);
    let mut own = Vec::new(alloc);
    for index in 0..rows.len() {
        put_with_source(&mut own, rows.row(index), sources)?;
        kept.push_row(&own)?;
    }
    Ok(kept)
}

fn put_with_source(
    own: &mut Vec<usize>,
    indices: &[usize],
    sources: &[Option<usize>],
) -> Result<(), NoMemory>
    ensures { OnOk result (own.new.items ≡ with_source sources.now indices.now) }
{
    own.clear();
    for index in indices {
        if source_at(sources, *index).is_some() {
            own.push(*index)?;
        }
    }
    Ok(())
}

fn found_for_each(
    alloc: Global,
    asked: &[Id],
    ids: &[Id],
    above: &Rows,
    there: &[bool],
    candidates: &[bool],
) -> Result<Vec<Option<Vec<Id>>>, NoMemory>
    requires { Ascend ids.now }
    ensures { IfOk result (λ found. (f : List ℕ → Option (List (List ℕ)))
        → ((id : List ℕ) (answer : Option (List (List ℕ))) → Contains asked.now id
        → IsAnswer ids.now above.now there.now candidates.now id answer → answer ≡ f id)
        → map (option_map (λ ids. ids.items)) found.items ≡ map f asked.now) }
{
    let mut found = Vec::with_capacity(alloc, asked.len())?;
    let mut walks = Walks::over(alloc, ids.len())?;
    for (turn, id) in asked.iter().enumerate() {
        let index = absent_at(ids, there, id);
        found.push(found_from(alloc, ids, above, candidates, &mut walks, turn + 1, index)?)?;
    }
    Ok(found)
}

// The marked ids above an index.
fn found_from(
    alloc: Global,
    ids: &[Id],
    above: &Rows,
    marks: &[bool],
    walks: &mut Walks,
    turn: usize,
    index: Option<usize>,
) -> Result<Option<Vec<Id>>, NoMemory>
    requires fresh { (q : ℕ) → slice_index walks.old.seen.items q < turn }
    requires len { length walks.old.seen.items ≡ length ids.now }
    requires within { IfSome index (λ index. index < length ids.now) }
    ensures found { IfOk result (λ found. AreFrom ids.now above.now marks.now index
        (option_map (λ ids. ids.items) found)) }
    ensures bound { IfOk result (λ found. (q : ℕ) → slice_index walks.new.seen.items q ≤ turn) }
    ensures len { IfOk result (λ found. length walks.new.seen.items ≡ length ids.now) }
{
    let Some(index) = index else {
        return Ok(None);
    };
    walks.walk(above, turn, index)?;
    Ok(Some(ids_marked(alloc, ids, marks, walks.indices())?))
}

// The index of an id, unless it is there.
fn absent_at(ids: &[Id], there: &[bool], id: &Id) -> Option<usize>
    requires { Ascend ids.now }
    ensures some { IfSome result (λ index. IsAt ids.now id.now index) }
    ensures absent { IfSome result (λ index. mark_of there.now index ≡ false) }
    ensures none { IfNone result ((p : ℕ) → IsAt ids.now id.now p → mark_of there.now p ≡ true) }
{
    let index = index_of(ids, id)?;
    if is_marked(there, index) {
        return None;
    }
    Some(index)
}

// The ids at those of some indices that are marked, ascending, each once.
fn ids_marked(
    alloc: Global,
    ids: &[Id],
    marks: &[bool],
    indices: &[usize],
) -> Result<Vec<Id>, NoMemory>
    requires { (q : ℕ) → Contains indices.now q → q < length ids.now }
    ensures ascend { IfOk result (λ found. Ascend found.items) }
    ensures ids { IfOk result (λ found. found.items
        ≡ in_order (map (id_at ids.now) (filter (mark_of marks.now) indices.now))) }
{
    let those = those_marked(alloc, marks, indices)?;
    let mut found = ids_at(alloc, ids, &those)?;
    sort_each_once(&mut found)?;
    Ok(found)
}

// Those of some indices that are marked.
fn those_marked(alloc: Global, marks: &[bool], indices: &[usize]) -> Result<Vec<usize>, NoMemory>
    ensures { IfOk result (λ those. those.items ≡ filter (mark_of marks.now) indices.now) }
{
    let mut those = Vec::new(alloc);
    for index in indices {
        if is_marked(marks, *index) {
            those.push(*index)?;
        }
    }
    Ok(those)
}
