//! For each member the indices of what it gives.
ghost use Rattle.std.specs.Prelude.{◌≡◌, ◌<◌, [], ℕ, List, Contains, IfOk, OnOk, length, option_map, slice_set};
ghost use Rattle.zone_lists.specs.declared.zones.ZoneRow.{ZoneRow};
ghost use Rattle.catalogue.specs.Content.{Content};
ghost use Rattle.catalogue.specs.Ids.{Ascend, same_id};
ghost use Rattle.supersede.specs.Reach.{has};
ghost use Rattle.requisites.specs.Nodes.{row};
ghost use Rattle.zone_plans.specs.Findings.{AreFindings, AreFoundOf};
ghost use Rattle.zone_plans.specs.Plans.{resolvers_of};
ghost use Rattle.plan_reports.specs.Found.{AreNeeding, ArePut, ArePutBy, AreResolving, absent_givers, ends_with, gives_one, places_of, with_once};

use faults::NoMemory;
use mcs_reader::Id;
use std::alloc::Global;
use verdicts::index_of;
use zone_plans::{ChosenResolver, Findings, Reading};

/// For each member the members that need it, by their indices: those that need what it gives.
pub(crate) fn needing_rows(
    alloc: Global,
    ids: &[Id],
    findings: &Findings,
) -> Result<Vec<Vec<usize>>, NoMemory>
    requires { Ascend ids.now }
    ensures { IfOk result (λ rows. (content : Content) (zone : List ZoneRow)
        → AreFoundOf content zone findings.now ids.now
        → AreNeeding content zone ids.now (places_of rows.items)) }
{
    let mut rows = no_places(alloc, ids.len())?;
    put_members(alloc, &mut rows, ids, findings)?;
    Ok(rows)
}

// Adds the index of each member to the rows of those that it needs.
fn put_members(
    alloc: Global,
    rows: &mut [Vec<usize>],
    ids: &[Id],
    findings: &Findings,
) -> Result<(), NoMemory>
    requires ascend { Ascend ids.now }
    requires len { length rows.old ≡ length ids.now }
    requires none { (q : ℕ) → row (places_of rows.old) q ≡ [] }
    ensures put { OnOk result ((content : Content) (zone : List ZoneRow)
        → AreFoundOf content zone findings.now ids.now
        → AreNeeding content zone ids.now (places_of rows.new)) }
    ensures len { length rows.new ≡ length rows.old }
{
    let nothing = Reading::nothing(alloc);
    for (place, id) in ids.iter().enumerate() {
        let reading = findings.reading(&nothing, id);
        put_needs(rows, ids, findings, reading.needs(), place)?;
    }
    Ok(())
}

/// For each member the holds for which it came, by their indices.
pub(crate) fn resolving_rows(
    alloc: Global,
    ids: &[Id],
    findings: &Findings,
    resolved: &[ChosenResolver],
) -> Result<Vec<Vec<usize>>, NoMemory>
    requires { Ascend ids.now }
    ensures { IfOk result (λ rows. (content : Content) (zone : List ZoneRow)
        → AreFoundOf content zone findings.now (resolvers_of resolved.now)
        → AreResolving content zone ids.now resolved.now (places_of rows.items)) }
{
    let mut rows = no_places(alloc, ids.len())?;
    put_resolved(alloc, &mut rows, ids, findings, resolved)?;
    Ok(rows)
}

// Adds the index of each hold to the rows of the members that give its resolver.
fn put_resolved(
    alloc: Global,
    rows: &mut [Vec<usize>],
    ids: &[Id],
    findings: &Findings,
    resolved: &[ChosenResolver],
) -> Result<(), NoMemory>
    requires ascend { Ascend ids.now }
    requires len { length rows.old ≡ length ids.now }
    requires none { (q : ℕ) → row (places_of rows.old) q ≡ [] }
    ensures put { OnOk result ((content : Content) (zone : List ZoneRow)
        → AreFoundOf content zone findings.now (resolvers_of resolved.now)
        → AreResolving content zone ids.now resolved.now (places_of rows.new)) }
    ensures len { length rows.new ≡ length rows.old }
{
    let none = Vec::new(alloc);
    for (place, one) in resolved.iter().enumerate() {
        put_all(rows, ids, findings.givers(&none, &one.resolver), place)?;
    }
    Ok(())
}

// As many rows, all empty.
fn no_places(alloc: Global, count: usize) -> Result<Vec<Vec<usize>>, NoMemory>
    ensures none { IfOk result (λ rows. (q : ℕ) → row (places_of rows.items) q ≡ []) }
    ensures len { IfOk result (λ rows. length rows.items ≡ count) }
{
    let mut rows = Vec::with_capacity(alloc, count)?;
    for _place in 0..count {
        rows.push(Vec::new(alloc))?;
    }
    Ok(rows)
}

// Adds an index to the rows of the members that give one of some needs.
fn put_needs(
    rows: &mut [Vec<usize>],
    ids: &[Id],
    findings: &Findings,
    needs: &[Id],
    place: usize,
) -> Result<(), NoMemory>
    requires ascend { Ascend ids.now }
    requires len { length rows.old ≡ length ids.now }
    ensures put { OnOk result ((content : Content) (zone : List ZoneRow)
        → AreFindings content zone findings.now
        → ((need : List ℕ) → Contains needs.now need → Contains findings.now.asked need)
        → ArePut (gives_one (absent_givers content zone) needs.now) ids.now place
        (places_of rows.old) (places_of rows.new)) }
    ensures len { length rows.new ≡ length rows.old }
{
    let there = None;
    for need in needs {
        put_answer(rows, ids, findings.answer(&there, need), place)?;
    }
    Ok(())
}

// Adds an index to the rows of the members in an answer, and to none for a need that is there.
fn put_answer(
    rows: &mut [Vec<usize>],
    ids: &[Id],
    answer: &Option<Vec<Id>>,
    place: usize,
) -> Result<(), NoMemory>
    requires ascend { Ascend ids.now }
    requires len { length rows.old ≡ length ids.now }
    ensures put { OnOk result (ArePutBy (option_map (λ ids. ids.items) answer.now) ids.now place
        (places_of rows.old) (places_of rows.new)) }
    ensures len { length rows.new ≡ length rows.old }
{
    match answer {
        Some(givers) => put_all(rows, ids, givers, place),
        None => Ok(()),
    }
}

// Adds an index to the rows of the members that are among some ids.
fn put_all(rows: &mut [Vec<usize>], ids: &[Id], list: &[Id], place: usize) -> Result<(), NoMemory>
    requires ascend { Ascend ids.now }
    requires len { length rows.old ≡ length ids.now }
    ensures put { OnOk result
        (ArePut (has list.now) ids.now place (places_of rows.old) (places_of rows.new)) }
    ensures len { length rows.new ≡ length rows.old }
{
    for id in list {
        put_one(rows, ids, id, place)?;
    }
    Ok(())
}

fn put_one(rows: &mut [Vec<usize>], ids: &[Id], id: &Id, place: usize) -> Result<(), NoMemory>
    requires ascend { Ascend ids.now }
    requires len { length rows.old ≡ length ids.now }
    ensures put { OnOk result (ArePut (λ other. same_id other id.now) ids.now place
        (places_of rows.old) (places_of rows.new)) }
    ensures len { length rows.new ≡ length rows.old }
{
    if let Some(index) = index_of(ids, id) {
        put_at(rows, index, place)?;
    }
    Ok(())
}

fn put_at(rows: &mut [Vec<usize>], index: usize, place: usize) -> Result<(), NoMemory>
    requires { index < length rows.old }
    ensures put { OnOk result (places_of rows.new
        ≡ slice_set (places_of rows.old) index (with_once (row (places_of rows.old) index) place)) }
    ensures len { length rows.new ≡ length rows.old }
{
    put_once(&mut rows[index], place)?;
    Ok(())
}

// Adds an index, unless it is the last one.
fn put_once(places: &mut Vec<usize>, place: usize) -> Result<(), NoMemory>
    ensures { OnOk result (places.new.items ≡ with_once places.old.items place) }
{
    if !ends_with(places, place) {
        places.push(place)?;
    }
    Ok(())
}

fn ends_with(places: &[usize], place: usize) -> bool
    ensures { result ≡ ends_with places.now place }
{
    match places.last() {
        Some(last) => *last == place,
        None => false,
    }
}
