//! The members, step by step.
ghost use Rattle.std.specs.Prelude.{◌≡◌, ◌++◌, [], ℕ, List, Contains, IfOk, OnOk, filter, map, not};
ghost use Rattle.std.specs.List.{cons_option, slice_get};
ghost use Rattle.zone_lists.specs.declared.zones.ZoneRow.{ZoneRow};
ghost use Rattle.catalogue.specs.Content.{Content};
ghost use Rattle.catalogue.specs.Ids.{Ascend, in_order, same_id};
ghost use Rattle.requisites.specs.Nodes.{row};
ghost use Rattle.verdicts.specs.Indices.{IsAt};
ghost use Rattle.zone_plans.specs.Findings.{AreFoundOf};
ghost use Rattle.zone_plans.specs.Members.{joined};
ghost use Rattle.plan_reports.specs.Found.{IsTold, holds_at, others_at, places_of, told_at};
ghost use Rattle.plan_reports.specs.Members.{MemberLists, members_from};

use crate::finding::Found;
use crate::member::Member;
use faults::NoMemory;
use mcs_reader::Id;
use reports::is_among;
use std::alloc::Global;
use verdicts::index_of;
use zone_plans::{ChosenResolver, HoldOn, Reading, ZonePlan};

/// The members of a plan, in the order of its steps, the steps numbered from 1.
pub(crate) fn told_members(
    alloc: Global,
    received: &[Id],
    plan: &ZonePlan,
    found: &Found,
) -> Result<Vec<Member>, NoMemory>
    requires ascend { Ascend found.now.ids }
    requires received { Ascend received.now }
    requires ids { found.now.ids ≡ in_order (joined plan.now.steps) }
    ensures { IfOk result (λ members. (content : Content) (rows : List ZoneRow)
        (at : ℕ → List ℕ → MemberLists) → IsTold content rows received.now plan.now found.now at
        → members.items ≡ members_from at 1 plan.now.steps) }
{
    let steps = plan.steps();
    let mut members = Vec::with_capacity(alloc, found.ids.len())?;
    for index in 0..steps.len() {
        let step = steps.step(alloc, index)?;
        push_step(alloc, &mut members, received, plan, found, index + 1, &step)?;
    }
    Ok(members)
}

// Adds the members of a step.
fn push_step(
    alloc: Global,
    members: &mut Vec<Member>,
    received: &[Id],
    plan: &ZonePlan,
    found: &Found,
    number: usize,
    step: &[Id],
) -> Result<(), NoMemory>
    requires ascend { Ascend found.now.ids }
    requires received { Ascend received.now }
    requires listed { (id : List ℕ) → Contains step.now id → Contains found.now.ids id }
    ensures { OnOk result ((content : Content) (rows : List ZoneRow) (at : ℕ → List ℕ → MemberLists)
        → IsTold content rows received.now plan.now found.now at
        → members.new.items ≡ members.old.items ++ map (at number) step.now) }
{
    for id in step {
        let index = place_of(&found.ids, id);
        members.push(told_at(alloc, received, plan, found, number, index, id)?)?;
    }
    Ok(())
}

// The index of an id.
fn place_of(ids: &[Id], id: &Id) -> usize
    requires ascend { Ascend ids.now }
    requires listed { Contains ids.now id.now }
    ensures { IsAt ids.now id.now result }
{
    match index_of(ids, id) {
        Some(index) => index,
        None => unreachable!(),
    }
}

// The member at an index.
fn told_at(
    alloc: Global,
    received: &[Id],
    plan: &ZonePlan,
    found: &Found,
    step: usize,
    index: usize,
    id: &Id,
) -> Result<Member, NoMemory>
    requires received { Ascend received.now }
    requires stands { IsAt found.now.ids id.now index }
    ensures { IfOk result (λ member. (content : Content) (rows : List ZoneRow)
        → AreFoundOf content rows plan.now.findings found.now.ids
        → member ≡ told_at content rows received.now plan.now.resolved found.now step index) }
{
    let nothing = Reading::nothing(alloc);
    let reading = plan.findings().reading(&nothing, id);
    let bare = Member::new(alloc, step, *id, is_among(received, id));
    let read = with_reading(alloc, bare, reading)?;
    let holds = holds_at(alloc, plan.resolved(), row_at(&found.resolving, index))?;
    let needed_by = others_at(alloc, &found.ids, id, row_at(&found.needing, index))?;
    Ok(read.with_causes(holds, needed_by))
}

// Adds what was read of it.
fn with_reading(alloc: Global, member: Member, reading: &Reading) -> Result<Member, NoMemory>
    ensures { IfOk result (λ told. told ≡ record member {
      fmids = reading.now.fmids;
      system = reading.now.system;
      user = reading.now.user;
    }) }
{
    let fmids = Vec::from_slice(alloc, reading.fmids())?;
    let system = Vec::from_slice(alloc, reading.system())?;
    let user = Vec::from_slice(alloc, reading.user())?;
    Ok(member.with_fmids(fmids).with_holds_to_heed(system, user))
}

// The row of a member.
fn row_at(rows: &[Vec<usize>], index: usize) -> &[usize]
    ensures { result.now ≡ row (places_of rows.now) index }
{
    match rows.get(index) {
        Some(row) => row.as_slice(),
        None => &[],
    }
}

// The holds at some indices.
fn holds_at(
    alloc: Global,
    resolved: &[ChosenResolver],
    places: &[usize],
) -> Result<Vec<HoldOn>, NoMemory>
    ensures { IfOk result (λ holds. holds.items ≡ holds_at resolved.now places.now) }
{
    let mut holds = Vec::with_capacity(alloc, places.len())?;
    for place in places {
        push_hold(&mut holds, resolved_at(resolved, *place))?;
    }
    Ok(holds)
}

fn resolved_at(resolved: &[ChosenResolver], place: usize) -> Option<ChosenResolver>
    ensures { result ≡ slice_get resolved.now place }
{
    resolved.get(place).copied()
}

fn push_hold(holds: &mut Vec<HoldOn>, one: Option<ChosenResolver>) -> Result<(), NoMemory>
    ensures { OnOk result
        (holds.new.items ≡ holds.old.items ++ map (λ one. one.hold) (cons_option one [])) }
{
    if let Some(one) = one {
        holds.push(one.hold)?;
    }
    Ok(())
}

// The ids at some indices but for one.
fn others_at(alloc: Global, ids: &[Id], id: &Id, places: &[usize]) -> Result<Vec<Id>, NoMemory>
    ensures { IfOk result (λ others. others.items ≡ others_at ids.now id.now places.now) }
{
    let mut others = Vec::with_capacity(alloc, places.len())?;
    for place in places {
        push_other(&mut others, id_at(ids, *place), id)?;
    }
    Ok(others)
}

fn id_at(ids: &[Id], place: usize) -> Option<Id>
    ensures { result ≡ slice_get ids.now place }
{
    ids.get(place).copied()
}

// Adds an id unless it is the one.
fn push_other(others: &mut Vec<Id>, other: Option<Id>, id: &Id) -> Result<(), NoMemory>
    ensures { OnOk result (others.new.items
        ≡ others.old.items ++ filter (λ other. not (same_id other id.now)) (cons_option other [])) }
{
    if let Some(other) = other {
        if other != *id {
            others.push(other)?;
        }
    }
    Ok(())
}
