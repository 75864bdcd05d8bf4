//! The tables of the members.
ghost use Rattle.std.specs.Prelude.{◌≡◌, ◌∷◌, [], IfOk, OnOk, decimal, map};
ghost use Rattle.mcs_reader.specs.Bytes.{bytes_of_each};
ghost use Rattle.mcs_reader.specs.Id.{text_of};
ghost use Rattle.plan_reports.specs.Adding.{AddsRows};
ghost use Rattle.plan_reports.specs.Tables as Spec;

use crate::fields::{dash, list_field, received_field, whole};
use crate::member::Member;
use columns::{Column, Table};
use faults::NoMemory;
use itoa::Buffer;
use mcs_reader::Id;
use questions::Report;
use reports::titled;
use std::alloc::Global;
use zone_plans::HoldOn;

const PLAN_COLUMNS: [Column; 4] = [
    Column {
        start: 1,
        name: b"STEP",
    },
    Column {
        start: 10,
        name: b"SYSMOD",
    },
    Column {
        start: 19,
        name: b"RECEIVED",
    },
    Column {
        start: 28,
        name: b"FMID",
    },
];

const CAUSE_COLUMNS: [Column; 4] = [
    Column {
        start: 1,
        name: b"SYSMOD",
    },
    Column {
        start: 10,
        name: b"FOR",
    },
    Column {
        start: 19,
        name: b"REASON",
    },
    Column {
        start: 28,
        name: b"NEEDED BY",
    },
];

const HEED_COLUMNS: [Column; 3] = [
    Column {
        start: 1,
        name: b"SYSMOD",
    },
    Column {
        start: 10,
        name: b"KIND",
    },
    Column {
        start: 19,
        name: b"REASON",
    },
];

/// The members, by step.
pub(crate) fn plan_table(
    alloc: Global,
    report: Report,
    zone: &Id,
    members: &[Member],
) -> Result<Vec<u8>, NoMemory>
    ensures { IfOk result (λ text. text.items ≡ Spec.plan_table report zone.now members.now) }
{
    let title = titled(alloc, title_of(report), zone)?;
    let mut table = Table::new(alloc, &PLAN_COLUMNS, Some(title.as_slice()))?;
    for member in members {
        push_member(alloc, &mut table, member)?;
    }
    table.finish()
}

// The beginning of the title of the plan's text.
fn title_of(report: Report) -> &'static [u8]
    ensures { result.now ≡ Spec.title_of report }
{
    match report {
        Report::ErrSysmods => b"EXCEPTION SYSMOD PLAN FOR ZONE ",
        Report::MissingFix => b"MISSING FIX PLAN FOR ZONE ",
    }
}

fn push_member(alloc: Global, table: &mut Table, member: &Member) -> Result<(), NoMemory>
    ensures { OnOk result (AddsRows (Spec.plan_fields member.now ∷ []) table.old table.new) }
{
    let fmids = list_field(alloc, member.fmids())?;
    let step = number_field(alloc, member.step())?;
    let id = member.id();
    let received = member.received();
    table.push(&member_fields(&step, &id, &received, &fmids))?;
    Ok(())
}

fn number_field(alloc: Global, number: usize) -> Result<Vec<u8>, NoMemory>
    ensures { IfOk result (λ field. field.items ≡ decimal number) }
{
    Vec::from_slice(alloc, Buffer::new().format(number).as_bytes())
}

fn member_fields<'a>(
    step: &'a [u8],
    id: &'a Id,
    received: &'a bool,
    fmids: &'a [u8],
) -> [&'a [u8]; 4]
    ensures { bytes_of_each result
        ≡ step.now ∷ text_of id.now ∷ Spec.received_field received.now ∷ fmids.now ∷ [] }
{
    [
        whole(step),
        id.as_bytes(),
        received_field(received),
        whole(fmids),
    ]
}

/// The cause of each member.
pub(crate) fn cause_table(alloc: Global, members: &[Member]) -> Result<Vec<u8>, NoMemory>
    ensures { IfOk result (λ text. text.items ≡ Spec.cause_table members.now) }
{
    let mut table = Table::new(alloc, &CAUSE_COLUMNS, Some(b"CAUSES"))?;
    for member in members {
        push_causes(&mut table, member)?;
    }
    table.finish()
}

fn push_causes(table: &mut Table, member: &Member) -> Result<(), NoMemory>
    ensures { OnOk result (AddsRows (Spec.causes_of member.now) table.old table.new) }
{
    let id = member.id();
    push_hold_causes(table, &id, member.holds())?;
    push_need_causes(table, &id, member.needed_by())?;
    Ok(())
}

fn push_hold_causes(table: &mut Table, id: &Id, holds: &[HoldOn]) -> Result<(), NoMemory>
    ensures { OnOk result (AddsRows (map (Spec.hold_cause id.now) holds.now) table.old table.new) }
{
    for hold in holds {
        table.push(&hold_cause(id, hold))?;
    }
    Ok(())
}

fn push_need_causes(table: &mut Table, id: &Id, others: &[Id]) -> Result<(), NoMemory>
    ensures { OnOk result (AddsRows (map (Spec.need_cause id.now) others.now) table.old table.new) }
{
    for other in others {
        table.push(&need_cause(id, other))?;
    }
    Ok(())
}

fn hold_cause<'a>(id: &'a Id, hold: &'a HoldOn) -> [&'a [u8]; 4]
    ensures { bytes_of_each result ≡ Spec.hold_cause id.now hold.now }
{
    [
        id.as_bytes(),
        hold.sysmod.as_bytes(),
        hold.reason.as_bytes(),
        dash(id),
    ]
}

fn need_cause<'a>(id: &'a Id, other: &'a Id) -> [&'a [u8]; 4]
    ensures { bytes_of_each result ≡ Spec.need_cause id.now other.now }
{
    [id.as_bytes(), dash(id), dash(id), other.as_bytes()]
}

/// The SYSTEM and USER holds to heed.
pub(crate) fn heed_table(alloc: Global, members: &[Member]) -> Result<Vec<u8>, NoMemory>
    ensures { IfOk result (λ text. text.items ≡ Spec.heed_table members.now) }
{
    let mut table = Table::new(alloc, &HEED_COLUMNS, Some(b"HOLDS TO HEED"))?;
    for member in members {
        push_member_heeds(&mut table, member)?;
    }
    table.finish()
}

fn push_member_heeds(table: &mut Table, member: &Member) -> Result<(), NoMemory>
    ensures { OnOk result (AddsRows (Spec.heeds_of member.now) table.old table.new) }
{
    let id = member.id();
    push_heeds(table, &id, b"SYSTEM", member.system())?;
    push_heeds(table, &id, b"USER", member.user())?;
    Ok(())
}

fn push_heeds(table: &mut Table, id: &Id, kind: &[u8], reasons: &[Id]) -> Result<(), NoMemory>
    ensures { OnOk result
        (AddsRows (map (Spec.heed_fields id.now kind.now) reasons.now) table.old table.new) }
{
    for reason in reasons {
        table.push(&heed_fields(id, kind, reason))?;
    }
    Ok(())
}

fn heed_fields<'a>(id: &'a Id, kind: &'a [u8], reason: &'a Id) -> [&'a [u8]; 3]
    ensures { bytes_of_each result ≡ Spec.heed_fields id.now kind.now reason.now }
{
    [id.as_bytes(), whole(kind), reason.as_bytes()]
}
