//! The texts of answers. Each is one line, or a table in columns.
ghost use Rattle.std.specs.Prelude.{◌≡◌, ◌++◌, codes, count_by, decimal, map, None, IfOk, OnOk};
ghost use Rattle.columns.specs.Columns.{text_of as text_in};
ghost use Rattle.mcs_reader.specs.Id.{text_of};
ghost use Rattle.bureau.specs.Texts as Spec;
ghost use Rattle.bureau.specs.Texts.{zone_columns, zone_fields, patterns_text, publication_text, received_text, zone_dropped_text, zone_put_text};

use crate::NoMemory;
use catalogue::Change;
use columns::{Column, Table};
use holddata::HoldChange;
use itoa::Buffer;
use mcs_reader::Id;
use questions::Form;
use report_json::{published_json, zones_json};
use std::alloc::Global;
use zone_lists::{Pattern, ZoneRow};

// The column at which each field of the list of zones begins, and its name.
const ZONE_COLUMNS: [Column; 2] = [
    Column {
        start: 1,
        name: b"ZONE",
    },
    Column {
        start: 10,
        name: b"SYSMODS",
    },
];

/// The counts of what is published, in a form: the numbers of SYSMODs and of holds.
pub(crate) fn counts_told(
    alloc: Global,
    form: Form,
    sysmods: u64,
    holds: u64,
) -> Result<Vec<u8>, NoMemory>
    ensures { IfOk result (λ text. text.items ≡ Spec.counts_told form sysmods holds) }
{
    match form {
        Form::Text => counts_line(alloc, sysmods, holds),
        Form::Json => published_json(alloc, sysmods, holds),
    }
}

// The same in print.
fn counts_line(alloc: Global, sysmods: u64, holds: u64) -> Result<Vec<u8>, NoMemory>
    ensures { IfOk result (λ text. text.items ≡
        codes "PUBLISHED SYSMODS " ++ decimal sysmods ++ codes " HOLDS " ++ decimal holds ++ codes "\n") }
{
    let mut text = Vec::new(alloc);
    text.extend_from_slice(b"PUBLISHED SYSMODS ")?;
    push_number(&mut text, sysmods)?;
    text.extend_from_slice(b" HOLDS ")?;
    push_number(&mut text, holds)?;
    text.extend_from_slice(b"\n")?;
    Ok(text)
}

/// The line for a publication: the number of changes of each sort that its statements made.
pub(crate) fn publication_line(alloc: Global, changes: &[Change]) -> Result<Vec<u8>, NoMemory>
    ensures { IfOk result (λ text. text.items ≡ publication_text changes.now) }
{
    let mut text = Vec::new(alloc);
    text.extend_from_slice(b"ACCEPTED SYSMODS ")?;
    push_number(&mut text, records_among(changes) as u64)?;
    text.extend_from_slice(b" HOLDS ")?;
    push_number(&mut text, puts_among(changes) as u64)?;
    text.extend_from_slice(b" RELEASES ")?;
    push_number(&mut text, releases_among(changes) as u64)?;
    text.extend_from_slice(b"\n")?;
    Ok(text)
}

/// The line for a zone that was put.
pub(crate) fn zone_put_line(alloc: Global, zone: &Id, rows: &[ZoneRow]) -> Result<Vec<u8>, NoMemory>
    ensures { IfOk result (λ text. text.items ≡ zone_put_text zone.now rows.now) }
{
    zone_list_line(alloc, zone, b" ROWS ", rows.len())
}

/// The line for a zone that was dropped.
pub(crate) fn zone_dropped_line(alloc: Global, zone: &Id) -> Result<Vec<u8>, NoMemory>
    ensures { IfOk result (λ text. text.items ≡ zone_dropped_text zone.now) }
{
    let mut text = zone_start(alloc, zone)?;
    text.extend_from_slice(b" DROPPED\n")?;
    Ok(text)
}

/// The line for patterns that were put to a zone.
pub(crate) fn patterns_line(
    alloc: Global,
    zone: &Id,
    patterns: &[Pattern],
) -> Result<Vec<u8>, NoMemory>
    ensures { IfOk result (λ text. text.items ≡ patterns_text zone.now patterns.now) }
{
    zone_list_line(alloc, zone, b" PATTERNS ", patterns.len())
}

/// The line for a received list that was put.
pub(crate) fn received_line(alloc: Global, ids: &[Id]) -> Result<Vec<u8>, NoMemory>
    ensures { IfOk result (λ text. text.items ≡ received_text ids.now) }
{
    let mut text = Vec::new(alloc);
    text.extend_from_slice(b"RECEIVED ROWS ")?;
    push_number(&mut text, ids.len() as u64)?;
    text.extend_from_slice(b"\n")?;
    Ok(text)
}

/// A client's zones with the number of rows of each, in a form.
pub(crate) fn zones_told(
    alloc: Global,
    form: Form,
    zones: &[(Id, u64)],
) -> Result<Vec<u8>, NoMemory>
    ensures { IfOk result (λ text. text.items ≡ Spec.zones_told form zones.now) }
{
    match form {
        Form::Text => zones_table(alloc, zones),
        Form::Json => zones_json(alloc, zones),
    }
}

// The same in columns.
fn zones_table(alloc: Global, zones: &[(Id, u64)]) -> Result<Vec<u8>, NoMemory>
    ensures { IfOk result (λ text. text.items ≡ text_in zone_columns None (map zone_fields zones.now)) }
{
    let mut table = Table::new(alloc, &ZONE_COLUMNS, None)?;
    for zone in zones {
        table.push(&[zone.0.as_bytes(), Buffer::new().format(zone.1).as_bytes()])?;
    }
    table.finish()
}

// The line for a list that was put to a zone: the number of its entries.
fn zone_list_line(
    alloc: Global,
    zone: &Id,
    entries: &[u8],
    count: usize,
) -> Result<Vec<u8>, NoMemory>
    ensures { IfOk result (λ text. text.items ≡
        codes "ZONE " ++ text_of zone.now ++ entries.now ++ decimal count ++ codes "\n") }
{
    let mut text = zone_start(alloc, zone)?;
    text.extend_from_slice(entries)?;
    push_number(&mut text, count as u64)?;
    text.extend_from_slice(b"\n")?;
    Ok(text)
}

// The beginning of a line for a zone.
fn zone_start(alloc: Global, zone: &Id) -> Result<Vec<u8>, NoMemory>
    ensures { IfOk result (λ text. text.items ≡ codes "ZONE " ++ text_of zone.now) }
{
    let mut text = Vec::new(alloc);
    text.extend_from_slice(b"ZONE ")?;
    text.extend_from_slice(zone.as_bytes())?;
    Ok(text)
}

fn push_number(text: &mut Vec<u8>, number: u64) -> Result<(), NoMemory>
    ensures { OnOk result (text.new.items ≡ text.old.items ++ decimal number) }
{
    text.extend_from_slice(Buffer::new().format(number).as_bytes())
}

fn records_among(changes: &[Change]) -> usize
    ensures { result ≡ count_by Spec.is_record changes.now }
{
    changes.iter().filter(|change| is_record(change)).count()
}

fn puts_among(changes: &[Change]) -> usize
    ensures { result ≡ count_by Spec.is_put changes.now }
{
    changes.iter().filter(|change| is_put(change)).count()
}

fn releases_among(changes: &[Change]) -> usize
    ensures { result ≡ count_by Spec.is_release changes.now }
{
    changes.iter().filter(|change| is_release(change)).count()
}

fn is_record(change: &Change) -> bool
    ensures { result ≡ Spec.is_record change.now }
{
    matches!(change, Change::Whole(_))
}

fn is_put(change: &Change) -> bool
    ensures { result ≡ Spec.is_put change.now }
{
    matches!(change, Change::OfHold(HoldChange::Put(_)))
}

fn is_release(change: &Change) -> bool
    ensures { result ≡ Spec.is_release change.now }
{
    matches!(change, Change::OfHold(HoldChange::Release(_)))
}
