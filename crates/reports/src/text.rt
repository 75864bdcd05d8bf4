//! The two reports in print.
ghost use Rattle.std.specs.Prelude.{◌≡◌, ◌++◌, Some, IfOk};
ghost use Rattle.mcs_reader.specs.Bytes.{bytes_of_each};
ghost use Rattle.mcs_reader.specs.Id.{text_of};
ghost use Rattle.holddata.specs.BookText.{id_field};
ghost use Rattle.reports.specs.ReportText.{err_fields, err_text_of, missing_fields, missing_text_of, received_field, resolver_field, status_field};

use crate::{ErrRow, MissingRow, Status};
use columns::{Column, Table};
use faults::NoMemory;
use mcs_reader::Id;
use std::alloc::Global;

// The column at which each field of the exception SYSMOD report begins, and its name.
const ERR_COLUMNS: [Column; 7] = [
    Column {
        start: 1,
        name: b"FMID",
    },
    Column {
        start: 10,
        name: b"SYSMOD",
    },
    Column {
        start: 19,
        name: b"REASON",
    },
    Column {
        start: 28,
        name: b"RESOLVER",
    },
    Column {
        start: 37,
        name: b"STATUS",
    },
    Column {
        start: 44,
        name: b"RECEIVED",
    },
    Column {
        start: 53,
        name: b"CLASS",
    },
];

// The same for the missing fix report. The held SYSMOD is in the column FMID.
const MISSING_COLUMNS: [Column; 6] = [
    Column {
        start: 1,
        name: b"CATEGORY",
    },
    Column {
        start: 67,
        name: b"FMID",
    },
    Column {
        start: 76,
        name: b"REASON",
    },
    Column {
        start: 85,
        name: b"RESOLVER",
    },
    Column {
        start: 94,
        name: b"STATUS",
    },
    Column {
        start: 101,
        name: b"RECEIVED",
    },
];

// The text for an absent field.
const ABSENT: &[u8] = b"-";

/// Prints the exception SYSMOD report on a zone: a title, a heading, the rows and their count. Each line ends with LF
/// (IBM z/OS SMP/E Commands, REPORT ERRSYSMODS).
///
/// # Errors
///
/// Memory ran out.
pub fn err_text(alloc: Global, zone: &Id, rows: &[ErrRow]) -> Result<Vec<u8>, NoMemory>
    ensures { IfOk result (λ text. text.items ≡ err_text_of zone.now rows.now) }
{
    let title = titled(alloc, b"EXCEPTION SYSMOD REPORT FOR ZONE ", zone)?;
    let mut table = Table::new(alloc, &ERR_COLUMNS, Some(title.as_slice()))?;
    for row in rows {
        table.push(&err_fields_of(row))?;
    }
    table.finish()
}

/// Prints the missing fix report on a zone, as [`err_text`] does (IBM z/OS SMP/E Commands, REPORT MISSINGFIX).
///
/// # Errors
///
/// Memory ran out.
pub fn missing_text(alloc: Global, zone: &Id, rows: &[MissingRow]) -> Result<Vec<u8>, NoMemory>
    ensures { IfOk result (λ text. text.items ≡ missing_text_of zone.now rows.now) }
{
    let title = titled(alloc, b"MISSING FIX REPORT FOR ZONE ", zone)?;
    let mut table = Table::new(alloc, &MISSING_COLUMNS, Some(title.as_slice()))?;
    for row in rows {
        table.push(&missing_fields_of(row))?;
    }
    table.finish()
}

/// A title that ends with the zone's name.
///
/// # Errors
///
/// Memory ran out.
pub fn titled(alloc: Global, title: &[u8], zone: &Id) -> Result<Vec<u8>, NoMemory>
    ensures { IfOk result (λ titled. titled.items ≡ title.now ++ text_of zone.now) }
{
    let mut titled = Vec::from_slice(alloc, title)?;
    titled.extend_from_slice(zone.as_bytes())?;
    Ok(titled)
}

// The fields of a row.
fn err_fields_of(row: &ErrRow) -> [&[u8]; 7]
    ensures { bytes_of_each result ≡ err_fields row.now }
{
    [
        id_field(&row.fmid),
        row.sysmod.as_bytes(),
        row.reason.as_bytes(),
        resolver_field(&row.resolver),
        status_field(&row.status),
        received_field(&row.received),
        id_field(&row.class),
    ]
}

fn missing_fields_of(row: &MissingRow) -> [&[u8]; 6]
    ensures { bytes_of_each result ≡ missing_fields row.now }
{
    [
        row.category.as_bytes(),
        row.sysmod.as_bytes(),
        row.reason.as_bytes(),
        resolver_field(&row.resolver),
        status_field(&row.status),
        received_field(&row.received),
    ]
}

fn id_field(id: &Option<Id>) -> &[u8]
    ensures { result.now ≡ id_field id.now }
{
    match id {
        Some(id) => id.as_bytes(),
        None => ABSENT,
    }
}

fn resolver_field(resolver: &Option<Id>) -> &[u8]
    ensures { result.now ≡ resolver_field resolver.now }
{
    match resolver {
        Some(id) => id.as_bytes(),
        None => b"- NONE -",
    }
}

fn status_field(status: &Option<Status>) -> &[u8]
    ensures { result.now ≡ status_field status.now }
{
    match status {
        Some(Status::Good) => b"GOOD",
        Some(Status::Held) => b"HELD",
        Some(Status::Lack) => b"LACK",
        None => ABSENT,
    }
}

fn received_field(received: &Option<bool>) -> &[u8]
    ensures { result.now ≡ received_field received.now }
{
    match received {
        Some(true) => b"YES",
        Some(false) => b"NO",
        None => ABSENT,
    }
}
