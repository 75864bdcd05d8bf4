//! The counts of the reports on a zone.
ghost use Rattle.std.specs.Prelude.{◌≡◌, IfOk, count_by, length};
ghost use Rattle.serde_json.specs.View.{view};
ghost use Rattle.reports.specs.Lines.{err_lines_of, missing_lines_of};
ghost use Rattle.report_json.specs.Counts as Spec;
ghost use Rattle.report_json.specs.Json.{sysmods_in};

use crate::lists::compact;
use crate::sysmods::sysmods_in;
use faults::NoMemory;
use holddata::Hold;
use mcs_reader::Id;
use reports::{HoldResolvers, Resolver, Status, err_lines, missing_lines};
use serde_json::{Value, json};
use std::alloc::Global;
use zone_lists::Pattern;

/// Prints the counts of the two reports on a zone as compact JSON: an object with `errsysmods`, `missingfix` and `zone`.
///
/// `errsysmods` has the number of `holds` of the exception SYSMOD report. By their classes these are `hiper`, `pe` and
/// `other`. By their resolvers they are `resolved`, where one is GOOD, `held`, where none is GOOD and one is HELD, and
/// `unresolved`, as in a plan. `rows` counts the rows of the report, and `sysmods` the held SYSMODs, each once.
///
/// `missingfix` has the number of `holds` of the missing fix report, each of which is a missing fix, and of its `rows`.
///
/// # Errors
///
/// Memory ran out.
pub fn zone_counts_json(
    alloc: Global,
    zone: &Id,
    patterns: &[Pattern],
    errors: &[HoldResolvers],
    fixes: &[HoldResolvers],
) -> Result<Vec<u8>, NoMemory>
    ensures { IfOk result (λ text. text.items
        ≡ Spec.zone_counts_json_of zone.now patterns.now errors.now fixes.now) }
{
    let value = zone_counts_value(alloc, zone, patterns, errors, fixes)?;
    compact(alloc, &value)
}

fn zone_counts_value(
    alloc: Global,
    zone: &Id,
    patterns: &[Pattern],
    errors: &[HoldResolvers],
    fixes: &[HoldResolvers],
) -> Result<Value, NoMemory>
    ensures { IfOk result (λ value. view value ≡ Spec.zone_counts_data zone.now
        (Spec.err_counts_data errors.now) (Spec.missing_counts_data patterns.now fixes.now)) }
{
    json!(in alloc; {
        "errsysmods": err_counts(alloc, errors)?,
        "missingfix": missing_counts(alloc, patterns, fixes)?,
        "zone": zone.text()
    })
}

fn err_counts(alloc: Global, helds: &[HoldResolvers]) -> Result<Value, NoMemory>
    ensures { IfOk result (λ value. view value ≡ Spec.err_counts_data helds.now) }
{
    let rows = err_rows(alloc, helds)?;
    let sysmods = held_sysmods(alloc, helds)?;
    err_counts_value(alloc, helds, rows, sysmods)
}

fn err_counts_value(
    alloc: Global,
    helds: &[HoldResolvers],
    rows: u64,
    sysmods: u64,
) -> Result<Value, NoMemory>
    ensures { IfOk result (λ value. view value ≡ Spec.err_counts_with rows sysmods helds.now) }
{
    json!(in alloc; {
        "held": held_among(helds),
        "hiper": hiper_among(helds),
        "holds": helds.len() as u64,
        "other": other_among(helds),
        "pe": pe_among(helds),
        "resolved": resolved_among(helds),
        "rows": rows,
        "sysmods": sysmods,
        "unresolved": unresolved_among(helds)
    })
}

fn missing_counts(
    alloc: Global,
    patterns: &[Pattern],
    helds: &[HoldResolvers],
) -> Result<Value, NoMemory>
    ensures { IfOk result (λ value. view value ≡ Spec.missing_counts_data patterns.now helds.now) }
{
    let rows = missing_rows(alloc, patterns, helds)?;
    json!(in alloc; { "holds": helds.len() as u64, "rows": rows })
}

// The number of rows of the exception SYSMOD report.
fn err_rows(alloc: Global, helds: &[HoldResolvers]) -> Result<u64, NoMemory>
    ensures { IfOk result (λ n. n ≡ length (err_lines_of helds.now)) }
{
    Ok(err_lines(alloc, helds)?.len() as u64)
}

// The number of rows of the missing fix report.
fn missing_rows(
    alloc: Global,
    patterns: &[Pattern],
    helds: &[HoldResolvers],
) -> Result<u64, NoMemory>
    ensures { IfOk result (λ n. n ≡ length (missing_lines_of patterns.now helds.now)) }
{
    Ok(missing_lines(alloc, patterns, helds)?.len() as u64)
}

// The number of SYSMODs that are held.
fn held_sysmods(alloc: Global, helds: &[HoldResolvers]) -> Result<u64, NoMemory>
    ensures { IfOk result (λ n. n ≡ length (sysmods_in helds.now)) }
{
    Ok(sysmods_in(alloc, helds)?.len() as u64)
}

fn hiper_among(helds: &[HoldResolvers]) -> u64
    ensures { result ≡ count_by Spec.is_hiper helds.now }
{
    helds.iter().filter(|held| is_hiper(held)).count() as u64
}

fn pe_among(helds: &[HoldResolvers]) -> u64
    ensures { result ≡ count_by Spec.is_pe helds.now }
{
    helds.iter().filter(|held| is_pe(held)).count() as u64
}

fn other_among(helds: &[HoldResolvers]) -> u64
    ensures { result ≡ count_by Spec.is_other helds.now }
{
    helds.iter().filter(|held| is_other(held)).count() as u64
}

fn resolved_among(helds: &[HoldResolvers]) -> u64
    ensures { result ≡ count_by Spec.is_resolved helds.now }
{
    helds.iter().filter(|held| is_resolved(held)).count() as u64
}

fn held_among(helds: &[HoldResolvers]) -> u64
    ensures { result ≡ count_by Spec.is_held helds.now }
{
    helds.iter().filter(|held| is_held(held)).count() as u64
}

fn unresolved_among(helds: &[HoldResolvers]) -> u64
    ensures { result ≡ count_by Spec.is_unresolved helds.now }
{
    helds.iter().filter(|held| is_unresolved(held)).count() as u64
}

fn is_hiper(held: &HoldResolvers) -> bool
    ensures { result ≡ Spec.is_hiper held.now }
{
    is_class(b"HIPER", held.hold())
}

fn is_pe(held: &HoldResolvers) -> bool
    ensures { result ≡ Spec.is_pe held.now }
{
    is_class(b"PE", held.hold())
}

fn is_other(held: &HoldResolvers) -> bool
    ensures { result ≡ Spec.is_other held.now }
{
    !(is_hiper(held) || is_pe(held))
}

// Whether a hold has this class.
fn is_class(name: &[u8], hold: &Hold) -> bool
    ensures { result ≡ Spec.is_class name.now hold.now.class }
{
    match &hold.class {
        Some(class) => class.as_bytes() == name,
        None => false,
    }
}

fn is_resolved(held: &HoldResolvers) -> bool
    ensures { result ≡ Spec.is_resolved held.now }
{
    held.resolvers().iter().any(|resolver| is_good(resolver))
}

fn is_held(held: &HoldResolvers) -> bool
    ensures { result ≡ Spec.is_held held.now }
{
    !is_resolved(held) && has_held(held)
}

fn is_unresolved(held: &HoldResolvers) -> bool
    ensures { result ≡ Spec.is_unresolved held.now }
{
    !(is_resolved(held) || has_held(held))
}

fn has_held(held: &HoldResolvers) -> bool
    ensures { result ≡ Spec.has_held held.now }
{
    held.resolvers()
        .iter()
        .any(|resolver| is_status_held(resolver))
}

fn is_good(resolver: &Resolver) -> bool
    ensures { result ≡ Spec.is_good resolver.now.status }
{
    matches!(resolver.status, Status::Good)
}

fn is_status_held(resolver: &Resolver) -> bool
    ensures { result ≡ Spec.is_status_held resolver.now.status }
{
    matches!(resolver.status, Status::Held)
}
