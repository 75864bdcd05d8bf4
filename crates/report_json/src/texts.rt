//! The two reports as JSON.
ghost use Rattle.std.specs.Prelude.{◌≡◌, IfOk, map};
ghost use Rattle.serde_json.specs.View.{view};
ghost use Rattle.catalogue.specs.View.{MayAsk, Tells};
ghost use Rattle.catalogue.specs.declared.fault.SourceFault.TheVariants.{Device};
ghost use Rattle.report_json.specs.Dates.{DaysAreFound};
ghost use Rattle.report_json.specs.Json as Spec;

use crate::lists::compact;
use crate::rows::{err_value, hold_value, missing_value};
use crate::sysmods::{sysmod_values, sysmods_in};
use catalogue::{Published, SourceFault};
use faults::NoMemory;
use mcs_reader::Id;
use reports::{HoldResolvers, Line, err_lines, missing_lines};
use serde_json::{Value, json};
use std::alloc::Global;
use zone_lists::Pattern;

/// Prints the exception SYSMOD report on a zone as compact JSON: an object with `report`, which is `errsysmods`,
/// `rows`, `sysmods` and `zone`. Keys ascend in each object, and no line end comes after it. The rows are the lines of
/// the holds in the report's order.
///
/// A row has the columns of the text, `class`, `fmid`, `reason`, `received`, `resolver`, `status` and `sysmod`, and
/// the `date` of its hold. `received` is true or false. An absent field is null. In the row of a hold without a
/// resolver, `received`, `resolver` and `status` are null.
///
/// A `date` is `YYYY-MM-DD`, in one of the years 1970 to 2069. It is null if the hold has no DATE, or if its DATE is a
/// day that no calendar has, which is day 366 of a year with 365.
///
/// `sysmods` has each held SYSMOD of the rows once, in ascending order: `fmids`, which are the functions that its
/// record names, or null if it is not published, and `sysmod`.
///
/// # Errors
///
/// `Memory` if memory ran out, `Device` if the source failed.
pub fn err_json<P: Published>(
    alloc: Global,
    source: &mut P,
    zone: &Id,
    helds: &[HoldResolvers],
) -> Result<Vec<u8>, SourceFault>
    ensures asks { MayAsk P.content_view Device source.old source.new result }
    ensures text { IfOk result (λ text. Tells P.content_view source.old source.new
        (λ content. text.items ≡ Spec.err_json_of content zone.now helds.now)) }
    ensures days { DaysAreFound }
{
    let lines = err_lines(alloc, helds)?;
    let values = err_values(alloc, &lines)?;
    let ids = sysmods_in(alloc, helds)?;
    let sysmods = sysmod_values(alloc, source, ids.as_slice())?;
    let value = err_report_value(alloc, zone, values, sysmods)?;
    Ok(compact(alloc, &value)?)
}

fn err_report_value(
    alloc: Global,
    zone: &Id,
    rows: Vec<Value>,
    sysmods: Vec<Value>,
) -> Result<Value, NoMemory>
    ensures { IfOk result (λ value. view value
        ≡ Spec.err_report_data zone.now (map view rows.items) (map view sysmods.items)) }
{
    json!(in alloc; {
        "report": "errsysmods",
        "rows": rows,
        "sysmods": sysmods,
        "zone": zone.text()
    })
}

#[tactic(auto, using(crate::proofs::JsonFacts::value_more))]
fn err_values(alloc: Global, lines: &[Line]) -> Result<Vec<Value>, NoMemory>
    ensures { IfOk result (λ values. map view values.items ≡ map Spec.err_data lines.now) }
{
    let mut values = Vec::new(alloc);
    for line in lines {
        values.push(err_value(alloc, line)?)?;
    }
    Ok(values)
}

/// Prints the missing fix report on a zone, as [`err_json`] does: `holds`, `report`, which is `missingfix`, `rows`,
/// `sysmods` and `zone`.
///
/// A row has `category`, `class` and `date`, which are those of its hold, `reason`, `received`, `resolver`,
/// `status` and `sysmod`, which is the held one: the column FMID of the text.
///
/// `holds` has each hold once, in their order: `categories`, which are all of the hold, whether a pattern matches them
/// or not, `fmid`, which is its operand FMID or null, `reason` and `sysmod`.
///
/// # Errors
///
/// Those of [`err_json`].
pub fn missing_json<P: Published>(
    alloc: Global,
    source: &mut P,
    zone: &Id,
    patterns: &[Pattern],
    helds: &[HoldResolvers],
) -> Result<Vec<u8>, SourceFault>
    ensures asks { MayAsk P.content_view Device source.old source.new result }
    ensures text { IfOk result (λ text. Tells P.content_view source.old source.new
        (λ content. text.items ≡ Spec.missing_json_of content zone.now patterns.now helds.now)) }
    ensures days { DaysAreFound }
{
    let lines = missing_lines(alloc, patterns, helds)?;
    let named = hold_values(alloc, helds)?;
    let values = missing_values(alloc, &lines)?;
    let ids = sysmods_in(alloc, helds)?;
    let sysmods = sysmod_values(alloc, source, ids.as_slice())?;
    let value = missing_report_value(alloc, zone, named, values, sysmods)?;
    Ok(compact(alloc, &value)?)
}

fn missing_report_value(
    alloc: Global,
    zone: &Id,
    holds: Vec<Value>,
    rows: Vec<Value>,
    sysmods: Vec<Value>,
) -> Result<Value, NoMemory>
    ensures { IfOk result (λ value. view value ≡ Spec.missing_report_data zone.now (map view holds.items)
        (map view rows.items) (map view sysmods.items)) }
{
    json!(in alloc; {
        "holds": holds,
        "report": "missingfix",
        "rows": rows,
        "sysmods": sysmods,
        "zone": zone.text()
    })
}

#[tactic(auto, using(crate::proofs::JsonFacts::value_more))]
fn missing_values(alloc: Global, lines: &[Line]) -> Result<Vec<Value>, NoMemory>
    ensures { IfOk result (λ values. map view values.items ≡ map Spec.missing_data lines.now) }
{
    let mut values = Vec::new(alloc);
    for line in lines {
        values.push(missing_value(alloc, line)?)?;
    }
    Ok(values)
}

#[tactic(auto, using(crate::proofs::JsonFacts::value_more))]
fn hold_values(alloc: Global, helds: &[HoldResolvers]) -> Result<Vec<Value>, NoMemory>
    ensures { IfOk result (λ values. map view values.items
        ≡ map (λ held. Spec.hold_data held.hold) helds.now) }
{
    let mut values = Vec::new(alloc);
    for held in helds {
        values.push(hold_value(alloc, held.hold())?)?;
    }
    Ok(values)
}
