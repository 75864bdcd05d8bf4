//! The list of zones, and the counts of what is published.
ghost use Rattle.std.specs.Prelude.{◌≡◌, IfOk, false, map};
ghost use Rattle.serde_json.specs.View.{items_of, items_view, view};
ghost use Rattle.serde_json.specs.Written.{compact_text, has_float};
ghost use Rattle.report_json.specs.Json as Spec;

use faults::NoMemory;
use mcs_reader::Id;
use serde_json::{Value, json};
use std::alloc::Global;

/// Prints a client's zones as compact JSON: an object with `zones`, a list of objects. Each has `zone`,
/// and `sysmods`, which is the number of its rows.
///
/// # Errors
///
/// Memory ran out.
pub fn zones_json(alloc: Global, zones: &[(Id, u64)]) -> Result<Vec<u8>, NoMemory>
    ensures { IfOk result (λ text. text.items ≡ Spec.zones_json_of zones.now) }
{
    let value = zones_value(alloc, zones)?;
    compact(alloc, &value)
}

/// Prints the counts of what is published as compact JSON: an object with `holds` and `sysmods`, which
/// are numbers.
///
/// # Errors
///
/// Memory ran out.
pub fn published_json(alloc: Global, sysmods: u64, holds: u64) -> Result<Vec<u8>, NoMemory>
    ensures { IfOk result (λ text. text.items ≡ Spec.published_json_of sysmods holds) }
{
    let value = published_value(alloc, sysmods, holds)?;
    compact(alloc, &value)
}

/// The text of a value.
pub(crate) fn compact(alloc: Global, value: &Value) -> Result<Vec<u8>, NoMemory>
    ensures { IfOk result
        (λ text. has_float (view value.now) ≡ false → text.items ≡ compact_text (view value.now)) }
{
    Ok(value.to_string(alloc)?.into_bytes())
}

fn published_value(alloc: Global, sysmods: u64, holds: u64) -> Result<Value, NoMemory>
    ensures { IfOk result (λ value. view value ≡ Spec.published_data sysmods holds) }
{
    json!(in alloc; { "holds": holds, "sysmods": sysmods })
}

fn zones_value(alloc: Global, zones: &[(Id, u64)]) -> Result<Value, NoMemory>
    ensures { IfOk result (λ value. view value ≡ Spec.zones_data zones.now) }
{
    json!(in alloc; { "zones": zone_values(alloc, zones)? })
}

fn zone_values(alloc: Global, zones: &[(Id, u64)]) -> Result<Vec<Value>, NoMemory>
    ensures { IfOk result (λ values. items_view values.items ≡ items_of (map Spec.zone_data zones.now)) }
{
    let mut values = Vec::new(alloc);
    for zone in zones {
        values.push(zone_value(alloc, zone)?)?;
    }
    Ok(values)
}

fn zone_value(alloc: Global, zone: &(Id, u64)) -> Result<Value, NoMemory>
    ensures { IfOk result (λ value. view value ≡ Spec.zone_data zone.now) }
{
    json!(in alloc; { "sysmods": zone.1, "zone": zone.0.text() })
}
