//! The fields of rows.
ghost use Rattle.std.specs.Prelude.{◌≡◌, IfOk, map};
ghost use Rattle.mcs_reader.specs.Bytes.{bytes_of_each};
ghost use Rattle.serde_json.specs.View.{items_of, items_view, view};
ghost use Rattle.reports.specs.ChainText.{texts};
ghost use Rattle.report_json.specs.Json as Spec;

use catalogue::Sysmod;
use faults::NoMemory;
use holddata::Hold;
use mcs_reader::Id;
use serde_json::Value;
use std::alloc::Global;
use verdicts::Status;

/// An id, or null if there is none.
pub(crate) fn id_value(alloc: Global, id: &Option<Id>) -> Result<Value, NoMemory>
    ensures { IfOk result (λ value. view value ≡ Spec.id_data id.now) }
{
    match id {
        Some(id) => Value::try_from_str(alloc, id.text()),
        None => Ok(Value::Null),
    }
}

/// The status of a resolver, or null if there is none.
pub(crate) fn status_value(alloc: Global, status: Option<Status>) -> Result<Value, NoMemory>
    ensures { IfOk result (λ value. view value ≡ Spec.status_data status) }
{
    match status {
        Some(Status::Good) => Value::try_from_str(alloc, "GOOD"),
        Some(Status::Held) => Value::try_from_str(alloc, "HELD"),
        Some(Status::Lack) => Value::try_from_str(alloc, "LACK"),
        None => Ok(Value::Null),
    }
}

/// Whether a resolver was received, or null if there is none.
pub(crate) fn received_value(received: Option<bool>) -> Value
    ensures { view result ≡ Spec.received_data received }
{
    match received {
        Some(received) => Value::Bool(received),
        None => Value::Null,
    }
}

/// A category as a text.
pub(crate) fn category_value(alloc: Global, category: &[u8]) -> Result<Value, NoMemory>
    ensures { IfOk result (λ value. view value ≡ Spec.category_data category.now) }
{
    Ok(Value::String(String::from_utf8_lossy(alloc, category)?))
}

/// All categories of a hold.
pub(crate) fn categories_values(alloc: Global, hold: &Hold) -> Result<Vec<Value>, NoMemory>
    ensures { IfOk result (λ values. items_view values.items
        ≡ items_of (map Spec.category_data hold.now.categories)) }
{
    category_values(alloc, &hold.categories.to_list()?)
}

fn category_values(alloc: Global, categories: &[&[u8]]) -> Result<Vec<Value>, NoMemory>
    ensures { IfOk result (λ values. items_view values.items
        ≡ items_of (map Spec.category_data (bytes_of_each categories.now))) }
{
    let mut values = Vec::new(alloc);
    for category in categories {
        values.push(category_value(alloc, category)?)?;
    }
    Ok(values)
}

/// The functions of a SYSMOD by its record, or null if it has none.
pub(crate) fn fmids_value(alloc: Global, sysmod: &Option<Sysmod>) -> Result<Value, NoMemory>
    ensures { IfOk result (λ value. view value ≡ Spec.fmids_data sysmod.now) }
{
    match sysmod {
        Some(sysmod) => Ok(Value::Array(text_values(alloc, sysmod.fmids.as_slice())?)),
        None => Ok(Value::Null),
    }
}

fn text_values(alloc: Global, ids: &[Id]) -> Result<Vec<Value>, NoMemory>
    ensures { IfOk result (λ values. items_view values.items ≡ texts ids.now) }
{
    let mut values = Vec::new(alloc);
    for id in ids {
        values.push(Value::try_from_str(alloc, id.text())?)?;
    }
    Ok(values)
}
