//! The lines of the two reports as rows, and the holds that those of the missing fix report name.
ghost use Rattle.std.specs.Prelude.{◌≡◌, Bool, ℕ, List, Option, IfOk};
ghost use Rattle.serde_json.specs.View.{view};
ghost use Rattle.report_json.specs.Json as Spec;

use crate::dates::date_value;
use crate::fields::{categories_values, category_value, id_value, received_value, status_value};
use faults::NoMemory;
use holddata::Hold;
use mcs_reader::Id;
use reports::Line;
use serde_json::{Value, json};
use std::alloc::Global;
use verdicts::Status;

/// A line of the exception SYSMOD report.
pub(crate) fn err_value(alloc: Global, line: &Line) -> Result<Value, NoMemory>
    ensures { IfOk result (λ value. view value ≡ Spec.err_data line.now) }
{
    let (status, received) = (line.status(), line.received());
    err_value_with(alloc, line.hold(), line.resolver(), status, received)
}

fn err_value_with(
    alloc: Global,
    hold: &Hold,
    resolver: Option<Id>,
    status: Option<Status>,
    received: Option<bool>,
) -> Result<Value, NoMemory>
    ensures { IfOk result (λ value. view value ≡ Spec.err_data_with hold.now resolver status received) }
{
    json!(in alloc; {
        "class": id_value(alloc, &hold.class)?,
        "date": date_value(alloc, hold.dated)?,
        "fmid": id_value(alloc, &hold.fmid)?,
        "reason": hold.key.reason.text(),
        "received": received_value(received),
        "resolver": id_value(alloc, &resolver)?,
        "status": status_value(alloc, status)?,
        "sysmod": hold.key.sysmod.text()
    })
}

/// A line of the missing fix report.
pub(crate) fn missing_value(alloc: Global, line: &Line) -> Result<Value, NoMemory>
    ensures { IfOk result (λ value. view value ≡ Spec.missing_data line.now) }
{
    let (status, received) = (line.status(), line.received());
    let (category, resolver) = (line.category(), line.resolver());
    missing_value_with(alloc, category, line.hold(), resolver, status, received)
}

fn missing_value_with(
    alloc: Global,
    category: &[u8],
    fix: &Hold,
    resolver: Option<Id>,
    status: Option<Status>,
    received: Option<bool>,
) -> Result<Value, NoMemory>
    ensures { IfOk result (λ value. view value
        ≡ Spec.missing_data_with category.now fix.now resolver status received) }
{
    json!(in alloc; {
        "category": category_value(alloc, category)?,
        "class": id_value(alloc, &fix.class)?,
        "date": date_value(alloc, fix.dated)?,
        "reason": fix.key.reason.text(),
        "received": received_value(received),
        "resolver": id_value(alloc, &resolver)?,
        "status": status_value(alloc, status)?,
        "sysmod": fix.key.sysmod.text()
    })
}

/// A hold of the missing fix report.
pub(crate) fn hold_value(alloc: Global, hold: &Hold) -> Result<Value, NoMemory>
    ensures { IfOk result (λ value. view value ≡ Spec.hold_data hold.now) }
{
    json!(in alloc; {
        "categories": categories_values(alloc, hold)?,
        "fmid": id_value(alloc, &hold.fmid)?,
        "reason": hold.key.reason.text(),
        "sysmod": hold.key.sysmod.text()
    })
}
