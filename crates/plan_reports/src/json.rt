//! The plan for a report as compact JSON.
ghost use Rattle.std.specs.Prelude.{◌≡◌, IfOk};
ghost use Rattle.serde_json.specs.View.{view};
ghost use Rattle.plan_reports.specs.Json as Spec;

use crate::member::Member;
use crate::values::values_of;
use faults::NoMemory;
use mcs_reader::Id;
use questions::Report;
use reports::compact;
use serde_json::{Value, json};
use std::alloc::Global;
use zone_plans::ZonePlan;

/// Prints a plan for a report on a zone as compact JSON with its keys in ascending order: `blocked`, `held`, `members`,
/// `report`, `resolved`, `unresolved` and `zone`. `report` is `errsysmods` or `missingfix`. All values are texts, lists
/// and objects, except these: `received` and `published` are true or false, `step` is a number, and `giver` is null if
/// nothing that applies gives a need.
///
/// # Errors
///
/// Memory ran out.
pub fn plan_json(
    alloc: Global,
    report: Report,
    zone: &Id,
    members: &[Member],
    plan: &ZonePlan,
) -> Result<Vec<u8>, NoMemory>
    ensures { IfOk result (λ text. text.items ≡ Spec.plan_json_of report zone.now members.now plan.now) }
{
    let value = plan_value(alloc, report, zone, members, plan)?;
    compact(alloc, &value)
}

fn plan_value(
    alloc: Global,
    report: Report,
    zone: &Id,
    members: &[Member],
    plan: &ZonePlan,
) -> Result<Value, NoMemory>
    ensures { IfOk result (λ value. view value ≡ Spec.plan_data report zone.now members.now plan.now) }
{
    json!(in alloc; {
        "blocked": values_of(alloc, plan.blocked())?,
        "held": values_of(alloc, plan.held())?,
        "members": values_of(alloc, members)?,
        "report": report.name(),
        "resolved": values_of(alloc, plan.resolved())?,
        "unresolved": values_of(alloc, plan.unresolved())?,
        "zone": zone.text()
    })
}
