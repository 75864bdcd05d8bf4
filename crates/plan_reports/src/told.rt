//! A plan in print or as JSON, with the causes and holds of its members.
ghost use Rattle.std.specs.Prelude.{◌≡◌, List, IfOk};
ghost use Rattle.zone_lists.specs.declared.zones.ZoneRow.{ZoneRow};
ghost use Rattle.catalogue.specs.Content.{Content};
ghost use Rattle.catalogue.specs.Ids.{Ascend};
ghost use Rattle.reports.specs.Holds.{HoldLists};
ghost use Rattle.zone_plans.specs.Plans.{IsZonePlan};
ghost use Rattle.plan_reports.specs.Replies as Spec;

use crate::json::plan_json;
use crate::member::Member;
use crate::members::plan_members;
use crate::text::plan_text;
use faults::NoMemory;
use mcs_reader::Id;
use questions::{Form, Report};
use std::alloc::Global;
use zone_plans::ZonePlan;

/// A plan in a form.
pub(crate) fn told_as(
    alloc: Global,
    form: Form,
    received: &[Id],
    report: Report,
    name: &Id,
    plan: &ZonePlan,
) -> Result<Vec<u8>, NoMemory>
    requires { Ascend received.now }
    ensures { IfOk result (λ text. (content : Content) (rows : List ZoneRow) (holds : List HoldLists)
        → IsZonePlan content rows holds plan.now
        → text.items ≡ Spec.told_as form content rows received.now report name.now plan.now) }
{
    let members = plan_members(alloc, received, plan)?;
    written_as(alloc, form, report, name, &members, plan)
}

// The text of a plan and its members in a form.
fn written_as(
    alloc: Global,
    form: Form,
    report: Report,
    name: &Id,
    members: &[Member],
    plan: &ZonePlan,
) -> Result<Vec<u8>, NoMemory>
    ensures { IfOk result
        (λ text. text.items ≡ Spec.written_as form report name.now members.now plan.now) }
{
    match form {
        Form::Text => plan_text(alloc, report, name, members, plan),
        Form::Json => plan_json(alloc, report, name, members, plan),
    }
}
