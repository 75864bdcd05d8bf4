//! The plan for a report, from the published content, the zone and the lists.
ghost use Rattle.std.specs.Prelude.{◌≡◌, IfOk};
ghost use Rattle.catalogue.specs.Ids.{Ascend};
ghost use Rattle.catalogue.specs.View.{MayAsk, Tells};
ghost use Rattle.catalogue.specs.declared.fault.SourceFault.TheVariants.{Device};
ghost use Rattle.zone_plans.specs.Plans.{IsZonePlan};
ghost use Rattle.plan_reports.specs.Replies.{holds_of, plan_answer_of};

use crate::told::told_as;
use catalogue::{Published, SourceFault};
use holddata::Hold;
use mcs_reader::Id;
use questions::{Form, Report};
use std::alloc::Global;
use supersede::Zone;
use verdicts::Judge;
use zone_lists::Pattern;
use zone_plans::{ZonePlan, err_plan, missing_plan};

/// Makes the plan for a report on a zone, in a form.
///
/// It is made from the holds of the report's kind on the SYSMODs that are installed in the zone: ERROR holds for the
/// exception SYSMOD report; for the missing fix report FIXCAT holds, of the categories that a pattern matches.
/// `received` are the SYSMODs that the client has received, and `name` is the zone's.
///
/// # Errors
///
/// `Memory` if memory ran out, `Device` if the source failed.
pub fn plan_answer<P: Published, J: Judge<P>>(
    alloc: Global,
    source: &mut P,
    judge: &mut J,
    report: Report,
    form: Form,
    name: &Id,
    zone: &Zone,
    received: &[Id],
    patterns: &[Pattern],
    holds: &[Hold],
) -> Result<Vec<u8>, SourceFault>
    requires { Ascend received.now }
    ensures asks { MayAsk P.content_view Device source.old source.new result }
    ensures text { IfOk result (λ text. Tells P.content_view source.old source.new
        (λ content. J.is_right judge.old content → text.items
        ≡ plan_answer_of report form content zone.now received.now patterns.now holds.now name.now)) }
    ensures right { Tells P.content_view source.old source.new
        (λ content. J.is_right judge.old content → J.is_right judge.new content) }
{
    let plan = plan_for(
        alloc, source, judge, report, zone, received, patterns, holds,
    )?;
    Ok(told_as(alloc, form, received, report, name, &plan)?)
}

// The plan for a report. The exception SYSMOD report has no patterns.
fn plan_for<P: Published, J: Judge<P>>(
    alloc: Global,
    source: &mut P,
    judge: &mut J,
    report: Report,
    zone: &Zone,
    received: &[Id],
    patterns: &[Pattern],
    holds: &[Hold],
) -> Result<ZonePlan, SourceFault>
    requires { Ascend received.now }
    ensures asks { MayAsk P.content_view Device source.old source.new result }
    ensures plan { IfOk result (λ plan. Tells P.content_view source.old source.new
        (λ content. J.is_right judge.old content → IsZonePlan content zone.now
        (holds_of report content zone.now received.now patterns.now holds.now) plan)) }
    ensures right { Tells P.content_view source.old source.new
        (λ content. J.is_right judge.old content → J.is_right judge.new content) }
{
    match report {
        Report::ErrSysmods => err_plan(alloc, source, judge, zone, received, holds),
        Report::MissingFix => {
            missing_plan(alloc, source, judge, zone, received, patterns, holds)
        }
    }
}
