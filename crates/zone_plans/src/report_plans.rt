//! The plans for the two reports.
ghost use Rattle.std.specs.Prelude.{IfOk};
ghost use Rattle.catalogue.specs.Ids.{Ascend};
ghost use Rattle.catalogue.specs.View.{MayAsk, Tells};
ghost use Rattle.catalogue.specs.declared.fault.SourceFault.TheVariants.{Device};
ghost use Rattle.reports.specs.Holds.{err_holds_of, missing_holds_of};
ghost use Rattle.zone_plans.specs.Plans.{IsZonePlan};

use crate::plan::{ZonePlan, zone_plan};
use catalogue::{Published, SourceFault};
use holddata::Hold;
use mcs_reader::Id;
use reports::{err_holds, missing_holds};
use std::alloc::Global;
use supersede::Zone;
use verdicts::Judge;
use zone_lists::Pattern;

/// Makes the plan for the exception SYSMOD report on a zone, from the ERROR holds on the SYSMODs that are installed
/// in it. `received` are the SYSMODs that the client has received.
///
/// # Errors
///
/// `Memory` if memory ran out, `Device` if the source failed.
pub fn err_plan<P: Published, J: Judge<P>>(
    alloc: Global,
    source: &mut P,
    judge: &mut J,
    zone: &Zone,
    received: &[Id],
    holds: &[Hold],
) -> Result<ZonePlan, SourceFault>
    requires { Ascend received.now }
    ensures asks { MayAsk P.content_view Device source.old source.new result }
    ensures plan { IfOk result (λ plan. Tells P.content_view source.old source.new
        (λ content. J.is_right judge.old content
        → IsZonePlan content zone.now
        (err_holds_of content zone.now received.now holds.now) plan)) }
    ensures right { Tells P.content_view source.old source.new
        (λ content. J.is_right judge.old content → J.is_right judge.new content) }
{
    let held = err_holds(alloc, source, judge, zone, received, holds)?;
    zone_plan(alloc, source, judge, zone, &held)
}

/// Makes the plan for the missing fix report on a zone, from the FIXCAT holds on the SYSMODs that are installed in
/// it, for the categories that a pattern matches.
///
/// # Errors
///
/// Those of [`err_plan`].
pub fn missing_plan<P: Published, J: Judge<P>>(
    alloc: Global,
    source: &mut P,
    judge: &mut J,
    zone: &Zone,
    received: &[Id],
    patterns: &[Pattern],
    holds: &[Hold],
) -> Result<ZonePlan, SourceFault>
    requires { Ascend received.now }
    ensures asks { MayAsk P.content_view Device source.old source.new result }
    ensures plan { IfOk result (λ plan. Tells P.content_view source.old source.new
        (λ content. J.is_right judge.old content
        → IsZonePlan content zone.now
        (missing_holds_of content zone.now received.now patterns.now holds.now) plan)) }
    ensures right { Tells P.content_view source.old source.new
        (λ content. J.is_right judge.old content → J.is_right judge.new content) }
{
    let held = missing_holds(alloc, source, judge, zone, received, patterns, holds)?;
    zone_plan(alloc, source, judge, zone, &held)
}
