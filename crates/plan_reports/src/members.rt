//! The members of a plan, with the causes and holds of each.
ghost use Rattle.std.specs.Prelude.{◌≡◌, List, IfOk};
ghost use Rattle.zone_lists.specs.declared.zones.ZoneRow.{ZoneRow};
ghost use Rattle.catalogue.specs.Content.{Content};
ghost use Rattle.catalogue.specs.Ids.{Ascend};
ghost use Rattle.reports.specs.Holds.{HoldLists};
ghost use Rattle.zone_plans.specs.Plans.{IsZonePlan};
ghost use Rattle.plan_reports.specs.Members.{plan_members_of};

use crate::finding::find;
use crate::listing::members_in;
use crate::member::Member;
use crate::telling::told_members;
use faults::NoMemory;
use mcs_reader::Id;
use std::alloc::Global;
use zone_plans::ZonePlan;

/// Lists the members of a plan for a zone by step, in each step ascending. Each has its functions, and whether it
/// was received. It has the holds for which it came, the other members that need it, and the SYSTEM and USER holds
/// to heed (IBM z/OS SMP/E Reference, `++VER`, operands FMID, PRE, REQ and SUP, and `++HOLD`). `received` are the
/// SYSMODs that the client has received.
///
/// All of it comes from the findings of the plan, and no source is asked.
///
/// # Errors
///
/// `NoMemory` if memory ran out.
pub fn plan_members(
    alloc: Global,
    received: &[Id],
    plan: &ZonePlan,
) -> Result<Vec<Member>, NoMemory>
    requires { Ascend received.now }
    ensures { IfOk result (λ members. (content : Content) (rows : List ZoneRow) (holds : List HoldLists)
        → IsZonePlan content rows holds plan.now
        → members.items ≡ plan_members_of content rows received.now plan.now) }
{
    let ids = members_in(alloc, plan.steps())?;
    let found = find(alloc, ids, plan)?;
    told_members(alloc, received, plan, &found)
}
