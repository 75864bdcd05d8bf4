//! The whole text of a plan.
ghost use Rattle.std.specs.Prelude.{◌≡◌, IfOk};
ghost use Rattle.plan_reports.specs.Tables.{plan_text_of};

use crate::hold_tables::{blocked_table, held_table, unresolved_table};
use crate::member::Member;
use crate::member_tables::{cause_table, heed_table, plan_table};
use faults::NoMemory;
use mcs_reader::Id;
use questions::Report;
use std::alloc::Global;
use zone_plans::ZonePlan;

/// Prints a plan for a report on a zone: six tables, one after the other, each with its title, a heading, its rows
/// and their count. Each line ends with LF.
///
/// The first three tables are the members by step, why each is there, and the SYSTEM and USER holds to heed. The
/// others are the holds without a resolver that is GOOD or HELD, those without a GOOD one, and the needs that block
/// the resolvers that are HELD.
///
/// # Errors
///
/// Memory ran out.
pub fn plan_text(
    alloc: Global,
    report: Report,
    zone: &Id,
    members: &[Member],
    plan: &ZonePlan,
) -> Result<Vec<u8>, NoMemory>
    ensures { IfOk result (λ text. text.items ≡ plan_text_of report zone.now members.now plan.now) }
{
    let mut text = plan_table(alloc, report, zone, members)?;
    text.extend_from_slice(&cause_table(alloc, members)?)?;
    text.extend_from_slice(&heed_table(alloc, members)?)?;
    text.extend_from_slice(&unresolved_table(alloc, plan.unresolved())?)?;
    text.extend_from_slice(&held_table(alloc, plan.held())?)?;
    text.extend_from_slice(&blocked_table(alloc, plan.blocked())?)?;
    Ok(text)
}
