//! The plan for a zone.
ghost use Rattle.std.specs.Prelude.{◌≡◌, IfOk};
ghost use Rattle.catalogue.specs.View.{MayAsk, Tells};
ghost use Rattle.catalogue.specs.declared.fault.SourceFault.TheVariants.{Device};
ghost use Rattle.zone_plans.specs.Plans.{AreGood, AreTold, IsPlanFor, IsZonePlan};

use crate::findings::{Findings, find};
use crate::holds::{ChosenResolver, HoldOn};
use crate::placing::{Placed, PlacedHolds, chosen_in, place_all, placed_holds, resolvers_of};
use crate::steps::{Steps, zone_steps};
use blocked_needs::{BlockedNeed, blocked_needs};
use catalogue::{Published, SourceFault};
use reports::HoldResolvers;
use std::alloc::Global;
use std::marker::Model;
use supersede::Zone;
use verdicts::Judge;

/// One plan for the holds of a report on a zone.
#[derive(Debug, Drop)]
pub struct ZonePlan {
    steps: Steps,
    findings: Findings,
    holds: PlacedHolds,
    blocked: Vec<BlockedNeed>,
}

impl Model for ZonePlan {
    ghost use Rattle.zone_plans.specs.Plans.{PlanLists};

    ghost Value = { PlanLists };

    ghost view = { λ plan. record {
      steps = plan.steps;
      findings = plan.findings;
      resolved = plan.holds.resolved.items;
      unresolved = plan.holds.unresolved.items;
      held = plan.holds.held.items;
      blocked = plan.blocked.items;
    } };
}

impl ZonePlan {
    /// The SYSMODs to install, step by step.
    pub fn steps(&self) -> &Steps
        ensures { result.now ≡ self.now.steps }
    {
        &self.steps
    }

    /// The findings on the SYSMODs that the chosen plans have together: on each member and each chosen resolver.
    pub fn findings(&self) -> &Findings
        ensures { result.now ≡ self.now.findings }
    {
        &self.findings
    }

    /// The holds with a GOOD resolver, each with the chosen one.
    pub fn resolved(&self) -> &[ChosenResolver]
        ensures { result.now ≡ self.now.resolved }
    {
        self.holds.resolved.as_slice()
    }

    /// The holds without a resolver that is GOOD or HELD.
    pub fn unresolved(&self) -> &[HoldOn]
        ensures { result.now ≡ self.now.unresolved }
    {
        self.holds.unresolved.as_slice()
    }

    /// The holds without a GOOD resolver that have one that is HELD, each with the chosen one.
    pub fn held(&self) -> &[ChosenResolver]
        ensures { result.now ≡ self.now.held }
    {
        self.holds.held.as_slice()
    }

    /// The needs that block the resolvers that are HELD, and the SYSMODs that would give them, ascending by SYSMOD,
    /// each once.
    pub fn blocked(&self) -> &[BlockedNeed]
        ensures { result.now ≡ self.now.blocked }
    {
        self.blocked.as_slice()
    }
}

/// Makes the plan for the holds of a report on a zone (IBM z/OS SMP/E Commands, REPORT ERRSYSMODS and REPORT
/// MISSINGFIX).
///
/// It chooses one resolver for each hold: of those that are GOOD the received ones come before the others, then one
/// that no other of them gives, then the greatest id. The members of their chosen plans are to be installed, except
/// those that another member gives and those that nothing needs then. Holds without such a resolver are named, with
/// the needs that block them.
///
/// # Errors
///
/// `Memory` if memory ran out, `Device` if the source failed.
pub fn zone_plan<P: Published, J: Judge<P>>(
    alloc: Global,
    source: &mut P,
    judge: &mut J,
    zone: &Zone,
    holds: &[HoldResolvers],
) -> Result<ZonePlan, SourceFault>
    ensures asks { MayAsk P.content_view Device source.old source.new result }
    ensures plan { IfOk result (λ plan. Tells P.content_view source.old source.new
        (λ content. J.is_right judge.old content → AreTold content zone.now holds.now
        → IsZonePlan content zone.now holds.now plan)) }
    ensures right { Tells P.content_view source.old source.new
        (λ content. J.is_right judge.old content → J.is_right judge.new content) }
{
    let placed = place_all(alloc, source, holds)?;
    plan_for(alloc, source, judge, zone, &placed)
}

// The plan, by the fate of each hold.
fn plan_for<P: Published, J: Judge<P>>(
    alloc: Global,
    source: &mut P,
    judge: &mut J,
    zone: &Zone,
    placed: &[Placed],
) -> Result<ZonePlan, SourceFault>
    ensures asks { MayAsk P.content_view Device source.old source.new result }
    ensures plan { IfOk result (λ plan. Tells P.content_view source.old source.new
        (λ content. J.is_right judge.old content → AreGood content zone.now placed.now
        → IsPlanFor content zone.now placed.now plan)) }
    ensures right { Tells P.content_view source.old source.new
        (λ content. J.is_right judge.old content → J.is_right judge.new content) }
{
    let holds = placed_holds(alloc, placed)?;
    let chosen = chosen_in(alloc, placed)?;
    let waiting = resolvers_of(alloc, &holds.held)?;
    let findings = find(alloc, source, judge, zone, &chosen)?;
    let steps = zone_steps(alloc, &findings, &chosen)?;
    let blocked = blocked_needs(alloc, source, judge, zone, &waiting)?;
    Ok(ZonePlan {
        steps,
        findings,
        holds,
        blocked,
    })
}
