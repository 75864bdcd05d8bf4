//! Choosing one of the SYSMODs that resolve a hold.
ghost use Rattle.std.specs.Prelude.{◌≡◌, IfOk, filter, length, map};
ghost use Rattle.catalogue.specs.Content.{Content};
ghost use Rattle.catalogue.specs.Ids.{Ascend};
ghost use Rattle.zone_plans.specs.Choices.{choice, greatest_of, last_of, of_status, same_status};
ghost use Rattle.zone_plans.specs.Climbs.{AreKnown, IsClimb};
ghost use Rattle.zone_plans.specs.Graphs.{AreResolversOf};

use crate::climbing::Climb;
use crate::others::{Others, others_by};
use crate::tops::{ordered, tops};
use faults::NoMemory;
use mcs_reader::Id;
use reports::{HoldResolvers, Resolver};
use std::alloc::Global;
use verdicts::{Status, index_of};

/// What is known of the resolvers of a kind of all holds: which of them another one gives, among all and among the
/// received ones.
#[derive(Debug, Drop)]
pub(crate) struct Known {
    pub(crate) all: Others,
    pub(crate) received: Others,
}

/// Finds for the resolvers of a kind which of them another one gives. A hold has all candidates that give its reason as
/// its resolvers, so if one of a kind gives another, both resolve each hold that the other does.
pub(crate) fn known_of(
    alloc: Global,
    climb: &Climb,
    status: Status,
    holds: &[HoldResolvers],
) -> Result<Known, NoMemory>
    requires { Ascend climb.now.ids.items }
    ensures { IfOk result (λ known. AreKnown climb.now.ids.items climb.now.below known) }
{
    let mut all = vec![in alloc; false; climb.ids.len()]?;
    let mut received = vec![in alloc; false; climb.ids.len()]?;
    for hold in holds {
        mark_resolvers(
            &mut all,
            &mut received,
            &climb.ids,
            status,
            hold.resolvers(),
        );
    }
    Ok(Known {
        all: others_by(alloc, &climb.below, all)?,
        received: others_by(alloc, &climb.below, received)?,
    })
}

// Marks the resolvers of a kind, and those of them that are received.
fn mark_resolvers(
    all: &mut [bool],
    received: &mut [bool],
    ids: &[Id],
    status: Status,
    resolvers: &[Resolver],
)
    requires ascend { Ascend ids.now }
    requires all { length all.old ≡ length ids.now }
    requires received { length received.old ≡ length ids.now }
    ensures all { length all.new ≡ length all.old }
    ensures received { length received.new ≡ length received.old }
{
    for resolver in resolvers {
        if is_same(resolver.status, status) {
            if let Some(index) = index_of(ids, &resolver.id) {
                all[index] = true;
                received[index] = received[index] || resolver.received;
            }
        }
    }
}

/// The resolver of a kind that is chosen for a hold.
pub(crate) fn choice(
    alloc: Global,
    climb: &Climb,
    known: &Known,
    status: Status,
    hold: &HoldResolvers,
) -> Result<Option<Id>, NoMemory>
    requires ascend { Ascend climb.now.ids.items }
    requires known { AreKnown climb.now.ids.items climb.now.below known.now }
    ensures { IfOk result (λ chosen. (content : Content)
        → IsClimb content climb.now.ids.items climb.now.below
        → AreResolversOf climb.now.ids.items hold.now
        → chosen ≡ choice content status hold.now) }
{
    let kept = with_status(alloc, status, hold.resolvers())?;
    let received = those_received(alloc, &kept)?;
    let top = if received.as_slice().is_empty() {
        tops(alloc, climb, &known.all, ids_of(alloc, &kept)?)?
    } else {
        tops(alloc, climb, &known.received, ids_of(alloc, &received)?)?
    };
    greatest(alloc, &top)
}

fn with_status(
    alloc: Global,
    status: Status,
    resolvers: &[Resolver],
) -> Result<Vec<Resolver>, NoMemory>
    ensures { IfOk result (λ kept. kept.items ≡ of_status status resolvers.now) }
{
    let mut kept = Vec::new(alloc);
    for resolver in resolvers {
        if is_same(resolver.status, status) {
            kept.push(*resolver)?;
        }
    }
    Ok(kept)
}

fn is_same(first: Status, second: Status) -> bool
    ensures { result ≡ same_status first second }
{
    match first {
        Status::Good => matches!(second, Status::Good),
        Status::Held => matches!(second, Status::Held),
        Status::Lack => matches!(second, Status::Lack),
    }
}

fn those_received(alloc: Global, resolvers: &[Resolver]) -> Result<Vec<Resolver>, NoMemory>
    ensures { IfOk result (λ kept. kept.items ≡ filter (λ resolver. resolver.received) resolvers.now) }
{
    let mut kept = Vec::new(alloc);
    for resolver in resolvers {
        if resolver.received {
            kept.push(*resolver)?;
        }
    }
    Ok(kept)
}

fn ids_of(alloc: Global, resolvers: &[Resolver]) -> Result<Vec<Id>, NoMemory>
    ensures { IfOk result (λ ids. ids.items ≡ map (λ resolver. resolver.id) resolvers.now) }
{
    let mut ids = Vec::with_capacity(alloc, resolvers.len())?;
    for resolver in resolvers {
        ids.push(resolver.id)?;
    }
    Ok(ids)
}

// The greatest of some ids, in whatever order they are.
fn greatest(alloc: Global, ids: &[Id]) -> Result<Option<Id>, NoMemory>
    ensures { IfOk result (λ greatest. greatest ≡ greatest_of ids.now) }
{
    let all = ordered(alloc, ids)?;
    Ok(last(&all))
}

fn last(ids: &[Id]) -> Option<Id>
    ensures { result ≡ last_of ids.now }
{
    ids.last().copied()
}
