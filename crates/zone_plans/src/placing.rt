//! The fate of each hold.
ghost use Rattle.std.specs.Prelude.{◌≡◌, ◌++◌, ◌∷◌, [], Contains, IfOk, OnOk, map};
ghost use Rattle.std.specs.List.{cons_option};
ghost use Rattle.catalogue.specs.Content.{Content};
ghost use Rattle.catalogue.specs.Ids.{Ascend, put_among};
ghost use Rattle.catalogue.specs.View.{MayAsk, Tells};
ghost use Rattle.catalogue.specs.declared.fault.SourceFault.TheVariants.{Device};
ghost use Rattle.reports.specs.Holds.{HoldLists};
ghost use Rattle.zone_plans.specs.Climbs.{AreKnown, IsClimb};
ghost use Rattle.zone_plans.specs.Graphs.{AreResolversOf};
ghost use Rattle.zone_plans.specs.Plans as Plans;

use crate::choice::{Known, choice, known_of};
use crate::climbing::{Climb, climb_from};
use crate::holds::{ChosenResolver, HoldOn};
use catalogue::{Published, SourceFault};
use faults::NoMemory;
use holddata::Hold;
use mcs_reader::Id;
use reports::{HoldResolvers, Resolver};
use std::alloc::Global;
use std::collections::BTreeSet;
use verdicts::{Status, listed};

/// The fate of a hold.
#[derive(Clone, Copy)]
pub(crate) enum Fate {
    /// This resolver is chosen.
    Resolved(Id),
    /// None is GOOD; this one is HELD.
    Held(Id),
    /// None is GOOD or HELD.
    Unresolved,
}

/// A hold with its fate.
#[derive(Clone, Copy)]
pub(crate) struct Placed {
    pub(crate) hold: HoldOn,
    pub(crate) fate: Fate,
}

/// Finds the fate of each hold, in their order. It asks the source once for what supersedes each resolver.
pub(crate) fn place_all<P: Published>(
    alloc: Global,
    source: &mut P,
    holds: &[HoldResolvers],
) -> Result<Vec<Placed>, SourceFault>
    ensures asks { MayAsk P.content_view Device source.old source.new result }
    ensures placed { IfOk result (λ found. Tells P.content_view source.old source.new
        (λ content. found.items ≡ map (Plans.placed content) holds.now)) }
{
    let ids = resolvers_named(alloc, holds)?;
    let climb = climb_from(alloc, source, &ids)?;
    Ok(placed_by(alloc, &climb, holds)?)
}

// The SYSMODs that resolve some holds, ascending, each once.
fn resolvers_named(alloc: Global, holds: &[HoldResolvers]) -> Result<Vec<Id>, NoMemory>
    ensures ids { IfOk result (λ ids. ids.items ≡ Plans.resolvers_named holds.now) }
    ensures ascend { IfOk result (λ ids. Ascend ids.items) }
{
    let mut ids = BTreeSet::new(alloc);
    for hold in holds {
        put_resolvers(&mut ids, hold.resolvers())?;
    }
    listed(alloc, ids)
}

fn put_resolvers(ids: &mut BTreeSet<Id>, resolvers: &[Resolver]) -> Result<(), NoMemory>
    ensures { OnOk result
        (ids.new.keys ≡ put_among ids.old.keys (map (λ resolver. resolver.id) resolvers.now)) }
{
    for resolver in resolvers {
        ids.insert(resolver.id)?;
    }
    Ok(())
}

// The fate of each hold, by what supersedes the resolvers.
fn placed_by(alloc: Global, climb: &Climb, holds: &[HoldResolvers]) -> Result<Vec<Placed>, NoMemory>
    requires { Ascend climb.now.ids.items }
    ensures { IfOk result (λ found. (content : Content)
        → IsClimb content climb.now.ids.items climb.now.below
        → ((hold : HoldLists) → Contains holds.now hold → AreResolversOf climb.now.ids.items hold)
        → found.items ≡ map (Plans.placed content) holds.now) }
{
    let good = known_of(alloc, climb, Status::Good, holds)?;
    let held = known_of(alloc, climb, Status::Held, holds)?;
    let mut found = Vec::with_capacity(alloc, holds.len())?;
    for hold in holds {
        put_placed(alloc, climb, &good, &held, hold, &mut found)?;
    }
    Ok(found)
}

fn put_placed(
    alloc: Global,
    climb: &Climb,
    good: &Known,
    held: &Known,
    hold: &HoldResolvers,
    found: &mut Vec<Placed>,
) -> Result<(), NoMemory>
    requires ascend { Ascend climb.now.ids.items }
    requires good { AreKnown climb.now.ids.items climb.now.below good.now }
    requires held { AreKnown climb.now.ids.items climb.now.below held.now }
    ensures { OnOk result ((content : Content)
        → IsClimb content climb.now.ids.items climb.now.below
        → AreResolversOf climb.now.ids.items hold.now
        → found.new.items ≡ found.old.items ++ Plans.placed content hold.now ∷ []) }
{
    let good = choice(alloc, climb, good, Status::Good, hold)?;
    let held = choice(alloc, climb, held, Status::Held, hold)?;
    found.push(Placed {
        hold: hold_on(hold.hold()),
        fate: fate_by(good, held),
    })?;
    Ok(())
}

fn hold_on(hold: &Hold) -> HoldOn
    ensures { result ≡ Plans.hold_on hold.now }
{
    HoldOn {
        sysmod: hold.key.sysmod,
        reason: hold.key.reason,
    }
}

fn fate_by(good: Option<Id>, held: Option<Id>) -> Fate
    ensures { result ≡ Plans.fate_by good held }
{
    match (good, held) {
        (Some(id), _) => Fate::Resolved(id),
        (None, Some(id)) => Fate::Held(id),
        (None, None) => Fate::Unresolved,
    }
}

/// The resolvers that are chosen, ascending, each once.
pub(crate) fn chosen_in(alloc: Global, holds: &[Placed]) -> Result<Vec<Id>, NoMemory>
    ensures chosen { IfOk result (λ ids. ids.items ≡ Plans.chosen_in holds.now) }
    ensures ascend { IfOk result (λ ids. Ascend ids.items) }
{
    let mut ids = BTreeSet::new(alloc);
    for one in holds {
        put_chosen(&mut ids, one.fate)?;
    }
    listed(alloc, ids)
}

fn put_chosen(ids: &mut BTreeSet<Id>, fate: Fate) -> Result<(), NoMemory>
    ensures { OnOk result (ids.new.keys ≡ put_among ids.old.keys (cons_option (Plans.resolver_by fate) [])) }
{
    if let Fate::Resolved(id) = fate {
        ids.insert(id)?;
    }
    Ok(())
}

/// The holds of a report by their fates.
#[derive(Debug, Drop)]
pub(crate) struct PlacedHolds {
    pub(crate) resolved: Vec<ChosenResolver>,
    pub(crate) unresolved: Vec<HoldOn>,
    pub(crate) held: Vec<ChosenResolver>,
}

/// The holds by their fates, each list in their order.
pub(crate) fn placed_holds(alloc: Global, holds: &[Placed]) -> Result<PlacedHolds, NoMemory>
    ensures resolved { IfOk result (λ lists. lists.resolved.items ≡ Plans.resolved_in holds.now) }
    ensures unresolved { IfOk result (λ lists. lists.unresolved.items ≡ Plans.unresolved_in holds.now) }
    ensures held { IfOk result (λ lists. lists.held.items ≡ Plans.held_in holds.now) }
{
    Ok(PlacedHolds {
        resolved: resolved_in(alloc, holds)?,
        unresolved: unresolved_in(alloc, holds)?,
        held: held_in(alloc, holds)?,
    })
}

// The holds with a GOOD resolver, each with the chosen one.
fn resolved_in(alloc: Global, holds: &[Placed]) -> Result<Vec<ChosenResolver>, NoMemory>
    ensures { IfOk result (λ found. found.items ≡ Plans.resolved_in holds.now) }
{
    holds.iter().filter_map(if_resolved).collect(alloc)
}

fn if_resolved(one: &Placed) -> Option<ChosenResolver>
    ensures { result ≡ Plans.if_resolved one.now.hold one.now.fate }
{
    match one.fate {
        Fate::Resolved(resolver) => Some(with_resolver(one, resolver)),
        Fate::Held(_) => None,
        Fate::Unresolved => None,
    }
}

// The holds without a GOOD resolver that have one that is HELD, each with the chosen one.
fn held_in(alloc: Global, holds: &[Placed]) -> Result<Vec<ChosenResolver>, NoMemory>
    ensures { IfOk result (λ found. found.items ≡ Plans.held_in holds.now) }
{
    holds.iter().filter_map(if_held).collect(alloc)
}

fn if_held(one: &Placed) -> Option<ChosenResolver>
    ensures { result ≡ Plans.if_held one.now.hold one.now.fate }
{
    match one.fate {
        Fate::Resolved(_) => None,
        Fate::Held(resolver) => Some(with_resolver(one, resolver)),
        Fate::Unresolved => None,
    }
}

fn with_resolver(one: &Placed, resolver: Id) -> ChosenResolver
    ensures { result ≡ record { hold = one.now.hold; resolver = resolver } }
{
    ChosenResolver {
        hold: one.hold,
        resolver,
    }
}

// The holds without a resolver that is GOOD or HELD.
fn unresolved_in(alloc: Global, holds: &[Placed]) -> Result<Vec<HoldOn>, NoMemory>
    ensures { IfOk result (λ found. found.items ≡ Plans.unresolved_in holds.now) }
{
    holds.iter().filter_map(if_unresolved).collect(alloc)
}

fn if_unresolved(one: &Placed) -> Option<HoldOn>
    ensures { result ≡ Plans.if_unresolved one.now.hold one.now.fate }
{
    match one.fate {
        Fate::Resolved(_) => None,
        Fate::Held(_) => None,
        Fate::Unresolved => Some(one.hold),
    }
}

/// The resolvers of some holds, in their order.
pub(crate) fn resolvers_of(alloc: Global, holds: &[ChosenResolver]) -> Result<Vec<Id>, NoMemory>
    ensures { IfOk result (λ ids. ids.items ≡ map (λ one. one.resolver) holds.now) }
{
    holds.iter().map(|one| one.resolver).collect(alloc)
}
