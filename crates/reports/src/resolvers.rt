//! The resolvers of each hold of a report, and their verdicts.
ghost use Rattle.std.specs.Prelude.{◌≡◌, ◌++◌, [], true, ℕ, List, map, option_map, IfOk, OnOk};
ghost use Rattle.std.specs.List.{cons_option, flat_map};
ghost use Rattle.zone_lists.specs.declared.zones.ZoneRow.{ZoneRow};
ghost use Rattle.catalogue.specs.Content.{Content};
ghost use Rattle.catalogue.specs.Ids.{Ascend, in_order};
ghost use Rattle.catalogue.specs.View.{MayAsk, Tells};
ghost use Rattle.catalogue.specs.declared.fault.SourceFault.TheVariants.{Device};
ghost use Rattle.supersede.specs.Reach.{has};
ghost use Rattle.verdicts.specs.declared.verdict.Status.{Status};
ghost use Rattle.reports.specs.Found.{all_found, all_named, found_with, resolved_by, told};
ghost use Rattle.reports.specs.Holds.{resolver_by};
ghost use Rattle.reports.specs.Resolvers.{AreAmong, AreAnswers, status_in};

use crate::among::{is_among, put_all, status_among};
use crate::asking::{Answer, By, put_named, resolving};
use crate::holds::{HoldResolvers, Resolver};
use catalogue::{Published, SourceFault};
use faults::NoMemory;
use holddata::Hold;
use mcs_reader::Id;
use std::alloc::Global;
use std::collections::BTreeSet;
use std::marker::Model;
use supersede::Zone;
use verdicts::{Judge, Status};

// A hold with the SYSMODs that resolve it, before their verdicts are known.
#[derive(Drop)]
struct Found<'h> {
    hold: &'h Hold,
    ids: Vec<Id>,
}

impl<'h> Model for Found<'h> {
    ghost use Rattle.reports.specs.Found.{FoundLists};

    ghost Value = { FoundLists };

    ghost view = { λ found. record { hold = found.hold.now; ids = found.ids.items } };
}

impl<'h> Found<'h> {
    ghost use Rattle.std.specs.Prelude.{◌≡◌};

    fn hold(&self) -> &'h Hold
        ensures { result.now ≡ self.now.hold }
    {
        self.hold
    }

    fn ids(&self) -> &[Id]
        ensures { result.now ≡ self.now.ids }
    {
        self.ids.as_slice()
    }
}

/// Finds the holds that nothing resolves yet, each with its resolvers, in their order.
pub(crate) fn holds_by<'h, P: Published, J: Judge<P>>(
    alloc: Global,
    source: &mut P,
    judge: &mut J,
    zone: &Zone,
    received: &[Id],
    by: By,
    holds: &[&'h Hold],
) -> Result<Vec<HoldResolvers<'h>>, SourceFault>
    requires { Ascend received.now }
    ensures asks { MayAsk P.content_view Device source.old source.new result }
    ensures holds { IfOk result (λ helds. Tells P.content_view source.old source.new
        (λ content. J.is_right judge.old content
        → helds.items ≡ map (told (status_in content zone.now) received.now)
        (all_found (resolved_by by content zone.now) holds.now))) }
    ensures right { Tells P.content_view source.old source.new
        (λ content. J.is_right judge.old content → J.is_right judge.new content) }
{
    let asked = asked_in(alloc, by, holds)?;
    let answers = judge.candidates(alloc, source, zone, &asked)?;
    let found = found_answered(alloc, by, holds, &asked, &answers)?;
    let resolvers = resolvers_in(alloc, &found)?;
    let statuses = judge.statuses(alloc, source, zone, &resolvers)?;
    Ok(all_told(alloc, &found, &resolvers, &statuses, received)?)
}

// The SYSMODs that are asked for, ascending, each once.
fn asked_in(alloc: Global, by: By, holds: &[&Hold]) -> Result<Vec<Id>, NoMemory>
    ensures asked { IfOk result (λ ids. ids.items ≡ in_order (all_named by holds.now)) }
    ensures ascend { IfOk result (λ ids. Ascend ids.items) }
{
    let mut ids = BTreeSet::new(alloc);
    for hold in holds {
        put_named(by, hold, &mut ids)?;
    }
    ids.into_iter().collect(alloc)
}

// The SYSMODs that resolve each hold, by the answer for each SYSMOD that was asked for.
fn found_answered<'h>(
    alloc: Global,
    by: By,
    holds: &[&'h Hold],
    asked: &[Id],
    answers: &[Answer],
) -> Result<Vec<Found<'h>>, NoMemory>
    requires { Ascend asked.now }
    ensures { IfOk result (λ found. (content : Content) (rows : List ZoneRow)
        → AreAnswers content rows asked.now answers.now → asked.now ≡ in_order (all_named by holds.now)
        → found.items ≡ all_found (resolved_by by content rows) holds.now) }
{
    let mut found = Vec::new(alloc);
    for hold in holds {
        let ids = resolving(alloc, by, hold, asked, answers)?;
        put_found(&mut found, hold, ids)?;
    }
    Ok(found)
}

// Adds the findings on a hold, unless it is resolved already.
fn put_found<'h>(found: &mut Vec<Found<'h>>, hold: &'h Hold, ids: Answer) -> Result<(), NoMemory>
    ensures { OnOk result (found.new.items ≡ found.old.items
        ++ cons_option (option_map (found_with hold.now) (option_map (λ ids. ids.items) ids)) []) }
{
    if let Some(ids) = ids {
        found.push(Found { hold, ids })?;
    }
    Ok(())
}

// The resolvers that were found, ascending, each once.
fn resolvers_in(alloc: Global, found: &[Found]) -> Result<Vec<Id>, NoMemory>
    ensures resolvers { IfOk result (λ ids. ids.items ≡ in_order (flat_map (λ one. one.ids) found.now)) }
    ensures ascend { IfOk result (λ ids. Ascend ids.items) }
{
    let mut ids = BTreeSet::new(alloc);
    for one in found {
        put_all(&mut ids, one.ids())?;
    }
    ids.into_iter().collect(alloc)
}

// The holds with their resolvers, by the answer for each of these.
fn all_told<'h>(
    alloc: Global,
    found: &[Found<'h>],
    asked: &[Id],
    statuses: &[Status],
    received: &[Id],
) -> Result<Vec<HoldResolvers<'h>>, NoMemory>
    requires asked { Ascend asked.now }
    requires received { Ascend received.now }
    ensures { IfOk result (λ helds. (f : List ℕ → Status) → statuses.now ≡ map f asked.now
        → asked.now ≡ in_order (flat_map (λ one. one.ids) found.now)
        → helds.items ≡ map (told f received.now) found.now) }
{
    let mut helds = Vec::with_capacity(alloc, found.len())?;
    for one in found {
        let resolvers = resolvers_told(alloc, one.ids(), asked, statuses, received)?;
        helds.push(HoldResolvers::new(one.hold(), resolvers))?;
    }
    Ok(helds)
}

fn resolvers_told(
    alloc: Global,
    ids: &[Id],
    asked: &[Id],
    statuses: &[Status],
    received: &[Id],
) -> Result<Vec<Resolver>, NoMemory>
    requires asked { Ascend asked.now }
    requires received { Ascend received.now }
    ensures { IfOk result (λ list. (f : List ℕ → Status) → statuses.now ≡ map f asked.now
        → AreAmong ids.now asked.now → list.items ≡ map (resolver_by f received.now) ids.now) }
{
    let mut list = Vec::with_capacity(alloc, ids.len())?;
    for id in ids {
        list.push(resolver_told(id, asked, statuses, received))?;
    }
    Ok(list)
}

fn resolver_told(id: &Id, asked: &[Id], statuses: &[Status], received: &[Id]) -> Resolver
    requires asked { Ascend asked.now }
    requires received { Ascend received.now }
    ensures { (f : List ℕ → Status) → statuses.now ≡ map f asked.now → has asked.now id.now ≡ true
        → result ≡ resolver_by f received.now id.now }
{
    Resolver {
        id: *id,
        status: status_among(asked, statuses, id),
        received: is_among(received, id),
    }
}
