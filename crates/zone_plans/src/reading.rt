//! Reading the members.
ghost use Rattle.std.specs.Prelude.{◌≡◌, ◌++◌, Some, IfOk, OnOk, map};
ghost use Rattle.catalogue.specs.Ids.{Ascend};
ghost use Rattle.catalogue.specs.View.{MayAsk, Tells};
ghost use Rattle.catalogue.specs.declared.fault.SourceFault.TheVariants.{Device};
ghost use Rattle.supersede.specs.Giving.{needs_where, requisites_of};
ghost use Rattle.reports.specs.ChainText.{reasons_in};
ghost use Rattle.zone_plans.specs.Readings.{all_needs, reading_from, reading_of};

use catalogue::{CondNeed, Published, SourceFault, Sysmod};
use faults::NoMemory;
use holddata::{Hold, Kind};
use mcs_reader::Id;
use reports::put_all;
use std::alloc::Global;
use std::collections::BTreeSet;
use std::marker::Model;
use supersede::Zone;
use verdicts::listed;

/// The parts of a SYSMOD that a plan needs: its functions, its needs in a zone, and the reasons of the SYSTEM and USER
/// holds on it (IBM z/OS SMP/E Reference, `++VER`, operands FMID, PRE and REQ, `++IF`, and `++HOLD`).
#[derive(Debug, Drop)]
pub struct Reading {
    fmids: Vec<Id>,
    needs: Vec<Id>,
    system: Vec<Id>,
    user: Vec<Id>,
}

impl Model for Reading {
    ghost use Rattle.zone_plans.specs.Readings.{ReadingLists};

    ghost Value = { ReadingLists };

    ghost view = { λ reading. record {
      fmids = reading.fmids.items;
      needs = reading.needs.items;
      system = reading.system.items;
      user = reading.user.items;
    } };
}

impl Reading {
    ghost use Rattle.std.specs.Prelude.{◌≡◌};
    ghost use Rattle.zone_plans.specs.Readings.{nothing_read};

    /// Nothing was read.
    pub fn nothing(alloc: Global) -> Self
        ensures { result ≡ nothing_read }
    {
        Reading {
            fmids: Vec::new(alloc),
            needs: Vec::new(alloc),
            system: Vec::new(alloc),
            user: Vec::new(alloc),
        }
    }

    /// Its functions.
    pub fn fmids(&self) -> &[Id]
        ensures { result.now ≡ self.now.fmids }
    {
        self.fmids.as_slice()
    }

    /// Its needs in the zone: its PRE and REQ, the reasons of the ERROR holds on it, and the needs of those of its
    /// requisites under a condition whose function is installed.
    pub fn needs(&self) -> &[Id]
        ensures { result.now ≡ self.now.needs }
    {
        self.needs.as_slice()
    }

    /// The reasons of the SYSTEM holds on it, which its installer should heed.
    pub fn system(&self) -> &[Id]
        ensures { result.now ≡ self.now.system }
    {
        self.system.as_slice()
    }

    /// The reasons of the USER holds on it.
    pub fn user(&self) -> &[Id]
        ensures { result.now ≡ self.now.user }
    {
        self.user.as_slice()
    }
}

/// Reads some SYSMODs, in their order.
pub(crate) fn readings<P: Published>(
    alloc: Global,
    source: &mut P,
    zone: &Zone,
    ids: &[Id],
) -> Result<Vec<Reading>, SourceFault>
    ensures asks { MayAsk P.content_view Device source.old source.new result }
    ensures readings { IfOk result (λ readings. Tells P.content_view source.old source.new
        (λ content. readings.items ≡ map (reading_of content zone.now) ids.now)) }
{
    let mut readings = Vec::with_capacity(alloc, ids.len())?;
    for id in ids {
        readings.push(read_member(alloc, source, zone, id)?)?;
    }
    Ok(readings)
}

fn read_member<P: Published>(
    alloc: Global,
    source: &mut P,
    zone: &Zone,
    id: &Id,
) -> Result<Reading, SourceFault>
    ensures asks { MayAsk P.content_view Device source.old source.new result }
    ensures reading { IfOk result (λ reading. Tells P.content_view source.old source.new
        (λ content. reading ≡ reading_of content zone.now id.now)) }
{
    let sysmod = source.sysmod(id)?;
    let holds = source.holds_on(id)?;
    Ok(reading_from(alloc, zone, sysmod, &holds)?)
}

fn reading_from(
    alloc: Global,
    zone: &Zone,
    sysmod: Option<Sysmod>,
    holds: &[Hold],
) -> Result<Reading, NoMemory>
    ensures { IfOk result (λ reading. reading ≡ reading_from zone.now sysmod holds.now) }
{
    let system = reasons(alloc, Kind::SystemHold, holds)?;
    let user = reasons(alloc, Kind::UserHold, holds)?;
    let held = reasons(alloc, Kind::ErrorHold, holds)?;
    let Some(sysmod) = sysmod else {
        return Ok(Reading {
            fmids: Vec::new(alloc),
            needs: held,
            system,
            user,
        });
    };
    let needs = needs_in(alloc, zone, &sysmod, &held)?;
    let fmids = Vec::from_slice(alloc, sysmod.fmids.as_slice())?;
    Ok(Reading {
        fmids,
        needs,
        system,
        user,
    })
}

// The needs of a SYSMOD in the zone.
fn needs_in(alloc: Global, zone: &Zone, sysmod: &Sysmod, held: &[Id]) -> Result<Vec<Id>, NoMemory>
    ensures { IfOk result (λ needs. needs.items
        ≡ requisites_of (Some sysmod.now) ++ held.now ++ needs_where zone.now sysmod.now.conds) }
{
    let mut needs = Vec::from_slice(alloc, sysmod.pre.as_slice())?;
    needs.extend_from_slice(sysmod.req.as_slice())?;
    needs.extend_from_slice(held)?;
    push_where(&mut needs, zone, sysmod.conds.as_slice())?;
    Ok(needs)
}

// The reasons of the holds of a kind.
fn reasons(alloc: Global, kind: Kind, holds: &[Hold]) -> Result<Vec<Id>, NoMemory>
    ensures { IfOk result (λ reasons. reasons.items ≡ reasons_in kind holds.now) }
{
    let mut reasons = Vec::new(alloc);
    for hold in holds {
        if hold.key.kind == kind {
            reasons.push(hold.key.reason)?;
        }
    }
    Ok(reasons)
}

// Adds the needs of those whose function is installed.
fn push_where(needs: &mut Vec<Id>, zone: &Zone, conds: &[CondNeed]) -> Result<(), NoMemory>
    ensures { OnOk result (needs.new.items ≡ needs.old.items ++ needs_where zone.now conds.now) }
{
    for cond in conds {
        if zone.installed(&cond.fmid) {
            needs.push(cond.need)?;
        }
    }
    Ok(())
}

/// All needs that were read, ascending, each once.
pub(crate) fn needs_of_all(alloc: Global, readings: &[Reading]) -> Result<Vec<Id>, NoMemory>
    ensures needs { IfOk result (λ needs. needs.items ≡ all_needs readings.now) }
    ensures ascend { IfOk result (λ needs. Ascend needs.items) }
{
    let mut found = BTreeSet::new(alloc);
    for reading in readings {
        put_all(&mut found, reading.needs())?;
    }
    listed(alloc, found)
}
