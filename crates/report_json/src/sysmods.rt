//! The held SYSMODs of a report, each once, with their functions.
ghost use Rattle.std.specs.Prelude.{◌≡◌, IfOk, map};
ghost use Rattle.serde_json.specs.View.{view};
ghost use Rattle.catalogue.specs.View.{MayAsk, Tells};
ghost use Rattle.catalogue.specs.declared.fault.SourceFault.TheVariants.{Device};
ghost use Rattle.report_json.specs.Json as Spec;

use crate::fields::fmids_value;
use catalogue::{Published, SourceFault, Sysmod};
use faults::NoMemory;
use mcs_reader::Id;
use reports::HoldResolvers;
use serde_json::{Value, json};
use std::alloc::Global;
use std::collections::BTreeSet;

/// The SYSMODs of holds, each once, in ascending order.
pub(crate) fn sysmods_in(alloc: Global, helds: &[HoldResolvers]) -> Result<Vec<Id>, NoMemory>
    ensures { IfOk result (λ ids. ids.items ≡ Spec.sysmods_in helds.now) }
{
    let mut found = BTreeSet::new(alloc);
    for held in helds {
        found.insert(held.hold().key.sysmod)?;
    }
    listed(alloc, found)
}

// The ids of a set, in order.
fn listed(alloc: Global, ids: BTreeSet<Id>) -> Result<Vec<Id>, NoMemory>
    ensures { IfOk result (λ list. list.items ≡ ids.keys) }
{
    ids.into_iter().collect(alloc)
}

/// SYSMODs with their functions, of which each is read once.
pub(crate) fn sysmod_values<P: Published>(
    alloc: Global,
    source: &mut P,
    ids: &[Id],
) -> Result<Vec<Value>, SourceFault>
    ensures asks { MayAsk P.content_view Device source.old source.new result }
    ensures values { IfOk result (λ values. Tells P.content_view source.old source.new
        (λ content. map view values.items ≡ map (Spec.sysmod_data content) ids.now)) }
{
    let mut values = Vec::new(alloc);
    for id in ids {
        values.push(sysmod_value(alloc, source, id)?)?;
    }
    Ok(values)
}

fn sysmod_value<P: Published>(alloc: Global, source: &mut P, id: &Id) -> Result<Value, SourceFault>
    ensures asks { MayAsk P.content_view Device source.old source.new result }
    ensures value { IfOk result (λ value. Tells P.content_view source.old source.new
        (λ content. view value ≡ Spec.sysmod_data content id.now)) }
{
    let sysmod = source.sysmod(id)?;
    Ok(sysmod_value_with(alloc, id, &sysmod)?)
}

fn sysmod_value_with(alloc: Global, id: &Id, sysmod: &Option<Sysmod>) -> Result<Value, NoMemory>
    ensures { IfOk result (λ value. view value ≡ Spec.sysmod_data_with id.now sysmod.now) }
{
    json!(in alloc; { "fmids": fmids_value(alloc, sysmod)?, "sysmod": id.text() })
}
