//! The ids that a publication touches.
ghost use Rattle.std.specs.Prelude.{◌≡◌, ◌↔◌, ℕ, List, Contains, IfOk, OnOk};
ghost use Rattle.holddata.specs.declared.hold.HoldChange.{HoldChange};
ghost use Rattle.holddata.specs.HoldChange.{key_of};
ghost use Rattle.catalogue.specs.declared.change.Change.TheVariants.{Whole};
ghost use Rattle.catalogue.specs.Content.{Content, record_of};
ghost use Rattle.catalogue.specs.Ids.{Ascend, put_among};
ghost use Rattle.catalogue.specs.View.{MayAsk, Tells};
ghost use Rattle.catalogue.specs.declared.fault.SourceFault.TheVariants.{Device};
ghost use Rattle.catalogue.specs.Touched.{IsTouched, TouchesAll, sup_of, touched_by, touched_by_key, touched_ids};

use crate::ids::listed;
use crate::{Change, NoMemory, Published, SourceFault, Sysmod};
use holddata::{HoldChange, Kind};
use mcs_reader::Id;
use std::alloc::Global;
use std::collections::BTreeSet;

/// Finds the ids whose record, direct superseders or ERROR holds may differ after a publication of these changes.
/// They are each SYSMOD that is published, the ids that its SUP names before the publication and in it, and the
/// SYSMODs whose ERROR holds are put or released. They ascend, each once.
///
/// # Errors
///
/// Those of [`Published::sysmod`], which it asks for the record of each SYSMOD that is published.
pub fn touched<P: Published>(
    alloc: Global,
    source: &mut P,
    changes: &[Change],
) -> Result<Vec<Id>, SourceFault>
    ensures asks { MayAsk P.content_view Device source.old source.new result }
    ensures touched { IfOk result (λ ids. Tells P.content_view source.old source.new
        (λ content. ids.items ≡ touched_ids content changes.now)) }
    ensures ascend { IfOk result (λ ids. Ascend ids.items) }

    // They are exactly the touched ids.
    ensures each { IfOk result (λ ids. Tells P.content_view source.old source.new
        (λ content. (id : List ℕ) → Contains ids.items id ↔ IsTouched content changes.now id)) }

    // The publication leaves every other id's record, direct superseders and reasons of ERROR holds as they were.
    ensures touches_all { TouchesAll }
{
    let mut ids = BTreeSet::new(alloc);
    for change in changes {
        touch_by(&mut ids, source, change)?;
    }
    Ok(listed(alloc, ids)?)
}

// Adds the ids that one change touches.
fn touch_by<P: Published>(
    ids: &mut BTreeSet<Id>,
    source: &mut P,
    change: &Change,
) -> Result<(), SourceFault>
    ensures asks { MayAsk P.content_view Device source.old source.new result }
    ensures touched { OnOk result (Tells P.content_view source.old source.new
        (λ content. ids.new.keys ≡ put_among ids.old.keys (touched_by content change.now))) }
{
    match change {
        Change::Whole(sysmod) => {
            let before = source.sysmod(&sysmod.id)?;
            Ok(touch_record(ids, &before, sysmod)?)
        }
        Change::OfHold(change) => Ok(touch_held(ids, change)?),
    }
}

// Adds a SYSMOD, and the ids that its SUP named and names.
fn touch_record(
    ids: &mut BTreeSet<Id>,
    before: &Option<Sysmod>,
    sysmod: &Sysmod,
) -> Result<(), NoMemory>
    ensures { OnOk result ((content : Content) → before.now ≡ record_of content sysmod.now.id
        → ids.new.keys ≡ put_among ids.old.keys (touched_by content (Whole sysmod.now))) }
{
    ids.insert(sysmod.id)?;
    touch_sup(ids, before)?;
    touch_all(ids, sysmod.sup.as_slice())
}

// Adds the ids that SUP of a record names.
fn touch_sup(ids: &mut BTreeSet<Id>, sysmod: &Option<Sysmod>) -> Result<(), NoMemory>
    ensures { OnOk result (ids.new.keys ≡ put_among ids.old.keys (sup_of sysmod.now)) }
{
    match sysmod {
        Some(sysmod) => touch_all(ids, sysmod.sup.as_slice()),
        None => Ok(()),
    }
}

fn touch_all(ids: &mut BTreeSet<Id>, more: &[Id]) -> Result<(), NoMemory>
    ensures { OnOk result (ids.new.keys ≡ put_among ids.old.keys more.now) }
{
    for id in more {
        ids.insert(*id)?;
    }
    Ok(())
}

// Adds the SYSMOD of an ERROR hold.
fn touch_held(ids: &mut BTreeSet<Id>, change: &HoldChange) -> Result<(), NoMemory>
    ensures { OnOk result (ids.new.keys
        ≡ put_among ids.old.keys (touched_by_key (key_of change.now).kind (key_of change.now))) }
{
    let key = match change {
        HoldChange::Put(hold) => hold.key,
        HoldChange::Release(key) => *key,
    };
    if key.kind == Kind::ErrorHold {
        ids.insert(key.sysmod)?;
    }
    Ok(())
}
