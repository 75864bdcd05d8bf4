//! The SYSMODs that give one.
ghost use Rattle.std.specs.Prelude.{◌≡◌, ◌↔◌, filter, List, ℕ, Contains, IfOk, OnOk};
ghost use Rattle.catalogue.specs.Content.{ids_of};
ghost use Rattle.catalogue.specs.Ids.{Ascend, put_among};
ghost use Rattle.catalogue.specs.View.{MayAsk, Tells};
ghost use Rattle.catalogue.specs.declared.fault.SourceFault.TheVariants.{Device};
ghost use Rattle.supersede.specs.Giving.{givers_of};
ghost use Rattle.supersede.specs.Leading.{Gives};
ghost use Rattle.supersede.specs.Reach.{Alike, Continues, IsReach, is_other};

use catalogue::{Published, SourceFault};
use faults::NoMemory;
use mcs_reader::Id;
use std::alloc::Global;
use std::collections::BTreeSet;

/// Finds the catalogued SYSMODs that give this one, ascending: itself, and those that supersede it, themselves or
/// through others (IBM z/OS SMP/E Reference, `++VER`, operand SUP). It asks the source for what it finds, and never
/// for all that is catalogued.
///
/// # Errors
///
/// `Memory` if memory ran out, `Device` if the source failed.
pub fn givers<P: Published>(alloc: Global, source: &mut P, id: &Id) -> Result<Vec<Id>, SourceFault>
    ensures asks { MayAsk P.content_view Device source.old source.new result }
    ensures givers { IfOk result (λ ids. Tells P.content_view source.old source.new
        (λ content. ids.items ≡ givers_of content id.now)) }
    ensures ascend { IfOk result (λ ids. Ascend ids.items) }

    // They are exactly the SYSMODs that give it.
    ensures each { IfOk result (λ ids. Tells P.content_view source.old source.new
        (λ content. (giver : List ℕ) → Contains ids.items giver ↔ Gives content giver id.now)) }
{
    let found = reach(alloc, source, id)?;
    match source.sysmod(id)? {
        Some(_) => Ok(found),
        None => Ok(others(alloc, &found, id)?),
    }
}

// Those of some ids that aren't this one.
fn others(alloc: Global, ids: &[Id], id: &Id) -> Result<Vec<Id>, NoMemory>
    ensures { IfOk result (λ others. others.items ≡ filter (is_other id.now) ids.now) }
{
    let mut others = Vec::new(alloc);
    for other in ids {
        if *other != *id {
            others.push(*other)?;
        }
    }
    Ok(others)
}

// An id and the SYSMODs that supersede it, themselves or through others. The source is asked for each once.
fn reach<P: Published>(alloc: Global, source: &mut P, id: &Id) -> Result<Vec<Id>, SourceFault>
    ensures asks { MayAsk P.content_view Device source.old source.new result }
    ensures reach { IfOk result (λ found. Tells P.content_view source.old source.new
        (λ content. Ascend (ids_of content) → IsReach content found.items id.now)) }
    ensures ascend { IfOk result (λ found. Ascend found.items) }
{
    let mut found = BTreeSet::new(alloc);
    let mut order = Vec::new(alloc);
    found.insert(*id)?;
    order.push(*id)?;
    let mut at = 0;
    while at < order.len() {
        let next = order[at];
        let above = source.superseders(&next)?;
        add_new(&mut found, &mut order, &above)?;
        at += 1;
    }
    Ok(listed(alloc, found)?)
}

// Adds ids to those that were found, and the new ones to the end of the order.
fn add_new(found: &mut BTreeSet<Id>, order: &mut Vec<Id>, ids: &[Id]) -> Result<(), NoMemory>
    ensures found { OnOk result (found.new.keys ≡ put_among found.old.keys ids.now) }
    ensures continues { OnOk result (Continues order.old.items order.new.items) }
    ensures alike { OnOk result
        (Alike found.old.keys order.old.items → Alike found.new.keys order.new.items) }
{
    for id in ids {
        if found.insert(*id)? {
            order.push(*id)?;
        }
    }
    Ok(())
}

// The ids of a set, in order.
fn listed(alloc: Global, ids: BTreeSet<Id>) -> Result<Vec<Id>, NoMemory>
    ensures ids { IfOk result (λ list. list.items ≡ ids.keys) }
    ensures ascend { IfOk result (λ list. Ascend list.items) }
{
    ids.into_iter().collect(alloc)
}
