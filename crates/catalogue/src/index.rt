//! The SYSMODs that supersede each SYSMOD.
ghost use Rattle.std.specs.Prelude.{◌≡◌, ◌++◌, ℕ, [], ◌∷◌, List, IfOk, OnOk, if◌then◌else◌};
ghost use Rattle.std.specs.BTreeMap.{get, values};
ghost use Rattle.catalogue.specs.Content.{sup_names};
ghost use Rattle.catalogue.specs.Ids.{id_cmp, same_id};
ghost use Rattle.catalogue.specs.ListPublished.{IsIndex, listed};

use crate::{NoMemory, Sysmod};
use mcs_reader::Id;
use std::alloc::Global;
use std::collections::BTreeMap;

/// Each id with the SYSMODs whose SUP names it, ascending.
pub(crate) type Index = BTreeMap<Id, Vec<Id>>;

/// The index of all records.
pub(crate) fn index_of(alloc: Global, sysmods: &BTreeMap<Id, Sysmod>) -> Result<Index, NoMemory>
    ensures { IfOk result (λ index. IsIndex index (values sysmods.now)) }
{
    let mut index = BTreeMap::new(alloc);
    for sysmod in sysmods.values() {
        list_superseder(alloc, &mut index, sysmod)?;
    }
    Ok(index)
}

/// The ids listed under an id.
pub(crate) fn listed_under(alloc: Global, index: &Index, id: &Id) -> Result<Vec<Id>, NoMemory>
    ensures { IfOk result (λ ids. ids.items ≡ listed (get id_cmp index.now id.now)) }
{
    match index.get(id) {
        Some(ids) => ids.clone(),
        None => Ok(Vec::new(alloc)),
    }
}

// Lists a SYSMOD under each id that its SUP names.
fn list_superseder(alloc: Global, index: &mut Index, sysmod: &Sysmod) -> Result<(), NoMemory>
    ensures { OnOk result ((id : List ℕ) → listed (get id_cmp index.new id)
        ≡ listed (get id_cmp index.old id) ++ (if sup_names id sysmod.now then sysmod.now.id ∷ [] else [])) }
{
    for superseded in sysmod.sup.as_slice() {
        list_under(alloc, index, *superseded, sysmod.id)?;
    }
    Ok(())
}

// Lists an id after those that stand under another.
fn list_under(alloc: Global, index: &mut Index, under: Id, id: Id) -> Result<(), NoMemory>
    ensures { OnOk result ((q : List ℕ) → listed (get id_cmp index.new q)
        ≡ (if same_id under q then listed (get id_cmp index.old q) ++ id ∷ []
        else listed (get id_cmp index.old q))) }
{
    if let Some(ids) = index.get_mut(&under) {
        ids.push(id)?;
        return Ok(());
    }
    let mut ids = Vec::with_capacity(alloc, 1)?;
    ids.push(id)?;
    index.insert(under, ids)?;
    Ok(())
}
