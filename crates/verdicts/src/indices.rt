//! Ids by their indices in a list that ascends.
ghost use Rattle.std.specs.Prelude.{◌≡◌, ◌<◌, ℕ, List, Contains, IfNone, IfOk, IfSome, OnOk, length, map, true};
ghost use Rattle.catalogue.specs.Ids.{Ascend, in_order};
ghost use Rattle.verdicts.specs.Indices as Indices;
ghost use Rattle.verdicts.specs.Indices.{AreIndicesOf, IsAt};

use catalogue::Ids;
use mcs_reader::{Id, NoMemory};
use std::alloc::Global;
use supersede::index_among;

/// Puts ids in ascending order, each once. Those that ascend already are not sorted again.
///
/// # Errors
///
/// `NoMemory` if memory ran out.
pub fn sort_each_once(ids: &mut Vec<Id>) -> Result<(), NoMemory>
    ensures in_order { OnOk result (ids.new.items ≡ in_order ids.old.items) }
    ensures ascend { OnOk result (Ascend ids.new.items) }
    ensures keeps { (id : List ℕ) → Contains ids.old.items id → Contains ids.new.items id }
{
    ids.sort()?;
    ids.dedup();
    Ok(())
}

/// Whether ids ascend, each once.
pub fn do_ascend(ids: &[Id]) -> bool
    ensures { result ≡ true → Ascend ids.now }
{
    ids.is_sorted_by(|id, next| id.cmp(next).is_lt())
}

/// The index of an id, if it is among the members.
pub fn index_of(members: &[Id], id: &Id) -> Option<usize>
    requires { Ascend members.now }
    ensures some { IfSome result (λ index. IsAt members.now id.now index) }
    ensures none { IfNone result (Contains members.now id.now → ⊥) }
{
    index_among(members, id)
}

/// The same, with an index to look at first.
pub fn index_near(members: &[Id], first: usize, id: &Id) -> Option<usize>
    requires { Ascend members.now }
    ensures some { IfSome result (λ index. IsAt members.now id.now index) }
    ensures none { IfNone result (Contains members.now id.now → ⊥) }
{
    if first < members.len() && members[first] == *id {
        return Some(first);
    }
    index_of(members, id)
}

/// Turns a list into that of the indices of those ids that are members. It looks for the first id at a given index
/// first, and for each other one after the one before: ids that are listed together often stand together.
///
/// # Errors
///
/// `NoMemory` if memory ran out.
pub fn put_indices(
    indices: &mut Vec<usize>,
    members: &[Id],
    first: usize,
    ids: &[Id],
) -> Result<(), NoMemory>
    requires { Ascend members.now }
    ensures { OnOk result (AreIndicesOf members.now ids.now indices.new.items) }
{
    indices.clear();
    let mut next = first;
    for id in ids {
        if let Some(index) = index_near(members, next, id) {
            indices.push(index)?;
            next = index + 1;
        }
    }
    Ok(())
}

/// The ids at indices.
///
/// # Errors
///
/// `NoMemory` if memory ran out.
pub fn ids_at(alloc: Global, members: &[Id], indices: &[usize]) -> Result<Vec<Id>, NoMemory>
    requires { (q : ℕ) → Contains indices.now q → q < length members.now }
    ensures { IfOk result (λ ids. ids.items ≡ map (Indices.id_at members.now) indices.now) }
{
    let mut ids = Vec::with_capacity(alloc, indices.len())?;
    for index in indices {
        ids.push(id_at(members, *index))?;
    }
    Ok(ids)
}

/// The id at an index.
pub fn id_at(members: &[Id], index: usize) -> Id
    requires { index < length members.now }
    ensures { result ≡ Indices.id_at members.now index }
{
    members[index]
}

/// Ids that ascend, each once, as [`Ids`]. It takes no memory.
pub fn ascending(ids: Vec<Id>) -> Ids
    requires { Ascend ids.items }
    ensures { result ≡ ids.items }
{
    match Ids::from_ascending(ids) {
        Some(ids) => ids,
        None => unreachable!(),
    }
}
