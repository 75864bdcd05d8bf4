//! Those of some SYSMODs that no other of them supersedes.
ghost use Rattle.std.specs.Prelude.{◌≡◌, ◌++◌, ◌∷◌, [], ℕ, List, Bool, Contains, IfOk, OnOk, filter, is_some, length, not, true, if◌then◌else◌};
ghost use Rattle.catalogue.specs.Content.{Content};
ghost use Rattle.catalogue.specs.Ids.{Ascend, in_order};
ghost use Rattle.requisites.specs.Sources.{source_of};
ghost use Rattle.supersede.specs.Reach.{has};
ghost use Rattle.verdicts.specs.Indices.{IsAt, id_at};
ghost use Rattle.zone_plans.specs.Choices.{is_given, on_top, or_all};
ghost use Rattle.zone_plans.specs.Climbs.{AreKnownAmong, AreOthers, IsClimb, IsKnown};

use crate::climbing::Climb;
use crate::marks::marks_among;
use crate::others::{Others, others_by};
use faults::NoMemory;
use mcs_reader::Id;
use reports::{is_among, put_all};
use requisites::{is_marked, source_at};
use std::alloc::Global;
use std::collections::BTreeSet;
use verdicts::{index_of, listed};

/// Those of some ids that no other of them gives, or all if each is given. `others` has marks of some SYSMODs of the
/// climb, and which other marked one gives each. If that doesn't decide it, another one is found among these ids alone.
pub(crate) fn tops(
    alloc: Global,
    climb: &Climb,
    others: &Others,
    ids: Vec<Id>,
) -> Result<Vec<Id>, NoMemory>
    requires ascend { Ascend climb.now.ids.items }
    requires others { AreOthers climb.now.below (length climb.now.ids.items)
        others.now.marks.items others.now.found.items }
    ensures { IfOk result (λ top. (content : Content)
        → IsClimb content climb.now.ids.items climb.now.below
        → ((id : List ℕ) → Contains ids.items id → Contains climb.now.ids.items id)
        → top.items ≡ on_top content ids.items) }
{
    let top = those_on_top(alloc, climb, others, &ids)?;
    Ok(or_all(top, ids))
}

// Those that were kept, or all if none was.
fn or_all(kept: Vec<Id>, all: Vec<Id>) -> Vec<Id>
    ensures { result.items ≡ or_all kept.items all.items }
{
    if kept.is_empty() {
        return all;
    }
    kept
}

fn those_on_top(
    alloc: Global,
    climb: &Climb,
    others: &Others,
    ids: &[Id],
) -> Result<Vec<Id>, NoMemory>
    requires ascend { Ascend climb.now.ids.items }
    requires others { AreOthers climb.now.below (length climb.now.ids.items)
        others.now.marks.items others.now.found.items }
    ensures { IfOk result (λ top. (content : Content)
        → IsClimb content climb.now.ids.items climb.now.below
        → ((id : List ℕ) → Contains ids.now id → Contains climb.now.ids.items id)
        → top.items ≡ filter (λ id. not (is_given content ids.now id)) ids.now) }
{
    let among = ordered(alloc, ids)?;
    if are_known(&climb.ids, others, &among) {
        return those_not_given(alloc, &climb.ids, &others.found, ids);
    }
    let marks = marks_among(alloc, &climb.ids, &among)?;
    let own = others_by(alloc, &climb.below, marks)?;
    those_not_given(alloc, &climb.ids, &own.found, ids)
}

/// Some ids in order, each once.
pub(crate) fn ordered(alloc: Global, ids: &[Id]) -> Result<Vec<Id>, NoMemory>
    ensures ids { IfOk result (λ list. list.items ≡ in_order ids.now) }
    ensures ascend { IfOk result (λ list. Ascend list.items) }
{
    let mut found = BTreeSet::new(alloc);
    put_all(&mut found, ids)?;
    listed(alloc, found)
}

// Whether it is known which of some ids another one of them gives.
fn are_known(members: &[Id], others: &Others, among: &[Id]) -> bool
    requires members { Ascend members.now }
    requires among { Ascend among.now }
    ensures { result ≡ true
        → AreKnownAmong members.now others.now.marks.items others.now.found.items among.now }
{
    for id in among {
        if !is_known(members, others, among, id) {
            return false;
        }
    }
    true
}

// It is marked, and if another one was found that gives it, that is one of them too.
fn is_known(members: &[Id], others: &Others, among: &[Id], id: &Id) -> bool
    requires members { Ascend members.now }
    requires among { Ascend among.now }
    ensures { result ≡ true
        → IsKnown members.now others.now.marks.items others.now.found.items among.now id.now }
{
    let Some(index) = index_of(members, id) else {
        return false;
    };
    if !is_marked(&others.marks, index) {
        return false;
    }
    match source_at(&others.found, index) {
        Some(other) => is_index_among(members, among, other),
        None => true,
    }
}

fn is_index_among(members: &[Id], among: &[Id], index: usize) -> bool
    requires { Ascend among.now }
    ensures { result ≡ true → has among.now (id_at members.now index) ≡ true }
{
    match members.get(index) {
        Some(id) => is_among(among, id),
        None => false,
    }
}

// Those of some ids for which no other one was found.
fn those_not_given(
    alloc: Global,
    members: &[Id],
    found: &[Option<usize>],
    ids: &[Id],
) -> Result<Vec<Id>, NoMemory>
    requires { Ascend members.now }
    ensures { IfOk result (λ kept. (f : List ℕ → Bool)
        → ((id : List ℕ) → Contains ids.now id → Contains members.now id)
        → ((id : List ℕ) (p : ℕ) → Contains ids.now id → IsAt members.now id p
        → is_some (source_of found.now p) ≡ f id)
        → kept.items ≡ filter (λ id. not (f id)) ids.now) }
{
    let mut kept = Vec::new(alloc);
    for id in ids {
        let keep = !has_other(members, found, id);
        push_if(&mut kept, keep, id)?;
    }
    Ok(kept)
}

fn has_other(members: &[Id], found: &[Option<usize>], id: &Id) -> bool
    requires { Ascend members.now }
    ensures { (p : ℕ) → IsAt members.now id.now p → result ≡ is_some (source_of found.now p) }
{
    match index_of(members, id) {
        Some(index) => source_at(found, index).is_some(),
        None => false,
    }
}

fn push_if(ids: &mut Vec<Id>, keep: bool, id: &Id) -> Result<(), NoMemory>
    ensures { OnOk result (ids.new.items ≡ ids.old.items ++ (if keep then id.now ∷ [] else [])) }
{
    if keep {
        ids.push(*id)?;
    }
    Ok(())
}
