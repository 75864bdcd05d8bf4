//! The SYSMODs that were gathered, by index, and which of them give which.
ghost use Rattle.std.specs.Prelude.{◌≡◌, ◌<◌, ◌↔◌, ℕ, List, Contains, IfOk, filter, length, map};
ghost use Rattle.std.specs.List.Sorted.{IsStrictlySortedBy};
ghost use Rattle.std.specs.Ordering.{nat_cmp};
ghost use Rattle.catalogue.specs.Ids.{Ascend};
ghost use Rattle.requisites.specs.Leads.{Leads};
ghost use Rattle.verdicts.specs.Indices.{AreIndexed};
ghost use Rattle.listings.specs.Links.{IsAbove, IsGiverAt, is_catalogued_at};

use crate::gathered::Gathered;
use catalogue::Ids;
use mcs_reader::{Id, NoMemory};
use requisites::Rows;
use std::alloc::Global;
use std::collections::BTreeSet;
use verdicts::{ascending, ids_at, put_indices};

/// The ids that each of some ids needs, supersedes and is superseded by, by their indices.
#[derive(Debug, Drop)]
pub struct Links {
    /// The ids that each may need in every zone.
    pub needs: Rows,
    /// The ids that each supersedes directly.
    pub supersedes: Rows,
    /// The ids that supersede each directly.
    pub above: Rows,
}

impl Links {
    /// Makes the links of ids by the SYSMODs that were gathered, in the order of the ids.
    ///
    /// # Errors
    ///
    /// `NoMemory` if memory ran out.
    pub fn of(alloc: Global, ids: &[Id], all: &[Gathered]) -> Result<Links, NoMemory>
        requires ascend { Ascend ids.now }
        requires len { length all.now ≡ length ids.now }
        ensures needs { IfOk result
            (λ links. AreIndexed ids.now (map (λ g. g.entry.needs) all.now) links.needs) }
        ensures supersedes { IfOk result
            (λ links. AreIndexed ids.now (map (λ g. g.entry.superseded) all.now) links.supersedes) }
        ensures above { IfOk result (λ links. AreIndexed ids.now (map (λ g. g.above) all.now) links.above) }
    {
        let mut needs = Rows::new(alloc);
        let mut supersedes = Rows::new(alloc);
        let mut above = Rows::new(alloc);
        let mut indices = Vec::new(alloc);
        for (index, gathered) in all.iter().enumerate() {
            put_indices(&mut indices, ids, index + 1, gathered.entry.needs())?;
            needs.push_row(&indices)?;
            put_indices(&mut indices, ids, index + 1, gathered.entry.superseded())?;
            supersedes.push_row(&indices)?;
            put_indices(&mut indices, ids, index + 1, gathered.above.as_slice())?;
            above.push_row(&indices)?;
        }
        Ok(Links {
            needs,
            supersedes,
            above,
        })
    }
}

/// Finds the ids that give the one at an index, ascending.
///
/// # Errors
///
/// `NoMemory` if memory ran out.
pub fn givers_at(
    alloc: Global,
    ids: &[Id],
    all: &[Gathered],
    above: &Rows,
    index: usize,
) -> Result<Ids, NoMemory>
    requires ascend { Ascend ids.now }
    requires within { index < length ids.now }
    requires indexed { AreIndexed ids.now (map (λ g. g.above) all.now) above.now }
    ensures ascend { IfOk result (λ givers. Ascend givers) }
    ensures each { IfOk result (λ givers. (id : List ℕ)
        → Contains givers id ↔ IsGiverAt ids.now all.now above.now index id) }
{
    let indices = indices_above(alloc, above, index)?;
    let givers = those_catalogued(alloc, all, &indices)?;
    Ok(ascending(ids_at(alloc, ids, &givers)?))
}

// The indices that lead up from one by superseding, itself among them, ascending.
fn indices_above(alloc: Global, above: &Rows, index: usize) -> Result<Vec<usize>, NoMemory>
    ensures ascend { IfOk result (λ indices. IsStrictlySortedBy nat_cmp indices.items) }
    ensures each { IfOk result
        (λ indices. (q : ℕ) → Contains indices.items q ↔ Leads (IsAbove above.now) index q) }
{
    let mut found = BTreeSet::new(alloc);
    let mut order = Vec::new(alloc);
    order.push(index)?;
    let mut at = 0;
    while at < order.len() {
        let next = order[at];
        at += 1;
        if found.contains(&next) {
            continue;
        }
        order.extend_from_slice(above.row(next))?;
        found.insert(next)?;
    }
    listed(alloc, found)
}

// The indices of a set, in order.
fn listed(alloc: Global, indices: BTreeSet<usize>) -> Result<Vec<usize>, NoMemory>
    ensures indices { IfOk result (λ list. list.items ≡ indices.keys) }
    ensures ascend { IfOk result (λ list. IsStrictlySortedBy nat_cmp list.items) }
{
    indices.into_iter().collect(alloc)
}

// Those of some indices that are catalogued.
fn those_catalogued(
    alloc: Global,
    all: &[Gathered],
    indices: &[usize],
) -> Result<Vec<usize>, NoMemory>
    ensures { IfOk result (λ those. those.items ≡ filter (is_catalogued_at all.now) indices.now) }
{
    let mut those = Vec::with_capacity(alloc, indices.len())?;
    for index in indices {
        if is_catalogued(all, *index) {
            those.push(*index)?;
        }
    }
    Ok(those)
}

fn is_catalogued(all: &[Gathered], index: usize) -> bool
    ensures { result ≡ is_catalogued_at all.now index }
{
    match all.get(index) {
        Some(gathered) => gathered.entry.is_catalogued(),
        None => false,
    }
}
