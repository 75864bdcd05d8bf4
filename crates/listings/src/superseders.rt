//! The SYSMODs that supersede others, of all that is listed.
ghost use Rattle.std.specs.Prelude.{◌≡◌, ◌↔◌, ℕ, List, Contains, IfOk, IfSome, length, true};
ghost use Rattle.std.specs.List.{flat_map};
ghost use Rattle.catalogue.specs.Ids.{Ascend};
ghost use Rattle.verdicts.specs.Indices.{RowsAre};
ghost use Rattle.listings.specs.Sights.{Sight};
ghost use Rattle.listings.specs.Superseders.{AreBelow, AreIndicesOfAll, AreSuperseders, AreTurned, HaveAll, SupersedesAt, superseded_at};

use crate::listing::Entry;
use crate::places::{places, put_moved};
use mcs_reader::{Id, NoMemory};
use requisites::{Rows, turned};
use std::alloc::Global;
use verdicts::{index_near, index_of, put_indices, sort_each_once};

/// The SUP of all entries of a listing, both ways.
#[derive(Debug, Drop)]
pub(crate) struct Superseders {
    // All superseded ids, ascending; for each entry the indices of the ids that it supersedes; for each superseded id
    // the indices of the entries that supersede it.
    superseded: Vec<Id>,
    below: Rows,
    above: Rows,
}

impl Superseders {
    /// Makes it by the SUP of each entry. It takes memory in proportion to the ids that these name.
    pub(crate) fn of(alloc: Global, entries: &[Entry]) -> Result<Superseders, NoMemory>
        ensures { IfOk result
            (λ found. AreSuperseders entries.now found.superseded.items found.below found.above) }
    {
        let superseded = all_superseded(alloc, entries)?;
        let below = superseded_rows(alloc, &superseded, entries)?;
        Superseders::by_rows(alloc, superseded, below)
    }

    /// The same, made from that of an earlier listing, which had all entries but the marked ones. It looks for the ids
    /// that an entry supersedes first where they stood. No contract asks that the earlier one was right.
    pub(crate) fn renewed(
        self,
        alloc: Global,
        ids_before: &[Id],
        marks: &[Id],
        ids: &[Id],
        entries: &[Entry],
    ) -> Result<Superseders, NoMemory>
        requires superseded { Ascend self.superseded.items }
        requires before { Ascend ids_before.now }
        requires ids { Ascend ids.now }
        requires entries { length entries.now ≡ length ids.now }
        ensures { IfOk result
            (λ found. AreSuperseders entries.now found.superseded.items found.below found.above) }
    {
        let superseded = superseded_now(alloc, &self.superseded, marks, ids, entries)?;
        if is_mostly_left(&superseded, entries) {
            return Superseders::of(alloc, entries);
        }
        let hints = self.into_hints(alloc, &superseded, ids_before, ids)?;
        match hinted_rows(alloc, &superseded, &hints, entries)? {
            Some(below) => Superseders::by_rows(alloc, superseded, below),
            None => Superseders::of(alloc, entries),
        }
    }

    // Makes it by the superseded ids, and by the indices among them for each entry.
    fn by_rows(alloc: Global, superseded: Vec<Id>, below: Rows) -> Result<Superseders, NoMemory>
        requires { Ascend superseded.items }
        ensures { IfOk result (λ found. (sights : List Sight) → HaveAll sights superseded.items
            → AreBelow sights superseded.items below
            → AreSuperseders sights found.superseded.items found.below found.above) }
    {
        let above = turned(alloc, &below, superseded.len())?;
        Ok(Superseders {
            superseded,
            below,
            above,
        })
    }

    // For each id the indices at which all that it superseded may stand now. They are hints: indices to look at first.
    fn into_hints(
        self,
        alloc: Global,
        superseded: &[Id],
        ids_before: &[Id],
        ids: &[Id],
    ) -> Result<Rows, NoMemory>
        requires own { Ascend self.superseded.items }
        requires superseded { Ascend superseded.now }
        requires before { Ascend ids_before.now }
        requires ids { Ascend ids.now }
    {
        let moved = places(alloc, &self.superseded, superseded)?;
        let before = places(alloc, ids, ids_before)?;
        let mut hints = Rows::new(alloc);
        let mut row = Vec::new(alloc);
        for place in &before {
            match place {
                Some(index) => put_moved(&mut row, &moved, self.below.row(*index))?,
                None => row.clear(),
            }
            hints.push_row(&row)?;
        }
        Ok(hints)
    }

    /// All superseded ids, ascending.
    pub(crate) fn superseded(&self) -> &[Id]
        ensures { result.now ≡ self.now.superseded.items }
    {
        self.superseded.as_slice()
    }

    /// For each entry the indices of the ids that it supersedes.
    pub(crate) fn below(&self) -> &Rows
        ensures { result.now ≡ self.now.below }
    {
        &self.below
    }

    /// The indices of the entries whose SUP names an id.
    pub(crate) fn indices(&self, id: &Id) -> &[usize]
        requires { Ascend self.now.superseded.items }
        ensures { (sights : List Sight) (p : ℕ)
            → AreTurned sights self.now.superseded.items self.now.above
            → Contains result.now p ↔ SupersedesAt sights p id.now }
    {
        match index_of(&self.superseded, id) {
            Some(index) => self.above.row(index),
            None => &[],
        }
    }
}

// All ids that entries supersede, ascending, each once.
fn all_superseded(alloc: Global, entries: &[Entry]) -> Result<Vec<Id>, NoMemory>
    ensures ascend { IfOk result (λ ids. Ascend ids.items) }
    ensures whole { IfOk result (λ ids. HaveAll entries.now ids.items) }
{
    let mut ids = superseded_in_turn(alloc, entries)?;
    sort_each_once(&mut ids)?;
    Ok(ids)
}

fn superseded_in_turn(alloc: Global, entries: &[Entry]) -> Result<Vec<Id>, NoMemory>
    ensures { IfOk result (λ ids. ids.items ≡ flat_map (λ sight. sight.superseded) entries.now) }
{
    let mut ids = Vec::new(alloc);
    for entry in entries {
        ids.extend_from_slice(entry.superseded())?;
    }
    Ok(ids)
}

// For each entry the indices of the ids that it supersedes.
fn superseded_rows(alloc: Global, superseded: &[Id], entries: &[Entry]) -> Result<Rows, NoMemory>
    requires { Ascend superseded.now }
    ensures { IfOk result (λ rows. AreBelow entries.now superseded.now rows) }
{
    let mut rows = Rows::new(alloc);
    let mut indices = Vec::new(alloc);
    for (index, entry) in entries.iter().enumerate() {
        put_indices(&mut indices, superseded, index, entry.superseded())?;
        rows.push_row(&indices)?;
    }
    Ok(rows)
}

// The ids that were superseded before, and those that the marked entries supersede: ascending, each once. Ids that
// nothing supersedes any more stay among them.
fn superseded_now(
    alloc: Global,
    before: &[Id],
    marks: &[Id],
    ids: &[Id],
    entries: &[Entry],
) -> Result<Vec<Id>, NoMemory>
    requires ids { Ascend ids.now }
    requires entries { length entries.now ≡ length ids.now }
    ensures { IfOk result (λ now. Ascend now.items) }
{
    let mut added = superseded_by_marked(alloc, marks, ids, entries)?;
    // Sorts the added ones first, so that two lists in order are put together.
    sort_each_once(&mut added)?;
    let mut now = Vec::from_slice(alloc, before)?;
    now.extend_from_slice(&added)?;
    sort_each_once(&mut now)?;
    Ok(now)
}

fn superseded_by_marked(
    alloc: Global,
    marks: &[Id],
    ids: &[Id],
    entries: &[Entry],
) -> Result<Vec<Id>, NoMemory>
    requires ids { Ascend ids.now }
    requires entries { length entries.now ≡ length ids.now }
{
    let mut superseded = Vec::new(alloc);
    for mark in marks {
        if let Some(index) = index_of(ids, mark) {
            superseded.extend_from_slice(entries[index].superseded())?;
        }
    }
    Ok(superseded)
}

// Whether most of it is left from before: the SUP of the entries name less than half as many ids.
fn is_mostly_left(superseded: &[Id], entries: &[Entry]) -> bool {
    let mut named = 0usize;
    for entry in entries {
        named = named.saturating_add(entry.superseded().len());
    }
    named < superseded.len() / 2
}

// For each entry the indices of the ids that it supersedes, looked for first at the hints. `None` if one of them stands
// nowhere.
fn hinted_rows(
    alloc: Global,
    superseded: &[Id],
    hints: &Rows,
    entries: &[Entry],
) -> Result<Option<Rows>, NoMemory>
    requires { Ascend superseded.now }
    ensures { IfOk result (λ found. IfSome found (λ rows. RowsAre
        (λ p indices. AreIndicesOfAll superseded.now (superseded_at entries.now p) indices)
        (length entries.now) rows)) }
{
    let mut rows = Rows::new(alloc);
    let mut indices = Vec::new(alloc);
    for (index, entry) in entries.iter().enumerate() {
        let near = hints.row(index);
        if !put_hinted(&mut indices, superseded, near, entry.superseded())? {
            return Ok(None);
        }
        rows.push_row(&indices)?;
    }
    Ok(Some(rows))
}

// Turns a list into that of the indices of ids, if all of them have one. It looks for each at its hint first.
fn put_hinted(
    indices: &mut Vec<usize>,
    members: &[Id],
    hints: &[usize],
    ids: &[Id],
) -> Result<bool, NoMemory>
    requires { Ascend members.now }
    ensures { IfOk result (λ all. all ≡ true
        → AreIndicesOfAll members.now ids.now indices.new.items) }
{
    indices.clear();
    for (nth, id) in ids.iter().enumerate() {
        match index_near(members, hint_at(hints, nth), id) {
            Some(index) => indices.push(index)?,
            None => return Ok(false),
        }
    }
    Ok(true)
}

fn hint_at(hints: &[usize], nth: usize) -> usize {
    hints.get(nth).copied().unwrap_or(0)
}
