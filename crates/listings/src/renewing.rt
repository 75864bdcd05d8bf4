//! A listing after a publication: the ids that the publication touches are read anew.
ghost use Rattle.std.specs.Prelude.{◌≡◌, ◌<◌, ◌++◌, ◌∷◌, ℕ, List, IfOk, OnOk, is_some, length, map, slice_index_or};
ghost use Rattle.std.specs.Vec.Iter.{into_iter_items};
ghost use Rattle.catalogue.specs.Ids.{Ascend, in_order};
ghost use Rattle.catalogue.specs.Seen.{SeenLists};
ghost use Rattle.listings.specs.Marks.{SaysBut, catalogued_among, found_among, marked, sight_seen, unmarked};
ghost use Rattle.listings.specs.Sights.{Sight};
ghost use Rattle.supersede.specs.Reach.{has};

use crate::listing::{Entry, push_entries};
use catalogue::Seen;
use mcs_reader::{Id, NoMemory};
use std::alloc::Global;
use std::vec::IntoIter;
use verdicts::{index_of, sort_each_once};

/// The ids that are listed now, ascending: those that were listed and aren't marked, and those that are marked and
/// were found.
pub(crate) fn ids_now(
    alloc: Global,
    ids: &[Id],
    marks: &[Id],
    read: &[Seen],
) -> Result<Vec<Id>, NoMemory>
    requires { Ascend marks.now }
    ensures ascend { IfOk result (λ now. Ascend now.items) }
    ensures ids { IfOk result (λ now. (f : List ℕ → SeenLists) → read.now ≡ map f marks.now
        → now.items ≡ in_order (unmarked marks.now ids.now ++ found_among f marks.now)) }
{
    let mut now = Vec::with_capacity(alloc, ids.len())?;
    push_unmarked(&mut now, ids, marks)?;
    push_found(&mut now, marks, read)?;
    sort_each_once(&mut now)?;
    Ok(now)
}

fn push_unmarked(now: &mut Vec<Id>, ids: &[Id], marks: &[Id]) -> Result<(), NoMemory>
    requires { Ascend marks.now }
    ensures { OnOk result (now.new.items ≡ now.old.items ++ unmarked marks.now ids.now) }
{
    for id in ids {
        if !is_marked(marks, id) {
            now.push(*id)?;
        }
    }
    Ok(())
}

// Adds the marked ids of which a record was read.
fn push_found(now: &mut Vec<Id>, marks: &[Id], read: &[Seen]) -> Result<(), NoMemory>
    ensures { OnOk result ((f : List ℕ → SeenLists) → read.now ≡ map f marks.now
        → now.new.items ≡ now.old.items ++ found_among f marks.now) }
{
    for (index, mark) in marks.iter().enumerate() {
        if is_found(read, index) {
            now.push(*mark)?;
        }
    }
    Ok(())
}

// Whether a record was read at an index.
fn is_found(read: &[Seen], index: usize) -> bool
    ensures { (other : SeenLists) → index < length read.now
        → result ≡ is_some (slice_index_or read.now index other).sysmod }
{
    match read.get(index) {
        Some(seen) => seen.sysmod.is_some(),
        None => false,
    }
}

/// Whether an id is marked.
pub fn is_marked(marks: &[Id], id: &Id) -> bool
    requires { Ascend marks.now }
    ensures { result ≡ has marks.now id.now }
{
    index_of(marks, id).is_some()
}

/// The entries of the listed ids that aren't marked.
pub(crate) fn unmarked_entries(
    alloc: Global,
    ids: &[Id],
    entries: Vec<Entry>,
    marks: &[Id],
) -> Result<Vec<Entry>, NoMemory>
    requires marks { Ascend marks.now }
    requires entries { length entries.items ≡ length ids.now }
    ensures { IfOk result (λ kept. (f : List ℕ → Sight) → SaysBut f marks.now ids.now entries.items
        → kept.items ≡ map f (unmarked marks.now ids.now)) }
{
    let mut kept = Vec::with_capacity(alloc, ids.len())?;
    for (index, entry) in entries.into_iter().enumerate() {
        if !is_marked(marks, &ids[index]) {
            kept.push(entry)?;
        }
    }
    Ok(kept)
}

/// The entries of those that were read and are catalogued.
pub(crate) fn found_entries(alloc: Global, mut read: Vec<Seen>) -> Result<Vec<Entry>, NoMemory>
    ensures { IfOk result (λ entries. entries.items ≡ map sight_seen (catalogued_among read.items)) }
{
    keep_catalogued(&mut read);
    let mut entries = Vec::with_capacity(alloc, read.len())?;
    push_entries(alloc, &mut entries, read)?;
    Ok(entries)
}

fn keep_catalogued(read: &mut Vec<Seen>)
    ensures { read.new.items ≡ catalogued_among read.old.items }
{
    read.retain(|seen| seen.sysmod.is_some());
}

/// Puts the entries of the marked ids and of the others together in the order of all.
pub(crate) fn woven(
    alloc: Global,
    ids: &[Id],
    marks: &[Id],
    kept: Vec<Entry>,
    found: Vec<Entry>,
) -> Result<Vec<Entry>, NoMemory>
    requires { Ascend marks.now }
    ensures len { IfOk result (λ entries. length entries.items ≡ length ids.now) }
    ensures entries { IfOk result (λ entries. (f : List ℕ → Sight)
        → kept.items ≡ map f (unmarked marks.now ids.now)
        → found.items ≡ map f (marked marks.now ids.now) → entries.items ≡ map f ids.now) }
{
    let mut entries = Vec::with_capacity(alloc, ids.len())?;
    let mut kept = kept.into_iter();
    let mut found = found.into_iter();
    for id in ids {
        if is_marked(marks, id) {
            entries.push(next_of(alloc, &mut found))?;
        } else {
            entries.push(next_of(alloc, &mut kept))?;
        }
    }
    Ok(entries)
}

// The next entry. If none is left, the one that it makes takes no memory either.
fn next_of(alloc: Global, entries: &mut IntoIter<Entry>) -> Entry
    ensures { (first : Sight) (rest : List Sight) → into_iter_items entries.old ≡ first ∷ rest
        → (result ≡ first) × (into_iter_items entries.new ≡ rest) }
{
    match entries.next() {
        Some(entry) => entry,
        None => Entry::unseen(alloc),
    }
}
