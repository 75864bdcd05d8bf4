//! Rows of nodes, in one list.
ghost use Rattle.std.specs.Prelude.{◌≡◌, ◌≤◌, ◌<◌, ◌+◌, ◌++◌, [], ◌∷◌, length, replicate, slice_index, slice_set, IfOk, OnErr, OnOk};
ghost use Rattle.std.specs.List.{concat, slice_range};
ghost use Rattle.requisites.specs.Nodes.{row};
ghost use Rattle.requisites.specs.Rows.{blank_rows, start_at};

use crate::NoMemory;
use std::alloc::Global;
use std::marker::Model;

/// For each node a row of nodes, all of them in one list. A contract sees the list of the rows.
#[derive(Debug, Drop)]
pub struct Rows {
    // The entries of all rows, and the index at which each row ends among them and the next one starts.
    entries: Vec<usize>,
    ends: Vec<u32>,
}

impl Model for Rows {
    ghost use Rattle.std.specs.Prelude.{ℕ, List, length};
    ghost use Rattle.requisites.specs.Rows.{AreEnds, rows_from};

    ghost Value = { List (List ℕ) };

    ghost view = { λ rows. rows_from rows.entries.items 0 rows.ends.items };

    ghost invariant = { λ rows. AreEnds 0 rows.ends.items (length rows.entries.items) };
}

impl Rows {
    /// No rows.
    pub fn new(alloc: Global) -> Self
        ensures { result ≡ [] }
    {
        Rows {
            entries: Vec::new(alloc),
            ends: Vec::new(alloc),
        }
    }

    /// No rows yet, with room for so many rows and so many entries in all.
    ///
    /// # Errors
    ///
    /// `NoMemory` if memory ran out.
    pub fn with_room(alloc: Global, rows: usize, entries: usize) -> Result<Self, NoMemory>
        ensures { IfOk result (λ none. none ≡ []) }
    {
        Ok(Rows {
            entries: Vec::with_capacity(alloc, entries)?,
            ends: Vec::with_capacity(alloc, rows)?,
        })
    }

    /// The number of rows.
    pub fn len(&self) -> usize
        ensures { result ≡ length self.now }
    {
        self.ends.len()
    }

    /// The row of a node. It has no entries if there are fewer rows.
    pub fn row(&self, node: usize) -> &[usize]
        ensures { result.now ≡ row self.now node }
    {
        if node >= self.ends.len() {
            return &[];
        }
        let start = start_of(&self.ends, node);
        let end = end_of(&self.ends, node);
        between(&self.entries, start, end)
    }

    /// Puts a row after the others.
    ///
    /// # Errors
    ///
    /// `NoMemory` if memory ran out, or all rows would have over 4,294,967,295 entries. The rows are as they were.
    pub fn push_row(&mut self, row: &[usize]) -> Result<(), NoMemory>
        ensures rows { OnOk result (self.new ≡ self.old ++ row.now ∷ []) }
        ensures err { OnErr result (self.new ≡ self.old) }
    {
        let end = end_with(&self.entries, row)?;
        self.ends.reserve(1)?;
        self.entries.extend_from_slice(row)?;
        match self.ends.push(end) {
            Ok(()) => Ok(()),
            Err(_) => unreachable!(),
        }
    }

    /// The entries of all rows, one row after the other.
    pub(crate) fn all(&self) -> &[usize]
        ensures { result.now ≡ concat self.now }
    {
        &self.entries
    }

    /// For each count a row of so many nodes 0, for `put` to fill. It takes just the room that they need.
    pub(crate) fn blank(alloc: Global, counts: &[usize]) -> Result<Self, NoMemory>
        ensures { IfOk result (λ rows. rows ≡ blank_rows counts.now) }
    {
        let mut entries = Vec::with_capacity(alloc, total(counts))?;
        let mut ends = Vec::with_capacity(alloc, counts.len())?;
        for count in counts {
            push_blanks(&mut entries, *count)?;
            let end = end_with(&entries, &[])?;
            ends.push(end)?;
        }
        Ok(Rows { entries, ends })
    }

    /// Replaces the entry at an index of a node's row.
    pub(crate) fn put(&mut self, node: usize, at: usize, entry: usize)
        requires node { node < length self.old }
        requires at { at < length (row self.old node) }
        ensures { self.new ≡ slice_set self.old node (slice_set (row self.old node) at entry) }
    {
        let start = start_of(&self.ends, node);
        self.entries[start + at] = entry;
    }

    /// Gives back the room that the rows don't need.
    pub fn shrink_to_fit(&mut self)
        ensures { self.new ≡ self.old }
    {
        self.entries.shrink_to_fit();
        self.ends.shrink_to_fit();
    }

    /// Copies the rows.
    ///
    /// # Errors
    ///
    /// `NoMemory` if memory ran out.
    pub fn copy(&self) -> Result<Self, NoMemory>
        ensures { IfOk result (λ copy. copy ≡ self.now) }
    {
        Ok(Rows {
            entries: self.entries.clone()?,
            ends: self.ends.clone()?,
        })
    }
}

// The room that rows of these lengths need.
fn total(counts: &[usize]) -> usize {
    let mut total = 0usize;
    for count in counts {
        total = total.saturating_add(*count);
    }
    total
}

// Adds so many nodes 0.
fn push_blanks(entries: &mut Vec<usize>, count: usize) -> Result<(), NoMemory>
    ensures { OnOk result (entries.new.items ≡ entries.old.items ++ replicate count 0) }
{
    for _ in 0..count {
        entries.push(0)?;
    }
    Ok(())
}

// The end of a row that is put after these entries.
fn end_with(entries: &[usize], row: &[usize]) -> Result<u32, NoMemory>
    ensures { IfOk result (λ end. end ≡ length entries.now + length row.now) }
{
    let Some(end) = entries.len().checked_add(row.len()) else {
        return Err(NoMemory);
    };
    match u32::try_from(end) {
        Ok(end) => Ok(end),
        Err(_) => Err(NoMemory),
    }
}

// The index at which the row of a node starts.
fn start_of(ends: &[u32], node: usize) -> usize
    requires { node < length ends.now }
    ensures { result ≡ start_at 0 ends.now node }
{
    if node == 0 {
        return 0;
    }
    ends[node - 1] as usize
}

// The index at which it ends.
fn end_of(ends: &[u32], node: usize) -> usize
    requires { node < length ends.now }
    ensures { result ≡ slice_index ends.now node }
{
    ends[node] as usize
}

fn between(entries: &[usize], start: usize, end: usize) -> &[usize]
    requires start { start ≤ end }
    requires end { end ≤ length entries.now }
    ensures { result.now ≡ slice_range entries.now start end }
{
    &entries[start..end]
}
