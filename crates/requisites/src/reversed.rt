//! Links the other way round.
ghost use Rattle.std.specs.Prelude.{◌≡◌, ◌<◌, ◌≤◌, ℕ, [], ◌∷◌, Contains, length, slice_index, IfOk};
ghost use Rattle.requisites.specs.Nodes.{AreReversed, row};
ghost use Rattle.requisites.specs.Reversed.{AreTaken, HavePlaces, RowAdded, filled, times, times_in};

use crate::{NoMemory, Rows};
use std::alloc::Global;

/// Lists for each of `len` nodes those whose rows list it.
///
/// It takes time in proportion to the nodes and the links. It takes room for the rows that it makes, and for
/// one number more for each node.
///
/// # Errors
///
/// `NoMemory` if memory ran out.
pub fn turned(alloc: Global, lists: &Rows, len: usize) -> Result<Rows, NoMemory>
    ensures { IfOk result (λ reversed. AreReversed lists.now len reversed) }
{
    let mut left = counts(alloc, lists.all(), len)?;
    let mut rows = Rows::blank(alloc, &left)?;
    fill(lists, &mut rows, &mut left);
    Ok(rows)
}

// The number of times that each of so many nodes is listed.
fn counts(alloc: Global, listed: &[usize], len: usize) -> Result<Vec<usize>, NoMemory>
    ensures len { IfOk result (λ counts. length counts.items ≡ len) }
    ensures times { IfOk result (λ counts.
        (q : ℕ) → q < len → slice_index counts.items q ≡ times listed.now q) }
{
    let mut counts = vec![in alloc; 0; len]?;
    for node in listed {
        if *node < counts.len() {
            counts[*node] += 1;
        }
    }
    Ok(counts)
}

// Fills rows from their ends. `left` has the number of entries that each row has yet to get.
fn fill(lists: &Rows, rows: &mut Rows, left: &mut [usize])
    requires places { HavePlaces left.old rows.old }
    requires as_many { (q : ℕ) → q < length left.old → slice_index left.old q ≡ times_in lists.now q }
    requires none { (q p : ℕ) → Contains (row (filled left.old rows.old) q) p → ⊥ }
    ensures { AreReversed lists.now (length left.old) rows.new }
{
    for node in 0..lists.len() {
        put_row(rows, left, lists.row(node), node);
    }
}

// Puts a node into the row of each node that its own row lists.
fn put_row(rows: &mut Rows, left: &mut [usize], listed: &[usize], node: usize)
    requires places { HavePlaces left.old rows.old }
    requires room { (q : ℕ) → q < length left.old → times listed.now q ≤ slice_index left.old q }
    ensures places { HavePlaces left.new rows.new }
    ensures taken { AreTaken listed.now left.old left.new }
    ensures added { RowAdded listed.now node (filled left.old rows.old) (filled left.new rows.new) }
{
    for below in listed {
        put(rows, left, *below, node);
    }
}

// Puts a node at the last index of a row that is left.
fn put(rows: &mut Rows, left: &mut [usize], below: usize, node: usize)
    requires places { HavePlaces left.old rows.old }
    requires room { (q : ℕ) → q < length left.old → times (below ∷ []) q ≤ slice_index left.old q }
    ensures places { HavePlaces left.new rows.new }
    ensures taken { AreTaken (below ∷ []) left.old left.new }
    ensures added { RowAdded (below ∷ []) node (filled left.old rows.old) (filled left.new rows.new) }
{
    if below < left.len() {
        left[below] -= 1;
        rows.put(below, left[below], node);
    }
}
