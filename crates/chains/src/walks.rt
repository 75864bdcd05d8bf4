//! Walks by rows of indices, many after one another over the same indices.
ghost use Rattle.std.specs.Prelude.{◌≡◌, ◌<◌, ◌≤◌, ◌↔◌, ℕ, [], ◌∷◌, Contains, IfOk, OnOk, length, slice_index};
ghost use Rattle.requisites.specs.Leads.{Leads};
ghost use Rattle.requisites.specs.Nodes.{Links};
ghost use Rattle.chains.specs.Climbs.{AreTaken};

use mcs_reader::NoMemory;
use requisites::Rows;
use std::alloc::Global;

/// Walks that have numbers. A walk costs as much as the indices that it comes to, and nothing for the others.
#[derive(Debug, Drop)]
pub(crate) struct Walks {
    // For each index the number of the last walk that came to it.
    seen: Vec<usize>,
    // The indices to which the last walk came.
    order: Vec<usize>,
}

impl Walks {
    /// No walks yet, over so many indices.
    pub(crate) fn over(alloc: Global, len: usize) -> Result<Walks, NoMemory>
        ensures len { IfOk result (λ walks. length walks.seen.items ≡ len) }
        ensures fresh { IfOk result (λ walks. (q : ℕ) → slice_index walks.seen.items q ≡ 0) }
    {
        Ok(Walks {
            seen: vec![in alloc; 0; len]?,
            order: Vec::new(alloc),
        })
    }

    /// The indices to which the last walk came, each once.
    pub(crate) fn indices(&self) -> &[usize]
        ensures { result.now ≡ self.now.order.items }
    {
        self.order.as_slice()
    }

    /// Walks from an index to all to which rows lead, itself among them. The number `turn` is higher than those
    /// of the walks before.
    pub(crate) fn walk(&mut self, rows: &Rows, turn: usize, start: usize) -> Result<(), NoMemory>
        requires fresh { (q : ℕ) → slice_index self.old.seen.items q < turn }
        requires start { start < length self.old.seen.items }
        ensures each { OnOk result ((q : ℕ) → Contains self.new.order.items q
            ↔ Leads (Links rows.now (length self.old.seen.items)) start q) }
        ensures bound { OnOk result ((q : ℕ) → slice_index self.new.seen.items q ≤ turn) }
        ensures len { OnOk result (length self.new.seen.items ≡ length self.old.seen.items) }
    {
        self.order.clear();
        self.take(turn, start)?;
        let mut at = 0;
        while at < self.order.len() {
            let next = self.order[at];
            at += 1;
            self.take_row(turn, rows.row(next))?;
        }
        Ok(())
    }

    // Comes to each index of a row to which the walk has not come.
    fn take_row(&mut self, turn: usize, row: &[usize]) -> Result<(), NoMemory>
        ensures { OnOk result (AreTaken turn row.now self.old.seen.items self.new.seen.items
            self.old.order.items self.new.order.items) }
    {
        for index in row {
            self.take(turn, *index)?;
        }
        Ok(())
    }

    fn take(&mut self, turn: usize, index: usize) -> Result<(), NoMemory>
        ensures { OnOk result (AreTaken turn (index ∷ []) self.old.seen.items self.new.seen.items
            self.old.order.items self.new.order.items) }
    {
        if index < self.seen.len() && self.seen[index] != turn {
            self.seen[index] = turn;
            self.order.push(index)?;
        }
        Ok(())
    }
}
