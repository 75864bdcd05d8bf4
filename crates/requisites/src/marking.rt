//! Nodes that are marked, in the order in which they came.
ghost use Rattle.std.specs.Prelude.{◌≡◌, ◌↔◌, false, [], ◌∷◌, ℕ, Contains, IfOk, OnOk, replicate};
ghost use Rattle.std.specs.List.Sorted.{IsStrictlyIncreasing};
ghost use Rattle.requisites.specs.Marking.{AreMarked};
ghost use Rattle.requisites.specs.Nodes.{IsMarked};

use crate::NoMemory;
use crate::nodes::is_marked;
use std::alloc::Global;

/// Some of so many nodes. Each comes once.
#[derive(Debug, Drop)]
pub(crate) struct Marked {
    marks: Vec<bool>,
    /// The nodes that are marked, in the order in which they came.
    pub(crate) order: Vec<usize>,
}

impl Marked {
    /// None of so many nodes.
    pub(crate) fn none(alloc: Global, len: usize) -> Result<Marked, NoMemory>
        ensures marks { IfOk result (λ marked. marked.marks.items ≡ replicate len false) }
        ensures order { IfOk result (λ marked. marked.order.items ≡ []) }
    {
        Ok(Marked {
            marks: vec![in alloc; false; len]?,
            order: Vec::new(alloc),
        })
    }

    /// Marks each node of a row that has no mark, and puts it at the end of the order.
    pub(crate) fn mark_row(&mut self, row: &[usize]) -> Result<(), NoMemory>
        ensures { OnOk result (AreMarked row.now self.old.marks.items self.new.marks.items
            self.old.order.items self.new.order.items) }
    {
        for node in row {
            self.mark(*node)?;
        }
        Ok(())
    }

    /// The same for one node. An index past the end of the marks is no node.
    pub(crate) fn mark(&mut self, node: usize) -> Result<(), NoMemory>
        ensures { OnOk result (AreMarked (node ∷ []) self.old.marks.items self.new.marks.items
            self.old.order.items self.new.order.items) }
    {
        if node < self.marks.len() && !self.marks[node] {
            self.marks[node] = true;
            self.order.push(node)?;
        }
        Ok(())
    }

    /// The nodes that are marked, ascending.
    pub(crate) fn ascending(&self, alloc: Global) -> Result<Vec<usize>, NoMemory>
        ensures marked { IfOk result
            (λ indices. (p : ℕ) → Contains indices.items p ↔ IsMarked self.now.marks.items p) }
        ensures ascends { IfOk result (λ indices. IsStrictlyIncreasing indices.items) }
    {
        let mut indices = Vec::with_capacity(alloc, self.order.len())?;
        for node in 0..self.marks.len() {
            if is_marked(&self.marks, node) {
                indices.push(node)?;
            }
        }
        Ok(indices)
    }
}
