//! The members that are left when each one that another gives is left out.
ghost use Rattle.std.specs.Prelude.{◌≡◌, ◌==◌, IfOk};
ghost use Rattle.std.specs.List.{list_any};
ghost use Rattle.install_order.specs.Left as Left;
ghost use Rattle.install_order.specs.Left.{AreGivers, AreLeft, left_in};

use requisites::{NoMemory, Rows};
use std::alloc::Global;

/// Marks those of `len` nodes that are left: no other one outdoes them. `givers` has for each node all those that give
/// it. A node outdoes another that it gives; if each gives the other, the greater one does.
///
/// It takes time in proportion to the entries of the rows. For each node and each lesser node that gives it, it also
/// walks the row of that lesser one.
///
/// # Errors
///
/// `NoMemory` if memory ran out.
pub fn left_marks(alloc: Global, givers: &Rows, len: usize) -> Result<Vec<bool>, NoMemory>
    ensures marks { IfOk result (λ left. left.items ≡ left_in givers.now len) }
    ensures left { IfOk result (λ left. AreGivers givers.now len → AreLeft givers.now len left.items) }
{
    let mut left = Vec::with_capacity(alloc, len)?;
    for node in 0..len {
        left.push(!is_outdone(givers, node))?;
    }
    Ok(left)
}

fn is_outdone(givers: &Rows, node: usize) -> bool
    ensures { result ≡ Left.is_outdone givers.now node }
{
    givers
        .row(node)
        .iter()
        .any(|other| outdoes(givers, node, *other))
}

// Whether one that gives a node outdoes it.
fn outdoes(givers: &Rows, node: usize, other: usize) -> bool
    ensures { result ≡ Left.outdoes givers.now node other }
{
    other != node && (node < other || !is_in(givers.row(other), node))
}

fn is_in(row: &[usize], node: usize) -> bool
    ensures { result ≡ list_any (λ r. r == node) row.now }
{
    row.iter().any(|other| *other == node)
}
