//! Nodes that need one another.
ghost use Rattle.std.specs.Prelude.{ℕ, IfNone, IfOk, IfSome, length, Some};
ghost use Rattle.std.specs.Bool.{OnFalse, OnTrue};
ghost use Rattle.requisites.specs.Nodes.{AreReversed};
ghost use Rattle.requisites.specs.Sources.{HasSource};
ghost use Rattle.install_order.specs.Rings.{AreReached, IsAnyLeft, IsGreatestRoot, IsOnly, IsReached, IsRing, IsRoot};

use requisites::{NoMemory, Rows, is_marked, least_sources};
use std::alloc::Global;

/// Finds nodes that are left and need one another, and need no other node that is left.
///
/// For each node that is left it finds the source: the least node to which needs lead from it. Take the greatest node
/// that is its own source. The nodes to which it leads have no lesser source and no greater one, so all of them need it
/// too.
pub(crate) fn ring_of(
    alloc: Global,
    needs: &Rows,
    turned: &Rows,
    left: &[bool],
) -> Result<Vec<usize>, NoMemory>
    requires turned { AreReversed needs.now (length left.now) turned.now }
    requires any { IsAnyLeft left.now }
    ensures { IfOk result (λ ring. IsRing needs.now left.now ring.items) }
{
    let least = least_sources(alloc, turned, left)?;
    let Some(root) = greatest_root(left, &least) else {
        unreachable!()
    };
    let only = only_one(alloc, left.len(), root)?;
    let reached = least_sources(alloc, needs, &only)?;
    left_with_source(alloc, left, &reached)
}

// The greatest node that is left and its own source.
fn greatest_root(left: &[bool], sources: &[Option<usize>]) -> Option<usize>
    ensures some { IfSome result (λ root. IsGreatestRoot left.now sources.now root) }
    ensures none { IfNone result ((q : ℕ) → IsRoot left.now sources.now q → ⊥) }
{
    let mut greatest = None;
    for node in 0..left.len() {
        if is_root(left, sources, node) {
            greatest = Some(node);
        }
    }
    greatest
}

fn is_root(left: &[bool], sources: &[Option<usize>], node: usize) -> bool
    ensures yes { OnTrue result (IsRoot left.now sources.now node) }
    ensures no { OnFalse result (IsRoot left.now sources.now node → ⊥) }
{
    is_marked(left, node) && sources.get(node).copied().flatten() == Some(node)
}

// The marks of one node alone.
fn only_one(alloc: Global, len: usize, node: usize) -> Result<Vec<bool>, NoMemory>
    ensures { IfOk result (λ marks. IsOnly len node marks.items) }
{
    let mut marks = vec![in alloc; false; len]?;
    if node < len {
        marks[node] = true;
    }
    Ok(marks)
}

// The nodes that are left and have a source, ascending.
fn left_with_source(
    alloc: Global,
    left: &[bool],
    sources: &[Option<usize>],
) -> Result<Vec<usize>, NoMemory>
    ensures { IfOk result (λ nodes. AreReached left.now sources.now (length left.now) nodes.items) }
{
    let mut nodes = Vec::new(alloc);
    for node in 0..left.len() {
        if is_reached(left, sources, node) {
            nodes.push(node)?;
        }
    }
    Ok(nodes)
}

fn is_reached(left: &[bool], sources: &[Option<usize>], node: usize) -> bool
    ensures yes { OnTrue result (IsReached left.now sources.now node) }
    ensures no { OnFalse result (IsReached left.now sources.now node → ⊥) }
{
    is_marked(left, node) && has_source(sources, node)
}

fn has_source(sources: &[Option<usize>], node: usize) -> bool
    ensures yes { OnTrue result (HasSource sources.now node) }
    ensures no { OnFalse result (HasSource sources.now node → ⊥) }
{
    match sources.get(node).copied().flatten() {
        Some(_) => true,
        None => false,
    }
}
