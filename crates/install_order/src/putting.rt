//! Rings in the order in which they can be installed.
ghost use Rattle.std.specs.Prelude.{◌<◌, ℕ, Contains, IfOk, OnOk, length};
ghost use Rattle.std.specs.Bool.{OnFalse, OnTrue};
ghost use Rattle.requisites.specs.Good.{marked_count};
ghost use Rattle.requisites.specs.Nodes.{AreReversed, IsMarked, row};
ghost use Rattle.install_order.specs.Rings.{AreRings, AreTakenOut, AreTied, Goes, IsAnyLeft, IsOfRing, IsRing};
ghost use Rattle.install_order.specs.Steps.{IsClosed};

use crate::rings::ring_of;
use crate::search::found_rings;
use crate::ties::Ties;
use requisites::{NoMemory, Rows, is_marked, turned};
use std::alloc::Global;

/// Puts the marked nodes in rings: nodes that need one another stand together, and each need of a ring is in it or in
/// one before it.
///
/// One search finds the rings in this order, and each is checked before it is put. If any nodes were left, a search
/// for each ring would put them.
pub(crate) fn rings_in_order(
    alloc: Global,
    needs: &Rows,
    members: &[bool],
) -> Result<Rows, NoMemory>
    requires { IsClosed needs.now members.now }
    ensures { IfOk result (λ rings. AreRings needs.now members.now rings) }
{
    let mut left = Vec::from_slice(alloc, members)?;
    let mut rings = Rows::new(alloc);
    put_rings(alloc, needs, &mut left, &mut rings)?;
    Ok(rings)
}

fn put_rings(
    alloc: Global,
    needs: &Rows,
    left: &mut [bool],
    rings: &mut Rows,
) -> Result<(), NoMemory>
    ensures goes { OnOk result (Goes needs.now left.old left.new rings.old rings.new) }
    ensures none { OnOk result (IsAnyLeft left.new → ⊥) }
{
    put_found(alloc, needs, left, rings)?;
    put_all(alloc, needs, left, rings)
}

// Puts those of the rings found that may be put, each after the ones before it.
fn put_found(
    alloc: Global,
    needs: &Rows,
    left: &mut [bool],
    rings: &mut Rows,
) -> Result<(), NoMemory>
    ensures { OnOk result (Goes needs.now left.old left.new rings.old rings.new) }
{
    let found = found_rings(alloc, needs, left)?;
    let ties = Ties::of(alloc, needs, &found, left.len())?;
    for index in 0..found.len() {
        put_if_ring(needs, &ties, left, rings, found.row(index))?;
    }
    Ok(())
}

fn put_if_ring(
    needs: &Rows,
    ties: &Ties,
    left: &mut [bool],
    rings: &mut Rows,
    ring: &[usize],
) -> Result<(), NoMemory>
    requires { AreTied needs.now (length left.old) ties.now.from.items ties.now.to.items }
    ensures { OnOk result (Goes needs.now left.old left.new rings.old rings.new) }
{
    if is_ring(needs, ties, left, ring) {
        rings.push_row(ring)?;
        take_out(left, ring);
    }
    Ok(())
}

// Whether nodes are left, need one another, and need no other node that is left.
fn is_ring(needs: &Rows, ties: &Ties, left: &[bool], ring: &[usize]) -> bool
    requires { AreTied needs.now (length left.now) ties.now.from.items ties.now.to.items }
    ensures { OnTrue result (IsRing needs.now left.now ring.now) }
{
    if ring.is_empty() {
        return false;
    }
    are_of_ring(needs, ties, left, ring, ring[0])
}

fn are_of_ring(needs: &Rows, ties: &Ties, left: &[bool], ring: &[usize], first: usize) -> bool
    requires { AreTied needs.now (length left.now) ties.now.from.items ties.now.to.items }
    ensures { OnTrue result ((p : ℕ) → Contains ring.now p → IsOfRing needs.now left.now ring.now first p) }
{
    for node in ring {
        if !is_of_ring(needs, ties, left, ring, first, *node) {
            return false;
        }
    }
    true
}

fn is_of_ring(
    needs: &Rows,
    ties: &Ties,
    left: &[bool],
    ring: &[usize],
    first: usize,
    node: usize,
) -> bool
    requires { AreTied needs.now (length left.now) ties.now.from.items ties.now.to.items }
    ensures { OnTrue result (IsOfRing needs.now left.now ring.now first node) }
{
    is_marked(left, node)
        && ties.is_tied(first, node)
        && are_in_or_put(needs.row(node), ties, left, ring)
}

// Whether those of a row that are left are in a ring.
fn are_in_or_put(row: &[usize], ties: &Ties, left: &[bool], ring: &[usize]) -> bool
    ensures { OnTrue result
        ((q : ℕ) → Contains row.now q → IsMarked left.now q → Contains ring.now q) }
{
    for need in row {
        if is_marked(left, *need) && !ties.is_in(ring, *need) {
            return false;
        }
    }
    true
}

// Puts all nodes that are left, by a search for each ring.
fn put_all(alloc: Global, needs: &Rows, left: &mut [bool], rings: &mut Rows) -> Result<(), NoMemory>
    ensures goes { OnOk result (Goes needs.now left.old left.new rings.old rings.new) }
    ensures none { OnOk result (IsAnyLeft left.new → ⊥) }
{
    let turned = turned(alloc, needs, left.len())?;
    'rings: while is_any_left(left) {
        put_next(alloc, needs, &turned, left, rings)?;
    }
    Ok(())
}

fn is_any_left(left: &[bool]) -> bool
    ensures yes { OnTrue result (IsAnyLeft left.now) }
    ensures no { OnFalse result (IsAnyLeft left.now → ⊥) }
{
    for index in 0..left.len() {
        if is_marked(left, index) {
            return true;
        }
    }
    false
}

// Puts nodes that need one another, and need no other node that is left.
fn put_next(
    alloc: Global,
    needs: &Rows,
    turned: &Rows,
    left: &mut [bool],
    rings: &mut Rows,
) -> Result<(), NoMemory>
    requires turned { AreReversed needs.now (length left.old) turned.now }
    requires any { IsAnyLeft left.old }
    ensures goes { OnOk result (Goes needs.now left.old left.new rings.old rings.new) }
    ensures fewer { OnOk result (marked_count left.new < marked_count left.old) }
{
    let ring = ring_of(alloc, needs, turned, left)?;
    rings.push_row(&ring)?;
    take_out(left, &ring);
    Ok(())
}

fn take_out(left: &mut [bool], nodes: &[usize])
    ensures { AreTakenOut nodes.now left.old left.new }
{
    for node in nodes {
        if is_marked(left, *node) {
            left[*node] = false;
        }
    }
}
