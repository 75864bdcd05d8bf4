//! Lets nodes fall with what they need: a quick way to all that isn't good.
//!
//! A ring of superseding closes if none of its nodes is left and no open node outside supersedes any of them. A node
//! that needs a closed one falls. Each fall and each closing wakes the nodes that it may concern, so the whole takes
//! time in proportion to the nodes and their links.
ghost use Rattle.std.specs.Prelude.{◌≡◌, ◌≤◌, ◌⊎◌, false, length, Contains, IfOk, OnOk};
ghost use Rattle.std.specs.Bool.{OnTrue};
ghost use Rattle.requisites.specs.Good.{AreAmong, AreClosedBut, AreMarksLeft, AreOpen, AreShutOff, AreUngiven, AreUnmarked, CanClose, ComesNearer, HasClosedNeed, IsShut, marked_count};
ghost use Rattle.requisites.specs.Nodes.{AreReversed, mark_of, row};

use crate::nodes::{Nodes, is_marked};
use crate::reversed::turned;
use crate::rings::Rings;
use crate::{NoMemory, Rows};
use std::alloc::Global;

/// The nodes that lead to each node: those that supersede it, and those that need it.
#[derive(Debug, Drop)]
pub(crate) struct Around {
    pub(crate) superseders: Rows,
    needed_by: Rows,
}

impl Around {
    pub(crate) fn of(alloc: Global, nodes: &Nodes) -> Result<Around, NoMemory>
        ensures { IfOk result (λ around.
            AreReversed nodes.now.supersedes (length nodes.now.candidates.items) around.superseders) }
    {
        let len = nodes.candidates.len();
        let superseders = turned(alloc, &nodes.supersedes, len)?;
        let needed_by = turned(alloc, &nodes.needs, len)?;
        Ok(Around {
            superseders,
            needed_by,
        })
    }
}

// The nodes that are open, the number of supports that keep each ring open, and the nodes to be looked at.
#[derive(Debug, Drop)]
struct Opening {
    open: Vec<bool>,
    supports: Vec<usize>,
    work: Vec<usize>,
}

/// Takes the marks from nodes that no plan holds.
pub(crate) fn cascade(
    alloc: Global,
    nodes: &Nodes,
    around: &Around,
    rings: &Rings,
    marks: &mut [bool],
) -> Result<(), NoMemory>
    requires left { AreMarksLeft nodes.now marks.old }
    requires superseders { AreReversed nodes.now.supersedes
        (length nodes.now.candidates.items) around.now.superseders }
    ensures left { OnOk result (AreMarksLeft nodes.now marks.new) }
    ensures fewer { OnOk result (marked_count marks.new ≤ marked_count marks.old) }
{
    let mut opening = Opening {
        open: vec![in alloc; true; marks.len()]?,
        supports: first_supports(alloc, around, rings, marks)?,
        work: Vec::new(alloc),
    };
    'first: for node in 0..marks.len() {
        look(nodes, around, rings, marks, &mut opening, node)?;
    }
    'rest: while let Some(node) = opening.work.pop() {
        look(nodes, around, rings, marks, &mut opening, node)?;
    }
    Ok(())
}

// For each ring, under the node that names it: the number of links by which nodes outside supersede one of it, and of
// its marked nodes.
fn first_supports(
    alloc: Global,
    around: &Around,
    rings: &Rings,
    marks: &[bool],
) -> Result<Vec<usize>, NoMemory> {
    let mut supports = vec![in alloc; 0; marks.len()]?;
    for node in 0..marks.len() {
        let name = rings.name_of(node);
        if is_marked(marks, node) {
            add_support(&mut supports, name);
        }
        support_from_outside(&mut supports, around, rings, name, node);
    }
    Ok(supports)
}

fn support_from_outside(
    supports: &mut [usize],
    around: &Around,
    rings: &Rings,
    name: usize,
    node: usize,
) {
    for above in around.superseders.row(node) {
        if rings.name_of(*above) != name {
            add_support(supports, name);
        }
    }
}

fn add_support(supports: &mut [usize], name: usize) {
    if name < supports.len() {
        supports[name] = supports[name].saturating_add(1);
    }
}

// Lets a node fall, and its ring close, if they have to.
fn look(
    nodes: &Nodes,
    around: &Around,
    rings: &Rings,
    marks: &mut [bool],
    opening: &mut Opening,
    node: usize,
) -> Result<(), NoMemory>
    requires left { AreMarksLeft nodes.now marks.old }
    requires opens { AreOpen nodes.now opening.old.open.items }
    requires superseders { AreReversed nodes.now.supersedes
        (length nodes.now.candidates.items) around.now.superseders }
    ensures left { AreMarksLeft nodes.now marks.new }
    ensures opens { AreOpen nodes.now opening.new.open.items }
    ensures fewer { marked_count marks.new ≤ marked_count marks.old }
    ensures nearer { OnOk result (ComesNearer opening.old.open.items opening.new.open.items
        (length opening.old.work.items) (length opening.new.work.items)) }
{
    fall(
        nodes,
        rings,
        &opening.open,
        marks,
        &mut opening.supports,
        node,
    );
    let alone = [node];
    let ring = rings.ring_of(node, &alone);
    if can_close(
        around,
        rings,
        marks,
        &opening.open,
        &opening.supports,
        ring,
        node,
    ) {
        opening.open[node] = false;
        close(nodes, around, rings, opening, ring)?;
    }
    Ok(())
}

// Takes the mark from a node if a need of it is closed and isn't there.
fn fall(
    nodes: &Nodes,
    rings: &Rings,
    opens: &[bool],
    marks: &mut [bool],
    supports: &mut [usize],
    node: usize,
)
    requires left { AreMarksLeft nodes.now marks.old }
    requires opens { AreOpen nodes.now opens.now }
    ensures left { AreMarksLeft nodes.now marks.new }
    ensures fewer { marked_count marks.new ≤ marked_count marks.old }
{
    if is_marked(marks, node) && has_closed_need(nodes, opens, node) {
        marks[node] = false;
        lose_support(supports, rings.name_of(node));
    }
}

fn has_closed_need(nodes: &Nodes, opens: &[bool], node: usize) -> bool
    ensures { OnTrue result (HasClosedNeed nodes.now opens.now node) }
{
    for need in nodes.needs_of(node) {
        if !nodes.is_there(*need) && !is_marked(opens, *need) {
            return true;
        }
    }
    false
}

// Whether nothing keeps the ring of an open node open.
fn can_close(
    around: &Around,
    rings: &Rings,
    marks: &[bool],
    opens: &[bool],
    supports: &[usize],
    ring: &[usize],
    node: usize,
) -> bool
    ensures { OnTrue result (CanClose around.now.superseders marks.now opens.now ring.now node) }
{
    supports.get(rings.name_of(node)).copied() == Some(0)
        && is_marked(opens, node)
        && rings.is_in(ring, node)
        && are_unmarked(marks, ring)
        && are_shut_off(around, rings, opens, ring)
}

fn are_unmarked(marks: &[bool], indices: &[usize]) -> bool
    ensures { OnTrue result (AreUnmarked marks.now indices.now) }
{
    for node in indices {
        if is_marked(marks, *node) {
            return false;
        }
    }
    true
}

// Whether each node that supersedes one of a ring is closed or in the ring.
fn are_shut_off(around: &Around, rings: &Rings, opens: &[bool], ring: &[usize]) -> bool
    ensures { OnTrue result (AreShutOff around.now.superseders opens.now ring.now ring.now) }
{
    for node in ring {
        if !are_closed_but(rings, opens, ring, around.superseders.row(*node)) {
            return false;
        }
    }
    true
}

fn are_closed_but(rings: &Rings, opens: &[bool], ring: &[usize], indices: &[usize]) -> bool
    ensures { OnTrue result (AreClosedBut opens.now ring.now indices.now) }
{
    for node in indices {
        if !is_closed_or_in(rings, opens, ring, *node) {
            return false;
        }
    }
    true
}

fn is_closed_or_in(rings: &Rings, opens: &[bool], ring: &[usize], node: usize) -> bool
    ensures { OnTrue result ((mark_of opens.now node ≡ false) ⊎ Contains ring.now node) }
{
    if !is_marked(opens, node) {
        return true;
    }
    rings.is_in(ring, node)
}

// Closes the nodes of a ring.
fn close(
    nodes: &Nodes,
    around: &Around,
    rings: &Rings,
    opening: &mut Opening,
    ring: &[usize],
) -> Result<(), NoMemory>
    requires ungiven { AreUngiven nodes.now ring.now }
    requires opens { AreOpen nodes.now opening.old.open.items }
    ensures opens { AreOpen nodes.now opening.new.open.items }
    ensures fewer { marked_count opening.new.open.items ≤ marked_count opening.old.open.items }
{
    for node in ring {
        shut(opening, *node);
        wake(
            nodes,
            around,
            rings,
            &mut opening.supports,
            &mut opening.work,
            *node,
        )?;
    }
    Ok(())
}

fn shut(opening: &mut Opening, node: usize)
    ensures { IsShut node opening.old.open.items opening.new.open.items }
{
    if is_marked(&opening.open, node) {
        opening.open[node] = false;
    }
}

// Puts the nodes that the closing of a node may concern to the work.
fn wake(
    nodes: &Nodes,
    around: &Around,
    rings: &Rings,
    supports: &mut [usize],
    work: &mut Vec<usize>,
    node: usize,
) -> Result<(), NoMemory>
    ensures needed { OnOk result (mark_of nodes.now.there.items node ≡ false
        → AreAmong (row around.now.needed_by node) work.new.items) }
{
    let name = rings.name_of(node);
    for below in nodes.supersedes.row(node) {
        let below_name = rings.name_of(*below);
        if below_name != name && lose_support(supports, below_name) {
            work.push(*below)?;
        }
    }
    if !nodes.is_there(node) {
        work.extend_from_slice(around.needed_by.row(node))?;
    }
    Ok(())
}

// Takes one support from a ring. Returns whether none is left.
fn lose_support(supports: &mut [usize], name: usize) -> bool {
    if name < supports.len() {
        supports[name] = supports[name].saturating_sub(1);
        return supports[name] == 0;
    }
    false
}
