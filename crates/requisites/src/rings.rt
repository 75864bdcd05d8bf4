//! Rings: nodes that supersede each other.
//!
//! No clause says that the rings found are right. Whoever closes the nodes of a ring together checks
//! first that they may be closed. Rings make that quick.
ghost use Rattle.std.specs.Prelude.{◌≡◌, ℕ, None, length, Contains, OnOk};
ghost use Rattle.std.specs.Bool.{OnTrue};
ghost use Rattle.requisites.specs.Good.{ComesNearer};
ghost use Rattle.requisites.specs.Sources.{source_of};

use crate::nodes::is_marked;
use crate::sources::{source_at, spread};
use crate::{NoMemory, Rows};
use std::alloc::Global;

/// Nodes in rings: nodes that lead to each other stand together, and any other node stands alone.
#[derive(Debug, Drop)]
pub(crate) struct Rings {
    // For each node the one that names its ring, and its index in the ring.
    named: Vec<usize>,
    at: Vec<usize>,
    // For each node the ring that it names.
    members: Vec<Vec<usize>>,
}

impl Rings {
    /// Each node alone.
    pub(crate) fn none(alloc: Global) -> Rings {
        Rings {
            named: Vec::new(alloc),
            at: Vec::new(alloc),
            members: Vec::new(alloc),
        }
    }

    /// Finds the rings of links, which are given both ways. It takes time in proportion to the links.
    pub(crate) fn of(alloc: Global, lists: &Rows, reversed: &Rows) -> Result<Rings, NoMemory> {
        let order = left_in_order(alloc, lists, reversed.len())?;
        let names = names_of(alloc, reversed, order)?;
        rings_by(alloc, &names)
    }

    /// The node that names the ring of a node.
    pub(crate) fn name_of(&self, node: usize) -> usize {
        self.named.get(node).copied().unwrap_or(node)
    }

    /// The ring of a node, or `alone` if the node stands alone.
    pub(crate) fn ring_of<'a>(&'a self, node: usize, alone: &'a [usize]) -> &'a [usize] {
        match self.members.get(self.name_of(node)) {
            Some(members) => members.as_slice(),
            None => alone,
        }
    }

    /// Whether a node stands in a ring. It looks at the index that the node has in its own.
    pub(crate) fn is_in(&self, ring: &[usize], node: usize) -> bool
        ensures { OnTrue result (Contains ring.now node) }
    {
        stands_at(ring, self.at.get(node).copied().unwrap_or(0), node)
    }
}

fn stands_at(ring: &[usize], at: usize, node: usize) -> bool
    ensures { OnTrue result (Contains ring.now node) }
{
    at < ring.len() && ring[at] == node
}

// A node that a walk comes to, or that it leaves.
#[derive(Clone, Copy, Debug)]
enum Step {
    Enter(usize),
    Leave(usize),
}

#[derive(Debug, Drop)]
struct Walk {
    unseen: Vec<bool>,
    work: Vec<Step>,
    order: Vec<usize>,
}

// The nodes in the order in which walks along the links leave them.
fn left_in_order(alloc: Global, lists: &Rows, len: usize) -> Result<Vec<usize>, NoMemory> {
    let mut walk = Walk {
        unseen: vec![in alloc; true; len]?,
        work: Vec::new(alloc),
        order: Vec::with_capacity(alloc, len)?,
    };
    for start in 0..len {
        walk_from(&mut walk, lists, start)?;
    }
    Ok(walk.order)
}

fn walk_from(walk: &mut Walk, lists: &Rows, start: usize) -> Result<(), NoMemory> {
    walk.work.push(Step::Enter(start))?;
    while let Some(step) = walk.work.pop() {
        take_step(walk, lists, step)?;
    }
    Ok(())
}

fn take_step(walk: &mut Walk, lists: &Rows, step: Step) -> Result<(), NoMemory>
    ensures { OnOk result (ComesNearer walk.old.unseen.items walk.new.unseen.items
        (length walk.old.work.items) (length walk.new.work.items)) }
{
    match step {
        Step::Enter(node) => enter(walk, lists, node),
        Step::Leave(node) => Ok(walk.order.push(node)?),
    }
}

fn enter(walk: &mut Walk, lists: &Rows, node: usize) -> Result<(), NoMemory>
    ensures { OnOk result (ComesNearer walk.old.unseen.items walk.new.unseen.items
        (length walk.old.work.items) (length walk.new.work.items)) }
{
    if is_marked(&walk.unseen, node) {
        walk.unseen[node] = false;
        put_steps(&mut walk.work, lists.row(node), node)?;
    }
    Ok(())
}

// Puts the nodes that are listed for a node to the work, to be entered before the node is left.
fn put_steps(work: &mut Vec<Step>, listed: &[usize], node: usize) -> Result<(), NoMemory> {
    work.push(Step::Leave(node))?;
    for below in listed {
        work.push(Step::Enter(*below))?;
    }
    Ok(())
}

// For each node the one that names its ring: of all that lead to it the last that was left.
fn names_of(
    alloc: Global,
    reversed: &Rows,
    order: Vec<usize>,
) -> Result<Vec<Option<usize>>, NoMemory> {
    let mut names = vec![in alloc; None; reversed.len()]?;
    spread_from_last(alloc, &mut names, reversed, order)?;
    Ok(names)
}

fn spread_from_last(
    alloc: Global,
    names: &mut [Option<usize>],
    reversed: &Rows,
    mut order: Vec<usize>,
) -> Result<(), NoMemory>
    requires { (q : ℕ) → source_of names.old q ≡ None }
{
    let mut work = Vec::new(alloc);
    while let Some(start) = order.pop() {
        spread(names, &mut work, reversed, start)?;
    }
    Ok(())
}

fn rings_by(alloc: Global, names: &[Option<usize>]) -> Result<Rings, NoMemory> {
    let mut rings = Rings {
        named: Vec::with_capacity(alloc, names.len())?,
        at: Vec::with_capacity(alloc, names.len())?,
        members: vec![in alloc; Vec::new(alloc); names.len()]?,
    };
    for node in 0..names.len() {
        add_member(&mut rings, node, source_at(names, node).unwrap_or(node))?;
    }
    Ok(rings)
}

fn add_member(rings: &mut Rings, node: usize, name: usize) -> Result<(), NoMemory> {
    rings.named.push(name)?;
    if name < rings.members.len() {
        rings.at.push(rings.members[name].len())?;
        rings.members[name].push(node)?;
    }
    Ok(())
}
