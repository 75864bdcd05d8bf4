//! The ties of a ring: needs that lead from its first node to each other one, and back.
ghost use Rattle.std.specs.Prelude.{◌≡◌, ℕ, Contains, IfOk, OnOk, length};
ghost use Rattle.std.specs.Bool.{OnTrue};
ghost use Rattle.requisites.specs.Nodes.{row};
ghost use Rattle.install_order.specs.Rings.{AreTied, AreWithin, IsTied};

use crate::search::{set_mark, set_number};
use requisites::{NoMemory, Rows, least_sources, turned};
use std::alloc::Global;

/// The ties of nodes to the first of their ring. For each node: its place in its ring; a node that leads to it and one
/// to which it leads, if it is in a real ring.
#[derive(Debug, Drop)]
pub(crate) struct Ties {
    places: Vec<usize>,
    pub(crate) from: Vec<Option<usize>>,
    pub(crate) to: Vec<Option<usize>>,
}

impl Ties {
    /// Finds the ties within rings that were found. It takes time in proportion to the nodes and the links.
    pub(crate) fn of(
        alloc: Global,
        needs: &Rows,
        rings: &Rows,
        len: usize,
    ) -> Result<Ties, NoMemory>
        ensures { IfOk result (λ ties. AreTied needs.now len ties.from.items ties.to.items) }
    {
        let names = Names::of(alloc, rings, len)?;
        let within = rows_within(alloc, needs, &names.names)?;
        let from = least_sources(alloc, &within, &names.firsts)?;
        let back = turned(alloc, &within, len)?;
        let to = least_sources(alloc, &back, &names.firsts)?;
        Ok(Ties {
            places: names.places,
            from,
            to,
        })
    }

    /// Whether needs lead from one node to another, and back. It may not know of some.
    pub(crate) fn is_tied(&self, first: usize, node: usize) -> bool
        ensures { OnTrue result (IsTied self.now.from.items self.now.to.items first node) }
    {
        self.from.get(node).copied().flatten() == Some(first)
            && self.to.get(node).copied().flatten() == Some(first)
    }

    /// Whether a node is in a ring. It looks at the place that the node has in its own.
    pub(crate) fn is_in(&self, ring: &[usize], node: usize) -> bool
        ensures { OnTrue result (Contains ring.now node) }
    {
        stands_at(ring, self.places.get(node).copied().unwrap_or(0), node)
    }
}

fn stands_at(ring: &[usize], at: usize, node: usize) -> bool
    ensures { OnTrue result (Contains ring.now node) }
{
    at < ring.len() && ring[at] == node
}

// The first node of each node's ring, its place there, and the marks of the first ones.
#[derive(Debug, Drop)]
struct Names {
    names: Vec<usize>,
    places: Vec<usize>,
    firsts: Vec<bool>,
}

impl Names {
    fn of(alloc: Global, rings: &Rows, len: usize) -> Result<Names, NoMemory>
        ensures { IfOk result (λ names. length names.firsts.items ≡ len) }
    {
        let mut names = vec![in alloc; 0; len]?;
        let mut places = vec![in alloc; 0; len]?;
        let mut firsts = vec![in alloc; false; len]?;
        name_all(rings, &mut names, &mut places, &mut firsts);
        Ok(Names {
            names,
            places,
            firsts,
        })
    }
}

fn name_all(rings: &Rows, names: &mut [usize], places: &mut [usize], firsts: &mut [bool])
    ensures { length firsts.new ≡ length firsts.old }
{
    for index in 0..rings.len() {
        name_ring(rings.row(index), names, places, firsts);
    }
}

// Names the nodes of a ring after its first, which is marked.
fn name_ring(ring: &[usize], names: &mut [usize], places: &mut [usize], firsts: &mut [bool])
    ensures { length firsts.new ≡ length firsts.old }
{
    if let Some(first) = ring.first() {
        set_mark(firsts, *first, true);
        for (at, node) in ring.iter().enumerate() {
            set_number(names, *node, *first);
            set_number(places, *node, at);
        }
    }
}

// For each node those of its needs that have its name.
fn rows_within(alloc: Global, needs: &Rows, names: &[usize]) -> Result<Rows, NoMemory>
    ensures { IfOk result (λ within. AreWithin needs.now within) }
{
    let mut within = Rows::new(alloc);
    let mut own = Vec::new(alloc);
    for node in 0..needs.len() {
        put_alike(&mut own, needs.row(node), names, node)?;
        within.push_row(&own)?;
    }
    Ok(within)
}

// Turns a list into that of the nodes of a row that have the name of a node.
fn put_alike(
    own: &mut Vec<usize>,
    row: &[usize],
    names: &[usize],
    node: usize,
) -> Result<(), NoMemory>
    ensures { OnOk result ((q : ℕ) → Contains own.new.items q → Contains row.now q) }
{
    own.clear();
    for need in row {
        if is_named_as(names, *need, node) {
            own.push(*need)?;
        }
    }
    Ok(())
}

fn is_named_as(names: &[usize], node: usize, other: usize) -> bool {
    node < names.len() && other < names.len() && names[node] == names[other]
}
