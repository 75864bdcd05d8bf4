//! Finds the good nodes.
ghost use Rattle.std.specs.Prelude.{◌≡◌, ◌⊎◌, [], ◌∷◌, length, min, IfNone, IfOk, IfSome};
ghost use Rattle.std.specs.Bool.{OnFalse, OnTrue};
ghost use Rattle.std.specs.Option.{option_map_or};
ghost use Rattle.requisites.specs.Good.{AreGood, AreMarksLeft, AreMet, AreSwept, HasOpenNeed, IsLeastOpen, IsOpenNeed};
ghost use Rattle.requisites.specs.Nodes.{IsMarked, mark_of, row};
ghost use Rattle.requisites.specs.Sources.{HasSource, source_of};

use crate::NoMemory;
use crate::cascade::{Around, cascade};
use crate::nodes::{Nodes, is_marked};
use crate::rings::Rings;
use crate::sources::{least_sources, source_at};
use std::alloc::Global;

/// The good nodes, and the least of them that gives each node.
#[derive(Debug, Drop)]
pub struct Resolution {
    /// Whether some plan holds the node.
    pub good: Vec<bool>,
    /// The least good node that gives the node.
    pub givers: Vec<Option<usize>>,
}

impl Resolution {
    pub(crate) fn is_good(&self, node: usize) -> bool
        ensures { result ≡ mark_of self.now.good.items node }
    {
        is_marked(&self.good, node)
    }

    pub(crate) fn giver(&self, need: usize) -> Option<usize>
        ensures { result ≡ source_of self.now.givers.items need }
    {
        source_at(&self.givers, need)
    }
}

/// Finds the good nodes. It takes away each node with a need that isn't there and that no node left gives, until there
/// is no such node.
///
/// # Errors
///
/// `NoMemory` if memory ran out.
pub fn resolve(alloc: Global, nodes: &Nodes) -> Result<Resolution, NoMemory>
    ensures good { IfOk result (λ found. AreGood nodes.now found.good.items found.givers.items) }
    ensures len { IfOk result (λ found. length found.givers.items ≡ length nodes.now.candidates.items) }
{
    let mut good = Vec::from_slice(alloc, &nodes.candidates)?;
    let givers = fall(alloc, nodes, &mut good)?;
    Ok(Resolution { good, givers })
}

// The number of rounds over all nodes before the links to each node are made. Most needs that nothing gives are a few
// steps away from what falls with them. So mostly nothing falls any more after two or three rounds.
const ROUNDS: usize = 8;

// Takes the marks from nodes that aren't good, and finds the givers among the rest. If nothing falls after a few
// rounds, it doesn't make the links to each node, which would take room.
fn fall(alloc: Global, nodes: &Nodes, marks: &mut [bool]) -> Result<Vec<Option<usize>>, NoMemory>
    requires { marks.old ≡ nodes.now.candidates.items }
    ensures good { IfOk result (λ givers. AreGood nodes.now marks.new givers.items) }
    ensures len { IfOk result (λ givers. length givers.items ≡ length marks.old) }
{
    'rounds: for _ in 0..ROUNDS {
        let givers = least_sources(alloc, &nodes.supersedes, marks)?;
        if !sweep(nodes, &givers, marks) {
            return Ok(givers);
        }
    }
    fall_on(alloc, nodes, marks)
}

// The same after some have lost their marks: all that falls with them falls in a cascade.
fn fall_on(alloc: Global, nodes: &Nodes, marks: &mut [bool]) -> Result<Vec<Option<usize>>, NoMemory>
    requires { AreMarksLeft nodes.now marks.old }
    ensures good { IfOk result (λ givers. AreGood nodes.now marks.new givers.items) }
    ensures len { IfOk result (λ givers. length givers.items ≡ length marks.old) }
{
    let around = Around::of(alloc, nodes)?;
    let mut rings = Rings::none(alloc);
    'rounds: loop {
        cascade(alloc, nodes, &around, &rings, marks)?;
        let givers = least_sources(alloc, &nodes.supersedes, marks)?;
        if !sweep(nodes, &givers, marks) {
            return Ok(givers);
        }
        // If a node falls even now, a ring of superseding has kept it up.
        rings = Rings::of(alloc, &nodes.supersedes, &around.superseders)?;
    }
}

// Takes the mark from each node with an open need. Returns whether there was one.
fn sweep(nodes: &Nodes, givers: &[Option<usize>], marks: &mut [bool]) -> bool
    ensures { AreSwept nodes.now givers.now (length marks.old) marks.old marks.new result }
{
    let mut fell = false;
    for node in 0..marks.len() {
        if must_fall(nodes, givers, marks, node) {
            marks[node] = false;
            fell = true;
        }
    }
    fell
}

// Whether a node is marked and has an open need.
fn must_fall(nodes: &Nodes, givers: &[Option<usize>], marks: &[bool], node: usize) -> bool
    ensures yes { OnTrue result (IsMarked marks.now node × HasOpenNeed nodes.now givers.now node) }
    ensures no { OnFalse result (IsMarked marks.now node
        → AreMet nodes.now givers.now (row nodes.now.needs node)) }
{
    is_marked(marks, node) && least_open_need(nodes, givers, node).is_some()
}

// The least need of a node that isn't there and has no giver.
pub(crate) fn least_open_need(nodes: &Nodes, givers: &[Option<usize>], node: usize) -> Option<usize>
    ensures some { IfSome result (λ need. IsLeastOpen nodes.now givers.now (row nodes.now.needs node) need) }
    ensures none { IfNone result (AreMet nodes.now givers.now (row nodes.now.needs node)) }
{
    let mut least = None;
    for need in nodes.needs_of(node) {
        if !is_met(nodes, givers, *need) {
            least = Some(lesser(least, *need));
        }
    }
    least
}

fn is_met(nodes: &Nodes, givers: &[Option<usize>], need: usize) -> bool
    ensures yes { OnTrue result (IsMarked nodes.now.there.items need ⊎ HasSource givers.now need) }
    ensures no { OnFalse result (IsOpenNeed nodes.now givers.now (need ∷ []) need) }
{
    if nodes.is_there(need) {
        return true;
    }
    source_at(givers, need).is_some()
}

// The need, or the least one before if that is less.
fn lesser(least: Option<usize>, need: usize) -> usize
    ensures { result ≡ option_map_or (λ open_need. min open_need need) least need }
{
    match least {
        Some(open) => open.min(need),
        None => need,
    }
}
