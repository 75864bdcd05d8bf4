//! The verdict on one node: its chosen plan, or why it has none.
ghost use Rattle.std.specs.Prelude.{IfOk};
ghost use Rattle.requisites.specs.Good.{AreGood};
ghost use Rattle.requisites.specs.Verdict.{IsVerdict};

use crate::NoMemory;
use crate::chosen::chosen_plan;
use crate::good::{Resolution, least_open_need};
use crate::nodes::Nodes;
use std::alloc::Global;

/// Whether a node can be installed: with which plan, or why not.
#[derive(Debug, Drop)]
pub enum Verdict {
    /// It is good, with its chosen plan, ascending.
    Good(Vec<usize>),
    /// It is held: this is the least need that isn't there and that no good node gives.
    Held(usize),
    /// It is no candidate.
    Lack,
}

/// Gives the verdict on a node, by the resolution of its nodes.
///
/// # Errors
///
/// `NoMemory` if memory ran out.
pub fn verdict_of_node(
    alloc: Global,
    nodes: &Nodes,
    resolution: &Resolution,
    node: usize,
) -> Result<Verdict, NoMemory>
    requires { AreGood nodes.now resolution.now.good.items resolution.now.givers.items }
    ensures { IfOk result (λ verdict. IsVerdict nodes.now node verdict) }
{
    if resolution.is_good(node) {
        return Ok(Verdict::Good(chosen_plan(alloc, nodes, resolution, node)?));
    }
    if !nodes.is_candidate(node) {
        return Ok(Verdict::Lack);
    }
    match least_open_need(nodes, &resolution.givers, node) {
        Some(need) => Ok(Verdict::Held(need)),
        None => unreachable!(),
    }
}
