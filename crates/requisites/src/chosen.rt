//! Chosen plans: all nodes to which lists of picks lead.
ghost use Rattle.std.specs.Prelude.{◌≡◌, IfNone, IfOk, IfSome, OnOk, filter};
ghost use Rattle.std.specs.List.Sorted.{IsStrictlyIncreasing};
ghost use Rattle.requisites.specs.Good.{AreGood};
ghost use Rattle.requisites.specs.Nodes.{IsMarked, mark_of, world};
ghost use Rattle.requisites.specs.Picks.{ArePicksFor, HasNoPick, IsNeedPick};
ghost use Rattle.requisites.specs.World.{AreChosenPlans, IsChosenPlan};

use crate::NoMemory;
use crate::good::Resolution;
use crate::marking::Marked;
use crate::nodes::Nodes;
use std::alloc::Global;

/// Finds the members of the chosen plans of the good ones of some nodes, ascending, each once. It walks from all
/// of them at once and takes each node once. It looks at the needs of no other node.
///
/// # Errors
///
/// `NoMemory` if memory ran out.
pub fn chosen_plans(
    alloc: Global,
    nodes: &Nodes,
    resolution: &Resolution,
    starts: &[usize],
) -> Result<Vec<usize>, NoMemory>
    requires { AreGood nodes.now resolution.now.good.items resolution.now.givers.items }
    ensures chosen { IfOk result (λ plans. AreChosenPlans (world nodes.now) starts.now plans.items) }
    ensures ascends { IfOk result (λ plans. IsStrictlyIncreasing plans.items) }
{
    let mut chosen = Marked::none(alloc, nodes.candidates.len())?;
    let good = good_ones(alloc, resolution, starts)?;
    chosen.mark_row(&good)?;
    let mut picks = Vec::new(alloc);
    let mut at = 0;
    while at < chosen.order.len() {
        let next = chosen.order[at];
        at += 1;
        put_picks(&mut picks, nodes, resolution, next)?;
        chosen.mark_row(&picks)?;
    }
    chosen.ascending(alloc)
}

/// The chosen plan of a good node, ascending.
pub(crate) fn chosen_plan(
    alloc: Global,
    nodes: &Nodes,
    resolution: &Resolution,
    node: usize,
) -> Result<Vec<usize>, NoMemory>
    requires good { AreGood nodes.now resolution.now.good.items resolution.now.givers.items }
    requires marked { IsMarked resolution.now.good.items node }
    ensures chosen { IfOk result (λ plan. IsChosenPlan (world nodes.now) node plan.items) }
    ensures ascends { IfOk result (λ plan. IsStrictlyIncreasing plan.items) }
{
    chosen_plans(alloc, nodes, resolution, &[node])
}

// The good ones of some nodes.
fn good_ones(
    alloc: Global,
    resolution: &Resolution,
    nodes: &[usize],
) -> Result<Vec<usize>, NoMemory>
    ensures { IfOk result
        (λ good. good.items ≡ filter (λ node. mark_of resolution.now.good.items node) nodes.now) }
{
    let mut good = Vec::new(alloc);
    for node in nodes {
        if resolution.is_good(*node) {
            good.push(*node)?;
        }
    }
    Ok(good)
}

// Turns a list into that of the picks for the needs of a node that aren't there.
fn put_picks(
    picks: &mut Vec<usize>,
    nodes: &Nodes,
    resolution: &Resolution,
    node: usize,
) -> Result<(), NoMemory>
    requires { AreGood nodes.now resolution.now.good.items resolution.now.givers.items }
    ensures { OnOk result (ArePicksFor nodes.now node picks.new.items) }
{
    picks.clear();
    for need in nodes.needs_of(node) {
        if let Some(picked) = pick(nodes, resolution, *need) {
            picks.push(picked)?;
        }
    }
    Ok(())
}

// The pick for a need that isn't there: the need itself if it is good, else the least good node that gives it.
fn pick(nodes: &Nodes, resolution: &Resolution, need: usize) -> Option<usize>
    requires { AreGood nodes.now resolution.now.good.items resolution.now.givers.items }
    ensures some { IfSome result (λ z. IsNeedPick nodes.now need z) }
    ensures none { IfNone result (HasNoPick nodes.now need) }
{
    if nodes.is_there(need) {
        return None;
    }
    if resolution.is_good(need) {
        return Some(need);
    }
    resolution.giver(need)
}
