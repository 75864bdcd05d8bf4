//! Marks of members.
ghost use Rattle.std.specs.Prelude.{◌≡◌, IfOk, map};
ghost use Rattle.std.specs.Bool.{OnFalse, OnTrue};
ghost use Rattle.catalogue.specs.Ids.{Ascend};
ghost use Rattle.supersede.specs.Reach.{has};
ghost use Rattle.zone_plans.specs.Graphs.{AreSourced, AreStarts, IsStart};

use faults::NoMemory;
use mcs_reader::Id;
use reports::is_among;
use requisites::{has_source, is_marked};
use std::alloc::Global;

/// Marks those of some ids that are among others.
pub(crate) fn marks_among(alloc: Global, ids: &[Id], others: &[Id]) -> Result<Vec<bool>, NoMemory>
    requires { Ascend others.now }
    ensures { IfOk result (λ marks. marks.items ≡ map (has others.now) ids.now) }
{
    let mut marks = Vec::with_capacity(alloc, ids.len())?;
    for id in ids {
        marks.push(is_among(others, id))?;
    }
    Ok(marks)
}

/// Marks the nodes that have a source.
pub(crate) fn sourced(alloc: Global, sources: &[Option<usize>]) -> Result<Vec<bool>, NoMemory>
    ensures { IfOk result (λ marks. AreSourced sources.now marks.items) }
{
    let mut marks = Vec::with_capacity(alloc, sources.len())?;
    for node in 0..sources.len() {
        marks.push(has_source(sources, node))?;
    }
    Ok(marks)
}

/// Marks the nodes that are left and have a source.
pub(crate) fn left_and_sourced(
    alloc: Global,
    left: &[bool],
    sources: &[Option<usize>],
) -> Result<Vec<bool>, NoMemory>
    ensures { IfOk result (λ marks. AreStarts left.now sources.now marks.items) }
{
    let mut marks = Vec::with_capacity(alloc, left.len())?;
    for node in 0..left.len() {
        marks.push(is_start(left, sources, node))?;
    }
    Ok(marks)
}

fn is_start(left: &[bool], sources: &[Option<usize>], node: usize) -> bool
    ensures yes { OnTrue result (IsStart left.now sources.now node) }
    ensures no { OnFalse result (IsStart left.now sources.now node → ⊥) }
{
    is_marked(left, node) && has_source(sources, node)
}
