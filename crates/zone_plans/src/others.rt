//! For each of some nodes another marked node that leads to it.
ghost use Rattle.std.specs.Prelude.{◌≡◌, ◌<◌, List, Bool, ℕ, IfOk, OnOk, length};
ghost use Rattle.requisites.specs.Sources.{AreLeastSources};
ghost use Rattle.zone_plans.specs.Climbs.{AreMirrored, AreOthers, IsMirrored, IsOther, MarksMirrored};
ghost use Rattle.zone_plans.specs.Climbs as Climbs;

use faults::NoMemory;
use requisites::{Rows, is_marked, least_sources, source_at};
use std::alloc::Global;

/// Marks of nodes, and for each node another marked one that leads to it, if there is one.
#[derive(Debug, Drop)]
pub(crate) struct Others {
    pub(crate) marks: Vec<bool>,
    pub(crate) found: Vec<Option<usize>>,
}

/// Finds for each node another marked one from which lists lead to it. It takes time in proportion to the marks and the
/// links: the least marked node that leads to a node and the greatest one are both found in one walk, and if they are
/// the node itself there is no other.
pub(crate) fn others_by(alloc: Global, lists: &Rows, marks: Vec<bool>) -> Result<Others, NoMemory>
    ensures others { IfOk result
        (λ others. AreOthers lists.now (length marks.items) others.marks.items others.found.items) }
    ensures marks { IfOk result (λ others. others.marks.items ≡ marks.items) }
{
    let found = found_by(alloc, lists, &marks)?;
    Ok(Others { marks, found })
}

fn found_by(alloc: Global, lists: &Rows, marks: &[bool]) -> Result<Vec<Option<usize>>, NoMemory>
    ensures { IfOk result (λ found. AreOthers lists.now (length marks.now) marks.now found.items) }
{
    let least = least_sources(alloc, lists, marks)?;
    let turned = mirrored_rows(alloc, lists, marks.len())?;
    let turned_marks = mirrored_marks(alloc, marks)?;
    let greatest = least_sources(alloc, &turned, &turned_marks)?;
    others_of(alloc, marks.len(), &least, &greatest)
}

// For each node another source, by the least ones and by the least ones in the order turned round.
fn others_of(
    alloc: Global,
    len: usize,
    least: &[Option<usize>],
    turned: &[Option<usize>],
) -> Result<Vec<Option<usize>>, NoMemory>
    ensures { IfOk result (λ found.
        (lists others : List (List ℕ)) (marks mirrored : List Bool) → length marks ≡ len
        → AreLeastSources lists marks least.now → AreLeastSources others mirrored turned.now
        → AreMirrored len lists others → MarksMirrored len marks mirrored
        → AreOthers lists len marks found.items) }
{
    let mut found = Vec::with_capacity(alloc, len)?;
    for node in 0..len {
        found.push(other_of(len, least, turned, node))?;
    }
    Ok(found)
}

// Another source of a node.
fn other_of(
    len: usize,
    least: &[Option<usize>],
    turned: &[Option<usize>],
    node: usize,
) -> Option<usize>
    requires { node < len }
    ensures { (lists others : List (List ℕ)) (marks mirrored : List Bool) → length marks ≡ len
        → AreLeastSources lists marks least.now → AreLeastSources others mirrored turned.now
        → AreMirrored len lists others → MarksMirrored len marks mirrored
        → IsOther lists len marks node result }
{
    let first = source_at(least, node)?;
    if first != node {
        return Some(first);
    }
    let last = mirror(len, source_at(turned, mirror(len, node))?);
    if last == node {
        return None;
    }
    Some(last)
}

// The node that stands as far from the end as another from the start.
fn mirror(len: usize, node: usize) -> usize
    ensures { result ≡ Climbs.mirror len node }
{
    if node < len { len - 1 - node } else { 0 }
}

// The rows, and the nodes of each, in their order turned round.
fn mirrored_rows(alloc: Global, lists: &Rows, len: usize) -> Result<Rows, NoMemory>
    ensures { IfOk result (λ rows. AreMirrored len lists.now rows) }
{
    let mut rows = Rows::new(alloc);
    let mut own = Vec::new(alloc);
    for node in 0..len {
        put_mirrored(&mut own, len, lists.row(mirror(len, node)))?;
        rows.push_row(&own)?;
    }
    Ok(rows)
}

fn put_mirrored(own: &mut Vec<usize>, len: usize, row: &[usize]) -> Result<(), NoMemory>
    ensures { OnOk result (IsMirrored len row.now own.new.items) }
{
    own.clear();
    for node in row {
        if *node < len {
            own.push(mirror(len, *node))?;
        }
    }
    Ok(())
}

fn mirrored_marks(alloc: Global, marks: &[bool]) -> Result<Vec<bool>, NoMemory>
    ensures { IfOk result (λ turned. MarksMirrored (length marks.now) marks.now turned.items) }
{
    let mut turned = Vec::with_capacity(alloc, marks.len())?;
    for node in 0..marks.len() {
        turned.push(is_marked(marks, mirror(marks.len(), node)))?;
    }
    Ok(turned)
}
