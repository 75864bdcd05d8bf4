//! The number of steps before each node.
ghost use Rattle.std.specs.Prelude.{◌≡◌, ◌<◌, ◌≤◌, ◌∷◌, [], ℕ, None, IfOk, IfSome, OnOk, length, max};
ghost use Rattle.requisites.specs.Nodes.{row};
ghost use Rattle.install_order.specs.Levels.{AreCounted, AreLevelled, AreLevels, AreLevelsBelow, AreRows, AreNodesWith, IsJustAbove, IsLevelOf, IsPutAt, IsPutBy, level_of, lists_in, raise};
ghost use Rattle.install_order.specs.Rings.{AreRingsAfter};
ghost use Rattle.install_order.specs.Steps.{StandsIn};

use requisites::{NoMemory, Rows};
use std::alloc::Global;

/// Finds the number of steps before each node of a ring, by rings in order. It is one more than the greatest number of
/// those that the node needs, but for those of its own ring.
pub(crate) fn levels_along(
    alloc: Global,
    needs: &Rows,
    rings: &Rows,
    len: usize,
) -> Result<Vec<Option<usize>>, NoMemory>
    ensures levels { IfOk result (λ levels. AreRingsAfter needs.now len [] rings.now
        → ((p : ℕ) → StandsIn rings.now p → p < len)
        → AreLevels needs.now len (StandsIn rings.now) levels.items) }
    ensures below { IfOk result (λ levels. AreLevelsBelow levels.items (length rings.now)) }
{
    let mut levels = vec![in alloc; None; len]?;
    put_levels(needs, rings, &mut levels);
    Ok(levels)
}

fn put_levels(needs: &Rows, rings: &Rows, levels: &mut [Option<usize>])
    requires { (p : ℕ) → level_of levels.old p ≡ None }
    ensures levels { AreRingsAfter needs.now (length levels.old) [] rings.now
        → ((p : ℕ) → StandsIn rings.now p → p < length levels.old)
        → AreLevels needs.now (length levels.old) (StandsIn rings.now) levels.new }
    ensures below { AreLevelsBelow levels.new (length rings.now) }
{
    for index in 0..rings.len() {
        let level = ring_level(needs, levels, rings.row(index), index);
        set_levels(levels, rings.row(index), level);
    }
}

// The level of a ring, by those of the rings before it.
fn ring_level(needs: &Rows, levels: &[Option<usize>], ring: &[usize], most: usize) -> usize
    requires { AreLevelsBelow levels.now most }
    ensures level { IsLevelOf needs.now levels.now ring.now result }
    ensures most { result ≤ most }
{
    let mut level = 0;
    for node in ring {
        level = greater(level, level_above(needs.row(*node), levels, most));
    }
    level
}

fn greater(one: usize, other: usize) -> usize
    ensures { result ≡ max one other }
{
    one.max(other)
}

// One more than the greatest level in a row.
fn level_above(row: &[usize], levels: &[Option<usize>], most: usize) -> usize
    requires { AreLevelsBelow levels.now most }
    ensures level { IsJustAbove levels.now row.now result }
    ensures most { result ≤ most }
{
    let mut level = 0;
    for node in row {
        level = raised(level, level_at(levels, *node), most);
    }
    level
}

// The level, or the one just above `below` if that is greater.
fn raised(level: usize, below: Option<usize>, most: usize) -> usize
    requires { IfSome below (λ below. below < most) }
    ensures level { result ≡ raise level below }
    ensures most { level ≤ most → result ≤ most }
{
    match below {
        Some(below) => level.max(below + 1),
        None => level,
    }
}

fn level_at(levels: &[Option<usize>], node: usize) -> Option<usize>
    ensures { result ≡ level_of levels.now node }
{
    levels.get(node).copied().flatten()
}

fn set_levels(levels: &mut [Option<usize>], nodes: &[usize], level: usize)
    ensures { AreLevelled nodes.now level levels.old levels.new }
{
    for node in nodes {
        set_level(levels, *node, level);
    }
}

fn set_level(levels: &mut [Option<usize>], node: usize, level: usize)
    ensures { AreLevelled (node ∷ []) level levels.old levels.new }
{
    if node < levels.len() {
        levels[node] = Some(level);
    }
}

/// For each level the nodes that have it, ascending.
pub(crate) fn rows_by_level(
    alloc: Global,
    levels: &[Option<usize>],
    most: usize,
) -> Result<Rows, NoMemory>
    requires { AreLevelsBelow levels.now most }
    ensures { IfOk result (λ rows. AreRows levels.now rows) }
{
    let count = level_count(levels, most);
    let nodes = nodes_by_level(alloc, levels, count)?;
    rows_of(alloc, &nodes)
}

// The number of levels.
fn level_count(levels: &[Option<usize>], most: usize) -> usize
    requires { AreLevelsBelow levels.now most }
    ensures { AreCounted levels.now result }
{
    let mut count = 0;
    for node in 0..levels.len() {
        count = raised(count, level_at(levels, node), most);
    }
    count
}

// For each level its nodes, ascending.
fn nodes_by_level(
    alloc: Global,
    levels: &[Option<usize>],
    count: usize,
) -> Result<Vec<Vec<usize>>, NoMemory>
    ensures nodes { IfOk result
        (λ nodes. AreNodesWith levels.now (length levels.now) (lists_in nodes.items)) }
    ensures len { IfOk result (λ nodes. length nodes.items ≡ count) }
{
    let mut nodes = no_nodes(alloc, count)?;
    put_nodes(&mut nodes, levels)?;
    Ok(nodes)
}

// So many lists without nodes.
fn no_nodes(alloc: Global, count: usize) -> Result<Vec<Vec<usize>>, NoMemory>
    ensures none { IfOk result (λ nodes. (level : ℕ) → row (lists_in nodes.items) level ≡ []) }
    ensures len { IfOk result (λ nodes. length nodes.items ≡ count) }
{
    let mut nodes = Vec::with_capacity(alloc, count)?;
    for _level in 0..count {
        nodes.push(Vec::new(alloc))?;
    }
    Ok(nodes)
}

// Puts each node to those of its level.
fn put_nodes(nodes: &mut [Vec<usize>], levels: &[Option<usize>]) -> Result<(), NoMemory>
    requires { AreNodesWith levels.now 0 (lists_in nodes.old) }
    ensures nodes { OnOk result (AreNodesWith levels.now (length levels.now) (lists_in nodes.new)) }
    ensures len { length nodes.new ≡ length nodes.old }
{
    for node in 0..levels.len() {
        put_node(nodes, level_at(levels, node), node)?;
    }
    Ok(())
}

// Puts a node to those of its level, if it has one.
fn put_node(nodes: &mut [Vec<usize>], level: Option<usize>, node: usize) -> Result<(), NoMemory>
    ensures put { OnOk result (IsPutBy level node (lists_in nodes.old) (lists_in nodes.new)) }
    ensures len { length nodes.new ≡ length nodes.old }
{
    match level {
        Some(level) => put_at(nodes, level, node),
        None => Ok(()),
    }
}

fn put_at(nodes: &mut [Vec<usize>], level: usize, node: usize) -> Result<(), NoMemory>
    ensures put { OnOk result (IsPutAt level node (lists_in nodes.old) (lists_in nodes.new)) }
    ensures len { length nodes.new ≡ length nodes.old }
{
    if level < nodes.len() {
        nodes[level].push(node)?;
    }
    Ok(())
}

fn rows_of(alloc: Global, nodes: &[Vec<usize>]) -> Result<Rows, NoMemory>
    ensures { IfOk result (λ rows. rows ≡ lists_in nodes.now) }
{
    let mut rows = Rows::new(alloc);
    for own in nodes {
        rows.push_row(own)?;
    }
    Ok(rows)
}
