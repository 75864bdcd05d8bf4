//! Nodes that need one another, found in one search (Tarjan's).
//!
//! No clause says that the rings found are right: each is checked before it is put. The search makes that quick.
ghost use Rattle.std.specs.Prelude.{◌≡◌, length, OnOk};
ghost use Rattle.requisites.specs.Good.{ComesNearer};

use requisites::{NoMemory, Rows, is_marked};
use std::alloc::Global;

// A node that a walk comes to, or that it leaves.
#[derive(Clone, Copy, Debug)]
enum Turn {
    Enter(usize),
    Leave(usize),
}

#[derive(Debug, Drop)]
struct Walk {
    unseen: Vec<bool>,
    work: Vec<Turn>,
}

// The nodes that were entered and are in no ring yet, and the rings. For each node: its place among those nodes, and
// the least place of a node that was found to need it and to be needed by it.
#[derive(Debug, Drop)]
struct Found {
    entered: Vec<usize>,
    is_entered: Vec<bool>,
    places: Vec<usize>,
    least: Vec<usize>,
    rings: Rows,
}

/// Puts the marked nodes in rings: nodes that need one another stand together, and the needs of a ring stand before it.
pub(crate) fn found_rings(alloc: Global, needs: &Rows, members: &[bool]) -> Result<Rows, NoMemory> {
    let mut walk = Walk {
        unseen: Vec::from_slice(alloc, members)?,
        work: Vec::new(alloc),
    };
    let mut found = Found {
        entered: Vec::new(alloc),
        is_entered: vec![in alloc; false; members.len()]?,
        places: vec![in alloc; 0; members.len()]?,
        least: vec![in alloc; 0; members.len()]?,
        rings: Rows::new(alloc),
    };
    for start in 0..members.len() {
        walk_from(&mut walk, &mut found, needs, start)?;
    }
    Ok(found.rings)
}

fn walk_from(
    walk: &mut Walk,
    found: &mut Found,
    needs: &Rows,
    start: usize,
) -> Result<(), NoMemory> {
    walk.work.push(Turn::Enter(start))?;
    while let Some(turn) = walk.work.pop() {
        take_turn(walk, found, needs, turn)?;
    }
    Ok(())
}

fn take_turn(walk: &mut Walk, found: &mut Found, needs: &Rows, turn: Turn) -> Result<(), NoMemory>
    ensures { OnOk result (ComesNearer walk.old.unseen.items walk.new.unseen.items
        (length walk.old.work.items) (length walk.new.work.items)) }
{
    match turn {
        Turn::Enter(node) => enter(walk, found, needs, node),
        Turn::Leave(node) => leave(found, needs.row(node), node),
    }
}

fn enter(walk: &mut Walk, found: &mut Found, needs: &Rows, node: usize) -> Result<(), NoMemory>
    ensures { OnOk result (ComesNearer walk.old.unseen.items walk.new.unseen.items
        (length walk.old.work.items) (length walk.new.work.items)) }
{
    if is_marked(&walk.unseen, node) {
        walk.unseen[node] = false;
        put_entered(found, node)?;
        put_turns(&mut walk.work, needs.row(node), node)?;
    }
    Ok(())
}

fn put_entered(found: &mut Found, node: usize) -> Result<(), NoMemory> {
    let place = found.entered.len();
    set_number(&mut found.places, node, place);
    set_number(&mut found.least, node, place);
    set_mark(&mut found.is_entered, node, true);
    Ok(found.entered.push(node)?)
}

// Puts the needs of a node to the work, to be entered before the node is left.
fn put_turns(work: &mut Vec<Turn>, row: &[usize], node: usize) -> Result<(), NoMemory> {
    work.push(Turn::Leave(node))?;
    for need in row {
        work.push(Turn::Enter(*need))?;
    }
    Ok(())
}

// Finds the needs of a node that need it too. If none of them was entered before it, the nodes that were entered since
// are a ring with it.
fn leave(found: &mut Found, row: &[usize], node: usize) -> Result<(), NoMemory> {
    let least = least_of(found, row, node);
    set_number(&mut found.least, node, least);
    let place = number_of(&found.places, node);
    if least == place {
        put_ring(found, place)?;
    }
    Ok(())
}

fn least_of(found: &Found, row: &[usize], node: usize) -> usize {
    let mut least = number_of(&found.least, node);
    for need in row {
        if is_marked(&found.is_entered, *need) {
            least = least.min(number_of(&found.least, *need));
        }
    }
    least
}

// Makes a ring of the nodes that were entered from a place on.
fn put_ring(found: &mut Found, place: usize) -> Result<(), NoMemory> {
    let place = place.min(found.entered.len());
    let (_, ring) = found.entered.split_at(place);
    found.rings.push_row(ring)?;
    for node in ring {
        set_mark(&mut found.is_entered, *node, false);
    }
    found.entered.truncate(place);
    Ok(())
}

fn number_of(numbers: &[usize], node: usize) -> usize {
    numbers.get(node).copied().unwrap_or(0)
}

/// Notes a number of a node, if there is room for it.
pub(crate) fn set_number(numbers: &mut [usize], node: usize, number: usize) {
    if node < numbers.len() {
        numbers[node] = number;
    }
}

/// Marks a node, or takes its mark, if there is room for it.
pub(crate) fn set_mark(marks: &mut [bool], node: usize, mark: bool)
    ensures { length marks.new ≡ length marks.old }
{
    if node < marks.len() {
        marks[node] = mark;
    }
}
