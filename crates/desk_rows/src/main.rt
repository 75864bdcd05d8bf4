//! Runs the rows of `data/` at a desk over lists: by each judge, with room for one frame and for many, and with a
//! device that fails.
//!
//! `rows.rt` says which words a row may have beside requests. `tests/row_desk.py` runs the same files through the
//! program.
#![tactic(auto)]

mod asked;
mod desk;
mod judged;
mod rows;
mod told;

use chain_cache::ChainCache;
use chains::Whole;
use desk::Desk;
use judged::Judged;
use std::hash::RandomState;
use std::rt::Files;
use std::test::Fail;
use testing_rows::{Tally, run_files};

// Requests to which each judge gives the same answer.
static REQUESTS: [&str; 8] = [
    "clients.txt",
    "conditions.txt",
    "failures.txt",
    "lists.txt",
    "numbers.txt",
    "patterns.txt",
    "refusals.txt",
    "verdicts.txt",
];

static ROOMS: [u32; 3] = [1, 2, 1_024];

// The rows of files, with room for so many frames.
fn run<J: Judged, R: Files + AllocGlobal>(
    rt: &R,
    keys: RandomState,
    room: u32,
    tally: &mut Tally,
    names: &[&str],
) -> Result<(), Fail> {
    let mut desk: Desk<J> = Desk::new(rt.alloc(), keys, room)?;
    run_files(rt, &mut desk, tally, names)
}

fn run_each<R: Files + AllocGlobal>(
    rt: &R,
    keys: RandomState,
    tally: &mut Tally,
) -> Result<(), Fail> {
    run::<Whole, R>(rt, keys, 0, tally, &REQUESTS)?;
    for room in &ROOMS {
        run::<ChainCache, R>(rt, keys, *room, tally, &REQUESTS)?;
    }
    run::<ChainCache, R>(rt, keys, 16, tally, &["frames.txt"])
}

fn main(rt: HostRuntime) -> Result<(), Fail> {
    let keys = RandomState::new(&rt)?;
    let (mut tally, mut planted) = (Tally::new(rt.alloc()), Tally::new(rt.alloc()));
    run_each(&rt, keys, &mut tally)?;
    run::<ChainCache, HostRuntime>(&rt, keys, 16, &mut planted, &["planted.txt"])?;
    println!(rt; "{}{}", tally.said, planted.said)?;
    println!(rt;
        "{} right, {} wrong, {} seen of those that were planted",
        tally.right, tally.wrong, planted.wrong
    )?;
    Ok(())
}
