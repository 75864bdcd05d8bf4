//! Runs the rows of files in `data/` over the readers of input: statements, lists, ids and patterns, heads of requests
//! that come in pieces, and transfers whose calls fail. `testing_rows` says how a file of rows is written, and
//! `subject.rt` which commands there are.
#![tactic(auto)]

mod bytes;
mod fronts;
mod holds;
mod lists;
mod print;
mod statements;
mod subject;
mod transfers;

use std::test::Fail;
use subject::Input;
use testing_rows::{Tally, run_files};

static FILES: [&str; 6] = [
    "statements.txt",
    "holds.txt",
    "lists.txt",
    "transfers.txt",
    "fronts.txt",
    "planted.txt",
];

fn main(rt: HostRuntime) -> Result<(), Fail> {
    let alloc = rt.alloc();
    let mut tally = Tally::new(alloc);
    run_files(&rt, &mut Input::new(alloc), &mut tally, &FILES)?;
    print!(rt; "{}", tally.said)?;
    println!(rt; "input_rows: {} right, {} wrong", tally.right, tally.wrong)?;
    Ok(())
}
