//! Runs the rows of `data/`: what statements publish, and questions to it and to a cache of it.
//!
//! `testing_rows` says how a file is written. `tests/rows.py` asks the built program for the rows that it can show too: its words are
//! in `tests/row_content.py`. All words, and the lines that they answer:
//!
//! | Command | What it does, or answers |
//! |---|---|
//! | `publish` | publishes the lines before it; what is kept of what they touch is dropped before |
//! | `zone ROW..` | the zone has these rows, as `UA10001,APPLIED`, and the lines before it |
//! | `categories` | the zone's patterns of categories are the lines before it |
//! | `room N` | nothing is kept, and from now on at most N frames are |
//! | `answers N`, `answers all` | the source answers so many reads more, and then fails |
//! | `fault` | the first fault of the lines before it, which aren't published |
//! | `changes` | what the lines before it would publish, in their order |
//! | `touched` | the ids of which something may change if the lines before it are published |
//! | `catalogued` | all ids that are catalogued |
//! | `record ID..` | of each id its record, `held` if it has a hold, and what supersedes it |
//! | `givers ID..` | of each id the SYSMODs that give it: itself, and what supersedes it or one that does |
//! | `frame ID..` | of each id its frame: all that its verdict may hang on, in any zone. A line for each SYSMOD in it |
//! | `nodes ID..` | how many SYSMODs the frame of each id has |
//! | `in-frame ID ID..` | whether a publication that touches the others touches the frame of the first id |
//! | `verdict ID..` | of each id GOOD and its plan, HELD and the need that blocks it, or LACK. If the verdict over all that is catalogued, that from what is kept, and that from its frame alone aren't one, all are told |
//! | `statuses` | GOOD, HELD or LACK of each id that is catalogued, by what is kept |
//! | `together ID..` | the members of the plans of these ids, or of all that are catalogued, by what is kept |
//! | `candidates ID..` | how many SYSMODs resolve each id, or of all that are catalogued, by what is kept; `there` if it is installed or given by what is |
//! | `unkept ID..` | the same by a judge that keeps nothing |
//! | `kept` | how many frames were built, and the ids whose frames are kept, the last one that was used first |
//! | `kept-nodes ID..` | how many SYSMODs the frame of each id has, which is kept from then on |
//! | `built` | how many frames were built |
//! | `same` | whether what is kept has the statuses, the plans together and the candidates that all that is catalogued has |
//! | `reads WORD ID..` | how many reads one question takes |
//! | `fails WORD ID..` | the same, if each of its reads in turn fails: it reads no more then, and tells the failure |
//!
//! The answer is `NO ANSWER` if a read fails. The questions of `reads` and `fails` are `givers`, `touched`, `verdict`,
//! `statuses`, `chain`, `errors` and `missing`, over all that is catalogued.
#![tactic(auto)]

mod asked;
mod catalogued;
mod content;
mod frames;
mod judged;
mod kept;
mod print;
mod questions;
mod reads;

use content::Content;
use std::alloc::Global;
use std::hash::RandomState;
use std::rt::Files;
use std::test::Fail;
use testing_rows::{Tally, run_files};

static NAMES: [&str; 8] = [
    "statements.txt",
    "faults.txt",
    "verdicts.txt",
    "frames.txt",
    "kept.txt",
    "candidates.txt",
    "reads.txt",
    "planted.txt",
];

fn told<R: Files + AllocGlobal>(rt: &R, keys: RandomState) -> Result<Tally, Fail> {
    let mut tally = Tally::new(rt.alloc());
    let mut content = Content::new(rt.alloc(), keys)?;
    run_files(rt, &mut content, &mut tally, &NAMES)?;
    Ok(tally)
}

fn main(rt: HostRuntime) -> Result<(), Fail> {
    let tally = told(&rt, RandomState::new(&rt)?)?;
    print!(rt; "{}", tally.said)?;
    println!(rt; "{} right, {} wrong", tally.right, tally.wrong)?;
    Ok(())
}
