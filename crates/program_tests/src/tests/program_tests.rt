//! Whole runs, by their words, over files that are interrupted while they are read.
use super::surroundings::{Around, NoStores, STORE};
use bureau_program::run;
use sqlite::Unknown;
use std::alloc::Global;
use std::hash::RandomState;
use std::str;
use std::test::Fail;
use testing::assert_equal_at;

// The words of a run, the interruptions of each file, its status, and the text on standard error.
type Row = (&'static [&'static str], u32, u8, &'static str);

// 64 retries serve all files of a run.
static ROWS: [Row; 17] = [
    (&["replay", "callers", "empty", "empty"], 21, 0, ""),
    (
        &["replay", "callers", "empty", "empty"],
        22,
        3,
        "FAULT 71\n",
    ),
    (&["replay", "callers", "missing"], 0, 3, "FAULT 71\n"),
    (
        &["errsysmods", "--zone", "callers", "empty", "empty"],
        21,
        1,
        "FAULT 31 callers\n",
    ),
    (
        &["errsysmods", "--zone", "callers", "empty", "empty"],
        22,
        3,
        "FAULT 71 empty\n",
    ),
    (
        &["chain", "--zone", "-", "--name", "N", "S", "-"],
        0,
        2,
        "standard input is one file: give - once\n",
    ),
    (&["init", STORE, "callers"], 64, 3, "FAULT 41\n"),
    (&["init", STORE, "callers"], 65, 3, "FAULT 71\n"),
    (&["init", "another store", "callers"], 0, 3, "FAULT 42\n"),
    (&["init", "another store", "empty"], 0, 3, "FAULT 42\n"),
    (&["init", STORE, "empty"], 0, 1, "FAULT 46\n"),
    (&["serve", STORE], 0, 1, "FAULT 44\n"),
    (&["migrate", "another store"], 0, 3, "FAULT 42\n"),
    (&["check", "another store"], 0, 3, "FAULT 42\n"),
    (
        &["check", "--explain", "another store"],
        0,
        3,
        "FAULT 42\nanother program has the store open, such as its desk: stop the desk, and run it again\n",
    ),
    (
        &["check", "--explain", STORE],
        0,
        1,
        "FAULT 44\nSTORE is not there or is no store; for init: it has tables already; for check: the table that is named is wrong: give the right path; of a wrong table, docs/OPERATIONS.md tells more\n",
    ),
    (&["callers", "another store", "callers"], 0, 3, "FAULT 42\n"),
];

#[test]
fn files_that_are_interrupted_and_the_name_of_a_store(rt: HostRuntime) -> Result<(), Fail> {
    let keys = RandomState::new(&rt)?;
    for row in &ROWS {
        assert_ended(rt.alloc(), keys, row)?;
    }
    Ok(())
}

// Checks that the run ends so, and writes nothing to standard output.
fn assert_ended(alloc: Global, keys: RandomState, row: &Row) -> Result<(), Fail> {
    let (words, interruptions, status, told) = *row;
    let case = (words, interruptions);
    let mut around = Around::reading(words, interruptions, keys);
    let (mut output, mut errors) = (Vec::new(alloc), Vec::new(alloc));
    let mut input = b"".as_slice();
    let (ended, _) = run(
        &mut around,
        &mut NoStores,
        alloc,
        Unknown,
        &mut input,
        &mut output,
        &mut errors,
    );
    assert_equal_at(case, ended, status)?;
    assert_equal_at(case, output.as_slice(), b"".as_slice())?;
    assert_equal_at(case, str::from_utf8(errors.as_slice()), Ok(told))
}
