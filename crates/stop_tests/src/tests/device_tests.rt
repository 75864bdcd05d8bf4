//! A device that fails at each of its calls in turn, while a store is made and while a script is served.
//!
//! The store that is opened after the stop has all that was acknowledged, with or without the change that was on its
//! way, and nothing else. Then that change is sent again, and the rest of the script has the answers that it has
//! without a stop.
use super::files::{Calls, Failing, Stoppable, after_kill, after_power_loss, new_files};
use super::script::{Checked, OPENED_AGAIN, REQUESTS};
use super::stores::{
    Opened, SHORT_LOG, Step, closed, connected, files_of, given_up, left, visited,
};
use super::trial::{Course, Stage, Trial, worked};
use bureau::Reply;
use bureau_store::StoreFault;
use sqlite::Files;
use sqlite_disk::Disk;
use std::alloc::Global;
use std::hash::RandomState;
use std::test::Fail;
use testing::{ONE_RESOLVER, TWO_RESOLVERS, assert_equal};

// The number of requests of the script that were answered before the stop, if a store was made; and the files.
type Stop<D> = (Option<usize>, Files<D>);

// Makes a store and serves the script, with its files closed and opened again between, until the device fails.
fn run<D: Disk + Drop>(trial: &mut Trial, files: Files<D>) -> Checked<Stop<D>> {
    match connected(trial.alloc, files, SHORT_LOG) {
        Ok(conn) => begin(trial, conn),
        Err(files) => Ok((None, files)),
    }
}

fn begin<D: Disk + Drop>(trial: &mut Trial, conn: Opened<D>) -> Checked<Stop<D>> {
    match visited(trial, conn, Step::Init, Course::Part(0, OPENED_AGAIN))? {
        (Ok(OPENED_AGAIN), conn) => go_on(trial, conn),
        (Ok(answered), conn) => Ok((Some(answered), files_of(conn))),
        (Err(StoreFault::Device), conn) => Ok((None, files_of(conn))),
        (Err(_), conn) => given_up(conn, "init is refused for another reason"),
    }
}

fn go_on<D: Disk + Drop>(trial: &mut Trial, conn: Opened<D>) -> Checked<Stop<D>> {
    match closed(conn) {
        Ok(files) => end(trial, files),
        Err(files) => Ok((Some(OPENED_AGAIN), files)),
    }
}

fn end<D: Disk + Drop>(trial: &mut Trial, files: Files<D>) -> Checked<Stop<D>> {
    let rest = Course::Part(OPENED_AGAIN, REQUESTS);
    match left(trial, files, Step::Open, rest)? {
        (Ok(more), files) => Ok((Some(OPENED_AGAIN.saturating_add(more)), files)),
        (Err(StoreFault::Device), files) => Ok((Some(OPENED_AGAIN), files)),
        (Err(_), _) => Err("open is refused for another reason"),
    }
}

// The stage of the script after so many answered requests, if a store was made: the next one may be on its way.
fn stage_of(answered: Option<usize>) -> Stage {
    match answered {
        Some(answered) => Stage {
            answered,
            on_their_way: 1,
        },
        None => Stage {
            answered: 0,
            on_their_way: 0,
        },
    }
}

// Makes a store in these files, which have none, since none was acknowledged. The script goes on from its beginning.
fn look_anew<D: Disk + Drop>(
    trial: &mut Trial,
    answered: Option<usize>,
    files: Files<D>,
) -> Checked<()> {
    if answered.is_some() {
        return Err("the store is lost");
    }
    match left(trial, files, Step::Init, Course::Rest(stage_of(None)))? {
        (Ok(_), _) => Ok(()),
        (Err(_), _) => Err("no store, and init is refused"),
    }
}

// Checks that these files, whose device doesn't fail now, have all that was acknowledged, and nothing else.
fn look<D: Disk + Drop>(
    trial: &mut Trial,
    answered: Option<usize>,
    files: Files<D>,
) -> Checked<()> {
    let rest = Course::Rest(stage_of(answered));
    match left(trial, files, Step::Open, rest)? {
        (Ok(_), _) => Ok(()),
        (Err(StoreFault::Shape), files) => look_anew(trial, answered, files),
        (Err(_), _) => Err("open is refused for another reason"),
    }
}

// Lets these files fail. Returns the number of requests that were answered before.
fn stopped<D: Stoppable>(trial: &mut Trial, files: Files<D>) -> Checked<Option<usize>> {
    let (answered, files) = run(trial, files)?;
    let killed = after_kill(trial.alloc, &files)?;
    look(trial, answered, killed)?;
    look(trial, answered, after_power_loss(files))?;
    Ok(answered)
}

// Lets the files fail after so many calls.
fn stopped_after(trial: &mut Trial, calls: Calls) -> Checked<Option<usize>> {
    stopped(trial, new_files(trial.alloc, calls))
}

// The requests of the script after which a run was stopped, as each call of one of the files failed in turn.
fn stops(alloc: Global, keys: RandomState, failing: Failing) -> Result<Vec<Option<usize>>, Fail> {
    let mut trial = worked(alloc, keys)?;
    let mut stops = Vec::new(alloc);
    for calls in 0..10_000u64 {
        match stopped_after(&mut trial, failing.after(calls)) {
            Ok(Some(REQUESTS)) => return Ok(stops),
            Ok(answered) => stops.push(answered)?,
            Err(why) => return Err(Fail::new(format_args!("{why}, after {calls} calls"))),
        }
    }
    Err("the script never runs through".into())
}

// The changes of the script.
static CHANGES: [usize; 9] = [0, 1, 2, 3, 7, 8, 11, 12, 13];

#[test]
fn nothing_acknowledged_is_lost_where_the_log_fails(rt: HostRuntime) -> Result<(), Fail> {
    let stops = stops(rt.alloc(), RandomState::new(&rt)?, Failing::Log)?;
    assert!(rt; stops.contains(&None));
    for &change in &CHANGES {
        assert!(rt; stops.contains(&Some(change)), "{change}");
    }
    Ok(())
}

#[test]
fn nothing_acknowledged_is_lost_where_the_database_fails(rt: HostRuntime) -> Result<(), Fail> {
    let stops = stops(rt.alloc(), RandomState::new(&rt)?, Failing::Database)?;
    assert!(rt; stops.contains(&None) && stops.contains(&Some(OPENED_AGAIN)));
    Ok(())
}

// The counts of what is published, and ALPHA's report, before the first request of the script and after each up to the
// eleventh.
static SEEN: [(&str, &str); 12] = [
    ("PUBLISHED SYSMODS 0 HOLDS 0\n", "NOT FOUND\n"),
    ("PUBLISHED SYSMODS 3 HOLDS 1\n", "NOT FOUND\n"),
    ("PUBLISHED SYSMODS 3 HOLDS 1\n", ONE_RESOLVER),
    ("PUBLISHED SYSMODS 3 HOLDS 1\n", ONE_RESOLVER),
    ("PUBLISHED SYSMODS 3 HOLDS 1\n", ONE_RESOLVER),
    ("PUBLISHED SYSMODS 3 HOLDS 1\n", ONE_RESOLVER),
    ("PUBLISHED SYSMODS 3 HOLDS 1\n", ONE_RESOLVER),
    ("PUBLISHED SYSMODS 3 HOLDS 1\n", ONE_RESOLVER),
    ("PUBLISHED SYSMODS 6 HOLDS 1\n", TWO_RESOLVERS),
    ("PUBLISHED SYSMODS 6 HOLDS 1\n", TWO_RESOLVERS),
    ("PUBLISHED SYSMODS 6 HOLDS 1\n", TWO_RESOLVERS),
    ("PUBLISHED SYSMODS 6 HOLDS 1\n", TWO_RESOLVERS),
];

fn is_seen(replies: &[Reply], counts: &str, report: &str) -> bool {
    let [told, listed, ..] = replies else {
        return false;
    };
    told.body.as_slice() == counts.as_bytes() && listed.body.as_slice() == report.as_bytes()
}

// So a stop in a client's change shows in nobody else's answers, and one in a publication shows it whole or not at all.
#[test]
fn what_is_right_is_what_was_worked_out(rt: HostRuntime) -> Result<(), Fail> {
    let trial = worked(rt.alloc(), RandomState::new(&rt)?)?;
    assert_equal(trial.after.len(), 16)?;
    for (replies, (counts, report)) in trial.after.iter().zip(&SEEN) {
        assert!(rt; is_seen(replies.as_slice(), counts, report), "{counts}");
    }
    Ok(())
}
